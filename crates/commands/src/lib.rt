//! What a host sends for each call of a glass: registers, each as its index and its word, and then the index of colours.
#![tactic(auto)]

ghost use Rattle.std.specs.Prelude.{◌≡◌};
ghost use Rattle.pixel.specs.Addresses.{place_of};
ghost use Rattle.registers.specs.Register.{register_number};
ghost use Rattle.lgdp4522.specs.Wired.{wired};
ghost use Rattle.host.specs.Sent.{Went};
ghost use Rattle.commands.specs.Commands.{edges, frame_items, go_items, ink_items, setting_items, sleep_items};

use cells::CellMemory;
use host::send_all;
use lgdp4522::Lgdp4522;
use link::{Item, Link};
use pixel::address::Address;
use pixel::colour::{blue, green, red};
use pixel::mode::Mode;
use pixel::rect::Rect;
use registers::register::Register;

// A window word: the high edge in bits 15 to 8, the low one in 7 to 0, each by its lower eight bits.
fn window_word(low: u16, high: u16) -> u16
    ensures { result ≡ edges low high }
{
    high % 256 * 256 + low % 256
}

// Mode (R03h, BGR 0), columns (R44h), rows (R45h), the mask of green and blue (R23h) and of red (R24h).
fn framing(rect: Rect, mode: Mode, mask: u32) -> [Item; 11]
    ensures { result ≡ frame_items rect mode mask }
{
    let green_blue = green(mask) * 256 + blue(mask);
    [
        Register::EntryMode.into(),
        Item::Word(u16::from(u8::from(mode)) * 8),
        Register::Columns.into(),
        Item::Word(window_word(rect.left, rect.right)),
        Register::Rows.into(),
        Item::Word(window_word(rect.top, rect.bottom)),
        Register::GreenBlueMask.into(),
        Item::Word(green_blue as u16),
        Register::RedMask.into(),
        Item::Word(red(mask) as u16),
        Register::Colours.into(), // colours follow the frame
    ]
}

// One register and its word; colours follow.
fn setting(register: Register, word: u16) -> [Item; 3]
    ensures { result ≡ setting_items (register_number register) word }
{
    [register.into(), Item::Word(word), Register::Colours.into()]
}

pub fn send_frame<L: Link, M: CellMemory>(
    chip: &mut Lgdp4522<L, M>,
    rect: Rect,
    mode: Mode,
    mask: u32,
)
    ensures { Went (frame_items rect mode mask) (wired L.state M.cells chip.old)
        (wired L.state M.cells chip.new) }
{
    send_all(chip, &framing(rect, mode, mask));
}

/// The place (R21h), as an address.
pub fn send_go<L: Link, M: CellMemory>(chip: &mut Lgdp4522<L, M>, address: Address)
    ensures { Went (go_items (place_of address)) (wired L.state M.cells chip.old)
        (wired L.state M.cells chip.new) }
{
    send_all(chip, &setting(Register::Address, address.into()));
}

pub fn send_ink<L: Link, M: CellMemory>(chip: &mut Lgdp4522<L, M>, colour: u32)
    ensures { Went (ink_items colour) (wired L.state M.cells chip.old)
        (wired L.state M.cells chip.new) }
{
    send_all(chip, &[Item::Colour(colour)]);
}

/// Sleep or wake (R10h, bit 1).
pub fn send_sleep<L: Link, M: CellMemory>(chip: &mut Lgdp4522<L, M>, asleep: bool)
    ensures { Went (sleep_items asleep) (wired L.state M.cells chip.old)
        (wired L.state M.cells chip.new) }
{
    let power = 2 * u16::from(asleep);
    send_all(chip, &setting(Register::Power, power));
}
