//! The controller's registers, and what a word makes of them.
#![tactic(auto)]

ghost use Rattle.std.specs.Prelude.{◌≡◌};
ghost use Rattle.pixel.specs.Modes.{stepped};
ghost use Rattle.registers.specs.Registers.{by_bgr, edges_of, power_on, set_columns, set_place, set_register, set_rows, with_index, with_place, with_window, written};

pub mod register;

use crate::register::Register;
use pixel::address::Address;
use pixel::colour::{blue, exchange, green, mix, red};
use pixel::mode::Mode;
use pixel::rect::{Place, Rect, Size};

/// The screen's size and what the registers hold. Only a screen of 0 × 0 has no window; its other registers have their values.
#[derive(Clone, Copy, Debug, PartialEq, Eq, Hash)]
pub struct Registers {
    pub size: Size,
    /// where colours go, and where the next one goes (the address counter)
    pub window: Option<Rect>,
    pub place: Place,
    pub mode: Mode,
    /// red and blue of arriving colours are exchanged
    pub bgr: bool,
    pub mask: u32,
    /// the register that the next word goes to: a number, since any of 128 may be sent
    pub index: u8,
    pub asleep: bool,
}

// The low edge (bits 7 to 0) and the high one (bits 15 to 8) of a window word, where low ≤ high < limit.
fn edges(word: u16, limit: u16) -> Option<(u16, u16)>
    ensures { result ≡ edges_of word limit }
{
    let (low, high) = (word % 256, word / 256);
    (low <= high && high < limit).then_some((low, high))
}

impl Registers {
    /// Power-on: the whole screen is the window; a size with a side of 0 has none.
    pub fn power_on(size: Size) -> Registers
        ensures { result ≡ power_on size }
    {
        let window = (size.width >= 1 && size.height >= 1).then(|| Rect {
            left: 0,
            top: 0,
            right: size.width - 1,
            bottom: size.height - 1,
        });
        let mode = Mode {
            down: true,
            right: true,
            vertical: false,
        };
        Registers {
            size,
            window,
            place: Place { x: 0, y: 0 },
            mode,
            bgr: false,
            mask: 0,
            index: 0,
            asleep: false,
        }
    }

    /// An index is always taken.
    pub fn point(&mut self, index: u8)
        ensures { self.new ≡ with_index index self.old }
    {
        self.index = index;
    }

    /// A word goes to the register that the index names; asleep, every word but R10h's is dropped.
    pub fn write(&mut self, word: u16)
        ensures { self.new ≡ written word self.old }
    {
        if !self.asleep || self.index == u8::from(Register::Power) {
            self.set(word);
        }
    }

    /// The place after a colour was written there.
    pub fn advance(&mut self, window: Rect)
        ensures { self.new ≡ with_place (stepped window self.old.mode self.old.place) self.old }
    {
        self.place = window.step(self.mode, self.place);
    }

    /// A colour as it goes to memory.
    pub fn arriving(&self, colour: u32) -> u32
        ensures { result ≡ by_bgr self.now.bgr colour }
    {
        if self.bgr { exchange(colour) } else { colour }
    }

    fn set(&mut self, word: u16)
        ensures { self.new ≡ set_register self.old.index word self.old }
    {
        let parts = u32::from(word); // of a mask
        match Register::try_from(self.index) {
            Ok(Register::EntryMode) => {
                self.mode = Mode::from_number((word / 8 % 8) as u8);
                self.bgr = word / 4096 % 2 == 1;
            }
            Ok(Register::Power) => self.asleep = word / 2 % 2 == 1,
            Ok(Register::Address) => self.set_place(word),
            Ok(Register::GreenBlueMask) => self.mask = mix(red(self.mask), parts / 256, parts),
            Ok(Register::RedMask) => self.mask = mix(parts, green(self.mask), blue(self.mask)),
            Ok(Register::Columns) => self.set_columns(word),
            Ok(Register::Rows) => self.set_rows(word),
            Ok(Register::Colours) | Err(_) => {}
        }
    }

    // R21h sets the place to an address; one outside the window is dropped.
    fn set_place(&mut self, word: u16)
        ensures { self.new ≡ set_place self.old.window word self.old }
    {
        let place = Place::from(Address::from(word));
        if self.window.is_some_and(|window| window.holds(place)) {
            self.place = place;
        }
    }

    // R44h sets the window's columns, unless they are out of order or off the screen.
    fn set_columns(&mut self, word: u16)
        ensures { self.new ≡ set_columns self.old.window word self.old }
    {
        if let Some(old) = self.window
            && let Some((left, right)) = edges(word, self.size.width)
        {
            self.set_window(Rect { left, right, ..old });
        }
    }

    // R45h sets the window's rows, unless they are out of order or off the screen.
    fn set_rows(&mut self, word: u16)
        ensures { self.new ≡ set_rows self.old.window word self.old }
    {
        if let Some(old) = self.window
            && let Some((top, bottom)) = edges(word, self.size.height)
        {
            self.set_window(Rect { top, bottom, ..old });
        }
    }

    // A new window moves the place to the start corner of the mode.
    fn set_window(&mut self, window: Rect)
        ensures { self.new ≡ with_window window self.old }
    {
        self.window = Some(window);
        self.place = window.start(self.mode);
    }
}
