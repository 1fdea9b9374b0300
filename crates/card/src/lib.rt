//! A test card, drawn over a link by registers and colours alone.
#![tactic(auto)]

ghost use Rattle.std.specs.Prelude.{◌≡◌, ℕ, ◌-◌, ◌^◌, ◌<◌, min, length, slice_index};
ghost use Rattle.lgdp4522.specs.Wired.{wired};
ghost use Rattle.host.specs.Sent.{beats_of};
ghost use Rattle.card.specs.Cards.{card_cells, card_items, shown_at};

pub mod page;

use cells::{CellMemory, Lent};
use host::send_all;
use lgdp4522::Lgdp4522;
use link::{Item, Link};
use pixel::rect::{Place, Size};
use registers::register::Register;

const MODE: Item = Item::Index(Register::EntryMode as u8);

const COLUMNS: Item = Item::Index(Register::Columns as u8);

const ROWS: Item = Item::Index(Register::Rows as u8);

const PLACE: Item = Item::Index(Register::Address as u8);

const RED_MASK: Item = Item::Index(Register::RedMask as u8);

const COLOURS: Item = Item::Index(Register::Colours as u8);

const K: Item = Item::Colour(0);

const B: Item = Item::Colour(0x0003e);

const G: Item = Item::Colour(0x00fc0);

const C: Item = Item::Colour(0x00ffe);

const R: Item = Item::Colour(0x3e000);

const M: Item = Item::Colour(0x3e03e);

const Y: Item = Item::Colour(0x3efc0);

const W: Item = Item::Colour(0x3effe);

/// What was drawn over a link: the beats that it took, and the cells row by row.
#[derive(Clone, Copy, Debug, PartialEq, Eq, Hash)]
pub struct Card {
    pub beats: usize,
    pub cells: [u32; 32],
}

/// Draws the card on a controller of 8 × 4 behind a link.
pub fn draw<L: Link + Drop>(link: L) -> Card
    ensures beats { result.beats ≡ min (beats_of (L.state link).format card_items) (2 ^ 64 - 1) }
    ensures cells { result.cells ≡ card_cells (L.state link).format }
{
    let mut cells = [0; 32];
    let mut chip = Lgdp4522::fit(
        link,
        Lent::new(&mut cells),
        Size {
            width: 8,
            height: 4,
        },
    );
    let beats = send_all(&mut chip, &ITEMS);
    Card {
        beats,
        cells: shown(&chip),
    }
}

// The cells that a controller of 8 × 4 shows, row by row; 0 for one that is not there. A loop and no `array::from_fn`: with
// that the proof needs an induction of its own, beside which an edit of this code is no longer refused here.
fn shown<L: Link, M: CellMemory>(chip: &Lgdp4522<L, M>) -> [u32; 32]
    ensures long { length result ≡ 32 }
    ensures cells { (k : ℕ) → k < 32 → slice_index result k ≡
        shown_at (wired L.state M.cells chip.now).chip k }
{
    let mut cells = [0; 32];
    for (k, cell) in cells.iter_mut().enumerate() {
        let (x, y) = ((k % 8) as u16, (k / 8) as u16);
        *cell = chip.cell(Place { x, y }).unwrap_or(0);
    }
    cells
}

// Four parts, each with its mode (R03h), its window (R44h, R45h) and its colours (22h).
const ITEMS: [Item; 70] = [
    // the eight colours along the top row: mode 6, right and down, row first
    MODE,
    Item::Word(0x0030),
    COLUMNS,
    Item::Word(0x0700),
    ROWS,
    Item::Word(0x0300),
    COLOURS,
    K,
    B,
    G,
    C,
    R,
    M,
    Y,
    W,
    // mode 7, column first: the ninth colour wraps to the first cell
    MODE,
    Item::Word(0x0038),
    COLUMNS,
    Item::Word(0x0300),
    ROWS,
    Item::Word(0x0201),
    COLOURS,
    R,
    G,
    R,
    G,
    R,
    G,
    R,
    G,
    B,
    // mode 0, left and up: from the bottom right corner
    MODE,
    Item::Word(0x0000),
    COLUMNS,
    Item::Word(0x0704),
    ROWS,
    Item::Word(0x0201),
    COLOURS,
    Y,
    C,
    M,
    W,
    B,
    G,
    R,
    K,
    // the bottom row yellow, then from column 4 on cyan under a mask that keeps red
    MODE,
    Item::Word(0x0030),
    COLUMNS,
    Item::Word(0x0700),
    ROWS,
    Item::Word(0x0303),
    COLOURS,
    Y,
    Y,
    Y,
    Y,
    Y,
    Y,
    Y,
    Y,
    PLACE,
    Item::Word(0x0304),
    RED_MASK,
    Item::Word(0x003f),
    COLOURS,
    C,
    C,
    C,
    C,
];
