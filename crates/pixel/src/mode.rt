//! Modes: where a window's first cell is, and how a place steps through the window.
ghost use Rattle.std.specs.Prelude.{◌≡◌, if◌then◌else◌};
ghost use Rattle.pixel.specs.Modes.{NamesMode, mode_number, mode_of, moved, passes, start_corner, stepped};

use crate::rect::{Place, Rect};

/// To the right or to the left, down or up, and whether along the column first (vertical) or along the row.
#[derive(Clone, Copy, Debug, PartialEq, Eq, Hash)]
pub struct Mode {
    pub down: bool,
    pub right: bool,
    pub vertical: bool,
}

impl Mode {
    /// The mode of a number: bit 2 down, bit 1 right, bit 0 column first; higher bits are ignored.
    // Those are lost, so it is no `From`.
    pub fn from_number(number: u8) -> Mode
        ensures { result ≡ mode_of number }
    {
        Mode {
            down: number / 4 % 2 == 1,
            right: number / 2 % 2 == 1,
            vertical: number % 2 == 1,
        }
    }
}

/// A number that names no mode: one above 7.
#[derive(Clone, Copy, Debug, PartialEq, Eq, Hash)]
pub struct UnknownMode(pub u8);

// The mode of a number, where the number names one.
impl TryFrom<u8> for Mode {
    type Error = UnknownMode;

    ghost try_from_gives = { NamesMode };

    fn try_from(number: u8) -> Result<Self, UnknownMode> {
        if number > 7 {
            return Err(UnknownMode(number));
        }
        Ok(Mode::from_number(number))
    }
}

// A mode's number, 0 to 7.
impl From<Mode> for u8 {
    ghost from_gives = { λ m n. n ≡ mode_number m };

    fn from(mode: Mode) -> u8 {
        4 * u8::from(mode.down) + 2 * u8::from(mode.right) + u8::from(mode.vertical)
    }
}

// One way through a window: across its columns, or down its rows; up or down between two edges.
#[derive(Clone, Copy)]
struct Way {
    up: bool,
    low: u16,
    high: u16,
}

impl Way {
    // The edge that it starts from.
    fn start(self) -> u16
        ensures { result ≡ (if self.up then self.low else self.high) }
    {
        if self.up { self.low } else { self.high }
    }

    // Whether a coordinate has none left before the edge.
    fn at_edge(self, v: u16) -> bool
        ensures { result ≡ passes self.up self.low self.high v }
    {
        if self.up {
            v >= self.high
        } else {
            v <= self.low
        }
    }

    // One coordinate moves by one; past the edge it goes to the opposite edge.
    fn advance(self, v: u16) -> u16
        ensures { result ≡ moved self.up self.low self.high v }
    {
        if self.at_edge(v) {
            self.start()
        } else if self.up {
            v + 1
        } else {
            v - 1
        }
    }

    // A step: `v` moves along this way, and where it passes the edge `w` moves along the other.
    fn step(self, other: Way, v: u16, w: u16) -> (u16, u16)
        ensures first { result.0 ≡ moved self.up self.low self.high v }
        ensures second { result.1 ≡
            (if passes self.up self.low self.high v then moved other.up other.low other.high w else w) }
    {
        let w = if self.at_edge(v) { other.advance(w) } else { w };
        (self.advance(v), w)
    }
}

impl Rect {
    fn columns(self, mode: Mode) -> Way
        ensures { result ≡ record { up = mode.right; low = self.left; high = self.right } }
    {
        Way {
            up: mode.right,
            low: self.left,
            high: self.right,
        }
    }

    fn rows(self, mode: Mode) -> Way
        ensures { result ≡ record { up = mode.down; low = self.top; high = self.bottom } }
    {
        Way {
            up: mode.down,
            low: self.top,
            high: self.bottom,
        }
    }

    /// The start corner: left if the mode goes right, else right; top if it goes down, else bottom.
    pub fn start(self, mode: Mode) -> Place
        ensures { result ≡ start_corner self mode }
    {
        let x = self.columns(mode).start();
        let y = self.rows(mode).start();
        Place { x, y }
    }

    /// One step: row first, x moves one, and where it passes the edge y moves too; column first exchanges x and y.
    /// A place outside the window steps by the same rule: beyond an edge counts as at it.
    pub fn step(self, mode: Mode, place: Place) -> Place
        ensures { result ≡ stepped self mode place }
    {
        let columns = self.columns(mode);
        let rows = self.rows(mode);
        if mode.vertical {
            let (y, x) = rows.step(columns, place.y, place.x);
            Place { x, y }
        } else {
            let (x, y) = columns.step(rows, place.x, place.y);
            Place { x, y }
        }
    }
}
