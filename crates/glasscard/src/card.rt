//! The test card by calls of a glass, and a chain of calls that has every refusal of frame, go and ink in it; for a glass of
//! 8 × 4, each call with the number that it should be answered by.
use calls::{Call, Step};
use pixel::rect::{Place, Rect};

// The eight colours with all their bits, so that the short links do not carry all of them unchanged.
const BLACK: u32 = 0;

const BLUE: u32 = 0x0003f;

const GREEN: u32 = 0x00fc0;

const CYAN: u32 = 0x00fff;

const RED: u32 = 0x3f000;

const MAGENTA: u32 = 0x3f03f;

const YELLOW: u32 = 0x3ffc0;

pub(super) const WHITE: u32 = 0x3ffff;

// A call, and the answer's number; 0, accepted, where none stands. They are literals, since the rule numbers the refusals.
macro_rules! step {
    ($call:expr) => { step!($call => 0) };
    ($call:expr => $answer:expr) => { Step { call: $call, answer: $answer } };
}

// Left, top, right, bottom; mode and mask.
macro_rules! frame {
    ($left:expr, $top:expr, $right:expr, $bottom:expr; $mode:expr, $mask:expr $(=> $answer:expr)?) => {
        step!(
            Call::Frame {
                rect: Rect { left: $left, top: $top, right: $right, bottom: $bottom },
                mode: $mode,
                mask: $mask,
            } $(=> $answer)?
        )
    };
}

macro_rules! go {
    ($x:expr, $y:expr $(=> $answer:expr)?) => {
        step!(Call::Go(Place { x: $x, y: $y }) $(=> $answer)?)
    };
}

macro_rules! ink {
    ($colour:expr $(=> $answer:expr)?) => {
        step!(Call::Ink($colour) $(=> $answer)?)
    };
}

// Every refusal of frame, go and ink, in colours that every link carries unchanged.
pub(super) const CHAIN: &[Step] = &[
    // Before the first frame there is no window; of a frame the rectangle is refused before the mode, and that before the mask.
    ink!(0 => 3),
    go!(0, 0 => 4),
    frame!(0, 0, 8, 3; 6, 0 => 3),
    frame!(3, 0, 2, 3; 6, 0 => 3),
    frame!(0, 3, 7, 2; 6, 0 => 3),
    frame!(0, 0, 7, 4; 6, 0 => 3),
    frame!(0, 0, 8, 3; 8, 0x40000 => 3),
    frame!(0, 0, 7, 3; 8, 0x40000 => 15),
    frame!(0, 0, 7, 3; 7, 0x40000 => 5),
    // Two columns from the bottom left up (mode 3), in colours that every link carries unchanged; places outside, and one inside.
    frame!(1, 1, 2, 3; 3, 0),
    ink!(0x3e000),
    ink!(0x00fc0),
    ink!(0x0003e),
    ink!(0x3effe),
    go!(0, 1 => 4),
    go!(3, 1 => 4),
    go!(2, 0 => 4),
    go!(1, 4 => 4),
    go!(2, 1),
    ink!(0x3efc0),
    ink!(0x40000 => 5),
    ink!(0x00ffe),
    // Asleep nothing lands, whatever else is wrong; awake again, window, place and mode are as they were.
    step!(Call::Sleep),
    ink!(0x40000 => 2),
    go!(9, 9 => 2),
    frame!(9, 0, 0, 0; 9, 0x40000 => 2),
    step!(Call::Sleep),
    step!(Call::Wake),
    ink!(0x3e03e),
    // Under a mask that keeps green, from the top right to the left (mode 4); a refused frame leaves the window, and the last colour wraps.
    frame!(6, 2, 7, 3; 4, 0x00fc0),
    ink!(0x3effe),
    ink!(0x3e000),
    ink!(0x0003e),
    frame!(0, 0, 0, 9; 6, 0 => 3),
    ink!(0x3e03e),
    step!(Call::Wake),
    ink!(0x00fc0),
];

// The test card, which covers every cell.
pub(super) const CARD: &[Step] = &[
    // The eight colours along the top row (mode 6), then two rows by columns (mode 7): the ninth colour wraps to the first cell.
    frame!(0, 0, 7, 3; 6, 0),
    ink!(BLACK),
    ink!(BLUE),
    ink!(GREEN),
    ink!(CYAN),
    ink!(RED),
    ink!(MAGENTA),
    ink!(YELLOW),
    ink!(WHITE),
    frame!(0, 1, 3, 2; 7, 0),
    ink!(RED),
    ink!(GREEN),
    ink!(RED),
    ink!(GREEN),
    ink!(RED),
    ink!(GREEN),
    ink!(RED),
    ink!(GREEN),
    ink!(BLUE),
    // From the bottom right corner left and up (mode 0), then the bottom row yellow, and from column 4 on cyan under a mask that keeps red.
    frame!(4, 1, 7, 2; 0, 0),
    ink!(YELLOW),
    ink!(CYAN),
    ink!(MAGENTA),
    ink!(WHITE),
    ink!(BLUE),
    ink!(GREEN),
    ink!(RED),
    ink!(BLACK),
    frame!(0, 3, 7, 3; 6, 0),
    ink!(YELLOW),
    ink!(YELLOW),
    ink!(YELLOW),
    ink!(YELLOW),
    ink!(YELLOW),
    ink!(YELLOW),
    ink!(YELLOW),
    ink!(YELLOW),
    frame!(0, 3, 7, 3; 6, RED),
    go!(4, 3),
    ink!(CYAN),
    ink!(CYAN),
    ink!(CYAN),
    ink!(CYAN),
];
