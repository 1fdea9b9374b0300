//! Cases worked by hand, held against the definitions that the contracts use and against the code.
#![tactic(auto)]

ghost use Rattle.std.specs.Prelude.{◌≡◌};
ghost use Rattle.pixel.specs.Rects.{place_at};
ghost use Rattle.worked.specs.Table.{Table};

use link::Link;
use pixel::colour::meet;
use pixel::mode::Mode;
use pixel::rect::{Place, Rect};
use short_links::eight::EightBit;

/// The cases that the code is run on: white over the 8-bit link, one step in mode 6 and in mode 7, and a mask.
#[derive(Clone, Copy, Debug, PartialEq, Eq, Hash)]
pub struct Cases {
    pub white: u32,
    pub six: Place,
    pub seven: Place,
    pub masked: u32,
}

pub fn worked() -> Cases
    ensures table { Table }
    ensures white { result.white ≡ 0x3effe }
    ensures six { result.six ≡ place_at 1 0 }
    ensures seven { result.seven ≡ place_at 2 0 }
    ensures masked { result.masked ≡ 0x3f03f }
{
    let window = Rect {
        left: 1,
        top: 0,
        right: 2,
        bottom: 1,
    };
    Cases {
        white: EightBit::new().carry(0x3ffff),
        six: window.step(Mode::from_number(6), Place { x: 2, y: 1 }),
        seven: window.step(Mode::from_number(7), Place { x: 1, y: 1 }),
        masked: meet(0x3f000, 0x3f000, 0x0003f),
    }
}
