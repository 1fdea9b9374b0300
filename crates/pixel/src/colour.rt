//! Colours of 18 bits (red 17 to 12, green 11 to 6, blue 5 to 0), masks, and the short colour.
ghost use Rattle.std.specs.Prelude.{◌≡◌};
ghost use Rattle.pixel.specs.Colours.{blue_of, colour_of, exchanged, green_of, lengthened, met, red_of, shortened};

/// The greatest colour and the greatest mask: 18 bits, all 1.
pub const FULL: u32 = 0x3ffff;

/// Each of the three parts has six bits; bits above the eighteenth are ignored.
// Three functions that differ by a number, since each is called by its part's name: a parameter would be no plainer.
pub fn red(colour: u32) -> u32
    ensures { result ≡ red_of colour }
{
    colour / 4096 % 64
}

pub fn green(colour: u32) -> u32
    ensures { result ≡ green_of colour }
{
    colour / 64 % 64
}

pub fn blue(colour: u32) -> u32
    ensures { result ≡ blue_of colour }
{
    colour % 64
}

/// The colour of three parts, of each of which the lower six bits count.
pub fn mix(red: u32, green: u32, blue: u32) -> u32
    ensures { result ≡ colour_of red green blue }
{
    red % 64 * 4096 + green % 64 * 64 + blue % 64
}

/// Red and blue exchanged.
pub fn exchange(colour: u32) -> u32
    ensures { result ≡ exchanged colour }
{
    mix(blue(colour), green(colour), red(colour))
}

/// What a colour leaves of a cell: the bits whose mask bit is 1 stay, the others are the colour's.
pub fn meet(mask: u32, old: u32, new: u32) -> u32
    ensures { result ≡ met mask old new }
{
    old & mask | new & (mask ^ FULL)
}

/// The short colour: red's upper five bits, all of green, blue's upper five bits.
pub fn shorten(colour: u32) -> u16
    ensures { result ≡ shortened colour }
{
    (red(colour) / 2 * 2048 + green(colour) * 32 + blue(colour) / 2) as u16
}

/// A short colour back at full length: the missing lowest bits of red and blue are 0.
pub fn lengthen(short: u16) -> u32
    ensures { result ≡ lengthened short }
{
    let short = short as u32;
    mix(short / 2048 * 2, short / 32, short * 2)
}
