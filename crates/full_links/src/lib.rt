//! The links that carry every colour whole: 18-bit and 9-bit.
#![tactic(auto)]

ghost use Rattle.std.specs.Prelude.{◌≡◌, ◌==◌};
ghost use Rattle.full_links.specs.FullFormats.{full_beat, full_item, whole};

pub mod eighteen;
pub mod nine;

use link::Item;
use pixel::colour::FULL;

// The 18 bits that an item travels as: a word's bytes in bits 17 to 10 and 8 to 1, a colour as it is.
fn beat_of(item: Item) -> u32
    ensures { result ≡ full_beat item }
{
    match item {
        Item::Index(i) => i as u32 % 128 * 2,
        Item::Word(w) => w as u32 / 256 * 1024 + w as u32 % 256 * 2,
        Item::Colour(c) => carried(c),
    }
}

// The item that 18 bits arrive as.
fn item_from(rs: bool, index: u8, beat: u32) -> Item
    ensures { result ≡ full_item rs (index == 0x22) beat }
{
    let word = (beat / 1024 % 256 * 256 + beat / 2 % 256) as u16;
    Item::arriving(rs, index, word, beat)
}

// The colour that a colour arrives as: its lower 18 bits.
fn carried(colour: u32) -> u32
    ensures { result ≡ whole colour }
{
    colour % (FULL + 1)
}
