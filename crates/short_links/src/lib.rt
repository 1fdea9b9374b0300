//! The links that carry the short colour: 16-bit, 8-bit and serial.
#![tactic(auto)]

ghost use Rattle.std.specs.Prelude.{◌≡◌, ◌==◌};
ghost use Rattle.short_links.specs.ShortFormats.{carried_short, short_item, short_word};

pub mod eight;
pub mod serial;
pub mod sixteen;

use link::Item;
use pixel::colour::{lengthen, shorten};

// The word that an item travels as.
fn word_of(item: Item) -> u16
    ensures { result ≡ short_word item }
{
    match item {
        Item::Index(i) => i as u16 % 128,
        Item::Word(w) => w,
        Item::Colour(c) => shorten(c),
    }
}

// The item that a word arrives as.
fn item_from(rs: bool, index: u8, word: u16) -> Item
    ensures { result ≡ short_item rs (index == 0x22) word }
{
    Item::arriving(rs, index, word, lengthen(word))
}

// The colour that a colour arrives as.
fn carried(colour: u32) -> u32
    ensures { result ≡ carried_short colour }
{
    lengthen(shorten(colour))
}
