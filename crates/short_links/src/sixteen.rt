//! The 16-bit link: one beat, the word or the short colour.
ghost use Rattle.std.specs.Prelude.{[]};
ghost use Rattle.link.specs.Formats.{state_of};
ghost use Rattle.short_links.specs.ShortFormats.{format_16};
ghost use Rattle.std.proofs.Common.{rules};

use crate::{carried, item_from, word_of};
use link::{Item, Link, LinkFault};

#[derive(Drop)]
pub struct SixteenBit;

impl Link for SixteenBit {
    type Beat = u16;

    ghost WORD_BEATS = { 1 };

    const WORD_BEATS: usize = 1;

    ghost COLOUR_BEATS = { 1 };

    const COLOUR_BEATS: usize = 1;

    ghost state = { λ _. state_of format_16 [] };

    ghost lawful = { Prim.search rules };

    fn beat(&self, item: Item, n: usize) -> Option<u16> {
        [word_of(item)].get(n).copied()
    }

    fn carry(&self, colour: u32) -> u32 {
        carried(colour)
    }

    fn select(&mut self) {}

    fn take(&mut self, index: u8, rs: bool, beat: u16) -> Result<Option<Item>, LinkFault> {
        Ok(Some(item_from(rs, index, beat)))
    }
}
