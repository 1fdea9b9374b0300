//! The 18-bit link: one beat.
ghost use Rattle.std.specs.Prelude.{[]};
ghost use Rattle.link.specs.Formats.{state_of};
ghost use Rattle.full_links.specs.FullFormats.{format_18};
ghost use Rattle.std.proofs.Common.{rules};

use crate::{beat_of, carried, item_from};
use link::{Item, Link, LinkFault};
use pixel::colour::FULL;

/// The 18-bit link.
// Beside the 16-bit one, since each link names its beat and its counts: the two share no more than shape.
#[derive(Drop)]
pub struct EighteenBit;

impl Link for EighteenBit {
    type Beat = u32;

    ghost WORD_BEATS = { 1 };

    const WORD_BEATS: usize = 1;

    ghost COLOUR_BEATS = { 1 };

    const COLOUR_BEATS: usize = 1;

    ghost state = { λ _. state_of format_18 [] };

    ghost lawful = { Prim.search rules };

    fn beat(&self, item: Item, n: usize) -> Option<u32> {
        [beat_of(item)].get(n).copied()
    }

    fn carry(&self, colour: u32) -> u32 {
        carried(colour)
    }

    fn select(&mut self) {}

    fn take(&mut self, index: u8, rs: bool, beat: u32) -> Result<Option<Item>, LinkFault> {
        if beat > FULL {
            return Err(LinkFault::Wide);
        }
        Ok(Some(item_from(rs, index, beat)))
    }
}
