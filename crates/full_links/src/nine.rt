//! The 9-bit link: two beats, upper first, the nine bits of each half.
ghost use Rattle.std.specs.Prelude.{◌≡◌, None};
ghost use Rattle.link.specs.Formats.{held_half, state_of};
ghost use Rattle.full_links.specs.FullFormats.{format_9};
ghost use Rattle.std.proofs.Common.{rules};

use crate::{beat_of, carried, item_from};
use link::{Item, Link, LinkFault, Taken};

/// The 9-bit link, and the first beat of two, if it came.
// Beside the 8-bit one, since each link names its beat and its counts: what both do with a first beat is one `take` of an
// option.
#[derive(Drop)]
pub struct NineBit {
    upper: Option<Taken<u16>>,
}

impl NineBit {
    pub fn new() -> NineBit
        ensures { result.upper ≡ None }
    {
        NineBit { upper: None }
    }
}

impl Link for NineBit {
    type Beat = u16;

    ghost WORD_BEATS = { 2 };

    const WORD_BEATS: usize = 2;

    ghost COLOUR_BEATS = { 2 };

    const COLOUR_BEATS: usize = 2;

    ghost state = { λ s. state_of format_9 (held_half s.upper) };

    ghost lawful = { Prim.search rules };

    fn beat(&self, item: Item, n: usize) -> Option<u16> {
        let beat = beat_of(item);
        let (upper, lower) = ((beat / 512) as u16, (beat % 512) as u16);
        [upper, lower].get(n).copied()
    }

    fn carry(&self, colour: u32) -> u32 {
        carried(colour)
    }

    fn select(&mut self) {
        self.upper = None;
    }

    fn take(&mut self, index: u8, rs: bool, beat: u16) -> Result<Option<Item>, LinkFault> {
        if beat >= 512 {
            return Err(LinkFault::Wide);
        }
        let Some(upper) = self.upper.take() else {
            self.upper = Some(Taken { rs, beat });
            return Ok(None);
        };
        let whole = upper.beat as u32 % 512 * 512 + beat as u32;
        Ok(Some(item_from(upper.rs, index, whole)))
    }
}
