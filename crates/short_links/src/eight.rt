//! The 8-bit link: two beats, upper first, the bytes of the word or the short colour.
ghost use Rattle.std.specs.Prelude.{◌≡◌, None};
ghost use Rattle.link.specs.Formats.{held_half, state_of};
ghost use Rattle.short_links.specs.ShortFormats.{format_8};
ghost use Rattle.std.proofs.Common.{rules};

use crate::{carried, item_from, word_of};
use link::{Item, Link, LinkFault, Taken};

#[derive(Drop)]
pub struct EightBit {
    upper: Option<Taken<u8>>,
}

impl EightBit {
    pub fn new() -> EightBit
        ensures { result.upper ≡ None }
    {
        EightBit { upper: None }
    }
}

impl Link for EightBit {
    type Beat = u8;

    ghost WORD_BEATS = { 2 };

    const WORD_BEATS: usize = 2;

    ghost COLOUR_BEATS = { 2 };

    const COLOUR_BEATS: usize = 2;

    ghost state = { λ s. state_of format_8 (held_half s.upper) };

    ghost lawful = { Prim.search rules };

    fn beat(&self, item: Item, n: usize) -> Option<u8> {
        word_of(item).to_be_bytes().get(n).copied()
    }

    fn carry(&self, colour: u32) -> u32 {
        carried(colour)
    }

    fn select(&mut self) {
        self.upper = None;
    }

    fn take(&mut self, index: u8, rs: bool, beat: u8) -> Result<Option<Item>, LinkFault> {
        let Some(upper) = self.upper.take() else {
            self.upper = Some(Taken { rs, beat });
            return Ok(None);
        };
        let word = u16::from_be_bytes([upper.beat, beat]);
        Ok(Some(item_from(upper.rs, index, word)))
    }
}
