//! The serial link: a start byte, then two bytes to an item, as on the 8-bit link.
ghost use Rattle.std.specs.Prelude.{◌≡◌};
ghost use Rattle.link.specs.Formats.{state_of};
ghost use Rattle.short_links.specs.ShortFormats.{format_serial, held_serial, start_byte};
ghost use Rattle.short_links.specs.declared.serial.Heard.TheVariants.{Nothing};
ghost use Rattle.std.proofs.Common.{rules};

use crate::{carried, item_from, word_of};
use link::{Item, Link, LinkFault};

/// Which of two controllers on one line this is.
#[derive(Clone, Copy, Debug, PartialEq, Eq, Hash)]
pub enum SerialId {
    Zero = 0,
    One = 1,
}

// The bytes since the last select: none, a start byte, or a start byte and an item's upper byte. No option of an option: it
// would have no names for the three.
#[derive(Clone, Copy)]
enum Heard {
    Nothing,
    Start(u8),
    Half(u8, u8),
}

#[derive(Drop)]
pub struct Serial {
    id: SerialId,
    heard: Heard,
}

// 70h + 4 × ID + 2 × register select.
fn start(id: SerialId, rs: bool) -> u8
    ensures { result ≡ start_byte id rs }
{
    0x70 + 4 * (id as u8) + 2 * u8::from(rs)
}

impl Serial {
    pub fn new(id: SerialId) -> Serial
        ensures id { result.id ≡ id }
        ensures heard { result.heard ≡ Nothing }
    {
        Serial {
            id,
            heard: Heard::Nothing,
        }
    }
}

impl Link for Serial {
    type Beat = u8;

    ghost WORD_BEATS = { 3 };

    const WORD_BEATS: usize = 3;

    ghost COLOUR_BEATS = { 3 };

    const COLOUR_BEATS: usize = 3;

    ghost state = { λ s. state_of (format_serial s.id) (held_serial s.heard) };

    ghost lawful = { Prim.search rules };

    fn beat(&self, item: Item, n: usize) -> Option<u8> {
        // no array of all three, with which the last beat takes four times as long
        let [upper, lower] = word_of(item).to_be_bytes();
        match n {
            0 => Some(start(self.id, item.level())),
            1 => Some(upper),
            2 => Some(lower),
            _ => None,
        }
    }

    fn carry(&self, colour: u32) -> u32 {
        carried(colour)
    }

    fn select(&mut self) {
        self.heard = Heard::Nothing;
    }

    // The register-select wire is not heeded: the start byte has its own. After one that is not ours nothing is taken.
    fn take(&mut self, index: u8, _rs: bool, beat: u8) -> Result<Option<Item>, LinkFault> {
        match self.heard {
            Heard::Nothing => {
                self.heard = Heard::Start(beat);
                Ok(None)
            }
            Heard::Start(first) => {
                if first == start(self.id, false) || first == start(self.id, true) {
                    self.heard = Heard::Half(first, beat);
                }
                Ok(None)
            }
            Heard::Half(first, upper) => {
                self.heard = Heard::Start(first);
                let rs = first == start(self.id, true);
                let word = u16::from_be_bytes([upper, beat]);
                Ok(Some(item_from(rs, index, word)))
            }
        }
    }
}
