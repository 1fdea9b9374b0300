//! The host's end of a link: a chip select, then the beats of an item.
#![tactic(auto)]

ghost use Rattle.std.specs.Prelude.{◌≡◌, ◌-◌, ◌^◌, min, [], ◌∷◌, length};
ghost use Rattle.lgdp4522.specs.Wired.{wired};
ghost use Rattle.host.specs.Sent.{Went, beats_of};

use cells::CellMemory;
use lgdp4522::Lgdp4522;
use link::{Item, Link};

/// Sends one item, and tells how many beats it took: by the laws of a link none of them is refused.
pub fn send<L: Link, M: CellMemory>(chip: &mut Lgdp4522<L, M>, item: Item) -> usize
    ensures count { result ≡ length ((L.state chip.old.link).format.beats item) }
    ensures went { Went (item ∷ []) (wired L.state M.cells chip.old)
        (wired L.state M.cells chip.new) }
{
    chip.select();
    let rs = item.level();
    let count = chip.link().count(item);
    // by number: an iterator over the beats would hold the controller that is to take them
    for n in 0..count {
        let beat = chip.link().beat(item, n).unwrap();
        chip.take(rs, beat).unwrap();
    }
    count
}

/// Sends items in order, and tells how many beats they took, as far as a `usize` counts.
pub fn send_all<L: Link, M: CellMemory>(chip: &mut Lgdp4522<L, M>, items: &[Item]) -> usize
    ensures count { result ≡ min (beats_of (L.state chip.old.link).format items.now) (2 ^ 64 - 1) }
    ensures went { Went items.now (wired L.state M.cells chip.old)
        (wired L.state M.cells chip.new) }
{
    let mut beats: usize = 0;
    for item in items {
        beats = beats.saturating_add(send(chip, *item));
    }
    beats
}
