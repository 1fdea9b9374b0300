//! The LGDP4522: registers and cell memory behind a link.
#![tactic(auto)]

ghost use Rattle.std.specs.Prelude.{◌≡◌};
ghost use Rattle.cells.specs.Sizes.{SparedUnfit};
ghost use Rattle.link.specs.Formats.{taken};
ghost use Rattle.registers.specs.Chip.{cell_at, chip_of, coloured, obeyed};
ghost use Rattle.lgdp4522.specs.Laws.{Laws};
ghost use Rattle.lgdp4522.specs.Wired.{after_beat, beat_answer, fitted, selected, wired};

use cells::CellMemory;
use link::{Item, Link, LinkFault};
use pixel::rect::{Place, Size};
use registers::Registers;

/// A fitted controller is sound, and stays so. There is nothing to run: the check asks for the proof.
pub fn laws()
    ensures { Laws }
{}

/// Generic over its link and its cell memory, both held by value.
// No `impl Model`: its contracts speak of link and memory themselves.
#[derive(Drop)]
pub struct Lgdp4522<L, M> {
    link: L,
    memory: M,
    registers: Registers,
}

impl<L: Link, M: CellMemory> Lgdp4522<L, M> {
    /// A controller at power-on, every cell 0. Where `check` refuses size and memory it is one of 0 × 0, and the memory is untouched.
    pub fn fit(mut link: L, mut memory: M, size: Size) -> Self
        ensures fitted { wired L.state M.cells result ≡
            fitted (L.state link).format size (M.cells memory) }
        ensures spared { SparedUnfit M.cells size memory result.memory }
    {
        link.select();
        let fitted = cells::fit(&mut memory, size);
        Lgdp4522 {
            link,
            memory,
            registers: Registers::power_on(fitted),
        }
    }

    /// A falling chip select: a half item is dropped.
    pub fn select(&mut self)
        ensures { wired L.state M.cells self.new ≡ selected (wired L.state M.cells self.old) }
    {
        self.link.select();
    }

    /// One beat under a level of register select. One wider than the link is refused and changes nothing.
    pub fn take(&mut self, rs: bool, beat: L::Beat) -> Result<(), LinkFault>
        ensures answer { result ≡ beat_answer (L.state self.old.link).format beat }
        ensures after { wired L.state M.cells self.new ≡
            after_beat (taken rs beat) (wired L.state M.cells self.old) }
    {
        if let Some(item) = self.link.take(self.registers.index, rs, beat)? {
            self.obey(item);
        }
        Ok(())
    }

    /// The colour of a cell; off the screen there is none.
    pub fn cell(&self, place: Place) -> Option<u32>
        ensures { result ≡ cell_at (wired L.state M.cells self.now).chip place }
    {
        cells::look(&self.memory, self.registers.size, place)
    }

    pub fn size(&self) -> Size
        ensures { result ≡ self.now.registers.size }
    {
        self.registers.size
    }

    pub fn asleep(&self) -> bool
        ensures { result ≡ self.now.registers.asleep }
    {
        self.registers.asleep
    }

    /// The link, for the host that sends over it.
    pub fn link(&self) -> &L
        ensures { result.now ≡ self.now.link }
    {
        &self.link
    }

    fn obey(&mut self, item: Item)
        ensures link { self.new.link ≡ self.old.link }
        ensures after { chip_of (M.cells self.new.memory) self.new.registers ≡
            obeyed item (chip_of (M.cells self.old.memory) self.old.registers) }
    {
        match item {
            Item::Index(index) => self.registers.point(index),
            Item::Word(word) => self.registers.write(word),
            Item::Colour(colour) => {
                if !self.registers.asleep {
                    self.ink(colour);
                }
            }
        }
    }

    // A colour meets the cell at the place, and the place steps.
    fn ink(&mut self, colour: u32)
        ensures link { self.new.link ≡ self.old.link }
        ensures after { chip_of (M.cells self.new.memory) self.new.registers ≡
            coloured self.old.registers.window colour
            (chip_of (M.cells self.old.memory) self.old.registers) }
    {
        if let Some(window) = self.registers.window {
            let at = self.registers;
            let new = at.arriving(colour);
            cells::ink(&mut self.memory, at.size, at.place, at.mask, new);
            self.registers.advance(window);
        }
    }
}
