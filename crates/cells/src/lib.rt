//! Cell memory: one number for each cell of a screen.
#![tactic(auto)]

ghost use Rattle.std.specs.Prelude.{◌≡◌, ℕ, List, length, replicate, slice_index, slice_set};
ghost use Rattle.pixel.specs.Addresses.{offset_at};
ghost use Rattle.cells.specs.Memory.{cell_in, memory_met};
ghost use Rattle.cells.specs.Sizes.{SparedUnfit, fits_memory, fitted_cells, fitted_size, size_answer, size_number};

use pixel::address::Offset;
use pixel::colour::meet;
use pixel::rect::{Place, Size};

pub trait CellMemory {
    // the numbers held, by offset
    ghost cells: { Self → List ℕ };

    fn len(&self) -> usize
        ensures { result ≡ length (cells self.now) };

    /// The number at an offset; 0 past the end.
    fn get(&self, at: Offset) -> u32
        ensures { result ≡ slice_index (cells self.now) at.index };

    /// Past the end nothing changes.
    fn put(&mut self, at: Offset, cell: u32)
        ensures { cells self.new ≡ slice_set (cells self.old) at.index cell };

    /// Sets every number to 0.
    fn clear(&mut self)
        ensures { cells self.new ≡ replicate (length (cells self.old)) 0 };
}

/// Memory that somebody lends for as long as the screen is used.
#[derive(Drop)]
pub struct Lent<'a> {
    cells: &'a mut [u32],
}

impl<'a> Lent<'a> {
    pub fn new(cells: &'a mut [u32]) -> Lent<'a>
        ensures { result.cells.now ≡ cells.old }
    {
        Lent { cells }
    }
}

impl<'a> CellMemory for Lent<'a> {
    ghost cells = { λ s. s.cells.now };

    fn len(&self) -> usize {
        self.cells.len()
    }

    fn get(&self, at: Offset) -> u32 {
        self.cells.get(at.index()).copied().unwrap_or(0)
    }

    fn put(&mut self, at: Offset, cell: u32) {
        // by index: once `get_mut` has lent a cell, nothing is known of the others, and the proof does not close
        let i = at.index();
        if i < self.cells.len() {
            self.cells[i] = cell;
        }
    }

    fn clear(&mut self) {
        self.cells.fill(0);
    }
}

/// A size that no screen here has, or memory that is not its width × height.
#[derive(Clone, Copy, Debug, PartialEq, Eq, Hash)]
pub enum SizeFault {
    Unfit = 7,
}

impl SizeFault {
    /// Its number stands alone: no layer found it.
    // A refusal is told by its number: so the rule wants it.
    pub fn number(self) -> u8
        ensures { result ≡ size_number self }
    {
        self as u8
    }
}

/// Whether memory serves a screen of a size: width 1 to 176, height 1 to 220, one number for each cell.
// Memory and size are two parameters, here and below: a controller keeps its size among its registers.
pub fn check<M: CellMemory>(memory: &M, size: Size) -> Result<(), SizeFault>
    ensures { result ≡ size_answer (fits_memory size (length (M.cells memory.now))) }
{
    let cells = size.width as usize * size.height as usize;
    let narrow = (1..=176).contains(&size.width);
    let low = (1..=220).contains(&size.height);
    if narrow && low && memory.len() == cells {
        Ok(())
    } else {
        Err(SizeFault::Unfit)
    }
}

/// Readies memory for a screen of a size: where `check` accepts both, every cell is 0 and the size is answered; else the
/// memory stays as it is, for a screen of 0 × 0.
pub fn fit<M: CellMemory>(memory: &mut M, size: Size) -> Size
    ensures size { result ≡ fitted_size size (length (M.cells memory.old)) }
    ensures cells { M.cells memory.new ≡ fitted_cells size (M.cells memory.old) }
    ensures spared { SparedUnfit M.cells size memory.old memory.new }
{
    match check(memory, size) {
        Ok(()) => {
            memory.clear();
            size
        }
        Err(_) => Size {
            width: 0,
            height: 0,
        },
    }
}

/// The number of the cell at a place; off the screen there is none.
pub fn look<M: CellMemory>(memory: &M, size: Size, place: Place) -> Option<u32>
    ensures { result ≡ cell_in (M.cells memory.now) (offset_at size place) }
{
    let at = place.offset(size)?;
    Some(memory.get(at))
}

/// A colour meets the cell at a place under a mask; off the screen nothing changes.
pub fn ink<M: CellMemory>(memory: &mut M, size: Size, place: Place, mask: u32, colour: u32)
    ensures { M.cells memory.new ≡
        memory_met mask colour (offset_at size place) (M.cells memory.old) }
{
    if let Some(at) = place.offset(size) {
        let old = memory.get(at);
        memory.put(at, meet(mask, old, colour));
    }
}
