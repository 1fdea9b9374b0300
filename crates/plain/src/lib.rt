//! The plain glass: cells in memory with no controller before them. It carries each colour unchanged.
#![tactic(auto)]

ghost use Rattle.std.specs.Prelude.{◌≡◌, length};
ghost use Rattle.cells.specs.Sizes.{SparedUnfit, fitted_cells, fitted_size};
ghost use Rattle.glass.specs.Calls.{InkTaken, inked};
ghost use Rattle.glass.specs.Panels.{Same, new_panel};
ghost use Rattle.glass.proofs.Keeps.{mode_below};
ghost use Rattle.plain.specs.Plain.{Landed, PlainReached, plain_panel};

use cells::CellMemory;
use glass::{Glass, GlassFault, checks};
use pixel::mode::Mode;
use pixel::rect::{Place, Rect, Size};

// No `impl Model`: its contracts speak of the memory itself.
#[derive(Drop)]
pub struct PlainGlass<M> {
    memory: M,
    size: Size,
    // beside place, mode and mask, which have their values without a window too; in one option with them, each call that the
    // checks have passed would open it again
    window: Option<Rect>,
    place: Place,
    mode: Mode,
    mask: u32,
    asleep: bool,
}

impl<M: CellMemory> PlainGlass<M> {
    /// A new glass, every cell 0. Where `check` refuses size and memory it is one of 0 × 0, and the memory is untouched.
    pub fn fit(mut memory: M, size: Size) -> Self
        ensures reached { PlainReached M.cells result }
        ensures new { Same (plain_panel M.cells result)
            (new_panel (fitted_size size (length (M.cells memory))) (λ c. c)) }
        ensures memory { M.cells result.memory ≡ fitted_cells size (M.cells memory) }
        ensures spared { SparedUnfit M.cells size memory result.memory }
    {
        let fitted = cells::fit(&mut memory, size);
        PlainGlass {
            memory,
            size: fitted,
            window: None,
            place: Place { x: 0, y: 0 },
            mode: Mode::from_number(6),
            mask: 0,
            asleep: false,
        }
    }

    // A colour that is accepted, and the window that it goes to.
    fn land(&mut self, window: Rect, colour: u32)
        requires reached { PlainReached M.cells self.old }
        requires taken { InkTaken self.old.asleep self.old.window colour window }
        ensures stays { PlainReached M.cells self.new }
        ensures after { Same (plain_panel M.cells self.new)
            (inked colour (plain_panel M.cells self.old)) }
    {
        self.put(window, colour);
    }

    // The colour meets the cell at the place, and the place steps.
    fn put(&mut self, window: Rect, colour: u32)
        ensures { Landed M.cells window colour self.old self.new }
    {
        cells::ink(&mut self.memory, self.size, self.place, self.mask, colour);
        self.place = window.step(self.mode, self.place);
    }
}

impl<M: CellMemory> Glass for PlainGlass<M> {
    ghost means = { λ s. plain_panel M.cells s };

    ghost reached = { λ s. PlainReached M.cells s };

    ghost possible = { λ s z. record { size = z.size; window = z.window; mode = mode_below s.mode; cells = z.colours; carried = λ c h. h } };

    fn frame(&mut self, rect: Rect, mode: u8, mask: u32) -> Result<(), GlassFault> {
        let mode = checks::frame(self.asleep, self.size, rect, mode, mask)?;
        self.place = rect.start(mode);
        self.window = Some(rect);
        self.mode = mode;
        self.mask = mask;
        Ok(())
    }

    fn go(&mut self, place: Place) -> Result<(), GlassFault> {
        checks::go(self.asleep, self.window, place)?;
        self.place = place;
        Ok(())
    }

    fn ink(&mut self, colour: u32) -> Result<(), GlassFault> {
        let window = checks::ink(self.asleep, self.window, colour)?;
        self.land(window, colour);
        Ok(())
    }

    fn look(&self, place: Place) -> Result<u32, GlassFault> {
        cells::look(&self.memory, self.size, place).ok_or(GlassFault::Unseen)
    }

    fn shade(&self, colour: u32) -> Result<u32, GlassFault> {
        checks::narrow(colour)
    }

    fn asleep(&self) -> bool {
        self.asleep
    }

    fn size(&self) -> Size {
        self.size
    }

    fn sleep(&mut self) {
        self.asleep = true;
    }

    fn wake(&mut self) {
        self.asleep = false;
    }
}
