//! The controller on any link as a glass: each accepted call goes over the link as beats, and a refused one sends nothing.
#![tactic(auto)]

ghost use Rattle.std.specs.Prelude.{◌≡◌, true, false, length};
ghost use Rattle.pixel.specs.Modes.{mode_of};
ghost use Rattle.cells.specs.Sizes.{SparedUnfit, fitted_size};
ghost use Rattle.registers.specs.Chip.{chip_of};
ghost use Rattle.lgdp4522.specs.Wired.{fitted, wired};
ghost use Rattle.glass.specs.Calls.{Called, FrameTaken, GoTaken, InkTaken, frame_number, framed, go_number, gone, ink_number, inked, slept};
ghost use Rattle.glass.specs.Panels.{Same, new_panel};
ghost use Rattle.commands.specs.Commands.{frame_items, go_items, ink_items, sleep_items};
ghost use Rattle.commands.proofs.Done.{possible_of};
ghost use Rattle.driver.specs.Driving.{DriverReached, Drove, driver_panel, sent_by};

use cells::CellMemory;
use commands::{send_frame, send_go, send_ink, send_sleep};
use glass::{Glass, GlassFault, checks};
use lgdp4522::Lgdp4522;
use link::Link;
use pixel::address::Address;
use pixel::mode::Mode;
use pixel::rect::{Place, Rect, Size};

/// Generic over link and memory, which the controller holds by value.
// No `impl Model`: its contracts speak of link and memory themselves.
#[derive(Drop)]
pub struct Driver<L: Link, M: CellMemory> {
    chip: Lgdp4522<L, M>,
    // the window that the last frame set; none before the first, although the controller has one
    window: Option<Rect>,
}

impl<L: Link, M: CellMemory> Driver<L, M> {
    /// A controller at power-on, every cell 0. Where `check` refuses size and memory it is one of 0 × 0, and the memory is untouched.
    pub fn fit(link: L, memory: M, size: Size) -> Self
        ensures reached { DriverReached M.cells result }
        ensures new { Same (driver_panel L.state M.cells result)
            (new_panel (fitted_size size (length (M.cells memory))) (L.state link).format.carried) }
        ensures format { (L.state result.chip.link).format ≡ (L.state link).format }
        ensures chip { wired L.state M.cells result.chip ≡
            fitted (L.state link).format size (M.cells memory) }
        ensures spared { SparedUnfit M.cells size memory result.chip.memory }
    {
        Driver {
            chip: Lgdp4522::fit(link, memory, size),
            window: None,
        }
    }

    // A frame that is accepted, its mode by the number, of which the panel that it makes speaks too.
    fn aim(&mut self, rect: Rect, mode: u8, mask: u32)
        requires reached { DriverReached M.cells self.old }
        requires taken { FrameTaken self.old.chip.registers.asleep self.old.chip.registers.size rect mode mask }
        ensures { Drove L.state M.cells (frame_items rect (mode_of mode) mask)
            (framed rect mode mask) self.old self.new }
    {
        send_frame(&mut self.chip, rect, Mode::from_number(mode), mask);
        self.window = Some(rect);
    }

    // A place that is accepted, and the window that it lies in.
    fn point(&mut self, window: Rect, place: Place)
        requires reached { DriverReached M.cells self.old }
        requires taken { GoTaken self.old.chip.registers.asleep self.old.window place window }
        ensures { Drove L.state M.cells (go_items place) (gone place) self.old self.new }
    {
        // every place of a window has an address
        send_go(&mut self.chip, Address::of(place).unwrap());
    }

    // A colour that is accepted, and the window that it goes to.
    fn land(&mut self, window: Rect, colour: u32)
        requires reached { DriverReached M.cells self.old }
        requires taken { InkTaken self.old.chip.registers.asleep self.old.window colour window }
        ensures { Drove L.state M.cells (ink_items colour) (inked colour) self.old self.new }
    {
        send_ink(&mut self.chip, colour);
    }

    // Sleep or wake.
    fn rest(&mut self, asleep: bool)
        requires { DriverReached M.cells self.old }
        ensures { Drove L.state M.cells (sleep_items asleep) (slept asleep) self.old self.new }
    {
        send_sleep(&mut self.chip, asleep);
    }
}

// Beside what every glass promises, each call that sends says that its link keeps its format, and which beats it leaves its
// controller with. Those are clauses of their own: with call and beats in one record the goal of `frame` does not close
// without a proof file.
impl<L: Link, M: CellMemory> Glass for Driver<L, M> {
    ghost means = { λ s. driver_panel L.state M.cells s };

    ghost reached = { λ s. DriverReached M.cells s };

    ghost possible = { λ s z. possible_of s.window (L.state s.chip.link).format.carried
        (chip_of (M.cells s.chip.memory) s.chip.registers) (L.lawful s.chip.link).carried_fits z };

    fn frame(&mut self, rect: Rect, mode: u8, mask: u32) -> Result<(), GlassFault>
        requires { DriverReached M.cells self.old }
        ensures call { Called (DriverReached M.cells) (driver_panel L.state M.cells)
            (frame_number rect mode mask) (framed rect mode mask) result self.old self.new }
        ensures format { (L.state self.new.chip.link).format ≡
            (L.state self.old.chip.link).format }
        ensures beats { wired L.state M.cells self.new.chip ≡
            sent_by result (frame_items rect (mode_of mode) mask)
            (wired L.state M.cells self.old.chip) }
    {
        checks::frame(self.chip.asleep(), self.chip.size(), rect, mode, mask)?;
        self.aim(rect, mode, mask);
        Ok(())
    }

    fn go(&mut self, place: Place) -> Result<(), GlassFault>
        requires { DriverReached M.cells self.old }
        ensures call { Called (DriverReached M.cells) (driver_panel L.state M.cells)
            (go_number place) (gone place) result self.old self.new }
        ensures format { (L.state self.new.chip.link).format ≡
            (L.state self.old.chip.link).format }
        ensures beats { wired L.state M.cells self.new.chip ≡
            sent_by result (go_items place) (wired L.state M.cells self.old.chip) }
    {
        let window = checks::go(self.chip.asleep(), self.window, place)?;
        self.point(window, place);
        Ok(())
    }

    fn ink(&mut self, colour: u32) -> Result<(), GlassFault>
        requires { DriverReached M.cells self.old }
        ensures call { Called (DriverReached M.cells) (driver_panel L.state M.cells)
            (ink_number colour) (inked colour) result self.old self.new }
        ensures format { (L.state self.new.chip.link).format ≡
            (L.state self.old.chip.link).format }
        ensures beats { wired L.state M.cells self.new.chip ≡
            sent_by result (ink_items colour) (wired L.state M.cells self.old.chip) }
    {
        let window = checks::ink(self.chip.asleep(), self.window, colour)?;
        self.land(window, colour);
        Ok(())
    }

    fn look(&self, place: Place) -> Result<u32, GlassFault> {
        self.chip.cell(place).ok_or(GlassFault::Unseen)
    }

    fn shade(&self, colour: u32) -> Result<u32, GlassFault> {
        let colour = checks::narrow(colour)?;
        Ok(self.chip.link().carry(colour))
    }

    fn asleep(&self) -> bool {
        self.chip.asleep()
    }

    fn size(&self) -> Size {
        self.chip.size()
    }

    fn sleep(&mut self)
        requires { DriverReached M.cells self.old }
        ensures { Drove L.state M.cells (sleep_items true) (slept true) self.old self.new }
    {
        self.rest(true);
    }

    fn wake(&mut self)
        requires { DriverReached M.cells self.old }
        ensures { Drove L.state M.cells (sleep_items false) (slept false) self.old self.new }
    {
        self.rest(false);
    }
}
