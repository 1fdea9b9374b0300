//! A glass: a screen as calls see it, cells that colours land on through one window and one place.
#![tactic(auto)]

ghost use Rattle.std.specs.Prelude.{◌≡◌, true, false, IfOk};
ghost use Rattle.glass.specs.Faults.{answered, fault_layer, fault_number};
ghost use Rattle.glass.specs.Panels.{Panel, Possible, Same};
ghost use Rattle.glass.specs.Calls.{Called, frame_number, framed, go_number, gone, ink_number, inked, look_number, shade_number, slept};
ghost use Rattle.glass.specs.Laws.{Laws};

pub mod checks;

use pixel::mode::UnknownMode;
use pixel::rect::{Place, Rect, Size};
use refusal::Layer;

/// Why a glass refuses a call.
#[derive(Clone, Copy, Debug, PartialEq, Eq, Hash)]
pub enum GlassFault {
    Asleep = 2,
    /// a rectangle that is not inside or out of order, or ink without a window
    Window = 3,
    /// a place outside the window
    Outside = 4,
    /// a colour or a mask above 3FFFFh
    Colour = 5,
    /// a look outside the glass
    Unseen = 6,
    /// a mode above 7
    UnknownMode = 15,
}

impl GlassFault {
    // A refusal is told by its number and its layer: so the rule wants it. Each enum has its own; nothing is generic over them.
    pub fn number(self) -> u8
        ensures { result ≡ fault_number self }
    {
        self as u8
    }

    pub fn layer(self) -> Layer
        ensures { result ≡ fault_layer self }
    {
        Layer::Glass
    }
}

impl From<UnknownMode> for GlassFault {
    ghost use Rattle.glass.specs.declared.GlassFault.TheVariants.{UnknownMode};

    ghost from_gives = { λ _ fault. fault ≡ UnknownMode };

    fn from(_: UnknownMode) -> GlassFault {
        GlassFault::UnknownMode
    }
}

/// What holds of the definitions that the calls' contracts cite. There is nothing to run: the check asks for the proof.
pub fn laws()
    ensures { Laws }
{}

/// Every call is told by its answer's number (0 if accepted), by the whole panel that it leaves, and, where it is refused,
/// by the glass itself, which is then the same value as before. A question leaves everything.
pub trait Glass {
    // what the glass is to its callers: size, picture, window, place, mode, mask, wakefulness, and the colour that each
    // colour is carried as
    ghost means: { Self → Panel };

    // the states that its making and its calls reach. Each call requires and keeps them, as the project's rule has it: a layer
    // may then rely on what it set below
    ghost reached: { Self → Type 0 };

    /// Sets window, mode and mask, and the place to the start corner.
    // The mode comes as a number, as the rule has it: one above 7 is refused here, after the rectangle. So the three that are
    // asked and the three that are set are not one struct.
    fn frame(&mut self, rect: Rect, mode: u8, mask: u32) -> Result<(), GlassFault>
        requires { reached self.old }
        ensures { Called reached means (frame_number rect mode mask)
            (framed rect mode mask) result self.old self.new };

    /// Sets the place.
    fn go(&mut self, place: Place) -> Result<(), GlassFault>
        requires { reached self.old }
        ensures { Called reached means (go_number place) (gone place) result self.old self.new };

    /// The colour, as carried, meets the cell at the place under the mask; the place steps.
    fn ink(&mut self, colour: u32) -> Result<(), GlassFault>
        requires { reached self.old }
        ensures { Called reached means (ink_number colour)
            (inked colour) result self.old self.new };

    /// The cell at a place, also asleep.
    fn look(&self, place: Place) -> Result<u32, GlassFault>
        requires { reached self.now }
        ensures answer { answered result ≡ look_number place (means self.now) }
        ensures value { IfOk result (λ c. c ≡ (means self.now).cell place) };

    /// The colour that a colour is carried as, also asleep.
    fn shade(&self, colour: u32) -> Result<u32, GlassFault>
        requires { reached self.now }
        ensures answer { answered result ≡ shade_number colour }
        ensures value { IfOk result (λ c. c ≡ (means self.now).carried colour) };

    fn asleep(&self) -> bool
        requires { reached self.now }
        ensures { result ≡ (means self.now).asleep };

    fn size(&self) -> Size
        requires { reached self.now }
        ensures { result ≡ (means self.now).size };

    fn sleep(&mut self)
        requires { reached self.old }
        ensures stays { reached self.new }
        ensures after { Same (means self.new) (slept true (means self.old)) };

    fn wake(&mut self)
        requires { reached self.old }
        ensures stays { reached self.new }
        ensures after { Same (means self.new) (slept false (means self.old)) };

    ghost possible: { (s : Self) → reached s → Possible (means s) };
}
