//! Calls of a glass as values, so that one list of them can be given to many glasses.
#![tactic(auto)]

ghost use Rattle.std.specs.Prelude.{◌≡◌, ◌==◌};
ghost use Rattle.glass.specs.Calls.{Called};
ghost use Rattle.glass.specs.Faults.{answered};
ghost use Rattle.glass.specs.Panels.{Same};
ghost use Rattle.calls.specs.Calling.{all_did, as_told, call_number, called, did};

use glass::{Glass, GlassFault};
use pixel::rect::{Place, Rect};

#[derive(Clone, Copy, Debug, PartialEq, Eq, Hash)]
pub enum Call {
    /// as it is asked, with the mode's number
    Frame { rect: Rect, mode: u8, mask: u32 },
    Go(Place),
    Ink(u32),
    Sleep,
    Wake,
}

/// A call, and the number that it should be answered by: 0 if it is accepted.
// A number and no `Result`: one that no glass answers by may be asked for too.
#[derive(Clone, Copy, Debug, PartialEq, Eq, Hash)]
pub struct Step {
    pub call: Call,
    pub answer: u8,
}

/// Gives a glass one call.
// Calls are values and no closures, since one list of them goes to glasses of many types.
pub fn perform<G: Glass>(glass: &mut G, call: Call) -> Result<(), GlassFault>
    requires { G.reached glass.old }
    ensures { Called G.reached G.means (call_number call) (called call) result glass.old glass.new }
{
    match call {
        Call::Frame { rect, mode, mask } => glass.frame(rect, mode, mask),
        Call::Go(place) => glass.go(place),
        Call::Ink(colour) => glass.ink(colour),
        Call::Sleep => {
            glass.sleep();
            Ok(())
        }
        Call::Wake => {
            glass.wake();
            Ok(())
        }
    }
}

// The number of an answer: 0 if the call was accepted.
fn number(answer: Result<(), GlassFault>) -> u8
    ensures { result ≡ answered answer }
{
    match answer {
        Ok(()) => 0,
        Err(fault) => fault.number(),
    }
}

/// Gives a glass the calls of a list in order, the refused ones too, and tells whether each was answered as it should be.
pub fn run<G: Glass>(glass: &mut G, steps: &[Step]) -> bool
    requires { G.reached glass.old }
    ensures stays { G.reached glass.new }
    ensures told { result ≡ as_told steps.now (G.means glass.old) }
    ensures after { Same (G.means glass.new) (all_did steps.now (G.means glass.old)) }
{
    let mut told = true;
    for step in steps {
        told &= give(glass, *step);
    }
    told
}

// Gives a glass one call of a list, and tells whether it was answered as it should be.
fn give<G: Glass>(glass: &mut G, step: Step) -> bool
    requires { G.reached glass.old }
    ensures stays { G.reached glass.new }
    ensures told { result ≡ (call_number step.call (G.means glass.old) == step.answer) }
    ensures after { Same (G.means glass.new) (did step.call (G.means glass.old)) }
{
    number(perform(glass, step.call)) == step.answer
}
