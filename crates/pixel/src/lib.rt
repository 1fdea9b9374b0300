//! Colours, rectangles, places, modes and addresses: what every crate above speaks of.
#![tactic(auto)]

ghost use Rattle.pixel.specs.Laws.{Laws};

pub mod address;
pub mod colour;
pub mod mode;
pub mod rect;

/// The laws of the definitions that the contracts cite. There is nothing to run: the check asks for their proof.
pub fn laws()
    ensures { Laws }
{}
