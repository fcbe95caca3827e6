//! The committed state, and a transaction's changes to it.
#![tactic(auto)]

ghost use Rattle.shadow.specs.Effects.{CallsCanBeCommitted};

mod applying;
mod claiming;
mod closing;
mod counting;
mod laying;
mod processes;
mod ranging;
mod reslotting;
mod shadow;
mod slotting;
mod stable;
mod view;

pub use shadow::Shadow;
pub use stable::Stable;
pub use view::View;

/// What calls change that are answered as they were can be committed: each change fits where it
/// stands. Proved in `proofs/Laws.antt`.
pub fn calls_can_be_committed()
    ensures { CallsCanBeCommitted }
{}
