//! A machine that keeps the redo records of what it commits, until they are taken.
//!
//! [`Recording`] is a machine over a machine. A step is a step of the machine below it, whose entry is
//! then told to a recorder (`redo_records`). The records that entries complete wait, until [`Recording::take`]
//! hands them out. What they need in memory is asked for before the step, and refused as the memory of
//! the step itself may be. Nothing here knows bytes or disks.
#![tactic(auto)]

mod as_machine;
mod asking;
mod notes;
mod recording;
mod share;
mod stepping;

pub use notes::TakeFault;
pub use recording::Recording;
