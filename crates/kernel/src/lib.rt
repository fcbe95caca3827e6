//! The kernel: one step of one process at a time, with transactions. Fork and exit are refused in
//! a transaction; all other calls run in it and outside.
#![tactic(auto)]

mod as_machine;
mod execute;
mod kernel;
mod state;
mod step;

pub use kernel::Kernel;
