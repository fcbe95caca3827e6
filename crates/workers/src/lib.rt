//! Workers: each process's lines are done in a thread of its own, by rules for what is answered.
//!
//! A worker talks to its process through a [`Port`]. It does the lines in order, asks again where
//! it is put off, goes back where its transaction restarts, and stops where the process is gone or
//! an operation is refused. The worker whose fork made a child starts the child's worker.
#![tactic(auto)]

mod fault;
mod lines;
mod port;
mod position;
mod threads;
mod worker;

pub use fault::WorkFault;
pub use port::Port;
pub use position::{Mode, Position};
pub use threads::run_workers;
