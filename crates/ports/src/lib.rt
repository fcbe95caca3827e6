//! Threads on one kernel. Each process of a script has a worker of its own, whose port goes through
//! the turnstile; children have theirs too.
#![tactic(auto)]

mod port;
mod run;

pub use port::TurnstilePort;
pub use run::run_threads;
