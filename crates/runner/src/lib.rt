//! Runs: a script is read and executed on a fresh kernel, step by step by a schedule or with a thread
//! for each process, and the transcript is written; or lines are done and answered as they come. The
//! history may be checked. Faults are reported as lines and exit statuses.
#![tactic(auto)]

mod checking;
mod fault;
mod job;
mod printing;
mod reading;
mod reporting;
mod run;
mod steps;
mod streaming;
mod threads;

pub use fault::RunFault;
pub use job::run_job;
pub use ports::run_threads;
pub use printing::print;
pub use reporting::{report_command_line, report_fault};
pub use run::run_schedule;
pub use script::{read_schedule, read_script};
pub use stream::{StreamFault, run_stream};
pub use streaming::run_stream_job;
pub use threads::run_script_by_threads;
pub use words::read_words;
pub use workers::{Port, run_workers};
