//! Scripts and schedules, read from bytes.
//!
//! A script is lines, each ended by a line feed. Empty lines and lines that begin with `#` are
//! skipped. The first of the others is `priorities` and a number for each process that is made at
//! the start; every further one is a process number and an operation. A schedule is process
//! numbers with commas: the k-th time that a number stands there, that process's k-th line runs.
#![tactic(auto)]

mod faults;
mod flags;
mod limits;
mod lines;
mod number;
mod operation;
mod pieces;
mod read;
mod rights;
mod schedule;
mod steps;
mod table;
mod text;
mod verb;
mod word;

pub use faults::{ScheduleFault, ScriptFault};
pub use ids::MAX_PROCESSES;
pub use limits::{PROCESS_NUMBERS_END, SCRIPT_LIMIT, TOP_PRIORITY, TRANSFER_LIMIT};
pub use lines::{read_first_line, read_further_line};
pub use read::{Line, Script, read_script};
pub use schedule::read_schedule;
pub use steps::steps_of;
