//! A stream of lines, each done and answered as it comes: a kernel that other programs talk to.
//!
//! The first line that gives priorities makes the kernel, and each line behind it is an operation
//! of a process. An operation is answered by its line of the transcript, and a line that asks none
//! by a line that begins with `? `. All whole lines that have come are answered before the next
//! ones are waited for. What was done is forgotten behind each answer, so a long stream takes no more
//! memory than a short one. It is spent only behind 2^64 - 1 reads, or at an operation for which no
//! place is free, once 2^63 entries were made and no more can be forgotten.
#![tactic(auto)]

ghost use Rattle.stream.specs.Answers.{FaultLinesAreNoEntries, GoodAnswersAreTranscripts};

mod doing;
mod fault;
mod follower;
mod heard;
mod hearing;
mod run;
mod settling;
mod state;
mod telling;

pub use doing::{StepRefusal, do_step};
pub use fault::StreamFault;
pub use run::run_stream;

/// Where no line is a fault the text of the answers is the transcript of the entries.
pub fn good_answers_are_transcripts()
    ensures { GoodAnswersAreTranscripts }
{}

/// No line of a transcript can be taken for the answer to a line that is a fault.
pub fn fault_lines_are_no_entries()
    ensures { FaultLinesAreNoEntries }
{}
