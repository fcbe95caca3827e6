// Why a text is no script, or no schedule of one.
use ids::Pid;
use thiserror::Error;

/// Why a text is no script. The number is that of the line, counted from 1, skipped lines too.
#[derive(Clone, Copy, Debug, PartialEq, Eq, Error)]
pub enum ScriptFault {
    /// The text has more than 1,048,576 bytes.
    #[error("script too long")]
    TooLong,
    /// The line came by itself, and has more bytes than a script may have.
    #[error("line {0}: too long")]
    LineTooLong(usize),
    /// The last line has no line feed.
    #[error("line {0}: not ended")]
    NotEnded(usize),
    /// The first line that is not skipped has another form. Where there is none, the number is one
    /// more than that of the lines.
    #[error("line {0}: priorities expected")]
    PrioritiesExpected(usize),
    /// The first word is no process number.
    #[error("line {0}: process number expected")]
    ProcessExpected(usize),
    /// There is no second word, or it is no operation.
    #[error("line {0}: unknown operation")]
    UnknownOperation(usize),
    /// The operation does not take these arguments.
    #[error("line {0}: bad arguments")]
    BadArguments(usize),
    /// Memory was refused. It says nothing of the text.
    #[error("no memory")]
    NoMemory,
}

/// Why a text is no schedule of a script.
#[derive(Clone, Copy, Debug, PartialEq, Eq, Error)]
pub enum ScheduleFault {
    /// It is no list of process numbers with commas.
    #[error("schedule: bad list")]
    BadList,
    /// The process stands there more often than it has lines: the first for which it is so.
    #[error("schedule: process {} has no line left", .0.0)]
    NoLine(Pid),
    /// Memory was refused. It says nothing of the text.
    #[error("no memory")]
    NoMemory,
}
