// Why the file of a store is not opened.
use std::io;
use thiserror::Error;

/// Why the file of a store is not opened. What it holds has not changed.
#[derive(Clone, Copy, Debug, Error)]
pub enum OpenFault {
    /// Another process has it open, or another handle of this one.
    #[error("another process has it open")]
    Busy,
    /// Something is there that is no regular file.
    #[error("it is no regular file")]
    NotAFile,
    /// A call of the system failed.
    #[error("{0}")]
    Io(io::Error),
}

impl From<io::Error> for OpenFault {
    fn from(error: io::Error) -> OpenFault {
        OpenFault::Io(error)
    }
}
