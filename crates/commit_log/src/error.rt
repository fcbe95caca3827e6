//! Why a call of a log fails.
ghost use Rattle.std.specs.Prelude.{◌≡◌, ◌⊎◌};
ghost use Rattle.commit_log.specs.declared.error.Error.TheVariants.{Failed, Full, Memory};

use sqlite_disk::{Disk, is_no_room};
use std::alloc::{AllocError, AllocFailed};
use std::io;
use thiserror::Error as Fault;

/// Why a call of a log fails.
#[derive(Clone, Copy, Debug, PartialEq, Eq, Fault)]
pub enum Error {
    /// The file does not begin with the header of a log.
    #[error("the file is not a log")]
    NotALog,
    /// The header names this version, which is not the one that is read here.
    #[error("the log has version {0}, which is not read here")]
    OtherVersion(u64),
    /// What stood at this byte was on the disk, and is no record now.
    #[error("the log is damaged at byte {0}")]
    Damaged(usize),
    /// The file holds something already.
    #[error("the file holds something already")]
    Taken,
    /// The disk has no room.
    #[error("the disk is full")]
    Full,
    /// A call of the disk failed.
    #[error("the disk failed")]
    Failed,
    /// The file would be longer than 64 bits can tell.
    #[error("the log is too long")]
    TooLong,
    /// Memory was refused.
    #[error("memory was refused")]
    Memory,
}

impl Error {
    /// What a failed call of a disk is told as.
    pub(crate) fn of_disk(error: &io::Error) -> Error
        ensures { (result ≡ Full) ⊎ (result ≡ Failed) }
    {
        if is_no_room(error) {
            Error::Full
        } else {
            Error::Failed
        }
    }
}

impl From<AllocError> for Error {
    ghost from_gives = { λ _ e. e ≡ Memory };

    fn from(_error: AllocError) -> Error {
        Error::Memory
    }
}

impl<T: Drop> From<AllocFailed<T>> for Error {
    ghost from_gives = { λ _ e. e ≡ Memory };

    fn from(_error: AllocFailed<T>) -> Error {
        Error::Memory
    }
}

/// A disk that no log was made or opened on, and why.
#[derive(Drop)]
pub struct Refused<D: Disk> {
    pub disk: D,
    pub error: Error,
}
