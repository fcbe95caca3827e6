// Why a store is not opened.
ghost use Rattle.std.specs.Prelude.{◌≡◌};

use entry_codec::{Fault, ReadError};
use std::alloc::AllocError;
use store_form::SetupError;
use thiserror::Error as Failure;

/// Why a store is not opened, or not to its end.
#[derive(Clone, Copy, Debug, PartialEq, Eq, Failure)]
pub enum Error {
    /// The file is no log, or is not read as one.
    #[error("{0}")]
    Log(commit_log::Error),
    /// It has no record at all, so nothing says what kernel it is of.
    #[error("the store has no setup")]
    NoSetup,
    /// The first record is no setup that is read here.
    #[error("{0}")]
    Setup(SetupError),
    /// Memory was refused.
    #[error("memory was refused")]
    NoMemory,
    /// The bytes of the record at this byte of the file are no entries.
    #[error("the record at byte {0} cannot be read")]
    Unread(usize, Fault),
    /// The record at this byte has an entry that is of no executed call which changes something.
    #[error("the record at byte {0} has an entry that is no change")]
    NotAChange(usize),
    /// A call of the record at this byte is answered otherwise than it was told.
    #[error("a call of the record at byte {0} is answered otherwise now")]
    Otherwise(usize),
    /// The history has no place for a call of the record at this byte.
    #[error("there is no place in the history for the record at byte {0}")]
    HistoryFull(usize),
}

impl From<AllocError> for Error {
    ghost use Rattle.recovery.specs.declared.error.Error.TheVariants.{NoMemory};

    ghost from_gives = { λ _ error. error ≡ NoMemory };

    fn from(_e: AllocError) -> Error {
        Error::NoMemory
    }
}

impl From<SetupError> for Error {
    ghost use Rattle.recovery.specs.declared.error.Error.TheVariants.{Setup};

    ghost from_gives = { λ e error. error ≡ Setup e };

    fn from(e: SetupError) -> Error {
        Error::Setup(e)
    }
}

impl From<commit_log::Error> for Error {
    ghost use Rattle.recovery.specs.declared.error.Error.TheVariants.{Log};

    ghost from_gives = { λ e error. error ≡ Log e };

    fn from(e: commit_log::Error) -> Error {
        Error::Log(e)
    }
}

// Why a record is not replayed.
#[derive(Clone, Copy, Debug, PartialEq, Eq)]
pub(crate) enum Stop {
    // Memory was refused.
    NoMemory,
    // The history has no place.
    HistoryFull,
    // The bytes are no entries.
    Unread(Fault),
    // An entry is of no executed call that changes something.
    NotAChange,
    // A call is answered otherwise.
    Otherwise,
}

impl From<AllocError> for Stop {
    ghost use Rattle.recovery.specs.declared.error.Stop.TheVariants.{NoMemory};

    ghost from_gives = { λ _ e. e ≡ NoMemory };

    fn from(_e: AllocError) -> Stop {
        Stop::NoMemory
    }
}

impl Stop {
    // What a failure of reading is told as.
    pub(crate) fn of_read(error: ReadError) -> Stop {
        match error {
            ReadError::NoMemory => Stop::NoMemory,
            ReadError::Fault(fault) => Stop::Unread(fault),
        }
    }

    // What it is told as, of the record at this byte of the file.
    pub(crate) fn at(self, place: usize) -> Error {
        match self {
            Stop::NoMemory => Error::NoMemory,
            Stop::HistoryFull => Error::HistoryFull(place),
            Stop::Unread(fault) => Error::Unread(place, fault),
            Stop::NotAChange => Error::NotAChange(place),
            Stop::Otherwise => Error::Otherwise(place),
        }
    }
}
