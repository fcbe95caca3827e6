// Why a store is not opened, or a stream over one has stopped.
use kept::StoreFault;
use recording::TakeFault;
use std::alloc::{AllocError, AllocFailed};
use thiserror::Error;

/// Why a store is not opened. Nothing in it has changed.
#[derive(Clone, Copy, Debug, PartialEq, Eq, Error)]
pub enum OpenFault {
    /// It is damaged, of another form, or the like.
    #[error("{0}")]
    Store(recovery::Error),
    /// Its log cannot be written to, or the like.
    #[error("{0}")]
    Kept(StoreFault),
}

impl OpenFault {
    // Whether it is that memory was refused, which says nothing of the store.
    pub(crate) fn is_no_memory(&self) -> bool {
        match self {
            OpenFault::Store(error) => matches!(
                error,
                recovery::Error::NoMemory
                    | recovery::Error::Log(commit_log::Error::Memory)
                    | recovery::Error::Setup(store_form::SetupError::NoMemory)
            ),
            OpenFault::Kept(fault) => matches!(fault, StoreFault::NoMemory),
        }
    }
}

impl From<recovery::Error> for OpenFault {
    fn from(error: recovery::Error) -> OpenFault {
        OpenFault::Store(error)
    }
}

impl From<commit_log::Error> for OpenFault {
    fn from(error: commit_log::Error) -> OpenFault {
        OpenFault::Store(recovery::Error::Log(error))
    }
}

impl From<TakeFault> for OpenFault {
    fn from(fault: TakeFault) -> OpenFault {
        OpenFault::Kept(StoreFault::from(fault))
    }
}

impl From<StoreFault> for OpenFault {
    fn from(fault: StoreFault) -> OpenFault {
        OpenFault::Kept(fault)
    }
}

/// Why a stream over a store has stopped before the end of its input.
#[derive(Clone, Copy, Debug, PartialEq, Eq, Error)]
pub enum ServeFault {
    /// The source has failed.
    #[error("read failed")]
    Read,
    /// The sink has failed. What was done is in the store, though it is not answered.
    #[error("write failed")]
    Write,
    /// The places that an operation needs are not free, though no entry is kept; or no more can be counted.
    #[error("history full")]
    HistoryFull,
    /// Memory was refused.
    #[error("no memory")]
    NoMemory,
    /// The priorities are not those that the store was made with.
    #[error("the store has other priorities")]
    OtherPriorities,
    /// The store has failed. What was not kept is not answered.
    #[error("{0}")]
    Store(StoreFault),
}

impl From<AllocError> for ServeFault {
    fn from(_error: AllocError) -> ServeFault {
        ServeFault::NoMemory
    }
}

impl<T: Drop> From<AllocFailed<T>> for ServeFault {
    fn from(_error: AllocFailed<T>) -> ServeFault {
        ServeFault::NoMemory
    }
}

impl From<StoreFault> for ServeFault {
    fn from(fault: StoreFault) -> ServeFault {
        match fault {
            StoreFault::NoMemory => ServeFault::NoMemory,
            fault => ServeFault::Store(fault),
        }
    }
}
