// Why a store does not take or keep.
ghost use Rattle.std.specs.Prelude.{◌≡◌};
ghost use Rattle.kept.specs.declared.fault.StoreFault.TheVariants.{NoMemory};

use commit_log::Error as LogError;
use recording::TakeFault;
use std::alloc::AllocError;
use thiserror::Error;

/// Why a store does not take or keep what its machine has committed.
#[derive(Clone, Copy, Debug, PartialEq, Eq, Error)]
pub enum StoreFault {
    /// Memory was refused. What is not written yet waits, and can be written later.
    #[error("memory was refused")]
    NoMemory,
    /// The machine has lost a record: the store has all up to that, and nothing behind it.
    #[error("the machine has lost a record, since memory was refused")]
    Lost,
    /// The records of the machine were taken by another.
    #[error("the records of the machine were taken by another")]
    OutOfStep,
    /// The log cannot be written to. Each later call answers the same.
    #[error("the store cannot be written to: {0}")]
    Log(LogError),
}

impl From<AllocError> for StoreFault {
    ghost from_gives = { λ _ fault. fault ≡ NoMemory };

    fn from(_error: AllocError) -> StoreFault {
        StoreFault::NoMemory
    }
}

impl From<TakeFault> for StoreFault {
    ghost use Rattle.kept.specs.Faults.{fault_of_take};

    ghost from_gives = { λ e fault. fault ≡ fault_of_take e };

    fn from(error: TakeFault) -> StoreFault {
        match error {
            TakeFault::NoMemory => StoreFault::NoMemory,
            TakeFault::Lost => StoreFault::Lost,
            TakeFault::OutOfStep => StoreFault::OutOfStep,
        }
    }
}

impl From<LogError> for StoreFault {
    ghost use Rattle.kept.specs.Faults.{fault_of_log};

    ghost from_gives = { λ e fault. fault ≡ fault_of_log e };

    fn from(error: LogError) -> StoreFault {
        match error {
            LogError::Memory => StoreFault::NoMemory,
            error => StoreFault::Log(error),
        }
    }
}
