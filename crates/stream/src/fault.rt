// Why a stream has stopped before the end of its input.
ghost use Rattle.std.specs.Prelude.{◌≡◌};
ghost use Rattle.stream.specs.Heard.{fault_of_check, fault_of_refusal};

use crate::doing::StepRefusal;
use replay::CheckFault;

/// Why a stream has stopped before the end of its input.
#[derive(Clone, Copy, Debug, PartialEq, Eq)]
pub enum StreamFault {
    /// The source has failed.
    Read,
    /// The sink has failed.
    Write,
    /// The places that an operation needs are not free, though no entry is kept.
    HistoryFull,
    /// Memory was refused.
    NoMemory,
    /// The check says that the entry at this position, counted from 1, is wrong.
    Check(usize),
    /// The places that an operation needs are not free, and no entry can be forgotten any more, as
    /// 2^63 or more were made. Or 2^64 - 1 reads were made, each of a byte or more.
    Spent,
}

impl StreamFault {
    // The fault where an operation is refused and nothing is kept.
    pub(crate) fn of_refusal(refusal: StepRefusal) -> StreamFault
        ensures { result ≡ fault_of_refusal refusal }
    {
        match refusal {
            StepRefusal::HistoryFull => StreamFault::HistoryFull,
            StepRefusal::NoMemory => StreamFault::NoMemory,
        }
    }

    // The fault where the check of the history has one. Refused memory stays refused memory.
    pub(crate) fn of_check(fault: CheckFault) -> StreamFault
        ensures { result ≡ fault_of_check fault }
    {
        match fault {
            CheckFault::Wrong(position) => StreamFault::Check(position),
            CheckFault::NoMemory => StreamFault::NoMemory,
        }
    }
}
