// Why a run has ended early.
ghost use Rattle.std.specs.Prelude.{◌≡◌};
ghost use Rattle.runner.specs.Faults.{fault_of_check, fault_of_refusal, fault_of_schedule};
ghost use Rattle.runner.specs.Faults.{fault_of_script, fault_of_work, status_of};
ghost use Rattle.runner.specs.Streaming.{fault_of_stream};

use replay::CheckFault;
use script::{ScheduleFault, ScriptFault};
use stream::{StepRefusal, StreamFault};
use thiserror::Error;
use workers::WorkFault;

/// Why a run has ended early. Its text is what the program reports.
#[derive(Clone, Copy, Debug, PartialEq, Eq, Error)]
pub enum RunFault {
    /// The text is no script.
    #[error("{0}")]
    Script(ScriptFault),
    /// The list is no schedule of the script.
    #[error("{0}")]
    Schedule(ScheduleFault),
    /// The source has failed.
    #[error("read failed")]
    Read,
    /// The sink has failed.
    #[error("write failed")]
    Write,
    /// The history has no room left for an entry.
    #[error("history full")]
    HistoryFull,
    /// Memory was refused, or a thread.
    #[error("no memory")]
    NoMemory,
    /// The check of the history says that the entry at this position, counted from 1, is wrong.
    #[error("check: entry {0} is wrong")]
    Check(usize),
}

impl RunFault {
    /// The run's fault for a text that is no script. Refused memory stays refused memory.
    pub fn of_script(fault: ScriptFault) -> RunFault
        ensures { result ≡ fault_of_script fault }
    {
        match fault {
            ScriptFault::NoMemory => RunFault::NoMemory,
            _ => RunFault::Script(fault),
        }
    }

    /// The run's fault for a list that is no schedule. Refused memory stays refused memory.
    pub fn of_schedule(fault: ScheduleFault) -> RunFault
        ensures { result ≡ fault_of_schedule fault }
    {
        match fault {
            ScheduleFault::NoMemory => RunFault::NoMemory,
            _ => RunFault::Schedule(fault),
        }
    }

    /// The run's fault where the check of its history has one. Refused memory stays refused memory.
    pub fn of_check(fault: CheckFault) -> RunFault
        ensures { result ≡ fault_of_check fault }
    {
        match fault {
            CheckFault::Wrong(position) => RunFault::Check(position),
            CheckFault::NoMemory => RunFault::NoMemory,
        }
    }

    /// The run's fault where a worker was stopped.
    pub fn of_work(fault: WorkFault) -> RunFault
        ensures { result ≡ fault_of_work fault }
    {
        match fault {
            WorkFault::HistoryFull => RunFault::HistoryFull,
            WorkFault::NoMemory => RunFault::NoMemory,
        }
    }

    /// The run's fault where a stream has stopped. One that has counted to its end counts as a full
    /// history.
    pub fn of_stream(fault: StreamFault) -> RunFault
        ensures { result ≡ fault_of_stream fault }
    {
        match fault {
            StreamFault::Read => RunFault::Read,
            StreamFault::Write => RunFault::Write,
            StreamFault::HistoryFull | StreamFault::Spent => RunFault::HistoryFull,
            StreamFault::NoMemory => RunFault::NoMemory,
            StreamFault::Check(position) => RunFault::Check(position),
        }
    }

    // The run's fault where a step was refused.
    pub(crate) fn of_refusal(refusal: StepRefusal) -> RunFault
        ensures { result ≡ fault_of_refusal refusal }
    {
        match refusal {
            StepRefusal::HistoryFull => RunFault::HistoryFull,
            StepRefusal::NoMemory => RunFault::NoMemory,
        }
    }

    /// The program's exit status: 1 for a fault of what is read, 3 where the history or memory is
    /// exhausted, 4 where the history does not pass its check, 5 where writing fails.
    pub fn status(self) -> u8
        ensures { result ≡ status_of self }
    {
        match self {
            RunFault::Script(_) | RunFault::Schedule(_) | RunFault::Read => 1,
            RunFault::HistoryFull | RunFault::NoMemory => 3,
            RunFault::Check(_) => 4,
            RunFault::Write => 5,
        }
    }
}
