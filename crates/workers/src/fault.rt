// Why a worker stopped before the end of its lines.
ghost use Rattle.std.specs.Prelude.{◌≡◌, is_some};
ghost use Rattle.workers.specs.Port.{is_refusal};

use ids::Reply;

/// Why a worker stopped before the end of its lines.
#[derive(Clone, Copy, Debug, PartialEq, Eq)]
pub enum WorkFault {
    /// The history has no room left for an entry.
    HistoryFull,
    /// Memory was refused, or a thread.
    NoMemory,
}

impl WorkFault {
    // The fault that a reply says.
    pub(crate) fn of_reply(reply: &Reply) -> Option<WorkFault>
        ensures { is_some result ≡ is_refusal reply.now }
    {
        match reply {
            Reply::HistoryFull => Some(WorkFault::HistoryFull),
            Reply::NoMemory => Some(WorkFault::NoMemory),
            _ => None,
        }
    }
}
