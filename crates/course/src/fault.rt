// What replies come to.
ghost use Rattle.std.specs.Prelude.{◌≡◌};
ghost use Rattle.course.specs.Faults.{begun_in, bytes_in, child_in, committed_in, count_in, done_in};
ghost use Rattle.course.specs.Faults.{fault_in, fd_in, given_up_in, is_abort, names_in, place_in};
ghost use Rattle.course.specs.Faults.{stat_in};

use heap::Heap;
use ids::{Answer, Bytes, Errno, Fd, NameList, Pid, Reply, Stat, Why};
use std::mem::replace;

/// Why a request fails.
#[derive(Debug, Drop)]
pub enum Fault {
    /// The kernel refused a call.
    Refused(Errno),
    /// A plain call was put off, as it lost a conflict against a transaction.
    Busy,
    /// Memory was refused, or no place is left in the history.
    NoMemory,
    /// A path gives another object than the one that is meant, or none.
    Stale,
    /// The kernel's reply is none that its operation has.
    Unexpected,
    /// The transaction of the process was aborted, for this cause.
    Aborted(Why),
}

impl Fault {
    // Whether the transaction was aborted.
    pub(crate) fn is_abort(&self) -> bool
        ensures { result ≡ is_abort self.now }
    {
        match self {
            Fault::Aborted(_) => true,
            _ => false,
        }
    }

    // Why a request fails by this reply, which is not the one that it hoped for.
    fn of_reply(reply: Reply) -> Fault
        ensures { result ≡ fault_in reply }
    {
        let mut reply = reply;
        match &mut reply {
            Reply::Errno(refused) => Fault::Refused(*refused),
            Reply::Aborted { why, restarted: _ } => {
                // A reply is not taken apart, but its cause can be swapped.
                Fault::Aborted(replace(why, Why::Unsupported))
            }
            Reply::Busy(_) => Fault::Busy,
            Reply::NoMemory | Reply::HistoryFull => Fault::NoMemory,
            _ => Fault::Unexpected,
        }
    }
}

// That a call is done.
pub(crate) fn done_in(reply: Reply) -> Result<(), Fault>
    ensures { result ≡ done_in reply }
{
    match &reply {
        Reply::Answer(Answer::Done) => Ok(()),
        _ => Err(Fault::of_reply(reply)),
    }
}

// The descriptor that a call answers.
pub(crate) fn fd_in(reply: Reply) -> Result<Fd, Fault>
    ensures { result ≡ fd_in reply }
{
    match &reply {
        Reply::Answer(Answer::Fd(fd)) => Ok(*fd),
        _ => Err(Fault::of_reply(reply)),
    }
}

// What a call tells of an object.
pub(crate) fn stat_in(reply: Reply) -> Result<Stat, Fault>
    ensures { result ≡ stat_in reply }
{
    match &reply {
        Reply::Answer(Answer::Stat(stat)) => Ok(*stat),
        _ => Err(Fault::of_reply(reply)),
    }
}

// How many bytes were written.
pub(crate) fn count_in(reply: Reply) -> Result<u32, Fault>
    ensures { result ≡ count_in reply }
{
    match &reply {
        Reply::Answer(Answer::Count(count)) => Ok(*count),
        _ => Err(Fault::of_reply(reply)),
    }
}

// The offset that was found.
pub(crate) fn place_in(reply: Reply) -> Result<u64, Fault>
    ensures { result ≡ place_in reply }
{
    match &reply {
        Reply::Answer(Answer::Place(place)) => Ok(*place),
        _ => Err(Fault::of_reply(reply)),
    }
}

// The bytes that were read.
pub(crate) fn bytes_in(heap: Heap, reply: Reply) -> Result<Bytes, Fault>
    ensures { result ≡ bytes_in reply }
{
    let mut reply = reply;
    match &mut reply {
        Reply::Answer(Answer::Bytes(bytes)) => Ok(replace(bytes, Bytes::new(Vec::new(heap)))),
        _ => Err(Fault::of_reply(reply)),
    }
}

// The names of a directory.
pub(crate) fn names_in(heap: Heap, reply: Reply) -> Result<NameList, Fault>
    ensures { result ≡ names_in reply }
{
    let mut reply = reply;
    match &mut reply {
        Reply::Answer(Answer::Names(names)) => Ok(replace(names, NameList::new(Vec::new(heap)))),
        _ => Err(Fault::of_reply(reply)),
    }
}

// The child that was made.
pub(crate) fn child_in(reply: Reply) -> Result<Pid, Fault>
    ensures { result ≡ child_in reply }
{
    match &reply {
        Reply::Answer(Answer::Child(pid)) => Ok(*pid),
        _ => Err(Fault::of_reply(reply)),
    }
}

// That a transaction has begun.
pub(crate) fn begun_in(reply: Reply) -> Result<(), Fault>
    ensures { result ≡ begun_in reply }
{
    match &reply {
        Reply::Begun => Ok(()),
        _ => Err(Fault::of_reply(reply)),
    }
}

// That a transaction is committed.
pub(crate) fn committed_in(reply: Reply) -> Result<(), Fault>
    ensures { result ≡ committed_in reply }
{
    match &reply {
        Reply::Committed => Ok(()),
        _ => Err(Fault::of_reply(reply)),
    }
}

// That a transaction was given up.
pub(crate) fn given_up_in(reply: Reply) -> Result<(), Fault>
    ensures { result ≡ given_up_in reply }
{
    match &reply {
        Reply::GivenUp { restarted: _ } => Ok(()),
        _ => Err(Fault::of_reply(reply)),
    }
}
