// What operations are answered.
ghost use Rattle.std.specs.Prelude.{◌≡◌, IfOk};

use crate::aspect::{Cause, Why};
use crate::bytes::{Bytes, NameList};
use crate::errno::Errno;
use crate::number::{Fd, Num, Pid};
use crate::rights::Rights;
use std::alloc::AllocError;

/// What kind of object a number stands for.
#[derive(Clone, Copy, Debug, PartialEq, Eq)]
pub enum Kind {
    /// A regular file.
    File,
    /// A directory.
    Dir,
    /// A pipe.
    Pipe,
    /// A symbolic link.
    Link,
    /// A FIFO, which is a name and has no content.
    Fifo,
    /// A socket, which is a name and has no content.
    Socket,
}

/// What `stat`, `lstat` and `fstat` tell (POSIX.1-2017, sys/stat.h).
#[derive(Clone, Copy, Debug, PartialEq, Eq)]
pub struct Stat {
    /// The object's kind.
    pub kind: Kind,
    /// Its number.
    pub num: Num,
    /// A file's length, or that of a symbolic link's target, else 0.
    pub size: u64,
    /// How many names give it; 1 for a directory, 0 for a pipe.
    pub links: u32,
    /// Its permissions and its owner.
    pub rights: Rights,
}

/// What a call answers that is not refused.
#[derive(Debug)]
pub enum Answer {
    /// It is done.
    Done,
    /// A descriptor.
    Fd(Fd),
    /// How many bytes were written.
    Count(u32),
    /// The new offset.
    Place(u64),
    /// What was read, or the target of a symbolic link.
    Bytes(Bytes),
    /// The descriptors of a pipe, the one to read from first.
    Pair(Fd, Fd),
    /// What an object is like.
    Stat(Stat),
    /// The names of a directory, in byte order.
    Names(NameList),
    /// A child's number.
    Child(Pid),
}

impl Drop for Answer {
    fn drop(self) {
        match self {
            Answer::Done => {}
            Answer::Fd(_) => {}
            Answer::Count(_) => {}
            Answer::Place(_) => {}
            Answer::Bytes(_) => {}
            Answer::Pair(_, _) => {}
            Answer::Stat(_) => {}
            Answer::Names(_) => {}
            Answer::Child(_) => {}
        }
    }
}

impl Answer {
    /// The same answer, with bytes or names of which copies take no memory. Refused memory gives
    /// nothing.
    pub fn try_shared(self) -> Result<Answer, AllocError>
        ensures { IfOk result (λ answer. answer ≡ self) }
    {
        match self {
            Answer::Bytes(bytes) => Ok(Answer::Bytes(bytes.try_shared()?)),
            Answer::Names(names) => Ok(Answer::Names(names.try_shared()?)),
            other => Ok(other),
        }
    }

    /// A copy on the same allocator. Refused memory changes nothing.
    pub fn try_clone(&self) -> Result<Answer, AllocError>
        ensures { IfOk result (λ copy. copy ≡ self.now) }
    {
        match self {
            Answer::Done => Ok(Answer::Done),
            Answer::Fd(fd) => Ok(Answer::Fd(*fd)),
            Answer::Count(count) => Ok(Answer::Count(*count)),
            Answer::Place(place) => Ok(Answer::Place(*place)),
            Answer::Bytes(bytes) => Ok(Answer::Bytes(bytes.try_clone()?)),
            Answer::Pair(reader, writer) => Ok(Answer::Pair(*reader, *writer)),
            Answer::Stat(stat) => Ok(Answer::Stat(*stat)),
            Answer::Names(names) => Ok(Answer::Names(names.try_clone()?)),
            Answer::Child(pid) => Ok(Answer::Child(*pid)),
        }
    }
}

/// What an operation is answered.
#[derive(Debug)]
pub enum Reply {
    /// A call's answer.
    Answer(Answer),
    /// A call's refusal.
    Errno(Errno),
    /// A transaction has begun.
    Begun,
    /// A transaction is committed.
    Committed,
    /// A transaction was given up by its process.
    GivenUp {
        /// Whether it has begun anew.
        restarted: bool,
    },
    /// A transaction was undone.
    Aborted {
        /// Why.
        why: Why,
        /// Whether it has begun anew.
        restarted: bool,
    },
    /// A plain call lost a conflict and was not executed.
    Busy(Cause),
    /// Begin inside a transaction.
    InTransaction,
    /// End or Abort outside one.
    NotInTransaction,
    /// The history has no place for the entry. Nothing has changed.
    HistoryFull,
    /// Memory was refused. Nothing has changed.
    NoMemory,
    /// The process was never made or has ended.
    NoProcess,
}

impl Drop for Reply {
    fn drop(self) {
        match self {
            Reply::Answer(_) => {}
            Reply::Errno(_) => {}
            Reply::Begun => {}
            Reply::Committed => {}
            Reply::GivenUp { restarted: _ } => {}
            Reply::Aborted {
                why: _,
                restarted: _,
            } => {}
            Reply::Busy(_) => {}
            Reply::InTransaction => {}
            Reply::NotInTransaction => {}
            Reply::HistoryFull => {}
            Reply::NoMemory => {}
            Reply::NoProcess => {}
        }
    }
}

impl Reply {
    /// A copy on the same allocator. Refused memory changes nothing.
    pub fn try_clone(&self) -> Result<Reply, AllocError>
        ensures { IfOk result (λ copy. copy ≡ self.now) }
    {
        match self {
            Reply::Answer(answer) => Ok(Reply::Answer(answer.try_clone()?)),
            Reply::Errno(errno) => Ok(Reply::Errno(*errno)),
            Reply::Begun => Ok(Reply::Begun),
            Reply::Committed => Ok(Reply::Committed),
            Reply::GivenUp { restarted } => Ok(Reply::GivenUp {
                restarted: *restarted,
            }),
            Reply::Aborted { why, restarted } => Ok(Reply::Aborted {
                why: why.try_clone()?,
                restarted: *restarted,
            }),
            Reply::Busy(cause) => Ok(Reply::Busy(cause.try_clone()?)),
            Reply::InTransaction => Ok(Reply::InTransaction),
            Reply::NotInTransaction => Ok(Reply::NotInTransaction),
            Reply::HistoryFull => Ok(Reply::HistoryFull),
            Reply::NoMemory => Ok(Reply::NoMemory),
            Reply::NoProcess => Ok(Reply::NoProcess),
        }
    }
}
