// What has come up in all runs.
ghost use Rattle.std.specs.Prelude.{◌<◌};

use ids::{Call, Reply};
use script::{ScheduleFault, ScriptFault};

// The kinds of replies, the refusals first in the order of their numbers.
pub(crate) static REPLIES: [&str; 29] = [
    "EAGAIN",
    "EBADF",
    "EBUSY",
    "EEXIST",
    "EFBIG",
    "EINVAL",
    "EISDIR",
    "ELOOP",
    "EMFILE",
    "ENAMETOOLONG",
    "ENOENT",
    "ENOTDIR",
    "ENOTEMPTY",
    "ENOTSUP",
    "ENXIO",
    "EPERM",
    "EPIPE",
    "ESPIPE",
    "answers",
    "begun",
    "committed",
    "given up",
    "aborted",
    "busy",
    "InTransaction",
    "NotInTransaction",
    "HistoryFull",
    "NoMemory",
    "NoProcess",
];

fn kind_of(reply: &Reply) -> usize {
    match reply {
        Reply::Errno(errno) => *errno as usize,
        Reply::Answer(_) => 18,
        Reply::Begun => 19,
        Reply::Committed => 20,
        Reply::GivenUp { restarted: _ } => 21,
        Reply::Aborted {
            why: _,
            restarted: _,
        } => 22,
        Reply::Busy(_) => 23,
        Reply::InTransaction => 24,
        Reply::NotInTransaction => 25,
        Reply::HistoryFull => 26,
        Reply::NoMemory => 27,
        Reply::NoProcess => 28,
    }
}

// How many calls there are.
const CALL_COUNT: usize = 32;

// The calls, in the order of their indices.
pub(crate) static CALLS: [&str; CALL_COUNT] = [
    "open",
    "close",
    "read",
    "pread",
    "write",
    "pwrite",
    "lseek",
    "ftruncate",
    "truncate",
    "fallocate",
    "stat",
    "fstat",
    "link",
    "unlink",
    "rename",
    "exchange",
    "mkdir",
    "rmdir",
    "list",
    "symlink",
    "readlink",
    "lstat",
    "mknod",
    "chmod",
    "chown",
    "fchmod",
    "fchown",
    "dup",
    "dup2",
    "pipe",
    "fork",
    "exit",
];

// The index of a call. Each has one, so that a call that no script makes is noticed.
fn index_of(call: &Call) -> usize
    ensures { result < CALL_COUNT }
{
    match call {
        Call::Open(_, _) => 0,
        Call::Close(_) => 1,
        Call::Read(_, _) => 2,
        Call::Pread(_, _, _) => 3,
        Call::Write(_, _) => 4,
        Call::Pwrite(_, _, _) => 5,
        Call::Lseek(_, _, _) => 6,
        Call::Ftruncate(_, _) => 7,
        Call::Truncate(_, _) => 8,
        Call::Fallocate(_, _, _, _) => 9,
        Call::Stat(_) => 10,
        Call::Fstat(_) => 11,
        Call::Link(_, _) => 12,
        Call::Unlink(_) => 13,
        Call::Rename(_, _) => 14,
        Call::Exchange(_, _) => 15,
        Call::Mkdir(_) => 16,
        Call::Rmdir(_) => 17,
        Call::List(_) => 18,
        Call::Symlink(_, _) => 19,
        Call::Readlink(_) => 20,
        Call::Lstat(_) => 21,
        Call::Mknod(_, _) => 22,
        Call::Chmod(_, _) => 23,
        Call::Chown(_, _) => 24,
        Call::Fchmod(_, _) => 25,
        Call::Fchown(_, _) => 26,
        Call::Dup(_) => 27,
        Call::Dup2(_, _) => 28,
        Call::Pipe => 29,
        Call::Fork => 30,
        Call::Exit => 31,
    }
}

// The kinds of faults that a text or a list can have.
pub(crate) static FAULTS: [&str; 8] = [
    "script too long",
    "not ended",
    "priorities expected",
    "process number expected",
    "unknown operation",
    "bad arguments",
    "bad list",
    "no line left",
];

// How often each thing has come up.
#[derive(Clone, Copy)]
pub(crate) struct Tally {
    pub(crate) steps: u64,
    pub(crate) dooms: u64,
    pub(crate) restarts: u64,
    pub(crate) silent: u64,
    pub(crate) refused: u64,
    pub(crate) left_out: u64,
    pub(crate) read: u64,
    pub(crate) replies: [u64; 29],
    // How often each call was answered, by its index.
    pub(crate) calls: [u64; CALL_COUNT],
    pub(crate) faults: [u64; 8],
}

fn count_one(counts: &mut [u64], kind: usize) {
    if let Some(count) = counts.get_mut(kind) {
        *count = count.wrapping_add(1);
    }
}

impl Tally {
    pub(crate) fn new() -> Tally {
        Tally {
            steps: 0,
            dooms: 0,
            restarts: 0,
            silent: 0,
            refused: 0,
            left_out: 0,
            read: 0,
            replies: [0; 29],
            calls: [0; CALL_COUNT],
            faults: [0; 8],
        }
    }

    pub(crate) fn add_reply(&mut self, reply: &Reply) {
        self.steps = self.steps.wrapping_add(1);
        count_one(self.replies.as_mut_slice(), kind_of(reply));
    }

    // Counts a call that was answered.
    pub(crate) fn add_answered(&mut self, call: &Call) {
        count_one(self.calls.as_mut_slice(), index_of(call));
    }

    // Whether each call was answered at least once.
    pub(crate) fn has_each_call(&self) -> bool {
        !self.calls.as_slice().contains(&0)
    }

    pub(crate) fn add_script_fault(&mut self, fault: ScriptFault) {
        let kind = match fault {
            ScriptFault::TooLong | ScriptFault::LineTooLong(_) => 0,
            ScriptFault::NotEnded(_) => 1,
            ScriptFault::PrioritiesExpected(_) => 2,
            ScriptFault::ProcessExpected(_) => 3,
            ScriptFault::UnknownOperation(_) => 4,
            ScriptFault::BadArguments(_) => 5,
            ScriptFault::NoMemory => 8,
        };
        count_one(self.faults.as_mut_slice(), kind);
    }

    pub(crate) fn add_schedule_fault(&mut self, fault: ScheduleFault) {
        let kind = match fault {
            ScheduleFault::BadList => 6,
            ScheduleFault::NoLine(_) => 7,
            ScheduleFault::NoMemory => 8,
        };
        count_one(self.faults.as_mut_slice(), kind);
    }
}
