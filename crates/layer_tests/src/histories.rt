// Histories that are written by hand.
ghost use Rattle.ids.specs.declared.limits.TheConstants.{LARGEST_FILE};
ghost use Rattle.std.specs.Prelude.{◌≤◌};

use heap::Heap;
use history::History;
use ids::{
    Answer, Aspect, BeginFlags, Bytes, Call, Cause, DEFAULT_LARGEST_FILE, Entry, Fd, Kind, Limits,
    Name, Num, Nums, Op, OpenFlags, Pid, Pids, Priority, Reply, Rights, Stat, Touch, Whence, Why,
};
use std::process::Abort;

// An entry without new numbers.
pub(crate) fn plain(heap: Heap, pid: u32, op: Op, reply: Reply) -> Entry {
    Entry {
        pid: Pid(pid),
        op,
        reply,
        chosen: Nums::new(heap),
        doomed: Pids::new(heap),
    }
}

// An entry of a call that makes an object.
pub(crate) fn making(rt: &impl Abort, heap: Heap, pid: u32, op: Op, num: usize) -> Entry {
    let mut entry = plain(heap, pid, op, Reply::Answer(Answer::Done));
    choose(rt, &mut entry, num);
    entry
}

// One new number more.
fn choose(rt: &impl Abort, entry: &mut Entry, num: usize) {
    entry.chosen.push(Num(num)).expect(rt, "memory");
}

pub(crate) fn path(rt: &impl Abort, heap: Heap, path: &[u8]) -> Bytes {
    Bytes::copy(heap, path).expect(rt, "memory")
}

pub(crate) fn mkdir_op(rt: &impl Abort, heap: Heap, name: &[u8]) -> Op {
    Op::Call(Call::Mkdir(path(rt, heap, name)))
}

pub(crate) fn mkdir(rt: &impl Abort, heap: Heap, pid: u32, name: &[u8], num: usize) -> Entry {
    making(rt, heap, pid, mkdir_op(rt, heap, name), num)
}

pub(crate) fn stat(rt: &impl Abort, heap: Heap, pid: u32, name: &[u8], reply: Reply) -> Entry {
    plain(heap, pid, Op::Call(Call::Stat(path(rt, heap, name))), reply)
}

// Opens the file `/a`, which has number 1 and is new, on descriptor 0.
pub(crate) fn open_new(rt: &impl Abort, heap: Heap) -> Entry {
    let flags = OpenFlags::READ
        .with(OpenFlags::WRITE)
        .with(OpenFlags::CREAT);
    let op = Op::Call(Call::Open(path(rt, heap, b"/a"), flags));
    let mut entry = plain(heap, 1, op, Reply::Answer(Answer::Fd(Fd(0))));
    choose(rt, &mut entry, 1);
    choose(rt, &mut entry, 2);
    entry
}

// Writes `hi` to descriptor 0.
pub(crate) fn write(rt: &impl Abort, heap: Heap) -> Entry {
    let call = Call::Write(Fd(0), path(rt, heap, b"hi"));
    plain(heap, 1, Op::Call(call), Reply::Answer(Answer::Count(2)))
}

// Goes to the first byte of descriptor 0.
pub(crate) fn rewind(heap: Heap) -> Entry {
    let call = Call::Lseek(Fd(0), 0, Whence::Set);
    plain(heap, 1, Op::Call(call), Reply::Answer(Answer::Place(0)))
}

// Reads from descriptor 0, and is answered these bytes.
pub(crate) fn read(rt: &impl Abort, heap: Heap, bytes: &[u8]) -> Entry {
    let reply = Reply::Answer(Answer::Bytes(path(rt, heap, bytes)));
    plain(heap, 1, Op::Call(Call::Read(Fd(0), 5)), reply)
}

// What a directory is like.
pub(crate) fn directory(num: usize) -> Reply {
    Reply::Answer(Answer::Stat(Stat {
        kind: Kind::Dir,
        num: Num(num),
        size: 0,
        links: 1,
        rights: Rights::first(Some(Kind::Dir)),
    }))
}

pub(crate) fn begin(heap: Heap, pid: u32) -> Entry {
    plain(heap, pid, Op::Begin(BeginFlags::none()), Reply::Begun)
}

// A reply that tells a read of the name `a` of the root.
pub(crate) fn aborted(rt: &impl Abort, heap: Heap, other: u32) -> Reply {
    let name = Name::copy(heap, b"a").expect(rt, "memory");
    Reply::Aborted {
        why: Why::Clash(Cause {
            touch: Touch {
                aspect: Aspect::Entry(Num(0), name),
                write: false,
            },
            other: Pid(other),
        }),
        restarted: false,
    }
}

// Two processes of priority 0.
pub(crate) fn empty(rt: &impl Abort, heap: Heap) -> History {
    limited(rt, heap, DEFAULT_LARGEST_FILE)
}

// The same, and files of at most so many bytes.
pub(crate) fn limited(rt: &impl Abort, heap: Heap, file_bytes: u64) -> History
    requires { file_bytes ≤ LARGEST_FILE }
{
    let zero = Priority::new(0).unwrap();
    let limits = Limits {
        file_bytes,
        ..Limits::of_entries(16)
    };
    History::with_limits(heap, &[zero, zero], limits).expect(rt, "memory")
}

// Whether a thing was done. What comes back otherwise goes here.
fn is_done<T: Drop>(done: Result<(), T>) -> bool {
    done.is_ok()
}

// One entry more.
pub(crate) fn add(rt: &impl Abort, history: &mut History, entry: Entry) {
    assert!(rt; is_done(history.push(entry)));
}
