// Bytes written by hand, each variant there and back, and what is refused.
use super::*;
use crate::fault::Wrong;
use bitflags::Flags;
use heap::Heap;
use ids::*;
use std::alloc::AllocError;
use std::test::Fail;

// How many calls there are without a path or contents, with one, and with two.
const BARE: u8 = 20;

const WITH_TEXT: u8 = 15;

const WITH_TEXTS: u8 = 4;

const ASPECTS: u8 = 11;

// How many replies there are without an aspect.
const REPLIES: u8 = 17;

fn entry_with(heap: Heap, op: Op, reply: Reply) -> Result<Entry, AllocError> {
    let mut chosen = Nums::new(heap);
    chosen.push(Num(7))?;
    let mut doomed = Pids::new(heap);
    doomed.push(Pid(2))?;
    Ok(Entry {
        pid: Pid(3),
        op,
        reply,
        chosen,
        doomed,
    })
}

// The bytes of an entry, and one more.
fn with_one_more(heap: Heap, entry: &Entry) -> Result<Vec<u8, Heap>, AllocError> {
    let mut out = Vec::new(heap);
    put_entry(entry, &mut out)?;
    out.push(0)?;
    Ok(out)
}

// How many bytes an entry takes, where it is read as it was written with more behind it, and else 0.
fn length_there_and_back(heap: Heap, entry: &Entry) -> Result<usize, AllocError> {
    let out = with_one_more(heap, entry)?;
    match read_entry(heap, out.as_slice()) {
        Ok((read, taken)) => {
            let again = with_one_more(heap, &read)?;
            let is_same = again.as_slice() == out.as_slice()
                && taken == out.len().saturating_sub(1);
            Ok(if is_same { taken } else { 0 })
        }
        Err(_) => Ok(0),
    }
}

// Whether the entry of a call is read as it was written, and takes at most 64 bytes besides so many of
// its paths and contents.
fn is_there_and_back(heap: Heap, call: Call, content: usize) -> Result<bool, AllocError> {
    let reply = Reply::Answer(Answer::Pair(Fd(u32::MAX), Fd(0)));
    let length = length_there_and_back(heap, &entry_with(heap, Op::Call(call), reply)?)?;
    Ok(0 < length && length.saturating_sub(content) <= 64)
}

fn every_bit() -> Permissions {
    Permissions::new(0o7777).unwrap_or(Rights::first(None).permissions)
}

fn one_owner() -> NewOwner {
    NewOwner {
        user: Some(u32::MAX),
        group: None,
    }
}

fn bare_call(number: u8) -> Call {
    let fd = Fd(u32::MAX);
    match number {
        0 => Call::Close(fd),
        1 => Call::Read(fd, u32::MAX),
        2 => Call::Pread(fd, 1, i64::MIN),
        3 => Call::Lseek(fd, -1, Whence::Set),
        4 => Call::Lseek(fd, -1, Whence::Cur),
        5 => Call::Lseek(fd, -1, Whence::End),
        6 => Call::Lseek(fd, -1, Whence::Data),
        7 => Call::Lseek(fd, -1, Whence::Hole),
        8 => Call::Ftruncate(fd, 5),
        9 => Call::Fallocate(fd, -1, 1, Space::Grow),
        10 => Call::Fallocate(fd, -1, 1, Space::Keep),
        11 => Call::Fallocate(fd, -1, 1, Space::Punch),
        12 => Call::Fstat(fd),
        13 => Call::Fchmod(fd, every_bit()),
        14 => Call::Fchown(fd, one_owner()),
        15 => Call::Dup(fd),
        16 => Call::Dup2(fd, Fd(1)),
        17 => Call::Pipe,
        18 => Call::Fork,
        _ => Call::Exit,
    }
}

fn call_with_text(number: u8, text: Bytes) -> Call {
    match number {
        0 => Call::Open(text, OpenFlags::all()),
        1 => Call::Write(Fd(1), text),
        2 => Call::Pwrite(Fd(1), text, i64::MAX),
        3 => Call::Truncate(text, 5),
        4 => Call::Stat(text),
        5 => Call::Unlink(text),
        6 => Call::Mkdir(text),
        7 => Call::Rmdir(text),
        8 => Call::List(text),
        9 => Call::Readlink(text),
        10 => Call::Lstat(text),
        11 => Call::Mknod(text, Special::Fifo),
        12 => Call::Mknod(text, Special::Socket),
        13 => Call::Chmod(text, every_bit()),
        _ => Call::Chown(text, one_owner()),
    }
}

fn call_with_texts(number: u8, text: Bytes, other: Bytes) -> Call {
    match number {
        0 => Call::Link(text, other),
        1 => Call::Rename(text, other),
        2 => Call::Exchange(text, other),
        _ => Call::Symlink(text, other),
    }
}

fn numbered_aspect(heap: Heap, number: u8) -> Result<Aspect, AllocError> {
    let num = Num(usize::MAX);
    Ok(match number {
        0 => Aspect::Entry(num, Name::copy(heap, b"a")?),
        1 => Aspect::Names(num),
        2 => Aspect::Size(num),
        3 => Aspect::Block(num, 5),
        4 => Aspect::Links(num),
        5 => Aspect::Ends(num),
        6 => Aspect::Offset(num),
        7 => Aspect::Front(num),
        8 => Aspect::Back(num),
        9 => Aspect::Target(num),
        _ => Aspect::Rights(num),
    })
}

fn cause_of(aspect: Aspect, write: bool) -> Cause {
    Cause {
        touch: Touch { aspect, write },
        other: Pid(9),
    }
}

fn stat_of(kind: Kind) -> Answer {
    Answer::Stat(Stat {
        kind,
        num: Num(usize::MAX),
        size: u32::MAX,
        links: u32::MAX,
        rights: Rights::first(None),
    })
}

fn two_names(heap: Heap) -> Result<NameList, AllocError> {
    let mut names = Vec::new(heap);
    names.push(Name::copy(heap, b"a")?)?;
    names.push(Name::copy(heap, b"")?)?;
    Ok(NameList::new(names))
}

fn numbered_reply(heap: Heap, number: u8) -> Result<Reply, AllocError> {
    Ok(match number {
        0 => Reply::Answer(Answer::Done),
        1 => Reply::Answer(Answer::Fd(Fd(u32::MAX))),
        2 => Reply::Answer(Answer::Count(u32::MAX)),
        3 => Reply::Answer(Answer::Place(u32::MAX)),
        4 => Reply::Answer(Answer::Bytes(Bytes::copy(heap, b"abc")?)),
        5 => Reply::Answer(Answer::Names(two_names(heap)?)),
        6 => Reply::Answer(Answer::Child(Pid(4))),
        7 => Reply::Answer(Answer::Pair(Fd(1), Fd(2))),
        8 => Reply::Begun,
        9 => Reply::Committed,
        10 => Reply::GivenUp { restarted: true },
        11 => Reply::Aborted {
            why: Why::Unsupported,
            restarted: false,
        },
        12 => Reply::InTransaction,
        13 => Reply::NotInTransaction,
        14 => Reply::HistoryFull,
        15 => Reply::NoMemory,
        _ => Reply::NoProcess,
    })
}

// Whether the entry of a reply is read as it was written, and takes at most 64 bytes.
fn is_small(heap: Heap, op: Op, reply: Reply) -> Result<bool, AllocError> {
    let length = length_there_and_back(heap, &entry_with(heap, op, reply)?)?;
    Ok(0 < length && length <= 64)
}

const KINDS: [Kind; 6] = [
    Kind::File,
    Kind::Dir,
    Kind::Pipe,
    Kind::Link,
    Kind::Fifo,
    Kind::Socket,
];

const ERRNOS: [Errno; 18] = [
    Errno::EAGAIN,
    Errno::EBADF,
    Errno::EBUSY,
    Errno::EEXIST,
    Errno::EFBIG,
    Errno::EINVAL,
    Errno::EISDIR,
    Errno::ELOOP,
    Errno::EMFILE,
    Errno::ENAMETOOLONG,
    Errno::ENOENT,
    Errno::ENOTDIR,
    Errno::ENOTEMPTY,
    Errno::ENOTSUP,
    Errno::ENXIO,
    Errno::EPERM,
    Errno::EPIPE,
    Errno::ESPIPE,
];

// A rename by process 3, which is done; 7 was made and 2 doomed.
const RENAMED_BYTES: &[u8; 26] =
    b"\x03\0\0\0\x00\x0e\x01a\x01b\x00\x00\x01\x07\0\0\0\0\0\0\0\x01\x02\0\0\0";

// A write at an offset below zero, which is refused with EINVAL.
const REFUSED_BYTES: &[u8; 37] =
    b"\x03\0\0\0\x00\x05\x05\0\0\0\x02xy\xfe\xff\xff\xff\xff\xff\xff\xff\x01\x05\x01\x07\0\0\0\0\0\0\0\x01\x02\0\0\0";

fn renamed(heap: Heap) -> Result<Entry, AllocError> {
    let call = Call::Rename(Bytes::copy(heap, b"a")?, Bytes::copy(heap, b"b")?);
    entry_with(heap, Op::Call(call), Reply::Answer(Answer::Done))
}

fn refused(heap: Heap) -> Result<Entry, AllocError> {
    let call = Call::Pwrite(Fd(5), Bytes::copy(heap, b"xy")?, -2);
    entry_with(heap, Op::Call(call), Reply::Errno(Errno::EINVAL))
}

fn both(heap: Heap) -> Result<Vec<Entry, Heap>, AllocError> {
    let mut entries = Vec::new(heap);
    entries.push(renamed(heap)?)?;
    entries.push(refused(heap)?)?;
    Ok(entries)
}

fn record_of_both(heap: Heap) -> Result<Vec<u8, Heap>, AllocError> {
    let mut out = Vec::new(heap);
    put_entries(both(heap)?.as_slice(), &mut out)?;
    Ok(out)
}

fn bytes_of(heap: Heap, entry: &Entry) -> Result<Vec<u8, Heap>, AllocError> {
    let mut out = Vec::new(heap);
    put_entry(entry, &mut out)?;
    Ok(out)
}

#[test]
fn bytes_by_hand(rt: HostRuntime) -> Result<(), Fail> {
    let heap = heap::open(rt.alloc())?;
    assert!(rt; bytes_of(heap, &renamed(heap)?)?.as_slice() == RENAMED_BYTES.as_slice());
    assert!(rt; bytes_of(heap, &refused(heap)?)?.as_slice() == REFUSED_BYTES.as_slice());
    Ok(())
}

#[test]
fn each_bare_call_there_and_back(rt: HostRuntime) -> Result<(), Fail> {
    let heap = heap::open(rt.alloc())?;
    for number in 0..BARE {
        assert!(rt; is_there_and_back(heap, bare_call(number), 0)?);
    }
    Ok(())
}

#[test]
fn each_call_with_text_there_and_back(rt: HostRuntime) -> Result<(), Fail> {
    let heap = heap::open(rt.alloc())?;
    let text = Bytes::copy(heap, &[b'a'; 300])?;
    for number in 0..WITH_TEXT {
        let call = call_with_text(number, text.try_clone()?);
        assert!(rt; is_there_and_back(heap, call, 300)?);
    }
    for number in 0..WITH_TEXTS {
        let call = call_with_texts(number, text.try_clone()?, Bytes::copy(heap, b"b")?);
        assert!(rt; is_there_and_back(heap, call, 301)?);
    }
    Ok(())
}

#[test]
fn each_reply_there_and_back(rt: HostRuntime) -> Result<(), Fail> {
    let heap = heap::open(rt.alloc())?;
    for number in 0..REPLIES {
        assert!(rt; is_small(heap, Op::End, numbered_reply(heap, number)?)?);
    }
    for kind in KINDS {
        assert!(rt; is_small(heap, Op::End, Reply::Answer(stat_of(kind)))?);
    }
    for errno in ERRNOS {
        let op = Op::Abort { no_restart: true };
        assert!(rt; is_small(heap, op, Reply::Errno(errno))?);
    }
    Ok(())
}

#[test]
fn each_cause_there_and_back(rt: HostRuntime) -> Result<(), Fail> {
    let heap = heap::open(rt.alloc())?;
    for number in 0..ASPECTS {
        let busy = Reply::Busy(cause_of(numbered_aspect(heap, number)?, true));
        let begin = Op::Begin(BeginFlags::all());
        assert!(rt; is_small(heap, begin, busy)?);
        let aborted = Reply::Aborted {
            why: Why::Clash(cause_of(numbered_aspect(heap, number)?, false)),
            restarted: true,
        };
        assert!(rt; is_small(heap, Op::End, aborted)?);
    }
    Ok(())
}

#[test]
fn a_small_call_takes_few_bytes(rt: HostRuntime) -> Result<(), Fail> {
    let heap = heap::open(rt.alloc())?;
    let closed = Entry {
        pid: Pid(1),
        op: Op::Call(Call::Close(Fd(3))),
        reply: Reply::Answer(Answer::Done),
        chosen: Nums::new(heap),
        doomed: Pids::new(heap),
    };
    assert_eq!(rt; length_there_and_back(heap, &closed)?, 14);
    Ok(())
}

fn is_short(read: Result<Vec<Entry, Heap>, ReadError>) -> bool {
    match read {
        Err(ReadError::Fault(fault)) => fault.wrong == Wrong::Short,
        _ => false,
    }
}

#[test]
fn each_beginning_is_refused(rt: HostRuntime) -> Result<(), Fail> {
    let heap = heap::open(rt.alloc())?;
    let record = record_of_both(heap)?;
    assert_eq!(rt; record.len(), 64);
    for length in 0..record.len() {
        assert!(rt; is_short(read_entries(heap, &record.as_slice()[..length])));
    }
    let count = match read_entries(heap, record.as_slice()) {
        Ok(entries) => entries.len(),
        Err(_) => 0,
    };
    assert_eq!(rt; count, 2);
    Ok(())
}

// Whether this is what is wrong with an entry, where so many bytes are left.
fn is_fault(heap: Heap, bytes: &[u8], wrong: Wrong, left: usize) -> bool {
    match read_entry(heap, bytes) {
        Err(ReadError::Fault(fault)) => fault == Fault { wrong, left },
        _ => false,
    }
}

#[test]
fn a_fault_says_its_place(rt: HostRuntime) -> Result<(), Fail> {
    let heap = heap::open(rt.alloc())?;
    // a call and a reply of numbers that are given to none
    assert!(rt; is_fault(heap, b"\x03\0\0\0\x00\x20\x01a", Wrong::Variant, 2));
    assert!(rt; is_fault(heap, b"\x03\0\0\0\x00\x1f\x0c\0\0", Wrong::Variant, 2));
    // chmod of the path `a` with a bit too many
    assert!(rt; is_fault(heap, b"\x03\0\0\0\x00\x17\x01a\xff\x10", Wrong::Range, 0));
    // a transaction that is given up, and neither begun anew nor not
    assert!(rt; is_fault(heap, b"\x03\0\0\0\x03\x02", Wrong::Flag, 0));
    Ok(())
}

#[test]
fn a_record_ends_with_its_last_entry(rt: HostRuntime) -> Result<(), Fail> {
    let heap = heap::open(rt.alloc())?;
    let mut longer = record_of_both(heap)?;
    longer.push(0)?;
    let is_refused = match read_entries(heap, longer.as_slice()) {
        Err(ReadError::Fault(fault)) => fault.wrong == Wrong::Trailing && fault.left == 1,
        _ => false,
    };
    assert!(rt; is_refused);
    Ok(())
}

#[test]
fn a_length_asks_for_no_memory(rt: HostRuntime) -> Result<(), Fail> {
    let heap = heap::open(rt.alloc())?;
    // stat of a path of 2^32 - 1 bytes, and a path of three whose length has nine bytes
    let long = b"\x03\0\0\0\x00\x0a\xff\xff\xff\xff\xff\0\0\0\0abc";
    let wide = b"\x03\0\0\0\x00\x0a\xff\x03\0\0\0\0\0\0\0abc";
    // 2^32 - 1 entries
    let many = b"\xff\xff\xff\xff\xff\0\0\0\0";
    heap.refuse(1);
    assert!(rt; is_fault(heap, long, Wrong::Short, 3));
    assert!(rt; is_fault(heap, wide, Wrong::Long, 3));
    assert!(rt; is_short(read_entries(heap, many)));
    heap.refuse(0);
    Ok(())
}

// Whether a record is put behind what was there, or nothing is, where this request of memory is
// refused.
fn is_whole(heap: Heap, entries: &[Entry], number: u64) -> Result<bool, AllocError> {
    let mut out = Vec::from_slice(heap, b"#")?;
    heap.refuse(number);
    let put = put_entries(entries, &mut out).is_ok();
    heap.refuse(0);
    Ok(out.len() == if put { 65 } else { 1 })
}

#[test]
fn refused_memory_leaves_what_was_there(rt: HostRuntime) -> Result<(), Fail> {
    let heap = heap::open(rt.alloc())?;
    let entries = both(heap)?;
    for number in 1..12 {
        assert!(rt; is_whole(heap, entries.as_slice(), number)?);
    }
    Ok(())
}
