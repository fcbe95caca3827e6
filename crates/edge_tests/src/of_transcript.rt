// A transcript with each form of operation and reply, whole and up to each byte.
use crate::halting::halting;
use crate::texts::inspect;
use device::{Halting, Trickling};
use heap::Heap;
use ids::{
    Answer, Aspect, Bytes, Call, Cause, Entry, Errno, Fd, Kind, Name, NameList, Num, Nums, Op,
    Owner, Permissions, Pid, Pids, Reply, Rights, Stat, Touch, Why,
};
use script::{Line, read_script};
use std::alloc::AllocError;
use std::test::Fail;
use transcript::{print, print_line};

// The operations, as a script.
static SCRIPT: &str = "priorities 0
1 begin
1 mkdir /a
2 stat /a
1 end
2 stat /a
3 abort no_restart
3 abort
3 begin RESTART
3 begin RESTART,ABORT_UNSUPPORTED
3 end
3 end
3 open \\e -
3 open /\\x20\\x5c\\x7f~! RDWR,CREAT,APPEND
3 open /a EXCL,TRUNC
3 write 4294967295 hi
3 link /a /b
3 lseek 1 -17 CUR
3 dup2 1 2
3 pipe
3 fork
3 exit
3 fstat 2
3 truncate /\\x20 4294967295
3 pread 4294967295 1048576 -9223372036854775808
3 pwrite 1 a\\x0a -17
3 pfill 0 3 7a 1024
3 ftruncate 5 0
3 close 63
3 unlink /a
3 rename /a /
3 rmdir /a
3 dup 4
3 end
3 end
3 end
3 symlink ../a /\\x20
3 symlink \\e /a
3 lstat /a
3 lstat /b
3 stat /c
3 mknod /a fifo
3 mknod /b socket
3 open /a RDONLY
3 end
3 chmod /\\x20 0644
3 chown /a 0 -
3 fchmod 4294967295 7777
3 fchown 0 - 4294967295
3 stat /a
3 lstat /a
3 fstat 0
3 stat /b
3 stat /c
3 end
3 read 0 5
3 pread 0 5 9223372036854775807
3 readlink /a
3 list /a
3 exchange /a /\\x20
3 fallocate 4294967295 -9223372036854775808 9223372036854775807 GROW
3 fallocate 0 0 1 KEEP
3 fallocate 1 17 1 PUNCH
3 lseek 0 0 DATA
3 lseek 0 -1 HOLE
4096 end
";

// The operations with their replies. The last one dooms two processes.
static TRANSCRIPT: &str = "1 P1 begin -> begun
2 P1 mkdir /a -> ok
3 P2 stat /a -> ENOENT
4 P1 end -> committed
5 P2 stat /a -> dir size 0 links 1
6 P3 abort no_restart -> begun
7 P3 abort -> NoMemory
8 P3 begin RESTART -> begun
9 P3 begin RESTART,ABORT_UNSUPPORTED -> begun
10 P3 end -> given up restarted
11 P3 end -> aborted unsupported
12 P3 open \\e - -> 0
13 P3 open /\\x20\\x5c\\x7f~! RDWR,CREAT,APPEND -> ok
14 P3 open /a EXCL,TRUNC -> NoProcess
15 P3 write 4294967295 hi -> 2
16 P3 link /a /b -> HistoryFull
17 P3 lseek 1 -17 CUR -> 5
18 P3 dup2 1 2 -> InTransaction
19 P3 pipe -> 3 4
20 P3 fork -> child 4
21 P3 exit -> NotInTransaction
22 P3 fstat 2 -> pipe size 7 links 0
23 P3 truncate /\\x20 4294967295 -> EISDIR
24 P3 pread 4294967295 1048576 -9223372036854775808 -> EBADF
25 P3 pwrite 1 a\\x0a -17 -> EINVAL
26 P3 pwrite 0 zzz 1024 -> 3
27 P3 ftruncate 5 0 -> EBADF
28 P3 close 63 -> ok
29 P3 unlink /a -> EPERM
30 P3 rename /a / -> EBUSY
31 P3 rmdir /a -> ENOTEMPTY
32 P3 dup 4 -> 6
33 P3 end -> busy names read by P9
34 P3 end -> busy front write by P9
35 P3 end -> aborted block 1023 read by P9 restarted
36 P3 symlink ../a /\\x20 -> ok
37 P3 symlink \\e /a -> ENOENT
38 P3 lstat /a -> link size 4095 links 2
39 P3 lstat /b -> fifo size 0 links 1
40 P3 stat /c -> socket size 0 links 1
41 P3 mknod /a fifo -> ELOOP
42 P3 mknod /b socket -> EEXIST
43 P3 open /a RDONLY -> ENXIO
44 P3 end -> busy target read by P9
45 P3 chmod /\\x20 644 -> ok
46 P3 chown /a 0 - -> ok
47 P3 fchmod 4294967295 7777 -> EBADF
48 P3 fchown 0 - 4294967295 -> ok
49 P3 stat /a -> file size 3 links 1 mode 0
50 P3 lstat /a -> link size 1 links 1 mode 17 owner 0 5
51 P3 fstat 0 -> pipe size 0 links 0 mode 700 owner 4294967295 0
52 P3 stat /b -> dir size 0 links 1 owner 1 2
53 P3 stat /c -> fifo size 0 links 1 mode 7777 owner 4294967295 4294967295
54 P3 end -> busy rights write by P9
55 P3 read 0 5 -> 2 a\\x0a
56 P3 pread 0 5 9223372036854775807 -> 0 \\e
57 P3 readlink /a -> 4 ../a
58 P3 list /a -> names 2 a b\\x20c
59 P3 exchange /a /\\x20 -> ok
60 P3 fallocate 4294967295 -9223372036854775808 9223372036854775807 GROW -> EINVAL
61 P3 fallocate 0 0 1 KEEP -> ok
62 P3 fallocate 1 17 1 PUNCH -> ESPIPE
63 P3 lseek 0 0 DATA -> 1024
64 P3 lseek 0 -1 HOLE -> ENXIO
65 P4096 end -> busy entry a write by P9 dooms P1,P4096
";

// A status with these rights.
fn told(kind: Kind, size: u64, links: u32, rights: Rights) -> Reply {
    Reply::Answer(Answer::Stat(Stat {
        kind,
        num: Num(7),
        size,
        links,
        rights,
    }))
}

// A status with the first rights of its kind.
fn stat(kind: Kind, size: u64, links: u32) -> Reply {
    told(kind, size, links, Rights::first(Some(kind)))
}

fn rights(bits: u16, user: u32, group: u32) -> Rights {
    let first = Rights::first(None).permissions;
    Rights {
        permissions: Permissions::new(bits).unwrap_or(first),
        owner: Owner { user, group },
    }
}

fn cause(aspect: Aspect, write: bool) -> Cause {
    Cause {
        touch: Touch { aspect, write },
        other: Pid(9),
    }
}

// The replies that hold no memory.
fn plain_replies() -> [Reply; 44] {
    [
        Reply::Begun,
        Reply::Answer(Answer::Done),
        Reply::Errno(Errno::ENOENT),
        Reply::Committed,
        stat(Kind::Dir, 0, 1),
        Reply::Begun,
        Reply::NoMemory,
        Reply::Begun,
        Reply::Begun,
        Reply::GivenUp { restarted: true },
        Reply::Aborted {
            why: Why::Unsupported,
            restarted: false,
        },
        Reply::Answer(Answer::Fd(Fd(0))),
        Reply::Answer(Answer::Done),
        Reply::NoProcess,
        Reply::Answer(Answer::Count(2)),
        Reply::HistoryFull,
        Reply::Answer(Answer::Place(5)),
        Reply::InTransaction,
        Reply::Answer(Answer::Pair(Fd(3), Fd(4))),
        Reply::Answer(Answer::Child(Pid(4))),
        Reply::NotInTransaction,
        stat(Kind::Pipe, 7, 0),
        Reply::Errno(Errno::EISDIR),
        Reply::Errno(Errno::EBADF),
        Reply::Errno(Errno::EINVAL),
        Reply::Answer(Answer::Count(3)),
        Reply::Errno(Errno::EBADF),
        Reply::Answer(Answer::Done),
        Reply::Errno(Errno::EPERM),
        Reply::Errno(Errno::EBUSY),
        Reply::Errno(Errno::ENOTEMPTY),
        Reply::Answer(Answer::Fd(Fd(6))),
        Reply::Busy(cause(Aspect::Names(Num(1)), false)),
        Reply::Busy(cause(Aspect::Front(Num(1)), true)),
        Reply::Aborted {
            why: Why::Clash(cause(Aspect::Block(Num(1), 1023), false)),
            restarted: true,
        },
        Reply::Answer(Answer::Done),
        Reply::Errno(Errno::ENOENT),
        stat(Kind::Link, 4095, 2),
        stat(Kind::Fifo, 0, 1),
        stat(Kind::Socket, 0, 1),
        Reply::Errno(Errno::ELOOP),
        Reply::Errno(Errno::EEXIST),
        Reply::Errno(Errno::ENXIO),
        Reply::Busy(cause(Aspect::Target(Num(1)), false)),
    ]
}

// The replies to what sets rights, and those that tell them.
fn replies_of_rights() -> [Reply; 10] {
    let most = u32::MAX;
    [
        Reply::Answer(Answer::Done),
        Reply::Answer(Answer::Done),
        Reply::Errno(Errno::EBADF),
        Reply::Answer(Answer::Done),
        told(Kind::File, 3, 1, rights(0, 0, 0)),
        told(Kind::Link, 1, 1, rights(0o17, 0, 5)),
        told(Kind::Pipe, 0, 0, rights(0o700, most, 0)),
        told(Kind::Dir, 0, 1, rights(0o755, 1, 2)),
        told(Kind::Fifo, 0, 1, rights(0o7777, most, most)),
        Reply::Busy(cause(Aspect::Rights(Num(1)), true)),
    ]
}

fn names(heap: Heap) -> Result<NameList, AllocError> {
    let mut names = Vec::with_capacity(heap, 2)?;
    names.push(Name::copy(heap, b"a")?)?;
    names.push(Name::copy(heap, b"b c")?)?;
    Ok(NameList::new(names))
}

// The replies to an exchange, and to what is asked of ranges of a file.
fn replies_of_ranges() -> [Reply; 6] {
    [
        Reply::Answer(Answer::Done),
        Reply::Errno(Errno::EINVAL),
        Reply::Answer(Answer::Done),
        Reply::Errno(Errno::ESPIPE),
        Reply::Answer(Answer::Place(1024)),
        Reply::Errno(Errno::ENXIO),
    ]
}

// The replies that tell bytes or names.
fn replies_with_memory(heap: Heap) -> Result<[Reply; 4], AllocError> {
    let bytes = Bytes::copy(heap, b"a\n")?;
    let target = Bytes::copy(heap, b"../a")?;
    let names = names(heap)?;
    Ok([
        Reply::Answer(Answer::Bytes(bytes)),
        Reply::Answer(Answer::Bytes(Bytes::new(Vec::new(heap)))),
        Reply::Answer(Answer::Bytes(target)),
        Reply::Answer(Answer::Names(names)),
    ])
}

fn entry(heap: Heap, line: Line, reply: Reply) -> Entry {
    Entry {
        pid: line.pid,
        op: line.op,
        reply,
        chosen: Nums::new(heap),
        doomed: Pids::new(heap),
    }
}

fn replies(heap: Heap) -> Result<Vec<Reply, Heap>, AllocError> {
    let mut replies = Vec::from_array(heap, plain_replies())?;
    replies.append(&mut Vec::from_array(heap, replies_of_rights())?)?;
    replies.append(&mut Vec::from_array(heap, replies_with_memory(heap)?)?)?;
    replies.append(&mut Vec::from_array(heap, replies_of_ranges())?)?;
    let entry = Aspect::Entry(Num(1), Name::copy(heap, b"a")?);
    replies.push(Reply::Busy(cause(entry, true)))?;
    Ok(replies)
}

// What the lines of a script ask, with these replies.
fn entries_of(
    heap: Heap,
    lines: Vec<Line, Heap>,
    replies: Vec<Reply, Heap>,
) -> Result<Vec<Entry, Heap>, AllocError> {
    let mut entries = Vec::with_capacity(heap, lines.len())?;
    let mut replies = replies.into_iter();
    for line in lines {
        if let Some(reply) = replies.next() {
            entries.push(entry(heap, line, reply))?;
        }
    }
    Ok(entries)
}

fn doom(entry: &mut Entry) -> Result<(), AllocError> {
    entry.doomed.push(Pid(1))?;
    entry.doomed.push(Pid(4096))
}

fn sample(heap: Heap) -> Result<Vec<Entry, Heap>, Fail> {
    let lines = read_script(heap, SCRIPT.as_bytes())?.into_lines();
    let replies = match replies(heap) {
        Ok(replies) => replies,
        Err(error) => {
            drop(lines);
            return Err(Fail::from(error));
        }
    };
    let mut entries = entries_of(heap, lines, replies)?;
    match doom_last(entries.as_mut_slice()) {
        Ok(()) => Ok(entries),
        Err(error) => {
            drop(entries);
            Err(error)
        }
    }
}

fn doom_last(entries: &mut [Entry]) -> Result<(), Fail> {
    Ok(doom(entries.last_mut().ok_or("no entry")?)?)
}

// Whether a sink that takes so many bytes gets just these of the transcript, and fails where there
// are more.
fn has_beginning(heap: Heap, entries: &[Entry], room: usize) -> bool {
    let mut sink = halting(heap, room);
    let printed = print(1, entries, &mut sink).is_ok();
    let all = TRANSCRIPT.as_bytes();
    printed == (room >= all.len())
        && sink.bytes.len() == room.min(all.len())
        && all.starts_with(sink.bytes.as_slice())
}

fn is_trickled(heap: Heap, entries: &[Entry]) -> bool {
    let mut sink = Trickling {
        bytes: Vec::new(heap),
        failures: 0,
    };
    let printed = print(1, entries, &mut sink).is_ok();
    printed && sink.bytes.as_slice() == TRANSCRIPT.as_bytes()
}

// Whether printing takes no memory, where the sink has room.
fn takes_no_memory(heap: Heap, entries: &[Entry]) -> Result<bool, AllocError> {
    let mut sink = Halting {
        bytes: Vec::with_capacity(heap, 9000)?,
        left: 9000,
        failures: 0,
    };
    heap.refuse(1);
    let printed = print(1, entries, &mut sink).is_ok();
    Ok(printed && heap.made() == 0 && sink.bytes.as_slice() == TRANSCRIPT.as_bytes())
}

#[test]
fn a_transcript_on_each_sink(rt: HostRuntime) -> Result<(), Fail> {
    let heap = heap::open(rt.alloc())?;
    let entries = sample(heap)?;
    for room in 0..=TRANSCRIPT.len() {
        assert!(rt; has_beginning(heap, entries.as_slice(), room), "{room}");
    }
    assert!(rt; is_trickled(heap, entries.as_slice()));
    assert!(rt; takes_no_memory(heap, entries.as_slice())?);
    Ok(())
}

// A write of a thousand bytes.
fn long_entry(heap: Heap) -> Result<Entry, AllocError> {
    Ok(Entry {
        pid: Pid(1),
        op: Op::Call(Call::Write(Fd(0), Bytes::new(Vec::from_elem(heap, 0, 1000)?))),
        reply: Reply::Answer(Answer::Count(1000)),
        chosen: Nums::new(heap),
        doomed: Pids::new(heap),
    })
}

// Whether an entry's line is written whole to a sink that takes so many bytes, and how many the
// sink gets.
fn line_of(heap: Heap, entry: &Entry, room: usize) -> (bool, usize) {
    let mut sink = halting(heap, room);
    let printed = print_line(1, entry, &mut sink).is_ok();
    (printed, sink.bytes.len())
}

#[test]
fn a_long_line_is_written_in_parts(rt: HostRuntime) -> Result<(), Fail> {
    let heap = heap::open(rt.alloc())?;
    let len = 4000 + "1 P1 write 0  -> 1000\n".len();
    let lines = inspect(long_entry(heap)?, |entry| {
        [line_of(heap, entry, 9000), line_of(heap, entry, 600)]
    });
    assert!(rt; lines == [(true, len), (false, 600)]);
    Ok(())
}
