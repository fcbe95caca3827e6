// Lines that are done as they come, in whatever pieces; lines that are none; ends in the midst of a
// line; and devices that fail.
ghost use Rattle.std.specs.Prelude.{◌≡◌, ◌≤◌, None};

use crate::halting::halting;
use device::{DeviceFailed, Failing, Portions, Sink};
use heap::Heap;
use kernel::Kernel;
use runner::run_stream_job;
use std::alloc::AllocError;
use std::test::Fail;
use words::{DEFAULT_DESCRIPTORS, DEFAULT_FILE_LIMIT, DEFAULT_PATH_LIMIT, StreamJob};

// What comes in, how many entries are kept, whether they are checked, how many bytes the standard
// output takes, and what is expected: the status, and both outputs.
struct Talk {
    input: &'static [u8],
    limit: u32,
    check: bool,
    room: usize,
    status: u8,
    out: &'static str,
    err: &'static str,
}

fn job_of(talk: &Talk) -> StreamJob
    ensures limited { result.limit ≤ 100 }
    ensures files { result.file_limit ≡ DEFAULT_FILE_LIMIT }
{
    StreamJob {
        limit: talk.limit.min(100),
        file_limit: DEFAULT_FILE_LIMIT,
        descriptors: DEFAULT_DESCRIPTORS,
        path_limit: DEFAULT_PATH_LIMIT,
        check: talk.check,
    }
}

// Whether a talk that comes in so many bytes at a time, at most, is as expected.
fn is_as_expected(heap: Heap, talk: &Talk, most: usize) -> bool {
    let mut source = Portions {
        bytes: talk.input,
        most: most.max(1),
    };
    let mut out = halting(heap, talk.room);
    let mut err = halting(heap, 1000);
    let job = job_of(talk);
    let status = run_stream_job::<Kernel, _, _, _>(heap, job, &mut source, &mut out, &mut err);
    status == talk.status
        && out.bytes.as_slice() == talk.out.as_bytes()
        && err.bytes.as_slice() == talk.err.as_bytes()
}

// How many bytes come at a time.
static PIECES: [usize; 6] = [1, 2, 3, 7, 64, 100_000];

// Whether it is in each of these pieces.
fn is_as_expected_in_pieces(heap: Heap, talk: &Talk) -> bool {
    for most in &PIECES {
        if !is_as_expected(heap, talk, *most) {
            return false;
        }
    }
    true
}

// Lines that are done, and lines that ask nothing.
static TALKS: [Talk; 14] = [
    Talk {
        input: b"",
        limit: 100,
        check: false,
        room: 1000,
        status: 0,
        out: "",
        err: "",
    },
    Talk {
        input: b"\n# c\n\n",
        limit: 100,
        check: true,
        room: 1000,
        status: 0,
        out: "check: ok\n",
        err: "",
    },
    Talk {
        input: b"priorities 0 0\n1 begin\n1 mkdir /a\n2 stat /a\n1 end\n2 stat /a\n",
        limit: 100,
        check: false,
        room: 1000,
        status: 0,
        out: "1 P1 begin -> begun\n2 P1 mkdir /a -> ok\n3 P2 stat /a -> ENOENT\n\
            4 P1 end -> committed\n5 P2 stat /a -> dir size 0 links 1\n",
        err: "",
    },
    Talk {
        input: b"# a\n\npriorities 0\n\n# b\n1 end\n\n1 end\n",
        limit: 100,
        check: true,
        room: 1000,
        status: 0,
        out: "1 P1 end -> NotInTransaction\n2 P1 end -> NotInTransaction\ncheck: ok\n",
        err: "",
    },
    // What is no operation is answered in its turn, and changes nothing.
    Talk {
        input: b"priorities 0\n1 mkdir /a\n1 frob\n0 end\n1 stat\n1 stat /a\npriorities 0\n1 end\n",
        limit: 100,
        check: true,
        room: 1000,
        status: 1,
        out: "1 P1 mkdir /a -> ok\n? line 3: unknown operation\n\
            ? line 4: process number expected\n? line 5: bad arguments\n\
            2 P1 stat /a -> dir size 0 links 1\n? line 7: process number expected\n\
            3 P1 end -> NotInTransaction\ncheck: ok\n",
        err: "",
    },
    // Until a line gives priorities there is no kernel.
    Talk {
        input: b"1 end\npriorities 8\npriorities\n\npriorities 7\n1 end\n",
        limit: 100,
        check: true,
        room: 1000,
        status: 1,
        out: "? line 1: priorities expected\n? line 2: priorities expected\n\
            ? line 3: priorities expected\n1 P1 end -> NotInTransaction\ncheck: ok\n",
        err: "",
    },
    // A process that was never made, and one that has ended.
    Talk {
        input: b"priorities 0\n2 stat /\n4096 end\n4097 end\n1 exit\n1 stat /\n",
        limit: 100,
        check: true,
        room: 1000,
        status: 1,
        out: "1 P2 stat / -> NoProcess\n2 P4096 end -> NoProcess\n\
            ? line 4: process number expected\n3 P1 exit -> ok\n4 P1 stat / -> NoProcess\n\
            check: ok\n",
        err: "",
    },
    // Bytes that are no UTF-8, a NUL, and a line feed of another system.
    Talk {
        input: b"priorities 0\n\xff\xfe\n1 stat /\xc3\xa4\n1 stat /\0\n\0\n1 end\r\n1 end\n",
        limit: 100,
        check: true,
        room: 1000,
        status: 1,
        out: "? line 2: process number expected\n? line 3: bad arguments\n\
            ? line 4: bad arguments\n? line 5: process number expected\n\
            ? line 6: unknown operation\n1 P1 end -> NotInTransaction\ncheck: ok\n",
        err: "",
    },
    // The input ends in the midst of a line, which is not done.
    Talk {
        input: b"priorities 0\n1 mkdir /a\n1 mkdir /b",
        limit: 100,
        check: true,
        room: 1000,
        status: 1,
        out: "1 P1 mkdir /a -> ok\n? line 3: not ended\ncheck: ok\n",
        err: "",
    },
    Talk {
        input: b"priorities 0",
        limit: 100,
        check: false,
        room: 1000,
        status: 1,
        out: "? line 1: not ended\n",
        err: "",
    },
    Talk {
        input: b"priorities 0\n#",
        limit: 100,
        check: false,
        room: 1000,
        status: 1,
        out: "? line 2: not ended\n",
        err: "",
    },
    // It ends in the midst of a transaction.
    Talk {
        input: b"priorities 0 0\n1 begin\n1 mkdir /a\n2 begin\n2 mkdir /b\n",
        limit: 100,
        check: true,
        room: 1000,
        status: 0,
        out: "1 P1 begin -> begun\n2 P1 mkdir /a -> ok\n3 P2 begin -> begun\n\
            4 P2 mkdir /b -> ok\ncheck: ok\n",
        err: "",
    },
    // One entry is kept at a time.
    Talk {
        input: b"priorities 0\n1 mkdir /a\n1 mkdir /b\n1 list /\n1 rmdir /a\n1 list /\n",
        limit: 1,
        check: true,
        room: 1000,
        status: 0,
        out: "1 P1 mkdir /a -> ok\n2 P1 mkdir /b -> ok\n3 P1 list / -> names 2 a b\n\
            4 P1 rmdir /a -> ok\n5 P1 list / -> names 1 b\ncheck: ok\n",
        err: "",
    },
    // A transaction holds a place, so of two there is one left.
    Talk {
        input: b"priorities 0\n1 begin\n1 mkdir /a\n1 mkdir /b\n1 end\n1 list /\n",
        limit: 2,
        check: true,
        room: 1000,
        status: 0,
        out: "1 P1 begin -> begun\n2 P1 mkdir /a -> ok\n3 P1 mkdir /b -> ok\n\
            4 P1 end -> committed\n5 P1 list / -> names 2 a b\ncheck: ok\n",
        err: "",
    },
];

// Streams that a fault stops: what came before it is answered.
static STOPPED: [Talk; 5] = [
    Talk {
        input: b"priorities 0\n1 frob\n1 end\n1 end\n",
        limit: 0,
        check: true,
        room: 1000,
        status: 3,
        out: "? line 2: unknown operation\n",
        err: "txsh: history full\n",
    },
    // There is no place for a transaction and its end.
    Talk {
        input: b"priorities 0 0\n1 end\n1 begin\n1 end\n",
        limit: 1,
        check: false,
        room: 1000,
        status: 3,
        out: "1 P1 end -> NotInTransaction\n",
        err: "txsh: history full\n",
    },
    // The reader of the output has gone, or goes.
    Talk {
        input: b"priorities 0\n1 end\n1 end\n",
        limit: 100,
        check: false,
        room: 0,
        status: 5,
        out: "",
        err: "txsh: write failed\n",
    },
    Talk {
        input: b"priorities 0\n1 end\n1 frob\n1 end\n",
        limit: 100,
        check: false,
        room: 40,
        status: 5,
        out: "1 P1 end -> NotInTransaction\n? line 3: u",
        err: "txsh: write failed\n",
    },
    Talk {
        input: b"priorities 0\n1 end\n",
        limit: 100,
        check: true,
        room: 35,
        status: 5,
        out: "1 P1 end -> NotInTransaction\ncheck:",
        err: "txsh: write failed\n",
    },
];

#[test]
fn lines_are_answered_in_whatever_pieces(rt: HostRuntime) -> Result<(), Fail> {
    let heap = heap::open(rt.alloc())?;
    for talk in &TALKS {
        assert!(rt; is_as_expected_in_pieces(heap, talk), "{}", talk.out);
    }
    Ok(())
}

#[test]
fn faults_stop_a_stream_behind_its_answers(rt: HostRuntime) -> Result<(), Fail> {
    let heap = heap::open(rt.alloc())?;
    for talk in &STOPPED {
        assert!(rt; is_as_expected_in_pieces(heap, talk), "{}", talk.out);
    }
    Ok(())
}

// What a stream of three lines is answered, line by line.
static THREE: &[u8] = b"priorities 0\n1 end\n1 frob\n1 end\n";

static ANSWERS: [(usize, &str); 4] = [
    (12, ""),
    (18, "1 P1 end -> NotInTransaction\n"),
    (
        25,
        "1 P1 end -> NotInTransaction\n? line 3: unknown operation\n",
    ),
    (
        31,
        "1 P1 end -> NotInTransaction\n? line 3: unknown operation\n2 P1 end -> NotInTransaction\n",
    ),
];

// The answers of all lines that have ended before so many bytes.
fn answers_before(bytes: usize) -> &'static str {
    let mut answers = "";
    for (last, out) in &ANSWERS {
        if *last < bytes {
            answers = *out;
        }
    }
    answers
}

// What is written where the source gives three bytes at a time and fails behind so many reads.
fn is_answered_before_read(heap: Heap, reads: usize) -> bool {
    let mut source = Failing {
        bytes: THREE,
        left: reads,
        failures: 0,
    };
    let mut out = halting(heap, 1000);
    let mut err = halting(heap, 1000);
    let job = StreamJob {
        limit: 10,
        file_limit: DEFAULT_FILE_LIMIT,
        descriptors: DEFAULT_DESCRIPTORS,
        path_limit: DEFAULT_PATH_LIMIT,
        check: true,
    };
    let status = run_stream_job::<Kernel, _, _, _>(heap, job, &mut source, &mut out, &mut err);
    status == 1
        && out.bytes.as_slice() == answers_before(reads.saturating_mul(3)).as_bytes()
        && err.bytes.as_slice() == b"txsh: read failed\n".as_slice()
}

// A read may fail at any time, and then all lines that have come are answered.
#[test]
fn all_that_has_come_is_answered_before_each_read(rt: HostRuntime) -> Result<(), Fail> {
    let heap = heap::open(rt.alloc())?;
    // 32 bytes by threes, and the read that finds the end.
    for reads in 0..12usize {
        assert!(rt; is_answered_before_read(heap, reads), "{reads}");
    }
    Ok(())
}

// A sink that counts its writes.
#[derive(Drop)]
struct Tallying {
    writes: u64,
}

impl Sink for Tallying {
    ghost written = { λ _. None };

    ghost failures = { λ _. 0 };

    fn write(&mut self, text: &[u8]) -> Result<usize, DeviceFailed> {
        self.writes = self.writes.wrapping_add(1);
        Ok(text.len())
    }
}

// Two hundred lines, of which every other one asks nothing.
fn long_talk(heap: Heap) -> Result<Vec<u8, Heap>, AllocError> {
    let mut text = Vec::new(heap);
    text.extend_from_slice(b"priorities 0\n")?;
    for _ in 0..100u32 {
        text.extend_from_slice(b"1 end\n1 frob\n")?;
    }
    Ok(text)
}

// Lines that have come together are answered together: the answers are 5,939 bytes, and one write
// takes 8,192.
#[test]
fn lines_that_come_together_are_answered_by_one_write(rt: HostRuntime) -> Result<(), Fail> {
    let heap = heap::open(rt.alloc())?;
    let text = long_talk(heap)?;
    let mut source = Portions {
        bytes: text.as_slice(),
        most: 8192,
    };
    let mut out = Tallying { writes: 0 };
    let mut err = halting(heap, 1000);
    let job = StreamJob {
        limit: 1000,
        file_limit: DEFAULT_FILE_LIMIT,
        descriptors: DEFAULT_DESCRIPTORS,
        path_limit: DEFAULT_PATH_LIMIT,
        check: false,
    };
    let status = run_stream_job::<Kernel, _, _, _>(heap, job, &mut source, &mut out, &mut err);
    assert_eq!(rt; status, 1);
    assert_eq!(rt; out.writes, 1);
    Ok(())
}

// A line of so many bytes, and an operation behind it.
fn with_long_line(heap: Heap, len: usize) -> Result<Vec<u8, Heap>, AllocError> {
    let mut text = Vec::new(heap);
    text.extend_from_slice(b"priorities 0\n1 stat /")?;
    let name = Vec::from_elem(heap, b'a', len)?;
    text.extend_from_slice(name.as_slice())?;
    text.extend_from_slice(b"\n1 end\n")?;
    Ok(text)
}

// Whether a line of so many bytes behind `1 stat /` is answered so. With the last line feed taken
// away nothing else changes.
fn long_line_is(heap: Heap, len: usize, status: u8, out: &str) -> Result<bool, Fail> {
    let text = with_long_line(heap, len)?;
    let mut source = Portions {
        bytes: text.as_slice(),
        most: 4096,
    };
    let mut sink = halting(heap, 10_000_000);
    let mut err = halting(heap, 1000);
    let job = StreamJob {
        limit: 10,
        file_limit: DEFAULT_FILE_LIMIT,
        descriptors: DEFAULT_DESCRIPTORS,
        path_limit: DEFAULT_PATH_LIMIT,
        check: false,
    };
    let found = run_stream_job::<Kernel, _, _, _>(heap, job, &mut source, &mut sink, &mut err);
    Ok(found == status && sink.bytes.as_slice().ends_with(out.as_bytes()) && err.bytes.is_empty())
}

// A line has at most 1,048,576 bytes. A longer one is passed over, whatever its length.
#[test]
fn lines_that_are_too_long_are_passed_over(rt: HostRuntime) -> Result<(), Fail> {
    let heap = heap::open(rt.alloc())?;
    let most = 1_048_568usize;
    let done = "a -> ENAMETOOLONG\n2 P1 end -> NotInTransaction\n";
    assert!(rt; long_line_is(heap, most, 0, done)?);
    let passed = "? line 2: too long\n1 P1 end -> NotInTransaction\n";
    assert!(rt; long_line_is(heap, most.saturating_add(1), 1, passed)?);
    assert!(rt; long_line_is(heap, most.saturating_mul(3), 1, passed)?);
    Ok(())
}

// How a stream ends where this request for memory is refused: its status, and what it has written.
fn refused_at(heap: Heap, sinks: Heap, number: u64) -> (u8, Vec<u8, Heap>) {
    heap.refuse(number);
    let mut source = Portions {
        bytes: TALKS[4].input,
        most: 5,
    };
    let mut out = halting(sinks, 1000);
    let mut err = halting(sinks, 1000);
    let job = StreamJob {
        limit: 2,
        file_limit: DEFAULT_FILE_LIMIT,
        descriptors: DEFAULT_DESCRIPTORS,
        path_limit: DEFAULT_PATH_LIMIT,
        check: true,
    };
    let status = run_stream_job::<Kernel, _, _, _>(heap, job, &mut source, &mut out, &mut err);
    (status, out.bytes)
}

// Whether that is the fault of memory, and a beginning of the answers, by whole lines, is written.
fn is_stopped_at(heap: Heap, sinks: Heap, number: u64) -> bool {
    let (status, written) = refused_at(heap, sinks, number);
    let whole = TALKS[4].out.as_bytes();
    let ends = match written.as_slice().last().copied() {
        Some(byte) => byte == b'\n',
        None => true,
    };
    status == 3 && whole.starts_with(written.as_slice()) && ends
}

// Each request in turn.
#[test]
fn refused_memory_stops_a_stream(rt: HostRuntime) -> Result<(), Fail> {
    let heap = heap::open(rt.alloc())?;
    let sinks = heap::open(rt.alloc())?;
    let (status, written) = refused_at(heap, sinks, 0);
    assert_eq!(rt; status, 1);
    assert_eq!(rt; written.as_slice(), TALKS[4].out.as_bytes());
    let made = heap.made();
    for number in 0..made {
        let next = number.saturating_add(1);
        assert!(rt; is_stopped_at(heap, sinks, next), "{next}");
    }
    Ok(())
}
