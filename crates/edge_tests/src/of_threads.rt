// Whole runs by threads.
ghost use Rattle.std.specs.Prelude.{◌≤◌};

use crate::halting::halting;
use crate::jobs::{Expected, is_as_expected, is_run, job_of};
use device::{Failing, Portions};
use heap::Heap;
use ids::Limits;
use kernel::Kernel;
use machine::Machine;
use runner::{RunFault, run_job, run_script_by_threads};
use std::sync::Wait;
use std::test::Fail;
use std::thread::Threads;
use words::{
    DEFAULT_DESCRIPTORS, DEFAULT_FILE_LIMIT, DEFAULT_PATH_LIMIT, Job, MAX_FILE_LIMIT, MAX_LIMIT,
    Way,
};

static FAMILY: &str = "priorities 0\n1 mkdir /a\n1 fork\n2 stat /a\n";

static FAMILY_LINES: &str = "1 P1 mkdir /a -> ok
2 P1 fork -> child 2
3 P2 stat /a -> dir size 0 links 1
";

// The family, checked.
static CHECKED: Expected = Expected {
    list: None,
    limit: 3,
    room: 1000,
    status: 0,
    out: "1 P1 mkdir /a -> ok\n2 P1 fork -> child 2\n3 P2 stat /a -> dir size 0 links 1\ncheck: ok\n",
    err: "",
};

// The same where memory is refused before its end.
static REFUSED: Expected = Expected {
    list: None,
    limit: 3,
    room: 1000,
    status: 3,
    out: "",
    err: "txsh: no memory\n",
};

// Runs that are not checked, and end the same however the threads take turns.
static RUNS: [(&str, Expected); 8] = [
    (
        "priorities 0\n",
        Expected {
            list: None,
            limit: 0,
            room: 1000,
            status: 0,
            out: "",
            err: "",
        },
    ),
    // The lines of a process that is never made are not run.
    (
        "priorities 0\n1 begin\n1 mkdir /a\n1 end\n2 stat /a\n1 list /\n",
        Expected {
            list: None,
            limit: 100,
            room: 1000,
            status: 0,
            out: "1 P1 begin -> begun\n2 P1 mkdir /a -> ok\n3 P1 end -> committed\n\
                4 P1 list / -> names 1 a\n",
            err: "",
        },
    ),
    // The child's child, which is started by the child.
    (
        "priorities 0\n1 fork\n2 fork\n3 exit\n",
        Expected {
            list: None,
            limit: 100,
            room: 1000,
            status: 0,
            out: "1 P1 fork -> child 2\n2 P2 fork -> child 3\n3 P3 exit -> ok\n",
            err: "",
        },
    ),
    // What a child has set is told behind what its parent has set before.
    (
        "priorities 0\n1 mkdir /a\n1 chmod /a 700\n1 fork\n2 chown /a 1 -\n2 stat /a\n",
        Expected {
            list: None,
            limit: 100,
            room: 1000,
            status: 0,
            out: "1 P1 mkdir /a -> ok\n2 P1 chmod /a 700 -> ok\n3 P1 fork -> child 2\n\
                4 P2 chown /a 1 - -> ok\n5 P2 stat /a -> dir size 0 links 1 mode 700 owner 1 0\n",
            err: "",
        },
    ),
    (
        "priorities 0\n1 begin\n1 stat /\n1 end\n",
        Expected {
            list: None,
            limit: 2,
            room: 1000,
            status: 3,
            out: "",
            err: "txsh: history full\n",
        },
    ),
    (
        "priorities 0\n1 mkdir /a\n1 fork\n2 stat /a\n",
        Expected {
            list: None,
            limit: 2,
            room: 1000,
            status: 3,
            out: "",
            err: "txsh: history full\n",
        },
    ),
    (
        "priorities 0\n1 mkdir /a\n1 fork\n2 stat /a\n",
        Expected {
            list: None,
            limit: 100,
            room: 25,
            status: 5,
            out: "1 P1 mkdir /a -> ok\n2 P1 ",
            err: "txsh: write failed\n",
        },
    ),
    (
        "priorities 0\n1 mkdir /a\n2 frob\n",
        Expected {
            list: None,
            limit: 100,
            room: 1000,
            status: 1,
            out: "",
            err: "txsh: line 3: unknown operation\n",
        },
    ),
];

#[test]
fn jobs_by_threads_have_their_texts_and_statuses(rt: HostRuntime) -> Result<(), Fail> {
    let heap = heap::open(rt.alloc())?;
    assert!(rt; is_run(&rt, heap, FAMILY, &CHECKED, true));
    for (text, expected) in &RUNS {
        assert!(rt; is_run(&rt, heap, text, expected, false), "{text}");
    }
    Ok(())
}

// Whether the family ends as expected where this request for memory is refused, and how many are
// made.
fn is_so_refused<R: Threads + Wait + Sync>(
    rt: &R,
    heap: Heap,
    sinks: Heap,
    number: u64,
    expected: &Expected,
) -> Result<(bool, u64), Fail> {
    let job = job_of(sinks, expected, false)?;
    heap.refuse(number);
    let told = is_as_expected(rt, heap, sinks, &job, FAMILY, expected);
    Ok((told, heap.made()))
}

// Whichever request is refused, nothing is written.
#[test]
fn refused_memory_ends_a_run_by_threads(rt: HostRuntime) -> Result<(), Fail> {
    let heap = heap::open(rt.alloc())?;
    let sinks = heap::open(rt.alloc())?;
    let (_, made) = is_so_refused(&rt, heap, sinks, 0, &REFUSED)?;
    assert!(rt; 0 < made);
    for number in 0..made {
        let next = number.saturating_add(1);
        assert!(rt;
            is_so_refused(&rt, heap, sinks, next, &REFUSED)?.0,
            "{next}"
        );
    }
    Ok(())
}

// Whether the family ends with this fault, or none, where the source fails after so many reads, and
// then has written this.
fn is_faulted<K: Machine + Send, R: Threads + Wait + Sync>(
    rt: &R,
    heap: Heap,
    left: usize,
    fault: Option<RunFault>,
    out: &str,
) -> bool {
    let mut source = Failing {
        bytes: FAMILY.as_bytes(),
        left,
        failures: 0,
    };
    let mut sink = halting(heap, 1000);
    let run: Result<K, RunFault> = run_script_by_threads(
        rt,
        heap,
        &mut source,
        Limits::of_entries(100),
        &mut sink,
    );
    run.err() == fault && sink.bytes.as_slice() == out.as_bytes()
}

#[test]
fn sources_that_fail_end_the_run_by_threads(rt: HostRuntime) -> Result<(), Fail> {
    let heap = heap::open(rt.alloc())?;
    // 41 bytes by threes, and the read that finds the end.
    for left in 0..15usize {
        assert!(rt;
            is_faulted::<Kernel, _>(&rt, heap, left, Some(RunFault::Read), ""),
            "{left}"
        );
    }
    assert!(rt; is_faulted::<Kernel, _>(&rt, heap, 15, None, FAMILY_LINES));
    Ok(())
}

// The readers, the deliverers and the build of the folder examples/.
static READERS: &str =
    "priorities 0\n1 mkdir /editor\n1 open /editor/edit WRONLY,CREAT\n1 write 0 one\n\
    1 close 0\n1 open /editor/help WRONLY,CREAT\n1 write 0 one\n1 close 0\n1 fork\n1 fork\n\
    1 begin RESTART\n1 open /editor/edit WRONLY,TRUNC\n1 write 0 two\n1 close 0\n\
    1 open /editor/help WRONLY,TRUNC\n1 write 0 two\n1 close 0\n1 end\n1 exit\n\
    2 begin RESTART\n2 open /editor/edit RDONLY\n2 read 0 10\n2 close 0\n\
    2 open /editor/help RDONLY\n2 read 0 10\n2 end\n2 exit\n3 begin RESTART\n\
    3 open /editor/edit RDONLY\n3 read 0 10\n3 close 0\n3 open /editor/help RDONLY\n\
    3 read 0 10\n3 end\n3 exit\n";

static DELIVERERS: &str =
    "priorities 0\n1 mkdir /spool\n1 open /index WRONLY,CREAT\n1 close 0\n1 fork\n1 fork\n\
    1 begin RESTART\n1 list /spool\n1 open /index RDONLY\n1 read 0 100\n1 end\n\
    2 begin RESTART\n2 open /spool/a1 WRONLY,CREAT,EXCL\n\
    2 write 0 Come\\x20at\\x20noon.\\x0a\n2 close 0\n2 open /index WRONLY,APPEND\n\
    2 write 0 a1\\x20from\\x20Ann\\x0a\n2 close 0\n2 end\n2 begin RESTART\n\
    2 open /spool/a2 WRONLY,CREAT,EXCL\n2 write 0 Bring\\x20bread.\\x0a\n2 close 0\n\
    2 open /index WRONLY,APPEND\n2 write 0 a2\\x20from\\x20Ann\\x0a\n2 close 0\n2 end\n\
    3 begin RESTART\n3 open /spool/b1 WRONLY,CREAT,EXCL\n\
    3 write 0 No\\x20bread\\x20left.\\x0a\n3 close 0\n3 open /index WRONLY,APPEND\n\
    3 write 0 b1\\x20from\\x20Bob\\x0a\n3 close 0\n3 end\n";

static BUILD: &str =
    "priorities 0\n1 pipe\n1 fork\n1 close 0\n1 begin RESTART\n1 open /main.o WRONLY,CREAT\n\
    1 write 0 main\n1 close 0\n1 write 1 main.o\\x0a\n1 end\n1 begin RESTART\n\
    1 open /text.o WRONLY,CREAT\n1 write 0 text\n1 close 0\n1 write 1 text.o\\x0a\n1 end\n\
    1 exit\n2 close 1\n2 begin RESTART\n2 read 0 100\n2 list /\n2 end\n2 begin RESTART\n\
    2 read 0 100\n2 list /\n2 end\n2 begin RESTART\n2 read 0 100\n2 list /\n2 end\n2 exit\n";

// How often each is run.
const RUNS_OF_EACH: u32 = 1000;

// A checked job by threads.
fn checked_job(heap: Heap) -> Job
    ensures limited { result.limit ≤ MAX_LIMIT }
    ensures files { result.file_limit ≤ MAX_FILE_LIMIT }
{
    Job {
        way: Way::Threads,
        limit: 10_000,
        file_limit: DEFAULT_FILE_LIMIT,
        descriptors: DEFAULT_DESCRIPTORS,
        path_limit: DEFAULT_PATH_LIMIT,
        check: true,
        file: String::new(heap),
    }
}

// Whether a run of the script by threads ends well, and its history passes the check.
fn passes<R: Threads + Wait + Sync>(rt: &R, heap: Heap, text: &str) -> bool {
    let mut source = Portions {
        bytes: text.as_bytes(),
        most: 1000,
    };
    let mut out = halting(heap, 1_000_000);
    let mut err = halting(heap, 1000);
    let job = checked_job(heap);
    let status = run_job::<Kernel, _, _, _, _>(rt, heap, &job, &mut source, &mut out, &mut err);
    status == 0 && out.bytes.as_slice().ends_with(b"check: ok\n") && err.bytes.is_empty()
}

#[test]
fn thousands_of_runs_by_threads_pass(rt: HostRuntime) -> Result<(), Fail> {
    let heap = heap::open(rt.alloc())?;
    for number in 0..RUNS_OF_EACH {
        assert!(rt; passes(&rt, heap, READERS), "{number}");
        assert!(rt; passes(&rt, heap, DELIVERERS), "{number}");
        assert!(rt; passes(&rt, heap, BUILD), "{number}");
    }
    Ok(())
}
