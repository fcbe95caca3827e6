// Whole runs by schedules, their faults, and devices that fail in their midst.
use crate::halting::halting;
use crate::jobs::{Expected, is_as_expected, is_run, job_of};
use device::{Failing, Portions};
use heap::Heap;
use ids::Limits;
use kernel::Kernel;
use machine::Machine;
use runner::{RunFault, print, report_fault, run_schedule};
use std::sync::Wait;
use std::test::Fail;
use std::thread::Threads;

static FIRST_RUN: &str = "priorities 0 0\n1 begin\n1 mkdir /a\n1 end\n2 stat /a\n2 stat /a\n";

static FIRST_LIST: &str = "1,1,2,1,2";

static FIRST_LINES: &str = "1 P1 begin -> begun
2 P1 mkdir /a -> ok
3 P2 stat /a -> ENOENT
4 P1 end -> committed
5 P2 stat /a -> dir size 0 links 1
";

static RUNS: [(&str, Expected); 14] = [
    (
        "priorities 0 0\n1 begin\n2 stat /a\n",
        Expected {
            list: Some("1,2"),
            limit: 100,
            room: 1000,
            status: 0,
            out: "1 P1 begin -> begun\n2 P2 stat /a -> ENOENT\n",
            err: "",
        },
    ),
    (
        "priorities 0\n1 mkdir /a\n1 mkdir /a/b\n1 list /a\n1 rmdir /a/b\n1 list /a\n",
        Expected {
            list: Some("1,1,1,1,1"),
            limit: 100,
            room: 1000,
            status: 0,
            out: "1 P1 mkdir /a -> ok\n2 P1 mkdir /a/b -> ok\n3 P1 list /a -> names 1 b\n\
                4 P1 rmdir /a/b -> ok\n5 P1 list /a -> names 0\n",
            err: "",
        },
    ),
    (
        "priorities 0\n1 open /a RDWR,CREAT\n1 fill 0 3 78\n1 fstat 0\n1 close 0\n",
        Expected {
            list: Some("1,1,1,1"),
            limit: 100,
            room: 1000,
            status: 0,
            out: "1 P1 open /a RDWR,CREAT -> 0\n2 P1 write 0 xxx -> 3\n\
                3 P1 fstat 0 -> file size 3 links 1\n4 P1 close 0 -> ok\n",
            err: "",
        },
    ),
    (
        "priorities 0 0\n1 begin\n1 open /a WRONLY,CREAT\n1 end\n2 stat /a\n2 stat /a\n",
        Expected {
            list: Some("1,1,2,1,2"),
            limit: 100,
            room: 10,
            status: 5,
            out: "1 P1 begin",
            err: "txsh: write failed\n",
        },
    ),
    (
        "priorities 0\n1 begin\n1 stat /\n",
        Expected {
            list: Some("1,1"),
            limit: 2,
            room: 1000,
            status: 3,
            out: "1 P1 begin -> begun\n",
            err: "txsh: history full\n",
        },
    ),
    (
        "priorities 0",
        Expected {
            list: Some(""),
            limit: 100,
            room: 1000,
            status: 1,
            out: "",
            err: "txsh: line 1: not ended\n",
        },
    ),
    (
        "",
        Expected {
            list: Some(""),
            limit: 100,
            room: 1000,
            status: 1,
            out: "",
            err: "txsh: line 1: priorities expected\n",
        },
    ),
    (
        "priorities 8\n",
        Expected {
            list: Some(""),
            limit: 100,
            room: 1000,
            status: 1,
            out: "",
            err: "txsh: line 1: priorities expected\n",
        },
    ),
    (
        "priorities 0\n\n1 stat /a/b\n1 frob\n1 stat\n",
        Expected {
            list: Some("1"),
            limit: 100,
            room: 1000,
            status: 1,
            out: "",
            err: "txsh: line 4: unknown operation\n",
        },
    ),
    (
        "priorities 0\n\n1 stat /a/b\n1 stat\n1 frob\n",
        Expected {
            list: Some("1"),
            limit: 100,
            room: 1000,
            status: 1,
            out: "",
            err: "txsh: line 4: bad arguments\n",
        },
    ),
    (
        "priorities 0\n1 pipe\n1 fork\n2 write 1 ab\n1 read 0 9\n2 exit\n2 stat /\n",
        Expected {
            list: Some("1,1,2,1,2,2"),
            limit: 100,
            room: 1000,
            status: 0,
            out: "1 P1 pipe -> 0 1\n2 P1 fork -> child 2\n3 P2 write 1 ab -> 2\n\
                4 P1 read 0 9 -> 2 ab\n5 P2 exit -> ok\n6 P2 stat / -> NoProcess\n",
            err: "",
        },
    ),
    (
        "priorities 0\n1 pipe \n",
        Expected {
            list: Some(""),
            limit: 100,
            room: 1000,
            status: 1,
            out: "",
            err: "txsh: line 2: bad arguments\n",
        },
    ),
    (
        "priorities 0\n1 end\n",
        Expected {
            list: Some("2"),
            limit: 100,
            room: 1000,
            status: 1,
            out: "",
            err: "txsh: schedule: process 2 has no line left\n",
        },
    ),
    (
        "priorities 0\n1 end\n",
        Expected {
            list: Some("1,1"),
            limit: 100,
            room: 1000,
            status: 1,
            out: "",
            err: "txsh: schedule: process 1 has no line left\n",
        },
    ),
];

#[test]
fn jobs_have_their_texts_and_statuses(rt: HostRuntime) -> Result<(), Fail> {
    let heap = heap::open(rt.alloc())?;
    for (text, expected) in &RUNS {
        assert!(rt; is_run(&rt, heap, text, expected, false), "{text}");
    }
    Ok(())
}

// The first run, checked.
static CHECKED: Expected = Expected {
    list: Some("1,1,2,1,2"),
    limit: 100,
    room: 1000,
    status: 0,
    out: "1 P1 begin -> begun\n2 P1 mkdir /a -> ok\n3 P2 stat /a -> ENOENT\n4 P1 end -> committed\n\
        5 P2 stat /a -> dir size 0 links 1\ncheck: ok\n",
    err: "",
};

// The same where the check is refused memory.
static REFUSED: Expected = Expected {
    list: Some("1,1,2,1,2"),
    limit: 100,
    room: 1000,
    status: 3,
    out: "1 P1 begin -> begun\n2 P1 mkdir /a -> ok\n3 P2 stat /a -> ENOENT\n4 P1 end -> committed\n\
        5 P2 stat /a -> dir size 0 links 1\n",
    err: "txsh: no memory\n",
};

// Jobs that are checked.
static CHECKS: [(&str, Expected); 5] = [
    (
        "priorities 0\n",
        Expected {
            list: Some(""),
            limit: 100,
            room: 1000,
            status: 0,
            out: "check: ok\n",
            err: "",
        },
    ),
    (
        "priorities 0 0\n1 begin RESTART\n1 stat /a\n2 mkdir /a\n1 end\n1 stat /a\n1 end\n2 pipe\n\
            2 fork\n3 write 1 x\n2 read 0 5\n",
        Expected {
            list: Some("1,1,2,1,1,1,2,2,3,2"),
            limit: 100,
            room: 1000,
            status: 0,
            out: "1 P1 begin RESTART -> begun\n2 P1 stat /a -> ENOENT\n\
                3 P2 mkdir /a -> ok dooms P1\n4 P1 end -> aborted entry a read by P2 restarted\n\
                5 P1 stat /a -> dir size 0 links 1\n6 P1 end -> committed\n7 P2 pipe -> 0 1\n\
                8 P2 fork -> child 3\n9 P3 write 1 x -> 1\n10 P2 read 0 5 -> 1 x\ncheck: ok\n",
            err: "",
        },
    ),
    // A fault of the run stands alone.
    (
        "priorities 0\n1 begin\n1 stat /\n",
        Expected {
            list: Some("1,1"),
            limit: 2,
            room: 1000,
            status: 3,
            out: "1 P1 begin -> begun\n",
            err: "txsh: history full\n",
        },
    ),
    // The sink takes the whole transcript, and nothing behind it.
    (
        "priorities 0\n1 end\n",
        Expected {
            list: Some("1"),
            limit: 100,
            room: 29,
            status: 5,
            out: "1 P1 end -> NotInTransaction\n",
            err: "txsh: write failed\n",
        },
    ),
    (
        "priorities 0\n1 end\n",
        Expected {
            list: Some("1"),
            limit: 100,
            room: 35,
            status: 5,
            out: "1 P1 end -> NotInTransaction\ncheck:",
            err: "txsh: write failed\n",
        },
    ),
];

#[test]
fn checked_jobs_say_so(rt: HostRuntime) -> Result<(), Fail> {
    let heap = heap::open(rt.alloc())?;
    assert!(rt; is_run(&rt, heap, FIRST_RUN, &CHECKED, true));
    for (text, expected) in &CHECKS {
        assert!(rt; is_run(&rt, heap, text, expected, true), "{text}");
    }
    Ok(())
}

// How many requests for memory the first run makes, by this job.
fn requests_of<R: Threads + Wait + Sync>(
    rt: &R,
    heap: Heap,
    sinks: Heap,
    check: bool,
) -> Result<u64, Fail> {
    let job = job_of(sinks, &CHECKED, check)?;
    heap.refuse(0);
    let _ = is_as_expected(rt, heap, sinks, &job, FIRST_RUN, &CHECKED);
    Ok(heap.made())
}

// Whether the first run, checked, ends as expected where this request for memory is refused.
fn is_so_refused<R: Threads + Wait + Sync>(
    rt: &R,
    heap: Heap,
    sinks: Heap,
    number: u64,
    expected: &Expected,
) -> Result<bool, Fail> {
    let job = job_of(sinks, expected, true)?;
    heap.refuse(number);
    Ok(is_as_expected(rt, heap, sinks, &job, FIRST_RUN, expected))
}

// Each request of the check alone comes behind those of the run.
#[test]
fn refused_memory_ends_a_check(rt: HostRuntime) -> Result<(), Fail> {
    let heap = heap::open(rt.alloc())?;
    let sinks = heap::open(rt.alloc())?;
    let run = requests_of(&rt, heap, sinks, false)?;
    let all = requests_of(&rt, heap, sinks, true)?;
    assert!(rt; run < all);
    for number in run..all {
        let next = number.saturating_add(1);
        assert!(rt; is_so_refused(&rt, heap, sinks, next, &REFUSED)?, "{next}");
    }
    let behind = all.saturating_add(1);
    assert!(rt; is_so_refused(&rt, heap, sinks, behind, &CHECKED)?);
    Ok(())
}

// No job leaves a history that does not pass.
#[test]
fn wrong_entries_have_their_text(rt: HostRuntime) -> Result<(), Fail> {
    let heap = heap::open(rt.alloc())?;
    let mut err = halting(heap, 1000);
    report_fault(heap, &RunFault::Check(4), &mut err);
    assert_eq!(rt;
        err.bytes.as_slice(),
        b"txsh: check: entry 4 is wrong\n".as_slice()
    );
    Ok(())
}

// Whether the first run ends with this fault, or none, where the source fails after so many reads,
// and then has written this.
fn is_faulted<K: Machine>(heap: Heap, left: usize, fault: Option<RunFault>, out: &str) -> bool {
    let mut source = Failing {
        bytes: FIRST_RUN.as_bytes(),
        left,
        failures: 0,
    };
    let mut sink = halting(heap, 1000);
    let run: Result<K, RunFault> = run_schedule(
        heap,
        &mut source,
        FIRST_LIST,
        Limits::of_entries(100),
        &mut sink,
    );
    run.err() == fault && sink.bytes.as_slice() == out.as_bytes()
}

// The kernel of the first run.
fn first_kernel<K: Machine>(heap: Heap) -> Result<K, RunFault> {
    let mut source = Portions {
        bytes: FIRST_RUN.as_bytes(),
        most: 7,
    };
    let mut sink = halting(heap, 1000);
    run_schedule(
        heap,
        &mut source,
        FIRST_LIST,
        Limits::of_entries(100),
        &mut sink,
    )
}

// Whether writing its history to a sink that takes so many bytes has this result, and the sink then
// has these.
fn is_printed<K: Machine>(
    heap: Heap,
    room: usize,
    expected: Result<(), RunFault>,
    out: &str,
) -> bool {
    let Ok(kernel) = first_kernel::<K>(heap) else {
        return false;
    };
    let mut sink = halting(heap, room);
    print(kernel.history(), &mut sink) == expected && sink.bytes.as_slice() == out.as_bytes()
}

#[test]
fn devices_that_fail_end_the_run(rt: HostRuntime) -> Result<(), Fail> {
    let heap = heap::open(rt.alloc())?;
    // 60 bytes by threes, and the read that finds the end.
    for left in 0..21usize {
        assert!(rt;
            is_faulted::<Kernel>(heap, left, Some(RunFault::Read), ""),
            "{left}"
        );
    }
    assert!(rt; is_faulted::<Kernel>(heap, 21, None, FIRST_LINES));
    assert!(rt; is_printed::<Kernel>(heap, 1000, Ok(()), FIRST_LINES));
    assert!(rt; is_printed::<Kernel>(heap, 3, Err(RunFault::Write), "1 P"));
    Ok(())
}
