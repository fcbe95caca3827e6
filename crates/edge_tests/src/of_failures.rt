// Runs that fail: devices that do so in every place, a history that is full, and refused memory.
ghost use Rattle.std.specs.Prelude.{◌≡◌};

use crate::halting::halting;
use crate::of_hostile::{FIRST_LINES, FIRST_LIST, FIRST_RUN, end_of};
use device::{Failing, Portions, Trickling};
use heap::Heap;
use ids::Limits;
use kernel::Kernel;
use machine::Machine;
use runner::{RunFault, run_schedule};
use std::test::Fail;

// Whether the first run into a sink that takes so many bytes ends so, and the sink has just these.
fn is_cut<K: Machine>(heap: Heap, room: usize, fault: Option<RunFault>) -> bool {
    let mut source = Portions {
        bytes: FIRST_RUN.as_bytes(),
        most: 1,
    };
    let mut sink = halting(heap, room);
    let found = run_schedule::<K, _, _>(
        heap,
        &mut source,
        FIRST_LIST,
        Limits::of_entries(100),
        &mut sink,
    )
    .err();
    let bytes = FIRST_LINES.as_bytes();
    found == fault
        && sink.bytes.as_slice() == &bytes[..room.min(bytes.len())]
        && sink.failures == u64::from(fault.is_some())
}

// Whether a sink that takes one byte at each write has all.
fn is_trickled<K: Machine>(heap: Heap) -> bool {
    let mut source = Portions {
        bytes: FIRST_RUN.as_bytes(),
        most: 5000,
    };
    let mut sink = Trickling {
        bytes: Vec::new(heap),
        failures: 0,
    };
    let fault = run_schedule::<K, _, _>(
        heap,
        &mut source,
        FIRST_LIST,
        Limits::of_entries(100),
        &mut sink,
    )
    .err();
    fault.is_none() && sink.bytes.as_slice() == FIRST_LINES.as_bytes() && sink.failures == 0
}

#[test]
fn a_sink_that_fails_has_what_came_before(rt: HostRuntime) -> Result<(), Fail> {
    let heap = heap::open(rt.alloc())?;
    assert_eq!(rt; FIRST_LINES.len(), 120);
    for room in 0..120usize {
        assert!(rt;
            is_cut::<Kernel>(heap, room, Some(RunFault::Write)),
            "{room}"
        );
    }
    assert!(rt; is_cut::<Kernel>(heap, 120, None));
    assert!(rt; is_trickled::<Kernel>(heap));
    Ok(())
}

// How often a source has failed that fails after so many reads, and whether the run then ends so
// and has written this.
fn failures_of<K: Machine>(
    heap: Heap,
    left: usize,
    fault: Option<RunFault>,
    out: &str,
) -> (u64, bool) {
    let mut source = Failing {
        bytes: FIRST_RUN.as_bytes(),
        left,
        failures: 0,
    };
    let mut sink = halting(heap, 1000);
    let found = run_schedule::<K, _, _>(
        heap,
        &mut source,
        FIRST_LIST,
        Limits::of_entries(100),
        &mut sink,
    )
    .err();
    let right = found == fault && sink.bytes.as_slice() == out.as_bytes() && sink.failures == 0;
    (source.failures, right)
}

#[test]
fn a_source_that_fails_leaves_nothing_written(rt: HostRuntime) -> Result<(), Fail> {
    let heap = heap::open(rt.alloc())?;
    // 60 bytes by threes, and the read that finds the end.
    for left in 0..21usize {
        let failed = failures_of::<Kernel>(heap, left, Some(RunFault::Read), "");
        assert!(rt; failed == (1, true), "{left}");
    }
    assert!(rt; failures_of::<Kernel>(heap, 21, None, FIRST_LINES) == (0, true));
    Ok(())
}

static ISOLATED: &str =
    "priorities 0 0\n1 begin\n1 open /a WRONLY,CREAT\n2 stat /a\n1 end\n2 stat /a\n";

// A limit, and what a run under it has written.
static LIMITS: [(u32, &str); 5] = [
    (0, ""),
    (1, ""),
    (2, "1 P1 begin -> begun\n"),
    (3, "1 P1 begin -> begun\n2 P1 open /a WRONLY,CREAT -> 0\n"),
    (
        4,
        "1 P1 begin -> begun\n2 P1 open /a WRONLY,CREAT -> 0\n3 P2 stat /a -> ENOENT\n\
            4 P1 end -> committed\n",
    ),
];

static WHOLE: &str = "1 P1 begin -> begun\n2 P1 open /a WRONLY,CREAT -> 0\n\
    3 P2 stat /a -> ENOENT\n4 P1 end -> committed\n5 P2 stat /a -> file size 0 links 1\n";

// Whether a run under a limit ends so, and has written this.
fn is_limited(heap: Heap, limit: u32, fault: Option<RunFault>, out: &str) -> bool {
    let (found, written) = end_of::<Kernel>(heap, ISOLATED.as_bytes(), FIRST_LIST, limit);
    found == fault && written.as_slice() == out.as_bytes()
}

#[test]
fn a_full_history_ends_a_run(rt: HostRuntime) -> Result<(), Fail> {
    let heap = heap::open(rt.alloc())?;
    for (limit, out) in &LIMITS {
        assert!(rt;
            is_limited(heap, *limit, Some(RunFault::HistoryFull), out),
            "{limit}"
        );
    }
    assert!(rt; is_limited(heap, 5, None, WHOLE));
    Ok(())
}

// How the first run ends where this request for memory is refused, whether it has then written
// whole lines alone, and how many requests it has made.
fn refused<K: Machine>(heap: Heap, sinks: Heap, number: u64) -> (Option<RunFault>, bool, u64) {
    let mut source = Portions {
        bytes: FIRST_RUN.as_bytes(),
        most: 5000,
    };
    let mut sink = halting(sinks, 1000);
    heap.refuse(number);
    let fault = run_schedule::<K, _, _>(
        heap,
        &mut source,
        FIRST_LIST,
        Limits::of_entries(100),
        &mut sink,
    )
    .err();
    let written = sink.bytes.as_slice();
    let whole = written.is_empty() || written.ends_with(b"\n");
    (
        fault,
        whole && FIRST_LINES.as_bytes().starts_with(written),
        heap.made(),
    )
}

#[test]
fn refused_memory_ends_a_run_behind_a_line(rt: HostRuntime) -> Result<(), Fail> {
    let heap = heap::open(rt.alloc())?;
    let sinks = heap::open(rt.alloc())?;
    let (fault, whole, made) = refused::<Kernel>(heap, sinks, 0);
    assert!(rt; fault.is_none() && whole && 0 < made);
    for number in 0..made {
        let next = number.saturating_add(1);
        let (fault, whole, _) = refused::<Kernel>(heap, sinks, next);
        assert!(rt; fault == Some(RunFault::NoMemory) && whole, "{next}");
    }
    Ok(())
}
