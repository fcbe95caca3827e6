// What the checker says of histories that were changed.
ghost use Rattle.ids.specs.declared.limits.TheConstants.{LARGEST_FILE};
ghost use Rattle.std.specs.Prelude.{◌≤◌};

use crate::histories::{
    aborted, add, begin, directory, empty, limited, mkdir, mkdir_op, open_new, plain, read, rewind,
    stat, write,
};
use heap::Heap;
use history::History;
use ids::{Entry, Errno, Num, Op, Pid, Reply};
use replay::{CheckFault, Checker, check};
use std::process::Abort;

// What the checker says of a history, which goes then.
fn checked(heap: Heap, history: History) -> Result<(), CheckFault> {
    let told = check(heap, &history);
    drop(history);
    told
}

// A directory that is made, or that is not although it could be.
fn second_entry(rt: &impl Abort, heap: Heap, made: bool) -> Entry {
    if made {
        mkdir(rt, heap, 1, b"/a", 1)
    } else {
        let op = mkdir_op(rt, heap, b"/a");
        plain(heap, 1, op, Reply::Errno(Errno::ENOENT))
    }
}

// A directory is made in a transaction; this is what stands at entries 2 and 4.
fn first_run(rt: &impl Abort, heap: Heap, made: bool, ended: Reply) -> History {
    let fourth = plain(heap, 1, Op::End, ended);
    let mut history = empty(rt, heap);
    add(rt, &mut history, begin(heap, 1));
    add(rt, &mut history, second_entry(rt, heap, made));
    add(
        rt,
        &mut history,
        stat(rt, heap, 2, b"/a", Reply::Errno(Errno::ENOENT)),
    );
    add(rt, &mut history, fourth);
    add(rt, &mut history, stat(rt, heap, 2, b"/a", directory(1)));
    history
}

#[test]
fn first_run_passes(rt: HostRuntime) {
    let heap = heap::open(rt.alloc()).expect(&rt, "memory");
    let history = first_run(&rt, heap, true, Reply::Committed);
    assert_eq!(rt; checked(heap, history), Ok(()));
}

#[test]
fn wrong_call_of_a_transaction_is_told(rt: HostRuntime) {
    let heap = heap::open(rt.alloc()).expect(&rt, "memory");
    let history = first_run(&rt, heap, false, Reply::Committed);
    assert_eq!(rt; checked(heap, history), Err(CheckFault::Wrong(2)));
}

#[test]
fn end_of_a_transaction_has_to_suit(rt: HostRuntime) {
    let heap = heap::open(rt.alloc()).expect(&rt, "memory");
    let history = first_run(&rt, heap, true, Reply::NotInTransaction);
    assert_eq!(rt; checked(heap, history), Err(CheckFault::Wrong(4)));
}

// What is written to a file is read, or these bytes are.
fn write_and_read(rt: &impl Abort, heap: Heap, found: &[u8]) -> History {
    let mut history = empty(rt, heap);
    add(rt, &mut history, open_new(rt, heap));
    add(rt, &mut history, write(rt, heap));
    add(rt, &mut history, rewind(heap));
    add(rt, &mut history, read(rt, heap, found));
    history
}

#[test]
fn what_was_written_has_to_be_read(rt: HostRuntime) {
    let heap = heap::open(rt.alloc()).expect(&rt, "memory");
    assert_eq!(rt; checked(heap, write_and_read(&rt, heap, b"hi")), Ok(()));
    let wrong = Err(CheckFault::Wrong(4));
    assert_eq!(rt; checked(heap, write_and_read(&rt, heap, b"ho")), wrong);
}

// Of two bytes both are written to a file that may have so many.
fn written(rt: &impl Abort, heap: Heap, file_bytes: u64) -> History
    requires { file_bytes ≤ LARGEST_FILE }
{
    let mut history = limited(rt, heap, file_bytes);
    add(rt, &mut history, open_new(rt, heap));
    add(rt, &mut history, write(rt, heap));
    history
}

#[test]
fn no_more_is_written_than_a_file_may_have(rt: HostRuntime) {
    let heap = heap::open(rt.alloc()).expect(&rt, "memory");
    let wrong = Err(CheckFault::Wrong(2));
    assert_eq!(rt; checked(heap, written(&rt, heap, 2)), Ok(()));
    assert_eq!(rt; checked(heap, written(&rt, heap, 1)), wrong);
    assert!(rt; is_told_apart(heap, written(&rt, heap, 1), wrong));
}

// A transaction with a wrong reply is given up.
fn given_up(rt: &impl Abort, heap: Heap) -> History {
    let mut history = empty(rt, heap);
    add(rt, &mut history, begin(heap, 1));
    let op = mkdir_op(rt, heap, b"/a");
    add(
        rt,
        &mut history,
        plain(heap, 1, op, Reply::Errno(Errno::EEXIST)),
    );
    let abort = Op::Abort { no_restart: false };
    add(
        rt,
        &mut history,
        plain(heap, 1, abort, Reply::GivenUp { restarted: false }),
    );
    add(
        rt,
        &mut history,
        stat(rt, heap, 1, b"/a", Reply::Errno(Errno::ENOENT)),
    );
    history
}

#[test]
fn aborted_calls_may_be_anything(rt: HostRuntime) {
    let heap = heap::open(rt.alloc()).expect(&rt, "memory");
    assert_eq!(rt; checked(heap, given_up(&rt, heap)), Ok(()));
}

// A directory is made, which dooms process 1.
fn dooming(rt: &impl Abort, heap: Heap) -> Entry {
    let mut entry = mkdir(rt, heap, 2, b"/a", 1);
    entry.doomed.push(Pid(1)).expect(rt, "memory");
    entry
}

// A plain call dooms a transaction that is told this other process.
fn doomed(rt: &impl Abort, heap: Heap, other: u32) -> History {
    let mut history = empty(rt, heap);
    add(rt, &mut history, begin(heap, 1));
    add(
        rt,
        &mut history,
        stat(rt, heap, 1, b"/a", Reply::Errno(Errno::ENOENT)),
    );
    add(rt, &mut history, dooming(rt, heap));
    add(
        rt,
        &mut history,
        plain(heap, 1, Op::End, aborted(rt, heap, other)),
    );
    history
}

#[test]
fn causes_may_be_anything(rt: HostRuntime) {
    let heap = heap::open(rt.alloc()).expect(&rt, "memory");
    for other in [2, 7] {
        assert_eq!(rt; checked(heap, doomed(&rt, heap, other)), Ok(()));
    }
}

// The root has this number by one call, and that one by another.
fn roots(rt: &impl Abort, heap: Heap, first: usize, second: usize) -> History {
    let mut history = empty(rt, heap);
    add(rt, &mut history, mkdir(rt, heap, 1, b"/a", 1));
    add(rt, &mut history, stat(rt, heap, 1, b"/", directory(first)));
    add(rt, &mut history, stat(rt, heap, 2, b"/", directory(second)));
    history
}

#[test]
fn root_is_found(rt: HostRuntime) {
    let heap = heap::open(rt.alloc()).expect(&rt, "memory");
    let wrong = |position| Err(CheckFault::Wrong(position));
    for (first, second, told) in [
        (0, 0, Ok(())),
        (9, 9, Ok(())),
        (9, 8, wrong(3)),
        (1, 1, wrong(2)),
    ] {
        assert_eq!(rt; checked(heap, roots(&rt, heap, first, second)), told);
    }
}

// Whether a history passes or there is no memory, where this request is refused.
fn decides_nothing(heap: Heap, history: &History, number: u64) -> bool {
    heap.refuse(number);
    let result = check(heap, history);
    result == Ok(()) || result == Err(CheckFault::NoMemory)
}

#[test]
fn refused_memory_decides_nothing(rt: HostRuntime) {
    let heap = heap::open(rt.alloc()).expect(&rt, "memory");
    let history = first_run(&rt, heap, true, Reply::Committed);
    for number in 1..200u64 {
        assert!(rt; decides_nothing(heap, &history, number));
    }
    drop(history);
}

// What the checker says of two parts of a history, for the root of number 0.
fn checked_in_parts(
    heap: Heap,
    history: &History,
    first: &[Entry],
    second: &[Entry],
) -> Result<(), CheckFault> {
    let bounds = history.bounds();
    let Ok(checker) = Checker::with_bounds(heap, Num(0), history.priorities(), bounds) else {
        return Err(CheckFault::NoMemory);
    };
    let checker = checker.add(first)?;
    let checker = checker.add(second)?;
    drop(checker);
    Ok(())
}

// What it says of a history whose first part has so many entries.
fn checked_apart(heap: Heap, history: &History, count: usize) -> Result<(), CheckFault> {
    let entries = history.entries();
    let (first, second) = entries.split_at(count.min(entries.len()));
    checked_in_parts(heap, history, first, second)
}

// Whether it says this of a history wherever the second part begins. The history goes then.
fn is_told_apart(heap: Heap, history: History, told: Result<(), CheckFault>) -> bool {
    let mut right = true;
    for count in 0..6usize {
        right = right && checked_apart(heap, &history, count) == told;
    }
    drop(history);
    right
}

// The transaction of process 1 is live at the end of most first parts.
#[test]
fn parts_are_told_as_the_whole(rt: HostRuntime) {
    let heap = heap::open(rt.alloc()).expect(&rt, "memory");
    let right = first_run(&rt, heap, true, Reply::Committed);
    assert!(rt; is_told_apart(heap, right, Ok(())));
    let wrong_call = first_run(&rt, heap, false, Reply::Committed);
    assert!(rt; is_told_apart(heap, wrong_call, Err(CheckFault::Wrong(2))));
    let wrong_end = first_run(&rt, heap, true, Reply::NotInTransaction);
    assert!(rt; is_told_apart(heap, wrong_end, Err(CheckFault::Wrong(4))));
    let wrong_read = write_and_read(&rt, heap, b"ho");
    assert!(rt; is_told_apart(heap, wrong_read, Err(CheckFault::Wrong(4))));
    assert!(rt; is_told_apart(heap, doomed(&rt, heap, 2), Ok(())));
}

// A part that is added twice does not suit: process 2 would find the directory.
#[test]
fn a_part_has_its_place(rt: HostRuntime) {
    let heap = heap::open(rt.alloc()).expect(&rt, "memory");
    let history = first_run(&rt, heap, true, Reply::Committed);
    let told = checked_in_parts(heap, &history, history.entries(), history.entries());
    drop(history);
    assert_eq!(rt; told, Err(CheckFault::Wrong(8)));
}

#[test]
fn refused_memory_decides_nothing_of_parts(rt: HostRuntime) {
    let heap = heap::open(rt.alloc()).expect(&rt, "memory");
    let history = first_run(&rt, heap, true, Reply::Committed);
    for number in 1..100u64 {
        heap.refuse(number);
        let told = checked_apart(heap, &history, 3);
        assert!(rt; told == Ok(()) || told == Err(CheckFault::NoMemory));
    }
    drop(history);
}
