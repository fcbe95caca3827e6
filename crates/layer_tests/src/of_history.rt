// A history takes its memory when it is made, and none for an entry.
use crate::refused::{is_done, is_refused};
use heap::Heap;
use history::History;
use ids::{Entry, Nums, Op, Pid, Pids, Priority, Reply};

fn begun(heap: Heap) -> Entry {
    Entry {
        pid: Pid(1),
        op: Op::End,
        reply: Reply::NotInTransaction,
        chosen: Nums::new(heap),
        doomed: Pids::new(heap),
    }
}

// Whether one more entry has a place.
fn is_taken(heap: Heap, history: &mut History) -> bool {
    is_done(history.push(begun(heap)))
}

#[test]
fn takes_its_memory_at_the_start(rt: HostRuntime) {
    let heap = heap::open(rt.alloc()).expect(&rt, "memory");
    let zero = Priority::new(0).unwrap();
    let mut history = History::new(heap, &[zero, zero], 2).expect(&rt, "memory");
    heap.refuse(0);
    let taken = [
        is_taken(heap, &mut history),
        is_taken(heap, &mut history),
        is_taken(heap, &mut history),
    ];
    let made = heap.made();
    let lengths = [
        history.entries().len(),
        history.priorities().len(),
        history.limit(),
    ];
    drop(history);
    assert_eq!(rt; taken, [true, true, false]);
    assert_eq!(rt; made, 0);
    assert_eq!(rt; lengths, [2; 3]);
}

#[test]
fn refused_memory_gives_nothing(rt: HostRuntime) {
    let heap = heap::open(rt.alloc()).expect(&rt, "memory");
    let zero = Priority::new(0).unwrap();
    for number in 1..3u64 {
        heap.refuse(number);
        assert!(rt; is_refused(History::new(heap, &[zero], 2)));
    }
}

// Forgotten entries give their places back, and go on to be counted.
#[test]
fn forgotten_entries_leave_their_places(rt: HostRuntime) {
    let heap = heap::open(rt.alloc()).expect(&rt, "memory");
    let zero = Priority::new(0).unwrap();
    let mut history = History::new(heap, &[zero, zero], 2).expect(&rt, "memory");
    heap.refuse(0);
    let taken = [
        is_taken(heap, &mut history),
        is_taken(heap, &mut history),
        is_taken(heap, &mut history),
        history.forget(),
        is_taken(heap, &mut history),
    ];
    let made = heap.made();
    let left = history.entries().len();
    let counts = [history.forgotten(), history.count()];
    drop(history);
    assert_eq!(rt; taken, [true, true, false, true, true]);
    assert_eq!(rt; made, 0);
    assert_eq!(rt; left, 1);
    assert_eq!(rt; counts, [2, 3]);
}
