// The times that views see, where memory is refused: each request for room once, after which all is as
// before and the next try is done; and what takes none.
use fuse::Time;
use heap::Heap;
use ids::Num;
use std::process::Abort;
use view_times::{Event, ViewTimes};

// The plain tree, and the view of a transaction.
const PLAIN: u64 = 0;

const VIEW: u64 = 7;

// So many inodes that each table grows some times.
const INODES: usize = 40;

// When a view sees that an inode was modified, in seconds.
fn modified(times: &ViewTimes, view: u64, inode: usize) -> u64 {
    times.of(view, Num(inode)).modified.seconds
}

// How many requests are made for one inode more of which a view notes something: each is refused once,
// and then the view sees what it saw.
fn refused_requests(rt: &impl Abort, heap: Heap, times: &mut ViewTimes, view: u64) -> u64 {
    let before = modified(times, view, 1);
    for request in 1..20u64 {
        heap.refuse(request);
        let done = times.reserve(view, 1).is_ok();
        heap.refuse(0);
        assert_eq!(rt; modified(times, view, 1), before);
        if done {
            return request - 1;
        }
    }
    20
}

// A view notes that an inode is modified, at the second of its number. With room that takes no memory.
fn note(rt: &impl Abort, heap: Heap, times: &mut ViewTimes, view: u64, inode: usize) {
    times.reserve(view, 1).expect(rt, "memory");
    heap.refuse(1);
    let now = Time {
        seconds: inode as u64,
        nanoseconds: 0,
    };
    times.note(view, Num(inode), Event::Modified, now);
    assert_eq!(rt; heap.made(), 0);
    heap.refuse(0);
    assert_eq!(rt; modified(times, view, inode), inode as u64);
}

// Times of which a view has noted some.
fn noted(rt: &impl Abort, heap: Heap, view: u64) -> ViewTimes {
    let mut times = ViewTimes::new(heap);
    for inode in 1..INODES {
        note(rt, heap, &mut times, view, inode);
    }
    times
}

// The most requests that are made for room.
fn most_refused(rt: &impl Abort, heap: Heap, view: u64) -> u64 {
    let mut times = ViewTimes::new(heap);
    let mut most = 0u64;
    for inode in 1..INODES {
        most = most.max(refused_requests(rt, heap, &mut times, view));
        note(rt, heap, &mut times, view, inode);
    }
    drop(times);
    most
}

#[test]
fn each_request_for_room_is_refused_once(rt: HostRuntime) {
    let heap = heap::open(rt.alloc()).expect(&rt, "memory");
    let plain = most_refused(&rt, heap, PLAIN);
    let live = most_refused(&rt, heap, VIEW);
    // In the plain tree one table grows, in a transaction its own one too.
    assert!(rt; plain > 0 && plain < live && live < 20, "{plain} {live}");
}

#[test]
fn ends_and_what_goes_take_no_memory(rt: HostRuntime) {
    let heap = heap::open(rt.alloc()).expect(&rt, "memory");
    let mut committed = noted(&rt, heap, VIEW);
    let mut aborted = noted(&rt, heap, VIEW);
    heap.refuse(1);
    committed.commit(VIEW);
    aborted.abort(VIEW);
    let seen = [
        modified(&committed, PLAIN, 9),
        modified(&aborted, PLAIN, 9),
        modified(&aborted, VIEW, 9),
    ];
    committed.free(Num(9));
    let freed = [
        modified(&committed, PLAIN, 9),
        modified(&committed, PLAIN, 8),
    ];
    assert_eq!(rt; heap.made(), 0);
    heap.refuse(0);
    drop(committed);
    drop(aborted);
    assert_eq!(rt; seen, [9, 0, 0]);
    assert_eq!(rt; freed, [0, 8]);
}
