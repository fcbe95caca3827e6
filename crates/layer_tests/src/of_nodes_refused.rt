// The nodes of a mount where memory is refused: each request of each step once, after which all is as
// before and the next try is done; and what takes no memory.
use crate::refused::is_refused;
use crate::trees::{ROOT, chain, detach, entry, looked_up, lookups, number_at, path_length, spot};
use heap::Heap;
use ids::{Kind, Num};
use nodes::{DirectoryEntry, FIRST_NUMBER, Nodes, Spot};
use std::process::Abort;

// A name that does not stand in place.
const LONG: &[u8] = b"abcdefghijklmnopqrstuvwxyz";

// The longest that does.
const SHORT: &[u8] = b"abcdefghijklmnopqrstuvwx";

// What is done to nodes of the root that have the names from `A` on.
#[derive(Clone, Copy)]
enum Step {
    // Another name is looked up.
    LookUp,
    // Room is made.
    Reserve,
    // `A` gets another name.
    Move,
    // Another object is made with the number of `A`'s.
    Make,
}

// The number of the node of a name.
fn number_of(name: u8) -> u64 {
    FIRST_NUMBER.wrapping_add(name.wrapping_sub(b'A') as u64)
}

// Nodes of the root with the names from `A` up to this one.
fn filled(rt: &impl Abort, heap: Heap, end: u8) -> Nodes {
    let mut nodes = Nodes::new(heap);
    for name in b'A'..end {
        looked_up(rt, heap, &mut nodes, ROOT, &[name], name as usize);
    }
    nodes
}

// These nodes are there, each looked up once, and no other one.
fn assert_filled(rt: &impl Abort, heap: Heap, nodes: &Nodes, end: u8) {
    for name in b'A'..end {
        let number = number_of(name);
        assert_eq!(rt; number_at(rt, heap, nodes, ROOT, &[name]), Some(number));
        assert_eq!(rt; lookups(nodes, number), Some(1));
        assert_eq!(rt; path_length(rt, heap, nodes, number), Some(2));
        assert!(rt; nodes.is_current(number));
    }
    assert_eq!(rt; number_at(rt, heap, nodes, ROOT, LONG), None);
    assert_eq!(rt; lookups(nodes, number_of(end)), None);
}

// Whether the step is done where this request of memory is refused.
fn is_looked_up(rt: &impl Abort, heap: Heap, nodes: &mut Nodes, request: u64) -> bool {
    let spot = spot(rt, heap, ROOT, LONG);
    heap.refuse(request);
    let done = nodes.look_up(spot, Num(9), Kind::File).is_ok();
    heap.refuse(0);
    done
}

fn is_reserved(heap: Heap, nodes: &mut Nodes, request: u64) -> bool {
    heap.refuse(request);
    let done = nodes.reserve().is_ok();
    heap.refuse(0);
    done
}

fn is_made(heap: Heap, nodes: &mut Nodes, request: u64) -> bool {
    heap.refuse(request);
    let done = nodes.note_made(Num(b'A' as usize)).is_ok();
    heap.refuse(0);
    done
}

fn is_moved(rt: &impl Abort, heap: Heap, nodes: &mut Nodes, request: u64) -> bool {
    let from = entry(rt, heap, ROOT, b"A");
    let to = spot(rt, heap, ROOT, LONG);
    heap.refuse(request);
    let done = nodes.move_entry(&from, to).is_ok();
    heap.refuse(0);
    drop(from);
    done
}

fn is_step_done(rt: &impl Abort, heap: Heap, nodes: &mut Nodes, step: Step, request: u64) -> bool {
    match step {
        Step::LookUp => is_looked_up(rt, heap, nodes, request),
        Step::Reserve => is_reserved(heap, nodes, request),
        Step::Move => is_moved(rt, heap, nodes, request),
        Step::Make => is_made(heap, nodes, request),
    }
}

// What a step that is done leaves.
fn assert_done(rt: &impl Abort, heap: Heap, nodes: &Nodes, step: Step, end: u8) {
    let found = number_at(rt, heap, nodes, ROOT, LONG);
    match step {
        Step::LookUp => {
            assert_eq!(rt; found, Some(number_of(end)));
            assert_eq!(rt; lookups(nodes, number_of(end)), Some(1));
        }
        Step::Reserve => assert_filled(rt, heap, nodes, end),
        Step::Move => {
            assert_eq!(rt; found, Some(FIRST_NUMBER));
            assert_eq!(rt; number_at(rt, heap, nodes, ROOT, b"A"), None);
            assert_eq!(rt; path_length(rt, heap, nodes, FIRST_NUMBER), Some(27));
        }
        Step::Make => {
            assert!(rt; !nodes.is_current(FIRST_NUMBER));
            assert_eq!(rt; number_at(rt, heap, nodes, ROOT, b"A"), Some(FIRST_NUMBER));
        }
    }
}

// Whether a step is refused with this request of memory. All is as before then, and the next try is
// done.
fn is_step_refused(rt: &impl Abort, heap: Heap, step: Step, end: u8, request: u64) -> bool {
    let mut nodes = filled(rt, heap, end);
    let refused = !is_step_done(rt, heap, &mut nodes, step, request);
    if refused {
        assert_filled(rt, heap, &nodes, end);
        assert!(rt; is_step_done(rt, heap, &mut nodes, step, 0));
    }
    assert_done(rt, heap, &nodes, step, end);
    drop(nodes);
    refused
}

// How many requests a step makes: each is refused once.
fn refused_requests(rt: &impl Abort, heap: Heap, step: Step, end: u8) -> u64 {
    for request in 1..20u64 {
        if !is_step_refused(rt, heap, step, end, request) {
            return request - 1;
        }
    }
    20
}

// The most that it makes among some numbers of nodes, of which this is the least.
fn most_refused(rt: &impl Abort, heap: Heap, step: Step, first_end: u8) -> u64 {
    let mut most = 0u64;
    for end in first_end..b'Z' {
        most = most.max(refused_requests(rt, heap, step, end));
    }
    most
}

#[test]
fn each_request_of_a_step_is_refused_once(rt: HostRuntime) {
    let heap = heap::open(rt.alloc()).expect(&rt, "memory");
    let looked_up = most_refused(&rt, heap, Step::LookUp, b'A');
    let reserved = most_refused(&rt, heap, Step::Reserve, b'A');
    let moved = most_refused(&rt, heap, Step::Move, b'B');
    let made = most_refused(&rt, heap, Step::Make, b'B');
    // One table grows for a move, both at once for a look-up, and those of births beside them for room.
    assert!(rt;
        moved > 1 && moved < looked_up && looked_up < reserved && reserved < 20,
        "{moved} {looked_up} {reserved}"
    );
    assert_eq!(rt; looked_up.wrapping_add(made), reserved);
}

// The step is done in room that was made, although the first request is refused.
fn assert_done_in_room(rt: &impl Abort, heap: Heap, step: Step, end: u8) {
    let mut nodes = filled(rt, heap, end);
    nodes.reserve().expect(rt, "memory");
    assert!(rt; is_step_done(rt, heap, &mut nodes, step, 1));
    assert_done(rt, heap, &nodes, step, end);
    drop(nodes);
}

#[test]
fn room_that_was_made_is_enough(rt: HostRuntime) {
    let heap = heap::open(rt.alloc()).expect(&rt, "memory");
    for end in b'B'..b'Z' {
        assert_done_in_room(&rt, heap, Step::LookUp, end);
        assert_done_in_room(&rt, heap, Step::Reserve, end);
        assert_done_in_room(&rt, heap, Step::Move, end);
        assert_done_in_room(&rt, heap, Step::Make, end);
    }
}

#[test]
fn a_known_name_and_what_goes_take_no_memory(rt: HostRuntime) {
    let heap = heap::open(rt.alloc()).expect(&rt, "memory");
    heap.refuse(1);
    let mut nodes = Nodes::new(heap);
    assert_eq!(rt; heap.made(), 0);
    heap.refuse(0);
    let first = looked_up(&rt, heap, &mut nodes, ROOT, b"a", 5);
    let second = looked_up(&rt, heap, &mut nodes, ROOT, b"b", 6);
    heap.refuse(1);
    let again = looked_up(&rt, heap, &mut nodes, ROOT, b"a", 5);
    nodes.forget(first, 1);
    detach(&rt, heap, &mut nodes, ROOT, b"b");
    nodes.forget(second, 1);
    let made = heap.made();
    let left = lookups(&nodes, first);
    drop(nodes);
    assert_eq!(rt; again, first);
    assert_eq!(rt; left, Some(1));
    assert_eq!(rt; made, 0);
}

// How many bytes a path has where this request of memory is refused.
fn length_but(heap: Heap, nodes: &Nodes, number: u64, request: u64) -> Option<usize> {
    heap.refuse(request);
    let path = nodes.path(heap, number);
    heap.refuse(0);
    let (_, path) = path.ok()??;
    Some(path.as_slice().len())
}

#[test]
fn each_request_of_a_path_is_refused_once(rt: HostRuntime) {
    let heap = heap::open(rt.alloc()).expect(&rt, "memory");
    let mut nodes = Nodes::new(heap);
    let last = chain(&rt, heap, &mut nodes, 2048, b"a");
    heap.refuse(0);
    assert_eq!(rt; path_length(&rt, heap, &nodes, last), Some(4096));
    let made = heap.made();
    for request in 1..20u64 {
        let want = if request > made { Some(4096) } else { None };
        assert_eq!(rt; length_but(heap, &nodes, last, request), want);
        assert_eq!(rt; path_length(&rt, heap, &nodes, last), Some(4096));
    }
    drop(nodes);
    assert!(rt; made > 1 && made < 19, "{made} requests");
}

#[test]
fn entries_of_long_names_may_be_refused(rt: HostRuntime) {
    let heap = heap::open(rt.alloc()).expect(&rt, "memory");
    heap.refuse(1);
    let entry_refused = is_refused(DirectoryEntry::new(heap, ROOT, LONG));
    heap.refuse(1);
    let first_refused = is_refused(Spot::new(heap, ROOT, LONG));
    heap.refuse(2);
    let second_refused = is_refused(Spot::new(heap, ROOT, LONG));
    heap.refuse(3);
    let third_refused = is_refused(Spot::new(heap, ROOT, LONG));
    heap.refuse(1);
    let short_refused = is_refused(Spot::new(heap, ROOT, SHORT));
    assert_eq!(rt; [entry_refused, first_refused, second_refused], [true; 3]);
    assert_eq!(rt; [third_refused, short_refused], [false; 2]);
    assert_eq!(rt; heap.made(), 0);
}
