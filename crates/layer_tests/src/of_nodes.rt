// The numbers of a mount's nodes: which look-ups give the same, counts that are kept, and names that
// go and move.
use crate::trees::{
    ROOT, assert_no_path, assert_path, detach, entry, looked_up, lookups, move_entry, number_at,
    spot,
};
use ids::Num;
use nodes::{FIRST_NUMBER, Nodes};

const SECOND_ROOT: u64 = 2;

#[test]
fn an_entry_and_an_object_have_one_number(rt: HostRuntime) {
    let heap = heap::open(rt.alloc()).expect(&rt, "memory");
    let mut nodes = Nodes::new(heap);
    let first = looked_up(&rt, heap, &mut nodes, ROOT, b"a", 5);
    let again = looked_up(&rt, heap, &mut nodes, ROOT, b"a", 5);
    let another_name = looked_up(&rt, heap, &mut nodes, ROOT, b"b", 5);
    let below = looked_up(&rt, heap, &mut nodes, first, b"a", 5);
    let another_root = looked_up(&rt, heap, &mut nodes, SECOND_ROOT, b"a", 5);
    let counts = [lookups(&nodes, first), lookups(&nodes, another_name)];
    let roots = [nodes.root_of(first), nodes.root_of(below)];
    let second_roots = [nodes.root_of(another_root), nodes.root_of(SECOND_ROOT)];
    drop(nodes);
    assert_eq!(rt; first, FIRST_NUMBER);
    assert_eq!(rt;
        [first, again, another_name, below, another_root],
        [16, 16, 17, 18, 19]
    );
    assert_eq!(rt; counts, [Some(2), Some(1)]);
    assert_eq!(rt; roots, [ROOT; 2]);
    assert_eq!(rt; second_roots, [SECOND_ROOT; 2]);
}

#[test]
fn another_object_has_another_number(rt: HostRuntime) {
    let heap = heap::open(rt.alloc()).expect(&rt, "memory");
    let mut nodes = Nodes::new(heap);
    let first = looked_up(&rt, heap, &mut nodes, ROOT, b"a", 5);
    let second = looked_up(&rt, heap, &mut nodes, ROOT, b"a", 6);
    // The first object's node stays, but the entry leads to it no more, even if it comes back.
    assert_no_path(&rt, heap, &nodes, first);
    assert_path(&rt, heap, &nodes, second, b"/a");
    let third = looked_up(&rt, heap, &mut nodes, ROOT, b"a", 5);
    assert_no_path(&rt, heap, &nodes, first);
    assert_no_path(&rt, heap, &nodes, second);
    assert_eq!(rt; [first, second, third], [16, 17, 18]);
    // It goes, and what the entry leads to stays.
    nodes.forget(first, 1);
    nodes.forget(second, 1);
    assert_eq!(rt; lookups(&nodes, first), None);
    assert_eq!(rt; lookups(&nodes, second), None);
    assert_eq!(rt; number_at(&rt, heap, &nodes, ROOT, b"a"), Some(third));
    nodes.forget(third, 1);
    assert_eq!(rt; number_at(&rt, heap, &nodes, ROOT, b"a"), None);
    drop(nodes);
}

#[test]
fn a_node_goes_with_its_last_look_up(rt: HostRuntime) {
    let heap = heap::open(rt.alloc()).expect(&rt, "memory");
    let mut nodes = Nodes::new(heap);
    let first = looked_up(&rt, heap, &mut nodes, ROOT, b"a", 5);
    looked_up(&rt, heap, &mut nodes, ROOT, b"a", 5);
    looked_up(&rt, heap, &mut nodes, ROOT, b"a", 5);
    nodes.forget(first, 0);
    assert_eq!(rt; lookups(&nodes, first), Some(3));
    nodes.forget(first, 2);
    assert_eq!(rt; lookups(&nodes, first), Some(1));
    assert_path(&rt, heap, &nodes, first, b"/a");
    nodes.forget(first, 1);
    assert_eq!(rt; lookups(&nodes, first), None);
    assert_eq!(rt; number_at(&rt, heap, &nodes, ROOT, b"a"), None);
    // A number that is given no more.
    nodes.forget(first, 1);
    let second = looked_up(&rt, heap, &mut nodes, ROOT, b"a", 5);
    assert_eq!(rt; [first, second], [16, 17]);
    assert_eq!(rt; lookups(&nodes, second), Some(1));
    // More than there are.
    nodes.forget(second, u64::MAX);
    assert_eq!(rt; lookups(&nodes, second), None);
    drop(nodes);
}

#[test]
fn below_a_detached_name_is_no_path(rt: HostRuntime) {
    let heap = heap::open(rt.alloc()).expect(&rt, "memory");
    let mut nodes = Nodes::new(heap);
    let first = looked_up(&rt, heap, &mut nodes, ROOT, b"a", 5);
    let below = looked_up(&rt, heap, &mut nodes, first, b"b", 6);
    detach(&rt, heap, &mut nodes, ROOT, b"c");
    assert_path(&rt, heap, &nodes, below, b"/a/b");
    detach(&rt, heap, &mut nodes, ROOT, b"a");
    assert_eq!(rt; number_at(&rt, heap, &nodes, ROOT, b"a"), None);
    assert_eq!(rt; number_at(&rt, heap, &nodes, first, b"b"), Some(below));
    assert_eq!(rt; lookups(&nodes, first), Some(1));
    assert_no_path(&rt, heap, &nodes, first);
    assert_no_path(&rt, heap, &nodes, below);
    // The same object comes anew, and the former node goes without taking its place.
    let again = looked_up(&rt, heap, &mut nodes, ROOT, b"a", 5);
    nodes.forget(first, 1);
    assert_eq!(rt; again, 18);
    assert_path(&rt, heap, &nodes, again, b"/a");
    drop(nodes);
}

#[test]
fn what_stands_below_moves_along(rt: HostRuntime) {
    let heap = heap::open(rt.alloc()).expect(&rt, "memory");
    let mut nodes = Nodes::new(heap);
    let moved = looked_up(&rt, heap, &mut nodes, ROOT, b"a", 5);
    let below = looked_up(&rt, heap, &mut nodes, moved, b"b", 6);
    let last = looked_up(&rt, heap, &mut nodes, below, b"c", 7);
    let folder = looked_up(&rt, heap, &mut nodes, ROOT, b"d", 8);
    let (from, to) = (entry(&rt, heap, ROOT, b"a"), spot(&rt, heap, ROOT, b"e"));
    move_entry(&rt, &mut nodes, from, to);
    assert_eq!(rt; number_at(&rt, heap, &nodes, ROOT, b"a"), None);
    assert_eq!(rt; looked_up(&rt, heap, &mut nodes, ROOT, b"e", 5), moved);
    assert_eq!(rt; lookups(&nodes, moved), Some(2));
    assert_path(&rt, heap, &nodes, moved, b"/e");
    assert_path(&rt, heap, &nodes, last, b"/e/b/c");
    let (from, to) = (entry(&rt, heap, ROOT, b"e"), spot(&rt, heap, folder, b"f"));
    move_entry(&rt, &mut nodes, from, to);
    assert_path(&rt, heap, &nodes, moved, b"/d/f");
    assert_path(&rt, heap, &nodes, below, b"/d/f/b");
    assert_path(&rt, heap, &nodes, last, b"/d/f/b/c");
    drop(nodes);
}

#[test]
fn a_move_onto_a_taken_name(rt: HostRuntime) {
    let heap = heap::open(rt.alloc()).expect(&rt, "memory");
    let mut nodes = Nodes::new(heap);
    let moved = looked_up(&rt, heap, &mut nodes, ROOT, b"a", 5);
    let replaced = looked_up(&rt, heap, &mut nodes, ROOT, b"b", 6);
    let below = looked_up(&rt, heap, &mut nodes, replaced, b"c", 7);
    let (from, to) = (entry(&rt, heap, ROOT, b"a"), spot(&rt, heap, ROOT, b"b"));
    move_entry(&rt, &mut nodes, from, to);
    assert_path(&rt, heap, &nodes, moved, b"/b");
    assert_no_path(&rt, heap, &nodes, replaced);
    assert_no_path(&rt, heap, &nodes, below);
    assert_eq!(rt; lookups(&nodes, replaced), Some(1));
    nodes.forget(replaced, 1);
    assert_eq!(rt; number_at(&rt, heap, &nodes, ROOT, b"a"), None);
    assert_eq!(rt; number_at(&rt, heap, &nodes, ROOT, b"b"), Some(moved));
    // Onto itself: all stays.
    let (from, to) = (entry(&rt, heap, ROOT, b"b"), spot(&rt, heap, ROOT, b"b"));
    move_entry(&rt, &mut nodes, from, to);
    assert_path(&rt, heap, &nodes, moved, b"/b");
    // From a name that leads nowhere: so does the other then.
    let (from, to) = (entry(&rt, heap, ROOT, b"a"), spot(&rt, heap, ROOT, b"b"));
    move_entry(&rt, &mut nodes, from, to);
    assert_eq!(rt; number_at(&rt, heap, &nodes, ROOT, b"b"), None);
    assert_no_path(&rt, heap, &nodes, moved);
    drop(nodes);
}

#[test]
fn a_number_that_is_used_again_is_another_object(rt: HostRuntime) {
    let heap = heap::open(rt.alloc()).expect(&rt, "memory");
    let mut nodes = Nodes::new(heap);
    let first = looked_up(&rt, heap, &mut nodes, ROOT, b"a", 5);
    let other = looked_up(&rt, heap, &mut nodes, ROOT, b"b", 6);
    nodes.note_made(Num(5)).expect(&rt, "memory");
    let current = [nodes.is_current(first), nodes.is_current(other)];
    // The same name and the same number, and not the same object.
    let second = looked_up(&rt, heap, &mut nodes, ROOT, b"a", 5);
    let later = [nodes.is_current(first), nodes.is_current(second)];
    drop(nodes);
    assert_eq!(rt; [first, other, second], [16, 17, 18]);
    assert_eq!(rt; current, [false, true]);
    assert_eq!(rt; later, [false, true]);
}
