// The paths of a mount's nodes: where they begin, the longest ones, and ways that have no end.
use crate::trees::{
    ROOT, assert_no_path, assert_path, chain, detach, entry, has_path, looked_up, lookups,
    move_entry, path_length, spot,
};
use heap::Heap;
use nodes::{NAMES_LIMIT, Nodes};
use std::process::Abort;

#[test]
fn a_root_has_an_empty_path(rt: HostRuntime) {
    let heap = heap::open(rt.alloc()).expect(&rt, "memory");
    let mut nodes = Nodes::new(heap);
    let below = looked_up(&rt, heap, &mut nodes, 2, b"a", 5);
    let found = [
        has_path(&rt, heap, &nodes, ROOT, ROOT, b""),
        has_path(&rt, heap, &nodes, 2, 2, b""),
        has_path(&rt, heap, &nodes, below, 2, b"/a"),
    ];
    drop(nodes);
    assert_eq!(rt; found, [true; 3]);
}

// The number of a node that is gone is none of a node, and so a root's: it is for the caller to ask for
// no path below it.
#[test]
fn below_a_forgotten_node_its_number_is_the_root(rt: HostRuntime) {
    let heap = heap::open(rt.alloc()).expect(&rt, "memory");
    let mut nodes = Nodes::new(heap);
    let first = looked_up(&rt, heap, &mut nodes, ROOT, b"a", 5);
    let below = looked_up(&rt, heap, &mut nodes, first, b"b", 6);
    nodes.forget(first, 1);
    let found = has_path(&rt, heap, &nodes, below, first, b"/b");
    let told = [nodes.root_of(first), nodes.root_of(below)];
    let left = lookups(&nodes, below);
    drop(nodes);
    assert!(rt; found);
    assert_eq!(rt; told, [first, ROOT]);
    assert_eq!(rt; left, Some(1));
}

// How many bytes the path of the last of so many nodes has, each of this name.
fn length_of_chain(rt: &impl Abort, heap: Heap, count: u32, name: &[u8]) -> Option<usize> {
    let mut nodes = Nodes::new(heap);
    let last = chain(rt, heap, &mut nodes, count, name);
    let length = path_length(rt, heap, &nodes, last);
    drop(nodes);
    length
}

#[test]
fn a_path_has_at_most_4096_bytes(rt: HostRuntime) {
    let heap = heap::open(rt.alloc()).expect(&rt, "memory");
    assert_eq!(rt; length_of_chain(&rt, heap, 16, &[b'a'; 255]), Some(4096));
    assert_eq!(rt; length_of_chain(&rt, heap, 17, &[b'a'; 240]), None);
    assert_eq!(rt; length_of_chain(&rt, heap, 65, &[b'a'; 62]), Some(4095));
    assert_eq!(rt; length_of_chain(&rt, heap, 100, &[b'a'; 40]), None);
    assert_eq!(rt; length_of_chain(&rt, heap, 32, &[b'a'; 127]), Some(4096));
}

#[test]
fn a_path_has_at_most_2048_names(rt: HostRuntime) {
    let heap = heap::open(rt.alloc()).expect(&rt, "memory");
    assert_eq!(rt; NAMES_LIMIT, 2049);
    assert_eq!(rt; length_of_chain(&rt, heap, 2047, b"a"), Some(4094));
    assert_eq!(rt; length_of_chain(&rt, heap, 2048, b"a"), Some(4096));
    assert_eq!(rt; length_of_chain(&rt, heap, 2049, b"a"), None);
    // No mount has empty names, which show this limit without the other.
    assert_eq!(rt; length_of_chain(&rt, heap, 2048, b""), Some(2048));
    assert_eq!(rt; length_of_chain(&rt, heap, 2049, b""), None);
}

#[test]
fn a_longest_path_ends_where_a_name_goes(rt: HostRuntime) {
    let heap = heap::open(rt.alloc()).expect(&rt, "memory");
    let mut nodes = Nodes::new(heap);
    let last = chain(&rt, heap, &mut nodes, 2048, b"a");
    let number = 300;
    detach(&rt, heap, &mut nodes, 299, b"a");
    let below = [
        path_length(&rt, heap, &nodes, last),
        path_length(&rt, heap, &nodes, 301),
        path_length(&rt, heap, &nodes, number),
    ];
    let above = path_length(&rt, heap, &nodes, 299);
    drop(nodes);
    assert_eq!(rt; last, 2063);
    assert_eq!(rt; below, [None; 3]);
    assert_eq!(rt; above, Some(568));
}

// No kernel moves a folder below itself. Where one does, no path is sought for ever.
#[test]
fn a_folder_below_itself_has_no_path(rt: HostRuntime) {
    let heap = heap::open(rt.alloc()).expect(&rt, "memory");
    let mut nodes = Nodes::new(heap);
    let first = looked_up(&rt, heap, &mut nodes, ROOT, b"a", 5);
    let below = looked_up(&rt, heap, &mut nodes, first, b"b", 6);
    assert_path(&rt, heap, &nodes, below, b"/a/b");
    let (from, to) = (entry(&rt, heap, ROOT, b"a"), spot(&rt, heap, below, b"c"));
    move_entry(&rt, &mut nodes, from, to);
    assert_no_path(&rt, heap, &nodes, first);
    assert_no_path(&rt, heap, &nodes, below);
    drop(nodes);
}
