// Nodes of a mount that are looked up, moved and taken away by hand.
use heap::Heap;
use ids::{Kind, Num};
use nodes::{DirectoryEntry, Nodes, Spot};
use std::process::Abort;

// The root below which all stands.
pub(crate) const ROOT: u64 = 1;

pub(crate) fn entry(rt: &impl Abort, heap: Heap, parent: u64, name: &[u8]) -> DirectoryEntry {
    DirectoryEntry::new(heap, parent, name).expect(rt, "memory")
}

pub(crate) fn spot(rt: &impl Abort, heap: Heap, parent: u64, name: &[u8]) -> Spot {
    Spot::new(heap, parent, name).expect(rt, "memory")
}

// The number that a look-up gives.
pub(crate) fn looked_up(
    rt: &impl Abort,
    heap: Heap,
    nodes: &mut Nodes,
    parent: u64,
    name: &[u8],
    inode: usize,
) -> u64 {
    let spot = spot(rt, heap, parent, name);
    nodes
        .look_up(spot, Num(inode), Kind::File)
        .expect(rt, "memory")
}

// The number to which an entry leads.
pub(crate) fn number_at(
    rt: &impl Abort,
    heap: Heap,
    nodes: &Nodes,
    parent: u64,
    name: &[u8],
) -> Option<u64> {
    let entry = entry(rt, heap, parent, name);
    nodes.number_at(&entry)
}

// How many look-ups of a number are not forgotten.
pub(crate) fn lookups(nodes: &Nodes, number: u64) -> Option<u64> {
    nodes.get(number).map(|node| node.lookups)
}

// A chain of nodes from the root down, so many of this name. It gives the number of the last.
pub(crate) fn chain(
    rt: &impl Abort,
    heap: Heap,
    nodes: &mut Nodes,
    count: u32,
    name: &[u8],
) -> u64 {
    let mut number = ROOT;
    for _ in 0..count {
        number = looked_up(rt, heap, nodes, number, name, 5);
    }
    number
}

// How many bytes the path of a number has.
pub(crate) fn path_length(
    rt: &impl Abort,
    heap: Heap,
    nodes: &Nodes,
    number: u64,
) -> Option<usize> {
    let (_, path) = nodes.path(heap, number).expect(rt, "memory")?;
    Some(path.as_slice().len())
}

// Whether a number has this path below this root.
pub(crate) fn has_path(
    rt: &impl Abort,
    heap: Heap,
    nodes: &Nodes,
    number: u64,
    root: u64,
    want: &[u8],
) -> bool {
    match nodes.path(heap, number).expect(rt, "memory") {
        Some((found, path)) => found == root && path.as_slice() == want,
        None => false,
    }
}

pub(crate) fn assert_path(rt: &impl Abort, heap: Heap, nodes: &Nodes, number: u64, want: &[u8]) {
    assert!(rt;
        has_path(rt, heap, nodes, number, ROOT, want),
        "path of {number}"
    );
}

pub(crate) fn assert_no_path(rt: &impl Abort, heap: Heap, nodes: &Nodes, number: u64) {
    assert_eq!(rt; path_length(rt, heap, nodes, number), None);
}

pub(crate) fn move_entry(rt: &impl Abort, nodes: &mut Nodes, from: DirectoryEntry, to: Spot) {
    nodes.move_entry(&from, to).expect(rt, "memory");
    drop(from);
}

pub(crate) fn detach(rt: &impl Abort, heap: Heap, nodes: &mut Nodes, parent: u64, name: &[u8]) {
    let entry = entry(rt, heap, parent, name);
    nodes.detach(&entry);
    drop(entry);
}
