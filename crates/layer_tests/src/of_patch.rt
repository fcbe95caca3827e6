// What refused memory leaves of a patch, and of the names with it on top.
use crate::names::joined;
use crate::of_dirlist::{name, put};
use crate::refused::is_refused;
use dirlist::{Dir, NamePatch};
use heap::Heap;
use ids::Num;
use std::process::Abort;

fn note(rt: &impl Abort, heap: Heap, patch: &mut NamePatch, bytes: &[u8], given: Option<Num>) {
    patch
        .note(name(rt, heap, bytes), given)
        .expect(rt, "memory");
}

// A directory of `a`, `b` and `d`.
fn three(rt: &impl Abort, heap: Heap) -> Dir {
    let mut dir = Dir::new(heap);
    for (bytes, number) in [
        (b"d".as_slice(), 4),
        (b"a".as_slice(), 1),
        (b"b".as_slice(), 2),
    ] {
        put(&mut dir, name(rt, heap, bytes), Num(number)).expect(rt, "memory");
    }
    dir
}

// Changes to it: `b` goes, `d` gives another number, `c` and `e` are new, and `f`, which is not
// there, goes too.
fn changes(rt: &impl Abort, heap: Heap) -> NamePatch {
    let mut patch = NamePatch::new(heap);
    for (bytes, given) in [
        (b"e".as_slice(), Some(Num(5))),
        (b"b".as_slice(), None),
        (b"f".as_slice(), None),
        (b"c".as_slice(), Some(Num(3))),
        (b"d".as_slice(), Some(Num(9))),
    ] {
        note(rt, heap, &mut patch, bytes, given);
    }
    patch
}

// The names with a patch on top, each with a blank behind it.
fn assert_names_over(rt: &impl Abort, heap: Heap, patch: &NamePatch, dir: &Dir, want: &[u8]) {
    let names = patch.names_over(heap, dir).expect(rt, "memory");
    let told = joined(rt, heap, names);
    assert_eq!(rt; told.as_slice(), want);
}

// Whether the names are refused where this request for memory is.
fn are_refused(heap: Heap, patch: &NamePatch, dir: &Dir, number: u64) -> bool {
    heap.refuse(number);
    is_refused(patch.names_over(heap, dir))
}

#[test]
fn a_refused_note_changes_nothing(rt: HostRuntime) {
    let heap = heap::open(rt.alloc()).expect(&rt, "memory");
    let dir = three(&rt, heap);
    let mut patch = NamePatch::new(heap);
    let first = name(&rt, heap, b"b");
    heap.refuse(1);
    assert!(rt; patch.note(first, None).is_err());
    heap.refuse(0);
    assert_names_over(&rt, heap, &patch, &dir, b"a b d ");
    drop(patch);
    drop(dir);
}

#[test]
fn refused_names_change_nothing(rt: HostRuntime) {
    let heap = heap::open(rt.alloc()).expect(&rt, "memory");
    let dir = three(&rt, heap);
    let patch = changes(&rt, heap);
    heap.refuse(0);
    assert_names_over(&rt, heap, &patch, &dir, b"a c d e ");
    let refused = [
        are_refused(heap, &patch, &dir, 1),
        are_refused(heap, &patch, &dir, 2),
    ];
    heap.refuse(0);
    assert_names_over(&rt, heap, &patch, &dir, b"a c d e ");
    drop(patch);
    drop(dir);
    assert_eq!(rt; refused, [true; 2]);
}

#[test]
fn what_is_noted_takes_no_more_memory(rt: HostRuntime) {
    let heap = heap::open(rt.alloc()).expect(&rt, "memory");
    let mut patch = changes(&rt, heap);
    let again = name(&rt, heap, b"c");
    let back = name(&rt, heap, b"e");
    heap.refuse(0);
    let noted = patch.note(again, None).is_ok();
    patch.put_back(&back, None);
    let given = patch.into_given();
    let told = [heap.made(), given.len() as u64];
    drop(given);
    assert!(rt; noted);
    assert_eq!(rt; told, [0, 4]);
}
