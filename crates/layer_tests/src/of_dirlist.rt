// Room that stays promised, and refused memory.
ghost use Rattle.std.specs.Prelude.{◌≡◌, ◌+◌, ◌<◌, ◌≤◌};

use crate::names::joined;
use crate::refused::is_refused;
use dirlist::Dir;
use heap::Heap;
use ids::{Name, Num};
use std::alloc::AllocError;
use std::process::Abort;

pub(crate) fn name(rt: &impl Abort, heap: Heap, bytes: &[u8]) -> Name {
    Name::copy(heap, bytes).expect(rt, "memory")
}

// Adds a name where it is not there yet, as its caller has to.
pub(crate) fn put(dir: &mut Dir, name: Name, num: Num) -> Result<(), AllocError>
    ensures { dir.new.promised ≡ dir.old.promised }
{
    if dir.lookup(&name).is_none() {
        dir.promise()?;
        dir.insert_promised(name, num);
    }
    Ok(())
}

// The names, each with a blank behind it.
fn assert_names(rt: &impl Abort, heap: Heap, dir: &Dir, want: &[u8]) {
    let names = dir.names(heap).expect(rt, "memory");
    let told = joined(rt, heap, names);
    assert_eq!(rt; told.as_slice(), want);
}

#[test]
fn refused_memory_changes_nothing(rt: HostRuntime) {
    let heap = heap::open(rt.alloc()).expect(&rt, "memory");
    let mut dir = Dir::new(heap);
    heap.refuse(1);
    assert!(rt; dir.promise().is_err());
    assert!(rt; dir.is_empty());
    heap.refuse(2);
    assert!(rt; put(&mut dir, name(&rt, heap, b"a"), Num(1)).is_err());
    assert!(rt; dir.is_empty());
    heap.refuse(0);
    put(&mut dir, name(&rt, heap, b"a"), Num(1)).expect(&rt, "memory");
    heap.refuse(1);
    assert!(rt; is_refused(dir.names(heap)));
    assert_names(&rt, heap, &dir, b"a ");
    drop(dir);
}

// Adds a name in promised room where it is not there yet.
fn put_promised(dir: &mut Dir, name: Name, num: Num)
    requires { 0 < dir.old.promised }
    ensures { dir.old.promised ≤ dir.new.promised + 1 }
{
    if dir.lookup(&name).is_none() {
        dir.insert_promised(name, num);
    }
}

#[test]
fn promised_room_takes_no_memory(rt: HostRuntime) {
    let heap = heap::open(rt.alloc()).expect(&rt, "memory");
    let mut dir = Dir::new(heap);
    let first = name(&rt, heap, b"a");
    let second = name(&rt, heap, b"b");
    dir.promise().expect(&rt, "memory");
    dir.promise().expect(&rt, "memory");
    put(&mut dir, name(&rt, heap, b"c"), Num(9)).expect(&rt, "memory");
    heap.refuse(0);
    put_promised(&mut dir, first, Num(1));
    let one_is_left = dir.is_promised();
    put_promised(&mut dir, second, Num(2));
    let another_is_left = dir.is_promised();
    let told = [heap.made(), dir.len() as u64];
    drop(dir);
    assert_eq!(rt; [one_is_left, another_is_left], [true, false]);
    assert_eq!(rt; told, [0, 3]);
}
