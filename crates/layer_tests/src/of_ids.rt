// Each public function once, with ample memory, against what it should give.
use crate::refused::is_refused;
use bitflags::Flags;
use heap::Heap;
use ids::{
    Aspect, BeginFlags, Bytes, Call, Cause, Entry, Name, NameList, Num, Nums, Op, OpenFlags, Pid,
    Pids, Priority, Reply, Touch,
};
use std::fmt::Debug;
use std::process::Abort;

fn entry(rt: &impl Abort, heap: Heap) -> Entry {
    let name = Name::copy(heap, b"a").expect(rt, "memory");
    let path = Bytes::copy(heap, b"/a").expect(rt, "memory");
    let touch = Touch {
        aspect: Aspect::Entry(Num(3), name),
        write: true,
    };
    let cause = Cause {
        touch,
        other: Pid(2),
    };
    Entry {
        pid: Pid(1),
        op: Op::Call(Call::Mkdir(path)),
        reply: Reply::Busy(cause),
        chosen: Nums::new(heap),
        doomed: Pids::new(heap),
    }
}

// The text of a value, which goes then. Of any type, so that no proof looks into the text of an
// entry or drops one.
fn told<T: Debug + Drop>(rt: &impl Abort, heap: Heap, value: T) -> String<Heap> {
    format!(in heap; "{value:?}").expect(rt, "memory")
}

#[test]
fn a_copy_is_told_as_its_source(rt: HostRuntime) {
    let heap = heap::open(rt.alloc()).expect(&rt, "memory");
    let entry = entry(&rt, heap);
    let copy = entry.try_clone().expect(&rt, "memory");
    let other = told(&rt, heap, entry);
    let one = told(&rt, heap, copy);
    assert!(rt; one == other);
}

#[test]
fn a_refused_copy_says_so(rt: HostRuntime) {
    let heap = heap::open(rt.alloc()).expect(&rt, "memory");
    let long = Bytes::copy(heap, &[b'a'; 65]).expect(&rt, "memory");
    heap.refuse(1);
    let refused = [is_refused(long.try_clone()), is_refused(long.try_clone())];
    drop(long);
    assert_eq!(rt; refused, [true, false]);
}

// How many requests two copies of so many bytes take, once they are shared.
fn requests_of_copies(rt: &impl Abort, heap: Heap, count: usize) -> u64 {
    let bytes = Vec::from_elem(heap, b'a', count).expect(rt, "memory");
    let shared = Bytes::new(bytes).shared();
    heap.refuse(0);
    let one = shared.try_clone().expect(rt, "memory");
    let other = shared.try_clone().expect(rt, "memory");
    drop(shared);
    assert!(rt; one.as_slice() == other.as_slice() && one.as_slice().len() == count);
    heap.made()
}

#[test]
fn copies_of_shared_bytes_take_no_memory(rt: HostRuntime) {
    let heap = heap::open(rt.alloc()).expect(&rt, "memory");
    for count in [0usize, 64, 65, 70_000] {
        assert_eq!(rt; requests_of_copies(&rt, heap, count), 0, "{count}");
    }
}

// Refused memory leaves bytes as they are, or gives nothing.
#[test]
fn bytes_stay_where_the_count_is_refused(rt: HostRuntime) {
    let heap = heap::open(rt.alloc()).expect(&rt, "memory");
    let long = Bytes::copy(heap, &[b'a'; 65]).expect(&rt, "memory");
    heap.refuse(1);
    let long = long.shared();
    assert!(rt; long.as_slice() == [b'a'; 65].as_slice());
    heap.refuse(1);
    assert!(rt; is_refused(long.try_shared()));
}

// A list of two names.
fn two_names(rt: &impl Abort, heap: Heap) -> NameList {
    let mut names = Vec::new(heap);
    for bytes in [b"a", b"b"] {
        let name = Name::copy(heap, bytes).expect(rt, "memory");
        names.push(name).expect(rt, "memory");
    }
    NameList::new(names)
}

#[test]
fn copies_of_shared_names_take_no_memory(rt: HostRuntime) {
    let heap = heap::open(rt.alloc()).expect(&rt, "memory");
    heap.refuse(0);
    let none = NameList::new(Vec::new(heap)).try_shared();
    let asked = heap.made();
    drop(none.expect(&rt, "memory"));
    let names = two_names(&rt, heap).try_shared().expect(&rt, "memory");
    heap.refuse(0);
    let copy = names.try_clone().expect(&rt, "memory");
    drop(names);
    assert_eq!(rt;
        [asked, heap.made(), copy.as_slice().len() as u64],
        [0, 0, 2]
    );
    let names = two_names(&rt, heap);
    heap.refuse(1);
    assert!(rt; is_refused(names.try_shared()));
}

#[test]
fn flags_have_their_bits(rt: HostRuntime) {
    let flags = OpenFlags::READ
        .with(OpenFlags::WRITE)
        .with(OpenFlags::CREAT);
    assert_eq!(rt; flags.bits(), 7);
    assert!(rt; flags.reads() && flags.writes() && flags.creates());
    assert!(rt; !flags.is_exclusive() && !flags.truncates() && !flags.appends());
    assert!(rt; BeginFlags::RESTART.restarts() && !BeginFlags::none().restarts());
    assert!(rt; BeginFlags::ABORT_UNSUPPORTED.aborts_unsupported());
}

#[test]
fn priorities_are_below_eight(rt: HostRuntime) {
    assert_eq!(rt; Priority::new(7).map(|p| p.level()), Some(7));
    assert!(rt; Priority::new(8).is_none());
}
