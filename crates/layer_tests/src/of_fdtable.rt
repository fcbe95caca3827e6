// What refused memory leaves of a table of descriptors and of its changes, and what takes none.
ghost use Rattle.std.specs.Prelude.{◌≢◌, ◌<◌, ℕ, None};
ghost use Rattle.fdtable.specs.Pages.{HasRoom};
ghost use Rattle.ids.specs.declared.limits.TheConstants.{DESCRIPTORS};
ghost use Rattle.model.specs.FiniteMap.{get};

use fdtable::{FdTable, SlotPatch, SlotPlace, SlotRoom};
use heap::Heap;
use ids::{DESCRIPTORS, Fd, Num};
use std::process::Abort;

// Descriptors in three pages, the last of all among them.
const OPEN: [u32; 4] = [0, 63, 130, DESCRIPTORS as u32 - 1];

fn opened(rt: &impl Abort, heap: Heap) -> FdTable {
    let mut table = FdTable::new(heap);
    for fd in OPEN {
        let former = table.set(Fd(fd), Some(Num(7))).expect(rt, "memory");
        assert_eq!(rt; former, None);
    }
    table
}

// One change more, with room for it.
#[tactic(auto, using(crate::proofs::Rooms::more_has_room))]
fn note(rt: &impl Abort, room: &mut SlotRoom, patch: &mut SlotPatch, fd: u32, given: Option<Num>)
    requires low { fd < DESCRIPTORS }
    requires has { (f : ℕ) → get patch.old f ≢ None → HasRoom room.old f }
    ensures { (f : ℕ) → get patch.new f ≢ None → HasRoom room.new f }
{
    patch.note(room, Fd(fd), given).expect(rt, "memory");
}

fn noted(rt: &impl Abort, heap: Heap, room: &mut SlotRoom) -> SlotPatch
    ensures { (f : ℕ) → get result f ≢ None → HasRoom room.new f }
{
    let mut patch = SlotPatch::new(heap);
    note(rt, room, &mut patch, 1, Some(Num(8)));
    note(rt, room, &mut patch, 63, None);
    note(rt, room, &mut patch, 200, Some(Num(9)));
    patch
}

fn assert_open(rt: &impl Abort, heap: Heap, table: &FdTable, want: &[u32]) {
    let entries = table.entries(heap).expect(rt, "memory");
    let mut same = entries.len() == want.len();
    for (entry, fd) in entries.iter().zip(want) {
        same &= entry.0 == Fd(*fd);
    }
    drop(entries);
    assert!(rt; same);
}

#[test]
fn a_refused_growth_leaves_a_table_as_it_is(rt: HostRuntime) {
    let heap = heap::open(rt.alloc()).expect(&rt, "memory");
    let mut table = opened(&rt, heap);
    for fd in [64, 200, 600_000] {
        heap.refuse(1);
        let refused = table.set(Fd(fd), Some(Num(8))).is_err();
        heap.refuse(0);
        assert!(rt; refused);
        assert_open(&rt, heap, &table, &OPEN);
        assert_eq!(rt; table.lowest(DESCRIPTORS as u32), Some(Fd(1)));
    }
    drop(table);
}

// A page that has room keeps it.
#[test]
fn a_descriptor_beside_an_open_one_takes_no_memory(rt: HostRuntime) {
    let heap = heap::open(rt.alloc()).expect(&rt, "memory");
    let mut table = opened(&rt, heap);
    heap.refuse(1);
    table.clear(Fd(130));
    for fd in [1, 62, 130, 191, DESCRIPTORS as u32 - 64] {
        let former = table.set(Fd(fd), Some(Num(8))).expect(&rt, "no memory");
        assert_eq!(rt; former, None);
    }
    heap.refuse(0);
    assert_eq!(rt; table.two_lowest(64), Some((Fd(2), Fd(3))));
    assert_eq!(rt; table.two_lowest(3), None);
    drop(table);
}

// Each request of a note is refused once, and is one of a few.
#[test]
fn a_refused_note_changes_nothing(rt: HostRuntime) {
    let heap = heap::open(rt.alloc()).expect(&rt, "memory");
    let mut requests = 0u64;
    for request in 1..20u64 {
        let mut room = SlotRoom::new(heap);
        let mut patch = noted(&rt, heap, &mut room);
        heap.refuse(request);
        let done = patch.note(&mut room, Fd(5000), Some(Num(7))).is_ok();
        heap.refuse(0);
        let after = [patch.get(Fd(5000)), patch.get(Fd(63)), patch.get(Fd(2))];
        drop(patch);
        drop(room);
        let given = if done { Some(Some(Num(7))) } else { None };
        assert_eq!(rt; after, [given, Some(None), None]);
        requests = requests.wrapping_add(u64::from(!done));
    }
    assert!(rt; requests > 2 && requests < 19, "{requests} requests");
}

// What was noted is laid, and what the table gave before is noted in its place.
#[test]
fn changes_are_laid_without_memory(rt: HostRuntime) {
    let heap = heap::open(rt.alloc()).expect(&rt, "memory");
    let mut table = opened(&rt, heap);
    let mut room = SlotRoom::new(heap);
    let mut patch = noted(&rt, heap, &mut room);
    let place = SlotPlace::new(heap, Fd(9999)).expect(&rt, "memory");
    let lowest = patch.lowest_over(&table, Fd(0), 64);
    heap.refuse(1);
    patch.note_in(&mut room, place, Some(Num(9)));
    patch.lay_on(&mut table, room);
    heap.refuse(0);
    let former = [
        patch.get(Fd(0)),
        patch.get(Fd(1)),
        patch.get(Fd(63)),
        patch.get(Fd(200)),
        patch.get(Fd(9999)),
    ];
    drop(patch);
    let was_open = Some(Some(Num(7)));
    assert_eq!(rt; lowest, Some(Fd(2)));
    assert_eq!(rt;
        former,
        [None, Some(None), was_open, Some(None), Some(None)]
    );
    assert_open(
        &rt,
        heap,
        &table,
        &[0, 1, 130, 200, 9999, DESCRIPTORS as u32 - 1],
    );
    drop(table);
}

// Each request of a copy is refused once.
#[test]
fn a_refused_copy_leaves_the_table(rt: HostRuntime) {
    let heap = heap::open(rt.alloc()).expect(&rt, "memory");
    let table = opened(&rt, heap);
    let mut requests = 0u64;
    for request in 1..100u64 {
        heap.refuse(request);
        let copy = table.try_clone(heap);
        heap.refuse(0);
        requests = requests.wrapping_add(u64::from(copy.is_err()));
        drop(copy);
    }
    assert!(rt; requests > 0 && requests < 99, "{requests} requests");
    assert_open(&rt, heap, &table, &OPEN);
    drop(table);
}
