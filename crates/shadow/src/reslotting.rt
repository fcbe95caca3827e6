// The changes of slots, made of the processes.
ghost use Rattle.std.specs.Prelude.{◌≡◌, ◌≢◌, ◌<◌, ◌^◌, [], ℕ, None, Some, length};
ghost use Rattle.std.specs.Prelude.{IfOk, IfSome, IsOk, IsSome, OnErr, OnOk};
ghost use Rattle.ids.specs.declared.limits.TheConstants.{DESCRIPTORS};
ghost use Rattle.model.specs.FiniteMap.{entries, get, values};
ghost use Rattle.fdtable.specs.Pages.{HasRoom};
ghost use Rattle.fdtable.specs.Patches.{IsFormer};
ghost use Rattle.store.specs.Numbers.{Numbers};
ghost use Rattle.shadow.specs.Laid.{AreHeld, AreReslotted, IsLessBy, IsLessOf, IsMoreBy, IsOneLess};
ghost use Rattle.shadow.specs.Laid.{IsOneMore, IsReslotted, IsSlotted, table_in};
ghost use Rattle.notes.specs.Openings.{AreOnce, AreRoomy, slot_noted};
ghost use Rattle.shadow.specs.Stored.{numbered, with_process};
ghost use Rattle.notes.specs.Patches.{kept_at, reslotted, slots_in};

use crate::stable::{Process, Processes};
use fdtable::{FdTable, SlotPatch, SlotRoom};
use heap::Heap;
use ids::{Fd, Num, Pid};
use std::alloc::AllocError;
use std::mem;
use store::Store;

/// Makes what is changed of slots, in the room that there is for it; what these gave before stands in
/// the place of the changes. It takes no memory.
pub(crate) fn lay_slots(
    store: &mut Store,
    processes: &mut Processes,
    each: &mut [(Pid, SlotPatch)],
    mut rooms: Vec<SlotRoom, Heap>,
)
    requires once { AreOnce each.old }
    requires rooms { AreRoomy each.old rooms.items }
    requires living { (pid : ℕ) → slots_in (kept_at each.old pid) ≢ []
        → get (numbered processes.old) pid ≢ None }
    ensures laid { AreReslotted each.old each.new processes.old processes.new
        store.old store.new }
    ensures once { AreOnce each.new }
{
    let heap = *rooms.allocator();
    for i in 0..each.len() {
        let room = mem::replace(&mut rooms[i], SlotRoom::new(heap));
        lay_table(store, processes, each[i].0, &mut each[i].1, room);
    }
}

/// Makes what is changed of one process's slots, in the room that there is for it; what they gave
/// before stands in the place of the changes. It takes no memory.
pub(crate) fn lay_table(
    store: &mut Store,
    processes: &mut Processes,
    pid: Pid,
    patch: &mut SlotPatch,
    room: SlotRoom,
)
    requires room { (f : ℕ) → get patch.old f ≢ None → HasRoom room f }
    requires living { entries patch.old ≢ [] → get (numbered processes.old) pid ≢ None }
    ensures { IsReslotted pid patch.old patch.new processes.old processes.new
        store.old store.new }
{
    hold_given(store, patch);
    processes.lay(pid, patch, room);
    let_go(store, patch);
}

// Counts for each description one slot more for each change that gives it. All changes are of
// descriptors below the limit.
fn hold_given(store: &mut Store, patch: &SlotPatch)
    ensures held { AreHeld (IsMoreBy patch.now) store.old store.new }
    ensures low { (f : ℕ) → get patch.now f ≢ None → f < DESCRIPTORS }
{
    // For the proof: only descriptors below the limit are noted.
    patch.noted_are_low();
    let mut from = 0;
    while let Some(fd) = patch.noted_from(from) {
        if let Some(given) = patch.get(fd) {
            count_more(store, &given);
        }
        from = fd.0 + 1;
    }
}

// Counts for each description one slot less for each that gave it.
fn let_go(store: &mut Store, former: &SlotPatch)
    ensures { AreHeld (IsLessBy former.now) store.old store.new }
{
    let mut from = 0;
    while let Some(fd) = former.noted_from(from) {
        if let Some(given) = former.get(fd) {
            count_less(store, &given);
        }
        from = fd.0 + 1;
    }
}

/// Counts for each description one slot less for each descriptor of a table that is open on it.
pub(crate) fn let_all_go(store: &mut Store, table: &FdTable)
    ensures { AreHeld (IsLessOf (values table.now)) store.old store.new }
{
    let mut from = 0;
    while let Some(fd) = table.open_from(from) {
        count_less(store, &table.get(fd));
        from = fd.0 + 1;
    }
}

/// One slot gives this from now on, in this room, or else in memory that is asked for; what it gave is
/// answered. Refused memory changes nothing, and a slot that gives nothing then takes none.
pub(crate) fn lay_slot(
    store: &mut Store,
    processes: &mut Processes,
    pid: Pid,
    fd: Fd,
    given: Option<Num>,
    room: Option<SlotRoom>,
) -> Result<Option<Num>, AllocError>
    requires pid { get (numbered processes.old) pid ≢ None }
    requires fd { fd < DESCRIPTORS }
    requires room { IfSome room (λ r. HasRoom r fd) }
    ensures former { IfOk result
        (λ former. former ≡ get (table_in (get (numbered processes.old) pid)) fd) }
    ensures laid { OnOk result (IsSlotted pid fd given processes.old processes.new
        store.old store.new) }
    ensures processes { OnErr result (processes.new ≡ processes.old) }
    ensures store { OnErr result (store.new ≡ store.old) }
    ensures sure { IsSome room → IsOk result }
    ensures closing { given ≡ None → IsOk result }
{
    let former = processes.reslot(pid, fd, given, room)?;
    count_slot(store, &given, &former);
    Ok(former)
}

/// Counts a slot that gives this from now on, in the place of what it gave.
pub(crate) fn count_slot(store: &mut Store, given: &Option<Num>, former: &Option<Num>)
    ensures { (mid : Numbers) × AreHeld (IsOneMore given.now) store.old mid
        × AreHeld (IsOneLess former.now) mid store.new }
{
    count_more(store, given);
    count_less(store, former);
}

impl Processes {
    // The changes of one process's slots are laid on its table; what it gave before stands in the place
    // of the changes.
    fn lay(&mut self, pid: Pid, patch: &mut SlotPatch, room: SlotRoom)
        requires room { (f : ℕ) → get patch.old f ≢ None → HasRoom room f }
        requires living { entries patch.old ≢ [] → get (numbered self.old) pid ≢ None }
        ensures here { get (numbered self.new) pid
            ≡ reslotted (Some patch.old) (get (numbered self.old) pid) }
        ensures others { (q : ℕ) → q ≢ pid
            → get (numbered self.new) q ≡ get (numbered self.old) q }
        ensures count { length self.new.list ≡ length self.old.list }
        ensures bounds { self.new.bounds ≡ self.old.bounds }
        ensures few { length self.old.list < 2 ^ 64 }
        ensures former { IsFormer patch.old (table_in (get (numbered self.old) pid)) patch.new }
    {
        let number = pid.0 as usize;
        if 0 < number && number <= self.list.len() {
            if let Some(process) = &mut self.list[number - 1] {
                patch.lay_on(&mut process.table, room);
            }
        }
    }

    /// One slot of a process gives this from now on, in this room, or else in memory that is asked for;
    /// what it gave is answered. Refused memory changes nothing.
    pub(crate) fn reslot(
        &mut self,
        pid: Pid,
        fd: Fd,
        given: Option<Num>,
        room: Option<SlotRoom>,
    ) -> Result<Option<Num>, AllocError>
        requires pid { get (numbered self.old) pid ≢ None }
        requires fd { fd < DESCRIPTORS }
        requires room { IfSome room (λ r. HasRoom r fd) }
        ensures former { IfOk result
            (λ former. former ≡ get (table_in (get (numbered self.old) pid)) fd) }
        ensures slot { OnOk result (self.new
            ≡ with_process pid (slot_noted fd given (get (numbered self.old) pid)) self.old) }
        ensures err { OnErr result (self.new ≡ self.old) }
        ensures few { length self.old.list < 2 ^ 64 }
        ensures sure { IsSome room → IsOk result }
        ensures closing { given ≡ None → IsOk result }
    {
        let index = pid.0 as usize - 1;
        match &mut self.list[index] {
            Some(process) => give_in(process, fd, given, room),
            None => unreachable!(),
        }
    }
}

// A slot of a process gives this from now on; what it gave is answered.
fn give_in(
    process: &mut Process,
    fd: Fd,
    given: Option<Num>,
    room: Option<SlotRoom>,
) -> Result<Option<Num>, AllocError>
    requires fd { fd < DESCRIPTORS }
    requires room { IfSome room (λ r. HasRoom r fd) }
    ensures former { IfOk result (λ former. former ≡ get process.old.table fd) }
    ensures slot { OnOk result (Some process.new ≡ slot_noted fd given (Some process.old)) }
    ensures err { OnErr result (process.new ≡ process.old) }
    ensures sure { IsSome room → IsOk result }
    ensures closing { given ≡ None → IsOk result }
{
    match (given, room) {
        (None, _) => {
            let former = process.table.get(fd);
            process.table.clear(fd);
            Ok(former)
        }
        (given, Some(room)) => Ok(process.table.set_in(room, fd, given)),
        (given, None) => process.table.set(fd, given),
    }
}

// Counts one slot more that gives this.
fn count_more(store: &mut Store, given: &Option<Num>)
    ensures { AreHeld (IsOneMore given.now) store.old store.new }
{
    if let Some(description) = given {
        // It is always so: all processes together have fewer slots.
        if store.holders(*description) < u128::MAX {
            store.add_holder(*description);
        }
    }
}

// Counts one slot less that gives this.
fn count_less(store: &mut Store, former: &Option<Num>)
    ensures { AreHeld (IsOneLess former.now) store.old store.new }
{
    if let Some(description) = former {
        store.remove_holder(*description);
    }
}
