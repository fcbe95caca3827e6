// What a transaction has changed of the descriptors of processes.
ghost use Rattle.std.specs.Prelude.{◌≡◌, ◌≢◌, ◌<◌, ◌==◌, [], ℕ, None, Option, IfOk, IfSome, IsOk};
ghost use Rattle.std.specs.Prelude.{IsSome, OnErr, OnOk, count_by, option_copied};
ghost use Rattle.model.specs.FiniteMap.{entries, get, insert, values};
ghost use Rattle.ids.specs.declared.limits.TheConstants.{DESCRIPTORS};
ghost use Rattle.model.specs.State.{Process};
ghost use Rattle.model.specs.Changes.{or_new};
ghost use Rattle.fdtable.specs.Lowest.{IsLowest};
ghost use Rattle.fdtable.specs.Pages.{HasRoom};
ghost use Rattle.fdtable.specs.Patches.{or_before};
ghost use Rattle.notes.specs.Patches.{kept_at, reslotted};
ghost use Rattle.notes.specs.Openings.{AreOnce, AreRoomy, AtSlots, SameSlots};

use fdtable::{FdTable, SlotPatch, SlotPlace, SlotRoom};
use heap::Heap;
use ids::{Fd, Num, Pid};
use std::alloc::AllocError;
use std::marker::Model;

/// The changes of the descriptors of all processes; a transaction changes those of its own. For each
/// there is room in the process's table, so that a commit takes no memory.
pub struct Slots {
    /// The number of each process with what is changed of its descriptors; each stands once.
    pub each: Vec<(Pid, SlotPatch), Heap>,
    // The room for what is changed, at the same places; behind them may be more.
    rooms: Vec<SlotRoom, Heap>,
}

impl Drop for Slots {
    fn drop(self) {
        let Slots { each: _, rooms: _ } = self;
    }
}

impl Model for Slots {
    ghost use Rattle.std.specs.Prelude.{ℕ, List};
    ghost use Rattle.fdtable.specs.Patches.{Given};
    ghost use Rattle.notes.specs.Openings.{AreOnce, AreRoomy};

    ghost Value = { List (ℕ × Given) };

    ghost view = { λ s. s.each.items };

    ghost invariant = { λ s. AreOnce s.each.items × AreRoomy s.each.items s.rooms.items };
}

impl Slots {
    /// Nothing is changed. It takes no memory.
    pub(crate) fn new(heap: Heap) -> Slots
        ensures { result ≡ [] }
    {
        Slots {
            each: Vec::new(heap),
            rooms: Vec::new(heap),
        }
    }

    /// What is changed of a process's descriptors, where something may be. It takes no memory.
    pub(crate) fn get(&self, pid: Pid) -> Option<&SlotPatch>
        ensures { option_copied result ≡ kept_at self.now pid }
    {
        find(self.each.as_slice(), pid)
    }

    /// The changes, each process once, and the room that there is for them. It takes no memory.
    pub fn into_parts(self) -> (Vec<(Pid, SlotPatch), Heap>, Vec<SlotRoom, Heap>)
        ensures each { result.0.items ≡ self }
        ensures once { AreOnce result.0.items }
        ensures rooms { AreRoomy result.0.items result.1.items }
    {
        let Slots { each, rooms } = self;
        (each, rooms)
    }

    /// A process's open descriptors now, rising, by those in the committed state (none where there is
    /// no such process there). Refused memory gives nothing.
    pub fn entries_over(
        &self,
        heap: Heap,
        pid: Pid,
        stored: &FdTable,
    ) -> Result<Vec<(Fd, Num), Heap>, AllocError>
        ensures { IfOk result (λ list. (o : Option Process) → (or_new o).table ≡ stored.now
            → list.items ≡ entries (or_new (reslotted (kept_at self.now pid) o)).table) }
    {
        match self.get(pid) {
            Some(patch) => patch.entries_over(heap, stored),
            None => stored.entries(heap),
        }
    }

    /// How many of a process's descriptors are open on a description now, by those in the committed
    /// state. It takes no memory.
    pub fn count_over(&self, pid: Pid, stored: &FdTable, description: Num) -> usize
        ensures { (o : Option Process) → (or_new o).table ≡ stored.now
            → result ≡ count_by (λ d. d == description)
            (values (or_new (reslotted (kept_at self.now pid) o)).table) }
    {
        match self.get(pid) {
            Some(patch) => patch.count_over(stored, description),
            None => stored.count(description),
        }
    }

    /// The lowest free descriptor of a process below a limit, from this one on, by those in the
    /// committed state; `None` where none is. It takes no memory.
    pub fn lowest_over(&self, pid: Pid, stored: &FdTable, first: Fd, limit: u32) -> Option<Fd>
        ensures { (o : Option Process) → (or_new o).table ≡ stored.now
            → IsLowest (or_new (reslotted (kept_at self.now pid) o)).table first limit result }
    {
        match self.get(pid) {
            Some(patch) => patch.lowest_over(stored, first, limit),
            None => stored.lowest_from(first, limit),
        }
    }

    /// The description that a descriptor of a process gives now, by the one in the committed state;
    /// `None` where it is not open. It takes no memory, and no longer where more is open or changed.
    pub fn given(&self, pid: Pid, fd: Fd, stored: Option<Num>) -> Option<Num>
        ensures { (o : Option Process) → get (or_new o).table fd ≡ stored
            → result ≡ get (or_new (reslotted (kept_at self.now pid) o)).table fd }
    {
        match self.get(pid) {
            Some(patch) => or_before(patch.get(fd), stored),
            None => stored,
        }
    }

    /// Makes a place for what will be changed of a process's descriptors. Refused memory changes
    /// nothing.
    pub(crate) fn make_place(&mut self, pid: Pid) -> Result<(), AllocError>
        ensures same { SameSlots self.old self.new }
        ensures ok { OnOk result (kept_at self.new pid ≢ None) }
    {
        if self.get(pid).is_some() {
            return Ok(());
        }
        let heap = *self.each.allocator();
        self.rooms.push(SlotRoom::new(heap))?;
        self.each.push((pid, SlotPatch::new(heap)))?;
        Ok(())
    }

    /// Notes what a descriptor is open on now, or that it was closed, in the place of its process.
    /// Refused memory changes nothing; it is asked for where there is no place for the descriptor.
    pub(crate) fn note(
        &mut self,
        pid: Pid,
        fd: Fd,
        given: Option<Num>,
        place: Option<SlotPlace>,
    ) -> Result<(), AllocError>
        requires place { kept_at self.old pid ≢ None }
        requires small { fd < DESCRIPTORS }
        requires fits { IfSome place (λ p. p ≡ fd) }
        ensures ok { OnOk result (AtSlots pid fd given self.old self.new) }
        ensures err { OnErr result (self.new ≡ self.old) }
        ensures sure { IsSome place → IsOk result }
    {
        for i in 0..self.each.len() {
            if self.each[i].0 == pid {
                return note_at(&mut self.each[i].1, &mut self.rooms[i], fd, given, place);
            }
        }
        unreachable!()
    }
}

// Notes what a descriptor is open on now, in its place, or else in memory that is asked for.
fn note_at(
    patch: &mut SlotPatch,
    room: &mut SlotRoom,
    fd: Fd,
    given: Option<Num>,
    place: Option<SlotPlace>,
) -> Result<(), AllocError>
    requires small { fd < DESCRIPTORS }
    requires fits { IfSome place (λ p. p ≡ fd) }
    ensures ok { OnOk result (patch.new ≡ insert patch.old fd given) }
    ensures room { OnOk result (HasRoom room.new fd) }
    ensures kept { (f : ℕ) → HasRoom room.old f → HasRoom room.new f }
    ensures err { OnErr result (patch.new ≡ patch.old) }
    ensures sure { IsSome place → IsOk result }
{
    match place {
        Some(place) => {
            patch.note_in(room, place, given);
            Ok(())
        }
        None => patch.note(room, fd, given),
    }
}

// What a descriptor gives by what is noted of it, or else as before.
fn or_before(noted: Option<Option<Num>>, stored: Option<Num>) -> Option<Num>
    ensures { result ≡ or_before noted stored }
{
    match noted {
        Some(given) => given,
        None => stored,
    }
}

// The changes of one process's descriptors.
fn find(each: &[(Pid, SlotPatch)], pid: Pid) -> Option<&SlotPatch>
    ensures { option_copied result ≡ kept_at each.now pid }
{
    for (of, patch) in each {
        if *of == pid {
            return Some(patch);
        }
    }
    None
}
