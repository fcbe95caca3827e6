// A machine with its store.
ghost use Rattle.std.specs.Prelude.{◌≡◌, ◌<◌, ◌≤◌, ◌++◌, [], ℕ, List, length, true, OnOk};
ghost use Rattle.ids.specs.declared.limits.TheConstants.{LARGEST_FILE, MAX_ENTRIES, MAX_PROCESSES};
ghost use Rattle.kept.specs.Holds.{Holds, IsUpToDate, LeavesFirst};
ghost use Rattle.store_stream.specs.Waiting.{waits};

use crate::fault::ServeFault;
use commit_log::Log;
use heap::Heap;
use ids::{Limits, Op, Pid, Priority, Reply};
use kept::{Store, StoreFault};
use machine::Machine;
use recording::Recording;
use recovery::Reboot;
use sqlite_disk::Disk;
use std::alloc::Global;
use words::Sync;

/// A machine, and the store of what it commits.
#[derive(Drop)]
pub struct Durable<M: Machine, D: Disk> {
    pub(crate) machine: Recording<M>,
    pub(crate) store: Store<D>,
    // Whether something was appended that need not be on the disk yet.
    pub(crate) behind: bool,
}

// Whether what was committed has to be on the disk before it is answered, where the end of a transaction
// is among it, or none.
fn waits(sync: Sync, has_ended: bool) -> bool
    ensures { result ≡ waits sync has_ended }
{
    match sync {
        Sync::Always => true,
        Sync::Soon => has_ended,
        Sync::Never => false,
    }
}

impl<M: Machine, D: Disk + Drop> Durable<M, D> {
    // A fresh machine, and its store in a log of no records.
    pub(crate) fn begin(
        heap: Heap,
        alloc: Global,
        log: Log<D>,
        priorities: &[Priority],
        limits: Limits,
    ) -> Result<Durable<M, D>, ServeFault>
        requires some { 0 < length priorities.now }
        requires not_too_many { length priorities.now ≤ MAX_PROCESSES }
        requires limited { limits.entries ≤ MAX_ENTRIES }
        requires files { limits.file_bytes ≤ LARGEST_FILE }
    {
        let machine = Recording::with_limits(heap, priorities, limits)?;
        let store = Store::begin(heap, alloc, log, priorities, limits.bounds())?;
        Ok(Durable {
            machine,
            store,
            behind: false,
        })
    }

    // Has all that was committed in the log, and on the disk, where that is to be before an answer.
    pub(crate) fn settle(&mut self, sync: Sync, has_ended: bool) -> Result<(), StoreFault>
        ensures all { OnOk result (IsUpToDate self.new.store self.old.machine.shown.log) }
        ensures kept { waits sync has_ended ≡ true → OnOk result ((kept appended : List (List ℕ))
            → Holds self.old.store self.old.machine.shown.log kept appended
            → (more : List (List ℕ))
            × Holds self.new.store self.old.machine.shown.log (kept ++ (appended ++ more)) []) }
        ensures crash { (kept appended : List (List ℕ))
            → Holds self.old.store self.old.machine.shown.log kept appended
            → LeavesFirst self.new.store self.old.machine.shown.log kept appended }
        ensures shown { self.new.machine.shown ≡ self.old.machine.shown }
    {
        let now = waits(sync, has_ended);
        self.behind = !now;
        if now {
            return self.store.keep(&mut self.machine);
        }
        self.store.flush(&mut self.machine)
    }

    // Has all that was committed on the disk, but where that is left to the system.
    pub(crate) fn rest(&mut self, sync: Sync) -> Result<(), StoreFault>
        ensures shown { self.new.machine.shown ≡ self.old.machine.shown }
    {
        if self.behind && sync != Sync::Never {
            self.behind = false;
            return self.store.keep(&mut self.machine);
        }
        Ok(())
    }

    // Closes what the processes had open when the store was left.
    pub(crate) fn reboot(&mut self, descriptors: u32) -> Result<(), StoreFault> {
        let first = u32::try_from(self.machine.history().priorities().len()).unwrap_or(u32::MAX);
        let made = u32::try_from(self.machine.made()).unwrap_or(u32::MAX);
        let mut calls = Reboot::new(first, made, descriptors);
        for _ in 0..u64::MAX {
            let Some((pid, call)) = calls.next_call() else {
                return Ok(());
            };
            self.make(pid, Op::Call(call))?;
        }
        Ok(())
    }

    // Makes a call, of which the answer matters to nobody.
    fn make(&mut self, pid: Pid, op: Op) -> Result<(), StoreFault> {
        self.machine.forget();
        let reply = self.machine.step(pid, op);
        if matches!(&reply, Reply::NoMemory) {
            return Err(StoreFault::NoMemory);
        }
        self.behind = true;
        self.store.flush(&mut self.machine)
    }
}
