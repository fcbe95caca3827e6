// A store, and what it takes of a machine.
ghost use Rattle.std.specs.Prelude.{◌≡◌, ◌≢◌, ◌+◌, ◌<◌, ◌≤◌, ◌++◌, ◌∷◌, [], ℕ, List, length};
ghost use Rattle.std.specs.Prelude.{Err, IfErr, IfOk, OnErr, OnOk, true};
ghost use Rattle.ids.specs.declared.limits.TheConstants.{LARGEST_FILE, MAX_PROCESSES};
ghost use Rattle.machine.specs.Shown.{setup_of};
ghost use Rattle.commit_log.specs.Log.{Stands};
ghost use Rattle.recording.specs.Recorded.{records_of};
ghost use Rattle.store_form.specs.Laws.{told_records};
ghost use Rattle.store_form.specs.Setups.{setup_bytes};
ghost use Rattle.store_form.specs.Stores.{IsStore};
ghost use Rattle.kept.specs.Faults.{IsOfLog, UnlessFailed};
ghost use Rattle.kept.specs.declared.fault.StoreFault.TheVariants.{Lost, NoMemory, OutOfStep};

use crate::bytes::first_bytes;
use crate::fault::StoreFault;
use commit_log::Log;
use heap::Heap;
use ids::{Bounds, Priority};
use machine::Machine;
use recording::Recording;
use redo_records::Record;
use sqlite_disk::Disk;
use std::alloc::Global;
use std::collections::VecDeque;
use store_form::put_setup;

/// A store of one history: a log whose first payload is the setup of its machine, and each further one the
/// bytes of a redo record; and the records that were taken from the machine and are not in the log yet.
#[derive(Drop)]
pub struct Store<D: Disk> {
    pub(crate) heap: Heap,
    pub(crate) alloc: Global,
    pub(crate) log: Log<D>,
    /// Records that were taken, and are not appended, the first one in front.
    pub(crate) waiting: VecDeque<Record, Heap>,
    /// How many records of the machine's history were taken.
    pub(crate) taken: u64,
}

impl<D: Disk> Store<D> {
    ghost use Rattle.history.specs.Log.{Log as History};
    ghost use Rattle.kept.specs.Holds.{Holds, IsUpToDate, LeavesFirst};

    // Appends the first of the records that wait, of which there is one. Refused memory changes nothing.
    fn append_first(&mut self) -> Result<(), StoreFault>
        requires { 0 < length self.old.waiting.items }
        ensures appended { OnOk result ((history : History) (kept appended : List (List ℕ))
            → Holds self.old history kept appended
            → (more : List (List ℕ)) × Holds self.new history kept (appended ++ more)) }
        ensures crash { (history : History) (kept appended : List (List ℕ))
            → Holds self.old history kept appended → LeavesFirst self.new history kept appended }
        ensures fewer { OnOk result
            (length self.new.waiting.items + 1 ≡ length self.old.waiting.items) }
        ensures taken { self.new.taken ≡ self.old.taken }
        ensures memory { result ≡ Err NoMemory → self.new ≡ self.old }
        ensures fault { IfErr result IsOfLog }
    {
        let bytes = first_bytes(self.heap, &self.waiting)?;
        self.log.append(self.alloc, bytes.as_slice())?;
        drop(self.waiting.pop_front());
        Ok(())
    }

    // Appends all records that wait. What cannot be appended waits.
    fn append_waiting(&mut self) -> Result<(), StoreFault>
        ensures appended { UnlessFailed result ((history : History) (kept appended : List (List ℕ))
            → Holds self.old history kept appended
            → (more : List (List ℕ)) × Holds self.new history kept (appended ++ more)) }
        ensures none { OnOk result (self.new.waiting.items ≡ []) }
        ensures crash { (history : History) (kept appended : List (List ℕ))
            → Holds self.old history kept appended → LeavesFirst self.new history kept appended }
        ensures taken { self.new.taken ≡ self.old.taken }
        ensures fault { IfErr result IsOfLog }
    {
        while !self.waiting.is_empty() {
            self.append_first()?;
        }
        Ok(())
    }

    // Takes what the machine has committed since, where none waits. After a fault all is as it was.
    fn take<M: Machine>(&mut self, machine: &mut Recording<M>) -> Result<(), StoreFault>
        requires { self.old.waiting.items ≡ [] }
        ensures holds { OnOk result ((kept appended : List (List ℕ))
            → Holds self.old machine.old.shown.log kept appended
            → Holds self.new machine.old.shown.log kept appended) }
        ensures all { OnOk result (self.new.taken ≡ length (records_of machine.old.shown.log)) }
        ensures shown { machine.new.shown ≡ machine.old.shown }
        ensures log { self.new.log ≡ self.old.log }
        ensures err { OnErr result (self.new ≡ self.old) }
        ensures lost { result ≡ Err Lost → machine.old.lost ≡ true }
        ensures out_of_step { result ≡ Err OutOfStep → self.old.taken ≢ machine.old.taken }
    {
        let records = machine.take(self.taken)?;
        self.waiting = VecDeque::from(records);
        self.taken = machine.taken();
        Ok(())
    }

    /// Appends what the machine has committed since the last call, each record behind the others. It is
    /// not kept yet: a crash may lose it until [`Store::keep`] has returned `Ok`.
    ///
    /// `NoMemory`: memory was refused; what is not appended waits, and can be appended later. `Lost`: the
    /// machine has lost a record; all before it is appended. `OutOfStep`: its records were taken by
    /// another. `Log`: the log has failed; after a failure of the disk nothing more is asked of it, and each
    /// later call answers the same.
    pub fn flush<M: Machine>(&mut self, machine: &mut Recording<M>) -> Result<(), StoreFault>
        // All that the machine has committed is in the log, or waits where it could not be appended.
        ensures appended { UnlessFailed result ((kept appended : List (List ℕ))
            → Holds self.old machine.old.shown.log kept appended
            → (more : List (List ℕ))
            × Holds self.new machine.old.shown.log kept (appended ++ more)) }
        ensures all { OnOk result (IsUpToDate self.new machine.old.shown.log) }
        // At any result, a crash leaves what was kept, and first records of the others.
        ensures crash { (kept appended : List (List ℕ))
            → Holds self.old machine.old.shown.log kept appended
            → LeavesFirst self.new machine.old.shown.log kept appended }
        ensures shown { machine.new.shown ≡ machine.old.shown }
        ensures lost { result ≡ Err Lost → machine.old.lost ≡ true }
        ensures out_of_step { result ≡ Err OutOfStep → self.old.taken ≢ machine.old.taken }
    {
        self.append_waiting()?;
        self.take(machine)?;
        self.append_waiting()
    }

    /// Does that, and then sees that all of it is on the disk, by one sync, so that no crash loses it. The
    /// errors are those of [`Store::flush`].
    pub fn keep<M: Machine>(&mut self, machine: &mut Recording<M>) -> Result<(), StoreFault>
        // All that the machine has committed is on the disk.
        ensures kept { OnOk result ((kept appended : List (List ℕ))
            → Holds self.old machine.old.shown.log kept appended
            → (more : List (List ℕ))
            × Holds self.new machine.old.shown.log (kept ++ (appended ++ more)) []) }
        ensures all { OnOk result (IsUpToDate self.new machine.old.shown.log) }
        ensures waits { OnErr result (UnlessFailed result ((kept appended : List (List ℕ))
            → Holds self.old machine.old.shown.log kept appended
            → (more : List (List ℕ))
            × Holds self.new machine.old.shown.log kept (appended ++ more))) }
        // At any result, a crash leaves what was kept, and first records of the others.
        ensures crash { (kept appended : List (List ℕ))
            → Holds self.old machine.old.shown.log kept appended
            → LeavesFirst self.new machine.old.shown.log kept appended }
        ensures shown { machine.new.shown ≡ machine.old.shown }
        ensures lost { result ≡ Err Lost → machine.old.lost ≡ true }
        ensures out_of_step { result ≡ Err OutOfStep → self.old.taken ≢ machine.old.taken }
    {
        self.flush(machine)?;
        self.log.keep()?;
        Ok(())
    }
}

impl<D: Disk + Drop> Store<D> {
    ghost use Rattle.history.specs.Log.{Log as History};
    ghost use Rattle.kept.specs.Holds.{Holds, IsUpToDate};

    /// A store of a machine that was given these priorities and bounds, over a log of no records, as
    /// `Log::create` makes one. The setup is on the disk then. None of the machine's records may have been
    /// taken before the first call of [`Store::flush`] or [`Store::keep`].
    ///
    /// `NoMemory`: memory was refused. `Log`: the setup cannot be written. After an error the log is left
    /// as it is, with no record, or with the setup alone.
    pub fn begin(
        heap: Heap,
        alloc: Global,
        log: Log<D>,
        priorities: &[Priority],
        bounds: Bounds,
    ) -> Result<Store<D>, StoreFault>
        requires some { 0 < length priorities.now }
        requires not_too_many { length priorities.now ≤ MAX_PROCESSES }
        requires files { bounds.file_bytes ≤ LARGEST_FILE }
        ensures holds { IfOk result (λ store. (history : History)
            → setup_of history ≡ record { priorities = priorities.now; bounds = bounds }
            → Stands log [] [] → Holds store history (setup_bytes (setup_of history) ∷ []) []) }
        ensures taken { IfOk result (λ store. store.taken ≡ 0) }
    {
        let mut bytes = Vec::new(heap);
        put_setup(priorities, bounds, &mut bytes)?;
        let mut log = log;
        log.append(alloc, bytes.as_slice())?;
        log.keep()?;
        Ok(Store {
            heap,
            alloc,
            log,
            waiting: VecDeque::new(heap),
            taken: 0,
        })
    }

    /// A store over a log whose payloads tell all that a machine has committed, each kept, as
    /// `recovery::reopen` leaves both: the machine has made the calls of the store again. The records of
    /// that are taken from the machine, and dropped.
    ///
    /// `NoMemory`, `Lost`: the records cannot be taken. `Log`: the disk has failed. After an error nothing
    /// is written, and the machine shows what it did.
    pub fn resume<M: Machine>(
        heap: Heap,
        alloc: Global,
        log: Log<D>,
        machine: &mut Recording<M>,
    ) -> Result<Store<D>, StoreFault>
        ensures holds { IfOk result (λ store. (payloads : List (List ℕ)) → Stands log payloads []
            → IsStore (setup_of machine.old.shown.log) payloads
            (told_records (records_of machine.old.shown.log))
            → Holds store machine.old.shown.log payloads []) }
        ensures all { IfOk result (λ store. IsUpToDate store machine.old.shown.log) }
        ensures shown { machine.new.shown ≡ machine.old.shown }
    {
        let made_again = machine.take(machine.taken())?;
        drop(made_again);
        let mut log = log;
        log.keep()?;
        Ok(Store {
            heap,
            alloc,
            log,
            waiting: VecDeque::new(heap),
            taken: machine.taken(),
        })
    }
}
