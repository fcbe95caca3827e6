// A machine over a machine and a disk.
ghost use Rattle.ids.specs.Bounds.{bounds_of, given_by_default};
ghost use Rattle.ids.specs.declared.limits.TheConstants.{LARGEST_FILE, MAX_ENTRIES, MAX_PROCESSES};
ghost use Rattle.std.specs.Prelude.{◌≡◌, ◌≢◌, ◌↔◌, ◌<◌, ◌≤◌, ◌^◌, [], ℕ, List, length, true, false};
ghost use Rattle.std.specs.Prelude.{IfErr, IfOk, IsNone, IsSome, None, OnErr, OnOk, Some};
ghost use Rattle.model.specs.Moments.{is_alive, status};
ghost use Rattle.model.specs.Replies.{needed};
ghost use Rattle.history_laws.specs.Headline.{IsSerializable};
ghost use Rattle.machine.specs.Shown.{Kept as IsLegal, limit_of, moment, setup_of};
ghost use Rattle.machine.specs.Steps.{forgetting, IsStep, Steps};
ghost use Rattle.commit_log.specs.Log.{Stands};
ghost use Rattle.recording.specs.Recorded.{records_of};
ghost use Rattle.store_form.specs.Laws.{told_records};
ghost use Rattle.store_form.specs.Stores.{IsStore};

use crate::fault::StoreFault;
use crate::keeping::Keeping;
use crate::saving::{refused, save};
use crate::store::Store;
use commit_log::Log;
use heap::Heap;
use history::History;
use ids::{Limits, Op, Pid, Priority, Reply};
use machine::Machine;
use recording::Recording;
use sqlite_disk::Disk;
use std::alloc::{AllocError, Global};

/// A machine over a machine and a disk: what it commits goes into a store, if it has one.
///
/// Behind each step what was committed is appended to the store, and what is to wait for the disk
/// ([`Keeping`]) is answered when it is there. Where the store meets a fault, that is remembered, and
/// nothing more is asked of the disk; a crash leaves what was kept before. From then on each call that can
/// change something is refused before it is made, as where memory is refused, unless it may not be refused
/// or the machine has lost a record; ends are made, and are kept in memory alone.
#[derive(Drop)]
pub struct Kept<M: Machine, D: Disk> {
    pub(crate) heap: Heap,
    pub(crate) machine: Recording<M>,
    pub(crate) store: Option<Store<D>>,
    pub(crate) keeping: Keeping,
    pub(crate) fault: Option<StoreFault>,
}

impl<M: Machine, D: Disk + Drop> Kept<M, D> {
    ghost use Rattle.kept.specs.Holds.{Holds};
    ghost use Rattle.kept.specs.Keeps.{IsKept, StandsFor};
    ghost use Rattle.kept.specs.Waiting.{is_change, waits};

    /// A machine with a process for each of these priorities, no names, the bounds where none are given
    /// ([`ids::Bounds::given_by_default`]), and a history that keeps at most `limit` entries, whose
    /// memory it takes at once. It has no store. Refused memory gives nothing.
    pub fn new(heap: Heap, priorities: &[Priority], limit: usize) -> Result<Kept<M, D>, AllocError>
        requires some { 0 < length priorities.now }
        requires not_too_many { length priorities.now ≤ MAX_PROCESSES }
        requires limited { limit ≤ MAX_ENTRIES }
        ensures kept { IfOk result (λ k. IsLegal k.machine.shown) }
        ensures log { IfOk result (λ k. k.machine.shown.log ≡ record {
          entries = [];
          priorities = priorities.now;
          limit = limit;
          forgotten = [];
          bounds = given_by_default;
        }) }
        ensures none { IfOk result (λ k. (k.store ≡ None) × (k.fault ≡ None)) }
    {
        Ok(Kept {
            heap,
            machine: Recording::new(heap, priorities, limit)?,
            store: None,
            keeping: Keeping::Ends,
            fault: None,
        })
    }

    /// The same with these limits: files of at most `limits.file_bytes` bytes, `limits.descriptors`
    /// descriptors in a process, paths of at most `limits.path_bytes` bytes, and a history that keeps at
    /// most `limits.entries` entries. Refused memory gives nothing.
    pub fn with_limits(
        heap: Heap,
        priorities: &[Priority],
        limits: Limits,
    ) -> Result<Kept<M, D>, AllocError>
        requires some { 0 < length priorities.now }
        requires not_too_many { length priorities.now ≤ MAX_PROCESSES }
        requires limited { limits.entries ≤ MAX_ENTRIES }
        requires files { limits.file_bytes ≤ LARGEST_FILE }
        ensures kept { IfOk result (λ k. IsLegal k.machine.shown) }
        ensures log { IfOk result (λ k. k.machine.shown.log ≡ record {
          entries = [];
          priorities = priorities.now;
          limit = limits.entries;
          forgotten = [];
          bounds = bounds_of limits;
        }) }
        ensures none { IfOk result (λ k. (k.store ≡ None) × (k.fault ≡ None)) }
    {
        Ok(Kept {
            heap,
            machine: Recording::with_limits(heap, priorities, limits)?,
            store: None,
            keeping: Keeping::Ends,
            fault: None,
        })
    }

    /// Puts a store to it, of which the machine's history is, in the place of one that it had. It has met no
    /// fault.
    pub fn put_store(&mut self, store: Store<D>, keeping: Keeping)
        ensures stands { (kept appended : List (List ℕ))
            → Holds store self.old.machine.shown.log kept appended
            → StandsFor self.new.fault self.new.store self.new.machine.shown.log kept }
        ensures shown { self.new.machine.shown ≡ self.old.machine.shown }
        ensures fault { self.new.fault ≡ None }
        ensures keeping { self.new.keeping ≡ keeping }
    {
        self.store = Some(store);
        self.keeping = keeping;
        self.fault = None;
    }

    /// Puts a store to it that goes on in this log, whose payloads tell all that the machine has committed,
    /// each kept, as `recovery::reopen` leaves both. It has met no fault. After an error it has the store that it
    /// had; the errors are those of [`Store::resume`].
    pub fn resume(&mut self, alloc: Global, log: Log<D>, keeping: Keeping) -> Result<(), StoreFault>
        ensures stands { OnOk result ((payloads : List (List ℕ)) → Stands log payloads []
            → IsStore (setup_of self.old.machine.shown.log) payloads
            (told_records (records_of self.old.machine.shown.log))
            → StandsFor self.new.fault self.new.store self.new.machine.shown.log payloads) }
        ensures shown { self.new.machine.shown ≡ self.old.machine.shown }
        ensures fault { OnOk result (self.new.fault ≡ None) }
        ensures err { OnErr result (self.new.store ≡ self.old.store) }
    {
        let store = Store::resume(self.heap, alloc, log, &mut self.machine)?;
        self.put_store(store, keeping);
        Ok(())
    }

    /// What the store has met, if it has. From then on it is asked nothing.
    pub fn fault(&self) -> Option<StoreFault>
        ensures { result ≡ self.now.fault }
    {
        self.fault
    }

    /// The history: all entries ever made, of which those that were not forgotten are kept. It is
    /// legal, what it committed is the state, and it is strictly serializable.
    pub fn history(&self) -> &History
        ensures value { result.now ≡ self.now.machine.shown.log }
        ensures kept { IsLegal self.now.machine.shown }
        ensures serial { let s = self.now.machine.shown in
            IsSerializable 0 (setup_of s.log) (limit_of s.log) s.log.entries s.state }
    {
        self.machine.history()
    }

    /// How many processes were ever made: their numbers are 1, 2, and so on.
    pub fn made(&self) -> usize
        ensures { result ≡ self.now.machine.shown.state.made }
    {
        self.machine.made()
    }

    /// How many objects there are, inodes and open descriptions, with those that transactions make.
    /// Contracts do not know it.
    pub fn objects(&self) -> usize {
        self.machine.objects()
    }

    /// Whether there is such a process: it was made and has not ended.
    pub fn is_living(&self, pid: Pid) -> bool
        ensures { result ≡ is_alive self.now.machine.shown.state pid }
    {
        self.machine.is_living(pid)
    }

    /// One operation of one process. HistoryFull and NoMemory change nothing; each other reply is
    /// that of one new entry, and the record that it completes is appended to the store, if there is one.
    pub fn step(&mut self, pid: Pid, op: Op) -> Reply
        ensures kept { IsLegal self.new.machine.shown }
        ensures serial { let s = self.new.machine.shown in
            IsSerializable 0 (setup_of s.log) (limit_of s.log) s.log.entries s.state }
        ensures step { IsStep self.old.machine.shown self.new.machine.shown pid op result }
        // The store goes on standing for the history, and what was kept stays.
        ensures stands { (kept : List (List ℕ))
            → StandsFor self.old.fault self.old.store self.old.machine.shown.log kept
            → StandsFor self.new.fault self.new.store self.new.machine.shown.log kept }
        // All that was committed is on the disk, where that is waited for and no fault is told.
        ensures safe { waits self.old.keeping op ≡ true → IsNone self.new.fault
            → (kept : List (List ℕ))
            → StandsFor self.old.fault self.old.store self.old.machine.shown.log kept
            → IsKept self.new.store self.new.machine.shown.log kept }
        // Behind a fault no call that can change something is made which may be refused.
        ensures refused { IsSome self.old.fault → is_change op ≡ true → self.old.machine.lost ≡ false
            → needed (status (moment self.old.machine.shown.log) pid) op ≢ 0
            → self.new.machine.shown ≡ self.old.machine.shown }
        // Nor is the store asked anything.
        ensures still { IsSome self.old.fault
            → (self.new.store ≡ self.old.store) × (self.new.fault ≡ self.old.fault) }
        ensures keeping { self.new.keeping ≡ self.old.keeping }
    {
        if let Some(reply) = refused(&self.machine, self.fault, pid, &op) {
            drop(op);
            return reply;
        }
        let all = self.keeping.waits(&op);
        let reply = self.machine.step(pid, op);
        save(&mut self.store, &mut self.fault, &mut self.machine, all);
        reply
    }

    /// Steps in a row. Refused memory for the replies means that nothing has run; a later refusal
    /// stands among the replies.
    pub fn run(&mut self, ops: Vec<(Pid, Op), Heap>) -> Result<Vec<Reply, Heap>, AllocError>
        ensures kept { IsLegal self.new.machine.shown }
        ensures serial { let s = self.new.machine.shown in
            IsSerializable 0 (setup_of s.log) (limit_of s.log) s.log.entries s.state }
        ensures steps { IfOk result (λ replies.
            Steps self.old.machine.shown ops.entry.items replies.items self.new.machine.shown) }
        ensures err { OnErr result (self.new ≡ self.old) }
        ensures stands { (kept : List (List ℕ))
            → StandsFor self.old.fault self.old.store self.old.machine.shown.log kept
            → StandsFor self.new.fault self.new.store self.new.machine.shown.log kept }
    {
        // For the proof: what the machine shows is legal.
        let _history = self.machine.history();
        let Ok(mut replies) = Vec::with_capacity(self.heap, ops.len()) else {
            drop(ops);
            return Err(AllocError);
        };
        for (pid, op) in ops {
            let reply = self.step(pid, op);
            drop(replies.push(reply));
        }
        Ok(replies)
    }

    /// Forgets the entries that are kept in memory: their memory is given back, and as many places are free
    /// as if there were none. What is committed and all transactions stand, and so does the store. It takes
    /// no memory. False, and nothing has changed, exactly where 2^63 entries or more would be forgotten then.
    pub fn forget(&mut self) -> bool
        ensures kept { IsLegal self.new.machine.shown }
        ensures exactly { (result ≡ true) ↔ (length self.old.machine.shown.log.entries < 2 ^ 63) }
        ensures yes { result ≡ true → self.new.machine.shown ≡ forgetting self.old.machine.shown }
        ensures no { result ≡ false → self.new.machine.shown ≡ self.old.machine.shown }
        ensures stands { (kept : List (List ℕ))
            → StandsFor self.old.fault self.old.store self.old.machine.shown.log kept
            → StandsFor self.new.fault self.new.store self.new.machine.shown.log kept }
    {
        self.machine.forget()
    }

    /// Sees that all that was committed is on the disk, by one sync, if there is a store. After an error the
    /// fault is told from then on, and nothing more is asked of the disk.
    pub fn sync(&mut self) -> Result<(), StoreFault>
        ensures safe { OnOk result ((kept : List (List ℕ))
            → StandsFor self.old.fault self.old.store self.old.machine.shown.log kept
            → IsKept self.new.store self.new.machine.shown.log kept) }
        ensures stands { (kept : List (List ℕ))
            → StandsFor self.old.fault self.old.store self.old.machine.shown.log kept
            → StandsFor self.new.fault self.new.store self.new.machine.shown.log kept }
        ensures shown { self.new.machine.shown ≡ self.old.machine.shown }
        ensures fault { IfErr result (λ fault. self.new.fault ≡ Some fault) }
        ensures still { IsSome self.old.fault
            → (self.new.store ≡ self.old.store) × (self.new.fault ≡ self.old.fault) }
    {
        save(&mut self.store, &mut self.fault, &mut self.machine, true);
        match self.fault {
            Some(fault) => Err(fault),
            None => Ok(()),
        }
    }
}
