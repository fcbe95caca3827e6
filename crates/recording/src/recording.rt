// A machine over a machine, and the records of what it commits.
ghost use Rattle.ids.specs.Bounds.{bounds_of, given_by_default};
ghost use Rattle.ids.specs.declared.limits.TheConstants.{LARGEST_FILE, MAX_ENTRIES, MAX_PROCESSES};
ghost use Rattle.std.specs.Prelude.{◌≡◌, ◌≢◌, ◌↔◌, ◌<◌, ◌≤◌, ◌^◌, [], length, true, false};
ghost use Rattle.std.specs.Prelude.{Err, IfOk, IfSome, None, OnErr, OnOk};
ghost use Rattle.model.specs.Moments.{is_alive, status};
ghost use Rattle.model.specs.Replies.{needed};
ghost use Rattle.history_laws.specs.Headline.{IsSerializable};
ghost use Rattle.machine.specs.Shown.{Kept, limit_of, moment, setup_of};
ghost use Rattle.machine.specs.Steps.{forgetting, is_no_entry, IsStep, Steps};
ghost use Rattle.recording.specs.Recorded.{AreRest, records_of};
ghost use Rattle.recording.specs.declared.notes.TakeFault.TheVariants.{Lost, OutOfStep};

use crate::asking::{needed, refusal};
use crate::notes::{Notes, TakeFault};
use crate::stepping::step;
use heap::Heap;
use history::History;
use ids::{Limits, Op, Pid, Priority, Reply};
use machine::Machine;
use redo_records::Record;
use std::alloc::AllocError;
use std::marker::Model;

/// A machine over a machine, which keeps the redo records of what that commits until they are taken.
///
/// Contracts see what the machine below shows, how many records were taken, and whether some were lost.
pub struct Recording<M: Machine> {
    heap: Heap,
    machine: M,
    notes: Notes,
}

impl<M: Machine> Drop for Recording<M> {
    fn drop(self) {
        let Recording {
            heap: _,
            machine: _,
            notes: _,
        } = self;
    }
}

impl<M: Machine> Model for Recording<M> {
    ghost use Rattle.recording.specs.Noted.{IsRecorded};
    ghost use Rattle.recording.specs.Recorded.{Recorded};

    ghost Value = { Recorded };

    ghost view = { λ r. record {
      shown = M.shown r.machine;
      taken = r.notes.taken;
      lost = r.notes.lost;
    } };

    ghost invariant = { λ r. IsRecorded (M.shown r.machine) r.notes };
}

impl<M: Machine> Recording<M> {
    /// A machine with a process for each of these priorities, no names, the bounds where none are given
    /// ([`ids::Bounds::given_by_default`]), and a history that keeps at most `limit` entries, whose
    /// memory it takes at once. No record waits. Refused memory gives nothing.
    pub fn new(
        heap: Heap,
        priorities: &[Priority],
        limit: usize,
    ) -> Result<Recording<M>, AllocError>
        requires some { 0 < length priorities.now }
        requires not_too_many { length priorities.now ≤ MAX_PROCESSES }
        requires limited { limit ≤ MAX_ENTRIES }
        ensures kept { IfOk result (λ r. Kept r.shown) }
        ensures log { IfOk result (λ r. r.shown.log ≡ record {
          entries = [];
          priorities = priorities.now;
          limit = limit;
          forgotten = [];
          bounds = given_by_default;
        }) }
        ensures taken { IfOk result (λ r. r.taken ≡ 0) }
        ensures lost { IfOk result (λ r. r.lost ≡ false) }
    {
        let machine = M::new(heap, priorities, limit)?;
        let notes = Notes::new(heap);
        Ok(Recording {
            heap,
            machine,
            notes,
        })
    }

    /// The same with these limits: files of at most `limits.file_bytes` bytes, `limits.descriptors`
    /// descriptors in a process, paths of at most `limits.path_bytes` bytes, and a history that keeps at
    /// most `limits.entries` entries. Refused memory gives nothing.
    pub fn with_limits(
        heap: Heap,
        priorities: &[Priority],
        limits: Limits,
    ) -> Result<Recording<M>, AllocError>
        requires some { 0 < length priorities.now }
        requires not_too_many { length priorities.now ≤ MAX_PROCESSES }
        requires limited { limits.entries ≤ MAX_ENTRIES }
        requires files { limits.file_bytes ≤ LARGEST_FILE }
        ensures kept { IfOk result (λ r. Kept r.shown) }
        ensures log { IfOk result (λ r. r.shown.log ≡ record {
          entries = [];
          priorities = priorities.now;
          limit = limits.entries;
          forgotten = [];
          bounds = bounds_of limits;
        }) }
        ensures taken { IfOk result (λ r. r.taken ≡ 0) }
        ensures lost { IfOk result (λ r. r.lost ≡ false) }
    {
        let machine = M::with_limits(heap, priorities, limits)?;
        let notes = Notes::new(heap);
        Ok(Recording {
            heap,
            machine,
            notes,
        })
    }

    /// The history: all entries ever made, of which those that were not forgotten are kept. It is
    /// legal, what it committed is the state, and it is strictly serializable.
    pub fn history(&self) -> &History
        ensures value { result.now ≡ self.now.shown.log }
        ensures kept { Kept self.now.shown }
        ensures serial { let s = self.now.shown in
            IsSerializable 0 (setup_of s.log) (limit_of s.log) s.log.entries s.state }
    {
        self.machine.history()
    }

    /// How many processes were ever made: their numbers are 1, 2, and so on.
    pub fn made(&self) -> usize
        ensures { result ≡ self.now.shown.state.made }
    {
        self.machine.made()
    }

    /// How many objects there are, inodes and open descriptions, with those that transactions make.
    /// Contracts do not know it.
    pub fn objects(&self) -> usize {
        self.machine.objects()
    }

    /// Whether there is such a process: it was made and has not ended.
    pub fn is_living(&self, pid: Pid) -> bool
        ensures { result ≡ is_alive self.now.shown.state pid }
    {
        self.machine.is_living(pid)
    }

    /// How many records of the history were taken.
    pub fn taken(&self) -> u64
        ensures { result ≡ self.now.taken }
    {
        self.notes.taken
    }

    /// Whether memory for a record was refused behind the step of its entry. From then on no record is
    /// kept, and none is handed out.
    pub fn is_lost(&self) -> bool
        ensures { result ≡ self.now.lost }
    {
        self.notes.lost
    }

    /// What an operation is answered that is not to be made, as where memory for it is refused:
    /// HistoryFull where its places of the history are missing too, else NoMemory. None where it may not be
    /// refused, since it needs no place; and where a record was lost, since then it is not known.
    pub fn refusal(&self, pid: Pid, op: &Op) -> Option<Reply>
        // Answered so, it is a step that changes nothing.
        ensures step { IfSome result (λ reply. Kept self.now.shown
            × IsStep self.now.shown self.now.shown pid op.now reply × (is_no_entry reply ≡ true)) }
        ensures none { result ≡ None → self.now.lost ≡ false
            → needed (status (moment self.now.shown.log) pid) op.now ≡ 0 }
    {
        let lost = self.notes.lost;
        if lost {
            return None;
        }
        let places = needed(&self.machine, &self.notes.recorder, pid, op);
        if places == 0 {
            return None;
        }
        Some(refusal(&self.machine, &self.notes.recorder, places))
    }

    /// One operation of one process. HistoryFull and NoMemory change nothing; each other reply is
    /// that of one new entry, of which the record waits from then on, if it completes one.
    pub fn step(&mut self, pid: Pid, op: Op) -> Reply
        ensures kept { Kept self.new.shown }
        ensures serial { let s = self.new.shown in
            IsSerializable 0 (setup_of s.log) (limit_of s.log) s.log.entries s.state }
        ensures step { IsStep self.old.shown self.new.shown pid op result }
        ensures taken { self.new.taken ≡ self.old.taken }
    {
        step(&mut self.machine, &mut self.notes, pid, op)
    }

    /// Steps in a row. Refused memory for the replies means that nothing has run; a later refusal
    /// stands among the replies.
    pub fn run(&mut self, ops: Vec<(Pid, Op), Heap>) -> Result<Vec<Reply, Heap>, AllocError>
        ensures kept { Kept self.new.shown }
        ensures serial { let s = self.new.shown in
            IsSerializable 0 (setup_of s.log) (limit_of s.log) s.log.entries s.state }
        ensures steps { IfOk result (λ replies.
            Steps self.old.shown ops.entry.items replies.items self.new.shown) }
        ensures err { OnErr result (self.new ≡ self.old) }
        ensures taken { self.new.taken ≡ self.old.taken }
    {
        let Ok(mut replies) = Vec::with_capacity(self.heap, ops.len()) else {
            drop(ops);
            return Err(AllocError);
        };
        for (pid, op) in ops {
            let reply = self.step(pid, op);
            drop(replies.push(reply));
        }
        Ok(replies)
    }

    /// Forgets the entries that are kept: their memory is given back, and as many places are free
    /// as if there were none. What is committed and all transactions stand, and so do the records that
    /// wait. It takes no memory. False, and nothing has changed, exactly where 2^63 entries or more
    /// would be forgotten then.
    pub fn forget(&mut self) -> bool
        ensures kept { Kept self.new.shown }
        ensures exactly { (result ≡ true) ↔ (length self.old.shown.log.entries < 2 ^ 63) }
        ensures yes { result ≡ true → self.new.shown ≡ forgetting self.old.shown }
        ensures no { result ≡ false → self.new.shown ≡ self.old.shown }
        ensures taken { self.new.taken ≡ self.old.taken }
        ensures lost { self.new.lost ≡ self.old.lost }
    {
        self.machine.forget()
    }

    /// Hands out the records that wait: all of the history behind the first `taken`, as many as the
    /// caller has taken before. It changes nothing else. After a fault all is as it was.
    pub fn take(&mut self, taken: u64) -> Result<Vec<Record, Heap>, TakeFault>
        ensures rest { IfOk result (λ records. AreRest self.old.shown.log taken records.items) }
        ensures taken { OnOk result (self.new.taken ≡ length (records_of self.old.shown.log)) }
        ensures step { OnOk result (taken ≡ self.old.taken) }
        ensures there { OnOk result (self.old.lost ≡ false) }
        ensures shown { self.new.shown ≡ self.old.shown }
        ensures lost { self.new.lost ≡ self.old.lost }
        ensures err { OnErr result (self.new ≡ self.old) }
        ensures out_of_step { result ≡ Err OutOfStep → taken ≢ self.old.taken }
        ensures is_lost { result ≡ Err Lost → self.old.lost ≡ true }
    {
        // For the proof: there are no more entries, and so records, than can be counted.
        let _count = self.machine.history().count();
        self.notes.take(taken)
    }
}
