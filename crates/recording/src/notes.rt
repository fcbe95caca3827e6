// What is noted of a history: the calls of its open transactions, and the records that wait.
ghost use Rattle.std.specs.Prelude.{◌≡◌, ◌≢◌, ◌+◌, ◌^◌, ◌<◌, ◌++◌, [], ℕ, length, true, false};
ghost use Rattle.std.specs.Prelude.{Err, IfOk, IfSome, IsOk, OnErr, OnOk};
ghost use Rattle.history.specs.Log.{Log};
ghost use Rattle.model.specs.Legal.{Legal};
ghost use Rattle.model.specs.Moments.{Moment};
ghost use Rattle.machine.specs.Shown.{limit_of, moment, setup_of};
ghost use Rattle.machine.specs.Steps.{with_entry};
ghost use Rattle.redo_records.specs.Recording.{Follows, HasRoom};
ghost use Rattle.recording.specs.Noted.{AreFaithful, Keep, made_of};
ghost use Rattle.recording.specs.Recorded.{AreRest, records_of};
ghost use Rattle.recording.specs.declared.notes.TakeFault.TheVariants.{Lost, OutOfStep};

use crate::share::{is_look, share};
use heap::Heap;
use ids::{Entry, Op, Pid};
use redo_records::{Record, Recorder, Standing};
use std::alloc::AllocError;
use std::mem::replace;
use thiserror::Error;

/// Why no records are handed out.
#[derive(Clone, Copy, Debug, PartialEq, Eq, Error)]
pub enum TakeFault {
    /// The caller has taken another number of records before than were handed out.
    #[error("another number of records was taken before")]
    OutOfStep,
    /// Memory was refused for a record once, and from then on none is kept.
    #[error("a record was lost, since memory was refused")]
    Lost,
    /// Memory was refused for the records to come. Those that wait still do.
    #[error("memory was refused")]
    NoMemory,
}

// A record behind those that wait, if there is one. Refused memory loses it.
fn add(waiting: &mut Vec<Record, Heap>, made: Option<Record>) -> Result<(), AllocError>
    ensures { OnOk result (waiting.new.items ≡ waiting.old.items ++ made_of made) }
{
    if let Some(record) = made {
        waiting.push(record)?;
    }
    Ok(())
}

// Notes an entry, made behind those that were noted. `op` is a copy of its operation, where there is one.
// Refused memory loses it.
fn note_entry(
    recorder: &mut Recorder,
    waiting: &mut Vec<Record, Heap>,
    op: Option<Op>,
    entry: &Entry,
) -> Result<(), AllocError>
    requires room { HasRoom recorder.old entry.now.pid entry.now.op }
    requires copy { IfSome op (λ op. op ≡ entry.now.op) }
    ensures { OnOk result ((old new : Log) (taken : ℕ) → Follows (moment old) recorder.old
        → AreRest old taken waiting.old.items → new ≡ with_entry old entry.now
        → Legal 0 (setup_of new) (limit_of new) new.entries
        → Follows (moment new) recorder.new × AreRest new taken waiting.new.items) }
{
    let made = recorder.note(op, entry)?;
    add(waiting, made)
}

// What is noted of a history.
#[derive(Drop)]
pub(crate) struct Notes {
    pub(crate) heap: Heap,
    pub(crate) recorder: Recorder,
    // The records that nobody has taken.
    pub(crate) waiting: Vec<Record, Heap>,
    // How many were taken.
    pub(crate) taken: u64,
    // Whether memory for a record was refused behind the step of its entry. Then nothing is noted.
    pub(crate) lost: bool,
}

impl Notes {
    // Of a history with no entry. They take no memory.
    pub(crate) fn new(heap: Heap) -> Notes
        ensures keep { (log : Log) → log.entries ≡ [] → Keep log result }
        ensures taken { result.taken ≡ 0 }
        ensures lost { result.lost ≡ false }
    {
        let recorder = Recorder::new(heap);
        let waiting = Vec::new(heap);
        Notes {
            heap,
            recorder,
            waiting,
            taken: 0,
            lost: false,
        }
    }

    // For how many records there is to be room, so that each open transaction can end, and one more
    // entry be noted. Contracts do not know it.
    fn room(&self) -> usize {
        self.recorder.followed().saturating_add(1)
    }

    // Makes room for the record of a process that is in no transaction, or of the transaction that it
    // begins. Refused memory changes nothing that is kept.
    fn make_room(&mut self, pid: Pid) -> Result<(), AllocError>
        ensures recorder { self.new.recorder ≡ self.old.recorder }
        ensures waiting { self.new.waiting.items ≡ self.old.waiting.items }
        ensures taken { self.new.taken ≡ self.old.taken }
        ensures lost { self.new.lost ≡ self.old.lost }
    {
        if self.recorder.standing(pid) != Standing::Idle {
            return Ok(());
        }
        let room = self.room();
        self.waiting.reserve(room)
    }

    // Asks for the memory that an operation may need to be noted, which needs so many places of the
    // history, and copies it. What needs no place is not refused, and not copied, nor is a call that
    // only looks. Refused memory changes nothing that is kept.
    pub(crate) fn ask(
        &mut self,
        pid: Pid,
        op: &mut Op,
        needed: usize,
    ) -> Result<Option<Op>, AllocError>
        requires { needed ≡ 0 → HasRoom self.old.recorder pid op.old }
        ensures follows { (m : Moment) → Follows m self.old.recorder → Follows m self.new.recorder }
        ensures waiting { self.new.waiting.items ≡ self.old.waiting.items }
        ensures taken { self.new.taken ≡ self.old.taken }
        ensures lost { self.new.lost ≡ self.old.lost }
        ensures op { op.new ≡ op.old }
        ensures copy { IfOk result (λ copy. IfSome copy (λ copy. copy ≡ op.new)) }
        ensures room { OnOk result (HasRoom self.new.recorder pid op.new) }
        ensures err { OnErr result (needed ≢ 0) }
    {
        if needed == 0 || is_look(op) {
            self.recorder.reserve(pid, op)?;
            return Ok(None);
        }
        share(self.heap, op);
        self.make_room(pid)?;
        self.recorder.reserve(pid, op)?;
        Ok(Some(op.try_clone()?))
    }

    // Notes an entry, made behind those that were noted. `op` is a copy of its operation, where there is
    // one. Where memory for it is refused, something is lost.
    pub(crate) fn note(&mut self, op: Option<Op>, entry: &Entry)
        requires room { HasRoom self.old.recorder entry.now.pid entry.now.op }
        requires copy { IfSome op (λ op. op ≡ entry.now.op) }
        ensures faithful { (old new : Log) → Keep old self.old → new ≡ with_entry old entry.now
            → Legal 0 (setup_of new) (limit_of new) new.entries → AreFaithful new self.new }
        ensures taken { self.new.taken ≡ self.old.taken }
    {
        let noted = note_entry(&mut self.recorder, &mut self.waiting, op, entry);
        self.lost = noted.is_err();
    }

    // Hands out the records that wait, behind the first so many. Each fault leaves all as it was.
    pub(crate) fn take(&mut self, taken: u64) -> Result<Vec<Record, Heap>, TakeFault>
        requires { self.old.lost ≡ false
            → self.old.taken + length self.old.waiting.items < 2 ^ 64 }
        ensures rest { IfOk result (λ records. (log : Log) → Keep log self.old
            → AreRest log taken records.items) }
        ensures keep { (log : Log) → Keep log self.old → Keep log self.new }
        ensures taken { OnOk result ((log : Log) → Keep log self.old
            → self.new.taken ≡ length (records_of log)) }
        ensures step { OnOk result (taken ≡ self.old.taken) }
        ensures there { OnOk result (self.old.lost ≡ false) }
        ensures lost { self.new.lost ≡ self.old.lost }
        ensures err { OnErr result (self.new ≡ self.old) }
        ensures out_of_step { result ≡ Err OutOfStep → taken ≢ self.old.taken }
        ensures is_lost { result ≡ Err Lost → self.old.lost ≡ true }
    {
        let lost = self.lost;
        if lost {
            return Err(TakeFault::Lost);
        }
        if taken != self.taken {
            return Err(TakeFault::OutOfStep);
        }
        let Ok(room) = Vec::with_capacity(self.heap, self.room()) else {
            return Err(TakeFault::NoMemory);
        };
        let records = replace(&mut self.waiting, room);
        let all = taken + records.len() as u64;
        self.taken = all;
        Ok(records)
    }
}
