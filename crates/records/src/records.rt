// All touches of all live transactions.
ghost use Rattle.std.specs.Prelude.{◌≡◌, ◌≢◌, ℕ, ◌-◌, ◌<◌, ◌++◌, ◌∷◌, [], false, length};
ghost use Rattle.std.specs.Prelude.{take, set, IfOk, OnOk, OnErr};
ghost use Rattle.records.specs.Holders.{AreHolders};
ghost use Rattle.records.specs.Index.{IsIndexed, ListsWritten};
ghost use Rattle.records.specs.Touches.{touched_by, with_touch, with_touches};

use crate::holders::collect;
use crate::index::{Index, clear, enter, is_filled_by, leave};
use crate::journals::Journals;
use crate::mark::Mark;
use heap::Heap;
use ids::{Pid, Touch};
use std::alloc::AllocError;
use std::collections::{BTreeSet, HashMap};
use std::marker::Model;

/// What each process's live transaction touched. Contracts see the touches of each process, each
/// once, in the order in which they first came.
pub struct Records {
    heap: Heap,
    journals: Journals,
    index: Index,
}

impl Drop for Records {
    fn drop(self) {
        let Records {
            heap: _,
            journals: _,
            index: _,
        } = self;
    }
}

impl Model for Records {
    ghost use Rattle.std.specs.Prelude.{List};
    ghost use Rattle.model.specs.Steps.{Touch};
    ghost use Rattle.records.specs.Index.{IsIndexed, ListsWritten};

    ghost Value = { List (List Touch) };

    ghost view = { λ r. r.journals };

    ghost invariant = { λ r. IsIndexed r.journals r.index × ListsWritten r.index };
}

/// A touch more of a process, with its use; one that it has already takes no memory. Refused memory
/// changes nothing.
fn note(
    heap: Heap,
    journals: &mut Journals,
    index: &mut Index,
    pid: Pid,
    touch: Touch,
) -> Result<(), AllocError>
    requires within { pid < length journals.old }
    requires indexed { IsIndexed journals.old index.old }
    ensures ok { OnOk result (journals.new
        ≡ set journals.old pid (with_touch (touched_by journals.old pid) touch)) }
    ensures err { OnErr result (journals.new ≡ journals.old) }
    ensures indexed { IsIndexed journals.new index.new }
    ensures listed { ListsWritten index.old → ListsWritten index.new }
{
    if !enter(heap, index, pid, &touch)? {
        return Ok(());
    }
    match journals.push(pid, touch) {
        Ok(()) => Ok(()),
        Err(touch) => {
            leave(index, pid, &touch);
            Err(AllocError)
        }
    }
}

impl Records {
    /// No processes. It takes no memory.
    pub fn new(heap: Heap) -> Records
        ensures { result ≡ [] }
    {
        Records {
            heap,
            journals: Journals::new(heap),
            index: Index {
                users: HashMap::new(heap),
                written: BTreeSet::new(heap),
            },
        }
    }

    /// One process more, with the next number, that touched nothing. Refused memory changes
    /// nothing.
    pub fn enrol(&mut self) -> Result<(), AllocError>
        ensures ok { OnOk result (self.new ≡ self.old ++ [] ∷ []) }
        ensures err { OnErr result (self.new ≡ self.old) }
    {
        self.journals.enrol(self.heap)
    }

    /// The last process is taken away again, which touched nothing. It takes no memory.
    pub fn shrink(&mut self)
        requires some { 0 < length self.old }
        requires untouched { touched_by self.old (length self.old - 1) ≡ [] }
        ensures { self.new ≡ take (length self.old - 1) self.old }
    {
        self.journals.shrink();
    }

    /// What a process touched, each once, in the order in which they first came; nothing for one
    /// that is not there.
    pub fn touches(&self, pid: Pid) -> &[Touch]
        ensures { result.now ≡ touched_by self.now pid }
    {
        self.journals.touches(pid)
    }

    /// How many touches a process has, each counted once.
    pub fn count(&self, pid: Pid) -> usize
        requires { pid < length self.now }
        ensures { result ≡ length (touched_by self.now pid) }
    {
        self.journals.count(pid)
    }

    /// Whether a process other than the caller has touched something: where none has, no touch of
    /// the caller clashes. It takes no memory, and no look-up of an aspect.
    pub fn others_touched(&self, caller: Pid) -> bool
        ensures { result ≡ false → (q : ℕ) → q ≢ caller → touched_by self.now q ≡ [] }
    {
        self.journals.others_touched(caller)
    }

    /// All touches of other processes that clash with a touch, each once, with its process. Where
    /// there are none, it takes no memory. Refused memory is an error.
    ///
    /// On the touch's own aspect the writes stand before the reads; entries that clash with a look
    /// at all names stand in the byte order of their names.
    pub fn holders(&self, caller: Pid, touch: &Touch) -> Result<Vec<Mark, Heap>, AllocError>
        ensures { IfOk result (λ found. AreHolders self.now caller touch.now found.items) }
    {
        collect(self.heap, &self.index, caller, touch)
    }

    /// A touch more of a process, unless it has it already. Refused memory changes nothing.
    fn add_one(&mut self, pid: Pid, touch: Touch) -> Result<(), AllocError>
        requires { pid < length self.old }
        ensures ok { OnOk result (self.new
            ≡ set self.old pid (with_touch (touched_by self.old pid) touch)) }
        ensures err { OnErr result (self.new ≡ self.old) }
    {
        note(self.heap, &mut self.journals, &mut self.index, pid, touch)
    }

    /// The last touch of a process is forgotten. It takes no memory.
    fn forget_last(&mut self, pid: Pid)
        requires within { pid < length self.old }
        requires some { 0 < length (touched_by self.old pid) }
        ensures { self.new ≡ set self.old pid
            (take (length (touched_by self.old pid) - 1) (touched_by self.old pid)) }
    {
        let touch = self.journals.pop(pid);
        leave(&mut self.index, pid, &touch);
    }

    /// A process's touches behind the first so many are forgotten. It takes no memory, and as many
    /// steps as touches are forgotten.
    pub fn keep_first(&mut self, pid: Pid, count: usize)
        requires { pid < length self.old }
        ensures { self.new ≡ set self.old pid (take count (touched_by self.old pid)) }
    {
        while self.count(pid) > count {
            self.forget_last(pid);
        }
    }

    /// The touches of the only process that has any are forgotten, without a look-up of an aspect.
    /// It takes no memory.
    fn forget_all(&mut self, pid: Pid)
        requires within { pid < length self.old }
        requires alone { (q : ℕ) → q ≢ pid → touched_by self.old q ≡ [] }
        ensures { self.new ≡ set self.old pid [] }
    {
        self.journals.clear(pid);
        clear(&mut self.index);
    }

    /// A process's touches are forgotten. It takes no memory, and as many steps as the process has
    /// touches, each with a look-up of its aspect where another process has touched something.
    pub fn release(&mut self, pid: Pid)
        requires { pid < length self.old }
        ensures { self.new ≡ set self.old pid [] }
    {
        if !self.others_touched(pid) && is_filled_by(&self.index, self.count(pid)) {
            self.forget_all(pid);
        } else {
            self.keep_first(pid, 0);
        }
    }

    /// A process touches these too. One that it has already takes no memory. Refused memory changes
    /// nothing.
    pub fn add(&mut self, pid: Pid, touches: Vec<Touch, Heap>) -> Result<(), AllocError>
        requires { pid < length self.old }
        ensures ok { OnOk result (self.new
            ≡ set self.old pid (with_touches (touched_by self.old pid) touches.entry.items)) }
        ensures err { OnErr result (self.new ≡ self.old) }
    {
        let before = self.count(pid);
        for touch in touches {
            match self.add_one(pid, touch) {
                Ok(()) => {}
                Err(refused) => {
                    self.keep_first(pid, before);
                    return Err(refused);
                }
            }
        }
        Ok(())
    }
}
