// The touches of all processes, and how many processes have touched something.
ghost use Rattle.std.specs.Prelude.{◌≡◌, ◌≢◌, ℕ, ◌-◌, ◌<◌, ◌++◌, ◌∷◌, [], false, length};
ghost use Rattle.std.specs.Prelude.{take, set, IfErr, OnOk, OnErr};
ghost use Rattle.records.specs.Index.{has};
ghost use Rattle.records.specs.Touches.{touched_by};

use crate::journal::Journal;
use heap::Heap;
use ids::{Pid, Touch};
use std::alloc::AllocError;
use std::marker::Model;

type List = Vec<Journal, Heap>;

/// The journal of each process, by its number.
pub struct Journals {
    list: List,
    /// How many processes have touched something.
    active: usize,
}

impl Drop for Journals {
    fn drop(self) {
        let Journals { list: _, active: _ } = self;
    }
}

impl Model for Journals {
    ghost use Rattle.std.specs.Prelude.{◌≡◌, List};
    ghost use Rattle.model.specs.Steps.{Touch};
    ghost use Rattle.records.specs.Active.{active_in};

    ghost Value = { List (List Touch) };

    ghost view = { λ j. j.list.items };

    ghost invariant = { λ j. j.active ≡ active_in j.list.items };
}

/// A touch more at the end of a journal that has not got it. Refused memory gives it back and
/// changes nothing.
fn push_to(journals: &mut List, pid: Pid, touch: Touch) -> Result<(), Touch>
    requires within { pid < length journals.old.items }
    requires absent { has touch (touched_by journals.old.items pid) ≡ false }
    ensures ok { OnOk result (journals.new.items
        ≡ set journals.old.items pid (touched_by journals.old.items pid ++ touch ∷ [])) }
    ensures back { IfErr result (λ t. t ≡ touch) }
    ensures err { OnErr result (journals.new.items ≡ journals.old.items) }
{
    journals[pid.0 as usize].push(touch)
}

/// The last touch is taken from a journal.
fn pop_from(journals: &mut List, pid: Pid) -> Touch
    requires within { pid < length journals.old.items }
    requires some { 0 < length (touched_by journals.old.items pid) }
    ensures journals { journals.new.items ≡ set journals.old.items pid
        (take (length (touched_by journals.old.items pid) - 1)
        (touched_by journals.old.items pid)) }
    ensures last { touched_by journals.old.items pid
        ≡ take (length (touched_by journals.old.items pid) - 1) (touched_by journals.old.items pid)
        ++ result ∷ [] }
    ensures once { has result (take (length (touched_by journals.old.items pid) - 1)
        (touched_by journals.old.items pid)) ≡ false }
{
    journals[pid.0 as usize].pop().unwrap()
}

/// All touches are taken from a journal.
fn clear_at(journals: &mut List, pid: Pid)
    requires { pid < length journals.old.items }
    ensures { journals.new.items ≡ set journals.old.items pid [] }
{
    journals[pid.0 as usize].clear();
}

impl Journals {
    /// No processes. It takes no memory.
    pub fn new(heap: Heap) -> Journals
        ensures { result ≡ [] }
    {
        Journals {
            list: Vec::new(heap),
            active: 0,
        }
    }

    /// One process more, with the next number, that touched nothing. Refused memory changes
    /// nothing.
    pub fn enrol(&mut self, heap: Heap) -> Result<(), AllocError>
        ensures ok { OnOk result (self.new ≡ self.old ++ [] ∷ []) }
        ensures err { OnErr result (self.new ≡ self.old) }
    {
        self.list.push(Journal::new(heap))?;
        Ok(())
    }

    /// The last process is taken away again, which touched nothing. It takes no memory.
    pub fn shrink(&mut self)
        requires some { 0 < length self.old }
        requires untouched { touched_by self.old (length self.old - 1) ≡ [] }
        ensures { self.new ≡ take (length self.old - 1) self.old }
    {
        self.list.pop();
    }

    /// What a process touched, nothing for one that is not there.
    pub fn touches(&self, pid: Pid) -> &[Touch]
        ensures { result.now ≡ touched_by self.now pid }
    {
        match self.list.get(pid.0 as usize) {
            Some(journal) => journal.as_slice(),
            None => &[],
        }
    }

    /// How many touches a process has.
    pub fn count(&self, pid: Pid) -> usize
        requires { pid < length self.now }
        ensures { result ≡ length (touched_by self.now pid) }
    {
        self.list[pid.0 as usize].len()
    }

    /// Whether a process other than this one has touched something. It takes no memory, and as many
    /// steps whatever is recorded.
    pub fn others_touched(&self, pid: Pid) -> bool
        ensures { result ≡ false → (q : ℕ) → q ≢ pid → touched_by self.now q ≡ [] }
    {
        self.active > usize::from(!self.touches(pid).is_empty())
    }

    /// A touch more of a process that has not got it. Refused memory gives it back and changes
    /// nothing.
    pub fn push(&mut self, pid: Pid, touch: Touch) -> Result<(), Touch>
        requires within { pid < length self.old }
        requires absent { has touch (touched_by self.old pid) ≡ false }
        ensures ok { OnOk result (self.new
            ≡ set self.old pid (touched_by self.old pid ++ touch ∷ [])) }
        ensures back { IfErr result (λ t. t ≡ touch) }
        ensures err { OnErr result (self.new ≡ self.old) }
    {
        let first = self.count(pid) == 0;
        match push_to(&mut self.list, pid, touch) {
            Ok(()) => {
                self.active += usize::from(first);
                Ok(())
            }
            Err(touch) => Err(touch),
        }
    }

    /// The last touch of a process is taken away. It takes no memory.
    pub fn pop(&mut self, pid: Pid) -> Touch
        requires within { pid < length self.old }
        requires some { 0 < length (touched_by self.old pid) }
        ensures journals { self.new ≡ set self.old pid
            (take (length (touched_by self.old pid) - 1) (touched_by self.old pid)) }
        ensures last { touched_by self.old pid
            ≡ take (length (touched_by self.old pid) - 1) (touched_by self.old pid)
            ++ result ∷ [] }
        ensures once { has result (take (length (touched_by self.old pid) - 1)
            (touched_by self.old pid)) ≡ false }
    {
        let last = self.count(pid) == 1;
        let touch = pop_from(&mut self.list, pid);
        self.active -= usize::from(last);
        touch
    }
    /// All touches of a process are taken away. It takes no memory.
    pub fn clear(&mut self, pid: Pid)
        requires { pid < length self.old }
        ensures { self.new ≡ set self.old pid [] }
    {
        let any = self.count(pid) > 0;
        clear_at(&mut self.list, pid);
        self.active -= usize::from(any);
    }
}
