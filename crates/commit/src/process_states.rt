// The slots of all processes, and how many of them are in a transaction.
ghost use Rattle.std.specs.Prelude.{◌≡◌, ◌+◌, ◌<◌, ◌≤◌, ◌++◌, ◌∷◌, [], length, suc, count_by, IfOk};
ghost use Rattle.std.specs.Prelude.{List, true, OnErr, OnOk};
ghost use Rattle.shadow.specs.Claims.{AreUnused, Covers, HaveParents, KeepsMore, KeepsSame};
ghost use Rattle.shadow.specs.Claims.{claimed_by};
ghost use Rattle.notes.specs.Log.{effect};
ghost use Rattle.notes.specs.Steps.{CanEdit};
ghost use Rattle.ids.specs.declared.limits.TheConstants.{MAX_PROCESSES};
ghost use Rattle.commit.specs.ProcessStates.{AreFirstSlots, Sets, slot_at, slot_view, views, weight};
ghost use Rattle.commit.specs.Edits.{with_change};
ghost use Rattle.commit.specs.Views.{changes_in, idle_slot, is_live_slot, is_within};
ghost use Rattle.commit.specs.declared.process_state.ProcessState.{ProcessState as ProcessState_of};
ghost use Rattle.commit.specs.declared.process_state.ProcessState.TheVariants.{Idle as Idle_slot};

use crate::process_state::{ProcessState, first_slots};
use heap::Heap;
use ids::{Edit, Nums, Pid};
use shadow::Stable;
use std::alloc::AllocError;
use std::marker::Model;
use std::mem::replace;

/// A slot for each process, at its number. How many are in a transaction is stored, so that no step
/// counts them.
pub struct ProcessStates {
    all: Vec<ProcessState, Heap>,
    within: usize,
}

impl Drop for ProcessStates {
    fn drop(self) {
        let ProcessStates { all: _, within: _ } = self;
    }
}

impl Model for ProcessStates {
    ghost use Rattle.std.specs.Prelude.{◌≡◌, List, count_by};
    ghost use Rattle.commit.specs.ProcessStates.{views};
    ghost use Rattle.commit.specs.Views.{is_within};
    ghost use Rattle.commit.specs.declared.process_state.ProcessState.{ProcessState};

    ghost Value = { List ProcessState };

    ghost view = { λ s. s.all.items };

    ghost invariant = { λ s. s.within ≡ count_by is_within (views s.all.items) };
}

// How many of the processes in a transaction a slot's is: one or none.
fn weight(slot: &ProcessState) -> usize
    ensures { result ≡ weight (slot_view slot.now) }
{
    if slot.is_within() { 1 } else { 0 }
}

// Puts a slot in the place of the one before, which is answered.
fn swap_in(all: &mut Vec<ProcessState, Heap>, pid: Pid, slot: ProcessState) -> ProcessState
    requires { pid < length all.old.items }
    ensures taken { slot_view result ≡ slot_at all.old.items pid }
    ensures set { Sets all.old.items all.new.items pid (slot_view slot) }
{
    replace(&mut all[pid.0 as usize], slot)
}

impl ProcessStates {
    /// A slot of no process, and behind it those of so many idle ones. Refused memory gives nothing.
    pub fn first(heap: Heap, count: usize) -> Result<ProcessStates, AllocError>
        requires { count ≤ MAX_PROCESSES }
        ensures count { IfOk result (λ slots. length slots ≡ suc count) }
        ensures first { IfOk result (λ slots. AreFirstSlots slots count) }
    {
        let all = first_slots(heap, count)?;
        Ok(ProcessStates { all, within: 0 })
    }

    /// How many processes are in a transaction, live or doomed.
    pub fn count(&self) -> usize
        ensures { result ≡ count_by is_within (views self.now) }
    {
        self.within
    }

    /// All of them.
    pub fn as_slice(&self) -> &[ProcessState]
        ensures { result.now ≡ self.now }
    {
        self.all.as_slice()
    }

    /// Puts a process's slot in the place of the one before, which is answered.
    pub fn swap(&mut self, pid: Pid, slot: ProcessState) -> ProcessState
        requires { pid < length self.old }
        ensures taken { slot_view result ≡ slot_at self.old pid }
        ensures set { Sets self.old self.new pid (slot_view slot) }
    {
        let comes = weight(&slot);
        let before = swap_in(&mut self.all, pid, slot);
        self.within = self.within - weight(&before) + comes;
        before
    }

    /// One slot more, of an idle process. Refused memory changes nothing.
    pub fn push_idle(&mut self) -> Result<(), AllocError>
        ensures ok { OnOk result (self.new ≡ self.old ++ Idle_slot ∷ []) }
        ensures err { OnErr result (self.new ≡ self.old) }
    {
        self.all.push(ProcessState::Idle)?;
        Ok(())
    }

    /// The slot of the idle process that came last is gone again. It takes no memory.
    pub fn pop_idle(&mut self)
        requires { (before : List ProcessState_of) × (self.old ≡ before ++ Idle_slot ∷ []) }
        ensures { (before : List ProcessState_of) → self.old ≡ before ++ Idle_slot ∷ []
            → self.new ≡ before }
    {
        drop(self.all.pop());
    }
}

/// Takes a slot, which is idle then.
pub fn take_slot(slots: &mut ProcessStates, pid: Pid) -> ProcessState
    requires { pid < length slots.old }
    ensures taken { slot_view result ≡ slot_at slots.old pid }
    ensures left { Sets slots.old slots.new pid idle_slot }
{
    slots.swap(pid, ProcessState::Idle)
}

/// Puts a process's slot in the place of the one before, which is forgotten.
pub fn set_slot(slots: &mut ProcessStates, pid: Pid, slot: ProcessState)
    requires { pid < length slots.old }
    ensures { Sets slots.old slots.new pid (slot_view slot) }
{
    drop(slots.swap(pid, slot));
}

// Adds a change to what a live process has changed, with new numbers, which are answered. Refused
// memory changes nothing.
fn edit_in(
    slots: &mut Vec<ProcessState, Heap>,
    stable: &mut Stable,
    pid: Pid,
    edits: Vec<Edit, Heap>,
) -> Result<Nums, AllocError>
    requires made { pid < length slots.old.items }
    requires live { is_live_slot (slot_at slots.old.items pid) ≡ true }
    requires kinds { CanEdit edits.items }
    requires parents { HaveParents stable.old.reserves edits.items }
    requires covers { Covers stable.old (changes_in (slot_at slots.old.items pid)) }
    ensures ok { IfOk result (λ chosen. Sets slots.old.items slots.new.items pid
        (with_change (effect chosen edits.entry.items) (slot_at slots.old.items pid))) }
    ensures new { IfOk result (AreUnused stable.old edits.entry.items) }
    ensures kept { IfOk result (λ chosen. KeepsMore stable.old stable.new
        (λ c. claimed_by c (effect chosen edits.entry.items))) }
    ensures state { stable.new.state ≡ stable.old.state }
    ensures err { OnErr result (Sets slots.old.items slots.new.items pid
        (slot_at slots.old.items pid)) }
    ensures same { OnErr result (KeepsSame stable.old stable.new) }
{
    match &mut slots[pid.0 as usize] {
        ProcessState::Live(transaction) => transaction.shadow.edit(stable, edits),
        ProcessState::Gone => unreachable!(),
        ProcessState::Idle => unreachable!(),
        ProcessState::Doomed(_) => unreachable!(),
    }
}

/// Adds a change to what a live process has changed, with new numbers, which are answered. Refused
/// memory changes nothing.
pub fn edit_slot(
    slots: &mut ProcessStates,
    stable: &mut Stable,
    pid: Pid,
    edits: Vec<Edit, Heap>,
) -> Result<Nums, AllocError>
    requires made { pid < length slots.old }
    requires live { is_live_slot (slot_at slots.old pid) ≡ true }
    requires kinds { CanEdit edits.items }
    requires parents { HaveParents stable.old.reserves edits.items }
    requires covers { Covers stable.old (changes_in (slot_at slots.old pid)) }
    ensures ok { IfOk result (λ chosen. Sets slots.old slots.new pid
        (with_change (effect chosen edits.entry.items) (slot_at slots.old pid))) }
    ensures new { IfOk result (AreUnused stable.old edits.entry.items) }
    ensures kept { IfOk result (λ chosen. KeepsMore stable.old stable.new
        (λ c. claimed_by c (effect chosen edits.entry.items))) }
    ensures state { stable.new.state ≡ stable.old.state }
    ensures err { OnErr result (Sets slots.old slots.new pid
        (slot_at slots.old pid)) }
    ensures same { OnErr result (KeepsSame stable.old stable.new) }
{
    edit_in(&mut slots.all, stable, pid, edits)
}
