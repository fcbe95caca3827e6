// The transactions of all processes, and what is committed.
ghost use Rattle.ids.specs.declared.limits.TheConstants.{LARGEST_FILE, MAX_PROCESSES};
ghost use Rattle.std.specs.Prelude.{◌≡◌, ◌<◌, ◌≤◌, ◌++◌, ◌∷◌, [], ℕ, true, List, length, suc, is_some};
ghost use Rattle.std.specs.Prelude.{count_by, IfOk, IfSome, OnErr, OnOk};
ghost use Rattle.model.specs.Changes.{End_process, New_process, all_applied, applied, tidy};
ghost use Rattle.model.specs.Effects.{all_done};
ghost use Rattle.model.specs.Moments.{start};
ghost use Rattle.shadow.specs.Claims.{HaveParents};
ghost use Rattle.notes.specs.Log.{effect};
ghost use Rattle.shadow.specs.Looks.{DirectoriesAreKept};
ghost use Rattle.notes.specs.Steps.{CanEdit};
ghost use Rattle.call_laws.specs.Fits.{Fits, FitsAll};
ghost use Rattle.freeing_laws.specs.Sweep.{AllFit};
ghost use Rattle.commit.specs.Dooming.{with_dooms};
ghost use Rattle.commit.specs.Edits.{AreNew, with_change};
ghost use Rattle.commit.specs.ProcessStates.{slot_view};
ghost use Rattle.commit.specs.Standings.{IsStandingOf};
ghost use Rattle.commit.specs.Views.{AreFirst, SameViews, Shows, cause_of, changes_in, gone_slot, idle_slot};
ghost use Rattle.commit.specs.Views.{is_live_slot, is_within, live_slot, view_at};

use crate::process_state::{
    ProcessState, Standing, Transaction, cause_in, doom_slot, drop_slot, shadow_in, shadow_of,
};
use crate::process_states::{ProcessStates, edit_slot, set_slot, take_slot};
use contention::{Doomed, Twice};
use heap::Heap;
use ids::{Age, BeginFlags, Bounds, Cause, Edit, Nums, Pid, Priority};
use shadow::{Shadow, Stable, View};
use std::alloc::AllocError;
use std::marker::Model;

/// The transactions of all processes, and what is committed. A process's number is the place of its
/// slot; the first slot is of no process.
pub struct Transactions {
    heap: Heap,
    slots: ProcessStates,
    stable: Stable,
}

impl Drop for Transactions {
    fn drop(self) {
        let Transactions {
            heap: _,
            slots: _,
            stable: _,
        } = self;
    }
}

impl Model for Transactions {
    ghost use Rattle.commit.specs.Claims.{AreCovered};
    ghost use Rattle.commit.specs.ProcessStates.{views};
    ghost use Rattle.commit.specs.Views.{Shown};

    ghost Value = { Shown };

    ghost view = { λ t. record {
      slots = views t.slots;
      stable = t.stable;
    } };

    ghost invariant = { λ t. AreCovered (views t.slots) t.stable };
}

impl Transactions {
    /// The empty root, and an idle process for each of these priorities, numbered from 1, within these
    /// bounds. Refused memory gives nothing.
    pub fn new(
        heap: Heap,
        priorities: &[Priority],
        bounds: Bounds,
    ) -> Result<Transactions, AllocError>
        requires few { length priorities.now ≤ MAX_PROCESSES }
        requires small { bounds.file_bytes ≤ LARGEST_FILE }
        ensures count { IfOk result (λ t. length t.slots ≡ suc (length priorities.now)) }
        ensures first { IfOk result (λ t. AreFirst t.slots (length priorities.now)) }
        ensures state { IfOk result (λ t. t.stable.state
            ≡ start 0 (record { priorities = priorities.now; bounds = bounds })) }
    {
        let slots = ProcessStates::first(heap, priorities.len())?;
        let stable = Stable::new(heap, priorities, bounds)?;
        Ok(Transactions {
            heap,
            slots,
            stable,
        })
    }

    /// What is committed.
    pub fn stable(&self) -> &Stable
        ensures { result.now ≡ self.now.stable }
    {
        &self.stable
    }

    /// What a process has changed in its live transaction, if it is in one.
    pub fn shadow(&self, pid: Pid) -> Option<&Shadow>
        ensures value { IfSome result (λ s. s.now ≡ changes_in (view_at self.now.slots pid)) }
        ensures live { is_some result ≡ is_live_slot (view_at self.now.slots pid) }
    {
        shadow_of(self.slots.as_slice(), pid)
    }

    /// What a process sees: what is committed, with what its live transaction has changed on top.
    /// The changes fit the states that they find. Each directory that is seen can have room promised.
    pub fn view(&self, pid: Pid) -> View<'_>
        requires { AllFit (changes_in (view_at self.now.slots pid)) self.now.stable.state }
        ensures value { result ≡ record self.now.stable {
          state = all_done (changes_in (view_at self.now.slots pid)) self.now.stable.state;
        } }
        ensures directories { DirectoriesAreKept result }
    {
        View::new(&self.stable, shadow_of(self.slots.as_slice(), pid))
    }

    /// What a process is.
    pub fn standing(&self, pid: Pid) -> Standing
        ensures { IsStandingOf result (view_at self.now.slots pid) }
    {
        match self.slots.as_slice().get(pid.0 as usize) {
            None => Standing::Gone,
            Some(slot) => slot.standing(),
        }
    }

    /// How many processes are in a transaction, live or doomed.
    pub fn count(&self) -> usize
        ensures { result ≡ count_by is_within self.now.slots }
    {
        self.slots.count()
    }

    /// A process's transaction begins, or begins anew: it has no changes. What was kept for those
    /// before is given back.
    pub fn begin(&mut self, pid: Pid, flags: BeginFlags, age: Age)
        requires { pid < length self.old.slots }
        ensures slots { Shows self.old.slots self.new.slots pid (live_slot flags age []) }
        ensures state { self.new.stable.state ≡ self.old.stable.state }
    {
        let shadow = Shadow::new(self.heap);
        self.set(pid, ProcessState::Live(Transaction { flags, age, shadow }));
    }

    /// A process's transaction is gone. What was kept for its changes is given back.
    pub fn abort(&mut self, pid: Pid)
        requires { pid < length self.old.slots }
        ensures slots { Shows self.old.slots self.new.slots pid idle_slot }
        ensures state { self.new.stable.state ≡ self.old.stable.state }
    {
        self.set(pid, ProcessState::Idle);
    }

    // Puts a slot without changes in the place of the one before.
    fn set(&mut self, pid: Pid, slot: ProcessState)
        requires made { pid < length self.old.slots }
        requires empty { changes_in (slot_view slot) ≡ [] }
        ensures slots { Shows self.old.slots self.new.slots pid (slot_view slot) }
        ensures state { self.new.stable.state ≡ self.old.stable.state }
    {
        let before = take_slot(&mut self.slots, pid);
        drop_slot(before, &mut self.stable);
        set_slot(&mut self.slots, pid, slot);
    }

    /// A live transaction is doomed: its changes are gone at once, and what was kept for them is
    /// given back. Any other process's slot stays as it is.
    pub fn doom(&mut self, doomed: Doomed)
        requires { doomed.pid < length self.old.slots }
        ensures count { length self.new.slots ≡ length self.old.slots }
        ensures slots { (q : ℕ) → view_at self.new.slots q
            ≡ with_dooms (doomed ∷ []) q (view_at self.old.slots q) }
        ensures state { self.new.stable.state ≡ self.old.stable.state }
    {
        let pid = doomed.pid;
        let slot = take_slot(&mut self.slots, pid);
        let slot = doom_slot(slot, doomed, &mut self.stable);
        set_slot(&mut self.slots, pid, slot);
    }

    /// The cause of a doomed transaction, which is gone then. It is not for a live one, whose
    /// changes would be gone with it.
    pub fn take_cause(&mut self, pid: Pid) -> Option<Twice<Cause>>
        requires made { pid < length self.old.slots }
        requires unchanged { changes_in (view_at self.old.slots pid) ≡ [] }
        ensures cause { result ≡ cause_of (view_at self.old.slots pid) }
        ensures slots { Shows self.old.slots self.new.slots pid idle_slot }
        ensures stable { self.new.stable ≡ self.old.stable }
    {
        cause_in(take_slot(&mut self.slots, pid))
    }

    /// A live transaction is committed: its changes are made in one step, and what nothing leads to
    /// then is freed. What was kept for them is given back.
    pub fn end(&mut self, pid: Pid)
        requires made { pid < length self.old.slots }
        requires fits { AllFit (changes_in (view_at self.old.slots pid)) self.old.stable.state }
        ensures slots { Shows self.old.slots self.new.slots pid idle_slot }
        ensures state { self.new.stable.state
            ≡ tidy (all_done (changes_in (view_at self.old.slots pid)) self.old.stable.state) }
    {
        let slot = take_slot(&mut self.slots, pid);
        shadow_in(self.heap, slot).commit_into(&mut self.stable);
    }

    /// A live transaction changes one thing more, with new numbers, which are answered. What it
    /// needs to be committed is kept for it. Refused memory changes nothing.
    pub fn edit(&mut self, pid: Pid, edits: Vec<Edit, Heap>) -> Result<Nums, AllocError>
        requires made { pid < length self.old.slots }
        requires live { is_live_slot (view_at self.old.slots pid) ≡ true }
        requires kinds { CanEdit edits.items }
        requires parents { HaveParents self.old.stable.reserves edits.items }
        ensures new { IfOk result (AreNew self.old edits.entry.items) }
        ensures slots { IfOk result (λ chosen. Shows self.old.slots self.new.slots pid
            (with_change (effect chosen edits.entry.items) (view_at self.old.slots pid))) }
        ensures state { self.new.stable.state ≡ self.old.stable.state }
        ensures err { OnErr result (SameViews self.old.slots self.new.slots) }
    {
        // For the proof: by `?` each exit shows the invariant for itself.
        let chosen = edit_slot(&mut self.slots, &mut self.stable, pid, edits)?;
        Ok(chosen)
    }

    /// A change is committed at once, with new numbers, which are answered. Refused memory changes
    /// nothing.
    pub fn apply(&mut self, edits: Vec<Edit, Heap>) -> Result<Nums, AllocError>
        requires kinds { CanEdit edits.items }
        requires parents { HaveParents self.old.stable.reserves edits.items }
        requires fits { (chosen : List ℕ) → AreNew self.old edits.items chosen
            → FitsAll chosen self.old.stable.state edits.items }
        ensures new { IfOk result (AreNew self.old edits.entry.items) }
        ensures state { IfOk result (λ chosen. self.new.stable.state
            ≡ tidy (all_applied chosen edits.entry.items self.old.stable.state)) }
        ensures slots { SameViews self.old.slots self.new.slots }
        ensures err { OnErr result (self.new.stable.state ≡ self.old.stable.state) }
    {
        // For the proof: by `?` each exit shows the invariant for itself.
        let chosen = self.stable.apply(edits)?;
        Ok(chosen)
    }

    /// A process in no transaction makes a child, at once: a process in no transaction, whose number
    /// is the next and is answered. Refused memory changes nothing.
    pub fn fork(&mut self, parent: Pid) -> Result<Pid, AllocError>
        requires fits { (pipes : List ℕ) × Fits [] self.old.stable.state
            (New_process (suc self.old.stable.state.made) parent pipes) }
        requires few { self.old.stable.state.made < MAX_PROCESSES }
        ensures child { IfOk result (λ child. child ≡ suc self.old.stable.state.made) }
        ensures slots { OnOk result (self.new.slots ≡ self.old.slots ++ idle_slot ∷ []) }
        ensures state { OnOk result ((pipes : List ℕ) → self.new.stable.state
            ≡ applied [] (New_process (suc self.old.stable.state.made) parent pipes)
            self.old.stable.state) }
        ensures views { OnErr result (self.new.slots ≡ self.old.slots) }
        ensures err { OnErr result (self.new.stable.state ≡ self.old.stable.state) }
    {
        self.slots.push_idle()?;
        match self.stable.fork(parent) {
            Ok(child) => Ok(child),
            Err(AllocError) => {
                self.slots.pop_idle();
                Err(AllocError)
            }
        }
    }

    /// A process in no transaction ends, at once, with its descriptors, and what nothing leads to
    /// then is freed. It takes no memory.
    pub fn exit(&mut self, pid: Pid)
        requires made { pid < length self.old.slots }
        requires idle { view_at self.old.slots pid ≡ idle_slot }
        requires fits { (pipes : List ℕ)
            × Fits [] self.old.stable.state (End_process pid pipes) }
        ensures slots { Shows self.old.slots self.new.slots pid gone_slot }
        ensures state { (pipes : List ℕ) → self.new.stable.state
            ≡ tidy (applied [] (End_process pid pipes) self.old.stable.state) }
    {
        set_slot(&mut self.slots, pid, ProcessState::Gone);
        self.stable.exit(pid);
    }
}
