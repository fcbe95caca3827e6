// What is kept of each process.
//
// For the proof: what a slot has and nobody needs goes by `drop`, which is one call. Where it goes by
// itself, the proof opens it variant by variant.
ghost use Rattle.ids.specs.declared.limits.TheConstants.{MAX_PROCESSES};
ghost use Rattle.std.specs.Prelude.{◌≡◌, ◌<◌, ◌≤◌, true, length, suc, is_some, option_map, IfOk};
ghost use Rattle.std.specs.Prelude.{IfSome, OnErr};
ghost use Rattle.shadow.specs.Claims.{AreUnused, Covers, HaveParents, KeepsMore, KeepsSame};
ghost use Rattle.shadow.specs.Claims.{claimed, claimed_by};
ghost use Rattle.notes.specs.Log.{effect};
ghost use Rattle.shadow.specs.Looks as looks;
ghost use Rattle.notes.specs.Steps.{CanEdit};
ghost use Rattle.commit.specs.Dooming.{with_doom};
ghost use Rattle.commit.specs.Edits.{with_change};
ghost use Rattle.commit.specs.ProcessStates.{AreFirstSlots, Sets, slot_at, slot_view};
ghost use Rattle.commit.specs.Standings.{IsStandingOf};
ghost use Rattle.commit.specs.Views.{cause_of, changes_in, idle_slot, is_live_slot, is_within};

use contention::{Doomed, Twice};
use heap::Heap;
use ids::{Age, BeginFlags, Cause, Edit, Nums, Pid};
use shadow::{Shadow, Stable};
use std::alloc::AllocError;

/// What a process is, in short.
#[derive(Clone, Copy)]
pub enum Standing {
    /// No process.
    Gone,
    /// In no transaction.
    Idle,
    /// In a transaction that began with these flags at this age.
    Live(BeginFlags, Age),
    /// In one that was doomed.
    Doomed(BeginFlags, Age),
}

/// A live transaction.
#[derive(Drop)]
pub struct Transaction {
    /// The flags that it began with.
    pub flags: BeginFlags,
    /// When it began first.
    pub age: Age,
    /// What it has changed.
    pub shadow: Shadow,
}

/// A transaction that was doomed by another process and has not been told yet.
#[derive(Drop)]
pub struct Doom {
    /// The flags that it began with.
    pub flags: BeginFlags,
    /// When it began first.
    pub age: Age,
    /// Why, for its notice.
    pub cause: Twice<Cause>,
}

/// The state of one process.
#[derive(Drop)]
pub enum ProcessState {
    /// No process.
    Gone,
    /// In no transaction.
    Idle,
    /// In a transaction.
    Live(Transaction),
    /// In a transaction that was doomed.
    Doomed(Doom),
}

impl ProcessState {
    /// Whether its process is in a transaction, live or doomed.
    pub fn is_within(&self) -> bool
        ensures { result ≡ is_within (slot_view self.now) }
    {
        match self {
            ProcessState::Gone => false,
            ProcessState::Idle => false,
            ProcessState::Live(_) => true,
            ProcessState::Doomed(_) => true,
        }
    }

    /// What the process is.
    pub fn standing(&self) -> Standing
        ensures { IsStandingOf result (slot_view self.now) }
    {
        match self {
            ProcessState::Gone => Standing::Gone,
            ProcessState::Idle => Standing::Idle,
            ProcessState::Live(transaction) => Standing::Live(transaction.flags, transaction.age),
            ProcessState::Doomed(doom) => Standing::Doomed(doom.flags, doom.age),
        }
    }
}

/// A slot of no process, and behind it those of so many idle ones.
pub fn first_slots(heap: Heap, count: usize) -> Result<Vec<ProcessState, Heap>, AllocError>
    requires { count ≤ MAX_PROCESSES }
    ensures count { IfOk result (λ slots. length slots.items ≡ suc count) }
    ensures first { IfOk result (λ slots. AreFirstSlots slots.items count) }
{
    let mut slots = Vec::with_capacity(heap, count + 1)?;
    drop(slots.push(ProcessState::Gone));
    for _i in 0..count {
        drop(slots.push(ProcessState::Idle));
    }
    Ok(slots)
}

/// Forgets what a slot's transaction has changed, and gives back what was kept for it. It takes no
/// memory.
pub fn drop_slot(slot: ProcessState, stable: &mut Stable)
    requires { Covers stable.old (changes_in (slot_view slot)) }
    ensures state { stable.new.state ≡ stable.old.state }
    ensures kept { KeepsMore stable.new stable.old (λ c. claimed c (changes_in (slot_view slot))) }
{
    match slot {
        ProcessState::Live(transaction) => transaction.shadow.drop_into(stable),
        ProcessState::Gone => (),
        ProcessState::Idle => (),
        ProcessState::Doomed(doom) => drop(doom),
    }
}

/// The slot of a transaction that is doomed. Its changes are gone, and what was kept for them is
/// given back.
pub fn doom_slot(slot: ProcessState, doomed: Doomed, stable: &mut Stable) -> ProcessState
    requires { Covers stable.old (changes_in (slot_view slot)) }
    ensures slot { slot_view result ≡ with_doom doomed (slot_view slot) }
    ensures state { stable.new.state ≡ stable.old.state }
    ensures kept { KeepsMore stable.new stable.old (λ c. claimed c (changes_in (slot_view slot))) }
{
    match slot {
        ProcessState::Live(Transaction { flags, age, shadow }) => {
            shadow.drop_into(stable);
            ProcessState::Doomed(Doom {
                flags,
                age,
                cause: doomed.cause,
            })
        }
        other => {
            drop(doomed);
            other
        }
    }
}

/// The changes of a slot.
pub fn shadow_in(heap: Heap, slot: ProcessState) -> Shadow
    ensures { result ≡ changes_in (slot_view slot) }
{
    match slot {
        ProcessState::Live(transaction) => transaction.shadow,
        ProcessState::Gone => Shadow::new(heap),
        ProcessState::Idle => Shadow::new(heap),
        ProcessState::Doomed(doom) => {
            drop(doom);
            Shadow::new(heap)
        }
    }
}

/// The cause of a slot that is doomed.
pub fn cause_in(slot: ProcessState) -> Option<Twice<Cause>>
    ensures { result ≡ cause_of (slot_view slot) }
{
    match slot {
        ProcessState::Doomed(Doom { cause, .. }) => Some(cause),
        other => {
            drop(other);
            None
        }
    }
}

/// What a process's live transaction has changed, if it is in one.
pub fn shadow_of(slots: &[ProcessState], pid: Pid) -> Option<&Shadow>
    ensures changes { looks.changes_of (option_map (λ s. s.now) result)
        ≡ changes_in (slot_at slots.now pid) }
    ensures value { IfSome result (λ s. s.now ≡ changes_in (slot_at slots.now pid)) }
    ensures live { is_some result ≡ is_live_slot (slot_at slots.now pid) }
{
    match slots.get(pid.0 as usize) {
        Some(ProcessState::Live(transaction)) => Some(&transaction.shadow),
        Some(ProcessState::Gone) => None,
        Some(ProcessState::Idle) => None,
        Some(ProcessState::Doomed(_)) => None,
        None => None,
    }
}
