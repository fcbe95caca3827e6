// The check of a history that comes in parts.
ghost use Rattle.std.specs.Prelude.{◌≡◌, ◌≢◌, ◌≤◌, ◌++◌, ℕ, List, [], None, Some, IfOk, IfErr, OnOk};
ghost use Rattle.std.specs.List.{AllByRecursion};
ghost use Rattle.model.specs.Entries.{Entry as Listed};
ghost use Rattle.ids.specs.Bounds.{given_by_default};
ghost use Rattle.ids.specs.declared.limits.TheConstants.{LARGEST_FILE};
ghost use Rattle.model.specs.FiniteMap.{get};
ghost use Rattle.model.specs.Moments.{Setup};
ghost use Rattle.model.specs.Passing.{Passes};
ghost use Rattle.replay.specs.Added.{so_far};
ghost use Rattle.replay.specs.Checked.{AreHeld, AreThere, Grows, HasChecked, IsFaultFor};
ghost use Rattle.replay.specs.Failing.{IsStop};
ghost use Rattle.replay.specs.SoFar.{Checked, with_more};
ghost use Rattle.replay.specs.Windows.{CanKeep, CanKeepAll, Shows};

use crate::added::Added;
use crate::audit::{Audit, Stop};
use crate::beginning::Beginning;
use crate::checking::CheckFault;
use crate::transaction::Transaction;
use crate::window::Window;
use heap::Heap;
use ids::{Bounds, Entry, Num, Priority};
use plain_kernel::{Table, Tree};
use std::alloc::AllocError;
use std::marker::Model;

/// A check of a history that comes in parts. It keeps what is alive: the state that is committed, and of each
/// live transaction the entries of its calls. Contracts see all that it has checked.
pub struct Checker {
    heap: Heap,
    root: Num,
    added: Added,
    reached: Reached,
}

// How far a check has come: how many entries there were, what they come to, and those of them that live transactions need.
pub(crate) struct Reached {
    count: usize,
    audit: Audit,
    kept: Tree<Entry>,
}

impl Drop for Checker {
    fn drop(self) {
        let Checker {
            heap: _,
            root: _,
            added: _,
            reached: _,
        } = self;
    }
}

impl Drop for Reached {
    fn drop(self) {
        let Reached {
            count: _,
            audit: _,
            kept: _,
        } = self;
    }
}

impl Model for Checker {
    ghost use Rattle.replay.specs.Added.{so_far};
    ghost use Rattle.replay.specs.Checked.{HasChecked};
    ghost use Rattle.replay.specs.SoFar.{Checked};

    ghost Value = { Checked };

    ghost view = { λ c. so_far c.root c.added };

    ghost invariant = { λ c. HasChecked c.reached (so_far c.root c.added) };
}

impl Checker {
    /// No entry so far, of a kernel whose root has this number, whose first processes have these
    /// priorities, and which has the bounds where none are given ([`Bounds::given_by_default`]). Refused
    /// memory gives nothing.
    pub fn new(heap: Heap, root: Num, priorities: &[Priority]) -> Result<Checker, AllocError>
        ensures { IfOk result (λ checker. checker ≡ record {
          root = root;
          setup = record { priorities = priorities.now; bounds = given_by_default };
          entries = [];
        }) }
    {
        Checker::with_bounds(heap, root, priorities, Bounds::given_by_default())
    }

    /// The same of a kernel with these bounds.
    pub fn with_bounds(
        heap: Heap,
        root: Num,
        priorities: &[Priority],
        bounds: Bounds,
    ) -> Result<Checker, AllocError>
        requires { bounds.file_bytes ≤ LARGEST_FILE }
        ensures { IfOk result (λ checker. checker ≡ record {
          root = root;
          setup = record { priorities = priorities.now; bounds = bounds };
          entries = [];
        }) }
    {
        let beginning = Beginning { priorities, bounds };
        let audit = Audit::new(heap, root, &beginning)?;
        Ok(Checker {
            heap,
            root,
            added: Added::of(&beginning),
            reached: Reached {
                count: 0,
                audit,
                kept: Tree::new(heap),
            },
        })
    }

    /// Checks entries behind those so far, as `check` does of a whole history, for this root alone.
    /// `Wrong` has a position in the history, counted from its first entry, from 1. At a fault the
    /// checker is gone.
    pub fn add(self, entries: &[Entry]) -> Result<Checker, CheckFault>
        ensures ok { IfOk result (λ checker. checker ≡ with_more self entries.now) }
        ensures passes { OnOk result (Passes
            self.root self.setup (self.entries ++ entries.now)) }
        ensures wrong { IfErr result (IsFaultFor
            self.root self.setup (self.entries ++ entries.now)) }
    {
        let Checker {
            heap,
            root,
            added,
            reached,
        } = self;
        follow_and_note(heap, root, added, reached, entries)
    }
}

// The checker behind the entries of a part.
fn follow_and_note(
    heap: Heap,
    root: Num,
    mut added: Added,
    reached: Reached,
    entries: &[Entry],
) -> Result<Checker, CheckFault>
    ghost before: { Checked }
    requires same { before ≡ so_far root added }
    requires checked { HasChecked reached before }
    ensures ok { IfOk result (λ checker. checker ≡ with_more before entries.now) }
    ensures passes { OnOk result (Passes
        before.root before.setup (before.entries ++ entries.now)) }
    ensures wrong { IfErr result (IsFaultFor
        before.root before.setup (before.entries ++ entries.now)) }
{
    let reached = reached.follow(heap, entries)?;
    added.add(entries);
    Ok(Checker {
        heap,
        root,
        added,
        reached,
    })
}

impl Reached {
    // Behind the entries of a part.
    fn follow(self, heap: Heap, entries: &[Entry]) -> Result<Reached, CheckFault>
        ghost before: { Checked }
        requires { HasChecked self before }
        ensures ok { IfOk result (λ reached. HasChecked reached (with_more before entries.now)) }
        ensures passes { OnOk result (Passes
            before.root before.setup (before.entries ++ entries.now)) }
        ensures wrong { IfErr result (IsFaultFor
            before.root before.setup (before.entries ++ entries.now)) }
    {
        let Reached { count, audit, kept } = self;
        let later = follow_part(heap, count, audit, &kept, entries);
        drop(kept);
        later
    }
}

// How far the check has come behind the entries of a part.
fn follow_part(
    heap: Heap,
    count: usize,
    mut audit: Audit,
    kept: &Tree<Entry>,
    entries: &[Entry],
) -> Result<Reached, CheckFault>
    ghost before: { Checked }
    requires { HasChecked (record { count = count; audit = audit; kept = kept.now }) before }
    ensures ok { IfOk result (λ reached. HasChecked reached (with_more before entries.now)) }
    ensures passes { OnOk result (Passes
        before.root before.setup (before.entries ++ entries.now)) }
    ensures wrong { IfErr result (IsFaultFor
        before.root before.setup (before.entries ++ entries.now)) }
{
    let window = Window {
        part: entries,
        offset: count,
        kept,
    };
    match audit.follow_all(heap, &window) {
        Ok(end) => match still_needed(heap, &window, &audit.transactions) {
            Ok(kept) => Ok(Reached {
                count: end,
                audit,
                kept,
            }),
            Err(_) => {
                drop(audit);
                Err(CheckFault::NoMemory)
            }
        },
        Err(stop) => {
            drop(audit);
            Err(fault_of(stop))
        }
    }
}

// What a stop is for the caller, who counts positions from 1.
fn fault_of(stop: Stop) -> CheckFault
    ensures { (root : ℕ) (setup : Setup) (es : List Listed)
        → IsStop root setup es stop → IsFaultFor root setup es result }
{
    match stop {
        Stop::Wrong { call, .. } => match call.checked_add(1) {
            Some(number) => CheckFault::Wrong(number),
            None => CheckFault::NoMemory,
        },
        Stop::NoMemory => CheckFault::NoMemory,
    }
}

// Copies of the entries of all calls of live transactions.
fn still_needed(
    heap: Heap,
    window: &Window<'_>,
    transactions: &Table<Transaction>,
) -> Result<Tree<Entry>, AllocError>
    ghost es: { List Listed }
    requires shows { Shows es window.now }
    requires seen { (q : ℕ) → CanKeep es window.now (get transactions.now q) }
    ensures held { IfOk result (AreHeld es) }
    ensures there { IfOk result (λ kept. (q : ℕ) → AreThere kept (get transactions.now q)) }
{
    let mut kept = Tree::new(heap);
    match keep_each(&mut kept, window, transactions.as_slice()) {
        Ok(()) => Ok(kept),
        Err(refused) => {
            drop(kept);
            Err(refused)
        }
    }
}

// Keeps the entries of the calls of these transactions, of those that live.
fn keep_each(
    kept: &mut Tree<Entry>,
    window: &Window<'_>,
    slots: &[(Num, Transaction)],
) -> Result<(), AllocError>
    ghost es: { List Listed }
    requires shows { Shows es window.now }
    requires seen { AllByRecursion (λ slot. CanKeep es window.now (Some slot.1)) slots.now }
    requires held { AreHeld es kept.old }
    ensures held { OnOk result (AreHeld es kept.new) }
    ensures there { OnOk result (AllByRecursion (λ slot. AreThere kept.new (Some slot.1)) slots.now) }
{
    for slot in slots {
        if let Transaction::Live(_, positions) = &slot.1 {
            keep_all(kept, window, positions.as_slice())?;
        }
    }
    Ok(())
}

// Keeps the entries at these positions.
fn keep_all(
    kept: &mut Tree<Entry>,
    window: &Window<'_>,
    positions: &[usize],
) -> Result<(), AllocError>
    ghost es: { List Listed }
    requires shows { Shows es window.now }
    requires seen { CanKeepAll es window.now positions.now }
    requires held { AreHeld es kept.old }
    ensures held { OnOk result (AreHeld es kept.new) }
    ensures there { OnOk result (AllByRecursion (λ position. get kept.new position ≢ None) positions.now) }
    ensures grows { OnOk result (Grows kept.old kept.new) }
{
    for position in positions {
        if let Some(entry) = window.entry(*position) {
            kept.set(Num(*position), entry.try_clone()?)?;
        }
    }
    Ok(())
}
