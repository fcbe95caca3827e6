// Counts in the committed state with a transaction's changes on top.
ghost use Rattle.std.specs.Prelude.{◌≡◌, ◌+◌, ◌-◌, ℕ, IfOk};
ghost use Rattle.model.specs.FiniteMap.{get};
ghost use Rattle.model.specs.State.{Kernel};
ghost use Rattle.model.specs.Changes.{holders};
ghost use Rattle.notes.specs.Patches.{kept_at, reslotted};

use crate::stable::Stable;
use fdtable::FdTable;
use ids::Num;
use notes::Slots;
use std::alloc::AllocError;

/// How many of the changed processes' descriptors are open on a description now, and how many
/// were. It takes no memory.
pub(crate) fn turnover(slots: &Slots, stable: &Stable, description: Num) -> (u128, u128)
    ensures { (k after : Kernel) → k ≡ stable.now.state
        → ((pid : ℕ) → get after.processes pid
        ≡ reslotted (kept_at slots.now pid) (get k.processes pid))
        → holders after description + result.1 ≡ holders k description + result.0 }
{
    let none = FdTable::new(stable.heap());
    let mut added = 0;
    let mut taken = 0;
    for i in 0..slots.each.len() {
        let pid = slots.each[i].0;
        let stored = (&*stable).table(pid, &none);
        taken += stored.count(description) as u128;
        added += slots.count_over(pid, stored, description) as u128;
    }
    (added, taken)
}

// A count that plans know with 32 bits.
pub(crate) fn small(count: u128) -> Result<u32, AllocError>
    ensures { IfOk result (λ n. n ≡ count) }
{
    if count > u32::MAX as u128 {
        return Err(AllocError);
    }
    Ok(count as u32)
}

// A count, with what changes added to it and took from it.
pub(crate) fn count_over(stored: u128, added: u128, taken: u128) -> Result<u32, AllocError>
    ensures { IfOk result (λ n. n ≡ stored + added - taken) }
{
    match stored.checked_add(added) {
        Some(count) => small(count.saturating_sub(taken)),
        None => Err(AllocError),
    }
}
