// What a machine with a store does besides its steps.
ghost use Rattle.std.specs.Prelude.{◌≡◌, ℕ, List, true, false};
ghost use Rattle.std.specs.Prelude.{IfSome, IsNone, IsSome, None, Some};
ghost use Rattle.model.specs.Moments.{status};
ghost use Rattle.model.specs.Replies.{needed};
ghost use Rattle.machine.specs.Shown.{Kept, moment};
ghost use Rattle.machine.specs.Steps.{is_no_entry, IsStep};
ghost use Rattle.kept.specs.Faults.{remembered};
ghost use Rattle.kept.specs.Keeps.{HoldsMore, IsKept, StandsFor};
ghost use Rattle.kept.specs.Waiting.{is_change};

use crate::fault::StoreFault;
use crate::keeping::is_change;
use crate::store::Store;
use ids::{Op, Pid, Reply};
use machine::Machine;
use recording::Recording;
use sqlite_disk::Disk;

// What an operation is answered that is not made, since the store has met a fault and could not keep what
// it changes.
pub(crate) fn refused<M: Machine>(
    machine: &Recording<M>,
    fault: Option<StoreFault>,
    pid: Pid,
    op: &Op,
) -> Option<Reply>
    ensures step { IfSome result (λ reply. Kept machine.now.shown
        × IsStep machine.now.shown machine.now.shown pid op.now reply × (is_no_entry reply ≡ true)) }
    ensures only { IsSome result → IsSome fault }
    ensures none { result ≡ None → IsSome fault → is_change op.now ≡ true → machine.now.lost ≡ false
        → needed (status (moment machine.now.shown.log) pid) op.now ≡ 0 }
{
    if fault.is_none() || !is_change(op) {
        return None;
    }
    machine.refusal(pid, op)
}

// What is remembered of a fault of appending. Where memory was refused, what is not appended waits, and that
// is no fault.
fn remembered(fault: StoreFault) -> Option<StoreFault>
    ensures { result ≡ remembered fault }
{
    match fault {
        StoreFault::NoMemory => None,
        fault => Some(fault),
    }
}

// Appends what the machine has committed.
fn append_all<M: Machine, D: Disk>(
    store: &mut Store<D>,
    machine: &mut Recording<M>,
) -> Option<StoreFault>
    ensures stands { (kept : List (List ℕ)) → HoldsMore (Some store.old) machine.old.shown.log kept
        → StandsFor result (Some store.new) machine.old.shown.log kept }
    ensures shown { machine.new.shown ≡ machine.old.shown }
{
    match store.flush(machine) {
        Ok(()) => None,
        Err(fault) => remembered(fault),
    }
}

// Sees that what the machine has committed is on the disk.
fn keep_all<M: Machine, D: Disk>(
    store: &mut Store<D>,
    machine: &mut Recording<M>,
) -> Option<StoreFault>
    ensures stands { (kept : List (List ℕ)) → HoldsMore (Some store.old) machine.old.shown.log kept
        → StandsFor result (Some store.new) machine.old.shown.log kept }
    ensures kept { IsNone result → (kept : List (List ℕ))
        → HoldsMore (Some store.old) machine.old.shown.log kept
        → IsKept (Some store.new) machine.old.shown.log kept }
    ensures shown { machine.new.shown ≡ machine.old.shown }
{
    match store.keep(machine) {
        Ok(()) => None,
        Err(fault) => Some(fault),
    }
}

// Does one or the other.
fn met_by<M: Machine, D: Disk>(
    store: &mut Store<D>,
    machine: &mut Recording<M>,
    all: bool,
) -> Option<StoreFault>
    ensures stands { (kept : List (List ℕ)) → HoldsMore (Some store.old) machine.old.shown.log kept
        → StandsFor result (Some store.new) machine.old.shown.log kept }
    ensures kept { all ≡ true → IsNone result → (kept : List (List ℕ))
        → HoldsMore (Some store.old) machine.old.shown.log kept
        → IsKept (Some store.new) machine.old.shown.log kept }
    ensures shown { machine.new.shown ≡ machine.old.shown }
{
    if all {
        return keep_all(store, machine);
    }
    append_all(store, machine)
}

// Does it where there is a store that has met no fault. What it meets is remembered, and from then on the
// store is asked nothing.
pub(crate) fn save<M: Machine, D: Disk>(
    store: &mut Option<Store<D>>,
    fault: &mut Option<StoreFault>,
    machine: &mut Recording<M>,
    all: bool,
)
    ensures stands { (kept : List (List ℕ))
        → StandsFor fault.old store.old machine.old.shown.log kept
        → StandsFor fault.new store.new machine.old.shown.log kept }
    ensures kept { all ≡ true → IsNone fault.new → (kept : List (List ℕ))
        → StandsFor fault.old store.old machine.old.shown.log kept
        → IsKept store.new machine.old.shown.log kept }
    ensures still { IsSome fault.old → (store.new ≡ store.old) × (fault.new ≡ fault.old) }
    ensures shown { machine.new.shown ≡ machine.old.shown }
{
    if fault.is_some() {
        return;
    }
    if let Some(store) = store {
        *fault = met_by(store, machine, all);
    }
}
