// All clashes of a call's touches, in order.
ghost use Rattle.std.specs.Prelude.{◌≡◌, ℕ, List, ◌++◌, IfOk};
ghost use Rattle.model.specs.Steps.{Touch};
ghost use Rattle.records.specs.Holders.{has_mark};
ghost use Rattle.conflict.specs.Clashing.{is_found, AreClashes, AreClashesOf};
ghost use Rattle.conflict.specs.Order.{AreOfTouch};
ghost use Rattle.conflict.specs.declared.found.Clash.{Clash};

use crate::found::Clash;
use heap::Heap;
use ids::{Pid, Touch};
use records::{Mark, Records};
use std::alloc::AllocError;
use std::collections::BTreeSet;

/// The clashes of a touch with these marks, in order. With no marks it takes no memory.
fn in_order(
    heap: Heap,
    touch: &Touch,
    marks: Vec<Mark, Heap>,
) -> Result<BTreeSet<Clash, Heap>, AllocError>
    ensures mine { IfOk result (λ set. AreOfTouch touch.now set.keys) }
    ensures exact { IfOk result (λ set. (q : ℕ) → (u : Touch) → is_found q u set.keys
        ≡ has_mark q u marks.entry.items) }
{
    let mut set = BTreeSet::new(heap);
    for mark in marks {
        let Mark {
            touch: theirs,
            pid: other,
        } = mark;
        let mine = touch.try_clone()?;
        set.insert(Clash {
            mine,
            theirs,
            other,
        })?;
    }
    Ok(set)
}

/// Adds the clashes of one touch. Where there are none, nothing is put in order.
fn add_clashes_of(
    heap: Heap,
    records: &Records,
    caller: Pid,
    touch: &Touch,
    found: Vec<Clash, Heap>,
) -> Result<Vec<Clash, Heap>, AllocError>
    ensures { IfOk result (λ all. (own : List Clash) × (all.items ≡ found.entry.items ++ own)
        × AreClashesOf records.now caller touch.now own) }
{
    let marks = records.holders(caller, touch)?;
    if marks.is_empty() {
        return Ok(found);
    }
    let set = in_order(heap, touch, marks)?;
    let mut all = found;
    for clash in set {
        all.push(clash)?;
    }
    Ok(all)
}

/// All clashes of these touches of the caller with what the other processes have touched: in the
/// order of the touches; of each touch by the processes' numbers; and of each process on the
/// touch's own aspect a write before a read, then the others in the byte order of their names.
/// Refused memory is an error.
pub fn clashes(
    heap: Heap,
    records: &Records,
    caller: Pid,
    counted: &[Touch],
) -> Result<Vec<Clash, Heap>, AllocError>
    ensures { IfOk result (λ found. AreClashes records.now caller counted.now found.items) }
{
    let mut found = Vec::new(heap);
    for touch in counted {
        found = add_clashes_of(heap, records, caller, touch, found)?;
    }
    Ok(found)
}
