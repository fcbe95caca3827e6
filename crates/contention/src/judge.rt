// Who loses and who is doomed by a call's clashes.
ghost use Rattle.std.specs.Prelude.{◌≡◌, ℕ, ◌<◌, ◌∷◌, [], ◌==◌, Some, length, map, All, IfOk, OnOk};
ghost use Rattle.std.specs.Option.{option_or};
ghost use Rattle.std.specs.BTreeMap.{get};
ghost use Rattle.std.specs.Ordering.{nat_cmp};
ghost use Rattle.contention.specs.Losses.{IsVerdictOf, cause_of_loss, first_touch, told_below};
ghost use Rattle.contention.specs.Losses.{told_of};

use crate::rank::{Ranks, yields_to};
use crate::{Doomed, Twice, Verdict};
use conflict::Clash;
use heap::Heap;
use ids::{Cause, Pid, Rank, Touch};
use std::alloc::AllocError;
use std::collections::BTreeMap;

/// Each process of a call's clashes, with its touch in the first clash with it.
type Firsts = BTreeMap<u32, Touch, Heap>;

/// The cause of the first clash with a process against which the caller loses, `None` where it
/// loses against none. Refused memory is an error.
fn cause_of_loss(rank: Rank, clashes: &[Clash], ranks: &Ranks) -> Result<Option<Cause>, AllocError>
    requires { All (λ c. c.other < length ranks.now) clashes.now }
    ensures { IfOk result (λ cause. cause ≡ cause_of_loss rank ranks.now clashes.now) }
{
    for clash in clashes {
        if yields_to(rank, ranks.get(clash.other)) {
            return Ok(Some(Cause {
                touch: clash.mine.try_clone()?,
                other: clash.other,
            }));
        }
    }
    Ok(None)
}

/// Notes the process of a clash, unless it is there already.
fn note(firsts: &mut Firsts, clash: &Clash) -> Result<(), AllocError>
    ensures { OnOk result ((q : ℕ) → get nat_cmp firsts.new q
        ≡ option_or (get nat_cmp firsts.old q) (first_touch q (clash.now ∷ []))) }
{
    if !firsts.contains_key(&clash.other.0) {
        firsts.insert(clash.other.0, clash.theirs.try_clone()?)?;
    }
    Ok(())
}

/// All processes of these clashes. Refused memory is an error.
fn firsts_of(heap: Heap, clashes: &[Clash]) -> Result<Firsts, AllocError>
    ensures { IfOk result
        (λ firsts. (q : ℕ) → get nat_cmp firsts q ≡ first_touch q clashes.now) }
{
    let mut firsts = BTreeMap::new(heap);
    for clash in clashes {
        note(&mut firsts, clash)?;
    }
    Ok(firsts)
}

/// A process that is told by which touch it clashes with the caller.
fn told(caller: Pid, pid: u32, touch: Touch) -> Result<Doomed, AllocError>
    ensures { IfOk result (λ d. d ≡ told_of caller pid touch) }
{
    let cause = Twice::copied(Cause {
        touch,
        other: caller,
    })?;
    Ok(Doomed {
        pid: Pid(pid),
        cause,
    })
}

/// All of these, told.
fn told_all(heap: Heap, caller: Pid, firsts: Firsts) -> Result<Vec<Doomed, Heap>, AllocError>
    ensures { IfOk result (λ doomed. doomed.items
        ≡ map (λ e. told_of caller e.0 e.1) firsts.entry.entries) }
{
    let mut doomed = Vec::new(heap);
    for (pid, touch) in firsts {
        doomed.push(told(caller, pid, touch)?)?;
    }
    Ok(doomed)
}

/// All with which a call of the caller clashes, rising. Refused memory is an error.
fn doomed_by(heap: Heap, caller: Pid, clashes: &[Clash]) -> Result<Vec<Doomed, Heap>, AllocError>
    ensures { (n : ℕ) → All (λ c. c.other < n) clashes.now
        → IfOk result (λ doomed. doomed.items ≡ told_below caller clashes.now n) }
{
    let firsts = firsts_of(heap, clashes)?;
    // For the proof: `len` tells that the processes rise.
    let _count = firsts.len();
    told_all(heap, caller, firsts)
}

/// What a call comes to, by all its clashes, in order, and by the rank of its process, the caller.
/// It loses by the first clash with a process against which the caller loses: one of a higher
/// priority, or of its own where both are live and the other began earlier. Where it loses
/// against none, it dooms all with which it clashes, rising, and tells each its touch in the first
/// clash with it. Without clashes it takes no memory. Refused memory changes nothing.
pub fn verdict(
    heap: Heap,
    caller: Pid,
    rank: Rank,
    clashes: &[Clash],
    ranks: &Ranks,
) -> Result<Verdict, AllocError>
    requires { All (λ c. c.other < length ranks.now) clashes.now }
    ensures { IfOk result (IsVerdictOf caller rank ranks.now clashes.now) }
{
    if clashes.is_empty() {
        return Ok(Verdict::Go(Vec::new(heap)));
    }
    match cause_of_loss(rank, clashes, ranks)? {
        Some(cause) => Ok(Verdict::Lose(Twice::copied(cause)?)),
        None => Ok(Verdict::Go(doomed_by(heap, caller, clashes)?)),
    }
}
