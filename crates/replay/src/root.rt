// The number of the root, which a history tells by a `stat` or an `lstat` of it alone.
ghost use Rattle.std.specs.Prelude.{◌≡◌, ◌≢◌, ◌∷◌, ℕ, List, [], All, IfOk, Some, true};
ghost use Rattle.std.specs.List.{AllByRecursion};
ghost use Rattle.std.specs.List.Sorted.{IsNonDecreasing};
ghost use Rattle.model.specs.Entries.{Executed};
ghost use Rattle.renaming_laws.specs.Laws.{IsStatOfRoot, TellsRoot};
ghost use Rattle.replay.specs.Failing.{IsUnchosen, TellsAt};
ghost use Rattle.replay.specs.Transactions.{call_in};

use heap::Heap;
use ids::{Answer, Call, Entry, Num, Op, Reply};
use std::alloc::AllocError;

// The first number that no entry chose for a new object.
pub(crate) fn first_unchosen(heap: Heap, entries: &[Entry]) -> Result<Num, AllocError>
    ensures { IfOk result (λ n. IsUnchosen n entries.now) }
{
    let mut chosen = all_chosen(heap, entries)?;
    chosen.sort_unstable();
    Ok(Num(first_missing(chosen.as_slice())))
}

// The numbers that entries chose.
fn all_chosen(heap: Heap, entries: &[Entry]) -> Result<Vec<usize, Heap>, AllocError>
    ensures { IfOk result (λ all. (n : ℕ) → AllByRecursion (λ m. m ≢ n) all.items
        → IsUnchosen n entries.now) }
{
    let mut all = Vec::new(heap);
    for entry in entries {
        let chosen = entry.chosen.as_slice();
        for num in chosen {
            all.push(num.0)?;
        }
    }
    Ok(all)
}

// The first number that stands nowhere in a list that rises.
fn first_missing(rising: &[usize]) -> usize
    requires { IsNonDecreasing rising.now }
    ensures { All (λ m. m ≢ result) rising.now }
{
    let mut missing = 0;
    for num in rising {
        if *num == missing {
            missing += 1;
        }
    }
    missing
}

// Whether a call is for the status of the path `/`.
fn is_stat_of_root(call: &Call) -> bool
    ensures { IsStatOfRoot call.now → result ≡ true }
{
    match call {
        Call::Stat(path) | Call::Lstat(path) => path.as_slice() == b"/".as_slice(),
        _ => false,
    }
}

// What an entry tells of the root's number, if it is an executed `stat` or `lstat` of it.
pub(crate) fn told_root(entries: &[Entry], position: usize) -> Option<Num>
    ensures { (root : ℕ) → TellsAt root entries.now position → result ≡ Some root }
{
    let entry = entries.get(position)?;
    match (&entry.op, &entry.reply) {
        (Op::Call(call), Reply::Answer(Answer::Stat(stat))) if is_stat_of_root(call) => {
            Some(stat.num)
        }
        _ => None,
    }
}
