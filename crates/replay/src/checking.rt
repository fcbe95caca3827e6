// The check of a stored history.
ghost use Rattle.std.specs.Prelude.{IfErr, OnOk};
ghost use Rattle.history.specs.Log.{kept};
ghost use Rattle.model.specs.Passing.{PassesForSome};
ghost use Rattle.replay.specs.Failing.{IsTold, IsUnchosen};
ghost use Rattle.replay.specs.Faults.{IsFault};

use crate::audit::{Stop, passes};
use crate::beginning::Beginning;
use crate::root::{first_unchosen, told_root};
use heap::Heap;
use history::History;
use ids::{Entry, Num};

/// Why a history does not pass, or is not decided.
#[derive(Clone, Copy, Debug, PartialEq, Eq)]
pub enum CheckFault {
    /// The history is wrong at this position, counted from 1.
    Wrong(usize),
    /// Memory was refused. It decides nothing.
    NoMemory,
}

/// Checks a stored history, of which all entries are kept: whether each entry suits its process's status, and a plain kernel
/// answers the committed calls as they were answered, with the numbers that they chose.
///
/// It judges plain calls and committed transactions alone: calls of aborted transactions, causes,
/// dooms, restart marks and positions may be anything. The root may have any number. `Wrong` has the
/// position of the first entry up to which the history passes for no root, or, where that entry commits
/// a transaction, of its first call up to which it cannot be run.
pub fn check(heap: Heap, history: &History) -> Result<(), CheckFault>
    ensures ok { OnOk result (PassesForSome
        (record { priorities = history.now.priorities; bounds = history.now.bounds })
        (kept history.now)) }
    ensures wrong { IfErr result (IsFault
        (record { priorities = history.now.priorities; bounds = history.now.bounds })
        (kept history.now)) }
{
    let entries = history.entries();
    let beginning = Beginning {
        priorities: history.priorities(),
        bounds: history.bounds(),
    };
    match first_unchosen(heap, entries) {
        Ok(guess) => check_from(heap, guess, &beginning, entries),
        Err(_) => Err(CheckFault::NoMemory),
    }
}

// Checks for a root that no entry chose, and, where a call tells of another, for that one.
fn check_from(
    heap: Heap,
    guess: Num,
    beginning: &Beginning<'_>,
    entries: &[Entry],
) -> Result<(), CheckFault>
    requires { IsUnchosen guess entries.now }
    ensures ok { OnOk result (PassesForSome beginning.now entries.now) }
    ensures wrong { IfErr result (IsFault beginning.now entries.now) }
{
    match passes(heap, guess, beginning, entries) {
        Ok(()) => Ok(()),
        Err(Stop::Wrong { entry, call }) => match told_root(entries, call) {
            Some(root) => check_told(heap, root, beginning, entries, (entry, call)),
            None => Err(CheckFault::Wrong(call + 1)),
        },
        Err(Stop::NoMemory) => Err(CheckFault::NoMemory),
    }
}

// Checks for the root that a call tells of. No other root comes further than that call.
fn check_told(
    heap: Heap,
    root: Num,
    beginning: &Beginning<'_>,
    entries: &[Entry],
    first: (usize, usize),
) -> Result<(), CheckFault>
    requires { IsTold beginning.now entries.now root first.0 first.1 }
    ensures ok { OnOk result (PassesForSome beginning.now entries.now) }
    ensures wrong { IfErr result (IsFault beginning.now entries.now) }
{
    match passes(heap, root, beginning, entries) {
        Ok(()) => Ok(()),
        Err(Stop::Wrong { entry, call }) => {
            let later = (entry, call).max(first);
            Err(CheckFault::Wrong(later.1 + 1))
        }
        Err(Stop::NoMemory) => Err(CheckFault::NoMemory),
    }
}
