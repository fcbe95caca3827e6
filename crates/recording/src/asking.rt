// What an operation needs of the history, and what it is answered where its memory is refused.
ghost use Rattle.std.specs.Prelude.{◌≡◌, ◌≢◌, ◌≤◌, length};
ghost use Rattle.ids.specs.declared.limits.TheConstants.{MAX_PROCESSES};
ghost use Rattle.model.specs.Moments.{reserved, status};
ghost use Rattle.model.specs.Replies.{needed};
ghost use Rattle.machine.specs.Shown.{Kept, moment};
ghost use Rattle.redo_records.specs.Recording.{Follows};
ghost use Rattle.recording.specs.Noted.{needed_by, places_of, refusal};

use ids::{Op, Pid, Reply};
use machine::Machine;
use redo_records::{Recorder, Standing};

// How many free places an operation of such a process needs, which lives.
fn needed_by(standing: Standing, op: &Op) -> usize
    ensures { result ≡ needed_by standing op.now }
{
    match standing {
        Standing::IsDoomed => 0,
        Standing::Lives => match op {
            Op::Begin(_) | Op::Call(_) => 1,
            Op::End | Op::Abort { no_restart: _ } => 0,
        },
        Standing::Idle => match op {
            Op::Begin(_) => 2,
            Op::Call(_) | Op::End | Op::Abort { no_restart: _ } => 1,
        },
    }
}

// How many free places of the history an operation needs.
pub(crate) fn needed<M: Machine>(machine: &M, recorder: &Recorder, pid: Pid, op: &Op) -> usize
    requires kept { Kept (M.shown machine.now) }
    requires follows { Follows (moment (M.shown machine.now).log) recorder.now }
    ensures { result ≡ needed (status (moment (M.shown machine.now).log) pid) op.now }
{
    if machine.is_living(pid) {
        return needed_by(recorder.standing(pid), op);
    }
    1
}

// How many places the transaction of such a process holds.
fn places_of(standing: Standing) -> usize
    ensures { result ≡ places_of standing }
{
    match standing {
        Standing::Idle => 0,
        Standing::Lives | Standing::IsDoomed => 1,
    }
}

// How many places of the history all transactions hold.
fn held<M: Machine>(machine: &M, recorder: &Recorder) -> usize
    requires kept { Kept (M.shown machine.now) }
    requires few { length (M.shown machine.now).log.priorities ≤ MAX_PROCESSES }
    requires follows { Follows (moment (M.shown machine.now).log) recorder.now }
    ensures { result ≡ reserved (moment (M.shown machine.now).log) }
{
    let above = machine.made() as u32 + 1;
    let mut held = 0;
    for pid in 0..above {
        held += places_of(recorder.standing(Pid(pid)));
    }
    held
}

// What an operation is answered that was refused memory, and needs so many places of the history: that
// they are not there, if they are not.
pub(crate) fn refusal<M: Machine>(machine: &M, recorder: &Recorder, needed: usize) -> Reply
    requires some { needed ≢ 0 }
    requires kept { Kept (M.shown machine.now) }
    requires few { length (M.shown machine.now).log.priorities ≤ MAX_PROCESSES }
    requires follows { Follows (moment (M.shown machine.now).log) recorder.now }
    ensures { result ≡ refusal (M.shown machine.now).log needed }
{
    let held = held(machine, recorder);
    let history = machine.history();
    let count = history.entries().len();
    let left = history.limit() - count;
    let free = left.saturating_sub(held);
    if free < needed {
        return Reply::HistoryFull;
    }
    Reply::NoMemory
}
