// A step of a machine, and what is noted of it.
ghost use Rattle.std.specs.Prelude.{◌≡◌, ◌≤◌, length, IfSome};
ghost use Rattle.ids.specs.declared.limits.TheConstants.{MAX_PROCESSES};
ghost use Rattle.machine.specs.Shown.{Kept};
ghost use Rattle.machine.specs.Steps.{is_no_entry, IsStep};
ghost use Rattle.redo_records.specs.Recording.{HasRoom};
ghost use Rattle.recording.specs.Noted.{AreFaithful, CanNote, Keep};

use crate::asking::{needed, refusal};
use crate::notes::Notes;
use ids::{Op, Pid, Reply};
use machine::Machine;
use std::alloc::AllocError;

// Whether a reply stands for no entry.
fn is_no_entry(reply: &Reply) -> bool
    ensures { result ≡ is_no_entry reply.now }
{
    matches!(reply, Reply::HistoryFull | Reply::NoMemory)
}

// Notes the entry that a step has made, the last of the history. `op` is a copy of its operation.
fn note_last<M: Machine>(machine: &M, notes: &mut Notes, op: Option<Op>)
    requires { CanNote (M.shown machine.now).log notes.old op }
    ensures faithful { AreFaithful (M.shown machine.now).log notes.new }
    ensures taken { notes.new.taken ≡ notes.old.taken }
{
    match machine.history().entries().last() {
        Some(entry) => notes.note(op, entry),
        None => {
            drop(op);
            notes.lost = true;
        }
    }
}

// One operation, for which memory was asked. `copy` is a copy of it, where there is one.
fn take_step<M: Machine>(
    machine: &mut M,
    notes: &mut Notes,
    pid: Pid,
    op: Op,
    copy: Option<Op>,
) -> Reply
    requires keep { Keep (M.shown machine.old).log notes.old }
    requires room { HasRoom notes.old.recorder pid op }
    requires copy { IfSome copy (λ copy. copy ≡ op) }
    ensures kept { Kept (M.shown machine.new) }
    ensures step { IsStep (M.shown machine.old) (M.shown machine.new) pid op result }
    ensures faithful { AreFaithful (M.shown machine.new).log notes.new }
    ensures taken { notes.new.taken ≡ notes.old.taken }
{
    let reply = machine.step(pid, op);
    if is_no_entry(&reply) {
        drop(copy);
        return reply;
    }
    note_last(machine, notes, copy);
    reply
}

/// One operation, which is noted, if nothing was lost. What its record needs is refused before the step,
/// as memory of the step itself may be.
pub(crate) fn step<M: Machine>(machine: &mut M, notes: &mut Notes, pid: Pid, mut op: Op) -> Reply
    requires kept { Kept (M.shown machine.old) }
    requires faithful { AreFaithful (M.shown machine.old).log notes.old }
    requires few { length (M.shown machine.old).log.priorities ≤ MAX_PROCESSES }
    ensures kept { Kept (M.shown machine.new) }
    ensures step { IsStep (M.shown machine.old) (M.shown machine.new) pid op result }
    ensures faithful { AreFaithful (M.shown machine.new).log notes.new }
    ensures few { length (M.shown machine.new).log.priorities ≤ MAX_PROCESSES }
    ensures taken { notes.new.taken ≡ notes.old.taken }
{
    let lost = notes.lost;
    if lost {
        return machine.step(pid, op);
    }
    let places = needed(machine, &notes.recorder, pid, &op);
    match notes.ask(pid, &mut op, places) {
        Ok(copy) => take_step(machine, notes, pid, op, copy),
        Err(AllocError) => {
            drop(op);
            refusal(machine, &notes.recorder, places)
        }
    }
}
