// The calls of a record, made again.
ghost use Rattle.std.specs.Prelude.{◌≡◌, ◌∷◌, [], false, IfOk, OnOk};
ghost use Rattle.std.specs.List.{AllByRecursion};
ghost use Rattle.model.specs.Entries.{HistoryFull};
ghost use Rattle.machine.specs.Shown.{Kept};
ghost use Rattle.entry_codec.specs.Entries.{entries_bytes};
ghost use Rattle.redo_records.specs.Changing.{only_looks};
ghost use Rattle.store_form.specs.Stores.{told_of, IsOfChange, IsRecord};
ghost use Rattle.recovery.specs.Coming.{Answered, IsTold, Stays, Tells};

use crate::answers::{is_told, stop_by};
use crate::error::Stop;
use entry_codec::read_entries;
use heap::Heap;
use ids::{Answer, Call, Entry, Op, Pid, Reply};
use machine::Machine;
use redo_records::only_looks;
use std::alloc::AllocError;

// Makes a call that changes something, on a copy. Refused memory for the copy changes nothing.
fn make_once<M: Machine>(machine: &mut M, pid: Pid, call: &Call) -> Result<Reply, AllocError>
    requires kept { Kept (M.shown machine.old) }
    requires changing { only_looks call.now ≡ false }
    ensures kept { Kept (M.shown machine.new) }
    ensures answered { IfOk result (λ reply.
        Answered (M.shown machine.old).log (M.shown machine.new).log pid call.now reply) }
    ensures full { IfOk result (λ reply. reply ≡ HistoryFull
        → Stays (M.shown machine.old).log (M.shown machine.new).log) }
{
    let call = call.try_clone()?;
    Ok(machine.step(pid, Op::Call(call)))
}

// Gives the places of the history back. Where nothing can be forgotten the history stays full, which is
// told at the next call.
pub(crate) fn make_place<M: Machine>(machine: &mut M)
    requires { Kept (M.shown machine.old) }
    ensures kept { Kept (M.shown machine.new) }
    ensures stays { Stays (M.shown machine.old).log (M.shown machine.new).log }
{
    machine.forget();
}

// The same, behind a history that is forgotten.
fn make_later<M: Machine>(machine: &mut M, pid: Pid, call: &Call) -> Result<Reply, AllocError>
    requires kept { Kept (M.shown machine.old) }
    requires changing { only_looks call.now ≡ false }
    ensures kept { Kept (M.shown machine.new) }
    ensures answered { IfOk result (λ reply.
        Answered (M.shown machine.old).log (M.shown machine.new).log pid call.now reply) }
{
    make_place(machine);
    make_once(machine, pid, call)
}

// Makes a call that changes something; where its place is not free the history is forgotten first.
fn make_call<M: Machine>(machine: &mut M, pid: Pid, call: &Call) -> Result<Reply, AllocError>
    requires kept { Kept (M.shown machine.old) }
    requires changing { only_looks call.now ≡ false }
    ensures kept { Kept (M.shown machine.new) }
    ensures answered { IfOk result (λ reply.
        Answered (M.shown machine.old).log (M.shown machine.new).log pid call.now reply) }
{
    let first = make_once(machine, pid, call)?;
    match &first {
        Reply::HistoryFull => {
            drop(first);
            make_later(machine, pid, call)
        }
        _ => Ok(first),
    }
}

// Makes a call again that has this answer told.
fn call_again<M: Machine>(machine: &mut M, pid: Pid, call: &Call, told: &Answer) -> Result<(), Stop>
    requires { Kept (M.shown machine.old) }
    ensures kept { Kept (M.shown machine.new) }
    ensures told { OnOk result (IsTold
        (M.shown machine.old).log (M.shown machine.new).log pid call.now told.now) }
    ensures changing { OnOk result (only_looks call.now ≡ false) }
{
    if only_looks(call) {
        return Err(Stop::NotAChange);
    }
    let reply = make_call(machine, pid, call)?;
    let same = is_told(&reply, told);
    if same {
        return Ok(());
    }
    Err(stop_by(&reply))
}

// Makes the call of an entry again. One that is of no executed call is none of a store.
fn entry_again<M: Machine>(machine: &mut M, entry: &Entry) -> Result<(), Stop>
    requires { Kept (M.shown machine.old) }
    ensures kept { Kept (M.shown machine.new) }
    ensures tells { OnOk result (Tells
        (M.shown machine.old).log (M.shown machine.new).log (told_of (entry.now ∷ []))) }
    ensures is { OnOk result (IsOfChange entry.now) }
{
    let Op::Call(call) = &entry.op else {
        return Err(Stop::NotAChange);
    };
    let Reply::Answer(told) = &entry.reply else {
        return Err(Stop::NotAChange);
    };
    call_again(machine, entry.pid, call, told)?;
    Ok(())
}

// Makes the calls of these entries again, one after the other.
fn entries_again<M: Machine>(machine: &mut M, entries: &[Entry]) -> Result<(), Stop>
    requires { Kept (M.shown machine.old) }
    ensures kept { Kept (M.shown machine.new) }
    ensures tells { OnOk result (Tells
        (M.shown machine.old).log (M.shown machine.new).log (told_of entries.now)) }
    ensures are { OnOk result (AllByRecursion IsOfChange entries.now) }
{
    for entry in entries {
        entry_again(machine, entry)?;
    }
    Ok(())
}

// Reads a record and makes its calls again. It gives the entries.
pub(crate) fn record_again<M: Machine>(
    heap: Heap,
    machine: &mut M,
    payload: &[u8],
) -> Result<Vec<Entry, Heap>, Stop>
    requires { Kept (M.shown machine.old) }
    ensures kept { Kept (M.shown machine.new) }
    ensures tells { IfOk result (λ v. Tells
        (M.shown machine.old).log (M.shown machine.new).log (told_of v.items)) }
    ensures is { IfOk result (λ v. IsRecord v.items × (payload.now ≡ entries_bytes v.items)) }
{
    match read_entries(heap, payload) {
        Ok(entries) => {
            entries_again(machine, entries.as_slice())?;
            Ok(entries)
        }
        Err(e) => Err(Stop::of_read(e)),
    }
}
