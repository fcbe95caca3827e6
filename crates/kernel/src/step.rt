// One operation of one process.
//
// For the proof: an operation that is not executed goes by `drop`, which is one call. Where it goes by
// itself, the proof opens it field by field.
ghost use Rattle.std.specs.Prelude.{◌≡◌, false};
ghost use Rattle.model.specs.Entries as entries;
ghost use Rattle.model.specs.Entries.{is_inside};
ghost use Rattle.model.specs.Legal.{restarts};
ghost use Rattle.model.specs.Moments.{Status, has_free, status};
ghost use Rattle.model.specs.Replies.{needed};
ghost use Rattle.machine.specs.Shown.{limit_of, moment};
ghost use Rattle.kernel.specs.States.{Asks, Calls, Does, IsConsistent, Stands, fields};

use crate::execute::{aborted, run};
use crate::state::{Live, State, add_entry, end_transaction};
use commit::Standing;
use contention::Twice;
use heap::Heap;
use ids::{Age, BeginFlags, Bytes, Call, Errno, Op, Pid, Reply, Why};
use std::alloc::AllocError;
use std::mem::replace;

/// What the process is.
fn standing_of(s: &State, pid: Pid) -> Standing
    requires { IsConsistent (fields s.now) }
    ensures { Stands result (status (moment s.now.history) pid) }
{
    s.transactions.standing(pid)
}

/// How many free places of the history the operation needs.
fn needed(standing: &Standing, op: &Op) -> usize
    ensures { (s : Status) → Stands standing.now s → result ≡ needed s op.now }
{
    match standing {
        Standing::Gone => 1,
        Standing::Doomed(_, _) => 0,
        Standing::Idle => match op {
            Op::Begin(_) => 2,
            Op::Call(_) | Op::End | Op::Abort { .. } => 1,
        },
        Standing::Live(_, _) => match op {
            Op::Begin(_) | Op::Call(_) => 1,
            Op::End | Op::Abort { .. } => 0,
        },
    }
}

/// Whether so many places are free.
fn has_free(s: &State, needed: usize) -> bool
    requires { IsConsistent (fields s.now) }
    ensures { result ≡ has_free (limit_of s.now.history) (moment s.now.history) needed }
{
    let held = s.transactions.count();
    s.history.limit() - s.history.entries().len() - held >= needed
}

/// Whether a transaction with these flags is begun anew at this operation, if a place is free.
fn is_restarted(s: &State, flags: BeginFlags, op: &Op) -> bool
    requires { IsConsistent (fields s.now) }
    ensures { result ≡ restarts (limit_of s.now.history) (moment s.now.history) flags op.now }
{
    match op {
        Op::Call(_) | Op::Begin(_) | Op::End => flags.restarts() && has_free(s, 1),
        Op::Abort { no_restart } => flags.restarts() && (!*no_restart && has_free(s, 1)),
    }
}

/// Begins a transaction.
fn begin(s: &mut State, pid: Pid, flags: BeginFlags) -> Reply
    requires { Asks (fields s.old) pid Standing.Idle (entries.Begin flags) }
    ensures { Does (fields s.old) (fields s.new) pid (entries.Begin flags) result }
{
    let age = Age(s.history.count() + 1);
    let told = Twice::new(Reply::Begun, Reply::Begun);
    end_transaction(s, pid, Op::Begin(flags), told, true, (flags, age))
}

/// Gives a live transaction up, and begins it anew where its flags say so and a place is free.
fn give_up(s: &mut State, pid: Pid, flags: BeginFlags, age: Age, no_restart: bool) -> Reply
    requires { Asks (fields s.old) pid (Standing.Live flags age) (entries.Abort no_restart) }
    ensures { Does (fields s.old) (fields s.new) pid (entries.Abort no_restart) result }
{
    let op = Op::Abort { no_restart };
    let restarted = is_restarted(s, flags, &op);
    let told = Twice::new(Reply::GivenUp { restarted }, Reply::GivenUp { restarted });
    end_transaction(s, pid, op, told, restarted, (flags, age))
}

/// Commits a live transaction: its changes are made in one step. It takes no memory.
fn end(s: &mut State, pid: Pid, flags: BeginFlags, age: Age) -> Reply
    requires { Asks (fields s.old) pid (Standing.Live flags age) entries.End }
    ensures { Does (fields s.old) (fields s.new) pid entries.End result }
{
    s.transactions.end(pid);
    let told = Twice::new(Reply::Committed, Reply::Committed);
    end_transaction(s, pid, Op::End, told, false, (flags, age))
}

/// Tells a doomed process why. The operation is not executed. It takes no memory.
fn notice(s: &mut State, pid: Pid, flags: BeginFlags, age: Age, op: Op) -> Reply
    requires { Asks (fields s.old) pid (Standing.Doomed flags age) op }
    ensures { Does (fields s.old) (fields s.new) pid op result }
{
    let restarted = is_restarted(s, flags, &op);
    let Some(cause) = s.transactions.take_cause(pid) else {
        drop(op);
        return Reply::NoProcess;
    };
    let told = aborted(cause, restarted);
    end_transaction(s, pid, op, told, restarted, (flags, age))
}

/// Has content stand where copies of it take no memory. Where memory for that is refused, it stays
/// as it is.
fn share(heap: Heap, content: &mut Bytes)
    ensures { content.new ≡ content.old }
{
    let all = replace(content, Bytes::new(Vec::new(heap)));
    *content = all.shared();
}

/// Has what a call writes shared, so that its edit is no copy.
fn share_content(heap: Heap, call: &mut Call)
    ensures { call.new ≡ call.old }
{
    match call {
        Call::Write(_, content) => share(heap, content),
        Call::Pwrite(_, content, _) => share(heap, content),
        _ => {}
    }
}

/// A call of a process in no transaction or in a live one.
fn step_call(s: &mut State, pid: Pid, within: Option<Live>, mut call: Call) -> Reply
    requires { Calls (fields s.old) pid within call }
    ensures { Does (fields s.old) (fields s.new) pid (entries.Do call) result }
{
    share_content(s.heap, &mut call);
    match run(s, pid, within, call) {
        Ok(reply) => reply,
        Err(AllocError) => Reply::NoMemory,
    }
}

/// Whether transactions support the call.
fn is_supported(call: &Call) -> bool
    ensures { result ≡ is_inside call.now }
{
    !matches!(call, Call::Fork | Call::Exit)
}

/// A call that transactions do not support is not executed. Where the transaction's flags say so,
/// it aborts the transaction. It takes no memory.
fn deny(s: &mut State, pid: Pid, flags: BeginFlags, age: Age, call: Call) -> Reply
    requires asks { Asks (fields s.old) pid (Standing.Live flags age) (entries.Do call) }
    requires outside { is_inside call ≡ false }
    ensures { Does (fields s.old) (fields s.new) pid (entries.Do call) result }
{
    let op = Op::Call(call);
    if flags.aborts_unsupported() {
        let told = Twice::new(unsupported(), unsupported());
        end_transaction(s, pid, op, told, false, (flags, age))
    } else {
        let refused = Twice::new(Reply::Errno(Errno::ENOTSUP), Reply::Errno(Errno::ENOTSUP));
        add_entry(s, pid, op, refused)
    }
}

/// The reply that tells of a call that transactions do not support.
fn unsupported() -> Reply
    ensures { result ≡ entries.Aborted entries.Unsupported false }
{
    Reply::Aborted {
        why: Why::Unsupported,
        restarted: false,
    }
}

/// The reply to an end or an abort outside a transaction.
fn outside() -> Twice<Reply>
    ensures { result ≡ entries.NotInTransaction }
{
    Twice::new(Reply::NotInTransaction, Reply::NotInTransaction)
}

/// An operation of a process that is in no transaction.
fn step_idle(s: &mut State, pid: Pid, op: Op) -> Reply
    requires { Asks (fields s.old) pid Standing.Idle op }
    ensures { Does (fields s.old) (fields s.new) pid op result }
{
    match op {
        Op::Begin(flags) => begin(s, pid, flags),
        Op::Call(call) => step_call(s, pid, None, call),
        Op::End => add_entry(s, pid, Op::End, outside()),
        Op::Abort { no_restart } => add_entry(s, pid, Op::Abort { no_restart }, outside()),
    }
}

/// An operation of a process that is in a live transaction.
fn step_live(s: &mut State, pid: Pid, flags: BeginFlags, age: Age, op: Op) -> Reply
    requires { Asks (fields s.old) pid (Standing.Live flags age) op }
    ensures { Does (fields s.old) (fields s.new) pid op result }
{
    match op {
        Op::End => end(s, pid, flags, age),
        Op::Abort { no_restart } => give_up(s, pid, flags, age, no_restart),
        Op::Call(call) if is_supported(&call) => step_call(s, pid, Some((flags, age)), call),
        Op::Call(call) => deny(s, pid, flags, age, call),
        Op::Begin(flags) => {
            let told = Twice::new(Reply::InTransaction, Reply::InTransaction);
            add_entry(s, pid, Op::Begin(flags), told)
        }
    }
}

/// One operation of one process. HistoryFull and NoMemory change nothing.
pub fn step(s: &mut State, pid: Pid, op: Op) -> Reply
    requires { IsConsistent (fields s.old) }
    ensures { Does (fields s.old) (fields s.new) pid op result }
{
    let standing = standing_of(s, pid);
    if !has_free(s, needed(&standing, &op)) {
        drop(op);
        return Reply::HistoryFull;
    }
    match standing {
        Standing::Gone => add_entry(s, pid, op, Twice::new(Reply::NoProcess, Reply::NoProcess)),
        Standing::Idle => step_idle(s, pid, op),
        Standing::Live(flags, age) => step_live(s, pid, flags, age, op),
        Standing::Doomed(flags, age) => notice(s, pid, flags, age, op),
    }
}
