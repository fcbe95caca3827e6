// The lines of one process.
ghost use Rattle.std.specs.Prelude.{◌≡◌, [], List, IfErr, IfOk, Some};
ghost use Rattle.ids.specs.declared.call.Op.{Op};
ghost use Rattle.ids.specs.declared.reply.Reply.{Reply};
ghost use Rattle.workers.specs.Events.{Comes, IsBorn};
ghost use Rattle.workers.specs.Families.{child_of};
ghost use Rattle.workers.specs.Positions.{shown};
ghost use Rattle.workers.specs.Port.{child_reply, grown};
ghost use Rattle.workers.specs.Rules.{after, asked};
ghost use Rattle.workers.specs.declared.worker.Event.TheVariants.{Forked};
ghost use Rattle.workers.specs.Work.{IsStopped, Stands};

use crate::{Port, Position, WorkFault};
use ids::{Answer, Call, Op, Pid, Reply};
use std::sync::Wait;

/// How far a worker has come: to the end of its work, to a fork that made a child, or to a refusal.
#[derive(Drop)]
pub(crate) enum Event<P> {
    Ended,
    Forked(Pid, P),
    Stopped(WorkFault),
}

// Asks for an operation. A fork that makes a child gives the child's number and port.
fn ask<R: Wait, P: Port>(rt: &R, port: &mut P, operation: Op) -> Result<(Pid, P), Reply>
    ensures same { (P.number port.new ≡ P.number port.old) × (P.home port.new ≡ P.home port.old) }
    ensures child { IfOk result (λ child. IsBorn P.number P.home P.done (P.home port.old)
        operation (P.done port.old) (P.done port.new) child.0 child.1) }
    ensures reply { IfErr result (λ reply.
        P.done port.new ≡ grown (P.done port.old) operation reply) }
    ensures childless { IfErr result (λ reply. child_of operation reply ≡ []) }
{
    if let Op::Call(Call::Fork) = &operation {
        drop(operation);
        port.fork(rt)
    } else {
        Err(port.call(rt, operation))
    }
}

// Gives up the transaction that the process is in, if it is in one.
fn stop<R: Wait, P: Port>(rt: &R, port: &mut P, position: &Position)
    ensures same { (P.number port.new ≡ P.number port.old) × (P.home port.new ≡ P.home port.old) }
    ensures stopped { (lines : List Op) → Stands lines (P.done port.old) (shown position.now)
        → IsStopped lines (P.done port.new) }
{
    if position.is_inside() {
        drop(port.call(rt, Op::Abort { no_restart: true }));
    }
}

// The worker goes on after a reply, or stops. The list has grown by the operation already.
fn take_reply<R: Wait, P: Port>(
    rt: &R,
    port: &mut P,
    position: &mut Position,
    reply: Reply,
) -> Option<Event<P>>
    ensures same { (P.number port.new ≡ P.number port.old) × (P.home port.new ≡ P.home port.old) }
    ensures comes { (lines : List Op) (before : List (Op × Reply)) (operation : Op)
        → Stands lines before (shown position.old)
        → asked (shown position.old) ≡ Some operation
        → child_of operation reply ≡ []
        → P.done port.old ≡ grown before operation reply
        → Comes P.number P.home P.done (P.home port.old) lines
        before (P.done port.new) (shown position.new) result }
{
    match WorkFault::of_reply(&reply) {
        Some(fault) => {
            drop(reply);
            stop(rt, port, position);
            Some(Event::Stopped(fault))
        }
        None => {
            position.after(&reply);
            drop(reply);
            None
        }
    }
}

// The reply of a fork that made this child.
fn child_reply(pid: Pid) -> Reply
    ensures { result ≡ child_reply pid }
{
    Reply::Answer(Answer::Child(pid))
}

// The worker goes on after a fork that made a child.
fn take_child<P: Port>(position: &mut Position, born: (Pid, P)) -> Event<P>
    ensures position { shown position.new ≡ after (shown position.old) (child_reply born.0) }
    ensures event { result ≡ Forked born.0 born.1 }
{
    let (pid, child) = born;
    let reply = child_reply(pid);
    position.after(&reply);
    drop(reply);
    Event::Forked(pid, child)
}

// One operation of a worker, if one is left.
fn step<R: Wait, P: Port>(rt: &R, port: &mut P, position: &mut Position) -> Option<Event<P>>
    ensures same { (P.number port.new ≡ P.number port.old) × (P.home port.new ≡ P.home port.old) }
    ensures comes { (lines : List Op) → Stands lines (P.done port.old) (shown position.old)
        → Comes P.number P.home P.done (P.home port.old) lines
        (P.done port.old) (P.done port.new) (shown position.new) result }
{
    match position.next() {
        Ok(Some(operation)) => match ask(rt, port, operation) {
            Ok(born) => Some(take_child(position, born)),
            Err(reply) => take_reply(rt, port, position, reply),
        },
        Ok(None) => Some(Event::Ended),
        Err(_) => {
            stop(rt, port, position);
            Some(Event::Stopped(WorkFault::NoMemory))
        }
    }
}

/// Goes on with the work of a process up to the next child, or to its end.
pub(crate) fn run_on<R: Wait, P: Port>(rt: &R, port: &mut P, position: &mut Position) -> Event<P>
    ensures same { (P.number port.new ≡ P.number port.old) × (P.home port.new ≡ P.home port.old) }
    ensures comes { (lines : List Op) → Stands lines (P.done port.old) (shown position.old)
        → Comes P.number P.home P.done (P.home port.old) lines
        (P.done port.old) (P.done port.new) (shown position.new) (Some result) }
{
    for _ in rt.forever() {
        if let Some(event) = step(rt, port, position) {
            return event;
        }
    }
    unreachable!()
}
