// Processes and their transactions.
ghost use Rattle.std.specs.Prelude.{◌≡◌, IfOk};
ghost use Rattle.ids.specs.declared.call.Call.TheVariants as asked;
ghost use Rattle.ids.specs.declared.limits.TheConstants.{DESCRIPTORS};
ghost use Rattle.course.specs.Hands.{IsChild, bound};
ghost use Rattle.course.specs.Course.{Ran};
ghost use Rattle.course.specs.Courses.{beginning, calling, ending, forking, giving_up};

use crate::fault::{Fault, begun_in, child_in, committed_in, given_up_in};
use crate::hand::Hand;
use ids::{BeginFlags, Call, DESCRIPTORS, Fd, Op, Pid, Reply};
use machine::Machine;

/// Makes a process with the same descriptors and priority. Its number is the next one.
pub fn fork<K: Machine>(hand: &mut Hand<K>) -> Result<Pid, Fault>
    ensures bound { bound hand.new ≡ bound hand.old }
    ensures ran { Ran hand.old.shown
        (forking hand.old.pid) result hand.new.shown }
    ensures child { IfOk result (λ child.
        IsChild hand.old.shown hand.old.pid child hand.new.shown) }
{
    let reply = hand.ask(Call::Fork);
    child_in(reply)
}

/// Begins a transaction that does not begin anew after an abort.
pub fn begin<K: Machine>(hand: &mut Hand<K>) -> Result<(), Fault>
    ensures bound { bound hand.new ≡ bound hand.old }
    ensures ran { Ran hand.old.shown
        (beginning hand.old.pid) result hand.new.shown }
{
    let reply = hand.step(Op::Begin(BeginFlags::none()));
    begun_in(reply)
}

/// Commits the transaction of a process.
pub fn end<K: Machine>(hand: &mut Hand<K>) -> Result<(), Fault>
    ensures bound { bound hand.new ≡ bound hand.old }
    ensures ran { Ran hand.old.shown
        (ending hand.old.pid) result hand.new.shown }
{
    let reply = hand.step(Op::End);
    committed_in(reply)
}

/// Gives the transaction of a process up.
pub fn give_up<K: Machine>(hand: &mut Hand<K>) -> Result<(), Fault>
    ensures bound { bound hand.new ≡ bound hand.old }
    ensures ran { Ran hand.old.shown
        (giving_up hand.old.pid) result hand.new.shown }
{
    let reply = hand.step(Op::Abort { no_restart: true });
    given_up_in(reply)
}

/// Looks at a descriptor that is never open. It touches nothing, and a process whose transaction was
/// doomed learns of it.
pub fn look_nowhere<K: Machine>(hand: &mut Hand<K>) -> Reply
    ensures bound { bound hand.new ≡ bound hand.old }
    ensures ran { Ran hand.old.shown
        (calling hand.old.pid (asked.Fstat DESCRIPTORS)) result hand.new.shown }
{
    hand.ask(Call::Fstat(Fd(DESCRIPTORS as u32)))
}
