// One line of a stream, as it is done.
ghost use Rattle.std.specs.Prelude.{◌≡◌, ◌≢◌, [], is_some, IfErr, IfOk, OnErr, OnOk, Option};
ghost use Rattle.machine.specs.Shown.{Kept};
ghost use Rattle.script.specs.Lines.{further_line_of};
ghost use Rattle.stream.specs.Doing.{Refused};
ghost use Rattle.stream.specs.Heard.{ComesFurther, Follows, HasDone, HasGrown, IsOfLine};
ghost use Rattle.stream.specs.Heard.{Refuses, StopsFurther, fault_of_full};
ghost use Rattle.stream.specs.declared.follower.Follower.{Follower};

use crate::doing::{StepRefusal, do_step};
use crate::fault::StreamFault;
use crate::follower::Follower;
use crate::heard::Heard;
use crate::settling::settle;
use heap::Heap;
use machine::Machine;
use script::{Line, ScriptFault, read_further_line};

// Executes the operation of a line.
fn do_line<K: Machine>(kernel: &mut K, line: Line) -> Result<Heard, StepRefusal>
    requires { Kept (K.shown kernel.old) }
    ensures kept { Kept (K.shown kernel.new) }
    ensures heard { IfOk result (λ heard. heard ≡ Heard.Operation) }
    ensures done { OnOk result
        (HasDone line.pid line.op (K.shown kernel.old) (K.shown kernel.new)) }
    ensures unchanged { OnErr result (K.shown kernel.new ≡ K.shown kernel.old) }
    ensures refused { IfErr result (Refused (K.shown kernel.old).log line.pid line.op) }
    ensures followed { (follower : Option Follower)
        → Follows follower (K.shown kernel.old).log → Follows follower (K.shown kernel.new).log }
{
    let Line { pid, op, number: _ } = line;
    match do_step(kernel, pid, op) {
        Ok(()) => Ok(Heard::Operation),
        Err(refusal) => Err(refusal),
    }
}

// A fault of a line is heard, but for refused memory, which says nothing of the line.
pub(crate) fn heard_fault(fault: ScriptFault) -> Result<Heard, StepRefusal>
    ensures heard { IfOk result (λ heard. heard ≡ Heard.Fault fault) }
    ensures no_memory { OnOk result (fault ≢ ScriptFault.NoMemory) }
    ensures refused { IfErr result (λ refusal. refusal ≡ StepRefusal.NoMemory) }
{
    match fault {
        ScriptFault::NoMemory => Err(StepRefusal::NoMemory),
        _ => Ok(Heard::Fault(fault)),
    }
}

// Does a line behind the priorities, which has this number. Where it is refused nothing has
// changed.
fn try_line<K: Machine>(
    heap: Heap,
    number: usize,
    line: &[u8],
    kernel: &mut K,
) -> Result<Heard, StepRefusal>
    ensures kept { Kept (K.shown kernel.new) }
    ensures comes { IfOk result (ComesFurther
        (further_line_of number line.now) (K.shown kernel.old) (K.shown kernel.new)) }
    ensures unchanged { OnErr result (K.shown kernel.new ≡ K.shown kernel.old) }
    ensures refused { IfErr result
        (Refuses (further_line_of number line.now) (K.shown kernel.new)) }
    ensures followed { (follower : Option Follower)
        → Follows follower (K.shown kernel.old).log → Follows follower (K.shown kernel.new).log }
{
    // For the proof: the kernel's history is legal.
    let _history = kernel.history();
    match read_further_line(heap, number, line) {
        Ok(None) => Ok(Heard::Nothing),
        Ok(Some(spoken)) => do_line(kernel, spoken),
        Err(fault) => heard_fault(fault),
    }
}

// Why a line whose places are not free stops the stream: nothing is kept, or it cannot be forgotten.
fn fault_of_full<K: Machine>(kernel: &K) -> StreamFault
    ensures { result ≡ fault_of_full (K.shown kernel.now).log }
{
    if kernel.history().entries().is_empty() {
        StreamFault::HistoryFull
    } else {
        StreamFault::Spent
    }
}

// Does a line for which the places were not free: once what is kept is forgotten, where that can
// be. The operation was given away, so the line is read again.
fn hear_again<K: Machine>(
    heap: Heap,
    number: usize,
    line: &[u8],
    kernel: &mut K,
    follower: &mut Option<Follower>,
) -> Result<Heard, StreamFault>
    ensures comes { IfOk result (ComesFurther
        (further_line_of number line.now) (K.shown kernel.old) (K.shown kernel.new)) }
    ensures followed { OnOk result (Follows follower.old (K.shown kernel.old).log
        → Follows follower.new (K.shown kernel.new).log) }
    ensures same { OnOk result (is_some follower.new ≡ is_some follower.old) }
    ensures grown { OnErr result (HasGrown (K.shown kernel.old) (K.shown kernel.new) []) }
    ensures stops { IfErr result (λ why. Follows follower.old (K.shown kernel.old).log
        → StopsFurther (further_line_of number line.now) (K.shown kernel.new) why) }
    ensures of_line { IfErr result IsOfLine }
{
    match settle(kernel, follower) {
        Ok(()) => match try_line(heap, number, line, kernel) {
            Ok(heard) => Ok(heard),
            Err(StepRefusal::HistoryFull) => Err(fault_of_full(kernel)),
            Err(StepRefusal::NoMemory) => Err(StreamFault::NoMemory),
        },
        Err(fault) => Err(fault),
    }
}

// Does a line behind the priorities, which has this number. Where no place is free, what was done
// is checked and forgotten first. So the history is full only where nothing is kept in it, and the
// stream is spent only where that cannot be forgotten.
pub(crate) fn hear_further<K: Machine>(
    heap: Heap,
    number: usize,
    line: &[u8],
    kernel: &mut K,
    follower: &mut Option<Follower>,
) -> Result<Heard, StreamFault>
    ensures comes { IfOk result (ComesFurther
        (further_line_of number line.now) (K.shown kernel.old) (K.shown kernel.new)) }
    ensures followed { OnOk result (Follows follower.old (K.shown kernel.old).log
        → Follows follower.new (K.shown kernel.new).log) }
    ensures same { OnOk result (is_some follower.new ≡ is_some follower.old) }
    ensures grown { OnErr result (HasGrown (K.shown kernel.old) (K.shown kernel.new) []) }
    ensures stops { IfErr result (λ why. Follows follower.old (K.shown kernel.old).log
        → StopsFurther (further_line_of number line.now) (K.shown kernel.new) why) }
    ensures of_line { IfErr result IsOfLine }
{
    match try_line(heap, number, line, kernel) {
        Ok(heard) => Ok(heard),
        Err(StepRefusal::HistoryFull) => hear_again(heap, number, line, kernel, follower),
        Err(StepRefusal::NoMemory) => Err(StreamFault::NoMemory),
    }
}
