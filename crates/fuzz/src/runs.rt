// Scripts run as the program runs them, and step by step.
ghost use Rattle.std.specs.Prelude.{◌≡◌};

use crate::cases::Case;
use crate::difference::{Difference, require};
use crate::places::{Expected, Places, is_marked, restarted};
use crate::tally::Tally;
use crate::told::try_told;
use crate::trials::Trials;
use device::{Halting, Portions};
use heap::Heap;
use history::History;
use ids::{Entry, Limits, MAX_PROCESSES, Op, Pid, Priority, Reply};
use machine::Machine;
use replay::check;
use runner::{RunFault, print, run_schedule};
use script::{Script, read_schedule, read_script, steps_of};
use std::alloc::AllocError;

// More entries than a random script ever has.
const AMPLE: usize = 4096;

pub(crate) type Steps = Vec<(Pid, Op), Heap>;

fn open_sink(heap: Heap) -> Halting
    ensures { result.failures ≡ 0 }
{
    Halting {
        bytes: Vec::new(heap),
        left: usize::MAX,
        failures: 0,
    }
}

// A list as text. It is ASCII, whatever has become of it.
pub(crate) fn text_of(list: &[u8]) -> &str {
    match std::str::from_utf8(list) {
        Ok(text) => text,
        Err(_) => ",",
    }
}

// The fault of a history that does not pass the check.
fn check_history(heap: Heap, history: &History) -> Result<(), RunFault> {
    match check(heap, history) {
        Ok(()) => Ok(()),
        Err(fault) => Err(RunFault::of_check(fault)),
    }
}

fn run_into<K: Machine>(heap: Heap, case: &Case, sink: &mut Halting) -> Result<(), RunFault>
    requires { sink.old.failures ≡ 0 }
{
    let mut source = Portions {
        bytes: case.script.as_slice(),
        most: 4096,
    };
    let list = text_of(case.list.as_slice());
    match run_schedule::<K, _, _>(heap, &mut source, list, Limits::of_entries(AMPLE), sink) {
        Ok(kernel) => {
            let checked = check_history(heap, kernel.history());
            drop(kernel);
            checked
        }
        Err(fault) => Err(fault),
    }
}

// The transcript of a script, run as the program does and checked, or the fault.
pub(crate) fn run_whole<K: Machine>(heap: Heap, case: &Case) -> Result<Vec<u8, Heap>, RunFault> {
    let mut sink = open_sink(heap);
    run_into::<K>(heap, case, &mut sink)?;
    Ok(sink.bytes)
}

// The transcript of a history, which has to pass the check.
pub(crate) fn transcript_of(heap: Heap, history: &History) -> Result<Vec<u8, Heap>, Difference> {
    let mut sink = open_sink(heap);
    let checked = check_history(heap, history).is_ok();
    require(checked, Difference::Unchecked)?;
    let printed = print(history, &mut sink).is_ok();
    require(printed, Difference::Fault)?;
    Ok(sink.bytes)
}

// What a script and its schedule come to: the priorities of the processes, and the steps.
#[derive(Drop)]
pub(crate) struct Plan {
    pub(crate) priorities: Vec<Priority, Heap>,
    pub(crate) steps: Steps,
}

fn script_of(heap: Heap, case: &Case) -> Result<Script, Difference> {
    match read_script(heap, case.script.as_slice()) {
        Ok(script) => Ok(script),
        Err(_) => Err(Difference::Fault),
    }
}

fn steps_in(heap: Heap, list: &str, script: Script) -> Result<Steps, Difference> {
    match read_schedule(heap, list, &script) {
        Ok(pids) => Ok(steps_of(heap, script, pids.as_slice())?),
        Err(_) => {
            drop(script);
            Err(Difference::Fault)
        }
    }
}

pub(crate) fn plan_of(heap: Heap, case: &Case) -> Result<Plan, Difference> {
    let script = script_of(heap, case)?;
    let Ok(priorities) = Vec::from_slice(heap, script.priorities()) else {
        drop(script);
        return Err(Difference::NoMemory);
    };
    let steps = steps_in(heap, text_of(case.list.as_slice()), script)?;
    Ok(Plan { priorities, steps })
}

// Adds a copy of a step.
pub(crate) fn push_copy(steps: &mut Steps, pid: Pid, op: &Op) -> Result<(), AllocError> {
    steps.push((pid, op.try_clone()?))?;
    Ok(())
}

fn push_copies(copy: &mut Steps, steps: &[(Pid, Op)]) -> Result<(), AllocError> {
    for (pid, op) in steps {
        push_copy(copy, *pid, op)?;
    }
    Ok(())
}

fn copy_of(heap: Heap, steps: &[(Pid, Op)]) -> Result<Steps, AllocError> {
    let mut copy = Vec::new(heap);
    match push_copies(&mut copy, steps) {
        Ok(()) => Ok(copy),
        Err(error) => {
            drop(copy);
            Err(error)
        }
    }
}

// A kernel with these processes, of which there are some.
pub(crate) fn kernel_of<K: Machine>(
    heap: Heap,
    priorities: &[Priority],
    limit: usize,
) -> Result<K, Difference> {
    if priorities.is_empty() || priorities.len() > MAX_PROCESSES as usize {
        return Err(Difference::Fault);
    }
    Ok(K::new(heap, priorities, limit.min(AMPLE))?)
}

// Counts the last entry, which has to be the one behind so many.
fn follow(places: &mut Places, entries: &[Entry], before: usize) -> Result<(), Difference> {
    match entries.split_last() {
        Some((last, others)) if others.len() == before => {
            places.follow(last);
            Ok(())
        }
        _ => Err(Difference::Entry),
    }
}

// Whether a step that has left so many entries is answered as expected.
fn judge(
    places: &mut Places,
    entries: &[Entry],
    before: usize,
    expected: Expected,
    reply: &Reply,
) -> Result<(), Difference> {
    let full = matches!(reply, Reply::HistoryFull);
    require(full == expected.full, Difference::Full)?;
    if full {
        return require(entries.len() == before, Difference::Changed);
    }
    require(is_marked(expected, reply), Difference::Restarted)?;
    follow(places, entries, before)
}

fn count(tally: &mut Tally, entries: &[Entry], reply: &Reply) {
    tally.add_reply(reply);
    if restarted(reply) == Some(true) {
        tally.restarts = tally.restarts.wrapping_add(1);
    }
    // A step that has found no place has left no entry: the last one is of a step before.
    if !matches!(reply, Reply::HistoryFull)
        && let Some(entry) = entries.last()
    {
        let doomed = entry.doomed.as_slice().len() as u64;
        tally.dooms = tally.dooms.wrapping_add(doomed);
        if let (Op::Call(call), Reply::Answer(_)) = (&entry.op, reply) {
            tally.add_answered(call);
        }
    }
}

// Makes a step, which has to find its place just where one is left.
fn step<K: Machine>(
    kernel: &mut K,
    places: &mut Places,
    tally: &mut Tally,
    pid: Pid,
    op: Op,
) -> Result<(), Difference> {
    let expected = places.expected(pid, &op);
    let before = kernel.history().entries().len();
    let reply = kernel.step(pid, op);
    let entries = kernel.history().entries();
    let judged = judge(places, entries, before, expected, &reply);
    count(tally, entries, &reply);
    drop(reply);
    judged
}

fn step_all<K: Machine>(
    kernel: &mut K,
    places: &mut Places,
    tally: &mut Tally,
    steps: &[(Pid, Op)],
) -> Result<(), Difference> {
    for (pid, op) in steps {
        step(kernel, places, tally, *pid, op.try_clone()?)?;
    }
    Ok(())
}

// Makes steps one by one, and tells the transcript.
fn stepped<K: Machine>(
    heap: Heap,
    kernel: &mut K,
    places: &mut Places,
    tally: &mut Tally,
    steps: &[(Pid, Op)],
) -> Result<Vec<u8, Heap>, Difference> {
    step_all(kernel, places, tally, steps)?;
    transcript_of(heap, kernel.history())
}

// Makes steps at once, and tells the transcript.
fn made_at_once<K: Machine>(
    heap: Heap,
    kernel: &mut K,
    steps: Steps,
) -> Result<Vec<u8, Heap>, Difference> {
    let wanted = steps.len();
    let replies = kernel.run(steps)?;
    let made = replies.len();
    drop(replies);
    require(made == wanted, Difference::Entry)?;
    transcript_of(heap, kernel.history())
}

// The transcript of steps at once, by these processes and under a limit.
pub(crate) fn run_at_once<K: Machine>(
    heap: Heap,
    priorities: &[Priority],
    limit: usize,
    steps: Steps,
) -> Result<Vec<u8, Heap>, Difference> {
    match kernel_of::<K>(heap, priorities, limit) {
        Ok(mut kernel) => made_at_once(heap, &mut kernel, steps),
        Err(difference) => {
            drop(steps);
            Err(difference)
        }
    }
}

// The transcript of steps one by one, under a limit. Each reply is judged.
fn run_stepped<K: Machine>(
    heap: Heap,
    plan: &Plan,
    limit: usize,
    tally: &mut Tally,
) -> Result<Vec<u8, Heap>, Difference> {
    let mut places = Places::new(plan.priorities.len(), limit);
    let mut kernel: K = kernel_of(heap, plan.priorities.as_slice(), limit)?;
    stepped(heap, &mut kernel, &mut places, tally, plan.steps.as_slice())
}

pub(crate) fn is_same(one: &[u8], other: &[u8]) -> Result<(), Difference> {
    require(one == other, Difference::Transcript)
}

// A script ends well as the program runs it, and its transcript is that of its steps, and tells
// them as a script does.
pub(crate) fn try_whole<K: Machine>(
    heap: Heap,
    case: &Case,
    plan: &Plan,
) -> Result<(), Difference> {
    let Ok(whole) = run_whole::<K>(heap, case) else {
        return Err(Difference::Fault);
    };
    let steps = copy_of(heap, plan.steps.as_slice())?;
    let other = run_at_once::<K>(heap, plan.priorities.as_slice(), AMPLE, steps)?;
    is_same(whole.as_slice(), other.as_slice())?;
    try_told::<K>(heap, case, whole.as_slice())
}

// Under a limit each step finds its place just where one is left, one by one and at once.
pub(crate) fn try_limit<K: Machine>(
    trials: &mut Trials,
    plan: &Plan,
    limit: usize,
) -> Result<(), Difference> {
    let one_by_one = run_stepped::<K>(trials.heap, plan, limit, &mut trials.tally)?;
    let steps = copy_of(trials.heap, plan.steps.as_slice())?;
    let at_once = run_at_once::<K>(trials.heap, plan.priorities.as_slice(), limit, steps)?;
    is_same(one_by_one.as_slice(), at_once.as_slice())
}
