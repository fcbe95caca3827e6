// Steps whose requests for memory are refused, one after the other.
use crate::difference::{Difference, require};
use crate::places::Places;
use crate::runs::{Plan, Steps, is_same, kernel_of, push_copy, run_at_once, transcript_of};
use crate::trials::Trials;
use heap::Heap;
use ids::{Op, Pid, Reply};
use machine::Machine;

// More entries than a random script has steps.
const LIMIT: usize = 200;

// More requests than a step ever makes.
const MOST: u64 = 100_000;

// Makes a step with one of its requests refused. Answers whether it was refused memory.
fn is_refused<K: Machine>(heap: Heap, kernel: &mut K, pid: Pid, op: Op, number: u64) -> bool {
    heap.refuse(number);
    let reply = kernel.step(pid, op);
    heap.refuse(0);
    let refused = matches!(&reply, Reply::NoMemory);
    drop(reply);
    refused
}

// Makes a step that has to take no memory.
fn step_silent<K: Machine>(
    trials: &mut Trials,
    kernel: &mut K,
    pid: Pid,
    op: Op,
) -> Result<bool, Difference> {
    trials.heap.refuse(1);
    let reply = kernel.step(pid, op);
    let silent = trials.heap.made() == 0 && !matches!(&reply, Reply::NoMemory);
    trials.heap.refuse(0);
    drop(reply);
    trials.tally.silent = trials.tally.silent.wrapping_add(1);
    require(silent, Difference::Asked)?;
    Ok(true)
}

// Makes a step whose requests are refused one after the other, until it gets through or is left
// out. Answers whether it got through.
fn step_refused<K: Machine>(
    trials: &mut Trials,
    kernel: &mut K,
    pid: Pid,
    op: &Op,
) -> Result<bool, Difference> {
    let before = kernel.history().entries().len();
    for number in 1..MOST {
        if !is_refused(trials.heap, kernel, pid, op.try_clone()?, number) {
            return Ok(true);
        }
        let unchanged = kernel.history().entries().len() == before;
        require(unchanged, Difference::Changed)?;
        trials.tally.refused = trials.tally.refused.wrapping_add(1);
        if trials.random.once_in(64) {
            trials.tally.left_out = trials.tally.left_out.wrapping_add(1);
            return Ok(false);
        }
    }
    Err(Difference::Stuck)
}

// Makes a step, and answers whether it got through.
fn step<K: Machine>(
    trials: &mut Trials,
    kernel: &mut K,
    places: &mut Places,
    pid: Pid,
    op: &Op,
) -> Result<bool, Difference> {
    let made = if places.expected(pid, op).silent {
        step_silent(trials, kernel, pid, op.try_clone()?)?
    } else {
        step_refused(trials, kernel, pid, op)?
    };
    if made && let Some(entry) = kernel.history().entries().last() {
        places.follow(entry);
    }
    Ok(made)
}

// Makes steps, and puts copies of those that got through behind the others.
fn step_all<K: Machine>(
    trials: &mut Trials,
    kernel: &mut K,
    places: &mut Places,
    steps: &[(Pid, Op)],
    made: &mut Steps,
) -> Result<(), Difference> {
    for (pid, op) in steps {
        if step(trials, kernel, places, *pid, op)? {
            push_copy(made, *pid, op)?;
        }
    }
    Ok(())
}

// Makes the steps of a plan, puts those that got through, and tells the transcript.
fn stepped<K: Machine>(
    trials: &mut Trials,
    kernel: &mut K,
    plan: &Plan,
    made: &mut Steps,
) -> Result<Vec<u8, Heap>, Difference> {
    let mut places = Places::new(plan.priorities.len(), LIMIT);
    step_all(trials, kernel, &mut places, plan.steps.as_slice(), made)?;
    transcript_of(trials.heap, kernel.history())
}

fn run_refused<K: Machine>(
    trials: &mut Trials,
    plan: &Plan,
    made: &mut Steps,
) -> Result<Vec<u8, Heap>, Difference> {
    let mut kernel: K = kernel_of(trials.heap, plan.priorities.as_slice(), LIMIT)?;
    stepped(trials, &mut kernel, plan, made)
}

// Each request of each step is refused once. What gets through comes to what it comes to where
// nothing is refused.
pub(crate) fn try_refused<K: Machine>(trials: &mut Trials, plan: &Plan) -> Result<(), Difference> {
    let mut made = Vec::new(trials.heap);
    let told = match run_refused::<K>(trials, plan, &mut made) {
        Ok(told) => told,
        Err(difference) => {
            drop(made);
            return Err(difference);
        }
    };
    let other = run_at_once::<K>(trials.heap, plan.priorities.as_slice(), LIMIT, made)?;
    is_same(told.as_slice(), other.as_slice())
}
