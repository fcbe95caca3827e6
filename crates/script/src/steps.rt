// The steps that a schedule says.
ghost use Rattle.std.specs.Prelude.{◌≡◌, ◌<◌, ◌++◌, ◌∷◌, ℕ, List, [], IfOk, OnOk, OnErr};
ghost use Rattle.std.specs.Prelude.{length, slice_index_or, vec_len, drop, replicate};
ghost use Rattle.std.specs.Prelude.{slice_get, slice_set};
ghost use Rattle.script.specs.Schedules.{AreProcessNumbers};
ghost use Rattle.script.specs.Steps.{HoldOps, ops_for, steps};
ghost use Rattle.script.specs.declared.read.Line.{Line};

use crate::limits::PROCESS_NUMBERS_END;
use crate::schedule::counts_of;
use crate::{Line, Script};
use heap::Heap;
use ids::{Op, Pid};
use std::alloc::AllocError;
use std::collections::VecDeque;
use std::marker::Model;

// One queue for each process number, and one for all other numbers, so that each operation is moved
// and none has to be dropped.
const QUEUES: usize = PROCESS_NUMBERS_END + 1;

// The operations of a process that no step has taken yet.
struct Queue {
    ops: VecDeque<Op, Heap>,
}

impl Drop for Queue {
    fn drop(self) {
        let Queue { ops: _ } = self;
    }
}

impl Model for Queue {
    ghost use Rattle.std.specs.Prelude.{List};
    ghost use Rattle.ids.specs.declared.call.Op.{Op};

    ghost Value = { List Op };

    ghost view = { λ q. q.ops.items };
}

impl Queue {
    // An empty queue, with room for so many.
    fn with_room(heap: Heap, count: usize) -> Result<Queue, AllocError>
        ensures { IfOk result (λ queue. queue ≡ []) }
    {
        Ok(Queue {
            ops: VecDeque::with_capacity(heap, count)?,
        })
    }

    fn push(&mut self, op: Op) -> Result<(), AllocError>
        ensures ok { OnOk result (self.new ≡ self.old ++ op ∷ []) }
        ensures err { OnErr result (self.new ≡ self.old) }
    {
        self.ops.push_back(op)?;
        Ok(())
    }

    fn pop(&mut self) -> Option<Op>
        ensures taken { result ≡ slice_get self.old 0 }
        ensures rest { self.new ≡ drop 1 self.old }
    {
        self.ops.pop_front()
    }
}

// Puts empty queues into an empty vector: for each process one with room for its lines, and the one
// for all other numbers.
fn put_queues(heap: Heap, counts: &[usize], queues: &mut Vec<Queue, Heap>) -> Result<(), AllocError>
    requires none { queues.old.items ≡ [] }
    requires each { length counts.now ≡ PROCESS_NUMBERS_END }
    ensures { OnOk result (queues.new.items ≡ replicate QUEUES []) }
{
    for count in counts {
        queues.push(Queue::with_room(heap, *count)?)?;
    }
    queues.push(Queue::with_room(heap, 0)?)?;
    Ok(())
}

// Puts a line's operation behind the others of its process. Numbers that no process has share the
// last queue.
fn add(queues: &mut Vec<Queue, Heap>, line: Line) -> Result<(), AllocError>
    requires { vec_len queues.old ≡ QUEUES }
    ensures len { vec_len queues.new ≡ QUEUES }
    ensures ok { OnOk result ((p : ℕ) → p < PROCESS_NUMBERS_END
        → slice_index_or queues.new.items p []
        ≡ slice_index_or queues.old.items p [] ++ ops_for p (line ∷ [])) }
{
    let Line { pid, op, number: _ } = line;
    queues[(pid.0 as usize).min(PROCESS_NUMBERS_END)].push(op)
}

// Puts the operations of lines into empty queues, in order.
fn fill(queues: &mut Vec<Queue, Heap>, lines: Vec<Line, Heap>) -> Result<(), AllocError>
    requires { queues.old.items ≡ replicate QUEUES [] }
    ensures len { OnOk result (vec_len queues.new ≡ QUEUES) }
    ensures queues { OnOk result (HoldOps queues.new.items lines.entry.items) }
{
    for line in lines {
        add(queues, line)?;
    }
    Ok(())
}

// Takes the next operation of a process, if it has one left.
fn take(queues: &mut Vec<Queue, Heap>, pid: Pid) -> Option<Op>
    requires len { vec_len queues.old ≡ QUEUES }
    requires small { pid < PROCESS_NUMBERS_END }
    ensures len { vec_len queues.new ≡ QUEUES }
    ensures taken { result ≡ slice_get (slice_index_or queues.old.items pid []) 0 }
    ensures rest { queues.new.items
        ≡ slice_set queues.old.items pid (drop 1 (slice_index_or queues.old.items pid [])) }
{
    queues[pid.0 as usize].pop()
}

// Takes an operation for each process in a list, and puts it behind the others.
fn take_all(
    queues: &mut Vec<Queue, Heap>,
    pids: &[Pid],
    taken: &mut Vec<(Pid, Op), Heap>,
) -> Result<(), AllocError>
    requires len { vec_len queues.old ≡ QUEUES }
    requires small { AreProcessNumbers pids.now }
    requires none { taken.old.items ≡ [] }
    ensures { OnOk result ((lines : List Line) → HoldOps queues.old.items lines
        → taken.new.items ≡ steps lines pids.now) }
{
    for pid in pids {
        if let Some(op) = take(queues, *pid) {
            taken.push((*pid, op))?;
        }
    }
    Ok(())
}

// Puts the steps of lines and a schedule of them into an empty vector, by way of another.
fn put_steps(
    heap: Heap,
    lines: Vec<Line, Heap>,
    pids: &[Pid],
    queues: &mut Vec<Queue, Heap>,
    taken: &mut Vec<(Pid, Op), Heap>,
) -> Result<(), AllocError>
    requires small { AreProcessNumbers pids.now }
    requires no_queues { queues.old.items ≡ [] }
    requires none { taken.old.items ≡ [] }
    ensures { OnOk result (taken.new.items ≡ steps lines.entry.items pids.now) }
{
    let counts = counts_of(heap, lines.as_slice())?;
    put_queues(heap, counts.as_slice(), queues)?;
    fill(queues, lines)?;
    take_all(queues, pids, taken)
}

/// The steps of a script and a schedule of it, in order: each process number with its next line's
/// operation. A number that stands there more often than it has lines gives no further step. The
/// script is consumed, also where memory is refused.
pub fn steps_of(
    heap: Heap,
    script: Script,
    pids: &[Pid],
) -> Result<Vec<(Pid, Op), Heap>, AllocError>
    requires { AreProcessNumbers pids.now }
    ensures { IfOk result (λ v. v.items ≡ steps script.lines pids.now) }
{
    let mut queues = Vec::new(heap);
    let mut taken = Vec::with_capacity(heap, pids.len())?;
    put_steps(heap, script.into_lines(), pids, &mut queues, &mut taken)?;
    Ok(taken)
}
