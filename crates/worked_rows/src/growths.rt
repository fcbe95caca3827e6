// Each request for memory of each step is refused in turn. What is refused leaves the history and
// all that shows as they were, and the same operation then gets through. The end and the abort of a
// live transaction, and the notice to a doomed one, make no request at all.
use crate::row::{Row, kernel_of, steps_in, transcript_of};
use crate::shown::shown;
use heap::Heap;
use ids::{Op, Pid, Reply};
use kernel::Kernel;
use std::test::Fail;

// More requests than any step makes.
const MOST: u64 = 1000;

// What becomes of a step of which one request is refused.
#[derive(Clone, Copy)]
struct Tried {
    refused: bool,
    // Whether it is the end or the abort of a live transaction, or a notice.
    silent: bool,
    // How many requests it made, the refused one among them.
    made: u64,
}

fn is_end(op: &Op) -> bool {
    matches!(op, Op::End | Op::Abort { no_restart: _ })
}

fn is_aborted(reply: &Reply) -> bool {
    matches!(
        reply,
        Reply::Aborted {
            why: _,
            restarted: _
        }
    )
}

// Only a doomed process, which has no transaction any more, is told in none that one was aborted.
fn try_step(kernel: &mut Kernel, heap: Heap, pid: Pid, op: Op, number: u64) -> Tried {
    let live = kernel.shadow(pid).is_some();
    let ends = live && is_end(&op);
    heap.refuse(number);
    let reply = kernel.step(pid, op);
    let made = heap.made();
    heap.refuse(0);
    let tried = Tried {
        refused: matches!(&reply, Reply::NoMemory),
        silent: ends || (!live && is_aborted(&reply)),
        made,
    };
    drop(reply);
    tried
}

// Whether a step was refused memory, and then has changed nothing.
fn is_refused(kernel: &Kernel, heap: Heap, before: &str, tried: Tried) -> Result<bool, Fail> {
    if tried.silent && tried.made > 0 {
        return Err(Fail::from("an end, an abort or a notice asks for memory"));
    }
    if tried.refused && shown(heap, kernel)?.as_str() != before {
        return Err(Fail::from("a refused step has changed something"));
    }
    Ok(tried.refused)
}

// Makes a step with each of its requests refused in turn, and then with none. Answers how many
// there are.
fn grow_step(kernel: &mut Kernel, heap: Heap, pid: Pid, op: &Op) -> Result<u64, Fail> {
    let before = shown(heap, kernel)?;
    for number in 1..MOST {
        let tried = try_step(kernel, heap, pid, op.try_clone()?, number);
        if !is_refused(kernel, heap, before.as_str(), tried)? {
            return Ok(number - 1);
        }
    }
    Err(Fail::from("a step is refused whichever request is"))
}

// Makes steps one by one, each with each of its requests refused in turn. Answers how many there
// are in all.
pub(crate) fn grow_steps(
    kernel: &mut Kernel,
    heap: Heap,
    steps: Vec<(Pid, Op), Heap>,
) -> Result<u64, Fail> {
    let mut refused = 0u64;
    for (pid, op) in &steps {
        refused = refused.wrapping_add(grow_step(kernel, heap, *pid, op)?);
    }
    Ok(refused)
}

// The steps of a script by a schedule, so made.
pub(crate) fn grow_script(
    kernel: &mut Kernel,
    heap: Heap,
    text: &str,
    schedule: &str,
) -> Result<u64, Fail> {
    grow_steps(kernel, heap, steps_in(heap, text, schedule)?)
}

// Those of a row. Answers how many requests were refused, and the transcript.
pub(crate) fn grow_on(
    kernel: &mut Kernel,
    heap: Heap,
    row: &Row,
) -> Result<(u64, Vec<u8, Heap>), Fail> {
    let refused = grow_script(kernel, heap, row.script, row.schedule)?;
    Ok((refused, transcript_of(heap, kernel)?))
}

fn grow_row(heap: Heap, row: &Row) -> Result<(u64, Vec<u8, Heap>), Fail> {
    let mut kernel: Kernel = kernel_of(heap, row.script, row.limit)?;
    let grown = grow_on(&mut kernel, heap, row);
    drop(kernel);
    grown
}

// Each of these rows has its transcript. Answers how many requests were refused.
pub(crate) fn grow_all(heap: Heap, rows: &[Row]) -> Result<u64, Fail> {
    let mut refused = 0u64;
    for row in rows {
        let (count, told) = grow_row(heap, row)?;
        if told.as_slice() != row.transcript.as_bytes() {
            return Err(Fail::from(row.script));
        }
        refused = refused.wrapping_add(count);
    }
    Ok(refused)
}
