// One line of a stream over a store, as it is done.
use crate::durable::Durable;
use crate::fault::ServeFault;
use crate::heard::Heard;
use heap::Heap;
use ids::{Op, Reply};
use machine::Machine;
use script::{Line, read_further_line};
use sqlite_disk::Disk;

// What an operation that was answered so has come to.
fn heard_of(reply: &Reply, is_end: bool) -> Result<Heard, ServeFault> {
    match reply {
        Reply::NoMemory => Err(ServeFault::NoMemory),
        Reply::HistoryFull => Err(ServeFault::HistoryFull),
        _ => Ok(Heard::Operation(is_end)),
    }
}

// Executes the operation of a line, read again from its text, behind a history that is forgotten.
fn do_again<M: Machine, D: Disk>(
    heap: Heap,
    durable: &mut Durable<M, D>,
    number: usize,
    text: &[u8],
    is_end: bool,
) -> Result<Heard, ServeFault> {
    durable.machine.forget();
    let Ok(Some(line)) = read_further_line(heap, number, text) else {
        return Err(ServeFault::NoMemory);
    };
    let Line { pid, op, number: _ } = line;
    let reply = durable.machine.step(pid, op);
    heard_of(&reply, is_end)
}

// Executes the operation of a line. Where no place is free, what is kept of the history is forgotten, and
// the line is read again, since the operation was given away.
pub(crate) fn do_line<M: Machine, D: Disk>(
    heap: Heap,
    durable: &mut Durable<M, D>,
    line: Line,
    text: &[u8],
) -> Result<Heard, ServeFault> {
    let Line { pid, op, number } = line;
    let is_end = matches!(&op, Op::End);
    let reply = durable.machine.step(pid, op);
    match &reply {
        Reply::HistoryFull => do_again(heap, durable, number, text, is_end),
        _ => heard_of(&reply, is_end),
    }
}
