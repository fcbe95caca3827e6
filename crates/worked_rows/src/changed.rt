// Histories of rows in which one reply is changed. The check tells where the call counts.
use crate::row::{Row, do_script, kernel_of};
use crate::rows::{KINDS, rows_of};
use heap::Heap;
use history::History;
use ids::{Answer, Entry, Errno, Limits, Pid, Reply};
use kernel::Kernel;
use machine::Machine;
use replay::{CheckFault, check};
use std::alloc::AllocError;
use std::mem;
use std::test::Fail;

// Whether a call was executed. A fork in a transaction is not.
fn is_executed(reply: &Reply) -> bool {
    match reply {
        Reply::Answer(_) => true,
        Reply::Errno(errno) => *errno != Errno::ENOTSUP,
        _ => false,
    }
}

// Another reply than that of a call that was executed.
fn other_than(reply: &Reply) -> Reply {
    match reply {
        Reply::Errno(_) => Reply::Answer(Answer::Done),
        _ => Reply::Errno(Errno::EPERM),
    }
}

fn copy_of(entry: &Entry, changed: bool) -> Result<Entry, AllocError> {
    let mut copy = entry.try_clone()?;
    if changed {
        drop(mem::replace(&mut copy.reply, other_than(&entry.reply)));
    }
    Ok(copy)
}

fn add(history: &mut History, entry: &Entry, changed: bool) -> Result<(), Fail> {
    let copy = copy_of(entry, changed)?;
    if is_done(history.push(copy)) {
        Ok(())
    } else {
        Err(Fail::from("the copy has no place"))
    }
}

// Whether a thing was done. What comes back otherwise goes here.
fn is_done<T: Drop>(done: Result<(), T>) -> bool {
    done.is_ok()
}

// Adds entries, of which the one at this place has another reply.
fn add_all(history: &mut History, entries: &[Entry], changed: usize) -> Result<(), Fail> {
    for (at, entry) in entries.iter().enumerate() {
        add(history, entry, at == changed)?;
    }
    Ok(())
}

// What the check says of a history whose entry at this position has another reply.
fn check_changed(heap: Heap, history: &History, at: usize) -> Result<Result<(), CheckFault>, Fail> {
    let entries = history.entries();
    let bounds = history.bounds();
    let limits = Limits {
        entries: entries.len(),
        file_bytes: bounds.file_bytes,
        descriptors: bounds.descriptors,
        path_bytes: bounds.path_bytes,
    };
    let mut copy = History::with_limits(heap, history.priorities(), limits)?;
    let added = add_all(&mut copy, entries, at);
    let told = check(heap, &copy);
    drop(copy);
    added?;
    Ok(told)
}

// Whether a process is in a transaction after these entries.
fn is_inside(entries: &[Entry], pid: Pid) -> bool {
    let mut inside = false;
    for entry in entries {
        if entry.pid == pid {
            inside = match &entry.reply {
                Reply::Begun => true,
                Reply::Committed => false,
                Reply::GivenUp { restarted } => *restarted,
                Reply::Aborted { why: _, restarted } => *restarted,
                _ => inside,
            };
        }
    }
    inside
}

// Whether a process's transaction is committed in these entries.
fn is_committed(entries: &[Entry], pid: Pid) -> bool {
    for entry in entries {
        if entry.pid == pid {
            match &entry.reply {
                Reply::Committed => return true,
                Reply::GivenUp { .. } | Reply::Aborted { .. } => return false,
                _ => {}
            }
        }
    }
    false
}

// What the check has to say where the reply at this position is changed: that position where the
// call is plain, or of a committed transaction.
fn wanted(entries: &[Entry], at: usize, pid: Pid) -> Result<(), CheckFault> {
    let (before, later) = entries.split_at(at.min(entries.len()));
    if is_inside(before, pid) && !is_committed(later, pid) {
        Ok(())
    } else {
        Err(CheckFault::Wrong(at.saturating_add(1)))
    }
}

// The position of the first entry of which the check says something else when its reply is changed.
fn first_missed(heap: Heap, history: &History) -> Result<Option<usize>, Fail> {
    let entries = history.entries();
    for (at, entry) in entries.iter().enumerate() {
        if is_executed(&entry.reply)
            && check_changed(heap, history, at)? != wanted(entries, at, entry.pid)
        {
            return Ok(Some(at));
        }
    }
    Ok(None)
}

// Does the row's steps, and tells that position.
pub(crate) fn missed_on<K: Machine>(
    kernel: &mut K,
    heap: Heap,
    row: &Row,
) -> Result<Option<usize>, Fail> {
    do_script(kernel, heap, row.script, row.schedule)?;
    first_missed(heap, kernel.history())
}

fn missed_in<K: Machine>(heap: Heap, row: &Row) -> Result<Option<usize>, Fail> {
    let mut kernel: K = kernel_of(heap, row.script, row.limit)?;
    missed_on(&mut kernel, heap, row)
}

// The script of the first of these rows in which a changed reply is missed.
fn all_found<K: Machine>(heap: Heap, rows: &[Row]) -> Result<(), Fail> {
    for row in rows {
        if missed_in::<K>(heap, row)?.is_some() {
            return Err(Fail::from(row.script));
        }
    }
    Ok(())
}

// Every row.
fn each_found<K: Machine>(heap: Heap) -> Result<(), Fail> {
    for kind in 0..KINDS {
        all_found::<K>(heap, rows_of(kind))?;
    }
    Ok(())
}

#[test]
fn changed_replies_are_found(rt: HostRuntime) -> Result<(), Fail> {
    each_found::<Kernel>(heap::open(rt.alloc())?)
}
