// Stored histories of several jobs are checked: one of each as it is, and one of which a reply was
// changed.
use crate::content::Room;
use crate::digest::Digest;
use crate::{installer, names, settings, spool};
use anyhow::{Result, bail};
use heap::Heap;
use history::History;
use ids::{Answer, Entry, Reply};
use kernel::Kernel;
use replay::{CheckFault, check};

// The position at which a check says that a history is wrong, from 1, or 0 where it passes.
fn fault_of(heap: Heap, history: &History) -> Result<u64> {
    match check(heap, history) {
        Ok(()) => Ok(0),
        Err(CheckFault::Wrong(position)) => Ok(position as u64),
        Err(CheckFault::NoMemory) => bail!("a check was refused memory"),
    }
}

// The entry with another reply: what was read or stated is told otherwise.
fn changed(entry: &Entry) -> Result<Entry> {
    let mut copy = entry.try_clone()?;
    copy.reply = Reply::Answer(Answer::Count(7));
    Ok(copy)
}

// A copy of a history, of which the entry at this position is changed.
fn copy_of(heap: Heap, history: &History, position: usize) -> Result<History> {
    let entries = history.entries();
    let mut copy = History::new(heap, history.priorities(), entries.len())?;
    for (index, entry) in entries.iter().enumerate() {
        let copied = if index == position {
            changed(entry)?
        } else {
            entry.try_clone()?
        };
        if copy.push(copied).is_err() {
            bail!("a copy has no place")
        }
    }
    Ok(copy)
}

fn add_check(room: &mut Room, digest: &mut Digest, history: &History) -> Result<()> {
    digest.add_number(fault_of(room.heap, history)?);
    let count = history.entries().len() as u64;
    digest.add_number(count);
    let position = room.random.between(count / 2, count) as usize;
    let copy = copy_of(room.heap, history, position)?;
    digest.add_number(fault_of(room.heap, &copy)?);
    Ok(())
}

fn check_run(room: &mut Room, digest: &mut Digest, kernel: Kernel) -> Result<()> {
    let done = add_check(room, digest, kernel.history());
    drop(kernel);
    done
}

/// Runs jobs and checks their histories.
pub(crate) fn audit(room: &mut Room, share: u64) -> Result<u64> {
    let mut digest = Digest::new();
    let kernel = installer::run(room, share)?;
    check_run(room, &mut digest, kernel)?;
    let kernel = spool::run(room, share.saturating_mul(20))?;
    check_run(room, &mut digest, kernel)?;
    let kernel = settings::run(room, share.saturating_mul(20))?;
    check_run(room, &mut digest, kernel)?;
    let kernel = names::run(room, share.saturating_mul(160))?;
    check_run(room, &mut digest, kernel)?;
    Ok(digest.value())
}
