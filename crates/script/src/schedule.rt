// Schedules in their spelling.
ghost use Rattle.std.specs.Prelude.{◌≡◌, ◌<◌, ℕ, [], Some, None, Ok};
ghost use Rattle.std.specs.Prelude.{IfOk, IfErr, OnOk, slice_index, vec_len};
ghost use Rattle.script.specs.Schedules.{AreProcessNumbers, IsFault, NoPids, first_without};
ghost use Rattle.script.specs.Schedules.{lines_for, pids_of, schedule_of, with_lines_left};

use crate::faults::ScheduleFault;
use crate::limits::PROCESS_NUMBERS_END;
use crate::pieces::Pieces;
use crate::read::pid_in;
use crate::{Line, Script};
use heap::Heap;
use ids::Pid;
use std::alloc::AllocError;

// Puts the process numbers that a text lists into an empty vector.
fn read_pids(text: &[u8], pids: &mut Vec<Pid, Heap>) -> Result<(), ScheduleFault>
    requires { pids.old.items ≡ [] }
    ensures value { OnOk result (pids_of text.now ≡ Some pids.new.items) }
    ensures small { OnOk result (AreProcessNumbers pids.new.items) }
    ensures fault { IfErr result (NoPids (pids_of text.now)) }
{
    if text.is_empty() {
        return Ok(());
    }
    let mut words = Pieces::new(text, b',');
    while let Some(word) = words.next() {
        let Some(pid) = pid_in(word) else {
            return Err(ScheduleFault::BadList);
        };
        if pids.push(pid).is_err() {
            return Err(ScheduleFault::NoMemory);
        }
    }
    Ok(())
}

// How many lines each process has.
pub(crate) fn counts_of(heap: Heap, lines: &[Line]) -> Result<Vec<usize, Heap>, AllocError>
    ensures len { IfOk result (λ counts. vec_len counts ≡ PROCESS_NUMBERS_END) }
    ensures counts { IfOk result (λ counts. (p : ℕ) → p < PROCESS_NUMBERS_END
        → slice_index counts.items p ≡ lines_for p lines.now) }
{
    let mut counts = Vec::from_elem(heap, 0, PROCESS_NUMBERS_END)?;
    for line in lines {
        let place = line.pid.0 as usize;
        if place < PROCESS_NUMBERS_END {
            counts[place] += 1;
        }
    }
    Ok(counts)
}

// Whether each process stands there at most as often as it has lines. The fault is the first that
// does not.
fn has_lines(heap: Heap, lines: &[Line], pids: &[Pid]) -> Result<(), ScheduleFault>
    requires { AreProcessNumbers pids.now }
    ensures ok { OnOk result (first_without lines.now [] pids.now ≡ None) }
    ensures fault { IfErr result
        (IsFault (with_lines_left pids.now (first_without lines.now [] pids.now))) }
{
    let Ok(mut counts) = counts_of(heap, lines) else {
        return Err(ScheduleFault::NoMemory);
    };
    for pid in pids {
        let place = pid.0 as usize;
        if counts[place] == 0 {
            return Err(ScheduleFault::NoLine(*pid));
        }
        counts[place] -= 1;
    }
    Ok(())
}

/// Reads the schedule of a script that a text spells, or finds its fault: `BadList`, or else the
/// first process that stands there more often than it has lines. `NoMemory` is returned where
/// memory was refused, and says nothing of the text.
pub fn read_schedule(
    heap: Heap,
    text: &str,
    script: &Script,
) -> Result<Vec<Pid, Heap>, ScheduleFault>
    ensures schedule { IfOk result (λ pids. schedule_of text.now script.now.lines ≡ Ok pids.items) }
    ensures small { IfOk result (λ pids. AreProcessNumbers pids.items) }
    ensures fault { IfErr result (IsFault (schedule_of text.now script.now.lines)) }
{
    let Ok(mut pids) = Vec::with_capacity(heap, text.len() / 2 + 1) else {
        return Err(ScheduleFault::NoMemory);
    };
    read_pids(text.as_bytes(), &mut pids)?;
    has_lines(heap, script.lines(), pids.as_slice())?;
    Ok(pids)
}
