// Transcripts read back as scripts, in whose words they tell what was done.
use crate::cases::Case;
use crate::difference::{Difference, require};
use crate::runs::{run_whole, text_of};
use heap::Heap;
use machine::Machine;
use std::alloc::AllocError;

// Puts a step as a line of a script, and its process into the schedule.
fn put_step(told: &mut Case, pid: &str, step: &str) -> Result<(), AllocError> {
    told.script.extend_from_slice(step.as_bytes())?;
    told.script.push(b'\n')?;
    if !told.list.is_empty() {
        told.list.push(b',')?;
    }
    told.list.extend_from_slice(pid.as_bytes())
}

// Cuts what a line tells at its arrow. Before that of a symlink its target may be an arrow too, and
// behind that of a readlink.
fn cut_at_arrow(told: &str) -> Option<(&str, &str)> {
    if told.contains(" symlink ") {
        told.rsplit_once(" -> ")
    } else {
        told.split_once(" -> ")
    }
}

// Puts the step that a line of a transcript tells: `1 fork` of `4 P1 fork -> child 2`.
fn put_told(told: &mut Case, line: &str) -> Result<(), AllocError> {
    if let Some((_, behind)) = line.split_once(" P")
        && let Some((step, _)) = cut_at_arrow(behind)
        && let Some((pid, _)) = step.split_once(' ')
    {
        return put_step(told, pid, step);
    }
    Ok(())
}

// Puts the first line of a script, and the steps that its transcript tells.
fn put_all(told: &mut Case, script: &str, transcript: &str) -> Result<(), AllocError> {
    if let Some((priorities, _)) = script.split_once('\n') {
        told.script.extend_from_slice(priorities.as_bytes())?;
        told.script.push(b'\n')?;
    }
    for line in transcript.lines() {
        put_told(told, line)?;
    }
    Ok(())
}

// What the transcript of a script is read back as.
fn told_by(heap: Heap, script: &str, transcript: &str) -> Result<Case, AllocError> {
    let mut told = Case {
        script: Vec::new(heap),
        list: Vec::new(heap),
    };
    put_all(&mut told, script, transcript)?;
    Ok(told)
}

// What the transcript of a script is read back as comes to the same transcript.
pub(crate) fn try_told<K: Machine>(
    heap: Heap,
    case: &Case,
    transcript: &[u8],
) -> Result<(), Difference> {
    let told = told_by(heap, text_of(case.script.as_slice()), text_of(transcript))?;
    match run_whole::<K>(heap, &told) {
        Ok(other) => require(other.as_slice() == transcript, Difference::Told),
        Err(_) => Err(Difference::Told),
    }
}
