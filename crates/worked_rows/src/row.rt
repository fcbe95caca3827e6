// A worked run: a script, a schedule of it, and the transcript of the history that it leaves.
use device::Halting;
use heap::Heap;
use history::History;
use ids::{Answer, Bytes, Call, LARGEST_FILE, Limits, Op, Pid, Reply};
use machine::Machine;
use replay::check;
use runner::print;
use script::{Script, read_schedule, read_script, steps_of};
use std::test::Fail;

pub(crate) struct Row {
    pub(crate) script: &'static str,
    pub(crate) schedule: &'static str,
    // Of the history, in entries. A step that finds it full has no line in the transcript.
    pub(crate) limit: usize,
    pub(crate) transcript: &'static str,
}

// A row, and the most bytes of a file of its kernel.
pub(crate) struct Large {
    pub(crate) file_bytes: u64,
    pub(crate) row: Row,
}

fn script_of(heap: Heap, text: &str) -> Result<Script, Fail> {
    match read_script(heap, text.as_bytes()) {
        Ok(script) => Ok(script),
        Err(_) => Err(Fail::from("no script")),
    }
}

// A kernel with the processes of a script.
pub(crate) fn kernel_of<K: Machine>(heap: Heap, text: &str, limit: usize) -> Result<K, Fail> {
    kernel_with(heap, text, Limits::of_entries(limit))
}

// The same with these limits.
pub(crate) fn kernel_with<K: Machine>(heap: Heap, text: &str, limits: Limits) -> Result<K, Fail> {
    let script = script_of(heap, text)?;
    let limits = Limits {
        entries: limits.entries.min(1000),
        file_bytes: limits.file_bytes.min(LARGEST_FILE as u64),
        ..limits
    };
    Ok(K::with_limits(heap, script.priorities(), limits)?)
}

// The steps of a script by a schedule.
pub(crate) fn steps_in(
    heap: Heap,
    text: &str,
    schedule: &str,
) -> Result<Vec<(Pid, Op), Heap>, Fail> {
    let script = script_of(heap, text)?;
    match read_schedule(heap, schedule, &script) {
        Ok(pids) => Ok(steps_of(heap, script, pids.as_slice())?),
        Err(_) => Err(Fail::from("no schedule")),
    }
}

// Does steps one by one.
pub(crate) fn do_steps<K: Machine>(kernel: &mut K, steps: Vec<(Pid, Op), Heap>) {
    for (pid, op) in steps {
        drop(kernel.step(pid, op));
    }
}

// Does the steps of a script by a schedule on a kernel.
pub(crate) fn do_script<K: Machine>(
    kernel: &mut K,
    heap: Heap,
    text: &str,
    schedule: &str,
) -> Result<(), Fail> {
    do_steps(kernel, steps_in(heap, text, schedule)?);
    Ok(())
}

// A kernel's history passes the check.
pub(crate) fn pass(heap: Heap, history: &History) -> Result<(), Fail> {
    match check(heap, history) {
        Ok(()) => Ok(()),
        Err(_) => Err(Fail::from("the history does not pass the check")),
    }
}

// The transcript of what a kernel has done, whose history has to pass the check.
pub(crate) fn transcript_of<K: Machine>(heap: Heap, kernel: &K) -> Result<Vec<u8, Heap>, Fail> {
    pass(heap, kernel.history())?;
    lines_of(heap, kernel.history())
}

// The lines of the entries that a history keeps.
pub(crate) fn lines_of(heap: Heap, history: &History) -> Result<Vec<u8, Heap>, Fail> {
    let mut sink = Halting {
        bytes: Vec::new(heap),
        left: 100_000,
        failures: 0,
    };
    match print(history, &mut sink) {
        Ok(()) => Ok(sink.bytes),
        Err(_) => Err(Fail::from("no transcript")),
    }
}

// The number of what is at a path.
pub(crate) fn number_at<K: Machine>(heap: Heap, kernel: &mut K, path: &str) -> Result<usize, Fail> {
    let path = Bytes::copy(heap, path.as_bytes())?;
    let reply = kernel.step(Pid(1), Op::Call(Call::Stat(path)));
    let number = number_in(&reply);
    drop(reply);
    Ok(number.ok_or("nothing is there")?)
}

fn number_in(reply: &Reply) -> Option<usize> {
    match reply {
        Reply::Answer(Answer::Stat(stat)) => Some(stat.num.0),
        _ => None,
    }
}
