// What the edges of a run cost: to read a script and a schedule, and to print a transcript.
ghost use Rattle.std.specs.Prelude.{◌≡◌, IfOk, None};
ghost use Rattle.script.specs.Schedules.{AreProcessNumbers};

use crate::clock::Lap;
use crate::steps::{kernel_of, step};
use anyhow::{Result, bail};
use device::{Counted, DeviceFailed, Sink};
use heap::Heap;
use ids::{Bytes, Call, Op, Pid};
use machine::Machine;
use script::{Script, read_schedule, read_script, steps_of};
use std::alloc::AllocError;
use std::fs::File;
use std::io::Write;
use transcript::print;

// How many lines the script has, three for each name.
const LINES: u64 = 60_000;

// How many lines the long transcript has.
const LONG: u64 = 1_000_000;

type Steps = Vec<(Pid, Op), Heap>;

// A sink that counts the bytes, and forgets them.
#[derive(Drop)]
struct Forgetting {
    bytes: u64,
}

impl Sink for Forgetting {
    ghost written = { λ _. None };

    ghost failures = { λ _. 0 };

    fn write(&mut self, text: &[u8]) -> std::result::Result<usize, DeviceFailed> {
        self.bytes = self.bytes.wrapping_add(text.len() as u64);
        Ok(text.len())
    }
}

// A script in which one process makes a directory, looks at it and removes it, again and again.
fn script_text(heap: Heap) -> std::result::Result<String<Heap>, AllocError> {
    let mut text = String::new(heap);
    text.push_str("priorities 0\n")?;
    for number in 0..LINES / 3 {
        let lines = format!(in heap;
            "1 mkdir /d{number}\n1 stat /d{number}\n1 rmdir /d{number}\n"
        )?;
        text.push_str(lines.as_str())?;
    }
    Ok(text)
}

// The schedule of all its lines.
fn schedule_text(heap: Heap) -> std::result::Result<String<Heap>, AllocError> {
    let mut text = String::new(heap);
    text.push_str("1")?;
    for _ in 1..LINES {
        text.push_str(",1")?;
    }
    Ok(text)
}

fn script_in(rt: &HostRuntime, heap: Heap, text: &str) -> Result<Script> {
    let lap = Lap::start(rt, heap)?;
    let Ok(script) = read_script(heap, text.as_bytes()) else {
        bail!("the script is not read")
    };
    match lap.print(rt, heap, "edge", "read a script", LINES) {
        Ok(()) => Ok(script),
        Err(error) => {
            drop(script);
            Err(error)
        }
    }
}

fn schedule_in(rt: &HostRuntime, heap: Heap, text: &str, script: &Script) -> Result<Vec<Pid, Heap>>
    ensures { IfOk result (λ pids. AreProcessNumbers pids.items) }
{
    let lap = Lap::start(rt, heap)?;
    let Ok(pids) = read_schedule(heap, text, script) else {
        bail!("the schedule is not read")
    };
    lap.print(rt, heap, "edge", "read a schedule", LINES)?;
    Ok(pids)
}

// The steps of a script in the order of its schedule.
fn in_order(rt: &HostRuntime, heap: Heap, script: Script, pids: &[Pid]) -> Result<Steps>
    requires { AreProcessNumbers pids.now }
{
    let lap = match Lap::start(rt, heap) {
        Ok(lap) => lap,
        Err(error) => {
            drop(script);
            return Err(error);
        }
    };
    let steps = steps_of(heap, script, pids)?;
    match lap.print(rt, heap, "edge", "put the steps in order", LINES) {
        Ok(()) => Ok(steps),
        Err(error) => {
            drop(steps);
            Err(error)
        }
    }
}

// Reads a script and its schedule, and gives the steps.
fn ordered(rt: &HostRuntime, heap: Heap, script: &str, schedule: &str) -> Result<Steps> {
    let script = script_in(rt, heap, script)?;
    match schedule_in(rt, heap, schedule, &script) {
        Ok(pids) => in_order(rt, heap, script, pids.as_slice()),
        Err(error) => {
            drop(script);
            Err(error)
        }
    }
}

fn make_steps<K: Machine>(kernel: &mut K, steps: Steps) {
    for (pid, op) in steps {
        drop(kernel.step(pid, op));
    }
}

// Prints the transcript to the file of this path.
fn print_to_file<K: Machine>(rt: &HostRuntime, kernel: &K, path: &str) -> Result<()> {
    let mut sink = Counted::new(File::create(rt, path)?);
    if print(1, kernel.history().entries(), &mut sink).is_err() {
        bail!("the transcript is not printed")
    }
    Ok(())
}

// Makes steps, and prints how long they took.
fn print_steps<K: Machine>(
    rt: &HostRuntime,
    kernel: &mut K,
    heap: Heap,
    steps: Steps,
) -> Result<()> {
    let lap = match Lap::start(rt, heap) {
        Ok(lap) => lap,
        Err(error) => {
            drop(steps);
            return Err(error);
        }
    };
    make_steps(kernel, steps);
    lap.print(rt, heap, "edge", "make the steps", LINES)
}

// Does the script's steps, and prints their transcript.
fn print_run<K: Machine>(
    rt: &HostRuntime,
    kernel: &mut K,
    heap: Heap,
    texts: (&str, &str),
    path: &str,
) -> Result<()> {
    let steps = ordered(rt, heap, texts.0, texts.1)?;
    print_steps(rt, kernel, heap, steps)?;
    let lap = Lap::start(rt, heap)?;
    print_to_file(rt, kernel, path)?;
    lap.print(rt, heap, "edge", "print the transcript", LINES)
}

fn print_script<K: Machine>(
    rt: &HostRuntime,
    heap: Heap,
    texts: (&str, &str),
    path: &str,
) -> Result<()> {
    let mut kernel: K = kernel_of(heap, 1)?;
    let done = print_run(rt, &mut kernel, heap, texts, path);
    drop(kernel);
    done
}

// So many entries: looks at the root.
fn fill<K: Machine>(kernel: &mut K, heap: Heap) -> Result<()> {
    for _ in 0..LONG {
        step(kernel, 1, Op::Call(Call::Stat(Bytes::copy(heap, b"/")?)))?;
    }
    Ok(())
}

// Writes so many bytes to the file of this path, 64 KiB at a time.
fn write_bytes(rt: &HostRuntime, heap: Heap, count: u64, path: &str) -> Result<()> {
    let portion = Vec::from_elem(heap, b'x', 65_536)?;
    let mut file = File::create(rt, path)?;
    for _ in 0..count / 65_536 {
        file.write_all(portion.as_slice())?;
    }
    Ok(())
}

// Formats the transcript and forgets it. Answers how many bytes it has.
fn format<K: Machine>(rt: &HostRuntime, kernel: &K, heap: Heap) -> Result<u64> {
    let mut sink = Forgetting { bytes: 0 };
    let lap = Lap::start(rt, heap)?;
    if print(1, kernel.history().entries(), &mut sink).is_err() {
        bail!("the transcript is not printed")
    }
    lap.print(rt, heap, "transcript", "format a million lines", LONG)?;
    Ok(sink.bytes)
}

fn print_long_on<K: Machine>(rt: &HostRuntime, kernel: &K, heap: Heap, path: &str) -> Result<()> {
    let bytes = format(rt, kernel, heap)?;
    let lap = Lap::start(rt, heap)?;
    print_to_file(rt, kernel, path)?;
    lap.print(rt, heap, "transcript", "print a million lines", LONG)?;
    let lap = Lap::start(rt, heap)?;
    write_bytes(rt, heap, bytes, path)?;
    lap.print(rt, heap, "transcript", "write as many bytes", LONG)
}

fn print_long_often<K: Machine>(
    rt: &HostRuntime,
    kernel: &mut K,
    heap: Heap,
    path: &str,
) -> Result<()> {
    fill(kernel, heap)?;
    for _ in 0..3u64 {
        print_long_on(rt, kernel, heap, path)?;
    }
    Ok(())
}

fn print_long<K: Machine>(rt: &HostRuntime, heap: Heap, path: &str) -> Result<()> {
    let mut kernel: K = kernel_of(heap, 1)?;
    let done = print_long_often(rt, &mut kernel, heap, path);
    drop(kernel);
    done
}

/// Prints what the parts of a run cost for a script of 60,000 lines, and what a transcript of a million
/// lines costs against as many bytes. Both transcripts are written to the file of this path.
pub(crate) fn print_edges<K: Machine>(rt: &HostRuntime, heap: Heap, path: &str) -> Result<()> {
    let script = script_text(heap)?;
    let schedule = schedule_text(heap)?;
    let texts = (script.as_str(), schedule.as_str());
    for _ in 0..3u64 {
        print_script::<K>(rt, heap, texts, path)?;
    }
    print_long::<K>(rt, heap, path)
}
