//! `txsh`: executes the operations of processes on a kernel with transactions, and prints the reply
//! to each.
#![tactic(auto)]

ghost use Rattle.std.specs.Prelude.{◌≤◌, IfOk};
ghost use Rattle.words.specs.Txsh.{IsSmall};

use device::Counted;
use heap::Heap;
use kernel::Kernel;
use runner::{RunFault, read_words, report_command_line, report_fault, run_job, run_stream_job};
use sqlite_disk::Wary;
use std::alloc::Global;
use std::fs::File;
use std::process::ExitCode;
use std::sync::Wait;
use std::thread::Threads;
use std::{env, io};
use store_stream::{report_store, run_store_job};
use words::{CommandLineFault, Job, MAX_FILE_LIMIT, MAX_LIMIT, StoreJob, StreamJob, Task};

/// The exit status where the file of a store is not opened.
const REFUSED: u8 = 6;

fn main(rt: HostRuntime) -> ExitCode {
    ExitCode::from(status(&rt, &rt))
}

/// Reads the command line and does its task. Returns the exit status. Only `main` may give the
/// host's threads to others, so they come as a handle of their own.
fn status<R: Threads + Wait + Sync>(rt: &HostRuntime, threads: &R) -> u8 {
    let Ok(heap) = heap::open(rt.alloc()) else {
        return RunFault::NoMemory.status();
    };
    match task_in(rt, heap) {
        Ok(Task::Script(job)) => run_file(rt, threads, heap, &job),
        Ok(Task::Stream(job)) => run_input(rt, heap, job),
        Ok(Task::Store(job)) => run_store(rt, heap, &job),
        Err(fault) => {
            let mut out = Counted::new(rt.stdout());
            let mut err = Counted::new(rt.stderr());
            report_command_line(heap, &fault, &mut out, &mut err)
        }
    }
}

/// Runs the script in a job's file.
fn run_file<R: Threads + Wait + Sync>(rt: &HostRuntime, threads: &R, heap: Heap, job: &Job) -> u8
    requires limited { job.now.limit ≤ MAX_LIMIT }
    requires files { job.now.file_limit ≤ MAX_FILE_LIMIT }
{
    let mut out = Counted::new(rt.stdout());
    let mut err = Counted::new(rt.stderr());
    let Ok(file) = File::open(rt, job.file.as_str()) else {
        report_fault(heap, &RunFault::Read, &mut err);
        return RunFault::Read.status();
    };
    let mut source = Counted::new(file);
    run_job::<Kernel, _, _, _, _>(threads, heap, job, &mut source, &mut out, &mut err)
}

/// Does the lines of standard input as they come.
fn run_input(rt: &HostRuntime, heap: Heap, job: StreamJob) -> u8
    requires limited { job.limit ≤ MAX_LIMIT }
    requires files { job.file_limit ≤ MAX_FILE_LIMIT }
{
    let mut source = Counted::new(rt.stdin());
    let mut out = Counted::new(rt.stdout());
    let mut err = Counted::new(rt.stderr());
    run_stream_job::<Kernel, _, _, _>(heap, job, &mut source, &mut out, &mut err)
}

/// Does the lines of standard input as they come, on the kernel of a store. A torn write may leave
/// any bytes where it wrote.
fn run_store(rt: &HostRuntime, heap: Heap, job: &StoreJob) -> u8
    requires limited { job.now.stream.limit ≤ MAX_LIMIT }
    requires files { job.now.stream.file_limit ≤ MAX_FILE_LIMIT }
{
    let mut source = Counted::new(rt.stdin());
    let mut out = Counted::new(rt.stdout());
    let mut err = Counted::new(rt.stderr());
    match store_file::open(rt, job.store.as_str(), Wary) {
        Ok(disk) => run_store_job::<Kernel, _, _, _, _>(
            heap,
            rt.alloc(),
            disk,
            job,
            &mut source,
            &mut out,
            &mut err,
        ),
        Err(fault) => {
            report_store(heap, job.store.as_str(), &fault, &mut err);
            REFUSED
        }
    }
}

/// The task that the command line gives.
fn task_in(rt: &HostRuntime, heap: Heap) -> Result<Task, CommandLineFault>
    ensures { IfOk result IsSmall }
{
    let global = rt.alloc();
    let texts = words_of(rt, global)?;
    let mut words = Vec::new(global);
    for text in &texts {
        if words.push(text.as_str()).is_err() {
            return Err(CommandLineFault::NoMemory);
        }
    }
    read_words(global, heap, words.as_slice())
}

/// Why the words cannot be had: they are refused memory, or one is not UTF-8.
fn fault_of(error: &io::Error) -> CommandLineFault {
    match error.kind() {
        io::ErrorKind::OutOfMemory => CommandLineFault::NoMemory,
        _ => CommandLineFault::NotUtf8,
    }
}

/// The words of the command line, the program's name first. A word that is not UTF-8 leaves none.
fn words_of(rt: &HostRuntime, global: Global) -> Result<Vec<String>, CommandLineFault> {
    let words = match env::args(rt) {
        Ok(words) => words,
        Err(error) => return Err(fault_of(&error)),
    };
    let mut texts = Vec::new(global);
    for text in words {
        if texts.push(text).is_err() {
            return Err(CommandLineFault::NoMemory);
        }
    }
    Ok(texts)
}
