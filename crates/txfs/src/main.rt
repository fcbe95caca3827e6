//! `txfs`: serves a FUSE session on standard input and standard output. Each read gives one request,
//! and each write is one reply.
//!
//! `txfs [--limit N] [--file-limit N] [--bytes N]`
#![tactic(auto)]

mod mount;

ghost use Rattle.std.specs.Prelude.{◌≤◌, IfOk};
ghost use Rattle.ids.specs.declared.limits.TheConstants.{LARGEST_FILE, MAX_ENTRIES};

use kernel::Kernel;
use mount::serve;
use mount_words::{CommandLineFault, Settings, read_settings};
use session::{Ending, Streams};
use std::io::Write;
use std::process::ExitCode;
use std::{env, io};

// The exit status where memory was refused, and where a read failed.
const NO_MEMORY: u8 = 3;

const READ_FAILED: u8 = 5;

fn main(rt: HostRuntime) -> ExitCode {
    ExitCode::from(status(&rt))
}

// Reads the command line, and serves the session up to its end. Returns the exit status.
fn status(rt: &HostRuntime) -> u8 {
    match settings_in(rt) {
        Ok(settings) => serve_streams(rt, settings),
        Err(fault) => {
            fault.report(rt);
            fault.status()
        }
    }
}

// Serves the session on standard input and output.
fn serve_streams(rt: &HostRuntime, settings: Settings) -> u8
    requires entries { settings.limits.entries ≤ MAX_ENTRIES }
    requires files { settings.limits.file_bytes ≤ LARGEST_FILE }
{
    let Ok(heap) = heap::open(rt.alloc()) else {
        return ended(rt, "txfs: no memory\n", NO_MEMORY);
    };
    heap.hold_to(settings.bytes);
    let mut channel = Streams {
        input: rt.stdin(),
        output: rt.stdout(),
        clock: rt,
    };
    match serve::<Kernel, _>(heap, settings.limits, &mut channel) {
        Ok(Ending::Unmounted) => 0,
        Ok(Ending::Failed) => ended(rt, "txfs: read failed\n", READ_FAILED),
        Err(_) => ended(rt, "txfs: no memory\n", NO_MEMORY),
    }
}

// Says why no session is served, or it ends before it is unmounted. Where that fails there is nobody to tell.
fn ended(rt: &HostRuntime, text: &str, status: u8) -> u8 {
    let _said = rt.stderr().write_all(text.as_bytes());
    status
}

// What the command line asks for.
fn settings_in(rt: &HostRuntime) -> Result<Settings, CommandLineFault>
    ensures entries { IfOk result (λ s. s.limits.entries ≤ MAX_ENTRIES) }
    ensures files { IfOk result (λ s. s.limits.file_bytes ≤ LARGEST_FILE) }
{
    let words = words_of(rt)?;
    read_settings(rt.alloc(), words.as_slice())
}

// The words of the command line, the program's name first. A word that is not UTF-8 leaves none.
fn words_of(rt: &HostRuntime) -> Result<Vec<String>, CommandLineFault> {
    let words = match env::args(rt) {
        Ok(words) => words,
        Err(error) => return Err(fault_of(&error)),
    };
    let mut texts = Vec::new(rt.alloc());
    for text in words {
        if texts.push(text).is_err() {
            return Err(CommandLineFault::NoMemory);
        }
    }
    Ok(texts)
}

// Why the words cannot be had: they are refused memory, or one is not UTF-8.
fn fault_of(error: &io::Error) -> CommandLineFault {
    match error.kind() {
        io::ErrorKind::OutOfMemory => CommandLineFault::NoMemory,
        _ => CommandLineFault::NotUtf8,
    }
}
