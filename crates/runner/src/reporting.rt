// What the program reports where it does no job, or not all of it.
ghost use Rattle.std.specs.Prelude.{List, ℕ, ◌<◌, IfErr};
ghost use Rattle.device.specs.Device.{CanCount, IsPart};
ghost use Rattle.runner.specs.CommandLines.{IsCommandLineEnd, NoHelp};

use crate::RunFault;
use device::{Sink, write_all};
use heap::Heap;
use std::fmt::Display;
use words::CommandLineFault;

// Writes a fault's line, or that memory is refused where there is none for the line.
fn report<F: Display, E: Sink>(heap: Heap, fault: &F, err: &mut E)
    requires { CanCount (E.failures err.old) }
    ensures { (line : List ℕ) × IsPart (E.written err.old) (E.written err.new) line }
{
    let _ = match format!(in heap; "txsh: {fault}\n") {
        Ok(line) => write_all(err, line.as_bytes()),
        Err(_) => write_all(err, b"txsh: no memory\n".as_slice()),
    };
}

/// Writes the line of a run's fault, or that memory is refused where there is none for the line.
pub fn report_fault<E: Sink>(heap: Heap, fault: &RunFault, err: &mut E)
    requires { CanCount (E.failures err.old) }
    ensures { (line : List ℕ) × IsPart (E.written err.old) (E.written err.new) line }
{
    report(heap, fault, err);
}

// Writes the text of help. Where memory for it is refused, nothing is written.
fn write_help<O: Sink>(heap: Heap, help: &CommandLineFault, out: &mut O) -> Result<(), RunFault>
    requires { CanCount (O.failures out.old) }
    ensures part { (text : List ℕ) × IsPart (O.written out.old) (O.written out.new) text }
    ensures fault { IfErr result (NoHelp
        (O.written out.old) (O.written out.new) (O.failures out.old < O.failures out.new)) }
{
    let Ok(text) = format!(in heap; "{help}") else {
        return Err(RunFault::NoMemory);
    };
    match write_all(out, text.as_bytes()) {
        Ok(()) => Ok(()),
        Err(_) => Err(RunFault::Write),
    }
}

/// Reports why the command line gives no job. The text of help goes to `out`, and a fault's line to
/// `err`. Returns the program's exit status: 0 where help is written, else that of the fault. A
/// failure of `err` changes no status.
pub fn report_command_line<O: Sink, E: Sink>(
    heap: Heap,
    fault: &CommandLineFault,
    out: &mut O,
    err: &mut E,
) -> u8
    requires writes { CanCount (O.failures out.old) }
    requires reports { CanCount (E.failures err.old) }
    ensures out { (text : List ℕ) × IsPart (O.written out.old) (O.written out.new) text }
    ensures err { (line : List ℕ) × IsPart (E.written err.old) (E.written err.new) line }
    ensures end { IsCommandLineEnd fault.now
        (O.written out.old) (O.written out.new) (E.written err.old) (E.written err.new)
        (O.failures out.old < O.failures out.new) result }
{
    if !matches!(fault, CommandLineFault::Help(_)) {
        report(heap, fault, err);
        return fault.status();
    }
    match write_help(heap, fault, out) {
        Ok(()) => 0,
        Err(fault) => {
            report(heap, &fault, err);
            fault.status()
        }
    }
}
