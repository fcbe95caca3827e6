// Answers, as they are printed.
ghost use Rattle.std.specs.Prelude.{◌++◌, ℕ, List, option_map, codes, decimal};
ghost use Rattle.transcript.specs.Printer.{CanPrint, Prints};
ghost use Rattle.stream.specs.Answers.{fault_line, fault_text};
ghost use Rattle.stream.specs.Heard.{IsLastLine, IsTold};
ghost use Rattle.stream.specs.Streams.{verdict};

use crate::heard::Heard;
use device::Sink;
use machine::Machine;
use script::ScriptFault;
use transcript::{Printer, put_line};

// Prints the number of a line, and what is the matter with it.
fn put_numbered<S: Sink>(out: &mut Printer<'_, S>, number: usize, matter: &[u8])
    requires { CanPrint S.failures out.old }
    ensures { Prints S.written S.failures out.old out.new
        (codes "line " ++ decimal number ++ matter.now) }
{
    out.put(b"line ");
    out.put_decimal(number as u64);
    out.put(matter);
}

// Prints the text of a fault, which is its `Display` too.
fn put_fault<S: Sink>(out: &mut Printer<'_, S>, fault: ScriptFault)
    requires { CanPrint S.failures out.old }
    ensures { Prints S.written S.failures out.old out.new (fault_text fault) }
{
    match fault {
        ScriptFault::TooLong => out.put(b"script too long"),
        ScriptFault::LineTooLong(number) => put_numbered(out, number, b": too long"),
        ScriptFault::NotEnded(number) => put_numbered(out, number, b": not ended"),
        ScriptFault::PrioritiesExpected(number) => {
            put_numbered(out, number, b": priorities expected");
        }
        ScriptFault::ProcessExpected(number) => {
            put_numbered(out, number, b": process number expected");
        }
        ScriptFault::UnknownOperation(number) => {
            put_numbered(out, number, b": unknown operation");
        }
        ScriptFault::BadArguments(number) => put_numbered(out, number, b": bad arguments"),
        ScriptFault::NoMemory => out.put(b"no memory"),
    }
}

// Prints the answer to a line that asks no operation.
pub(crate) fn put_fault_line<S: Sink>(out: &mut Printer<'_, S>, fault: ScriptFault)
    requires { CanPrint S.failures out.old }
    ensures { Prints S.written S.failures out.old out.new (fault_line fault) }
{
    out.put(b"? ");
    put_fault(out, fault);
    out.put(b"\n");
}

// Prints that the history passes, if it was checked.
pub(crate) fn put_verdict<S: Sink>(out: &mut Printer<'_, S>, check: bool)
    requires { CanPrint S.failures out.old }
    ensures { Prints S.written S.failures out.old out.new (verdict check) }
{
    if check {
        out.put(b"check: ok\n");
    }
}

// Prints the line of the last entry, where that is kept.
fn put_last<K: Machine, S: Sink>(out: &mut Printer<'_, S>, kernel: &K)
    requires { CanPrint S.failures out.old }
    ensures { (text : List ℕ) × Prints S.written S.failures out.old out.new text
        × IsLastLine (K.shown kernel.now).log text }
{
    let history = kernel.history();
    if let Some(entry) = history.entries().last() {
        put_line(out, history.count() as usize, entry);
    }
}

// Prints what a line has come to. Only an operation is answered by a kernel, so there is one.
fn put_operation<K: Machine, S: Sink>(out: &mut Printer<'_, S>, kernel: &Option<K>)
    requires { CanPrint S.failures out.old }
    ensures { (text : List ℕ) × Prints S.written S.failures out.old out.new text
        × IsTold Heard.Operation (option_map K.shown kernel.now) text }
{
    if let Some(kernel) = kernel {
        put_last(out, kernel);
    }
}

// Answers a line by what it has come to.
pub(crate) fn tell<K: Machine, S: Sink>(out: &mut Printer<'_, S>, kernel: &Option<K>, heard: Heard)
    requires { CanPrint S.failures out.old }
    ensures { (text : List ℕ) × Prints S.written S.failures out.old out.new text
        × IsTold heard (option_map K.shown kernel.now) text }
{
    match heard {
        Heard::Nothing => {}
        Heard::Operation => put_operation(out, kernel),
        Heard::Fault(fault) => put_fault_line(out, fault),
    }
}
