// One line, and all lines.
ghost use Rattle.std.specs.Prelude.{◌≡◌, ◌+◌, ◌<◌, ◌≤◌, ◌^◌, flat_map, length, OnErr, OnOk};
ghost use Rattle.std.specs.Io.KnownBytes.{append_known};
ghost use Rattle.device.specs.Device.{CanCount, IsPart};
ghost use Rattle.transcript.specs.Line.{dooms_text, line_of, lines_from, more_text};
ghost use Rattle.transcript.specs.Printer.{CanPrint, Prints};
ghost use Rattle.transcript.specs.Reply.{why_text};

use crate::operation::put_op;
use crate::printer::Printer;
use crate::reply::{put_reply, put_why};
use device::{DeviceFailed, Sink};
use ids::{Entry, Pid, Why};
use std::slice;

fn put_pids<S: Sink>(out: &mut Printer<'_, S>, pids: &[Pid])
    requires { CanPrint S.failures out.old }
    ensures { Prints S.written S.failures out.old out.new (flat_map more_text pids.now) }
{
    for pid in pids {
        out.put_number(b",P", pid.0);
    }
}

fn put_dooms<S: Sink>(out: &mut Printer<'_, S>, doomed: &[Pid])
    requires { CanPrint S.failures out.old }
    ensures { Prints S.written S.failures out.old out.new (dooms_text doomed.now) }
{
    if let Some((first, others)) = doomed.split_first() {
        out.put_number(b" dooms P", first.0);
        put_pids(out, others);
    }
}

/// Prints the line of one entry behind what was printed before. `position` is its number in its
/// history, from 1.
#[tactic(auto, unfolding(crate::specs::Line::line_of))]
pub fn put_line<S: Sink>(out: &mut Printer<'_, S>, position: usize, entry: &Entry)
    requires { CanPrint S.failures out.old }
    ensures { Prints S.written S.failures out.old out.new (line_of position entry.now) }
{
    out.put_decimal(position as u64);
    out.put_number(b" P", entry.pid.0);
    out.put_word(b" ");
    put_op(out, &entry.op);
    out.put_word(b" -> ");
    put_reply(out, &entry.reply);
    put_dooms(out, entry.doomed.as_slice());
    out.put_word(b"\n");
}

fn put_lines<S: Sink>(out: &mut Printer<'_, S>, first: usize, entries: &[Entry])
    requires can { CanPrint S.failures out.old }
    requires small { first + length entries.now ≤ 2 ^ 64 }
    ensures { Prints S.written S.failures out.old out.new (lines_from first entries.now) }
{
    for (index, entry) in entries.iter().enumerate() {
        put_line(out, first + index, entry);
    }
}

/// Prints the line of one entry. `position` is its number in its history, from 1.
///
/// Where the sink fails a beginning of the line is written.
pub fn print_line<S: Sink>(position: usize, entry: &Entry, sink: &mut S) -> Result<(), DeviceFailed>
    requires { CanCount (S.failures sink.old) }
    ensures ok { OnOk result (S.written sink.new
        ≡ append_known (S.written sink.old) (line_of position entry.now)) }
    ensures no_failure { OnOk result (S.failures sink.new ≡ S.failures sink.old) }
    ensures part { IsPart (S.written sink.old) (S.written sink.new) (line_of position entry.now) }
    ensures failure { OnErr result (S.failures sink.old < S.failures sink.new) }
{
    print(position, slice::from_ref(entry), sink)
}

/// Prints the lines of entries that follow each other in a history. `first` is the number of the
/// first of them; a history's entries are numbered from 1.
///
/// Where the sink fails a beginning of the lines is written.
pub fn print<S: Sink>(first: usize, entries: &[Entry], sink: &mut S) -> Result<(), DeviceFailed>
    requires device { CanCount (S.failures sink.old) }
    requires small { first + length entries.now ≤ 2 ^ 64 }
    ensures ok { OnOk result (S.written sink.new
        ≡ append_known (S.written sink.old) (lines_from first entries.now)) }
    ensures no_failure { OnOk result (S.failures sink.new ≡ S.failures sink.old) }
    ensures part { IsPart (S.written sink.old) (S.written sink.new) (lines_from first entries.now) }
    ensures failure { OnErr result (S.failures sink.old < S.failures sink.new) }
{
    let mut out = Printer::new(sink);
    put_lines(&mut out, first, entries);
    out.finish()
}

/// Prints why a transaction was aborted, as it stands in the line of the entry by which it was told.
///
/// Where the sink fails a beginning of it is written.
pub fn print_why<S: Sink>(why: &Why, sink: &mut S) -> Result<(), DeviceFailed>
    requires { CanCount (S.failures sink.old) }
    ensures ok { OnOk result (S.written sink.new
        ≡ append_known (S.written sink.old) (why_text why.now)) }
    ensures no_failure { OnOk result (S.failures sink.new ≡ S.failures sink.old) }
    ensures part { IsPart (S.written sink.old) (S.written sink.new) (why_text why.now) }
    ensures failure { OnErr result (S.failures sink.old < S.failures sink.new) }
{
    let mut out = Printer::new(sink);
    put_why(&mut out, why);
    out.finish()
}
