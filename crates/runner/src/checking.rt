// The check of a run's history, after its last line.
ghost use Rattle.std.specs.Prelude.{◌≡◌, ◌<◌, [], true, IfErr, OnErr, OnOk};
ghost use Rattle.std.specs.Io.KnownBytes.{append_known};
ghost use Rattle.device.specs.Device.{CanCount, IsPart};
ghost use Rattle.runner.specs.Checks.{IsChecked, NotChecked, passed};

use crate::RunFault;
use device::{Sink, write_all};
use heap::Heap;
use history::History;
use replay::check;

// Writes that a history passes. Its only fault is `Write`, where the sink has failed.
fn write_passed<S: Sink>(sink: &mut S) -> Result<(), RunFault>
    requires { CanCount (S.failures sink.old) }
    ensures ok { OnOk result (S.written sink.new ≡ append_known (S.written sink.old) passed) }
    ensures part { IsPart (S.written sink.old) (S.written sink.new) passed }
    ensures write { OnErr result (S.failures sink.old < S.failures sink.new) }
    ensures only { OnErr result (result ≡ Err RunFault.Write) }
{
    match write_all(sink, b"check: ok\n".as_slice()) {
        Ok(()) => Ok(()),
        Err(_) => Err(RunFault::Write),
    }
}

// Checks a history of which nothing was forgotten, and writes that it passes.
fn check_history<S: Sink>(heap: Heap, history: &History, sink: &mut S) -> Result<(), RunFault>
    requires device { CanCount (S.failures sink.old) }
    requires whole { history.now.forgotten ≡ [] }
    ensures ok { OnOk result
        (IsChecked true history.now (S.written sink.old) (S.written sink.new)) }
    ensures fault { IfErr result (NotChecked history.now (S.written sink.old) (S.written sink.new)
        (S.failures sink.old < S.failures sink.new)) }
{
    match check(heap, history) {
        Ok(()) => write_passed(sink),
        Err(fault) => Err(RunFault::of_check(fault)),
    }
}

// Checks a history of which nothing was forgotten if that is wanted, and writes that it passes.
pub(crate) fn check_if<S: Sink>(
    wanted: bool,
    heap: Heap,
    history: &History,
    sink: &mut S,
) -> Result<(), RunFault>
    requires device { CanCount (S.failures sink.old) }
    requires whole { history.now.forgotten ≡ [] }
    ensures ok { OnOk result
        (IsChecked wanted history.now (S.written sink.old) (S.written sink.new)) }
    ensures fault { IfErr result (NotChecked history.now (S.written sink.old) (S.written sink.new)
        (S.failures sink.old < S.failures sink.new)) }
    ensures wanted { OnErr result (wanted ≡ true) }
{
    if wanted {
        check_history(heap, history, sink)
    } else {
        Ok(())
    }
}
