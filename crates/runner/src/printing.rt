// The transcript of a history, written to a sink.
ghost use Rattle.std.specs.Prelude.{◌≡◌, ◌<◌, [], OnErr, OnOk};
ghost use Rattle.std.specs.Io.KnownBytes.{append_known};
ghost use Rattle.device.specs.Device.{CanCount, IsPart};
ghost use Rattle.transcript.specs.Line.{transcript};
ghost use Rattle.runner.specs.Printed.{transcript_of};

use crate::RunFault;
use device::Sink;
use history::History;

/// Writes the transcript of the entries that a history keeps, and takes no memory for it. Their
/// numbers go on from those that were forgotten. Its only fault is `Write`, where the sink has
/// failed; then a beginning of the transcript was written.
pub fn print<S: Sink>(history: &History, sink: &mut S) -> Result<(), RunFault>
    requires { CanCount (S.failures sink.old) }
    ensures ok { OnOk result (S.written sink.new
        ≡ append_known (S.written sink.old) (transcript_of history.now)) }
    ensures part { IsPart
        (S.written sink.old) (S.written sink.new) (transcript_of history.now) }
    ensures no_failure { OnOk result (S.failures sink.new ≡ S.failures sink.old) }
    ensures write { OnErr result (S.failures sink.old < S.failures sink.new) }
    ensures only { OnErr result (result ≡ Err RunFault.Write) }
{
    match transcript::print(history.forgotten() as usize + 1, history.entries(), sink) {
        Ok(()) => Ok(()),
        Err(_) => Err(RunFault::Write),
    }
}

// Writes the transcript of a history of which nothing was forgotten.
pub(crate) fn print_whole<S: Sink>(history: &History, sink: &mut S) -> Result<(), RunFault>
    requires device { CanCount (S.failures sink.old) }
    requires whole { history.now.forgotten ≡ [] }
    ensures ok { OnOk result (S.written sink.new
        ≡ append_known (S.written sink.old) (transcript history.now.entries)) }
    ensures part { IsPart
        (S.written sink.old) (S.written sink.new) (transcript history.now.entries) }
    ensures no_failure { OnOk result (S.failures sink.new ≡ S.failures sink.old) }
    ensures write { OnErr result (S.failures sink.old < S.failures sink.new) }
    ensures only { OnErr result (result ≡ Err RunFault.Write) }
{
    print(history, sink)
}
