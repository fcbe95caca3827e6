// A script and a schedule of it, from a source to a sink.
ghost use Rattle.std.specs.Prelude.{◌≡◌, ◌≢◌, ◌<◌, ◌≤◌, IfErr, IfOk};
ghost use Rattle.device.specs.Device.{CanCount};
ghost use Rattle.runner.specs.Runs.{Ended, Ran};

use crate::RunFault;
use crate::reading::script_in;
use crate::steps::do_steps;
use device::{Sink, Source};
use heap::Heap;
use ids::Limits;
use machine::Machine;
use script::{read_schedule, steps_of};
use words::{MAX_FILE_LIMIT, MAX_LIMIT};

/// Reads a script from `source`, checks `list`, a schedule of it, and executes its steps on a fresh
/// kernel with these limits. The transcript is written to `sink` behind the last step. Returns
/// the kernel.
///
/// A `Script` or `Schedule` fault comes before any step, and then nothing was written. `Read` and
/// `Write` come only where the device has failed; where `Write` comes a beginning of the transcript
/// was written. `HistoryFull` and `NoMemory` stop the run, and the transcript of the steps before is
/// written.
pub fn run_schedule<K: Machine, I: Source, O: Sink>(
    heap: Heap,
    source: &mut I,
    list: &str,
    limits: Limits,
    sink: &mut O,
) -> Result<K, RunFault>
    requires reads { CanCount (I.failures source.old) }
    requires writes { CanCount (O.failures sink.old) }
    requires limited { limits.entries ≤ MAX_LIMIT }
    requires files { limits.file_bytes ≤ MAX_FILE_LIMIT }
    ensures ok { IfOk result (λ kernel. Ran list.now limits
        (I.remaining source.old) (I.remaining source.new)
        (O.written sink.old) (O.written sink.new) (K.shown kernel)) }
    ensures fault { IfErr result (Ended list.now limits
        (I.remaining source.old) (I.remaining source.new)
        (O.written sink.old) (O.written sink.new)) }
    ensures read { result ≡ Err RunFault.Read → I.failures source.old < I.failures source.new }
    ensures no_read_failure { result ≢ Err RunFault.Read
        → I.failures source.new ≡ I.failures source.old }
    ensures write { result ≡ Err RunFault.Write → O.failures sink.old < O.failures sink.new }
    ensures no_write_failure { result ≢ Err RunFault.Write
        → O.failures sink.new ≡ O.failures sink.old }
{
    let script = script_in(heap, source)?;
    let pids = match read_schedule(heap, list, &script) {
        Ok(pids) => pids,
        Err(fault) => return Err(RunFault::of_schedule(fault)),
    };
    let Ok(mut kernel) = K::with_limits(heap, script.priorities(), limits) else {
        return Err(RunFault::NoMemory);
    };
    let Ok(steps) = steps_of(heap, script, &pids) else {
        drop(kernel);
        return Err(RunFault::NoMemory);
    };
    match do_steps(&mut kernel, steps, sink) {
        Ok(()) => Ok(kernel),
        Err(fault) => {
            drop(kernel);
            Err(fault)
        }
    }
}
