// A script whose processes are worked for by threads, from a source to a sink.
ghost use Rattle.std.specs.Prelude.{◌≡◌, ◌≢◌, ◌<◌, ◌≤◌, IfErr, IfOk};
ghost use Rattle.device.specs.Device.{CanCount};
ghost use Rattle.runner.specs.Threads.{EndedByThreads, RanByThreads};

use crate::RunFault;
use crate::printing::print_whole;
use crate::reading::script_in;
use device::{Sink, Source};
use heap::Heap;
use ids::Limits;
use machine::Machine;
use ports::run_threads;
use std::sync::Wait;
use std::thread::Threads;
use words::{MAX_FILE_LIMIT, MAX_LIMIT};

/// Reads a script from `source`, and runs it on a fresh kernel with these limits, with a
/// thread for each process, children too. After all threads have ended the transcript is written to
/// `sink`. Returns the kernel.
///
/// A fault that is no `Write` leaves nothing written. `Read` and `Write` come only where the device
/// has failed. `HistoryFull` and `NoMemory` mean that a worker was stopped; a thread that cannot be
/// started counts as refused memory. Nothing is promised of how long the threads take.
pub fn run_script_by_threads<K: Machine + Send, R: Threads + Wait + Sync, I: Source, O: Sink>(
    rt: &R,
    heap: Heap,
    source: &mut I,
    limits: Limits,
    sink: &mut O,
) -> Result<K, RunFault>
    requires reads { CanCount (I.failures source.old) }
    requires writes { CanCount (O.failures sink.old) }
    requires limited { limits.entries ≤ MAX_LIMIT }
    requires files { limits.file_bytes ≤ MAX_FILE_LIMIT }
    ensures ok { IfOk result (λ kernel. RanByThreads limits
        (I.remaining source.old) (I.remaining source.new)
        (O.written sink.old) (O.written sink.new) (K.shown kernel)) }
    ensures fault { IfErr result (EndedByThreads limits
        (I.remaining source.old) (I.remaining source.new)
        (O.written sink.old) (O.written sink.new)) }
    ensures read { result ≡ Err RunFault.Read → I.failures source.old < I.failures source.new }
    ensures no_read_failure { result ≢ Err RunFault.Read
        → I.failures source.new ≡ I.failures source.old }
    ensures write { result ≡ Err RunFault.Write → O.failures sink.old < O.failures sink.new }
    ensures no_write_failure { result ≢ Err RunFault.Write
        → O.failures sink.new ≡ O.failures sink.old }
{
    let script = script_in(heap, source)?;
    let kernel: K = match run_threads(rt, heap, &script, limits) {
        Ok(kernel) => kernel,
        Err(fault) => return Err(RunFault::of_work(fault)),
    };
    match print_whole(kernel.history(), sink) {
        Ok(()) => Ok(kernel),
        Err(fault) => {
            drop(kernel);
            Err(fault)
        }
    }
}
