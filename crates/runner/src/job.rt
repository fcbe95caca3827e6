// The program from the opened file on.
ghost use Rattle.std.specs.Prelude.{◌≡◌, ◌≢◌, ◌⊎◌, ◌<◌, ◌≤◌, IfErr, IfOk, OnOk};
ghost use Rattle.device.specs.Device.{CanCount};
ghost use Rattle.runner.specs.Faults.{status_of};
ghost use Rattle.runner.specs.Jobs.{HasEnded, HasRun, IsDone, IsFaulted, limits_for};

use crate::RunFault;
use crate::checking::check_if;
use crate::reporting::report_fault;
use crate::run::run_schedule;
use crate::threads::run_script_by_threads;
use device::{Sink, Source};
use heap::Heap;
use ids::Limits;
use machine::Machine;
use replay::legal_histories_have_no_fault;
use std::sync::Wait;
use std::thread::Threads;
use words::{Job, MAX_FILE_LIMIT, MAX_LIMIT, Way};

// Runs the script of a job in its way.
fn run_script<K: Machine + Send, R: Threads + Wait + Sync, I: Source, O: Sink>(
    rt: &R,
    heap: Heap,
    job: &Job,
    source: &mut I,
    out: &mut O,
) -> Result<K, RunFault>
    requires reads { CanCount (I.failures source.old) }
    requires writes { CanCount (O.failures out.old) }
    requires limited { job.now.limit ≤ MAX_LIMIT }
    requires files { job.now.file_limit ≤ MAX_FILE_LIMIT }
    ensures ok { IfOk result (λ kernel. HasRun job.now.way (limits_for job.now)
        (I.remaining source.old) (I.remaining source.new)
        (O.written out.old) (O.written out.new) (K.shown kernel)) }
    ensures fault { IfErr result (HasEnded job.now.way (limits_for job.now)
        (I.remaining source.old) (I.remaining source.new)
        (O.written out.old) (O.written out.new)) }
    ensures read { result ≡ Err RunFault.Read → I.failures source.old < I.failures source.new }
    ensures write { result ≡ Err RunFault.Write → O.failures out.old < O.failures out.new }
    ensures no_write_failure { result ≢ Err RunFault.Write
        → O.failures out.new ≡ O.failures out.old }
{
    let limits = Limits {
        entries: job.limit as usize,
        file_bytes: job.file_limit,
        descriptors: job.descriptors,
        path_bytes: job.path_limit,
    };
    match &job.way {
        Way::Schedule(list) => run_schedule(heap, source, list.as_str(), limits, out),
        Way::Threads => run_script_by_threads(rt, heap, source, limits, out),
    }
}

// Does a job, up to its fault.
fn do_job<K: Machine + Send, R: Threads + Wait + Sync, I: Source, O: Sink>(
    rt: &R,
    heap: Heap,
    job: &Job,
    source: &mut I,
    out: &mut O,
) -> Result<(), RunFault>
    requires reads { CanCount (I.failures source.old) }
    requires writes { CanCount (O.failures out.old) }
    requires limited { job.now.limit ≤ MAX_LIMIT }
    requires files { job.now.file_limit ≤ MAX_FILE_LIMIT }
    ensures done { OnOk result (IsDone job.now
        (I.remaining source.old) (I.remaining source.new)
        (O.written out.old) (O.written out.new) 0) }
    ensures fault { IfErr result (λ fault. IsFaulted job.now
        (I.remaining source.old) (I.remaining source.new)
        (O.written out.old) (O.written out.new)
        (I.failures source.old < I.failures source.new)
        (O.failures out.old < O.failures out.new) (status_of fault)) }
{
    match run_script::<K, _, _, _>(rt, heap, job, source, out) {
        Ok(kernel) => {
            // For the proof: a legal history has no fault.
            legal_histories_have_no_fault();
            let told = check_if(job.check, heap, kernel.history(), out);
            drop(kernel);
            told
        }
        Err(fault) => Err(fault),
    }
}

/// Does a job on a kernel of the type `K`: runs the script that the source spells, by a schedule or
/// by threads, and checks the history if it says so. The transcript goes to `out`, behind it that the history passes, and where
/// a fault ends the job its line goes to `err`. Returns the program's exit status: 0 when all is
/// done, else that of the fault. A failure of `err` changes no status. A run by threads waits for
/// them.
pub fn run_job<K: Machine + Send, R: Threads + Wait + Sync, I: Source, O: Sink, E: Sink>(
    rt: &R,
    heap: Heap,
    job: &Job,
    source: &mut I,
    out: &mut O,
    err: &mut E,
) -> u8
    requires reads { CanCount (I.failures source.old) }
    requires writes { CanCount (O.failures out.old) }
    requires reports { CanCount (E.failures err.old) }
    requires limited { job.now.limit ≤ MAX_LIMIT }
    requires files { job.now.file_limit ≤ MAX_FILE_LIMIT }
    ensures { IsDone job.now
        (I.remaining source.old) (I.remaining source.new)
        (O.written out.old) (O.written out.new) result
        ⊎ IsFaulted job.now
        (I.remaining source.old) (I.remaining source.new)
        (O.written out.old) (O.written out.new)
        (I.failures source.old < I.failures source.new)
        (O.failures out.old < O.failures out.new) result }
{
    let fault = match do_job::<K, _, _, _>(rt, heap, job, source, out) {
        Ok(()) => return 0,
        Err(fault) => fault,
    };
    report_fault(heap, &fault, err);
    fault.status()
}
