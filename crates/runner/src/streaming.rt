// The program where its operations come line by line.
ghost use Rattle.std.specs.Prelude.{◌≡◌, ◌⊎◌, ◌<◌, ◌≤◌};
ghost use Rattle.device.specs.Device.{CanCount};
ghost use Rattle.runner.specs.Streaming.{IsStreamFaulted, IsStreamed, status_of_good};

use crate::RunFault;
use crate::reporting::report_fault;
use device::{Sink, Source};
use heap::Heap;
use ids::Limits;
use machine::Machine;
use stream::run_stream;
use words::{MAX_FILE_LIMIT, MAX_LIMIT, StreamJob};

// The status where the input has come to its end.
fn status_of_good(good: bool) -> u8
    ensures { result ≡ status_of_good good }
{
    if good { 0 } else { 1 }
}

/// Does each line of `source` on a kernel of the type `K` as it comes, and answers it on `out`.
/// Where a fault stops this before the end of the input its line goes to `err`. Returns the
/// program's exit status: at the end of the input 0, or 1 where a line was a fault, else that of
/// the fault that stopped it. A failure of `err` changes no status.
pub fn run_stream_job<K: Machine, I: Source, O: Sink, E: Sink>(
    heap: Heap,
    job: StreamJob,
    source: &mut I,
    out: &mut O,
    err: &mut E,
) -> u8
    requires reads { CanCount (I.failures source.old) }
    requires writes { CanCount (O.failures out.old) }
    requires reports { CanCount (E.failures err.old) }
    requires limited { job.limit ≤ MAX_LIMIT }
    requires files { job.file_limit ≤ MAX_FILE_LIMIT }
    ensures { IsStreamed job
        (I.remaining source.old) (I.remaining source.new)
        (O.written out.old) (O.written out.new) result
        ⊎ IsStreamFaulted job
        (I.remaining source.old) (I.remaining source.new)
        (O.written out.old) (O.written out.new)
        (I.failures source.old < I.failures source.new)
        (O.failures out.old < O.failures out.new) result }
{
    let limits = Limits {
        entries: job.limit as usize,
        file_bytes: job.file_limit,
        descriptors: job.descriptors,
        path_bytes: job.path_limit,
    };
    match run_stream::<K, _, _>(heap, limits, job.check, source, out) {
        Ok(good) => status_of_good(good),
        Err(stopped) => {
            let fault = RunFault::of_stream(stopped);
            report_fault(heap, &fault, err);
            fault.status()
        }
    }
}
