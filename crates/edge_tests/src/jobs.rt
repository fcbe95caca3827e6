// Whole jobs on scripts in memory.
ghost use Rattle.std.specs.Prelude.{◌≤◌, IfOk};

use crate::halting::halting;
use device::Portions;
use heap::Heap;
use kernel::Kernel;
use runner::run_job;
use std::alloc::AllocError;
use std::sync::Wait;
use std::thread::Threads;
use words::{
    DEFAULT_DESCRIPTORS, DEFAULT_FILE_LIMIT, DEFAULT_PATH_LIMIT, Job, MAX_FILE_LIMIT, MAX_LIMIT,
    Way,
};

// A schedule, or none for a run by threads, the limit, how many bytes the standard output takes, and
// what is expected of the program: its status, and what it writes on standard output and on standard
// error.
pub(crate) struct Expected {
    pub(crate) list: Option<&'static str>,
    pub(crate) limit: u32,
    pub(crate) room: usize,
    pub(crate) status: u8,
    pub(crate) out: &'static str,
    pub(crate) err: &'static str,
}

fn way_of(heap: Heap, list: Option<&str>) -> Result<Way, AllocError> {
    Ok(match list {
        Some(list) => Way::Schedule(String::from_str(heap, list)?),
        None => Way::Threads,
    })
}

pub(crate) fn job_of(heap: Heap, expected: &Expected, check: bool) -> Result<Job, AllocError>
    ensures limited { IfOk result (λ job. job.limit ≤ MAX_LIMIT) }
    ensures files { IfOk result (λ job. job.file_limit ≤ MAX_FILE_LIMIT) }
{
    Ok(Job {
        way: way_of(heap, expected.list)?,
        limit: expected.limit.min(100),
        file_limit: DEFAULT_FILE_LIMIT,
        descriptors: DEFAULT_DESCRIPTORS,
        path_limit: DEFAULT_PATH_LIMIT,
        check,
        file: String::new(heap),
    })
}

// Whether a job on a script ends as expected. The sinks have their memory from `sinks`.
pub(crate) fn is_as_expected<R: Threads + Wait + Sync>(
    rt: &R,
    heap: Heap,
    sinks: Heap,
    job: &Job,
    text: &str,
    expected: &Expected,
) -> bool
    requires limited { job.now.limit ≤ MAX_LIMIT }
    requires files { job.now.file_limit ≤ MAX_FILE_LIMIT }
{
    let mut source = Portions {
        bytes: text.as_bytes(),
        most: 7,
    };
    let mut out = halting(sinks, expected.room);
    let mut err = halting(sinks, 1000);
    let status = run_job::<Kernel, _, _, _, _>(rt, heap, job, &mut source, &mut out, &mut err);
    status == expected.status
        && out.bytes.as_slice() == expected.out.as_bytes()
        && err.bytes.as_slice() == expected.err.as_bytes()
}

pub(crate) fn is_run<R: Threads + Wait + Sync>(
    rt: &R,
    heap: Heap,
    text: &str,
    expected: &Expected,
    check: bool,
) -> bool {
    match job_of(heap, expected, check) {
        Ok(job) => is_as_expected(rt, heap, heap, &job, text, expected),
        Err(_) => false,
    }
}
