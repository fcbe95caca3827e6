// The program where what its lines do is kept in a store.
ghost use Rattle.std.specs.Prelude.{◌≤◌, IsTrue};
ghost use Rattle.device.specs.Device.{CanCount};

use crate::fault::{OpenFault, ServeFault};
use crate::opening::{Opened, open_store};
use crate::serving::serve;
use device::{Sink, Source, write_all};
use heap::Heap;
use ids::Limits;
use machine::Machine;
use sqlite_disk::Disk;
use std::alloc::Global;
use std::fmt::Display;
use words::{MAX_FILE_LIMIT, MAX_LIMIT, StoreJob};

// The exit status where memory was refused, where a store is refused, and where one has failed.
const NO_MEMORY: u8 = 3;

const REFUSED: u8 = 6;

const FAILED: u8 = 7;

/// Writes why the store of this name is refused, or has failed. Where memory for the line is refused it says
/// that. A failure of `err` is told nobody.
pub fn report_store<F: Display, E: Sink>(heap: Heap, store: &str, fault: &F, err: &mut E)
    requires { CanCount (E.failures err.old) }
{
    let _ = match format!(in heap; "txsh: the store {store}: {fault}\n") {
        Ok(line) => write_all(err, line.as_bytes()),
        Err(_) => write_all(err, b"txsh: no memory\n".as_slice()),
    };
}

// The exit status where a store is refused.
fn status_of_refused(fault: &OpenFault) -> u8 {
    if fault.is_no_memory() {
        NO_MEMORY
    } else {
        REFUSED
    }
}

// The exit status where a stream over a store has stopped.
fn status_of_stopped(fault: &ServeFault) -> u8 {
    match fault {
        ServeFault::Read => 1,
        ServeFault::Write => 5,
        ServeFault::HistoryFull | ServeFault::NoMemory => NO_MEMORY,
        ServeFault::OtherPriorities => REFUSED,
        ServeFault::Store(_) => FAILED,
    }
}

/// Opens the store on a disk, or makes one where the disk is empty; does each line of `source` on its machine
/// as it comes, and answers it on `out`. Where the store is refused, or a fault stops the stream before the
/// end of the input, a line on `err` says why. Returns the program's exit status: at the end of the input 0, or 1
/// where a line was a fault; 6 where the store is refused, and then nothing in it has changed; 7 where it has
/// failed, and then what was not kept is not answered; else that of the fault.
pub fn run_store_job<M: Machine, D: Disk + Drop, I: Source, O: Sink, E: Sink>(
    heap: Heap,
    alloc: Global,
    disk: D,
    job: &StoreJob,
    source: &mut I,
    out: &mut O,
    err: &mut E,
) -> u8
    requires usable { IsTrue (D.Disk.is_usable disk) }
    requires limited { job.now.stream.limit ≤ MAX_LIMIT }
    requires files { job.now.stream.file_limit ≤ MAX_FILE_LIMIT }
    requires reads { CanCount (I.failures source.old) }
    requires writes { CanCount (O.failures out.old) }
    requires reports { CanCount (E.failures err.old) }
{
    let limits = Limits {
        entries: job.stream.limit as usize,
        file_bytes: job.stream.file_limit,
        descriptors: job.stream.descriptors,
        path_bytes: job.stream.path_limit,
    };
    let opened: Opened<M, D> = match open_store(heap, alloc, disk, limits.entries) {
        Ok(opened) => opened,
        Err(fault) => {
            report_store(heap, job.store.as_str(), &fault, err);
            return status_of_refused(&fault);
        }
    };
    match serve(heap, alloc, opened, job.sync, limits, source, out) {
        Ok(true) => 0,
        Ok(false) => 1,
        Err(fault) => {
            report_store(heap, job.store.as_str(), &fault, err);
            status_of_stopped(&fault)
        }
    }
}
