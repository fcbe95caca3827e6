// A stream over a store, from a source to a sink.
ghost use Rattle.std.specs.Prelude.{◌≤◌};
ghost use Rattle.ids.specs.declared.limits.TheConstants.{LARGEST_FILE, MAX_ENTRIES};
ghost use Rattle.device.specs.Device.{CanCount};

use crate::fault::ServeFault;
use crate::opening::Opened;
use crate::stream::Stream;
use device::{Sink, Source};
use heap::Heap;
use ids::Limits;
use machine::Machine;
use sqlite_disk::Disk;
use std::alloc::Global;
use words::Sync;

// How many bytes a read gives, at most.
const PART: usize = 8_192;

// Does all lines up to the end of the input.
fn serve_lines<M: Machine, D: Disk + Drop, I: Source, O: Sink>(
    stream: &mut Stream<M, D>,
    source: &mut I,
    sink: &mut O,
) -> Result<bool, ServeFault>
    requires reads { CanCount (I.failures source.old) }
    requires writes { CanCount (O.failures sink.old) }
{
    let mut buffer = [0u8; PART];
    for _reads in 0..u64::MAX {
        stream.rest()?;
        let Ok(count) = source.read(&mut buffer) else {
            return Err(ServeFault::Read);
        };
        if count == 0 {
            return stream.finish(sink);
        }
        stream.answer(&buffer[..count], sink)?;
    }
    Err(ServeFault::HistoryFull)
}

/// Reads lines from `source` to its end, does each on the machine of a store, and answers it on `sink`. All whole
/// lines that a read gives are done, then they are in the store, as far as `sync` says on the disk too, and then
/// they are answered. Returns whether no line was a fault.
///
/// The first line gives the priorities. A store that is not there yet is made with them and with these limits; one
/// that is there has to have the same priorities, and keeps its own bounds. Each answer has the number of its entry in this
/// stream, from 1.
///
/// Where a line stops the stream those before it are answered. Where the store fails, the lines that came with the one whose record
/// is not kept are not answered, though some of them may be done and kept.
pub fn serve<M: Machine, D: Disk + Drop, I: Source, O: Sink>(
    heap: Heap,
    alloc: Global,
    opened: Opened<M, D>,
    sync: Sync,
    limits: Limits,
    source: &mut I,
    sink: &mut O,
) -> Result<bool, ServeFault>
    requires limited { limits.entries ≤ MAX_ENTRIES }
    requires files { limits.file_bytes ≤ LARGEST_FILE }
    requires reads { CanCount (I.failures source.old) }
    requires writes { CanCount (O.failures sink.old) }
{
    let mut stream = Stream::new(heap, alloc, opened, sync, limits);
    let served = serve_lines(&mut stream, source, sink);
    let rested = stream.rest();
    let good = served?;
    rested?;
    Ok(good)
}
