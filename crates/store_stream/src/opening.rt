// What a disk holds.
ghost use Rattle.std.specs.Prelude.{◌≤◌, IfOk, IsTrue};
ghost use Rattle.ids.specs.declared.limits.TheConstants.{MAX_ENTRIES};
ghost use Rattle.machine.specs.Shown.{Kept};
ghost use Rattle.commit_log.specs.Reader.{disk_of};
ghost use Rattle.commit_log.specs.Reads.{OnlyReads};

use crate::durable::Durable;
use crate::fault::OpenFault;
use commit_log::{Log, Reader};
use heap::Heap;
use kept::Store;
use machine::Machine;
use recording::Recording;
use recovery::{Error, replay_next, start};
use sqlite_disk::Disk;
use std::alloc::Global;

/// What a disk holds.
#[derive(Drop)]
pub enum Opened<M: Machine, D: Disk> {
    /// No store yet: the file was empty, or nothing but its header was written when it was made.
    Empty(Log<D>),
    /// A store, of which a machine has made all calls again.
    There(Durable<M, D>),
}

// The log at its first record.
fn reader_of<D: Disk + Drop>(alloc: Global, disk: D) -> Result<Reader<D>, OpenFault>
    requires { IsTrue (D.Disk.is_usable disk) }
{
    match Reader::open(alloc, disk) {
        Ok(reader) => Ok(reader),
        Err(refused) => Err(OpenFault::from(refused.error)),
    }
}

// The log ready for further records.
fn finished<D: Disk + Drop>(reader: Reader<D>) -> Result<Log<D>, OpenFault> {
    match reader.finish() {
        Ok(log) => Ok(log),
        Err(refused) => Err(OpenFault::from(refused.error)),
    }
}

// A log of no records, in an empty file.
fn made<D: Disk + Drop>(alloc: Global, disk: D) -> Result<Log<D>, OpenFault>
    requires { IsTrue (D.Disk.is_usable disk) }
{
    match Log::create(alloc, disk) {
        Ok(log) => Ok(log),
        Err(refused) => Err(OpenFault::from(refused.error)),
    }
}

// What a store that is opened takes its memory from.
trait Room {
    fn heap(&self) -> Heap;
}

impl Room for Heap {
    fn heap(&self) -> Heap {
        *self
    }
}

// The machine of a store, whose setup is the next record.
fn start_in<H: Room, R: Machine, D: Disk>(
    room: &H,
    reader: &mut Reader<D>,
    entries: usize,
) -> Result<R, Error>
    requires { entries ≤ MAX_ENTRIES }
    ensures kept { IfOk result (λ machine. Kept (R.shown machine)) }
    ensures same { OnlyReads D.Disk (disk_of reader.old) (disk_of reader.new) }
{
    start(room.heap(), reader, entries)
}

// Makes the calls of the next record again. Tells whether none was left.
fn next_in<H: Room, R: Machine, D: Disk>(
    room: &H,
    reader: &mut Reader<D>,
    machine: &mut R,
    descriptors: &mut u32,
) -> Result<bool, Error>
    requires { Kept (R.shown machine.old) }
    ensures kept { Kept (R.shown machine.new) }
    ensures same { OnlyReads D.Disk (disk_of reader.old) (disk_of reader.new) }
{
    replay_next(room.heap(), reader, machine, descriptors)
}

// Makes all calls again of the records that are left. What the machine keeps of each record is taken, so
// that no more is kept than of one. Tells what is above each descriptor.
fn replay_rest<M: Machine, D: Disk>(
    heap: Heap,
    reader: &mut Reader<D>,
    machine: &mut Recording<M>,
) -> Result<u32, OpenFault>
    requires { Kept machine.old.shown }
    ensures kept { Kept machine.new.shown }
    ensures same { OnlyReads D.Disk (disk_of reader.old) (disk_of reader.new) }
{
    let mut descriptors = 0;
    for _ in 0..u64::MAX {
        let ended = next_in(&heap, reader, machine, &mut descriptors)?;
        drop(machine.take(machine.taken())?);
        if ended {
            return Ok(descriptors);
        }
    }
    Err(OpenFault::from(commit_log::Error::TooLong))
}

/// Reads what a disk holds, and makes it ready for more. An empty file becomes a log of no records. Of a
/// store a fresh machine, whose history keeps at most so many entries, makes all calls again; then it closes
/// what the processes had open. No process is in a transaction.
///
/// After a fault nothing in the store has changed, but for what a crash has left of a torn record.
pub fn open_store<M: Machine, D: Disk + Drop>(
    heap: Heap,
    alloc: Global,
    disk: D,
    entries: usize,
) -> Result<Opened<M, D>, OpenFault>
    requires usable { IsTrue (D.Disk.is_usable disk) }
    requires limited { entries ≤ MAX_ENTRIES }
{
    let mut disk = disk;
    let Ok(size) = disk.len() else {
        return Err(OpenFault::from(commit_log::Error::Failed));
    };
    if size == 0 {
        return Ok(Opened::Empty(made(alloc, disk)?));
    }
    let mut reader = reader_of(alloc, disk)?;
    let mut machine: Recording<M> = match start_in(&heap, &mut reader, entries) {
        Ok(machine) => machine,
        Err(Error::NoSetup) => return Ok(Opened::Empty(finished(reader)?)),
        Err(error) => return Err(OpenFault::from(error)),
    };
    let descriptors = replay_rest(heap, &mut reader, &mut machine)?;
    let log = finished(reader)?;
    let store = Store::resume(heap, alloc, log, &mut machine)?;
    let mut durable = Durable {
        machine,
        store,
        behind: false,
    };
    durable.reboot(descriptors)?;
    Ok(Opened::There(durable))
}
