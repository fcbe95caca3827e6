// A store that goes on.
ghost use Rattle.std.specs.Prelude.{◌≤◌, [], List, ℕ, IfOk, IsTrue};
ghost use Rattle.ids.specs.declared.limits.TheConstants.{MAX_ENTRIES};
ghost use Rattle.machine.specs.Shown.{Kept};
ghost use Rattle.commit_log.specs.File.{HasHeader, Reads};
ghost use Rattle.commit_log.specs.Log.{disk_of as log_disk, Stands};
ghost use Rattle.commit_log.specs.Reader.{disk_of, key_of, IsAt};
ghost use Rattle.commit_log.specs.Reads.{IsClean, OnlyReads};
ghost use Rattle.recovery.specs.Going.{IsReopened};

use crate::error::Error;
use crate::replaying::{Replayed, replay};
use commit_log::{Log, Reader};
use heap::Heap;
use machine::Machine;
use sqlite_disk::Disk;
use std::alloc::Global;

/// A kernel that has made all calls of a store again, and the log that goes on behind them.
#[derive(Drop)]
pub struct Reopened<M: Machine, D: Disk> {
    /// The kernel. No process is in a transaction.
    pub machine: M,
    /// The log.
    pub log: Log<D>,
    /// A number above each descriptor that was ever told.
    pub descriptors: u32,
}

// The log at its first record.
fn opened<D: Disk + Drop>(alloc: Global, disk: D) -> Result<Reader<D>, Error>
    requires { IsTrue (D.Disk.is_usable disk) }
    ensures reads { IfOk result (λ reader. IsClean D.Disk (disk_of reader)
        → (payloads : List (List ℕ)) → Reads (key_of reader) (D.Disk.seen disk) payloads
        → IsAt reader [] payloads) }
    ensures header { IfOk result (λ reader. IsClean D.Disk (disk_of reader)
        → HasHeader (key_of reader) (D.Disk.seen disk)) }
    ensures same { IfOk result (λ reader. OnlyReads D.Disk disk (disk_of reader)) }
{
    match Reader::open(alloc, disk) {
        Ok(reader) => Ok(reader),
        Err(refused) => Err(Error::Log(refused.error)),
    }
}

// The log ready for further records, behind all that were read.
fn finished<D: Disk + Drop>(reader: Reader<D>) -> Result<Log<D>, Error>
    ensures { IfOk result (λ log. IsClean D.Disk (log_disk log) → (payloads : List (List ℕ))
        → IsAt reader payloads [] → Stands log payloads []) }
{
    match reader.finish() {
        Ok(log) => Ok(log),
        Err(refused) => Err(Error::Log(refused.error)),
    }
}

/// Opens a store, has a fresh kernel make all its calls again, and makes its log ready for further
/// records: what a crash has left of a torn one is overwritten by zeros.
///
/// Each error is one of [`replay`], which only reads, or, as `Log`, one of `Reader::finish`: `Damaged`
/// where what stood behind the last record was on the disk, and nothing has changed then.
pub fn reopen<M: Machine, D: Disk + Drop>(
    heap: Heap,
    alloc: Global,
    disk: D,
    entries: usize,
) -> Result<Reopened<M, D>, Error>
    requires usable { IsTrue (D.Disk.is_usable disk) }
    requires limited { entries ≤ MAX_ENTRIES }
    ensures kept { IfOk result (λ r. Kept (M.shown r.machine)) }
    ensures reopened { IfOk result (λ r. IsReopened D.Disk disk (M.shown r.machine) r.log) }
{
    let mut reader = opened(alloc, disk)?;
    let replayed: Replayed<M> = replay(heap, &mut reader, entries)?;
    let log = finished(reader)?;
    let Replayed {
        machine,
        descriptors,
    } = replayed;
    Ok(Reopened {
        machine,
        log,
        descriptors,
    })
}
