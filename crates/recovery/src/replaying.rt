// The records of a log, replayed.
ghost use Rattle.std.specs.Prelude.{◌≤◌, [], List, ℕ, IfOk, OnOk};
ghost use Rattle.ids.specs.declared.limits.TheConstants.{MAX_ENTRIES};
ghost use Rattle.machine.specs.Shown.{Kept};
ghost use Rattle.commit_log.specs.Reader.{disk_of, IsAt};
ghost use Rattle.commit_log.specs.Reads.{IsClean, OnlyReads};
ghost use Rattle.recovery.specs.Going.{Goes, IsReplayed, Stood};
ghost use Rattle.recovery.specs.Coming.{IsMadeAgain};

use crate::again::{make_place, record_again};
use crate::descriptors::above_all;
use crate::error::Error;
use crate::starting::start;
use commit_log::Reader;
use heap::Heap;
use machine::Machine;
use sqlite_disk::Disk;

/// A kernel that has made all calls of a store again.
#[derive(Drop)]
pub struct Replayed<M: Machine> {
    /// The kernel. No process is in a transaction.
    pub machine: M,
    /// A number above each descriptor that was ever told.
    pub descriptors: u32,
}

// Makes the calls of the record again that is at this byte of the file. Behind them the history is
// forgotten, so that a long store takes no more memory than what it comes to.
fn replay_at<M: Machine>(
    heap: Heap,
    payload: &[u8],
    place: usize,
    machine: &mut M,
    descriptors: &mut u32,
) -> Result<(), Error>
    requires { Kept (M.shown machine.old) }
    ensures kept { Kept (M.shown machine.new) }
    ensures again { OnOk result
        (IsMadeAgain (M.shown machine.old).log (M.shown machine.new).log payload.now) }
{
    match record_again(heap, machine, payload) {
        Ok(entries) => {
            *descriptors = above_all(*descriptors, entries.as_slice());
            make_place(machine);
            Ok(())
        }
        Err(stop) => Err(stop.at(place)),
    }
}

/// Replays the next record of a store, behind [`start`] or a call of this one: the kernel makes its
/// calls again, each by its process, as a plain call. Each has to be answered as it was told. Behind
/// them the history is forgotten, and before where it is full. True tells that no record was left, and then nothing was made.
/// `descriptors` stays above each descriptor that was told.
///
/// Between two calls the caller may do with the kernel whatever leaves what it shows. The errors are those
/// of [`replay`]; after one the kernel has made only a part of the store's calls.
pub fn replay_next<M: Machine, D: Disk>(
    heap: Heap,
    reader: &mut Reader<D>,
    machine: &mut M,
    descriptors: &mut u32,
) -> Result<bool, Error>
    requires { Kept (M.shown machine.old) }
    ensures kept { Kept (M.shown machine.new) }
    // What was read so far was made again, or all of it.
    ensures goes { IfOk result (λ ended. IsClean D.Disk (disk_of reader.new)
        → (payloads : List (List ℕ)) → Goes D.Disk reader.old (M.shown machine.old).log payloads
        → Stood D.Disk ended reader.new (M.shown machine.new) payloads) }
    ensures same { OnlyReads D.Disk (disk_of reader.old) (disk_of reader.new) }
{
    let found = reader.next()?;
    match found {
        None => Ok(true),
        Some(place) => {
            replay_at(heap, reader.payload(), place, machine, descriptors)?;
            Ok(false)
        }
    }
}

// Replays all records that are left.
fn replay_rest<M: Machine, D: Disk>(
    heap: Heap,
    reader: &mut Reader<D>,
    machine: &mut M,
    descriptors: &mut u32,
) -> Result<(), Error>
    requires { Kept (M.shown machine.old) }
    ensures kept { Kept (M.shown machine.new) }
    ensures replayed { OnOk result (IsClean D.Disk (disk_of reader.new)
        → (payloads : List (List ℕ)) → Goes D.Disk reader.old (M.shown machine.old).log payloads
        → IsReplayed D.Disk reader.new (M.shown machine.new) payloads) }
    ensures same { OnlyReads D.Disk (disk_of reader.old) (disk_of reader.new) }
{
    for _ in 0..u64::MAX {
        let ended = replay_next(heap, reader, machine, descriptors)?;
        if ended {
            return Ok(());
        }
    }
    Err(Error::Log(commit_log::Error::TooLong))
}

/// Reads all records of a log from the front, and has a fresh kernel, whose history keeps at most so
/// many entries, make their calls again: each by its process, as a plain call. Each has to be answered
/// as it was told. The reader stands behind the last record then; `Reader::finish` makes the log ready
/// for further ones.
///
/// The file is only read, whatever the result is. `Log`: it is not read as a log. `NoSetup`, `Setup`:
/// its first record is missing, or is no setup. `Unread`, `NotAChange`: the record at this place is no
/// redo record. `Otherwise`: a call of the record at this place is answered otherwise. `HistoryFull`:
/// there is no place for its calls. `NoMemory`: memory was refused. After an error the reader is no
/// longer at the front, and the log is opened anew.
///
/// A kernel that keeps something of each call until it is taken has to be replayed by [`start`] and
/// [`replay_next`], so that no more is kept than of one record.
pub fn replay<M: Machine, D: Disk>(
    heap: Heap,
    reader: &mut Reader<D>,
    entries: usize,
) -> Result<Replayed<M>, Error>
    requires { entries ≤ MAX_ENTRIES }
    ensures kept { IfOk result (λ r. Kept (M.shown r.machine)) }
    // What the payloads tell is what the kernel's history has committed, and runs to its state.
    ensures replayed { IfOk result (λ r. IsClean D.Disk (disk_of reader.new)
        → (payloads : List (List ℕ)) → IsAt reader.old [] payloads
        → IsReplayed D.Disk reader.new (M.shown r.machine) payloads) }
    ensures same { OnlyReads D.Disk (disk_of reader.old) (disk_of reader.new) }
{
    let mut machine: M = start(heap, reader, entries)?;
    let mut descriptors = 0;
    replay_rest(heap, reader, &mut machine, &mut descriptors)?;
    Ok(Replayed {
        machine,
        descriptors,
    })
}
