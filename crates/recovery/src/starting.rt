// How the replay of a store begins.
ghost use Rattle.std.specs.Prelude.{◌≤◌, [], List, ℕ, IfOk, OnOk};
ghost use Rattle.ids.specs.declared.limits.TheConstants.{MAX_ENTRIES};
ghost use Rattle.machine.specs.Shown.{Kept};
ghost use Rattle.commit_log.specs.Reader.{disk_of, IsAt};
ghost use Rattle.commit_log.specs.Reads.{IsClean, OnlyReads};
ghost use Rattle.store_form.specs.ReadingSetups.{setup_of};
ghost use Rattle.store_form.specs.Setups.{IsSetup};
ghost use Rattle.recovery.specs.Coming.{Comes};
ghost use Rattle.recovery.specs.Going.{BeginsBy, Goes, IsFirst};

use crate::error::Error;
use commit_log::Reader;
use heap::Heap;
use ids::Limits;
use machine::Machine;
use sqlite_disk::Disk;
use std::alloc::AllocError;
use store_form::{Setup, read_setup};

// The first record is the next one, and is read.
fn first_record<D: Disk>(reader: &mut Reader<D>) -> Result<(), Error>
    ensures first { OnOk result (IsFirst D.Disk reader.old reader.new) }
    ensures same { OnlyReads D.Disk (disk_of reader.old) (disk_of reader.new) }
{
    let found = reader.next()?;
    match found {
        None => Err(Error::NoSetup),
        Some(_) => Ok(()),
    }
}

// The setup, which is the first record.
fn setup_in<D: Disk>(heap: Heap, reader: &mut Reader<D>) -> Result<Setup, Error>
    ensures begins { IfOk result (λ s. BeginsBy D.Disk reader.old reader.new (setup_of s)) }
    ensures same { OnlyReads D.Disk (disk_of reader.old) (disk_of reader.new) }
{
    first_record(reader)?;
    let setup = read_setup(heap, reader.payload())?;
    Ok(setup)
}

// A kernel of this setup, whose history keeps so many entries.
fn kernel_of<M: Machine>(heap: Heap, setup: &Setup, entries: usize) -> Result<M, AllocError>
    requires is { IsSetup (setup_of setup.now) }
    requires limited { entries ≤ MAX_ENTRIES }
    ensures kept { IfOk result (λ m. Kept (M.shown m)) }
    ensures comes { IfOk result (λ m. Comes (setup_of setup.now) (M.shown m).log []) }
{
    let limits = Limits {
        entries,
        file_bytes: setup.bounds.file_bytes,
        descriptors: setup.bounds.descriptors,
        path_bytes: setup.bounds.path_bytes,
    };
    M::with_limits(heap, setup.priorities.as_slice(), limits)
}

/// Reads the setup of a store, its first record, and makes a kernel of it whose history keeps at most so
/// many entries. `replay_next` goes on from there.
///
/// `Log`: the record is not read. `NoSetup`, `Setup`: it is missing, or is no setup. `NoMemory`: memory
/// was refused. The file is only read.
pub fn start<M: Machine, D: Disk>(
    heap: Heap,
    reader: &mut Reader<D>,
    entries: usize,
) -> Result<M, Error>
    requires { entries ≤ MAX_ENTRIES }
    ensures kept { IfOk result (λ m. Kept (M.shown m)) }
    ensures goes { IfOk result (λ m. IsClean D.Disk (disk_of reader.new)
        → (payloads : List (List ℕ)) → IsAt reader.old [] payloads
        → Goes D.Disk reader.new (M.shown m).log payloads) }
    ensures same { OnlyReads D.Disk (disk_of reader.old) (disk_of reader.new) }
{
    let setup = setup_in(heap, reader)?;
    let machine: M = kernel_of(heap, &setup, entries)?;
    Ok(machine)
}
