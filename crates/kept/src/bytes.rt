// The bytes of a redo record.
ghost use Rattle.std.specs.Prelude.{◌≡◌, ◌<◌, length, IfOk, OnOk};
ghost use Rattle.entry_codec.specs.Entries.{AreEntries, entries_bytes};
ghost use Rattle.redo_records.specs.Recording.{entries_of};
ghost use Rattle.kept.specs.Appending.{IsOfFirst};

use entry_codec::put_entries;
use heap::Heap;
use ids::Entry;
use redo_records::Record;
use std::alloc::AllocError;
use std::collections::VecDeque;
use std::slice;

// The entries of a record.
fn entries_of(made: &Record) -> &[Entry]
    ensures { result.now ≡ entries_of made.now }
{
    match made {
        Record::Call(entry) => slice::from_ref(entry),
        Record::Transaction(entries) => entries.as_slice(),
    }
}

// The bytes of a record. Refused memory gives nothing.
fn bytes_of(heap: Heap, made: &Record) -> Result<Vec<u8, Heap>, AllocError>
    ensures bytes { IfOk result (λ bytes. bytes.items ≡ entries_bytes (entries_of made.now)) }
    ensures fits { OnOk result (AreEntries (entries_of made.now)) }
{
    let mut bytes = Vec::new(heap);
    put_entries(entries_of(made), &mut bytes)?;
    Ok(bytes)
}

// The bytes of the first of the records that wait, of which there is one. Refused memory gives nothing.
pub(crate) fn first_bytes(
    heap: Heap,
    waiting: &VecDeque<Record, Heap>,
) -> Result<Vec<u8, Heap>, AllocError>
    requires { 0 < length waiting.now.items }
    ensures { IfOk result (λ bytes. IsOfFirst waiting.now.items bytes.items) }
{
    let first = waiting.front().unwrap();
    bytes_of(heap, first)
}
