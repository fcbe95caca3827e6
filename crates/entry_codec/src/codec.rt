// What the crate does: entries and records as bytes, and back.
ghost use Rattle.std.specs.Prelude.{◌≡◌, ◌++◌, List, ℕ, IfOk, OnErr, OnOk, Ok, drop, length};
ghost use Rattle.ids.specs.declared.entry.Entry.{Entry};
ghost use Rattle.entry_codec.specs.Entries.{AreEntries, IsEntry, entries_bytes, entry_bytes};
ghost use Rattle.entry_codec.specs.Reading.{Gives};
ghost use Rattle.entry_codec.specs.ReadingEntries.{entries_in, entry_in};

use crate::entries::{entries_of, entry_of, put_each, put_fields};
use crate::fault::ReadError;
use heap::Heap;
use ids::Entry;
use std::alloc::AllocError;

/// Puts the bytes of an entry behind what is there. Where memory is refused, which is the one error,
/// `out` is as before; as much as the entry's bytes is asked for besides.
pub fn put_entry(entry: &Entry, out: &mut Vec<u8, Heap>) -> Result<(), AllocError>
    ensures ok { OnOk result (out.new.items ≡ out.old.items ++ entry_bytes entry.now) }
    ensures err { OnErr result (out.new.items ≡ out.old.items) }
    // Its numbers are in their ranges, so what is put is read again.
    ensures fits { OnOk result (IsEntry entry.now) }
{
    let mut bytes = Vec::new(*out.allocator());
    put_fields(&mut bytes, entry)?;
    out.extend_from_slice(bytes.as_slice())?;
    Ok(())
}

/// Puts a record behind what is there: how many entries it has, and each. Where memory is refused,
/// which is the one error, `out` is as before; as much as the record's bytes is asked for besides.
pub fn put_entries(entries: &[Entry], out: &mut Vec<u8, Heap>) -> Result<(), AllocError>
    ensures ok { OnOk result (out.new.items ≡ out.old.items ++ entries_bytes entries.now) }
    ensures err { OnErr result (out.new.items ≡ out.old.items) }
    // Their numbers are in their ranges, so what is put is read again.
    ensures fits { OnOk result (AreEntries entries.now) }
{
    let mut bytes = Vec::new(*out.allocator());
    put_each(&mut bytes, entries)?;
    out.extend_from_slice(bytes.as_slice())?;
    Ok(())
}

/// The entry at the front of the bytes, and how many bytes it takes. What stands behind is not
/// looked at. [`ReadError::Fault`] tells the first fault from the left, where no entry is at the
/// front, and [`ReadError::NoMemory`] that memory was refused. It is asked for only for bytes that
/// are there.
pub fn read_entry(heap: Heap, bytes: &[u8]) -> Result<(Entry, usize), ReadError>
    // What is read is what the bytes are the form of.
    ensures found { IfOk result (λ x. IsEntry x.0 × (x.1 ≡ length (entry_bytes x.0))
        × (bytes.now ≡ entry_bytes x.0 ++ drop x.1 bytes.now)) }
    // What was put is read, whatever stands behind it, unless memory is refused.
    ensures only { (e : Entry) (rest : List ℕ) → IsEntry e → bytes.now ≡ entry_bytes e ++ rest
        → Gives (λ x. x) result (Ok (e, length (entry_bytes e))) }
    // Which fault it is.
    ensures exact { Gives (λ x. x) result (entry_in bytes.now) }
{
    match entry_of(heap, bytes) {
        Ok((entry, rest)) => Ok((entry, bytes.len() - rest.len())),
        Err(e) => Err(e),
    }
}

/// The entries of a record, which is all of the bytes. [`ReadError::Fault`] tells the first fault from
/// the left, where the bytes are no record, and [`ReadError::NoMemory`] that memory was refused. It is
/// asked for only for bytes that are there.
pub fn read_entries(heap: Heap, bytes: &[u8]) -> Result<Vec<Entry, Heap>, ReadError>
    // What is read is what the bytes are the form of.
    ensures found { IfOk result (λ v. AreEntries v.items × (bytes.now ≡ entries_bytes v.items)) }
    // What was put is read, unless memory is refused.
    ensures only { (entries : List Entry) → AreEntries entries → bytes.now ≡ entries_bytes entries
        → Gives (λ v. v.items) result (Ok entries) }
    // Which fault it is.
    ensures exact { Gives (λ v. v.items) result (entries_in bytes.now) }
{
    entries_of(heap, bytes)
}
