// The fields of a setup, read at the front of bytes, with the bytes behind.
ghost use Rattle.std.specs.Prelude.{◌≡◌};
ghost use Rattle.std.specs.Int.{w32};
ghost use Rattle.entry_codec.specs.Reading.{fault_at, items_at, number_at, Gives};
ghost use Rattle.entry_codec.specs.declared.fault.ReadError.{ReadError};
ghost use Rattle.store_form.specs.ReadingSetups.{behind, bounds_at, count_at, file_bytes_at};
ghost use Rattle.store_form.specs.ReadingSetups.{priorities_at, priority_at};

use entry_codec::{Fault, ReadError, Wrong};
use heap::Heap;
use ids::{Bounds, LARGEST_FILE, MAX_PROCESSES, Priority};

// This is wrong, where so many bytes are left.
pub(crate) fn fault_at(wrong: Wrong, left: &[u8]) -> ReadError
    ensures { result ≡ ReadError.Fault (fault_at wrong left.now) }
{
    ReadError::Fault(Fault {
        wrong,
        left: left.len(),
    })
}

pub(crate) fn u32_of(bytes: &[u8]) -> Result<(u32, &[u8]), ReadError>
    ensures { Gives (λ x. (x.0, x.1.now)) result (number_at w32 bytes.now) }
{
    if bytes.len() < 4 {
        return Err(fault_at(Wrong::Short, bytes));
    }
    let (front, rest) = bytes.split_at(4);
    let number = u32::from_le_bytes([front[0], front[1], front[2], front[3]]);
    Ok((number, rest))
}

fn file_bytes_of(bytes: &[u8]) -> Result<(u32, &[u8]), ReadError>
    ensures { Gives (λ x. (x.0, x.1.now)) result (file_bytes_at bytes.now) }
{
    let (number, rest) = u32_of(bytes)?;
    if number as usize > LARGEST_FILE {
        return Err(fault_at(Wrong::Range, rest));
    }
    Ok((number, rest))
}

pub(crate) fn bounds_of(bytes: &[u8]) -> Result<(Bounds, &[u8]), ReadError>
    ensures { Gives (λ x. (x.0, x.1.now)) result (bounds_at bytes.now) }
{
    let (file_bytes, rest) = file_bytes_of(bytes)?;
    let (descriptors, rest) = u32_of(rest)?;
    let (path_bytes, rest) = u32_of(rest)?;
    Ok((
        Bounds {
            file_bytes,
            descriptors,
            path_bytes,
        },
        rest,
    ))
}

fn count_of(bytes: &[u8]) -> Result<(usize, &[u8]), ReadError>
    ensures { Gives (λ x. (x.0, x.1.now)) result (count_at bytes.now) }
{
    let (count, rest) = u32_of(bytes)?;
    if count == 0 {
        return Err(fault_at(Wrong::Range, rest));
    }
    if count > MAX_PROCESSES {
        return Err(fault_at(Wrong::Range, rest));
    }
    Ok((count as usize, rest))
}

fn priority_of(bytes: &[u8]) -> Result<(Priority, &[u8]), ReadError>
    ensures { Gives (λ x. (x.0, x.1.now)) result (priority_at bytes.now) }
{
    match bytes {
        [] => Err(fault_at(Wrong::Short, bytes)),
        [level, rest @ ..] => match Priority::new(*level) {
            Some(priority) => Ok((priority, rest)),
            None => Err(fault_at(Wrong::Range, rest)),
        },
    }
}

// One priority more, behind those that were read, and the bytes behind it.
fn next_priority<'a>(
    priorities: &mut Vec<Priority, Heap>,
    bytes: &'a [u8],
) -> Result<&'a [u8], ReadError>
    ensures { Gives (λ rest. (priorities.new.items, rest.now)) result
        (behind priorities.old.items (priority_at bytes.now)) }
{
    match priority_of(bytes) {
        Ok((priority, rest)) => {
            priorities.push(priority)?;
            Ok(rest)
        }
        Err(e) => Err(e),
    }
}

// Memory grows with what is read, whatever the count.
fn counted_priorities_of(
    heap: Heap,
    count: usize,
    bytes: &[u8],
) -> Result<(Vec<Priority, Heap>, &[u8]), ReadError>
    ensures { Gives (λ x. (x.0.items, x.1.now)) result (items_at priority_at count bytes.now) }
{
    let mut priorities = Vec::new(heap);
    let mut rest = bytes;
    for _ in 0..count {
        let after = next_priority(&mut priorities, rest)?;
        rest = after;
    }
    Ok((priorities, rest))
}

pub(crate) fn priorities_of(
    heap: Heap,
    bytes: &[u8],
) -> Result<(Vec<Priority, Heap>, &[u8]), ReadError>
    ensures { Gives (λ x. (x.0.items, x.1.now)) result (priorities_at bytes.now) }
{
    let (count, rest) = count_of(bytes)?;
    counted_priorities_of(heap, count, rest)
}
