// Entries: put behind what is there, and read at the front of bytes.
ghost use Rattle.std.specs.Prelude.{◌≡◌, ◌++◌, ◌<◌, ◌^◌, OnOk};
ghost use Rattle.std.specs.Int.{w32, w64};
ghost use Rattle.entry_codec.specs.Parts.{IsList};
ghost use Rattle.entry_codec.specs.Entries.{AreEntries, IsEntry, entries_bytes, entry_bytes};
ghost use Rattle.entry_codec.specs.Entries.{nums_bytes, pids_bytes};
ghost use Rattle.entry_codec.specs.Reading.{Gives, items_at, number_at};
ghost use Rattle.entry_codec.specs.ReadingEntries.{entries_in, entry_at, nums_at, pids_at};

use crate::fault::{ReadError, Wrong, fault_at};
use crate::parts::{put_size, put_u32, put_u64, size_of, u32_of, u64_of};
use crate::put_call::put_op;
use crate::read_call::op_of;
use crate::replies::{put_reply, reply_of};
use heap::Heap;
use ids::{Entry, Num, Nums, Pid, Pids};
use std::alloc::AllocError;

fn put_nums(out: &mut Vec<u8, Heap>, nums: &[Num]) -> Result<(), AllocError>
    ensures put { OnOk result (out.new.items ≡ out.old.items ++ nums_bytes nums.now) }
    ensures fits { OnOk result (IsList (λ n. n < 2 ^ 64) nums.now) }
{
    put_size(out, nums.len())?;
    for num in nums {
        put_u64(out, num.0 as u64)?;
    }
    Ok(())
}

fn put_pids(out: &mut Vec<u8, Heap>, pids: &[Pid]) -> Result<(), AllocError>
    ensures put { OnOk result (out.new.items ≡ out.old.items ++ pids_bytes pids.now) }
    ensures fits { OnOk result (IsList (λ n. n < 2 ^ 32) pids.now) }
{
    put_size(out, pids.len())?;
    for pid in pids {
        put_u32(out, pid.0)?;
    }
    Ok(())
}

#[tactic(auto, unfolding(crate::specs::Entries::entry_bytes))]
pub(crate) fn put_fields(out: &mut Vec<u8, Heap>, entry: &Entry) -> Result<(), AllocError>
    ensures put { OnOk result (out.new.items ≡ out.old.items ++ entry_bytes entry.now) }
    ensures fits { OnOk result (IsEntry entry.now) }
{
    put_u32(out, entry.pid.0)?;
    put_op(out, &entry.op)?;
    put_reply(out, &entry.reply)?;
    put_nums(out, entry.chosen.as_slice())?;
    put_pids(out, entry.doomed.as_slice())
}

pub(crate) fn put_each(out: &mut Vec<u8, Heap>, entries: &[Entry]) -> Result<(), AllocError>
    ensures put { OnOk result (out.new.items ≡ out.old.items ++ entries_bytes entries.now) }
    ensures fits { OnOk result (AreEntries entries.now) }
{
    put_size(out, entries.len())?;
    for entry in entries {
        put_fields(out, entry)?;
    }
    Ok(())
}

// ---- read

// Memory grows with what is read, whatever the count.
fn counted_nums_of(heap: Heap, count: usize, bytes: &[u8]) -> Result<(Nums, &[u8]), ReadError>
    ensures { Gives (λ x. (x.0, x.1.now)) result (items_at (number_at w64) count bytes.now) }
{
    let mut nums = Nums::new(heap);
    let mut rest = bytes;
    for _ in 0..count {
        let (num, after) = u64_of(rest)?;
        nums.push(Num(num as usize))?;
        rest = after;
    }
    Ok((nums, rest))
}

fn nums_of(heap: Heap, bytes: &[u8]) -> Result<(Nums, &[u8]), ReadError>
    ensures { Gives (λ x. (x.0, x.1.now)) result (nums_at bytes.now) }
{
    let (count, rest) = size_of(bytes)?;
    counted_nums_of(heap, count, rest)
}

fn counted_pids_of(heap: Heap, count: usize, bytes: &[u8]) -> Result<(Pids, &[u8]), ReadError>
    ensures { Gives (λ x. (x.0, x.1.now)) result (items_at (number_at w32) count bytes.now) }
{
    let mut pids = Pids::new(heap);
    let mut rest = bytes;
    for _ in 0..count {
        let (pid, after) = u32_of(rest)?;
        pids.push(Pid(pid))?;
        rest = after;
    }
    Ok((pids, rest))
}

fn pids_of(heap: Heap, bytes: &[u8]) -> Result<(Pids, &[u8]), ReadError>
    ensures { Gives (λ x. (x.0, x.1.now)) result (pids_at bytes.now) }
{
    let (count, rest) = size_of(bytes)?;
    counted_pids_of(heap, count, rest)
}

#[tactic(auto, unfolding(crate::specs::ReadingEntries::entry_at))]
pub(crate) fn entry_of(heap: Heap, bytes: &[u8]) -> Result<(Entry, &[u8]), ReadError>
    ensures { Gives (λ x. (x.0, x.1.now)) result (entry_at bytes.now) }
{
    let (pid, rest) = u32_of(bytes)?;
    match op_of(heap, rest) {
        Ok((op, rest)) => match reply_of(heap, rest) {
            Ok((reply, rest)) => {
                let (chosen, rest) = nums_of(heap, rest)?;
                let (doomed, rest) = pids_of(heap, rest)?;
                let pid = Pid(pid);
                Ok((
                    Entry {
                        pid,
                        op,
                        reply,
                        chosen,
                        doomed,
                    },
                    rest,
                ))
            }
            Err(e) => Err(e),
        },
        Err(e) => Err(e),
    }
}

// Memory grows with what is read, whatever the count.
fn counted_entries_of(
    heap: Heap,
    count: usize,
    bytes: &[u8],
) -> Result<(Vec<Entry, Heap>, &[u8]), ReadError>
    ensures { Gives (λ x. (x.0.items, x.1.now)) result (items_at entry_at count bytes.now) }
{
    let mut entries = Vec::new(heap);
    let mut rest = bytes;
    for _ in 0..count {
        match entry_of(heap, rest) {
            Ok((entry, after)) => {
                entries.push(entry)?;
                rest = after;
            }
            Err(e) => return Err(e),
        }
    }
    Ok((entries, rest))
}

// A whole record: all of the bytes.
#[tactic(auto, unfolding(crate::specs::ReadingEntries::entries_in))]
pub(crate) fn entries_of(heap: Heap, bytes: &[u8]) -> Result<Vec<Entry, Heap>, ReadError>
    ensures { Gives (λ v. v.items) result (entries_in bytes.now) }
{
    let (count, rest) = size_of(bytes)?;
    match counted_entries_of(heap, count, rest) {
        Ok((entries, rest)) => {
            if rest.is_empty() {
                Ok(entries)
            } else {
                Err(fault_at(Wrong::Trailing, rest))
            }
        }
        Err(e) => Err(e),
    }
}
