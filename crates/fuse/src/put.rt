// Numbers and the parts of replies, put behind what is there already. Where the vector has room for
// them no memory is asked for, and each of these succeeds.
ghost use Rattle.std.specs.Prelude.{◌≡◌, ◌+◌, ◌*◌, ◌≤◌, ◌++◌, IsOk, OnOk, length};
ghost use Rattle.std.specs.Prelude.{vec_capacity, vec_len};
ghost use Rattle.fuse.specs.Numbers.{u16_bytes, u16s, u32_bytes, u32s, u64_bytes, u64s};
ghost use Rattle.fuse.specs.Replies.{attr_bytes, attr_reply_bytes, body_of, entry_bytes};
ghost use Rattle.fuse.specs.Replies.{init_bytes, opened_bytes, statfs_bytes};

use crate::reply::{Attr, Entry, Init, MAJOR, MINOR, Opened, Reply, StatFs};
use byteorder::{ByteOrder, LittleEndian};
use heap::Heap;
use std::alloc::AllocError;

// ---- numbers

#[tactic(auto, unfolding(crate::specs::Numbers::u16_bytes))]
fn put_u16(out: &mut Vec<u8, Heap>, number: u16) -> Result<(), AllocError>
    ensures bytes { OnOk result (out.new.items ≡ out.old.items ++ u16_bytes number) }
    ensures len { OnOk result (vec_len out.new ≡ vec_len out.old + 2) }
    ensures capacity { vec_capacity out.old ≤ vec_capacity out.new }
    ensures succeeds { vec_len out.old + 2 ≤ vec_capacity out.old → IsOk result }
{
    let mut bytes = [0u8; 2];
    let slice: &mut [u8] = &mut bytes;
    LittleEndian::write_u16(slice, number);
    out.extend_from_slice(slice)?;
    Ok(())
}

#[tactic(auto, unfolding(crate::specs::Numbers::u32_bytes))]
fn put_u32(out: &mut Vec<u8, Heap>, number: u32) -> Result<(), AllocError>
    ensures bytes { OnOk result (out.new.items ≡ out.old.items ++ u32_bytes number) }
    ensures len { OnOk result (vec_len out.new ≡ vec_len out.old + 4) }
    ensures capacity { vec_capacity out.old ≤ vec_capacity out.new }
    ensures succeeds { vec_len out.old + 4 ≤ vec_capacity out.old → IsOk result }
{
    let mut bytes = [0u8; 4];
    let slice: &mut [u8] = &mut bytes;
    LittleEndian::write_u32(slice, number);
    out.extend_from_slice(slice)?;
    Ok(())
}

#[tactic(auto, unfolding(crate::specs::Numbers::u64_bytes))]
fn put_u64(out: &mut Vec<u8, Heap>, number: u64) -> Result<(), AllocError>
    ensures bytes { OnOk result (out.new.items ≡ out.old.items ++ u64_bytes number) }
    ensures len { OnOk result (vec_len out.new ≡ vec_len out.old + 8) }
    ensures capacity { vec_capacity out.old ≤ vec_capacity out.new }
    ensures succeeds { vec_len out.old + 8 ≤ vec_capacity out.old → IsOk result }
{
    let mut bytes = [0u8; 8];
    let slice: &mut [u8] = &mut bytes;
    LittleEndian::write_u64(slice, number);
    out.extend_from_slice(slice)?;
    Ok(())
}

#[tactic(auto, unfolding(crate::specs::Numbers::u16s))]
fn put_u16s(out: &mut Vec<u8, Heap>, numbers: &[u16]) -> Result<(), AllocError>
    ensures bytes { OnOk result (out.new.items ≡ out.old.items ++ u16s numbers.now) }
    ensures len { OnOk result (vec_len out.new ≡ vec_len out.old + 2 * length numbers.now) }
    ensures capacity { vec_capacity out.old ≤ vec_capacity out.new }
    ensures succeeds { vec_len out.old + 2 * length numbers.now ≤ vec_capacity out.old → IsOk result }
{
    for number in numbers {
        put_u16(out, *number)?;
    }
    Ok(())
}

#[tactic(auto, unfolding(crate::specs::Numbers::u32s))]
pub(crate) fn put_u32s(out: &mut Vec<u8, Heap>, numbers: &[u32]) -> Result<(), AllocError>
    ensures bytes { OnOk result (out.new.items ≡ out.old.items ++ u32s numbers.now) }
    ensures len { OnOk result (vec_len out.new ≡ vec_len out.old + 4 * length numbers.now) }
    ensures capacity { vec_capacity out.old ≤ vec_capacity out.new }
    ensures succeeds { vec_len out.old + 4 * length numbers.now ≤ vec_capacity out.old → IsOk result }
{
    for number in numbers {
        put_u32(out, *number)?;
    }
    Ok(())
}

#[tactic(auto, unfolding(crate::specs::Numbers::u64s))]
pub(crate) fn put_u64s(out: &mut Vec<u8, Heap>, numbers: &[u64]) -> Result<(), AllocError>
    ensures bytes { OnOk result (out.new.items ≡ out.old.items ++ u64s numbers.now) }
    ensures len { OnOk result (vec_len out.new ≡ vec_len out.old + 8 * length numbers.now) }
    ensures capacity { vec_capacity out.old ≤ vec_capacity out.new }
    ensures succeeds { vec_len out.old + 8 * length numbers.now ≤ vec_capacity out.old → IsOk result }
{
    for number in numbers {
        put_u64(out, *number)?;
    }
    Ok(())
}

// ---- parts of replies

#[tactic(auto, unfolding(crate::specs::Replies::attr_bytes))]
fn put_attr(out: &mut Vec<u8, Heap>, attr: &Attr) -> Result<(), AllocError>
    ensures bytes { OnOk result (out.new.items ≡ out.old.items ++ attr_bytes attr.now) }
    ensures len { OnOk result (vec_len out.new ≡ vec_len out.old + 88) }
    ensures capacity { vec_capacity out.old ≤ vec_capacity out.new }
    ensures succeeds { vec_len out.old + 88 ≤ vec_capacity out.old → IsOk result }
{
    let wide = [
        attr.inode,
        attr.size,
        attr.blocks,
        attr.accessed.seconds,
        attr.modified.seconds,
        attr.changed.seconds,
    ];
    let narrow = [
        attr.accessed.nanoseconds,
        attr.modified.nanoseconds,
        attr.changed.nanoseconds,
        attr.mode,
        attr.links,
        attr.uid,
        attr.gid,
        0,
        attr.blksize,
        0,
    ];
    put_u64s(out, &wide)?;
    put_u32s(out, &narrow)?;
    Ok(())
}

#[tactic(auto, unfolding(crate::specs::Replies::entry_bytes))]
fn put_entry(out: &mut Vec<u8, Heap>, entry: &Entry) -> Result<(), AllocError>
    ensures bytes { OnOk result (out.new.items ≡ out.old.items ++ entry_bytes entry.now) }
    ensures len { OnOk result (vec_len out.new ≡ vec_len out.old + 128) }
    ensures capacity { vec_capacity out.old ≤ vec_capacity out.new }
    ensures succeeds { vec_len out.old + 128 ≤ vec_capacity out.old → IsOk result }
{
    put_u64s(out, &[entry.node, entry.generation, 0, 0])?;
    put_u32s(out, &[0, 0])?;
    put_attr(out, &entry.attr)?;
    Ok(())
}

#[tactic(auto, unfolding(crate::specs::Replies::attr_reply_bytes))]
fn put_attr_reply(out: &mut Vec<u8, Heap>, attr: &Attr) -> Result<(), AllocError>
    ensures bytes { OnOk result (out.new.items ≡ out.old.items ++ attr_reply_bytes attr.now) }
    ensures len { OnOk result (vec_len out.new ≡ vec_len out.old + 104) }
    ensures capacity { vec_capacity out.old ≤ vec_capacity out.new }
    ensures succeeds { vec_len out.old + 104 ≤ vec_capacity out.old → IsOk result }
{
    put_u64s(out, &[0])?;
    put_u32s(out, &[0, 0])?;
    put_attr(out, attr)?;
    Ok(())
}

#[tactic(auto, unfolding(crate::specs::Replies::opened_bytes))]
fn put_opened(out: &mut Vec<u8, Heap>, opened: &Opened) -> Result<(), AllocError>
    ensures bytes { OnOk result (out.new.items ≡ out.old.items ++ opened_bytes opened.now) }
    ensures len { OnOk result (vec_len out.new ≡ vec_len out.old + 16) }
    ensures capacity { vec_capacity out.old ≤ vec_capacity out.new }
    ensures succeeds { vec_len out.old + 16 ≤ vec_capacity out.old → IsOk result }
{
    put_u64s(out, &[opened.handle])?;
    put_u32s(out, &[opened.flags, 0])?;
    Ok(())
}

#[tactic(auto, unfolding(crate::specs::Replies::statfs_bytes))]
fn put_statfs(out: &mut Vec<u8, Heap>, s: &StatFs) -> Result<(), AllocError>
    ensures bytes { OnOk result (out.new.items ≡ out.old.items ++ statfs_bytes s.now) }
    ensures len { OnOk result (vec_len out.new ≡ vec_len out.old + 80) }
    ensures capacity { vec_capacity out.old ≤ vec_capacity out.new }
    ensures succeeds { vec_len out.old + 80 ≤ vec_capacity out.old → IsOk result }
{
    let wide = [
        s.blocks,
        s.free_blocks,
        s.available_blocks,
        s.nodes,
        s.free_nodes,
    ];
    let narrow = [
        s.block_size,
        s.name_length,
        s.block_size,
        0,
        0,
        0,
        0,
        0,
        0,
        0,
    ];
    put_u64s(out, &wide)?;
    put_u32s(out, &narrow)?;
    Ok(())
}

#[tactic(auto, unfolding(crate::specs::Replies::init_bytes))]
fn put_init(out: &mut Vec<u8, Heap>, init: &Init) -> Result<(), AllocError>
    ensures bytes { OnOk result (out.new.items ≡ out.old.items ++ init_bytes init.now) }
    ensures len { OnOk result (vec_len out.new ≡ vec_len out.old + 64) }
    ensures capacity { vec_capacity out.old ≤ vec_capacity out.new }
    ensures succeeds { vec_len out.old + 64 ≤ vec_capacity out.old → IsOk result }
{
    put_u32s(out, &[MAJOR, MINOR, init.max_readahead, init.flags])?;
    put_u16s(out, &[init.max_background, init.congestion_threshold])?;
    put_u32s(out, &[init.max_write, init.time_granularity])?;
    put_u16s(out, &[init.max_pages, 0])?;
    put_u32s(out, &[0, 0, 0, 0, 0, 0, 0, 0])?;
    Ok(())
}

fn put_created(out: &mut Vec<u8, Heap>, entry: &Entry, opened: &Opened) -> Result<(), AllocError>
    ensures bytes { OnOk result
        (out.new.items ≡ out.old.items ++ (entry_bytes entry.now ++ opened_bytes opened.now)) }
    ensures len { OnOk result (vec_len out.new ≡ vec_len out.old + 144) }
    ensures capacity { vec_capacity out.old ≤ vec_capacity out.new }
    ensures succeeds { vec_len out.old + 144 ≤ vec_capacity out.old → IsOk result }
{
    put_entry(out, entry)?;
    put_opened(out, opened)?;
    Ok(())
}

fn put_bytes(out: &mut Vec<u8, Heap>, bytes: &[u8]) -> Result<(), AllocError>
    ensures bytes { OnOk result (out.new.items ≡ out.old.items ++ bytes.now) }
    ensures len { OnOk result (vec_len out.new ≡ vec_len out.old + length bytes.now) }
    ensures capacity { vec_capacity out.old ≤ vec_capacity out.new }
    ensures succeeds { vec_len out.old + length bytes.now ≤ vec_capacity out.old → IsOk result }
{
    out.extend_from_slice(bytes)?;
    Ok(())
}

// What stands behind the header of a reply.
pub(crate) fn put_body(out: &mut Vec<u8, Heap>, reply: &Reply) -> Result<(), AllocError>
    ensures bytes { OnOk result (out.new.items ≡ out.old.items ++ body_of reply.now) }
    ensures len { OnOk result (vec_len out.new ≡ vec_len out.old + length (body_of reply.now)) }
    ensures capacity { vec_capacity out.old ≤ vec_capacity out.new }
    ensures succeeds { vec_len out.old + length (body_of reply.now) ≤ vec_capacity out.old → IsOk result }
{
    match reply {
        Reply::Error(_) | Reply::Empty => Ok(()),
        Reply::Entry(entry) => put_entry(out, entry),
        Reply::Attr(attr) => put_attr_reply(out, attr),
        Reply::Opened(opened) => put_opened(out, opened),
        Reply::Created { entry, opened } => put_created(out, entry, opened),
        Reply::Written { size } => put_u32s(out, &[*size, 0]),
        Reply::Data(bytes) => put_bytes(out, bytes.as_slice()),
        Reply::Directory(listing) => put_bytes(out, listing.as_slice()),
        Reply::StatFs(s) => put_statfs(out, s),
        Reply::Init(init) => put_init(out, init),
        Reply::Lseek { offset } => put_u64s(out, &[*offset]),
    }
}
