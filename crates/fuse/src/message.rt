// Replies as bytes.
ghost use Rattle.std.specs.Prelude.{◌≡◌, ◌+◌, ◌++◌, ◌≤◌, drop, length, IsOk, OnErr, OnOk};
ghost use Rattle.std.specs.Prelude.{vec_capacity, vec_len};
ghost use Rattle.fuse.specs.Numbers.{u32_bytes, u64_bytes};
ghost use Rattle.fuse.specs.Replies.{IsShort, body_of, error_of, reply_bytes};

use crate::put::put_body;
use crate::reply::Reply;
use byteorder::{ByteOrder, LittleEndian};
use heap::Heap;
use std::alloc::AllocError;

// How many bytes stand before the body.
const HEADER_LENGTH: usize = 16;

// The error of a reply below zero, as two's complement, or 0.
fn error_of(reply: &Reply) -> u32
    ensures { result ≡ error_of reply.now }
{
    match reply {
        Reply::Error(errno) => 0u32.wrapping_sub(errno.number()),
        _ => 0,
    }
}

// Writes a header over the first bytes.
#[tactic(auto, unfolding(crate::specs::Numbers::u32_bytes, crate::specs::Numbers::u64_bytes))]
fn write_header(out: &mut [u8], size: u32, error: u32, unique: u64)
    requires { 16 ≤ length out.old }
    ensures { out.new
        ≡ ((u32_bytes size ++ u32_bytes error) ++ u64_bytes unique) ++ drop 16 out.old }
{
    LittleEndian::write_u32(out, size);
    LittleEndian::write_u32(&mut out[4..], error);
    LittleEndian::write_u64(&mut out[8..], unique);
}

// Puts a header behind what is there.
fn put_header(out: &mut Vec<u8, Heap>, size: u32, error: u32, unique: u64) -> Result<(), AllocError>
    ensures bytes { OnOk result (out.new.items
        ≡ out.old.items ++ ((u32_bytes size ++ u32_bytes error) ++ u64_bytes unique)) }
    ensures len { OnOk result (vec_len out.new ≡ vec_len out.old + 16) }
    ensures capacity { vec_capacity out.old ≤ vec_capacity out.new }
    ensures succeeds { vec_len out.old + 16 ≤ vec_capacity out.old → IsOk result }
{
    let mut header = [0u8; HEADER_LENGTH];
    let slice: &mut [u8] = &mut header;
    write_header(slice, size, error, unique);
    out.extend_from_slice(slice)?;
    Ok(())
}

// How many bytes stand behind the header of a reply.
fn body_length(reply: &Reply) -> usize
    ensures { result ≡ length (body_of reply.now) }
{
    match reply {
        Reply::Error(_) | Reply::Empty => 0,
        Reply::Entry(_) => 128,
        Reply::Attr(_) => 104,
        Reply::Opened(_) => 16,
        Reply::Created {
            entry: _,
            opened: _,
        } => 144,
        Reply::Written { size: _ } => 8,
        Reply::Data(bytes) => bytes.as_slice().len(),
        Reply::Directory(listing) => listing.as_slice().len(),
        Reply::StatFs(_) => 80,
        Reply::Init(_) => 64,
        Reply::Lseek { offset: _ } => 8,
    }
}

/// Puts the reply to the request of this number behind what is there. Where the vector has room for
/// it no memory is asked for, and it succeeds. Refused memory leaves what was there.
#[tactic(auto, unfolding(crate::specs::Replies::message), using(crate::proofs::Lengths::short_body))]
pub fn put_reply(out: &mut Vec<u8, Heap>, unique: u64, reply: &Reply) -> Result<(), AllocError>
    requires { IsShort reply.now }
    ensures ok { OnOk result (out.new.items ≡ out.old.items ++ reply_bytes unique reply.now) }
    ensures err { OnErr result (out.new.items ≡ out.old.items) }
    ensures capacity { vec_capacity out.old ≤ vec_capacity out.new }
    ensures succeeds { vec_len out.old + 16 + length (body_of reply.now) ≤ vec_capacity out.old
        → IsOk result }
{
    let length = HEADER_LENGTH + body_length(reply);
    out.reserve(length)?;
    // Both have room, so nothing is refused behind this.
    put_header(out, length as u32, error_of(reply), unique)?;
    put_body(out, reply)?;
    Ok(())
}
