// The bodies of requests without names.
ghost use Rattle.std.specs.Prelude.{◌≡◌, ◌+◌, ◌≤◌, length};
ghost use Rattle.fuse.specs.Bodies.{access_in, batch_forget_in, changes_in, copy_file_range_in};
ghost use Rattle.fuse.specs.Bodies.{destroy_in, fallocate_in, flush_in, forget_in, fsync_in};
ghost use Rattle.fuse.specs.Bodies.{getattr_in, init_in, interrupt_in};
ghost use Rattle.fuse.specs.Bodies.{lseek_in, open_in, opendir_in, read_in, readdir_in, readlink_in};
ghost use Rattle.fuse.specs.Bodies.{release_in, releasedir_in, setattr_in, statfs_in, time_change};
ghost use Rattle.fuse.specs.Bodies.{is_set, whence_of, where_set, write_in};
ghost use Rattle.fuse.specs.Faults.{Reads};
ghost use Rattle.fuse.specs.Numbers.{u32_at, u64_at};

use crate::fault::BodyFault;
use crate::forgets::forgets_in;
use crate::number::{u32_at, u64_at};
use crate::request::{Changes, Operation, Time, TimeChange, Whence};
use heap::Heap;
use ids::Bytes;

// ---- open files

#[tactic(auto, unfolding(crate::specs::Bodies::open_in))]
pub(crate) fn open_in(body: &[u8]) -> Option<Operation>
    ensures { result ≡ open_in body.now }
{
    if body.len() != 8 {
        return None;
    }
    let flags = u32_at(body, 0);
    let how = u32_at(body, 4);
    Some(Operation::Open { flags, how })
}

#[tactic(auto, unfolding(crate::specs::Bodies::read_in))]
pub(crate) fn read_in(body: &[u8]) -> Option<Operation>
    ensures { result ≡ read_in body.now }
{
    if body.len() != 40 {
        return None;
    }
    Some(Operation::Read {
        handle: u64_at(body, 0),
        offset: u64_at(body, 8),
        size: u32_at(body, 16),
        open_flags: u32_at(body, 32),
    })
}

#[tactic(auto, unfolding(crate::specs::Bodies::write_in))]
pub(crate) fn write_in(heap: Heap, body: &[u8]) -> Result<Operation, BodyFault>
    ensures { Reads (write_in body.now) result }
{
    if body.len() < 40 || body.len() - 40 != u32_at(body, 16) as usize {
        return Err(BodyFault::Malformed);
    }
    let (_, bytes) = body.split_at(40);
    match Bytes::copy(heap, bytes) {
        Ok(bytes) => Ok(Operation::Write {
            handle: u64_at(body, 0),
            offset: u64_at(body, 8),
            write_flags: u32_at(body, 20),
            open_flags: u32_at(body, 32),
            bytes,
        }),
        Err(_) => Err(BodyFault::NoMemory),
    }
}

#[tactic(auto, unfolding(crate::specs::Bodies::release_in))]
pub(crate) fn release_in(body: &[u8]) -> Option<Operation>
    ensures { result ≡ release_in body.now }
{
    if body.len() != 24 {
        return None;
    }
    Some(Operation::Release {
        handle: u64_at(body, 0),
        flags: u32_at(body, 8),
    })
}

#[tactic(auto, unfolding(crate::specs::Bodies::fsync_in))]
pub(crate) fn fsync_in(body: &[u8]) -> Option<Operation>
    ensures { result ≡ fsync_in body.now }
{
    if body.len() != 16 {
        return None;
    }
    let handle = u64_at(body, 0);
    Some(Operation::Fsync { handle })
}

#[tactic(auto, unfolding(crate::specs::Bodies::flush_in))]
pub(crate) fn flush_in(body: &[u8]) -> Option<Operation>
    ensures { result ≡ flush_in body.now }
{
    if body.len() != 24 {
        return None;
    }
    let handle = u64_at(body, 0);
    Some(Operation::Flush { handle })
}

#[tactic(auto, unfolding(crate::specs::Bodies::whence_of))]
fn whence_of(number: u32) -> Option<Whence>
    ensures { result ≡ whence_of number }
{
    match number {
        0 => Some(Whence::Start),
        1 => Some(Whence::Current),
        2 => Some(Whence::End),
        3 => Some(Whence::NextData),
        4 => Some(Whence::NextHole),
        _ => None,
    }
}

#[tactic(auto, unfolding(crate::specs::Bodies::lseek_in))]
pub(crate) fn lseek_in(body: &[u8]) -> Option<Operation>
    ensures { result ≡ lseek_in body.now }
{
    if body.len() != 24 {
        return None;
    }
    let whence = whence_of(u32_at(body, 16))?;
    let handle = u64_at(body, 0);
    let offset = u64_at(body, 8);
    Some(Operation::Lseek {
        handle,
        offset,
        whence,
    })
}

#[tactic(auto, unfolding(crate::specs::Bodies::fallocate_in))]
pub(crate) fn fallocate_in(body: &[u8]) -> Option<Operation>
    ensures { result ≡ fallocate_in body.now }
{
    if body.len() != 32 {
        return None;
    }
    Some(Operation::Fallocate {
        handle: u64_at(body, 0),
        offset: u64_at(body, 8),
        length: u64_at(body, 16),
        mode: u32_at(body, 24),
    })
}

#[tactic(auto, unfolding(crate::specs::Bodies::copy_file_range_in))]
pub(crate) fn copy_file_range_in(body: &[u8]) -> Option<Operation>
    ensures { result ≡ copy_file_range_in body.now }
{
    if body.len() != 56 {
        return None;
    }
    Some(Operation::CopyFileRange {
        handle: u64_at(body, 0),
        offset: u64_at(body, 8),
        to_node: u64_at(body, 16),
        to_handle: u64_at(body, 24),
        to_offset: u64_at(body, 32),
        length: u64_at(body, 40),
        flags: u64_at(body, 48),
    })
}

// ---- directories and nodes

#[tactic(auto, unfolding(crate::specs::Bodies::readlink_in))]
pub(crate) fn readlink_in(body: &[u8]) -> Option<Operation>
    ensures { result ≡ readlink_in body.now }
{
    if body.is_empty() {
        Some(Operation::ReadLink)
    } else {
        None
    }
}

#[tactic(auto, unfolding(crate::specs::Bodies::opendir_in))]
pub(crate) fn opendir_in(body: &[u8]) -> Option<Operation>
    ensures { result ≡ opendir_in body.now }
{
    if body.len() == 8 {
        Some(Operation::OpenDir)
    } else {
        None
    }
}

#[tactic(auto, unfolding(crate::specs::Bodies::readdir_in))]
pub(crate) fn readdir_in(body: &[u8]) -> Option<Operation>
    ensures { result ≡ readdir_in body.now }
{
    if body.len() != 40 {
        return None;
    }
    Some(Operation::ReadDir {
        handle: u64_at(body, 0),
        offset: u64_at(body, 8),
        size: u32_at(body, 16),
    })
}

#[tactic(auto, unfolding(crate::specs::Bodies::releasedir_in))]
pub(crate) fn releasedir_in(body: &[u8]) -> Option<Operation>
    ensures { result ≡ releasedir_in body.now }
{
    if body.len() != 24 {
        return None;
    }
    let handle = u64_at(body, 0);
    Some(Operation::ReleaseDir { handle })
}

// Whether this bit of the mask is set.
fn is_set(mask: u32, bit: u32) -> bool
    ensures { result ≡ is_set mask bit }
{
    mask & bit != 0
}

// A number of 64 bits, where this bit of the mask is set.
fn where_set(mask: u32, bit: u32, number: u64) -> Option<u64>
    ensures { result ≡ where_set mask bit number }
{
    if mask & bit == 0 { None } else { Some(number) }
}

// The same for 32 bits.
fn small_where_set(mask: u32, bit: u32, number: u32) -> Option<u32>
    ensures { result ≡ where_set mask bit number }
{
    if mask & bit == 0 { None } else { Some(number) }
}

#[tactic(auto, unfolding(crate::specs::Bodies::getattr_in))]
pub(crate) fn getattr_in(body: &[u8]) -> Option<Operation>
    ensures { result ≡ getattr_in body.now }
{
    if body.len() != 16 {
        return None;
    }
    let handle = where_set(u32_at(body, 0), 1, u64_at(body, 8));
    Some(Operation::GetAttr { handle })
}

// What a time is set to, where the one bit of the mask is set: to now, where the other is set too.
// The kernel fills the time in both ways.
fn time_change(mask: u32, bit: u32, now_bit: u32, time: Time) -> Option<TimeChange>
    ensures { result ≡ time_change mask bit now_bit time.seconds time.nanoseconds }
{
    if mask & bit == 0 {
        None
    } else if mask & now_bit == 0 {
        Some(TimeChange::At(time))
    } else {
        Some(TimeChange::Now(time))
    }
}

// The time whose seconds and nanoseconds stand at these offsets.
fn time_at(body: &[u8], seconds: usize, nanoseconds: usize) -> Time
    requires long { seconds + 8 ≤ length body.now }
    requires longer { nanoseconds + 4 ≤ length body.now }
    ensures seconds { result.seconds ≡ u64_at body.now seconds }
    ensures nanoseconds { result.nanoseconds ≡ u32_at body.now nanoseconds }
{
    Time {
        seconds: u64_at(body, seconds),
        nanoseconds: u32_at(body, nanoseconds),
    }
}

#[tactic(auto, unfolding(crate::specs::Bodies::changes_in))]
fn changes_in(body: &[u8]) -> Changes
    requires { 88 ≤ length body.now }
    ensures { result ≡ changes_in body.now }
{
    let mask = u32_at(body, 0);
    Changes {
        handle: where_set(mask, 64, u64_at(body, 8)),
        size: where_set(mask, 8, u64_at(body, 16)),
        accessed: time_change(mask, 16, 128, time_at(body, 32, 56)),
        modified: time_change(mask, 32, 256, time_at(body, 40, 60)),
        mode: small_where_set(mask, 1, u32_at(body, 68)),
        uid: small_where_set(mask, 2, u32_at(body, 76)),
        gid: small_where_set(mask, 4, u32_at(body, 80)),
        drops_set_ids: is_set(mask, 2048),
    }
}

#[tactic(auto, unfolding(crate::specs::Bodies::setattr_in))]
pub(crate) fn setattr_in(body: &[u8]) -> Option<Operation>
    ensures { result ≡ setattr_in body.now }
{
    if body.len() != 88 {
        return None;
    }
    let changes = changes_in(body);
    Some(Operation::SetAttr { changes })
}

#[tactic(auto, unfolding(crate::specs::Bodies::access_in))]
pub(crate) fn access_in(body: &[u8]) -> Option<Operation>
    ensures { result ≡ access_in body.now }
{
    if body.len() != 8 {
        return None;
    }
    let mask = u32_at(body, 0);
    Some(Operation::Access { mask })
}

#[tactic(auto, unfolding(crate::specs::Bodies::statfs_in))]
pub(crate) fn statfs_in(body: &[u8]) -> Option<Operation>
    ensures { result ≡ statfs_in body.now }
{
    if body.is_empty() {
        Some(Operation::StatFs)
    } else {
        None
    }
}

// ---- the session

#[tactic(auto, unfolding(crate::specs::Bodies::init_in))]
pub(crate) fn init_in(body: &[u8]) -> Option<Operation>
    ensures { result ≡ init_in body.now }
{
    if body.len() < 16 {
        return None;
    }
    Some(Operation::Init {
        major: u32_at(body, 0),
        minor: u32_at(body, 4),
        max_readahead: u32_at(body, 8),
        flags: u32_at(body, 12),
    })
}

#[tactic(auto, unfolding(crate::specs::Bodies::destroy_in))]
pub(crate) fn destroy_in(body: &[u8]) -> Option<Operation>
    ensures { result ≡ destroy_in body.now }
{
    if body.is_empty() {
        Some(Operation::Destroy)
    } else {
        None
    }
}

#[tactic(auto, unfolding(crate::specs::Bodies::interrupt_in))]
pub(crate) fn interrupt_in(body: &[u8]) -> Option<Operation>
    ensures { result ≡ interrupt_in body.now }
{
    if body.len() != 8 {
        return None;
    }
    let unique = u64_at(body, 0);
    Some(Operation::Interrupt { unique })
}

#[tactic(auto, unfolding(crate::specs::Bodies::forget_in))]
pub(crate) fn forget_in(body: &[u8]) -> Option<Operation>
    ensures { result ≡ forget_in body.now }
{
    if body.len() != 8 {
        return None;
    }
    let lookups = u64_at(body, 0);
    Some(Operation::Forget { lookups })
}

#[tactic(auto, unfolding(crate::specs::Bodies::batch_forget_in))]
pub(crate) fn batch_forget_in(heap: Heap, body: &[u8]) -> Result<Operation, BodyFault>
    ensures { Reads (batch_forget_in body.now) result }
{
    if body.len() < 8 {
        return Err(BodyFault::Malformed);
    }
    let count = u32_at(body, 0) as usize;
    if body.len() - 8 != 16 * count {
        return Err(BodyFault::Malformed);
    }
    match forgets_in(heap, count, &body[8..]) {
        Ok(forgets) => Ok(Operation::BatchForget { forgets }),
        Err(_) => Err(BodyFault::NoMemory),
    }
}
