// Calls and operations, read at the front of bytes, with the bytes behind.
ghost use Rattle.std.specs.Prelude.{◌≡◌};
ghost use Rattle.entry_codec.specs.Reading.{Gives};
ghost use Rattle.entry_codec.specs.ReadingCalls.{call_at, call_of, content_call_of, length_call_of};
ghost use Rattle.entry_codec.specs.ReadingCalls.{op_at, path_call_of, paths_call_of, rights_call_of};

use crate::fault::{ReadError, Wrong, fault_at};
use crate::numbers::*;
use crate::parts::{byte_of, flag_of, signed_of, text_of, u32_of};
use crate::rights::{begin_flags_of, new_owner_of, open_flags_of, permissions_of};
use crate::variants::{space_of, special_of, whence_of};
use heap::Heap;
use ids::{Call, Fd, Op};

// Of the rights of objects, and `mknod`.
#[tactic(auto, unfolding(crate::specs::ReadingCalls::rights_call_of))]
fn rights_call_of(heap: Heap, number: u8, rest: &[u8]) -> Result<(Call, &[u8]), ReadError>
    ensures { Gives (λ x. (x.0, x.1.now)) result (rights_call_of number rest.now) }
{
    match number {
        CALL_MKNOD => {
            let (path, rest) = text_of(heap, rest)?;
            let (special, rest) = special_of(rest)?;
            Ok((Call::Mknod(path, special), rest))
        }
        CALL_CHMOD => {
            let (path, rest) = text_of(heap, rest)?;
            match permissions_of(rest) {
                Ok((permissions, rest)) => Ok((Call::Chmod(path, permissions), rest)),
                Err(e) => Err(e),
            }
        }
        CALL_CHOWN => {
            let (path, rest) = text_of(heap, rest)?;
            let (owner, rest) = new_owner_of(rest)?;
            Ok((Call::Chown(path, owner), rest))
        }
        CALL_FCHMOD => {
            let (fd, rest) = u32_of(rest)?;
            match permissions_of(rest) {
                Ok((permissions, rest)) => Ok((Call::Fchmod(Fd(fd), permissions), rest)),
                Err(e) => Err(e),
            }
        }
        CALL_FCHOWN => {
            let (fd, rest) = u32_of(rest)?;
            let (owner, rest) = new_owner_of(rest)?;
            Ok((Call::Fchown(Fd(fd), owner), rest))
        }
        _ => Err(fault_at(Wrong::Variant, rest)),
    }
}

// Of two paths.
#[tactic(auto, unfolding(crate::specs::ReadingCalls::paths_call_of))]
fn paths_call_of(heap: Heap, number: u8, rest: &[u8]) -> Result<(Call, &[u8]), ReadError>
    ensures { Gives (λ x. (x.0, x.1.now)) result (paths_call_of number rest.now) }
{
    match number {
        CALL_LINK => {
            let (old, rest) = text_of(heap, rest)?;
            let (new, rest) = text_of(heap, rest)?;
            Ok((Call::Link(old, new), rest))
        }
        CALL_RENAME => {
            let (old, rest) = text_of(heap, rest)?;
            let (new, rest) = text_of(heap, rest)?;
            Ok((Call::Rename(old, new), rest))
        }
        CALL_EXCHANGE => {
            let (old, rest) = text_of(heap, rest)?;
            let (new, rest) = text_of(heap, rest)?;
            Ok((Call::Exchange(old, new), rest))
        }
        CALL_SYMLINK => {
            let (target, rest) = text_of(heap, rest)?;
            let (path, rest) = text_of(heap, rest)?;
            Ok((Call::Symlink(target, path), rest))
        }
        _ => rights_call_of(heap, number, rest),
    }
}

// Of one path.
#[tactic(auto, unfolding(crate::specs::ReadingCalls::path_call_of))]
fn path_call_of(heap: Heap, number: u8, rest: &[u8]) -> Result<(Call, &[u8]), ReadError>
    ensures { Gives (λ x. (x.0, x.1.now)) result (path_call_of number rest.now) }
{
    match number {
        CALL_STAT => {
            let (path, rest) = text_of(heap, rest)?;
            Ok((Call::Stat(path), rest))
        }
        CALL_UNLINK => {
            let (path, rest) = text_of(heap, rest)?;
            Ok((Call::Unlink(path), rest))
        }
        CALL_MKDIR => {
            let (path, rest) = text_of(heap, rest)?;
            Ok((Call::Mkdir(path), rest))
        }
        CALL_RMDIR => {
            let (path, rest) = text_of(heap, rest)?;
            Ok((Call::Rmdir(path), rest))
        }
        CALL_LIST => {
            let (path, rest) = text_of(heap, rest)?;
            Ok((Call::List(path), rest))
        }
        CALL_READLINK => {
            let (path, rest) = text_of(heap, rest)?;
            Ok((Call::Readlink(path), rest))
        }
        CALL_LSTAT => {
            let (path, rest) = text_of(heap, rest)?;
            Ok((Call::Lstat(path), rest))
        }
        _ => paths_call_of(heap, number, rest),
    }
}

// Of the lengths of files, and of room in them.
#[tactic(auto, unfolding(crate::specs::ReadingCalls::length_call_of))]
fn length_call_of(heap: Heap, number: u8, rest: &[u8]) -> Result<(Call, &[u8]), ReadError>
    ensures { Gives (λ x. (x.0, x.1.now)) result (length_call_of number rest.now) }
{
    match number {
        CALL_FTRUNCATE => {
            let (fd, rest) = u32_of(rest)?;
            let (length, rest) = u32_of(rest)?;
            Ok((Call::Ftruncate(Fd(fd), length), rest))
        }
        CALL_TRUNCATE => {
            let (path, rest) = text_of(heap, rest)?;
            let (length, rest) = u32_of(rest)?;
            Ok((Call::Truncate(path, length), rest))
        }
        CALL_FALLOCATE => {
            let (fd, rest) = u32_of(rest)?;
            let (offset, rest) = signed_of(rest)?;
            let (length, rest) = signed_of(rest)?;
            let (space, rest) = space_of(rest)?;
            Ok((Call::Fallocate(Fd(fd), offset, length, space), rest))
        }
        _ => path_call_of(heap, number, rest),
    }
}

// Of what files hold.
#[tactic(auto, unfolding(crate::specs::ReadingCalls::content_call_of))]
fn content_call_of(heap: Heap, number: u8, rest: &[u8]) -> Result<(Call, &[u8]), ReadError>
    ensures { Gives (λ x. (x.0, x.1.now)) result (content_call_of number rest.now) }
{
    match number {
        CALL_READ => {
            let (fd, rest) = u32_of(rest)?;
            let (count, rest) = u32_of(rest)?;
            Ok((Call::Read(Fd(fd), count), rest))
        }
        CALL_PREAD => {
            let (fd, rest) = u32_of(rest)?;
            let (count, rest) = u32_of(rest)?;
            let (offset, rest) = signed_of(rest)?;
            Ok((Call::Pread(Fd(fd), count, offset), rest))
        }
        CALL_WRITE => {
            let (fd, rest) = u32_of(rest)?;
            let (bytes, rest) = text_of(heap, rest)?;
            Ok((Call::Write(Fd(fd), bytes), rest))
        }
        CALL_PWRITE => {
            let (fd, rest) = u32_of(rest)?;
            let (bytes, rest) = text_of(heap, rest)?;
            let (offset, rest) = signed_of(rest)?;
            Ok((Call::Pwrite(Fd(fd), bytes, offset), rest))
        }
        CALL_LSEEK => {
            let (fd, rest) = u32_of(rest)?;
            let (offset, rest) = signed_of(rest)?;
            let (whence, rest) = whence_of(rest)?;
            Ok((Call::Lseek(Fd(fd), offset, whence), rest))
        }
        _ => length_call_of(heap, number, rest),
    }
}

// Of descriptors and processes, and all others.
#[tactic(auto, unfolding(crate::specs::ReadingCalls::call_of))]
fn numbered_call_of(heap: Heap, number: u8, rest: &[u8]) -> Result<(Call, &[u8]), ReadError>
    ensures { Gives (λ x. (x.0, x.1.now)) result (call_of number rest.now) }
{
    match number {
        CALL_OPEN => {
            let (path, rest) = text_of(heap, rest)?;
            let (flags, rest) = open_flags_of(rest)?;
            Ok((Call::Open(path, flags), rest))
        }
        CALL_CLOSE => {
            let (fd, rest) = u32_of(rest)?;
            Ok((Call::Close(Fd(fd)), rest))
        }
        CALL_FSTAT => {
            let (fd, rest) = u32_of(rest)?;
            Ok((Call::Fstat(Fd(fd)), rest))
        }
        CALL_DUP => {
            let (fd, rest) = u32_of(rest)?;
            Ok((Call::Dup(Fd(fd)), rest))
        }
        CALL_DUP2 => {
            let (old, rest) = u32_of(rest)?;
            let (new, rest) = u32_of(rest)?;
            Ok((Call::Dup2(Fd(old), Fd(new)), rest))
        }
        CALL_PIPE => Ok((Call::Pipe, rest)),
        CALL_FORK => Ok((Call::Fork, rest)),
        CALL_EXIT => Ok((Call::Exit, rest)),
        _ => content_call_of(heap, number, rest),
    }
}

pub(crate) fn call_of(heap: Heap, bytes: &[u8]) -> Result<(Call, &[u8]), ReadError>
    ensures { Gives (λ x. (x.0, x.1.now)) result (call_at bytes.now) }
{
    let (number, rest) = byte_of(bytes)?;
    numbered_call_of(heap, number, rest)
}

#[tactic(auto, unfolding(crate::specs::ReadingCalls::op_of))]
pub(crate) fn op_of(heap: Heap, bytes: &[u8]) -> Result<(Op, &[u8]), ReadError>
    ensures { Gives (λ x. (x.0, x.1.now)) result (op_at bytes.now) }
{
    let (number, rest) = byte_of(bytes)?;
    match number {
        OP_CALL => match call_of(heap, rest) {
            Ok((call, rest)) => Ok((Op::Call(call), rest)),
            Err(e) => Err(e),
        },
        OP_BEGIN => {
            let (flags, rest) = begin_flags_of(rest)?;
            Ok((Op::Begin(flags), rest))
        }
        OP_END => Ok((Op::End, rest)),
        OP_ABORT => {
            let (no_restart, rest) = flag_of(rest)?;
            Ok((Op::Abort { no_restart }, rest))
        }
        _ => Err(fault_at(Wrong::Variant, rest)),
    }
}
