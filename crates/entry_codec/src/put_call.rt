// Calls and operations, put behind what is there.
ghost use Rattle.std.specs.Prelude.{◌≡◌, ◌++◌, ◌∷◌, [], ◌<◌, ◌^◌, FitsSigned, OnOk};
ghost use Rattle.std.specs.Int.{w64};
ghost use Rattle.entry_codec.specs.Calls.{IsCall, IsNewOwner, IsOp, call_bytes, op_bytes};
ghost use Rattle.entry_codec.specs.Calls.{new_owner_bytes, space_number, whence_number};
ghost use Rattle.entry_codec.specs.Parts.{IsText, signed_bytes, text_bytes, u16_bytes, u32_bytes};

use crate::numbers::*;
use crate::parts::{put_byte, put_flag, put_signed, put_text, put_u32};
use crate::rights::{put_new_owner, put_permissions};
use crate::variants::{space_number, special_number, whence_number};
use bitflags::Flags;
use heap::Heap;
use ids::{Bytes, Call, Fd, NewOwner, Op, Permissions, Space, Whence};
use std::alloc::AllocError;

// ---- the number of a call, and fields of one form

fn put_path(out: &mut Vec<u8, Heap>, number: u8, path: &Bytes) -> Result<(), AllocError>
    ensures put { OnOk result (out.new.items ≡ out.old.items ++ (number ∷ text_bytes path.now)) }
    ensures fits { OnOk result (IsText path.now) }
{
    put_byte(out, number)?;
    put_text(out, path.as_slice())
}

fn put_paths(
    out: &mut Vec<u8, Heap>,
    number: u8,
    old: &Bytes,
    new: &Bytes,
) -> Result<(), AllocError>
    ensures put { OnOk result (out.new.items
        ≡ out.old.items ++ ((number ∷ text_bytes old.now) ++ text_bytes new.now)) }
    ensures fits { OnOk result (IsText old.now × IsText new.now) }
{
    put_path(out, number, old)?;
    put_text(out, new.as_slice())
}

fn put_fd(out: &mut Vec<u8, Heap>, number: u8, fd: Fd) -> Result<(), AllocError>
    ensures put { OnOk result (out.new.items ≡ out.old.items ++ (number ∷ u32_bytes fd)) }
    ensures fits { OnOk result (fd < 2 ^ 32) }
{
    put_byte(out, number)?;
    put_u32(out, fd.0)
}

fn put_fd_and_count(
    out: &mut Vec<u8, Heap>,
    number: u8,
    fd: Fd,
    count: u32,
) -> Result<(), AllocError>
    ensures put { OnOk result (out.new.items
        ≡ out.old.items ++ ((number ∷ u32_bytes fd) ++ u32_bytes count)) }
    ensures fits { OnOk result ((fd < 2 ^ 32) × (count < 2 ^ 32)) }
{
    put_fd(out, number, fd)?;
    put_u32(out, count)
}

fn put_fd_and_bytes(
    out: &mut Vec<u8, Heap>,
    number: u8,
    fd: Fd,
    bytes: &Bytes,
) -> Result<(), AllocError>
    ensures put { OnOk result (out.new.items
        ≡ out.old.items ++ ((number ∷ u32_bytes fd) ++ text_bytes bytes.now)) }
    ensures fits { OnOk result ((fd < 2 ^ 32) × IsText bytes.now) }
{
    put_fd(out, number, fd)?;
    put_text(out, bytes.as_slice())
}

// ---- calls of a form of their own

fn put_pread(out: &mut Vec<u8, Heap>, fd: Fd, count: u32, offset: i64) -> Result<(), AllocError>
    ensures put { OnOk result (out.new.items ≡ out.old.items
        ++ (((CALL_PREAD ∷ u32_bytes fd) ++ u32_bytes count) ++ signed_bytes offset)) }
    ensures fits { OnOk result ((fd < 2 ^ 32) × (count < 2 ^ 32) × FitsSigned w64 offset) }
{
    put_fd_and_count(out, CALL_PREAD, fd, count)?;
    put_signed(out, offset)
}

fn put_pwrite(out: &mut Vec<u8, Heap>, fd: Fd, bytes: &Bytes, offset: i64) -> Result<(), AllocError>
    ensures put { OnOk result (out.new.items ≡ out.old.items
        ++ (((CALL_PWRITE ∷ u32_bytes fd) ++ text_bytes bytes.now) ++ signed_bytes offset)) }
    ensures fits { OnOk result ((fd < 2 ^ 32) × IsText bytes.now × FitsSigned w64 offset) }
{
    put_fd_and_bytes(out, CALL_PWRITE, fd, bytes)?;
    put_signed(out, offset)
}

fn put_lseek(out: &mut Vec<u8, Heap>, fd: Fd, offset: i64, whence: Whence) -> Result<(), AllocError>
    ensures put { OnOk result (out.new.items ≡ out.old.items
        ++ (((CALL_LSEEK ∷ u32_bytes fd) ++ signed_bytes offset) ++ (whence_number whence ∷ []))) }
    ensures fits { OnOk result ((fd < 2 ^ 32) × FitsSigned w64 offset) }
{
    put_fd(out, CALL_LSEEK, fd)?;
    put_signed(out, offset)?;
    put_byte(out, whence_number(whence))
}

fn put_fallocate(
    out: &mut Vec<u8, Heap>,
    fd: Fd,
    offset: i64,
    length: i64,
    space: Space,
) -> Result<(), AllocError>
    ensures put { OnOk result (out.new.items ≡ out.old.items
        ++ ((((CALL_FALLOCATE ∷ u32_bytes fd) ++ signed_bytes offset) ++ signed_bytes length)
        ++ (space_number space ∷ []))) }
    ensures fits { OnOk result ((fd < 2 ^ 32) × FitsSigned w64 offset × FitsSigned w64 length) }
{
    put_fd(out, CALL_FALLOCATE, fd)?;
    put_signed(out, offset)?;
    put_signed(out, length)?;
    put_byte(out, space_number(space))
}

fn put_truncate(out: &mut Vec<u8, Heap>, path: &Bytes, length: u32) -> Result<(), AllocError>
    ensures put { OnOk result (out.new.items
        ≡ out.old.items ++ ((CALL_TRUNCATE ∷ text_bytes path.now) ++ u32_bytes length)) }
    ensures fits { OnOk result (IsText path.now × (length < 2 ^ 32)) }
{
    put_path(out, CALL_TRUNCATE, path)?;
    put_u32(out, length)
}

// A path, and a byte behind it.
fn put_path_and_byte(
    out: &mut Vec<u8, Heap>,
    number: u8,
    path: &Bytes,
    byte: u8,
) -> Result<(), AllocError>
    ensures put { OnOk result (out.new.items
        ≡ out.old.items ++ ((number ∷ text_bytes path.now) ++ (byte ∷ []))) }
    ensures fits { OnOk result (IsText path.now × (byte < 256)) }
{
    put_path(out, number, path)?;
    put_byte(out, byte)
}

fn put_chmod(
    out: &mut Vec<u8, Heap>,
    path: &Bytes,
    permissions: Permissions,
) -> Result<(), AllocError>
    ensures put { OnOk result (out.new.items
        ≡ out.old.items ++ ((CALL_CHMOD ∷ text_bytes path.now) ++ u16_bytes permissions)) }
    ensures fits { OnOk result (IsText path.now × (permissions < 4096)) }
{
    put_path(out, CALL_CHMOD, path)?;
    put_permissions(out, permissions)
}

fn put_chown(out: &mut Vec<u8, Heap>, path: &Bytes, owner: NewOwner) -> Result<(), AllocError>
    ensures put { OnOk result (out.new.items
        ≡ out.old.items ++ ((CALL_CHOWN ∷ text_bytes path.now) ++ new_owner_bytes owner)) }
    ensures fits { OnOk result (IsText path.now × IsNewOwner owner) }
{
    put_path(out, CALL_CHOWN, path)?;
    put_new_owner(out, owner)
}

fn put_fchmod(out: &mut Vec<u8, Heap>, fd: Fd, permissions: Permissions) -> Result<(), AllocError>
    ensures put { OnOk result (out.new.items
        ≡ out.old.items ++ ((CALL_FCHMOD ∷ u32_bytes fd) ++ u16_bytes permissions)) }
    ensures fits { OnOk result ((fd < 2 ^ 32) × (permissions < 4096)) }
{
    put_fd(out, CALL_FCHMOD, fd)?;
    put_permissions(out, permissions)
}

fn put_fchown(out: &mut Vec<u8, Heap>, fd: Fd, owner: NewOwner) -> Result<(), AllocError>
    ensures put { OnOk result (out.new.items
        ≡ out.old.items ++ ((CALL_FCHOWN ∷ u32_bytes fd) ++ new_owner_bytes owner)) }
    ensures fits { OnOk result ((fd < 2 ^ 32) × IsNewOwner owner) }
{
    put_fd(out, CALL_FCHOWN, fd)?;
    put_new_owner(out, owner)
}

// ---- all calls, and operations

#[tactic(auto, unfolding(crate::specs::Calls::call_bytes, crate::specs::Calls::IsCall))]
pub(crate) fn put_call(out: &mut Vec<u8, Heap>, call: &Call) -> Result<(), AllocError>
    ensures put { OnOk result (out.new.items ≡ out.old.items ++ call_bytes call.now) }
    ensures fits { OnOk result (IsCall call.now) }
{
    match call {
        Call::Open(path, flags) => put_path_and_byte(out, CALL_OPEN, path, flags.bits()),
        Call::Close(fd) => put_fd(out, CALL_CLOSE, *fd),
        Call::Read(fd, count) => put_fd_and_count(out, CALL_READ, *fd, *count),
        Call::Pread(fd, count, offset) => put_pread(out, *fd, *count, *offset),
        Call::Write(fd, bytes) => put_fd_and_bytes(out, CALL_WRITE, *fd, bytes),
        Call::Pwrite(fd, bytes, offset) => put_pwrite(out, *fd, bytes, *offset),
        Call::Lseek(fd, offset, whence) => put_lseek(out, *fd, *offset, *whence),
        Call::Ftruncate(fd, length) => put_fd_and_count(out, CALL_FTRUNCATE, *fd, *length),
        Call::Truncate(path, length) => put_truncate(out, path, *length),
        Call::Fallocate(fd, offset, length, space) => {
            put_fallocate(out, *fd, *offset, *length, *space)
        }
        Call::Stat(path) => put_path(out, CALL_STAT, path),
        Call::Fstat(fd) => put_fd(out, CALL_FSTAT, *fd),
        Call::Link(old, new) => put_paths(out, CALL_LINK, old, new),
        Call::Unlink(path) => put_path(out, CALL_UNLINK, path),
        Call::Rename(old, new) => put_paths(out, CALL_RENAME, old, new),
        Call::Exchange(old, new) => put_paths(out, CALL_EXCHANGE, old, new),
        Call::Mkdir(path) => put_path(out, CALL_MKDIR, path),
        Call::Rmdir(path) => put_path(out, CALL_RMDIR, path),
        Call::List(path) => put_path(out, CALL_LIST, path),
        Call::Symlink(target, path) => put_paths(out, CALL_SYMLINK, target, path),
        Call::Readlink(path) => put_path(out, CALL_READLINK, path),
        Call::Lstat(path) => put_path(out, CALL_LSTAT, path),
        Call::Mknod(path, special) => {
            put_path_and_byte(out, CALL_MKNOD, path, special_number(*special))
        }
        Call::Chmod(path, permissions) => put_chmod(out, path, *permissions),
        Call::Chown(path, owner) => put_chown(out, path, *owner),
        Call::Fchmod(fd, permissions) => put_fchmod(out, *fd, *permissions),
        Call::Fchown(fd, owner) => put_fchown(out, *fd, *owner),
        Call::Dup(fd) => put_fd(out, CALL_DUP, *fd),
        Call::Dup2(old, new) => put_fd_and_count(out, CALL_DUP2, *old, new.0),
        Call::Pipe => put_byte(out, CALL_PIPE),
        Call::Fork => put_byte(out, CALL_FORK),
        Call::Exit => put_byte(out, CALL_EXIT),
    }
}

#[tactic(auto, unfolding(crate::specs::Calls::op_bytes, crate::specs::Calls::IsOp))]
pub(crate) fn put_op(out: &mut Vec<u8, Heap>, op: &Op) -> Result<(), AllocError>
    ensures put { OnOk result (out.new.items ≡ out.old.items ++ op_bytes op.now) }
    ensures fits { OnOk result (IsOp op.now) }
{
    match op {
        Op::Call(call) => {
            put_byte(out, OP_CALL)?;
            put_call(out, call)
        }
        Op::Begin(flags) => {
            put_byte(out, OP_BEGIN)?;
            put_byte(out, flags.bits())
        }
        Op::End => put_byte(out, OP_END),
        Op::Abort { no_restart } => {
            put_byte(out, OP_ABORT)?;
            put_flag(out, *no_restart)
        }
    }
}
