// The calls and the other operations of a process.
ghost use Rattle.std.specs.Prelude.{◌≡◌, IfOk};

use crate::bytes::Bytes;
use crate::fixed::Special;
use crate::flags::{BeginFlags, OpenFlags};
use crate::number::Fd;
use crate::rights::{NewOwner, Permissions};
use std::alloc::AllocError;

/// From where `lseek` counts.
#[derive(Clone, Copy, Debug, PartialEq, Eq)]
pub enum Whence {
    /// From the first byte.
    Set,
    /// From the offset.
    Cur,
    /// From the end.
    End,
    /// From the first byte, on to what is no hole (Linux, `lseek`: `SEEK_DATA`).
    Data,
    /// From the first byte, on to a hole, or to the end (`SEEK_HOLE`).
    Hole,
}

/// What `fallocate` does to a range of a file (Linux, `fallocate`: no flag, `FALLOC_FL_KEEP_SIZE`, and
/// that with `FALLOC_FL_PUNCH_HOLE`).
#[derive(Clone, Copy, Debug, PartialEq, Eq)]
pub enum Space {
    /// The file reaches to the end of the range at least.
    Grow,
    /// Nothing that shows.
    Keep,
    /// The bytes of the range that the file has become zero.
    Punch,
}

/// A call (POSIX.1-2017, by the function of each name). Paths are bytes as they were given. No walk
/// goes on by a symbolic link: where one is in the way, the call is refused. Nothing is refused by
/// permissions: whoever has the kernel is its superuser.
#[derive(Debug)]
pub enum Call {
    /// Opens the file of a path.
    Open(Bytes, OpenFlags),
    /// Closes a descriptor.
    Close(Fd),
    /// Reads up to so many bytes.
    Read(Fd, u32),
    /// Reads up to so many bytes from an offset on. The description's own stays.
    Pread(Fd, u32, i64),
    /// Writes these bytes.
    Write(Fd, Bytes),
    /// Writes these bytes from an offset on. The description's own stays.
    Pwrite(Fd, Bytes, i64),
    /// Moves the offset.
    Lseek(Fd, i64, Whence),
    /// Cuts or grows a file to a length.
    Ftruncate(Fd, u64),
    /// Cuts or grows the file of a path to a length.
    Truncate(Bytes, u64),
    /// Makes room in a file from an offset on, so many bytes, or makes a hole there.
    Fallocate(Fd, i64, i64, Space),
    /// Tells about the object of a path, which is no symbolic link.
    Stat(Bytes),
    /// Tells about the object of a descriptor.
    Fstat(Fd),
    /// Gives the object of the first path, which is no directory, the second path too.
    Link(Bytes, Bytes),
    /// Takes a name away that gives no directory.
    Unlink(Bytes),
    /// Moves what the first path gives to the second.
    Rename(Bytes, Bytes),
    /// Gives each of two paths what the other gives (Linux, `renameat2`: `RENAME_EXCHANGE`).
    Exchange(Bytes, Bytes),
    /// Makes an empty directory.
    Mkdir(Bytes),
    /// Removes an empty directory.
    Rmdir(Bytes),
    /// Lists the names of a directory.
    List(Bytes),
    /// Makes a symbolic link: its target, and its path.
    Symlink(Bytes, Bytes),
    /// Tells the target of a symbolic link.
    Readlink(Bytes),
    /// Tells about the object of a path, also of a symbolic link.
    Lstat(Bytes),
    /// Makes a FIFO or a socket.
    Mknod(Bytes, Special),
    /// Sets the permissions of the object of a path, which is no symbolic link.
    Chmod(Bytes, Permissions),
    /// Sets the owner of the object of a path, also of a symbolic link (`lchown`).
    Chown(Bytes, NewOwner),
    /// Sets the permissions of the object of a descriptor.
    Fchmod(Fd, Permissions),
    /// Sets the owner of the object of a descriptor.
    Fchown(Fd, NewOwner),
    /// Shares a description with the lowest free descriptor.
    Dup(Fd),
    /// Shares the first one's description with the second.
    Dup2(Fd, Fd),
    /// Makes a pipe.
    Pipe,
    /// Makes a child with the same descriptors.
    Fork,
    /// Ends the process.
    Exit,
}

impl Drop for Call {
    fn drop(self) {
        match self {
            Call::Open(_, _) => {}
            Call::Close(_) => {}
            Call::Read(_, _) => {}
            Call::Pread(_, _, _) => {}
            Call::Write(_, _) => {}
            Call::Pwrite(_, _, _) => {}
            Call::Lseek(_, _, _) => {}
            Call::Ftruncate(_, _) => {}
            Call::Truncate(_, _) => {}
            Call::Fallocate(_, _, _, _) => {}
            Call::Stat(_) => {}
            Call::Fstat(_) => {}
            Call::Link(_, _) => {}
            Call::Unlink(_) => {}
            Call::Rename(_, _) => {}
            Call::Exchange(_, _) => {}
            Call::Mkdir(_) => {}
            Call::Rmdir(_) => {}
            Call::List(_) => {}
            Call::Symlink(_, _) => {}
            Call::Readlink(_) => {}
            Call::Lstat(_) => {}
            Call::Mknod(_, _) => {}
            Call::Chmod(_, _) => {}
            Call::Chown(_, _) => {}
            Call::Fchmod(_, _) => {}
            Call::Fchown(_, _) => {}
            Call::Dup(_) => {}
            Call::Dup2(_, _) => {}
            Call::Pipe => {}
            Call::Fork => {}
            Call::Exit => {}
        }
    }
}

impl Call {
    /// A copy on the same allocator. Refused memory changes nothing.
    pub fn try_clone(&self) -> Result<Call, AllocError>
        ensures { IfOk result (λ copy. copy ≡ self.now) }
    {
        match self {
            Call::Open(path, flags) => Ok(Call::Open(path.try_clone()?, *flags)),
            Call::Close(fd) => Ok(Call::Close(*fd)),
            Call::Read(fd, count) => Ok(Call::Read(*fd, *count)),
            Call::Pread(fd, count, offset) => Ok(Call::Pread(*fd, *count, *offset)),
            Call::Write(fd, bytes) => Ok(Call::Write(*fd, bytes.try_clone()?)),
            Call::Pwrite(fd, bytes, offset) => Ok(Call::Pwrite(*fd, bytes.try_clone()?, *offset)),
            Call::Lseek(fd, offset, whence) => Ok(Call::Lseek(*fd, *offset, *whence)),
            Call::Ftruncate(fd, length) => Ok(Call::Ftruncate(*fd, *length)),
            Call::Truncate(path, length) => Ok(Call::Truncate(path.try_clone()?, *length)),
            Call::Fallocate(fd, offset, length, space) => {
                Ok(Call::Fallocate(*fd, *offset, *length, *space))
            }
            Call::Stat(path) => Ok(Call::Stat(path.try_clone()?)),
            Call::Fstat(fd) => Ok(Call::Fstat(*fd)),
            Call::Link(old, new) => {
                let (old, new) = paths_copied(old, new)?;
                Ok(Call::Link(old, new))
            }
            Call::Unlink(path) => Ok(Call::Unlink(path.try_clone()?)),
            Call::Rename(old, new) => {
                let (old, new) = paths_copied(old, new)?;
                Ok(Call::Rename(old, new))
            }
            Call::Exchange(old, new) => {
                let (old, new) = paths_copied(old, new)?;
                Ok(Call::Exchange(old, new))
            }
            Call::Mkdir(path) => Ok(Call::Mkdir(path.try_clone()?)),
            Call::Rmdir(path) => Ok(Call::Rmdir(path.try_clone()?)),
            Call::List(path) => Ok(Call::List(path.try_clone()?)),
            Call::Symlink(target, path) => {
                let (target, path) = paths_copied(target, path)?;
                Ok(Call::Symlink(target, path))
            }
            Call::Readlink(path) => Ok(Call::Readlink(path.try_clone()?)),
            Call::Lstat(path) => Ok(Call::Lstat(path.try_clone()?)),
            Call::Mknod(path, special) => Ok(Call::Mknod(path.try_clone()?, *special)),
            Call::Chmod(path, permissions) => Ok(Call::Chmod(path.try_clone()?, *permissions)),
            Call::Chown(path, owner) => Ok(Call::Chown(path.try_clone()?, *owner)),
            Call::Fchmod(fd, permissions) => Ok(Call::Fchmod(*fd, *permissions)),
            Call::Fchown(fd, owner) => Ok(Call::Fchown(*fd, *owner)),
            Call::Dup(fd) => Ok(Call::Dup(*fd)),
            Call::Dup2(old, new) => Ok(Call::Dup2(*old, *new)),
            Call::Pipe => Ok(Call::Pipe),
            Call::Fork => Ok(Call::Fork),
            Call::Exit => Ok(Call::Exit),
        }
    }
}

// Copies of two paths, or of a target and a path, on the same allocators. Refused memory changes
// nothing.
fn paths_copied(old: &Bytes, new: &Bytes) -> Result<(Bytes, Bytes), AllocError>
    ensures { IfOk result (λ copies. (copies.0 ≡ old.now) × (copies.1 ≡ new.now)) }
{
    Ok((old.try_clone()?, new.try_clone()?))
}

/// What a process asks of the kernel: a call, or to begin, end or give up a transaction (TxOS,
/// `sys_xbegin`, `sys_xend`, `sys_xabort`).
#[derive(Debug, Drop)]
pub enum Op {
    /// A call, inside a transaction or outside.
    Call(Call),
    /// Begins a transaction.
    Begin(BeginFlags),
    /// Commits it.
    End,
    /// Gives it up.
    Abort {
        /// Whether it is not begun anew, whatever its flags say.
        no_restart: bool,
    },
}

impl Op {
    /// A copy on the same allocator. Refused memory changes nothing.
    pub fn try_clone(&self) -> Result<Op, AllocError>
        ensures { IfOk result (λ copy. copy ≡ self.now) }
    {
        match self {
            Op::Call(call) => Ok(Op::Call(call.try_clone()?)),
            Op::Begin(flags) => Ok(Op::Begin(*flags)),
            Op::End => Ok(Op::End),
            Op::Abort { no_restart } => Ok(Op::Abort {
                no_restart: *no_restart,
            }),
        }
    }
}
