// The operation of each opcode that is served.
ghost use Rattle.fuse.specs.Faults.{Reads};
ghost use Rattle.std.specs.Prelude.{◌≡◌};
ghost use Rattle.fuse.specs.Operations.{file_operation_in, is_silent, node_operation_in};
ghost use Rattle.fuse.specs.Operations.{operation_in, session_operation_in};

use crate::bodies::{
    access_in, batch_forget_in, copy_file_range_in, destroy_in, fallocate_in, flush_in, forget_in,
    fsync_in, getattr_in, init_in, interrupt_in, lseek_in, open_in, opendir_in, read_in,
    readdir_in, readlink_in, release_in, releasedir_in, setattr_in, statfs_in, write_in,
};
use crate::fault::{BodyFault, asked};
use crate::named::{
    create_in, link_in, lookup_in, mkdir_in, mknod_in, rename_in, rename2_in, rmdir_in, symlink_in,
    unlink_in,
};
use crate::request::Operation;
use heap::Heap;

const LOOKUP: u32 = 1;

const FORGET: u32 = 2;

const GETATTR: u32 = 3;

const SETATTR: u32 = 4;

const READLINK: u32 = 5;

const SYMLINK: u32 = 6;

const MKNOD: u32 = 8;

const MKDIR: u32 = 9;

const UNLINK: u32 = 10;

const RMDIR: u32 = 11;

const RENAME: u32 = 12;

const LINK: u32 = 13;

const OPEN: u32 = 14;

const READ: u32 = 15;

const WRITE: u32 = 16;

const STATFS: u32 = 17;

const RELEASE: u32 = 18;

const FSYNC: u32 = 20;

const FLUSH: u32 = 25;

const INIT: u32 = 26;

const OPENDIR: u32 = 27;

const READDIR: u32 = 28;

const RELEASEDIR: u32 = 29;

const ACCESS: u32 = 34;

const CREATE: u32 = 35;

const INTERRUPT: u32 = 36;

const DESTROY: u32 = 38;

const BATCH_FORGET: u32 = 42;

const FALLOCATE: u32 = 43;

const RENAME2: u32 = 45;

const LSEEK: u32 = 46;

const COPY_FILE_RANGE: u32 = 47;

// Whether a request of this opcode has no answer.
pub(crate) fn is_silent(opcode: u32) -> bool
    ensures { result ≡ is_silent opcode }
{
    matches!(opcode, FORGET | INTERRUPT | BATCH_FORGET)
}

#[tactic(auto, unfolding(crate::specs::Operations::session_operation_in))]
fn session_operation_in(heap: Heap, opcode: u32, body: &[u8]) -> Result<Operation, BodyFault>
    ensures { Reads (session_operation_in opcode body.now) result }
{
    match opcode {
        FORGET => asked(forget_in(body)),
        INIT => asked(init_in(body)),
        INTERRUPT => asked(interrupt_in(body)),
        DESTROY => asked(destroy_in(body)),
        BATCH_FORGET => batch_forget_in(heap, body),
        _ => Ok(Operation::Other { opcode }),
    }
}

#[tactic(auto, unfolding(crate::specs::Operations::node_operation_in))]
fn node_operation_in(heap: Heap, opcode: u32, body: &[u8]) -> Result<Operation, BodyFault>
    ensures { Reads (node_operation_in opcode body.now) result }
{
    match opcode {
        GETATTR => asked(getattr_in(body)),
        SETATTR => asked(setattr_in(body)),
        READLINK => asked(readlink_in(body)),
        STATFS => asked(statfs_in(body)),
        OPENDIR => asked(opendir_in(body)),
        READDIR => asked(readdir_in(body)),
        RELEASEDIR => asked(releasedir_in(body)),
        ACCESS => asked(access_in(body)),
        _ => session_operation_in(heap, opcode, body),
    }
}

#[tactic(auto, unfolding(crate::specs::Operations::file_operation_in))]
fn file_operation_in(heap: Heap, opcode: u32, body: &[u8]) -> Result<Operation, BodyFault>
    ensures { Reads (file_operation_in opcode body.now) result }
{
    match opcode {
        OPEN => asked(open_in(body)),
        READ => asked(read_in(body)),
        WRITE => write_in(heap, body),
        RELEASE => asked(release_in(body)),
        FSYNC => asked(fsync_in(body)),
        FLUSH => asked(flush_in(body)),
        FALLOCATE => asked(fallocate_in(body)),
        LSEEK => asked(lseek_in(body)),
        COPY_FILE_RANGE => asked(copy_file_range_in(body)),
        _ => node_operation_in(heap, opcode, body),
    }
}

// The operation that a body asks for under this opcode.
#[tactic(auto, unfolding(crate::specs::Operations::operation_in))]
pub(crate) fn operation_in(heap: Heap, opcode: u32, body: &[u8]) -> Result<Operation, BodyFault>
    ensures { Reads (operation_in opcode body.now) result }
{
    match opcode {
        LOOKUP => lookup_in(heap, body),
        SYMLINK => symlink_in(heap, body),
        MKNOD => mknod_in(heap, body),
        MKDIR => mkdir_in(heap, body),
        UNLINK => unlink_in(heap, body),
        RMDIR => rmdir_in(heap, body),
        RENAME => rename_in(heap, body),
        LINK => link_in(heap, body),
        CREATE => create_in(heap, body),
        RENAME2 => rename2_in(heap, body),
        _ => file_operation_in(heap, opcode, body),
    }
}
