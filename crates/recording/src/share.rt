// Operations of which copies take no memory.
ghost use Rattle.std.specs.Prelude.{◌≡◌};

use heap::Heap;
use ids::{Bytes, Call, Op};
use redo_records::only_looks;
use std::mem::replace;

// Has bytes stand where copies of them take no memory. Where memory for that is refused, they stay as
// they are.
fn share_bytes(heap: Heap, bytes: &mut Bytes)
    ensures { bytes.new ≡ bytes.old }
{
    let all = replace(bytes, Bytes::new(Vec::new(heap)));
    *bytes = all.shared();
}

// Does that to the path or the content of a call that can change something, to the first of two paths.
fn share_first(heap: Heap, call: &mut Call)
    ensures { call.new ≡ call.old }
{
    match call {
        Call::Open(path, _) => share_bytes(heap, path),
        Call::Write(_, bytes) => share_bytes(heap, bytes),
        Call::Pwrite(_, bytes, _) => share_bytes(heap, bytes),
        Call::Truncate(path, _) => share_bytes(heap, path),
        Call::Link(old, _) => share_bytes(heap, old),
        Call::Unlink(path) => share_bytes(heap, path),
        Call::Rename(old, _) => share_bytes(heap, old),
        Call::Exchange(old, _) => share_bytes(heap, old),
        Call::Mkdir(path) => share_bytes(heap, path),
        Call::Rmdir(path) => share_bytes(heap, path),
        Call::Symlink(target, _) => share_bytes(heap, target),
        Call::Mknod(path, _) => share_bytes(heap, path),
        Call::Chmod(path, _) => share_bytes(heap, path),
        Call::Chown(path, _) => share_bytes(heap, path),
        _ => {}
    }
}

// Does that to the second path of a call that has two.
fn share_second(heap: Heap, call: &mut Call)
    ensures { call.new ≡ call.old }
{
    match call {
        Call::Link(_, new) => share_bytes(heap, new),
        Call::Rename(_, new) => share_bytes(heap, new),
        Call::Exchange(_, new) => share_bytes(heap, new),
        Call::Symlink(_, path) => share_bytes(heap, path),
        _ => {}
    }
}

// Does that to the paths and contents of a call that can change something.
fn share_call(heap: Heap, call: &mut Call)
    ensures { call.new ≡ call.old }
{
    share_first(heap, call);
    share_second(heap, call);
}

/// Whether an operation is a call that only looks, of which nothing is noted.
pub(crate) fn is_look(op: &Op) -> bool {
    match op {
        Op::Call(call) => only_looks(call),
        Op::Begin(_) | Op::End | Op::Abort { no_restart: _ } => false,
    }
}

/// Has an operation's paths and contents stand where copies of them take no memory, as far as memory for
/// that is not refused.
pub(crate) fn share(heap: Heap, op: &mut Op)
    ensures { op.new ≡ op.old }
{
    match op {
        Op::Call(call) => share_call(heap, call),
        Op::Begin(_) | Op::End | Op::Abort { no_restart: _ } => {}
    }
}
