// The bodies of requests with names.
ghost use Rattle.fuse.specs.Bodies.{create_in, link_in, lookup_in, mkdir_in, mknod_in};
ghost use Rattle.fuse.specs.Bodies.{rename2_in, rename_in, rmdir_in, symlink_in, unlink_in};
ghost use Rattle.fuse.specs.Faults.{Reads};

use crate::fault::BodyFault;
use crate::name::{name_and_text_of, name_behind, name_of, names_behind};
use crate::number::{u32_at, u64_at};
use crate::request::Operation;
use heap::Heap;

#[tactic(auto, unfolding(crate::specs::Bodies::lookup_in))]
pub(crate) fn lookup_in(heap: Heap, body: &[u8]) -> Result<Operation, BodyFault>
    ensures { Reads (lookup_in body.now) result }
{
    let name = name_of(heap, body)?;
    Ok(Operation::Lookup { name })
}

#[tactic(auto, unfolding(crate::specs::Bodies::symlink_in))]
pub(crate) fn symlink_in(heap: Heap, body: &[u8]) -> Result<Operation, BodyFault>
    ensures { Reads (symlink_in body.now) result }
{
    let (name, target) = name_and_text_of(heap, body)?;
    Ok(Operation::SymLink { name, target })
}

#[tactic(auto, unfolding(crate::specs::Bodies::mknod_in))]
pub(crate) fn mknod_in(heap: Heap, body: &[u8]) -> Result<Operation, BodyFault>
    ensures { Reads (mknod_in body.now) result }
{
    let name = name_behind(heap, body, 16)?;
    let mode = u32_at(body, 0);
    Ok(Operation::MkNod { name, mode })
}

#[tactic(auto, unfolding(crate::specs::Bodies::mkdir_in))]
pub(crate) fn mkdir_in(heap: Heap, body: &[u8]) -> Result<Operation, BodyFault>
    ensures { Reads (mkdir_in body.now) result }
{
    let name = name_behind(heap, body, 8)?;
    let mode = u32_at(body, 0);
    Ok(Operation::MkDir { name, mode })
}

#[tactic(auto, unfolding(crate::specs::Bodies::unlink_in))]
pub(crate) fn unlink_in(heap: Heap, body: &[u8]) -> Result<Operation, BodyFault>
    ensures { Reads (unlink_in body.now) result }
{
    let name = name_of(heap, body)?;
    Ok(Operation::Unlink { name })
}

#[tactic(auto, unfolding(crate::specs::Bodies::rmdir_in))]
pub(crate) fn rmdir_in(heap: Heap, body: &[u8]) -> Result<Operation, BodyFault>
    ensures { Reads (rmdir_in body.now) result }
{
    let name = name_of(heap, body)?;
    Ok(Operation::RmDir { name })
}

#[tactic(auto, unfolding(crate::specs::Bodies::rename_in))]
pub(crate) fn rename_in(heap: Heap, body: &[u8]) -> Result<Operation, BodyFault>
    ensures { Reads (rename_in body.now) result }
{
    let (name, new_name) = names_behind(heap, body, 8)?;
    let new_parent = u64_at(body, 0);
    Ok(Operation::Rename {
        name,
        new_parent,
        new_name,
        flags: 0,
    })
}

#[tactic(auto, unfolding(crate::specs::Bodies::rename2_in))]
pub(crate) fn rename2_in(heap: Heap, body: &[u8]) -> Result<Operation, BodyFault>
    ensures { Reads (rename2_in body.now) result }
{
    let (name, new_name) = names_behind(heap, body, 16)?;
    let new_parent = u64_at(body, 0);
    let flags = u32_at(body, 8);
    Ok(Operation::Rename {
        name,
        new_parent,
        new_name,
        flags,
    })
}

#[tactic(auto, unfolding(crate::specs::Bodies::link_in))]
pub(crate) fn link_in(heap: Heap, body: &[u8]) -> Result<Operation, BodyFault>
    ensures { Reads (link_in body.now) result }
{
    let new_name = name_behind(heap, body, 8)?;
    let node = u64_at(body, 0);
    Ok(Operation::Link { node, new_name })
}

#[tactic(auto, unfolding(crate::specs::Bodies::create_in))]
pub(crate) fn create_in(heap: Heap, body: &[u8]) -> Result<Operation, BodyFault>
    ensures { Reads (create_in body.now) result }
{
    let name = name_behind(heap, body, 16)?;
    let flags = u32_at(body, 0);
    let mode = u32_at(body, 4);
    let how = u32_at(body, 12);
    Ok(Operation::Create {
        name,
        flags,
        mode,
        how,
    })
}
