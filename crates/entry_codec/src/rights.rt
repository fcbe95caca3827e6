// Permissions and owners, and how things are opened and begun.
ghost use Rattle.std.specs.Prelude.{◌≡◌, ◌++◌, ◌∷◌, [], ◌<◌, OnOk};
ghost use Rattle.entry_codec.specs.Calls.{IsNewOwner, new_owner_bytes};
ghost use Rattle.entry_codec.specs.Parts.{u16_bytes};
ghost use Rattle.entry_codec.specs.Replies.{IsRights, rights_bytes};
ghost use Rattle.entry_codec.specs.Reading.{Gives, permissions_at};
ghost use Rattle.entry_codec.specs.ReadingCalls.{begin_flags_at, new_owner_at, open_flags_at};
ghost use Rattle.entry_codec.specs.ReadingReplies.{rights_at};

use crate::fault::{ReadError, Wrong, fault_at};
use crate::parts::{byte_of, optional_of, put_optional, put_u16, put_u32, u16_of, u32_of};
use bitflags::Flags;
use heap::Heap;
use ids::{BeginFlags, NewOwner, OpenFlags, Owner, Permissions, Rights};
use std::alloc::AllocError;

pub(crate) fn open_flags_of(bytes: &[u8]) -> Result<(OpenFlags, &[u8]), ReadError>
    ensures { Gives (λ x. (x.0, x.1.now)) result (open_flags_at bytes.now) }
{
    let (bits, rest) = byte_of(bytes)?;
    Ok((OpenFlags::from_bits_retain(bits), rest))
}

pub(crate) fn begin_flags_of(bytes: &[u8]) -> Result<(BeginFlags, &[u8]), ReadError>
    ensures { Gives (λ x. (x.0, x.1.now)) result (begin_flags_at bytes.now) }
{
    let (bits, rest) = byte_of(bytes)?;
    Ok((BeginFlags::from_bits_retain(bits), rest))
}

pub(crate) fn put_permissions(
    out: &mut Vec<u8, Heap>,
    permissions: Permissions,
) -> Result<(), AllocError>
    ensures put { OnOk result (out.new.items ≡ out.old.items ++ u16_bytes permissions) }
    ensures fits { OnOk result (permissions < 4096) }
{
    put_u16(out, permissions.bits())
}

pub(crate) fn permissions_of(bytes: &[u8]) -> Result<(Permissions, &[u8]), ReadError>
    ensures { Gives (λ x. (x.0, x.1.now)) result (permissions_at bytes.now) }
{
    let (bits, rest) = u16_of(bytes)?;
    match Permissions::new(bits) {
        Some(permissions) => Ok((permissions, rest)),
        None => Err(fault_at(Wrong::Range, rest)),
    }
}

pub(crate) fn put_new_owner(out: &mut Vec<u8, Heap>, owner: NewOwner) -> Result<(), AllocError>
    ensures put { OnOk result (out.new.items ≡ out.old.items ++ new_owner_bytes owner) }
    ensures fits { OnOk result (IsNewOwner owner) }
{
    put_optional(out, owner.user)?;
    put_optional(out, owner.group)
}

#[tactic(auto, unfolding(crate::specs::ReadingCalls::new_owner_at))]
pub(crate) fn new_owner_of(bytes: &[u8]) -> Result<(NewOwner, &[u8]), ReadError>
    ensures { Gives (λ x. (x.0, x.1.now)) result (new_owner_at bytes.now) }
{
    let (user, rest) = optional_of(bytes)?;
    let (group, rest) = optional_of(rest)?;
    Ok((NewOwner { user, group }, rest))
}

pub(crate) fn put_rights(out: &mut Vec<u8, Heap>, rights: Rights) -> Result<(), AllocError>
    ensures put { OnOk result (out.new.items ≡ out.old.items ++ rights_bytes rights) }
    ensures fits { OnOk result (IsRights rights) }
{
    put_permissions(out, rights.permissions)?;
    put_u32(out, rights.owner.user)?;
    put_u32(out, rights.owner.group)
}

#[tactic(auto, unfolding(crate::specs::ReadingReplies::rights_at))]
pub(crate) fn rights_of(bytes: &[u8]) -> Result<(Rights, &[u8]), ReadError>
    ensures { Gives (λ x. (x.0, x.1.now)) result (rights_at bytes.now) }
{
    match permissions_of(bytes) {
        Ok((permissions, rest)) => {
            let (user, rest) = u32_of(rest)?;
            let (group, rest) = u32_of(rest)?;
            let owner = Owner { user, group };
            Ok((Rights { permissions, owner }, rest))
        }
        Err(e) => Err(e),
    }
}
