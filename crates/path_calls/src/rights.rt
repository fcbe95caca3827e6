// The plans of calls that set permissions and owners.
ghost use Rattle.std.specs.Prelude.{ℕ};
ghost use Rattle.ids.specs.Rights.{permitted, owned};
ghost use Rattle.model.specs.Plans.{plan, revised};
ghost use Rattle.model.specs.Calls.{own, Chmod, Chown};
ghost use Rattle.look.specs.Asked.{Comes};

use crate::asking::rights;
use crate::change::Change;
use crate::paths::{done, place_at};
use ids::{Bytes, Edit, Kind, NewOwner, Num, Permissions, Refusal};
use look::Look;
use walk::{Reads, must_not_be_link};

/// An object gets these permissions. Its owner stays.
pub fn set_permissions<L: Look>(
    look: &L,
    inode: Num,
    permissions: Permissions,
    reads: &mut Reads,
) -> Result<Change, Refusal>
    ensures { Comes (L.state look.now)
        (revised inode (permitted permissions)) reads.old result reads.new }
{
    let rights = rights(look, inode, reads)?;
    let revised = rights.permitted(permissions);
    done(
        reads.heap(),
        Edit::SetRights {
            inode,
            rights: revised,
        },
    )
}

/// An object of this kind gets this owner, and loses what `Rights::owned` says of its permissions.
pub fn set_owner<L: Look>(
    look: &L,
    inode: Num,
    kind: Option<Kind>,
    owner: NewOwner,
    reads: &mut Reads,
) -> Result<Change, Refusal>
    ensures { Comes (L.state look.now)
        (revised inode (owned kind owner)) reads.old result reads.new }
{
    let rights = rights(look, inode, reads)?;
    let revised = rights.owned(kind, owner);
    done(
        reads.heap(),
        Edit::SetRights {
            inode,
            rights: revised,
        },
    )
}

/// What chmod of a path comes to.
pub fn chmod<L: Look>(
    look: &L,
    path: &Bytes,
    permissions: Permissions,
    reads: &mut Reads,
) -> Result<Change, Refusal>
    ensures { (pid : ℕ) → Comes (L.state look.now)
        (plan (own (L.state look.now) pid (Chmod path.now permissions))
        (Chmod path.now permissions))
        reads.old result reads.new }
{
    let place = place_at(look, path, reads)?;
    must_not_be_link(&place)?;
    set_permissions(look, place.0, permissions, reads)
}

/// What chown of a path comes to.
pub fn chown<L: Look>(
    look: &L,
    path: &Bytes,
    owner: NewOwner,
    reads: &mut Reads,
) -> Result<Change, Refusal>
    ensures { (pid : ℕ) → Comes (L.state look.now)
        (plan (own (L.state look.now) pid (Chown path.now owner)) (Chown path.now owner))
        reads.old result reads.new }
{
    let place = place_at(look, path, reads)?;
    set_owner(look, place.0, place.1, owner, reads)
}
