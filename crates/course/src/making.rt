// Names that are made: directories, symbolic links, and what is made by a call in general.
ghost use Rattle.std.specs.Prelude.{◌≡◌, false};
ghost use Rattle.ids.specs.declared.call.Op.TheVariants as op;
ghost use Rattle.course.specs.Hands.{bound, is_ending};
ghost use Rattle.course.specs.Course.{Ran};
ghost use Rattle.course.specs.Courses.{entitling_made, making_directory, making_entitled, making_inside};
ghost use Rattle.course.specs.Courses.{making_link, making_owned};

use crate::fault::Fault;
use crate::hand::Hand;
use crate::names::{look_at, make_at};
use crate::place::Place;
use crate::rights::{both_of, owner_in, rights_in};
use ids::{Bytes, Call, Owner, Rights, Stat};
use machine::Machine;

/// The path of what is made, as it is used behind that.
#[derive(Drop)]
pub struct Again {
    /// For its owner.
    pub owned: Bytes,
    /// For its permissions.
    pub permitted: Bytes,
    /// To tell about it, or to open it.
    pub told: Bytes,
}

// Gives what was made an owner and permissions, and tells about it.
fn entitle_made<K: Machine>(hand: &mut Hand<K>, again: Again, rights: Rights) -> Result<Stat, Fault>
    ensures bound { bound hand.new ≡ bound hand.old }
    ensures ran { Ran hand.old.shown
        (entitling_made hand.old.pid again rights) result hand.new.shown }
{
    hand.do_call(Call::Chown(again.owned, both_of(rights.owner)))?;
    make_at(
        hand,
        Call::Chmod(again.permitted, rights.permissions),
        again.told,
    )
}

// Makes something by this call, which does not end the process, gives it an owner and permissions, and
// tells about it.
pub(crate) fn make_entitled<K: Machine>(
    hand: &mut Hand<K>,
    call: Call,
    again: Again,
    rights: Rights,
) -> Result<Stat, Fault>
    requires { is_ending (op.Call call) ≡ false }
    ensures bound { bound hand.new ≡ bound hand.old }
    ensures ran { Ran hand.old.shown
        (making_entitled hand.old.pid call again rights) result hand.new.shown }
{
    hand.do_call(call)?;
    entitle_made(hand, again, rights)
}

/// Makes a directory in the one of `parent`, by this owner and with these permissions, unless that has
/// set-group-ID, and tells about it. The paths are the same. It is `Stale`, and nothing is made, where
/// the path of `parent` gives another object, or none.
pub fn make_directory<K: Machine>(
    hand: &mut Hand<K>,
    parent: Place,
    path: Bytes,
    again: Again,
    given: Rights,
) -> Result<Stat, Fault>
    ensures bound { bound hand.new ≡ bound hand.old }
    ensures ran { Ran hand.old.shown
        (making_inside hand.old.pid parent (making_directory hand.old.pid path again given))
        result hand.new.shown }
{
    let home = look_at(hand, parent)?;
    let rights = rights_in(true, &home.rights, given);
    make_entitled(hand, Call::Mkdir(path), again, rights)
}

// Makes something by this call, which does not end the process, gives it an owner, and tells about it.
fn make_owned<K: Machine>(
    hand: &mut Hand<K>,
    call: Call,
    again: Again,
    owner: Owner,
) -> Result<Stat, Fault>
    requires { is_ending (op.Call call) ≡ false }
    ensures bound { bound hand.new ≡ bound hand.old }
    ensures ran { Ran hand.old.shown
        (making_owned hand.old.pid call again owner) result hand.new.shown }
{
    hand.do_call(call)?;
    make_at(hand, Call::Chown(again.owned, both_of(owner)), again.told)
}

/// Makes a symbolic link to this target in the directory of `parent`, by this owner, unless that has
/// set-group-ID, and tells about it. The paths are the same. It is `Stale`, and nothing is made, where
/// the path of `parent` gives another object, or none.
pub fn make_link<K: Machine>(
    hand: &mut Hand<K>,
    parent: Place,
    target: Bytes,
    path: Bytes,
    again: Again,
    owner: Owner,
) -> Result<Stat, Fault>
    ensures bound { bound hand.new ≡ bound hand.old }
    ensures ran { Ran hand.old.shown
        (making_inside hand.old.pid parent (making_link hand.old.pid target path again owner))
        result hand.new.shown }
{
    let home = look_at(hand, parent)?;
    let owner = owner_in(&home.rights, owner);
    make_owned(hand, Call::Symlink(target, path), again, owner)
}
