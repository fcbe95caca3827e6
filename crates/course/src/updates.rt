// What is set of objects that are there: a length, an owner, permissions.
ghost use Rattle.std.specs.Prelude.{◌≡◌};
ghost use Rattle.course.specs.Hands.{bound};
ghost use Rattle.course.specs.Course.{Ran};
ghost use Rattle.course.specs.Courses.{changing_at, dropping, dropping_by, dropping_if, dropping_seen};
ghost use Rattle.course.specs.Courses.{entitling_at, entitling_open, owning_at, owning_open};
ghost use Rattle.course.specs.Courses.{permitting_at, permitting_open, sizing_at, sizing_open};
ghost use Rattle.course.specs.Courses.{updating, updating_at, updating_by, updating_open};

use crate::fault::Fault;
use crate::files::{set_length, set_length_at, stat_file};
use crate::hand::Hand;
use crate::names::look_for;
use crate::objects::{Object, find};
use crate::rights::has_set_ids;
use ids::{Bytes, Call, Fd, NewOwner, Num, Permissions, Stat};
use machine::Machine;

/// What is set of an object, each where it is wanted.
#[derive(Clone, Copy, Debug)]
pub struct Update {
    /// The length of a file.
    pub length: Option<u64>,
    /// The owner. With it set-user-ID and set-group-ID go, but of a directory.
    pub owner: Option<NewOwner>,
    /// The permissions, which a symbolic link does not have.
    pub permissions: Option<Permissions>,
}

/// The path of an object, once for each use.
#[derive(Drop)]
pub struct Paths {
    /// To look for the object.
    pub looked: Bytes,
    /// For its length.
    pub sized: Bytes,
    /// For its owner.
    pub owned: Bytes,
    /// For its permissions.
    pub permitted: Bytes,
}

// ---- by a descriptor

fn size_open<K: Machine>(hand: &mut Hand<K>, fd: Fd, length: Option<u64>) -> Result<(), Fault>
    ensures bound { bound hand.new ≡ bound hand.old }
    ensures ran { Ran hand.old.shown
        (sizing_open hand.old.pid fd length) result hand.new.shown }
{
    match length {
        Some(length) => set_length(hand, fd, length),
        None => Ok(()),
    }
}

fn own_open<K: Machine>(hand: &mut Hand<K>, fd: Fd, owner: Option<NewOwner>) -> Result<(), Fault>
    ensures bound { bound hand.new ≡ bound hand.old }
    ensures ran { Ran hand.old.shown
        (owning_open hand.old.pid fd owner) result hand.new.shown }
{
    match owner {
        Some(owner) => hand.do_call(Call::Fchown(fd, owner)),
        None => Ok(()),
    }
}

fn permit_open<K: Machine>(
    hand: &mut Hand<K>,
    fd: Fd,
    permissions: Option<Permissions>,
) -> Result<(), Fault>
    ensures bound { bound hand.new ≡ bound hand.old }
    ensures ran { Ran hand.old.shown
        (permitting_open hand.old.pid fd permissions) result hand.new.shown }
{
    match permissions {
        Some(permissions) => hand.do_call(Call::Fchmod(fd, permissions)),
        None => Ok(()),
    }
}

// Sets the owner and then the permissions of what a descriptor is open on, each where it is wanted.
pub(crate) fn entitle_open<K: Machine>(
    hand: &mut Hand<K>,
    fd: Fd,
    owner: Option<NewOwner>,
    permissions: Option<Permissions>,
) -> Result<(), Fault>
    ensures bound { bound hand.new ≡ bound hand.old }
    ensures ran { Ran hand.old.shown
        (entitling_open hand.old.pid fd owner permissions) result hand.new.shown }
{
    own_open(hand, fd, owner)?;
    permit_open(hand, fd, permissions)
}

fn update_open<K: Machine>(hand: &mut Hand<K>, fd: Fd, update: Update) -> Result<(), Fault>
    ensures bound { bound hand.new ≡ bound hand.old }
    ensures ran { Ran hand.old.shown
        (updating_open hand.old.pid fd update) result hand.new.shown }
{
    size_open(hand, fd, update.length)?;
    entitle_open(hand, fd, update.owner, update.permissions)
}

// ---- by a path

fn size_at<K: Machine>(hand: &mut Hand<K>, path: Bytes, length: Option<u64>) -> Result<(), Fault>
    ensures bound { bound hand.new ≡ bound hand.old }
    ensures ran { Ran hand.old.shown
        (sizing_at hand.old.pid path length) result hand.new.shown }
{
    match length {
        Some(length) => set_length_at(hand, path, length),
        None => Ok(()),
    }
}

fn own_at<K: Machine>(hand: &mut Hand<K>, path: Bytes, owner: Option<NewOwner>) -> Result<(), Fault>
    ensures bound { bound hand.new ≡ bound hand.old }
    ensures ran { Ran hand.old.shown
        (owning_at hand.old.pid path owner) result hand.new.shown }
{
    match owner {
        Some(owner) => hand.do_call(Call::Chown(path, owner)),
        None => Ok(()),
    }
}

fn permit_at<K: Machine>(
    hand: &mut Hand<K>,
    path: Bytes,
    permissions: Option<Permissions>,
) -> Result<(), Fault>
    ensures bound { bound hand.new ≡ bound hand.old }
    ensures ran { Ran hand.old.shown
        (permitting_at hand.old.pid path permissions) result hand.new.shown }
{
    match permissions {
        Some(permissions) => hand.do_call(Call::Chmod(path, permissions)),
        None => Ok(()),
    }
}

fn entitle_at<K: Machine>(
    hand: &mut Hand<K>,
    owned: Bytes,
    permitted: Bytes,
    owner: Option<NewOwner>,
    permissions: Option<Permissions>,
) -> Result<(), Fault>
    ensures bound { bound hand.new ≡ bound hand.old }
    ensures ran { Ran hand.old.shown
        (entitling_at hand.old.pid owned permitted owner permissions) result hand.new.shown }
{
    own_at(hand, owned, owner)?;
    permit_at(hand, permitted, permissions)
}

fn change_at<K: Machine>(
    hand: &mut Hand<K>,
    sized: Bytes,
    owned: Bytes,
    permitted: Bytes,
    update: Update,
) -> Result<(), Fault>
    ensures bound { bound hand.new ≡ bound hand.old }
    ensures ran { Ran hand.old.shown
        (changing_at hand.old.pid sized owned permitted update) result hand.new.shown }
{
    size_at(hand, sized, update.length)?;
    entitle_at(hand, owned, permitted, update.owner, update.permissions)
}

// The same where the path gives this object.
fn update_at<K: Machine>(
    hand: &mut Hand<K>,
    inode: Num,
    paths: Paths,
    update: Update,
) -> Result<(), Fault>
    ensures bound { bound hand.new ≡ bound hand.old }
    ensures ran { Ran hand.old.shown
        (updating_at hand.old.pid inode paths update) result hand.new.shown }
{
    look_for(hand, paths.looked, inode)?;
    change_at(hand, paths.sized, paths.owned, paths.permitted, update)
}

// ---- by either

fn update_by<K: Machine>(
    hand: &mut Hand<K>,
    inode: Num,
    fd: Option<Fd>,
    paths: Option<Paths>,
    update: Update,
) -> Result<(), Fault>
    ensures bound { bound hand.new ≡ bound hand.old }
    ensures ran { Ran hand.old.shown
        (updating_by hand.old.pid inode fd paths update) result hand.new.shown }
{
    match fd {
        Some(fd) => update_open(hand, fd, update),
        None => match paths {
            Some(paths) => update_at(hand, inode, paths, update),
            None => Err(Fault::Stale),
        },
    }
}

/// Sets the length, then the owner and then the permissions of an object, each where it is wanted, and
/// tells what it is like then: by its descriptor, else by this path, which is told once for each use. It
/// is `Stale`, and nothing is set, where there is no descriptor and the path gives another object, or
/// none. What was set before another step is refused stays.
pub fn apply_update<K: Machine>(
    hand: &mut Hand<K>,
    object: Object,
    paths: Option<Paths>,
    update: Update,
) -> Result<Stat, Fault>
    ensures bound { bound hand.new ≡ bound hand.old }
    ensures ran { Ran hand.old.shown
        (updating hand.old.pid object paths update) result hand.new.shown }
{
    update_by(hand, object.inode, object.fd, paths, update)?;
    find(hand, object)
}

// ---- set-user-ID and set-group-ID

// Takes both away from the file of a descriptor: they go when its owner is set.
pub(crate) fn drop_set_ids<K: Machine>(hand: &mut Hand<K>, fd: Fd) -> Result<(), Fault>
    ensures bound { bound hand.new ≡ bound hand.old }
    ensures ran { Ran hand.old.shown
        (dropping hand.old.pid fd) result hand.new.shown }
{
    let nobody = NewOwner {
        user: None,
        group: None,
    };
    hand.do_call(Call::Fchown(fd, nobody))
}

// The same where the file is like this, if it has them.
fn drop_by<K: Machine>(hand: &mut Hand<K>, fd: Fd, stat: Stat) -> Result<(), Fault>
    ensures bound { bound hand.new ≡ bound hand.old }
    ensures ran { Ran hand.old.shown
        (dropping_by hand.old.pid fd stat) result hand.new.shown }
{
    if has_set_ids(stat.rights.permissions) {
        drop_set_ids(hand, fd)
    } else {
        Ok(())
    }
}

// The same, where it is looked at first.
fn drop_seen<K: Machine>(hand: &mut Hand<K>, fd: Fd) -> Result<(), Fault>
    ensures bound { bound hand.new ≡ bound hand.old }
    ensures ran { Ran hand.old.shown
        (dropping_seen hand.old.pid fd) result hand.new.shown }
{
    let stat = stat_file(hand, fd)?;
    drop_by(hand, fd, stat)
}

/// Takes set-user-ID and set-group-ID away from the file of a descriptor, where that is wanted, if it
/// has them. Where it has not nothing of it is written.
pub fn drop_if<K: Machine>(hand: &mut Hand<K>, fd: Fd, wanted: bool) -> Result<(), Fault>
    ensures bound { bound hand.new ≡ bound hand.old }
    ensures ran { Ran hand.old.shown
        (dropping_if hand.old.pid fd wanted) result hand.new.shown }
{
    if wanted { drop_seen(hand, fd) } else { Ok(()) }
}
