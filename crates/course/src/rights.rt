// Whose what is made is, and what is permitted there: by who makes it, and by its directory.
ghost use Rattle.std.specs.Prelude.{◌≡◌, ◌<◌};
ghost use Rattle.course.specs.Rights.{both_of, gives_group, has_set_ids, owner_in};
ghost use Rattle.course.specs.Rights.{permissions_below, permissions_in, rights_in, with_set_group};

use ids::{NewOwner, Owner, Permissions, Rights};

// The permissions of these bits.
fn permissions_of(bits: u16) -> Permissions
    requires { bits < 4096 }
    ensures { result ≡ bits }
{
    match Permissions::new(bits) {
        Some(permissions) => permissions,
        None => unreachable!(),
    }
}

/// The permissions in a mode of Linux: its lower twelve bits.
pub fn permissions_in(mode: u32) -> Permissions
    ensures { result ≡ permissions_in mode }
{
    permissions_of((mode % 0o10000) as u16)
}

// Whether set-user-ID is among permissions, or set-group-ID with the group's right to execute.
pub(crate) fn has_set_ids(permissions: Permissions) -> bool
    ensures { result ≡ has_set_ids permissions }
{
    permissions.without_set_ids().bits() != permissions.bits()
}

// An owner, both its user and its group.
pub(crate) fn both_of(owner: Owner) -> NewOwner
    ensures { result ≡ both_of owner }
{
    NewOwner {
        user: Some(owner.user),
        group: Some(owner.group),
    }
}

// Whether what is made in a directory gets its group: set-group-ID is among its permissions.
fn gives_group(home: &Rights) -> bool
    ensures { result ≡ gives_group home.now }
{
    home.permissions.bits() & 0o2000 == 0o2000
}

// Permissions with set-group-ID, whether they had it or not.
fn with_set_group(permissions: Permissions) -> Permissions
    ensures { result ≡ with_set_group permissions }
{
    let bits = permissions.bits();
    permissions_of(bits / 0o4000 * 0o4000 + 0o2000 + bits % 0o2000)
}

// Whose something is that is made in such a directory by this owner.
pub(crate) fn owner_in(home: &Rights, owner: Owner) -> Owner
    ensures { result ≡ owner_in home.now owner }
{
    if gives_group(home) {
        Owner {
            user: owner.user,
            group: home.owner.group,
        }
    } else {
        owner
    }
}

// What is permitted there.
fn permissions_below(is_directory: bool, home: &Rights, given: Permissions) -> Permissions
    ensures { result ≡ permissions_below is_directory home.now given }
{
    if is_directory && gives_group(home) {
        with_set_group(given)
    } else {
        given
    }
}

// Both.
pub(crate) fn rights_in(is_directory: bool, home: &Rights, given: Rights) -> Rights
    ensures { result ≡ rights_in is_directory home.now given }
{
    Rights {
        permissions: permissions_below(is_directory, home, given.permissions),
        owner: owner_in(home, given.owner),
    }
}
