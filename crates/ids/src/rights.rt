// Who may do what with an object, and whose it is.
ghost use Rattle.std.specs.Prelude.{◌≡◌, ◌<◌, ◌↔◌, IfSome, IsSome};
ghost use Rattle.ids.specs.Rights.{first_rights, owned, permitted, without_set_ids};

use crate::reply::Kind;
use std::marker::Model;

/// The bits of a mode that can be set: who may read, write and execute or search, set-user-ID,
/// set-group-ID, and the restricted deletion flag (POSIX.1-2017, sys/stat.h, with its numbers).
/// Twelve bits. Contracts see them as a natural number below 4,096.
#[derive(Clone, Copy, Debug, PartialEq, Eq)]
pub struct Permissions {
    bits: u16,
}

impl Model for Permissions {
    ghost use Rattle.std.specs.Prelude.{ℕ, ◌<◌};

    ghost Value = { ℕ };

    ghost view = { λ p. p.bits };

    ghost invariant = { λ p. p.bits < 4096 };

    ghost inverse = { λ n. record { bits = n } };
}

impl Permissions {
    /// The permissions of these bits, or `None` exactly where there are others than the twelve.
    pub fn new(bits: u16) -> Option<Permissions>
        ensures value { IfSome result (λ p. p ≡ bits) }
        ensures exactly { IsSome result ↔ (bits < 4096) }
    {
        if bits < 0o10000 {
            Some(Permissions { bits })
        } else {
            None
        }
    }

    /// Their bits, below 4,096.
    pub fn bits(self) -> u16
        ensures value { result ≡ self }
        ensures small { result < 4096 }
    {
        self.bits
    }

    /// What is left of them when the owner of anything but a directory is set.
    pub fn without_set_ids(self) -> Permissions
        ensures { result ≡ without_set_ids self }
    {
        if self.bits & 0o10 == 0o10 {
            Permissions {
                bits: self.bits & 0o1777,
            }
        } else {
            Permissions {
                bits: self.bits & 0o3777,
            }
        }
    }
}

/// Whose an object is.
#[derive(Clone, Copy, Debug, PartialEq, Eq)]
pub struct Owner {
    /// The user's number.
    pub user: u32,
    /// The group's number.
    pub group: u32,
}

/// Whose an object is from now on. `None`: it stays as it is (POSIX.1-2017, chown: an argument of
/// -1).
#[derive(Clone, Copy, Debug, PartialEq, Eq)]
pub struct NewOwner {
    /// The user's number.
    pub user: Option<u32>,
    /// The group's number.
    pub group: Option<u32>,
}

/// Who may do what with an object, and whose it is. The kernel keeps these and tells them, and
/// refuses nothing by them: each of its processes is a superuser's.
#[derive(Clone, Copy, Debug, PartialEq, Eq)]
pub struct Rights {
    /// Its permissions.
    pub permissions: Permissions,
    /// Its owner.
    pub owner: Owner,
}

impl Rights {
    /// Those of a new object of this kind: 755 in octal digits for a directory, 777 for a symbolic
    /// link, 644 for all else, of user 0 and group 0.
    pub fn first(kind: Option<Kind>) -> Rights
        ensures { result ≡ first_rights kind }
    {
        let bits = match kind {
            Some(Kind::Dir) => 0o755,
            Some(Kind::Link) => 0o777,
            _ => 0o644,
        };
        Rights {
            permissions: Permissions { bits },
            owner: Owner { user: 0, group: 0 },
        }
    }

    /// These with other permissions.
    pub fn permitted(self, permissions: Permissions) -> Rights
        ensures { result ≡ permitted permissions self }
    {
        Rights {
            permissions,
            owner: self.owner,
        }
    }

    /// These with another owner, where the object is of this kind: but for a directory the bits
    /// set-user-ID and set-group-ID go, the latter where the group may execute it (Linux, chown).
    pub fn owned(self, kind: Option<Kind>, owner: NewOwner) -> Rights
        ensures { result ≡ owned kind owner self }
    {
        let permissions = match kind {
            Some(Kind::Dir) => self.permissions,
            _ => self.permissions.without_set_ids(),
        };
        Rights {
            permissions,
            owner: Owner {
                user: owner.user.unwrap_or(self.owner.user),
                group: owner.group.unwrap_or(self.owner.group),
            },
        }
    }
}
