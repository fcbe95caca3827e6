// Errors.
ghost use Rattle.std.specs.Prelude.{◌≡◌, ◌<◌};
ghost use Rattle.fuse.specs.Errors.{number_of};

use std::alloc::{AllocError, AllocFailed};

/// Why a request fails: the errors that are told. The kernel takes numbers from 1 to 511 alone.
#[derive(Clone, Copy, Debug, PartialEq, Eq)]
pub enum Errno {
    /// It is not permitted.
    EPERM,
    /// The name is not there.
    ENOENT,
    /// The request did not come as it was sent.
    EIO,
    /// There is no byte at the offset, or nothing behind a name.
    ENXIO,
    /// The file is not open.
    EBADF,
    /// It cannot be done now.
    EAGAIN,
    /// There is no memory.
    ENOMEM,
    /// It is in use.
    EBUSY,
    /// The name is there.
    EEXIST,
    /// The two names are of different trees.
    EXDEV,
    /// It is no directory.
    ENOTDIR,
    /// It is a directory.
    EISDIR,
    /// The request is malformed.
    EINVAL,
    /// No descriptor is free.
    EMFILE,
    /// The file would grow past the largest.
    EFBIG,
    /// There is no space.
    ENOSPC,
    /// A pipe has no offset.
    ESPIPE,
    /// Nobody can read from the pipe.
    EPIPE,
    /// A path or a name is too long.
    ENAMETOOLONG,
    /// The operation is not served. The kernel does not ask for it again.
    ENOSYS,
    /// The directory has names.
    ENOTEMPTY,
    /// A symbolic link is in the way.
    ELOOP,
    /// The operation is not supported for this.
    EOPNOTSUPP,
    /// What the node stood for is gone.
    ESTALE,
    /// It was given up.
    ECANCELED,
}

impl Errno {
    /// The number of an error, as Linux has it.
    pub fn number(self) -> u32
        ensures number { result ≡ number_of self }
        ensures some { 0 < result }
        ensures taken { result < 512 }
    {
        match self {
            Errno::EPERM => 1,
            Errno::ENOENT => 2,
            Errno::EIO => 5,
            Errno::ENXIO => 6,
            Errno::EBADF => 9,
            Errno::EAGAIN => 11,
            Errno::ENOMEM => 12,
            Errno::EBUSY => 16,
            Errno::EEXIST => 17,
            Errno::EXDEV => 18,
            Errno::ENOTDIR => 20,
            Errno::EISDIR => 21,
            Errno::EINVAL => 22,
            Errno::EMFILE => 24,
            Errno::EFBIG => 27,
            Errno::ENOSPC => 28,
            Errno::ESPIPE => 29,
            Errno::EPIPE => 32,
            Errno::ENAMETOOLONG => 36,
            Errno::ENOSYS => 38,
            Errno::ENOTEMPTY => 39,
            Errno::ELOOP => 40,
            Errno::EOPNOTSUPP => 95,
            Errno::ESTALE => 116,
            Errno::ECANCELED => 125,
        }
    }
}

impl From<AllocError> for Errno {
    ghost use Rattle.fuse.specs.declared.errno.Errno.TheVariants.{ENOMEM};

    ghost from_gives = { λ _ e. e ≡ ENOMEM };

    fn from(_e: AllocError) -> Errno {
        Errno::ENOMEM
    }
}

impl<T: Drop> From<AllocFailed<T>> for Errno {
    ghost use Rattle.fuse.specs.declared.errno.Errno.TheVariants.{ENOMEM};

    ghost from_gives = { λ _ e. e ≡ ENOMEM };

    fn from(_e: AllocFailed<T>) -> Errno {
        Errno::ENOMEM
    }
}
