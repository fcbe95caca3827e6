// Why a request fails.
ghost use Rattle.std.specs.Prelude.{◌≡◌};
ghost use Rattle.mount_requests.specs.Failures.{errno_of};

use course::Fault;
use fuse::Errno;
use ids::Why;
use std::alloc::{AllocError, AllocFailed};

/// Why a request fails.
#[derive(Debug, Drop)]
pub enum Failure {
    /// For this error, which is told.
    Error(Errno),
    /// The transaction of the process was aborted, for this cause.
    Aborted(Why),
}

// What Linux has for a refusal of the kernel.
fn errno_of(refused: ids::Errno) -> Errno
    ensures { result ≡ errno_of refused }
{
    match refused {
        ids::Errno::EAGAIN => Errno::EAGAIN,
        ids::Errno::EBADF => Errno::EBADF,
        ids::Errno::EBUSY => Errno::EBUSY,
        ids::Errno::EEXIST => Errno::EEXIST,
        ids::Errno::EFBIG => Errno::EFBIG,
        ids::Errno::EINVAL => Errno::EINVAL,
        ids::Errno::EISDIR => Errno::EISDIR,
        ids::Errno::ELOOP => Errno::ELOOP,
        ids::Errno::EMFILE => Errno::EMFILE,
        ids::Errno::ENAMETOOLONG => Errno::ENAMETOOLONG,
        ids::Errno::ENOENT => Errno::ENOENT,
        ids::Errno::ENOTDIR => Errno::ENOTDIR,
        ids::Errno::ENOTEMPTY => Errno::ENOTEMPTY,
        ids::Errno::ENOTSUP => Errno::EOPNOTSUPP,
        ids::Errno::ENXIO => Errno::ENXIO,
        ids::Errno::EPERM => Errno::EPERM,
        ids::Errno::EPIPE => Errno::EPIPE,
        ids::Errno::ESPIPE => Errno::ESPIPE,
    }
}

impl From<Fault> for Failure {
    ghost use Rattle.mount_requests.specs.Failures.{failure_of};

    ghost from_gives = { λ e f. f ≡ failure_of e };

    fn from(fault: Fault) -> Failure {
        match fault {
            Fault::Refused(refused) => Failure::Error(errno_of(refused)),
            Fault::Busy => Failure::Error(Errno::EBUSY),
            Fault::NoMemory => Failure::Error(Errno::ENOMEM),
            Fault::Stale => Failure::Error(Errno::ESTALE),
            Fault::Unexpected => Failure::Error(Errno::EIO),
            Fault::Aborted(why) => Failure::Aborted(why),
        }
    }
}

impl From<Errno> for Failure {
    ghost use Rattle.mount_requests.specs.Failures.{error};

    ghost from_gives = { λ e f. f ≡ error e };

    fn from(errno: Errno) -> Failure {
        Failure::Error(errno)
    }
}

impl From<AllocError> for Failure {
    ghost use Rattle.fuse.specs.declared.errno.Errno.TheVariants.{ENOMEM};
    ghost use Rattle.mount_requests.specs.Failures.{error};

    ghost from_gives = { λ _ f. f ≡ error ENOMEM };

    fn from(_e: AllocError) -> Failure {
        Failure::Error(Errno::ENOMEM)
    }
}

impl<T: Drop> From<AllocFailed<T>> for Failure {
    ghost use Rattle.fuse.specs.declared.errno.Errno.TheVariants.{ENOMEM};
    ghost use Rattle.mount_requests.specs.Failures.{error};

    ghost from_gives = { λ _ f. f ≡ error ENOMEM };

    fn from(_e: AllocFailed<T>) -> Failure {
        Failure::Error(Errno::ENOMEM)
    }
}
