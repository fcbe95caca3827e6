// Objects whose content never changes.
ghost use Rattle.std.specs.Prelude.{◌≡◌, ◌≤◌, IfOk, length};
ghost use Rattle.ids.specs.Fixed.{fixed_kind, fixed_target, special_object};
ghost use Rattle.ids.specs.declared.limits.TheConstants.{TARGET_LIMIT};

use crate::reply::Kind;
use crate::target::Target;
use std::alloc::AllocError;

/// An object whose content never changes. It has names as a file has, and no description is ever of
/// it.
#[derive(Debug)]
pub enum Fixed {
    /// A symbolic link, with its target.
    Link(Target),
    /// A FIFO, which is a name and has no content.
    Fifo,
    /// A socket, which is a name and has no content.
    Socket,
}

impl Drop for Fixed {
    fn drop(self) {
        match self {
            Fixed::Link(_) => {}
            Fixed::Fifo => {}
            Fixed::Socket => {}
        }
    }
}

impl Fixed {
    /// A copy on the same allocator. Refused memory changes nothing.
    pub fn try_clone(&self) -> Result<Fixed, AllocError>
        ensures { IfOk result (λ copy. copy ≡ self.now) }
    {
        match self {
            Fixed::Link(target) => Ok(Fixed::Link(target.try_clone()?)),
            Fixed::Fifo => Ok(Fixed::Fifo),
            Fixed::Socket => Ok(Fixed::Socket),
        }
    }

    /// Its kind.
    pub fn kind(&self) -> Kind
        ensures { result ≡ fixed_kind self.now }
    {
        match self {
            Fixed::Link(_) => Kind::Link,
            Fixed::Fifo => Kind::Fifo,
            Fixed::Socket => Kind::Socket,
        }
    }

    /// A symbolic link's target, empty for what has none.
    pub fn target(&self) -> &[u8]
        ensures value { result.now ≡ fixed_target self.now }
        ensures small { length result.now ≤ TARGET_LIMIT }
    {
        match self {
            Fixed::Link(target) => target.as_slice(),
            Fixed::Fifo => &[],
            Fixed::Socket => &[],
        }
    }
}

/// What `mknod` is asked to make (POSIX.1-2017, mknod: the type of file; of a socket Linux).
#[derive(Clone, Copy, Debug, PartialEq, Eq)]
pub enum Special {
    /// A FIFO.
    Fifo,
    /// A socket.
    Socket,
}

impl Special {
    /// The object that it asks for.
    pub fn object(self) -> Fixed
        ensures { result ≡ special_object self }
    {
        match self {
            Special::Fifo => Fixed::Fifo,
            Special::Socket => Fixed::Socket,
        }
    }
}
