// Variants without fields: each is the byte of its number.
ghost use Rattle.std.specs.Prelude.{◌≡◌};
ghost use Rattle.entry_codec.specs.Calls.{whence_number, space_number, special_number};
ghost use Rattle.entry_codec.specs.Replies.{kind_number, errno_number};
ghost use Rattle.entry_codec.specs.Reading.{Gives};
ghost use Rattle.entry_codec.specs.ReadingCalls.{whence_at, space_at, special_at};
ghost use Rattle.entry_codec.specs.ReadingReplies.{kind_at, errno_at};

use crate::fault::{ReadError, Wrong, fault_at};
use crate::numbers::{
    ERRNO_EAGAIN, ERRNO_EBADF, ERRNO_EBUSY, ERRNO_EEXIST, ERRNO_EFBIG, ERRNO_EINVAL, ERRNO_EISDIR,
    ERRNO_ELOOP, ERRNO_EMFILE, ERRNO_ENAMETOOLONG, ERRNO_ENOENT, ERRNO_ENOTDIR, ERRNO_ENOTEMPTY,
    ERRNO_ENOTSUP, ERRNO_ENXIO, ERRNO_EPERM, ERRNO_EPIPE, ERRNO_ESPIPE, KIND_DIR, KIND_FIFO,
    KIND_FILE, KIND_LINK, KIND_PIPE, KIND_SOCKET, SPACE_GROW, SPACE_KEEP, SPACE_PUNCH,
    SPECIAL_FIFO, SPECIAL_SOCKET, WHENCE_CUR, WHENCE_DATA, WHENCE_END, WHENCE_HOLE, WHENCE_SET,
};
use crate::parts::byte_of;
use ids::{Errno, Kind, Space, Special, Whence};

pub(crate) fn whence_number(whence: Whence) -> u8
    ensures { result ≡ whence_number whence }
{
    match whence {
        Whence::Set => WHENCE_SET,
        Whence::Cur => WHENCE_CUR,
        Whence::End => WHENCE_END,
        Whence::Data => WHENCE_DATA,
        Whence::Hole => WHENCE_HOLE,
    }
}

#[tactic(auto, unfolding(crate::specs::ReadingCalls::whence_of))]
pub(crate) fn whence_of(bytes: &[u8]) -> Result<(Whence, &[u8]), ReadError>
    ensures { Gives (λ x. (x.0, x.1.now)) result (whence_at bytes.now) }
{
    let (number, rest) = byte_of(bytes)?;
    match number {
        WHENCE_SET => Ok((Whence::Set, rest)),
        WHENCE_CUR => Ok((Whence::Cur, rest)),
        WHENCE_END => Ok((Whence::End, rest)),
        WHENCE_DATA => Ok((Whence::Data, rest)),
        WHENCE_HOLE => Ok((Whence::Hole, rest)),
        _ => Err(fault_at(Wrong::Variant, rest)),
    }
}

pub(crate) fn space_number(space: Space) -> u8
    ensures { result ≡ space_number space }
{
    match space {
        Space::Grow => SPACE_GROW,
        Space::Keep => SPACE_KEEP,
        Space::Punch => SPACE_PUNCH,
    }
}

#[tactic(auto, unfolding(crate::specs::ReadingCalls::space_of))]
pub(crate) fn space_of(bytes: &[u8]) -> Result<(Space, &[u8]), ReadError>
    ensures { Gives (λ x. (x.0, x.1.now)) result (space_at bytes.now) }
{
    let (number, rest) = byte_of(bytes)?;
    match number {
        SPACE_GROW => Ok((Space::Grow, rest)),
        SPACE_KEEP => Ok((Space::Keep, rest)),
        SPACE_PUNCH => Ok((Space::Punch, rest)),
        _ => Err(fault_at(Wrong::Variant, rest)),
    }
}

pub(crate) fn special_number(special: Special) -> u8
    ensures { result ≡ special_number special }
{
    match special {
        Special::Fifo => SPECIAL_FIFO,
        Special::Socket => SPECIAL_SOCKET,
    }
}

#[tactic(auto, unfolding(crate::specs::ReadingCalls::special_of))]
pub(crate) fn special_of(bytes: &[u8]) -> Result<(Special, &[u8]), ReadError>
    ensures { Gives (λ x. (x.0, x.1.now)) result (special_at bytes.now) }
{
    let (number, rest) = byte_of(bytes)?;
    match number {
        SPECIAL_FIFO => Ok((Special::Fifo, rest)),
        SPECIAL_SOCKET => Ok((Special::Socket, rest)),
        _ => Err(fault_at(Wrong::Variant, rest)),
    }
}

pub(crate) fn kind_number(kind: Kind) -> u8
    ensures { result ≡ kind_number kind }
{
    match kind {
        Kind::File => KIND_FILE,
        Kind::Dir => KIND_DIR,
        Kind::Pipe => KIND_PIPE,
        Kind::Link => KIND_LINK,
        Kind::Fifo => KIND_FIFO,
        Kind::Socket => KIND_SOCKET,
    }
}

#[tactic(auto, unfolding(crate::specs::ReadingReplies::kind_of))]
pub(crate) fn kind_of(bytes: &[u8]) -> Result<(Kind, &[u8]), ReadError>
    ensures { Gives (λ x. (x.0, x.1.now)) result (kind_at bytes.now) }
{
    let (number, rest) = byte_of(bytes)?;
    match number {
        KIND_FILE => Ok((Kind::File, rest)),
        KIND_DIR => Ok((Kind::Dir, rest)),
        KIND_PIPE => Ok((Kind::Pipe, rest)),
        KIND_LINK => Ok((Kind::Link, rest)),
        KIND_FIFO => Ok((Kind::Fifo, rest)),
        KIND_SOCKET => Ok((Kind::Socket, rest)),
        _ => Err(fault_at(Wrong::Variant, rest)),
    }
}

pub(crate) fn errno_number(errno: Errno) -> u8
    ensures { result ≡ errno_number errno }
{
    match errno {
        Errno::EAGAIN => ERRNO_EAGAIN,
        Errno::EBADF => ERRNO_EBADF,
        Errno::EBUSY => ERRNO_EBUSY,
        Errno::EEXIST => ERRNO_EEXIST,
        Errno::EFBIG => ERRNO_EFBIG,
        Errno::EINVAL => ERRNO_EINVAL,
        Errno::EISDIR => ERRNO_EISDIR,
        Errno::ELOOP => ERRNO_ELOOP,
        Errno::EMFILE => ERRNO_EMFILE,
        Errno::ENAMETOOLONG => ERRNO_ENAMETOOLONG,
        Errno::ENOENT => ERRNO_ENOENT,
        Errno::ENOTDIR => ERRNO_ENOTDIR,
        Errno::ENOTEMPTY => ERRNO_ENOTEMPTY,
        Errno::ENOTSUP => ERRNO_ENOTSUP,
        Errno::ENXIO => ERRNO_ENXIO,
        Errno::EPERM => ERRNO_EPERM,
        Errno::EPIPE => ERRNO_EPIPE,
        Errno::ESPIPE => ERRNO_ESPIPE,
    }
}

#[tactic(auto, unfolding(crate::specs::ReadingReplies::errno_of))]
pub(crate) fn errno_of(bytes: &[u8]) -> Result<(Errno, &[u8]), ReadError>
    ensures { Gives (λ x. (x.0, x.1.now)) result (errno_at bytes.now) }
{
    let (number, rest) = byte_of(bytes)?;
    match number {
        ERRNO_EAGAIN => Ok((Errno::EAGAIN, rest)),
        ERRNO_EBADF => Ok((Errno::EBADF, rest)),
        ERRNO_EBUSY => Ok((Errno::EBUSY, rest)),
        ERRNO_EEXIST => Ok((Errno::EEXIST, rest)),
        ERRNO_EFBIG => Ok((Errno::EFBIG, rest)),
        ERRNO_EINVAL => Ok((Errno::EINVAL, rest)),
        ERRNO_EISDIR => Ok((Errno::EISDIR, rest)),
        ERRNO_ELOOP => Ok((Errno::ELOOP, rest)),
        ERRNO_EMFILE => Ok((Errno::EMFILE, rest)),
        ERRNO_ENAMETOOLONG => Ok((Errno::ENAMETOOLONG, rest)),
        ERRNO_ENOENT => Ok((Errno::ENOENT, rest)),
        ERRNO_ENOTDIR => Ok((Errno::ENOTDIR, rest)),
        ERRNO_ENOTEMPTY => Ok((Errno::ENOTEMPTY, rest)),
        ERRNO_ENOTSUP => Ok((Errno::ENOTSUP, rest)),
        ERRNO_ENXIO => Ok((Errno::ENXIO, rest)),
        ERRNO_EPERM => Ok((Errno::EPERM, rest)),
        ERRNO_EPIPE => Ok((Errno::EPIPE, rest)),
        ERRNO_ESPIPE => Ok((Errno::ESPIPE, rest)),
        _ => Err(fault_at(Wrong::Variant, rest)),
    }
}
