// Steps of plans that ask nothing.
ghost use Rattle.std.specs.Prelude.{◌≡◌, ◌&&◌, ◌||◌, not};
ghost use Rattle.model.specs.Plan.{refuse_if, ENOTDIR, EBUSY, EINVAL, EISDIR};
ghost use Rattle.model.specs.Paths.{is_empty, is_below};
ghost use Rattle.model.specs.Walks.{parsed, is_directory, is_link};
ghost use Rattle.model.specs.Plans.{absent, is_special};
ghost use Rattle.look.specs.Asked.{Tells, TellsIn};

use heap::Heap;
use ids::{Bytes, Errno, Kind, Num, Refusal};
use look::Look;
use path::Path;

/// A test: this refusal where it holds.
pub fn refuse_if(refused: bool, errno: Errno) -> Result<(), Refusal>
    ensures { Tells (refuse_if refused errno) result }
{
    if refused {
        Err(Refusal::Errno(errno))
    } else {
        Ok(())
    }
}

/// The names of a path, or why it is none.
pub fn parsed<L: Look>(look: &L, heap: Heap, path: &Bytes) -> Result<Path, Refusal>
    ensures { let k = L.state look.now in TellsIn k (parsed k.bounds.path_bytes path.now) result }
{
    Path::parse(heap, path.as_slice(), look.path_limit())
}

// A name that must not be there.
pub(crate) fn absent(found: Option<(Num, Option<Kind>)>) -> Result<(), Refusal>
    ensures { Tells (absent found) result }
{
    match found {
        Some(_) => Err(Refusal::Errno(Errno::EEXIST)),
        None => Ok(()),
    }
}

/// A place that must not be a directory: this refusal where it is.
pub fn must_not_be_directory(place: &(Num, Option<Kind>), errno: Errno) -> Result<(), Refusal>
    ensures { Tells (refuse_if (is_directory place.now) errno) result }
{
    match place.1 {
        Some(Kind::Dir) => Err(Refusal::Errno(errno)),
        _ => Ok(()),
    }
}

/// A place that must not be a FIFO or a socket: this refusal where it is.
pub fn must_not_be_special(place: &(Num, Option<Kind>), errno: Errno) -> Result<(), Refusal>
    ensures { Tells (refuse_if (is_special place.now) errno) result }
{
    match place.1 {
        Some(Kind::Fifo) | Some(Kind::Socket) => Err(Refusal::Errno(errno)),
        _ => Ok(()),
    }
}

// A place that has to be a symbolic link.
pub(crate) fn must_be_link(place: &(Num, Option<Kind>)) -> Result<(), Refusal>
    ensures { Tells (refuse_if (not (is_link place.now)) EINVAL) result }
{
    match place.1 {
        Some(Kind::Link) => Ok(()),
        _ => Err(Refusal::Errno(Errno::EINVAL)),
    }
}

// The root is not renamed, and nothing to it.
pub(crate) fn must_not_be_root(from: &Path, to: &Path) -> Result<(), Refusal>
    ensures { Tells (refuse_if (is_empty from.now || is_empty to.now) EBUSY) result }
{
    refuse_if(
        from.components().is_empty() || to.components().is_empty(),
        Errno::EBUSY,
    )
}

// A directory does not move below itself.
pub(crate) fn must_not_go_below(
    what: &(Num, Option<Kind>),
    from: &Path,
    to: &Path,
) -> Result<(), Refusal>
    ensures { Tells (refuse_if (is_directory what.now && is_below from.now to.now) EINVAL) result }
{
    refuse_if(is_directory(what) && to.is_below(from), Errno::EINVAL)
}

// A file does not replace a directory.
pub(crate) fn must_be_no_directory_for(
    what: &(Num, Option<Kind>),
    old: &(Num, Option<Kind>),
) -> Result<(), Refusal>
    ensures { Tells
        (refuse_if (not (is_directory what.now) && is_directory old.now) EISDIR) result }
{
    refuse_if(!is_directory(what) && is_directory(old), Errno::EISDIR)
}

// A directory replaces none but a directory.
pub(crate) fn must_be_directory_for(
    what: &(Num, Option<Kind>),
    old: &(Num, Option<Kind>),
) -> Result<(), Refusal>
    ensures { Tells
        (refuse_if (is_directory what.now && not (is_directory old.now)) ENOTDIR) result }
{
    refuse_if(is_directory(what) && !is_directory(old), Errno::ENOTDIR)
}

// Whether a place is a directory.
pub(crate) fn is_directory(place: &(Num, Option<Kind>)) -> bool
    ensures { result ≡ is_directory place.now }
{
    matches!(place.1, Some(Kind::Dir))
}
