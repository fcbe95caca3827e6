// Steps of plans that ask nothing.
ghost use Rattle.std.specs.Prelude.{not};
ghost use Rattle.model.specs.Plan.{refuse_if, or_refuse, ELOOP, ENOTDIR};
ghost use Rattle.model.specs.Walks.{is_directory, is_link};
ghost use Rattle.look.specs.Asked.{Tells};

use ids::{Errno, Kind, Num, Refusal};

/// A value that has to be there.
pub fn or_refuse<T: Drop>(errno: Errno, value: Option<T>) -> Result<T, Refusal>
    ensures { Tells (or_refuse errno value) result }
{
    match value {
        Some(value) => Ok(value),
        None => Err(Refusal::Errno(errno)),
    }
}

/// A place that must not be a symbolic link, since none is followed.
pub fn must_not_be_link(place: &(Num, Option<Kind>)) -> Result<(), Refusal>
    ensures { Tells (refuse_if (is_link place.now) ELOOP) result }
{
    match place.1 {
        Some(Kind::Link) => Err(Refusal::Errno(Errno::ELOOP)),
        _ => Ok(()),
    }
}

/// A place that has to be a directory.
pub fn must_be_directory(place: &(Num, Option<Kind>)) -> Result<(), Refusal>
    ensures { Tells (refuse_if (not (is_directory place.now)) ENOTDIR) result }
{
    match place.1 {
        Some(Kind::Dir) => Ok(()),
        _ => Err(Refusal::Errno(Errno::ENOTDIR)),
    }
}
