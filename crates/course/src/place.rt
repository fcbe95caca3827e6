// The directory in which a name is.
ghost use Rattle.std.specs.Prelude.{◌≡◌};
ghost use Rattle.course.specs.Hands.{bound};
ghost use Rattle.course.specs.Course.{Ran};
ghost use Rattle.course.specs.Courses.{staying};

use crate::fault::Fault;
use crate::hand::Hand;
use crate::names::look_for;
use ids::{Bytes, Num};
use machine::Machine;

/// The directory in which a name is. A root is never moved, and only looked at where something is made
/// there.
#[derive(Drop)]
pub struct Place {
    /// The path that led to it last.
    pub path: Bytes,
    /// Its number.
    pub inode: Num,
}

// Looks whether the path of a directory gives it still: it is `Stale` where that gives another object,
// or none. A root is not looked at.
pub(crate) fn check_place<K: Machine>(hand: &mut Hand<K>, place: Option<Place>) -> Result<(), Fault>
    ensures bound { bound hand.new ≡ bound hand.old }
    ensures ran { Ran hand.old.shown
        (staying hand.old.pid place) result hand.new.shown }
{
    match place {
        Some(Place { path, inode }) => look_for(hand, path, inode),
        None => Ok(()),
    }
}
