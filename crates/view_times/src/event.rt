// What a request does to the times of one inode.
ghost use Rattle.std.specs.Prelude.{◌≡◌};
ghost use Rattle.view_times.specs.Events.{notes_of, set_if};

use crate::noted::{Noted, Notes};
use fuse::Time;

/// What a request does to the times of one inode.
#[derive(Clone, Copy, Debug)]
pub enum Event {
    /// It is made: it is accessed, modified and changed now.
    Made,
    /// Its bytes, or its names, are changed: it is modified and changed now.
    Modified,
    /// Only its status is changed, as by a new mode or by a name more: it is changed now.
    StatusChanged,
    /// It is set when it was accessed, when it was modified, or both. It is changed now.
    TimesSet {
        /// The time to which it is set when it was accessed.
        accessed: Option<Time>,
        /// The time to which it is set when it was modified.
        modified: Option<Time>,
    },
}

// What is noted of a time that may be set.
fn set_if(time: Option<Time>) -> Noted
    ensures { result ≡ set_if time }
{
    match time {
        Some(time) => Noted::Set(time),
        None => Noted::Nothing,
    }
}

impl Event {
    // What it notes, where it happens now.
    pub(crate) fn notes(self, now: Time) -> Notes
        ensures { result ≡ notes_of self now }
    {
        let noted = Noted::Happened(now);
        match self {
            Event::Made => Notes {
                accessed: noted,
                modified: noted,
                changed: noted,
            },
            Event::Modified => Notes {
                accessed: Noted::Nothing,
                modified: noted,
                changed: noted,
            },
            Event::StatusChanged => Notes {
                accessed: Noted::Nothing,
                modified: Noted::Nothing,
                changed: noted,
            },
            Event::TimesSet { accessed, modified } => Notes {
                accessed: set_if(accessed),
                modified: set_if(modified),
                changed: noted,
            },
        }
    }
}
