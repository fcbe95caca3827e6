// What a view has noted of one inode.
ghost use Rattle.std.specs.Prelude.{◌≡◌};
ghost use Rattle.view_times.specs.Noted.{behind, merged, nothing, over};
ghost use Rattle.view_times.specs.Noted.{time_behind, time_merged, time_over};

use crate::times::{Times, later};
use fuse::Time;

/// What a view has noted of one time.
#[derive(Clone, Copy, Debug)]
pub(crate) enum Noted {
    /// Nothing.
    Nothing,
    /// That something happened at this time.
    Happened(Time),
    /// That it was set to this time.
    Set(Time),
}

/// What a view has noted of the times of one inode, each by itself.
#[derive(Clone, Copy, Debug)]
pub(crate) struct Notes {
    /// Of when it was accessed.
    pub(crate) accessed: Noted,
    /// Of when it was modified.
    pub(crate) modified: Noted,
    /// Of when it was changed.
    pub(crate) changed: Noted,
}

impl Noted {
    // What is noted where this comes behind what was noted before.
    fn behind(self, former: Noted) -> Noted
        ensures { result ≡ time_behind self former }
    {
        match self {
            Noted::Nothing => former,
            Noted::Happened(_) => self,
            Noted::Set(_) => self,
        }
    }

    // The time that the view sees, where everybody has this one.
    fn over(self, time: Time) -> Time
        ensures { result ≡ time_over self time }
    {
        match self {
            Noted::Nothing => time,
            Noted::Happened(noted) => noted,
            Noted::Set(noted) => noted,
        }
    }

    // The time that everybody has behind a commit, where everybody had this one.
    fn merged(self, time: Time) -> Time
        ensures { result ≡ time_merged self time }
    {
        match self {
            Noted::Nothing => time,
            Noted::Happened(noted) => later(noted, time),
            Noted::Set(set) => set,
        }
    }
}

impl Notes {
    // Nothing is noted of any.
    pub(crate) fn nothing() -> Notes
        ensures { result ≡ nothing }
    {
        Notes {
            accessed: Noted::Nothing,
            modified: Noted::Nothing,
            changed: Noted::Nothing,
        }
    }

    // What is noted where these come behind what was noted before.
    pub(crate) fn behind(self, former: Notes) -> Notes
        ensures { result ≡ behind self former }
    {
        Notes {
            accessed: self.accessed.behind(former.accessed),
            modified: self.modified.behind(former.modified),
            changed: self.changed.behind(former.changed),
        }
    }

    // The times that the view sees, where everybody has these.
    pub(crate) fn over(self, times: Times) -> Times
        ensures { result ≡ over self times }
    {
        Times {
            accessed: self.accessed.over(times.accessed),
            modified: self.modified.over(times.modified),
            changed: self.changed.over(times.changed),
        }
    }

    // The times that everybody has behind a commit, where everybody had these.
    pub(crate) fn merged(self, times: Times) -> Times
        ensures { result ≡ merged self times }
    {
        Times {
            accessed: self.accessed.merged(times.accessed),
            modified: self.modified.merged(times.modified),
            changed: self.changed.merged(times.changed),
        }
    }
}
