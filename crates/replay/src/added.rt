// What a checker was given, as clauses see it: nothing of it is stored.
ghost use Rattle.std.specs.Prelude.{◌≡◌, ◌++◌, []};
ghost use Rattle.replay.specs.Added.{entries_in, setup_in};

use crate::beginning::Beginning;
use ids::{Bounds, Entry as Listed, Priority};
use std::snapshot::Snapshot;

/// What a kernel began with, and entries, in order. It takes one byte, however many there were.
pub(crate) enum Added {
    /// No process and no entry, within these bounds.
    Start(Snapshot<Bounds>),
    /// One more process, with its priority.
    Process(Snapshot<Added>, Snapshot<Priority>),
    /// One more entry.
    Entry(Snapshot<Added>, Snapshot<Listed>),
}

impl Drop for Added {
    fn drop(self) {
        match self {
            Added::Start(_) => {}
            Added::Process(_, _) => {}
            Added::Entry(_, _) => {}
        }
    }
}

impl Added {
    /// This beginning, and no entry.
    pub(crate) fn of(beginning: &Beginning<'_>) -> Added
        ensures setup { setup_in result ≡ beginning.now }
        ensures entries { entries_in result ≡ [] }
    {
        let mut added = Added::Start(Snapshot::of(&beginning.bounds));
        for priority in beginning.priorities {
            let before = Snapshot::of(&added);
            added = Added::Process(before, Snapshot::of(priority));
        }
        added
    }

    /// These entries more. It takes no memory.
    pub(crate) fn add(&mut self, entries: &[Listed])
        ensures entries { entries_in self.new ≡ entries_in self.old ++ entries.now }
        ensures setup { setup_in self.new ≡ setup_in self.old }
    {
        for entry in entries {
            let before = Snapshot::of(&*self);
            *self = Added::Entry(before, Snapshot::of(entry));
        }
    }
}
