// What one number stands for.
ghost use Rattle.std.specs.Prelude.{◌≡◌, ◌-◌};
ghost use Rattle.nodes.specs.Tables.{more};

use crate::directory_entry::DirectoryEntry;
use ids::{Kind, Num};

/// What the number of a node stands for.
#[derive(Debug)]
pub struct Node {
    /// Where it was looked up.
    pub entry: DirectoryEntry,
    /// The node of the root below which that is.
    pub root: u64,
    /// The object's number.
    pub inode: Num,
    /// Which of the objects that had this number it is: how many were made with it by then.
    pub birth: u64,
    /// What it was when it was looked up. An object does not change its kind.
    pub kind: Kind,
    /// How many look-ups are not forgotten.
    pub lookups: u64,
}

impl Drop for Node {
    fn drop(self) {
        let Node {
            entry: _,
            root: _,
            inode: _,
            birth: _,
            kind: _,
            lookups: _,
        } = self;
    }
}

impl Node {
    // It is looked up once more. The count stands still at its largest number.
    pub(crate) fn count(&mut self)
        ensures { self.new ≡ record self.old { lookups = more self.old.lookups } }
    {
        self.lookups = self.lookups.saturating_add(1);
    }

    // So many look-ups are forgotten, of which it has as many.
    pub(crate) fn forget(&mut self, count: u64)
        ensures { self.new ≡ record self.old { lookups = self.old.lookups - count } }
    {
        self.lookups = self.lookups.saturating_sub(count);
    }

    // It has moved.
    pub(crate) fn put(&mut self, entry: DirectoryEntry)
        ensures { self.new ≡ record self.old { entry = entry } }
    {
        self.entry = entry;
    }
}
