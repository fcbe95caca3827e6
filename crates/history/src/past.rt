// The entries that were forgotten, as clauses see them: nothing of them is stored.
ghost use Rattle.std.specs.Prelude.{◌≡◌, ◌∷◌, ◌++◌, [], length};
ghost use Rattle.history.specs.Past.{counts_in, entries_in};

use heap::Heap;
use ids::Entry;
use std::snapshot::Snapshot;

/// What was forgotten, in order. It takes one byte, however much there was.
pub(crate) enum Past {
    /// Nothing.
    Start,
    /// These entries more.
    Then(Snapshot<Past>, Snapshot<Vec<Entry, Heap>>),
}

impl Drop for Past {
    fn drop(self) {
        match self {
            Past::Start => {}
            Past::Then(_, _) => {}
        }
    }
}

impl Past {
    /// These entries more. It takes no memory.
    pub(crate) fn add(&mut self, entries: &Vec<Entry, Heap>)
        ensures entries { entries_in self.new ≡ entries_in self.old ++ entries.now.items }
        ensures counts { counts_in self.new ≡ counts_in self.old ++ length entries.now.items ∷ [] }
    {
        let before = Snapshot::of(&*self);
        *self = Past::Then(before, Snapshot::of(entries));
    }
}
