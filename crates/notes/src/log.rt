// The changes of a transaction as clauses see them: nothing of them is stored.
ghost use Rattle.std.specs.Prelude.{◌≡◌, ◌++◌, ◌∷◌, []};
ghost use Rattle.notes.specs.Log.{effect};
ghost use Rattle.notes.specs.Log.{effects_in};

use heap::Heap;
use ids::{Edit, Nums};
use std::snapshot::Snapshot;

/// What calls have changed, in order. It takes one byte, however many there were.
pub enum Log {
    /// No call.
    Start,
    /// One more call: its new numbers, and its edits.
    Then(Snapshot<Log>, Snapshot<Nums>, Snapshot<Vec<Edit, Heap>>),
}

impl Drop for Log {
    fn drop(self) {
        match self {
            Log::Start => {}
            Log::Then(_, _, _) => {}
        }
    }
}

impl Log {
    /// One more call, with the new numbers of what it makes and its edits. It takes no memory.
    pub fn add(&mut self, chosen: &Nums, edits: Snapshot<Vec<Edit, Heap>>)
        ensures { effects_in self.new
            ≡ effects_in self.old ++ effect chosen.now edits.entry.value.items ∷ [] }
    {
        let before = Snapshot::of(&*self);
        *self = Log::Then(before, Snapshot::of(chosen), edits);
    }
}
