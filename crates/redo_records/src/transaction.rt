// What is kept of a transaction that has not ended.
ghost use Rattle.std.specs.Prelude.{◌≡◌, ◌<◌, ◌-◌, ◌∷◌, ◌++◌, [], IsOk, OnOk};
ghost use Rattle.redo_records.specs.Kept.{HasPlace, no_calls, with_call, without_room};
ghost use Rattle.std.specs.Prelude.{Some};

use heap::Heap;
use ids::Entry;
use std::alloc::AllocError;
use std::marker::Model;

// Entries of calls, in order. Contracts also see for how many more there is room.
#[derive(Drop)]
pub(crate) struct Calls {
    entries: Vec<Entry, Heap>,
}

impl Model for Calls {
    ghost use Rattle.std.specs.Prelude.{◌-◌, vec_capacity, vec_len};
    ghost use Rattle.redo_records.specs.Pending.{Pending};

    ghost Value = { Pending };

    ghost view = { λ c. record {
      entries = c.entries.items;
      room = vec_capacity c.entries - vec_len c.entries;
    } };
}

impl Calls {
    // None. It takes no memory.
    pub(crate) fn new(heap: Heap) -> Calls
        ensures { result ≡ record { entries = []; room = 0 } }
    {
        Calls {
            entries: Vec::new(heap),
        }
    }

    // One more, for which there is room.
    fn push(&mut self, entry: Entry)
        requires { 0 < self.old.room }
        ensures { self.new
            ≡ record { entries = self.old.entries ++ entry ∷ []; room = self.old.room - 1 } }
    {
        self.entries.push_reserved(entry);
    }

    // Makes room for one more. Refused memory changes nothing.
    fn reserve(&mut self) -> Result<(), AllocError>
        ensures entries { self.new.entries ≡ self.old.entries }
        ensures ok { OnOk result (0 < self.new.room) }
        ensures succeeds { 0 < self.old.room → IsOk result }
    {
        self.entries.reserve(1)
    }

    // All of them.
    pub(crate) fn into_entries(self) -> Vec<Entry, Heap>
        ensures { result.items ≡ self.entries }
    {
        let Calls { entries } = self;
        entries
    }
}

// A transaction.
#[derive(Drop)]
pub(crate) enum Transaction {
    // It lives: the entries of its changing calls.
    Live(Calls),
    // It is doomed.
    Doomed,
}

impl Transaction {
    // One that has begun, or begun anew. It takes no memory.
    pub(crate) fn new(heap: Heap) -> Transaction
        ensures { result ≡ no_calls }
    {
        Transaction::Live(Calls::new(heap))
    }

    // One changing call more, if it lives.
    pub(crate) fn push(&mut self, entry: Entry)
        requires { HasPlace (Some self.old) }
        ensures { self.new ≡ with_call entry self.old }
    {
        match self {
            Transaction::Live(calls) => calls.push(entry),
            Transaction::Doomed => drop(entry),
        }
    }

    // Makes room for one changing call more, if it lives. Refused memory changes nothing.
    pub(crate) fn reserve(&mut self) -> Result<(), AllocError>
        ensures entries { without_room self.new ≡ without_room self.old }
        ensures ok { OnOk result (HasPlace (Some self.new)) }
        ensures succeeds { HasPlace (Some self.old) → IsOk result }
    {
        match self {
            Transaction::Live(calls) => calls.reserve(),
            Transaction::Doomed => Ok(()),
        }
    }
}
