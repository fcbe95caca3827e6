//! The history of a kernel: the entries of all operations, in order, up to a limit.
#![tactic(auto)]

ghost use Rattle.std.specs.Prelude.{◌≡◌, ◌<◌, ◌≤◌, ◌↔◌, ◌+◌, ◌^◌, IfOk, IsErr, IfErr, OnOk, OnErr};
ghost use Rattle.std.specs.Prelude.{[], ◌∷◌, ◌++◌, length, sum, true, false};
ghost use Rattle.history.specs.Log.{all_forgotten, kept};
ghost use Rattle.ids.specs.Bounds.{bounds_of, given_by_default};
ghost use Rattle.ids.specs.declared.limits.TheConstants.{LARGEST_FILE};

mod past;

use crate::past::Past;
use heap::Heap;
use ids::{Bounds, Entry, Limits, Priority};
use std::alloc::AllocError;
use std::marker::Model;

/// The entries so far, the priorities that the first processes have, how many entries may be
/// kept, and the kernel's bounds. The memory of all places is taken when the history is made, so that an entry that has a
/// place needs none. Entries that are forgotten give their memory and their places back; clauses
/// go on to speak of them.
pub struct History {
    past: Past,
    forgotten: u64,
    entries: Vec<Entry, Heap>,
    priorities: Vec<Priority, Heap>,
    limits: Limits,
}

impl Drop for History {
    fn drop(self) {
        let History {
            past: _,
            forgotten: _,
            entries: _,
            priorities: _,
            limits: _,
        } = self;
    }
}

impl Model for History {
    ghost use Rattle.ids.specs.Bounds.{bounds_of};
    ghost use Rattle.ids.specs.declared.limits.TheConstants.{LARGEST_FILE};
    ghost use Rattle.std.specs.Prelude.{◌≡◌, ◌<◌, ◌≤◌, ◌^◌, ◌++◌, sum, vec_len, vec_capacity};
    ghost use Rattle.history.specs.Log.{Log};
    ghost use Rattle.history.specs.Past.{counts_in, entries_in};

    ghost Value = { Log };

    ghost view = { λ h. record {
      entries = entries_in h.past ++ h.entries.items;
      priorities = h.priorities.items;
      limit = h.limits.entries;
      forgotten = counts_in h.past;
      bounds = bounds_of h.limits;
    } };

    ghost invariant = { λ h. (vec_len h.entries ≤ h.limits.entries) × (h.limits.entries ≤ vec_capacity h.entries)
        × (h.forgotten ≡ sum (counts_in h.past)) × (h.forgotten < 2 ^ 63) × (h.limits.entries < 2 ^ 63)
        × (h.limits.file_bytes ≤ LARGEST_FILE) };
}

// The most entries that are ever forgotten, and the most that can be kept.
const MOST_FORGOTTEN: u64 = (1 << 63) - 1;

impl History {
    /// No entries, with the memory of `limit` of them, of a kernel with the bounds where none are given
    /// ([`ids::Bounds::given_by_default`]). Refused memory gives nothing.
    pub fn new(heap: Heap, priorities: &[Priority], limit: usize) -> Result<History, AllocError>
        ensures empty { IfOk result (λ h. h.entries ≡ []) }
        ensures priorities { IfOk result (λ h. h.priorities ≡ priorities.now) }
        ensures limit { IfOk result (λ h. h.limit ≡ limit) }
        ensures whole { IfOk result (λ h. h.forgotten ≡ []) }
        ensures bounds { IfOk result (λ h. h.bounds ≡ given_by_default) }
    {
        History::with_limits(heap, priorities, Limits::of_entries(limit))
    }

    /// No entries, with the memory of `limits.entries` of them, of a kernel with these limits.
    /// Refused memory gives nothing.
    pub fn with_limits(
        heap: Heap,
        priorities: &[Priority],
        limits: Limits,
    ) -> Result<History, AllocError>
        requires { limits.file_bytes ≤ LARGEST_FILE }
        ensures empty { IfOk result (λ h. h.entries ≡ []) }
        ensures priorities { IfOk result (λ h. h.priorities ≡ priorities.now) }
        ensures limit { IfOk result (λ h. h.limit ≡ limits.entries) }
        ensures whole { IfOk result (λ h. h.forgotten ≡ []) }
        ensures bounds { IfOk result (λ h. h.bounds ≡ bounds_of limits) }
    {
        // Of more entries no allocator has the memory.
        if limits.entries as u64 > MOST_FORGOTTEN {
            return Err(AllocError);
        }
        Ok(History {
            past: Past::Start,
            forgotten: 0,
            entries: Vec::with_capacity(heap, limits.entries)?,
            priorities: Vec::from_slice(heap, priorities)?,
            limits,
        })
    }

    /// Adds an entry behind the others. It takes no memory; the entry is given back, and nothing
    /// has changed, exactly where as many are kept as may be.
    pub fn push(&mut self, entry: Entry) -> Result<(), Entry>
        ensures exactly { IsErr result ↔ (self.old.limit ≤ length (kept self.old)) }
        ensures ok { OnOk result
            (self.new ≡ record self.old { entries = self.old.entries ++ entry ∷ [] }) }
        ensures returned { IfErr result (λ e. e ≡ entry) }
        ensures unchanged { OnErr result (self.new ≡ self.old) }
    {
        if self.entries.len() >= self.limits.entries {
            return Err(entry);
        }
        self.entries.push(entry).unwrap();
        Ok(())
    }

    /// Adds an entry that has a place. It takes no memory.
    pub fn push_placed(&mut self, entry: Entry)
        requires { length (kept self.old) < self.old.limit }
        ensures { self.new ≡ record self.old { entries = self.old.entries ++ entry ∷ [] } }
    {
        let _ = self.push(entry);
    }

    /// Forgets the entries that are kept: their memory is given back, and so are their places. It
    /// takes no memory. False, and nothing has changed, exactly where 2^63 entries or more would be
    /// forgotten then.
    pub fn forget(&mut self) -> bool
        ensures exactly { (result ≡ true) ↔ (length self.old.entries < 2 ^ 63) }
        ensures yes { result ≡ true → self.new ≡ all_forgotten self.old }
        ensures no { result ≡ false → self.new ≡ self.old }
    {
        if self.entries.len() as u64 > MOST_FORGOTTEN - self.forgotten {
            return false;
        }
        self.past.add(&self.entries);
        self.forgotten += self.entries.len() as u64;
        self.entries.clear();
        true
    }

    /// How many entries were ever made: those that were forgotten, and those that are kept.
    pub fn count(&self) -> u64
        ensures value { result ≡ length self.now.entries }
        ensures room { result + 1 < 2 ^ 64 }
    {
        self.forgotten + self.entries.len() as u64
    }

    /// How many entries were forgotten: those that are kept stand behind so many.
    pub fn forgotten(&self) -> u64
        ensures value { result ≡ sum self.now.forgotten }
        ensures room { result < 2 ^ 63 }
    {
        self.forgotten
    }

    /// The entries that are kept, in order: all, where none was forgotten.
    pub fn entries(&self) -> &[Entry]
        ensures kept { result.now ≡ kept self.now }
        ensures whole { self.now.forgotten ≡ [] → result.now ≡ self.now.entries }
    {
        self.entries.as_slice()
    }

    /// The priorities of the processes made at the start: of process 1, of process 2, and so on.
    pub fn priorities(&self) -> &[Priority]
        ensures { result.now ≡ self.now.priorities }
    {
        self.priorities.as_slice()
    }

    /// How many entries may be kept. There are never more.
    pub fn limit(&self) -> usize
        ensures value { result ≡ self.now.limit }
        ensures within { length (kept self.now) ≤ result }
    {
        self.limits.entries
    }

    /// What the calls of the kernel keep within.
    pub fn bounds(&self) -> Bounds
        ensures value { result ≡ self.now.bounds }
        ensures small { result.file_bytes ≤ LARGEST_FILE }
    {
        self.limits.bounds()
    }

    /// The most bytes that a file of the kernel may have.
    pub fn largest_file(&self) -> u64
        ensures value { result ≡ self.now.bounds.file_bytes }
        ensures small { result ≤ LARGEST_FILE }
    {
        self.limits.file_bytes
    }
}
