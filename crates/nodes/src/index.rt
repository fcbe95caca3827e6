// Which number each entry leads to.
ghost use Rattle.std.specs.Prelude.{◌≡◌, ◌+◌, ◌≤◌, ◌<◌, IsOk, OnErr, OnOk};
ghost use Rattle.model.specs.FiniteMap as map;
ghost use Rattle.std.specs.HashMap.{spare};
ghost use Rattle.nodes.specs.Parts.{numbers_in};
ghost use Rattle.nodes.specs.Tables.{leading};

use crate::directory_entry::DirectoryEntry;
use heap::Heap;
use std::alloc::AllocError;
use std::collections::HashMap;
use std::hash::{BuildHasherDefault, FoldHasher};
use std::marker::Model;

// Numbers under their entries, found by a hash whose seed is fixed.
type Numbers = HashMap<DirectoryEntry, u64, BuildHasherDefault<FoldHasher>, Heap>;

/// Which number each entry leads to. Contracts also see for how many more there is room.
pub(crate) struct Index {
    numbers: Numbers,
}

impl Drop for Index {
    fn drop(self) {
        let Index { numbers: _ } = self;
    }
}

impl Model for Index {
    ghost use Rattle.std.specs.HashMap.{spare};
    ghost use Rattle.model.specs.FiniteMap as map;
    ghost use Rattle.nodes.specs.DirectoryEntries.{entry_cmp};
    ghost use Rattle.nodes.specs.Parts.{Numbered, numbered_code};

    ghost Value = { Numbered };

    ghost coded = { numbered_code };

    ghost view = { λ i. record {
      numbers = map.from_entries {R = entry_cmp} i.numbers.entries;
      room = spare i.numbers;
    } };
}

// An entry that leads to a number leads to this one.
fn lead_in(numbers: &mut Numbers, entry: &DirectoryEntry, number: u64)
    ensures numbers { numbers_in numbers.new
        ≡ leading entry.now number (map.get (numbers_in numbers.old) entry.now)
        (numbers_in numbers.old) }
    ensures room { spare numbers.new ≡ spare numbers.old }
{
    match numbers.get_mut(entry) {
        Some(former) => *former = number,
        None => {}
    }
}

impl Index {
    // No entry. It takes no memory.
    pub(crate) fn new(heap: Heap) -> Index
        ensures { result.numbers ≡ map.empty }
    {
        Index {
            numbers: HashMap::new(heap),
        }
    }

    // The number to which an entry leads.
    pub(crate) fn get(&self, entry: &DirectoryEntry) -> Option<u64>
        ensures { result ≡ map.get self.now.numbers entry.now }
    {
        self.numbers.get(entry).copied()
    }

    // Makes room for one entry more. Refused memory changes nothing.
    pub(crate) fn reserve(&mut self) -> Result<(), AllocError>
        ensures numbers { self.new.numbers ≡ self.old.numbers }
        ensures ok { OnOk result (0 < self.new.room) }
        ensures room { self.old.room ≤ self.new.room }
        ensures succeeds { 0 < self.old.room → IsOk result }
    {
        self.numbers.reserve(1)
    }

    // An entry leads to a number. Refused memory changes nothing.
    pub(crate) fn insert(&mut self, entry: DirectoryEntry, number: u64) -> Result<(), AllocError>
        ensures ok { OnOk result (self.new.numbers ≡ map.insert self.old.numbers entry number) }
        ensures err { OnErr result (self.new.numbers ≡ self.old.numbers) }
        ensures room { self.old.room ≤ self.new.room + 1 }
        ensures succeeds { 0 < self.old.room → IsOk result }
    {
        self.numbers.insert(entry, number)?;
        Ok(())
    }

    // An entry that leads to a number leads to this one. It takes no memory.
    pub(crate) fn lead(&mut self, entry: &DirectoryEntry, number: u64)
        ensures numbers { self.new.numbers
            ≡ leading entry.now number (map.get self.old.numbers entry.now) self.old.numbers }
        ensures room { self.new.room ≡ self.old.room }
    {
        lead_in(&mut self.numbers, entry, number);
    }

    // An entry leads nowhere any more. It takes no memory.
    pub(crate) fn remove(&mut self, entry: &DirectoryEntry)
        ensures numbers { self.new.numbers ≡ map.remove self.old.numbers entry.now }
        ensures room { self.old.room ≤ self.new.room }
    {
        self.numbers.remove(entry);
    }
}
