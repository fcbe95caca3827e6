// What each number stands for.
ghost use Rattle.std.specs.Prelude.{◌≡◌, ◌+◌, ◌≤◌, ◌<◌, IsOk, OnErr, OnOk, option_copied};
ghost use Rattle.model.specs.FiniteMap as map;
ghost use Rattle.mount_tables.specs.Rows.{replaced, rows_in};
ghost use Rattle.std.specs.HashMap.{spare};

use heap::Heap;
use std::alloc::AllocError;
use std::collections::HashMap;
use std::hash::{BuildHasherDefault, FoldHasher};
use std::marker::Model;

/// What each number stands for, found by a hash whose seed is fixed. Contracts also see for how many
/// more there is room.
pub(crate) struct ByNumber<T> {
    pub(crate) rows: HashMap<u64, T, BuildHasherDefault<FoldHasher>, Heap>,
}

impl<T: Drop> Drop for ByNumber<T> {
    fn drop(self) {
        let ByNumber { rows: _ } = self;
    }
}

impl<T> Model for ByNumber<T> {
    ghost use Rattle.std.specs.HashMap.{spare};
    ghost use Rattle.mount_tables.specs.Rows.{Rows, rows_code, rows_in};

    ghost Value = { Rows T };

    ghost coded = { rows_code T.code };

    ghost view = { λ t. record {
      rows = rows_in t.rows;
      room = spare t.rows;
    } };
}

// Puts this in the place of what a number stands for, if it stands for anything.
fn set_in<T: Drop>(
    rows: &mut HashMap<u64, T, BuildHasherDefault<FoldHasher>, Heap>,
    number: u64,
    row: T,
)
    ensures rows { rows_in rows.new ≡ replaced number row (map.get (rows_in rows.old) number) (rows_in rows.old) }
    ensures room { spare rows.new ≡ spare rows.old }
{
    match rows.get_mut(&number) {
        Some(place) => *place = row,
        None => drop(row),
    }
}

impl<T: Drop> ByNumber<T> {
    // No number. It takes no memory.
    pub(crate) fn new(heap: Heap) -> ByNumber<T>
        ensures { result.rows ≡ map.empty }
    {
        ByNumber {
            rows: HashMap::new(heap),
        }
    }

    // What a number stands for.
    pub(crate) fn get(&self, number: u64) -> Option<&T>
        ensures { option_copied result ≡ map.get self.now.rows number }
    {
        self.rows.get(&number)
    }

    // How many numbers stand for something.
    pub(crate) fn len(&self) -> usize
        ensures { result ≡ map.len self.now.rows }
    {
        self.rows.len()
    }

    // Makes room for one number more. Refused memory changes nothing.
    pub(crate) fn reserve(&mut self) -> Result<(), AllocError>
        ensures rows { self.new.rows ≡ self.old.rows }
        ensures ok { OnOk result (0 < self.new.room) }
        ensures room { self.old.room ≤ self.new.room }
        ensures succeeds { 0 < self.old.room → IsOk result }
    {
        self.rows.reserve(1)
    }

    // A number stands for this from now on. Refused memory changes nothing.
    pub(crate) fn insert(&mut self, number: u64, row: T) -> Result<(), AllocError>
        ensures ok { OnOk result (self.new.rows ≡ map.insert self.old.rows number row) }
        ensures err { OnErr result (self.new.rows ≡ self.old.rows) }
        ensures room { self.old.room ≤ self.new.room + 1 }
        ensures succeeds { 0 < self.old.room → IsOk result }
    {
        self.rows.insert(number, row)?;
        Ok(())
    }

    // A number stands for this from now on, if it stood for anything. It takes no memory.
    pub(crate) fn set(&mut self, number: u64, row: T)
        ensures rows { self.new.rows
            ≡ replaced number row (map.get self.old.rows number) self.old.rows }
        ensures room { self.new.room ≡ self.old.room }
    {
        set_in(&mut self.rows, number, row);
    }

    // A number stands for nothing any more. It gives what it stood for. It takes no memory.
    pub(crate) fn remove(&mut self, number: u64) -> Option<T>
        ensures rows { self.new.rows ≡ map.remove self.old.rows number }
        ensures row { result ≡ map.get self.old.rows number }
        ensures room { self.old.room ≤ self.new.room }
    {
        self.rows.remove(&number)
    }
}
