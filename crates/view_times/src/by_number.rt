// What each number stands for.
ghost use Rattle.std.specs.Prelude.{◌≡◌, ◌+◌, ◌≤◌, ◌<◌, IsOk, OnErr, OnOk, option_copied};
ghost use Rattle.model.specs.FiniteMap as map;

use heap::Heap;
use std::alloc::AllocError;
use std::collections::HashMap;
use std::hash::{BuildHasherDefault, FoldHasher};
use std::marker::Model;

/// What each number stands for, found by a hash whose seed is fixed. Contracts also see for how many
/// more there is room.
pub(crate) struct ByNumber<T> {
    pub(crate) rows: HashMap<u64, T, BuildHasherDefault<FoldHasher>, Heap>,
}

impl<T: Drop> Drop for ByNumber<T> {
    fn drop(self) {
        let ByNumber { rows: _ } = self;
    }
}

impl<T> Model for ByNumber<T> {
    ghost use Rattle.std.specs.HashMap.{spare};
    ghost use Rattle.view_times.specs.Rows.{Rows, rows_code, rows_in};

    ghost Value = { Rows T };

    ghost coded = { rows_code T.code };

    ghost view = { λ t. record {
      rows = rows_in t.rows;
      room = spare t.rows;
    } };
}

impl<T: Drop> ByNumber<T> {
    // No number. It takes no memory.
    pub(crate) fn new(heap: Heap) -> ByNumber<T>
        ensures { result.rows ≡ map.empty }
    {
        ByNumber {
            rows: HashMap::new(heap),
        }
    }

    // What a number stands for.
    pub(crate) fn get(&self, number: u64) -> Option<&T>
        ensures { option_copied result ≡ map.get self.now.rows number }
    {
        self.rows.get(&number)
    }

    // Makes room for so many numbers more. Refused memory changes nothing.
    pub(crate) fn reserve(&mut self, more: usize) -> Result<(), AllocError>
        ensures rows { self.new.rows ≡ self.old.rows }
        ensures ok { OnOk result (more ≤ self.new.room) }
        ensures room { self.old.room ≤ self.new.room }
        ensures succeeds { more ≤ self.old.room → IsOk result }
    {
        self.rows.reserve(more)
    }

    // A number stands for this from now on. Refused memory changes nothing.
    fn insert(&mut self, number: u64, row: T) -> Result<(), AllocError>
        ensures ok { OnOk result (self.new.rows ≡ map.insert self.old.rows number row) }
        ensures err { OnErr result (self.new.rows ≡ self.old.rows) }
        ensures room { self.old.room ≤ self.new.room + 1 }
        ensures succeeds { 0 < self.old.room → IsOk result }
    {
        self.rows.insert(number, row)?;
        Ok(())
    }

    // A number stands for this from now on, in room that is there. It takes no memory.
    pub(crate) fn put(&mut self, number: u64, row: T)
        requires { 0 < self.old.room }
        ensures rows { self.new.rows ≡ map.insert self.old.rows number row }
        ensures room { self.old.room ≤ self.new.room + 1 }
    {
        let put: Result<_, _> = self.insert(number, row);
        put.unwrap();
    }

    // A number stands for nothing any more. It takes no memory.
    pub(crate) fn remove(&mut self, number: u64)
        ensures rows { self.new.rows ≡ map.remove self.old.rows number }
        ensures room { self.old.room ≤ self.new.room }
    {
        self.rows.remove(&number);
    }
}
