// A map from numbers to values: a vector in the order of the numbers.
ghost use Rattle.std.specs.Prelude.{◌≡◌, ◌≢◌, ◌<◌, ◌≤◌, ℕ, None, IsTrue, MatchResult, length, IfOk, OnErr, OnOk, option_copied};
ghost use Rattle.std.specs.Ordering.{nat_cmp};
ghost use Rattle.model.specs.FiniteMap as map;
ghost use Rattle.plain_kernel.specs.Indices.{IsIndexOf, IsIndexFor, rank};

use heap::Heap;
use ids::Num;
use std::alloc::AllocError;
use std::marker::Model;
use std::mem::replace;

/// What each number stands for: a vector in the order of the numbers, in which one is found by halving.
pub struct Table<T> {
    slots: Vec<(Num, T), Heap>,
}

impl<T: Drop> Drop for Table<T> {
    fn drop(self) {
        let Table { slots: _ } = self;
    }
}

impl<T> Model for Table<T> {
    ghost use Rattle.std.specs.Prelude.{IsTrue};
    ghost use Rattle.std.specs.Ordering.{nat_cmp};
    ghost use Rattle.std.specs.Coded.{coded_ℕ};
    ghost use Rattle.model.specs.FiniteMap as map;

    ghost Value = { map.FinMap nat_cmp T };

    ghost coded = { map.code coded_ℕ T.code };

    ghost view = { λ t. map.from_sorted {R = nat_cmp} t.slots.items };

    ghost invariant = { λ t. IsTrue (map.is_sorted nat_cmp t.slots.items) };
}

impl<T: Drop> Table<T> {
    /// Nothing. It takes no memory.
    pub fn new(heap: Heap) -> Table<T>
        ensures { result ≡ map.empty }
    {
        Table {
            slots: Vec::new(heap),
        }
    }

    /// What a number stands for.
    pub fn get(&self, num: Num) -> Option<&T>
        ensures { option_copied result ≡ map.get self.now num }
    {
        match index_of(self.slots.as_slice(), num) {
            Ok(index) => Some(&self.slots[index].1),
            Err(_index) => None,
        }
    }

    // A number gets a value. It gives the one before. Refused memory changes nothing.
    pub(crate) fn insert(&mut self, num: Num, value: T) -> Result<Option<T>, AllocError>
        ensures changed { OnOk result (self.new ≡ map.insert self.old num value) }
        ensures before { IfOk result (λ before. before ≡ map.get self.old num) }
        ensures err { OnErr result (self.new ≡ self.old) }
    {
        match index_of(self.slots.as_slice(), num) {
            Ok(index) => Ok(Some(replace(&mut self.slots[index].1, value))),
            Err(index) => {
                self.slots.insert(index, (num, value))?;
                Ok(None)
            }
        }
    }

    /// A number gets a value.
    pub fn set(&mut self, num: Num, value: T) -> Result<(), AllocError>
        ensures { OnOk result (self.new ≡ map.insert self.old num value) }
    {
        drop(self.insert(num, value)?);
        Ok(())
    }

    /// A number stands for nothing any more. It gives the value before.
    pub fn remove(&mut self, num: Num) -> Option<T>
        ensures changed { self.new ≡ map.remove self.old num }
        ensures before { result ≡ map.get self.old num }
    {
        match index_of(self.slots.as_slice(), num) {
            Ok(index) => {
                let (_num, value) = self.slots.remove(index);
                Some(value)
            }
            Err(_index) => None,
        }
    }

    // The lowest number from this one on that stands for nothing. It is found by halving: the numbers
    // rise, so one stands as far behind the first as its place only where all between are there.
    pub(crate) fn free_from(&self, first: u32) -> usize
        ensures from { first ≤ result }
        ensures free { map.get self.now result ≡ None }
        ensures taken { (n : ℕ) → first ≤ n → n < result → map.get self.now n ≢ None }
    {
        let first = first as usize;
        let slots = self.slots.as_slice();
        let start = place_of(slots, Num(first));
        let mut low = start;
        let mut high = slots.len();
        while low < high {
            let middle = low + (high - low) / 2;
            let num = slots[middle].0;
            if num.0 - first == middle - start {
                low = middle + 1;
            } else {
                high = middle;
            }
        }
        first + (low - start)
    }

    /// All numbers with their values, rising.
    pub fn as_slice(&self) -> &[(Num, T)]
        ensures { result.now ≡ map.entries self.now }
    {
        self.slots.as_slice()
    }
}

impl Table<Num> {
    // A copy.
    pub(crate) fn try_clone(&self, heap: Heap) -> Result<Table<Num>, AllocError>
        ensures { IfOk result (λ copy. copy ≡ self.now) }
    {
        Ok(Table {
            slots: Vec::from_slice(heap, self.slots.as_slice())?,
        })
    }
}

// How many numbers are lower.
fn place_of<T>(slots: &[(Num, T)], num: Num) -> usize
    requires { IsTrue (map.is_sorted nat_cmp slots.now) }
    ensures value { result ≡ rank nat_cmp num slots.now }
    ensures within { result ≤ length slots.now }
{
    match index_of(slots, num) {
        Ok(index) => index,
        Err(index) => index,
    }
}

// Where a number stands, or where it would, by halving.
fn index_of<T>(slots: &[(Num, T)], num: Num) -> Result<usize, usize>
    requires { IsTrue (map.is_sorted nat_cmp slots.now) }
    ensures { MatchResult result
        (IsIndexOf nat_cmp num slots.now) (IsIndexFor nat_cmp num slots.now) }
{
    slots.binary_search_by(|slot| slot.0.0.cmp(&num.0))
}
