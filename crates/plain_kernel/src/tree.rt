// A map from numbers to values where a number among many comes and goes in few steps: a tree.
ghost use Rattle.std.specs.Prelude.{◌≡◌, ◌≢◌, IfOk, MatchOption, OnErr, OnOk, None, option_copied};
ghost use Rattle.std.specs.Ordering.{nat_cmp};
ghost use Rattle.model.specs.FiniteMap as map;

use heap::Heap;
use ids::Num;
use std::alloc::AllocError;
use std::collections::BTreeMap;
use std::marker::Model;
use std::mem::replace;

/// What each number stands for: a tree, in which one among many comes and goes in few steps.
pub struct Tree<T> {
    slots: BTreeMap<Num, T, Heap>,
}

impl<T: Drop> Drop for Tree<T> {
    fn drop(self) {
        let Tree { slots: _ } = self;
    }
}

impl<T> Model for Tree<T> {
    ghost use Rattle.std.specs.Ordering.{nat_cmp};
    ghost use Rattle.std.specs.Coded.{coded_ℕ};
    ghost use Rattle.model.specs.FiniteMap as map;

    ghost Value = { map.FinMap nat_cmp T };

    ghost coded = { map.code coded_ℕ T.code };

    ghost view = { λ t. map.from_entries {R = nat_cmp} t.slots.entries };
}

impl<T: Drop> Tree<T> {
    /// Nothing. It takes no memory.
    pub fn new(heap: Heap) -> Tree<T>
        ensures { result ≡ map.empty }
    {
        Tree {
            slots: BTreeMap::new(heap),
        }
    }

    /// What a number stands for.
    pub fn get(&self, num: Num) -> Option<&T>
        ensures { option_copied result ≡ map.get self.now num }
    {
        self.slots.get(&num)
    }

    // A number gets a value. It gives the one before. Refused memory changes nothing.
    pub(crate) fn insert(&mut self, num: Num, value: T) -> Result<Option<T>, AllocError>
        ensures changed { OnOk result (self.new ≡ map.insert self.old num value) }
        ensures before { IfOk result (λ before. before ≡ map.get self.old num) }
        ensures err { OnErr result (self.new ≡ self.old) }
    {
        Ok(self.slots.insert(num, value)?)
    }

    /// A number gets a value. Refused memory changes nothing.
    pub fn set(&mut self, num: Num, value: T) -> Result<(), AllocError>
        ensures changed { OnOk result (self.new ≡ map.insert self.old num value) }
        ensures err { OnErr result (self.new ≡ self.old) }
    {
        drop(self.insert(num, value)?);
        Ok(())
    }

    // A number that has a value gets another. It takes no memory.
    pub(crate) fn change(&mut self, num: Num, value: T)
        requires { map.get self.old num ≢ None }
        ensures { self.new ≡ map.insert self.old num value }
    {
        match self.slots.get_mut(&num) {
            Some(slot) => *slot = value,
            None => unreachable!(),
        }
    }

    // A number that has a value gets this one, and gives the one before; a number that has none keeps
    // none. It takes no memory.
    pub(crate) fn swap(&mut self, num: Num, value: T) -> Option<T>
        ensures before { result ≡ map.get self.old num }
        ensures changed { MatchOption result (self.new ≡ self.old)
            (λ _. self.new ≡ map.insert self.old num value) }
    {
        match self.slots.get_mut(&num) {
            Some(slot) => Some(replace(slot, value)),
            None => {
                drop(value);
                None
            }
        }
    }

    // A number stands for nothing any more. It gives the value before.
    pub(crate) fn remove(&mut self, num: Num) -> Option<T>
        ensures changed { self.new ≡ map.remove self.old num }
        ensures before { result ≡ map.get self.old num }
    {
        self.slots.remove(&num)
    }
}
