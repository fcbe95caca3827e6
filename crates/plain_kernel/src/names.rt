// The names of a directory with the numbers that they give: a tree in the bytes' order, so that a
// name among many comes and goes in few steps.
ghost use Rattle.std.specs.Prelude.{◌≡◌, ◌++◌, ℕ, ◌-◌, IfOk, OnOk};
ghost use Rattle.model.specs.FiniteMap as map;
ghost use Rattle.model.specs.Paths.{is_empty};
ghost use Rattle.plain_kernel.specs.Counts.{count_at, times_given};

use crate::counts::lose;
use crate::tree::Tree;
use heap::Heap;
use ids::{Name, NameList, Num};
use std::alloc::AllocError;
use std::collections::BTreeMap;
use std::marker::Model;

/// What each name gives.
pub(crate) struct Names {
    given: BTreeMap<Name, Num, Heap>,
}

impl Drop for Names {
    fn drop(self) {
        let Names { given: _ } = self;
    }
}

impl Model for Names {
    ghost use Rattle.std.specs.Prelude.{ℕ};
    ghost use Rattle.std.specs.BTreeMap.{IsOrdered};
    ghost use Rattle.std.specs.Coded.{coded_list, coded_ℕ};
    ghost use Rattle.model.specs.FiniteMap as map;
    ghost use Rattle.model.specs.State.{name_cmp};

    ghost Value = { map.FinMap name_cmp ℕ };

    ghost coded = { map.code (coded_list coded_ℕ) coded_ℕ };

    ghost view = { λ d. map.from_entries {R = name_cmp} d.given.entries };

    ghost invariant = { λ d. IsOrdered name_cmp d.given };
}

impl Names {
    // No names. It takes no memory.
    pub(crate) fn new(heap: Heap) -> Names
        ensures { result ≡ map.empty }
    {
        Names {
            given: BTreeMap::new(heap),
        }
    }

    // The number that a name gives.
    pub(crate) fn get(&self, name: &Name) -> Option<Num>
        ensures { result ≡ map.get self.now name.now }
    {
        self.given.get(name).copied()
    }

    // A name gives a number. It gives what the name gave before.
    pub(crate) fn insert(&mut self, name: &Name, num: Num) -> Result<Option<Num>, AllocError>
        ensures changed { OnOk result (self.new ≡ map.insert self.old name.now num) }
        ensures before { IfOk result (λ before. before ≡ map.get self.old name.now) }
    {
        Ok(self.given.insert(name.try_clone()?, num)?)
    }

    // A name gives nothing any more. It gives what the name gave before.
    pub(crate) fn remove(&mut self, name: &Name) -> Option<Num>
        ensures changed { self.new ≡ map.remove self.old name.now }
        ensures before { result ≡ map.get self.old name.now }
    {
        self.given.remove(name)
    }

    // A copy of the names, in order.
    pub(crate) fn names(&self, heap: Heap) -> Result<NameList, AllocError>
        ensures { IfOk result (λ names. names ≡ map.keys self.now) }
    {
        let mut names = Vec::with_capacity(heap, self.given.len())?;
        for name in self.given.keys() {
            names.push(name.try_clone()?)?;
        }
        Ok(NameList::new(names))
    }

    // Whether there are none.
    pub(crate) fn is_empty(&self) -> bool
        ensures { result ≡ is_empty (map.keys self.now) }
    {
        self.given.is_empty()
    }

    // One name less gives each number, as often as these names give it.
    pub(crate) fn lose_all(&self, counts: &mut Tree<usize>)
        ensures { (n : ℕ)
            → count_at counts.new n ≡ count_at counts.old n - times_given n self.now }
    {
        for num in self.given.values() {
            lose(counts, *num, 1);
        }
    }
}
