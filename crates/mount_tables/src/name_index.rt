// Which number each name leads to.
ghost use Rattle.std.specs.Prelude.{◌≡◌, OnErr, OnOk};
ghost use Rattle.model.specs.FiniteMap as map;
ghost use Rattle.mount_tables.specs.Names.{numbers_in};

use heap::Heap;
use std::alloc::AllocError;
use std::collections::BTreeMap;
use std::marker::Model;

/// Which number each name leads to, in the order of their bytes, in which they are listed.
pub(crate) struct NameIndex {
    numbers: BTreeMap<Vec<u8, Heap>, u64, Heap>,
}

impl Drop for NameIndex {
    fn drop(self) {
        let NameIndex { numbers: _ } = self;
    }
}

impl Model for NameIndex {
    ghost use Rattle.std.specs.Prelude.{ℕ, List};
    ghost use Rattle.std.specs.Coded.{coded_ℕ, coded_list};
    ghost use Rattle.std.specs.Cmp.Lexicographic.{slice_cmp};
    ghost use Rattle.std.specs.Ordering.{nat_cmp};
    ghost use Rattle.model.specs.FiniteMap as map;
    ghost use Rattle.mount_tables.specs.Names.{numbers_in};

    ghost Value = { map.FinMap (slice_cmp nat_cmp) ℕ };

    ghost coded = { map.code (coded_list coded_ℕ) coded_ℕ };

    ghost view = { λ i. numbers_in i.numbers };
}

impl NameIndex {
    // No name. It takes no memory.
    pub(crate) fn new(heap: Heap) -> NameIndex
        ensures { result ≡ map.empty }
    {
        NameIndex {
            numbers: BTreeMap::new(heap),
        }
    }

    // The names in the order of their bytes, with their numbers.
    pub(crate) fn numbers(&self) -> &BTreeMap<Vec<u8, Heap>, u64, Heap>
        ensures { numbers_in result.now ≡ self.now }
    {
        &self.numbers
    }

    // The number to which a name leads.
    pub(crate) fn get(&self, name: &[u8]) -> Option<u64>
        ensures { result ≡ map.get self.now name.now }
    {
        self.numbers.get(name).copied()
    }

    // A name leads to this number from now on. Refused memory changes nothing.
    pub(crate) fn insert(&mut self, name: Vec<u8, Heap>, number: u64) -> Result<(), AllocError>
        ensures ok { OnOk result (self.new ≡ map.insert self.old name.entry.items number) }
        ensures err { OnErr result (self.new ≡ self.old) }
    {
        self.numbers.insert(name, number)?;
        Ok(())
    }

    // A name leads nowhere any more. It gives the number to which it led. It takes no memory.
    pub(crate) fn remove(&mut self, name: &[u8]) -> Option<u64>
        ensures numbers { self.new ≡ map.remove self.old name.now }
        ensures number { result ≡ map.get self.old name.now }
    {
        self.numbers.remove(name)
    }
}
