//! One directory: its names with the numbers that they give, and room that is promised to later
//! additions.
#![tactic(auto)]

ghost use Rattle.std.specs.Prelude.{◌≡◌, ◌+◌, ◌<◌, ◌==◌, nat_lt, None};
ghost use Rattle.std.specs.Prelude.{IfOk, OnOk, OnErr};
ghost use Rattle.model.specs.FiniteMap as map;
ghost use Rattle.model.specs.State.{name_cmp};

mod order;
mod patch;

use crate::order::sort_names;
use heap::Heap;
use ids::{Name, NameList, Num};
pub use patch::{NamePatch, NoteTable};
use std::alloc::AllocError;
use std::collections::HashMap;
use std::hash::{BuildHasherDefault, FoldHasher};
use std::marker::Model;

/// Numbers under their names, found by a hash whose seed is fixed.
type Numbers = HashMap<Name, Num, BuildHasherDefault<FoldHasher>, Heap>;

/// One directory's names, each with the number of the object that it gives.
///
/// Room for additions can be promised: an addition in promised room takes no memory, and nothing
/// but [`Dir::insert_promised`] and [`Dir::release`] uses that room up.
pub struct Dir {
    numbers: Numbers,
    promised: usize,
}

impl Drop for Dir {
    fn drop(self) {
        let Dir {
            numbers: _,
            promised: _,
        } = self;
    }
}

impl Model for Dir {
    ghost use Rattle.std.specs.Prelude.{◌≤◌};
    ghost use Rattle.std.specs.HashMap.{spare};
    ghost use Rattle.model.specs.FiniteMap as map;
    ghost use Rattle.model.specs.State.{name_cmp};
    ghost use Rattle.dirlist.specs.Listing.{Listing, listing_code};

    ghost Value = { Listing };

    ghost coded = { listing_code };

    ghost view = { λ d. record {
      names = map.from_entries {R = name_cmp} d.numbers.entries;
      promised = d.promised;
    } };

    ghost invariant = { λ d. d.promised ≤ spare d.numbers };
}

impl Dir {
    /// A directory without names, and with no room promised. It takes no memory.
    pub fn new(heap: Heap) -> Dir
        ensures names { result.names ≡ map.empty }
        ensures promised { result.promised ≡ 0 }
    {
        Dir {
            numbers: HashMap::new(heap),
            promised: 0,
        }
    }

    /// The number that a name gives.
    pub fn lookup(&self, name: &Name) -> Option<Num>
        ensures { result ≡ map.get self.now.names name.now }
    {
        self.numbers.get(name).copied()
    }

    /// A copy of the names, in byte order. Refused memory changes nothing.
    pub fn names(&self, heap: Heap) -> Result<NameList, AllocError>
        ensures { IfOk result (λ names. names ≡ map.keys self.now.names) }
    {
        let mut names = Vec::with_capacity(heap, self.numbers.len())?;
        for name in self.numbers.keys() {
            names.push(name.try_clone()?)?;
        }
        sort_names(heap, &mut names);
        Ok(NameList::new(names))
    }

    /// How many names there are.
    pub fn len(&self) -> usize
        ensures { result ≡ map.len self.now.names }
    {
        self.numbers.len()
    }

    /// Whether there are no names.
    pub fn is_empty(&self) -> bool
        ensures { result ≡ (map.len self.now.names == 0) }
    {
        self.len() == 0
    }

    /// Whether room for an addition is promised.
    pub fn is_promised(&self) -> bool
        ensures { result ≡ nat_lt 0 self.now.promised }
    {
        self.promised > 0
    }

    /// Promises room for one more addition. Refused memory changes nothing.
    pub fn promise(&mut self) -> Result<(), AllocError>
        ensures ok { OnOk result (self.new ≡ record self.old { promised = self.old.promised + 1 }) }
        ensures err { OnErr result (self.new ≡ self.old) }
    {
        let Some(wanted) = self.promised.checked_add(1) else {
            return Err(AllocError);
        };
        self.numbers.reserve(wanted)?;
        self.promised = wanted;
        Ok(())
    }

    /// Gives up the promised room of one addition.
    pub fn release(&mut self)
        requires { 0 < self.old.promised }
        ensures names { self.new.names ≡ self.old.names }
        ensures promised { self.new.promised + 1 ≡ self.old.promised }
    {
        self.promised -= 1;
    }

    /// Adds a name in promised room. It takes no memory.
    pub fn insert_promised(&mut self, name: Name, num: Num)
        requires room { 0 < self.old.promised }
        requires absent { map.get self.old.names name ≡ None }
        ensures names { self.new.names ≡ map.insert self.old.names name num }
        ensures promised { self.new.promised + 1 ≡ self.old.promised }
    {
        let added: Result<_, _> = self.numbers.insert(name, num);
        let _former = added.unwrap();
        self.promised -= 1;
    }

    /// Takes a name away, and gives the number that it gave. It takes no memory, and leaves the
    /// room that is promised.
    pub fn remove(&mut self, name: &Name) -> Option<Num>
        ensures value { result ≡ map.get self.old.names name.now }
        ensures rest { self.new ≡ record self.old { names = map.remove self.old.names name.now } }
    {
        self.numbers.remove(name)
    }
}
