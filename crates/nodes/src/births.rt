// How often an object was made with each number.
ghost use Rattle.std.specs.Prelude.{◌≡◌, ◌+◌, ◌≤◌, ◌<◌, IsOk, OnErr, OnOk};
ghost use Rattle.model.specs.FiniteMap as map;
ghost use Rattle.nodes.specs.Tables.{births_by, with_birth};

use heap::Heap;
use ids::Num;
use std::alloc::AllocError;
use std::collections::HashMap;
use std::hash::{BuildHasherDefault, FoldHasher};
use std::marker::Model;

// Counts under the numbers of objects, found by a hash whose seed is fixed.
type Counts = HashMap<usize, u64, BuildHasherDefault<FoldHasher>, Heap>;

/// How often an object was made with each number. Contracts also see for how many numbers more there
/// is room.
pub(crate) struct Births {
    counts: Counts,
}

impl Drop for Births {
    fn drop(self) {
        let Births { counts: _ } = self;
    }
}

impl Model for Births {
    ghost use Rattle.std.specs.HashMap.{spare};
    ghost use Rattle.std.specs.Ordering.{nat_cmp};
    ghost use Rattle.model.specs.FiniteMap as map;
    ghost use Rattle.nodes.specs.Parts.{Counted, counted_code};

    ghost Value = { Counted };

    ghost coded = { counted_code };

    ghost view = { λ b. record {
      counts = map.from_entries {R = nat_cmp} b.counts.entries;
      room = spare b.counts;
    } };
}

impl Births {
    // Nothing was made. It takes no memory.
    pub(crate) fn new(heap: Heap) -> Births
        ensures { result.counts ≡ map.empty }
    {
        Births {
            counts: HashMap::new(heap),
        }
    }

    // How often an object was made with this number.
    pub(crate) fn get(&self, inode: Num) -> u64
        ensures { result ≡ births_by (map.get self.now.counts inode) }
    {
        match self.counts.get(&inode.0).copied() {
            Some(births) => births,
            None => 0,
        }
    }

    // Makes room for one number more. Refused memory changes nothing.
    pub(crate) fn reserve(&mut self) -> Result<(), AllocError>
        ensures counts { self.new.counts ≡ self.old.counts }
        ensures ok { OnOk result (0 < self.new.room) }
        ensures room { self.old.room ≤ self.new.room }
        ensures succeeds { 0 < self.old.room → IsOk result }
    {
        self.counts.reserve(1)
    }

    // An object was made with this number. The count stands still at its largest number. Refused
    // memory changes nothing.
    pub(crate) fn note(&mut self, inode: Num) -> Result<(), AllocError>
        ensures ok { OnOk result (self.new.counts ≡ with_birth inode self.old.counts) }
        ensures err { OnErr result (self.new.counts ≡ self.old.counts) }
        ensures succeeds { 0 < self.old.room → IsOk result }
    {
        let births = self.get(inode).saturating_add(1);
        self.counts.insert(inode.0, births)?;
        Ok(())
    }
}
