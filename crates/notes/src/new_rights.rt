// The permissions and the owners that a transaction has set of inodes.
ghost use Rattle.std.specs.Prelude.{◌≡◌, [], OnErr, OnOk};
ghost use Rattle.notes.specs.Patches.{kept_at, rights_over};
ghost use Rattle.notes.specs.Notes.{AtRights};

use heap::Heap;
use ids::{Num, Rights};
use std::alloc::AllocError;
use std::collections::BTreeMap;
use std::marker::Model;

/// The rights that a transaction has set of inodes, of which it may have made some.
#[derive(Drop)]
pub struct NewRights {
    /// Those of each, by its number.
    pub each: BTreeMap<Num, Rights, Heap>,
}

impl Model for NewRights {
    ghost use Rattle.std.specs.Prelude.{ℕ, List};
    ghost use Rattle.ids.specs.declared.rights.Rights.{Rights};

    ghost Value = { List (ℕ × Rights) };

    ghost view = { λ r. r.each.entries };
}

impl NewRights {
    /// None are set. It takes no memory.
    pub(crate) fn new(heap: Heap) -> NewRights
        ensures { result ≡ [] }
    {
        NewRights {
            each: BTreeMap::new(heap),
        }
    }

    /// Those that are set of an inode now, by what is set of it in the committed state. It takes no
    /// memory.
    pub fn over(&self, num: Num, stored: Option<Rights>) -> Option<Rights>
        ensures { result ≡ rights_over (kept_at self.now num) stored }
    {
        match self.each.get(&num) {
            Some(rights) => Some(*rights),
            None => stored,
        }
    }

    /// Notes those that are set of an inode. Refused memory changes nothing.
    pub(crate) fn set(&mut self, num: Num, rights: Rights) -> Result<(), AllocError>
        ensures ok { OnOk result (AtRights num rights self.old self.new) }
        ensures err { OnErr result (self.new ≡ self.old) }
    {
        self.each.insert(num, rights)?;
        Ok(())
    }
}
