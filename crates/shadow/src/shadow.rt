// A transaction's changes.
ghost use Rattle.std.specs.Prelude.{◌≡◌, ◌++◌, ◌∷◌, [], IfOk, OnErr, OnOk};
ghost use Rattle.std.specs.Prelude.{◌↔◌, ℕ, Contains};
ghost use Rattle.std.specs.List.Sorted.{IsStrictlyIncreasing};
ghost use Rattle.model.specs.State.{Kernel};
ghost use Rattle.shadow.specs.Agrees.{blocks_written};
ghost use Rattle.model.specs.Effects.{all_done};
ghost use Rattle.model.specs.Changes.{tidy};
ghost use Rattle.freeing_laws.specs.Sweep.{AllFit};
ghost use Rattle.shadow.specs.Claims.{AreUnused, Covers, HaveParents, KeepsMore, KeepsSame, claimed};
ghost use Rattle.shadow.specs.Claims.{claimed_by};
ghost use Rattle.notes.specs.Log.{effect};
ghost use Rattle.notes.specs.Steps.{CanEdit};

use crate::claiming::parents_of;
use crate::closing::{close_former, close_new, free_all};
use crate::laying::{lay_inodes_with_rights, lay_openings};
use crate::reslotting::lay_slots;
use crate::stable::Stable;
use heap::Heap;
use ids::{Edit, Num, Nums};
use notes::{Log, Patches};
use std::alloc::AllocError;
use std::marker::Model;
use std::snapshot::Snapshot;

/// A transaction's changes, which nobody else sees before they are committed.
///
/// They are kept object by object, so a look costs the logarithm of their number, and a commit
/// costs what was changed. What each call changed is known to clauses alone.
pub struct Shadow {
    log: Log,
    pub(crate) patches: Patches,
}

impl Drop for Shadow {
    fn drop(self) {
        let Shadow { log: _, patches: _ } = self;
    }
}

impl Model for Shadow {
    ghost use Rattle.std.specs.Prelude.{List};
    ghost use Rattle.model.specs.Effects.{Effect};
    ghost use Rattle.shadow.specs.Agrees.{Agrees};
    ghost use Rattle.notes.specs.Log.{effects_in};

    ghost Value = { List Effect };

    ghost view = { λ s. effects_in s.log };

    ghost invariant = { λ s. Agrees (effects_in s.log) s.patches };
}

impl Shadow {
    /// No changes. It takes no memory.
    pub fn new(heap: Heap) -> Shadow
        ensures { result ≡ [] }
    {
        Shadow {
            log: Log::Start,
            patches: Patches::new(heap),
        }
    }

    /// Adds what a call changes, with new numbers for what it makes, which are answered, and keeps
    /// the room that the commit needs. Refused memory changes nothing.
    pub fn edit(&mut self, stable: &mut Stable, edits: Vec<Edit, Heap>) -> Result<Nums, AllocError>
        requires kinds { CanEdit edits.items }
        requires parents { HaveParents stable.old.reserves edits.items }
        requires covers { Covers stable.old self.old }
        ensures ok { IfOk result (λ chosen. self.new
            ≡ self.old ++ effect chosen edits.entry.items ∷ []) }
        ensures new { IfOk result (AreUnused stable.old edits.entry.items) }
        ensures kept { IfOk result (λ chosen. KeepsMore stable.old stable.new
            (λ c. claimed_by c (effect chosen edits.entry.items))) }
        ensures state { stable.new.state ≡ stable.old.state }
        ensures err { OnErr result (self.new ≡ self.old) }
        ensures same { OnErr result (KeepsSame stable.old stable.new) }
    {
        let heap = *edits.allocator();
        let logged = Snapshot::of(&edits);
        let parents = parents_of(edits.as_slice());
        let chosen = stable.claim(heap, edits.as_slice())?;
        match self.patches.note(chosen.as_slice(), edits) {
            Ok(()) => {
                self.log.add(&chosen, logged);
                Ok(chosen)
            }
            Err(AllocError) => {
                stable.release_claims(chosen.as_slice(), parents);
                drop(chosen);
                Err(AllocError)
            }
        }
    }

    /// The numbers of the blocks of a file into which writes put bytes, rising; none where the file
    /// was not written. A cut, a growth or a gap adds none and takes none away. It takes no memory.
    pub fn changed(&self, num: Num) -> &[u64]
        ensures rising { IsStrictlyIncreasing result.now }
        ensures blocks { (k : Kernel) (b : ℕ) → AllFit self.now k
            → Contains result.now b ↔ Contains (blocks_written num self.now) b }
    {
        self.patches.inodes.changed(num)
    }

    /// Makes the changes in the committed state, object by object, and frees what nothing leads to
    /// any more. It takes no memory.
    pub fn commit_into(self, stable: &mut Stable)
        requires fits { AllFit self stable.old.state }
        requires covers { Covers stable.old self }
        ensures state { stable.new.state ≡ tidy (all_done self stable.old.state) }
        ensures kept { KeepsMore stable.new stable.old (λ c. claimed c self) }
    {
        let Shadow { log: _, patches } = self;
        let Patches {
            inodes,
            rights,
            openings,
            slots,
            unnamed_inodes,
        } = patches;
        let heap = stable.heap();
        let store = &mut stable.store;
        lay_inodes_with_rights(store, heap, inodes, &rights);
        lay_openings(store, &openings);
        let (mut each, rooms) = slots.into_parts();
        lay_slots(store, &mut stable.processes, each.as_mut_slice(), rooms);
        close_former(store, each.as_slice());
        close_new(store, &openings);
        free_all(store, unnamed_inodes);
    }

    /// Forgets the changes, and gives back what was kept for them. It takes no memory.
    pub fn drop_into(self, stable: &mut Stable)
        requires { Covers stable.old self }
        ensures state { stable.new.state ≡ stable.old.state }
        ensures kept { KeepsMore stable.new stable.old (λ c. claimed c self) }
    {
        let Shadow { log: _, patches } = self;
        stable.release_all_claims(patches);
    }
}
