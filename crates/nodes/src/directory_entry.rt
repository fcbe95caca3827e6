// Where a node was looked up.
ghost use Rattle.std.specs.Prelude.{◌≡◌, ◌∷◌, IfOk, refl};
ghost use Rattle.std.specs.Cmp.{partial_equiv_from_equiv};
ghost use Rattle.std.specs.Cmp.Lexicographic.{slice_cmp};
ghost use Rattle.std.specs.Ordering.{eq_by_cmp, nat_cmp};
ghost use Rattle.std.proofs.lemmas.Cmp.{eq_by_cmp_equiv};

use heap::Heap;
use ids::Name;
use std::alloc::AllocError;
use std::cmp::Ordering;
use std::hash::{Hash, Hasher};
use std::marker::Model;

/// A name of a directory.
#[derive(Debug)]
pub struct DirectoryEntry {
    /// The node of the directory.
    pub parent: u64,
    /// The name.
    pub name: Name,
}

impl Drop for DirectoryEntry {
    fn drop(self) {
        let DirectoryEntry { parent: _, name: _ } = self;
    }
}

impl DirectoryEntry {
    /// The entry of this name. Refused memory gives nothing.
    pub fn new(heap: Heap, parent: u64, name: &[u8]) -> Result<DirectoryEntry, AllocError>
        ensures { IfOk result (λ entry. entry ≡ record { parent = parent; name = name.now }) }
    {
        Ok(DirectoryEntry {
            parent,
            name: Name::copy(heap, name)?,
        })
    }

    /// A copy on the same allocator. Refused memory changes nothing.
    pub fn try_clone(&self) -> Result<DirectoryEntry, AllocError>
        ensures { IfOk result (λ copy. copy ≡ self.now) }
    {
        Ok(DirectoryEntry {
            parent: self.parent,
            name: self.name.try_clone()?,
        })
    }
}

fn compare_names<'x>(first: &'x [u8], second: &'x [u8]) -> Ordering
    ensures { result ≡ slice_cmp nat_cmp first.now second.now }
{
    first.cmp(&second)
}

// By the parent, and then by the name.
fn compare(first: &DirectoryEntry, second: &DirectoryEntry) -> Ordering
    ensures { result ≡ slice_cmp nat_cmp
        (first.now.parent ∷ first.now.name) (second.now.parent ∷ second.now.name) }
{
    match first.parent.cmp(&second.parent) {
        Ordering::Equal => compare_names(first.name.as_slice(), second.name.as_slice()),
        order => order,
    }
}

impl PartialEq for DirectoryEntry {
    ghost use Rattle.nodes.specs.DirectoryEntries.{entry_cmp, entry_cmp_total};

    ghost eq = { eq_by_cmp entry_cmp };

    ghost laws = { partial_equiv_from_equiv (eq_by_cmp_equiv entry_cmp_total) };

    #[tactic(auto, unfolding(crate::specs::DirectoryEntries::entry_cmp))]
    fn eq(&self, other: &DirectoryEntry) -> bool {
        compare(self, other).is_eq()
    }
}

impl Eq for DirectoryEntry {
    ghost use Rattle.nodes.specs.DirectoryEntries.{entry_cmp, entry_cmp_total};

    ghost laws = { eq_by_cmp_equiv entry_cmp_total };
}

// The name is one write of all its bytes: a slice of its own would write its length and each byte.
impl Hash for DirectoryEntry {
    ghost use Rattle.nodes.specs.DirectoryEntries.{entry_fed, fed_alike};

    ghost hash_input = { entry_fed };

    ghost respects_eq = { fed_alike };

    fn hash<H: Hasher>(&self, state: &mut H) {
        state.write_u64(self.parent);
        state.write(self.name.as_slice());
    }
}

/// An entry that will be kept twice, in a node and in the index. Both copies are made beforehand,
/// so that keeping it takes no memory. Contracts see the entry.
pub struct Spot {
    entry: DirectoryEntry,
    copy: DirectoryEntry,
}

impl Model for Spot {
    ghost use Rattle.std.specs.Prelude.{◌≡◌};
    ghost use Rattle.nodes.specs.declared.directory_entry.DirectoryEntry.{DirectoryEntry};
    ghost use Rattle.nodes.specs.DirectoryEntries.{coded_entry};

    ghost Value = { DirectoryEntry };

    ghost coded = { coded_entry };

    ghost view = { λ s. s.entry };

    ghost invariant = { λ s. s.copy ≡ s.entry };
}

impl Drop for Spot {
    fn drop(self) {
        let Spot { entry: _, copy: _ } = self;
    }
}

impl Spot {
    /// The entry of this name. Refused memory gives nothing.
    pub fn new(heap: Heap, parent: u64, name: &[u8]) -> Result<Spot, AllocError>
        ensures { IfOk result (λ spot. spot ≡ record { parent = parent; name = name.now }) }
    {
        let entry = DirectoryEntry::new(heap, parent, name)?;
        let copy = entry.try_clone()?;
        Ok(Spot { entry, copy })
    }

    /// The entry.
    pub fn entry(&self) -> &DirectoryEntry
        ensures { result.now ≡ self.now }
    {
        &self.entry
    }

    // Both copies, with no memory.
    pub(crate) fn into_both(self) -> (DirectoryEntry, DirectoryEntry)
        ensures entry { result.0 ≡ self }
        ensures copy { result.1 ≡ self }
    {
        let Spot { entry, copy } = self;
        (entry, copy)
    }
}
