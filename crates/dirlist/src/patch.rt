// What a transaction changed in the names of one directory.
ghost use Rattle.std.specs.Prelude.{◌≡◌, ◌++◌, ◌==◌, ℕ, IfOk, OnErr, OnOk};
ghost use Rattle.std.specs.Prelude.{map as list_map};
ghost use Rattle.std.specs.List.{filter};
ghost use Rattle.std.specs.Option.{is_none, is_some};
ghost use Rattle.std.specs.HashMap.{keys};
ghost use Rattle.model.specs.FiniteMap as map;
ghost use Rattle.model.specs.State.{name_cmp};
ghost use Rattle.dirlist.specs.Patches.{IsLaid, noted_back};

use crate::order::sort_names;
use crate::{Dir, Numbers};
use heap::Heap;
use ids::{Name, NameList, Num};
use std::alloc::AllocError;
use std::collections::HashMap;
use std::hash::{BuildHasherDefault, FoldHasher};
use std::marker::Model;

/// What names give now, under the names, found by a hash whose seed is fixed.
pub type NoteTable = HashMap<Name, Option<Num>, BuildHasherDefault<FoldHasher>, Heap>;

/// Changes to the names of one directory: what each changed name gives now, a number, or `None`
/// where the name went.
///
/// Laid on top of a [`Dir`], they say which names there are. The directory itself is not changed.
/// A name is found by its hash, and the names are put in order only where they are listed.
pub struct NamePatch {
    given: NoteTable,
}

impl Drop for NamePatch {
    fn drop(self) {
        let NamePatch { given: _ } = self;
    }
}

impl Model for NamePatch {
    ghost use Rattle.std.specs.Prelude.{nat_eq};
    ghost use Rattle.std.specs.Cmp.Lexicographic.{pointwise};
    ghost use Rattle.std.specs.HashMap.{IsUnique};
    ghost use Rattle.model.specs.FiniteMap as map;
    ghost use Rattle.model.specs.State.{name_cmp};
    ghost use Rattle.dirlist.specs.Patches.{Notes, notes_code};

    ghost Value = { Notes };

    ghost coded = { notes_code };

    ghost view = { λ p. map.from_entries {R = name_cmp} p.given.entries };

    ghost invariant = { λ p. IsUnique (pointwise nat_eq) p.given };
}

impl NamePatch {
    /// No changes. It takes no memory.
    pub fn new(heap: Heap) -> NamePatch
        ensures { result ≡ map.empty }
    {
        NamePatch {
            given: HashMap::new(heap),
        }
    }

    /// What is noted of a name, or `None` where nothing is. It takes no memory.
    pub fn look(&self, name: &Name) -> Option<Option<Num>>
        ensures { result ≡ map.get self.now name.now }
    {
        self.given.get(name).copied()
    }

    /// Notes what a name gives now, in place of what was noted of it. Refused memory changes
    /// nothing, and a name that is noted already takes none.
    pub fn note(&mut self, name: Name, given: Option<Num>) -> Result<(), AllocError>
        ensures ok { OnOk result (self.new ≡ map.insert self.old name given) }
        ensures err { OnErr result (self.new ≡ self.old) }
    {
        self.given.insert(name, given)?;
        Ok(())
    }

    /// Takes a name's note back: what was noted of the name before comes in its place. A name that
    /// is not noted stays so. It takes no memory.
    pub fn put_back(&mut self, name: &Name, former: Option<Option<Num>>)
        ensures { self.new ≡ noted_back name.now former self.old }
    {
        match former {
            Some(given) => {
                if let Some(noted) = self.given.get_mut(name) {
                    *noted = given;
                }
            }
            None => {
                let _given = self.given.remove(name);
            }
        }
    }

    /// The names of a directory with these changes on top, in byte order. Refused memory changes
    /// nothing.
    pub fn names_over(&self, heap: Heap, dir: &Dir) -> Result<NameList, AllocError>
        ensures { IfOk result (λ list. (names : map.FinMap name_cmp ℕ)
            → IsLaid self.now dir.now.names names → list ≡ map.keys names) }
    {
        let mut names = Vec::with_capacity(heap, dir.numbers.len())?;
        self.push_unnoted(&mut names, &dir.numbers)?;
        push_given(&mut names, &self.given)?;
        sort_names(heap, &mut names);
        Ok(NameList::new(names))
    }

    // Adds copies of the names of which nothing is noted behind the others.
    fn push_unnoted(&self, names: &mut Vec<Name, Heap>, numbers: &Numbers) -> Result<(), AllocError>
        ensures { OnOk result (names.new.items ≡ names.old.items
            ++ filter (λ x. is_none (map.get self.now x)) (keys numbers.now)) }
    {
        for name in numbers.keys() {
            if self.look(name).is_none() {
                names.push(name.try_clone()?)?;
            }
        }
        Ok(())
    }

    /// Whether a directory has no names with these changes on top. It takes no memory.
    pub fn is_empty_over(&self, dir: &Dir) -> bool
        ensures { (names : map.FinMap name_cmp ℕ)
            → IsLaid self.now dir.now.names names → result ≡ (map.len names == 0) }
    {
        // With fewer notes than names one name stays.
        if self.given.len() < dir.numbers.len() {
            return false;
        }
        dir.numbers.keys().all(|name| self.look(name).is_some())
            && self.given.values().all(|given| given.is_none())
    }

    /// The changes, in whatever order their table has them. It takes no memory.
    pub fn into_given(self) -> NoteTable
        ensures { map.from_entries {R = name_cmp} result.entries ≡ self }
    {
        let NamePatch { given } = self;
        given
    }
}

// Adds copies of the names that give a number behind the others.
fn push_given(names: &mut Vec<Name, Heap>, given: &NoteTable) -> Result<(), AllocError>
    ensures { OnOk result (names.new.items ≡ names.old.items
        ++ list_map (λ e. e.0) (filter (λ e. is_some e.1) given.now.entries)) }
{
    for (name, num) in given {
        if num.is_some() {
            names.push(name.try_clone()?)?;
        }
    }
    Ok(())
}
