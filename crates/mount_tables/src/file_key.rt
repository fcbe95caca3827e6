// Under which an open file is found: a view and an object.
ghost use Rattle.std.specs.Prelude.{◌≡◌, ◌∷◌, []};
ghost use Rattle.std.specs.Cmp.{partial_equiv_from_equiv};
ghost use Rattle.std.specs.Cmp.Lexicographic.{slice_cmp};
ghost use Rattle.std.specs.Ordering.{eq_by_cmp, nat_cmp};
ghost use Rattle.std.proofs.lemmas.Cmp.{eq_by_cmp_equiv};

use ids::Num;
use std::cmp::Ordering;
use std::hash::{Hash, Hasher};

/// An object as a view shows it. All opens of it in that view share a descriptor.
#[derive(Clone, Copy, Debug)]
pub struct FileKey {
    /// The view.
    pub view: u64,
    /// The object.
    pub inode: Num,
}

// By the view, and then by the object.
fn compare(first: FileKey, second: FileKey) -> Ordering
    ensures { result ≡ slice_cmp nat_cmp
        (first.view ∷ first.inode ∷ []) (second.view ∷ second.inode ∷ []) }
{
    match first.view.cmp(&second.view) {
        Ordering::Equal => first.inode.0.cmp(&second.inode.0),
        order => order,
    }
}

impl PartialEq for FileKey {
    ghost use Rattle.mount_tables.specs.FileKeys.{key_cmp, key_cmp_total};

    ghost eq = { eq_by_cmp key_cmp };

    ghost laws = { partial_equiv_from_equiv (eq_by_cmp_equiv key_cmp_total) };

    #[tactic(auto, unfolding(crate::specs::FileKeys::key_cmp))]
    fn eq(&self, other: &FileKey) -> bool {
        compare(*self, *other).is_eq()
    }
}

impl Eq for FileKey {
    ghost use Rattle.mount_tables.specs.FileKeys.{key_cmp, key_cmp_total};

    ghost laws = { eq_by_cmp_equiv key_cmp_total };
}

// By hand, since equality is: what is equal is fed alike.
impl Hash for FileKey {
    ghost use Rattle.mount_tables.specs.FileKeys.{key_fed, fed_alike};

    ghost hash_input = { key_fed };

    ghost respects_eq = { fed_alike };

    fn hash<H: Hasher>(&self, state: &mut H) {
        state.write_u64(self.view);
        state.write_usize(self.inode.0);
    }
}
