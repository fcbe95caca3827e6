// A clash, and the order of clashes.
ghost use Rattle.std.specs.Prelude.{◌≡◌, refl};
ghost use Rattle.std.specs.Cmp;
ghost use Rattle.std.specs.Cmp.{partial_order_from_agreeing_total};
ghost use Rattle.std.specs.Cmp.Lexicographic.{slice_cmp};
ghost use Rattle.std.specs.Cmp.Rules.{comparing};
ghost use Rattle.std.specs.Ordering.{as_partial_cmp, eq_by_cmp, nat_cmp};
ghost use Rattle.std.proofs.Common.{rules};
ghost use Rattle.std.proofs.lemmas.Cmp.{eq_by_cmp_equiv};
ghost use Rattle.conflict.specs.Clashing.{rank_of};
ghost use Rattle.conflict.specs.Order.{place_of};

use crate::aspects::{is_same_aspect, name_of};
use ids::{Pid, Touch};
use records::compare_touches;
use std::cmp::Ordering;

/// A touch of a call that clashes with a recorded touch of another process.
///
/// Clashes are ordered by the processes' numbers, then on the touch's own aspect a write before a
/// read and both before the others, and then by the names of the other's entries in byte order;
/// where all this is the same, by the touches.
#[derive(Debug)]
pub struct Clash {
    /// The call's touch.
    pub mine: Touch,
    /// The other's touch.
    pub theirs: Touch,
    /// The other process.
    pub other: Pid,
}

impl Drop for Clash {
    fn drop(self) {
        let Clash {
            mine: _,
            theirs: _,
            other: _,
        } = self;
    }
}

/// Where the other's touch stands: 0 for a write of the same aspect, 1 for a read of it, 2 for
/// another aspect.
fn rank_of(mine: &Touch, theirs: &Touch) -> u8
    ensures { result ≡ rank_of mine.now theirs.now }
{
    if !is_same_aspect(&mine.aspect, &theirs.aspect) {
        2
    } else if theirs.write {
        0
    } else {
        1
    }
}

fn compare_names<'x>(first: &'x [u8], second: &'x [u8]) -> Ordering
    ensures { result ≡ slice_cmp nat_cmp first.now second.now }
{
    first.cmp(&second)
}

/// How two clashes stand by process, rank and name.
fn compare_places(first: &Clash, second: &Clash) -> Ordering
    ensures { result ≡ slice_cmp nat_cmp (place_of first.now) (place_of second.now) }
{
    first.other.0.cmp(&second.other.0).then(
        rank_of(&first.mine, &first.theirs)
            .cmp(&rank_of(&second.mine, &second.theirs))
            .then(compare_names(
                name_of(&first.theirs.aspect),
                name_of(&second.theirs.aspect),
            )),
    )
}

impl PartialEq for Clash {
    ghost use Rattle.conflict.specs.Order.{clash_cmp, clash_cmp_total};

    ghost eq = { eq_by_cmp clash_cmp };

    ghost laws = { Cmp.partial_equiv_from_equiv (eq_by_cmp_equiv clash_cmp_total) };

    fn eq(&self, other: &Clash) -> bool {
        self.cmp(other).is_eq()
    }
}

impl Eq for Clash {
    ghost use Rattle.conflict.specs.Order.{clash_cmp, clash_cmp_total};

    ghost laws = { eq_by_cmp_equiv clash_cmp_total };
}

impl PartialOrd for Clash {
    ghost use Rattle.conflict.specs.Order.{clash_cmp, clash_cmp_total};

    ghost partial_cmp = { as_partial_cmp clash_cmp };

    ghost laws = { partial_order_from_agreeing_total clash_cmp clash_cmp_total
        (λ x y. refl) (λ x y. refl) };

    fn partial_cmp(&self, other: &Clash) -> Option<Ordering> {
        Some(self.cmp(other))
    }
}

impl Ord for Clash {
    ghost use Rattle.conflict.specs.Order.{clash_cmp, clash_cmp_total};

    ghost cmp = { clash_cmp };

    ghost total = { clash_cmp_total };

    ghost matches_partial_cmp = { Prim.search (comparing, rules) };

    ghost matches_eq = { λ x y. refl };

    #[tactic(auto, unfolding(crate::specs::Order::clash_cmp))]
    fn cmp(&self, other: &Clash) -> Ordering {
        compare_places(self, other).then(compare_touches(&self.theirs, &other.theirs).then(
            compare_touches(&self.mine, &other.mine),
        ))
    }
}
