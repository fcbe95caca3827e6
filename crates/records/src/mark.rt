// A touch of a process, and the order of touches.
ghost use Rattle.std.specs.Prelude.{◌≡◌, IfOk};
ghost use Rattle.std.specs.Ordering.{nat_cmp};
ghost use Rattle.std.specs.Cmp.Lexicographic.{slice_cmp};
ghost use Rattle.records.specs.Codes.{part_of, touch_cmp};

use ids::{Aspect, Pid, Touch};
use std::alloc::AllocError;
use std::cmp::Ordering;

/// A touch of a process's live transaction.
#[derive(Debug, Drop)]
pub struct Mark {
    /// What was touched.
    pub touch: Touch,
    /// By whom.
    pub pid: Pid,
}

impl Mark {
    /// A copy on the same allocator. Refused memory changes nothing.
    pub fn try_clone(&self) -> Result<Mark, AllocError>
        ensures { IfOk result (λ copy. copy ≡ self.now) }
    {
        Ok(Mark {
            touch: self.touch.try_clone()?,
            pid: self.pid,
        })
    }
}

/// Which part of the object, and whether it is written: a number of its own for each.
fn part_of(aspect: &Aspect, write: bool) -> u8
    ensures { result ≡ part_of aspect.now write }
{
    match (aspect, write) {
        (Aspect::Entry(_, _), true) => 0,
        (Aspect::Entry(_, _), false) => 1,
        (Aspect::Names(_), true) => 2,
        (Aspect::Names(_), false) => 3,
        (Aspect::Size(_), true) => 4,
        (Aspect::Size(_), false) => 5,
        (Aspect::Block(_, _), true) => 6,
        (Aspect::Block(_, _), false) => 7,
        (Aspect::Links(_), true) => 8,
        (Aspect::Links(_), false) => 9,
        (Aspect::Ends(_), true) => 10,
        (Aspect::Ends(_), false) => 11,
        (Aspect::Offset(_), true) => 12,
        (Aspect::Offset(_), false) => 13,
        (Aspect::Front(_), true) => 14,
        (Aspect::Front(_), false) => 15,
        (Aspect::Back(_), true) => 16,
        (Aspect::Back(_), false) => 17,
        (Aspect::Target(_), true) => 18,
        (Aspect::Target(_), false) => 19,
        (Aspect::Rights(_), true) => 20,
        (Aspect::Rights(_), false) => 21,
    }
}

/// How two touches stand: by the object, its part, written before read, the block, and the name in
/// byte order. Only a touch and itself are equal.
#[tactic(auto, unfolding(crate::specs::Codes::touch_cmp))]
pub fn compare_touches(first: &Touch, second: &Touch) -> Ordering
    ensures { result ≡ touch_cmp first.now second.now }
{
    first.aspect.object().cmp(&second.aspect.object()).then(
        part_of(&first.aspect, first.write)
            .cmp(&part_of(&second.aspect, second.write))
            .then(
                first
                    .aspect
                    .block()
                    .cmp(&second.aspect.block())
                    .then(compare_names(first.aspect.name(), second.aspect.name())),
            ),
    )
}

fn compare_names<'x>(first: &'x [u8], second: &'x [u8]) -> Ordering
    ensures { result ≡ slice_cmp nat_cmp first.now second.now }
{
    first.cmp(&second)
}
