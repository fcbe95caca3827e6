// Whether the numbers that were chosen for new objects can be chosen.
ghost use Rattle.std.specs.Prelude.{◌≡◌, ◌≢◌, Decides};
ghost use Rattle.std.specs.List.{AllByRecursion, sum_by};
ghost use Rattle.model.specs.Changes.{news};
ghost use Rattle.model.specs.Steps.{AllDifferent, CanBeChosen};
ghost use Rattle.call_laws.specs.WellFormed.{WellFormed};
ghost use Rattle.plain_kernel.specs.Chosen.{IsUnused};

use crate::plain::PlainKernel;
use call_laws::unused_numbers_are_nowhere;
use ids::{Edit, Num};

// How many new numbers an edit takes.
fn news(edit: &Edit) -> usize
    ensures { result ≡ news edit.now }
{
    match edit {
        Edit::MakeDirectory { .. } => 1,
        Edit::MakeFile { .. } => 1,
        Edit::MakeFixed { .. } => 1,
        Edit::OpenInode { .. } => 1,
        Edit::MakePipe { .. } => 3,
        _ => 0,
    }
}

// Whether edits take just so many.
fn are_enough(edits: &[Edit], count: usize) -> bool
    ensures { Decides result (count ≡ sum_by news edits.now) }
{
    let mut left = count;
    for edit in edits {
        let taken = news(edit);
        if left < taken {
            return false;
        }
        left -= taken;
    }
    left == 0
}

// Whether a number is none of these.
fn is_apart(num: Num, others: &[Num]) -> bool
    ensures { Decides result (AllByRecursion (λ m. num ≢ m) others.now) }
{
    match others {
        [] => true,
        [other, rest @ ..] => num != *other && is_apart(num, rest),
    }
}

// Whether no number stands twice.
fn are_different(nums: &[Num]) -> bool
    ensures { Decides result (AllDifferent nums.now) }
{
    match nums {
        [] => true,
        [num, rest @ ..] => is_apart(*num, rest) && are_different(rest),
    }
}

impl PlainKernel {
    // Whether a number is no inode and no description.
    fn is_unused(&self, num: Num) -> bool
        ensures { Decides result (IsUnused self.now num) }
    {
        self.inodes.get(num).is_none() && self.descriptions.get(num).is_none()
    }

    // Whether none of these is.
    fn are_unused(&self, nums: &[Num]) -> bool
        ensures { Decides result (AllByRecursion (IsUnused self.now) nums.now) }
    {
        match nums {
            [] => true,
            [num, rest @ ..] => self.is_unused(*num) && self.are_unused(rest),
        }
    }

    /// Whether these can be the new numbers of a call with these edits.
    pub fn can_be_chosen(&self, edits: &[Edit], chosen: &[Num]) -> bool
        ensures { WellFormed self.now
            → Decides result (CanBeChosen self.now edits.now chosen.now) }
    {
        // For the proof: a number that is no inode and no description is nowhere in a state.
        unused_numbers_are_nowhere();
        are_enough(edits, chosen.len()) && self.are_unused(chosen) && are_different(chosen)
    }
}
