// All descriptions, with how many are open on each inode: so whether one opens an inode is known in
// few steps, and no description is looked for.
ghost use Rattle.std.specs.Prelude.{◌≡◌, ℕ, ◌-◌, IfOk, MatchOption, OnErr, OnOk, option_copied};
ghost use Rattle.model.specs.FiniteMap as map;
ghost use Rattle.model.specs.Changes.{at_offset};
ghost use Rattle.plain_kernel.specs.Counts.{count_at, opened_by_all, opened_once};

use crate::counts::{count_of, gain, lose};
use crate::plain::Description;
use crate::tree::Tree;
use heap::Heap;
use ids::Num;
use std::alloc::AllocError;
use std::marker::Model;

/// What each number describes, and how many descriptions are open on each inode.
pub(crate) struct Descriptions {
    each: Tree<Description>,
    openings: Tree<usize>,
}

impl Drop for Descriptions {
    fn drop(self) {
        let Descriptions {
            each: _,
            openings: _,
        } = self;
    }
}

impl Model for Descriptions {
    ghost use Rattle.std.specs.Ordering.{nat_cmp};
    ghost use Rattle.model.specs.FiniteMap as map;
    ghost use Rattle.model.specs.State.{Description as Opened};
    ghost use Rattle.plain_kernel.specs.Counts.{AreOpened};

    ghost Value = { map.FinMap nat_cmp Opened };

    ghost view = { λ d. d.each };

    ghost invariant = { λ d. AreOpened d.each d.openings };
}

impl Descriptions {
    // None. It takes no memory.
    pub(crate) fn new(heap: Heap) -> Descriptions
        ensures { result ≡ map.empty }
    {
        Descriptions {
            each: Tree::new(heap),
            openings: Tree::new(heap),
        }
    }

    // What a number describes.
    pub(crate) fn get(&self, num: Num) -> Option<&Description>
        ensures { option_copied result ≡ map.get self.now num }
    {
        self.each.get(num)
    }

    // How many are open on an inode.
    pub(crate) fn count(&self, inode: Num) -> usize
        ensures { result ≡ opened_by_all self.now inode }
    {
        count_of(&self.openings, inode)
    }

    // A number gets a description. It gives the one before. Refused memory changes nothing.
    pub(crate) fn insert(
        &mut self,
        num: Num,
        description: Description,
    ) -> Result<Option<Description>, AllocError>
        ensures changed { OnOk result (self.new ≡ map.insert self.old num description) }
        ensures before { IfOk result (λ before. before ≡ map.get self.old num) }
        ensures err { OnErr result (self.new ≡ self.old) }
    {
        gain(&mut self.openings, description.inode, 1)?;
        match self.each.insert(num, description) {
            Ok(before) => {
                lose_opening(&mut self.openings, before.as_ref());
                Ok(before)
            }
            Err(refused) => {
                lose(&mut self.openings, description.inode, 1);
                Err(refused)
            }
        }
    }

    // A description's offset, if there is one. It takes no memory.
    pub(crate) fn set_offset(&mut self, num: Num, offset: u64)
        ensures { MatchOption (map.get self.old num) (self.new ≡ self.old)
            (λ old. self.new ≡ map.insert self.old num (at_offset offset old)) }
    {
        if let Some(description) = self.each.get(num) {
            let moved = Description {
                offset,
                ..*description
            };
            self.each.change(num, moved);
        }
    }

    // A number describes nothing any more. It gives the description before.
    pub(crate) fn remove(&mut self, num: Num) -> Option<Description>
        ensures changed { self.new ≡ map.remove self.old num }
        ensures before { result ≡ map.get self.old num }
    {
        let before = self.each.remove(num);
        lose_opening(&mut self.openings, before.as_ref());
        before
    }
}

// One opening less of the inode of a description, if there is one.
fn lose_opening(openings: &mut Tree<usize>, description: Option<&Description>)
    ensures { (n : ℕ) → count_at openings.new n
        ≡ count_at openings.old n - opened_once n (option_copied description.entry) }
{
    if let Some(description) = description {
        lose(openings, description.inode, 1);
    }
}
