// How many descriptors give each description, and how many are open on each inode, to read and to
// write: so a description's holders and a pipe's ends are known in few steps.
ghost use Rattle.std.specs.Prelude.{◌≡◌, ℕ, ◌+◌, ◌-◌, ◌==◌, ◌&&◌, cond, Some, map, option_copied};
ghost use Rattle.std.specs.Prelude.{OnErr, OnOk};
ghost use Rattle.std.specs.List.{count_by};
ghost use Rattle.model.specs.Changes.{or_new};
ghost use Rattle.plain_kernel.specs.Counts.{count_at};
ghost use Rattle.plain_kernel.specs.Holders.{Sought, ends_by, held_at, is_sought, passing, passing_once};

use crate::counts::{count_of, gain, lose};
use crate::descriptions::Descriptions;
use crate::plain::{Description, Process};
use crate::tree::Tree;
use heap::Heap;
use ids::Num;
use std::alloc::AllocError;

/// How many descriptors give each description, and how many are open on each inode.
pub(crate) struct Holders {
    pub(crate) each: Tree<usize>,
    pub(crate) reading: Tree<usize>,
    pub(crate) writing: Tree<usize>,
}

impl Drop for Holders {
    fn drop(self) {
        let Holders {
            each: _,
            reading: _,
            writing: _,
        } = self;
    }
}

impl Holders {
    // None. It takes no memory.
    pub(crate) fn new(heap: Heap) -> Holders
        ensures { (s : Sought) → held_at result s ≡ 0 }
    {
        Holders {
            each: Tree::new(heap),
            reading: Tree::new(heap),
            writing: Tree::new(heap),
        }
    }

    // How many descriptors give a description.
    pub(crate) fn of(&self, description: Num) -> usize
        ensures { result ≡ count_at self.now.each description }
    {
        count_of(&self.each, description)
    }

    // How many are open on an inode, to write or to read.
    pub(crate) fn ends(&self, inode: Num, writing: bool) -> usize
        ensures { result ≡ held_at self.now (Sought.End writing inode) }
    {
        if writing {
            count_of(&self.writing, inode)
        } else {
            count_of(&self.reading, inode)
        }
    }

    // So many descriptors more are open as this description is, if there is one.
    pub(crate) fn gain_ends(
        &mut self,
        description: Option<&Description>,
        count: usize,
    ) -> Result<(), AllocError>
        ensures gained { OnOk result ((s : Sought) → held_at self.new s
            ≡ held_at self.old s + ends_by count (option_copied description.entry) s) }
        ensures err { OnErr result ((s : Sought) → held_at self.new s ≡ held_at self.old s) }
    {
        match description {
            Some(description) => self.gain_both(description, count),
            None => Ok(()),
        }
    }

    // So many descriptors more are open as this description is.
    fn gain_both(&mut self, description: &Description, count: usize) -> Result<(), AllocError>
        ensures gained { OnOk result ((s : Sought) → held_at self.new s
            ≡ held_at self.old s + ends_by count (Some description.now) s) }
        ensures err { OnErr result ((s : Sought) → held_at self.new s ≡ held_at self.old s) }
    {
        let inode = description.inode;
        gain_if(&mut self.reading, inode, description.reading, count)?;
        match gain_if(&mut self.writing, inode, description.writing, count) {
            Ok(()) => Ok(()),
            Err(refused) => {
                lose_if(&mut self.reading, inode, description.reading, count);
                Err(refused)
            }
        }
    }

    // So many descriptors less are open as this description is, if there is one.
    pub(crate) fn lose_ends(&mut self, description: Option<&Description>, count: usize)
        ensures { (s : Sought) → held_at self.new s
            ≡ held_at self.old s - ends_by count (option_copied description.entry) s }
    {
        if let Some(description) = description {
            let inode = description.inode;
            lose_if(&mut self.reading, inode, description.reading, count);
            lose_if(&mut self.writing, inode, description.writing, count);
        }
    }

    // One descriptor more gives a description. Refused memory changes no count.
    pub(crate) fn hold(
        &mut self,
        descriptions: &Descriptions,
        description: Num,
    ) -> Result<(), AllocError>
        ensures gained { OnOk result ((s : Sought) → held_at self.new s
            ≡ held_at self.old s + cond (is_sought descriptions.now s description) 1 0) }
        ensures err { OnErr result ((s : Sought) → held_at self.new s ≡ held_at self.old s) }
    {
        gain(&mut self.each, description, 1)?;
        match self.gain_ends(descriptions.get(description), 1) {
            Ok(()) => Ok(()),
            Err(refused) => {
                lose(&mut self.each, description, 1);
                Err(refused)
            }
        }
    }

    // One descriptor less gives a description.
    pub(crate) fn let_go(&mut self, descriptions: &Descriptions, description: Num)
        ensures { (s : Sought) → held_at self.new s
            ≡ held_at self.old s - cond (is_sought descriptions.now s description) 1 0 }
    {
        lose(&mut self.each, description, 1);
        self.lose_ends(descriptions.get(description), 1);
    }

    // One descriptor less gives this description, if it is one.
    pub(crate) fn let_some_go(&mut self, descriptions: &Descriptions, description: Option<Num>)
        ensures { (s : Sought) → held_at self.new s
            ≡ held_at self.old s - passing_once (is_sought descriptions.now s) description }
    {
        if let Some(description) = description {
            self.let_go(descriptions, description);
        }
    }

    // These descriptors come. Refused memory changes no count.
    fn hold_each(
        &mut self,
        descriptions: &Descriptions,
        slots: &[(Num, Num)],
    ) -> Result<(), AllocError>
        ensures gained { OnOk result ((s : Sought) → held_at self.new s ≡ held_at self.old s
            + count_by (is_sought descriptions.now s) (map (λ e. e.1) slots.now)) }
        ensures err { OnErr result ((s : Sought) → held_at self.new s ≡ held_at self.old s) }
    {
        match slots {
            [] => Ok(()),
            [slot, rest @ ..] => {
                self.hold(descriptions, slot.1)?;
                match self.hold_each(descriptions, rest) {
                    Ok(()) => Ok(()),
                    Err(refused) => {
                        self.let_go(descriptions, slot.1);
                        Err(refused)
                    }
                }
            }
        }
    }

    // These descriptors go.
    fn let_each_go(&mut self, descriptions: &Descriptions, slots: &[(Num, Num)])
        ensures { (s : Sought) → held_at self.new s ≡ held_at self.old s
            - count_by (is_sought descriptions.now s) (map (λ e. e.1) slots.now) }
    {
        match slots {
            [] => (),
            [slot, rest @ ..] => {
                self.let_go(descriptions, slot.1);
                self.let_each_go(descriptions, rest);
            }
        }
    }

    // A process comes with all its descriptors, if there is one. Refused memory changes no count.
    pub(crate) fn hold_all(
        &mut self,
        descriptions: &Descriptions,
        process: Option<&Process>,
    ) -> Result<(), AllocError>
        ensures gained { OnOk result ((s : Sought) → held_at self.new s ≡ held_at self.old s
            + passing (is_sought descriptions.now s) (or_new (option_copied process.entry))) }
        ensures err { OnErr result ((s : Sought) → held_at self.new s ≡ held_at self.old s) }
    {
        match process {
            Some(process) => self.hold_each(descriptions, process.table.as_slice()),
            None => Ok(()),
        }
    }

    // A process goes with all its descriptors, if there is one.
    pub(crate) fn let_all_go(&mut self, descriptions: &Descriptions, process: Option<&Process>)
        ensures { (s : Sought) → held_at self.new s ≡ held_at self.old s
            - passing (is_sought descriptions.now s) (or_new (option_copied process.entry)) }
    {
        if let Some(process) = process {
            self.let_each_go(descriptions, process.table.as_slice());
        }
    }
}

// So many more count for a number, if it is open so. Refused memory changes nothing.
fn gain_if(
    counts: &mut Tree<usize>,
    num: Num,
    is_open: bool,
    count: usize,
) -> Result<(), AllocError>
    ensures gained { OnOk result ((n : ℕ) → count_at counts.new n
        ≡ count_at counts.old n + cond ((num == n) && is_open) count 0) }
    ensures err { OnErr result (counts.new ≡ counts.old) }
{
    if is_open && count > 0 {
        gain(counts, num, count)
    } else {
        Ok(())
    }
}

// So many less count for a number, if it is open so.
fn lose_if(counts: &mut Tree<usize>, num: Num, is_open: bool, count: usize)
    ensures { (n : ℕ) → count_at counts.new n
        ≡ count_at counts.old n - cond ((num == n) && is_open) count 0 }
{
    if is_open {
        lose(counts, num, count);
    }
}
