// All inodes, with how many names give each number: so a number's names are counted in few steps,
// and no name is looked for.
ghost use Rattle.std.specs.Prelude.{◌≡◌, ℕ, ◌+◌, ◌-◌, ◌==◌, cond, IfOk, OnOk, Some, []};
ghost use Rattle.std.specs.Prelude.{option_copied};
ghost use Rattle.model.specs.FiniteMap as map;
ghost use Rattle.model.specs.State.{File as A_file, Directory as A_directory, names_of_inode};
ghost use Rattle.plain_kernel.specs.Counts.{count_at, given_by_all, given_once};

use crate::counts::{count_of, gain, lose_some};
use crate::inode::{Inode, lose_all, names_out};
use crate::names::Names;
use crate::tree::Tree;
use heap::Heap;
use ids::{Name, Num};
use objects::FileData;
use std::alloc::AllocError;
use std::marker::Model;

/// What each number stands for, and how many names of all inodes give each number.
pub(crate) struct Inodes {
    each: Tree<Inode>,
    counts: Tree<usize>,
}

impl Drop for Inodes {
    fn drop(self) {
        let Inodes { each: _, counts: _ } = self;
    }
}

impl Model for Inodes {
    ghost use Rattle.std.specs.Ordering.{nat_cmp};
    ghost use Rattle.model.specs.FiniteMap as map;
    ghost use Rattle.model.specs.State.{Inode};
    ghost use Rattle.plain_kernel.specs.Counts.{AreCounted};

    ghost Value = { map.FinMap nat_cmp Inode };

    ghost view = { λ i. i.each };

    ghost invariant = { λ i. AreCounted i.each i.counts };
}

impl Inodes {
    // None. It takes no memory.
    pub(crate) fn new(heap: Heap) -> Inodes
        ensures { result ≡ map.empty }
    {
        Inodes {
            each: Tree::new(heap),
            counts: Tree::new(heap),
        }
    }

    // What a number stands for.
    pub(crate) fn get(&self, num: Num) -> Option<&Inode>
        ensures { option_copied result ≡ map.get self.now num }
    {
        self.each.get(num)
    }

    // How many names give a number.
    pub(crate) fn count(&self, num: Num) -> usize
        ensures { result ≡ given_by_all self.now num }
    {
        count_of(&self.counts, num)
    }

    // A number gets an inode without names. It gives the one before.
    pub(crate) fn insert(&mut self, num: Num, inode: Inode) -> Result<Option<Inode>, AllocError>
        requires { names_of_inode (Some inode) ≡ map.empty }
        ensures changed { OnOk result (self.new ≡ map.insert self.old num inode) }
        ensures before { IfOk result (λ before. before ≡ map.get self.old num) }
    {
        let before = self.each.insert(num, inode)?;
        lose_all(&mut self.counts, &before);
        Ok(before)
    }

    // A number stands for nothing any more.
    pub(crate) fn remove(&mut self, num: Num)
        ensures { self.new ≡ map.remove self.old num }
    {
        let before = self.each.remove(num);
        lose_all(&mut self.counts, &before);
        drop(before);
    }

    // The inodes where a name of a directory gives a number.
    pub(crate) fn with_name(
        self,
        heap: Heap,
        dir: Num,
        name: &Name,
        num: Num,
    ) -> Result<Inodes, AllocError>
        ensures { IfOk result (λ i. i ≡ map.insert self dir
            (A_directory (map.insert (names_of_inode (map.get self dir)) name.now num))) }
    {
        let Inodes {
            mut each,
            mut counts,
        } = self;
        match set_name(&mut each, &mut counts, heap, dir, name, num) {
            Ok(()) => Ok(Inodes { each, counts }),
            Err(refused) => {
                drop(each);
                drop(counts);
                Err(refused)
            }
        }
    }

    // The inodes where a name of a directory gives nothing any more.
    pub(crate) fn without_name(
        self,
        heap: Heap,
        dir: Num,
        name: &Name,
    ) -> Result<Inodes, AllocError>
        ensures { IfOk result (λ i. i ≡ map.insert self dir
            (A_directory (map.remove (names_of_inode (map.get self dir)) name.now))) }
    {
        let Inodes {
            mut each,
            mut counts,
        } = self;
        match take_name(&mut each, heap, dir, name) {
            Ok(before) => {
                lose_some(&mut counts, before);
                Ok(Inodes { each, counts })
            }
            Err(refused) => {
                drop(each);
                drop(counts);
                Err(refused)
            }
        }
    }
}

// Takes a directory's names out; an empty file stands in its place.
fn names_taken(each: &mut Tree<Inode>, heap: Heap, dir: Num) -> Result<Names, AllocError>
    ensures left { OnOk result (each.new ≡ map.insert each.old dir (A_file [])) }
    ensures taken { IfOk result (λ names. names ≡ names_of_inode (map.get each.old dir)) }
{
    let inode = each.insert(dir, Inode::file(FileData::new(heap)))?;
    Ok(names_out(heap, inode))
}

// A name of a directory gives nothing any more. It gives what the name gave before.
fn take_name(
    each: &mut Tree<Inode>,
    heap: Heap,
    dir: Num,
    name: &Name,
) -> Result<Option<Num>, AllocError>
    ensures changed { OnOk result (each.new ≡ map.insert each.old dir
        (A_directory (map.remove (names_of_inode (map.get each.old dir)) name.now))) }
    ensures before { IfOk result
        (λ before. before ≡ map.get (names_of_inode (map.get each.old dir)) name.now) }
{
    let mut names = names_taken(each, heap, dir)?;
    let before = names.remove(name);
    each.set(dir, Inode::directory(names))?;
    Ok(before)
}

// A name of a directory gives a number, and is counted in place of what it gave before.
fn set_name(
    each: &mut Tree<Inode>,
    counts: &mut Tree<usize>,
    heap: Heap,
    dir: Num,
    name: &Name,
    num: Num,
) -> Result<(), AllocError>
    ensures changed { OnOk result (each.new ≡ map.insert each.old dir
        (A_directory (map.insert (names_of_inode (map.get each.old dir)) name.now num))) }
    ensures counted { OnOk result ((n : ℕ) → count_at counts.new n
        ≡ count_at counts.old n + cond (num == n) 1 0
        - given_once n (map.get (names_of_inode (map.get each.old dir)) name.now)) }
{
    let mut names = names_taken(each, heap, dir)?;
    let before = names.insert(name, num)?;
    each.set(dir, Inode::directory(names))?;
    gain(counts, num, 1)?;
    lose_some(counts, before);
    Ok(())
}
