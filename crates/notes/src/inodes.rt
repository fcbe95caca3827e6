// What a transaction has changed of all inodes.
ghost use Rattle.std.specs.Prelude.{◌≡◌, ◌≢◌, ◌+◌, ◌≤◌, ◌<◌, ◌^◌, [], IfOk, None, OnErr, OnOk, length};
ghost use Rattle.std.specs.Prelude.{option_copied};
ghost use Rattle.std.specs.List.Sorted.{IsStrictlyIncreasing};
ghost use Rattle.ids.specs.declared.limits.TheConstants.{LARGEST_FILE};
ghost use Rattle.notes.specs.Patches.{kept_at, net_at, numbers_in};
ghost use Rattle.notes.specs.Notes.{AreNamed, At, IsCut, IsGiven, IsGone, IsMade, IsNamed};
ghost use Rattle.notes.specs.Notes.{IsAppended, IsPiped, IsPutBack, IsTaken, IsUnnamed, IsWritten};
ghost use Rattle.notes.specs.Notes.{IsGivenOver, IsTakenBack, IsWiped};
ghost use Rattle.notes.specs.Notes.{SameInodes};

use crate::change::{Contents, Former, InodeChange};
use crate::new_object::NewObject;
use heap::Heap;
use ids::{Name, Num};
use std::alloc::AllocError;
use std::collections::BTreeMap;
use std::marker::Model;
use store::OpenPipe;

/// The changes of all inodes.
#[derive(Drop)]
pub struct Inodes {
    heap: Heap,
    /// What is changed of each, by its number.
    pub each: BTreeMap<Num, InodeChange, Heap>,
}

impl Model for Inodes {
    ghost use Rattle.std.specs.Prelude.{ℕ, List};
    ghost use Rattle.notes.specs.declared.change.InodeChange.{InodeChange as Changed};

    ghost Value = { List (ℕ × Changed) };

    ghost view = { λ c. c.each.entries };
}

impl Inodes {
    /// Nothing is changed. It takes no memory.
    pub(crate) fn new(heap: Heap) -> Inodes
        ensures { result ≡ [] }
    {
        Inodes {
            heap,
            each: BTreeMap::new(heap),
        }
    }

    /// What is changed of an inode, where something may be. It takes no memory.
    pub fn get(&self, num: Num) -> Option<&InodeChange>
        ensures { option_copied result ≡ kept_at self.now num }
    {
        self.each.get(&num)
    }

    /// Makes a place for what will be changed of an inode. Refused memory changes nothing.
    pub(crate) fn make_place(&mut self, num: Num) -> Result<(), AllocError>
        ensures same { SameInodes self.old self.new }
        ensures ok { OnOk result (kept_at self.new num ≢ None) }
    {
        let heap = self.heap;
        if self.get(num).is_some() {
            return Ok(());
        }
        drop(self.each.insert(num, InodeChange::new())?);
        Ok(())
    }

    /// Makes a place where one name more can be counted that was given to the inode. Refused memory
    /// changes nothing.
    pub(crate) fn make_named(&mut self, num: Num) -> Result<(), AllocError>
        ensures same { SameInodes self.old self.new }
        ensures ok { OnOk result (kept_at self.new num ≢ None) }
        ensures count { OnOk result ((net_at self.new num).named + 1 < 2 ^ 64) }
    {
        self.make_place(num)?;
        match self.get(num) {
            Some(change) if change.named < usize::MAX => Ok(()),
            _ => Err(AllocError),
        }
    }

    /// Makes a place where one name more can be counted that was taken from the inode. Refused
    /// memory changes nothing.
    pub(crate) fn make_unnamed(&mut self, num: Num) -> Result<(), AllocError>
        ensures same { SameInodes self.old self.new }
        ensures ok { OnOk result (kept_at self.new num ≢ None) }
        ensures count { OnOk result ((net_at self.new num).unnamed + 1 < 2 ^ 64) }
    {
        self.make_place(num)?;
        match self.get(num) {
            Some(change) if change.unnamed < usize::MAX => Ok(()),
            _ => Err(AllocError),
        }
    }

    /// Notes what a name in a directory gives now, where there is a place for it. Refused memory
    /// changes nothing.
    pub(crate) fn note_name(
        &mut self,
        dir: Num,
        name: Name,
        given: Option<Num>,
    ) -> Result<(), AllocError>
        requires { kept_at self.old dir ≢ None }
        ensures ok { OnOk result (At dir (IsNamed name given) self.old self.new) }
        ensures err { OnErr result (SameInodes self.old self.new) }
    {
        let heap = self.heap;
        match self.each.get_mut(&dir) {
            Some(change) => change.note_name(heap, name, given),
            None => unreachable!(),
        }
    }

    /// Notes that a name of one directory is gone, and then that a name of another, or of the same,
    /// gives this number, where there are places for both. Refused memory changes nothing that
    /// shows.
    pub(crate) fn note_names(
        &mut self,
        from: Num,
        old: &Name,
        to: Num,
        new: Name,
        num: Num,
    ) -> Result<(), AllocError>
        requires from { kept_at self.old from ≢ None }
        requires to { kept_at self.old to ≢ None }
        ensures ok { OnOk result (AreNamed from old.now to new num self.old self.new) }
        ensures err { OnErr result (SameInodes self.old self.new) }
    {
        let noted = old.try_clone()?;
        let former = self.note_gone(from, noted)?;
        match self.note_name(to, new, Some(num)) {
            Ok(()) => {
                drop(former);
                Ok(())
            }
            Err(AllocError) => {
                self.put_back(from, old, former);
                Err(AllocError)
            }
        }
    }

    // Notes that a name of a directory is gone, where there is a place for it, and gives what the
    // note took the place of. Refused memory changes nothing that shows.
    fn note_gone(&mut self, dir: Num, name: Name) -> Result<Former, AllocError>
        requires { kept_at self.old dir ≢ None }
        ensures ok { IfOk result (λ former. At dir (IsGone name former) self.old self.new) }
        ensures err { OnErr result (SameInodes self.old self.new) }
    {
        let heap = self.heap;
        match self.each.get_mut(&dir) {
            Some(change) => change.note_gone(heap, name),
            None => unreachable!(),
        }
    }

    /// Notes that a name of a directory gives this number, where there is a place for it, and gives
    /// what the note took the place of. Refused memory changes nothing that shows.
    pub(crate) fn note_given(
        &mut self,
        dir: Num,
        name: Name,
        num: Num,
    ) -> Result<Former, AllocError>
        requires { kept_at self.old dir ≢ None }
        ensures ok { IfOk result
            (λ former. At dir (IsGivenOver name num former) self.old self.new) }
        ensures err { OnErr result (SameInodes self.old self.new) }
    {
        let heap = self.heap;
        match self.each.get_mut(&dir) {
            Some(change) => change.note_given(heap, name, num),
            None => unreachable!(),
        }
    }

    /// Takes the note of a name back that gives a number, in its place, with its room. It takes no
    /// memory.
    pub(crate) fn take_back(&mut self, dir: Num, name: &Name, former: Former)
        requires place { kept_at self.old dir ≢ None }
        requires room { 0 < (net_at self.old dir).promised }
        ensures { At dir (IsTakenBack name.now former) self.old self.new }
    {
        match self.each.get_mut(&dir) {
            Some(change) => change.take_back(name, former),
            None => unreachable!(),
        }
    }

    // Takes the note of a name back, in its place. It takes no memory.
    fn put_back(&mut self, dir: Num, name: &Name, former: Former)
        requires { kept_at self.old dir ≢ None }
        ensures { At dir (IsPutBack name.now former) self.old self.new }
    {
        match self.each.get_mut(&dir) {
            Some(change) => change.put_back(name, former),
            None => unreachable!(),
        }
    }

    /// Notes bytes that are written into a file, where there is a place for it. Refused memory
    /// changes nothing that shows.
    pub(crate) fn write(&mut self, file: Num, offset: usize, bytes: &[u8]) -> Result<(), AllocError>
        requires place { kept_at self.old file ≢ None }
        requires small { offset + length bytes.now ≤ LARGEST_FILE }
        ensures ok { OnOk result (At file (IsWritten offset bytes.now) self.old self.new) }
        ensures err { OnErr result (SameInodes self.old self.new) }
    {
        let heap = self.heap;
        match self.each.get_mut(&file) {
            Some(change) => change.write(heap, offset, bytes),
            None => unreachable!(),
        }
    }

    /// Notes that bytes of a file become zero, where there is a place for it. Refused memory changes
    /// nothing that shows.
    pub(crate) fn wipe(&mut self, file: Num, offset: usize, count: usize) -> Result<(), AllocError>
        requires place { kept_at self.old file ≢ None }
        requires small { offset + count ≤ LARGEST_FILE }
        ensures ok { OnOk result (At file (IsWiped offset count) self.old self.new) }
        ensures err { OnErr result (SameInodes self.old self.new) }
    {
        let heap = self.heap;
        match self.each.get_mut(&file) {
            Some(change) => change.wipe(heap, offset, count),
            None => unreachable!(),
        }
    }

    /// Notes a file's length, where there is a place for it. It takes no memory.
    pub(crate) fn cut(&mut self, file: Num, after: usize)
        requires place { kept_at self.old file ≢ None }
        requires small { after ≤ LARGEST_FILE }
        ensures { At file (IsCut after) self.old self.new }
    {
        let heap = self.heap;
        match self.each.get_mut(&file) {
            Some(change) => change.cut(heap, after),
            None => unreachable!(),
        }
    }

    /// Notes that so many bytes are taken from the front of a pipe, where there is a place for it.
    /// Refused memory changes nothing.
    pub(crate) fn take(&mut self, pipe: Num, count: usize) -> Result<(), AllocError>
        requires { kept_at self.old pipe ≢ None }
        ensures ok { OnOk result (At pipe (IsTaken count) self.old self.new) }
        ensures err { OnErr result (SameInodes self.old self.new) }
    {
        let heap = self.heap;
        match self.each.get_mut(&pipe) {
            Some(change) => change.take(heap, count),
            None => unreachable!(),
        }
    }

    /// Notes that these bytes are appended to a pipe, where there is a place for it. Refused memory
    /// changes nothing.
    pub(crate) fn append(&mut self, pipe: Num, bytes: &[u8]) -> Result<(), AllocError>
        requires { kept_at self.old pipe ≢ None }
        ensures ok { OnOk result (At pipe (IsAppended bytes.now) self.old self.new) }
        ensures err { OnErr result (SameInodes self.old self.new) }
    {
        let heap = self.heap;
        match self.each.get_mut(&pipe) {
            Some(change) => change.append(heap, bytes),
            None => unreachable!(),
        }
    }

    /// Notes that a pipe is new, in its place. It takes no memory.
    pub(crate) fn note_pipe(&mut self, num: Num, pipe: OpenPipe)
        requires place { kept_at self.old num ≢ None }
        requires empty { pipe.bytes ≡ [] }
        ensures { At num (IsPiped pipe.reader pipe.writer) self.old self.new }
    {
        let heap = self.heap;
        match self.each.get_mut(&num) {
            Some(change) => change.note_pipe(heap, pipe),
            None => unreachable!(),
        }
    }

    /// Notes that such an object is new, in its place, with its first name. It takes no memory.
    pub(crate) fn note_made(&mut self, num: Num, what: NewObject)
        requires place { kept_at self.old num ≢ None }
        requires count { (net_at self.old num).named + 1 < 2 ^ 64 }
        ensures { At num (IsMade what) self.old self.new }
    {
        let heap = self.heap;
        match self.each.get_mut(&num) {
            Some(change) => change.note_made(heap, what),
            None => unreachable!(),
        }
    }

    /// Notes that an inode has a name more, in its place. It takes no memory.
    pub(crate) fn note_named(&mut self, num: Num)
        requires place { kept_at self.old num ≢ None }
        requires count { (net_at self.old num).named + 1 < 2 ^ 64 }
        ensures { At num IsGiven self.old self.new }
    {
        match self.each.get_mut(&num) {
            Some(change) => change.note_named(),
            None => unreachable!(),
        }
    }

    /// Notes that a name was taken from an inode, in its place. It takes no memory.
    pub(crate) fn note_unnamed(&mut self, num: Num)
        requires place { kept_at self.old num ≢ None }
        requires count { (net_at self.old num).unnamed + 1 < 2 ^ 64 }
        ensures { At num IsUnnamed self.old self.new }
    {
        match self.each.get_mut(&num) {
            Some(change) => change.note_unnamed(),
            None => unreachable!(),
        }
    }

    /// The numbers of the blocks of a file into which bytes were written, rising; none where the
    /// file was not written. It takes no memory.
    pub fn changed(&self, num: Num) -> &[u64]
        ensures value { result.now ≡ numbers_in (net_at self.now num).contents }
        ensures rising { IsStrictlyIncreasing result.now }
    {
        match self.get(num) {
            Some(change) => changed_in(&change.contents),
            None => &[],
        }
    }
}

fn changed_in(contents: &Contents) -> &[u64]
    ensures value { result.now ≡ numbers_in contents.now }
    ensures rising { IsStrictlyIncreasing result.now }
{
    match contents {
        Contents::Bytes { bytes, .. } => bytes.changed(),
        Contents::Names { .. } => &[],
        Contents::Pipe { .. } => &[],
        Contents::Fixed(_) => &[],
        Contents::Same => &[],
    }
}
