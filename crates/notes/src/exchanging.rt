// Two names that change places, as a transaction notes them.
ghost use Rattle.std.specs.Prelude.{◌≡◌, ◌≢◌, ◌+◌, ◌≤◌, ◌<◌, ℕ, List, Option, [], IfOk, None, OnErr};
ghost use Rattle.std.specs.Prelude.{OnOk, Some};
ghost use Rattle.model.specs.FiniteMap.{empty, insert};
ghost use Rattle.model.specs.State.{Inode};
ghost use Rattle.model.specs.Changes.{Swap};
ghost use Rattle.notes.specs.Notes.{AreSwapped, IsGivenOver, IsTakenBack, SameInodes, SamePatches};
ghost use Rattle.notes.specs.Notes.{put_back};
ghost use Rattle.notes.specs.Patches.{AllReach, added_by, form_of, kept_at, net_of, new_ends};
ghost use Rattle.notes.specs.Patches.{numbers_in, patched};
ghost use Rattle.notes.specs.Steps.{IsSwap, TakesIn, listed, name_noted};
ghost use Rattle.notes.specs.declared.change.Contents.TheVariants.{Names};
ghost use Rattle.notes.specs.declared.change.Former.TheVariants.{Other};

use crate::change::{Contents, Former, InodeChange, first_name};
use crate::inodes::Inodes;
use crate::patches::Patches;
use heap::Heap;
use ids::{Edit, Name, Num};
use std::alloc::AllocError;
use std::mem;

impl InodeChange {
    /// Notes that a name of the directory gives this number, with the room that is promised for it,
    /// and gives what the note took the place of. Refused memory changes nothing.
    pub(crate) fn note_given(
        &mut self,
        heap: Heap,
        name: Name,
        num: Num,
    ) -> Result<Former, AllocError>
        ensures ok { IfOk result (λ former.
            IsGivenOver name num former (net_of (Some self.old)) (net_of (Some self.new))) }
        ensures err { OnErr result (self.new ≡ self.old) }
    {
        let Some(promised) = self.promised.checked_add(1) else {
            return Err(AllocError);
        };
        let former = note_given_in(&mut self.contents, heap, name, num)?;
        self.promised = promised;
        Ok(former)
    }

    /// Takes the note of a name back that gives a number, with its room. It takes no memory.
    pub(crate) fn take_back(&mut self, name: &Name, former: Former)
        requires { 0 < self.old.promised }
        ensures { IsTakenBack name.now former (net_of (Some self.old)) (net_of (Some self.new)) }
    {
        self.put_back(name, former);
        self.promised -= 1;
    }
}

// Notes that a name gives this number, and gives what the note took the place of; what is no directory
// goes.
fn note_given_in(
    contents: &mut Contents,
    heap: Heap,
    name: Name,
    num: Num,
) -> Result<Former, AllocError>
    ensures contents { OnOk result ((o : Option Inode)
        → patched contents.new o ≡ name_noted name (Some num) (patched contents.old o)) }
    ensures form { OnOk result (form_of contents.new ≡ listed (form_of contents.old)) }
    ensures added { OnOk result (added_by contents.new ≤ added_by contents.old + 1) }
    ensures numbers { OnOk result (numbers_in contents.new ≡ []) }
    ensures ends { OnOk result (new_ends contents.new ≡ None) }
    ensures reach { OnOk result ((o : Option Inode) → AllReach contents.new o) }
    ensures back { IfOk result (λ former. put_back former name contents.new ≡ contents.old) }
    ensures err { OnErr result (contents.new ≡ contents.old) }
{
    match contents {
        Contents::Names { names, .. } => {
            let former = names.look(&name);
            names.note(name, Some(num))?;
            Ok(Former::Noted(former))
        }
        Contents::Same => note_first_given(contents, heap, false, name, num),
        Contents::Bytes { .. } => note_first_given(contents, heap, true, name, num),
        Contents::Pipe { .. } => note_first_given(contents, heap, true, name, num),
        Contents::Fixed(_) => note_first_given(contents, heap, true, name, num),
    }
}

// Notes that a name gives this number, in place of what was noted, and gives that.
fn note_first_given(
    contents: &mut Contents,
    heap: Heap,
    fresh: bool,
    name: Name,
    num: Num,
) -> Result<Former, AllocError>
    ensures ok { OnOk result (contents.new ≡ Names fresh (insert empty name (Some num))) }
    ensures former { IfOk result (λ former. former ≡ Other contents.old) }
    ensures err { OnErr result (contents.new ≡ contents.old) }
{
    let noted = first_name(heap, fresh, name, Some(num))?;
    Ok(Former::Other(mem::replace(contents, noted)))
}

impl Inodes {
    /// Notes that two names change places, where there are places for both. Refused memory changes
    /// nothing that shows.
    pub(crate) fn note_swapped(
        &mut self,
        first: Num,
        first_name: &Name,
        first_inode: Num,
        second: Num,
        second_name: Name,
        second_inode: Num,
    ) -> Result<(), AllocError>
        requires first { kept_at self.old first ≢ None }
        requires second { kept_at self.old second ≢ None }
        ensures ok { OnOk result (AreSwapped
            first first_name.now first_inode second second_name second_inode self.old self.new) }
        ensures err { OnErr result (SameInodes self.old self.new) }
    {
        let noted = first_name.try_clone()?;
        let former = self.note_given(first, noted, second_inode)?;
        match self.note_name(second, second_name, Some(first_inode)) {
            Ok(()) => {
                drop(former);
                Ok(())
            }
            Err(AllocError) => {
                self.take_back(first, first_name, former);
                Err(AllocError)
            }
        }
    }
}

impl Patches {
    /// Notes an exchange of two names. Refused memory changes nothing that shows.
    pub(crate) fn exchange(&mut self, chosen: &[Num], edit: Edit) -> Result<(), AllocError>
        requires { IsSwap edit }
        ensures ok { OnOk result (TakesIn chosen.now edit self.old self.new) }
        ensures err { OnErr result (SamePatches self.old self.new) }
        ensures openings { self.new.openings ≡ self.old.openings }
        ensures slots { self.new.slots ≡ self.old.slots }
    {
        // For the proof: the edit needs no new number.
        let _chosen = chosen;
        match edit {
            Edit::Swap {
                first,
                first_name,
                first_inode,
                second,
                second_name,
                second_inode,
            } => {
                let noted = self.swap(
                    first,
                    &first_name,
                    first_inode,
                    second,
                    second_name,
                    second_inode,
                );
                drop(first_name);
                noted
            }
            _ => unreachable!(),
        }
    }

    // Two names change places.
    fn swap(
        &mut self,
        first: Num,
        first_name: &Name,
        first_inode: Num,
        second: Num,
        second_name: Name,
        second_inode: Num,
    ) -> Result<(), AllocError>
        ensures ok { OnOk result ((chosen : List ℕ) → TakesIn chosen
            (Swap first first_name.now first_inode second second_name second_inode)
            self.old self.new) }
        ensures err { OnErr result (SamePatches self.old self.new) }
        ensures openings { self.new.openings ≡ self.old.openings }
        ensures slots { self.new.slots ≡ self.old.slots }
    {
        self.inodes.make_place(first)?;
        self.inodes.make_place(second)?;
        self.inodes.note_swapped(
            first,
            first_name,
            first_inode,
            second,
            second_name,
            second_inode,
        )
    }
}
