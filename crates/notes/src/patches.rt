// All that a transaction has changed, object by object.
ghost use Rattle.std.specs.Prelude.{◌≡◌, ◌≢◌, ◌+◌, ◌≤◌, ◌∷◌, [], ℕ, List, length, OnErr, OnOk};
ghost use Rattle.std.specs.Prelude.{◌<◌, None, Some, true, IfOk, IfSome, IsOk, IsSome};
ghost use Rattle.ids.specs.declared.limits.TheConstants.{LARGEST_FILE};
ghost use Rattle.model.specs.Changes.{Append, Cut, Move, Name_file, Put_bytes, Set_rights};
ghost use Rattle.model.specs.Changes.{Take, news};
ghost use Rattle.notes.specs.Notes.{SamePatches};
ghost use Rattle.notes.specs.Patches.{kept_at};
ghost use Rattle.std.specs.List.{AllByRecursion, sum_by};
ghost use Rattle.notes.specs.Steps.{AreApart, CanEdit, HasPlaces, IsFirst, IsLast, IsPlaceOf};
ghost use Rattle.notes.specs.Steps.{NeedsPlace};
ghost use Rattle.notes.specs.Steps.{IsNaming, TakesAll, TakesIn, is_last, making, unnaming};
ghost use Rattle.notes.specs.declared.change.Made.{Made as What};

use crate::edits::{at_start, inode_replaced, is_last, number};
use crate::inodes::Inodes;
use crate::new_object::NewObject;
use crate::new_rights::NewRights;
use crate::opening::Openings;
use crate::slots::Slots;
use fdtable::SlotPlace;
use heap::Heap;
use ids::{Bytes, Edit, Name, Num, Replaced, Rights};
use std::alloc::AllocError;
use std::marker::Model;

/// All that a transaction has changed.
#[derive(Drop)]
pub struct Patches {
    /// What is changed of inodes.
    pub inodes: Inodes,
    /// What is set of the rights of inodes.
    pub rights: NewRights,
    /// What is changed of descriptions.
    pub openings: Openings,
    /// What is changed of the descriptors of processes.
    pub slots: Slots,
    /// What has lost a name, in order, once for each name.
    pub unnamed_inodes: Vec<Num, Heap>,
}

impl Model for Patches {
    ghost use Rattle.notes.specs.Patches.{Patches};

    ghost Value = { Patches };

    ghost view = { λ p. record {
      inodes = p.inodes;
      rights = p.rights;
      openings = p.openings;
      slots = p.slots;
      unnamed_inodes = p.unnamed_inodes.items;
    } };
}

impl Patches {
    /// Nothing is changed. It takes no memory.
    pub fn new(heap: Heap) -> Patches
        ensures { result ≡ record {
          inodes = [];
          rights = [];
          openings = [];
          slots = [];
          unnamed_inodes = [];
        } }
    {
        Patches {
            inodes: Inodes::new(heap),
            rights: NewRights::new(heap),
            openings: Openings::new(heap),
            slots: Slots::new(heap),
            unnamed_inodes: Vec::new(heap),
        }
    }

    /// Makes places for an edit of a description or a slot. Refused memory changes nothing.
    pub(crate) fn make_places(&mut self, chosen: &[Num], edit: &Edit) -> Result<(), AllocError>
        requires { (m : ℕ) × IsLast m edit.now × (m + news edit.now ≤ length chosen.now) }
        ensures same { SamePatches self.old self.new }
        ensures ok { OnOk result (HasPlaces chosen.now edit.now self.new) }
    {
        match edit {
            Edit::OpenInode { index, process, .. } => {
                self.openings.make_place(chosen[*index as usize])?;
                self.slots.make_place(*process)
            }
            Edit::SetOffset { description, .. } => self.openings.make_place(*description),
            Edit::ShareSlot { process, .. } => self.slots.make_place(*process),
            Edit::ClearSlot { process, .. } => self.slots.make_place(*process),
            _ => unreachable!(),
        }
    }

    /// Notes an edit of a description or a slot, in its places. Of the descriptor's place memory is asked
    /// for where there is none; refused memory changes nothing that shows.
    pub(crate) fn note_last(
        &mut self,
        chosen: &[Num],
        edit: &Edit,
        place: Option<SlotPlace>,
    ) -> Result<(), AllocError>
        requires last { (m : ℕ) × IsLast m edit.now × (m + news edit.now ≤ length chosen.now) }
        requires places { HasPlaces chosen.now edit.now self.old }
        requires fits { IfSome place (IsPlaceOf edit.now) }
        ensures ok { OnOk result (TakesIn chosen.now edit.now self.old self.new) }
        ensures err { OnErr result (self.new ≡ self.old) }
        ensures sure { NeedsPlace edit.now → IsSome place → IsOk result }
        ensures free { (NeedsPlace edit.now → ⊥) → IsOk result }
    {
        match edit {
            Edit::OpenInode {
                index,
                inode,
                mode,
                process,
                descriptor,
            } => {
                let description = chosen[*index as usize];
                let opened = at_start(number(chosen, *inode), *mode);
                self.slots
                    .note(*process, *descriptor, Some(description), place)?;
                self.openings.open(description, opened);
                Ok(())
            }
            Edit::SetOffset {
                description,
                offset,
            } => {
                self.openings.move_to(*description, *offset);
                Ok(())
            }
            Edit::ShareSlot {
                process,
                descriptor,
                description,
                ..
            } => self
                .slots
                .note(*process, *descriptor, Some(*description), place),
            Edit::ClearSlot {
                process,
                descriptor,
                ..
            } => self.slots.note(*process, *descriptor, None, place),
            _ => unreachable!(),
        }
    }

    // A place for the descriptor that an edit changes, if it changes one. Refused memory gives none.
    fn slot_place(&self, edit: &Edit) -> Result<Option<SlotPlace>, AllocError>
        requires { (m : ℕ) × IsLast m edit.now }
        ensures fits { IfOk result (λ place. IfSome place (IsPlaceOf edit.now)) }
        ensures there { IfOk result (λ place. NeedsPlace edit.now → IsSome place) }
    {
        let heap = *self.unnamed_inodes.allocator();
        match edit {
            Edit::OpenInode { descriptor, .. }
            | Edit::ShareSlot { descriptor, .. }
            | Edit::ClearSlot { descriptor, .. } => Ok(Some(SlotPlace::new(heap, *descriptor)?)),
            _ => Ok(None),
        }
    }

    /// Notes an edit of a name, of bytes or of rights, or a new pipe. Refused memory changes nothing
    /// that shows.
    pub(crate) fn note_first(&mut self, chosen: &[Num], edit: Edit) -> Result<(), AllocError>
        requires first { IsFirst edit }
        requires count { news edit ≤ length chosen.now }
        requires apart { AreApart chosen.now edit }
        ensures ok { OnOk result (TakesIn chosen.now edit self.old self.new) }
        ensures err { OnErr result (SamePatches self.old self.new) }
        ensures openings { (d : ℕ) → kept_at self.old.openings d ≢ None
            → kept_at self.new.openings d ≢ None }
        ensures slots { (pid : ℕ) → kept_at self.old.slots pid ≢ None
            → kept_at self.new.slots pid ≢ None }
    {
        match edit {
            Edit::PutBytes {
                file,
                offset,
                bytes,
                ..
            } => {
                let noted = self.write(file, offset, &bytes);
                drop(bytes);
                noted
            }
            Edit::Wipe {
                file,
                offset,
                count,
            } => self.wipe(file, offset, count),
            Edit::Cut { file, length, .. } => self.cut(file, length),
            Edit::Take { pipe, count } => self.take(pipe, count),
            Edit::Append { pipe, bytes } => {
                let noted = self.append(pipe, &bytes);
                drop(bytes);
                noted
            }
            Edit::SetRights { inode, rights } => self.set_rights(inode, rights),
            Edit::MakePipe {
                process,
                reader,
                writer,
                ..
            } => self.make_pipe(chosen[0], process, (reader, chosen[1]), (writer, chosen[2])),
            other => self.note_naming(chosen, other),
        }
    }

    // Notes an edit of a name. Refused memory changes nothing that shows.
    fn note_naming(&mut self, chosen: &[Num], edit: Edit) -> Result<(), AllocError>
        requires naming { IsNaming edit }
        requires count { news edit ≤ length chosen.now }
        requires apart { AreApart chosen.now edit }
        ensures ok { OnOk result (TakesIn chosen.now edit self.old self.new) }
        ensures err { OnErr result (SamePatches self.old self.new) }
        ensures openings { self.new.openings ≡ self.old.openings }
        ensures slots { self.new.slots ≡ self.old.slots }
    {
        match edit {
            Edit::MakeDirectory { parent, name, .. } => {
                self.make(NewObject::Directory, parent, name, chosen[0])
            }
            Edit::MakeFile { parent, name, .. } => {
                self.make(NewObject::File, parent, name, chosen[0])
            }
            Edit::MakeFixed {
                parent,
                name,
                fixed,
                ..
            } => self.make(NewObject::Fixed(fixed), parent, name, chosen[0]),
            Edit::NameFile { parent, name, file } => self.link(parent, name, file),
            Edit::UnnameFile { parent, name, file } => self.unname(parent, name, file),
            Edit::UnnameDirectory {
                parent,
                name,
                directory,
            } => self.unname(parent, name, directory),
            Edit::Move {
                from,
                old_name,
                to,
                new_name,
                inode,
                replaced,
            } => {
                let noted = self.rename(from, &old_name, to, new_name, inode, replaced);
                drop(old_name);
                noted
            }
            other => self.exchange(chosen, other),
        }
    }

    // A new object with its name.
    fn make(&mut self, what: NewObject, parent: Num, name: Name, num: Num) -> Result<(), AllocError>
        requires { num ≢ parent }
        ensures ok { OnOk result (TakesIn (num ∷ []) (making what parent name) self.old self.new) }
        ensures err { OnErr result (SamePatches self.old self.new) }
        ensures openings { self.new.openings ≡ self.old.openings }
        ensures slots { self.new.slots ≡ self.old.slots }
    {
        self.inodes.make_named(num)?;
        self.inodes.make_place(parent)?;
        self.inodes.note_name(parent, name, Some(num))?;
        self.inodes.note_made(num, what);
        Ok(())
    }

    // One more name for a file, or for anything else that is no directory.
    fn link(&mut self, parent: Num, name: Name, file: Num) -> Result<(), AllocError>
        ensures ok { OnOk result ((chosen : List ℕ)
            → TakesIn chosen (Name_file parent name file) self.old self.new) }
        ensures err { OnErr result (SamePatches self.old self.new) }
        ensures openings { self.new.openings ≡ self.old.openings }
        ensures slots { self.new.slots ≡ self.old.slots }
    {
        self.inodes.make_named(file)?;
        self.inodes.make_place(parent)?;
        self.inodes.note_name(parent, name, Some(file))?;
        self.inodes.note_named(file);
        Ok(())
    }

    // A name goes.
    fn unname(&mut self, parent: Num, name: Name, num: Num) -> Result<(), AllocError>
        ensures ok { OnOk result ((chosen : List ℕ) (what : What)
            → TakesIn chosen (unnaming what parent name num) self.old self.new) }
        ensures err { OnErr result (SamePatches self.old self.new) }
        ensures openings { self.new.openings ≡ self.old.openings }
        ensures slots { self.new.slots ≡ self.old.slots }
    {
        self.unnamed_inodes.reserve(1)?;
        self.inodes.make_unnamed(num)?;
        self.inodes.make_place(parent)?;
        self.inodes.note_name(parent, name, None)?;
        self.inodes.note_unnamed(num);
        self.unnamed_inodes.push(num).unwrap();
        Ok(())
    }

    // A name moves, and takes the place of what had the new name.
    fn rename(
        &mut self,
        from: Num,
        old: &Name,
        to: Num,
        new: Name,
        num: Num,
        replaced: Replaced,
    ) -> Result<(), AllocError>
        ensures ok { OnOk result ((chosen : List ℕ)
            → TakesIn chosen (Move from old.now to new num replaced) self.old self.new) }
        ensures err { OnErr result (SamePatches self.old self.new) }
        ensures openings { self.new.openings ≡ self.old.openings }
        ensures slots { self.new.slots ≡ self.old.slots }
    {
        self.inodes.make_place(from)?;
        self.inodes.make_place(to)?;
        match inode_replaced(replaced) {
            None => self.inodes.note_names(from, old, to, new, num),
            Some(unnamed) => {
                self.unnamed_inodes.reserve(1)?;
                self.inodes.make_unnamed(unnamed)?;
                self.inodes.note_names(from, old, to, new, num)?;
                self.inodes.note_unnamed(unnamed);
                self.unnamed_inodes.push(unnamed).unwrap();
                Ok(())
            }
        }
    }

    // Bytes are written into a file.
    fn write(&mut self, file: Num, offset: u64, bytes: &Bytes) -> Result<(), AllocError>
        requires { offset + length bytes.now ≤ LARGEST_FILE }
        ensures ok { OnOk result ((before : ℕ)
            → TakesIn [] (Put_bytes file offset bytes.now before) self.old self.new) }
        ensures err { OnErr result (SamePatches self.old self.new) }
        ensures openings { self.new.openings ≡ self.old.openings }
        ensures slots { self.new.slots ≡ self.old.slots }
    {
        self.inodes.make_place(file)?;
        self.inodes.write(file, offset as usize, bytes.as_slice())
    }

    // A file's length changes.
    fn cut(&mut self, file: Num, after: u64) -> Result<(), AllocError>
        requires { after ≤ LARGEST_FILE }
        ensures ok { OnOk result ((before : ℕ)
            → TakesIn [] (Cut file before after) self.old self.new) }
        ensures err { OnErr result (SamePatches self.old self.new) }
        ensures openings { self.new.openings ≡ self.old.openings }
        ensures slots { self.new.slots ≡ self.old.slots }
    {
        self.inodes.make_place(file)?;
        self.inodes.cut(file, after as usize);
        Ok(())
    }

    // Bytes are taken from the front of a pipe.
    fn take(&mut self, pipe: Num, count: u32) -> Result<(), AllocError>
        ensures ok { OnOk result (TakesIn [] (Take pipe count) self.old self.new) }
        ensures err { OnErr result (SamePatches self.old self.new) }
        ensures openings { self.new.openings ≡ self.old.openings }
        ensures slots { self.new.slots ≡ self.old.slots }
    {
        self.inodes.make_place(pipe)?;
        self.inodes.take(pipe, count as usize)
    }

    // Bytes are appended to a pipe.
    fn append(&mut self, pipe: Num, bytes: &Bytes) -> Result<(), AllocError>
        ensures ok { OnOk result (TakesIn [] (Append pipe bytes.now) self.old self.new) }
        ensures err { OnErr result (SamePatches self.old self.new) }
        ensures openings { self.new.openings ≡ self.old.openings }
        ensures slots { self.new.slots ≡ self.old.slots }
    {
        self.inodes.make_place(pipe)?;
        self.inodes.append(pipe, bytes.as_slice())
    }

    // The permissions and the owner of an inode are set.
    fn set_rights(&mut self, inode: Num, rights: Rights) -> Result<(), AllocError>
        ensures ok { OnOk result ((chosen : List ℕ)
            → TakesIn chosen (Set_rights inode rights) self.old self.new) }
        ensures err { OnErr result (SamePatches self.old self.new) }
        ensures openings { self.new.openings ≡ self.old.openings }
        ensures slots { self.new.slots ≡ self.old.slots }
    {
        self.rights.set(inode, rights)
    }

    /// Notes what a call changes: one edit or two, with the new numbers of what they make.
    ///
    /// `AllocError` where memory is refused, or where a count of names would not fit; then all shows as
    /// before.
    pub fn note(&mut self, chosen: &[Num], mut edits: Vec<Edit, Heap>) -> Result<(), AllocError>
        requires kinds { CanEdit edits.items }
        requires count { length chosen.now ≡ sum_by news edits.items }
        requires apart { AllByRecursion (AreApart chosen.now) edits.items }
        ensures ok { OnOk result (TakesAll chosen.now edits.entry.items self.old self.new) }
        ensures err { OnErr result (SamePatches self.old self.new) }
    {
        match edits.pop() {
            None => Ok(()),
            Some(last) => match edits.pop() {
                None => self.note_one(chosen, last),
                Some(first) => {
                    let noted = self.note_two(chosen, first, &last);
                    drop(last);
                    noted
                }
            },
        }
    }

    // A call with one edit.
    fn note_one(&mut self, chosen: &[Num], edit: Edit) -> Result<(), AllocError>
        requires kinds { CanEdit (edit ∷ []) }
        requires count { length chosen.now ≡ news edit }
        requires apart { AreApart chosen.now edit }
        ensures ok { OnOk result (TakesAll chosen.now (edit ∷ []) self.old self.new) }
        ensures err { OnErr result (SamePatches self.old self.new) }
    {
        if is_last(&edit) {
            let noted = self.note_lone_last(chosen, &edit);
            drop(edit);
            noted
        } else {
            self.note_first(chosen, edit)
        }
    }

    // A call with one edit, which is of a description or a slot.
    fn note_lone_last(&mut self, chosen: &[Num], edit: &Edit) -> Result<(), AllocError>
        requires kinds { CanEdit (edit.now ∷ []) }
        requires count { length chosen.now ≡ news edit.now }
        requires last { is_last edit.now ≡ true }
        ensures ok { OnOk result (TakesAll chosen.now (edit.now ∷ []) self.old self.new) }
        ensures err { OnErr result (SamePatches self.old self.new) }
    {
        self.make_places(chosen, edit)?;
        self.note_last(chosen, edit, None)
    }

    // A call with two edits: the places for the second are made first.
    fn note_two(&mut self, chosen: &[Num], first: Edit, last: &Edit) -> Result<(), AllocError>
        requires kinds { CanEdit (first ∷ last.now ∷ []) }
        requires count { length chosen.now ≡ news first + news last.now }
        requires apart { AreApart chosen.now first }
        ensures ok { OnOk result (TakesAll chosen.now (first ∷ last.now ∷ []) self.old self.new) }
        ensures err { OnErr result (SamePatches self.old self.new) }
    {
        if let Err(refused) = self.make_places(chosen, last) {
            drop(first);
            return Err(refused);
        }
        match self.slot_place(last) {
            Ok(place) => {
                self.note_first(chosen, first)?;
                self.note_last(chosen, last, place)
            }
            Err(refused) => {
                drop(first);
                Err(refused)
            }
        }
    }
}
