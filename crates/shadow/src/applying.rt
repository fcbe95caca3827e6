// What a plain call changes, made at once in the committed state.
ghost use Rattle.std.specs.Prelude.{◌≡◌, ◌≤◌, ◌<◌, ◌+◌, ◌∷◌, [], ℕ, List, Some, IfOk, OnErr, OnOk};
ghost use Rattle.std.specs.Prelude.{length};
ghost use Rattle.std.specs.List.{sum_by};
ghost use Rattle.ids.specs.declared.limits.TheConstants.{LARGEST_FILE};
ghost use Rattle.model.specs.State.{A_file, kind_of};
ghost use Rattle.model.specs.Changes.{Append, Cut, Make_directory, Make_file, Make_fixed, Move};
ghost use Rattle.model.specs.Changes.{Name_file, Put_bytes, Set_rights, Take};
ghost use Rattle.model.specs.Changes.{all_applied, applied, news, tidy};
ghost use Rattle.call_laws.specs.Fits.{Fits, FitsAll};
ghost use Rattle.shadow.specs.Claims.{AreUnused, Claim, Covers, HaveParents, KeepsMore, KeepsSame};
ghost use Rattle.shadow.specs.Claims.{claimed_by, claimed_by_one, reserved};
ghost use Rattle.notes.specs.Log.{effect};
ghost use Rattle.notes.specs.Steps.{CanEdit, IsFirst, IsNaming, TakesNoMemory, unnaming};
ghost use Rattle.notes.specs.declared.change.Made.{Made as What};

use crate::claiming::parents_of;
use crate::closing::free;
use crate::laying::pipe_len;
use crate::slotting::room_for;
use crate::stable::Stable;
use heap::Heap;
use ids::{Edit, Fixed, Name, Num, Nums, Replaced, Rights};
use notes::{inode_replaced, is_last};
use objects::FileData;
use std::alloc::AllocError;
use store::{Object, OpenFile};

impl Stable {
    /// Makes the changes of one call at once, with new numbers for what they make, which are
    /// answered. What nothing leads to then is freed. Refused memory changes nothing.
    pub fn apply(&mut self, edits: Vec<Edit, Heap>) -> Result<Nums, AllocError>
        requires kinds { CanEdit edits.items }
        requires parents { HaveParents self.old.reserves edits.items }
        requires fits { (chosen : List ℕ) → AreUnused self.old edits.items chosen
            → FitsAll chosen self.old.state edits.items }
        ensures new { IfOk result (AreUnused self.old edits.entry.items) }
        ensures state { IfOk result (λ chosen. self.new.state
            ≡ tidy (all_applied chosen edits.entry.items self.old.state)) }
        ensures kept { KeepsSame self.old self.new }
        ensures err { OnErr result (self.new.state ≡ self.old.state) }
    {
        let heap = *edits.allocator();
        let parents = parents_of(edits.as_slice());
        let chosen = self.claim(heap, edits.as_slice())?;
        match self.perform(chosen.as_slice(), edits) {
            Ok(()) => Ok(chosen),
            Err(AllocError) => {
                self.release_claims(chosen.as_slice(), parents);
                drop(chosen);
                Err(AllocError)
            }
        }
    }

    // Makes a call's changes, with what was kept for them. Refused memory changes nothing.
    fn perform(&mut self, chosen: &[Num], mut edits: Vec<Edit, Heap>) -> Result<(), AllocError>
        requires kinds { CanEdit edits.items }
        requires count { length chosen.now ≡ sum_by news edits.items }
        requires fits { FitsAll chosen.now self.old.state edits.items }
        requires covers { Covers self.old (effect chosen.now edits.items ∷ []) }
        ensures state { OnOk result (self.new.state
            ≡ tidy (all_applied chosen.now edits.entry.items self.old.state)) }
        ensures kept { OnOk result (KeepsMore self.new self.old
            (λ c. claimed_by c (effect chosen.now edits.entry.items))) }
        ensures err { OnErr result (self.new.state ≡ self.old.state) }
        ensures same { OnErr result (KeepsSame self.old self.new) }
    {
        // For the proof: the state is tidied before the change.
        self.state_is_tidied();
        match edits.pop() {
            None => Ok(()),
            Some(last) => match edits.pop() {
                None => self.perform_one(chosen, last),
                Some(first) => {
                    let performed = self.perform_two(chosen, first, &last);
                    drop(last);
                    performed
                }
            },
        }
    }

    // A call with one edit.
    fn perform_one(&mut self, chosen: &[Num], edit: Edit) -> Result<(), AllocError>
        requires kinds { CanEdit (edit ∷ []) }
        requires count { length chosen.now ≡ news edit }
        requires fits { Fits chosen.now self.old.state edit }
        requires covers { Covers self.old (effect chosen.now (edit ∷ []) ∷ []) }
        ensures state { OnOk result (self.new.state ≡ tidy (applied chosen.now edit self.old.state)) }
        ensures kept { OnOk result (KeepsMore self.new self.old
            (λ c. claimed_by c (effect chosen.now (edit ∷ [])))) }
        ensures err { OnErr result (self.new.state ≡ self.old.state) }
        ensures same { OnErr result (KeepsSame self.old self.new) }
    {
        if is_last(&edit) {
            let performed = self.perform_last(chosen, &edit, None);
            drop(edit);
            performed
        } else {
            self.perform_first(chosen, edit)
        }
    }

    // A call with two edits: room for the slot of the second is made first. Refused memory changes
    // nothing.
    fn perform_two(&mut self, chosen: &[Num], first: Edit, last: &Edit) -> Result<(), AllocError>
        requires kinds { CanEdit (first ∷ last.now ∷ []) }
        requires count { length chosen.now ≡ sum_by news (first ∷ last.now ∷ []) }
        requires fits { FitsAll chosen.now self.old.state (first ∷ last.now ∷ []) }
        requires covers { Covers self.old (effect chosen.now (first ∷ last.now ∷ []) ∷ []) }
        ensures state { OnOk result (self.new.state
            ≡ tidy (all_applied chosen.now (first ∷ last.now ∷ []) self.old.state)) }
        ensures kept { OnOk result (KeepsMore self.new self.old
            (λ c. claimed_by c (effect chosen.now (first ∷ last.now ∷ [])))) }
        ensures err { OnErr result (self.new.state ≡ self.old.state) }
        ensures same { OnErr result (KeepsSame self.old self.new) }
    {
        // For the proof: the state is tidied before the change.
        self.state_is_tidied();
        match room_for(self.heap(), last) {
            Ok(room) => {
                self.perform_first(chosen, first)?;
                self.perform_last(chosen, last, room)
            }
            Err(refused) => {
                drop(first);
                Err(refused)
            }
        }
    }

    // An edit of a name, of bytes or of rights, or a new pipe. Refused memory changes nothing.
    fn perform_first(&mut self, chosen: &[Num], edit: Edit) -> Result<(), AllocError>
        requires first { IsFirst edit }
        requires count { news edit ≤ length chosen.now }
        requires fits { Fits chosen.now self.old.state edit }
        requires covers { (c : Claim) → claimed_by_one c chosen.now edit ≤ reserved self.old c }
        ensures state { OnOk result (self.new.state ≡ tidy (applied chosen.now edit self.old.state)) }
        ensures kept { OnOk result (KeepsMore self.new self.old
            (λ c. claimed_by_one c chosen.now edit)) }
        ensures err { OnErr result (self.new.state ≡ self.old.state) }
        ensures same { OnErr result (KeepsSame self.old self.new) }
    {
        // For the proof: the state is tidied before the change.
        self.state_is_tidied();
        match edit {
            Edit::PutBytes {
                file,
                offset,
                bytes,
                ..
            } => {
                let written = self.write(file, offset as usize, bytes.as_slice());
                drop(bytes);
                written
            }
            Edit::MakePipe {
                process,
                reader,
                writer,
                ..
            } => self.make_pipe(chosen[0], process, (reader, chosen[1]), (writer, chosen[2])),
            other => {
                self.perform_without_memory(chosen, other);
                Ok(())
            }
        }
    }

    // An edit of a name, of a file's length, of a pipe's bytes or of rights. It takes no memory.
    fn perform_without_memory(&mut self, chosen: &[Num], edit: Edit)
        requires first { TakesNoMemory edit }
        requires count { news edit ≤ length chosen.now }
        requires fits { Fits chosen.now self.old.state edit }
        requires covers { (c : Claim) → claimed_by_one c chosen.now edit ≤ reserved self.old c }
        ensures state { self.new.state ≡ tidy (applied chosen.now edit self.old.state) }
        ensures kept { KeepsMore self.new self.old (λ c. claimed_by_one c chosen.now edit) }
    {
        // For the proof: the state is tidied before the change.
        self.state_is_tidied();
        match edit {
            Edit::Wipe {
                file,
                offset,
                count,
            } => self.wipe(file, offset as usize, count as usize),
            Edit::Cut { file, length, .. } => self.cut(file, length as usize),
            Edit::Take { pipe, count } => self.take(pipe, count as usize),
            Edit::Append { pipe, bytes } => {
                self.append(pipe, bytes.as_slice());
                drop(bytes);
            }
            Edit::SetRights { inode, rights } => self.set_rights(inode, rights),
            other => self.perform_naming(chosen, other),
        }
    }

    // An edit of a name. It takes no memory.
    fn perform_naming(&mut self, chosen: &[Num], edit: Edit)
        requires naming { IsNaming edit }
        requires count { news edit ≤ length chosen.now }
        requires fits { Fits chosen.now self.old.state edit }
        requires covers { (c : Claim) → claimed_by_one c chosen.now edit ≤ reserved self.old c }
        ensures state { self.new.state ≡ tidy (applied chosen.now edit self.old.state) }
        ensures kept { KeepsMore self.new self.old (λ c. claimed_by_one c chosen.now edit) }
    {
        match edit {
            Edit::MakeDirectory { parent, name, .. } => {
                self.make_directory(parent, name, chosen[0]);
            }
            Edit::MakeFile { parent, name, .. } => self.make_file(parent, name, chosen[0]),
            Edit::MakeFixed {
                parent,
                name,
                fixed,
                ..
            } => self.make_fixed(parent, name, fixed, chosen[0]),
            Edit::NameFile { parent, name, file } => self.link(parent, name, file),
            Edit::UnnameFile { parent, name, file } => {
                self.unname(parent, &name, file);
                drop(name);
            }
            Edit::UnnameDirectory {
                parent,
                name,
                directory,
            } => {
                self.unname(parent, &name, directory);
                drop(name);
            }
            Edit::Move {
                from,
                old_name,
                to,
                new_name,
                inode,
                replaced,
            } => {
                self.rename(from, &old_name, to, new_name, inode, replaced);
                drop(old_name);
            }
            other => self.exchange(chosen, other),
        }
    }

    // The new directory of a reserved number is there, with its name.
    fn make_directory(&mut self, parent: Num, name: Name, num: Num)
        requires fits { Fits (num ∷ []) self.old.state (Make_directory parent name 0) }
        requires covers { (c : Claim)
            → claimed_by_one c (num ∷ []) (Make_directory parent name 0) ≤ reserved self.old c }
        ensures state { self.new.state
            ≡ tidy (applied (num ∷ []) (Make_directory parent name 0) self.old.state) }
        ensures kept { KeepsMore self.new self.old
            (λ c. claimed_by_one c (num ∷ []) (Make_directory parent name 0)) }
    {
        self.store.install(num);
        self.store.add_name(parent, name, num);
    }

    // The new file of a reserved number is there, with its name.
    fn make_file(&mut self, parent: Num, name: Name, num: Num)
        requires fits { Fits (num ∷ []) self.old.state (Make_file parent name 0) }
        requires covers { (c : Claim)
            → claimed_by_one c (num ∷ []) (Make_file parent name 0) ≤ reserved self.old c }
        ensures state { self.new.state
            ≡ tidy (applied (num ∷ []) (Make_file parent name 0) self.old.state) }
        ensures kept { KeepsMore self.new self.old
            (λ c. claimed_by_one c (num ∷ []) (Make_file parent name 0)) }
    {
        let bytes = FileData::new(self.heap());
        let file = OpenFile { bytes, openings: 0 };
        self.store.install_as(num, Object::File(file));
        self.store.add_name(parent, name, num);
    }

    // The new object of a reserved number, which never changes, is there, with its name.
    fn make_fixed(&mut self, parent: Num, name: Name, fixed: Fixed, num: Num)
        requires fits { Fits (num ∷ []) self.old.state (Make_fixed parent name fixed 0) }
        requires covers { (c : Claim)
            → claimed_by_one c (num ∷ []) (Make_fixed parent name fixed 0) ≤ reserved self.old c }
        ensures state { self.new.state
            ≡ tidy (applied (num ∷ []) (Make_fixed parent name fixed 0) self.old.state) }
        ensures kept { KeepsMore self.new self.old
            (λ c. claimed_by_one c (num ∷ []) (Make_fixed parent name fixed 0)) }
    {
        self.store.install_as(num, Object::Fixed(fixed));
        self.store.add_name(parent, name, num);
    }

    // One more name for a file, or for anything else that is no directory, in the room that is kept
    // for it.
    fn link(&mut self, parent: Num, name: Name, file: Num)
        requires fits { Fits [] self.old.state (Name_file parent name file) }
        requires covers { (c : Claim)
            → claimed_by_one c [] (Name_file parent name file) ≤ reserved self.old c }
        ensures state { self.new.state
            ≡ tidy (applied [] (Name_file parent name file) self.old.state) }
        ensures kept { KeepsMore self.new self.old
            (λ c. claimed_by_one c [] (Name_file parent name file)) }
    {
        self.store.add_name(parent, name, file);
    }

    // A name moves, in the room that is kept for it, and what had the new name goes where nothing
    // else leads to it.
    fn rename(&mut self, from: Num, old: &Name, to: Num, new: Name, num: Num, replaced: Replaced)
        requires fits { Fits [] self.old.state (Move from old.now to new num replaced) }
        requires covers { (c : Claim)
            → claimed_by_one c [] (Move from old.now to new num replaced) ≤ reserved self.old c }
        ensures state { self.new.state
            ≡ tidy (applied [] (Move from old.now to new num replaced) self.old.state) }
        ensures kept { KeepsMore self.new self.old
            (λ c. claimed_by_one c [] (Move from old.now to new num replaced)) }
    {
        self.store.remove_name(from, old);
        self.store.add_name(to, new, num);
        if let Some(unnamed) = inode_replaced(replaced) {
            free(&mut self.store, unnamed);
        }
    }

    // A name goes, and what it gave where nothing else leads to it.
    fn unname(&mut self, parent: Num, name: &Name, num: Num)
        requires { (what : What) × Fits [] self.old.state (unnaming what parent name.now num) }
        ensures state { (what : What) → Fits [] self.old.state (unnaming what parent name.now num)
            → self.new.state
            ≡ tidy (applied [] (unnaming what parent name.now num) self.old.state) }
        ensures kept { KeepsSame self.old self.new }
    {
        self.store.remove_name(parent, name);
        free(&mut self.store, num);
    }

    // Bytes are written into a file. Refused memory changes nothing.
    fn write(&mut self, file: Num, offset: usize, bytes: &[u8]) -> Result<(), AllocError>
        requires small { offset + length bytes.now ≤ LARGEST_FILE }
        requires file { kind_of self.old.state file ≡ Some A_file }
        ensures state { OnOk result ((before : ℕ) → self.new.state
            ≡ applied [] (Put_bytes file offset bytes.now before) self.old.state) }
        ensures kept { KeepsSame self.old self.new }
        ensures err { OnErr result (self.new.state ≡ self.old.state) }
    {
        self.store.write_file(file, offset, bytes)
    }

    // A file's length changes.
    fn cut(&mut self, file: Num, after: usize)
        requires small { after ≤ LARGEST_FILE }
        requires file { kind_of self.old.state file ≡ Some A_file }
        ensures state { (before : ℕ) → self.new.state
            ≡ applied [] (Cut file before after) self.old.state }
        ensures kept { KeepsSame self.old self.new }
    {
        let empty = FileData::new(self.heap());
        let mut data = self.store.swap_file(file, empty);
        data.cut(after);
        let _empty = self.store.swap_file(file, data);
    }

    // Bytes are taken from the front of a pipe.
    fn take(&mut self, pipe: Num, count: usize)
        requires fits { Fits [] self.old.state (Take pipe count) }
        ensures state { self.new.state ≡ applied [] (Take pipe count) self.old.state }
        ensures kept { KeepsSame self.old self.new }
    {
        // For the proof: what is left fits, since a pipe is never longer than pipes get.
        let _len = pipe_len(&self.store, pipe);
        self.store.change_pipe(pipe, count, &[]);
    }

    // Bytes are appended to a pipe.
    fn append(&mut self, pipe: Num, bytes: &[u8])
        requires fits { Fits [] self.old.state (Append pipe bytes.now) }
        ensures state { self.new.state ≡ applied [] (Append pipe bytes.now) self.old.state }
        ensures kept { KeepsSame self.old self.new }
    {
        self.store.change_pipe(pipe, 0, bytes);
    }

    // The permissions and the owner of an inode are set.
    fn set_rights(&mut self, inode: Num, rights: Rights)
        requires { Fits [] self.old.state (Set_rights inode rights) }
        ensures state { self.new.state ≡ applied [] (Set_rights inode rights) self.old.state }
        ensures kept { KeepsSame self.old self.new }
    {
        self.store.set_rights(inode, rights);
    }
}
