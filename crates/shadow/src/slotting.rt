// What a plain call changes of descriptions and slots, made at once in the committed state.
ghost use Rattle.std.specs.Prelude.{◌≡◌, ◌≤◌, ◌<◌, ◌+◌, ◌∷◌, [], ℕ, List, None, Some, IfOk, IfSome, IsOk};
ghost use Rattle.std.specs.Prelude.{IsSome, OnErr, OnOk, length};
ghost use Rattle.ids.specs.declared.limits.TheConstants.{DESCRIPTORS};
ghost use Rattle.model.specs.Changes.{Make_pipe, Open_inode, There, applied, news, tidy};
ghost use Rattle.call_laws.specs.Fits.{Fits};
ghost use Rattle.fdtable.specs.Pages.{HasRoom};
ghost use Rattle.shadow.specs.Claims.{Claim, KeepsMore, KeepsSame, claimed_by_one, reserved};
ghost use Rattle.notes.specs.Steps.{IsLast, slotting};
ghost use Rattle.shadow.specs.Laid.{FitsRoom, MayNeedRoom};

use crate::closing::close;
use crate::laying::open;
use crate::reslotting::{count_slot, lay_slot};
use crate::stable::Stable;
use fdtable::SlotRoom;
use heap::Heap;
use ids::{Edit, Fd, Mode, Num, Pid};
use notes::{at_start, end_of, number};
use objects::PipeData;
use std::alloc::AllocError;
use store::{Object, OpenPipe};

/// Room for the descriptor that an edit opens, if it opens one. Refused memory gives none.
pub(crate) fn room_for(heap: Heap, edit: &Edit) -> Result<Option<SlotRoom>, AllocError>
    requires { (m : ℕ) × IsLast m edit.now }
    ensures fits { IfOk result (λ room. IfSome room (FitsRoom edit.now)) }
    ensures there { IfOk result (λ room. MayNeedRoom edit.now → IsSome room) }
{
    match edit {
        Edit::OpenInode { descriptor, .. } | Edit::ShareSlot { descriptor, .. } => {
            Ok(Some(SlotRoom::of(heap, *descriptor)?))
        }
        _ => Ok(None),
    }
}

impl Stable {
    /// An edit of a description or a slot. Of a slot memory is asked for where it is opened and there is
    /// no room for it; refused memory changes nothing.
    pub(crate) fn perform_last(
        &mut self,
        chosen: &[Num],
        edit: &Edit,
        room: Option<SlotRoom>,
    ) -> Result<(), AllocError>
        requires last { (m : ℕ) × IsLast m edit.now × (m + news edit.now ≤ length chosen.now) }
        requires fits { Fits chosen.now self.old.state edit.now }
        requires room { IfSome room (FitsRoom edit.now) }
        requires covers { (c : Claim) → claimed_by_one c chosen.now edit.now ≤ reserved self.old c }
        ensures state { OnOk result
            (self.new.state ≡ tidy (applied chosen.now edit.now self.old.state)) }
        ensures kept { OnOk result (KeepsMore self.new self.old
            (λ c. claimed_by_one c chosen.now edit.now)) }
        ensures err { OnErr result (self.new.state ≡ self.old.state) }
        ensures same { OnErr result (KeepsSame self.old self.new) }
        ensures sure { (MayNeedRoom edit.now → IsSome room) → IsOk result }
    {
        match edit {
            Edit::OpenInode {
                index,
                inode,
                mode,
                process,
                descriptor,
            } => {
                let inode = number(chosen, *inode);
                let num = chosen[*index as usize];
                self.open_inode(num, inode, *mode, *process, *descriptor, room)
            }
            Edit::SetOffset {
                description,
                offset,
            } => {
                self.store.set_offset(*description, *offset);
                Ok(())
            }
            Edit::ShareSlot {
                process,
                descriptor,
                description,
                ..
            } => self.reslot(*process, *descriptor, Some(*description), room),
            Edit::ClearSlot {
                process,
                descriptor,
                ..
            } => self.reslot(*process, *descriptor, None, None),
            _ => unreachable!(),
        }
    }

    /// The new pipe of a reserved number is there, with the descriptors and the descriptions of its two
    /// ends. Refused memory changes nothing.
    pub(crate) fn make_pipe(
        &mut self,
        pipe: Num,
        pid: Pid,
        reading: (Fd, Num),
        writing: (Fd, Num),
    ) -> Result<(), AllocError>
        requires fits { Fits (pipe ∷ reading.1 ∷ writing.1 ∷ []) self.old.state
            (Make_pipe 0 pid reading.0 writing.0) }
        requires low { (reading.0 < DESCRIPTORS) × (writing.0 < DESCRIPTORS) }
        requires covers { (c : Claim)
            → claimed_by_one c (pipe ∷ reading.1 ∷ writing.1 ∷ [])
            (Make_pipe 0 pid reading.0 writing.0) ≤ reserved self.old c }
        ensures state { OnOk result (self.new.state
            ≡ tidy (applied (pipe ∷ reading.1 ∷ writing.1 ∷ [])
            (Make_pipe 0 pid reading.0 writing.0) self.old.state)) }
        ensures kept { OnOk result (KeepsMore self.new self.old
            (λ c. claimed_by_one c (pipe ∷ reading.1 ∷ writing.1 ∷ [])
            (Make_pipe 0 pid reading.0 writing.0))) }
        ensures err { OnErr result (self.new.state ≡ self.old.state) }
        ensures same { OnErr result (KeepsSame self.old self.new) }
    {
        let heap = self.heap();
        let bytes = PipeData::new(heap)?;
        let to_read = SlotRoom::of(heap, reading.0)?;
        let to_write = SlotRoom::of(heap, writing.0)?;
        let reader = reading.1;
        let writer = writing.1;
        self.store.install_as(
            pipe,
            Object::Pipe(OpenPipe {
                bytes,
                reader,
                writer,
            }),
        );
        open(&mut self.store, reader, end_of(pipe, false));
        open(&mut self.store, writer, end_of(pipe, true));
        let store = &mut self.store;
        let processes = &mut self.processes;
        let given = Some(reader);
        let _none = lay_slot(store, processes, pid, reading.0, given, Some(to_read)).unwrap();
        let given = Some(writer);
        let _none = lay_slot(store, processes, pid, writing.0, given, Some(to_write)).unwrap();
        Ok(())
    }

    // The new description of a reserved number is there, with its slot: the slot comes first, since it
    // may be refused memory.
    fn open_inode(
        &mut self,
        num: Num,
        inode: Num,
        mode: Mode,
        pid: Pid,
        fd: Fd,
        room: Option<SlotRoom>,
    ) -> Result<(), AllocError>
        requires fits { Fits (num ∷ []) self.old.state (Open_inode 0 (There inode) mode pid fd) }
        requires low { fd < DESCRIPTORS }
        requires room { IfSome room (λ r. HasRoom r fd) }
        requires covers { (c : Claim)
            → claimed_by_one c (num ∷ []) (Open_inode 0 (There inode) mode pid fd)
            ≤ reserved self.old c }
        ensures state { OnOk result (self.new.state
            ≡ tidy (applied (num ∷ []) (Open_inode 0 (There inode) mode pid fd) self.old.state)) }
        ensures kept { OnOk result (KeepsMore self.new self.old
            (λ c. claimed_by_one c (num ∷ []) (Open_inode 0 (There inode) mode pid fd))) }
        ensures err { OnErr result (self.new.state ≡ self.old.state) }
        ensures same { OnErr result (KeepsSame self.old self.new) }
        ensures sure { IsSome room → IsOk result }
    {
        let given = Some(num);
        let former = self.processes.reslot(pid, fd, given, room)?;
        open(&mut self.store, num, at_start(inode, mode));
        count_slot(&mut self.store, &given, &former);
        Ok(())
    }

    // A slot gives this description from now on, or is closed. The description that it gave goes
    // where no other slot gives it. Refused memory changes nothing.
    fn reslot(
        &mut self,
        pid: Pid,
        fd: Fd,
        given: Option<Num>,
        room: Option<SlotRoom>,
    ) -> Result<(), AllocError>
        requires fits { (pipes : List ℕ) × Fits [] self.old.state (slotting given pid fd pipes) }
        requires low { fd < DESCRIPTORS }
        requires room { IfSome room (λ r. HasRoom r fd) }
        ensures state { OnOk result ((pipes : List ℕ)
            → Fits [] self.old.state (slotting given pid fd pipes)
            → self.new.state ≡ tidy (applied [] (slotting given pid fd pipes) self.old.state)) }
        ensures kept { KeepsSame self.old self.new }
        ensures err { OnErr result (self.new.state ≡ self.old.state) }
        ensures sure { IsSome room → IsOk result }
        ensures closing { given ≡ None → IsOk result }
    {
        let former = lay_slot(&mut self.store, &mut self.processes, pid, fd, given, room)?;
        match former {
            Some(description) => {
                close(&mut self.store, description);
                Ok(())
            }
            None => Ok(()),
        }
    }
}
