// A new pipe, as a transaction notes it.
ghost use Rattle.std.specs.Prelude.{◌≡◌, ◌≢◌, ◌<◌, ◌∷◌, [], ℕ, None, Some, OnErr, OnOk};
ghost use Rattle.model.specs.Changes.{Make_pipe};
ghost use Rattle.model.specs.Limits.{descriptor_limit};
ghost use Rattle.notes.specs.Notes.{SamePatches};
ghost use Rattle.notes.specs.Openings.{AtOpening, AtSlots, IsOpened, SameOpenings, SameSlots};
ghost use Rattle.notes.specs.Patches.{kept_at};
ghost use Rattle.notes.specs.Steps.{TakesIn};

use crate::edits::end_of;
use crate::patches::Patches;
use fdtable::SlotPlace;
use ids::{Fd, Num, Pid};
use objects::{Description, PipeData};
use std::alloc::AllocError;
use store::OpenPipe;

impl Patches {
    // A new pipe, with the descriptors and the descriptions of its two ends.
    pub(crate) fn make_pipe(
        &mut self,
        pipe: Num,
        pid: Pid,
        reading: (Fd, Num),
        writing: (Fd, Num),
    ) -> Result<(), AllocError>
        requires apart { reading.1 ≢ writing.1 }
        requires low { (reading.0 < descriptor_limit) × (writing.0 < descriptor_limit) }
        ensures ok { OnOk result (TakesIn (pipe ∷ reading.1 ∷ writing.1 ∷ [])
            (Make_pipe 0 pid reading.0 writing.0) self.old self.new) }
        ensures err { OnErr result (SamePatches self.old self.new) }
        ensures openings { (d : ℕ) → kept_at self.old.openings d ≢ None
            → kept_at self.new.openings d ≢ None }
        ensures slots { (q : ℕ) → kept_at self.old.slots q ≢ None
            → kept_at self.new.slots q ≢ None }
    {
        let heap = *self.unnamed_inodes.allocator();
        let bytes = PipeData::new(heap)?;
        let to_read = SlotPlace::new(heap, reading.0)?;
        let to_write = SlotPlace::new(heap, writing.0)?;
        self.inodes.make_place(pipe)?;
        self.make_ends(pid, reading.1, writing.1)?;
        self.inodes.note_pipe(
            pipe,
            OpenPipe {
                bytes,
                reader: reading.1,
                writer: writing.1,
            },
        );
        self.note_end(pid, reading.1, end_of(pipe, false), to_read);
        self.note_end(pid, writing.1, end_of(pipe, true), to_write);
        Ok(())
    }

    // Makes places for two new descriptions and their descriptors. Refused memory changes nothing.
    fn make_ends(&mut self, pid: Pid, reader: Num, writer: Num) -> Result<(), AllocError>
        ensures inodes { self.new.inodes ≡ self.old.inodes }
        ensures rights { self.new.rights ≡ self.old.rights }
        ensures unnamed_inodes { self.new.unnamed_inodes ≡ self.old.unnamed_inodes }
        ensures openings { SameOpenings self.old.openings self.new.openings }
        ensures slots { SameSlots self.old.slots self.new.slots }
        ensures ok { OnOk result ((kept_at self.new.openings reader ≢ None)
            × (kept_at self.new.openings writer ≢ None) × (kept_at self.new.slots pid ≢ None)) }
    {
        self.openings.make_place(reader)?;
        self.openings.make_place(writer)?;
        self.slots.make_place(pid)
    }

    // Notes a new description with its descriptor, in their places. It takes no memory.
    fn note_end(&mut self, pid: Pid, end: Num, description: Description, place: SlotPlace)
        requires places { (kept_at self.old.openings end ≢ None)
            × (kept_at self.old.slots pid ≢ None) }
        ensures inodes { self.new.inodes ≡ self.old.inodes }
        ensures rights { self.new.rights ≡ self.old.rights }
        ensures unnamed_inodes { self.new.unnamed_inodes ≡ self.old.unnamed_inodes }
        ensures openings { AtOpening end (IsOpened description) self.old.openings
            self.new.openings }
        ensures slots { AtSlots pid place (Some end) self.old.slots self.new.slots }
    {
        self.openings.open(end, description);
        self.slots
            .note(pid, place.descriptor(), Some(end), Some(place))
            .unwrap();
    }
}
