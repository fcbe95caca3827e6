// Bytes of a file that become zero, as a transaction notes them.
ghost use Rattle.std.specs.Prelude.{◌≡◌, ◌↔◌, ◌++◌, ◌+◌, ◌≤◌, ℕ, Contains, IfOk, OnErr, OnOk};
ghost use Rattle.std.specs.Prelude.{Option, Some, [], replicate};
ghost use Rattle.ids.specs.declared.limits.TheConstants.{LARGEST_FILE};
ghost use Rattle.model.specs.State.{File, Inode};
ghost use Rattle.model.specs.Changes.{Wipe, written};
ghost use Rattle.model.specs.Plan.{blocks};
ghost use Rattle.notes.specs.Notes.{IsWiped, SamePatches};
ghost use Rattle.notes.specs.Patches.{bytes_before, form_of, net_of, numbers_in, of_bytes, patched};
ghost use Rattle.notes.specs.Steps.{TakesIn, bytes_written, filed};

use crate::change::{Contents, InodeChange};
use crate::patches::Patches;
use file_shadow::FileShadow;
use heap::Heap;
use ids::Num;
use std::alloc::AllocError;
use std::mem;

impl Patches {
    /// Notes that bytes of a file become zero. Refused memory changes nothing that shows.
    pub(crate) fn wipe(&mut self, file: Num, offset: u64, count: u64) -> Result<(), AllocError>
        requires { offset + count ≤ LARGEST_FILE }
        ensures ok { OnOk result (TakesIn [] (Wipe file offset count) self.old self.new) }
        ensures err { OnErr result (SamePatches self.old self.new) }
        ensures openings { self.new.openings ≡ self.old.openings }
        ensures slots { self.new.slots ≡ self.old.slots }
    {
        self.inodes.make_place(file)?;
        self.inodes.wipe(file, offset as usize, count as usize)
    }
}

impl InodeChange {
    /// Notes that bytes of the file become zero from an offset on. Refused memory changes nothing.
    pub(crate) fn wipe(&mut self, heap: Heap, offset: usize, count: usize) -> Result<(), AllocError>
        requires { offset + count ≤ LARGEST_FILE }
        ensures ok { OnOk result
            (IsWiped offset count (net_of (Some self.old)) (net_of (Some self.new))) }
        ensures err { OnErr result (self.new ≡ self.old) }
    {
        wipe_in(&mut self.contents, heap, offset, count)
    }
}

// Notes bytes that become zero; what is no file goes.
fn wipe_in(
    contents: &mut Contents,
    heap: Heap,
    offset: usize,
    count: usize,
) -> Result<(), AllocError>
    requires { offset + count ≤ LARGEST_FILE }
    ensures contents { OnOk result ((o : Option Inode) → patched contents.new o
        ≡ bytes_written offset (replicate count 0) (patched contents.old o)) }
    ensures form { OnOk result (form_of contents.new ≡ filed (form_of contents.old)) }
    ensures numbers { OnOk result ((b : ℕ) → Contains (numbers_in contents.new) b
        ↔ Contains (numbers_in contents.old ++ blocks offset count) b) }
    ensures err { OnErr result (contents.new ≡ contents.old) }
{
    match contents {
        Contents::Bytes { bytes: changes, .. } => changes.wipe(offset, count),
        Contents::Same => wipe_first(contents, heap, false, offset, count),
        Contents::Names { .. } => wipe_first(contents, heap, true, offset, count),
        Contents::Pipe { .. } => wipe_first(contents, heap, true, offset, count),
        Contents::Fixed(_) => wipe_first(contents, heap, true, offset, count),
    }
}

// Notes bytes that become zero, in place of what was noted.
fn wipe_first(
    contents: &mut Contents,
    heap: Heap,
    fresh: bool,
    offset: usize,
    count: usize,
) -> Result<(), AllocError>
    requires { offset + count ≤ LARGEST_FILE }
    ensures contents { OnOk result ((o : Option Inode) → patched contents.new o
        ≡ Some (File (written (bytes_before fresh o) offset (replicate count 0)))) }
    ensures form { OnOk result (form_of contents.new ≡ of_bytes fresh) }
    ensures numbers { OnOk result ((b : ℕ)
        → Contains (numbers_in contents.new) b ↔ Contains (blocks offset count) b) }
    ensures err { OnErr result (contents.new ≡ contents.old) }
{
    let noted = first_zeros(heap, fresh, offset, count)?;
    drop(mem::replace(contents, noted));
    Ok(())
}

// The changes of a file of which bytes become zero.
fn first_zeros(heap: Heap, fresh: bool, offset: usize, count: usize) -> Result<Contents, AllocError>
    requires { offset + count ≤ LARGEST_FILE }
    ensures contents { IfOk result (λ c. (o : Option Inode) → patched c o
        ≡ Some (File (written (bytes_before fresh o) offset (replicate count 0)))) }
    ensures form { IfOk result (λ c. form_of c ≡ of_bytes fresh) }
    ensures numbers { IfOk result (λ c. (b : ℕ)
        → Contains (numbers_in c) b ↔ Contains (blocks offset count) b) }
{
    let mut changes = FileShadow::new(heap);
    changes.wipe(offset, count)?;
    Ok(Contents::Bytes {
        is_fresh: fresh,
        bytes: changes,
    })
}
