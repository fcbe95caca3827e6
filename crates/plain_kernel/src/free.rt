// What a call's edits let go is freed at once.
ghost use Rattle.std.specs.Prelude.{◌≡◌, ◌++◌, IfOk, OnOk, map, option_copied};
ghost use Rattle.std.specs.List.{AllByRecursion};
ghost use Rattle.model.specs.FiniteMap.{get, remove, values};
ghost use Rattle.model.specs.Changes.{or_new, process_of};
ghost use Rattle.freeing_laws.specs.Counts.{let_go, listed, unnamed};
ghost use Rattle.freeing_laws.specs.Sweep.{all_freed, freed, free_descriptions, free_inodes};
ghost use Rattle.freeing_laws.specs.Sweep.{inodes_of, inode_in};
ghost use Rattle.plain_kernel.specs.Edits.{EndsWithin};

use crate::plain::{Description, PlainKernel, Process, key_of};
use heap::Heap;
use ids::{Edit, Fd, Num, Pid, Replaced};
use std::alloc::AllocError;

impl PlainKernel {
    // The description that a descriptor of a process gives. Both are found by halving.
    pub(crate) fn given(&self, pid: Pid, fd: Fd) -> Option<Num>
        ensures { result ≡ get (process_of self.now pid).table fd }
    {
        match self.processes.get(key_of(pid)) {
            Some(process) => process.table.get(Num(fd.0 as usize)).copied(),
            None => None,
        }
    }

    // The descriptions that descriptors give no more after an edit.
    fn let_go(&self, heap: Heap, edit: &Edit) -> Result<Vec<Num, Heap>, AllocError>
        ensures { IfOk result (λ gone. gone.items ≡ let_go self.now edit.now) }
    {
        match edit {
            Edit::ShareSlot {
                process,
                descriptor,
                ..
            } => listed(heap, self.given(*process, *descriptor)),
            Edit::ClearSlot {
                process,
                descriptor,
                ..
            } => listed(heap, self.given(*process, *descriptor)),
            Edit::EndProcess { process, .. } => {
                values_in(heap, self.processes.get(key_of(*process)))
            }
            _ => Ok(Vec::new(heap)),
        }
    }

    // The inodes that these descriptions open, behind others.
    fn with_inodes_of(
        &self,
        mut inodes: Vec<Num, Heap>,
        gone: &[Num],
    ) -> Result<Vec<Num, Heap>, AllocError>
        ensures { IfOk result (λ all. all.items
            ≡ inodes.entry.items ++ inodes_of self.now gone.now) }
    {
        for num in gone {
            if let Some(description) = self.descriptions.get(*num) {
                inodes.push(description.inode)?;
            }
        }
        Ok(inodes)
    }

    // Each of these descriptions goes if no descriptor gives it.
    fn free_descriptions(&mut self, nums: &[Num])
        ensures { self.new ≡ free_descriptions nums.now self.old }
    {
        for num in nums {
            if !self.is_held(*num) {
                self.clear_description(*num);
            }
        }
    }

    // Each of these inodes goes if nothing gives it, and it is not the root.
    fn free_inodes(&mut self, nums: &[Num])
        ensures { self.new ≡ free_inodes nums.now self.old }
    {
        for num in nums {
            if !self.is_reached(*num) {
                self.clear_inode(*num);
            }
        }
    }

    // A number stands for no inode any more, and no rights are set of it.
    fn clear_inode(&mut self, num: Num)
        ensures { self.new ≡ record self.old {
          inodes = remove self.old.inodes num;
          rights = remove self.old.rights num;
        } }
    {
        self.inodes.remove(num);
        let _rights = self.rights.remove(num);
    }

    // One edit, and what it lets go is freed.
    fn edit(&mut self, heap: Heap, edit: &Edit, chosen: &[Num]) -> Result<(), AllocError>
        requires { EndsWithin edit.now }
        ensures { OnOk result (self.new ≡ freed chosen.now edit.now self.old) }
    {
        let gone = self.let_go(heap, edit)?;
        let edited = self.edit_with(heap, edit, chosen, gone.as_slice());
        drop(gone);
        edited
    }

    // One edit, which lets these descriptions go, and what it lets go is freed.
    fn edit_with(
        &mut self,
        heap: Heap,
        edit: &Edit,
        chosen: &[Num],
        gone: &[Num],
    ) -> Result<(), AllocError>
        requires gone { gone.now ≡ let_go self.old edit.now }
        requires within { EndsWithin edit.now }
        ensures { OnOk result (self.new ≡ freed chosen.now edit.now self.old) }
    {
        let inodes = self.with_inodes_of(unnamed(heap, edit)?, gone)?;
        match self.apply(heap, edit, chosen) {
            Ok(()) => {
                self.free_descriptions(gone);
                self.free_inodes(inodes.as_slice());
                drop(inodes);
                Ok(())
            }
            Err(refused) => {
                drop(inodes);
                Err(refused)
            }
        }
    }

    /// The edits of a call, each with what it lets go freed.
    pub fn edit_all(&mut self, heap: Heap, edits: &[Edit], chosen: &[Num]) -> Result<(), AllocError>
        requires { AllByRecursion EndsWithin edits.now }
        ensures { OnOk result (self.new ≡ all_freed chosen.now edits.now self.old) }
    {
        for edit in edits {
            self.edit(heap, edit, chosen)?;
        }
        Ok(())
    }
}

// All descriptions that a process's descriptors give; none where there is no process.
fn values_in(heap: Heap, process: Option<&Process>) -> Result<Vec<Num, Heap>, AllocError>
    ensures { IfOk result
        (λ all. all.items ≡ values (or_new (option_copied process.entry)).table) }
{
    match process {
        Some(process) => {
            let slots = process.table.as_slice();
            slots.iter().map(|slot| slot.1).collect(heap)
        }
        None => Ok(Vec::new(heap)),
    }
}

// The number, if there is one.
fn listed(heap: Heap, num: Option<Num>) -> Result<Vec<Num, Heap>, AllocError>
    ensures { IfOk result (λ all. all.items ≡ listed num) }
{
    let mut all = Vec::new(heap);
    if let Some(num) = num {
        all.push(num)?;
    }
    Ok(all)
}

// The inodes that lose a name by an edit.
fn unnamed(heap: Heap, edit: &Edit) -> Result<Vec<Num, Heap>, AllocError>
    ensures { IfOk result (λ all. all.items ≡ unnamed edit.now) }
{
    match edit {
        Edit::UnnameFile { file, .. } => listed(heap, Some(*file)),
        Edit::UnnameDirectory { directory, .. } => listed(heap, Some(*directory)),
        Edit::Move {
            replaced: Replaced::File(num) | Replaced::Directory(num),
            ..
        } => listed(heap, Some(*num)),
        _ => Ok(Vec::new(heap)),
    }
}
