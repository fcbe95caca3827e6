// What each edit makes of a plain kernel.
ghost use Rattle.std.specs.Prelude.{◌≡◌, ◌++◌, IfOk, OnOk, Some, [], get_or, true, drop, option_copied};
ghost use Rattle.std.specs.Prelude.{◌+◌, ◌≤◌, false, length, replicate};
ghost use Rattle.model.specs.FiniteMap.{empty, get, insert, remove};
ghost use Rattle.model.specs.Limits.{largest_file};
ghost use Rattle.model.specs.State.{File as A_file, Pipe as A_pipe};
ghost use Rattle.model.specs.State.{file_of, names_of_inode, pipe_of};
ghost use Rattle.model.specs.Changes.{applied, at_start, clear_name, number, open_at};
ghost use Rattle.model.specs.Changes.{or_new, process_of, set_description, set_inode, set_name};
ghost use Rattle.model.specs.Changes.{set_offset, set_process, set_rights, sized, with_slot};
ghost use Rattle.model.specs.Changes.{without_slot, written, to_read, to_write};
ghost use Rattle.plain_kernel.specs.Edits.{EndsWithin, is_of_descriptions, is_of_names, is_of_processes};

use crate::inode::{Inode, file_out, no_bytes, pipe_out};
use crate::inodes::Inodes;
use crate::names::Names;
use crate::plain::{Description, PlainKernel, key_of};
use crate::processes;
use heap::Heap;
use ids::{Bytes, Edit, Fd, Mode, Name, Num, Pid, Rights, Which};
use objects::FileData;
use std::alloc::AllocError;
use std::mem::replace;

// The new number of this index, 0 where there is none.
fn made(chosen: &[Num], index: usize) -> Num
    ensures { result ≡ get_or chosen.now index 0 }
{
    match chosen.get(index) {
        Some(num) => *num,
        None => Num(0),
    }
}

// The number of an object that was there or is made.
fn number(chosen: &[Num], which: &Which) -> Num
    ensures { result ≡ number chosen.now which.now }
{
    match which {
        Which::There(num) => *num,
        Which::Made(index) => made(chosen, *index as usize),
    }
}

// Where memory is refused, a kernel is left in between, and is of no use any more.
impl PlainKernel {
    // An inode without names gets new contents, or comes.
    fn set_inode(&mut self, num: Num, inode: Inode) -> Result<(), AllocError>
        requires { names_of_inode (Some inode) ≡ empty }
        ensures { OnOk result (self.new ≡ set_inode num inode self.old) }
    {
        drop(self.inodes.insert(num, inode)?);
        Ok(())
    }

    // Takes an inode out; an empty file stands in its place.
    fn take_inode(&mut self, heap: Heap, num: Num) -> Result<Option<Inode>, AllocError>
        ensures left { OnOk result (self.new ≡ set_inode num (A_file []) self.old) }
        ensures taken { IfOk result (λ inode. inode ≡ get self.old.inodes num) }
    {
        self.inodes.insert(num, Inode::file(FileData::new(heap)))
    }

    // A name gives a number.
    fn set_name(&mut self, heap: Heap, dir: Num, name: &Name, num: Num) -> Result<(), AllocError>
        ensures { OnOk result (self.new ≡ set_name dir name.now num self.old) }
    {
        let inodes = replace(&mut self.inodes, Inodes::new(heap));
        let named = inodes.with_name(heap, dir, name, num)?;
        drop(replace(&mut self.inodes, named));
        Ok(())
    }

    // A name gives nothing any more.
    fn clear_name(&mut self, heap: Heap, dir: Num, name: &Name) -> Result<(), AllocError>
        ensures { OnOk result (self.new ≡ clear_name dir name.now self.old) }
    {
        let inodes = replace(&mut self.inodes, Inodes::new(heap));
        let left = inodes.without_name(heap, dir, name)?;
        drop(replace(&mut self.inodes, left));
        Ok(())
    }

    // A new inode without names of its own, with its name.
    fn make(
        &mut self,
        heap: Heap,
        dir: Num,
        name: &Name,
        num: Num,
        inode: Inode,
    ) -> Result<(), AllocError>
        requires { names_of_inode (Some inode) ≡ empty }
        ensures { OnOk result
            (self.new ≡ set_name dir name.now num (set_inode num inode self.old)) }
    {
        self.set_inode(num, inode)?;
        self.set_name(heap, dir, name, num)
    }

    // Bytes of a file from an offset on. It costs what it writes, however long the file is.
    fn put(&mut self, heap: Heap, file: Num, offset: usize, bytes: &[u8]) -> Result<(), AllocError>
        requires { offset + length bytes.now ≤ largest_file }
        ensures { OnOk result (self.new
            ≡ set_inode file (A_file (written (file_of self.old file) offset bytes.now)) self.old) }
    {
        let inode = self.take_inode(heap, file)?;
        let mut stored = file_out(heap, inode);
        stored.write_at(offset, bytes)?;
        self.set_inode(file, Inode::file(stored))
    }

    // Bytes of a file become zero.
    fn wipe(&mut self, heap: Heap, file: Num, offset: usize, count: usize) -> Result<(), AllocError>
        requires { offset + count ≤ largest_file }
        ensures { OnOk result (self.new ≡ set_inode file
            (A_file (written (file_of self.old file) offset (replicate count 0))) self.old) }
    {
        let inode = self.take_inode(heap, file)?;
        let mut stored = file_out(heap, inode);
        stored.wipe(offset, count);
        self.set_inode(file, Inode::file(stored))
    }

    // A file's length.
    fn cut(&mut self, heap: Heap, file: Num, len: usize) -> Result<(), AllocError>
        requires { len ≤ largest_file }
        ensures { OnOk result (self.new
            ≡ set_inode file (A_file (sized len (file_of self.old file))) self.old) }
    {
        let inode = self.take_inode(heap, file)?;
        let mut stored = file_out(heap, inode);
        stored.cut(len);
        self.set_inode(file, Inode::file(stored))
    }

    // Bytes leave the front of a pipe.
    fn take(&mut self, heap: Heap, pipe: Num, count: usize) -> Result<(), AllocError>
        ensures { OnOk result (self.new
            ≡ set_inode pipe (A_pipe (drop count (pipe_of self.old pipe))) self.old) }
    {
        let inode = self.take_inode(heap, pipe)?;
        let all = pipe_out(heap, inode);
        let bytes = all.as_slice();
        let left = Bytes::copy(heap, &bytes[count.min(bytes.len())..])?;
        self.set_inode(pipe, Inode::pipe(left))
    }

    // Bytes come behind a pipe's.
    fn append(&mut self, heap: Heap, pipe: Num, bytes: &[u8]) -> Result<(), AllocError>
        ensures { OnOk result (self.new
            ≡ set_inode pipe (A_pipe (pipe_of self.old pipe ++ bytes.now)) self.old) }
    {
        let inode = self.take_inode(heap, pipe)?;
        let all = pipe_out(heap, inode).followed_by(heap, bytes)?;
        self.set_inode(pipe, Inode::pipe(all))
    }

    // The permissions and the owner of an inode.
    fn set_rights(&mut self, num: Num, rights: Rights) -> Result<(), AllocError>
        ensures { OnOk result (self.new ≡ set_rights num rights self.old) }
    {
        self.rights.set(num, rights)
    }

    // A description's offset.
    fn set_offset(&mut self, num: Num, offset: u64)
        ensures { self.new ≡ set_offset num offset (get self.old.descriptions num) self.old }
    {
        self.descriptions.set_offset(num, offset);
    }

    // A description. What descriptors give it already, they give it as it is from now on.
    fn set_description(&mut self, num: Num, description: Description) -> Result<(), AllocError>
        ensures { OnOk result (self.new ≡ set_description num description self.old) }
    {
        let held = self.holders.of(num);
        self.holders.gain_ends(Some(&description), held)?;
        match self.descriptions.insert(num, description) {
            Ok(before) => {
                self.holders.lose_ends(before.as_ref(), held);
                Ok(())
            }
            Err(refused) => {
                self.holders.lose_ends(Some(&description), held);
                Err(refused)
            }
        }
    }

    // A number describes nothing any more.
    pub(crate) fn clear_description(&mut self, num: Num)
        ensures { self.new
            ≡ record self.old { descriptions = remove self.old.descriptions num } }
    {
        let held = self.holders.of(num);
        let before = self.descriptions.remove(num);
        self.holders.lose_ends(before.as_ref(), held);
    }

    // A descriptor gives a description.
    fn set_slot(&mut self, heap: Heap, pid: Pid, fd: Fd, num: Num) -> Result<(), AllocError>
        ensures { OnOk result
            (self.new ≡ set_process pid (with_slot fd num (process_of self.old pid)) self.old) }
    {
        self.holders.hold(&self.descriptions, num)?;
        let fd = Num(fd.0 as usize);
        match processes::set_slot(&mut self.processes, heap, key_of(pid), fd, num) {
            Ok(before) => {
                self.holders.let_some_go(&self.descriptions, before);
                Ok(())
            }
            Err(refused) => {
                self.holders.let_go(&self.descriptions, num);
                Err(refused)
            }
        }
    }

    // A descriptor gives nothing any more.
    fn clear_slot(&mut self, heap: Heap, pid: Pid, fd: Fd) -> Result<(), AllocError>
        ensures { OnOk result
            (self.new ≡ set_process pid (without_slot fd (process_of self.old pid)) self.old) }
    {
        let fd = Num(fd.0 as usize);
        let before = processes::clear_slot(&mut self.processes, heap, key_of(pid), fd)?;
        self.holders.let_some_go(&self.descriptions, before);
        Ok(())
    }

    // A new description with its slot.
    fn open_at(
        &mut self,
        heap: Heap,
        num: Num,
        opened: Description,
        pid: Pid,
        fd: Fd,
    ) -> Result<(), AllocError>
        ensures { OnOk result (self.new ≡ set_process pid
            (with_slot fd num (process_of self.old pid)) (set_description num opened self.old)) }
    {
        self.set_description(num, opened)?;
        self.set_slot(heap, pid, fd, num)
    }

    // A new pipe with its two descriptions.
    fn make_pipe(
        &mut self,
        heap: Heap,
        nums: (Num, Num, Num),
        pid: Pid,
        fds: (Fd, Fd),
    ) -> Result<(), AllocError>
        ensures { OnOk result (self.new ≡
            open_at nums.2 nums.0 to_write pid fds.1 (open_at nums.1 nums.0 to_read pid fds.0
            (set_inode nums.0 (A_pipe []) self.old))) }
    {
        let (pipe, reader, writer) = nums;
        self.set_inode(pipe, Inode::pipe(no_bytes(heap)))?;
        let to_read = Mode {
            reading: true,
            writing: false,
            appending: false,
        };
        let to_write = Mode {
            reading: false,
            writing: true,
            appending: false,
        };
        self.open_at(heap, reader, at_start(pipe, &to_read), pid, fds.0)?;
        self.open_at(heap, writer, at_start(pipe, &to_write), pid, fds.1)
    }

    // A child with the descriptors and the priority of its parent.
    fn new_process(&mut self, heap: Heap, child: Pid, parent: Pid) -> Result<(), AllocError>
        ensures { OnOk result (self.new ≡ record self.old {
          processes = insert self.old.processes child (process_of self.old parent);
          made = child;
        }) }
    {
        let parent = key_of(parent);
        let held = self.processes.get(parent);
        self.holders.hold_all(&self.descriptions, held)?;
        match processes::copy(&mut self.processes, heap, key_of(child), parent) {
            Ok(before) => {
                self.holders.let_all_go(&self.descriptions, before.as_ref());
                drop(before);
                self.made = child.0;
                Ok(())
            }
            Err(refused) => {
                let held = self.processes.get(parent);
                self.holders.let_all_go(&self.descriptions, held);
                Err(refused)
            }
        }
    }

    // A process ends.
    fn end_process(&mut self, pid: Pid)
        ensures { self.new ≡ record self.old { processes = remove self.old.processes pid } }
    {
        let before = self.processes.remove(key_of(pid));
        self.holders.let_all_go(&self.descriptions, before.as_ref());
        drop(before);
    }
}

// A description at its beginning.
fn at_start(inode: Num, mode: &Mode) -> Description
    ensures { result ≡ at_start inode mode.now }
{
    Description {
        inode,
        reading: mode.reading,
        writing: mode.writing,
        appending: mode.appending,
        offset: 0,
    }
}

impl PlainKernel {
    // One edit, and nothing freed.
    pub(crate) fn apply(
        &mut self,
        heap: Heap,
        edit: &Edit,
        chosen: &[Num],
    ) -> Result<(), AllocError>
        requires { EndsWithin edit.now }
        ensures { OnOk result (self.new ≡ applied chosen.now edit.now self.old) }
    {
        match edit {
            Edit::MakeDirectory {
                parent,
                name,
                index,
            } => {
                let inode = Inode::directory(Names::new(heap));
                self.make(heap, *parent, name, made(chosen, *index as usize), inode)
            }
            Edit::MakeFile {
                parent,
                name,
                index,
            } => {
                let inode = Inode::file(FileData::new(heap));
                self.make(heap, *parent, name, made(chosen, *index as usize), inode)
            }
            Edit::MakeFixed {
                parent,
                name,
                fixed,
                index,
            } => {
                let inode = Inode::fixed(fixed.try_clone()?);
                self.make(heap, *parent, name, made(chosen, *index as usize), inode)
            }
            Edit::NameFile { parent, name, file } => self.set_name(heap, *parent, name, *file),
            Edit::UnnameFile { parent, name, .. } => self.clear_name(heap, *parent, name),
            Edit::UnnameDirectory { parent, name, .. } => self.clear_name(heap, *parent, name),
            Edit::Move {
                from,
                old_name,
                to,
                new_name,
                inode,
                ..
            } => {
                self.clear_name(heap, *from, old_name)?;
                self.set_name(heap, *to, new_name, *inode)
            }
            Edit::Swap {
                first,
                first_name,
                first_inode,
                second,
                second_name,
                second_inode,
            } => {
                self.set_name(heap, *first, first_name, *second_inode)?;
                self.set_name(heap, *second, second_name, *first_inode)
            }
            _ => self.apply_to_bytes(heap, edit, chosen),
        }
    }

    // One edit that is not of names: of bytes or of rights, or of processes and descriptions.
    fn apply_to_bytes(&mut self, heap: Heap, edit: &Edit, chosen: &[Num]) -> Result<(), AllocError>
        requires within { EndsWithin edit.now }
        requires kind { is_of_names edit.now ≡ false }
        ensures { OnOk result (self.new ≡ applied chosen.now edit.now self.old) }
    {
        match edit {
            Edit::PutBytes {
                file,
                offset,
                bytes,
                ..
            } => self.put(heap, *file, *offset as usize, bytes.as_slice()),
            Edit::Wipe {
                file,
                offset,
                count,
            } => self.wipe(heap, *file, *offset as usize, *count as usize),
            Edit::Cut { file, length, .. } => self.cut(heap, *file, *length as usize),
            Edit::Take { pipe, count } => self.take(heap, *pipe, *count as usize),
            Edit::Append { pipe, bytes } => self.append(heap, *pipe, bytes.as_slice()),
            Edit::SetRights { inode, rights } => self.set_rights(*inode, *rights),
            _ => self.apply_to_processes(heap, edit, chosen),
        }
    }

    // One edit of processes or descriptions.
    fn apply_to_processes(
        &mut self,
        heap: Heap,
        edit: &Edit,
        chosen: &[Num],
    ) -> Result<(), AllocError>
        requires { is_of_processes edit.now ≡ true }
        ensures { OnOk result (self.new ≡ applied chosen.now edit.now self.old) }
    {
        match edit {
            Edit::ShareSlot {
                process,
                descriptor,
                description,
                ..
            } => self.set_slot(heap, *process, *descriptor, *description),
            Edit::ClearSlot {
                process,
                descriptor,
                ..
            } => self.clear_slot(heap, *process, *descriptor),
            Edit::NewProcess { child, parent, .. } => self.new_process(heap, *child, *parent),
            Edit::EndProcess { process, .. } => {
                self.end_process(*process);
                Ok(())
            }
            _ => self.apply_to_descriptions(heap, edit, chosen),
        }
    }

    // One edit of descriptions.
    fn apply_to_descriptions(
        &mut self,
        heap: Heap,
        edit: &Edit,
        chosen: &[Num],
    ) -> Result<(), AllocError>
        requires { is_of_descriptions edit.now ≡ true }
        ensures { OnOk result (self.new ≡ applied chosen.now edit.now self.old) }
    {
        match edit {
            Edit::SetOffset {
                description,
                offset,
            } => {
                self.set_offset(*description, *offset);
                Ok(())
            }
            Edit::OpenInode {
                index,
                inode,
                mode,
                process,
                descriptor,
            } => {
                let num = made(chosen, *index as usize);
                let opened = at_start(number(chosen, inode), mode);
                self.open_at(heap, num, opened, *process, *descriptor)
            }
            Edit::MakePipe {
                index,
                process,
                reader,
                writer,
            } => {
                let pipe = made(chosen, *index as usize);
                let reading = made(chosen, *index as usize + 1);
                let writing = made(chosen, *index as usize + 2);
                let nums = (pipe, reading, writing);
                self.make_pipe(heap, nums, *process, (*reader, *writer))
            }
            _ => unreachable!(),
        }
    }
}
