// The files that are open: all opens of one file in one view share a descriptor.
ghost use Rattle.std.specs.Prelude.{◌≡◌, ◌+◌, ◌-◌, ◌^◌, ◌<◌, ◌≤◌, None, Some, IsOk, OnOk, IsSome};
ghost use Rattle.model.specs.FiniteMap as map;
ghost use Rattle.mount_tables.specs.Files.{IsSomeIn, IsTaken, counted, counted_down, file_for, is_this};
ghost use Rattle.mount_tables.specs.Files.{key_at, key_of, released, room_of, unlinked};

use crate::by_number::ByNumber;
use crate::file_index::FileIndex;
use crate::file_key::FileKey;
use heap::Heap;
use ids::{Fd, Num, Pid};
use std::alloc::AllocError;
use std::marker::Model;

/// An open file.
#[derive(Clone, Copy, Debug)]
pub struct OpenFile {
    /// The view in which it is open.
    pub view: u64,
    /// The object.
    pub inode: Num,
    /// The process that has it open.
    pub pid: Pid,
    /// Its descriptor there.
    pub fd: Fd,
    /// How often it is open: not at all, where it could not be closed.
    pub opens: u64,
}

/// All of them, under the numbers that requests name them by. Numbers are not used again.
pub struct OpenFiles {
    each: ByNumber<OpenFile>,
    handles: FileIndex,
    next: u64,
}

impl Drop for OpenFiles {
    fn drop(self) {
        let OpenFiles {
            each: _,
            handles: _,
            next: _,
        } = self;
    }
}

impl Model for OpenFiles {
    ghost use Rattle.std.specs.Prelude.{◌-◌, ◌^◌};
    ghost use Rattle.mount_tables.specs.Files.{Files, IsBelow, LeadsBelow, files_code, room_of};

    ghost Value = { Files };

    ghost coded = { files_code };

    ghost view = { λ f. record {
      each = f.each.rows;
      handles = f.handles.handles;
      next = f.next;
      room = room_of (2 ^ 64 - 1) f.next f.each.room f.handles.room;
    } };

    ghost invariant = { λ f. IsBelow f.next f.each.rows × LeadsBelow f.next f.handles.handles };
}

impl OpenFile {
    // Under which it is found.
    fn key(&self) -> FileKey
        ensures { result ≡ key_of self.now }
    {
        FileKey {
            view: self.view,
            inode: self.inode,
        }
    }
}

impl ByNumber<OpenFile> {
    // One of the files that are open in a view.
    fn some_in(&self, view: u64) -> Option<(u64, OpenFile)>
        ensures { IsSomeIn view self.now.rows result }
    {
        for (handle, file) in self.rows.iter() {
            if file.view == view {
                return Some((*handle, *file));
            }
        }
        None
    }
}

// Makes room in both tables for one file more. It is refused also where no number is left.
fn reserve_both(
    next: u64,
    each: &mut ByNumber<OpenFile>,
    handles: &mut FileIndex,
) -> Result<(), AllocError>
    ensures each { each.new.rows ≡ each.old.rows }
    ensures handles { handles.new.handles ≡ handles.old.handles }
    ensures room { OnOk result (0 < room_of (2 ^ 64 - 1) next each.new.room handles.new.room) }
    ensures succeeds { 0 < room_of (2 ^ 64 - 1) next each.old.room handles.old.room
        → IsOk result }
{
    if next == u64::MAX {
        return Err(AllocError);
    }
    each.reserve()?;
    handles.reserve()
}

// Whether a key leads to this number.
fn leads_to(handles: &FileIndex, handle: u64, key: &FileKey) -> bool
    ensures { result ≡ is_this handle (map.get handles.now.handles key.now) }
{
    match handles.get(key) {
        Some(found) => found == handle,
        None => false,
    }
}

// A key leads nowhere any more, where it leads to this number.
fn unlink(handles: &mut FileIndex, handle: u64, key: &FileKey)
    ensures handles { handles.new.handles ≡ unlinked handle key.now handles.old.handles }
    ensures room { handles.old.room ≤ handles.new.room }
{
    if leads_to(handles, handle, key) {
        handles.remove(key);
    }
}

// A file goes, and its key leads nowhere then, if it led to it.
fn drop_file(each: &mut ByNumber<OpenFile>, handles: &mut FileIndex, handle: u64, file: &OpenFile)
    ensures each { each.new.rows ≡ map.remove each.old.rows handle }
    ensures handles { handles.new.handles ≡ unlinked handle (key_of file.now) handles.old.handles }
    ensures listed { each.old.room ≤ each.new.room }
    ensures indexed { handles.old.room ≤ handles.new.room }
{
    let _file = each.remove(handle);
    unlink(handles, handle, &file.key());
}

impl OpenFiles {
    /// No file. It takes no memory.
    pub fn new(heap: Heap) -> OpenFiles
        ensures each { result.each ≡ map.empty }
        ensures handles { result.handles ≡ map.empty }
        ensures next { result.next ≡ 1 }
    {
        OpenFiles {
            each: ByNumber::new(heap),
            handles: FileIndex::new(heap),
            next: 1,
        }
    }

    /// The open file of this number.
    pub fn get(&self, handle: u64) -> Option<OpenFile>
        ensures { result ≡ map.get self.now.each handle }
    {
        self.each.get(handle).copied()
    }

    /// How many files are open.
    pub fn len(&self) -> usize
        ensures { result ≡ map.len self.now.each }
    {
        self.each.len()
    }

    /// The number under which an object is open in a view.
    pub fn handle_of(&self, view: u64, inode: Num) -> Option<u64>
        ensures { result ≡ map.get self.now.handles (key_at view inode) }
    {
        self.handles.get(&FileKey { view, inode })
    }

    /// A file is open once more. It takes no memory.
    pub fn count(&mut self, handle: u64)
        ensures each { self.new.each
            ≡ counted handle (map.get self.old.each handle) self.old.each }
        ensures handles { self.new.handles ≡ self.old.handles }
        ensures next { self.new.next ≡ self.old.next }
        ensures room { self.new.room ≡ self.old.room }
    {
        if let Some(file) = self.get(handle) {
            let opens = file.opens.saturating_add(1);
            self.each.set(handle, OpenFile { opens, ..file });
        }
    }

    /// A file is open once less, and stays, also where that was the last time: a file that could not be
    /// closed, which the next one that opens it uses again. It takes no memory.
    pub fn count_down(&mut self, handle: u64)
        ensures each { self.new.each
            ≡ counted_down handle (map.get self.old.each handle) self.old.each }
        ensures handles { self.new.handles ≡ self.old.handles }
        ensures next { self.new.next ≡ self.old.next }
        ensures room { self.new.room ≡ self.old.room }
    {
        if let Some(file) = self.get(handle) {
            let opens = file.opens.saturating_sub(1);
            self.each.set(handle, OpenFile { opens, ..file });
        }
    }

    /// Makes room for one file more, so that the next one takes no memory. It is refused also where
    /// no number is left. Nothing changes.
    pub fn reserve(&mut self) -> Result<(), AllocError>
        ensures each { self.new.each ≡ self.old.each }
        ensures handles { self.new.handles ≡ self.old.handles }
        ensures next { self.new.next ≡ self.old.next }
        ensures ok { OnOk result (0 < self.new.room) }
        ensures succeeds { 0 < self.old.room → IsOk result }
    {
        reserve_both(self.next, &mut self.each, &mut self.handles)
    }

    /// A file was opened by a process. It gives its number, under which its object is found in that
    /// view from now on. It takes no memory.
    pub fn add(&mut self, view: u64, inode: Num, pid: Pid, fd: Fd) -> u64
        requires { 0 < self.old.room }
        ensures number { result ≡ self.old.next }
        ensures each { self.new.each
            ≡ map.insert self.old.each self.old.next (file_for view inode pid fd) }
        ensures handles { self.new.handles
            ≡ map.insert self.old.handles (key_at view inode) self.old.next }
        ensures next { self.new.next ≡ self.old.next + 1 }
        ensures fresh { map.get self.old.each result ≡ None }
    {
        let handle = self.next;
        let file = OpenFile {
            view,
            inode,
            pid,
            fd,
            opens: 1,
        };
        let listed: Result<_, _> = self.each.insert(handle, file);
        listed.unwrap();
        let indexed: Result<_, _> = self.handles.insert(file.key(), handle);
        indexed.unwrap();
        self.next = handle + 1;
        handle
    }

    /// A file is open once less. With the last time it goes, and is given. It takes no memory.
    pub fn release(&mut self, handle: u64) -> Option<OpenFile>
        ensures each { self.new.each ≡ (released self.old handle).0.each }
        ensures handles { self.new.handles ≡ (released self.old handle).0.handles }
        ensures next { self.new.next ≡ self.old.next }
        ensures file { result ≡ (released self.old handle).1 }
        ensures room { self.old.room ≤ self.new.room }
    {
        let file = self.get(handle)?;
        if file.opens > 1 {
            let opens = file.opens - 1;
            self.each.set(handle, OpenFile { opens, ..file });
            return None;
        }
        drop_file(&mut self.each, &mut self.handles, handle, &file);
        Some(file)
    }

    /// One of the files that are open in a view goes, and is given with its number; or there is none.
    /// It takes no memory.
    pub fn take_in(&mut self, view: u64) -> Option<(u64, OpenFile)>
        ensures taken { IsTaken view self.old result self.new }
        ensures next { self.new.next ≡ self.old.next }
        ensures fewer { IsSome result → map.len self.new.each < map.len self.old.each }
        ensures room { self.old.room ≤ self.new.room }
    {
        let (handle, file) = self.each.some_in(view)?;
        drop_file(&mut self.each, &mut self.handles, handle, &file);
        Some((handle, file))
    }
}
