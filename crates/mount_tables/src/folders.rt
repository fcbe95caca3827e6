// The directories that are open, with the names that they had.
ghost use Rattle.std.specs.Prelude.{◌≡◌, ◌+◌, ◌-◌, ◌^◌, ◌<◌, ◌≤◌, None, IsOk, OnOk, option_copied, true};
ghost use Rattle.std.specs.HashMap.{spare};
ghost use Rattle.model.specs.FiniteMap as map;
ghost use Rattle.mount_tables.specs.Folders.{folder_room, folder_with, marked, names_by, renewed};
ghost use Rattle.mount_tables.specs.Rows.{rows_in};

use crate::by_number::ByNumber;
use heap::Heap;
use ids::{Name, NameList};
use std::alloc::AllocError;
use std::collections::HashMap;
use std::hash::{BuildHasherDefault, FoldHasher};
use std::marker::Model;

/// An open directory.
#[derive(Debug)]
pub struct Folder {
    /// Its node.
    pub node: u64,
    /// Its names when they were taken.
    pub names: NameList,
    /// Whether they were read since.
    pub was_read: bool,
}

impl Drop for Folder {
    fn drop(self) {
        let Folder {
            node: _,
            names: _,
            was_read: _,
        } = self;
    }
}

impl Folder {
    // Its names are read.
    fn mark(&mut self)
        ensures { self.new ≡ record self.old { was_read = true } }
    {
        self.was_read = true;
    }
}

/// All of them, under the numbers that requests name them by. Numbers are not used again.
pub struct Folders {
    each: ByNumber<Folder>,
    next: u64,
}

impl Drop for Folders {
    fn drop(self) {
        let Folders { each: _, next: _ } = self;
    }
}

impl Model for Folders {
    ghost use Rattle.std.specs.Prelude.{◌-◌, ◌^◌};
    ghost use Rattle.mount_tables.specs.Files.{IsBelow};
    ghost use Rattle.mount_tables.specs.Folders.{FolderTable, folder_room, folder_table_code};

    ghost Value = { FolderTable };

    ghost coded = { folder_table_code };

    ghost view = { λ f. record {
      each = f.each.rows;
      next = f.next;
      room = folder_room (2 ^ 64 - 1) f.next f.each.room;
    } };

    ghost invariant = { λ f. IsBelow f.next f.each.rows };
}

// The names of a directory, if it is open, are read.
fn mark_in(folders: &mut HashMap<u64, Folder, BuildHasherDefault<FoldHasher>, Heap>, handle: u64)
    ensures folders { rows_in folders.new
        ≡ marked handle (map.get (rows_in folders.old) handle) (rows_in folders.old) }
    ensures room { spare folders.new ≡ spare folders.old }
{
    match folders.get_mut(&handle) {
        Some(folder) => folder.mark(),
        None => {}
    }
}

impl ByNumber<Folder> {
    // The names of a directory, if it is open, are read.
    fn mark(&mut self, handle: u64)
        ensures folders { self.new.rows ≡ marked handle (map.get self.old.rows handle) self.old.rows }
        ensures room { self.new.room ≡ self.old.room }
    {
        mark_in(&mut self.rows, handle);
    }
}

impl Folders {
    /// No directory. It takes no memory.
    pub fn new(heap: Heap) -> Folders
        ensures each { result.each ≡ map.empty }
        ensures next { result.next ≡ 1 }
    {
        Folders {
            each: ByNumber::new(heap),
            next: 1,
        }
    }

    /// Makes room for one directory more, so that the next one takes no memory. It is refused also
    /// where no number is left. Nothing changes.
    pub fn reserve(&mut self) -> Result<(), AllocError>
        ensures each { self.new.each ≡ self.old.each }
        ensures next { self.new.next ≡ self.old.next }
        ensures ok { OnOk result (0 < self.new.room) }
        ensures succeeds { 0 < self.old.room → IsOk result }
    {
        if self.next == u64::MAX {
            return Err(AllocError);
        }
        self.each.reserve()
    }

    /// A directory was opened. It gives its number. It takes no memory.
    pub fn add(&mut self, node: u64, names: NameList) -> u64
        requires { 0 < self.old.room }
        ensures number { result ≡ self.old.next }
        ensures each { self.new.each
            ≡ map.insert self.old.each self.old.next (folder_with node names) }
        ensures next { self.new.next ≡ self.old.next + 1 }
        ensures fresh { map.get self.old.each result ≡ None }
    {
        let handle = self.next;
        let folder = Folder {
            node,
            names,
            was_read: false,
        };
        let added: Result<_, _> = self.each.insert(handle, folder);
        added.unwrap();
        self.next = handle + 1;
        handle
    }

    /// The open directory of this number.
    pub fn get(&self, handle: u64) -> Option<&Folder>
        ensures { option_copied result ≡ map.get self.now.each handle }
    {
        self.each.get(handle)
    }

    /// Its names.
    pub fn names(&self, handle: u64) -> &[Name]
        ensures { result.now ≡ names_by (map.get self.now.each handle) }
    {
        match self.each.get(handle) {
            Some(folder) => folder.names.as_slice(),
            None => &[],
        }
    }

    /// Its names were taken anew, and are read. It takes no memory.
    pub fn renew(&mut self, handle: u64, names: NameList)
        ensures each { self.new.each
            ≡ renewed handle names (map.get self.old.each handle) self.old.each }
        ensures next { self.new.next ≡ self.old.next }
        ensures room { self.new.room ≡ self.old.room }
    {
        if let Some(folder) = self.each.get(handle) {
            let node = folder.node;
            self.each.set(
                handle,
                Folder {
                    node,
                    names,
                    was_read: true,
                },
            );
        }
    }

    /// Its names are read. It takes no memory.
    pub fn mark(&mut self, handle: u64)
        ensures each { self.new.each
            ≡ marked handle (map.get self.old.each handle) self.old.each }
        ensures next { self.new.next ≡ self.old.next }
        ensures room { self.new.room ≡ self.old.room }
    {
        self.each.mark(handle);
    }

    /// It is closed. It takes no memory.
    pub fn remove(&mut self, handle: u64)
        ensures each { self.new.each ≡ map.remove self.old.each handle }
        ensures next { self.new.next ≡ self.old.next }
        ensures room { self.old.room ≤ self.new.room }
    {
        drop(self.each.remove(handle));
    }
}
