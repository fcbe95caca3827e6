// Which number each object is open under, in each view.
ghost use Rattle.std.specs.Prelude.{◌≡◌, ◌+◌, ◌≤◌, ◌<◌, IsOk, OnErr, OnOk};
ghost use Rattle.model.specs.FiniteMap as map;

use crate::file_key::FileKey;
use heap::Heap;
use std::alloc::AllocError;
use std::collections::HashMap;
use std::hash::{BuildHasherDefault, FoldHasher};
use std::marker::Model;

/// Which number each object is open under, in each view, found by a hash whose seed is fixed.
/// Contracts also see for how many more there is room.
pub(crate) struct FileIndex {
    handles: HashMap<FileKey, u64, BuildHasherDefault<FoldHasher>, Heap>,
}

impl Drop for FileIndex {
    fn drop(self) {
        let FileIndex { handles: _ } = self;
    }
}

impl Model for FileIndex {
    ghost use Rattle.std.specs.HashMap.{spare};
    ghost use Rattle.model.specs.FiniteMap as map;
    ghost use Rattle.mount_tables.specs.FileKeys.{key_cmp};
    ghost use Rattle.mount_tables.specs.Files.{Handles, handles_code};

    ghost Value = { Handles };

    ghost coded = { handles_code };

    ghost view = { λ i. record {
      handles = map.from_entries {R = key_cmp} i.handles.entries;
      room = spare i.handles;
    } };
}

impl FileIndex {
    // No object. It takes no memory.
    pub(crate) fn new(heap: Heap) -> FileIndex
        ensures { result.handles ≡ map.empty }
    {
        FileIndex {
            handles: HashMap::new(heap),
        }
    }

    // The number under which an object is open.
    pub(crate) fn get(&self, key: &FileKey) -> Option<u64>
        ensures { result ≡ map.get self.now.handles key.now }
    {
        self.handles.get(key).copied()
    }

    // Makes room for one object more. Refused memory changes nothing.
    pub(crate) fn reserve(&mut self) -> Result<(), AllocError>
        ensures handles { self.new.handles ≡ self.old.handles }
        ensures ok { OnOk result (0 < self.new.room) }
        ensures room { self.old.room ≤ self.new.room }
        ensures succeeds { 0 < self.old.room → IsOk result }
    {
        self.handles.reserve(1)
    }

    // An object is open under this number from now on. Refused memory changes nothing.
    pub(crate) fn insert(&mut self, key: FileKey, handle: u64) -> Result<(), AllocError>
        ensures ok { OnOk result (self.new.handles ≡ map.insert self.old.handles key handle) }
        ensures err { OnErr result (self.new.handles ≡ self.old.handles) }
        ensures room { self.old.room ≤ self.new.room + 1 }
        ensures succeeds { 0 < self.old.room → IsOk result }
    {
        self.handles.insert(key, handle)?;
        Ok(())
    }

    // An object is open no more. It takes no memory.
    pub(crate) fn remove(&mut self, key: &FileKey)
        ensures handles { self.new.handles ≡ map.remove self.old.handles key.now }
        ensures room { self.old.room ≤ self.new.room }
    {
        self.handles.remove(key);
    }
}
