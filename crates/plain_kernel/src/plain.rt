// The plain kernel: whole maps. How many names give each number is counted as names come and go, how
// many descriptions open it and how many descriptors give each description likewise.
ghost use Rattle.std.specs.Prelude.{◌≡◌, ◌≢◌, ◌+◌, ◌<◌, ◌≤◌, ℕ, nat_lt, IfOk, Some, None, option_copied};
ghost use Rattle.ids.specs.declared.limits.TheConstants.{LARGEST_FILE};
ghost use Rattle.model.specs.FiniteMap.{get};
ghost use Rattle.model.specs.State.{Kernel, Description as Opened, ends, is_end, links, kind_of};
ghost use Rattle.model.specs.Calls.{slot_of};
ghost use Rattle.model.specs.Changes.{process_of, or_new, holders, openings, is_held, is_reached};
ghost use Rattle.model.specs.Moments.{is_alive};
ghost use Rattle.plain_kernel.specs.Counts.{given_by};

use crate::descriptions::Descriptions;
use crate::holders::Holders;
use crate::inode::{
    given_in, is_empty_in, kind_in, names_in, passed_in, pipe_in, read_in, size_in, target_in,
};
use crate::inodes::Inodes;
use crate::table::Table;
use crate::tree::Tree;
use heap::Heap;
use ids::{
    Bounds, Bytes, DESCRIPTORS, Fd, Kind, Name, NameList, Num, PIPE_CAPACITY, Pid, Rights, Slot,
};
use look::Look;
use std::alloc::AllocError;
use std::marker::Model;

/// What open descriptors share.
#[derive(Clone, Copy, Debug, PartialEq, Eq)]
pub(crate) struct Description {
    pub(crate) inode: Num,
    pub(crate) reading: bool,
    pub(crate) writing: bool,
    pub(crate) appending: bool,
    pub(crate) offset: u64,
}

impl Model for Description {
    ghost use Rattle.model.specs.State.{Description as Opened};

    ghost Value = { Opened };

    ghost view = { λ d. record {
      inode = d.inode;
      reading = d.reading;
      writing = d.writing;
      appending = d.appending;
      offset = d.offset;
    } };

    ghost inverse = { λ d. record {
      inode = d.inode;
      reading = d.reading;
      writing = d.writing;
      appending = d.appending;
      offset = d.offset;
    } };
}

/// A process: what each descriptor is open on, and its priority.
pub(crate) struct Process {
    pub(crate) table: Table<Num>,
    pub(crate) priority: u8,
}

impl Drop for Process {
    fn drop(self) {
        let Process {
            table: _,
            priority: _,
        } = self;
    }
}

impl Model for Process {
    ghost use Rattle.model.specs.State.{Process};

    ghost Value = { Process };

    ghost view = { λ p. record {
      table = p.table;
      priority = p.priority;
    } };
}

/// A kernel without transactions. Where it was refused memory, it is left in between, and is of no use
/// any more.
pub struct PlainKernel {
    pub(crate) root: Num,
    pub(crate) inodes: Inodes,
    // Those that were set.
    pub(crate) rights: Tree<Rights>,
    pub(crate) descriptions: Descriptions,
    pub(crate) processes: Tree<Process>,
    pub(crate) holders: Holders,
    pub(crate) made: u32,
    pub(crate) bounds: Bounds,
}

impl Drop for PlainKernel {
    fn drop(self) {
        let PlainKernel {
            root: _,
            inodes: _,
            rights: _,
            descriptions: _,
            processes: _,
            holders: _,
            made: _,
            bounds: _,
        } = self;
    }
}

impl Model for PlainKernel {
    ghost use Rattle.std.specs.Prelude.{◌≤◌};
    ghost use Rattle.ids.specs.declared.limits.TheConstants.{LARGEST_FILE};
    ghost use Rattle.model.specs.State.{Kernel};
    ghost use Rattle.plain_kernel.specs.Holders.{AreHoldersOf};

    ghost Value = { Kernel };

    ghost view = { λ k. record {
      root = k.root;
      inodes = k.inodes;
      rights = k.rights;
      descriptions = k.descriptions;
      processes = k.processes;
      made = k.made;
      bounds = k.bounds;
    } };

    ghost invariant = { λ k. (k.bounds.file_bytes ≤ LARGEST_FILE)
        × AreHoldersOf k.descriptions k.processes k.holders };
}

/// A process has its number as its key.
pub fn key_of(pid: Pid) -> Num
    ensures { result ≡ pid }
{
    Num(pid.0 as usize)
}

impl PlainKernel {
    /// Whether there is such a process.
    pub fn is_living(&self, pid: Pid) -> bool
        ensures { result ≡ is_alive self.now pid }
    {
        self.processes.get(key_of(pid)).is_some()
    }

    /// The most bytes of a file.
    pub fn largest_file(&self) -> u64
        ensures value { result ≡ self.now.bounds.file_bytes }
        ensures bound { result ≤ LARGEST_FILE }
    {
        self.bounds.file_bytes
    }

    // The lowest descriptor of a process from this one on that is not open, whatever the limit.
    fn lowest(&self, pid: Pid, first: Fd) -> usize
        ensures from { first ≤ result }
        ensures free { get (process_of self.now pid).table result ≡ None }
        ensures open { (f : ℕ) → first ≤ f → f < result
            → get (process_of self.now pid).table f ≢ None }
    {
        match self.processes.get(key_of(pid)) {
            Some(process) => process.table.free_from(first.0),
            None => first.0 as usize,
        }
    }

    // What never changes of a description, with its inode's kind.
    fn described(&self, num: Num) -> Slot
        ensures { result ≡ slot_of self.now num (get self.now.descriptions num) }
    {
        match self.descriptions.get(num) {
            Some(description) => Slot {
                description: num,
                inode: description.inode,
                kind: kind_in(self.inodes.get(description.inode)),
                reading: description.reading,
                writing: description.writing,
                appending: description.appending,
            },
            None => Slot {
                description: num,
                inode: Num(0),
                kind: None,
                reading: false,
                writing: false,
                appending: false,
            },
        }
    }

    // Whether a descriptor gives a description.
    pub(crate) fn is_held(&self, description: Num) -> bool
        ensures { result ≡ is_held self.now description }
    {
        self.holders.of(description) > 0
    }

    // Whether an inode is the root, or a name or a description gives it.
    pub(crate) fn is_reached(&self, inode: Num) -> bool
        ensures { result ≡ is_reached self.now inode }
    {
        inode == self.root || self.inodes.count(inode) > 0 || self.descriptions.count(inode) > 0
    }
}

// A count that plans know with 32 bits.
pub(crate) fn small(count: usize) -> Result<u32, AllocError>
    ensures { IfOk result (λ n. n ≡ count) }
{
    if count > u32::MAX as usize {
        return Err(AllocError);
    }
    Ok(count as u32)
}

// One count more.
pub(crate) fn counted(so_far: usize, more: usize) -> Result<usize, AllocError>
    ensures { IfOk result (λ n. n ≡ so_far + more) }
{
    match so_far.checked_add(more) {
        Some(count) => Ok(count),
        None => Err(AllocError),
    }
}

impl Process {
    // One without descriptors. It takes no memory.
    pub(crate) fn new(heap: Heap) -> Process
        ensures { result ≡ or_new None }
    {
        Process {
            table: Table::new(heap),
            priority: 0,
        }
    }
}

impl Look for PlainKernel {
    ghost state = { λ k. k };

    fn root(&self) -> Num {
        self.root
    }

    fn largest(&self) -> u64 {
        self.bounds.file_bytes
    }

    fn open_limit(&self) -> u32 {
        self.bounds.descriptors.min(DESCRIPTORS as u32)
    }

    fn path_limit(&self) -> u32 {
        self.bounds.path_bytes
    }

    fn find(&self, dir: Num, name: &Name) -> Option<(Num, Option<Kind>)> {
        match given_in(self.inodes.get(dir), name) {
            Some(num) => Some((num, kind_in(self.inodes.get(num)))),
            None => None,
        }
    }

    fn is_empty(&self, dir: Num) -> bool {
        is_empty_in(self.inodes.get(dir))
    }

    fn names(&self, heap: Heap, dir: Num) -> Result<NameList, AllocError> {
        names_in(heap, self.inodes.get(dir))
    }

    fn size(&self, file: Num) -> Result<u64, AllocError> {
        Ok(size_in(self.inodes.get(file)))
    }

    fn read_file(
        &self,
        heap: Heap,
        file: Num,
        offset: u64,
        count: u32,
    ) -> Result<Bytes, AllocError> {
        read_in(heap, self.inodes.get(file), offset, count)
    }

    fn pass(
        &self,
        heap: Heap,
        file: Num,
        holes: bool,
        first: u64,
        count: u64,
    ) -> Result<u64, AllocError> {
        Ok(passed_in(heap, self.inodes.get(file), holes, first, count))
    }

    fn links(&self, file: Num) -> Result<u32, AllocError> {
        small(self.inodes.count(file))
    }

    fn ends(&self, pipe: Num) -> Result<(u32, u32), AllocError> {
        let reading = small(self.holders.ends(pipe, false))?;
        let writing = small(self.holders.ends(pipe, true))?;
        Ok((reading, writing))
    }

    fn offset(&self, description: Num) -> Result<u64, AllocError> {
        match self.descriptions.get(description) {
            Some(description) => Ok(description.offset),
            None => Ok(0),
        }
    }

    fn read_pipe(&self, heap: Heap, pipe: Num, count: u32) -> Result<Bytes, AllocError> {
        let all = pipe_in(self.inodes.get(pipe));
        Bytes::copy(heap, &all[..(count as usize).min(all.len())])
    }

    fn fit(&self, pipe: Num, count: usize) -> Result<u32, AllocError> {
        let room = PIPE_CAPACITY.saturating_sub(pipe_in(self.inodes.get(pipe)).len());
        Ok(count.min(room) as u32)
    }

    fn target(&self, heap: Heap, link: Num) -> Result<Bytes, AllocError> {
        Bytes::copy(heap, target_in(self.inodes.get(link)))
    }

    fn target_len(&self, link: Num) -> u32 {
        target_in(self.inodes.get(link)).len() as u32
    }

    fn rights(&self, inode: Num) -> Rights {
        match self.rights.get(inode) {
            Some(rights) => *rights,
            None => Rights::first(kind_in(self.inodes.get(inode))),
        }
    }

    fn slot(&self, pid: Pid, fd: Fd) -> Option<Slot> {
        match self.given(pid, fd) {
            Some(description) => Some(self.described(description)),
            None => None,
        }
    }

    fn free_from(&self, pid: Pid, first: Fd) -> Option<Fd> {
        let free = self.lowest(pid, first);
        if free < self.open_limit() as usize {
            Some(Fd(free as u32))
        } else {
            None
        }
    }

    fn table(&self, heap: Heap, pid: Pid) -> Result<Vec<(Fd, Slot), Heap>, AllocError> {
        let Some(process) = self.processes.get(key_of(pid)) else {
            return Ok(Vec::new(heap));
        };
        let slots = process.table.as_slice();
        let mut all = Vec::with_capacity(heap, slots.len())?;
        for (fd, description) in slots {
            all.push((Fd(small(fd.0)?), self.described(*description)))?;
        }
        Ok(all)
    }

    fn birth(&self, pid: Pid) -> Result<(u32, u8), AllocError> {
        match self.processes.get(key_of(pid)) {
            Some(process) => Ok((self.made, process.priority)),
            None => Ok((self.made, 0)),
        }
    }
}
