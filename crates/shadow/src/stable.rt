// The committed state.
ghost use Rattle.std.specs.Prelude.{ℕ, ◌≡◌, ◌≢◌, ◌≤◌, ◌<◌, ◌+◌, ◌∷◌, [], List, None, Some, true, IfOk, OnErr};
ghost use Rattle.std.specs.Prelude.{OnOk, IfSome, option_copied, length, map, if◌then◌else◌};
ghost use Rattle.ids.specs.declared.limits.TheConstants.{LARGEST_FILE, TARGET_LIMIT};
ghost use Rattle.std.specs.List.{AllByRecursion};
ghost use Rattle.model.specs.FiniteMap.{empty, get};
ghost use Rattle.model.specs.State.{file_of, kind_of, links, mapped, names_of, File as A_file};
ghost use Rattle.model.specs.State.{Pipe as A_pipe, target_of};
ghost use Rattle.model.specs.Changes.{all_applied, holders, process_of, tidy};
ghost use Rattle.model.specs.Steps.{IsNowhere};
ghost use Rattle.model.specs.Moments.{start, is_alive};
ghost use Rattle.call_laws.specs.Fits.{FitsAll};
ghost use Rattle.freeing_laws.specs.Sweep.{IsTidied};
ghost use Rattle.freeing_laws.specs.Pipes.{ArePair};
ghost use Rattle.store.specs.Shown.{file_inode, pipe_inode};
ghost use Rattle.shadow.specs.Claims.{AreUnused, Claim, Covers, HaveParents, IsDirectory, KeepsMore};
ghost use Rattle.shadow.specs.Claims.{KeepsNothing, KeepsSame, claimed_by, number_as, number_of};
ghost use Rattle.shadow.specs.Claims.{reserved, room_in};
ghost use Rattle.notes.specs.Log.{effect};
ghost use Rattle.shadow.specs.Looks.{DirectoriesAreKept, birth_of};
ghost use Rattle.notes.specs.Steps.{CanEdit};
ghost use Rattle.shadow.specs.Laid.{table_in};
ghost use Rattle.shadow.specs.Stored.{numbered, with_one_more, with_process};

use crate::shadow::Shadow;
use dirlist::Dir;
use fdtable::FdTable;
use heap::Heap;
use ids::{Bounds, Edit, Fd, Kind, Name, Num, Nums, Pid, Priority, Rights};
use objects::{Description, FileData};
use std::alloc::AllocError;
use std::marker::Model;
use store::{Object, OpenPipe, Store};

/// A process.
pub(crate) struct Process {
    /// Its open descriptors.
    pub(crate) table: FdTable,
    /// Its priority.
    pub(crate) priority: Priority,
}

impl Drop for Process {
    fn drop(self) {
        let Process {
            table: _,
            priority: _,
        } = self;
    }
}

impl Process {
    // Its open descriptors.
    fn into_table(self) -> FdTable
        ensures { result ≡ self.table }
    {
        let Process { table, priority: _ } = self;
        table
    }
}

impl Model for Process {
    ghost use Rattle.model.specs.State.{Process};

    ghost Value = { Process };

    ghost view = { λ p. record {
      table = p.table;
      priority = p.priority;
    } };
}

/// The processes, and the bounds, which never change.
pub(crate) struct Processes {
    /// Each place has the process of the next number; one that has ended leaves its place empty.
    pub(crate) list: Vec<Option<Process>, Heap>,
    bounds: Bounds,
}

impl Drop for Processes {
    fn drop(self) {
        let Processes { list: _, bounds: _ } = self;
    }
}

impl Model for Processes {
    ghost use Rattle.std.specs.Prelude.{◌≤◌};
    ghost use Rattle.ids.specs.declared.limits.TheConstants.{LARGEST_FILE};
    ghost use Rattle.shadow.specs.Stored.{Processes};

    ghost Value = { Processes };

    ghost view = { λ p. record { list = p.list.items; bounds = p.bounds } };

    ghost invariant = { λ p. p.bounds.file_bytes ≤ LARGEST_FILE };
}

/// The committed state: the objects, the processes with their descriptors and priorities, and what
/// is kept for transactions that may commit.
pub struct Stable {
    pub(crate) processes: Processes,
    pub(crate) store: Store,
}

impl Drop for Stable {
    fn drop(self) {
        let Stable {
            processes: _,
            store: _,
        } = self;
    }
}

impl Model for Stable {
    ghost use Rattle.shadow.specs.Committed.{Committed};
    ghost use Rattle.shadow.specs.Stored.{committed_of, Sound};

    ghost Value = { Committed };

    ghost view = { λ s. committed_of s.processes s.store };

    ghost invariant = { λ s. Sound s.processes s.store };
}

// A process without open descriptors for each of these priorities.
fn first_processes(
    heap: Heap,
    priorities: &[Priority],
) -> Result<Vec<Option<Process>, Heap>, AllocError>
    ensures { IfOk result (λ ps. ps.items
        ≡ map (λ p. Some (record { table = empty; priority = p })) priorities.now) }
{
    let mut processes = Vec::with_capacity(heap, priorities.len())?;
    for priority in priorities {
        processes.push(Some(Process {
            table: FdTable::new(heap),
            priority: *priority,
        }))?;
    }
    Ok(processes)
}

impl Processes {
    // A process without open descriptors for each of these priorities, within these bounds.
    fn first(heap: Heap, priorities: &[Priority], bounds: Bounds) -> Result<Processes, AllocError>
        requires { bounds.file_bytes ≤ LARGEST_FILE }
        ensures { IfOk result (λ ps. ps ≡ record {
          list = map (λ p. Some (record { table = empty; priority = p })) priorities.now;
          bounds = bounds;
        }) }
    {
        Ok(Processes {
            list: first_processes(heap, priorities)?,
            bounds,
        })
    }

    // How many were ever made.
    fn count(&self) -> usize
        ensures { result ≡ length self.now.list }
    {
        self.list.len()
    }

    // The bounds.
    fn bounds(&self) -> Bounds
        ensures value { result ≡ self.now.bounds }
        ensures small { result.file_bytes ≤ LARGEST_FILE }
    {
        self.bounds
    }

    // The process of a number, if it is there.
    fn process(&self, pid: Pid) -> Option<&Process>
        ensures { option_copied result ≡ get (numbered self.now) pid }
    {
        let number = pid.0 as usize;
        if 0 < number && number <= self.list.len() {
            self.list[number - 1].as_ref()
        } else {
            None
        }
    }

    /// One more. Refused memory changes nothing.
    pub(crate) fn push(&mut self, process: Process) -> Result<(), AllocError>
        ensures ok { OnOk result (self.new ≡ with_one_more process self.old) }
        ensures err { OnErr result (self.new ≡ self.old) }
    {
        self.list.push(Some(process))?;
        Ok(())
    }

    /// A process is gone; its open descriptors are answered. It takes no memory.
    pub(crate) fn remove(&mut self, pid: Pid) -> FdTable
        requires { get (numbered self.old) pid ≢ None }
        ensures table { result ≡ table_in (get (numbered self.old) pid) }
        ensures gone { self.new ≡ with_process pid None self.old }
    {
        match self.list[pid.0 as usize - 1].take() {
            Some(process) => process.into_table(),
            None => unreachable!(),
        }
    }
}

impl Stable {
    /// The empty root, and a process for each of these priorities, within these bounds. Refused memory
    /// gives nothing.
    pub fn new(heap: Heap, priorities: &[Priority], bounds: Bounds) -> Result<Stable, AllocError>
        requires { bounds.file_bytes ≤ LARGEST_FILE }
        ensures state { IfOk result (λ s. s.state
            ≡ start 0 (record { priorities = priorities.now; bounds = bounds })) }
        ensures kept { IfOk result KeepsNothing }
    {
        Ok(Stable {
            processes: Processes::first(heap, priorities, bounds)?,
            store: Store::new(heap)?,
        })
    }

    /// What calls keep within.
    pub fn bounds(&self) -> Bounds
        ensures value { result ≡ self.now.state.bounds }
        ensures small { result.file_bytes ≤ LARGEST_FILE }
    {
        self.processes.bounds()
    }

    /// How many processes were ever made.
    pub fn made(&self) -> usize
        ensures { result ≡ self.now.state.made }
    {
        self.processes.count()
    }

    /// How many objects there are, with those that are to come. Contracts do not know it.
    pub fn objects(&self) -> usize {
        self.store.in_use()
    }

    /// Whether there is such a process.
    pub fn is_living(&self, pid: Pid) -> bool
        ensures { result ≡ is_alive self.now.state pid }
    {
        self.processes.process(pid).is_some()
    }

    /// A process's priority.
    pub fn priority_of(&self, pid: Pid) -> Priority
        requires { is_alive self.now.state pid ≡ true }
        ensures { result ≡ (process_of self.now.state pid).priority }
    {
        match self.processes.process(pid) {
            Some(process) => process.priority,
            None => unreachable!(),
        }
    }

    /// A process's priority as a number; 0 where there is no such process.
    fn level_of(&self, pid: Pid) -> u8
        ensures { result ≡ (process_of self.now.state pid).priority }
    {
        if self.is_living(pid) {
            self.priority_of(pid).level()
        } else {
            0
        }
    }

    /// How many processes were made, and a process's priority. `AllocError` where the count does
    /// not fit.
    pub(crate) fn birth(&self, pid: Pid) -> Result<(u32, u8), AllocError>
        ensures { IfOk result (λ b. b ≡ birth_of self.now.state pid) }
    {
        let made = self.made();
        if made > u32::MAX as usize {
            return Err(AllocError);
        }
        Ok((made as u32, self.level_of(pid)))
    }

    /// A process's open descriptors; where there is no such process, this table of none.
    pub(crate) fn table<'a>(&'a self, pid: Pid, none: &'a FdTable) -> &'a FdTable
        requires { none.now ≡ empty }
        ensures { result.now ≡ (process_of self.now.state pid).table }
    {
        match self.processes.process(pid) {
            Some(process) => &process.table,
            None => none,
        }
    }

    /// The description that a descriptor of a process gives; none where there is no such process.
    pub(crate) fn given(&self, pid: Pid, fd: Fd) -> Option<Num>
        ensures { result ≡ get (process_of self.now.state pid).table fd }
    {
        match self.processes.process(pid) {
            Some(process) => process.table.get(fd),
            None => None,
        }
    }

    /// The number of the root.
    pub(crate) fn root(&self) -> Num
        ensures { result ≡ self.now.state.root }
    {
        self.store.root()
    }

    /// What kind of inode a number stands for.
    pub(crate) fn kind(&self, num: Num) -> Option<Kind>
        ensures { result ≡ kind_of self.now.state num }
    {
        self.store.kind(num)
    }

    /// The number that a name in a directory gives.
    pub(crate) fn lookup(&self, dir: Num, name: &Name) -> Option<Num>
        ensures { result ≡ get (names_of self.now.state dir) name.now }
    {
        self.store.lookup(dir, name)
    }

    /// A directory; where the number is of none, this one without names.
    pub(crate) fn directory<'a>(&'a self, dir: Num, none: &'a Dir) -> &'a Dir
        requires { none.now.names ≡ empty }
        ensures { result.now.names ≡ names_of self.now.state dir }
    {
        match self.store.directory(dir) {
            Some(dir) => dir,
            None => none,
        }
    }

    /// A file; where the number is of none, this one without bytes.
    pub(crate) fn file<'a>(&'a self, num: Num, none: &'a FileData) -> &'a FileData
        requires { none.now.bytes ≡ [] }
        ensures { result.now.bytes ≡ file_of self.now.state num }
    {
        match self.store.file(num) {
            Some(file) => file,
            None => none,
        }
    }

    /// The target of a symbolic link; no bytes where the number is of none.
    pub(crate) fn target(&self, link: Num) -> &[u8]
        ensures value { result.now ≡ target_of self.now.state link }
        ensures small { length result.now ≤ TARGET_LIMIT }
    {
        self.store.target(link)
    }

    /// The permissions and the owner that were set of an inode, if any were.
    pub(crate) fn rights(&self, inode: Num) -> Option<Rights>
        ensures { result ≡ get self.now.state.rights inode }
    {
        self.store.rights(inode)
    }

    /// An open file description.
    pub(crate) fn description(&self, num: Num) -> Option<Description>
        ensures { result ≡ get self.now.state.descriptions num }
    {
        self.store.description(num)
    }

    /// A pipe.
    pub(crate) fn pipe(&self, num: Num) -> Option<&OpenPipe>
        ensures bytes { pipe_inode (get self.now.state.inodes num)
            ≡ mapped (λ pipe. A_pipe pipe.bytes) (option_copied result) }
        ensures ends { IfSome (option_copied result) (λ pipe.
            ArePair self.now.state.descriptions num pipe.reader pipe.writer) }
    {
        self.store.pipe(num)
    }

    /// How many descriptors of processes name a description.
    pub(crate) fn holders(&self, num: Num) -> u128
        ensures { result ≡ holders self.now.state num }
    {
        self.store.holders(num)
    }

    /// How many names give an inode.
    pub(crate) fn links(&self, num: Num) -> u128
        ensures { result ≡ links self.now.state num }
    {
        self.store.links(num)
    }

    // For the proof: each directory can have room promised.
    pub(crate) fn directories_are_kept(&self)
        ensures { DirectoriesAreKept self.now }
    {
        let _store = &self.store;
    }

    // For the proof: its state is well formed, and nothing in it is unreached.
    pub(crate) fn state_is_tidied(&self)
        ensures { IsTidied self.now.state }
    {
        let _store = &self.store;
    }

    /// Where its memory comes from.
    pub(crate) fn heap(&self) -> Heap {
        *self.processes.list.allocator()
    }
}
