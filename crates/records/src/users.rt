// The processes that read and write an aspect.
ghost use Rattle.std.specs.Prelude.{◌≡◌, not, true, [], IfOk, OnOk, OnErr};
ghost use Rattle.records.specs.Groups.{among, with_pid, without_pid, joined_if, left_if};
ghost use Rattle.records.specs.Index.{side};

use heap::Heap;
use ids::Pid;
use smallvec::SmallVec;
use std::alloc::AllocError;

// Most aspects have one user or two, which take no memory.
type Pids = SmallVec<Pid, 2, Heap>;

/// Who reads an aspect and who writes it, each process once.
pub struct Users {
    pub writers: Pids,
    pub readers: Pids,
}

impl Drop for Users {
    fn drop(self) {
        let Users {
            writers: _,
            readers: _,
        } = self;
    }
}

/// A process is among these, and the answer is whether it is new. Refused memory changes nothing.
fn join_pids(pids: &mut Pids, pid: Pid) -> Result<bool, AllocError>
    ensures new { IfOk result (λ new. new ≡ not (among pid pids.old.items)) }
    ensures ok { OnOk result (pids.new.items ≡ with_pid pid pids.old.items) }
    ensures err { OnErr result (pids.new.items ≡ pids.old.items) }
{
    if pids.as_slice().contains(&pid) {
        return Ok(false);
    }
    pids.push(pid)?;
    Ok(true)
}

/// A process goes from these. It takes no memory.
fn leave_pids(pids: &mut Pids, pid: Pid)
    ensures { pids.new.items ≡ without_pid pid pids.old.items }
{
    pids.retain(|other| *other != pid);
}

impl Users {
    /// Nobody. It takes no memory.
    pub fn none(heap: Heap) -> Users
        ensures writers { result.writers.items ≡ [] }
        ensures readers { result.readers.items ≡ [] }
    {
        Users {
            writers: SmallVec::new(heap),
            readers: SmallVec::new(heap),
        }
    }

    /// The writers or the readers.
    pub fn side(&self, write: bool) -> &[Pid]
        ensures { result.now ≡ side write self.now }
    {
        if write {
            self.writers.as_slice()
        } else {
            self.readers.as_slice()
        }
    }

    /// A process is among the writers or the readers, and the answer is whether it is new there.
    /// Refused memory changes nothing.
    pub fn join(&mut self, pid: Pid, write: bool) -> Result<bool, AllocError>
        ensures new { IfOk result (λ new. new ≡ not (among pid (side write self.old))) }
        ensures writers { OnOk result
            (self.new.writers.items ≡ joined_if write pid self.old.writers.items) }
        ensures readers { OnOk result
            (self.new.readers.items ≡ joined_if (not write) pid self.old.readers.items) }
        ensures same_writers { OnErr result (self.new.writers.items ≡ self.old.writers.items) }
        ensures same_readers { OnErr result (self.new.readers.items ≡ self.old.readers.items) }
    {
        if write {
            join_pids(&mut self.writers, pid)
        } else {
            join_pids(&mut self.readers, pid)
        }
    }

    /// A process goes from the writers or the readers. It takes no memory.
    pub fn leave(&mut self, pid: Pid, write: bool)
        ensures writers { self.new.writers.items ≡ left_if write pid self.old.writers.items }
        ensures readers { self.new.readers.items ≡ left_if (not write) pid self.old.readers.items }
    {
        if write {
            leave_pids(&mut self.writers, pid);
        } else {
            leave_pids(&mut self.readers, pid);
        }
    }

    /// Whether there is nobody.
    pub fn is_empty(&self) -> bool
        ensures writers { result ≡ true → self.now.writers.items ≡ [] }
        ensures readers { result ≡ true → self.now.readers.items ≡ [] }
    {
        self.writers.is_empty() && self.readers.is_empty()
    }
}
