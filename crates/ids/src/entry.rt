// The entries of a history, and what conflicts are decided by.
ghost use Rattle.std.specs.Prelude.{◌≡◌, IfOk};

use crate::call::Op;
use crate::lists::{Nums, Pids};
use crate::number::{Age, Pid, Priority};
use crate::reply::Reply;
use std::alloc::AllocError;

/// What the history keeps of one operation.
#[derive(Debug)]
pub struct Entry {
    /// The process.
    pub pid: Pid,
    /// What it asked.
    pub op: Op,
    /// What it was answered.
    pub reply: Reply,
    /// The numbers of the objects that it made.
    pub chosen: Nums,
    /// The processes whose transactions it doomed, rising.
    pub doomed: Pids,
}

impl Drop for Entry {
    fn drop(self) {
        let Entry {
            pid: _,
            op: _,
            reply: _,
            chosen: _,
            doomed: _,
        } = self;
    }
}

impl Entry {
    /// A copy on the same allocator. Refused memory changes nothing.
    pub fn try_clone(&self) -> Result<Entry, AllocError>
        ensures { IfOk result (λ copy. copy ≡ self.now) }
    {
        let chosen = self.chosen.try_clone()?;
        let doomed = self.doomed.try_clone()?;
        let (op, reply) = step_copied(&self.op, &self.reply)?;
        Ok(Entry {
            pid: self.pid,
            op,
            reply,
            chosen,
            doomed,
        })
    }
}

// Copies of an operation and its reply on the same allocators. Refused memory changes nothing.
fn step_copied(op: &Op, reply: &Reply) -> Result<(Op, Reply), AllocError>
    ensures { IfOk result (λ copies. (copies.0 ≡ op.now) × (copies.1 ≡ reply.now)) }
{
    let op = op.try_clone()?;
    match reply.try_clone() {
        Ok(reply) => Ok((op, reply)),
        Err(refused) => {
            drop(op);
            Err(refused)
        }
    }
}

/// How live transactions use a directory (TxOS, section 5: list modes).
#[derive(Clone, Copy, Debug, PartialEq, Eq)]
pub enum ListMode {
    /// None has listed it or written an entry of it.
    NoTx,
    /// Some have listed it.
    Read,
    /// Some have written entries of it, and none both.
    Write,
    /// One has both listed it and written an entry of it.
    Exclusive,
}

/// By what a conflict is decided: the higher priority wins, then the earlier begin.
#[derive(Clone, Copy, Debug, PartialEq, Eq)]
pub struct Rank {
    /// The process's priority.
    pub priority: Priority,
    /// When its transaction began first; `None` for a plain call, which wins at equal priority.
    pub age: Option<Age>,
}
