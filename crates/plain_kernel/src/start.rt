// The state before any call.
ghost use Rattle.std.specs.Prelude.{◌≡◌, ◌<◌, ◌≤◌, ◌^◌, IfOk, length};
ghost use Rattle.ids.specs.declared.limits.TheConstants.{LARGEST_FILE};
ghost use Rattle.model.specs.FiniteMap.{empty, insert};
ghost use Rattle.model.specs.Moments.{start, with_processes};
ghost use Rattle.model.specs.State.{Directory as A_directory};

use crate::descriptions::Descriptions;
use crate::holders::Holders;
use crate::inode::Inode;
use crate::inodes::Inodes;
use crate::names::Names;
use crate::plain::{PlainKernel, Process, small};
use crate::table::Table;
use crate::tree::Tree;
use heap::Heap;
use ids::{Bounds, Num, Priority};
use std::alloc::AllocError;

// A process without descriptors for each of these priorities.
fn first_processes(heap: Heap, priorities: &[Priority]) -> Result<Tree<Process>, AllocError>
    requires { length priorities.now < 2 ^ 32 }
    ensures { IfOk result (λ all. all ≡ with_processes 0 priorities.now empty) }
{
    let mut processes = Tree::new(heap);
    for (index, priority) in priorities.iter().enumerate() {
        let process = Process {
            table: Table::new(heap),
            priority: priority.level(),
        };
        processes.set(Num(index + 1), process)?;
    }
    Ok(processes)
}

// The empty root alone.
fn first_inodes(heap: Heap, root: Num) -> Result<Inodes, AllocError>
    ensures { IfOk result (λ inodes. inodes ≡ insert empty root (A_directory empty)) }
{
    let mut inodes = Inodes::new(heap);
    match inodes.insert(root, Inode::directory(Names::new(heap))) {
        Ok(before) => {
            drop(before);
            Ok(inodes)
        }
        Err(refused) => {
            drop(inodes);
            Err(refused)
        }
    }
}

impl PlainKernel {
    /// The empty root alone, of this number, and a process without descriptors for each of these
    /// priorities, within these bounds. Refused memory gives nothing.
    pub fn new(
        heap: Heap,
        root: Num,
        priorities: &[Priority],
        bounds: Bounds,
    ) -> Result<PlainKernel, AllocError>
        requires { bounds.file_bytes ≤ LARGEST_FILE }
        ensures { IfOk result (λ kernel. kernel
            ≡ start root (record { priorities = priorities.now; bounds = bounds })) }
    {
        let made = small(priorities.len())?;
        let processes = first_processes(heap, priorities)?;
        match first_inodes(heap, root) {
            Ok(inodes) => {
                let rights = Tree::new(heap);
                Ok(PlainKernel {
                    root,
                    inodes,
                    rights,
                    descriptions: Descriptions::new(heap),
                    processes,
                    holders: Holders::new(heap),
                    made,
                    bounds,
                })
            }
            Err(refused) => {
                drop(processes);
                Err(refused)
            }
        }
    }
}
