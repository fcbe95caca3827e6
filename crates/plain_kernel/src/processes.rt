// What happens to the descriptors of processes. Where memory is refused, nothing changes.
ghost use Rattle.std.specs.Prelude.{◌≡◌, IfOk, OnErr, OnOk, option_copied};
ghost use Rattle.model.specs.FiniteMap.{get, insert};
ghost use Rattle.model.specs.Changes.{or_new, with_slot, without_slot};

use crate::plain::Process;
use crate::tree::Tree;
use heap::Heap;
use ids::Num;
use std::alloc::AllocError;

// A descriptor of a process gives a description; where there is no such process it is made. It gives
// what the descriptor gave before.
pub(crate) fn set_slot(
    processes: &mut Tree<Process>,
    heap: Heap,
    pid: Num,
    fd: Num,
    description: Num,
) -> Result<Option<Num>, AllocError>
    ensures changed { OnOk result (processes.new ≡ insert processes.old pid
        (with_slot fd description (or_new (get processes.old pid)))) }
    ensures before { IfOk result
        (λ before. before ≡ get (or_new (get processes.old pid)).table fd) }
    ensures err { OnErr result (processes.new ≡ processes.old) }
{
    match processes.swap(pid, Process::new(heap)) {
        Some(mut process) => {
            let before = process.table.insert(fd, description);
            processes.change(pid, process);
            before
        }
        None => {
            let mut process = Process::new(heap);
            let _none = process.table.insert(fd, description)?;
            processes.set(pid, process)?;
            Ok(None)
        }
    }
}

// A descriptor of a process gives nothing any more; where there is no such process it is made. It
// gives what the descriptor gave before.
pub(crate) fn clear_slot(
    processes: &mut Tree<Process>,
    heap: Heap,
    pid: Num,
    fd: Num,
) -> Result<Option<Num>, AllocError>
    ensures changed { OnOk result (processes.new ≡ insert processes.old pid
        (without_slot fd (or_new (get processes.old pid)))) }
    ensures before { IfOk result
        (λ before. before ≡ get (or_new (get processes.old pid)).table fd) }
    ensures err { OnErr result (processes.new ≡ processes.old) }
{
    match processes.swap(pid, Process::new(heap)) {
        Some(mut process) => {
            let before = process.table.remove(fd);
            processes.change(pid, process);
            Ok(before)
        }
        None => {
            processes.set(pid, Process::new(heap))?;
            Ok(None)
        }
    }
}

// A process becomes as another is. It gives what it was before.
pub(crate) fn copy(
    processes: &mut Tree<Process>,
    heap: Heap,
    child: Num,
    parent: Num,
) -> Result<Option<Process>, AllocError>
    ensures changed { OnOk result
        (processes.new ≡ insert processes.old child (or_new (get processes.old parent))) }
    ensures before { IfOk result (λ before. before ≡ get processes.old child) }
    ensures err { OnErr result (processes.new ≡ processes.old) }
{
    let copied = copy_of(heap, processes.get(parent))?;
    processes.insert(child, copied)
}

// A copy of a process, or one without descriptors.
fn copy_of(heap: Heap, process: Option<&Process>) -> Result<Process, AllocError>
    ensures { IfOk result (λ p. p ≡ or_new (option_copied process.entry)) }
{
    match process {
        Some(process) => Ok(Process {
            table: process.table.try_clone(heap)?,
            priority: process.priority,
        }),
        None => Ok(Process::new(heap)),
    }
}
