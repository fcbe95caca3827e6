// What a process sees of its own descriptors without a touch.
ghost use Rattle.std.specs.Prelude.{◌≡◌, ◌==◌, ◌<◌, ◌++◌, ◌∷◌, [], Some, IfOk, OnOk, if◌then◌else◌};
ghost use Rattle.std.specs.List.{flat_map, list_any};
ghost use Rattle.ids.specs.declared.limits.TheConstants.{DESCRIPTORS};
ghost use Rattle.model.specs.Plan.{or_refuse, EMFILE};
ghost use Rattle.model.specs.Plans.{slot, each_once, pipes_in, pipe_in, is_pipe};
ghost use Rattle.look.specs.Asked.{TellsIn};
ghost use Rattle.look.specs.Shown.{first_free, own_in};

use heap::Heap;
use ids::{Errno, Fd, Kind, Num, Nums, Pid, Refusal, Slot};
use look::Look;
use std::alloc::AllocError;

// What a descriptor of a process is open on, which it has to be.
pub(crate) fn slot<L: Look>(look: &L, pid: Pid, fd: Fd) -> Result<Slot, Refusal>
    ensures { TellsIn (L.state look.now) (slot (own_in (L.state look.now) pid) fd) result }
{
    match look.slot(pid, fd) {
        Some(slot) => Ok(slot),
        None => Err(Refusal::Errno(Errno::EBADF)),
    }
}

// The lowest free descriptor of a process from this one on, which there has to be.
pub(crate) fn free_from<L: Look>(look: &L, pid: Pid, first: Fd) -> Result<Fd, Refusal>
    ensures value { TellsIn (L.state look.now)
        (or_refuse EMFILE (first_free (L.state look.now) pid first)) result }
    ensures small { IfOk result (λ fd. fd < DESCRIPTORS) }
{
    match look.free_from(pid, first) {
        Some(fd) => Ok(fd),
        None => Err(Refusal::Errno(Errno::EMFILE)),
    }
}

// The pipes of a process's descriptors, each once.
pub(crate) fn pipes<L: Look>(heap: Heap, look: &L, pid: Pid) -> Result<Nums, AllocError>
    ensures { IfOk result (λ pipes. pipes ≡ pipes_in (own_in (L.state look.now) pid)) }
{
    let table = look.table(heap, pid)?;
    let pipes = pipes_of(heap, table.as_slice());
    drop(table);
    pipes
}

fn pipes_of(heap: Heap, table: &[(Fd, Slot)]) -> Result<Nums, AllocError>
    ensures { IfOk result (λ pipes. pipes
        ≡ each_once [] (flat_map (λ e. pipe_in (Some e.1)) table.now)) }
{
    let mut pipes = Nums::new(heap);
    for entry in table {
        add_pipe(&mut pipes, entry.1.kind, entry.1.inode)?;
    }
    Ok(pipes)
}

fn add_pipe(pipes: &mut Nums, kind: Option<Kind>, inode: Num) -> Result<(), AllocError>
    ensures { OnOk result (pipes.new ≡ (if is_pipe kind
        then if list_any (λ m. m == inode) pipes.old then pipes.old else pipes.old ++ inode ∷ []
        else pipes.old)) }
{
    if is_pipe(kind) && !pipes.as_slice().iter().any(|entry| *entry == inode) {
        pipes.push(inode)?;
    }
    Ok(())
}

// Whether a kind is that of a pipe.
pub(crate) fn is_pipe(kind: Option<Kind>) -> bool
    ensures { result ≡ is_pipe kind }
{
    matches!(kind, Some(Kind::Pipe))
}

// The pipe of a description, if it is of one.
pub(crate) fn pipe_in(heap: Heap, slot: &Slot) -> Result<Nums, AllocError>
    ensures { IfOk result (λ pipes. pipes ≡ pipe_in (Some slot.now)) }
{
    let mut pipes = Nums::new(heap);
    if is_pipe(slot.kind) {
        pipes.push(slot.inode)?;
    }
    Ok(pipes)
}

// The pipes of two descriptions, the second of which may not be there.
pub(crate) fn two_of(heap: Heap, first: &Slot, second: &Option<Slot>) -> Result<Nums, AllocError>
    ensures { IfOk result (λ pipes. pipes ≡ pipe_in (Some first.now) ++ pipe_in second.now) }
{
    let mut pipes = pipe_in(heap, first)?;
    if let Some(slot) = second {
        if is_pipe(slot.kind) {
            pipes.push(slot.inode)?;
        }
    }
    Ok(pipes)
}
