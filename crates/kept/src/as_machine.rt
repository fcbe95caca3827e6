// A machine with a store as the layers above it see one.
ghost use Rattle.machine.specs.Shown.{Shown};

use crate::Kept;
use heap::Heap;
use history::History;
use ids::{Limits, Op, Pid, Priority, Reply};
use machine::Machine;
use sqlite_disk::Disk;
use std::alloc::AllocError;

impl<M: Machine, D: Disk + Drop> Machine for Kept<M, D> {
    ghost shown = { λ k. k.machine.shown };

    fn new(heap: Heap, priorities: &[Priority], limit: usize) -> Result<Kept<M, D>, AllocError> {
        Kept::new(heap, priorities, limit)
    }

    fn with_limits(
        heap: Heap,
        priorities: &[Priority],
        limits: Limits,
    ) -> Result<Kept<M, D>, AllocError> {
        Kept::with_limits(heap, priorities, limits)
    }

    fn history(&self) -> &History {
        Kept::history(self)
    }

    fn made(&self) -> usize {
        Kept::made(self)
    }

    fn objects(&self) -> usize {
        Kept::objects(self)
    }

    fn is_living(&self, pid: Pid) -> bool {
        Kept::is_living(self, pid)
    }

    fn step(&mut self, pid: Pid, op: Op) -> Reply {
        Kept::step(self, pid, op)
    }

    fn run(&mut self, ops: Vec<(Pid, Op), Heap>) -> Result<Vec<Reply, Heap>, AllocError> {
        Kept::run(self, ops)
    }

    fn forget(&mut self) -> bool {
        Kept::forget(self)
    }
}
