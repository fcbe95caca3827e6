// The kernel as the layers above it see one.
ghost use Rattle.machine.specs.Shown.{Shown};

use crate::Kernel;
use heap::Heap;
use history::History;
use ids::{Limits, Op, Pid, Priority, Reply};
use machine::Machine;
use std::alloc::AllocError;

impl Machine for Kernel {
    ghost shown = { λ k. k };

    fn new(heap: Heap, priorities: &[Priority], limit: usize) -> Result<Kernel, AllocError> {
        Kernel::new(heap, priorities, limit)
    }

    fn with_limits(
        heap: Heap,
        priorities: &[Priority],
        limits: Limits,
    ) -> Result<Kernel, AllocError> {
        Kernel::with_limits(heap, priorities, limits)
    }

    fn history(&self) -> &History {
        Kernel::history(self)
    }

    fn made(&self) -> usize {
        Kernel::made(self)
    }

    fn objects(&self) -> usize {
        Kernel::objects(self)
    }

    fn is_living(&self, pid: Pid) -> bool {
        Kernel::is_living(self, pid)
    }

    fn step(&mut self, pid: Pid, op: Op) -> Reply {
        Kernel::step(self, pid, op)
    }

    fn run(&mut self, ops: Vec<(Pid, Op), Heap>) -> Result<Vec<Reply, Heap>, AllocError> {
        Kernel::run(self, ops)
    }

    fn forget(&mut self) -> bool {
        Kernel::forget(self)
    }
}
