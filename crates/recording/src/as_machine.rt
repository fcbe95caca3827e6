// A recording machine as the layers above it see one.
ghost use Rattle.machine.specs.Shown.{Shown};

use crate::Recording;
use heap::Heap;
use history::History;
use ids::{Limits, Op, Pid, Priority, Reply};
use machine::Machine;
use std::alloc::AllocError;

impl<M: Machine> Machine for Recording<M> {
    ghost shown = { λ r. r.shown };

    fn new(heap: Heap, priorities: &[Priority], limit: usize) -> Result<Recording<M>, AllocError> {
        Recording::new(heap, priorities, limit)
    }

    fn with_limits(
        heap: Heap,
        priorities: &[Priority],
        limits: Limits,
    ) -> Result<Recording<M>, AllocError> {
        Recording::with_limits(heap, priorities, limits)
    }

    fn history(&self) -> &History {
        Recording::history(self)
    }

    fn made(&self) -> usize {
        Recording::made(self)
    }

    fn objects(&self) -> usize {
        Recording::objects(self)
    }

    fn is_living(&self, pid: Pid) -> bool {
        Recording::is_living(self, pid)
    }

    fn step(&mut self, pid: Pid, op: Op) -> Reply {
        Recording::step(self, pid, op)
    }

    fn run(&mut self, ops: Vec<(Pid, Op), Heap>) -> Result<Vec<Reply, Heap>, AllocError> {
        Recording::run(self, ops)
    }

    fn forget(&mut self) -> bool {
        Recording::forget(self)
    }
}
