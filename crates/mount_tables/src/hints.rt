// Which processes may be used next.
ghost use Rattle.std.specs.Prelude.{◌≡◌, ◌<◌, vec_len};

use heap::Heap;
use ids::Pid;
use std::alloc::AllocError;

/// Processes that may be used next, the last one first. Each is no more than a hint: who asks looks
/// first whether it is still free. Where one could not be kept, all processes are to be looked at.
pub(crate) struct Hints {
    pub(crate) pids: Vec<Pid, Heap>,
    pub(crate) has_missed: bool,
}

impl Drop for Hints {
    fn drop(self) {
        let Hints {
            pids: _,
            has_missed: _,
        } = self;
    }
}

impl Hints {
    // No process. It takes no memory.
    pub(crate) fn new(heap: Heap) -> Hints {
        Hints {
            pids: Vec::new(heap),
            has_missed: false,
        }
    }

    // Makes room for so many processes.
    pub(crate) fn reserve(&mut self, count: usize) -> Result<(), AllocError> {
        self.pids.reserve(count.saturating_sub(self.pids.len()))
    }

    // A process may be used. It takes no memory, so where there is no room it is missed.
    pub(crate) fn push(&mut self, pid: Pid) {
        if self.pids.len() >= self.pids.capacity() || self.pids.push(pid).is_err() {
            self.has_missed = true;
        }
    }

    // The last one goes, if it is this one.
    pub(crate) fn forget(&mut self, pid: Pid) {
        if self.pids.last() == Some(&pid) {
            let _last = self.pids.pop();
        }
    }
}
