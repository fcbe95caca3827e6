// What a worker talks to.
ghost use Rattle.std.specs.Prelude.{◌≡◌, ◌++◌, [], ◌∷◌, ℕ, List, IfOk, IfErr};
ghost use Rattle.ids.specs.declared.call.Op.{Op};
ghost use Rattle.ids.specs.declared.reply.Reply.{Reply};
ghost use Rattle.workers.specs.Port.{IsNoChild, child_reply, fork, grown};

use ids::{Op, Pid, Reply};
use std::sync::Wait;

/// The way of one process to its kernel. A port keeps its number and leads to one kernel, and has a
/// list of what was done through it.
pub trait Port: Sized + Drop {
    /// What tells kernels apart.
    ghost Home: { Type 0 };

    /// The kernel that it leads to.
    ghost home: { Self → Home };

    /// The process's number.
    ghost number: { Self → ℕ };

    /// The operations that were done through this port, with their replies, in order.
    ghost done: { Self → List (Op × Reply) };

    /// The process.
    fn pid(&self) -> Pid
        ensures { result ≡ number self.now };

    /// Does an operation that is no fork, or a fork whose child gets no port. The list grows by it
    /// and its reply, unless the reply is HistoryFull or NoMemory. It may wait for other threads.
    fn call<R: Wait>(&mut self, rt: &R, operation: Op) -> Reply
        ensures same { (number self.new ≡ number self.old) × (home self.new ≡ home self.old) }
        ensures done { done self.new ≡ grown (done self.old) operation result };

    /// Forks. It gives the child's number, and a port for it to the same kernel, with an empty list. `Err` has the
    /// reply where no child was made. It may wait for other threads.
    fn fork<R: Wait>(&mut self, rt: &R) -> Result<(Pid, Self), Reply>
        ensures same { (number self.new ≡ number self.old) × (home self.new ≡ home self.old) }
        ensures done { IfOk result (λ child.
            done self.new ≡ done self.old ++ (fork, child_reply child.0) ∷ []) }
        ensures child { IfOk result (λ child.
            (number child.1 ≡ child.0) × (home child.1 ≡ home self.old) × (done child.1 ≡ [])) }
        ensures refused { IfErr result (λ reply. done self.new ≡ grown (done self.old) fork reply) }
        ensures childless { IfErr result IsNoChild };
}
