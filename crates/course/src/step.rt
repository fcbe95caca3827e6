// One step of a process.
ghost use Rattle.std.specs.Prelude.{◌≡◌, ◌⊎◌};
ghost use Rattle.machine.specs.Shown.{Kept};
ghost use Rattle.machine.specs.Steps.{forgetting};
ghost use Rattle.course.specs.Course.{IsTaken};

use ids::{Op, Pid, Reply};
use machine::Machine;

// What is kept of the history is forgotten, so that the next entry has a place. The last entry is
// there until the next step.
fn make_room<K: Machine>(kernel: &mut K)
    ensures kept { Kept (K.shown kernel.new) }
    ensures forgot { (K.shown kernel.new ≡ K.shown kernel.old)
        ⊎ (K.shown kernel.new ≡ forgetting (K.shown kernel.old)) }
{
    if kernel.history().entries().is_empty() {
        return;
    }
    let _forgotten = kernel.forget();
}

// One step, behind a history of which nothing is kept.
pub(crate) fn take_step<K: Machine>(kernel: &mut K, pid: Pid, op: Op) -> Reply
    ensures kept { Kept (K.shown kernel.new) }
    ensures taken { IsTaken (K.shown kernel.old) (K.shown kernel.new) pid op result }
{
    make_room(kernel);
    kernel.step(pid, op)
}
