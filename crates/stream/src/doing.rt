// One operation on a kernel.
ghost use Rattle.std.specs.Prelude.{◌≡◌, IfErr, OnErr, OnOk};
ghost use Rattle.machine.specs.Shown.{Kept};
ghost use Rattle.stream.specs.Doing.{Refused, Took};

use ids::{Op, Pid, Reply};
use machine::Machine;

/// Why an operation was refused.
#[derive(Clone, Copy, Debug)]
pub enum StepRefusal {
    /// Its places in the history are not free.
    HistoryFull,
    /// Memory was refused.
    NoMemory,
}

/// Executes one operation. HistoryFull comes exactly where its places in the history are not free, and
/// NoMemory only where they are and it needs one. Where it is refused nothing has changed.
pub fn do_step<K: Machine>(kernel: &mut K, pid: Pid, op: Op) -> Result<(), StepRefusal>
    ensures kept { Kept (K.shown kernel.new) }
    ensures ok { OnOk result (Took (K.shown kernel.old).log (K.shown kernel.new).log pid op) }
    ensures unchanged { OnErr result (K.shown kernel.new ≡ K.shown kernel.old) }
    ensures refused { IfErr result (Refused (K.shown kernel.old).log pid op) }
{
    let reply = kernel.step(pid, op);
    match &reply {
        Reply::HistoryFull => {
            drop(reply);
            Err(StepRefusal::HistoryFull)
        }
        Reply::NoMemory => {
            drop(reply);
            Err(StepRefusal::NoMemory)
        }
        _ => {
            drop(reply);
            Ok(())
        }
    }
}
