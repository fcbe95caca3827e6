// Answers, as they are written.
ghost use Rattle.std.specs.Prelude.{◌≡◌, OnOk};
ghost use Rattle.device.specs.Device.{CanCount};
ghost use Rattle.kept.specs.Holds.{IsUpToDate};

use crate::answers::Answers;
use crate::durable::Durable;
use crate::fault::ServeFault;
use device::Sink;
use machine::Machine;
use sqlite_disk::Disk;

// Writes answers, where the store has all that the machine has committed.
pub(crate) fn write_kept<M: Machine, D: Disk, S: Sink>(
    durable: &Durable<M, D>,
    answers: &Answers,
    sink: &mut S,
) -> Result<(), ServeFault>
    requires has_all { IsUpToDate durable.now.store durable.now.machine.shown.log }
    requires can { CanCount (S.failures sink.old) }
    ensures { OnOk result (S.failures sink.new ≡ S.failures sink.old) }
{
    // What is asked for here is that the store has it.
    let _durable = durable;
    answers.write_to(sink)
}
