// The steps of a run.
ghost use Rattle.std.specs.Prelude.{◌≡◌, ◌≢◌, ◌<◌, [], IfErr, OnOk};
ghost use Rattle.std.specs.Io.KnownBytes.{append_known};
ghost use Rattle.device.specs.Device.{CanCount};
ghost use Rattle.machine.specs.Shown.{Kept};
ghost use Rattle.transcript.specs.Line.{transcript};
ghost use Rattle.runner.specs.Steps.{Halted, HasDone, Stops, limits_of};

use crate::RunFault;
use crate::printing::print_whole;
use device::Sink;
use heap::Heap;
use ids::{Op, Pid};
use machine::Machine;
use stream::{StepRefusal, do_step};

// Executes steps in a row on a kernel whose history is empty, up to the first that is refused.
fn make_steps<K: Machine>(kernel: &mut K, steps: Vec<(Pid, Op), Heap>) -> Result<(), StepRefusal>
    requires kept { Kept (K.shown kernel.old) }
    requires fresh { (K.shown kernel.old).log.entries ≡ [] }
    requires whole { (K.shown kernel.old).log.forgotten ≡ [] }
    ensures done { OnOk result (HasDone
        (K.shown kernel.old).log.priorities (limits_of (K.shown kernel.old).log) steps.entry.items
        (K.shown kernel.new)) }
    ensures refused { IfErr result (λ refusal. Halted refusal
        (K.shown kernel.old).log.priorities (limits_of (K.shown kernel.old).log) steps.entry.items
        (K.shown kernel.new)) }
{
    for (pid, op) in steps {
        do_step(kernel, pid, op)?;
    }
    Ok(())
}

// Executes steps in a row on a kernel whose history is empty, and then writes the transcript of
// those that were done. Where a step is refused and the sink fails too, the fault is Write.
pub(crate) fn do_steps<K: Machine, S: Sink>(
    kernel: &mut K,
    steps: Vec<(Pid, Op), Heap>,
    sink: &mut S,
) -> Result<(), RunFault>
    requires kept { Kept (K.shown kernel.old) }
    requires fresh { (K.shown kernel.old).log.entries ≡ [] }
    requires whole { (K.shown kernel.old).log.forgotten ≡ [] }
    requires device { CanCount (S.failures sink.old) }
    ensures done { OnOk result (HasDone
        (K.shown kernel.old).log.priorities (limits_of (K.shown kernel.old).log) steps.entry.items
        (K.shown kernel.new)) }
    ensures written { OnOk result (S.written sink.new
        ≡ append_known (S.written sink.old) (transcript (K.shown kernel.new).log.entries)) }
    ensures fault { IfErr result (λ fault. Stops fault
        (K.shown kernel.old).log.priorities (limits_of (K.shown kernel.old).log) steps.entry.items
        (S.written sink.old) (S.written sink.new)) }
    ensures write { result ≡ Err RunFault.Write → S.failures sink.old < S.failures sink.new }
    ensures no_failure { result ≢ Err RunFault.Write → S.failures sink.new ≡ S.failures sink.old }
{
    let made = make_steps(kernel, steps);
    print_whole(kernel.history(), sink)?;
    match made {
        Ok(()) => Ok(()),
        Err(refusal) => Err(RunFault::of_refusal(refusal)),
    }
}
