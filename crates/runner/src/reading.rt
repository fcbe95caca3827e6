// The script of a run, from its source.
ghost use Rattle.std.specs.Prelude.{◌≡◌, ◌≢◌, ◌<◌, IfErr, IfOk};
ghost use Rattle.device.specs.Device.{CanCount};
ghost use Rattle.runner.specs.Reading.{GivesScript, NoScript};

use crate::RunFault;
use device::{ReadFault, Source, read_all};
use heap::Heap;
use script::{SCRIPT_LIMIT, Script, read_script};

// One byte more than a script may have, so that a longer one is noticed.
const MOST_READ: usize = SCRIPT_LIMIT + 1;

// The script that a source spells.
pub(crate) fn script_in<I: Source>(heap: Heap, source: &mut I) -> Result<Script, RunFault>
    requires { CanCount (I.failures source.old) }
    ensures ok { IfOk result (GivesScript (I.remaining source.old) (I.remaining source.new)) }
    ensures fault { IfErr result (NoScript (I.remaining source.old) (I.remaining source.new)) }
    ensures read { result ≡ Err RunFault.Read → I.failures source.old < I.failures source.new }
    ensures no_failure { result ≢ Err RunFault.Read
        → I.failures source.new ≡ I.failures source.old }
{
    let text = match read_all(heap, source, MOST_READ) {
        Ok(text) => text,
        Err(ReadFault::Device) => return Err(RunFault::Read),
        Err(ReadFault::NoMemory) => return Err(RunFault::NoMemory),
    };
    match read_script(heap, text.as_slice()) {
        Ok(script) => Ok(script),
        Err(fault) => Err(RunFault::of_script(fault)),
    }
}
