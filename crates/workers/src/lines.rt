// The lines of processes, for threads.
ghost use Rattle.std.specs.Prelude.{◌≡◌, List};
ghost use Rattle.script.specs.declared.read.Line.{Line};

use crate::Port;
use script::{Line, Script};
use std::snapshot::Snapshot;

/// What each worker is given: the lines of all processes, and, for contracts alone, a port to the
/// one kernel. A thread that starts threads like itself cannot be given a reference to a type that
/// names `'static`, as a script does, so the type stays open.
pub(crate) trait Lines<P: Port>: Sized + Drop {
    /// All lines, in order.
    ghost listed: { Self → List Line };

    /// A port to the kernel.
    ghost port: { Self → P };

    /// All lines, in order.
    fn all(&self) -> &[Line]
        ensures { result.now ≡ listed self.now };
}

/// The lines of a script, and what the first port was.
#[derive(Drop)]
pub(crate) struct ScriptLines<'a, P> {
    pub(crate) script: &'a Script,
    pub(crate) port: Snapshot<P>,
}

impl<'a, P: Port> Lines<P> for ScriptLines<'a, P> {
    ghost listed = { λ s. s.script.now.lines };

    ghost port = { λ s. s.port.value };

    fn all(&self) -> &[Line] {
        self.script.lines()
    }
}
