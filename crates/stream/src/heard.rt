// What one line has come to.
ghost use Rattle.std.specs.Prelude.{◌≡◌, ◌&&◌, not};
ghost use Rattle.stream.specs.Heard.{is_fault};

use script::ScriptFault;

// What one line has come to.
#[derive(Clone, Copy)]
pub(crate) enum Heard {
    // It is skipped, or it gave the priorities.
    Nothing,
    // An operation, which is done: its entry is the last one.
    Operation,
    // It asks no operation, and nothing has changed.
    Fault(ScriptFault),
}

impl Heard {
    // Whether no line so far was a fault, where it was so before this one.
    pub(crate) fn stays_good(self, good: bool) -> bool
        ensures { result ≡ (good && not (is_fault self)) }
    {
        match self {
            Heard::Nothing | Heard::Operation => good,
            Heard::Fault(_) => false,
        }
    }
}
