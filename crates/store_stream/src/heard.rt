// What one line has come to.
use script::ScriptFault;

// What one line has come to.
#[derive(Clone, Copy)]
pub(crate) enum Heard {
    // It is skipped, or it gave the priorities.
    Nothing,
    // An operation, which is done: its entry is the last one. Whether it was the end of a transaction.
    Operation(bool),
    // It asks no operation, and nothing has changed.
    Fault(ScriptFault),
}
