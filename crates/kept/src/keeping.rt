// What is on the disk before it is answered.
ghost use Rattle.std.specs.Prelude.{◌≡◌};
ghost use Rattle.kept.specs.Waiting.{is_change, waits};

use ids::Op;
use redo_records::only_looks;

/// What is on the disk before it is answered.
#[derive(Clone, Copy, Debug, PartialEq, Eq)]
pub enum Keeping {
    /// The transaction that an end commits, and all that was committed before.
    Ends,
    /// That, and each plain call that can change something.
    Changes,
}

// Whether an operation is a call that can change something.
pub(crate) fn is_change(op: &Op) -> bool
    ensures { result ≡ is_change op.now }
{
    match op {
        Op::Call(call) => !only_looks(call),
        Op::Begin(_) | Op::End | Op::Abort { no_restart: _ } => false,
    }
}

impl Keeping {
    // Whether an operation is answered only when all that was committed is on the disk.
    pub(crate) fn waits(self, op: &Op) -> bool
        ensures { result ≡ waits self op.now }
    {
        match op {
            Op::End => true,
            Op::Call(_) => match self {
                Keeping::Ends => false,
                Keeping::Changes => is_change(op),
            },
            Op::Begin(_) | Op::Abort { no_restart: _ } => false,
        }
    }
}
