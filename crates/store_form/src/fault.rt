// Why bytes are no setup.
use entry_codec::Fault;
use thiserror::Error;

/// Why no setup is read.
#[derive(Clone, Copy, Debug, PartialEq, Eq, Error)]
pub enum SetupError {
    /// Memory was refused.
    #[error("memory was refused")]
    NoMemory,
    /// The store has the form of this number, which is not the one that is read here.
    #[error("the store has form {0}, which is not read here")]
    OtherForm(u32),
    /// The bytes are no setup: the first fault from the left.
    #[error("the setup is bad where {left} of its bytes are left", left = .0.left)]
    Fault(Fault),
}
