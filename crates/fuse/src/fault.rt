// Why bytes are no request.
ghost use Rattle.std.specs.Prelude.{◌≡◌};
ghost use Rattle.fuse.specs.Faults.{Reads, answer_to};

use crate::errno::Errno;
use crate::request::Operation;

/// Why bytes are no request, and which request is to be answered: the first fault from the left.
#[derive(Clone, Copy, Debug)]
pub enum ParseFault {
    /// There are fewer bytes than a header has, so there is nobody to answer.
    NoHeader,
    /// The header tells another length than that of the bytes.
    WrongLength {
        /// The number of the request.
        unique: u64,
    },
    /// The body has not the layout of its opcode.
    Malformed {
        /// The number of the request.
        unique: u64,
    },
    /// Memory was refused for what is else a request that is answered.
    NoMemory {
        /// The number of the request.
        unique: u64,
    },
    /// Memory was refused for what is else a request that has no answer: nodes to be forgotten.
    Unanswered,
}

impl ParseFault {
    /// What is to be answered: this error to the request of this number, or nothing. Of a request
    /// whose body is malformed nothing is known, and the kernel ignores an answer that it does not
    /// wait for.
    pub fn answer(self) -> Option<(u64, Errno)>
        ensures { result ≡ answer_to self }
    {
        match self {
            ParseFault::NoHeader => None,
            ParseFault::WrongLength { unique } => Some((unique, Errno::EIO)),
            ParseFault::Malformed { unique } => Some((unique, Errno::EINVAL)),
            ParseFault::NoMemory { unique } => Some((unique, Errno::ENOMEM)),
            ParseFault::Unanswered => None,
        }
    }
}

// Why a body asks for no operation.
#[derive(Clone, Copy)]
pub(crate) enum BodyFault {
    // It has not the layout of its opcode.
    Malformed,
    // Memory was refused for what it asks.
    NoMemory,
}

// The operation that a body asks for, where reading it takes no memory.
pub(crate) fn asked(operation: Option<Operation>) -> Result<Operation, BodyFault>
    ensures { Reads operation result }
{
    match operation {
        Some(operation) => Ok(operation),
        None => Err(BodyFault::Malformed),
    }
}
