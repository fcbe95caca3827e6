// Why bytes are no entry.
ghost use Rattle.std.specs.Prelude.{◌≡◌, length};
ghost use Rattle.entry_codec.specs.Reading.{fault_at};
ghost use Rattle.entry_codec.specs.declared.fault.ReadError.TheVariants.{NoMemory};

use std::alloc::{AllocError, AllocFailed};

/// What is wrong with bytes.
#[derive(Clone, Copy, Debug, PartialEq, Eq)]
pub enum Wrong {
    /// There are fewer than the next field has.
    Short,
    /// A size below 255 is written with nine bytes in the place of one.
    Long,
    /// The number of a variant is that of none.
    Variant,
    /// A flag is neither 0 nor 1.
    Flag,
    /// A number is larger than its type allows.
    Range,
    /// More bytes stand behind the last entry.
    Trailing,
}

/// What is wrong with bytes, and where: the first fault from the left.
#[derive(Clone, Copy, Debug, PartialEq, Eq)]
pub struct Fault {
    /// What is wrong.
    pub wrong: Wrong,
    /// The place, told from the end: how many of the bytes were not read yet.
    pub left: usize,
}

/// Why nothing is read.
#[derive(Clone, Copy, Debug, PartialEq, Eq)]
pub enum ReadError {
    /// Memory was refused.
    NoMemory,
    /// The bytes are not what is read.
    Fault(Fault),
}

impl From<AllocError> for ReadError {
    ghost from_gives = { λ _ e. e ≡ NoMemory };

    fn from(_e: AllocError) -> ReadError {
        ReadError::NoMemory
    }
}

impl<T: Drop> From<AllocFailed<T>> for ReadError {
    ghost from_gives = { λ _ e. e ≡ NoMemory };

    fn from(_e: AllocFailed<T>) -> ReadError {
        ReadError::NoMemory
    }
}

// This is wrong, where so many bytes are left.
pub(crate) fn fault_at(wrong: Wrong, left: &[u8]) -> ReadError
    ensures { result ≡ ReadError.Fault (fault_at wrong left.now) }
{
    ReadError::Fault(Fault {
        wrong,
        left: left.len(),
    })
}
