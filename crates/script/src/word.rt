// Why a word says nothing of what it is asked for.
ghost use Rattle.std.specs.Prelude.{◌≡◌};
ghost use Rattle.script.specs.declared.word.WordFault.TheVariants.{NoMemory};
ghost use Rattle.script.specs.Words.{Reads};

use ids::Op;
use std::alloc::AllocFailed;

// Why words give no value.
#[derive(Clone, Copy)]
pub(crate) enum WordFault {
    // They spell none.
    Malformed,
    // Memory was refused. It says nothing of the words.
    NoMemory,
}

impl<T: Drop> From<AllocFailed<T>> for WordFault {
    ghost from_gives = { λ _ fault. fault ≡ NoMemory };

    fn from(_refused: AllocFailed<T>) -> WordFault {
        WordFault::NoMemory
    }
}

// The operation that words spell, where reading them takes no memory.
pub(crate) fn op_spelled(spelled: Option<Op>) -> Result<Op, WordFault>
    ensures { Reads spelled result }
{
    match spelled {
        Some(op) => Ok(op),
        None => Err(WordFault::Malformed),
    }
}
