// What is found where something is not as it has to be.
use std::alloc::AllocError;

// The first thing that is not as it has to be.
#[derive(Clone, Copy)]
pub(crate) enum Difference {
    NoMemory,
    Fault,
    Unchecked,
    Transcript,
    Told,
    Full,
    Restarted,
    Entry,
    Changed,
    Asked,
    Stuck,
    NotFirst,
}

impl Difference {
    pub(crate) fn text(self) -> &'static str {
        match self {
            Difference::NoMemory => "memory is at its end, which says nothing",
            Difference::Fault => "a run ends with a fault that it has not",
            Difference::Unchecked => "a history does not pass the check",
            Difference::Transcript => "two runs of the same have two transcripts",
            Difference::Told => "a transcript read back as a script comes to another one",
            Difference::Full => "a place is missing and not told so, or told so and not missing",
            Difference::Restarted => "a restart has no place, or a place and no restart",
            Difference::Entry => "a step has left no entry, or two",
            Difference::Changed => "a refused step has changed the history",
            Difference::Asked => "an end, an abort or a notice has asked for memory",
            Difference::Stuck => "a step is refused whichever request is",
            Difference::NotFirst => "a fault is told that is not the first",
        }
    }
}

impl From<AllocError> for Difference {
    fn from(_e: AllocError) -> Difference {
        Difference::NoMemory
    }
}

// The difference, where this does not hold.
pub(crate) fn require(holds: bool, difference: Difference) -> Result<(), Difference> {
    if holds { Ok(()) } else { Err(difference) }
}
