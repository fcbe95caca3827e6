//! What a store is made of: the setup of the kernel whose calls it keeps, and redo records.
//!
//! The first payload is the setup ([`put_setup`], [`read_setup`]), each further one the bytes of one redo
//! record (`entry_codec::put_entries`). `specs/Stores.antt` says what a store tells, and what that runs
//! to. Each function here with an empty body is a law, for all histories; the crates above cite the
//! lemmas of `proofs/Laws.antt`, which have the names of these functions.
#![tactic(auto)]

ghost use Rattle.store_form.specs.Laws.{FirstRecordsRunToABeginning, RecordsRunToTheState};
ghost use Rattle.store_form.specs.Laws.{StoresAreToldApart, StoresGrow, ToldRecordsAreChanges};

mod fault;
mod parts;
mod put;
mod read;
#[cfg(test)]
mod tests;

pub use fault::SetupError;
pub use put::put_setup;
pub use read::{Setup, read_setup};

/// The records of a legal history tell what runs from the start to its committed state.
/// Proved in `proofs/Running.antt`.
pub fn records_run_to_the_state()
    ensures { RecordsRunToTheState }
{}

/// The first records of a legal history, whatever a crash has left of them, tell what runs to the state
/// that was committed after a beginning of it.
/// Proved in `proofs/Running.antt`.
pub fn first_records_run_to_a_beginning()
    ensures { FirstRecordsRunToABeginning }
{}

/// The records of a history, and the first of them, are of calls that can have changed something.
/// Proved in `proofs/Growing.antt`.
pub fn told_records_are_changes()
    ensures { ToldRecordsAreChanges }
{}

/// A store with the bytes of further records behind it is a store that tells these too.
/// Proved in `proofs/Growing.antt`.
pub fn stores_grow()
    ensures { StoresGrow }
{}

/// Payloads are a store of one setup at most, and tell one list of calls.
/// Proved in `proofs/Apart.antt`.
pub fn stores_are_told_apart()
    ensures { StoresAreToldApart }
{}
