//! Redo records: what of a history has to be kept so that its committed state can be made again.
//!
//! A record is what one entry adds to the serial list, without the calls that change nothing: the call
//! of an executed plain call, or all calls of a transaction at its committed end
//! (`specs/Records.antt`). Nothing here knows bytes or disks. Each function here with an empty body is
//! a law, for all histories; the crates above cite the lemmas of `proofs/Laws.antt`, which have the
//! names of these functions.
#![tactic(auto)]

ghost use Rattle.redo_records.specs.Changing.{LeftOutChangesNothing};
ghost use Rattle.redo_records.specs.Recovery.{BeginningsHaveRecords, FirstRecordsMakeItAgain};
ghost use Rattle.redo_records.specs.Recovery.{LegalEntriesSuit, RecordsGrow, RecordsLeadToTheState};

mod recorder;
#[cfg(test)]
mod tests;
mod transaction;

pub use recorder::{Record, Recorder, Standing, only_looks};

/// A call that is left out of the records changes nothing.
/// Proved in `proofs/Looking.antt`.
pub fn left_out_changes_nothing()
    ensures { LeftOutChangesNothing }
{}

/// All records, one behind the other, lead from the start to the committed state.
/// Proved in `proofs/Leading.antt`.
pub fn records_lead_to_the_state()
    ensures { RecordsLeadToTheState }
{}

/// A beginning of the records is the records of a beginning.
/// Proved in `proofs/Beginnings.antt`.
pub fn beginnings_have_records()
    ensures { BeginningsHaveRecords }
{}

/// Recovery: the first records make again what was committed after a beginning.
/// Proved in `proofs/Laws.antt`.
pub fn first_records_make_it_again()
    ensures { FirstRecordsMakeItAgain }
{}

/// One entry more adds its record behind the others.
/// Proved in `proofs/Beginnings.antt`.
pub fn records_grow()
    ensures { RecordsGrow }
{}

/// Each entry of a legal history suits what stood before it.
/// Proved in `proofs/Suiting.antt`.
pub fn legal_entries_suit()
    ensures { LegalEntriesSuit }
{}
