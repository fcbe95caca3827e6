//! The replay checker: it audits a stored history by a plain kernel of whole maps, which has no
//! transactions. With the kernel that wrote the history it shares what a call comes to (`calls`) and
//! how a file's bytes are stored (`objects::FileData`); all else of the run is its own.
#![tactic(auto)]

ghost use Rattle.model.specs.Passing.{LegalHistoriesPass};
ghost use Rattle.replay.specs.Faults.{LegalHistoriesHaveNoFault};

mod added;
mod answers;
mod audit;
mod beginning;
mod checker;
mod checking;
mod root;
mod transaction;
mod window;

pub use checker::Checker;
pub use checking::{CheckFault, check};

/// A legal history passes: each entry suits, and the committed state exists.
/// Proved in `proofs/Passing.antt`.
pub fn legal_histories_pass()
    ensures { LegalHistoriesPass }
{}

/// A legal history has no fault, so the checker never says of a kernel's own that it is wrong.
pub fn legal_histories_have_no_fault()
    ensures { LegalHistoriesHaveNoFault }
{}
