//! The law of a kernel that has forgotten nothing: its limit is one number, and its history keeps
//! all entries. There is no code: the contract is the law.
#![tactic(auto)]

ghost use Rattle.whole_laws.specs.Whole.{WholeHistoriesHaveOneLimit};

/// Of a history of which nothing was forgotten the limit is the same always, HistoryFull comes
/// exactly where a place is missing below it, and all entries are kept. No step forgets anything.
/// Proved in `proofs/Whole.antt`.
pub fn whole_histories_have_one_limit()
    ensures { WholeHistoriesHaveOneLimit }
{}
