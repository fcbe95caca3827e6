//! The laws of renaming: the model does not look at an object's number, but to tell it.
//!
//! `specs/Renaming.antt` says what a renaming makes of a state, `specs/Renamed.antt` what of edits
//! and answers, `specs/Laws.antt` what holds of them, and `specs/Histories.antt` what holds of
//! histories. There is no code: each contract is a law.
#![tactic(auto)]

ghost use Rattle.std.specs.Prelude.{ℕ};
ghost use Rattle.renaming_laws.specs.Laws.{CallsAreRenamed, EditsAreRenamed, QuestionsAreRenamed};
ghost use Rattle.renaming_laws.specs.Histories.{HistoriesAreRenamed, RootIsFreeInHistories};
ghost use Rattle.renaming_laws.specs.Laws.{OnlyChosenAreTold, RootIsFree, RootIsNeverChosen};
ghost use Rattle.renaming_laws.specs.Laws.{RootIsRenamed, RunsAreRenamed, SlotsAreNeeded, StatTellsTheRoot};
ghost use Rattle.renaming_laws.specs.Renaming.{IsRenaming, swap};

/// To let two numbers change places is a renaming.
pub fn swaps_rename()
    ensures { (a b : ℕ) → IsRenaming (swap a b) }
{}

/// The renamed state answers each question of a plan by the renamed answer.
pub fn questions_are_renamed()
    ensures { QuestionsAreRenamed }
{}

/// Each edit and tidying change the renamed state to the renamed changed one.
pub fn edits_are_renamed()
    ensures { (f : ℕ → ℕ) → IsRenaming f → EditsAreRenamed f }
{}

/// Each call is answered by the renamed answer and makes the renamed edits.
pub fn calls_are_renamed()
    ensures { CallsAreRenamed }
{}

/// It is not so where a descriptor gives no description, which no run comes to.
pub fn slots_are_needed()
    ensures { SlotsAreNeeded }
{}

/// A run is one of the renamed items from the renamed state to the renamed state.
pub fn runs_are_renamed()
    ensures { (f : ℕ → ℕ) → IsRenaming f → RunsAreRenamed f }
{}

/// What runs from the first state with one root runs, renamed, from that with another root.
pub fn root_is_renamed()
    ensures { RootIsRenamed }
{}

/// The new numbers of a run are none of them its root's.
pub fn root_is_never_chosen()
    ensures { RootIsNeverChosen }
{}

/// A run tells no number but its root's and those that it chose.
pub fn only_chosen_are_told()
    ensures { OnlyChosenAreTold }
{}

/// Of a run's calls only the status of the path `/` tells the root's number.
pub fn stat_tells_the_root()
    ensures { StatTellsTheRoot }
{}

/// What runs from the first state with one root runs as it stands from that with another root,
/// where it does not tell the one and does not choose the other.
pub fn root_is_free()
    ensures { RootIsFree }
{}

/// With another root a history's renamed entries come to the renamed committed state, with the
/// same statuses on the way.
pub fn histories_are_renamed()
    ensures { HistoriesAreRenamed }
{}

/// And so do the entries as they stand, where what is run does not tell the one root and does not
/// choose the other.
pub fn root_is_free_in_histories()
    ensures { RootIsFreeInHistories }
{}
