//! The plain kernel that contracts speak of, and the laws about it.
//!
//! The definitions are in `specs/`, one file a topic: the state, what aspects are and when they are
//! kept, the plan of each call, edits and tidying, steps and runs; then operations, statuses,
//! conflicts, and when a history is legal. This crate has no code: each function below has an empty
//! body, and its contract is a law that is proved of the definitions.
#![tactic(auto)]

ghost use Rattle.model.specs.Laws.{DependsOnWhatItSaw};

/// A call goes the same way in each state that keeps what
/// it saw: the same reply, touches and edits.
pub fn calls_depend_on_what_they_saw()
    ensures { DependsOnWhatItSaw }
{}
