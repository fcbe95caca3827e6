//! The laws of calls: what holds of every call of the plain kernel, whatever the state.
//!
//! `specs/WellFormed.antt` says which states a kernel can come to, `specs/CallLaws.antt` what
//! holds of each call in them. This crate has no code: each function has an empty body, and its
//! contract is a law, for all calls.
#![tactic(auto)]

ghost use Rattle.call_laws.specs.CallLaws.{CallLaws};
ghost use Rattle.call_laws.specs.Exceptions.{ExceptionsAreNeeded};
ghost use Rattle.call_laws.specs.Bounds.{BoundsStay};
ghost use Rattle.call_laws.specs.Numbers.{UnusedNumbersAreNowhere, EveryCallCanBeMade};
ghost use Rattle.call_laws.specs.Processes.{FirstProcessesLive};
ghost use Rattle.call_laws.specs.Trees.{DirectoriesAreATree};
ghost use Rattle.call_laws.specs.WellFormed.{WellFormed};

/// All laws of calls hold, with no premise, of the well-formed states.
/// Proved in `proofs/Laws.antt`.
pub fn calls_are_lawful()
    ensures { CallLaws WellFormed }
{}

/// To choose a number for a new object it is enough to look whether it is an inode or a
/// description. Proved in `proofs/Numbers.antt`.
pub fn unused_numbers_are_nowhere()
    ensures { UnusedNumbersAreNowhere }
{}

/// What the laws ask of a call can be met in each well-formed state, by each process that is there.
/// Proved in `proofs/Numbers.antt`.
pub fn every_call_can_be_made()
    ensures { EveryCallCanBeMade }
{}

/// In a well-formed state each directory that has a name has one path from the root, and none is
/// below itself. Proved in `proofs/Trees.antt`.
pub fn directories_are_a_tree()
    ensures { DirectoriesAreATree }
{}

/// What the laws leave out is false: a directory's count of names and its names change
/// unmarked, a fork changes what another process's fork sees, and tidying drops what was
/// there. Proved in `proofs/Exceptions.antt`.
pub fn exceptions_are_needed()
    ensures { ExceptionsAreNeeded }
{}

/// The first processes live, each with its priority, and no others.
/// Proved in `proofs/FirstProcesses.antt`.
pub fn first_processes_live()
    ensures { FirstProcessesLive }
{}

/// Nothing changes the bounds. Proved in `proofs/Bounds.antt`.
pub fn the_bounds_stay()
    ensures { BoundsStay }
{}
