//! What holds of all legal histories, as the contracts of functions with empty bodies.
//!
//! The definitions stand in `model`, the laws of single calls in `call_laws`. Here are the laws of
//! whole histories. First the headline: each legal history is strictly serializable
//! (`specs/Headline.antt`). Then what it rests on: one right entry more keeps a history legal, so
//! whoever extends a history owes only that the entry is right; the committed state is the run of
//! the serial list; what stands after each legal history; what one right entry changes; and that
//! each operation that finds its places has a right entry.
//!
//! The crates above cite the lemmas of `proofs/Laws.antt`, which have the names of these functions;
//! that of `right_entries_keep_histories_legal` is `legal_push`.
#![tactic(auto)]

ghost use Rattle.history_laws.specs.Beginnings.{BeforeIsAnOrder, OwnEntriesFollow, LegalityFollows};
ghost use Rattle.history_laws.specs.Causes.{DoomedAreToldTheirs, LosersAreToldTheirs};
ghost use Rattle.history_laws.specs.Choices.{RightEntriesExist, EndsFindPlaces};
ghost use Rattle.history_laws.specs.Untidied.{ListsAreTheirEffects};
ghost use Rattle.history_laws.specs.Entered.{OwnAndDoomedMove, ReservedPlacesMove};
ghost use Rattle.history_laws.specs.Entered.{RestartsBeginAnew, CommitsRunTheList, PlainCallsRun};
ghost use Rattle.history_laws.specs.Entered.{CallsGoIn, ListsStay};
ghost use Rattle.history_laws.specs.Forgetting.{ForgettingIsLegal};
ghost use Rattle.history_laws.specs.Headline.{LegalHistoriesAreSerializable};
ghost use Rattle.history_laws.specs.Histories.{RightEntriesKeepHistoriesLegal, CommittedIsSerial};
ghost use Rattle.history_laws.specs.Histories.{PlacesSuffice, RepliesAreAFunction};
ghost use Rattle.history_laws.specs.Histories.{RightEntriesHavePlaces, BeginningsAreLegal};
ghost use Rattle.history_laws.specs.Histories.{OwnEntriesGrow, AfterOneMore, ViewsMayBeLoose};
ghost use Rattle.history_laws.specs.Histories.{TouchedObjectsStay};
ghost use Rattle.history_laws.specs.Limits.{LimitsAreKept, BoundsAreGiven};
ghost use Rattle.history_laws.specs.Marks.{ModesFollowMarks};
ghost use Rattle.history_laws.specs.Processes.{ChildrenAreForked, ForksAndExitsMove};
ghost use Rattle.history_laws.specs.Processes.{UnmadeAreRefused};
ghost use Rattle.history_laws.specs.Standing.{WhatStands};
ghost use Rattle.history_laws.specs.Trees.{CommittedDirectoriesAreATree};

/// Each legal history is strictly serializable, and its live transactions are isolated.
/// Proved in `proofs/Serializable.antt`.
pub fn legal_histories_are_serializable()
    ensures { LegalHistoriesAreSerializable }
{}

/// The directories of each committed state are a tree: each but the root has exactly one entry.
/// Proved in `proofs/Trees.antt`.
pub fn committed_directories_are_a_tree()
    ensures { CommittedDirectoriesAreATree }
{}

/// No file, pipe or offset is ever larger than it may be, no descriptor is at or above the kernel's own
/// number of them, and no more processes are made.
/// Proved in `proofs/Limits.antt`.
pub fn limits_are_kept()
    ensures { LimitsAreKept }
{}

/// The bounds stay what they were at the start.
/// Proved in `proofs/Bounds.antt`.
pub fn bounds_are_given()
    ensures { BoundsAreGiven }
{}

/// After a legal history each right entry gives a legal history.
/// Proved in `proofs/Legality.antt`.
pub fn right_entries_keep_histories_legal()
    ensures { RightEntriesKeepHistoriesLegal }
{}

/// The committed state is the run of the serial list.
/// Proved in `proofs/Legality.antt`.
pub fn the_committed_state_is_serial()
    ensures { CommittedIsSerial }
{}

/// Entries and reserved places stay within the limit.
/// Proved in `proofs/Legality.antt`.
pub fn places_suffice()
    ensures { PlacesSuffice }
{}

/// Replies and dooms are a function of what stood before.
/// Proved in `proofs/Replies.antt`.
pub fn replies_are_a_function()
    ensures { RepliesAreAFunction }
{}

/// An entry is right only where it finds the places that it needs.
/// Proved in `proofs/Replies.antt`.
pub fn right_entries_have_places()
    ensures { RightEntriesHavePlaces }
{}

/// Each operation that finds the places that it needs has a right entry.
/// Proved in `proofs/NewNumbers.antt`.
pub fn right_entries_exist()
    ensures { RightEntriesExist }
{}

/// After each legal history ends, aborts and notices to doomed ones have right entries.
/// Proved in `proofs/Choices.antt`.
pub fn ends_find_places()
    ensures { EndsFindPlaces }
{}

/// Each beginning of a legal history is legal.
/// Proved in `proofs/Legality.antt`.
pub fn beginnings_are_legal()
    ensures { BeginningsAreLegal }
{}

/// A history stays legal where its entries are forgotten, and the limit never falls.
/// Proved in `proofs/Forgetting.antt`.
pub fn forgetting_is_legal()
    ensures { ForgettingIsLegal }
{}

/// A history goes on legally from where it stood.
/// Proved in `proofs/Beginnings.antt`.
pub fn legality_follows()
    ensures { LegalityFollows }
{}

/// Being a beginning is an order, and two beginnings of one history are each other's.
/// Proved in `proofs/Beginnings.antt`.
pub fn before_is_an_order()
    ensures { BeforeIsAnOrder }
{}

/// One entry more is its process's and no other's.
/// Proved in `proofs/Histories.antt`.
pub fn own_entries_grow()
    ensures { OwnEntriesGrow }
{}

/// A process's entries go on as the history does.
/// Proved in `proofs/Beginnings.antt`.
pub fn own_entries_follow()
    ensures { OwnEntriesFollow }
{}

/// A history with one entry more comes to the next moment.
/// Proved in `proofs/Legality.antt`.
pub fn after_one_more()
    ensures { AfterOneMore }
{}

/// What a process sees may be held untidied.
/// Proved in `proofs/Histories.antt`.
pub fn views_may_be_loose()
    ensures { ViewsMayBeLoose }
{}

/// A list of calls run untidied is its edits done one after the other.
/// Proved in `proofs/entries/Lists.antt`.
pub fn lists_are_their_effects()
    ensures { ListsAreTheirEffects }
{}

/// An object that a live list touched does not go away.
/// Proved in `proofs/Histories.antt`.
pub fn touched_objects_stay()
    ensures { TouchedObjectsStay }
{}

/// What stands after each legal history: committed state, phases, live lists, ages and places.
/// Proved in `proofs/Standing.antt`.
pub fn what_stands()
    ensures { WhatStands }
{}

/// An entry moves its own process and those that it dooms, and no other.
/// Proved in `proofs/entries/Phases.antt`.
pub fn own_and_doomed_move()
    ensures { OwnAndDoomedMove }
{}

/// A begin reserves a place; a commit, and an abort without a restart, gives it back.
/// Proved in `proofs/entries/Phases.antt`.
pub fn reserved_places_move()
    ensures { ReservedPlacesMove }
{}

/// A restart keeps flags and age, and forgets the calls.
/// Proved in `proofs/entries/OwnStatus.antt`.
pub fn restarts_begin_anew()
    ensures { RestartsBeginAnew }
{}

/// A committed end runs its process's list on the committed state.
/// Proved in `proofs/entries/Lists.antt`.
pub fn commits_run_the_list()
    ensures { CommitsRunTheList }
{}

/// An executed plain call changes the committed state by itself.
/// Proved in `proofs/entries/Lists.antt`.
pub fn plain_calls_run()
    ensures { PlainCallsRun }
{}

/// An executed call of a transaction goes into its list, and commits nothing.
/// Proved in `proofs/entries/OwnStatus.antt`.
pub fn calls_go_in()
    ensures { CallsGoIn }
{}

/// A list that an entry leaves as it was touches and does the same on the new committed state.
/// Proved in `proofs/entries/Lists.antt`.
pub fn lists_stay()
    ensures { ListsStay }
{}

/// Forks make processes, exits end them, and nothing else does.
/// Proved in `proofs/entries/Processes.antt`.
pub fn forks_and_exits_move()
    ensures { ForksAndExitsMove }
{}

/// The entries of a process that was never made are refused.
/// Proved in `proofs/entries/Processes.antt`.
pub fn unmade_are_refused()
    ensures { UnmadeAreRefused }
{}

/// Each process that was not there at the start was made by a fork, which has an entry.
/// Proved in `proofs/entries/Forks.antt`.
pub fn children_are_forked()
    ensures { ChildrenAreForked }
{}

/// A directory's list mode follows from whether it has readers and whether it has writers.
/// Proved in `proofs/Marks.antt`.
pub fn modes_follow_marks()
    ensures { ModesFollowMarks }
{}

/// A doomed process is told a touch that it holds, which clashes with one of the caller's.
/// Proved in `proofs/Causes.antt`.
pub fn doomed_are_told_theirs()
    ensures { DoomedAreToldTheirs }
{}

/// A caller that loses is told a touch of its own, and a process that it loses to by that touch.
/// Proved in `proofs/Causes.antt`.
pub fn losers_are_told_theirs()
    ensures { LosersAreToldTheirs }
{}
