//! Freeing by counts: to free an object at once when its last count falls to 0 is to tidy.
//!
//! The model tidies by looking at the whole state. Code that keeps the counts of names, openings,
//! holders and ends looks only at the objects whose counts an edit lowered. `specs/Counts.antt`
//! says by how much each edit changes each count, `specs/Sweep.antt` what is looked at and freed,
//! and that this leaves what tidying leaves. There is no code: each contract is a law.
#![tactic(auto)]

ghost use Rattle.freeing_laws.specs.Counts.{CountsChange, FreeingCounts};
ghost use Rattle.freeing_laws.specs.Left.{LeftIsTidy};
ghost use Rattle.freeing_laws.specs.Openings.{OpeningsChange};
ghost use Rattle.freeing_laws.specs.Pipes.{PipesKeepTheirEnds};
ghost use Rattle.freeing_laws.specs.Sweep.{SweepIsTidy};

/// Each edit changes the counts of names, holders, openings and
/// ends by what it names, and by nothing else.
pub fn counts_change()
    ensures { CountsChange }
{}

/// What freeing changes of the counts: an opening less where a description goes, and nothing else.
pub fn freeing_counts()
    ensures { FreeingCounts }
{}

/// After one edit or many, of one call or of many, what tidying
/// drops is among what the edits may have lost.
pub fn sweep_is_tidy()
    ensures { SweepIsTidy }
{}

/// What effects leave to free is what slots let go and what has lost a name, and to free it in turn
/// is to tidy. Proved in `proofs/Left.antt`.
pub fn left_is_tidy()
    ensures { LeftIsTidy }
{}

/// How openings change where one description comes or goes, on what openings and holders
/// depend, and how many there are at most. Proved in `proofs/Openings.antt`.
pub fn openings_change()
    ensures { OpeningsChange }
{}

/// A pipe has two descriptions, of which one reads and one writes, and no further one comes. So its
/// ends are their holders. Proved in `proofs/Pipes.antt`.
pub fn pipes_keep_their_ends()
    ensures { PipesKeepTheirEnds }
{}
