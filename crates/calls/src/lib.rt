//! What each call comes to in any state that can be looked at: its answer, its touches in order,
//! and its edits.
//!
//! Each plan is written once, as the definitions have it: a line for each question and for each
//! test.
#![tactic(auto)]

mod asking;
mod at_offset;
mod checks;
mod descriptors;
mod files;
mod marks;
mod own;
mod plan;
mod ranges;
mod seek;

pub use plan::{Plan, plan_of, plan_without_touches};
