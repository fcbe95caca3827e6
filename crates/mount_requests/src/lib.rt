//! The requests of a mount about nodes of a tree, over the tables of the mount and a kernel's process.
//!
//! Each request has a plan, which names what it takes from the tables; a course, which the process
//! runs; and a reply, which shows what that came to. Definitions see the tables as plain maps
//! (`specs/Seen.antt`), and each clause says what they are then.
#![tactic(auto)]

mod changing;
mod failure;
mod files;
mod laws;
mod lists;
mod looking;
mod making;
mod opening;
mod planning;
mod ranges;
mod reading;
mod removing;
mod requests;
mod tables;
mod times;

pub use failure::Failure;
pub use laws::{
    lists_are_whole, requests_end_at_aborts, requests_keep_times_apart, requests_keep_views,
};
pub use lists::list_from;
pub use requests::Caller;
pub use tables::{Stepper, Tables, stepper_of};
