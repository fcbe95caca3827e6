//! When inodes were accessed, modified and changed last, as each view of a mounted tree sees it.
//!
//! A view is a number: 0 is the plain tree, each other one a live transaction. What happens in the
//! plain tree is everybody's at once. What happens in a transaction is noted for its view, over what
//! everybody has, and no other view sees it before a commit makes it everybody's. Nothing here knows a
//! kernel, or reads a clock: each time is given. Contracts speak of what is known as of two functions
//! (`specs/Known.antt`).
#![tactic(auto)]

mod by_number;
mod event;
mod everybody;
mod laws;
mod noted;
mod times;
mod view_times;
mod views;

pub use event::Event;
pub use laws::{calls_tell_times, notes_stay_in_their_view};
pub use times::{Times, later};
pub use view_times::ViewTimes;
