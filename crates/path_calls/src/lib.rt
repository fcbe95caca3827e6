//! What each call on paths comes to in any state that can be looked at: its answer, its touches in
//! order, and its edits; and the parts of such plans that calls on descriptors share.
//!
//! Each plan is written once, as the definitions have it: a line for each question and for each
//! test. A refusal is the plan's, or that memory was refused, and then some reads may have been
//! added.
#![tactic(auto)]

mod asking;
mod change;
mod fixed;
mod paths;
mod rights;
mod stats;
mod steps;
mod swaps;

pub use asking::size;
pub use change::{Change, Edits, changed, changed_by, unchanged};
pub use fixed::{mknod, readlink, symlink};
pub use paths::{cut_to, link, list, mkdir, rename, rmdir, truncate, unlink};
pub use rights::{chmod, chown, set_owner, set_permissions};
pub use stats::{lstat, stat, status};
pub use steps::{must_not_be_directory, must_not_be_special, parsed, refuse_if};
pub use swaps::exchange;
