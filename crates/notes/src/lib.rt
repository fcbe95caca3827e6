//! What a transaction has changed of each object, as its edits are noted, before it is committed.
//!
//! Changes are kept by numbers: of inodes and their rights, of descriptions, and of processes'
//! descriptors. Each is known as a function of what stands there in the committed state, so what
//! others commit in the meantime shows below it.
#![tactic(auto)]

mod change;
mod edits;
mod exchanging;
mod inodes;
mod log;
mod new_object;
mod new_rights;
mod opening;
mod overlay;
mod patches;
mod pipes;
mod slots;
mod wiping;

pub use change::{Contents, InodeChange, Made};
pub use edits::{at_start, end_of, inode_replaced, is_last, number};
pub use inodes::Inodes;
pub use log::Log;
pub use new_rights::NewRights;
pub use opening::{Opening, Openings};
pub use overlay::{
    bytes_over, front_of, front_over, given_over, is_empty_over, kind_over, len_over, names_over,
    new_ends, passed_over, pipe_len_of, pipe_len_over, target_over,
};
pub use patches::Patches;
pub use slots::Slots;
