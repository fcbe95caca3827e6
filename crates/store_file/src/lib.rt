//! The file of a store, over `std::fs`: found or made, locked, and asked as a `sqlite_disk::Disk`.
#![tactic(auto)]

mod fault;
mod host;
mod opening;
mod record;

pub use fault::OpenFault;
pub use host::Host;
pub use opening::{FileFrom, open};
