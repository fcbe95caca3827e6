//! Requests and replies of Linux's FUSE protocol as values, at version 7.31, with what 7.33 has
//! added: which requests take set-user-ID and set-group-ID away.
//!
//! The kernel writes a request as bytes, and [`parse`] says what it asks. [`put_reply`] writes what
//! is answered. Contracts say both exactly, over the layouts of `specs/`: which request or fault
//! each list of bytes is, and which bytes each reply has. Nothing here knows a file system.
#![tactic(auto)]

pub mod bits;
mod bodies;
mod errno;
mod fault;
mod forgets;
mod laws;
mod listing;
mod message;
mod name;
mod named;
mod number;
mod operation;
mod put;
mod reader;
mod reply;
mod request;

pub use errno::Errno;
pub use fault::ParseFault;
pub use forgets::{Forget, Forgets};
pub use ids::Bytes;
pub use laws::{bodies_have_their_lengths, length_is_told, names_are_told};
pub use listing::{DirectoryEntry, Kind, Listing};
pub use message::put_reply;
pub use reader::parse;
pub use reply::{Attr, Entry, Init, MAJOR, MINOR, Opened, Reply, StatFs};
pub use request::{Changes, Operation, Request, Time, TimeChange, Whence};
