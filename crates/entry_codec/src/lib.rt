//! Entries of a history as bytes, and back, each field by field as `specs/` lays it out. A record is the
//! entries that are kept together: those of a plain call, or of a committed transaction.
//!
//! [`put_entries`] writes a record and [`read_entries`] reads it; [`put_entry`] and [`read_entry`] do so
//! for one entry. Contracts say both exactly: what is read is what the bytes are the form of, and what
//! was written is read, whatever stands behind an entry.
#![tactic(auto)]

mod answers;
mod causes;
mod codec;
mod entries;
mod fault;
mod laws;
mod numbers;
mod parts;
mod put_call;
mod read_call;
mod replies;
mod rights;
mod variants;

pub use codec::{put_entries, put_entry, read_entries, read_entry};
pub use fault::{Fault, ReadError, Wrong};
pub use laws::{entries_are_told_apart, records_are_told_apart};

#[cfg(test)]
mod tests;
