//! What a transaction changes in one file, kept beside the stable file until the commit.
//!
//! Others may change the stable file meanwhile. So the changes are no copy of the file: a changed
//! block holds just the bytes that were written, and the length is kept as what the edits make of
//! any length. Contracts say that the view of any file, whatever others made of it, is that of the
//! edits one after the other on it.
#![tactic(auto)]

mod block;
mod blocks;
mod shadow;

pub use ids::BLOCK_LEN;
pub use shadow::{Extent, FileShadow, Lengths};
