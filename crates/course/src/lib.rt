//! What requests do to a kernel, once their paths and descriptors are known: the steps of one
//! process, each by the replies to those before, and what comes of them.
//!
//! A course is written as a definition (`specs/`), and each function here runs one. What is kept of
//! the history is forgotten before each step, so that its entry has a place.
#![tactic(auto)]

mod fault;
mod files;
mod hand;
mod made;
mod making;
mod names;
mod objects;
mod place;
mod rights;
mod step;
mod transactions;
mod updates;

pub use fault::Fault;
pub use files::{Made, allocate, append, close, copy, read, seek, stat_file, write};
pub use hand::Hand;
pub use made::{Cut, close_spare, create_cut, cut_if, make_node, open_cut};
pub use making::{Again, make_directory, make_link};
pub use names::{
    Twice, exchange, link, list, look_up, move_name, read_link, remove_directory, unlink,
};
pub use objects::{Object, find, list_at};
pub use place::Place;
pub use rights::permissions_in;
pub use transactions::{begin, end, fork, give_up, look_nowhere};
pub use updates::{Paths, Update, apply_update, drop_if};
