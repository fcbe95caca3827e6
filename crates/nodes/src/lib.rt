//! What the numbers of a mount's nodes stand for.
//!
//! The kernel of the machine on which a tree is mounted names a file or a directory by the number of
//! a node, which it was told when it looked a name up. A node has the directory entry at which it was
//! looked up, the object's number and kind, and how many look-ups are not forgotten yet. It is
//! *attached* where its entry leads to it. Another object under the same name gets another node, and the
//! former one stays until it is forgotten, but is attached no more. Numbers of nodes are drawn from a
//! counter and never used again (`specs/Numbers.antt`). Those of objects are used again when an object is
//! gone: so each object that is made is noted, and a node is *current* as long as none was made with its
//! object's number since. Nothing here knows a kernel.
#![tactic(auto)]

mod births;
mod directory_entry;
mod index;
mod laws;
mod list;
mod node;
mod nodes;

pub use directory_entry::{DirectoryEntry, Spot};
pub use laws::{gone_objects_stay_gone, numbers_are_given_once};
pub use node::Node;
pub use nodes::{FIRST_NUMBER, LAST_NUMBER, NAMES_LIMIT, Nodes};
