//! What a mounted tree keeps beside its kernel: the numbers of its nodes, open files and directories,
//! the transactions that are mounted, and the processes that step for requests.
//!
//! Nothing here knows a kernel. Contracts see each table as plain maps, and say of each change what
//! the maps are then. What is changed behind a `reserve` takes no memory.
#![tactic(auto)]

mod attributes;
mod by_number;
mod file_index;
mod file_key;
mod folders;
mod hints;
mod name_index;
mod numbers;
mod open_files;
mod processes;
mod views;

pub use attributes::{attr_of, attr_of_node};
pub use file_key::FileKey;
pub use folders::{Folder, Folders};
pub use numbers::{
    Class, PLAIN, ROOT, TRANSACTIONS, class_of, control_node, is_reserved, root_node, view_of,
};
pub use open_files::{OpenFile, OpenFiles};
pub use processes::{Processes, Role, first_process};
pub use views::{State, View, Views};
