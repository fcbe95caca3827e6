//! A plain kernel of whole maps, without transactions, by which the checker runs what took effect
//! again. With the kernel that is checked it shares how a file's bytes are stored (`objects::FileData`)
//! and nothing else; what a call comes to is asked of it as of any state (`look::Look`).
#![tactic(auto)]

mod apply;
mod counts;
mod descriptions;
mod free;
mod holders;
mod inode;
mod inodes;
mod names;
mod numbers;
mod plain;
mod processes;
mod start;
mod table;
mod tree;

pub use plain::{PlainKernel, key_of};
pub use table::Table;
pub use tree::Tree;
