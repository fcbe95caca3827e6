//! An append-only log of records on one file.
#![tactic(auto)]

mod create;
mod error;
mod frame;
mod header;
mod log;
mod number;
mod reader;
mod reading;
mod recovery;
#[cfg(test)]
mod tests;
mod writing;

pub use error::{Error, Refused};
pub use log::Log;
pub use reader::Reader;
