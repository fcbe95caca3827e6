//! A store is opened again: a fresh kernel makes all its calls again.
//!
//! [`replay`] reads the records of a log from the front, and has a kernel make the calls of each as plain
//! calls; each has to be answered as it was told. So the kernel's committed state is what the calls of
//! the store run to (`specs/Coming.antt`). [`start`] and [`replay_next`] do so record by record. [`reopen`]
//! makes the log ready for further records too. What the processes had open is closed by the calls of a
//! [`Reboot`].
#![tactic(auto)]

mod again;
mod answers;
mod descriptors;
mod error;
mod reboot;
mod reopening;
mod replaying;
mod starting;

pub use error::Error;
pub use reboot::Reboot;
pub use reopening::{Reopened, reopen};
pub use replaying::{Replayed, replay, replay_next};
pub use starting::start;
