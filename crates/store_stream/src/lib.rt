//! A stream of lines over a store: each is done and answered as it comes, and what is done outlives the
//! process.
//!
//! [`open_store`] reads what a disk holds: nothing yet, or a store, of which a machine makes all calls
//! again. [`serve`] goes on from there. All whole lines that have come are done, what they have committed
//! goes into the store, and only then they are answered: so several that wait share one sync of the disk.
#![tactic(auto)]

mod answers;
mod doing;
mod durable;
mod fault;
mod heard;
mod job;
mod opening;
mod serving;
mod stream;
mod writing;

pub use durable::Durable;
pub use fault::{OpenFault, ServeFault};
pub use job::{report_store, run_store_job};
pub use opening::{Opened, open_store};
pub use serving::serve;
