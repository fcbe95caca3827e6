//! Devices that count their failures: sources that bytes are read from, and sinks that they are
//! written to.
//!
//! Contracts know the bytes of the devices over memory. Of a file or a terminal they know only the
//! number of its failures.
#![tactic(auto)]

mod counted;
mod memory;
mod sink;
mod source;

pub use counted::Counted;
pub use memory::{Failing, Halting, Portions, Trickling};
pub use sink::{DeviceFailed, Sink, write_all};
pub use source::{ReadFault, Source, read_all};
