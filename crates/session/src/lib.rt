//! A session of Linux's FUSE protocol: requests are read from a channel, served, and answered there,
//! one after the other.
//!
//! Who serves them is a [`Service`]. The clause of [`run`] tells what is written by what is read.
#![tactic(auto)]

mod buffers;
mod channel;
mod ending;
mod room;
mod service;
mod serving;
mod streams;
mod turns;

pub use buffers::Buffers;
pub use channel::{Channel, Silence};
pub use ending::Ending;
pub use room::{Room, Turns, serve_in};
pub use service::Service;
pub use streams::Streams;
pub use turns::run;
