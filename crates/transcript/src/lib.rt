//! The transcript of a history, printed to a sink: a line for each entry. Printing takes no memory.
//!
//! What is printed is gathered in a buffer on the stack, so that the device is called about once for
//! 8 KiB. Other lines can stand between those of entries: they go through one [`Printer`].
#![tactic(auto)]

mod digits;
mod flags;
mod line;
mod operation;
mod pending;
mod printer;
mod reply;
mod rights;
mod spelling;
mod text;

pub use line::{print, print_line, print_why, put_line};
pub use printer::Printer;
