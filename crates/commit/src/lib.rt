//! The transactions of all processes: they begin, change, end, abort and are doomed
//! (TxOS, section 4).
//!
//! Each process has a slot, at its number. A live transaction's slot has the changes that it would
//! commit, and what they need of the committed state is kept for them: so an end always succeeds,
//! and no operation but a change takes memory.
#![tactic(auto)]

mod process_state;
mod process_states;
mod transactions;

pub use process_state::Standing;
pub use transactions::Transactions;
