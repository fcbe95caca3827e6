//! What the layers above a kernel ask of it: a trait, whose clauses are those of the kernel.
#![tactic(auto)]

mod machine;

pub use machine::Machine;
