//! What a machine has committed, on a disk.
//!
//! A [`Store`] takes the redo records of its machine (`recording`) and appends each to a log
//! (`commit_log`), behind the setup of the machine (`store_form`). [`Kept`] is a machine with a store.
#![tactic(auto)]

ghost use Rattle.kept.specs.Holds.{CrashesLeaveBeginnings};
ghost use Rattle.kept.specs.Keeps.{WhatIsKeptIsWhole};

mod as_machine;
mod bytes;
mod fault;
mod keeping;
mod kept;
mod saving;
mod store;

pub use fault::StoreFault;
pub use keeping::Keeping;
pub use kept::Kept;
use sqlite_disk::Disk;
pub use store::Store;

/// Whatever a crash leaves of a store of a legal history is a store whose calls run, from the start of the
/// history's setup, to what was committed after a beginning of the history, which has each entry whose
/// record was kept; or a digest of 64 bits fits by chance.
/// Proved in `proofs/Recovering.antt`.
pub fn crashes_leave_beginnings<D: Disk>()
    ensures { CrashesLeaveBeginnings D.Disk }
{}

/// Whatever a crash leaves of what is kept of a legal history is a store whose calls run, from the start of
/// the history's setup, to all that was committed; or a digest of 64 bits fits by chance.
/// Proved in `proofs/Going.antt`.
pub fn what_is_kept_is_whole<D: Disk>()
    ensures { WhatIsKeptIsWhole D.Disk }
{}
