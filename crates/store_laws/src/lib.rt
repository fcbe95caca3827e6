//! What holds of stores across `recovery` and `kept`. Each function here with an empty body is a law.
#![tactic(auto)]

ghost use Rattle.store_laws.specs.Resuming.{ReopenedStoresGoOn};

use sqlite_disk::Disk;

/// What `recovery::reopen` leaves of a recording machine and of a log is what `kept::Store::resume` speaks
/// of: the log has the payloads that the file was read as, each kept, and they tell all that the machine has
/// committed. So the store that goes on in the log holds the machine's history.
/// Proved in `proofs/Resuming.antt`.
pub fn reopened_stores_go_on<D: Disk>()
    ensures { ReopenedStoresGoOn D.Disk }
{}
