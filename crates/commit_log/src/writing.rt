//! What is written to a disk when a log is made or opened.
ghost use Rattle.std.specs.Prelude.{◌≡◌, ◌<◌, ℕ, List, length, OnOk, IsTrue};
ghost use Rattle.sqlite_disk.specs.Disk.{Follows, Holds, Only, Torn};
ghost use Rattle.commit_log.specs.Reads.{IsClean, ReadsOrRefuses};

use crate::error::Error;
use sqlite_disk::Disk;

/// Writes these bytes at this place.
pub(crate) fn write_bytes<D: Disk>(disk: &mut D, place: usize, bytes: &[u8]) -> Result<(), Error>
    requires usable { IsTrue (D.Disk.is_usable disk.old) }
    requires some { 0 < length bytes.now }
    ensures written { OnOk result (Holds (D.Disk.seen disk.new) place bytes.now) }
    ensures others { Torn place (length bytes.now) (D.Disk.seen disk.old) (D.Disk.seen disk.new) }
    ensures crash { Follows (Torn place (length bytes.now)) (D.Disk.may_leave disk.old) (D.Disk.may_leave disk.new) }
    ensures cause { ReadsOrRefuses result (D.Disk.faults disk.old) (D.Disk.faults disk.new) }
    ensures clean { IsClean D.Disk disk.new → IsClean D.Disk disk.old }
    ensures usable { IsTrue (D.Disk.is_usable disk.new) }
{
    disk.write_at(place, bytes)
        .map_err(|error| Error::of_disk(&error))
}

/// Sees that all that was written is on the disk.
pub(crate) fn sync<D: Disk>(disk: &mut D) -> Result<(), Error>
    requires usable { IsTrue (D.Disk.is_usable disk.old) }
    ensures durable { OnOk result (Only (D.Disk.seen disk.old) (D.Disk.may_leave disk.new)) }
    ensures seen { D.Disk.seen disk.new ≡ D.Disk.seen disk.old }
    ensures crash { (file : List ℕ) → D.Disk.may_leave disk.new file → D.Disk.may_leave disk.old file }
    ensures cause { ReadsOrRefuses result (D.Disk.faults disk.old) (D.Disk.faults disk.new) }
    ensures clean { IsClean D.Disk disk.new → IsClean D.Disk disk.old }
    ensures usable { OnOk result (IsTrue (D.Disk.is_usable disk.new)) }
{
    disk.sync().map_err(|error| Error::of_disk(&error))
}
