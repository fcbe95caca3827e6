//! A new log.
ghost use Rattle.std.specs.Prelude.{◌≡◌, ◌≤◌, ◌<◌, max, ℕ, List, [], length, Err, OnOk, IfOk, IfErr, IsTrue, MatchResult};
ghost use Rattle.sqlite_disk.specs.Disk.{Only};
ghost use Rattle.commit_log.specs.Create.{CreateCause, Grows};
ghost use Rattle.commit_log.specs.File.{HasHeader};
ghost use Rattle.commit_log.specs.Log.{disk_of, key_of, Stands};
ghost use Rattle.commit_log.specs.Reads.{IsClean, OnlyReads};

use crate::error::{Error, Refused};
use crate::header::{HEADER, header_of};
use crate::log::Log;
use crate::reading::size_of;
use crate::writing::{sync, write_bytes};
use sqlite_disk::Disk;
use std::alloc::Global;

/// Writes the header of an empty file, and tells its key.
fn write_header<D: Disk>(alloc: Global, disk: &mut D) -> Result<u64, Error>
    requires { IsTrue (D.Disk.is_usable disk.old) }
    ensures made { IfOk result (λ key. IsClean D.Disk disk.new → HasHeader key (D.Disk.seen disk.new) × (length (D.Disk.seen disk.new) ≡ 32)) }
    ensures key { IfOk result (λ key. key ≡ D.Disk.key_of disk.old) }
    ensures empty { OnOk result (IsClean D.Disk disk.new → length (D.Disk.seen disk.old) ≡ 0) }
    ensures taken { result ≡ Err Error.Taken → OnlyReads D.Disk disk.old disk.new }
    ensures durable { IfOk result (λ key. Only (D.Disk.seen disk.new) (D.Disk.may_leave disk.new)) }
    ensures usable { IfOk result (λ key. IsTrue (D.Disk.is_usable disk.new)) }
    ensures crash { Grows (D.Disk.may_leave disk.old) (D.Disk.may_leave disk.new) }
    ensures cause { MatchResult result (λ _. D.Disk.faults disk.new ≡ D.Disk.faults disk.old)
        (λ error. IsClean D.Disk disk.new → CreateCause (D.Disk.seen disk.old) (D.Disk.faults disk.old) (D.Disk.faults disk.new) error) }
{
    let key = disk.key();
    if size_of(disk)? != 0 {
        return Err(Error::Taken);
    }
    let header = header_of(alloc, key)?;
    write_bytes(disk, 0, &header)?;
    sync(disk)?;
    Ok(key)
}

impl<D: Disk> Log<D> {
    /// Makes a log of no records in an empty file.
    ///
    /// `Taken`: the file is not empty; nothing has changed. After an error a crash leaves at most a header's bytes behind
    /// what it might have left before, so a file with no records or one that is no log.
    pub fn create(alloc: Global, disk: D) -> Result<Log<D>, Refused<D>>
        requires { IsTrue (D.Disk.is_usable disk) }
        ensures made { IfOk result (λ log. IsClean D.Disk (disk_of log) → Stands log [] []) }
        ensures key { IfOk result (λ log. key_of log ≡ D.Disk.key_of disk) }
        ensures empty { IfOk result (λ log. IsClean D.Disk (disk_of log) → length (D.Disk.seen disk) ≡ 0) }
        ensures taken { IfErr result (λ refused. refused.error ≡ Error.Taken → OnlyReads D.Disk disk refused.disk) }
        ensures crash { IfErr result (λ refused. Grows (D.Disk.may_leave disk) (D.Disk.may_leave refused.disk)) }
        ensures cause { MatchResult result (λ log. D.Disk.faults (disk_of log) ≡ D.Disk.faults disk)
            (λ refused. IsClean D.Disk refused.disk → CreateCause (D.Disk.seen disk) (D.Disk.faults disk) (D.Disk.faults refused.disk) refused.error) }
    {
        let mut disk = disk;
        match write_header(alloc, &mut disk) {
            Ok(key) => Ok(Log {
                disk,
                key,
                end: HEADER,
                kept: HEADER,
                failure: None,
            }),
            Err(error) => Err(Refused { disk, error }),
        }
    }
}
