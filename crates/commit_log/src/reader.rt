//! The records of a log, from the front.
ghost use Rattle.std.specs.Prelude.{◌≡◌, List, ℕ, length, drop, IsTrue};

use crate::error::{Error, Refused};
use crate::frame::HEAD;
use crate::header::{HEADER, read_header};
use crate::log::Log;
use crate::reading::read_frame;
use crate::recovery::recover;
use sqlite_disk::Disk;
use std::alloc::Global;

/// Reads the records of a log from the front, one at a time, and changes nothing.
#[derive(Drop)]
pub struct Reader<D: Disk> {
    pub(crate) disk: D,
    pub(crate) key: u64,
    /// How long the file is.
    pub(crate) size: usize,
    /// Where the next record is looked for.
    pub(crate) place: usize,
    /// The frame that was read last.
    pub(crate) frame: Vec<u8>,
    ghost usable: { IsTrue (D.Disk.is_usable disk) },
    ghost sized: { IsTrue (D.Disk.is_clean disk) → size ≡ length (D.Disk.seen disk) },
}

impl<D: Disk> Reader<D> {
    ghost use Rattle.std.specs.Prelude.{◌++◌, [], ◌∷◌, ◌+◌, IfErr, IfOk, MatchOption, MatchResult, OnErr};
    ghost use Rattle.commit_log.specs.File.{HasHeader, NoneTells, Reads};
    ghost use Rattle.commit_log.specs.Header.{HasNoLog};
    ghost use Rattle.commit_log.specs.Log.{disk_of as log_disk, end_of, Stands};
    ghost use Rattle.commit_log.specs.Opened.{OpenCause};
    ghost use Rattle.commit_log.specs.Reader.{disk_of, key_of, payload_of, place_of, IsAt, KeepsAcross};
    ghost use Rattle.commit_log.specs.Reads.{IsClean, OnlyReads, ReadsOrRefuses};

    /// Opens a log for reading, at its first record.
    ///
    /// `NotALog`: the file does not begin with a header. `OtherVersion`: it begins with one of this
    /// other version.
    pub fn open(alloc: Global, disk: D) -> Result<Reader<D>, Refused<D>>
        requires { IsTrue (D.Disk.is_usable disk) }
        ensures opened { IfOk result (λ reader. IsClean D.Disk (disk_of reader) → (records : List (List ℕ))
            → Reads (key_of reader) (D.Disk.seen disk) records → IsAt reader [] records) }
        ensures header { IfOk result (λ reader. IsClean D.Disk (disk_of reader) → HasHeader (key_of reader) (D.Disk.seen disk)) }
        ensures refused { IfErr result (λ refused. IsClean D.Disk refused.disk
            → HasNoLog (D.Disk.seen disk) (D.Disk.faults disk) (D.Disk.faults refused.disk) refused.error) }
        ensures same { MatchResult result (λ reader. OnlyReads D.Disk disk (disk_of reader)) (λ refused. OnlyReads D.Disk disk refused.disk) }
    {
        let mut disk = disk;
        match read_header(&mut disk) {
            Ok((key, size)) => Ok(Reader {
                disk,
                key,
                size,
                place: HEADER,
                frame: Vec::new(alloc),
            }),
            Err(error) => Err(Refused { disk, error }),
        }
    }

    /// Reads the next record, and tells its place in the file, or `None` behind the last one. Its
    /// payload is there until the next call. After an error the same record is next.
    pub fn next(&mut self) -> Result<Option<usize>, Error>
        ensures reads { IfOk result (λ found. IsClean D.Disk (disk_of self.new) → (before rest : List (List ℕ)) → IsAt self.old before rest
            → MatchOption found ((rest ≡ []) × IsAt self.new before [])
            (λ place. (later : List (List ℕ)) × (rest ≡ payload_of self.new ∷ later) × IsAt self.new (before ++ payload_of self.new ∷ []) later)) }
        ensures place { IfOk result (λ found. MatchOption found (place_of self.new ≡ place_of self.old) (λ place. place ≡ place_of self.old)) }
        ensures cause { ReadsOrRefuses result (D.Disk.faults (disk_of self.old)) (D.Disk.faults (disk_of self.new)) }
        ensures again { OnErr result (place_of self.new ≡ place_of self.old) }
        ensures same { OnlyReads D.Disk (disk_of self.old) (disk_of self.new) }
        ensures key { key_of self.new ≡ key_of self.old }
    {
        let place = self.place;
        let found = read_frame(&mut self.disk, self.key, self.size, place, &mut self.frame)?;
        match found {
            None => Ok(None),
            Some(_) => {
                self.place = place + self.frame.len();
                Ok(Some(place))
            }
        }
    }

    /// Reads on to the end of the log, and makes it ready for further records. What stands behind the
    /// last record is overwritten by zeros.
    ///
    /// `Damaged`: what stands there was a record that was on the disk, as a frame behind it says;
    /// nothing has changed then. `Full`, `Failed` and `Memory`: the file has the same records as
    /// before, and can be opened again.
    pub fn finish(self) -> Result<Log<D>, Refused<D>>
        ensures opened { IfOk result (λ log. IsClean D.Disk (log_disk log) → (before rest : List (List ℕ)) → IsAt self before rest → Stands log (before ++ rest) []) }
        ensures sound { IfOk result (λ log. IsClean D.Disk (log_disk log) → NoneTells (key_of self) (D.Disk.seen (disk_of self)) (end_of log)) }
        ensures crash { (kept appended : List (List ℕ)) → MatchResult result
            (λ log. KeepsAcross self (log_disk log) kept appended)
            (λ refused. KeepsAcross self refused.disk kept appended) }
        ensures cause { MatchResult result (λ log. D.Disk.faults (log_disk log) ≡ D.Disk.faults (disk_of self))
            (λ refused. IsClean D.Disk refused.disk → OpenCause D.Disk (key_of self) (place_of self) (disk_of self) refused.disk refused.error) }
    {
        let Reader {
            disk,
            key,
            size,
            place,
            frame,
        } = self;
        let mut disk = disk;
        let mut frame = frame;
        match recover(&mut disk, key, size, place, &mut frame) {
            Ok(end) => Ok(Log {
                disk,
                key,
                end,
                kept: end,
                failure: None,
            }),
            Err(error) => Err(Refused { disk, error }),
        }
    }

    /// The payload of the record that was read last.
    pub fn payload(&self) -> &[u8]
        ensures { result.now ≡ payload_of self.now }
    {
        if self.frame.len() < HEAD {
            return &[];
        }
        &self.frame[HEAD..]
    }

    /// Where the next record is looked for.
    pub fn place(&self) -> usize
        ensures { result ≡ place_of self.now }
    {
        self.place
    }
}
