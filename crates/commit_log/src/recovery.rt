//! How a log is opened: where its records end, whether that is damage, and a blank behind them.
ghost use Rattle.std.specs.Prelude.{◌≡◌, ◌<◌, ◌≤◌, ℕ, List, length, IfOk, OnOk, IsTrue, MatchBool, MatchResult};
ghost use Rattle.commit_log.specs.File.{HasNone, IsBlankFrom, NoneTells, Reaches, Tells};
ghost use Rattle.commit_log.specs.Frame.{HasFrame};
ghost use Rattle.commit_log.specs.Opened.{IsOpened, OpenCause};
ghost use Rattle.commit_log.specs.Reads.{ChangesFrom, IsClean, KeepsBelow, OnlyReads, ReadsOrRefuses};

use crate::error::Error;
use crate::reading::read_frame;
use crate::writing::{sync, write_bytes};
use sqlite_disk::Disk;

/// How many zeros are written at once.
const CHUNK: usize = 512;

/// Where the records end that stand from this place on.
pub(crate) fn find_end<D: Disk>(
    disk: &mut D,
    key: u64,
    size: usize,
    from: usize,
    frame: &mut Vec<u8>,
) -> Result<usize, Error>
    requires usable { IsTrue (D.Disk.is_usable disk.old) }
    requires sized { IsClean D.Disk disk.old → size ≡ length (D.Disk.seen disk.old) }
    ensures reached { IfOk result (λ end. IsClean D.Disk disk.new → Reaches key (D.Disk.seen disk.old) from end × HasNone key (D.Disk.seen disk.old) end) }
    ensures cause { ReadsOrRefuses result (D.Disk.faults disk.old) (D.Disk.faults disk.new) }
    ensures same { OnlyReads D.Disk disk.old disk.new }
{
    let mut end = from;
    while end < size {
        let found = read_frame(disk, key, size, end, frame)?;
        match found {
            None => return Ok(end),
            Some(_) => end += frame.len(),
        }
    }
    Ok(end)
}

/// Whether a frame at the later place says that what stood at this one was on the disk.
fn tells_at<D: Disk>(
    disk: &mut D,
    key: u64,
    size: usize,
    place: usize,
    later: usize,
    frame: &mut Vec<u8>,
) -> Result<bool, Error>
    requires usable { IsTrue (D.Disk.is_usable disk.old) }
    requires sized { IsClean D.Disk disk.old → size ≡ length (D.Disk.seen disk.old) }
    ensures told { IfOk result (λ tells. IsClean D.Disk disk.new → MatchBool tells
        ((kept : ℕ) × (payload : List ℕ) × HasFrame key (D.Disk.seen disk.old) later kept payload × (place < kept))
        ((kept : ℕ) (payload : List ℕ) → HasFrame key (D.Disk.seen disk.old) later kept payload → kept ≤ place)) }
    ensures cause { ReadsOrRefuses result (D.Disk.faults disk.old) (D.Disk.faults disk.new) }
    ensures same { OnlyReads D.Disk disk.old disk.new }
{
    let found = read_frame(disk, key, size, later, frame)?;
    match found {
        None => Ok(false),
        Some(kept) => {
            if kept > place as u64 {
                return Ok(true);
            }
            Ok(false)
        }
    }
}

/// Whether a frame behind this place says that what stood there was on the disk.
pub(crate) fn tells_of<D: Disk>(
    disk: &mut D,
    key: u64,
    size: usize,
    place: usize,
    frame: &mut Vec<u8>,
) -> Result<bool, Error>
    requires usable { IsTrue (D.Disk.is_usable disk.old) }
    requires sized { IsClean D.Disk disk.old → size ≡ length (D.Disk.seen disk.old) }
    ensures told { IfOk result (λ tells. IsClean D.Disk disk.new → MatchBool tells
        (Tells key (D.Disk.seen disk.old) place) (NoneTells key (D.Disk.seen disk.old) place)) }
    ensures cause { ReadsOrRefuses result (D.Disk.faults disk.old) (D.Disk.faults disk.new) }
    ensures same { OnlyReads D.Disk disk.old disk.new }
{
    for before in place..size {
        let tells = tells_at(disk, key, size, place, before + 1, frame)?;
        if tells {
            return Ok(true);
        }
    }
    Ok(false)
}

/// Overwrites the file by zeros, from this place on up to its end.
pub(crate) fn blank<D: Disk>(disk: &mut D, from: usize, size: usize) -> Result<(), Error>
    requires { IsTrue (D.Disk.is_usable disk.old) }
    ensures blank { OnOk result (size ≡ length (D.Disk.seen disk.old) → IsBlankFrom (D.Disk.seen disk.new) from) }
    ensures keeps { KeepsBelow from (D.Disk.seen disk.old) (D.Disk.seen disk.new) }
    ensures crash { ChangesFrom from (D.Disk.may_leave disk.old) (D.Disk.may_leave disk.new) }
    ensures cause { ReadsOrRefuses result (D.Disk.faults disk.old) (D.Disk.faults disk.new) }
    ensures clean { IsClean D.Disk disk.new → IsClean D.Disk disk.old }
    ensures usable { IsTrue (D.Disk.is_usable disk.new) }
{
    let zeros = [0; CHUNK];
    let mut at = from;
    while at < size {
        let count = (size - at).min(CHUNK);
        write_bytes(disk, at, &zeros[..count])?;
        at += count;
    }
    Ok(())
}

/// Finds where the log ends, and leaves nothing but zeros behind it, all of it on the disk.
pub(crate) fn recover<D: Disk>(
    disk: &mut D,
    key: u64,
    size: usize,
    from: usize,
    frame: &mut Vec<u8>,
) -> Result<usize, Error>
    requires usable { IsTrue (D.Disk.is_usable disk.old) }
    requires sized { IsClean D.Disk disk.old → size ≡ length (D.Disk.seen disk.old) }
    ensures opened { IfOk result (λ end. IsClean D.Disk disk.new → IsOpened key from end (D.Disk.seen disk.old) (D.Disk.seen disk.new) (D.Disk.may_leave disk.new)) }
    ensures usable { OnOk result (IsTrue (D.Disk.is_usable disk.new)) }
    ensures crash { IsClean D.Disk disk.new → (end : ℕ) → Reaches key (D.Disk.seen disk.old) from end → HasNone key (D.Disk.seen disk.old) end
        → ChangesFrom end (D.Disk.may_leave disk.old) (D.Disk.may_leave disk.new) }
    ensures cause { MatchResult result (λ _. D.Disk.faults disk.new ≡ D.Disk.faults disk.old)
        (λ error. IsClean D.Disk disk.new → OpenCause D.Disk key from disk.old disk.new error) }
{
    let end = find_end(disk, key, size, from, frame)?;
    let tells = tells_of(disk, key, size, end, frame)?;
    if tells {
        return Err(Error::Damaged(end));
    }
    blank(disk, end, size)?;
    sync(disk)?;
    Ok(end)
}
