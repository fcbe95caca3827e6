//! A frame read from a disk.
ghost use Rattle.std.specs.Prelude.{◌≡◌, ◌+◌, ◌^◌, ◌<◌, ◌≤◌, ℕ, List, drop, length, IfOk, OnOk, IfSome, IsTrue, MatchOption};
ghost use Rattle.sqlite_disk.specs.Disk.{Holds};
ghost use Rattle.commit_log.specs.File.{HasNone};
ghost use Rattle.commit_log.specs.Frame.{frame, frame_length, HasFrame};
ghost use Rattle.commit_log.specs.Reads.{IsClean, OnlyReads, ReadsOrRefuses};

use crate::error::Error;
use crate::frame::{HEAD, kept_in};
use crate::number::number_at;
use sqlite_disk::Disk;

/// Fills the buffer with the bytes from this place on.
pub(crate) fn read_bytes<D: Disk>(disk: &mut D, place: usize, bytes: &mut [u8]) -> Result<(), Error>
    requires usable { IsTrue (D.Disk.is_usable disk.old) }
    requires some { 0 < length bytes.old }
    requires within { IsClean D.Disk disk.old → place + length bytes.old ≤ length (D.Disk.seen disk.old) }
    ensures read { OnOk result (IsClean D.Disk disk.new → Holds (D.Disk.seen disk.old) place bytes.new) }
    ensures cause { ReadsOrRefuses result (D.Disk.faults disk.old) (D.Disk.faults disk.new) }
    ensures same { OnlyReads D.Disk disk.old disk.new }
{
    disk.read_at(place, bytes)
        .map_err(|error| Error::of_disk(&error))
}

/// How long the file is.
pub(crate) fn size_of<D: Disk>(disk: &mut D) -> Result<usize, Error>
    requires { IsTrue (D.Disk.is_usable disk.old) }
    ensures size { IfOk result (λ size. IsClean D.Disk disk.new → size ≡ length (D.Disk.seen disk.old)) }
    ensures cause { ReadsOrRefuses result (D.Disk.faults disk.old) (D.Disk.faults disk.new) }
    ensures same { OnlyReads D.Disk disk.old disk.new }
{
    disk.len().map_err(|error| Error::of_disk(&error))
}

/// Fills the buffer, and tells whether its bytes are a frame of this place.
fn read_whole<D: Disk>(
    disk: &mut D,
    key: u64,
    place: usize,
    frame: &mut [u8],
) -> Result<Option<u64>, Error>
    requires usable { IsTrue (D.Disk.is_usable disk.old) }
    requires some { 32 ≤ length frame.old }
    requires within { IsClean D.Disk disk.old → place + length frame.old ≤ length (D.Disk.seen disk.old) }
    ensures found { IfOk result (λ found. IsClean D.Disk disk.new → MatchOption found
        ((kept : ℕ) (payload : List ℕ) → length frame.old ≡ frame_length payload → HasFrame key (D.Disk.seen disk.old) place kept payload → ⊥)
        (λ kept. HasFrame key (D.Disk.seen disk.old) place kept (drop 32 frame.new))) }
    ensures cause { ReadsOrRefuses result (D.Disk.faults disk.old) (D.Disk.faults disk.new) }
    ensures same { OnlyReads D.Disk disk.old disk.new }
{
    read_bytes(disk, place, frame)?;
    Ok(kept_in(key, place, frame))
}

/// Reads what stands at this place into `frame`. If it is a frame of this place, tells up to where
/// it says that the file was kept. The file has `size` bytes.
pub(crate) fn read_frame<D: Disk>(
    disk: &mut D,
    key: u64,
    size: usize,
    place: usize,
    frame: &mut Vec<u8>,
) -> Result<Option<u64>, Error>
    requires usable { IsTrue (D.Disk.is_usable disk.old) }
    requires sized { IsClean D.Disk disk.old → size ≡ length (D.Disk.seen disk.old) }
    ensures found { IfOk result (λ found. IsClean D.Disk disk.new → MatchOption found
        (HasNone key (D.Disk.seen disk.old) place)
        (λ kept. HasFrame key (D.Disk.seen disk.old) place kept (drop 32 frame.new.items))) }
    ensures within { IfOk result (λ found. IfSome found (λ _. (32 ≤ length frame.new.items) × (place + length frame.new.items ≤ size))) }
    ensures cause { ReadsOrRefuses result (D.Disk.faults disk.old) (D.Disk.faults disk.new) }
    ensures same { OnlyReads D.Disk disk.old disk.new }
{
    if size.saturating_sub(place) < HEAD {
        return Ok(None);
    }
    let rest = size - place - HEAD;
    let mut head = [0; HEAD];
    read_bytes(disk, place, &mut head)?;
    // A payload is read only where its head is of this place: a look through a torn tail reads no more.
    if number_at(&head, 8) != place as u64 {
        return Ok(None);
    }
    let told = number_at(&head, 24);
    if told > rest as u64 {
        return Ok(None);
    }
    frame.resize(HEAD + told as usize, 0)?;
    let found = read_whole(disk, key, place, frame)?;
    Ok(found)
}
