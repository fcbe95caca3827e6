//! The header of a log.
ghost use Rattle.std.specs.Prelude.{◌≡◌, length, IfErr, IfOk, IsTrue, MatchResult};
ghost use Rattle.commit_log.specs.File.{header, HasHeader};
ghost use Rattle.commit_log.specs.Header.{HasNoLog, IsNoHeader};
ghost use Rattle.commit_log.specs.Reads.{IsClean, OnlyReads};

use crate::error::Error;
use crate::number::{bytes_of, number_at};
use crate::reading::{read_bytes, size_of};
use sqlite_disk::{Disk, digest_of};
use std::alloc::{AllocError, Global};

/// How many bytes a header has.
pub(crate) const HEADER: usize = 32;

/// The bytes "kagzulog" as a number.
const MAGIC: u64 = 0x676f_6c75_7a67_616b;

/// The version of this layout.
const VERSION: u64 = 1;

/// The header of a key.
#[tactic(auto, unfolding(crate::specs::File::header, crate::specs::File::named))]
pub(crate) fn header_of(alloc: Global, key: u64) -> Result<Vec<u8>, AllocError>
    ensures { IfOk result (λ bytes. bytes.items ≡ header key) }
{
    let mut bytes = Vec::new(alloc);
    bytes.extend_from_slice(&bytes_of(MAGIC))?;
    bytes.extend_from_slice(&bytes_of(VERSION))?;
    bytes.extend_from_slice(&bytes_of(key))?;
    let digest = digest_of(key, &bytes);
    bytes.extend_from_slice(&bytes_of(digest))?;
    Ok(bytes)
}

/// The key that these bytes are the header of.
fn key_in(bytes: &[u8]) -> Result<u64, Error>
    requires { length bytes.now ≡ 32 }
    ensures key { IfOk result (λ key. bytes.now ≡ header key) }
    ensures refused { IfErr result (λ error. IsNoHeader bytes.now error) }
{
    if number_at(bytes, 0) != MAGIC {
        return Err(Error::NotALog);
    }
    let version = number_at(bytes, 8);
    if version != VERSION {
        return Err(Error::OtherVersion(version));
    }
    let key = number_at(bytes, 16);
    let (named, _) = bytes.split_at(24);
    let digest = number_at(bytes, 24);
    if digest != digest_of(key, named) {
        return Err(Error::NotALog);
    }
    Ok(key)
}

/// The key that the file's header names, and how long the file is.
pub(crate) fn read_header<D: Disk>(disk: &mut D) -> Result<(u64, usize), Error>
    requires { IsTrue (D.Disk.is_usable disk.old) }
    ensures found { IfOk result (λ found. IsClean D.Disk disk.new → HasHeader found.0 (D.Disk.seen disk.old) × (found.1 ≡ length (D.Disk.seen disk.old))) }
    ensures cause { MatchResult result (λ _. D.Disk.faults disk.new ≡ D.Disk.faults disk.old) (λ error. IsClean D.Disk disk.new → HasNoLog (D.Disk.seen disk.old) (D.Disk.faults disk.old) (D.Disk.faults disk.new) error) }
    ensures same { OnlyReads D.Disk disk.old disk.new }
{
    let size = size_of(disk)?;
    if size < HEADER {
        return Err(Error::NotALog);
    }
    let mut bytes = [0; HEADER];
    read_bytes(disk, 0, &mut bytes)?;
    Ok((key_in(&bytes)?, size))
}
