// How the file of a store is opened.
ghost use Rattle.std.specs.Prelude.{IfOk, IsTrue};
ghost use Rattle.store_file.specs.Opened.{file_is_usable, IsFresh};

use crate::fault::OpenFault;
use crate::host::Host;
use sqlite_disk::{Modelled, Start};
use std::fs::{File, OpenOptions, TryLockError};
use std::hash::{BuildHasher, RandomState};
use std::{fs, io};

/// A file that held what `S` says.
pub type FileFrom<S> = Modelled<Host, S>;

// The file at this path, for reading and writing. An empty one is made where there is none.
fn found_or_made(rt: &HostRuntime, path: &str) -> io::Result<File> {
    OpenOptions::new()
        .read(true)
        .write(true)
        .create(true)
        .open(rt, path)
}

// Locks a file against all others that lock it so, for as long as it is open.
fn lock(file: &File) -> Result<(), OpenFault> {
    match file.try_lock() {
        Ok(()) => Ok(()),
        Err(TryLockError::WouldBlock) => Err(OpenFault::Busy),
        Err(TryLockError::Error(error)) => Err(OpenFault::Io(error)),
    }
}

// The folder that a file's name is in, where no link is followed any more.
fn folder_of(rt: &HostRuntime, path: &str) -> io::Result<File> {
    let mut folder = fs::canonicalize(rt, path)?;
    folder.pop();
    File::open(rt, folder.as_str())
}

/// Opens the file of a store, or makes an empty one, and locks it until the disk is dropped. What is read of
/// it is on the disk then, and so is its name. `S` stands for what it holds, and its value is used up, so that
/// code over any `S` opens one file. The key of its digests is drawn at random.
///
/// `Busy`: another user has it locked. `NotAFile`: a device, a pipe or the like is there. `Io`: a call of the
/// system failed, as where a folder is there, or the file may not be written to.
pub fn open<S: Start>(rt: &HostRuntime, path: &str, _start: S) -> Result<FileFrom<S>, OpenFault>
    ensures usable { IfOk result (λ file. IsTrue (file_is_usable S.Start file)) }
    ensures fresh { IfOk result IsFresh }
{
    let file = found_or_made(rt, path)?;
    if !file.metadata()?.is_file() {
        return Err(OpenFault::NotAFile);
    }
    lock(&file)?;
    let folder = folder_of(rt, path)?;
    let key = RandomState::new(rt)?.hash_one(&0u8);
    let host = Host::settle(file, &folder, key)?;
    Ok(Modelled::new(host, false, key))
}
