//! A log that records are appended to.
ghost use Rattle.std.specs.Prelude.{◌≡◌, ◌+◌, ◌^◌, ◌≤◌, ◌++◌, [], ◌∷◌, ℕ, List, Some, None, IfOk, OnOk, IsNone, IsTrue};
ghost use Rattle.commit_log.specs.File.{Reads};
ghost use Rattle.commit_log.specs.Frame.{HasFrame, frame_length};

use crate::error::Error;
use crate::frame::frame_of;
use sqlite_disk::Disk;
use std::alloc::Global;

/// A log that records are appended to, behind those that it was opened with.
#[derive(Drop)]
pub struct Log<D: Disk> {
    pub(crate) disk: D,
    pub(crate) key: u64,
    /// Where the next frame goes.
    pub(crate) end: usize,
    /// Up to where all is on the disk.
    pub(crate) kept: usize,
    /// What each call answers since the disk has failed.
    pub(crate) failure: Option<Error>,
    ghost usable: { IsNone failure → IsTrue (D.Disk.is_usable disk) },
}

impl<D: Disk> Log<D> {
    ghost use Rattle.commit_log.specs.Causes.{FailsFor};
    ghost use Rattle.commit_log.specs.Log.{disk_of, failure_of, key_of, end_of, kept_of, CrashLeaves, Stands};

    /// Writes a record behind the others, and returns its place in the file. It is not kept yet: a
    /// crash may lose it until `keep` has returned `Ok`.
    ///
    /// `Memory` and `TooLong` leave all as it was. After `Full` or `Failed` nothing more is asked of
    /// the disk, and each later call answers the same.
    pub fn append(&mut self, alloc: Global, payload: &[u8]) -> Result<usize, Error>
        ensures appended { OnOk result ((kept appended : List (List ℕ)) → Stands self.old kept appended
            → Stands self.new kept (appended ++ payload.now ∷ [])) }
        ensures crash { (kept appended : List (List ℕ)) → Stands self.old kept appended
            → CrashLeaves self.new kept (appended ++ payload.now ∷ []) }
        ensures says { OnOk result ((kept appended : List (List ℕ)) → Stands self.old kept appended
            → HasFrame (key_of self.old) (D.Disk.seen (disk_of self.new)) (end_of self.old) (kept_of self.old) payload.now) }
        ensures cause { FailsFor result self.old self.new (2 ^ 64 ≤ end_of self.old + frame_length payload.now) }
        ensures place { IfOk result (λ place. place ≡ end_of self.old) }
        ensures end { OnOk result (end_of self.new ≡ end_of self.old + frame_length payload.now) }
        ensures kept { kept_of self.new ≡ kept_of self.old }
        ensures key { key_of self.new ≡ key_of self.old }
    {
        if let Some(error) = self.failure {
            return Err(error);
        }
        let place = self.end;
        let frame = frame_of(alloc, self.key, place, self.kept, payload)?;
        let length = frame.len();
        if length > usize::MAX - place {
            return Err(Error::TooLong);
        }
        if let Err(error) = self.disk.write_at(place, &frame) {
            let error = Error::of_disk(&error);
            self.failure = Some(error);
            return Err(error);
        }
        self.end = place + length;
        Ok(place)
    }

    /// Sees that all that was appended is on the disk, by one sync, so that no crash loses it.
    ///
    /// After `Full` or `Failed` nothing more is asked of the disk, and each later call answers the
    /// same. What was kept before stays kept.
    pub fn keep(&mut self) -> Result<(), Error>
        ensures kept { OnOk result ((kept appended : List (List ℕ)) → Stands self.old kept appended
            → Stands self.new (kept ++ appended) []) }
        ensures acknowledged { OnOk result ((kept appended : List (List ℕ)) → Stands self.old kept appended
            → (file : List ℕ) → D.Disk.may_leave (disk_of self.new) file → Reads (key_of self.new) file (kept ++ appended)) }
        ensures crash { (kept appended : List (List ℕ)) → Stands self.old kept appended
            → CrashLeaves self.new kept appended }
        ensures cause { FailsFor result self.old self.new ⊥ }
        ensures end { end_of self.new ≡ end_of self.old }
        ensures up_to { OnOk result (kept_of self.new ≡ end_of self.new) }
        ensures key { key_of self.new ≡ key_of self.old }
    {
        if let Some(error) = self.failure {
            return Err(error);
        }
        if let Err(error) = self.disk.sync() {
            let error = Error::of_disk(&error);
            self.failure = Some(error);
            return Err(error);
        }
        self.kept = self.end;
        Ok(())
    }

    /// Where the next frame goes: how long the log is, in bytes.
    pub fn end(&self) -> usize
        ensures { result ≡ end_of self.now }
    {
        self.end
    }

    /// Up to where all is on the disk.
    pub fn kept(&self) -> usize
        ensures { result ≡ kept_of self.now }
    {
        self.kept
    }

    /// The disk, as it is.
    pub fn into_disk(self) -> D
        ensures { result ≡ disk_of self }
    {
        let Log {
            disk,
            key: _,
            end: _,
            kept: _,
            failure: _,
        } = self;
        disk
    }

    /// What each call answers since the disk has failed.
    pub fn failure(&self) -> Option<Error>
        ensures { result ≡ failure_of self.now }
    {
        self.failure
    }
}
