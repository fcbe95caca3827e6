//! What a transaction changes in one pipe, kept beside the stable pipe until the commit.
//!
//! Others may take from the front of the stable pipe or append to its back meanwhile. So the
//! changes are no copy of the pipe: they are how many bytes are taken and which are appended, and
//! contracts speak of the view that they give of any stable pipe. Which of the bytes that are taken
//! were stable and which were appended is not kept, since it may be another on another pipe.
#![tactic(auto)]

ghost use Rattle.std.specs.Prelude.{◌≡◌, ◌+◌, ◌-◌, ◌≤◌, ℕ, IfOk, OnOk, OnErr};
ghost use Rattle.std.specs.Prelude.{List, [], ◌++◌, length, take, drop};
ghost use Rattle.ids.specs.declared.limits.TheConstants.{PIPE_CAPACITY};
ghost use Rattle.pipe_shadow.specs.View.{view_over, Reaches};

use heap::Heap;
use ids::Bytes;
use objects::{PIPE_CAPACITY, PipeData, part};
use std::alloc::AllocError;
use std::marker::Model;

/// How many bytes of a pipe are taken, and which are appended. Bytes that are appended and taken
/// again stay in the list, as they stay in the history.
pub struct PipeShadow {
    taken: usize,
    appended: Vec<u8, Heap>,
}

impl Drop for PipeShadow {
    fn drop(self) {
        let PipeShadow {
            taken: _,
            appended: _,
        } = self;
    }
}

impl Model for PipeShadow {
    ghost use Rattle.pipe_shadow.specs.View.{PipeChanges};

    ghost Value = { PipeChanges };

    ghost view = { λ s. record {
      taken = s.taken;
      appended = s.appended.items;
    } };
}

impl PipeShadow {
    /// No changes. It takes no memory.
    pub fn new(heap: Heap) -> PipeShadow
        ensures { result ≡ record { taken = 0; appended = [] } }
    {
        PipeShadow {
            taken: 0,
            appended: Vec::new(heap),
        }
    }

    /// How many bytes the view holds.
    pub fn len(&self, pipe: &PipeData) -> usize
        ensures { result ≡ length (view_over self.now pipe.now) }
    {
        (pipe.len() + self.appended.len()).saturating_sub(self.taken)
    }

    /// A copy of at most `count` bytes from the front of the view. They stay there.
    pub fn read(&self, heap: Heap, pipe: &PipeData, count: usize) -> Result<Bytes, AllocError>
        ensures { IfOk result (λ bytes. bytes ≡ take count (view_over self.now pipe.now)) }
    {
        let stored = pipe.read(heap, self.taken, count)?;
        let own = self.taken.saturating_sub(pipe.len());
        let left = count - stored.as_slice().len();
        Ok(stored.followed_by(heap, part(self.appended.as_slice(), own, left))?)
    }

    /// Takes so many bytes from the front of the view of each pipe that has them. It takes no
    /// memory; `AllocError` says that they are more than can be counted, and nothing is changed.
    pub fn take(&mut self, count: usize) -> Result<(), AllocError>
        ensures view { OnOk result ((xs : List ℕ)
            → view_over self.new xs ≡ drop count (view_over self.old xs)) }
        ensures reaches { OnOk result ((xs : List ℕ) → count ≤ length (view_over self.old xs)
            → Reaches self.old xs → Reaches self.new xs) }
        ensures err { OnErr result (self.new ≡ self.old) }
    {
        let Some(taken) = self.taken.checked_add(count) else {
            return Err(AllocError);
        };
        self.taken = taken;
        Ok(())
    }

    /// Appends bytes to the view of each pipe. That they fit is for the caller to see. Refused
    /// memory changes nothing.
    pub fn append(&mut self, bytes: &[u8]) -> Result<(), AllocError>
        ensures view { OnOk result ((xs : List ℕ) → Reaches self.old xs
            → view_over self.new xs ≡ view_over self.old xs ++ bytes.now) }
        ensures reaches { OnOk result ((xs : List ℕ) → Reaches self.old xs → Reaches self.new xs) }
        ensures err { OnErr result (self.new ≡ self.old) }
    {
        self.appended.extend_from_slice(bytes)
    }

    /// Of a stable pipe with so many bytes, how many are taken from its front, and what is appended
    /// then, so that it becomes the view. It takes no memory.
    pub fn split(&self, len: usize) -> (usize, &[u8])
        ensures taken { result.0 ≤ len }
        ensures view { (xs : List ℕ) → length xs ≡ len
            → drop result.0 xs ++ result.1.now ≡ view_over self.now xs }
    {
        let stable = self.taken.min(len);
        let appended = self.appended.as_slice();
        let left = part(appended, self.taken - stable, appended.len());
        (stable, left)
    }

    /// Makes the view the stable pipe, as others have left it. It takes no memory.
    pub fn commit_into(self, pipe: &mut PipeData)
        requires { length (view_over self pipe.old) ≤ PIPE_CAPACITY }
        ensures { pipe.new ≡ view_over self pipe.old }
    {
        let (taken, appended) = self.split(pipe.len());
        pipe.skip(taken);
        pipe.put(appended);
    }
}
