// What a symbolic link holds.
ghost use Rattle.std.specs.Prelude.{◌≡◌, ◌<◌, ◌≤◌, ◌↔◌, IfOk, IfSome, IsSome, length};
ghost use Rattle.ids.specs.declared.limits.TheConstants.{TARGET_LIMIT};

use crate::bytes::Bytes;
use crate::limits::TARGET_LIMIT;
use std::alloc::AllocError;
use std::marker::Model;

/// The target of a symbolic link: 1 to [`TARGET_LIMIT`] bytes. That none of them is zero is for the
/// call that makes the link. Contracts see it as a list.
#[derive(Debug)]
pub struct Target {
    bytes: Bytes,
}

impl Drop for Target {
    fn drop(self) {
        let Target { bytes: _ } = self;
    }
}

impl Model for Target {
    ghost use Rattle.std.specs.Prelude.{List, ℕ, ◌<◌, ◌≤◌, length};
    ghost use Rattle.ids.specs.declared.limits.TheConstants.{TARGET_LIMIT};

    ghost Value = { List ℕ };

    ghost view = { λ t. t.bytes };

    ghost invariant = { λ t. (0 < length t.bytes) × (length t.bytes ≤ TARGET_LIMIT) };
}

impl Target {
    /// The target of these bytes, or `None` exactly where there are none, or more than
    /// [`TARGET_LIMIT`].
    pub fn new(bytes: Bytes) -> Option<Target>
        ensures value { IfSome result (λ t. t ≡ bytes) }
        ensures exactly { IsSome result
            ↔ ((0 < length bytes) × (length bytes ≤ TARGET_LIMIT)) }
    {
        let len = bytes.as_slice().len();
        if 0 < len && len <= TARGET_LIMIT {
            Some(Target { bytes })
        } else {
            None
        }
    }

    /// The bytes, in order: at least one, and at most [`TARGET_LIMIT`].
    pub fn as_slice(&self) -> &[u8]
        ensures value { result.now ≡ self.now }
        ensures some { 0 < length result.now }
        ensures small { length result.now ≤ TARGET_LIMIT }
    {
        self.bytes.as_slice()
    }

    /// A copy on the same allocator. Refused memory changes nothing.
    pub fn try_clone(&self) -> Result<Target, AllocError>
        ensures { IfOk result (λ copy. copy ≡ self.now) }
    {
        Ok(Target {
            bytes: self.bytes.try_clone()?,
        })
    }
}
