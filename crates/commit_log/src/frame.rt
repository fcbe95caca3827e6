//! A record as bytes.
ghost use Rattle.std.specs.Prelude.{◌≡◌, ◌^◌, ◌<◌, ◌≤◌, ℕ, List, IfOk, IfSome, IfNone, drop, length};
ghost use Rattle.commit_log.specs.Frame.{content, frame, frame_length};

use crate::number::{bytes_of, number_at};
use sqlite_disk::digest_of;
use std::alloc::{AllocError, Global};

/// How many bytes stand before the payload of a frame.
pub(crate) const HEAD: usize = 32;

/// What the digest of a frame is taken of.
fn content_of(
    alloc: Global,
    place: usize,
    kept: usize,
    payload: &[u8],
) -> Result<Vec<u8>, AllocError>
    ensures { IfOk result (λ bytes. bytes.items ≡ content place kept payload.now) }
{
    let mut content = Vec::new(alloc);
    content.extend_from_slice(&bytes_of(place as u64))?;
    content.extend_from_slice(&bytes_of(kept as u64))?;
    content.extend_from_slice(&bytes_of(payload.len() as u64))?;
    content.extend_from_slice(payload)?;
    Ok(content)
}

/// The frame of a payload at a place, where the file is kept up to `kept`.
pub(crate) fn frame_of(
    alloc: Global,
    key: u64,
    place: usize,
    kept: usize,
    payload: &[u8],
) -> Result<Vec<u8>, AllocError>
    ensures bytes { IfOk result (λ bytes. bytes.items ≡ frame key place kept payload.now) }
    ensures length { IfOk result (λ bytes. length bytes.items ≡ frame_length payload.now) }
{
    let content = content_of(alloc, place, kept, payload)?;
    let mut frame = Vec::new(alloc);
    frame.extend_from_slice(&bytes_of(digest_of(key, &content)))?;
    frame.extend_from_slice(&content)?;
    Ok(frame)
}

/// Up to where these bytes say that the file was kept, if they are a frame of this place.
pub(crate) fn kept_in(key: u64, place: usize, bytes: &[u8]) -> Option<u64>
    requires { 32 ≤ length bytes.now }
    ensures good { IfSome result (λ kept. (kept < 2 ^ 64) × (bytes.now ≡ frame key place kept (drop 32 bytes.now))) }
    ensures none { IfNone result ((kept : ℕ) (payload : List ℕ) → bytes.now ≡ frame key place kept payload → ⊥) }
{
    let (_, content) = bytes.split_at(8);
    let digest = number_at(bytes, 0);
    if digest != digest_of(key, content) {
        return None;
    }
    let own_place = number_at(bytes, 8);
    if own_place != place as u64 {
        return None;
    }
    let length = number_at(bytes, 24);
    if length != (bytes.len() - HEAD) as u64 {
        return None;
    }
    Some(number_at(bytes, 16))
}
