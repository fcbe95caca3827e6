// Names in the bodies of requests.
ghost use Rattle.std.specs.Prelude.{◌≡◌, ◌==◌, ◌≤◌, ◌<◌, length, position};
ghost use Rattle.std.specs.Prelude.{IfSome, OnOk, Some, option_map};
ghost use Rattle.fuse.specs.Bodies.{behind};
ghost use Rattle.fuse.specs.Faults.{Reads};
ghost use Rattle.fuse.specs.Names.{first_name_in, is_name, name_and_text_in, name_in, names_in};
ghost use Rattle.fuse.specs.Names.{text_in};

use crate::fault::BodyFault;
use heap::Heap;
use ids::Bytes;

// Where the first zero byte stands.
fn first_zero(bytes: &[u8]) -> Option<usize>
    ensures value { result ≡ position (λ b. b == 0) bytes.now }
    ensures within { IfSome result (λ end. end < length bytes.now) }
{
    bytes.iter().position(|byte| *byte == 0)
}

// Whether the bytes are a name.
fn is_name(bytes: &[u8]) -> bool
    ensures { result ≡ is_name bytes.now }
{
    !bytes.is_empty() && !bytes.contains(&b'/')
}

// The name that ends at the first zero byte, and the bytes behind that.
#[tactic(auto, unfolding(crate::specs::Names::first_name_in))]
fn first_name(bytes: &[u8]) -> Option<(&[u8], &[u8])>
    ensures { option_map (λ p. (p.0.now, p.1.now)) result ≡ first_name_in bytes.now }
{
    let end = first_zero(bytes)?;
    let name = &bytes[..end];
    if is_name(name) {
        Some((name, &bytes[end + 1..]))
    } else {
        None
    }
}

// The name that the bytes are.
#[tactic(auto, unfolding(crate::specs::Names::name_in))]
fn one_name(bytes: &[u8]) -> Option<&[u8]>
    ensures { option_map (λ name. name.now) result ≡ name_in bytes.now }
{
    let (name, rest) = first_name(bytes)?;
    if rest.is_empty() { Some(name) } else { None }
}

// The two names that the bytes are.
#[tactic(auto, unfolding(crate::specs::Names::names_in))]
fn two_names(bytes: &[u8]) -> Option<(&[u8], &[u8])>
    ensures { option_map (λ p. (p.0.now, p.1.now)) result ≡ names_in bytes.now }
{
    let (first, rest) = first_name(bytes)?;
    let second = one_name(rest)?;
    Some((first, second))
}

// The text that the bytes are.
#[tactic(auto, unfolding(crate::specs::Names::text_in))]
fn one_text(bytes: &[u8]) -> Option<&[u8]>
    ensures { option_map (λ text. text.now) result ≡ text_in bytes.now }
{
    let end = first_zero(bytes)?;
    if end + 1 == bytes.len() {
        Some(&bytes[..end])
    } else {
        None
    }
}

// The name and the text behind it that the bytes are.
#[tactic(auto, unfolding(crate::specs::Names::name_and_text_in))]
fn name_and_text(bytes: &[u8]) -> Option<(&[u8], &[u8])>
    ensures { option_map (λ p. (p.0.now, p.1.now)) result ≡ name_and_text_in bytes.now }
{
    let (name, rest) = first_name(bytes)?;
    let text = one_text(rest)?;
    Some((name, text))
}

// A copy of a name, or of a text.
fn owned(heap: Heap, name: &[u8]) -> Result<Bytes, BodyFault>
    ensures { Reads (Some name.now) result }
{
    match Bytes::copy(heap, name) {
        Ok(bytes) => Ok(bytes),
        Err(_) => Err(BodyFault::NoMemory),
    }
}

// The name that a body is.
pub(crate) fn name_of(heap: Heap, body: &[u8]) -> Result<Bytes, BodyFault>
    ensures { Reads (name_in body.now) result }
{
    let Some(name) = one_name(body) else {
        return Err(BodyFault::Malformed);
    };
    owned(heap, name)
}

// The name that a body is behind so many bytes.
pub(crate) fn name_behind(heap: Heap, body: &[u8], offset: usize) -> Result<Bytes, BodyFault>
    ensures name { Reads (behind offset name_in body.now) result }
    ensures long { OnOk result (offset ≤ length body.now) }
{
    if body.len() < offset {
        return Err(BodyFault::Malformed);
    }
    name_of(heap, &body[offset..])
}

// The two names that a body is.
fn names_of(heap: Heap, body: &[u8]) -> Result<(Bytes, Bytes), BodyFault>
    ensures { Reads (names_in body.now) result }
{
    let Some((first, second)) = two_names(body) else {
        return Err(BodyFault::Malformed);
    };
    Ok((owned(heap, first)?, owned(heap, second)?))
}

// The two names that a body is behind so many bytes.
pub(crate) fn names_behind(
    heap: Heap,
    body: &[u8],
    offset: usize,
) -> Result<(Bytes, Bytes), BodyFault>
    ensures names { Reads (behind offset names_in body.now) result }
    ensures long { OnOk result (offset ≤ length body.now) }
{
    if body.len() < offset {
        return Err(BodyFault::Malformed);
    }
    names_of(heap, &body[offset..])
}

// The name and the text behind it that a body is.
pub(crate) fn name_and_text_of(heap: Heap, body: &[u8]) -> Result<(Bytes, Bytes), BodyFault>
    ensures { Reads (name_and_text_in body.now) result }
{
    let Some((name, text)) = name_and_text(body) else {
        return Err(BodyFault::Malformed);
    };
    Ok((owned(heap, name)?, owned(heap, text)?))
}
