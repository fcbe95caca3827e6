// The fields of which all else is made: numbers and bytes.
ghost use Rattle.std.specs.Prelude.{◌≡◌, ◌++◌, ◌∷◌, [], ◌<◌, ◌^◌, IfSome, OnOk};
ghost use Rattle.std.specs.Int.{w16, w32, w64};
ghost use Rattle.entry_codec.specs.Parts.{IsText, flag_bytes, optional_bytes, signed_bytes};
ghost use Rattle.entry_codec.specs.Parts.{size_bytes, text_bytes, u16_bytes, u32_bytes, u64_bytes};
ghost use Rattle.entry_codec.specs.Reading.{Gives, byte_at, flag_at, number_at, optional_at};
ghost use Rattle.entry_codec.specs.Reading.{signed_at, size_at, text_at};

use crate::fault::{ReadError, Wrong, fault_at};
use heap::Heap;
use ids::{Bytes, Name};
use std::alloc::AllocError;

// A size below this is one byte. This byte stands before the eight bytes of another.
const WIDE: u8 = 255;

// ---- put behind what is there

pub(crate) fn put_byte(out: &mut Vec<u8, Heap>, byte: u8) -> Result<(), AllocError>
    ensures { OnOk result (out.new.items ≡ out.old.items ++ byte ∷ []) }
{
    out.push(byte)?;
    Ok(())
}

#[tactic(auto, unfolding(crate::specs::Parts::u16_bytes))]
pub(crate) fn put_u16(out: &mut Vec<u8, Heap>, number: u16) -> Result<(), AllocError>
    ensures { OnOk result (out.new.items ≡ out.old.items ++ u16_bytes number) }
{
    out.extend_from_slice(&number.to_le_bytes())?;
    Ok(())
}

#[tactic(auto, unfolding(crate::specs::Parts::u32_bytes))]
pub(crate) fn put_u32(out: &mut Vec<u8, Heap>, number: u32) -> Result<(), AllocError>
    ensures { OnOk result (out.new.items ≡ out.old.items ++ u32_bytes number) }
{
    out.extend_from_slice(&number.to_le_bytes())?;
    Ok(())
}

#[tactic(auto, unfolding(crate::specs::Parts::u64_bytes))]
pub(crate) fn put_u64(out: &mut Vec<u8, Heap>, number: u64) -> Result<(), AllocError>
    ensures { OnOk result (out.new.items ≡ out.old.items ++ u64_bytes number) }
{
    out.extend_from_slice(&number.to_le_bytes())?;
    Ok(())
}

#[tactic(auto, unfolding(crate::specs::Parts::signed_bytes, crate::specs::Parts::u64_bytes))]
pub(crate) fn put_signed(out: &mut Vec<u8, Heap>, number: i64) -> Result<(), AllocError>
    ensures { OnOk result (out.new.items ≡ out.old.items ++ signed_bytes number) }
{
    out.extend_from_slice(&number.to_le_bytes())?;
    Ok(())
}

#[tactic(auto, unfolding(crate::specs::Parts::size_bytes))]
pub(crate) fn put_size(out: &mut Vec<u8, Heap>, size: usize) -> Result<(), AllocError>
    ensures { OnOk result (out.new.items ≡ out.old.items ++ size_bytes size) }
{
    if size < WIDE as usize {
        out.push(size as u8)?;
    } else {
        out.push(WIDE)?;
        put_u64(out, size as u64)?;
    }
    Ok(())
}

pub(crate) fn put_text(out: &mut Vec<u8, Heap>, text: &[u8]) -> Result<(), AllocError>
    ensures put { OnOk result (out.new.items ≡ out.old.items ++ text_bytes text.now) }
    ensures fits { OnOk result (IsText text.now) }
{
    put_size(out, text.len())?;
    out.extend_from_slice(text)?;
    Ok(())
}

#[tactic(auto, unfolding(crate::specs::Parts::flag_bytes))]
pub(crate) fn put_flag(out: &mut Vec<u8, Heap>, flag: bool) -> Result<(), AllocError>
    ensures { OnOk result (out.new.items ≡ out.old.items ++ flag_bytes flag) }
{
    if flag {
        out.push(1)?;
    } else {
        out.push(0)?;
    }
    Ok(())
}

#[tactic(auto, unfolding(crate::specs::Parts::optional_bytes))]
pub(crate) fn put_optional(out: &mut Vec<u8, Heap>, number: Option<u32>) -> Result<(), AllocError>
    ensures put { OnOk result (out.new.items ≡ out.old.items ++ optional_bytes number) }
    ensures fits { OnOk result (IfSome number (λ n. n < 2 ^ 32)) }
{
    match number {
        None => {
            out.push(0)?;
        }
        Some(number) => {
            out.push(1)?;
            put_u32(out, number)?;
        }
    }
    Ok(())
}

// ---- read at the front, with the bytes behind

pub(crate) fn byte_of(bytes: &[u8]) -> Result<(u8, &[u8]), ReadError>
    ensures { Gives (λ x. (x.0, x.1.now)) result (byte_at bytes.now) }
{
    match bytes {
        [] => Err(fault_at(Wrong::Short, bytes)),
        [byte, rest @ ..] => Ok((*byte, rest)),
    }
}

pub(crate) fn u16_of(bytes: &[u8]) -> Result<(u16, &[u8]), ReadError>
    ensures { Gives (λ x. (x.0, x.1.now)) result (number_at w16 bytes.now) }
{
    if bytes.len() < 2 {
        return Err(fault_at(Wrong::Short, bytes));
    }
    let (front, rest) = bytes.split_at(2);
    let number = u16::from_le_bytes([front[0], front[1]]);
    Ok((number, rest))
}

pub(crate) fn u32_of(bytes: &[u8]) -> Result<(u32, &[u8]), ReadError>
    ensures { Gives (λ x. (x.0, x.1.now)) result (number_at w32 bytes.now) }
{
    if bytes.len() < 4 {
        return Err(fault_at(Wrong::Short, bytes));
    }
    let (front, rest) = bytes.split_at(4);
    let number = u32::from_le_bytes([front[0], front[1], front[2], front[3]]);
    Ok((number, rest))
}

pub(crate) fn u64_of(bytes: &[u8]) -> Result<(u64, &[u8]), ReadError>
    ensures { Gives (λ x. (x.0, x.1.now)) result (number_at w64 bytes.now) }
{
    if bytes.len() < 8 {
        return Err(fault_at(Wrong::Short, bytes));
    }
    let (front, rest) = bytes.split_at(8);
    let number = u64::from_le_bytes([
        front[0], front[1], front[2], front[3], front[4], front[5], front[6], front[7],
    ]);
    Ok((number, rest))
}

pub(crate) fn signed_of(bytes: &[u8]) -> Result<(i64, &[u8]), ReadError>
    ensures { Gives (λ x. (x.0, x.1.now)) result (signed_at bytes.now) }
{
    let (number, rest) = u64_of(bytes)?;
    Ok((number.cast_signed(), rest))
}

#[tactic(auto, unfolding(crate::specs::Reading::size_at))]
pub(crate) fn size_of(bytes: &[u8]) -> Result<(usize, &[u8]), ReadError>
    ensures { Gives (λ x. (x.0, x.1.now)) result (size_at bytes.now) }
{
    let (small, rest) = byte_of(bytes)?;
    if small < WIDE {
        return Ok((small as usize, rest));
    }
    let (size, rest) = u64_of(rest)?;
    if size < WIDE as u64 {
        return Err(fault_at(Wrong::Long, rest));
    }
    Ok((size as usize, rest))
}

// The bytes behind their size. No memory is asked for.
#[tactic(auto, unfolding(crate::specs::Reading::text_at))]
fn text_in(bytes: &[u8]) -> Result<(&[u8], &[u8]), ReadError>
    ensures { Gives (λ x. (x.0.now, x.1.now)) result (text_at bytes.now) }
{
    let (size, rest) = size_of(bytes)?;
    if rest.len() < size {
        return Err(fault_at(Wrong::Short, rest));
    }
    let (text, rest) = rest.split_at(size);
    Ok((text, rest))
}

pub(crate) fn text_of(heap: Heap, bytes: &[u8]) -> Result<(Bytes, &[u8]), ReadError>
    ensures { Gives (λ x. (x.0, x.1.now)) result (text_at bytes.now) }
{
    let (text, rest) = text_in(bytes)?;
    Ok((Bytes::copy(heap, text)?, rest))
}

pub(crate) fn name_of(heap: Heap, bytes: &[u8]) -> Result<(Name, &[u8]), ReadError>
    ensures { Gives (λ x. (x.0, x.1.now)) result (text_at bytes.now) }
{
    let (text, rest) = text_in(bytes)?;
    Ok((Name::copy(heap, text)?, rest))
}

#[tactic(auto, unfolding(crate::specs::Reading::flag_at))]
pub(crate) fn flag_of(bytes: &[u8]) -> Result<(bool, &[u8]), ReadError>
    ensures { Gives (λ x. (x.0, x.1.now)) result (flag_at bytes.now) }
{
    let (number, rest) = byte_of(bytes)?;
    match number {
        0 => Ok((false, rest)),
        1 => Ok((true, rest)),
        _ => Err(fault_at(Wrong::Flag, rest)),
    }
}

#[tactic(auto, unfolding(crate::specs::Reading::optional_at))]
pub(crate) fn optional_of(bytes: &[u8]) -> Result<(Option<u32>, &[u8]), ReadError>
    ensures { Gives (λ x. (x.0, x.1.now)) result (optional_at bytes.now) }
{
    let (is_set, rest) = flag_of(bytes)?;
    if !is_set {
        return Ok((None, rest));
    }
    let (number, rest) = u32_of(rest)?;
    Ok((Some(number), rest))
}
