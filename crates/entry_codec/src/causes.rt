// Why operations are aborted or put off: put behind what is there, and read at the front of bytes.
ghost use Rattle.std.specs.Prelude.{◌≡◌, ◌++◌, ◌∷◌, ◌<◌, ◌^◌, OnOk};
ghost use Rattle.entry_codec.specs.Parts.{u64_bytes};
ghost use Rattle.entry_codec.specs.Replies.{IsAspect, IsCause, IsWhy, aspect_bytes, cause_bytes};
ghost use Rattle.entry_codec.specs.Replies.{touch_bytes, why_bytes};
ghost use Rattle.entry_codec.specs.Reading.{Gives};
ghost use Rattle.entry_codec.specs.ReadingReplies.{aspect_at, aspect_of, cause_at, other_aspect_of};
ghost use Rattle.entry_codec.specs.ReadingReplies.{touch_at, why_at};

use crate::fault::{ReadError, Wrong, fault_at};
use crate::numbers::*;
use crate::parts::{
    byte_of, flag_of, name_of, put_byte, put_flag, put_text, put_u32, put_u64, u32_of, u64_of,
};
use heap::Heap;
use ids::{Aspect, Cause, Num, Pid, Touch, Why};
use std::alloc::AllocError;

// The number of an aspect, and that of its object.
fn put_object(out: &mut Vec<u8, Heap>, number: u8, object: Num) -> Result<(), AllocError>
    ensures put { OnOk result (out.new.items ≡ out.old.items ++ (number ∷ u64_bytes object)) }
    ensures fits { OnOk result (object < 2 ^ 64) }
{
    put_byte(out, number)?;
    put_u64(out, object.0 as u64)
}

#[tactic(auto, unfolding(crate::specs::Replies::aspect_bytes, crate::specs::Replies::IsAspect))]
fn put_aspect(out: &mut Vec<u8, Heap>, aspect: &Aspect) -> Result<(), AllocError>
    ensures put { OnOk result (out.new.items ≡ out.old.items ++ aspect_bytes aspect.now) }
    ensures fits { OnOk result (IsAspect aspect.now) }
{
    match aspect {
        Aspect::Entry(directory, name) => {
            put_object(out, ASPECT_ENTRY, *directory)?;
            put_text(out, name.as_slice())
        }
        Aspect::Names(directory) => put_object(out, ASPECT_NAMES, *directory),
        Aspect::Size(file) => put_object(out, ASPECT_SIZE, *file),
        Aspect::Block(file, block) => {
            put_object(out, ASPECT_BLOCK, *file)?;
            put_u32(out, *block)
        }
        Aspect::Links(file) => put_object(out, ASPECT_LINKS, *file),
        Aspect::Ends(pipe) => put_object(out, ASPECT_ENDS, *pipe),
        Aspect::Offset(description) => put_object(out, ASPECT_OFFSET, *description),
        Aspect::Front(pipe) => put_object(out, ASPECT_FRONT, *pipe),
        Aspect::Back(pipe) => put_object(out, ASPECT_BACK, *pipe),
        Aspect::Target(link) => put_object(out, ASPECT_TARGET, *link),
        Aspect::Rights(inode) => put_object(out, ASPECT_RIGHTS, *inode),
    }
}

fn put_touch(out: &mut Vec<u8, Heap>, touch: &Touch) -> Result<(), AllocError>
    ensures put { OnOk result (out.new.items ≡ out.old.items ++ touch_bytes touch.now) }
    ensures fits { OnOk result (IsAspect touch.now.aspect) }
{
    put_aspect(out, &touch.aspect)?;
    put_flag(out, touch.write)
}

pub(crate) fn put_cause(out: &mut Vec<u8, Heap>, cause: &Cause) -> Result<(), AllocError>
    ensures put { OnOk result (out.new.items ≡ out.old.items ++ cause_bytes cause.now) }
    ensures fits { OnOk result (IsCause cause.now) }
{
    put_touch(out, &cause.touch)?;
    put_u32(out, cause.other.0)
}

#[tactic(auto, unfolding(crate::specs::Replies::why_bytes, crate::specs::Replies::IsWhy))]
pub(crate) fn put_why(out: &mut Vec<u8, Heap>, why: &Why) -> Result<(), AllocError>
    ensures put { OnOk result (out.new.items ≡ out.old.items ++ why_bytes why.now) }
    ensures fits { OnOk result (IsWhy why.now) }
{
    match why {
        Why::Clash(cause) => {
            put_byte(out, WHY_CLASH)?;
            put_cause(out, cause)
        }
        Why::Unsupported => put_byte(out, WHY_UNSUPPORTED),
    }
}

// ---- read

// Of pipes, descriptions, links and rights.
#[tactic(auto, unfolding(crate::specs::ReadingReplies::other_aspect_of))]
fn other_aspect_of(number: u8, rest: &[u8]) -> Result<(Aspect, &[u8]), ReadError>
    ensures { Gives (λ x. (x.0, x.1.now)) result (other_aspect_of number rest.now) }
{
    match number {
        ASPECT_ENDS => {
            let (pipe, rest) = u64_of(rest)?;
            Ok((Aspect::Ends(Num(pipe as usize)), rest))
        }
        ASPECT_OFFSET => {
            let (description, rest) = u64_of(rest)?;
            Ok((Aspect::Offset(Num(description as usize)), rest))
        }
        ASPECT_FRONT => {
            let (pipe, rest) = u64_of(rest)?;
            Ok((Aspect::Front(Num(pipe as usize)), rest))
        }
        ASPECT_BACK => {
            let (pipe, rest) = u64_of(rest)?;
            Ok((Aspect::Back(Num(pipe as usize)), rest))
        }
        ASPECT_TARGET => {
            let (link, rest) = u64_of(rest)?;
            Ok((Aspect::Target(Num(link as usize)), rest))
        }
        ASPECT_RIGHTS => {
            let (inode, rest) = u64_of(rest)?;
            Ok((Aspect::Rights(Num(inode as usize)), rest))
        }
        _ => Err(fault_at(Wrong::Variant, rest)),
    }
}

// Of directories and files, and all others.
#[tactic(auto, unfolding(crate::specs::ReadingReplies::aspect_of))]
fn numbered_aspect_of(heap: Heap, number: u8, rest: &[u8]) -> Result<(Aspect, &[u8]), ReadError>
    ensures { Gives (λ x. (x.0, x.1.now)) result (aspect_of number rest.now) }
{
    match number {
        ASPECT_ENTRY => {
            let (directory, rest) = u64_of(rest)?;
            let (name, rest) = name_of(heap, rest)?;
            Ok((Aspect::Entry(Num(directory as usize), name), rest))
        }
        ASPECT_NAMES => {
            let (directory, rest) = u64_of(rest)?;
            Ok((Aspect::Names(Num(directory as usize)), rest))
        }
        ASPECT_SIZE => {
            let (file, rest) = u64_of(rest)?;
            Ok((Aspect::Size(Num(file as usize)), rest))
        }
        ASPECT_BLOCK => {
            let (file, rest) = u64_of(rest)?;
            let (block, rest) = u32_of(rest)?;
            Ok((Aspect::Block(Num(file as usize), block), rest))
        }
        ASPECT_LINKS => {
            let (file, rest) = u64_of(rest)?;
            Ok((Aspect::Links(Num(file as usize)), rest))
        }
        _ => other_aspect_of(number, rest),
    }
}

fn aspect_of(heap: Heap, bytes: &[u8]) -> Result<(Aspect, &[u8]), ReadError>
    ensures { Gives (λ x. (x.0, x.1.now)) result (aspect_at bytes.now) }
{
    let (number, rest) = byte_of(bytes)?;
    numbered_aspect_of(heap, number, rest)
}

#[tactic(auto, unfolding(crate::specs::ReadingReplies::touch_at))]
fn touch_of(heap: Heap, bytes: &[u8]) -> Result<(Touch, &[u8]), ReadError>
    ensures { Gives (λ x. (x.0, x.1.now)) result (touch_at bytes.now) }
{
    let (aspect, rest) = aspect_of(heap, bytes)?;
    let (write, rest) = flag_of(rest)?;
    Ok((Touch { aspect, write }, rest))
}

#[tactic(auto, unfolding(crate::specs::ReadingReplies::cause_at))]
pub(crate) fn cause_of(heap: Heap, bytes: &[u8]) -> Result<(Cause, &[u8]), ReadError>
    ensures { Gives (λ x. (x.0, x.1.now)) result (cause_at bytes.now) }
{
    let (touch, rest) = touch_of(heap, bytes)?;
    let (other, rest) = u32_of(rest)?;
    let other = Pid(other);
    Ok((Cause { touch, other }, rest))
}

#[tactic(auto, unfolding(crate::specs::ReadingReplies::why_of))]
pub(crate) fn why_of(heap: Heap, bytes: &[u8]) -> Result<(Why, &[u8]), ReadError>
    ensures { Gives (λ x. (x.0, x.1.now)) result (why_at bytes.now) }
{
    let (number, rest) = byte_of(bytes)?;
    match number {
        WHY_CLASH => {
            let (cause, rest) = cause_of(heap, rest)?;
            Ok((Why::Clash(cause), rest))
        }
        WHY_UNSUPPORTED => Ok((Why::Unsupported, rest)),
        _ => Err(fault_at(Wrong::Variant, rest)),
    }
}
