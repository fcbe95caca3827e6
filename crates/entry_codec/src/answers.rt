// Answers: put behind what is there, and read at the front of bytes.
ghost use Rattle.std.specs.Prelude.{◌≡◌, ◌++◌, ◌∷◌, ◌<◌, ◌^◌, OnOk};
ghost use Rattle.entry_codec.specs.Parts.{u32_bytes};
ghost use Rattle.entry_codec.specs.Replies.{AreNames, IsAnswer, IsStat, answer_bytes, names_bytes};
ghost use Rattle.entry_codec.specs.Replies.{stat_bytes};
ghost use Rattle.entry_codec.specs.Reading.{Gives, items_at, text_at};
ghost use Rattle.entry_codec.specs.ReadingReplies.{answer_at, names_at, stat_at};

use crate::fault::{ReadError, Wrong, fault_at};
use crate::numbers::*;
use crate::parts::{
    byte_of, name_of, put_byte, put_size, put_text, put_u32, put_u64, size_of, text_of, u32_of,
    u64_of,
};
use crate::rights::{put_rights, rights_of};
use crate::variants::{kind_number, kind_of};
use heap::Heap;
use ids::{Answer, Fd, Name, NameList, Num, Pid, Stat};
use std::alloc::AllocError;

fn put_stat(out: &mut Vec<u8, Heap>, stat: &Stat) -> Result<(), AllocError>
    ensures put { OnOk result (out.new.items ≡ out.old.items ++ stat_bytes stat.now) }
    ensures fits { OnOk result (IsStat stat.now) }
{
    put_byte(out, kind_number(stat.kind))?;
    put_u64(out, stat.num.0 as u64)?;
    put_u32(out, stat.size)?;
    put_u32(out, stat.links)?;
    put_rights(out, stat.rights)
}

fn put_names(out: &mut Vec<u8, Heap>, names: &[Name]) -> Result<(), AllocError>
    ensures put { OnOk result (out.new.items ≡ out.old.items ++ names_bytes names.now) }
    ensures fits { OnOk result (AreNames names.now) }
{
    put_size(out, names.len())?;
    for name in names {
        put_text(out, name.as_slice())?;
    }
    Ok(())
}

// The number of an answer, and one number.
fn put_number(out: &mut Vec<u8, Heap>, variant: u8, number: u32) -> Result<(), AllocError>
    ensures put { OnOk result (out.new.items ≡ out.old.items ++ (variant ∷ u32_bytes number)) }
    ensures fits { OnOk result (number < 2 ^ 32) }
{
    put_byte(out, variant)?;
    put_u32(out, number)
}

#[tactic(auto, unfolding(crate::specs::Replies::answer_bytes, crate::specs::Replies::IsAnswer))]
pub(crate) fn put_answer(out: &mut Vec<u8, Heap>, answer: &Answer) -> Result<(), AllocError>
    ensures put { OnOk result (out.new.items ≡ out.old.items ++ answer_bytes answer.now) }
    ensures fits { OnOk result (IsAnswer answer.now) }
{
    match answer {
        Answer::Done => put_byte(out, ANSWER_DONE),
        Answer::Fd(fd) => put_number(out, ANSWER_FD, fd.0),
        Answer::Count(count) => put_number(out, ANSWER_COUNT, *count),
        Answer::Place(place) => put_number(out, ANSWER_PLACE, *place),
        Answer::Bytes(bytes) => {
            put_byte(out, ANSWER_BYTES)?;
            put_text(out, bytes.as_slice())
        }
        Answer::Pair(reader, writer) => {
            put_number(out, ANSWER_PAIR, reader.0)?;
            put_u32(out, writer.0)
        }
        Answer::Stat(stat) => {
            put_byte(out, ANSWER_STAT)?;
            put_stat(out, stat)
        }
        Answer::Names(names) => {
            put_byte(out, ANSWER_NAMES)?;
            put_names(out, names.as_slice())
        }
        Answer::Child(pid) => put_number(out, ANSWER_CHILD, pid.0),
    }
}

// ---- read

#[tactic(auto, unfolding(crate::specs::ReadingReplies::stat_at))]
fn stat_of(bytes: &[u8]) -> Result<(Stat, &[u8]), ReadError>
    ensures { Gives (λ x. (x.0, x.1.now)) result (stat_at bytes.now) }
{
    let (kind, rest) = kind_of(bytes)?;
    let (num, rest) = u64_of(rest)?;
    let num = Num(num as usize);
    let (size, rest) = u32_of(rest)?;
    let (links, rest) = u32_of(rest)?;
    match rights_of(rest) {
        Ok((rights, rest)) => Ok((
            Stat {
                kind,
                num,
                size,
                links,
                rights,
            },
            rest,
        )),
        Err(e) => Err(e),
    }
}

// Memory grows with what is read, whatever the count.
fn counted_names_of(
    heap: Heap,
    count: usize,
    bytes: &[u8],
) -> Result<(Vec<Name, Heap>, &[u8]), ReadError>
    ensures { Gives (λ x. (x.0.items, x.1.now)) result (items_at text_at count bytes.now) }
{
    let mut names = Vec::new(heap);
    let mut rest = bytes;
    for _ in 0..count {
        let (name, after) = name_of(heap, rest)?;
        names.push(name)?;
        rest = after;
    }
    Ok((names, rest))
}

fn names_of(heap: Heap, bytes: &[u8]) -> Result<(NameList, &[u8]), ReadError>
    ensures { Gives (λ x. (x.0, x.1.now)) result (names_at bytes.now) }
{
    let (count, rest) = size_of(bytes)?;
    let (names, rest) = counted_names_of(heap, count, rest)?;
    Ok((NameList::new(names), rest))
}

#[tactic(auto, unfolding(crate::specs::ReadingReplies::answer_of))]
pub(crate) fn answer_of(heap: Heap, bytes: &[u8]) -> Result<(Answer, &[u8]), ReadError>
    ensures { Gives (λ x. (x.0, x.1.now)) result (answer_at bytes.now) }
{
    let (number, rest) = byte_of(bytes)?;
    match number {
        ANSWER_DONE => Ok((Answer::Done, rest)),
        ANSWER_FD => {
            let (fd, rest) = u32_of(rest)?;
            Ok((Answer::Fd(Fd(fd)), rest))
        }
        ANSWER_COUNT => {
            let (count, rest) = u32_of(rest)?;
            Ok((Answer::Count(count), rest))
        }
        ANSWER_PLACE => {
            let (place, rest) = u32_of(rest)?;
            Ok((Answer::Place(place), rest))
        }
        ANSWER_BYTES => {
            let (bytes, rest) = text_of(heap, rest)?;
            Ok((Answer::Bytes(bytes), rest))
        }
        ANSWER_PAIR => {
            let (reader, rest) = u32_of(rest)?;
            let (writer, rest) = u32_of(rest)?;
            Ok((Answer::Pair(Fd(reader), Fd(writer)), rest))
        }
        ANSWER_STAT => match stat_of(rest) {
            Ok((stat, rest)) => Ok((Answer::Stat(stat), rest)),
            Err(e) => Err(e),
        },
        ANSWER_NAMES => {
            let (names, rest) = names_of(heap, rest)?;
            Ok((Answer::Names(names), rest))
        }
        ANSWER_CHILD => {
            let (pid, rest) = u32_of(rest)?;
            Ok((Answer::Child(Pid(pid)), rest))
        }
        _ => Err(fault_at(Wrong::Variant, rest)),
    }
}
