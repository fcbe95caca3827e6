//! Files, pipes and open file descriptions: their bytes, offsets and counts.
//! A number that is of no such object does not change.
ghost use Rattle.std.specs.Prelude.{◌≡◌, ◌+◌, ◌≤◌, ◌<◌, ◌^◌, IsSome, Some, option_and_then, option_map};
ghost use Rattle.std.specs.Prelude.{OnOk, OnErr, length};
ghost use Rattle.ids.specs.declared.limits.TheConstants.{LARGEST_FILE};
ghost use Rattle.model.specs.Changes.{written};
ghost use Rattle.slab.specs.Slab.{get, Updates};
ghost use Rattle.store.specs.Headers.{at_place, place_at};
ghost use Rattle.store.specs.Numbers.{coming, held, present};
ghost use Rattle.store.specs.Places.{changed_file, changed_opened, changed_pipe, file_in, file_of};
ghost use Rattle.store.specs.Places.{IsRoomy, holders_of, passed, pipe_of, with_pipe};
ghost use Rattle.store.specs.Places.{less_holders, less_openings, more_holders, more_openings};
ghost use Rattle.store.specs.Places.{moved_to, opened_in, opened_of, openings_of, with_bytes};
ghost use Rattle.store.specs.Places.{content_of, Refilled, with_file, with_opened};
ghost use Rattle.store.specs.declared.Object.TheVariants.{Nothing};
ghost use Rattle.store.specs.declared.Place.{Place};

use crate::{Header, Object, Stage};
use heap::Heap;
use objects::FileData;
use slab::Slab;
use std::alloc::AllocError;
use std::mem::replace;

/// A number for an object to come stands for this one from now on, which is shown.
pub fn settle_at(headers: &mut Slab<Header, Heap>, key: usize, object: Object)
    requires { place_at headers.old key ≡ Some (coming Nothing) }
    ensures { Updates headers.old headers.new key
        (option_map (at_place (λ p. present object)) (get headers.old key)) }
{
    if let Some(header) = headers.get_mut(key) {
        header.place.stage = Stage::Held;
        header.place.object = object;
    }
}

/// Puts other bytes in the place of a file's, which are answered.
pub fn swap_file_at(headers: &mut Slab<Header, Heap>, key: usize, bytes: FileData) -> FileData
    requires { IsSome (option_and_then file_of (held (place_at headers.old key))) }
    ensures former { option_map (λ f. f.bytes) (file_in (place_at headers.old key)) ≡ Some result }
    ensures swapped { Updates headers.old headers.new key
        (option_map (at_place (with_file (with_bytes bytes))) (get headers.old key)) }
{
    match headers.get_mut(key) {
        Some(header) => swap_file_in(&mut header.place.object, bytes),
        None => unreachable!(),
    }
}

fn swap_file_in(object: &mut Object, bytes: FileData) -> FileData
    requires { IsSome (file_of object.old) }
    ensures former { option_map (λ f. f.bytes) (file_of object.old) ≡ Some result }
    ensures swapped { object.new ≡ changed_file (with_bytes bytes) object.old }
{
    match object {
        Object::File(file) => replace(&mut file.bytes, bytes),
        Object::Pipe(_) => unreachable!(),
        Object::Fixed(_) => unreachable!(),
        Object::Directory(_) => unreachable!(),
        Object::Description(_) => unreachable!(),
        Object::Nothing => unreachable!(),
    }
}

/// Writes bytes into a file from an offset on. Refused memory changes no byte.
pub fn write_file_at(
    headers: &mut Slab<Header, Heap>,
    key: usize,
    offset: usize,
    bytes: &[u8],
) -> Result<(), AllocError>
    requires file { IsSome (option_and_then file_of (held (place_at headers.old key))) }
    requires small { offset + length bytes.now ≤ LARGEST_FILE }
    ensures ok { OnOk result (Refilled
        (written (content_of (file_in (place_at headers.old key))).bytes offset bytes.now)
        (λ content. Updates headers.old headers.new key
        (option_map (at_place (with_file (with_bytes content))) (get headers.old key)))) }
    ensures err { OnErr result (Refilled (content_of (file_in (place_at headers.old key))).bytes
        (λ content. Updates headers.old headers.new key
        (option_map (at_place (with_file (with_bytes content))) (get headers.old key)))) }
{
    match headers.get_mut(key) {
        Some(header) => write_file_in(&mut header.place.object, offset, bytes),
        None => unreachable!(),
    }
}

fn write_file_in(object: &mut Object, offset: usize, bytes: &[u8]) -> Result<(), AllocError>
    requires file { IsSome (file_of object.old) }
    requires small { offset + length bytes.now ≤ LARGEST_FILE }
    ensures ok { OnOk result (Refilled
        (written (content_of (file_of object.old)).bytes offset bytes.now)
        (λ content. object.new ≡ changed_file (with_bytes content) object.old)) }
    ensures err { OnErr result (Refilled (content_of (file_of object.old)).bytes
        (λ content. object.new ≡ changed_file (with_bytes content) object.old)) }
{
    match object {
        Object::File(file) => file.bytes.write_at(offset, bytes),
        Object::Pipe(_) => unreachable!(),
        Object::Fixed(_) => unreachable!(),
        Object::Directory(_) => unreachable!(),
        Object::Description(_) => unreachable!(),
        Object::Nothing => unreachable!(),
    }
}

/// Takes so many bytes from the front of a pipe, and appends these.
pub fn change_pipe_at(headers: &mut Slab<Header, Heap>, key: usize, taken: usize, appended: &[u8])
    requires { IsRoomy taken appended.now (option_and_then pipe_of (held (place_at headers.old key))) }
    ensures { Updates headers.old headers.new key
        (option_map (at_place (with_pipe (passed taken appended.now))) (get headers.old key)) }
{
    match headers.get_mut(key) {
        Some(header) => change_pipe_in(&mut header.place.object, taken, appended),
        None => unreachable!(),
    }
}

fn change_pipe_in(object: &mut Object, taken: usize, appended: &[u8])
    requires { IsRoomy taken appended.now (pipe_of object.old) }
    ensures { object.new ≡ changed_pipe (passed taken appended.now) object.old }
{
    match object {
        Object::Pipe(pipe) => {
            pipe.bytes.skip(taken);
            pipe.bytes.put(appended);
        }
        Object::Fixed(_) => unreachable!(),
        Object::Directory(_) => unreachable!(),
        Object::File(_) => unreachable!(),
        Object::Description(_) => unreachable!(),
        Object::Nothing => unreachable!(),
    }
}

/// The next read or write of a description begins at this offset.
pub fn set_offset_at(headers: &mut Slab<Header, Heap>, key: usize, offset: u64)
    ensures { Updates headers.old headers.new key
        (option_map (at_place (with_opened (moved_to offset))) (get headers.old key)) }
{
    if let Some(header) = headers.get_mut(key) {
        set_offset_in(&mut header.place.object, offset);
    }
}

fn set_offset_in(object: &mut Object, offset: u64)
    ensures { object.new ≡ changed_opened (moved_to offset) object.old }
{
    if let Object::Description(opened) = object {
        opened.description.offset = offset;
    }
}

/// How many descriptions are counted as open on a file.
pub fn openings_at(headers: &Slab<Header, Heap>, key: usize) -> u128
    ensures { result ≡ openings_of (file_in (place_at headers.now key)) }
{
    match headers.get(key) {
        Some(header) => openings_in(&header.place.object),
        None => 0,
    }
}

fn openings_in(object: &Object) -> u128
    ensures { result ≡ openings_of (file_of object.now) }
{
    match object {
        Object::File(file) => file.openings,
        Object::Pipe(_) => 0,
        Object::Fixed(_) => 0,
        Object::Directory(_) => 0,
        Object::Description(_) => 0,
        Object::Nothing => 0,
    }
}

/// Counts one description more that is open on a file.
pub fn add_opening_at(headers: &mut Slab<Header, Heap>, key: usize)
    requires { openings_of (file_in (place_at headers.old key)) + 1 < 2 ^ 128 }
    ensures { Updates headers.old headers.new key
        (option_map (at_place (with_file more_openings)) (get headers.old key)) }
{
    if let Some(header) = headers.get_mut(key) {
        add_opening_in(&mut header.place.object);
    }
}

fn add_opening_in(object: &mut Object)
    requires { openings_of (file_of object.old) + 1 < 2 ^ 128 }
    ensures { object.new ≡ changed_file more_openings object.old }
{
    if let Object::File(file) = object {
        file.openings += 1;
    }
}

/// Counts one description less that is open on a file.
pub fn remove_opening_at(headers: &mut Slab<Header, Heap>, key: usize)
    ensures { Updates headers.old headers.new key
        (option_map (at_place (with_file less_openings)) (get headers.old key)) }
{
    if let Some(header) = headers.get_mut(key) {
        remove_opening_in(&mut header.place.object);
    }
}

fn remove_opening_in(object: &mut Object)
    ensures { object.new ≡ changed_file less_openings object.old }
{
    if let Object::File(file) = object {
        file.openings = file.openings.saturating_sub(1);
    }
}

/// How many descriptors are counted that name a description.
pub fn holders_at(headers: &Slab<Header, Heap>, key: usize) -> u128
    ensures { result ≡ holders_of (opened_in (place_at headers.now key)) }
{
    match headers.get(key) {
        Some(header) => holders_in(&header.place.object),
        None => 0,
    }
}

fn holders_in(object: &Object) -> u128
    ensures { result ≡ holders_of (opened_of object.now) }
{
    match object {
        Object::Description(opened) => opened.holders,
        Object::Directory(_) => 0,
        Object::File(_) => 0,
        Object::Pipe(_) => 0,
        Object::Fixed(_) => 0,
        Object::Nothing => 0,
    }
}

/// Counts one descriptor more that names a description.
pub fn add_holder_at(headers: &mut Slab<Header, Heap>, key: usize)
    requires { holders_of (opened_in (place_at headers.old key)) + 1 < 2 ^ 128 }
    ensures { Updates headers.old headers.new key
        (option_map (at_place (with_opened more_holders)) (get headers.old key)) }
{
    if let Some(header) = headers.get_mut(key) {
        add_holder_in(&mut header.place.object);
    }
}

fn add_holder_in(object: &mut Object)
    requires { holders_of (opened_of object.old) + 1 < 2 ^ 128 }
    ensures { object.new ≡ changed_opened more_holders object.old }
{
    if let Object::Description(opened) = object {
        opened.holders += 1;
    }
}

/// Counts one descriptor less that names a description.
pub fn remove_holder_at(headers: &mut Slab<Header, Heap>, key: usize)
    ensures { Updates headers.old headers.new key
        (option_map (at_place (with_opened less_holders)) (get headers.old key)) }
{
    if let Some(header) = headers.get_mut(key) {
        remove_holder_in(&mut header.place.object);
    }
}

fn remove_holder_in(object: &mut Object)
    ensures { object.new ≡ changed_opened less_holders object.old }
{
    if let Object::Description(opened) = object {
        opened.holders = opened.holders.saturating_sub(1);
    }
}
