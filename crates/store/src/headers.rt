//! The header of one number, and changes of it: its place, the count of the names that give it, and
//! the rights that were set of it. A number that is not in use does not change.
ghost use Rattle.std.specs.Prelude.{◌≡◌, ◌<◌, ◌+◌, ◌^◌, ℕ, OnOk, OnErr, Some, None, true};
ghost use Rattle.std.specs.Prelude.{option_copied, option_map};
ghost use Rattle.model.specs.FiniteMap as map;
ghost use Rattle.slab.specs.Slab.{get, slab_len, Updates};
ghost use Rattle.dirlist.specs.Listing.{Listing};
ghost use Rattle.store.specs.Numbers.{held};
ghost use Rattle.store.specs.Places.{installed, hidden, is_over, may_be_named, has_room};
ghost use Rattle.store.specs.Places.{shows_names, listing_of, listing_in, changed_object};
ghost use Rattle.store.specs.Places.{with_listing};
ghost use Rattle.store.specs.Places.{more_room, less_room, number_in, with_name, without_name};
ghost use Rattle.store.specs.Headers.{at_place, count_at, place_at, more_links, less_links};
ghost use Rattle.store.specs.Headers.{counted, rights_at, with_rights, GainsLink, LosesLink};

use crate::{Header, Object, Place, Stage};
use dirlist::Dir;
use heap::Heap;
use ids::{Name, Num, Rights};
use slab::Slab;
use std::alloc::AllocError;

/// The object of a number, where it is shown.
pub fn object_in(headers: &Slab<Header, Heap>, key: usize) -> Option<&Object>
    ensures { option_copied result ≡ held (place_at headers.now key) }
{
    match headers.get(key) {
        Some(header) => held_object(&header.place),
        None => None,
    }
}

fn held_object(place: &Place) -> Option<&Object>
    ensures { option_copied result ≡ held (Some place.now) }
{
    match place.stage {
        Stage::Held => Some(&place.object),
        Stage::Coming => None,
        Stage::Removed => None,
    }
}

/// Whether a directory is shown at a number, so that its names are counted.
pub fn shows_names_at(headers: &Slab<Header, Heap>, key: usize) -> bool
    ensures { result ≡ shows_names (place_at headers.now key) }
{
    match object_in(headers, key) {
        Some(Object::Directory(_)) => true,
        Some(Object::File(_)) => false,
        Some(Object::Pipe(_)) => false,
        Some(Object::Fixed(_)) => false,
        Some(Object::Description(_)) => false,
        Some(Object::Nothing) => false,
        None => false,
    }
}

/// Whether room for a name is promised at a number.
pub fn is_promised_at(headers: &Slab<Header, Heap>, key: usize) -> bool
    ensures { result ≡ has_room (listing_in (place_at headers.now key)) }
{
    match headers.get(key) {
        Some(header) => is_promised_in(&header.place.object),
        None => false,
    }
}

fn is_promised_in(object: &Object) -> bool
    ensures { result ≡ has_room (listing_of object.now) }
{
    match object {
        Object::Directory(dir) => dir.is_promised(),
        Object::File(_) => false,
        Object::Pipe(_) => false,
        Object::Fixed(_) => false,
        Object::Description(_) => false,
        Object::Nothing => false,
    }
}

/// Whether the object of a number is removed, with no room promised in it.
pub fn is_over_at(headers: &Slab<Header, Heap>, key: usize) -> bool
    ensures { result ≡ is_over (place_at headers.now key) }
{
    match headers.get(key) {
        Some(header) => match header.place.stage {
            Stage::Removed => !is_promised_in(&header.place.object),
            Stage::Coming => false,
            Stage::Held => false,
        },
        None => false,
    }
}

/// The number is not in use any more.
pub fn free_at(headers: &mut Slab<Header, Heap>, key: usize)
    ensures { Updates headers.old headers.new key None }
{
    let _header = headers.try_remove(key);
}

/// Shows the object of a number, where it is to come.
pub fn install_at(headers: &mut Slab<Header, Heap>, key: usize)
    ensures { Updates headers.old headers.new key
        (option_map (at_place installed) (get headers.old key)) }
{
    if let Some(header) = headers.get_mut(key) {
        install_in(&mut header.place);
    }
}

fn install_in(place: &mut Place)
    ensures { place.new ≡ installed place.old }
{
    if let Stage::Coming = place.stage {
        place.stage = Stage::Held;
    }
}

/// The object of a number is removed.
pub fn hide_at(headers: &mut Slab<Header, Heap>, key: usize)
    ensures { Updates headers.old headers.new key
        (option_map (at_place hidden) (get headers.old key)) }
{
    if let Some(header) = headers.get_mut(key) {
        header.place.stage = Stage::Removed;
    }
}

/// Promises room for one more name. Refused memory changes nothing.
pub fn promise_at(headers: &mut Slab<Header, Heap>, key: usize) -> Result<(), AllocError>
    ensures ok { OnOk result (Updates headers.old headers.new key
        (option_map (at_place (with_listing more_room)) (get headers.old key))) }
    ensures err { OnErr result (Updates headers.old headers.new key (get headers.old key)) }
{
    match headers.get_mut(key) {
        Some(header) => promise_in(&mut header.place.object),
        None => Ok(()),
    }
}

fn promise_in(object: &mut Object) -> Result<(), AllocError>
    ensures ok { OnOk result (object.new ≡ changed_object more_room object.old) }
    ensures err { OnErr result (object.new ≡ object.old) }
{
    match object {
        Object::Directory(dir) => dir.promise(),
        Object::File(_) => Ok(()),
        Object::Pipe(_) => Ok(()),
        Object::Fixed(_) => Ok(()),
        Object::Description(_) => Ok(()),
        Object::Nothing => Ok(()),
    }
}

/// Gives up the promised room of one name, where there is one.
pub fn release_at(headers: &mut Slab<Header, Heap>, key: usize)
    ensures { Updates headers.old headers.new key
        (option_map (at_place (with_listing less_room)) (get headers.old key)) }
{
    if let Some(header) = headers.get_mut(key) {
        release_in(&mut header.place.object);
    }
}

fn release_in(object: &mut Object)
    ensures { object.new ≡ changed_object less_room object.old }
{
    match object {
        Object::Directory(dir) => release_one(dir),
        Object::File(_) => (),
        Object::Pipe(_) => (),
        Object::Fixed(_) => (),
        Object::Description(_) => (),
        Object::Nothing => (),
    }
}

fn release_one(dir: &mut Dir)
    ensures { dir.new ≡ less_room dir.old }
{
    if dir.is_promised() {
        dir.release();
    }
}

/// The name gives the number from now on, in promised room. What it gave before is answered.
pub fn add_name_at(
    headers: &mut Slab<Header, Heap>,
    key: usize,
    name: Name,
    num: Num,
) -> Option<Num>
    requires { (listing : Listing) →
        listing_in (place_at headers.old key) ≡ Some listing → 0 < listing.promised }
    ensures value { result ≡ number_in (listing_in (place_at headers.old key)) name }
    ensures added { Updates headers.old headers.new key
        (option_map (at_place (with_listing (with_name name num))) (get headers.old key)) }
    ensures few { (listing : Listing) →
        listing_in (place_at headers.new key) ≡ Some listing → map.len listing.names < 2 ^ 64 }
{
    match headers.get_mut(key) {
        Some(header) => add_name_in(&mut header.place.object, name, num),
        None => None,
    }
}

fn add_name_in(object: &mut Object, name: Name, num: Num) -> Option<Num>
    requires { (listing : Listing) →
        listing_of object.old ≡ Some listing → 0 < listing.promised }
    ensures value { result ≡ number_in (listing_of object.old) name }
    ensures added { object.new ≡ changed_object (with_name name num) object.old }
    ensures few { (listing : Listing) →
        listing_of object.new ≡ Some listing → map.len listing.names < 2 ^ 64 }
{
    match object {
        Object::Directory(dir) => put_name(dir, name, num),
        Object::File(_) => None,
        Object::Pipe(_) => None,
        Object::Fixed(_) => None,
        Object::Description(_) => None,
        Object::Nothing => None,
    }
}

// The name goes before it is added, since only a name that is absent can be added.
fn put_name(dir: &mut Dir, name: Name, num: Num) -> Option<Num>
    requires { 0 < dir.old.promised }
    ensures value { result ≡ map.get dir.old.names name }
    ensures put { dir.new ≡ with_name name num dir.old }
    ensures few { map.len dir.new.names < 2 ^ 64 }
{
    let former = dir.remove(&name);
    dir.insert_promised(name, num);
    // For the proof: a `usize` can count the names of one directory.
    let _len = dir.len();
    former
}

/// Takes a name out of a directory, and answers what it gave.
pub fn remove_name_at(headers: &mut Slab<Header, Heap>, key: usize, name: &Name) -> Option<Num>
    ensures value { result ≡ number_in (listing_in (place_at headers.old key)) name.now }
    ensures removed { Updates headers.old headers.new key
        (option_map (at_place (with_listing (without_name name.now))) (get headers.old key)) }
{
    match headers.get_mut(key) {
        Some(header) => remove_name_in(&mut header.place.object, name),
        None => None,
    }
}

fn remove_name_in(object: &mut Object, name: &Name) -> Option<Num>
    ensures value { result ≡ number_in (listing_of object.old) name.now }
    ensures removed { object.new ≡ changed_object (without_name name.now) object.old }
{
    match object {
        Object::Directory(dir) => dir.remove(name),
        Object::File(_) => None,
        Object::Pipe(_) => None,
        Object::Fixed(_) => None,
        Object::Description(_) => None,
        Object::Nothing => None,
    }
}

/// The rights that were set of a number; none where it is not in use.
pub fn rights_at(headers: &Slab<Header, Heap>, key: usize) -> Option<Rights>
    ensures { result ≡ rights_at headers.now key }
{
    match headers.get(key) {
        Some(header) => header.rights,
        None => None,
    }
}

/// These rights are set of a number from now on, or none.
pub fn set_rights_at(headers: &mut Slab<Header, Heap>, key: usize, rights: Option<Rights>)
    ensures { Updates headers.old headers.new key
        (option_map (with_rights rights) (get headers.old key)) }
{
    if let Some(header) = headers.get_mut(key) {
        header.rights = rights;
    }
}

/// How many names give a number; none where it is not in use.
pub fn links_at(headers: &Slab<Header, Heap>, key: usize) -> u128
    ensures { result ≡ count_at headers.now key }
{
    match headers.get(key) {
        Some(header) => header.links,
        None => 0,
    }
}

/// One name more of a directory gives the number, which is counted where the directory is shown.
pub fn add_link(headers: &mut Slab<Header, Heap>, dir: usize, num: Num)
    requires in_use { may_be_named (place_at headers.old num) ≡ true }
    requires fits { count_at headers.old num + 1 < 2 ^ 128 }
    ensures { GainsLink headers.old headers.new (counted (place_at headers.old dir) (Some num)) }
{
    if shows_names_at(headers, dir) {
        add_link_at(headers, num.0);
    }
}

fn add_link_at(headers: &mut Slab<Header, Heap>, key: usize)
    requires { count_at headers.old key + 1 < 2 ^ 128 }
    ensures { Updates headers.old headers.new key (option_map more_links (get headers.old key)) }
{
    if let Some(header) = headers.get_mut(key) {
        header.links += 1;
    }
}

/// One name less of a directory gives what it gave, which was counted where the directory is shown.
pub fn remove_link(headers: &mut Slab<Header, Heap>, dir: usize, former: Option<Num>)
    requires { (n : ℕ) →
        counted (place_at headers.old dir) former ≡ Some n → 0 < count_at headers.old n }
    ensures { LosesLink headers.old headers.new (counted (place_at headers.old dir) former) }
{
    if let Some(num) = former {
        if shows_names_at(headers, dir) {
            remove_link_at(headers, num.0);
        }
    }
}

fn remove_link_at(headers: &mut Slab<Header, Heap>, key: usize)
    requires { 0 < count_at headers.old key }
    ensures { Updates headers.old headers.new key (option_map less_links (get headers.old key)) }
{
    if let Some(header) = headers.get_mut(key) {
        header.links -= 1;
    }
}

/// For the proof: a `usize` can count the numbers that are in use.
pub fn numbers_are_few(headers: &Slab<Header, Heap>)
    ensures { slab_len headers.now < 2 ^ 64 }
{
    let _len = headers.len();
}
