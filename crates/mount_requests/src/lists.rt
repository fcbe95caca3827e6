// Lists of names as they are told.
ghost use Rattle.std.specs.Prelude.{◌≡◌, ◌<◌, ◌≤◌, ◌-◌, ◌^◌, ◌++◌, ◌∷◌, [], slice_get, option_map};
ghost use Rattle.std.specs.Prelude.{IfOk, OnOk};
ghost use Rattle.fuse.specs.Listings.{added, fits};
ghost use Rattle.std.specs.List.{list_any};
ghost use Rattle.mount_tables.specs.Numbers.{is_reserved};
ghost use Rattle.mount_requests.specs.Found.{shown_names};
ghost use Rattle.mount_requests.specs.Listed.{IsList, plain_entry, with_dots};
ghost use Rattle.mount_requests.specs.declared.lists.TheConstants.{MOST_LISTED};

use fuse::{DirectoryEntry, Kind, Listing};
use heap::Heap;
use ids::{Name, NameList};
use mount_tables::is_reserved;
use std::alloc::AllocError;

// The number of an object that is not told.
const UNKNOWN: u64 = 0xffff_ffff;

// How many names each directory has beside its own.
const DOTS: u64 = 2;

// The most bytes of one list.
const MOST_LISTED: u32 = 1_048_576;

// Whether a name is that of the directory of transactions, which lists do not show.
fn is_hidden(name: &Name, node: u64) -> bool
    ensures { result ≡ is_reserved node name.now }
{
    is_reserved(node, name.as_slice())
}

// Whether one of these names is.
fn has_hidden(node: u64, names: &[Name]) -> bool
    ensures { result ≡ list_any (λ name. is_reserved node name) names.now }
{
    names.iter().any(|name| is_hidden(name, node))
}

// Puts a copy of a name behind the others, where lists show it.
fn push_shown(names: &mut Vec<Name, Heap>, node: u64, name: &Name) -> Result<(), AllocError>
    ensures { OnOk result (names.new.items
        ≡ names.old.items ++ shown_names node (name.now ∷ [])) }
{
    if is_hidden(name, node) {
        return Ok(());
    }
    names.push(name.try_clone()?)?;
    Ok(())
}

// Copies of the names of a directory that its lists show.
fn copies_shown(heap: Heap, node: u64, list: &[Name]) -> Result<Vec<Name, Heap>, AllocError>
    ensures { IfOk result (λ names. names.items ≡ shown_names node list.now) }
{
    let mut names = Vec::with_capacity(heap, list.len())?;
    for name in list {
        push_shown(&mut names, node, name)?;
    }
    Ok(names)
}

// The names of a directory that its lists show. Mostly they show all, and then no name is copied.
pub(crate) fn names_shown(heap: Heap, node: u64, list: NameList) -> Result<NameList, AllocError>
    ensures { IfOk result (λ names. names ≡ shown_names node list) }
{
    if !has_hidden(node, list.as_slice()) {
        return Ok(list);
    }
    let names = copies_shown(heap, node, list.as_slice())?;
    Ok(NameList::new(names))
}

// The name of an entry: the two that each directory has come first.
fn name_at(names: &[Name], index: usize) -> Option<&[u8]>
    ensures { option_map (λ name. name.now) result ≡ slice_get (with_dots names.now) index }
{
    match index {
        0 => Some(b".".as_slice()),
        1 => Some(b"..".as_slice()),
        _ => match names.get(index - 2) {
            Some(name) => Some(name.as_slice()),
            None => None,
        },
    }
}

// Adds an entry to a list where it fits, and returns whether it does.
fn add_entry(list: &mut Listing, index: u64, name: &[u8]) -> Result<bool, AllocError>
    requires offset { index < 2 ^ 64 - 1 }
    requires size { list.old.size ≤ MOST_LISTED }
    ensures fitted { IfOk result (λ fitted. fitted ≡ fits list.old (plain_entry index name.now)) }
    ensures ok { OnOk result (list.new ≡ added list.old (plain_entry index name.now)) }
{
    // A name that is longer than any list may be fits into none.
    if name.len() > MOST_LISTED as usize {
        return Ok(false);
    }
    let entry = DirectoryEntry {
        inode: UNKNOWN,
        offset: index + 1,
        kind: Kind::Unknown,
        name,
    };
    list.add(&entry)
}

/// The names of a directory from this one on, `.` and `..` before its own, as many as fit into so many
/// bytes, and into 1 MiB. Refused memory gives nothing.
pub fn list_from(heap: Heap, names: &[Name], offset: u64, size: u32) -> Result<Listing, AllocError>
    ensures { IfOk result (λ list. IsList offset size names.now list) }
{
    let mut list = Listing::new(heap, size.min(MOST_LISTED));
    let end = names.len() as u64 + DOTS;
    for index in offset..end {
        let Some(name) = name_at(names, index as usize) else {
            break;
        };
        if !add_entry(&mut list, index, name)? {
            break;
        }
    }
    Ok(list)
}
