// Lists of the entries of a directory.
ghost use Rattle.std.specs.Prelude.{◌≡◌, ◌++◌, ◌<◌, ◌≤◌, ◌^◌, [], length, IfOk, OnErr, OnOk};
ghost use Rattle.fuse.specs.Listings.{added, directory_entry_bytes, fits, kind_number, padded};

use crate::put::{put_u32s, put_u64s};
use heap::Heap;
use std::alloc::AllocError;
use std::marker::Model;

/// What an entry of a directory is.
#[derive(Clone, Copy, Debug)]
pub enum Kind {
    /// It is not told: who wants to know looks the name up.
    Unknown,
    /// A pipe with a name.
    Pipe,
    /// A directory.
    Directory,
    /// A file.
    File,
}

/// An entry of a directory.
#[derive(Clone, Copy)]
pub struct DirectoryEntry<'a> {
    /// The number of the object for `stat`.
    pub inode: u64,
    /// What a request says to go on behind this entry. It is not 0.
    pub offset: u64,
    /// What the object is.
    pub kind: Kind,
    /// The name.
    pub name: &'a [u8],
}

/// Whole entries of a directory, of which there are no more bytes than a request asks for.
#[derive(Drop)]
pub struct Listing {
    size: usize,
    bytes: Vec<u8, Heap>,
}

impl Model for Listing {
    ghost use Rattle.std.specs.Prelude.{◌≤◌, length};
    ghost use Rattle.fuse.specs.Listed.{Listed};

    ghost Value = { Listed };

    ghost view = { λ l. record { size = l.size; bytes = l.bytes.items } };

    ghost invariant = { λ l. length l.bytes.items ≤ l.size };
}

fn kind_number(kind: Kind) -> u32
    ensures { result ≡ kind_number kind }
{
    match kind {
        Kind::Unknown => 0,
        Kind::Pipe => 1,
        Kind::Directory => 4,
        Kind::File => 8,
    }
}

// Puts a name and zeros up to a multiple of 8 bytes behind what is there.
#[tactic(auto, unfolding(crate::specs::Listings::padded))]
fn put_padded(out: &mut Vec<u8, Heap>, name: &[u8]) -> Result<(), AllocError>
    ensures { OnOk result (out.new.items ≡ out.old.items ++ padded name.now) }
{
    out.extend_from_slice(name)?;
    let padding = (8 - name.len() % 8) % 8;
    out.resize(out.len() + padding, 0)?;
    Ok(())
}

#[tactic(auto, unfolding(crate::specs::Listings::directory_entry_bytes))]
fn put_directory_entry(
    out: &mut Vec<u8, Heap>,
    entry: &DirectoryEntry<'_>,
) -> Result<(), AllocError>
    requires { length entry.now.name.now < 2 ^ 32 }
    ensures { OnOk result (out.new.items ≡ out.old.items ++ directory_entry_bytes entry.now) }
{
    let name = entry.name;
    put_u64s(out, &[entry.inode, entry.offset])?;
    put_u32s(out, &[name.len() as u32, kind_number(entry.kind)])?;
    put_padded(out, name)?;
    Ok(())
}

impl Listing {
    /// No entry, for a request that asks for so many bytes.
    pub fn new(heap: Heap, size: u32) -> Listing
        ensures size { result.size ≡ size }
        ensures bytes { result.bytes ≡ [] }
    {
        Listing {
            size: size as usize,
            bytes: Vec::new(heap),
        }
    }

    /// The bytes of the entries.
    pub fn as_slice(&self) -> &[u8]
        ensures bytes { result.now ≡ self.now.bytes }
        ensures bound { length result.now ≤ self.now.size }
    {
        self.bytes.as_slice()
    }

    // Adds bytes where they fit, and returns whether they do. Refused memory changes nothing.
    fn add_bytes(&mut self, bytes: &[u8]) -> Result<bool, AllocError>
        ensures fitted { IfOk result (λ fitted. fitted ≡ fits self.old bytes.now) }
        ensures ok { OnOk result (self.new ≡ added self.old bytes.now) }
        ensures err { OnErr result (self.new ≡ self.old) }
        ensures bound { length self.new.bytes ≤ self.new.size }
    {
        if bytes.len() > self.size - self.bytes.len() {
            return Ok(false);
        }
        self.bytes.extend_from_slice(bytes)?;
        Ok(true)
    }

    /// Adds an entry where it fits, and returns whether it does. Refused memory changes nothing.
    pub fn add(&mut self, entry: &DirectoryEntry<'_>) -> Result<bool, AllocError>
        requires { length entry.now.name.now < 2 ^ 32 }
        ensures fitted { IfOk result (λ fitted.
            fitted ≡ fits self.old (directory_entry_bytes entry.now)) }
        ensures ok { OnOk result (self.new ≡ added self.old (directory_entry_bytes entry.now)) }
        ensures err { OnErr result (self.new ≡ self.old) }
        ensures bound { length self.new.bytes ≤ self.new.size }
    {
        let mut bytes = Vec::new(*self.bytes.allocator());
        put_directory_entry(&mut bytes, entry)?;
        let fitted = self.add_bytes(&bytes)?;
        Ok(fitted)
    }
}
