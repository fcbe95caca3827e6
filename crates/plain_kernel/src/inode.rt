// An inode of the plain kernel.
ghost use Rattle.std.specs.Prelude.{◌≡◌, ℕ, ◌+◌, ◌-◌, ◌<◌, ◌≤◌, ◌^◌, option_copied, IfOk};
ghost use Rattle.std.specs.Prelude.{[], drop, length, take};
ghost use Rattle.ids.specs.declared.limits.TheConstants.{LARGEST_FILE, TARGET_LIMIT};
ghost use Rattle.objects.specs.declared.run.TheConstants.{LARGEST_RUN};
ghost use Rattle.model.specs.FiniteMap.{get, keys};
ghost use Rattle.model.specs.Holes.{alike_from};
ghost use Rattle.model.specs.Paths.{is_empty};
ghost use Rattle.model.specs.State.{Inode, File as A_file, Directory as A_directory, mapped};
ghost use Rattle.model.specs.State.{Pipe as A_pipe, Fixed as A_fixed, kind, file_of_inode};
ghost use Rattle.model.specs.State.{names_of_inode, pipe_of_inode, target_of_inode};
ghost use Rattle.plain_kernel.specs.Counts.{count_at, times_given};

use crate::names::Names;
use crate::tree::Tree;
use heap::Heap;
use ids::{Bytes, Fixed, Kind, Name, NameList, Num};
use objects::FileData;
use std::alloc::AllocError;
use std::marker::Model;

/// What stands in an inode.
#[derive(Drop)]
pub(crate) enum Content {
    /// A file's bytes, in pieces.
    File(FileData),
    /// A directory's names.
    Directory(Names),
    /// A pipe's bytes, oldest first.
    Pipe(Bytes),
    /// What never changes.
    Fixed(Fixed),
}

/// A file, a directory, a pipe, or what never changes: a symbolic link, a FIFO or a socket.
#[derive(Drop)]
pub(crate) struct Inode {
    content: Content,
}

impl Model for Inode {
    ghost use Rattle.model.specs.State.{Inode};

    ghost Value = { Inode };

    ghost use Rattle.plain_kernel.specs.Content.{inode_of};

    ghost view = { λ i. inode_of i.content };
}

impl Inode {
    // A file of these bytes.
    pub(crate) fn file(stored: FileData) -> Inode
        ensures { result ≡ A_file stored.bytes }
    {
        Inode {
            content: Content::File(stored),
        }
    }

    // A directory of these names.
    pub(crate) fn directory(names: Names) -> Inode
        ensures { result ≡ A_directory names }
    {
        Inode {
            content: Content::Directory(names),
        }
    }

    // A pipe of these bytes.
    pub(crate) fn pipe(bytes: Bytes) -> Inode
        ensures { result ≡ A_pipe bytes }
    {
        Inode {
            content: Content::Pipe(bytes),
        }
    }

    // What never changes.
    pub(crate) fn fixed(fixed: Fixed) -> Inode
        ensures { result ≡ A_fixed fixed }
    {
        Inode {
            content: Content::Fixed(fixed),
        }
    }
}

// No bytes of a pipe. It takes no memory.
pub(crate) fn no_bytes(heap: Heap) -> Bytes
    ensures { result ≡ [] }
{
    Bytes::new(Vec::new(heap))
}

// The kind of an inode that may be there.
pub(crate) fn kind_in(inode: Option<&Inode>) -> Option<Kind>
    ensures { result ≡ mapped kind (option_copied inode.entry) }
{
    match &inode?.content {
        Content::File(_) => Some(Kind::File),
        Content::Directory(_) => Some(Kind::Dir),
        Content::Pipe(_) => Some(Kind::Pipe),
        Content::Fixed(fixed) => Some(fixed.kind()),
    }
}

// What a name of it gives.
pub(crate) fn given_in(inode: Option<&Inode>, name: &Name) -> Option<Num>
    ensures { result ≡ get (names_of_inode (option_copied inode.entry)) name.now }
{
    match inode {
        Some(inode) => match &inode.content {
            Content::Directory(names) => names.get(name),
            Content::File(_) => None,
            Content::Pipe(_) => None,
            Content::Fixed(_) => None,
        },
        None => None,
    }
}

// All its names.
pub(crate) fn names_in(heap: Heap, inode: Option<&Inode>) -> Result<NameList, AllocError>
    ensures { IfOk result
        (λ names. names ≡ keys (names_of_inode (option_copied inode.entry))) }
{
    match inode {
        Some(inode) => match &inode.content {
            Content::Directory(names) => names.names(heap),
            Content::File(_) => Ok(NameList::new(Vec::new(heap))),
            Content::Pipe(_) => Ok(NameList::new(Vec::new(heap))),
            Content::Fixed(_) => Ok(NameList::new(Vec::new(heap))),
        },
        None => Ok(NameList::new(Vec::new(heap))),
    }
}

// Whether it has no names.
pub(crate) fn is_empty_in(inode: Option<&Inode>) -> bool
    ensures { result ≡ is_empty (keys (names_of_inode (option_copied inode.entry))) }
{
    match inode {
        Some(inode) => match &inode.content {
            Content::Directory(names) => names.is_empty(),
            Content::File(_) => true,
            Content::Pipe(_) => true,
            Content::Fixed(_) => true,
        },
        None => true,
    }
}

// How many bytes a file has.
pub(crate) fn size_in(inode: Option<&Inode>) -> u64
    ensures { result ≡ length (file_of_inode (option_copied inode.entry)) }
{
    match inode {
        Some(inode) => match &inode.content {
            Content::File(stored) => stored.len() as u64,
            Content::Directory(_) => 0,
            Content::Pipe(_) => 0,
            Content::Fixed(_) => 0,
        },
        None => 0,
    }
}

// At most `count` bytes of a file, behind the first `skipped` ones. They end below 2^64.
pub(crate) fn read_in(
    heap: Heap,
    inode: Option<&Inode>,
    skipped: u64,
    count: u32,
) -> Result<Bytes, AllocError>
    requires { count ≤ LARGEST_RUN }
    ensures value { IfOk result
        (λ bytes. bytes ≡ take count (drop skipped (file_of_inode (option_copied inode.entry)))) }
    ensures small { IfOk result (λ bytes. skipped + length bytes < 2 ^ 64) }
{
    match inode {
        Some(inode) => match &inode.content {
            Content::File(stored) => {
                // For the proof: the file ends below 2^64.
                let _len = stored.len();
                stored.read_at(heap, skipped as usize, count as usize)
            }
            Content::Directory(_) => Ok(no_bytes(heap)),
            Content::Pipe(_) => Ok(no_bytes(heap)),
            Content::Fixed(_) => Ok(no_bytes(heap)),
        },
        None => Ok(no_bytes(heap)),
    }
}

// How many blocks of a file from one on, so many at most, are holes, or are none.
pub(crate) fn passed_in(
    heap: Heap,
    inode: Option<&Inode>,
    holes: bool,
    first: u64,
    count: u64,
) -> u64
    requires { first + count ≤ LARGEST_FILE }
    ensures value { result
        ≡ alike_from holes (file_of_inode (option_copied inode.entry)) first count }
    ensures small { result ≤ count }
{
    let none = FileData::new(heap);
    let stored = match inode {
        Some(inode) => match &inode.content {
            Content::File(stored) => stored,
            Content::Directory(_) => &none,
            Content::Pipe(_) => &none,
            Content::Fixed(_) => &none,
        },
        None => &none,
    };
    stored.pass(holes, first as usize, count as usize) as u64
}

// The bytes of a pipe.
pub(crate) fn pipe_in(inode: Option<&Inode>) -> &[u8]
    ensures { result.now ≡ pipe_of_inode (option_copied inode.entry) }
{
    match inode {
        Some(inode) => match &inode.content {
            Content::Pipe(bytes) => bytes.as_slice(),
            Content::File(_) => &[],
            Content::Directory(_) => &[],
            Content::Fixed(_) => &[],
        },
        None => &[],
    }
}

// The target of a symbolic link.
pub(crate) fn target_in(inode: Option<&Inode>) -> &[u8]
    ensures value { result.now ≡ target_of_inode (option_copied inode.entry) }
    ensures small { length result.now ≤ TARGET_LIMIT }
{
    match inode {
        Some(inode) => match &inode.content {
            Content::Fixed(fixed) => fixed.target(),
            Content::File(_) => &[],
            Content::Directory(_) => &[],
            Content::Pipe(_) => &[],
        },
        None => &[],
    }
}

// The names of a directory, as its own.
pub(crate) fn names_out(heap: Heap, inode: Option<Inode>) -> Names
    ensures { result ≡ names_of_inode inode }
{
    match inode {
        Some(Inode { content }) => match content {
            Content::Directory(names) => names,
            Content::File(_) => Names::new(heap),
            Content::Pipe(_) => Names::new(heap),
            Content::Fixed(_) => Names::new(heap),
        },
        None => Names::new(heap),
    }
}

// The bytes of a file, as its own.
pub(crate) fn file_out(heap: Heap, inode: Option<Inode>) -> FileData
    ensures { result.bytes ≡ file_of_inode inode }
{
    match inode {
        Some(Inode { content }) => match content {
            Content::File(stored) => stored,
            Content::Directory(_) => FileData::new(heap),
            Content::Pipe(_) => FileData::new(heap),
            Content::Fixed(_) => FileData::new(heap),
        },
        None => FileData::new(heap),
    }
}

// The bytes of a pipe, as its own.
pub(crate) fn pipe_out(heap: Heap, inode: Option<Inode>) -> Bytes
    ensures { result ≡ pipe_of_inode inode }
{
    match inode {
        Some(Inode { content }) => match content {
            Content::Pipe(bytes) => bytes,
            Content::File(_) => no_bytes(heap),
            Content::Directory(_) => no_bytes(heap),
            Content::Fixed(_) => no_bytes(heap),
        },
        None => no_bytes(heap),
    }
}

// What an inode's names gave they give no more.
pub(crate) fn lose_all(counts: &mut Tree<usize>, inode: &Option<Inode>)
    ensures { (n : ℕ) → count_at counts.new n
        ≡ count_at counts.old n - times_given n (names_of_inode inode.now) }
{
    match inode {
        Some(inode) => match &inode.content {
            Content::Directory(names) => names.lose_all(counts),
            Content::File(_) => (),
            Content::Pipe(_) => (),
            Content::Fixed(_) => (),
        },
        None => (),
    }
}
