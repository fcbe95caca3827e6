// What an inode is like with a transaction's changes of its contents on top.
ghost use Rattle.std.specs.Prelude.{◌≡◌, ◌+◌, ◌≤◌, IfOk, IsSome, Option, drop};
ghost use Rattle.std.specs.Prelude.{false, length, option_copied, take};
ghost use Rattle.ids.specs.declared.limits.TheConstants.{LARGEST_FILE, TARGET_LIMIT};
ghost use Rattle.model.specs.FiniteMap.{get, keys};
ghost use Rattle.model.specs.Holes.{alike_from};
ghost use Rattle.model.specs.Paths.{is_empty};
ghost use Rattle.model.specs.State.{Inode, file_of_inode, kind, mapped};
ghost use Rattle.model.specs.State.{Pipe as A_pipe, names_of_inode, pipe_of_inode, target_of_inode};
ghost use Rattle.store.specs.Shown.{pipe_inode};
ghost use Rattle.objects.specs.declared.run.TheConstants.{LARGEST_RUN};
ghost use Rattle.notes.specs.Patches.{form_of, of_pipe, patched};
ghost use Rattle.notes.specs.Patches as Patches;

use crate::change::Contents;
use dirlist::Dir;
use heap::Heap;
use ids::{Bytes, Kind, Name, NameList, Num};
use objects::FileData;
use std::alloc::AllocError;
use store::OpenPipe;

/// The kind of an inode with changes of its contents, by its kind below them; `None` where there is
/// none. It takes no memory.
pub fn kind_over(contents: &Contents, stored: Option<Kind>) -> Option<Kind>
    ensures { (o : Option Inode) → mapped kind o ≡ stored
        → result ≡ mapped kind (patched contents.now o) }
{
    match contents {
        Contents::Same => stored,
        Contents::Names { .. } => Some(Kind::Dir),
        Contents::Bytes { .. } => Some(Kind::File),
        Contents::Pipe { .. } => Some(Kind::Pipe),
        Contents::Fixed(fixed) => Some(fixed.kind()),
    }
}

/// What a name gives with changes of the contents of its directory, by what it gives below them. It
/// takes no memory.
pub fn given_over(contents: &Contents, name: &Name, stored: Option<Num>) -> Option<Num>
    ensures { (o : Option Inode) → get (names_of_inode o) name.now ≡ stored
        → result ≡ get (names_of_inode (patched contents.now o)) name.now }
{
    match contents {
        Contents::Same => stored,
        Contents::Bytes { .. } => None,
        Contents::Pipe { .. } => None,
        Contents::Fixed(_) => None,
        Contents::Names { is_fresh, names } => match names.look(name) {
            Some(given) => given,
            None if *is_fresh => None,
            None => stored,
        },
    }
}

/// All names in order, with changes of the contents of their directory, which is this one below
/// them. `AllocError` where memory is refused.
pub fn names_over(heap: Heap, contents: &Contents, stored: &Dir) -> Result<NameList, AllocError>
    ensures { IfOk result (λ list. (o : Option Inode) → names_of_inode o ≡ stored.now.names
        → list ≡ keys (names_of_inode (patched contents.now o))) }
{
    match contents {
        Contents::Same => stored.names(heap),
        Contents::Bytes { .. } => Dir::new(heap).names(heap),
        Contents::Pipe { .. } => Dir::new(heap).names(heap),
        Contents::Fixed(_) => Dir::new(heap).names(heap),
        Contents::Names {
            is_fresh: true,
            names,
        } => names.names_over(heap, &Dir::new(heap)),
        Contents::Names {
            is_fresh: false,
            names,
        } => names.names_over(heap, stored),
    }
}

/// Whether there are no names, with changes of the contents of their directory, which is this one
/// below them. It takes no memory.
pub fn is_empty_over(heap: Heap, contents: &Contents, stored: &Dir) -> bool
    ensures { (o : Option Inode) → names_of_inode o ≡ stored.now.names
        → result ≡ is_empty (keys (names_of_inode (patched contents.now o))) }
{
    match contents {
        Contents::Same => stored.is_empty(),
        Contents::Bytes { .. } => true,
        Contents::Pipe { .. } => true,
        Contents::Fixed(_) => true,
        Contents::Names {
            is_fresh: true,
            names,
        } => names.is_empty_over(&Dir::new(heap)),
        Contents::Names {
            is_fresh: false,
            names,
        } => names.is_empty_over(stored),
    }
}

/// How many bytes there are with changes of the contents of a file, which is this one below them. It
/// takes no memory.
pub fn len_over(heap: Heap, contents: &Contents, stored: &FileData) -> usize
    ensures { (o : Option Inode) → file_of_inode o ≡ stored.now.bytes
        → result ≡ length (file_of_inode (patched contents.now o)) }
{
    match contents {
        Contents::Same => stored.len(),
        Contents::Names { .. } => 0,
        Contents::Pipe { .. } => 0,
        Contents::Fixed(_) => 0,
        Contents::Bytes {
            is_fresh: true,
            bytes,
        } => bytes.len(&FileData::new(heap)),
        Contents::Bytes {
            is_fresh: false,
            bytes,
        } => bytes.len(stored),
    }
}

/// Bytes from an offset on, `count` at most and fewer where the file ends before, with changes of the
/// contents of the file, which is this one below them. `AllocError` where memory is refused.
pub fn bytes_over(
    heap: Heap,
    contents: &Contents,
    stored: &FileData,
    offset: usize,
    count: usize,
) -> Result<Bytes, AllocError>
    requires { count ≤ LARGEST_RUN }
    ensures { IfOk result (λ bytes. (o : Option Inode) → file_of_inode o ≡ stored.now.bytes
        → bytes ≡ take count (drop offset (file_of_inode (patched contents.now o)))) }
{
    match contents {
        Contents::Same => stored.read_at(heap, offset, count),
        Contents::Names { .. } => Ok(Bytes::new(Vec::new(heap))),
        Contents::Pipe { .. } => Ok(Bytes::new(Vec::new(heap))),
        Contents::Fixed(_) => Ok(Bytes::new(Vec::new(heap))),
        Contents::Bytes {
            is_fresh: true,
            bytes,
        } => bytes.read(heap, &FileData::new(heap), offset, count),
        Contents::Bytes {
            is_fresh: false,
            bytes,
        } => bytes.read(heap, stored, offset, count),
    }
}

/// How many blocks from one on, so many at most, are holes, or are none, with changes of the contents
/// of the file, which is this one below them. `AllocError` where memory is refused.
pub fn passed_over(
    heap: Heap,
    contents: &Contents,
    stored: &FileData,
    holes: bool,
    blocks: (usize, usize),
) -> Result<usize, AllocError>
    requires { blocks.0 + blocks.1 ≤ LARGEST_FILE }
    ensures value { IfOk result (λ passed. (o : Option Inode) → file_of_inode o ≡ stored.now.bytes
        → passed ≡ alike_from holes (file_of_inode (patched contents.now o)) blocks.0 blocks.1) }
    ensures small { IfOk result (λ passed. passed ≤ blocks.1) }
{
    let (first, count) = blocks;
    let none = FileData::new(heap);
    match contents {
        Contents::Same => Ok(stored.pass(holes, first, count)),
        Contents::Names { .. } => Ok(none.pass(holes, first, count)),
        Contents::Pipe { .. } => Ok(none.pass(holes, first, count)),
        Contents::Fixed(_) => Ok(none.pass(holes, first, count)),
        Contents::Bytes {
            is_fresh: true,
            bytes,
        } => bytes.pass(heap, &none, holes, first, count),
        Contents::Bytes {
            is_fresh: false,
            bytes,
        } => bytes.pass(heap, stored, holes, first, count),
    }
}

/// The descriptions that read and that write a pipe, where the changes make it. It takes no memory.
pub fn new_ends(contents: &Contents) -> Option<(Num, Num)>
    ensures { result ≡ Patches.new_ends contents.now }
{
    match contents {
        Contents::Pipe {
            new: Some(pipe),
            ..
        } => Some((pipe.reader, pipe.writer)),
        Contents::Pipe { new: None, .. } => None,
        Contents::Same => None,
        Contents::Names { .. } => None,
        Contents::Bytes { .. } => None,
        Contents::Fixed(_) => None,
    }
}

/// Bytes from the front of a pipe, `count` at most; none where there is no pipe. `AllocError` where
/// memory is refused.
pub fn front_of(heap: Heap, stored: Option<&OpenPipe>, count: usize) -> Result<Bytes, AllocError>
    ensures { IfOk result (λ bytes. (o : Option Inode)
        → pipe_inode o ≡ mapped (λ pipe. A_pipe pipe.bytes) (option_copied stored.entry)
        → bytes ≡ take count (pipe_of_inode o)) }
{
    match stored {
        Some(pipe) => pipe.bytes.read(heap, 0, count),
        None => Ok(Bytes::new(Vec::new(heap))),
    }
}

/// The same with changes of its contents, which need the pipe below them where it is not new.
/// `AllocError` where memory is refused.
pub fn front_over(
    heap: Heap,
    contents: &Contents,
    stored: Option<&OpenPipe>,
    count: usize,
) -> Result<Bytes, AllocError>
    requires { form_of contents.now ≡ of_pipe false → IsSome (option_copied stored) }
    ensures { IfOk result (λ bytes. (o : Option Inode)
        → pipe_inode o ≡ mapped (λ pipe. A_pipe pipe.bytes) (option_copied stored.entry)
        → bytes ≡ take count (pipe_of_inode (patched contents.now o))) }
{
    match contents {
        Contents::Same => front_of(heap, stored, count),
        Contents::Names { .. } => Ok(Bytes::new(Vec::new(heap))),
        Contents::Bytes { .. } => Ok(Bytes::new(Vec::new(heap))),
        Contents::Fixed(_) => Ok(Bytes::new(Vec::new(heap))),
        Contents::Pipe {
            new: Some(pipe),
            changes,
        } => changes.read(heap, &pipe.bytes, count),
        Contents::Pipe { new: None, changes } => match stored {
            Some(pipe) => changes.read(heap, &pipe.bytes, count),
            None => unreachable!(),
        },
    }
}

/// How many bytes a pipe has; none where there is no pipe. It takes no memory.
pub fn pipe_len_of(stored: Option<&OpenPipe>) -> usize
    ensures { (o : Option Inode)
        → pipe_inode o ≡ mapped (λ pipe. A_pipe pipe.bytes) (option_copied stored.entry)
        → result ≡ length (pipe_of_inode o) }
{
    match stored {
        Some(pipe) => pipe.bytes.len(),
        None => 0,
    }
}

/// The same with changes of its contents, which need the pipe below them where it is not new. It
/// takes no memory.
pub fn pipe_len_over(contents: &Contents, stored: Option<&OpenPipe>) -> usize
    requires { form_of contents.now ≡ of_pipe false → IsSome (option_copied stored) }
    ensures { (o : Option Inode)
        → pipe_inode o ≡ mapped (λ pipe. A_pipe pipe.bytes) (option_copied stored.entry)
        → result ≡ length (pipe_of_inode (patched contents.now o)) }
{
    match contents {
        Contents::Same => pipe_len_of(stored),
        Contents::Names { .. } => 0,
        Contents::Bytes { .. } => 0,
        Contents::Fixed(_) => 0,
        Contents::Pipe {
            new: Some(pipe),
            changes,
        } => changes.len(&pipe.bytes),
        Contents::Pipe { new: None, changes } => match stored {
            Some(pipe) => changes.len(&pipe.bytes),
            None => unreachable!(),
        },
    }
}

/// The target of a symbolic link with changes of its contents, by the one below them; no bytes where
/// it is none. It takes no memory.
pub fn target_over<'a>(contents: &'a Contents, stored: &'a [u8]) -> &'a [u8]
    requires { length stored.now ≤ TARGET_LIMIT }
    ensures value { (o : Option Inode) → target_of_inode o ≡ stored.now
        → result.now ≡ target_of_inode (patched contents.now o) }
    ensures small { length result.now ≤ TARGET_LIMIT }
{
    match contents {
        Contents::Same => stored,
        Contents::Names { .. } => &[],
        Contents::Bytes { .. } => &[],
        Contents::Pipe { .. } => &[],
        Contents::Fixed(fixed) => fixed.target(),
    }
}
