// What a transaction has changed of one inode.
ghost use Rattle.std.specs.Prelude.{◌≡◌, ◌↔◌, ◌++◌, ◌+◌, ◌≤◌, ◌<◌, ◌^◌, [], ℕ, Contains, IfOk, OnErr};
ghost use Rattle.std.specs.Prelude.{OnOk, Option, None, Some, drop, length};
ghost use Rattle.ids.specs.declared.limits.TheConstants.{LARGEST_FILE};
ghost use Rattle.model.specs.FiniteMap.{empty, insert};
ghost use Rattle.model.specs.State.{File, Inode};
ghost use Rattle.model.specs.Changes.{sized, written};
ghost use Rattle.model.specs.Plan.{blocks};
ghost use Rattle.notes.specs.Patches.{AllReach, added_by, bytes_before, form_of, net_of, new_ends};
ghost use Rattle.notes.specs.Patches.{of_bytes, patched};
ghost use Rattle.notes.specs.Patches.{numbers_in, untouched};
ghost use Rattle.notes.specs.declared.change.Contents.TheVariants.{Names};
ghost use Rattle.notes.specs.declared.change.Former.TheVariants.{Noted, Other};
ghost use Rattle.notes.specs.Notes.{IsAppended, IsPassedBy, IsPiped, IsTaken};
ghost use Rattle.notes.specs.Notes.{IsCut, IsGiven, IsGone, IsMade, IsNamed, IsPutBack, IsUnnamed};
ghost use Rattle.notes.specs.Notes.{IsWritten, put_back, room_for};
ghost use Rattle.notes.specs.Steps.{bytes_cut, bytes_written, filed, listed, name_noted};

use crate::new_object::NewObject;
use dirlist::NamePatch;
use file_shadow::FileShadow;
use heap::Heap;
use ids::{Fixed, Name, Num};
use pipe_shadow::PipeShadow;
use std::alloc::AllocError;
use std::mem;
use store::OpenPipe;

/// What a transaction can make.
#[derive(Clone, Copy)]
pub enum Made {
    /// A directory.
    Directory,
    /// A file.
    File,
    /// A pipe.
    Pipe,
    /// A symbolic link, a FIFO or a socket.
    Fixed,
}

/// What has changed of an inode's contents.
#[derive(Drop)]
pub enum Contents {
    /// Nothing.
    Same,
    /// Names of a directory.
    Names {
        /// Whether they are laid over none.
        is_fresh: bool,
        /// The names that changed.
        names: NamePatch,
    },
    /// Bytes of a file.
    Bytes {
        /// Whether they are laid over none.
        is_fresh: bool,
        /// The bytes that changed.
        bytes: FileShadow,
    },
    /// Bytes of a pipe.
    Pipe {
        /// The pipe, where it is new.
        new: Option<OpenPipe>,
        /// What is taken from it and appended to it.
        changes: PipeShadow,
    },
    /// All of them: an object is new, and never changes.
    Fixed(Fixed),
}

/// What a note of a name took the place of.
#[derive(Drop)]
pub(crate) enum Former {
    /// What was noted of the name before, if anything was.
    Noted(Option<Option<Num>>),
    /// Contents without names.
    Other(Contents),
}

/// What a transaction has changed of one inode.
#[derive(Drop)]
pub struct InodeChange {
    /// What the transaction has made under this number.
    pub made: Option<Made>,
    /// For how many names room is promised in the directory.
    pub promised: usize,
    /// How many names the transaction gave the inode.
    pub named: usize,
    /// How many names it took from the inode.
    pub unnamed: usize,
    /// What has changed of its contents.
    pub contents: Contents,
}

impl InodeChange {
    /// Nothing is changed. It takes no memory.
    pub(crate) fn new() -> InodeChange
        ensures { net_of (Some result) ≡ untouched }
    {
        InodeChange {
            made: None,
            promised: 0,
            named: 0,
            unnamed: 0,
            contents: Contents::Same,
        }
    }

    /// Notes what a name of the directory gives now, and the room that is promised for it where it
    /// gives something. Refused memory changes nothing.
    pub(crate) fn note_name(
        &mut self,
        heap: Heap,
        name: Name,
        given: Option<Num>,
    ) -> Result<(), AllocError>
        ensures ok { OnOk result
            (IsNamed name given (net_of (Some self.old)) (net_of (Some self.new))) }
        ensures err { OnErr result (self.new ≡ self.old) }
    {
        let Some(promised) = self.promised.checked_add(room_for(&given)) else {
            return Err(AllocError);
        };
        note_in(&mut self.contents, heap, name, given)?;
        self.promised = promised;
        Ok(())
    }

    /// Notes that a name of the directory is gone, and gives what the note took the place of.
    /// Refused memory changes nothing.
    pub(crate) fn note_gone(&mut self, heap: Heap, name: Name) -> Result<Former, AllocError>
        ensures ok { IfOk result (λ former.
            IsGone name former (net_of (Some self.old)) (net_of (Some self.new))) }
        ensures err { OnErr result (self.new ≡ self.old) }
    {
        note_gone_in(&mut self.contents, heap, name)
    }

    /// Takes the note of a name back. It takes no memory.
    pub(crate) fn put_back(&mut self, name: &Name, former: Former)
        ensures { IsPutBack name.now former (net_of (Some self.old)) (net_of (Some self.new)) }
    {
        match former {
            Former::Other(contents) => drop(mem::replace(&mut self.contents, contents)),
            Former::Noted(given) => put_back_in(&mut self.contents, name, given),
        }
    }

    /// Notes bytes that are written into the file from an offset on. Refused memory changes nothing.
    pub(crate) fn write(
        &mut self,
        heap: Heap,
        offset: usize,
        bytes: &[u8],
    ) -> Result<(), AllocError>
        requires { offset + length bytes.now ≤ LARGEST_FILE }
        ensures ok { OnOk result
            (IsWritten offset bytes.now (net_of (Some self.old)) (net_of (Some self.new))) }
        ensures err { OnErr result (self.new ≡ self.old) }
    {
        write_in(&mut self.contents, heap, offset, bytes)
    }

    /// Notes that the file is cut, or filled up, to this length. It takes no memory.
    pub(crate) fn cut(&mut self, heap: Heap, after: usize)
        requires { after ≤ LARGEST_FILE }
        ensures { IsCut after (net_of (Some self.old)) (net_of (Some self.new)) }
    {
        cut_in(&mut self.contents, heap, after);
    }

    /// Notes that so many bytes are taken from the front of the pipe. Refused memory changes nothing.
    pub(crate) fn take(&mut self, heap: Heap, count: usize) -> Result<(), AllocError>
        ensures ok { OnOk result
            (IsTaken count (net_of (Some self.old)) (net_of (Some self.new))) }
        ensures err { OnErr result (self.new ≡ self.old) }
    {
        take_in(&mut self.contents, heap, count)
    }

    /// Notes that these bytes are appended to the pipe. Refused memory changes nothing.
    pub(crate) fn append(&mut self, heap: Heap, bytes: &[u8]) -> Result<(), AllocError>
        ensures ok { OnOk result
            (IsAppended bytes.now (net_of (Some self.old)) (net_of (Some self.new))) }
        ensures err { OnErr result (self.new ≡ self.old) }
    {
        append_in(&mut self.contents, heap, bytes)
    }

    /// Notes that the transaction made this pipe. It takes no memory.
    pub(crate) fn note_pipe(&mut self, heap: Heap, pipe: OpenPipe)
        requires { pipe.bytes ≡ [] }
        ensures { IsPiped pipe.reader pipe.writer (net_of (Some self.old)) (net_of (Some self.new)) }
    {
        self.made = Some(Made::Pipe);
        let contents = Contents::Pipe {
            new: Some(pipe),
            changes: PipeShadow::new(heap),
        };
        drop(mem::replace(&mut self.contents, contents));
    }

    /// Notes that the transaction made the object, with its first name. It takes no memory.
    pub(crate) fn note_made(&mut self, heap: Heap, what: NewObject)
        requires { self.old.named + 1 < 2 ^ 64 }
        ensures { IsMade what (net_of (Some self.old)) (net_of (Some self.new)) }
    {
        self.made = Some(what.made());
        self.named += 1;
        drop(mem::replace(&mut self.contents, what.into_contents(heap)));
    }

    /// Notes that the inode has a name more. It takes no memory.
    pub(crate) fn note_named(&mut self)
        requires { self.old.named + 1 < 2 ^ 64 }
        ensures { IsGiven (net_of (Some self.old)) (net_of (Some self.new)) }
    {
        self.named += 1;
    }

    /// Notes that a name was taken from the inode. It takes no memory.
    pub(crate) fn note_unnamed(&mut self)
        requires { self.old.unnamed + 1 < 2 ^ 64 }
        ensures { IsUnnamed (net_of (Some self.old)) (net_of (Some self.new)) }
    {
        self.unnamed += 1;
    }
}

// How much room in its directory a name takes that comes.
fn room_for(given: &Option<Num>) -> usize
    ensures { result ≡ room_for given.now }
{
    match given {
        Some(_) => 1,
        None => 0,
    }
}

// Notes what a name gives now; what is no directory goes.
fn note_in(
    contents: &mut Contents,
    heap: Heap,
    name: Name,
    given: Option<Num>,
) -> Result<(), AllocError>
    ensures contents { OnOk result ((o : Option Inode)
        → patched contents.new o ≡ name_noted name given (patched contents.old o)) }
    ensures form { OnOk result (form_of contents.new ≡ listed (form_of contents.old)) }
    ensures added { OnOk result
        (added_by contents.new ≤ added_by contents.old + room_for given) }
    ensures numbers { OnOk result (numbers_in contents.new ≡ []) }
    ensures ends { OnOk result (new_ends contents.new ≡ None) }
    ensures reach { OnOk result ((o : Option Inode) → AllReach contents.new o) }
    ensures err { OnErr result (contents.new ≡ contents.old) }
{
    match contents {
        Contents::Names { names, .. } => names.note(name, given),
        Contents::Same => note_first(contents, heap, false, name, given),
        Contents::Bytes { .. } => note_first(contents, heap, true, name, given),
        Contents::Pipe { .. } => note_first(contents, heap, true, name, given),
        Contents::Fixed(_) => note_first(contents, heap, true, name, given),
    }
}

// Notes what a name gives now, in place of what was noted.
fn note_first(
    contents: &mut Contents,
    heap: Heap,
    fresh: bool,
    name: Name,
    given: Option<Num>,
) -> Result<(), AllocError>
    ensures ok { OnOk result (contents.new ≡ Names fresh (insert empty name given)) }
    ensures err { OnErr result (contents.new ≡ contents.old) }
{
    let noted = first_name(heap, fresh, name, given)?;
    drop(mem::replace(contents, noted));
    Ok(())
}

// Notes that a name is gone, and gives what the note took the place of; what is no directory goes.
fn note_gone_in(contents: &mut Contents, heap: Heap, name: Name) -> Result<Former, AllocError>
    ensures contents { OnOk result ((o : Option Inode)
        → patched contents.new o ≡ name_noted name None (patched contents.old o)) }
    ensures form { OnOk result (form_of contents.new ≡ listed (form_of contents.old)) }
    ensures added { OnOk result (added_by contents.new ≤ added_by contents.old) }
    ensures numbers { OnOk result (numbers_in contents.new ≡ []) }
    ensures ends { OnOk result (new_ends contents.new ≡ None) }
    ensures reach { OnOk result ((o : Option Inode) → AllReach contents.new o) }
    ensures back { IfOk result (λ former. put_back former name contents.new ≡ contents.old) }
    ensures err { OnErr result (contents.new ≡ contents.old) }
{
    match contents {
        Contents::Names { names, .. } => {
            let former = names.look(&name);
            names.note(name, None)?;
            Ok(Former::Noted(former))
        }
        Contents::Same => note_first_gone(contents, heap, false, name),
        Contents::Bytes { .. } => note_first_gone(contents, heap, true, name),
        Contents::Pipe { .. } => note_first_gone(contents, heap, true, name),
        Contents::Fixed(_) => note_first_gone(contents, heap, true, name),
    }
}

// Notes that a name is gone, in place of what was noted, and gives that.
fn note_first_gone(
    contents: &mut Contents,
    heap: Heap,
    fresh: bool,
    name: Name,
) -> Result<Former, AllocError>
    ensures ok { OnOk result (contents.new ≡ Names fresh (insert empty name None)) }
    ensures former { IfOk result (λ former. former ≡ Other contents.old) }
    ensures err { OnErr result (contents.new ≡ contents.old) }
{
    let noted = first_name(heap, fresh, name, None)?;
    Ok(Former::Other(mem::replace(contents, noted)))
}

// Takes a name's note back, where there are notes of names.
fn put_back_in(contents: &mut Contents, name: &Name, given: Option<Option<Num>>)
    ensures { contents.new ≡ put_back (Noted given) name.now contents.old }
{
    match contents {
        Contents::Names { names, .. } => names.put_back(name, given),
        Contents::Same => (),
        Contents::Bytes { .. } => (),
        Contents::Pipe { .. } => (),
        Contents::Fixed(_) => (),
    }
}

/// The changes of a directory with one name.
pub(crate) fn first_name(
    heap: Heap,
    fresh: bool,
    name: Name,
    given: Option<Num>,
) -> Result<Contents, AllocError>
    ensures { IfOk result (λ c. c ≡ Names fresh (insert empty name given)) }
{
    let mut names = NamePatch::new(heap);
    names.note(name, given)?;
    Ok(Contents::Names {
        is_fresh: fresh,
        names,
    })
}

// Notes bytes that are written; what is no file goes.
fn write_in(
    contents: &mut Contents,
    heap: Heap,
    offset: usize,
    bytes: &[u8],
) -> Result<(), AllocError>
    requires { offset + length bytes.now ≤ LARGEST_FILE }
    ensures contents { OnOk result ((o : Option Inode)
        → patched contents.new o ≡ bytes_written offset bytes.now (patched contents.old o)) }
    ensures form { OnOk result (form_of contents.new ≡ filed (form_of contents.old)) }
    ensures numbers { OnOk result ((b : ℕ) → Contains (numbers_in contents.new) b
        ↔ Contains (numbers_in contents.old ++ blocks offset (length bytes.now)) b) }
    ensures err { OnErr result (contents.new ≡ contents.old) }
{
    match contents {
        Contents::Bytes { bytes: changes, .. } => changes.write(offset, bytes),
        Contents::Same => write_first(contents, heap, false, offset, bytes),
        Contents::Names { .. } => write_first(contents, heap, true, offset, bytes),
        Contents::Pipe { .. } => write_first(contents, heap, true, offset, bytes),
        Contents::Fixed(_) => write_first(contents, heap, true, offset, bytes),
    }
}

// Notes bytes that are written, in place of what was noted.
fn write_first(
    contents: &mut Contents,
    heap: Heap,
    fresh: bool,
    offset: usize,
    bytes: &[u8],
) -> Result<(), AllocError>
    requires { offset + length bytes.now ≤ LARGEST_FILE }
    ensures contents { OnOk result ((o : Option Inode)
        → patched contents.new o ≡ Some (File (written (bytes_before fresh o) offset bytes.now))) }
    ensures form { OnOk result (form_of contents.new ≡ of_bytes fresh) }
    ensures numbers { OnOk result ((b : ℕ)
        → Contains (numbers_in contents.new) b ↔ Contains (blocks offset (length bytes.now)) b) }
    ensures err { OnErr result (contents.new ≡ contents.old) }
{
    let noted = first_bytes(heap, fresh, offset, bytes)?;
    drop(mem::replace(contents, noted));
    Ok(())
}

// The changes of a file with the bytes of one write.
fn first_bytes(heap: Heap, fresh: bool, offset: usize, bytes: &[u8]) -> Result<Contents, AllocError>
    requires { offset + length bytes.now ≤ LARGEST_FILE }
    ensures contents { IfOk result (λ c. (o : Option Inode)
        → patched c o ≡ Some (File (written (bytes_before fresh o) offset bytes.now))) }
    ensures form { IfOk result (λ c. form_of c ≡ of_bytes fresh) }
    ensures numbers { IfOk result (λ c. (b : ℕ)
        → Contains (numbers_in c) b ↔ Contains (blocks offset (length bytes.now)) b) }
{
    let mut changes = FileShadow::new(heap);
    changes.write(offset, bytes)?;
    Ok(Contents::Bytes {
        is_fresh: fresh,
        bytes: changes,
    })
}

// Notes a file's length; what is no file goes.
fn cut_in(contents: &mut Contents, heap: Heap, len: usize)
    requires { len ≤ LARGEST_FILE }
    ensures contents { (o : Option Inode)
        → patched contents.new o ≡ bytes_cut len (patched contents.old o) }
    ensures form { form_of contents.new ≡ filed (form_of contents.old) }
    ensures numbers { numbers_in contents.new ≡ numbers_in contents.old }
{
    match contents {
        Contents::Bytes { bytes: changes, .. } => changes.cut(len),
        Contents::Same => cut_first(contents, heap, false, len),
        Contents::Names { .. } => cut_first(contents, heap, true, len),
        Contents::Pipe { .. } => cut_first(contents, heap, true, len),
        Contents::Fixed(_) => cut_first(contents, heap, true, len),
    }
}

// Notes a file's length, in place of what was noted.
fn cut_first(contents: &mut Contents, heap: Heap, fresh: bool, len: usize)
    requires { len ≤ LARGEST_FILE }
    ensures contents { (o : Option Inode)
        → patched contents.new o ≡ Some (File (sized len (bytes_before fresh o))) }
    ensures form { form_of contents.new ≡ of_bytes fresh }
    ensures numbers { numbers_in contents.new ≡ [] }
{
    drop(mem::replace(contents, first_cut(heap, fresh, len)));
}

// The changes of a file with one cut.
fn first_cut(heap: Heap, fresh: bool, len: usize) -> Contents
    requires { len ≤ LARGEST_FILE }
    ensures contents { (o : Option Inode)
        → patched result o ≡ Some (File (sized len (bytes_before fresh o))) }
    ensures form { form_of result ≡ of_bytes fresh }
    ensures numbers { numbers_in result ≡ [] }
{
    let mut changes = FileShadow::new(heap);
    changes.cut(len);
    Contents::Bytes {
        is_fresh: fresh,
        bytes: changes,
    }
}

// Notes bytes that are taken from a pipe. What shows anything else stays as it is.
fn take_in(contents: &mut Contents, heap: Heap, count: usize) -> Result<(), AllocError>
    ensures ok { OnOk result (IsPassedBy (drop count) count contents.old contents.new) }
    ensures err { OnErr result (contents.new ≡ contents.old) }
{
    match contents {
        Contents::Pipe { changes, .. } => changes.take(count),
        Contents::Same => {
            let mut changes = PipeShadow::new(heap);
            changes.take(count)?;
            drop(mem::replace(contents, Contents::Pipe { new: None, changes }));
            Ok(())
        }
        Contents::Names { .. } => Ok(()),
        Contents::Bytes { .. } => Ok(()),
        Contents::Fixed(_) => Ok(()),
    }
}

// Notes bytes that are appended to a pipe. What shows anything else stays as it is.
fn append_in(contents: &mut Contents, heap: Heap, bytes: &[u8]) -> Result<(), AllocError>
    ensures ok { OnOk result (IsPassedBy (λ xs. xs ++ bytes.now) 0 contents.old contents.new) }
    ensures err { OnErr result (contents.new ≡ contents.old) }
{
    match contents {
        Contents::Pipe { changes, .. } => changes.append(bytes),
        Contents::Same => {
            let mut changes = PipeShadow::new(heap);
            changes.append(bytes)?;
            drop(mem::replace(contents, Contents::Pipe { new: None, changes }));
            Ok(())
        }
        Contents::Names { .. } => Ok(()),
        Contents::Bytes { .. } => Ok(()),
        Contents::Fixed(_) => Ok(()),
    }
}
