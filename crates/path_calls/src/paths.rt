// The plans of calls on paths.
ghost use Rattle.std.specs.Prelude.{◌≡◌, ◌∷◌, [], ℕ};
ghost use Rattle.path_calls.specs.Parts.{place_at, last_at, without_names, link_paths};
ghost use Rattle.path_calls.specs.Parts.{rename_paths, gives, replaced};
ghost use Rattle.model.specs.Plans.{plan, changed, cut_to, moved};
ghost use Rattle.model.specs.Calls.{own, Done, Truncate, Mkdir, Rmdir, List_directory, Link, Unlink};
ghost use Rattle.model.specs.Calls.{Rename};
ghost use Rattle.look.specs.Asked.{Comes, Tells};

use crate::asking::{has_no_names, names, size};
use crate::change::{Change, Edits, changed, changed_by, unchanged};
use crate::steps::{
    absent, is_directory, must_be_directory_for, must_be_no_directory_for, must_not_be_directory,
    must_not_be_root, must_not_be_special, must_not_go_below, parsed, refuse_if,
};
use heap::Heap;
use ids::{Answer, Bytes, Edit, Errno, Kind, Num, Refusal, Replaced};
use look::Look;
use path::Path;
use walk::{Last, Reads, must_be_directory, must_not_be_link, or_refuse, walk_to_last};

// One change, and no more to say.
pub(crate) fn done(heap: Heap, edit: Edit) -> Result<Change, Refusal>
    ensures { Tells (changed Done (edit ∷ [])) result }
{
    changed_by(heap, Answer::Done, edit)
}

// The place that a path leads to.
pub(crate) fn place_at<L: Look>(
    look: &L,
    path: &Bytes,
    reads: &mut Reads,
) -> Result<(Num, Option<Kind>), Refusal>
    ensures { let k = L.state look.now in
        Comes k (place_at k.bounds.path_bytes k.root path.now) reads.old result reads.new }
{
    let path = parsed(look, reads.heap(), path)?;
    walk::walk(look, &path, reads)
}

// Where the last name of a path stands.
pub(crate) fn last_at<L: Look>(
    look: &L,
    of_root: Errno,
    path: &Bytes,
    reads: &mut Reads,
) -> Result<Last, Refusal>
    ensures { let k = L.state look.now in
        Comes k (last_at k.bounds.path_bytes k.root of_root path.now) reads.old result reads.new }
{
    let path = parsed(look, reads.heap(), path)?;
    walk_to_last(look, of_root, &path, reads)
}

/// The edits of a file's new length.
pub fn cut_to<L: Look>(
    look: &L,
    file: Num,
    length: u64,
    reads: &mut Reads,
) -> Result<Edits, Refusal>
    ensures { Comes (L.state look.now) (cut_to file length) reads.old result reads.new }
{
    let size = size(look, file, reads)?;
    let edits = Edits::new(reads.heap()).with(Edit::Cut {
        file,
        length_before: size,
        length,
    })?;
    Ok(edits)
}

/// What truncate of a path to a length comes to.
pub fn truncate<L: Look>(
    look: &L,
    path: &Bytes,
    length: u64,
    reads: &mut Reads,
) -> Result<Change, Refusal>
    ensures { (pid : ℕ) → Comes (L.state look.now)
        (plan (own (L.state look.now) pid (Truncate path.now length)) (Truncate path.now length))
        reads.old result reads.new }
{
    let place = place_at(look, path, reads)?;
    must_not_be_directory(&place, Errno::EISDIR)?;
    must_not_be_link(&place)?;
    must_not_be_special(&place, Errno::EINVAL)?;
    refuse_if(look.largest() < length, Errno::EFBIG)?;
    let cut = cut_to(look, place.0, length, reads)?;
    changed(Answer::Done, cut)
}

/// What mkdir of a path comes to.
pub fn mkdir<L: Look>(look: &L, path: &Bytes, reads: &mut Reads) -> Result<Change, Refusal>
    ensures { (pid : ℕ) → Comes (L.state look.now)
        (plan (own (L.state look.now) pid (Mkdir path.now)) (Mkdir path.now))
        reads.old result reads.new }
{
    let last = last_at(look, Errno::EEXIST, path, reads)?;
    absent(last.found)?;
    done(
        reads.heap(),
        Edit::MakeDirectory {
            parent: last.parent,
            name: last.name,
            index: 0,
        },
    )
}

/// What rmdir of a path comes to.
pub fn rmdir<L: Look>(look: &L, path: &Bytes, reads: &mut Reads) -> Result<Change, Refusal>
    ensures { (pid : ℕ) → Comes (L.state look.now)
        (plan (own (L.state look.now) pid (Rmdir path.now)) (Rmdir path.now))
        reads.old result reads.new }
{
    let last = last_at(look, Errno::EBUSY, path, reads)?;
    let what = or_refuse(Errno::ENOENT, last.found)?;
    must_be_directory(&what)?;
    must_have_no_names(look, what.0, reads)?;
    done(
        reads.heap(),
        Edit::UnnameDirectory {
            parent: last.parent,
            name: last.name,
            directory: what.0,
        },
    )
}

fn must_have_no_names<L: Look>(look: &L, dir: Num, reads: &mut Reads) -> Result<(), Refusal>
    ensures { Comes (L.state look.now) (without_names dir) reads.old result reads.new }
{
    let is_empty = has_no_names(look, dir, reads)?;
    refuse_if(!is_empty, Errno::ENOTEMPTY)
}

/// What a list of the names of a path's directory comes to.
pub fn list<L: Look>(look: &L, path: &Bytes, reads: &mut Reads) -> Result<Change, Refusal>
    ensures { (pid : ℕ) → Comes (L.state look.now)
        (plan (own (L.state look.now) pid (List_directory path.now)) (List_directory path.now))
        reads.old result reads.new }
{
    let place = place_at(look, path, reads)?;
    must_not_be_link(&place)?;
    must_be_directory(&place)?;
    let entries = names(look, place.0, reads)?;
    unchanged(reads.heap(), Answer::Names(entries))
}

/// What unlink of a path comes to.
pub fn unlink<L: Look>(look: &L, path: &Bytes, reads: &mut Reads) -> Result<Change, Refusal>
    ensures { (pid : ℕ) → Comes (L.state look.now)
        (plan (own (L.state look.now) pid (Unlink path.now)) (Unlink path.now))
        reads.old result reads.new }
{
    let last = last_at(look, Errno::EPERM, path, reads)?;
    let what = or_refuse(Errno::ENOENT, last.found)?;
    must_not_be_directory(&what, Errno::EPERM)?;
    done(
        reads.heap(),
        Edit::UnnameFile {
            parent: last.parent,
            name: last.name,
            file: what.0,
        },
    )
}

/// What link of the first path by the second comes to.
pub fn link<L: Look>(
    look: &L,
    old: &Bytes,
    path: &Bytes,
    reads: &mut Reads,
) -> Result<Change, Refusal>
    ensures { (pid : ℕ) → Comes (L.state look.now)
        (plan (own (L.state look.now) pid (Link old.now path.now)) (Link old.now path.now))
        reads.old result reads.new }
{
    let from = parsed(look, reads.heap(), old)?;
    let to = parsed(look, reads.heap(), path)?;
    let change = link_paths(look, &from, &to, reads);
    drop(to);
    drop(from);
    change
}

fn link_paths<L: Look>(
    look: &L,
    from: &Path,
    to: &Path,
    reads: &mut Reads,
) -> Result<Change, Refusal>
    ensures { let k = L.state look.now in
        Comes k (link_paths k.root from.now to.now) reads.old result reads.new }
{
    let what = walk::walk(look, from, reads)?;
    must_not_be_directory(&what, Errno::EPERM)?;
    let last = walk_to_last(look, Errno::EEXIST, to, reads)?;
    absent(last.found)?;
    done(
        reads.heap(),
        Edit::NameFile {
            parent: last.parent,
            name: last.name,
            file: what.0,
        },
    )
}

/// What rename of the first path to the second comes to.
pub fn rename<L: Look>(
    look: &L,
    old: &Bytes,
    path: &Bytes,
    reads: &mut Reads,
) -> Result<Change, Refusal>
    ensures { (pid : ℕ) → Comes (L.state look.now)
        (plan (own (L.state look.now) pid (Rename old.now path.now)) (Rename old.now path.now))
        reads.old result reads.new }
{
    let from = parsed(look, reads.heap(), old)?;
    let to = parsed(look, reads.heap(), path)?;
    let change = rename_paths(look, &from, &to, reads);
    drop(to);
    drop(from);
    change
}

fn rename_paths<L: Look>(
    look: &L,
    from: &Path,
    to: &Path,
    reads: &mut Reads,
) -> Result<Change, Refusal>
    ensures { let k = L.state look.now in
        Comes k (rename_paths k.root from.now to.now) reads.old result reads.new }
{
    must_not_be_root(from, to)?;
    let at = walk_to_last(look, Errno::EBUSY, from, reads)?;
    let what = or_refuse(Errno::ENOENT, at.found)?;
    must_not_go_below(&what, from, to)?;
    let onto = walk_to_last(look, Errno::EBUSY, to, reads)?;
    moved(look, at, what, onto, reads)
}

// A name that moves to another place.
fn moved<L: Look>(
    look: &L,
    from: Last,
    what: (Num, Option<Kind>),
    to: Last,
    reads: &mut Reads,
) -> Result<Change, Refusal>
    ensures { Comes (L.state look.now)
        (moved from what to to.found) reads.old result reads.new }
{
    if gives(to.found, what.0) {
        drop(to);
        drop(from);
        return unchanged(reads.heap(), Answer::Done);
    }
    match replaced(look, &what, to.found, reads) {
        Ok(replaced) => done(
            reads.heap(),
            Edit::Move {
                from: from.parent,
                old_name: from.name,
                to: to.parent,
                new_name: to.name,
                inode: what.0,
                replaced,
            },
        ),
        Err(refusal) => {
            drop(to);
            drop(from);
            Err(refusal)
        }
    }
}

// Whether a name gives this number.
fn gives(found: Option<(Num, Option<Kind>)>, num: Num) -> bool
    ensures { result ≡ gives found num }
{
    match found {
        Some(old) => num == old.0,
        None => false,
    }
}

// What loses its name to what moves: nothing, a file, or a directory, which has to be empty.
fn replaced<L: Look>(
    look: &L,
    what: &(Num, Option<Kind>),
    found: Option<(Num, Option<Kind>)>,
    reads: &mut Reads,
) -> Result<Replaced, Refusal>
    ensures { Comes (L.state look.now) (replaced what.now found) reads.old result reads.new }
{
    let Some(old) = found else {
        return Ok(Replaced::Nothing);
    };
    must_be_no_directory_for(what, &old)?;
    must_be_directory_for(what, &old)?;
    if is_directory(&old) {
        must_have_no_names(look, old.0, reads)?;
        Ok(Replaced::Directory(old.0))
    } else {
        Ok(Replaced::File(old.0))
    }
}
