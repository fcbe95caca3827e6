// The changes of inodes and of descriptions, made in the store.
ghost use Rattle.std.specs.Prelude.{◌≡◌, ◌≢◌, ◌≤◌, ◌<◌, ◌^◌, ℕ, false, true, Some};
ghost use Rattle.std.specs.Prelude.{length};
ghost use Rattle.ids.specs.declared.limits.TheConstants.{PIPE_CAPACITY};
ghost use Rattle.model.specs.FiniteMap.{get};
ghost use Rattle.store.specs.Numbers.{coming};
ghost use Rattle.store.specs.declared.Object.TheVariants.{Nothing};
ghost use Rattle.shadow.specs.Laid.{AreReady, AreReopened, AreRevised, CanBeSet, CanBeSetThen};
ghost use Rattle.shadow.specs.Laid.{IsCarried, IsReady, IsReadyFile};
ghost use Rattle.model.specs.State.{pipe_of_inode};
ghost use Rattle.pipe_shadow.specs.View.{view_over as pipe_over};
ghost use Rattle.store.specs.Numbers.{present};
ghost use Rattle.store.specs.Shown.{inodes};
ghost use Rattle.store.specs.declared.Object.TheVariants.{Pipe as A_pipe};
ghost use Rattle.shadow.specs.Laid.{IsPassedOver, IsReadyPipe, IsReopened, IsWrittenOver};
ghost use Rattle.notes.specs.declared.opening.Opening.TheVariants.{New};
ghost use Rattle.notes.specs.Patches.{is_new, kept_at, opening_at, rights_over};

use file_shadow::FileShadow;
use heap::Heap;
use ids::{Num, PIPE_CAPACITY};
use notes::{Contents, InodeChange, Inodes, NewRights, Opening, Openings};
use objects::{Description, FileData};
use pipe_shadow::PipeShadow;
use store::{Object, OpenFile, OpenPipe, Opened, Store};

/// Makes what is changed of inodes, in the room that is kept for it, and sets their rights then. It
/// takes no memory.
pub(crate) fn lay_inodes_with_rights(
    store: &mut Store,
    heap: Heap,
    inodes: Inodes,
    rights: &NewRights,
)
    requires ready { AreReady inodes store.old }
    requires set { CanBeSetThen inodes rights.now store.old }
    ensures root { store.new.root ≡ store.old.root }
    ensures places { (n : ℕ)
        → IsCarried (kept_at inodes n) (get store.old.places n) (get store.new.places n) }
    ensures rights { (n : ℕ) → get store.new.rights n
        ≡ rights_over (kept_at rights.now n) (get store.old.rights n) }
{
    lay_inodes(store, heap, inodes);
    lay_rights(store, rights);
}

// Sets rights of inodes that are there.
fn lay_rights(store: &mut Store, rights: &NewRights)
    requires { CanBeSet rights.now store.old }
    ensures { AreRevised rights.now store.old store.new }
{
    for (num, given) in &rights.each {
        store.set_rights(*num, *given);
    }
}

// Makes what is changed of inodes.
fn lay_inodes(store: &mut Store, heap: Heap, inodes: Inodes)
    requires { AreReady inodes store.old }
    ensures root { store.new.root ≡ store.old.root }
    ensures rights { store.new.rights ≡ store.old.rights }
    ensures places { (n : ℕ)
        → IsCarried (kept_at inodes n) (get store.old.places n) (get store.new.places n) }
{
    for (num, change) in inodes.each {
        lay_inode(store, heap, num, change);
    }
}

// Makes what is changed of one inode.
fn lay_inode(store: &mut Store, heap: Heap, num: Num, change: InodeChange)
    requires { IsReady store.old num change }
    ensures root { store.new.root ≡ store.old.root }
    ensures rights { store.new.rights ≡ store.old.rights }
    ensures here { IsCarried (Some change) (get store.old.places num) (get store.new.places num) }
    ensures others { (n : ℕ) → n ≢ num → get store.new.places n ≡ get store.old.places n }
{
    let InodeChange {
        made,
        promised,
        contents,
        ..
    } = change;
    match contents {
        Contents::Same => (),
        Contents::Names { names, .. } => {
            if made.is_some() {
                store.install(num);
            }
            store.lay(num, names.into_given(), promised);
        }
        Contents::Bytes { bytes, .. } => {
            if made.is_some() {
                install_file(store, heap, num, bytes);
            } else {
                lay_bytes(store, heap, num, bytes);
            }
        }
        Contents::Pipe { new, changes } => {
            match new {
                Some(pipe) => install_pipe(store, num, pipe, changes),
                None => lay_pipe(store, num, &changes),
            }
        }
        Contents::Fixed(fixed) => store.install_as(num, Object::Fixed(fixed)),
    }
}

// Shows a new pipe, with its changes.
fn install_pipe(store: &mut Store, num: Num, pipe: OpenPipe, changes: PipeShadow)
    requires ready { IsReadyPipe (Some pipe) changes (get store.old.places num) }
    ensures root { store.new.root ≡ store.old.root }
    ensures rights { store.new.rights ≡ store.old.rights }
    ensures here { get store.new.places num ≡ Some (present (A_pipe (record pipe {
      bytes = pipe_over changes pipe.bytes;
    }))) }
    ensures others { (n : ℕ) → n ≢ num → get store.new.places n ≡ get store.old.places n }
{
    let mut pipe = pipe;
    changes.commit_into(&mut pipe.bytes);
    store.install_as(num, Object::Pipe(pipe));
}

// Lays changes over those of a pipe.
fn lay_pipe(store: &mut Store, num: Num, changes: &PipeShadow)
    requires ready { IsReadyPipe None changes.now (get store.old.places num) }
    ensures root { store.new.root ≡ store.old.root }
    ensures rights { store.new.rights ≡ store.old.rights }
    ensures here { IsPassedOver changes.now (get store.old.places num) (get store.new.places num) }
    ensures others { (n : ℕ) → n ≢ num → get store.new.places n ≡ get store.old.places n }
{
    let (taken, appended) = changes.split(pipe_len(store, num));
    store.change_pipe(num, taken, appended);
}

/// How many bytes a pipe has; none where there is no pipe. It takes no memory.
pub(crate) fn pipe_len(store: &Store, num: Num) -> usize
    ensures len { result ≡ length (pipe_of_inode (get (inodes store.now) num)) }
    ensures within { result ≤ PIPE_CAPACITY }
{
    match store.pipe(num) {
        Some(pipe) => pipe.bytes.len(),
        None => 0,
    }
}

// Shows a new file.
fn install_file(store: &mut Store, heap: Heap, num: Num, bytes: FileShadow)
    requires ready { IsReadyFile true (get store.old.places num) }
    ensures root { store.new.root ≡ store.old.root }
    ensures rights { store.new.rights ≡ store.old.rights }
    ensures here { IsWrittenOver bytes (get store.old.places num) (get store.new.places num) }
    ensures others { (n : ℕ) → n ≢ num → get store.new.places n ≡ get store.old.places n }
{
    let mut data = FileData::new(heap);
    bytes.commit_into(&mut data);
    store.install_as(
        num,
        Object::File(OpenFile {
            bytes: data,
            openings: 0,
        }),
    );
}

// Lays bytes over those of a file.
fn lay_bytes(store: &mut Store, heap: Heap, num: Num, bytes: FileShadow)
    requires ready { IsReadyFile false (get store.old.places num) }
    ensures root { store.new.root ≡ store.old.root }
    ensures rights { store.new.rights ≡ store.old.rights }
    ensures here { IsWrittenOver bytes (get store.old.places num) (get store.new.places num) }
    ensures others { (n : ℕ) → n ≢ num → get store.new.places n ≡ get store.old.places n }
{
    let mut file = store.swap_file(num, FileData::new(heap));
    bytes.commit_into(&mut file);
    let _empty = store.swap_file(num, file);
}

/// Makes what is changed of descriptions. It takes no memory.
pub(crate) fn lay_openings(store: &mut Store, openings: &Openings)
    requires { (d : ℕ) → is_new (opening_at openings.now d) ≡ true
        → get store.old.places d ≡ Some (coming Nothing) }
    ensures { AreReopened openings.now store.old store.new }
{
    for (num, opening) in &openings.each {
        lay_opening(store, *num, *opening);
    }
}

// Makes what is changed of one description.
fn lay_opening(store: &mut Store, num: Num, opening: Opening)
    requires { is_new opening ≡ true → get store.old.places num ≡ Some (coming Nothing) }
    ensures { IsReopened num opening store.old store.new }
{
    match opening {
        Opening::Kept => (),
        Opening::Moved(offset) => store.set_offset(num, offset),
        Opening::New(description) => open(store, num, description),
    }
}

/// Shows a new description, which is counted at its inode.
pub(crate) fn open(store: &mut Store, num: Num, description: Description)
    requires { get store.old.places num ≡ Some (coming Nothing) }
    ensures { IsReopened num (New description) store.old store.new }
{
    let inode = description.inode;
    // For the proof: a count of openings cannot overflow.
    store.numbers_are_few();
    store.install_as(
        num,
        Object::Description(Opened {
            description,
            holders: 0,
        }),
    );
    // It is always so: there are as many openings as descriptions at most.
    let is_few = store.openings(inode) < u128::MAX;
    if is_few {
        store.add_opening(inode);
    }
}
