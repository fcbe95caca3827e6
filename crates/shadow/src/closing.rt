// What nothing leads to any more goes.
ghost use Rattle.std.specs.Prelude.{◌≡◌, ◌≢◌, List, None, nat_lt};
ghost use Rattle.model.specs.Changes.{openings};
ghost use Rattle.freeing_laws.specs.Pipes.{is_of};
ghost use Rattle.std.specs.List.{flat_map};
ghost use Rattle.std.specs.Map.{keys_of};
ghost use Rattle.model.specs.FiniteMap.{entries, get, values};
ghost use Rattle.freeing_laws.specs.Counts.{free_inode};
ghost use Rattle.freeing_laws.specs.Sweep.{all_closed, closed, free_inodes};
ghost use Rattle.shadow.specs.Laid.{Frees, Holds, given_by, given_in};
ghost use Rattle.store.specs.Shown.{inodes};
ghost use Rattle.shadow.specs.Stored.{Processes, state_of};

use fdtable::{FdTable, SlotPatch};
use heap::Heap;
use ids::{Num, Pid};
use notes::Openings;
use objects::Description;
use store::Store;

/// Closes what slots gave before and no slot gives now. It takes no memory.
pub(crate) fn close_former(store: &mut Store, former: &[(Pid, SlotPatch)])
    requires { (ps : Processes) × Holds ps store.old }
    ensures { (ps : Processes) → Holds ps store.old
        → Frees (all_closed (given_in former.now)) ps store.old store.new }
{
    for (_pid, patch) in former {
        close_given(store, patch);
    }
}

/// Closes what one process's slots gave before. It takes no memory.
pub(crate) fn close_given(store: &mut Store, former: &SlotPatch)
    requires { (ps : Processes) × Holds ps store.old }
    ensures { (ps : Processes) → Holds ps store.old
        → Frees (all_closed (flat_map (λ g. given_by g.1) (entries former.now))) ps store.old
        store.new }
{
    let mut from = 0;
    while let Some(fd) = former.noted_from(from) {
        match former.get(fd) {
            Some(Some(description)) => close(store, description),
            Some(None) => (),
            None => (),
        }
        from = fd.0 + 1;
    }
}

/// Closes what a table had open. It takes no memory.
pub(crate) fn close_all(store: &mut Store, former: &FdTable)
    requires { (ps : Processes) × Holds ps store.old }
    ensures { (ps : Processes) → Holds ps store.old
        → Frees (all_closed (values former.now)) ps store.old store.new }
{
    let mut from = 0;
    while let Some(fd) = former.open_from(from) {
        if let Some(description) = former.get(fd) {
            close(store, description);
        }
        from = fd.0 + 1;
    }
}

/// Closes new descriptions that no slot gives. It takes no memory.
pub(crate) fn close_new(store: &mut Store, openings: &Openings)
    requires { (ps : Processes) × Holds ps store.old }
    ensures { (ps : Processes) → Holds ps store.old
        → Frees (all_closed (keys_of openings.now)) ps store.old store.new }
{
    for (num, _opening) in &openings.each {
        close(store, *num);
    }
}

/// A description goes that no slot gives, and its inode where nothing else leads to it. It takes no
/// memory.
pub(crate) fn close(store: &mut Store, num: Num)
    requires { (ps : Processes) × Holds ps store.old }
    ensures { (ps : Processes) → Holds ps store.old
        → Frees (closed num) ps store.old store.new }
{
    match store.description(num) {
        Some(description) => {
            let inode = inode_in(description);
            if store.holders(num) == 0 {
                store.lose(num);
                store.remove_opening(inode);
            }
            free(store, inode);
        }
        None => (),
    }
}

fn inode_in(description: Description) -> Num
    ensures { result ≡ description.inode }
{
    description.inode
}

/// These inodes go to which nothing leads. It takes no memory.
pub(crate) fn free_all(store: &mut Store, unnamed: Vec<Num, Heap>)
    requires { (ps : Processes) × Holds ps store.old }
    ensures { (ps : Processes) → Holds ps store.old
        → Frees (free_inodes unnamed.entry.items) ps store.old store.new }
{
    for num in unnamed {
        free(store, num);
    }
}

/// An inode goes to which no name and no description leads, unless it is the root. It takes no
/// memory.
pub(crate) fn free(store: &mut Store, num: Num)
    requires { (ps : Processes) × Holds ps store.old }
    ensures { (ps : Processes) → Holds ps store.old
        → Frees (free_inode num) ps store.old store.new }
{
    if num == store.root() {
        return;
    }
    if store.kind(num).is_none() {
        return;
    }
    if store.is_named(num) {
        return;
    }
    if is_open(store, num) {
        return;
    }
    store.lose(num);
}

// Whether a description is of an inode.
fn is_open(store: &Store, num: Num) -> bool
    requires holds { (ps : Processes) × Holds ps store.now }
    requires there { get (inodes store.now) num ≢ None }
    ensures { (ps : Processes) → Holds ps store.now
        → result ≡ nat_lt 0 (openings (state_of ps store.now) num) }
{
    match store.pipe(num) {
        Some(pipe) => {
            is_of(num, store.description(pipe.reader)) || is_of(num, store.description(pipe.writer))
        }
        None => store.openings(num) > 0,
    }
}

// Whether it is a description of this inode.
fn is_of(inode: Num, description: Option<Description>) -> bool
    ensures { result ≡ is_of inode description }
{
    match description {
        Some(description) => description.inode == inode,
        None => false,
    }
}
