// What each view has noted of each inode.
ghost use Rattle.std.specs.Prelude.{◌≡◌, ◌≢◌, ◌+◌, ◌≤◌, ◌<◌, ◌==◌, ◌&&◌, ℕ, IsOk, OnErr, OnOk};
ghost use Rattle.std.specs.Prelude.{None, Some, if◌then◌else◌, option_copied, true};
ghost use Rattle.model.specs.FiniteMap as map;
ghost use Rattle.view_times.specs.Kept.{note_at, notes_by, notes_in, room_by};
ghost use Rattle.view_times.specs.Noted.{behind};

use crate::by_number::ByNumber;
use crate::noted::Notes;
use heap::Heap;
use std::alloc::AllocError;
use std::collections::HashMap;
use std::hash::{BuildHasherDefault, FoldHasher};
use std::marker::Model;

/// What each view has noted of each inode, by the numbers of both, each found by a hash whose seed is
/// fixed. A view has a table of its own from its first `reserve` on. Contracts also see for how many
/// more notes each table has room.
pub(crate) struct Views {
    heap: Heap,
    tables: HashMap<u64, ByNumber<Notes>, BuildHasherDefault<FoldHasher>, Heap>,
}

impl Drop for Views {
    fn drop(self) {
        let Views { heap: _, tables: _ } = self;
    }
}

impl Model for Views {
    ghost use Rattle.std.specs.Coded.{coded_ℕ};
    ghost use Rattle.std.specs.Ordering.{nat_cmp};
    ghost use Rattle.model.specs.FiniteMap as map;
    ghost use Rattle.view_times.specs.Rows.{Rows, rows_code, rows_in};
    ghost use Rattle.view_times.specs.declared.noted.Notes.{Notes};
    ghost use Rattle.view_times.specs.contracts.noted.Notes.{the_row};

    ghost Value = { map.FinMap nat_cmp (Rows Notes) };

    ghost coded = { map.code coded_ℕ (rows_code the_row.coded) };

    ghost view = { λ v. rows_in v.tables };
}

// What is noted of an inode in the table of a view.
fn notes_in_table(table: &ByNumber<Notes>, inode: u64) -> Notes
    ensures { result ≡ notes_by (map.get table.now.rows inode) }
{
    match table.get(inode) {
        Some(notes) => *notes,
        None => Notes::nothing(),
    }
}

// These are noted of an inode in the table of a view, behind what was noted of it before.
fn note_in_table(table: &mut ByNumber<Notes>, inode: u64, notes: Notes)
    requires { 0 < table.old.room }
    ensures rows { table.new.rows ≡ map.insert table.old.rows inode
        (behind notes (notes_by (map.get table.old.rows inode))) }
    ensures room { table.old.room ≤ table.new.room + 1 }
{
    let former = notes_in_table(table, inode);
    table.put(inode, notes.behind(former));
}

impl Views {
    // No view has noted anything. It takes no memory.
    pub(crate) fn new(heap: Heap) -> Views
        ensures { result ≡ map.empty }
    {
        Views {
            heap,
            tables: HashMap::new(heap),
        }
    }

    // The table of a view.
    fn table(&self, view: u64) -> Option<&ByNumber<Notes>>
        ensures { option_copied result ≡ map.get self.now view }
    {
        self.tables.get(&view)
    }

    // What a view has noted of an inode.
    pub(crate) fn notes(&self, view: u64, inode: u64) -> Notes
        ensures { result ≡ notes_in self.now view inode }
    {
        match self.table(view) {
            Some(table) => notes_in_table(table, inode),
            None => Notes::nothing(),
        }
    }

    // Makes a table for a view that has none. Refused memory changes nothing.
    fn make_table(&mut self, view: u64) -> Result<(), AllocError>
        ensures notes { (v q : ℕ) → note_at self.new v q ≡ note_at self.old v q }
        ensures room { (v : ℕ) → room_by (map.get self.old v) ≤ room_by (map.get self.new v) }
        ensures ok { OnOk result (map.get self.new view ≢ None) }
        ensures succeeds { map.get self.old view ≢ None → IsOk result }
    {
        let heap = self.heap;
        if self.table(view).is_some() {
            return Ok(());
        }
        drop(self.tables.insert(view, ByNumber::new(heap))?);
        Ok(())
    }

    // Makes room in the table of a view. Refused memory changes nothing.
    fn reserve_in(&mut self, view: u64, more: usize) -> Result<(), AllocError>
        requires { map.get self.old view ≢ None }
        ensures notes { (v q : ℕ) → note_at self.new v q ≡ note_at self.old v q }
        ensures room { (v : ℕ) → room_by (map.get self.old v) ≤ room_by (map.get self.new v) }
        ensures ok { OnOk result (more ≤ room_by (map.get self.new view)) }
        ensures succeeds { more ≤ room_by (map.get self.old view) → IsOk result }
    {
        match self.tables.get_mut(&view) {
            Some(table) => table.reserve(more),
            None => unreachable!(),
        }
    }

    // Makes room for so many inodes more of which a view notes something. Refused memory changes
    // nothing that shows.
    pub(crate) fn reserve(&mut self, view: u64, more: usize) -> Result<(), AllocError>
        ensures notes { (v q : ℕ) → note_at self.new v q ≡ note_at self.old v q }
        ensures room { (v : ℕ) → room_by (map.get self.old v) ≤ room_by (map.get self.new v) }
        ensures ok { OnOk result (more ≤ room_by (map.get self.new view)) }
        ensures succeeds { 0 < more → more ≤ room_by (map.get self.old view) → IsOk result }
    {
        self.make_table(view)?;
        self.reserve_in(view, more)
    }

    // A view notes these of an inode, behind what it noted of it before, in room that is there. It
    // takes no memory.
    pub(crate) fn note(&mut self, view: u64, inode: u64, notes: Notes)
        requires { 0 < room_by (map.get self.old view) }
        ensures notes { (v q : ℕ) → note_at self.new v q
            ≡ (if view == v && inode == q then Some (behind notes (notes_in self.old view inode))
            else note_at self.old v q) }
        ensures room { (v : ℕ) → room_by (map.get self.old v) ≤ room_by (map.get self.new v) + 1 }
    {
        match self.tables.get_mut(&view) {
            Some(table) => note_in_table(table, inode, notes),
            None => unreachable!(),
        }
    }

    // A view has noted nothing any more. It gives the table that it had. It takes no memory.
    pub(crate) fn take(&mut self, view: u64) -> Option<ByNumber<Notes>>
        ensures tables { self.new ≡ map.remove self.old view }
        ensures table { result ≡ map.get self.old view }
    {
        self.tables.remove(&view)
    }

    // No view has noted anything of an inode any more. It takes no memory.
    pub(crate) fn forget(&mut self, inode: u64)
        ensures notes { (v q : ℕ) → note_at self.new v q
            ≡ (if inode == q then None else note_at self.old v q) }
        ensures room { (v : ℕ) → room_by (map.get self.old v) ≤ room_by (map.get self.new v) }
    {
        self.tables.retain(
            move |_, table| -> bool
                ensures kept { result ≡ true }
                ensures rows { table.new.rows ≡ map.remove table.old.rows inode }
                ensures room { table.old.room ≤ table.new.room }
            {
                table.remove(inode);
                true
            },
        );
    }
}
