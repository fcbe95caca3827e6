// The times that everybody has of each inode that has a place.
ghost use Rattle.std.specs.Prelude.{◌≡◌, ◌==◌, ℕ, if◌then◌else◌};
ghost use Rattle.model.specs.FiniteMap as map;
ghost use Rattle.std.specs.HashMap.{spare};
ghost use Rattle.view_times.specs.Kept.{merged_if, notes_by, times_in};
ghost use Rattle.view_times.specs.Rows.{rows_in};

use crate::by_number::ByNumber;
use crate::noted::Notes;
use crate::times::Times;
use heap::Heap;
use std::collections::HashMap;
use std::hash::{BuildHasherDefault, FoldHasher};

// What a view has noted of an inode becomes everybody's, where the inode has a place.
fn merge_in(
    rows: &mut HashMap<u64, Times, BuildHasherDefault<FoldHasher>, Heap>,
    inode: u64,
    notes: Notes,
)
    ensures times { (q : ℕ) → map.get (rows_in rows.new) q
        ≡ (if inode == q then merged_if notes (map.get (rows_in rows.old) q)
        else map.get (rows_in rows.old) q) }
    ensures room { spare rows.new ≡ spare rows.old }
{
    match rows.get_mut(&inode) {
        Some(times) => *times = notes.merged(*times),
        None => {}
    }
}

impl ByNumber<Times> {
    // The times that everybody has of an inode.
    pub(crate) fn of(&self, inode: u64) -> Times
        ensures { result ≡ times_in self.now.rows inode }
    {
        match self.get(inode) {
            Some(times) => *times,
            None => Times::first(),
        }
    }

    // What a view has noted of an inode becomes everybody's, where the inode has a place. It takes no
    // memory.
    fn merge(&mut self, inode: u64, notes: Notes)
        ensures times { (q : ℕ) → map.get self.new.rows q
            ≡ (if inode == q then merged_if notes (map.get self.old.rows q)
            else map.get self.old.rows q) }
        ensures room { self.new.room ≡ self.old.room }
    {
        merge_in(&mut self.rows, inode, notes);
    }

    // All that a view has noted becomes everybody's, of each inode that has a place. It takes no
    // memory.
    pub(crate) fn merge_all(&mut self, noted: &ByNumber<Notes>)
        ensures times { (q : ℕ) → map.get self.new.rows q
            ≡ merged_if (notes_by (map.get noted.now.rows q)) (map.get self.old.rows q) }
        ensures room { self.new.room ≡ self.old.room }
    {
        for (inode, notes) in &noted.rows {
            self.merge(*inode, *notes);
        }
    }
}
