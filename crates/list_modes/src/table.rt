// The marks of processes at directories, and for each directory how many processes have which.
ghost use Rattle.std.specs.Prelude.{◌≡◌, ℕ, ◌<◌, IsSome, IfSome, IfNone, OnOk, OnErr, None};
ghost use Rattle.std.specs.Prelude.{◌==◌, ◌||◌, true, nat_lt, if◌then◌else◌};
ghost use Rattle.std.specs.BTreeMap as tree;
ghost use Rattle.std.specs.Ordering.{nat_cmp};
ghost use Rattle.list_modes.specs.Holding.{nothing, place_cmp, held_of, SetsHeld, IsPartOf};
ghost use Rattle.list_modes.specs.Counted.{counts_in, recounted};
ghost use Rattle.list_modes.specs.Counted.{all_recounted, mode_by, HasRoom, HaveRoom, IsCounted};

use crate::Held;
use heap::Heap;
use ids::{ListMode, Num, Pid};
use std::alloc::AllocError;
use std::collections::BTreeMap;
use std::ops::Bound;

/// How many processes read a directory's names, write an entry of it, and do both.
#[derive(Clone, Copy, Debug)]
pub struct Counts {
    pub readers: u64,
    pub writers: u64,
    pub both: u64,
}

/// By the process and the directory; each is something.
pub type Marks = BTreeMap<(Pid, Num), Held, Heap>;

/// By the directory.
pub type Tallies = BTreeMap<Num, Counts, Heap>;

/// What a process holds of a directory. It takes no memory.
pub fn held_at(marks: &Marks, pid: Pid, dir: Num) -> Held
    ensures { result ≡ held_of marks.now.entries pid dir }
{
    match marks.get(&(pid, dir)) {
        Some(held) => *held,
        None => Held::NOTHING,
    }
}

/// How many processes hold what of a directory. It takes no memory.
pub fn counts_at(counts: &Tallies, dir: Num) -> Counts
    ensures { result ≡ counts_in counts.now dir }
{
    match counts.get(&dir) {
        Some(counts) => *counts,
        None => Counts {
            readers: 0,
            writers: 0,
            both: 0,
        },
    }
}

// A count, when one process that was counted or not is counted or not.
fn recounted(count: u64, before: bool, after: bool) -> u64
    requires { HasRoom count before }
    ensures { result ≡ recounted count before after }
{
    match (before, after) {
        (true, false) => count - 1,
        (false, true) => count + 1,
        _ => count,
    }
}

impl Counts {
    // The counts, when one process holds another thing.
    fn recounted(self, before: Held, after: Held) -> Counts
        requires { HaveRoom self before }
        ensures { result ≡ all_recounted self before after }
    {
        Counts {
            readers: recounted(self.readers, before.names_read, after.names_read),
            writers: recounted(self.writers, before.entry_written, after.entry_written),
            both: recounted(
                self.both,
                before.names_read && before.entry_written,
                after.names_read && after.entry_written,
            ),
        }
    }

    /// The list mode that these counts come to.
    pub fn mode(self) -> ListMode
        ensures { result ≡ mode_by (nat_lt 0 self.both) (nat_lt 0 self.writers)
            (nat_lt 0 self.readers) }
    {
        if self.both > 0 {
            ListMode::Exclusive
        } else if self.writers > 0 {
            ListMode::Write
        } else if self.readers > 0 {
            ListMode::Read
        } else {
            ListMode::NoTx
        }
    }
}

// Makes a place for a directory's counts. Refused memory changes nothing.
fn make_place(counts: &mut Tallies, dir: Num) -> Result<(), AllocError>
    ensures same { (d : ℕ) → counts_in counts.new d ≡ counts_in counts.old d }
    ensures ok { OnOk result (IsSome (tree.get nat_cmp counts.new dir)) }
    ensures err { OnErr result (tree.get nat_cmp counts.old dir ≡ None) }
{
    let now = counts_at(counts, dir);
    counts.insert(dir, now)?;
    Ok(())
}

// A directory of which nobody holds anything needs no place. It takes no memory.
fn forget_if_empty(counts: &mut Tallies, dir: Num)
    ensures { (d : ℕ) → counts_in counts.new d ≡ counts_in counts.old d }
{
    let now = counts_at(counts, dir);
    if now.readers == 0 && now.writers == 0 && now.both == 0 {
        counts.remove(&dir);
    }
}

// Counts anew what one process holds of a directory that has a place. It takes no memory.
fn recount(counts: &mut Tallies, dir: Num, before: Held, after: Held)
    requires place { IsSome (tree.get nat_cmp counts.old dir) }
    requires room { HaveRoom (counts_in counts.old dir) before }
    ensures { (d : ℕ) → counts_in counts.new d ≡ (if d == dir
        then all_recounted (counts_in counts.old d) before after else counts_in counts.old d) }
{
    let now = counts_at(counts, dir).recounted(before, after);
    match counts.insert(dir, now) {
        Ok(_) => {}
        Err(_) => unreachable!(),
    }
}

/// A directory of which the process holds something. It takes no memory.
pub fn first_held(marks: &Marks, pid: Pid) -> Option<Num>
    ensures some { IfSome result (λ d. IsSome (tree.get place_cmp marks.now (pid, d))) }
    ensures none { IfNone result ((d : ℕ) → tree.get place_cmp marks.now (pid, d) ≡ None) }
{
    let first = (pid, Num(0));
    let (place, _) = marks
        .range((Bound::Included(&first), Bound::Unbounded))
        .next()?;
    let (owner, dir) = *place;
    if owner == pid { Some(dir) } else { None }
}

/// Adds what a process holds of a directory then, which is something and has all that it held
/// before. Refused memory changes nothing; where it held something there, none is asked for.
pub fn add_marks(
    marks: &mut Marks,
    counts: &mut Tallies,
    pid: Pid,
    dir: Num,
    after: Held,
) -> Result<(), AllocError>
    requires { IsCounted marks.old.entries counts.old }
    ensures ok { OnOk result (SetsHeld marks.old.entries marks.new.entries pid dir after) }
    ensures err { OnErr result (marks.new.entries ≡ marks.old.entries) }
    ensures room { OnErr result (held_of marks.old.entries pid dir ≡ nothing) }
    ensures counted { IsCounted marks.new.entries counts.new }
{
    let before = held_at(marks, pid, dir);
    make_place(counts, dir)?;
    match marks.insert((pid, dir), after) {
        Ok(_) => {
            recount(counts, dir, before, after);
            Ok(())
        }
        Err(_) => {
            forget_if_empty(counts, dir);
            Err(AllocError)
        }
    }
}

/// Takes away all that a process holds of a directory. It takes no memory.
pub fn take_marks(marks: &mut Marks, counts: &mut Tallies, pid: Pid, dir: Num)
    requires { IsCounted marks.old.entries counts.old }
    ensures sets { SetsHeld marks.old.entries marks.new.entries pid dir nothing }
    ensures fewer { IsSome (tree.get place_cmp marks.old (pid, dir))
        → tree.btree_map_len marks.new < tree.btree_map_len marks.old }
    ensures counted { IsCounted marks.new.entries counts.new }
{
    let before = held_at(marks, pid, dir);
    marks.remove(&(pid, dir));
    if before.is_some() {
        recount(counts, dir, before, Held::NOTHING);
        forget_if_empty(counts, dir);
    }
}

/// A process holds a part of what it holds of a directory, and that is something. It takes no
/// memory.
pub fn cut_marks(marks: &mut Marks, counts: &mut Tallies, pid: Pid, dir: Num, after: Held)
    requires counted { IsCounted marks.old.entries counts.old }
    requires part { IsPartOf after (held_of marks.old.entries pid dir) }
    requires some { (after.names_read || after.entry_written) ≡ true }
    ensures sets { SetsHeld marks.old.entries marks.new.entries pid dir after }
    ensures counted { IsCounted marks.new.entries counts.new }
{
    let before = held_at(marks, pid, dir);
    match marks.insert((pid, dir), after) {
        Ok(_) => {}
        Err(_) => unreachable!(),
    }
    recount(counts, dir, before, after);
}
