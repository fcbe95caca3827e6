//! Which live transactions read the names of a directory and which write an entry of it, and the
//! directory's list mode, which comes of that (TxOS, section 5: list modes).
//!
//! What a process holds stands under its number, so letting go costs what it holds. For each
//! directory stands how many processes read its names, write an entry of it, and do both: its mode
//! is one look-up.
#![tactic(auto)]

ghost use Rattle.std.specs.Prelude.{◌≡◌, ℕ, [], ◌||◌, true, OnErr, OnOk};
ghost use Rattle.list_modes.specs.Holding.{nothing, held_of, with_marks, IsPartOf, SetsHeld, LetsGo};
ghost use Rattle.list_modes.specs.Holding.{IsBelow, mode_in, others_write};

mod table;

use heap::Heap;
use ids::{ListMode, Num, Pid};
use std::alloc::AllocError;
use std::collections::BTreeMap;
use std::marker::Model;
use table::{Marks, Tallies, add_marks, counts_at, cut_marks, first_held, held_at, take_marks};

/// What a process's live transaction has done at a directory.
#[derive(Clone, Copy, Debug)]
pub struct Held {
    /// It read the directory's names.
    pub names_read: bool,
    /// It wrote an entry of the directory.
    pub entry_written: bool,
}

impl Held {
    /// It did neither.
    pub const NOTHING: Held = Held {
        names_read: false,
        entry_written: false,
    };

    /// Whether it did these already.
    fn has(self, names_read: bool, entry_written: bool) -> bool
        ensures { result ≡ true → with_marks self names_read entry_written ≡ self }
    {
        (self.names_read || !names_read) && (self.entry_written || !entry_written)
    }

    /// Whether it did anything.
    pub fn is_some(self) -> bool
        ensures { result ≡ (self.names_read || self.entry_written) }
    {
        self.names_read || self.entry_written
    }
}

/// What each process holds of each directory. Contracts see the list of it, and read it by
/// look-ups.
pub struct Holders {
    marks: Marks,
    counts: Tallies,
}

impl Drop for Holders {
    fn drop(self) {
        let Holders {
            marks: _,
            counts: _,
        } = self;
    }
}

impl Model for Holders {
    ghost use Rattle.list_modes.specs.Holding.{Table};
    ghost use Rattle.list_modes.specs.Counted.{IsCounted};

    ghost Value = { Table };

    ghost view = { λ h. h.marks.entries };

    ghost invariant = { λ h. IsCounted h.marks.entries h.counts };
}

impl Holders {
    /// Nobody holds anything. It takes no memory.
    pub fn new(heap: Heap) -> Holders
        ensures { result ≡ [] }
    {
        Holders {
            marks: BTreeMap::new(heap),
            counts: BTreeMap::new(heap),
        }
    }

    /// What a process holds of a directory. It takes no memory.
    pub fn held(&self, dir: Num, pid: Pid) -> Held
        ensures { result ≡ held_of self.now pid dir }
    {
        held_at(&self.marks, pid, dir)
    }

    /// A process holds these marks of a directory besides what it holds there. Refused memory
    /// changes nothing; where it holds something there, none is asked for. Where it holds these
    /// already, it is one look-up.
    pub fn hold(
        &mut self,
        dir: Num,
        pid: Pid,
        names_read: bool,
        entry_written: bool,
    ) -> Result<(), AllocError>
        ensures ok { OnOk result (SetsHeld self.old self.new pid dir
            (with_marks (held_of self.old pid dir) names_read entry_written)) }
        ensures err { OnErr result (self.new ≡ self.old) }
        ensures room { OnErr result (held_of self.old pid dir ≡ nothing) }
    {
        let before = self.held(dir, pid);
        if before.has(names_read, entry_written) {
            return Ok(());
        }
        let after = Held {
            names_read: before.names_read || names_read,
            entry_written: before.entry_written || entry_written,
        };
        add_marks(&mut self.marks, &mut self.counts, pid, dir, after)
    }

    /// A process holds of a directory what it held before, a part of what it holds there. It takes
    /// no memory.
    pub fn put_back(&mut self, dir: Num, pid: Pid, before: Held)
        requires { IsPartOf before (held_of self.old pid dir) }
        ensures { SetsHeld self.old self.new pid dir before }
    {
        if before.is_some() {
            cut_marks(&mut self.marks, &mut self.counts, pid, dir, before);
        } else {
            take_marks(&mut self.marks, &mut self.counts, pid, dir);
        }
    }

    /// A process holds nothing any more. It takes no memory, and as many look-ups as the process
    /// holds marks of directories.
    pub fn let_go(&mut self, pid: Pid)
        ensures { LetsGo self.old self.new pid }
    {
        while let Some(dir) = first_held(&self.marks, pid) {
            take_marks(&mut self.marks, &mut self.counts, pid, dir);
        }
    }

    /// The list mode of a directory: `Exclusive` where one process both reads its names and writes
    /// an entry of it, else `Write` where some process writes an entry of it, else `Read` where
    /// some process reads its names, else `NoTx`. It takes no memory, and one look-up.
    pub fn mode(&self, dir: Num) -> ListMode
        ensures { (n : ℕ) → IsBelow n self.now → result ≡ mode_in self.now dir n }
    {
        counts_at(&self.counts, dir).mode()
    }

    /// Whether a process other than this one writes an entry of a directory. It takes no memory,
    /// and two look-ups.
    pub fn others_write(&self, dir: Num, pid: Pid) -> bool
        ensures { (n : ℕ) → IsBelow n self.now → result ≡ others_write self.now dir pid n }
    {
        let own = self.held(dir, pid).entry_written;
        counts_at(&self.counts, dir).writers > u64::from(own)
    }
}
