//! A process's table of descriptors: which descriptors are open, and on which description; and
//! changes of one. Contracts see both as finite maps.
//!
//! A table grows with its descriptors, in pages of 64, and tells the lowest free one by words of bits.
#![tactic(auto)]

ghost use Rattle.std.specs.Prelude.{◌≡◌, ◌≢◌, ◌<◌, ◌≤◌, ℕ, None, IfOk, IfSome, IsSome, OnErr, OnOk};
ghost use Rattle.std.specs.Prelude.{◌==◌, count_by};
ghost use Rattle.std.specs.Ordering.{nat_cmp};
ghost use Rattle.model.specs.FiniteMap as map;
ghost use Rattle.ids.specs.declared.limits.TheConstants.{DESCRIPTORS};
ghost use Rattle.fdtable.specs.Lowest.{AreTwoLowest, IsFree, IsLowest, IsOpenFrom};
ghost use Rattle.fdtable.specs.Open.{one_if};
ghost use Rattle.fdtable.specs.Pages.{HasRoom, given_at};

mod page;
mod pages;
mod patch;
mod room;
mod words;

use crate::pages::Pages;
use heap::Heap;
use ids::{Fd, Num};
pub use patch::SlotPatch;
pub use room::{SlotPlace, SlotRoom};
use std::alloc::AllocError;
use std::marker::Model;

/// The open descriptors, with the numbers of their descriptions.
#[derive(Drop)]
pub struct FdTable {
    pages: Pages,
}

impl Model for FdTable {
    ghost use Rattle.std.specs.Prelude.{ℕ};
    ghost use Rattle.std.specs.Ordering.{nat_cmp};
    ghost use Rattle.std.specs.Coded.{coded_ℕ};
    ghost use Rattle.model.specs.FiniteMap as map;

    ghost Value = { map.FinMap nat_cmp ℕ };

    ghost coded = { map.code coded_ℕ coded_ℕ };

    ghost view = { λ t. t.pages.slots };
}

impl FdTable {
    /// No open descriptor. It takes no memory.
    pub fn new(heap: Heap) -> FdTable
        ensures { result ≡ map.empty }
    {
        FdTable {
            pages: Pages::new(heap),
        }
    }

    /// The description of a descriptor, `None` where it is not open. Those at or above
    /// [`ids::DESCRIPTORS`] never are.
    pub fn get(&self, fd: Fd) -> Option<Num>
        ensures value { result ≡ map.get self.now fd }
        ensures small { IsSome result → fd < DESCRIPTORS }
    {
        self.pages.get(fd)
    }

    /// Opens a descriptor on a description, or closes it, and answers what it was open on. Refused
    /// memory changes nothing, and a descriptor that was open takes none.
    pub fn set(&mut self, fd: Fd, given: Option<Num>) -> Result<Option<Num>, AllocError>
        requires { fd < DESCRIPTORS }
        ensures former { IfOk result (λ former. former ≡ map.get self.old fd) }
        ensures ok { OnOk result (self.new ≡ given_at fd given self.old) }
        ensures err { OnErr result (self.new ≡ self.old) }
    {
        self.pages.promise(fd)?;
        Ok(self.pages.put(fd, given))
    }

    /// The same in room that was made before. It takes no memory.
    pub fn set_in(&mut self, room: SlotRoom, fd: Fd, given: Option<Num>) -> Option<Num>
        requires { HasRoom room fd }
        ensures former { result ≡ map.get self.old fd }
        ensures slots { self.new ≡ given_at fd given self.old }
    {
        self.pages.join(room.into_pages());
        self.pages.put(fd, given)
    }

    /// Closes a descriptor. One that is not open stays so. It takes no memory.
    pub fn clear(&mut self, fd: Fd)
        ensures { self.new ≡ map.remove self.old fd }
    {
        self.pages.clear(fd);
    }

    /// The lowest free descriptor below a limit; `None` where all are open.
    pub fn lowest(&self, limit: u32) -> Option<Fd>
        ensures { IsLowest self.now 0 limit result }
    {
        self.lowest_from(Fd(0), limit)
    }

    /// The lowest free descriptor below a limit, and the lowest one behind it; `None` where there are
    /// no two.
    pub fn two_lowest(&self, limit: u32) -> Option<(Fd, Fd)>
        ensures { AreTwoLowest self.now limit result }
    {
        let first = self.lowest(limit)?;
        let second = self.lowest_from(Fd(first.0 + 1), limit)?;
        Some((first, second))
    }

    /// The lowest free descriptor below a limit, from this one on; `None` where none is. It looks at a
    /// word for each 4,096 descriptors, and at two besides.
    pub fn lowest_from(&self, first: Fd, limit: u32) -> Option<Fd>
        ensures { IsLowest self.now first limit result }
    {
        below(self.pages.lowest_from(first.0), limit)
    }

    /// The same descriptors on the same descriptions. Refused memory gives nothing.
    pub fn try_clone(&self, heap: Heap) -> Result<FdTable, AllocError>
        ensures { IfOk result (λ table. table ≡ self.now) }
    {
        Ok(FdTable {
            pages: self.pages.try_clone(heap)?,
        })
    }

    /// The lowest open descriptor from this one on; `None` where none is.
    pub fn open_from(&self, first: u32) -> Option<Fd>
        ensures value { IsOpenFrom self.now first result }
        ensures small { IfSome result (λ fd. fd < DESCRIPTORS) }
    {
        self.pages.open_from(first)
    }

    /// Below this number is every open descriptor.
    pub fn end(&self) -> u32
        ensures open { (f : ℕ) → map.get self.now f ≢ None → f < result }
        ensures small { result ≤ DESCRIPTORS }
    {
        self.pages.end()
    }

    /// The open descriptors with their descriptions, rising. Refused memory gives nothing.
    pub fn entries(&self, heap: Heap) -> Result<Vec<(Fd, Num), Heap>, AllocError>
        ensures { IfOk result (λ list. list.items ≡ map.entries self.now) }
    {
        let mut entries = Vec::new(heap);
        for number in 0..self.end() {
            if let Some(description) = self.get(Fd(number)) {
                entries.push((Fd(number), description))?;
            }
        }
        Ok(entries)
    }

    /// How many descriptors are open on a description.
    pub fn count(&self, description: Num) -> usize
        ensures { result ≡ count_by (λ d. d == description) (map.values self.now) }
    {
        let mut count = 0;
        for number in 0..self.end() {
            count += one_if(self.get(Fd(number)), description);
        }
        count
    }
}

// A free descriptor, where it is below a limit.
fn below(free: usize, limit: u32) -> Option<Fd>
    ensures { (table : map.FinMap nat_cmp ℕ) (first : ℕ) → IsFree table first free
        → IsLowest table first limit result }
{
    if free < limit as usize {
        Some(Fd(free as u32))
    } else {
        None
    }
}

// 1 where a descriptor is open on a description, else 0.
fn one_if(given: Option<Num>, description: Num) -> usize
    ensures { result ≡ one_if description given }
{
    match given {
        Some(open) if open == description => 1,
        _ => 0,
    }
}
