// What a transaction changed in the descriptors of one process.
ghost use Rattle.std.specs.Prelude.{◌≡◌, ◌≢◌, ◌+◌, ◌*◌, ◌<◌, ℕ, None, IfOk, IfSome, OnErr, OnOk};
ghost use Rattle.std.specs.Prelude.{◌==◌, ◌/◌, ◌≤◌, Some, count_by, length};
ghost use Rattle.std.specs.Int.{bit_at};
ghost use Rattle.std.specs.Option.{is_none, is_some};
ghost use Rattle.std.specs.Ordering.{nat_cmp};
ghost use Rattle.model.specs.State.{mapped};
ghost use Rattle.model.specs.FiniteMap as map;
ghost use Rattle.ids.specs.declared.limits.TheConstants.{DESCRIPTORS};
ghost use Rattle.fdtable.specs.Lowest.{IsFree, IsLowest, IsNotedFrom};
ghost use Rattle.fdtable.specs.Pages.{HasRoom, given_at, most_pages};
ghost use Rattle.fdtable.specs.Patches.{IsLaid, IsFormer, laid_at, or_before};
ghost use Rattle.fdtable.specs.Words.{as_bit, bit_in};

use crate::page::PAGE_LEN;
use crate::pages::Pages;
use crate::room::{SlotPlace, SlotRoom};
use crate::words::{filled_below, is_set, join, lowest_clear, mark, reach, word_at};
use crate::{FdTable, below, one_if};
use heap::Heap;
use ids::{Fd, Num};
use std::alloc::AllocError;
use std::marker::Model;

/// Changes to the descriptors of one process: what each changed descriptor is open on now, or
/// `None` where it was closed.
///
/// Laid on top of a table, they say what is open. They cost what is changed, however much is open.
#[derive(Drop)]
pub struct SlotPatch {
    // Those that are open now, with room for all that are changed.
    given: Pages,
    // A bit for each that was closed.
    closed: Vec<u64, Heap>,
}

impl Model for SlotPatch {
    ghost use Rattle.model.specs.FiniteMap as map;
    ghost use Rattle.model.specs.Places.{placed};
    ghost use Rattle.fdtable.specs.Patches.{Given, IsPatch, given_code, notes_of};

    ghost Value = { Given };

    ghost coded = { given_code };

    ghost view = { λ p. map.from_entries (placed 0 (notes_of p.given p.closed.items)) };

    ghost invariant = { λ p. IsPatch p.given p.closed.items };
}

impl SlotPatch {
    /// No changes. It takes no memory.
    pub fn new(heap: Heap) -> SlotPatch
        ensures { result ≡ map.empty }
    {
        SlotPatch {
            given: Pages::new(heap),
            closed: Vec::new(heap),
        }
    }

    /// What is noted of a descriptor, or `None` where nothing is.
    pub fn get(&self, fd: Fd) -> Option<Option<Num>>
        ensures { result ≡ map.get self.now fd }
    {
        match self.given.get(fd) {
            Some(description) => Some(Some(description)),
            None if is_set(self.closed.as_slice(), fd.0 as usize) => Some(None),
            None => None,
        }
    }

    /// The changes that open what a table has open. Refused memory gives nothing.
    pub fn opening(heap: Heap, table: &FdTable) -> Result<SlotPatch, AllocError>
        ensures { IfOk result (λ patch. (f : ℕ)
            → map.get patch f ≡ mapped Some (map.get table.now f)) }
    {
        let mut closed = Vec::new(heap);
        reach(&mut closed, table.pages.end().saturating_sub(1) as usize)?;
        Ok(SlotPatch {
            given: table.pages.try_clone(heap)?,
            closed,
        })
    }

    /// Notes what a descriptor is open on now, in place of what was noted of it, and makes room for it
    /// in the table on which this will be laid. Refused memory changes nothing that shows.
    pub fn note(
        &mut self,
        room: &mut SlotRoom,
        fd: Fd,
        given: Option<Num>,
    ) -> Result<(), AllocError>
        requires { fd < DESCRIPTORS }
        ensures ok { OnOk result (self.new ≡ map.insert self.old fd given) }
        ensures room { OnOk result (HasRoom room.new fd) }
        ensures kept { (f : ℕ) → HasRoom room.old f → HasRoom room.new f }
        ensures err { OnErr result (self.new ≡ self.old) }
    {
        room.promise(fd)?;
        self.given.promise(fd)?;
        reach(&mut self.closed, fd.0 as usize)?;
        put(&mut self.given, self.closed.as_mut_slice(), fd, given);
        Ok(())
    }

    /// The same in a place that was made before. It takes no memory.
    pub fn note_in(&mut self, room: &mut SlotRoom, place: SlotPlace, given: Option<Num>)
        ensures value { self.new ≡ map.insert self.old place given }
        ensures room { HasRoom room.new place }
        ensures kept { (f : ℕ) → HasRoom room.old f → HasRoom room.new f }
    {
        let SlotPlace {
            fd,
            given: mine,
            closed,
            table,
        } = place;
        room.join(table);
        self.given.join(mine.into_pages());
        join(&mut self.closed, closed);
        put(&mut self.given, self.closed.as_mut_slice(), fd, given);
    }

    /// For the proof: only descriptors that a process may have are noted.
    pub fn noted_are_low(&self)
        ensures { (f : ℕ) → map.get self.now f ≢ None → f < DESCRIPTORS }
    {
        let _given = &self.given;
    }

    /// The lowest descriptor from this one on of which something is noted.
    pub fn noted_from(&self, first: u32) -> Option<Fd>
        ensures value { IsNotedFrom self.now first result }
        ensures small { IfSome result (λ fd. fd < DESCRIPTORS) }
    {
        let pages = self.pages();
        let start = first as usize / PAGE_LEN;
        let word = filled_below(!self.noted_word(start), first as usize % PAGE_LEN);
        if let Some(bit) = lowest_clear(word) {
            return Some(Fd((start * PAGE_LEN + bit) as u32));
        }
        for index in start + 1..pages {
            if let Some(bit) = lowest_clear(!self.noted_word(index)) {
                return Some(Fd((index * PAGE_LEN + bit) as u32));
            }
        }
        None
    }

    // How many pages may have something noted.
    fn pages(&self) -> usize
        ensures noted { (f : ℕ) → map.get self.now f ≢ None → f < 64 * result }
        ensures small { result ≤ most_pages }
    {
        self.closed.len()
    }

    // Of which descriptors of a page something is noted, a bit for each.
    fn noted_word(&self, index: usize) -> u64
        ensures { (i : ℕ) → i < 64
            → bit_at result i ≡ as_bit (is_some (map.get self.now (64 * index + i))) }
    {
        self.given.word(index) | word_at(self.closed.as_slice(), index)
    }

    /// Lays these changes on a table, in room that was made for them. What the table gave before at
    /// each of them stands in the place of the change. It takes no memory.
    pub fn lay_on(&mut self, table: &mut FdTable, room: SlotRoom)
        requires { (f : ℕ) → map.get self.old f ≢ None → HasRoom room f }
        ensures laid { IsLaid self.old table.old table.new }
        ensures former { IsFormer self.old table.old self.new }
    {
        table.pages.join(room.into_pages());
        let mut from = 0;
        while let Some(fd) = self.noted_from(from) {
            self.swap(&mut table.pages, fd);
            from = fd.0 + 1;
        }
    }

    // One change is laid on a table, and what it gave before stands in its place.
    fn swap(&mut self, table: &mut Pages, fd: Fd)
        requires room { HasRoom table.old.rooms fd }
        requires noted { map.get self.old fd ≢ None }
        ensures slots { table.new.slots ≡ laid_at fd (map.get self.old fd) table.old.slots }
        ensures rooms { table.new.rooms ≡ table.old.rooms }
        ensures former { self.new ≡ map.insert self.old fd (map.get table.old.slots fd) }
    {
        if let Some(given) = self.get(fd) {
            let former = table.put(fd, given);
            put(&mut self.given, self.closed.as_mut_slice(), fd, former);
        }
    }

    /// The lowest free descriptor below a limit, from this one on, of a table with these changes on top;
    /// `None` where none is. It looks at 64 descriptors at once.
    pub fn lowest_over(&self, table: &FdTable, first: Fd, limit: u32) -> Option<Fd>
        ensures { (laid : map.FinMap nat_cmp ℕ) → IsLaid self.now table.now laid
            → IsLowest laid first limit result }
    {
        below(self.free_over(table, first.0), limit)
    }

    // The lowest descriptor from this one on that is free, whatever the limit.
    fn free_over(&self, table: &FdTable, first: u32) -> usize
        ensures { (laid : map.FinMap nat_cmp ℕ) → IsLaid self.now table.now laid
            → IsFree laid first result }
    {
        let start = first as usize / PAGE_LEN;
        let word = filled_below(self.word_over(table, start), first as usize % PAGE_LEN);
        if let Some(bit) = lowest_clear(word) {
            return start * PAGE_LEN + bit;
        }
        let pages = self.pages().max(table.pages.end() as usize / PAGE_LEN);
        for index in start + 1..pages {
            if let Some(bit) = lowest_clear(self.word_over(table, index)) {
                return index * PAGE_LEN + bit;
            }
        }
        pages.max(start + 1) * PAGE_LEN
    }

    // Which descriptors of a page are open with these changes on top of a table, a bit for each.
    fn word_over(&self, table: &FdTable, index: usize) -> u64
        ensures { (i : ℕ) → i < 64 → bit_at result i
            ≡ as_bit (is_some (or_before (map.get self.now (64 * index + i))
            (map.get table.now (64 * index + i)))) }
    {
        table.pages.word(index) & !word_at(self.closed.as_slice(), index) | self.given.word(index)
    }

    // What a descriptor is open on with these changes on top of a table.
    fn get_over(&self, table: &FdTable, fd: Fd) -> Option<Num>
        ensures { result ≡ or_before (map.get self.now fd) (map.get table.now fd) }
    {
        match self.get(fd) {
            Some(given) => given,
            None => table.get(fd),
        }
    }

    // Below this number is all that is open with these changes on top of a table.
    fn end_over(&self, table: &FdTable) -> u32
        ensures { (f : ℕ) → or_before (map.get self.now f) (map.get table.now f) ≢ None
            → f < result }
    {
        self.given.end().max(table.pages.end())
    }

    /// The open descriptors of a table with these changes on top, rising. Refused memory gives nothing.
    pub fn entries_over(
        &self,
        heap: Heap,
        table: &FdTable,
    ) -> Result<Vec<(Fd, Num), Heap>, AllocError>
        ensures { IfOk result (λ list. (laid : map.FinMap nat_cmp ℕ)
            → IsLaid self.now table.now laid → list.items ≡ map.entries laid) }
    {
        let mut entries = Vec::new(heap);
        for number in 0..self.end_over(table) {
            if let Some(description) = self.get_over(table, Fd(number)) {
                entries.push((Fd(number), description))?;
            }
        }
        Ok(entries)
    }

    /// How many descriptors of a table with these changes on top are open on a description.
    pub fn count_over(&self, table: &FdTable, description: Num) -> usize
        ensures { (laid : map.FinMap nat_cmp ℕ) → IsLaid self.now table.now laid
            → result ≡ count_by (λ d. d == description) (map.values laid) }
    {
        let mut count = 0;
        for number in 0..self.end_over(table) {
            count += one_if(self.get_over(table, Fd(number)), description);
        }
        count
    }
}

// A descriptor for which there is room is noted so.
fn put(given: &mut Pages, closed: &mut [u64], fd: Fd, note: Option<Num>)
    requires room { HasRoom given.old.rooms fd }
    requires long { fd / 64 < length closed.old }
    ensures slots { given.new.slots ≡ given_at fd note given.old.slots }
    ensures rooms { given.new.rooms ≡ given.old.rooms }
    ensures here { bit_in closed.new fd ≡ as_bit (is_none note) }
    ensures others { (f : ℕ) → f ≢ fd → bit_in closed.new f ≡ bit_in closed.old f }
    ensures count { length closed.new ≡ length closed.old }
{
    let _former = given.put(fd, note);
    mark(closed, fd.0 as usize, note.is_none());
}
