// The descriptors of a process in pages, and which pages are full.
ghost use Rattle.std.specs.Prelude.{◌≡◌, ◌≢◌, ◌+◌, ◌*◌, ◌/◌, ◌%◌, ◌<◌, ◌≤◌, ◌⊎◌, ◌||◌, ℕ, None, false};
ghost use Rattle.std.specs.Prelude.{IfOk, IfSome, IsSome, OnOk, get_or, length, set};
ghost use Rattle.std.specs.Int.{bit_at};
ghost use Rattle.std.specs.Option.{is_some};
ghost use Rattle.model.specs.FiniteMap as map;
ghost use Rattle.ids.specs.declared.limits.TheConstants.{DESCRIPTORS};
ghost use Rattle.fdtable.specs.Lowest.{IsOpenFrom};
ghost use Rattle.fdtable.specs.Pages.{HasRoom, given_at, most_pages, or_other};
ghost use Rattle.fdtable.specs.Words.{as_bit};

use crate::page::{PAGE_LEN, Page};
use crate::words::{clear_from, filled_below, lowest_clear, mark, reach};
use heap::Heap;
use ids::{Fd, Num};
use std::alloc::AllocError;
use std::marker::Model;
use std::mem;

/// The descriptors of a process in pages, and a bit for each page that is full: so the lowest free
/// one is found by words of bits, without a look at those below it.
#[derive(Drop)]
pub(crate) struct Pages {
    each: Vec<Page, Heap>,
    full: Vec<u64, Heap>,
}

impl Model for Pages {
    ghost use Rattle.model.specs.FiniteMap as map;
    ghost use Rattle.model.specs.Places.{placed};
    ghost use Rattle.fdtable.specs.Pages.{AreMarked, Paged, rooms_of, slots_of};

    ghost Value = { Paged };

    ghost view = { λ p. record {
      slots = map.from_entries (placed 0 (slots_of p.each.items));
      rooms = rooms_of p.each.items;
    } };

    ghost invariant = { λ p. AreMarked p.each.items p.full.items };
}

impl Pages {
    /// No open descriptors, and no room. It takes no memory.
    pub(crate) fn new(heap: Heap) -> Pages
        ensures { result.slots ≡ map.empty }
    {
        Pages {
            each: Vec::new(heap),
            full: Vec::new(heap),
        }
    }

    /// What a descriptor is open on.
    pub(crate) fn get(&self, fd: Fd) -> Option<Num>
        ensures value { result ≡ map.get self.now.slots fd }
        ensures small { IsSome result → fd < DESCRIPTORS }
        ensures room { IsSome result → HasRoom self.now.rooms fd }
    {
        match self.each.get(fd.0 as usize / PAGE_LEN) {
            Some(page) => page.get(fd.0 as usize % PAGE_LEN),
            None => None,
        }
    }

    /// Below this number, at the end of a page, is every descriptor that is open, and each has room.
    pub(crate) fn end(&self) -> u32
        ensures open { (f : ℕ) → map.get self.now.slots f ≢ None → f < result }
        ensures room { (f : ℕ) → map.get self.now.slots f ≢ None → HasRoom self.now.rooms f }
        ensures small { result ≤ DESCRIPTORS }
        ensures whole { result % 64 ≡ 0 }
    {
        (self.each.len() * PAGE_LEN) as u32
    }

    /// The open ones of the 64 descriptors of a page, a bit for each.
    pub(crate) fn word(&self, index: usize) -> u64
        ensures { (i : ℕ) → i < 64
            → bit_at result i ≡ as_bit (is_some (map.get self.now.slots (64 * index + i))) }
    {
        match self.each.get(index) {
            Some(page) => page.word(),
            None => 0,
        }
    }

    /// The lowest descriptor from this one on that is not open. It looks at a word for each 4,096
    /// descriptors, and at two besides.
    pub(crate) fn lowest_from(&self, first: u32) -> usize
        ensures free { map.get self.now.slots result ≡ None }
        ensures from { first ≤ result }
        ensures open { (f : ℕ) → first ≤ f → f < result → map.get self.now.slots f ≢ None }
    {
        let start = first as usize / PAGE_LEN;
        let word = filled_below(self.word(start), first as usize % PAGE_LEN);
        if let Some(bit) = lowest_clear(word) {
            return start * PAGE_LEN + bit;
        }
        let index = clear_from(self.full.as_slice(), start + 1);
        match lowest_clear(self.word(index)) {
            Some(bit) => index * PAGE_LEN + bit,
            None => unreachable!(),
        }
    }

    /// The lowest descriptor from this one on that is open.
    pub(crate) fn open_from(&self, first: u32) -> Option<Fd>
        ensures value { IsOpenFrom self.now.slots first result }
        ensures small { IfSome result (λ fd. fd < DESCRIPTORS) }
    {
        let pages = self.each.len();
        let start = first as usize / PAGE_LEN;
        let word = filled_below(!self.word(start), first as usize % PAGE_LEN);
        if let Some(bit) = lowest_clear(word) {
            return Some(Fd((start * PAGE_LEN + bit) as u32));
        }
        for index in start + 1..pages {
            if let Some(bit) = lowest_clear(!self.word(index)) {
                return Some(Fd((index * PAGE_LEN + bit) as u32));
            }
        }
        None
    }

    // Pages up to this one are there, with a bit for each.
    fn reach(&mut self, index: usize) -> Result<(), AllocError>
        requires { index < most_pages }
        ensures ok { OnOk result (index < length self.new.rooms) }
        ensures slots { self.new.slots ≡ self.old.slots }
        ensures rooms { (f : ℕ) → HasRoom self.old.rooms f → HasRoom self.new.rooms f }
    {
        let heap = *self.each.allocator();
        reach(&mut self.full, index)?;
        while self.each.len() <= index {
            self.each.push(Page::new(heap))?;
        }
        Ok(())
    }

    /// Makes room for a descriptor. Refused memory changes nothing that shows.
    pub(crate) fn promise(&mut self, fd: Fd) -> Result<(), AllocError>
        requires { fd < DESCRIPTORS }
        ensures ok { OnOk result (HasRoom self.new.rooms fd) }
        ensures slots { self.new.slots ≡ self.old.slots }
        ensures rooms { (f : ℕ) → HasRoom self.old.rooms f → HasRoom self.new.rooms f }
    {
        let index = fd.0 as usize / PAGE_LEN;
        self.reach(index)?;
        self.each[index].promise()
    }

    /// A descriptor for which there is room is open on this from now on, or closed; what it was open
    /// on is answered. It takes no memory.
    pub(crate) fn put(&mut self, fd: Fd, given: Option<Num>) -> Option<Num>
        requires { HasRoom self.old.rooms fd }
        ensures former { result ≡ map.get self.old.slots fd }
        ensures slots { self.new.slots ≡ given_at fd given self.old.slots }
        ensures rooms { self.new.rooms ≡ self.old.rooms }
    {
        let index = fd.0 as usize / PAGE_LEN;
        let stored = &mut self.each[index];
        let former = stored.put(fd.0 as usize % PAGE_LEN, given);
        let is_full = lowest_clear(stored.word()).is_none();
        mark(self.full.as_mut_slice(), index, is_full);
        former
    }

    /// Closes a descriptor. One that is not open stays so. It takes no memory.
    pub(crate) fn clear(&mut self, fd: Fd)
        ensures slots { self.new.slots ≡ map.remove self.old.slots fd }
        ensures rooms { self.new.rooms ≡ self.old.rooms }
    {
        if self.get(fd).is_some() {
            let _former = self.put(fd, None);
        }
    }

    /// A copy. Refused memory gives nothing.
    pub(crate) fn try_clone(&self, heap: Heap) -> Result<Pages, AllocError>
        ensures { IfOk result (λ pages. pages ≡ self.now) }
    {
        Ok(Pages {
            each: copies(heap, self.each.as_slice())?,
            full: Vec::from_slice(heap, self.full.as_slice())?,
        })
    }

    /// Takes the room of other pages, of which no descriptor is open. It takes no memory.
    pub(crate) fn join(&mut self, room: Pages)
        requires { room.slots ≡ map.empty }
        ensures slots { self.new.slots ≡ self.old.slots }
        ensures rooms { (f : ℕ) → (HasRoom self.old.rooms f) ⊎ (HasRoom room.rooms f)
            → HasRoom self.new.rooms f }
    {
        if self.each.len() < room.each.len() {
            let shorter = mem::replace(self, room);
            self.take_pages(shorter);
        } else {
            self.take_pages(room);
        }
    }

    // Takes pages for which it has places. At each place one of the two has nothing open.
    fn take_pages(&mut self, other: Pages)
        requires fits { length other.rooms ≤ length self.old.rooms }
        requires apart { (self.old.slots ≡ map.empty) ⊎ (other.slots ≡ map.empty) }
        ensures mine { other.slots ≡ map.empty → self.new.slots ≡ self.old.slots }
        ensures theirs { self.old.slots ≡ map.empty → self.new.slots ≡ other.slots }
        ensures rooms { (f : ℕ) → (HasRoom self.old.rooms f) ⊎ (HasRoom other.rooms f)
            → HasRoom self.new.rooms f }
    {
        let Pages { mut each, full: _ } = other;
        while let Some(page) = each.pop() {
            self.take_page(each.len(), page);
        }
    }

    // A page comes to its place, where it has something open, or room that is missing there.
    fn take_page(&mut self, index: usize, page: Page)
        requires fits { index < length self.old.rooms }
        requires apart { ((i : ℕ) → i < 64 → map.get self.old.slots (64 * index + i) ≡ None)
            ⊎ ((i : ℕ) → get_or page.slots i None ≡ None) }
        ensures here { (i : ℕ) → i < 64 → map.get self.new.slots (64 * index + i)
            ≡ or_other (get_or page.slots i None) (map.get self.old.slots (64 * index + i)) }
        ensures others { (f : ℕ) → f / 64 ≢ index
            → map.get self.new.slots f ≡ map.get self.old.slots f }
        ensures rooms { self.new.rooms ≡ set self.old.rooms index
            (get_or self.old.rooms index false || page.room) }
    {
        if page.word() != 0 || !self.each[index].has_room() {
            self.put_page(index, page);
        }
    }

    // A page stands at this place from now on.
    fn put_page(&mut self, index: usize, page: Page)
        requires { index < length self.old.rooms }
        ensures here { (i : ℕ) → i < 64
            → map.get self.new.slots (64 * index + i) ≡ get_or page.slots i None }
        ensures others { (f : ℕ) → f / 64 ≢ index
            → map.get self.new.slots f ≡ map.get self.old.slots f }
        ensures rooms { self.new.rooms ≡ set self.old.rooms index page.room }
    {
        let is_full = lowest_clear(page.word()).is_none();
        self.each[index] = page;
        mark(self.full.as_mut_slice(), index, is_full);
    }
}

// Copies of pages, in the same order. Refused memory gives nothing.
fn copies(heap: Heap, pages: &[Page]) -> Result<Vec<Page, Heap>, AllocError>
    ensures { IfOk result (λ copies. copies.items ≡ pages.now) }
{
    let mut copies = Vec::with_capacity(heap, pages.len())?;
    for page in pages {
        copies.push(page.try_clone(heap)?)?;
    }
    Ok(copies)
}
