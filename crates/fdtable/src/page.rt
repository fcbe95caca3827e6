// 64 descriptors in a row.
ghost use Rattle.std.specs.Prelude.{◌≡◌, ◌<◌, ℕ, None, true, false, get_or, length, set};
ghost use Rattle.std.specs.Prelude.{OnErr, OnOk, IfOk};
ghost use Rattle.std.specs.Int.{bit_at};
ghost use Rattle.std.specs.Option.{is_some};
ghost use Rattle.fdtable.specs.Pages.{no_page};
ghost use Rattle.fdtable.specs.Words.{as_bit};

use crate::words::with_bit;
use heap::Heap;
use ids::Num;
use std::alloc::AllocError;
use std::marker::Model;

/// How many descriptors stand in a page.
pub(crate) const PAGE_LEN: usize = 64;

/// 64 descriptors in a row. A page in which none was ever to be open takes no memory.
#[derive(Drop)]
pub(crate) struct Page {
    // What each is open on: 64 of them, or none where there is no room.
    slots: Vec<Option<Num>, Heap>,
    // A bit for each that is open.
    marks: u64,
}

impl Model for Page {
    ghost use Rattle.std.specs.Prelude.{not};
    ghost use Rattle.model.specs.Paths.{is_empty};
    ghost use Rattle.fdtable.specs.Pages.{IsPage, PageContent, padded};

    ghost Value = { PageContent };

    ghost view = { λ p. record {
      slots = padded p.slots.items;
      room = not (is_empty p.slots.items);
    } };

    ghost invariant = { λ p. IsPage p.slots.items p.marks };
}

impl Page {
    /// No descriptors, and no room. It takes no memory.
    pub(crate) fn new(heap: Heap) -> Page
        ensures { result ≡ no_page }
    {
        Page {
            slots: Vec::new(heap),
            marks: 0,
        }
    }

    /// What a descriptor of it is open on.
    pub(crate) fn get(&self, index: usize) -> Option<Num>
        ensures { result ≡ get_or self.now.slots index None }
    {
        match self.slots.get(index) {
            Some(given) => *given,
            None => None,
        }
    }

    /// A bit for each descriptor of it that is open.
    pub(crate) fn word(&self) -> u64
        ensures bits { (i : ℕ) → i < 64
            → bit_at result i ≡ as_bit (is_some (get_or self.now.slots i None)) }
        ensures long { length self.now.slots ≡ 64 }
        ensures bare { self.now.room ≡ false → self.now ≡ no_page }
    {
        self.marks
    }

    /// Whether there is room for its descriptors.
    pub(crate) fn has_room(&self) -> bool
        ensures { result ≡ self.now.room }
    {
        !self.slots.is_empty()
    }

    /// Makes room for its descriptors. Refused memory changes nothing.
    pub(crate) fn promise(&mut self) -> Result<(), AllocError>
        ensures ok { OnOk result (self.new ≡ record self.old { room = true }) }
        ensures err { OnErr result (self.new ≡ self.old) }
    {
        if self.slots.is_empty() {
            self.slots.resize(PAGE_LEN, None)?;
        }
        Ok(())
    }

    /// A descriptor is open on this from now on, or closed; what it was open on is answered. It takes
    /// no memory.
    pub(crate) fn put(&mut self, index: usize, given: Option<Num>) -> Option<Num>
        requires room { self.old.room ≡ true }
        requires within { index < 64 }
        ensures former { result ≡ get_or self.old.slots index None }
        ensures slots { self.new ≡ record self.old { slots = set self.old.slots index given } }
    {
        let former = self.slots[index];
        self.slots[index] = given;
        self.marks = with_bit(self.marks, index, given.is_some());
        former
    }

    /// A copy. Refused memory gives nothing.
    pub(crate) fn try_clone(&self, heap: Heap) -> Result<Page, AllocError>
        ensures { IfOk result (λ page. page ≡ self.now) }
    {
        Ok(Page {
            slots: Vec::from_slice(heap, self.slots.as_slice())?,
            marks: self.marks,
        })
    }
}
