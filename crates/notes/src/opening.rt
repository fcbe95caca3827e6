// What a transaction has changed of open file descriptions.
ghost use Rattle.std.specs.Prelude.{◌≡◌, ◌≢◌, ◌==◌, [], ℕ, None, Option, OnErr, OnOk, Some};
ghost use Rattle.std.specs.Prelude.{if◌then◌else◌, option_copied};
ghost use Rattle.model.specs.State.{Description as Opened, mapped};
ghost use Rattle.model.specs.Changes.{at_offset};
ghost use Rattle.notes.specs.Patches.{is_new, kept_at, opening_at, reopened};
ghost use Rattle.notes.specs.Openings.{AtOpening, IsMoved, IsOpened, SameOpenings};

use heap::Heap;
use ids::Num;
use objects::Description;
use std::alloc::AllocError;
use std::collections::BTreeMap;
use std::marker::Model;

/// What a transaction has changed of one description.
#[derive(Clone, Copy)]
pub enum Opening {
    /// Nothing.
    Kept,
    /// The transaction made it, and this is how it is now.
    New(Description),
    /// Its offset.
    Moved(u64),
}

impl Opening {
    /// The description now, by the one in the committed state; `None` where there is none. It takes no
    /// memory.
    pub fn over(self, stored: Option<Description>) -> Option<Description>
        ensures { result ≡ reopened self stored }
    {
        match self {
            Opening::Kept => stored,
            Opening::New(description) => Some(description),
            Opening::Moved(offset) => moved(stored, offset),
        }
    }

    // The same with this offset.
    fn moved_to(self, offset: u64) -> Opening
        ensures { IsMoved offset self result }
    {
        match self {
            Opening::New(description) => Opening::New(Description {
                offset,
                ..description
            }),
            Opening::Kept => Opening::Moved(offset),
            Opening::Moved(_) => Opening::Moved(offset),
        }
    }
}

// A description with this offset.
fn moved(stored: Option<Description>, offset: u64) -> Option<Description>
    ensures { result ≡ mapped (at_offset offset) stored }
{
    match stored {
        Some(description) => Some(Description {
            offset,
            ..description
        }),
        None => None,
    }
}

/// The changes of all descriptions.
#[derive(Drop)]
pub struct Openings {
    /// What is changed of each, by its number.
    pub each: BTreeMap<Num, Opening, Heap>,
}

impl Model for Openings {
    ghost use Rattle.std.specs.Prelude.{ℕ, List};
    ghost use Rattle.notes.specs.declared.opening.Opening.{Opening as Changed};

    ghost Value = { List (ℕ × Changed) };

    ghost view = { λ o. o.each.entries };
}

impl Openings {
    /// Nothing is changed. It takes no memory.
    pub(crate) fn new(heap: Heap) -> Openings
        ensures { result ≡ [] }
    {
        Openings {
            each: BTreeMap::new(heap),
        }
    }

    /// What is changed of a description; `Kept` where nothing is noted of it. It takes no memory.
    pub fn get(&self, num: Num) -> Opening
        ensures { result ≡ opening_at self.now num }
    {
        match self.each.get(&num) {
            Some(opening) => *opening,
            None => Opening::Kept,
        }
    }

    /// Makes a place for what will be changed of a description. Refused memory changes nothing.
    pub(crate) fn make_place(&mut self, num: Num) -> Result<(), AllocError>
        ensures same { SameOpenings self.old self.new }
        ensures ok { OnOk result (kept_at self.new num ≢ None) }
    {
        if self.each.contains_key(&num) {
            return Ok(());
        }
        self.each.insert(num, Opening::Kept)?;
        Ok(())
    }

    /// Notes that the transaction made a description, in its place. It takes no memory.
    pub(crate) fn open(&mut self, num: Num, description: Description)
        requires { kept_at self.old num ≢ None }
        ensures { AtOpening num (IsOpened description) self.old self.new }
    {
        match self.each.get_mut(&num) {
            Some(opening) => *opening = Opening::New(description),
            None => unreachable!(),
        }
    }

    /// Notes a description's offset, in its place. It takes no memory.
    pub(crate) fn move_to(&mut self, num: Num, offset: u64)
        requires { kept_at self.old num ≢ None }
        ensures { AtOpening num (IsMoved offset) self.old self.new }
    {
        match self.each.get_mut(&num) {
            Some(opening) => *opening = opening.moved_to(offset),
            None => unreachable!(),
        }
    }
}
