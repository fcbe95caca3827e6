// Memory for descriptors that are still to be opened.
ghost use Rattle.std.specs.Prelude.{◌≡◌, ◌≢◌, ◌<◌, ◌⊎◌, ℕ, None, IfOk, OnOk};
ghost use Rattle.model.specs.FiniteMap as map;
ghost use Rattle.ids.specs.declared.limits.TheConstants.{DESCRIPTORS};
ghost use Rattle.fdtable.specs.Pages.{HasRoom};

use crate::FdTable;
use crate::pages::Pages;
use crate::words::reach;
use heap::Heap;
use ids::Fd;
use std::alloc::AllocError;
use std::marker::Model;

/// Room for descriptors in any table: as much of it as a table may lack. Contracts see in which pages
/// of 64 there is room.
#[derive(Drop)]
pub struct SlotRoom {
    pages: Pages,
}

impl Model for SlotRoom {
    ghost use Rattle.std.specs.Prelude.{◌≡◌, Bool, List};
    ghost use Rattle.model.specs.FiniteMap as map;

    ghost Value = { List Bool };

    ghost view = { λ r. r.pages.rooms };

    ghost invariant = { λ r. r.pages.slots ≡ map.empty };
}

impl SlotRoom {
    /// No room. It takes no memory.
    pub fn new(heap: Heap) -> SlotRoom {
        SlotRoom {
            pages: Pages::new(heap),
        }
    }

    /// Room for one descriptor. Refused memory gives nothing.
    pub fn of(heap: Heap, fd: Fd) -> Result<SlotRoom, AllocError>
        requires { fd < DESCRIPTORS }
        ensures { IfOk result (λ room. HasRoom room fd) }
    {
        let mut room = SlotRoom::new(heap);
        room.promise(fd)?;
        Ok(room)
    }

    /// Room for all that a table has open. Refused memory gives nothing.
    pub fn like(heap: Heap, table: &FdTable) -> Result<SlotRoom, AllocError>
        ensures { IfOk result (λ room. (f : ℕ) → map.get table.now f ≢ None → HasRoom room f) }
    {
        let mut room = SlotRoom::new(heap);
        let mut from = 0;
        while let Some(fd) = table.open_from(from) {
            room.promise(fd)?;
            from = fd.0 + 1;
        }
        Ok(room)
    }

    /// Room for one descriptor more. Refused memory takes no room away.
    pub fn promise(&mut self, fd: Fd) -> Result<(), AllocError>
        requires { fd < DESCRIPTORS }
        ensures ok { OnOk result (HasRoom self.new fd) }
        ensures kept { (f : ℕ) → HasRoom self.old f → HasRoom self.new f }
    {
        self.pages.promise(fd)
    }

    /// Both rooms in one. It takes no memory.
    pub fn join(&mut self, other: SlotRoom)
        ensures { (f : ℕ) → (HasRoom self.old f) ⊎ (HasRoom other f) → HasRoom self.new f }
    {
        self.pages.join(other.into_pages());
    }

    // The pages, of which no descriptor is open.
    pub(crate) fn into_pages(self) -> Pages
        ensures rooms { result.rooms ≡ self }
        ensures slots { result.slots ≡ map.empty }
    {
        let SlotRoom { pages } = self;
        pages
    }
}

/// A place for a note of one descriptor: memory for the note in a patch, and for the descriptor in the
/// table on which the patch is laid. Contracts see which descriptor it is for.
#[derive(Drop)]
pub struct SlotPlace {
    pub(crate) fd: Fd,
    pub(crate) given: SlotRoom,
    pub(crate) closed: Vec<u64, Heap>,
    pub(crate) table: SlotRoom,
}

impl Model for SlotPlace {
    ghost use Rattle.std.specs.Prelude.{ℕ};
    ghost use Rattle.fdtable.specs.Patches.{IsPlace};

    ghost Value = { ℕ };

    ghost view = { λ p. p.fd };

    ghost invariant = { λ p. IsPlace p.fd p.given p.closed.items p.table };
}

impl SlotPlace {
    /// A place for a note of one descriptor. Refused memory gives nothing.
    pub fn new(heap: Heap, fd: Fd) -> Result<SlotPlace, AllocError>
        requires { fd < DESCRIPTORS }
        ensures { IfOk result (λ place. place ≡ fd) }
    {
        let mut closed = Vec::new(heap);
        reach(&mut closed, fd.0 as usize)?;
        Ok(SlotPlace {
            fd,
            given: SlotRoom::of(heap, fd)?,
            closed,
            table: SlotRoom::of(heap, fd)?,
        })
    }

    /// Which descriptor it is for.
    pub fn descriptor(&self) -> Fd
        ensures value { result ≡ self.now }
        ensures small { result < DESCRIPTORS }
    {
        self.fd
    }
}
