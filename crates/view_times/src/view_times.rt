// The times of all inodes, as each view sees them.
ghost use Rattle.std.specs.Prelude.{◌≡◌, ◌≢◌, ◌+◌, ◌≤◌, ◌<◌, ℕ, IsOk, OnOk};
ghost use Rattle.view_times.specs.Kept.{known, room_of};
ghost use Rattle.view_times.specs.Known.{aborted, committed, freed, noted_by, nothing_known};
ghost use Rattle.view_times.specs.Known.{times_of};

use crate::by_number::ByNumber;
use crate::event::Event;
use crate::times::Times;
use crate::views::Views;
use fuse::Time;
use heap::Heap;
use ids::Num;
use std::alloc::AllocError;
use std::marker::Model;

// The view of the plain tree: what happens there is everybody's at once. Each other number is the view of
// a transaction.
const PLAIN: u64 = 0;

/// The times of all inodes: those that everybody has, and what each view of a transaction has noted,
/// which no other one sees before it is committed.
pub struct ViewTimes {
    everybody: ByNumber<Times>,
    views: Views,
}

impl Drop for ViewTimes {
    fn drop(self) {
        let ViewTimes {
            everybody: _,
            views: _,
        } = self;
    }
}

impl Model for ViewTimes {
    ghost use Rattle.view_times.specs.Kept.{HavePlaces, Kept, kept_code};
    ghost use Rattle.view_times.specs.contracts.noted.Notes.{the_row as notes_row};
    ghost use Rattle.view_times.specs.contracts.times.Times.{the_row as times_row};

    ghost Value = { Kept };

    ghost coded = { kept_code times_row.coded notes_row.coded };

    ghost view = { λ t. record { everybody = t.everybody; views = t.views } };

    ghost invariant = { λ t. HavePlaces t.everybody.rows t.views };
}

// The number of an inode.
fn number_of(inode: Num) -> u64
    ensures { result ≡ inode }
{
    inode.0 as u64
}

impl ViewTimes {
    /// Nothing is known: each inode was accessed, modified and changed at the beginning of 1970. It
    /// takes no memory.
    pub fn new(heap: Heap) -> ViewTimes
        ensures { known result ≡ nothing_known }
    {
        ViewTimes {
            everybody: ByNumber::new(heap),
            views: Views::new(heap),
        }
    }

    /// The times of an inode as a view sees them: each time that the view has noted, and else the one
    /// that everybody has.
    pub fn of(&self, view: u64, inode: Num) -> Times
        ensures { result ≡ times_of (known self.now) view inode }
    {
        let number = number_of(inode);
        let times = self.everybody.of(number);
        if view == PLAIN {
            return times;
        }
        self.views.notes(view, number).over(times)
    }

    /// Makes room for so many inodes more of which a view notes something, so that as many calls of
    /// [`ViewTimes::note`] take no memory. Refused memory leaves all times as they are. It is for a view
    /// that goes on: what it keeps of one goes with that view's commit or abort.
    pub fn reserve(&mut self, view: u64, more: usize) -> Result<(), AllocError>
        ensures known { known self.new ≡ known self.old }
        ensures ok { OnOk result (more ≤ room_of self.new view) }
        ensures room { (other : ℕ) → room_of self.old other ≤ room_of self.new other }
        ensures succeeds { 0 < more → more ≤ room_of self.old view → IsOk result }
    {
        self.everybody.reserve(more)?;
        if view == PLAIN {
            return Ok(());
        }
        self.views.reserve(view, more)
    }

    /// A view notes an event of an inode at this time, in room that [`ViewTimes::reserve`] has made. In
    /// the plain tree it is everybody's at once. It takes no memory.
    pub fn note(&mut self, view: u64, inode: Num, event: Event, now: Time)
        requires { 0 < room_of self.old view }
        ensures known { known self.new ≡ noted_by (known self.old) view inode event now }
        ensures room { (other : ℕ) → room_of self.old other ≤ room_of self.new other + 1 }
    {
        let number = number_of(inode);
        let notes = event.notes(now);
        let times = self.everybody.of(number);
        if view == PLAIN {
            self.everybody.put(number, notes.over(times));
        } else {
            // The inode has a place from now on, so that a commit needs none.
            self.everybody.put(number, times);
            self.views.note(view, number, notes);
        }
    }

    /// What a view has noted becomes everybody's: of two times the later one, but a time that was set in
    /// the view as it was set. The view has noted nothing any more. It takes no memory.
    pub fn commit(&mut self, view: u64)
        ensures known { known self.new ≡ committed (known self.old) view }
        ensures room { (other : ℕ) → other ≢ view → room_of self.old other ≤ room_of self.new other }
    {
        if view == PLAIN {
            return;
        }
        if let Some(noted) = self.views.take(view) {
            self.everybody.merge_all(&noted);
        }
    }

    /// What a view has noted is gone, and what everybody has stays. It takes no memory.
    pub fn abort(&mut self, view: u64)
        ensures known { known self.new ≡ aborted (known self.old) view }
        ensures room { (other : ℕ) → other ≢ view → room_of self.old other ≤ room_of self.new other }
    {
        drop(self.views.take(view));
    }

    /// An inode is gone, and its number may be given again: nothing is known of it in any view. It
    /// takes no memory.
    pub fn free(&mut self, inode: Num)
        ensures known { known self.new ≡ freed (known self.old) inode }
        ensures room { (view : ℕ) → room_of self.old view ≤ room_of self.new view }
    {
        let number = number_of(inode);
        self.everybody.remove(number);
        self.views.forget(number);
    }
}
