// Requests that take names away, or move them.
ghost use Rattle.std.specs.Prelude.{◌≡◌, ◌≤◌, ◌<◌, is_some, IfOk, IfSome};
ghost use Rattle.course.specs.Hands.{bound};
ghost use Rattle.mount_requests.specs.Answers.{IsPlanned};
ghost use Rattle.mount_requests.specs.Asked.{absent_in, is_exchange};
ghost use Rattle.mount_requests.specs.Later.{with_exchange, with_move, without_name};
ghost use Rattle.mount_requests.specs.Requests.{AnswersExchange, AnswersMove, AnswersRename};
ghost use Rattle.mount_requests.specs.Requests.{AnswersRmDir, AnswersUnlink, moved, removing, swapped};
ghost use Rattle.mount_requests.specs.Seen.{seen};
ghost use Rattle.mount_requests.specs.Times.{view_at};
ghost use Rattle.mount_requests.specs.Told.{named};
ghost use Rattle.view_times.specs.Kept.{room_of};

use crate::failure::Failure;
use crate::planning::{LocatedName, in_one_view};
use crate::tables::Tables;
use course::Hand;
use fuse::bits::{RENAME_EXCHANGE, RENAME_NO_REPLACE};
use fuse::{Errno, Reply};
use ids::Bytes;
use machine::Machine;
use mount_tables::is_reserved;
use nodes::{DirectoryEntry, Spot};
use std::alloc::AllocError;

// The two names of a move, and whether it may replace nothing.
#[derive(Drop)]
pub(crate) struct Moving {
    from: LocatedName,
    to: LocatedName,
    absent: bool,
}

// The two names of an exchange.
#[derive(Drop)]
pub(crate) struct Exchanging {
    first: LocatedName,
    second: LocatedName,
}

// A copy, where it is wanted.
fn copy_if(wanted: bool, bytes: &Bytes) -> Result<Option<Bytes>, AllocError>
    ensures same { IfOk result (λ copy. IfSome copy (λ b. b ≡ bytes.now)) }
    ensures wanted { IfOk result (λ copy. is_some copy ≡ wanted) }
{
    if wanted {
        Ok(Some(bytes.try_clone()?))
    } else {
        Ok(None)
    }
}

// Whether a move may replace nothing. There is no other flag of a move.
fn absent_in(flags: u32) -> Result<bool, Failure>
    ensures { result ≡ absent_in flags }
{
    if flags > RENAME_NO_REPLACE {
        Err(Failure::Error(Errno::EINVAL))
    } else {
        Ok(flags == RENAME_NO_REPLACE)
    }
}

// Whether two names change places. Linux lets no other flag stand beside that one.
fn is_exchange(flags: u32) -> bool
    ensures { result ≡ is_exchange flags }
{
    flags == RENAME_EXCHANGE
}

impl Tables {
    // A name of a directory.
    fn entry_of_name(&self, node: u64, name: &Bytes) -> Result<DirectoryEntry, AllocError>
        ensures { IfOk result (λ entry. entry ≡ named node name.now) }
    {
        DirectoryEntry::new(self.heap, node, name.as_slice())
    }

    // A name was taken away.
    fn note_removed(&mut self, removed: &DirectoryEntry)
        requires { 2 ≤ room_of self.old.times (view_at (seen self.old) removed.now.parent) }
        ensures { seen self.new
            ≡ without_name (seen self.old) removed.now.parent removed.now.name }
    {
        self.note_lost(removed);
        self.nodes.detach(removed);
    }

    // A name was moved.
    fn note_moved(&mut self, former: &DirectoryEntry, spot: Spot)
        requires room { 0 < self.old.nodes.room }
        requires events { 3 ≤ room_of self.old.times (view_at (seen self.old) former.now.parent) }
        ensures { seen self.new ≡ with_move (seen self.old) former.now.parent former.now.name
            spot.parent spot.name }
    {
        self.note_renamed(former, spot.entry());
        let noted: Result<_, _> = self.nodes.move_entry(former, spot);
        noted.unwrap();
    }

    // Two names were exchanged.
    fn note_exchanged(&mut self, first: Spot, second: Spot)
        requires room { 0 < self.old.nodes.room }
        requires events { 4 ≤ room_of self.old.times (view_at (seen self.old) first.parent) }
        ensures { seen self.new ≡ with_exchange (seen self.old) first.parent first.name second.parent
            second.name }
    {
        self.note_exchanging(first.entry(), second.entry());
        let noted: Result<_, _> = self.nodes.exchange(first, second);
        noted.unwrap();
    }

    // Takes a name of a file away.
    pub(crate) fn unlink<K: Machine>(
        &mut self,
        hand: &mut Hand<K>,
        node: u64,
        name: &Bytes,
    ) -> Result<Reply, Failure>
        ensures bound { bound hand.new ≡ bound hand.old }
        ensures answers { AnswersUnlink (seen self.old) (seen self.new) hand.old.pid node name.now
            hand.old.shown hand.new.shown result }
    {
        let LocatedName {
            view: _,
            path,
            place,
        } = self.locate_new(node, name)?;
        let removed = self.entry_of_name(node, name)?;
        self.reserve_events(node)?;
        course::unlink(hand, place, path)?;
        self.note_removed(&removed);
        Ok(Reply::Empty)
    }

    // Where a directory is that is to be removed. That of transactions stays.
    fn plan_removal(&self, node: u64, name: &Bytes) -> Result<LocatedName, Failure>
        ensures { IsPlanned (removing (seen self.now) node name.now) result }
    {
        if is_reserved(node, name.as_slice()) {
            return Err(Failure::Error(Errno::EBUSY));
        }
        self.locate_child(node, name)
    }

    // Removes an empty directory.
    pub(crate) fn remove_directory<K: Machine>(
        &mut self,
        hand: &mut Hand<K>,
        node: u64,
        name: &Bytes,
    ) -> Result<Reply, Failure>
        ensures bound { bound hand.new ≡ bound hand.old }
        ensures answers { AnswersRmDir (seen self.old) (seen self.new) hand.old.pid node name.now
            hand.old.shown hand.new.shown result }
    {
        let LocatedName {
            view: _,
            path,
            place,
        } = self.plan_removal(node, name)?;
        let removed = self.entry_of_name(node, name)?;
        self.reserve_events(node)?;
        course::remove_directory(hand, place, path)?;
        self.note_removed(&removed);
        Ok(Reply::Empty)
    }

    // The names of a move, in one view, and whether it may replace nothing.
    fn plan_move(
        &self,
        node: u64,
        name: &Bytes,
        new_parent: u64,
        new_name: &Bytes,
        flags: u32,
    ) -> Result<Moving, Failure>
        ensures { IsPlanned (moved (seen self.now) node name.now new_parent new_name.now flags)
            result }
    {
        let absent = absent_in(flags)?;
        let from = self.locate_new(node, name)?;
        let to = self.locate_new(new_parent, new_name)?;
        in_one_view(from.view, to.view)?;
        Ok(Moving { from, to, absent })
    }

    // Moves what a name gives to another name, in the same view.
    fn move_name<K: Machine>(
        &mut self,
        hand: &mut Hand<K>,
        node: u64,
        name: &Bytes,
        new_parent: u64,
        new_name: &Bytes,
        flags: u32,
    ) -> Result<Reply, Failure>
        ensures bound { bound hand.new ≡ bound hand.old }
        ensures answers { AnswersMove (seen self.old) (seen self.new) hand.old.pid node name.now
            new_parent new_name.now flags hand.old.shown hand.new.shown result }
    {
        let Moving { from, to, absent } = self.plan_move(node, name, new_parent, new_name, flags)?;
        let again = copy_if(absent, &to.path)?;
        let former = self.entry_of_name(node, name)?;
        self.reserve_events(node)?;
        let spot = self.spot_for(new_parent, new_name)?;
        course::move_name(hand, from.place, from.path, to.place, to.path, again)?;
        self.note_moved(&former, spot);
        Ok(Reply::Empty)
    }

    // The names of an exchange, in one view.
    fn plan_exchange(
        &self,
        node: u64,
        name: &Bytes,
        new_parent: u64,
        new_name: &Bytes,
    ) -> Result<Exchanging, Failure>
        ensures { IsPlanned (swapped (seen self.now) node name.now new_parent new_name.now) result }
    {
        let first = self.locate_new(node, name)?;
        let second = self.locate_new(new_parent, new_name)?;
        in_one_view(first.view, second.view)?;
        Ok(Exchanging { first, second })
    }

    // Exchanges what two names of the same view give.
    fn exchange<K: Machine>(
        &mut self,
        hand: &mut Hand<K>,
        node: u64,
        name: &Bytes,
        new_parent: u64,
        new_name: &Bytes,
    ) -> Result<Reply, Failure>
        ensures bound { bound hand.new ≡ bound hand.old }
        ensures answers { AnswersExchange (seen self.old) (seen self.new) hand.old.pid node name.now
            new_parent new_name.now hand.old.shown hand.new.shown result }
    {
        let Exchanging { first, second } = self.plan_exchange(node, name, new_parent, new_name)?;
        self.reserve_events(node)?;
        let at_first = self.spot_for(node, name)?;
        let at_second = self.spot_for(new_parent, new_name)?;
        course::exchange(hand, first.place, first.path, second.place, second.path)?;
        self.note_exchanged(at_first, at_second);
        Ok(Reply::Empty)
    }

    // Moves a name, or exchanges two, as the flags say.
    pub(crate) fn rename<K: Machine>(
        &mut self,
        hand: &mut Hand<K>,
        node: u64,
        name: &Bytes,
        new_parent: u64,
        new_name: &Bytes,
        flags: u32,
    ) -> Result<Reply, Failure>
        ensures bound { bound hand.new ≡ bound hand.old }
        ensures answers { AnswersRename (seen self.old) (seen self.new) hand.old.pid node name.now
            new_parent new_name.now flags hand.old.shown hand.new.shown result }
    {
        if is_exchange(flags) {
            return self.exchange(hand, node, name, new_parent, new_name);
        }
        self.move_name(hand, node, name, new_parent, new_name, flags)
    }
}
