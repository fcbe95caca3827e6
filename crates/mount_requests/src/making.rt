// Requests that make names.
ghost use Rattle.std.specs.Prelude.{◌≡◌, ◌≤◌, ◌<◌, ℕ, IfOk};
ghost use Rattle.nodes.specs.Tables.{looked_up, made};
ghost use Rattle.course.specs.Hands.{bound};
ghost use Rattle.mount_requests.specs.Answers.{IsPlanned};
ghost use Rattle.mount_requests.specs.Asked.{given, special_in};
ghost use Rattle.mount_requests.specs.Later.{with_birth, with_new};
ghost use Rattle.mount_requests.specs.Requests.{AnswersLink, AnswersMkDir, AnswersMkNod, AnswersSymLink};
ghost use Rattle.mount_requests.specs.Requests.{linking_in, planned_node};
ghost use Rattle.mount_requests.specs.Seen.{seen};
ghost use Rattle.mount_requests.specs.Times.{times_at, view_at};
ghost use Rattle.mount_requests.specs.Told.{IsEntry};
ghost use Rattle.view_times.specs.Kept.{room_of};

use crate::failure::Failure;
use crate::planning::{Located, LocatedName, NewName, in_one_view, twice};
use crate::requests::Caller;
use crate::tables::Tables;
use course::{Hand, Place, Twice, permissions_in};
use fuse::bits::{MODE_FILE, MODE_PERMISSIONS, MODE_PIPE, MODE_SOCKET};
use fuse::{Entry, Errno, Reply};
use ids::{Bytes, Num, Owner, Rights, Special, Stat};
use machine::Machine;
use nodes::Spot;

// What is to be made, and where: a plain file, a FIFO or a socket.
#[derive(Drop)]
pub(crate) struct NewNode {
    at: NewName,
    special: Option<Special>,
}

// The object of a node, by its path, and its further name with the directory of that, each path as it
// is used twice.
#[derive(Drop)]
pub(crate) struct Linking {
    from: Twice,
    inode: Num,
    place: Option<Place>,
    to: Twice,
}

// By this a kind stands above the permissions of a mode.
const KIND: u32 = MODE_PERMISSIONS + 1;

// What a mode asks to be made: a plain file, which no kind means too, a FIFO or a socket. There are no
// devices.
fn special_in(mode: u32) -> Result<Option<Special>, Failure>
    ensures { result ≡ special_in mode }
{
    let kind = mode / KIND % 0o20;
    if kind == MODE_FILE / KIND || kind == 0 {
        Ok(None)
    } else if kind == MODE_PIPE / KIND {
        Ok(Some(Special::Fifo))
    } else if kind == MODE_SOCKET / KIND {
        Ok(Some(Special::Socket))
    } else {
        Err(Failure::Error(Errno::EPERM))
    }
}

// What its maker gives to something that is made: itself as owner, and the permissions of a mode.
pub(crate) fn given(owner: Owner, mode: u32) -> Rights
    ensures { result ≡ given owner mode }
{
    Rights {
        permissions: permissions_in(mode),
        owner,
    }
}

impl Tables {
    // An object was made: nodes of the one that had its number before do not stand for it, and nothing
    // is known any more of when that was changed.
    fn note_birth(&mut self, inode: Num)
        requires { 0 < self.old.nodes.birth_room }
        ensures seen { seen self.new ≡ with_birth (seen self.old) inode }
        ensures room { self.new.nodes.room ≡ self.old.nodes.room }
        ensures files { self.new.files ≡ self.old.files }
        ensures events { (view : ℕ) → room_of self.old.times view ≤ room_of self.new.times view }
    {
        let noted: Result<_, _> = self.nodes.note_made(inode);
        noted.unwrap();
        self.times.free(inode);
    }

    // An object was made in the directory of a node.
    pub(crate) fn note_new(&mut self, node: u64, inode: Num)
        requires birth { 0 < self.old.nodes.birth_room }
        requires events { 2 ≤ room_of self.old.times (view_at (seen self.old) node) }
        ensures seen { seen self.new ≡ with_new (seen self.old) node inode }
        ensures room { self.new.nodes.room ≡ self.old.nodes.room }
        ensures files { self.new.files ≡ self.old.files }
    {
        self.note_birth(inode);
        self.note_made(node, inode);
    }

    // What is kept and told of an object that was made.
    fn entry_made(&mut self, spot: Spot, stat: &Stat) -> Entry
        requires room { 0 < self.old.nodes.room }
        requires birth { 0 < self.old.nodes.birth_room }
        requires events { 2 ≤ room_of self.old.times (view_at (seen self.old) spot.parent) }
        ensures entry { IsEntry (made self.old.nodes.table stat.now.num) spot stat.now
            (times_at (seen self.old) (seen self.new).times spot.parent stat.now.num) result }
        ensures seen { seen self.new ≡ record (with_new (seen self.old) spot.parent stat.now.num) {
          nodes = looked_up (made self.old.nodes.table stat.now.num) spot
              stat.now.num stat.now.kind;
        } }
    {
        self.note_new(spot.entry().parent, stat.num);
        self.entry(spot, stat)
    }

    // Makes a directory.
    pub(crate) fn make_directory<K: Machine>(
        &mut self,
        hand: &mut Hand<K>,
        caller: Caller,
        name: &Bytes,
        mode: u32,
    ) -> Result<Reply, Failure>
        ensures bound { bound hand.new ≡ bound hand.old }
        ensures answers { AnswersMkDir (seen self.old) (seen self.new) hand.old.pid caller
            name.now mode hand.old.shown hand.new.shown result }
    {
        let NewName {
            view: _,
            path,
            again,
            parent,
        } = self.locate_made(caller.node, name)?;
        self.reserve_events(caller.node)?;
        let spot = self.spot_for(caller.node, name)?;
        let rights = given(caller.owner, mode);
        let stat = course::make_directory(hand, parent, path, again, rights)?;
        let entry = self.entry_made(spot, &stat);
        Ok(Reply::Entry(entry))
    }

    // Makes a symbolic link to this target.
    pub(crate) fn make_link<K: Machine>(
        &mut self,
        hand: &mut Hand<K>,
        caller: Caller,
        name: &Bytes,
        target: Bytes,
    ) -> Result<Reply, Failure>
        ensures bound { bound hand.new ≡ bound hand.old }
        ensures answers { AnswersSymLink (seen self.old) (seen self.new) hand.old.pid caller
            name.now target hand.old.shown hand.new.shown result }
    {
        let NewName {
            view: _,
            path,
            again,
            parent,
        } = self.locate_made(caller.node, name)?;
        self.reserve_events(caller.node)?;
        let spot = self.spot_for(caller.node, name)?;
        let stat = course::make_link(hand, parent, target, path, again, caller.owner)?;
        let entry = self.entry_made(spot, &stat);
        Ok(Reply::Entry(entry))
    }

    // What is to be made, and where.
    fn plan_node(&self, node: u64, name: &Bytes, mode: u32) -> Result<NewNode, Failure>
        ensures { IsPlanned (planned_node (seen self.now) node name.now mode) result }
    {
        let special = special_in(mode)?;
        let at = self.locate_made(node, name)?;
        Ok(NewNode { at, special })
    }

    // Makes a plain file that is not opened, a FIFO or a socket.
    pub(crate) fn make_node<K: Machine>(
        &mut self,
        hand: &mut Hand<K>,
        caller: Caller,
        name: &Bytes,
        mode: u32,
    ) -> Result<Reply, Failure>
        ensures bound { bound hand.new ≡ bound hand.old }
        ensures answers { AnswersMkNod (seen self.old) (seen self.new) hand.old.pid caller
            name.now mode hand.old.shown hand.new.shown result }
    {
        let NewNode { at, special } = self.plan_node(caller.node, name, mode)?;
        let NewName {
            view: _,
            path,
            again,
            parent,
        } = at;
        self.reserve_events(caller.node)?;
        let spot = self.spot_for(caller.node, name)?;
        let rights = given(caller.owner, mode);
        let stat = course::make_node(hand, parent, path, again, special, rights)?;
        let entry = self.entry_made(spot, &stat);
        Ok(Reply::Entry(entry))
    }

    // The paths of an object and of its further name, which are in one view.
    fn plan_link(&self, parent: u64, node: u64, name: &Bytes) -> Result<Linking, Failure>
        ensures plan { IsPlanned (linking_in (seen self.now) parent node name.now) result }
        ensures from { IfOk result (λ l. l.from.second ≡ l.from.first) }
        ensures to { IfOk result (λ l. l.to.second ≡ l.to.first) }
    {
        let LocatedName {
            view: new_view,
            path: to,
            place,
        } = self.locate_new(parent, name)?;
        let Located { view, path: from } = self.locate_own(node)?;
        in_one_view(view, new_view)?;
        let from = twice(from)?;
        let to = twice(to)?;
        Ok(Linking {
            from,
            inode: self.inode_of(node),
            place,
            to,
        })
    }

    // Gives what is no directory a further name, in the same view.
    pub(crate) fn link<K: Machine>(
        &mut self,
        hand: &mut Hand<K>,
        parent: u64,
        node: u64,
        name: &Bytes,
    ) -> Result<Reply, Failure>
        ensures bound { bound hand.new ≡ bound hand.old }
        ensures answers { AnswersLink (seen self.old) (seen self.new) hand.old.pid parent node name.now
            hand.old.shown hand.new.shown result }
    {
        let Linking {
            from,
            inode,
            place,
            to,
        } = self.plan_link(parent, node, name)?;
        self.reserve_events(parent)?;
        let spot = self.spot_for(parent, name)?;
        let stat = course::link(hand, from, inode, place, to)?;
        self.note_linked(parent, inode);
        let entry = self.entry(spot, &stat);
        Ok(Reply::Entry(entry))
    }
}
