// Requests that look at nodes.
ghost use Rattle.std.specs.Prelude.{◌≡◌, ◌<◌, IfOk};
ghost use Rattle.nodes.specs.Tables.{looked_up};
ghost use Rattle.course.specs.Hands.{bound};
ghost use Rattle.mount_tables.specs.Attributes.{IsLike, IsOfNode};
ghost use Rattle.mount_requests.specs.Answers.{IsPlanned};
ghost use Rattle.mount_requests.specs.Requests.{AnswersGetAttr, AnswersLookUp, AnswersName};
ghost use Rattle.mount_requests.specs.Requests.{AnswersReadLink, IsReserved, linked};
ghost use Rattle.mount_requests.specs.Seen.{seen};
ghost use Rattle.mount_requests.specs.Times.{times_at, times_if};
ghost use Rattle.mount_requests.specs.Told.{IsEntry};

use crate::failure::Failure;
use crate::planning::{Located, LocatedName, twice};
use crate::tables::Tables;
use course::{Hand, Twice, find};
use fuse::{Attr, Entry, Errno, Reply};
use ids::{Bytes, Num, Stat};
use machine::Machine;
use mount_tables::{ROOT, TRANSACTIONS, attr_of, attr_of_node, is_reserved};
use nodes::Spot;

// The object of a node, by its path, which is used twice.
#[derive(Drop)]
pub(crate) struct Linked {
    paths: Twice,
    inode: Num,
}

impl Tables {
    // What is told of a node that was looked up, or made, under this name: its look-up is counted.
    pub(crate) fn entry(&mut self, spot: Spot, stat: &Stat) -> Entry
        requires { 0 < self.old.nodes.room }
        ensures entry { IsEntry self.old.nodes.table spot stat.now
            (times_at (seen self.old) (seen self.old).times spot.parent stat.now.num) result }
        ensures seen { seen self.new ≡ record (seen self.old) {
          nodes = looked_up self.old.nodes.table spot stat.now.num stat.now.kind;
        } }
    {
        let times = self.times_at(spot.entry().parent, stat.num);
        let looked: Result<_, _> = self.nodes.look_up(spot, stat.num, stat.kind);
        Entry {
            node: looked.unwrap(),
            generation: 0,
            attr: attr_of(stat, times),
        }
    }

    /// What is told of a node that is no object of the kernel.
    pub fn entry_of_node(&self, node: u64, is_directory: bool) -> Entry
        ensures node { result.node ≡ node }
        ensures attr { IsOfNode node is_directory (seen self.now).time result.attr }
    {
        Entry {
            node,
            generation: 0,
            attr: attr_of_node(node, is_directory, self.time),
        }
    }

    // The directory of transactions, in the root of the plain tree alone.
    fn look_up_reserved(&self, node: u64) -> Result<Reply, Failure>
        ensures { IsReserved node result }
    {
        if node == ROOT {
            Ok(Reply::Entry(self.entry_of_node(TRANSACTIONS, true)))
        } else {
            Err(Failure::Error(Errno::ENOENT))
        }
    }

    // What another name gives.
    fn look_up_name<K: Machine>(
        &mut self,
        hand: &mut Hand<K>,
        node: u64,
        name: &Bytes,
    ) -> Result<Reply, Failure>
        ensures bound { bound hand.new ≡ bound hand.old }
        ensures answers { AnswersName (seen self.old) (seen self.new) hand.old.pid node name.now
            hand.old.shown hand.new.shown result }
    {
        let LocatedName {
            view: _,
            path,
            place,
        } = self.locate_child(node, name)?;
        let spot = self.spot_for(node, name)?;
        let stat = course::look_up(hand, place, path)?;
        Ok(Reply::Entry(self.entry(spot, &stat)))
    }

    // What a name of a directory gives.
    pub(crate) fn look_up<K: Machine>(
        &mut self,
        hand: &mut Hand<K>,
        node: u64,
        name: &Bytes,
    ) -> Result<Reply, Failure>
        ensures bound { bound hand.new ≡ bound hand.old }
        ensures answers { AnswersLookUp (seen self.old) (seen self.new) hand.old.pid node name.now
            hand.old.shown hand.new.shown result }
    {
        if is_reserved(node, name.as_slice()) {
            return self.look_up_reserved(node);
        }
        self.look_up_name(hand, node, name)
    }

    // What is told of the object of a node.
    pub(crate) fn attr_at(&self, node: u64, stat: &Stat) -> Attr
        ensures { IsLike stat.now
            (times_if (seen self.now) (seen self.now).times node stat.now.num) result }
    {
        attr_of(stat, self.times_if(node, stat.num))
    }

    // The attributes of a node.
    pub(crate) fn get_attr<K: Machine>(
        &mut self,
        hand: &mut Hand<K>,
        node: u64,
    ) -> Result<Reply, Failure>
        ensures bound { bound hand.new ≡ bound hand.old }
        ensures answers { AnswersGetAttr (seen self.old) (seen self.new) hand.old.pid node
            hand.old.shown hand.new.shown result }
    {
        let object = self.find_object(hand.pid(), node)?;
        let stat = find(hand, object)?;
        Ok(Reply::Attr(self.attr_at(node, &stat)))
    }
    // The object of a node whose target is asked for.
    fn plan_target(&self, node: u64) -> Result<Linked, Failure>
        ensures plan { IsPlanned (linked (seen self.now) node) result }
        ensures same { IfOk result (λ l. l.paths.second ≡ l.paths.first) }
    {
        let Located { view: _, path } = self.locate_own(node)?;
        let paths = twice(path)?;
        let inode = self.inode_of(node);
        Ok(Linked { paths, inode })
    }

    // The target of a symbolic link.
    pub(crate) fn read_link<K: Machine>(
        &mut self,
        hand: &mut Hand<K>,
        node: u64,
    ) -> Result<Reply, Failure>
        ensures bound { bound hand.new ≡ bound hand.old }
        ensures answers { AnswersReadLink (seen self.old) (seen self.new) hand.old.pid node
            hand.old.shown hand.new.shown result }
    {
        let Linked { paths, inode } = self.plan_target(node)?;
        let target = course::read_link(hand, self.heap, paths, inode)?;
        Ok(Reply::Data(target))
    }
}
