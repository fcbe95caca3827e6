// Requests that open files.
ghost use Rattle.std.specs.Prelude.{◌≡◌, ◌≤◌, ◌<◌, is_some, Ok, OnOk};
ghost use Rattle.course.specs.Course.{Ran};
ghost use Rattle.course.specs.Hands.{bound};
ghost use Rattle.mount_requests.specs.Answers.{IsPlanned};
ghost use Rattle.mount_requests.specs.Asked.{creation, cut_by, cuts, has_flag, is_exclusive};
ghost use Rattle.mount_requests.specs.Found.{handle_of};
ghost use Rattle.mount_requests.specs.Later.{opened_again, opened_first, with_creation};
ghost use Rattle.mount_requests.specs.Requests.{AnswersCreate, AnswersOpen, OpensAs, handle_made};
ghost use Rattle.mount_requests.specs.Requests.{making_open, opening, opening_by, with_open};
ghost use Rattle.mount_requests.specs.Seen.{seen};
ghost use Rattle.mount_requests.specs.Times.{view_at};
ghost use Rattle.view_times.specs.Kept.{room_of};
ghost use Rattle.mount_requests.specs.declared.opening.Opening.TheVariants.{Again, First};

use crate::failure::Failure;
use crate::making::given;
use crate::planning::{Located, NewName};
use crate::requests::Caller;
use crate::tables::{Stepper, Tables};
use course::{Cut, Fault, Hand, Made, close_spare, create_cut, cut_if, open_cut};
use fuse::bits::{OPEN_DROPS_SET_IDS, OPEN_EXCLUSIVE, OPEN_TRUNCATE, OPENED_DIRECT};
use fuse::{Errno, Opened, Reply};
use ids::{Bytes, Fd, Num, Owner, Pid, Rights};
use machine::Machine;
use mount_tables::PLAIN;
use std::alloc::AllocError;

// How a file is opened.
#[derive(Drop)]
pub(crate) enum Opening {
    // It is open in the view already, and is opened once more.
    Again { inode: Num, handle: u64, fd: Fd },
    // By its path, where that gives this object.
    First { view: u64, path: Bytes, inode: Num },
}

// How a file is made, and what its maker gives to it.
#[derive(Clone, Copy)]
pub(crate) struct Creation {
    exclusive: bool,
    cut: Cut,
    given: Rights,
}

// An open file as it is told: reads and writes go past the cache.
fn opened(handle: u64) -> Opened
    ensures { result.handle ≡ handle }
{
    Opened {
        handle,
        flags: OPENED_DIRECT,
    }
}

// Whether the file is cut to nothing.
fn cuts(flags: u32) -> bool
    ensures { result ≡ cuts flags }
{
    flags & OPEN_TRUNCATE != 0
}

// Whether set-user-ID and set-group-ID go then.
fn drops(how: u32) -> bool
    ensures { result ≡ has_flag how 1 }
{
    how & OPEN_DROPS_SET_IDS != 0
}

// Both.
fn cut_by(flags: u32, how: u32) -> Cut
    ensures { result ≡ cut_by flags how }
{
    if cuts(flags) {
        if drops(how) {
            Cut::Dropping
        } else {
            Cut::Plain
        }
    } else {
        Cut::No
    }
}

// Whether it has to be a new one.
fn is_exclusive(flags: u32) -> bool
    ensures { result ≡ is_exclusive flags }
{
    flags & OPEN_EXCLUSIVE != 0
}

// How a file is made by these flags and this mode.
pub(crate) fn creation_by(owner: Owner, flags: u32, mode: u32, how: u32) -> Creation
    ensures { result ≡ creation owner flags mode how }
{
    Creation {
        exclusive: is_exclusive(flags),
        cut: cut_by(flags, how),
        given: given(owner, mode),
    }
}

impl Tables {
    // Makes room for one open file more.
    fn reserve_file(&mut self) -> Result<(), AllocError>
        ensures seen { seen self.new ≡ seen self.old }
        ensures room { OnOk result (0 < self.new.files.room) }
        ensures nodes { self.new.nodes ≡ self.old.nodes }
    {
        self.files.reserve()
    }

    // An open file is opened once more.
    fn count_open(&mut self, handle: u64)
        ensures seen { seen self.new ≡ opened_again (seen self.old) handle }
        ensures nodes { self.new.nodes ≡ self.old.nodes }
    {
        self.files.count(handle);
    }

    // Keeps a descriptor that was opened, and gives the number of the open file. A process of the
    // plain tree has one descriptor more.
    fn keep_open(&mut self, view: u64, inode: Num, pid: Pid, fd: Fd) -> u64
        requires { 0 < self.old.files.room }
        ensures handle { result ≡ (seen self.old).next_file }
        ensures seen { seen self.new ≡ opened_first (seen self.old) view inode pid fd }
        ensures nodes { self.new.nodes ≡ self.old.nodes }
    {
        let handle = self.files.add(view, inode, pid, fd);
        if view == PLAIN {
            self.processes.hold(pid);
        }
        handle
    }

    // A file that is open already is opened once more.
    fn open_again<K: Machine>(
        &mut self,
        hand: &mut Hand<K>,
        node: u64,
        inode: Num,
        handle: u64,
        fd: Fd,
        cut: Cut,
    ) -> Result<Reply, Failure>
        ensures bound { bound hand.new ≡ bound hand.old }
        ensures answers { OpensAs (seen self.old) (seen self.new) hand.old.pid node cut
            (Ok (Again inode handle fd)) hand.old.shown hand.new.shown result }
    {
        self.reserve_events(node)?;
        cut_if(hand, fd, cut)?;
        self.note_cut(node, inode, cut);
        self.count_open(handle);
        Ok(Reply::Opened(opened(handle)))
    }

    // A file is opened by its path.
    fn open_first<K: Machine>(
        &mut self,
        hand: &mut Hand<K>,
        node: u64,
        located: Located,
        inode: Num,
        cut: Cut,
    ) -> Result<Reply, Failure>
        ensures bound { bound hand.new ≡ bound hand.old }
        ensures answers { OpensAs (seen self.old) (seen self.new) hand.old.pid node cut
            (Ok (First located.view located.path inode)) hand.old.shown hand.new.shown result }
    {
        let Located { view, path } = located;
        self.reserve_file()?;
        self.reserve_events(node)?;
        let fd = open_cut(hand, path, inode, cut)?;
        self.note_cut(node, inode, cut);
        let handle = self.keep_open(view, inode, hand.pid(), fd);
        Ok(Reply::Opened(opened(handle)))
    }

    // The file of a node is opened.
    fn open_as<K: Machine>(
        &mut self,
        hand: &mut Hand<K>,
        node: u64,
        opening: Opening,
        cut: Cut,
    ) -> Result<Reply, Failure>
        ensures bound { bound hand.new ≡ bound hand.old }
        ensures answers { OpensAs (seen self.old) (seen self.new) hand.old.pid node cut (Ok opening)
            hand.old.shown hand.new.shown result }
    {
        match opening {
            Opening::Again { inode, handle, fd } => {
                self.open_again(hand, node, inode, handle, fd, cut)
            }
            Opening::First { view, path, inode } => {
                self.open_first(hand, node, Located { view, path }, inode, cut)
            }
        }
    }

    // How the object of a node is opened, where it is open under this number, or not.
    fn plan_opening_by(&self, pid: Pid, node: u64, handle: Option<u64>) -> Result<Opening, Failure>
        ensures { IsPlanned (opening_by (seen self.now) pid node handle) result }
    {
        let inode = self.inode_of(node);
        match handle {
            Some(handle) => {
                let file = self.open_file(handle, pid)?;
                Ok(Opening::Again {
                    inode,
                    handle,
                    fd: file.fd,
                })
            }
            None => {
                let Located { view, path } = self.locate_own(node)?;
                Ok(Opening::First { view, path, inode })
            }
        }
    }

    // How the file of a node is opened.
    fn plan_opening(&self, pid: Pid, node: u64) -> Result<Opening, Failure>
        ensures { IsPlanned (opening (seen self.now) pid node) result }
    {
        let Stepper { view, pid: _ } = self.stepper_at(node)?;
        if self.nodes.get(node).is_none() {
            return Err(Failure::Error(Errno::EISDIR));
        }
        self.plan_opening_by(pid, node, self.handle_at(view, node))
    }

    // Opens the file of a node.
    pub(crate) fn open<K: Machine>(
        &mut self,
        hand: &mut Hand<K>,
        node: u64,
        flags: u32,
        how: u32,
    ) -> Result<Reply, Failure>
        ensures bound { bound hand.new ≡ bound hand.old }
        ensures answers { AnswersOpen (seen self.old) (seen self.new) hand.old.pid node flags how
            hand.old.shown hand.new.shown result }
    {
        let opening = self.plan_opening(hand.pid(), node)?;
        self.open_as(hand, node, opening, cut_by(flags, how))
    }

    // Whether a file is open in a view.
    fn is_open(&self, view: u64, made: &Made) -> bool
        ensures { result ≡ is_some (handle_of (seen self.now) view made.now.stat.num) }
    {
        self.files.handle_of(view, made.stat.num).is_some()
    }

    // Makes a file and opens it, or opens the one that is there. Where that is open in the view
    // already the new descriptor is closed.
    fn make_open<K: Machine>(
        &self,
        hand: &mut Hand<K>,
        wanted: NewName,
        creation: Creation,
    ) -> Result<Made, Fault>
        ensures bound { bound hand.new ≡ bound hand.old }
        ensures ran { Ran hand.old.shown
            (making_open (seen self.now) hand.old.pid creation wanted) result hand.new.shown }
    {
        let NewName {
            view,
            path,
            again,
            parent,
        } = wanted;
        let Creation {
            exclusive,
            cut,
            given,
        } = creation;
        let made = create_cut(hand, parent, path, again.told, exclusive, cut, given)?;
        let is_open = self.is_open(view, &made);
        close_spare(hand, is_open, made)
    }

    // Keeps a file that was opened by its name, and gives the number of the open file.
    fn keep_made(&mut self, view: u64, pid: Pid, made: &Made) -> u64
        requires { 0 < self.old.files.room }
        ensures handle { result ≡ handle_made (seen self.old) view made.now }
        ensures seen { seen self.new ≡ with_open (seen self.old) view pid made.now }
        ensures nodes { self.new.nodes ≡ self.old.nodes }
    {
        match self.files.handle_of(view, made.stat.num) {
            Some(handle) => {
                self.count_open(handle);
                handle
            }
            None => self.keep_open(view, made.stat.num, pid, made.fd),
        }
    }

    // What is kept of a file that was made, or of one that was there and may be cut.
    fn note_opened(&mut self, node: u64, made: &Made, cut: Cut)
        requires birth { 0 < self.old.nodes.birth_room }
        requires events { 2 ≤ room_of self.old.times (view_at (seen self.old) node) }
        ensures seen { seen self.new
            ≡ with_creation made.now.is_new (seen self.old) node cut made.now.stat.num }
        ensures room { self.new.nodes.room ≡ self.old.nodes.room }
        ensures files { self.new.files ≡ self.old.files }
    {
        if made.is_new {
            self.note_new(node, made.stat.num);
        } else {
            self.note_cut(node, made.stat.num, cut);
        }
    }

    // Makes a file and opens it.
    pub(crate) fn create<K: Machine>(
        &mut self,
        hand: &mut Hand<K>,
        caller: Caller,
        name: &Bytes,
        creation: Creation,
    ) -> Result<Reply, Failure>
        ensures bound { bound hand.new ≡ bound hand.old }
        ensures answers { AnswersCreate (seen self.old) (seen self.new) hand.old.pid caller
            name.now creation hand.old.shown hand.new.shown result }
    {
        let wanted = self.locate_made(caller.node, name)?;
        let view = wanted.view;
        let cut = creation.cut;
        self.reserve_file()?;
        self.reserve_events(caller.node)?;
        let spot = self.spot_for(caller.node, name)?;
        let made = self.make_open(hand, wanted, creation)?;
        self.note_opened(caller.node, &made, cut);
        let handle = self.keep_made(view, hand.pid(), &made);
        let entry = self.entry(spot, &made.stat);
        Ok(Reply::Created {
            entry,
            opened: opened(handle),
        })
    }
}
