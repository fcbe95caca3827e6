// Requests on objects that are found by their paths or their descriptors.
ghost use Rattle.std.specs.Prelude.{◌≡◌, IfSome, option_map};
ghost use Rattle.course.specs.Hands.{bound};
ghost use Rattle.course.specs.Course.{Ran};
ghost use Rattle.course.specs.Courses.{by_descriptor, finding, if_found, if_listed, listing_at, nowhere};
ghost use Rattle.course.specs.Courses.{removed};

use crate::fault::Fault;
use crate::hand::Hand;
use crate::names::{Twice, gives_none, list};
use heap::Heap;
use ids::{Bytes, Call, Fd, Kind, NameList, Num, Rights, Stat};
use machine::Machine;

/// An object, and how it is found.
#[derive(Drop)]
pub struct Object {
    /// Its number.
    pub inode: Num,
    /// What it is.
    pub kind: Kind,
    /// The path that led to it last, if there is one.
    pub path: Option<Bytes>,
    /// The descriptor of the process, where it has the object open.
    pub fd: Option<Fd>,
}

// What is told of an object to which no name leads any more, and which is empty.
fn removed(kind: Kind, inode: Num) -> Stat
    ensures { result ≡ removed kind inode }
{
    Stat {
        kind,
        num: inode,
        size: 0,
        links: 0,
        rights: Rights::first(Some(kind)),
    }
}

// What an object is like that no path and no descriptor leads to.
fn nowhere(kind: Kind, inode: Num) -> Result<Stat, Fault>
    ensures { result ≡ nowhere kind inode }
{
    match kind {
        Kind::Dir | Kind::Fifo | Kind::Socket => Ok(removed(kind, inode)),
        Kind::File | Kind::Pipe | Kind::Link => Err(Fault::Stale),
    }
}

// What the descriptor of an object tells, if it has one.
fn by_descriptor<K: Machine>(
    hand: &mut Hand<K>,
    kind: Kind,
    inode: Num,
    fd: Option<Fd>,
) -> Result<Stat, Fault>
    ensures bound { bound hand.new ≡ bound hand.old }
    ensures ran { Ran hand.old.shown
        (by_descriptor hand.old.pid kind inode fd) result hand.new.shown }
{
    match fd {
        Some(fd) => hand.stat_call(Call::Fstat(fd)),
        None => nowhere(kind, inode),
    }
}

// The path is to give this object. Where it gives another one or none, the descriptor tells.
fn if_found<K: Machine>(
    hand: &mut Hand<K>,
    kind: Kind,
    inode: Num,
    fd: Option<Fd>,
    looked: Result<Stat, Fault>,
) -> Result<Stat, Fault>
    ensures bound { bound hand.new ≡ bound hand.old }
    ensures ran { Ran hand.old.shown
        (if_found hand.old.pid kind inode fd looked) result hand.new.shown }
{
    match looked {
        Ok(stat) => {
            if stat.num == inode {
                Ok(stat)
            } else {
                by_descriptor(hand, kind, inode, fd)
            }
        }
        Err(fault) => {
            if gives_none(&fault) {
                by_descriptor(hand, kind, inode, fd)
            } else {
                Err(fault)
            }
        }
    }
}

/// What an object is like: by its path, where that leads to it still, else by its descriptor. A
/// directory, a FIFO or a socket that has neither is there without a name, and empty; another object is
/// stale.
pub fn find<K: Machine>(hand: &mut Hand<K>, object: Object) -> Result<Stat, Fault>
    ensures bound { bound hand.new ≡ bound hand.old }
    ensures ran { Ran hand.old.shown
        (finding hand.old.pid object) result hand.new.shown }
{
    let Object {
        inode,
        kind,
        path,
        fd,
    } = object;
    match path {
        Some(path) => {
            let looked = hand.stat_call(Call::Lstat(path));
            if_found(hand, kind, inode, fd, looked)
        }
        None => by_descriptor(hand, kind, inode, fd),
    }
}

// What comes behind the look whether a path gives a directory.
fn if_listed<K: Machine>(
    hand: &mut Hand<K>,
    heap: Heap,
    path: Bytes,
    inode: Num,
    looked: Result<Stat, Fault>,
) -> Result<NameList, Fault>
    ensures bound { bound hand.new ≡ bound hand.old }
    ensures ran { Ran hand.old.shown
        (if_listed hand.old.pid path inode looked) result hand.new.shown }
{
    match looked {
        Ok(stat) => {
            if stat.num == inode {
                list(hand, heap, path)
            } else {
                Ok(NameList::new(Vec::new(heap)))
            }
        }
        Err(fault) => {
            if gives_none(&fault) {
                Ok(NameList::new(Vec::new(heap)))
            } else {
                Err(fault)
            }
        }
    }
}

/// The names of a directory, by this path, where that gives it. One that no path leads to is empty.
pub fn list_at<K: Machine>(
    hand: &mut Hand<K>,
    heap: Heap,
    inode: Num,
    path: Option<Twice>,
) -> Result<NameList, Fault>
    requires { IfSome path (λ p. p.second ≡ p.first) }
    ensures bound { bound hand.new ≡ bound hand.old }
    ensures ran { Ran hand.old.shown
        (listing_at hand.old.pid inode (option_map (λ p. p.first) path)) result hand.new.shown }
{
    match path {
        Some(path) => {
            let looked = hand.stat_call(Call::Lstat(path.first));
            if_listed(hand, heap, path.second, inode, looked)
        }
        None => Ok(NameList::new(Vec::new(heap))),
    }
}
