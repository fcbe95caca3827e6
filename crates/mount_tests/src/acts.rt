// What the functions of `course` do with the file `/a`, open as descriptor 0 where it is open, and with
// the path `/b`. No argument takes memory.
ghost use Rattle.std.specs.Prelude.{◌≡◌};

use crate::texts::{Text, owned};
use course::{
    Again, Cut, Fault, Hand, Made, Object, Paths, Place, Twice, Update, allocate, append,
    apply_update, begin, close, close_spare, copy, create_cut, cut_if, drop_if, end, exchange,
    find, fork, give_up, link, list, list_at, look_nowhere, look_up, make_directory, make_link,
    make_node, move_name, open_cut, permissions_in, read, read_link, remove_directory, seek,
    stat_file, unlink, write,
};
use heap::Heap;
use ids::{Fd, Kind, NewOwner, Num, Owner, Rights, Space, Special, Stat, Whence};
use machine::Machine;
use std::fmt::Debug;
use std::process::Abort;

#[derive(Clone, Copy)]
pub(crate) enum Act {
    // A range is punched.
    Allocate,
    Append,
    Begin,
    Close,
    CloseSpare,
    // Into the file itself, behind its end.
    Copy,
    // The file is cut, where it is there.
    CreateCut,
    // It has to be a new one.
    CreateNew,
    // Set-user-ID and set-group-ID go with the bytes.
    CutDropping,
    CutIf,
    DropIf,
    End,
    Exchange,
    // By the path, and by the descriptor, where the path leads elsewhere.
    Find,
    FindOpen,
    Fork,
    GiveUp,
    Link,
    List,
    ListAt,
    LookNowhere,
    LookUp,
    MakeDirectory,
    MakeFifo,
    MakeFile,
    // To the target `/b`.
    MakeLink,
    // With and without taking the place of what is there.
    Move,
    MoveIfAbsent,
    OpenCut,
    // By a path that leads to another file.
    OpenOther,
    Read,
    ReadLink,
    RemoveDirectory,
    // By the path, and by the descriptor.
    Resize,
    ResizeOpen,
    // The next hole.
    Seek,
    StatFile,
    Unlink,
    // The length, the owner and the permissions: by the path, and by the descriptor.
    Update,
    UpdateOpen,
    Write,
}

// What a function came to, and how many requests for memory it made.
#[derive(Drop)]
pub(crate) struct Outcome {
    pub(crate) told: Text,
    pub(crate) made: u64,
}

// What an object is like, but for its number, which may be another one behind a refusal.
pub(crate) type Seen = (Kind, u64, u32, Rights);

pub(crate) fn seen(looked: Result<Stat, Fault>) -> Result<Seen, Fault> {
    match looked {
        Ok(stat) => Ok((stat.kind, stat.size, stat.links, stat.rights)),
        Err(fault) => Err(fault),
    }
}

// The same of a file that was opened.
fn seen_made(made: Result<Made, Fault>) -> Result<(Fd, bool, Seen), Fault> {
    match made {
        Ok(made) => {
            let stat = made.stat;
            let seen = (stat.kind, stat.size, stat.links, stat.rights);
            Ok((made.fd, made.is_new, seen))
        }
        Err(fault) => Err(fault),
    }
}

// No further request is refused.
fn told_as<T: Debug + Drop>(rt: &impl Abort, heap: Heap, outcome: T) -> Outcome {
    let made = heap.made();
    heap.refuse(0);
    let mut told = String::new(heap);
    write!(&mut told, "{outcome:?}").expect(rt, "memory");
    Outcome { told, made }
}

fn told<T: Debug + Drop>(rt: &impl Abort, heap: Heap, outcome: Result<T, Fault>) -> Outcome {
    match outcome {
        Ok(value) => told_as(rt, heap, value),
        Err(fault) => told_as(rt, heap, fault),
    }
}

fn twice(rt: &impl Abort, heap: Heap, path: &str) -> Twice
    ensures { result.second ≡ result.first }
{
    Twice {
        first: owned(rt, heap, path),
        second: owned(rt, heap, path),
    }
}

fn again(rt: &impl Abort, heap: Heap, path: &str) -> Again {
    Again {
        owned: owned(rt, heap, path),
        permitted: owned(rt, heap, path),
        told: owned(rt, heap, path),
    }
}

fn paths(rt: &impl Abort, heap: Heap, path: &str) -> Option<Paths> {
    Some(Paths {
        looked: owned(rt, heap, path),
        sized: owned(rt, heap, path),
        owned: owned(rt, heap, path),
        permitted: owned(rt, heap, path),
    })
}

fn root(rt: &impl Abort, heap: Heap) -> Place {
    Place {
        path: owned(rt, heap, "/"),
        inode: Num(0),
    }
}

// What is given to what is made.
fn given() -> Rights {
    Rights {
        permissions: permissions_in(0o700),
        owner: Owner { user: 1, group: 2 },
    }
}

fn length() -> Update {
    Update {
        length: Some(3),
        owner: None,
        permissions: None,
    }
}

fn all() -> Update {
    Update {
        length: Some(3),
        owner: Some(NewOwner {
            user: Some(1),
            group: Some(2),
        }),
        permissions: Some(permissions_in(0o700)),
    }
}

fn object(rt: &impl Abort, heap: Heap, inode: Num, path: &str, fd: Option<Fd>) -> Object {
    Object {
        inode,
        kind: Kind::File,
        path: Some(owned(rt, heap, path)),
        fd,
    }
}

fn spare(inode: Num) -> Made {
    Made {
        fd: Fd(0),
        stat: Stat {
            kind: Kind::File,
            num: inode,
            size: 0,
            links: 1,
            rights: Rights::first(Some(Kind::File)),
        },
        is_new: false,
    }
}

fn on_file<K: Machine>(
    rt: &impl Abort,
    heap: Heap,
    hand: &mut Hand<K>,
    act: Act,
    inode: Num,
) -> Outcome {
    match act {
        Act::Allocate => told(rt, heap, allocate(hand, Fd(0), 1, 3, Space::Punch)),
        Act::Append => told(rt, heap, append(hand, Fd(0), owned(rt, heap, "more"))),
        Act::Close => told(rt, heap, close(hand, Fd(0))),
        Act::CloseSpare => told(rt, heap, seen_made(close_spare(hand, true, spare(inode)))),
        Act::Copy => told(rt, heap, copy(hand, heap, Fd(0), 100, 1, Fd(0), 9)),
        Act::CutDropping => told(rt, heap, cut_if(hand, Fd(0), Cut::Dropping)),
        Act::CutIf => told(rt, heap, cut_if(hand, Fd(0), Cut::Plain)),
        Act::DropIf => told(rt, heap, drop_if(hand, Fd(0), true)),
        Act::Read => told(rt, heap, read(hand, heap, Fd(0), 100, 1)),
        Act::Seek => told(rt, heap, seek(hand, Fd(0), 1, Whence::Hole)),
        Act::StatFile => told(rt, heap, seen(stat_file(hand, Fd(0)))),
        _ => told(rt, heap, write(hand, Fd(0), owned(rt, heap, "other"), 2)),
    }
}

fn on_opening<K: Machine>(
    rt: &impl Abort,
    heap: Heap,
    hand: &mut Hand<K>,
    act: Act,
    inode: Num,
) -> Outcome {
    let root = root(rt, heap);
    let first = owned(rt, heap, "/a");
    let second = owned(rt, heap, "/a");
    match act {
        Act::CreateCut => {
            let made = create_cut(hand, root, first, second, false, Cut::Plain, given());
            told(rt, heap, seen_made(made))
        }
        Act::CreateNew => {
            let made = create_cut(hand, root, first, second, true, Cut::No, given());
            told(rt, heap, seen_made(made))
        }
        Act::MakeFile => {
            let made = make_node(hand, root, first, again(rt, heap, "/a"), None, given());
            told(rt, heap, seen(made))
        }
        Act::OpenCut => told(rt, heap, open_cut(hand, first, inode, Cut::Plain)),
        _ => told(
            rt,
            heap,
            open_cut(hand, owned(rt, heap, "/b"), inode, Cut::No),
        ),
    }
}

fn on_path<K: Machine>(rt: &impl Abort, heap: Heap, hand: &mut Hand<K>, act: Act) -> Outcome {
    let root = root(rt, heap);
    let first = owned(rt, heap, "/a");
    let again = again(rt, heap, "/a");
    match act {
        Act::List => told(rt, heap, list(hand, heap, first)),
        Act::MakeDirectory => {
            let made = make_directory(hand, root, first, again, given());
            told(rt, heap, seen(made))
        }
        Act::MakeFifo => {
            let made = make_node(hand, root, first, again, Some(Special::Fifo), given());
            told(rt, heap, seen(made))
        }
        Act::MakeLink => {
            let target = owned(rt, heap, "/b");
            let made = make_link(hand, root, target, first, again, given().owner);
            told(rt, heap, seen(made))
        }
        Act::RemoveDirectory => told(rt, heap, remove_directory(hand, None, first)),
        Act::LookUp => told(rt, heap, seen(look_up(hand, None, first))),
        _ => told(rt, heap, unlink(hand, None, first)),
    }
}

fn on_paths<K: Machine>(
    rt: &impl Abort,
    heap: Heap,
    hand: &mut Hand<K>,
    act: Act,
    inode: Num,
) -> Outcome {
    let from = twice(rt, heap, "/a");
    let to = twice(rt, heap, "/b");
    match act {
        Act::Exchange => told(rt, heap, exchange(hand, None, from.first, None, to.first)),
        Act::Link => told(rt, heap, seen(link(hand, from, inode, None, to))),
        Act::Move => told(
            rt,
            heap,
            move_name(hand, None, from.first, None, to.first, None),
        ),
        _ => told(
            rt,
            heap,
            move_name(hand, None, from.first, None, to.first, Some(to.second)),
        ),
    }
}

fn on_object<K: Machine>(
    rt: &impl Abort,
    heap: Heap,
    hand: &mut Hand<K>,
    act: Act,
    inode: Num,
) -> Outcome {
    let by_path = object(rt, heap, inode, "/a", None);
    let by_descriptor = object(rt, heap, inode, "/b", Some(Fd(0)));
    let paths = paths(rt, heap, "/a");
    match act {
        Act::Find => told(rt, heap, seen(find(hand, by_path))),
        Act::FindOpen => told(rt, heap, seen(find(hand, by_descriptor))),
        Act::ListAt => {
            let twice = Some(twice(rt, heap, "/a"));
            told(rt, heap, list_at(hand, heap, inode, twice))
        }
        Act::ReadLink => told(
            rt,
            heap,
            read_link(hand, heap, twice(rt, heap, "/a"), inode),
        ),
        Act::Resize => told(rt, heap, seen(apply_update(hand, by_path, paths, length()))),
        Act::ResizeOpen => told(
            rt,
            heap,
            seen(apply_update(hand, by_descriptor, paths, length())),
        ),
        Act::Update => told(rt, heap, seen(apply_update(hand, by_path, paths, all()))),
        _ => told(
            rt,
            heap,
            seen(apply_update(hand, by_descriptor, paths, all())),
        ),
    }
}

fn on_process<K: Machine>(rt: &impl Abort, heap: Heap, hand: &mut Hand<K>, act: Act) -> Outcome {
    match act {
        Act::Begin => told(rt, heap, begin(hand)),
        Act::End => told(rt, heap, end(hand)),
        Act::Fork => told(rt, heap, fork(hand)),
        Act::GiveUp => told(rt, heap, give_up(hand)),
        _ => told_as(rt, heap, look_nowhere(hand)),
    }
}

// Calls a function where this request for memory is refused, and none at 0. The file has this number.
pub(crate) fn act_on<K: Machine>(
    rt: &impl Abort,
    heap: Heap,
    hand: &mut Hand<K>,
    act: Act,
    inode: Num,
    request: u64,
) -> Outcome {
    heap.refuse(request);
    match act {
        Act::Allocate
        | Act::Append
        | Act::Close
        | Act::CloseSpare
        | Act::Copy
        | Act::CutDropping
        | Act::CutIf
        | Act::DropIf
        | Act::Read
        | Act::Seek
        | Act::StatFile
        | Act::Write => on_file(rt, heap, hand, act, inode),
        Act::CreateCut | Act::CreateNew | Act::MakeFile | Act::OpenCut | Act::OpenOther => {
            on_opening(rt, heap, hand, act, inode)
        }
        Act::List
        | Act::MakeDirectory
        | Act::MakeFifo
        | Act::MakeLink
        | Act::RemoveDirectory
        | Act::LookUp
        | Act::Unlink => on_path(rt, heap, hand, act),
        Act::Exchange | Act::Link | Act::Move | Act::MoveIfAbsent => {
            on_paths(rt, heap, hand, act, inode)
        }
        Act::Find
        | Act::FindOpen
        | Act::ListAt
        | Act::ReadLink
        | Act::Resize
        | Act::ResizeOpen
        | Act::Update
        | Act::UpdateOpen => on_object(rt, heap, hand, act, inode),
        Act::Begin | Act::End | Act::Fork | Act::GiveUp | Act::LookNowhere => {
            on_process(rt, heap, hand, act)
        }
    }
}
