// Requests on paths.
ghost use Rattle.std.specs.Prelude.{◌≡◌, IfSome, false, is_some, true};
ghost use Rattle.ids.specs.declared.call.Call.TheVariants as asked;
ghost use Rattle.ids.specs.declared.call.Op.TheVariants as op;
ghost use Rattle.course.specs.Hands.{bound, is_ending};
ghost use Rattle.course.specs.Course.{Ran};
ghost use Rattle.course.specs.Courses.{doing, inside, linking, listing, looking_at, looking_for};
ghost use Rattle.course.specs.Courses.{making, moving, reading_link, reading_target, same_or_stale};
ghost use Rattle.course.specs.Courses.{stating, told_or_stale};
ghost use Rattle.course.specs.Faults.{gives_none, is_missing, stale_by};

use crate::fault::{Fault, bytes_in, names_in};
use crate::hand::Hand;
use crate::place::{Place, check_place};
use heap::Heap;
use ids::{Bytes, Call, Errno, NameList, Num, Stat};
use machine::Machine;

// What a path gives, which may be a symbolic link.
fn stat_path<K: Machine>(hand: &mut Hand<K>, path: Bytes) -> Result<Stat, Fault>
    ensures bound { bound hand.new ≡ bound hand.old }
    ensures ran { Ran hand.old.shown
        (stating hand.old.pid (asked.Lstat path)) result hand.new.shown }
{
    hand.stat_call(Call::Lstat(path))
}

/// What a name of this directory gives, by its path. It is `Stale` where the directory's own path
/// gives another object, or none.
pub fn look_up<K: Machine>(
    hand: &mut Hand<K>,
    place: Option<Place>,
    path: Bytes,
) -> Result<Stat, Fault>
    ensures bound { bound hand.new ≡ bound hand.old }
    ensures ran { Ran hand.old.shown
        (inside hand.old.pid place (stating hand.old.pid (asked.Lstat path)))
        result hand.new.shown }
{
    check_place(hand, place)?;
    stat_path(hand, path)
}

/// The names of a directory.
pub fn list<K: Machine>(hand: &mut Hand<K>, heap: Heap, path: Bytes) -> Result<NameList, Fault>
    ensures bound { bound hand.new ≡ bound hand.old }
    ensures ran { Ran hand.old.shown
        (listing hand.old.pid path) result hand.new.shown }
{
    let reply = hand.ask(Call::List(path));
    names_in(heap, reply)
}

// Makes a name by this call, which does not end the process, and tells what that path gives then.
pub(crate) fn make_at<K: Machine>(
    hand: &mut Hand<K>,
    call: Call,
    again: Bytes,
) -> Result<Stat, Fault>
    requires { is_ending (op.Call call) ≡ false }
    ensures bound { bound hand.new ≡ bound hand.old }
    ensures ran { Ran hand.old.shown
        (making hand.old.pid call again) result hand.new.shown }
{
    hand.do_call(call)?;
    stat_path(hand, again)
}

// Whether an error says that a path gives nothing.
pub(crate) fn gives_none(fault: &Fault) -> bool
    ensures { result ≡ gives_none fault.now }
{
    match fault {
        Fault::Refused(errno) => { matches!(errno, Errno::ENOENT | Errno::ENOTDIR | Errno::ELOOP) }
        _ => false,
    }
}

// A path that gives nothing does not give the object that is meant.
fn stale_by(fault: Fault) -> Fault
    ensures { result ≡ stale_by fault }
{
    if gives_none(&fault) {
        Fault::Stale
    } else {
        fault
    }
}

// Whether what a path gives is this object.
fn same_or_stale(inode: Num, looked: Result<Stat, Fault>) -> Result<(), Fault>
    ensures { result ≡ same_or_stale inode looked }
{
    match looked {
        Ok(stat) => {
            if stat.num == inode {
                Ok(())
            } else {
                Err(Fault::Stale)
            }
        }
        Err(fault) => Err(stale_by(fault)),
    }
}

// The same of a directory, where it is asked as well what that is like.
fn told_or_stale(inode: Num, looked: Result<Stat, Fault>) -> Result<Stat, Fault>
    ensures { result ≡ told_or_stale inode looked }
{
    match looked {
        Ok(stat) => {
            if stat.num == inode {
                Ok(stat)
            } else {
                Err(Fault::Stale)
            }
        }
        Err(fault) => Err(stale_by(fault)),
    }
}

// What a directory is like, by its path. It is `Stale` where that gives another object, or none.
pub(crate) fn look_at<K: Machine>(hand: &mut Hand<K>, place: Place) -> Result<Stat, Fault>
    ensures bound { bound hand.new ≡ bound hand.old }
    ensures ran { Ran hand.old.shown
        (looking_at hand.old.pid place) result hand.new.shown }
{
    let looked = stat_path(hand, place.path);
    told_or_stale(place.inode, looked)
}

// Looks whether a path gives this object.
pub(crate) fn look_for<K: Machine>(hand: &mut Hand<K>, path: Bytes, inode: Num) -> Result<(), Fault>
    ensures bound { bound hand.new ≡ bound hand.old }
    ensures ran { Ran hand.old.shown
        (looking_for hand.old.pid path inode) result hand.new.shown }
{
    let looked = stat_path(hand, path);
    same_or_stale(inode, looked)
}

/// A path as it is used once and then again.
#[derive(Drop)]
pub struct Twice {
    /// For the first use.
    pub first: Bytes,
    /// For the second one.
    pub second: Bytes,
}

// The target of the symbolic link of a path.
fn read_target<K: Machine>(hand: &mut Hand<K>, heap: Heap, path: Bytes) -> Result<Bytes, Fault>
    ensures bound { bound hand.new ≡ bound hand.old }
    ensures ran { Ran hand.old.shown
        (reading_target hand.old.pid path) result hand.new.shown }
{
    let reply = hand.ask(Call::Readlink(path));
    bytes_in(heap, reply)
}

/// The target of a symbolic link, by the path that it has, where that gives this link. Where it gives
/// another object, or none, it is `Stale`; and where it is no link the kernel refuses it by EINVAL.
pub fn read_link<K: Machine>(
    hand: &mut Hand<K>,
    heap: Heap,
    path: Twice,
    inode: Num,
) -> Result<Bytes, Fault>
    requires { path.second ≡ path.first }
    ensures bound { bound hand.new ≡ bound hand.old }
    ensures ran { Ran hand.old.shown
        (reading_link hand.old.pid path.first inode) result hand.new.shown }
{
    look_for(hand, path.first, inode)?;
    read_target(hand, heap, path.second)
}

// Gives what is no directory the second path too, by the first one, where that gives this object, and
// tells about it.
fn link_at<K: Machine>(
    hand: &mut Hand<K>,
    from: Twice,
    inode: Num,
    to: Twice,
) -> Result<Stat, Fault>
    requires from { from.second ≡ from.first }
    requires to { to.second ≡ to.first }
    ensures bound { bound hand.new ≡ bound hand.old }
    ensures ran { Ran hand.old.shown
        (linking hand.old.pid from.first inode to.first) result hand.new.shown }
{
    look_for(hand, from.first, inode)?;
    make_at(hand, Call::Link(from.second, to.first), to.second)
}

/// Gives what is no directory a name in this directory too, by the path that it has, where that gives
/// this object, and tells about it. It is `Stale`, and nothing is linked, where that path or the
/// directory's own gives another object, or none.
pub fn link<K: Machine>(
    hand: &mut Hand<K>,
    from: Twice,
    inode: Num,
    place: Option<Place>,
    to: Twice,
) -> Result<Stat, Fault>
    requires from { from.second ≡ from.first }
    requires to { to.second ≡ to.first }
    ensures bound { bound hand.new ≡ bound hand.old }
    ensures ran { Ran hand.old.shown
        (inside hand.old.pid place (linking hand.old.pid from.first inode to.first))
        result hand.new.shown }
{
    check_place(hand, place)?;
    link_at(hand, from, inode, to)
}

/// Takes a name away from this directory, which gives no directory. It is `Stale`, and stays, where the
/// directory's own path gives another object, or none.
pub fn unlink<K: Machine>(
    hand: &mut Hand<K>,
    place: Option<Place>,
    path: Bytes,
) -> Result<(), Fault>
    ensures bound { bound hand.new ≡ bound hand.old }
    ensures ran { Ran hand.old.shown
        (inside hand.old.pid place (doing hand.old.pid (asked.Unlink path)))
        result hand.new.shown }
{
    check_place(hand, place)?;
    hand.do_call(Call::Unlink(path))
}

/// Removes an empty directory from the one of `place`. It is `Stale`, and the name stays, where the
/// path of `place` gives another object, or none.
pub fn remove_directory<K: Machine>(
    hand: &mut Hand<K>,
    place: Option<Place>,
    path: Bytes,
) -> Result<(), Fault>
    ensures bound { bound hand.new ≡ bound hand.old }
    ensures ran { Ran hand.old.shown
        (inside hand.old.pid place (doing hand.old.pid (asked.Rmdir path)))
        result hand.new.shown }
{
    check_place(hand, place)?;
    hand.do_call(Call::Rmdir(path))
}

// Whether an error says that a name is not there.
fn is_missing(fault: &Fault) -> bool
    ensures { result ≡ is_missing fault.now }
{
    match fault {
        Fault::Refused(errno) => *errno == Errno::ENOENT,
        _ => false,
    }
}

// Moves a name where nothing stands at the other path, which is told twice.
fn move_if_absent<K: Machine>(
    hand: &mut Hand<K>,
    from: Bytes,
    to: Bytes,
    again: Bytes,
) -> Result<(), Fault>
    requires { again ≡ to }
    ensures bound { bound hand.new ≡ bound hand.old }
    ensures ran { Ran hand.old.shown
        (moving hand.old.pid from to true) result hand.new.shown }
{
    match stat_path(hand, again) {
        Ok(_) => Err(Fault::Refused(Errno::EEXIST)),
        Err(fault) => {
            if is_missing(&fault) {
                hand.do_call(Call::Rename(from, to))
            } else {
                Err(fault)
            }
        }
    }
}

// Moves what the first path gives to the second one. The last path is the second one once more: where
// it is given, nothing may stand there.
fn move_at<K: Machine>(
    hand: &mut Hand<K>,
    from: Bytes,
    to: Bytes,
    absent: Option<Bytes>,
) -> Result<(), Fault>
    requires { IfSome absent (λ again. again ≡ to) }
    ensures bound { bound hand.new ≡ bound hand.old }
    ensures ran { Ran hand.old.shown
        (moving hand.old.pid from to (is_some absent)) result hand.new.shown }
{
    match absent {
        Some(again) => move_if_absent(hand, from, to, again),
        None => hand.do_call(Call::Rename(from, to)),
    }
}

// The same into this directory.
fn move_into<K: Machine>(
    hand: &mut Hand<K>,
    from: Bytes,
    place: Option<Place>,
    to: Bytes,
    absent: Option<Bytes>,
) -> Result<(), Fault>
    requires { IfSome absent (λ again. again ≡ to) }
    ensures bound { bound hand.new ≡ bound hand.old }
    ensures ran { Ran hand.old.shown
        (inside hand.old.pid place (moving hand.old.pid from to (is_some absent)))
        result hand.new.shown }
{
    check_place(hand, place)?;
    move_at(hand, from, to, absent)
}

// Exchanges what two paths give, of which the second is one of this directory.
fn exchange_into<K: Machine>(
    hand: &mut Hand<K>,
    first: Bytes,
    place: Option<Place>,
    second: Bytes,
) -> Result<(), Fault>
    ensures bound { bound hand.new ≡ bound hand.old }
    ensures ran { Ran hand.old.shown
        (inside hand.old.pid place (doing hand.old.pid (asked.Exchange first second)))
        result hand.new.shown }
{
    check_place(hand, place)?;
    hand.do_call(Call::Exchange(first, second))
}

/// Exchanges what a name of the first directory gives and what one of the second gives, by their paths,
/// in one step. It is `Stale`, and both stay, where the path of one of the two directories gives another
/// object, or none.
pub fn exchange<K: Machine>(
    hand: &mut Hand<K>,
    place: Option<Place>,
    first: Bytes,
    new_place: Option<Place>,
    second: Bytes,
) -> Result<(), Fault>
    ensures bound { bound hand.new ≡ bound hand.old }
    ensures ran { Ran hand.old.shown
        (inside hand.old.pid place
        (inside hand.old.pid new_place (doing hand.old.pid (asked.Exchange first second))))
        result hand.new.shown }
{
    check_place(hand, place)?;
    exchange_into(hand, first, new_place, second)
}

/// Moves what a name of the first directory gives to a name of the second one, by their paths. The last
/// path is the second one once more: where it is given, nothing may stand there. It is `Stale`, and
/// nothing is moved, where the path of one of the two directories gives another object, or none.
pub fn move_name<K: Machine>(
    hand: &mut Hand<K>,
    place: Option<Place>,
    from: Bytes,
    new_place: Option<Place>,
    to: Bytes,
    absent: Option<Bytes>,
) -> Result<(), Fault>
    requires { IfSome absent (λ again. again ≡ to) }
    ensures bound { bound hand.new ≡ bound hand.old }
    ensures ran { Ran hand.old.shown
        (inside hand.old.pid place
        (inside hand.old.pid new_place (moving hand.old.pid from to (is_some absent))))
        result hand.new.shown }
{
    check_place(hand, place)?;
    move_into(hand, from, new_place, to, absent)
}
