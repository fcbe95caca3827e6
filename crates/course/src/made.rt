// Files that are opened: cut, closed again, or kept.
ghost use Rattle.std.specs.Prelude.{◌≡◌};
ghost use Rattle.course.specs.Hands.{bound};
ghost use Rattle.course.specs.Course.{Ran};
ghost use Rattle.course.specs.Courses.{closing_spare, creating_cut, creating_in, cut_made, cut_opened};
ghost use Rattle.course.specs.Courses.{cutting, done_with, making_file, making_inside, making_node};
ghost use Rattle.course.specs.Courses.{making_special, opening_cut, unless_new};
ghost use Rattle.course.specs.declared.made.Cut.TheVariants as cuts;

use crate::fault::Fault;
use crate::files::{Made, close, close_for, create, open_this, set_length};
use crate::hand::Hand;
use crate::making::{Again, make_entitled};
use crate::names::look_at;
use crate::place::Place;
use crate::rights::rights_in;
use crate::updates::drop_set_ids;
use ids::{Bytes, Call, Fd, Num, Rights, Special, Stat};
use machine::Machine;

/// Whether a file that is opened is cut to nothing.
#[derive(Clone, Copy, Debug)]
pub enum Cut {
    /// It keeps its bytes.
    No,
    /// It is cut.
    Plain,
    /// It is cut, and set-user-ID and set-group-ID go.
    Dropping,
}

// Cuts the file of a descriptor to nothing, and takes set-user-ID and set-group-ID away.
fn cut_dropping<K: Machine>(hand: &mut Hand<K>, fd: Fd) -> Result<(), Fault>
    ensures bound { bound hand.new ≡ bound hand.old }
    ensures ran { Ran hand.old.shown
        (cutting hand.old.pid fd cuts.Dropping) result hand.new.shown }
{
    drop_set_ids(hand, fd)?;
    set_length(hand, fd, 0)
}

/// Cuts the file of a descriptor to nothing, where that is wanted.
pub fn cut_if<K: Machine>(hand: &mut Hand<K>, fd: Fd, cut: Cut) -> Result<(), Fault>
    ensures bound { bound hand.new ≡ bound hand.old }
    ensures ran { Ran hand.old.shown
        (cutting hand.old.pid fd cut) result hand.new.shown }
{
    match cut {
        Cut::No => Ok(()),
        Cut::Plain => set_length(hand, fd, 0),
        Cut::Dropping => cut_dropping(hand, fd),
    }
}

// A file that was opened is cut, where that is wanted, and closed again where it cannot be.
fn cut_opened<K: Machine>(hand: &mut Hand<K>, fd: Fd, cut: Cut) -> Result<Fd, Fault>
    ensures bound { bound hand.new ≡ bound hand.old }
    ensures ran { Ran hand.old.shown
        (cut_opened hand.old.pid cut fd) result hand.new.shown }
{
    match cut_if(hand, fd, cut) {
        Ok(()) => Ok(fd),
        Err(fault) => close_for(hand, fd, fault),
    }
}

/// Opens the file of a path for reading and writing, where it is this object, and cuts it to nothing,
/// where that is wanted. Where it is another one the path is stale.
pub fn open_cut<K: Machine>(
    hand: &mut Hand<K>,
    path: Bytes,
    inode: Num,
    cut: Cut,
) -> Result<Fd, Fault>
    ensures bound { bound hand.new ≡ bound hand.old }
    ensures ran { Ran hand.old.shown
        (opening_cut hand.old.pid path inode cut) result hand.new.shown }
{
    let fd = open_this(hand, path, inode)?;
    cut_opened(hand, fd, cut)
}

// Whether a file is cut: it was there, and that is wanted.
fn unless_new(is_new: bool, cut: Cut) -> Cut
    ensures { result ≡ unless_new is_new cut }
{
    if is_new { Cut::No } else { cut }
}

// A file that was there is cut, where that is wanted, and closed again where it cannot be.
fn cut_made<K: Machine>(hand: &mut Hand<K>, made: Made, cut: Cut) -> Result<Made, Fault>
    ensures bound { bound hand.new ≡ bound hand.old }
    ensures ran { Ran hand.old.shown
        (cut_made hand.old.pid cut made) result hand.new.shown }
{
    let how = unless_new(made.is_new, cut);
    match cut_if(hand, made.fd, how) {
        Ok(()) => Ok(made),
        Err(fault) => close_for(hand, made.fd, fault),
    }
}

// Makes a file with these rights and opens it, or opens the one that is there and cuts it, where that is
// wanted.
fn create_cut_at<K: Machine>(
    hand: &mut Hand<K>,
    path: Bytes,
    again: Bytes,
    exclusive: bool,
    cut: Cut,
    rights: Rights,
) -> Result<Made, Fault>
    ensures bound { bound hand.new ≡ bound hand.old }
    ensures ran { Ran hand.old.shown
        (creating_cut hand.old.pid path again exclusive cut rights) result hand.new.shown }
{
    let made = create(hand, path, again, exclusive, rights)?;
    cut_made(hand, made, cut)
}

/// Makes a file in this directory, by this owner and with these permissions, unless the directory has
/// set-group-ID, and opens it for reading and writing. Where the name is there already the file of that
/// name is opened, unless `exclusive` is true, and cut to nothing, where that is wanted. The two paths
/// are the same. It is `Stale`, and nothing is made or opened, where the directory's own path gives
/// another object, or none.
pub fn create_cut<K: Machine>(
    hand: &mut Hand<K>,
    parent: Place,
    path: Bytes,
    again: Bytes,
    exclusive: bool,
    cut: Cut,
    given: Rights,
) -> Result<Made, Fault>
    ensures bound { bound hand.new ≡ bound hand.old }
    ensures ran { Ran hand.old.shown
        (making_inside hand.old.pid parent
        (creating_in hand.old.pid path again exclusive cut given)) result hand.new.shown }
{
    let home = look_at(hand, parent)?;
    let rights = rights_in(false, &home.rights, given);
    create_cut_at(hand, path, again, exclusive, cut, rights)
}

// Closes the descriptor of a file that was made, and tells what it is like.
fn close_made<K: Machine>(hand: &mut Hand<K>, made: Made) -> Result<Stat, Fault>
    ensures bound { bound hand.new ≡ bound hand.old }
    ensures ran { Ran hand.old.shown
        (done_with hand.old.pid made.fd made.stat) result hand.new.shown }
{
    close(hand, made.fd)?;
    Ok(made.stat)
}

// Makes a file with these rights that is not left open.
fn make_file_at<K: Machine>(
    hand: &mut Hand<K>,
    path: Bytes,
    again: Bytes,
    rights: Rights,
) -> Result<Stat, Fault>
    ensures bound { bound hand.new ≡ bound hand.old }
    ensures ran { Ran hand.old.shown
        (making_file hand.old.pid path again rights) result hand.new.shown }
{
    let made = create(hand, path, again, true, rights)?;
    close_made(hand, made)
}

// Makes a file with these rights that is not left open, or a FIFO or a socket.
fn make_special<K: Machine>(
    hand: &mut Hand<K>,
    path: Bytes,
    again: Again,
    special: Option<Special>,
    rights: Rights,
) -> Result<Stat, Fault>
    ensures bound { bound hand.new ≡ bound hand.old }
    ensures ran { Ran hand.old.shown
        (making_special hand.old.pid special path again rights) result hand.new.shown }
{
    match special {
        Some(special) => make_entitled(hand, Call::Mknod(path, special), again, rights),
        None => make_file_at(hand, path, again.told, rights),
    }
}

/// Makes a file in this directory that is not left open, or a FIFO or a socket, by this owner and with
/// these permissions, unless the directory has set-group-ID, and tells about it. The paths are the same.
/// It is `Stale`, and nothing is made, where the directory's own path gives another object, or none.
pub fn make_node<K: Machine>(
    hand: &mut Hand<K>,
    parent: Place,
    path: Bytes,
    again: Again,
    special: Option<Special>,
    given: Rights,
) -> Result<Stat, Fault>
    ensures bound { bound hand.new ≡ bound hand.old }
    ensures ran { Ran hand.old.shown
        (making_inside hand.old.pid parent (making_node hand.old.pid special path again given))
        result hand.new.shown }
{
    let home = look_at(hand, parent)?;
    let rights = rights_in(false, &home.rights, given);
    make_special(hand, path, again, special, rights)
}

/// Closes the descriptor of a file that was made, where that is open already.
pub fn close_spare<K: Machine>(hand: &mut Hand<K>, is_open: bool, made: Made) -> Result<Made, Fault>
    ensures bound { bound hand.new ≡ bound hand.old }
    ensures ran { Ran hand.old.shown
        (closing_spare hand.old.pid is_open made) result hand.new.shown }
{
    if !is_open {
        return Ok(made);
    }
    close(hand, made.fd)?;
    Ok(made)
}
