// Requests on ranges of open files.
ghost use Rattle.std.specs.Prelude.{◌≡◌};
ghost use Rattle.course.specs.Hands.{bound};
ghost use Rattle.mount_requests.specs.Answers.{IsPlanned};
ghost use Rattle.mount_requests.specs.Asked.{flagless, looked_from, overlap, space_by};
ghost use Rattle.mount_requests.specs.Asked.{whence_in};
ghost use Rattle.mount_requests.specs.Requests.{AnswersCopy, AnswersFallocate, AnswersSeek};
ghost use Rattle.mount_requests.specs.Requests.{allocates, apart_in, copies, if_same_process, seeks};
ghost use Rattle.mount_requests.specs.Requests.{target_by};
ghost use Rattle.mount_requests.specs.Seen.{seen};

use crate::failure::Failure;
use crate::files::offset_in;
use crate::tables::Tables;
use course::{Hand, allocate, copy};
use fuse::{Errno, Reply, Whence};
use ids::{Fd, MOST_MOVED, Num, Pid, Space};
use machine::Machine;
use mount_tables::OpenFile;

// An offset that is looked for: from where on, and how that counts.
#[derive(Clone, Copy)]
pub(crate) struct Seeking {
    fd: Fd,
    offset: i64,
    whence: ids::Whence,
}

// A range of a file, and what becomes of it.
#[derive(Clone, Copy)]
pub(crate) struct Allocating {
    inode: Num,
    fd: Fd,
    offset: i64,
    length: i64,
    space: Space,
}

// What is copied: so many bytes of a file from an offset on, and where in which other one they go.
#[derive(Clone, Copy)]
pub(crate) struct Copying {
    inode: Num,
    from: Fd,
    count: u32,
    offset: i64,
    to: Fd,
    place: i64,
}

// From where an offset is looked for. Linux knows the offset of an open file itself.
fn whence_in(whence: Whence) -> Result<ids::Whence, Failure>
    ensures { result ≡ whence_in whence }
{
    match whence {
        Whence::Start => Ok(ids::Whence::Set),
        Whence::Current => Err(Failure::Error(Errno::EINVAL)),
        Whence::End => Ok(ids::Whence::End),
        Whence::NextData => Ok(ids::Whence::Data),
        Whence::NextHole => Ok(ids::Whence::Hole),
    }
}

// From where an offset is looked for. Linux hands a negative one on as it stands.
fn looked_from(offset: u64) -> Result<i64, Failure>
    ensures { result ≡ looked_from offset }
{
    match i64::try_from(offset) {
        Ok(offset) => Ok(offset),
        Err(_) => Err(Failure::Error(Errno::ENXIO)),
    }
}

// What becomes of a range, by the mode of a fallocate.
fn space_by(mode: u32) -> Result<Space, Failure>
    ensures { result ≡ space_by mode }
{
    match mode {
        0 => Ok(Space::Grow),
        1 => Ok(Space::Keep),
        3 => Ok(Space::Punch),
        _ => Err(Failure::Error(Errno::EOPNOTSUPP)),
    }
}

// A copy has no flags.
fn flagless(flags: u64) -> Result<(), Failure>
    ensures { result ≡ flagless flags }
{
    if flags == 0 {
        Ok(())
    } else {
        Err(Failure::Error(Errno::EINVAL))
    }
}

// Whether two ranges of so many bytes overlap that begin at these places.
fn overlap(first: u64, second: u64, count: u64) -> bool
    ensures { result ≡ overlap first second count }
{
    if first <= second {
        second - first < count
    } else {
        first - second < count
    }
}

// Ranges of one file do not overlap.
fn apart_in(inode: Num, target: Num, offset: u64, place: u64, count: u64) -> Result<(), Failure>
    ensures { result ≡ apart_in inode target offset place count }
{
    if inode == target && overlap(offset, place, count) {
        Err(Failure::Error(Errno::EINVAL))
    } else {
        Ok(())
    }
}

// A file that this process has open.
fn if_same_process(pid: Pid, file: OpenFile) -> Result<OpenFile, Failure>
    ensures { result ≡ if_same_process pid file }
{
    if file.pid == pid {
        Ok(file)
    } else {
        Err(Failure::Error(Errno::EXDEV))
    }
}

impl Tables {
    // What is looked for in an open file.
    fn plan_seek(
        &self,
        pid: Pid,
        handle: u64,
        offset: u64,
        whence: Whence,
    ) -> Result<Seeking, Failure>
        ensures { IsPlanned (seeks (seen self.now) pid handle offset whence) result }
    {
        let file = self.open_file(handle, pid)?;
        let offset = looked_from(offset)?;
        let whence = whence_in(whence)?;
        Ok(Seeking {
            fd: file.fd,
            offset,
            whence,
        })
    }

    // Finds an offset of an open file.
    pub(crate) fn seek<K: Machine>(
        &mut self,
        hand: &mut Hand<K>,
        handle: u64,
        offset: u64,
        whence: Whence,
    ) -> Result<Reply, Failure>
        ensures bound { bound hand.new ≡ bound hand.old }
        ensures answers { AnswersSeek (seen self.old) (seen self.new) hand.old.pid handle offset whence
            hand.old.shown hand.new.shown result }
    {
        let seeking = self.plan_seek(hand.pid(), handle, offset, whence)?;
        let place = course::seek(hand, seeking.fd, seeking.offset, seeking.whence)?;
        Ok(Reply::Lseek {
            offset: u64::from(place),
        })
    }

    // The range of an open file, and what becomes of it.
    fn plan_fallocate(
        &self,
        pid: Pid,
        handle: u64,
        offset: u64,
        length: u64,
        mode: u32,
    ) -> Result<Allocating, Failure>
        ensures { IsPlanned (allocates (seen self.now) pid handle offset length mode) result }
    {
        let OpenFile { inode, fd, .. } = self.open_file(handle, pid)?;
        let space = space_by(mode)?;
        let offset = offset_in(offset)?;
        let length = offset_in(length)?;
        Ok(Allocating {
            inode,
            fd,
            offset,
            length,
            space,
        })
    }

    // Keeps a range of an open file for it, or makes zeros of it, by a request about this node.
    pub(crate) fn fallocate<K: Machine>(
        &mut self,
        hand: &mut Hand<K>,
        node: u64,
        handle: u64,
        offset: u64,
        length: u64,
        mode: u32,
    ) -> Result<Reply, Failure>
        ensures bound { bound hand.new ≡ bound hand.old }
        ensures answers { AnswersFallocate (seen self.old) (seen self.new) hand.old.pid node handle
            offset length mode hand.old.shown hand.new.shown result }
    {
        let range = self.plan_fallocate(hand.pid(), handle, offset, length, mode)?;
        self.reserve_events(node)?;
        let inode = range.inode;
        allocate(hand, range.fd, range.offset, range.length, range.space)?;
        self.note_written(node, inode);
        Ok(Reply::Empty)
    }

    // An open file that this process has to have open.
    fn target(&self, handle: u64, pid: Pid) -> Result<OpenFile, Failure>
        ensures { result ≡ target_by (seen self.now) pid handle }
    {
        match self.files.get(handle) {
            Some(file) => if_same_process(pid, file),
            None => Err(Failure::Error(Errno::EBADF)),
        }
    }

    // What is copied of one open file into another one.
    fn plan_copy(
        &self,
        pid: Pid,
        handle: u64,
        offset: u64,
        to_handle: u64,
        to_offset: u64,
        length: u64,
        flags: u64,
    ) -> Result<Copying, Failure>
        ensures { IsPlanned (copies (seen self.now) pid handle offset to_handle to_offset length flags)
            result }
    {
        flagless(flags)?;
        let file = self.open_file(handle, pid)?;
        let target = self.target(to_handle, pid)?;
        apart_in(file.inode, target.inode, offset, to_offset, length)?;
        let offset = offset_in(offset)?;
        let place = offset_in(to_offset)?;
        Ok(Copying {
            inode: target.inode,
            from: file.fd,
            count: length.min(MOST_MOVED as u64) as u32,
            offset,
            to: target.fd,
            place,
        })
    }

    // Copies bytes of an open file into another one, by a request about the node of the first.
    pub(crate) fn copy<K: Machine>(
        &mut self,
        hand: &mut Hand<K>,
        node: u64,
        handle: u64,
        offset: u64,
        to_handle: u64,
        to_offset: u64,
        length: u64,
        flags: u64,
    ) -> Result<Reply, Failure>
        ensures bound { bound hand.new ≡ bound hand.old }
        ensures answers { AnswersCopy (seen self.old) (seen self.new) hand.old.pid node handle offset
            to_handle to_offset length flags hand.old.shown hand.new.shown result }
    {
        let copying = self.plan_copy(
            hand.pid(),
            handle,
            offset,
            to_handle,
            to_offset,
            length,
            flags,
        )?;
        self.reserve_events(node)?;
        let inode = copying.inode;
        let size = copy(
            hand,
            self.heap,
            copying.from,
            copying.count,
            copying.offset,
            copying.to,
            copying.place,
        )?;
        self.note_copied(node, inode, size);
        Ok(Reply::Written { size })
    }
}
