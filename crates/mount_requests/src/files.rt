// Requests on open files.
ghost use Rattle.std.specs.Prelude.{◌≡◌};
ghost use Rattle.course.specs.Course.{Ran};
ghost use Rattle.course.specs.Hands.{bound};
ghost use Rattle.mount_requests.specs.Answers.{IsPlanned};
ghost use Rattle.mount_requests.specs.Asked.{drops, offset_by, offset_in};
ghost use Rattle.mount_requests.specs.Requests.{AnswersRead, AnswersWrite, put_by, reads, writes};
ghost use Rattle.mount_requests.specs.Requests.{written_by};
ghost use Rattle.mount_requests.specs.Seen.{seen};

use crate::failure::Failure;
use crate::tables::Tables;
use course::{Fault, Hand, append, drop_if, write};
use fuse::bits::{OPEN_APPEND, WRITE_DROPS_SET_IDS};
use fuse::{Errno, Reply};
use ids::{Bytes, Fd, MOST_MOVED, Num, Pid};
use machine::Machine;
use mount_tables::OpenFile;

// What is read: so many bytes from an offset on.
#[derive(Clone, Copy)]
pub(crate) struct Reading {
    fd: Fd,
    count: u32,
    offset: i64,
}

// Where bytes are written: from an offset on, or behind the last one.
#[derive(Clone, Copy)]
pub(crate) struct Writing {
    inode: Num,
    fd: Fd,
    offset: Option<i64>,
}

// An offset as the kernel takes it.
pub(crate) fn offset_in(offset: u64) -> Result<i64, Failure>
    ensures { result ≡ offset_in offset }
{
    match i64::try_from(offset) {
        Ok(offset) => Ok(offset),
        Err(_) => Err(Failure::Error(Errno::EINVAL)),
    }
}

// Where a write goes, whose flags may say that it goes to the end.
fn offset_by(open_flags: u32, offset: u64) -> Result<Option<i64>, Failure>
    ensures { result ≡ offset_by open_flags offset }
{
    if open_flags & OPEN_APPEND != 0 {
        return Ok(None);
    }
    let offset = offset_in(offset)?;
    Ok(Some(offset))
}

// Whether set-user-ID and set-group-ID go with a write.
fn drops(write_flags: u32) -> bool
    ensures { result ≡ drops write_flags }
{
    write_flags & WRITE_DROPS_SET_IDS != 0
}

// Puts bytes into a file.
fn put<K: Machine>(hand: &mut Hand<K>, writing: Writing, bytes: Bytes) -> Result<u32, Fault>
    ensures bound { bound hand.new ≡ bound hand.old }
    ensures ran { Ran hand.old.shown
        (put_by hand.old.pid bytes writing.fd writing.offset) result hand.new.shown }
{
    match writing.offset {
        Some(offset) => write(hand, writing.fd, bytes, offset),
        None => append(hand, writing.fd, bytes),
    }
}

// The same, where set-user-ID and set-group-ID go first, if that is wanted.
fn put_dropping<K: Machine>(
    hand: &mut Hand<K>,
    writing: Writing,
    dropping: bool,
    bytes: Bytes,
) -> Result<u32, Fault>
    ensures bound { bound hand.new ≡ bound hand.old }
    ensures ran { Ran hand.old.shown
        (written_by hand.old.pid bytes dropping writing.fd writing.offset) result hand.new.shown }
{
    drop_if(hand, writing.fd, dropping)?;
    put(hand, writing, bytes)
}

impl Tables {
    // What is read of an open file.
    fn plan_read(&self, pid: Pid, handle: u64, offset: u64, size: u32) -> Result<Reading, Failure>
        ensures { IsPlanned (reads (seen self.now) pid handle offset size) result }
    {
        let file = self.open_file(handle, pid)?;
        let offset = offset_in(offset)?;
        Ok(Reading {
            fd: file.fd,
            count: size.min(MOST_MOVED as u32),
            offset,
        })
    }

    // Bytes of an open file.
    pub(crate) fn read<K: Machine>(
        &mut self,
        hand: &mut Hand<K>,
        handle: u64,
        offset: u64,
        size: u32,
    ) -> Result<Reply, Failure>
        ensures bound { bound hand.new ≡ bound hand.old }
        ensures answers { AnswersRead (seen self.old) (seen self.new) hand.old.pid handle offset size
            hand.old.shown hand.new.shown result }
    {
        let reading = self.plan_read(hand.pid(), handle, offset, size)?;
        let bytes = course::read(hand, self.heap, reading.fd, reading.count, reading.offset)?;
        Ok(Reply::Data(bytes))
    }

    // Where bytes are written.
    fn plan_write(
        &self,
        pid: Pid,
        handle: u64,
        offset: u64,
        open_flags: u32,
    ) -> Result<Writing, Failure>
        ensures { IsPlanned (writes (seen self.now) pid handle offset open_flags) result }
    {
        let OpenFile { inode, fd, .. } = self.open_file(handle, pid)?;
        let offset = offset_by(open_flags, offset)?;
        Ok(Writing { inode, fd, offset })
    }

    // Puts bytes into an open file, by a request about this node.
    pub(crate) fn write<K: Machine>(
        &mut self,
        hand: &mut Hand<K>,
        node: u64,
        handle: u64,
        offset: u64,
        write_flags: u32,
        open_flags: u32,
        bytes: Bytes,
    ) -> Result<Reply, Failure>
        ensures bound { bound hand.new ≡ bound hand.old }
        ensures answers { AnswersWrite (seen self.old) (seen self.new) hand.old.pid node handle
            offset write_flags open_flags bytes hand.old.shown hand.new.shown result }
    {
        let writing = self.plan_write(hand.pid(), handle, offset, open_flags)?;
        self.reserve_events(node)?;
        let inode = writing.inode;
        let size = put_dropping(hand, writing, drops(write_flags), bytes)?;
        self.note_written(node, inode);
        Ok(Reply::Written { size })
    }
}
