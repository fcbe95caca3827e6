// A process, and what it does one after the other.
use crate::content::{Content, Room};
use anyhow::Result;
use heap::Heap;
use ids::{BeginFlags, Bytes, Call, Fd, Op, OpenFlags, Pid};

// The most bytes that a program writes or reads at once.
pub(crate) const PIECE: usize = 16_384;

/// An operation, or a write of a content, whose bytes are taken when it is done.
pub(crate) enum Act {
    Op(Op),
    Write(Fd, Content),
}

impl Drop for Act {
    fn drop(self) {
        match self {
            Act::Op(_) => {}
            Act::Write(_, _) => {}
        }
    }
}

impl Act {
    pub(crate) fn op(&self, room: &Room) -> Result<Op> {
        match self {
            Act::Op(op) => Ok(op.try_clone()?),
            Act::Write(fd, content) => Ok(Op::Call(Call::Write(*fd, room.bytes(*content)?))),
        }
    }
}

pub(crate) struct Actor {
    pub(crate) pid: Pid,
    pub(crate) acts: Vec<Act, Heap>,
    // The next act, and the one behind the last begin.
    pub(crate) next: usize,
    pub(crate) begun: usize,
}

impl Drop for Actor {
    fn drop(self) {
        let Actor {
            pid: _,
            acts: _,
            next: _,
            begun: _,
        } = self;
    }
}

impl Actor {
    pub(crate) fn new(heap: Heap, pid: u32) -> Actor {
        Actor {
            pid: Pid(pid),
            acts: Vec::new(heap),
            next: 0,
            begun: 0,
        }
    }

    pub(crate) fn is_done(&self) -> bool {
        self.next >= self.acts.len()
    }

    fn push(&mut self, op: Op) -> Result<()> {
        self.acts.push(Act::Op(op))?;
        Ok(())
    }

    fn call(&mut self, call: Call) -> Result<()> {
        self.push(Op::Call(call))
    }

    // The transaction begins anew after an abort.
    pub(crate) fn begin(&mut self) -> Result<()> {
        self.push(Op::Begin(BeginFlags::RESTART))
    }

    pub(crate) fn end(&mut self) -> Result<()> {
        self.push(Op::End)
    }

    pub(crate) fn abort(&mut self) -> Result<()> {
        self.push(Op::Abort { no_restart: true })
    }

    pub(crate) fn mkdir(&mut self, heap: Heap, path: &str) -> Result<()> {
        self.call(Call::Mkdir(Bytes::copy(heap, path.as_bytes())?))
    }

    pub(crate) fn stat(&mut self, heap: Heap, path: &str) -> Result<()> {
        self.call(Call::Stat(Bytes::copy(heap, path.as_bytes())?))
    }

    pub(crate) fn list(&mut self, heap: Heap, path: &str) -> Result<()> {
        self.call(Call::List(Bytes::copy(heap, path.as_bytes())?))
    }

    pub(crate) fn unlink(&mut self, heap: Heap, path: &str) -> Result<()> {
        self.call(Call::Unlink(Bytes::copy(heap, path.as_bytes())?))
    }

    pub(crate) fn rename(&mut self, heap: Heap, old: &str, new: &str) -> Result<()> {
        let old = Bytes::copy(heap, old.as_bytes())?;
        let new = Bytes::copy(heap, new.as_bytes())?;
        self.call(Call::Rename(old, new))
    }

    pub(crate) fn open(&mut self, heap: Heap, path: &str, flags: OpenFlags) -> Result<()> {
        self.call(Call::Open(Bytes::copy(heap, path.as_bytes())?, flags))
    }

    pub(crate) fn close(&mut self, fd: u32) -> Result<()> {
        self.call(Call::Close(Fd(fd)))
    }

    pub(crate) fn other(&mut self, call: Call) -> Result<()> {
        self.call(call)
    }

    pub(crate) fn write(&mut self, fd: u32, content: Content) -> Result<()> {
        self.acts.push(Act::Write(Fd(fd), content))?;
        Ok(())
    }

    // Writes a content by pieces.
    pub(crate) fn write_all(&mut self, fd: u32, content: Content) -> Result<()> {
        for number in 0..content.length.div_ceil(PIECE).min(64) {
            let before = number * PIECE;
            let piece = Content {
                start: content.start.saturating_add(before),
                length: content.length.saturating_sub(before).min(PIECE),
            };
            self.write(fd, piece)?;
        }
        Ok(())
    }

    // Reads so many pieces.
    pub(crate) fn read(&mut self, fd: u32, pieces: u64) -> Result<()> {
        for _ in 0..pieces {
            self.call(Call::Read(Fd(fd), PIECE as u32))?;
        }
        Ok(())
    }

    // Makes a new file and writes a content to it, on the descriptor 0.
    pub(crate) fn create(&mut self, heap: Heap, path: &str, content: Content) -> Result<()> {
        let flags = OpenFlags::WRITE
            .with(OpenFlags::CREAT)
            .with(OpenFlags::EXCL);
        self.open(heap, path, flags)?;
        self.write_all(0, content)?;
        self.close(0)
    }

    // Writes a content anew to a file, on the descriptor 0.
    pub(crate) fn rewrite(&mut self, heap: Heap, path: &str, content: Content) -> Result<()> {
        let flags = OpenFlags::WRITE
            .with(OpenFlags::CREAT)
            .with(OpenFlags::TRUNC);
        self.open(heap, path, flags)?;
        self.write_all(0, content)?;
        self.close(0)
    }

    // Opens a file, reads so many pieces and closes it, on the descriptor 0.
    pub(crate) fn look_into(&mut self, heap: Heap, path: &str, pieces: u64) -> Result<()> {
        self.open(heap, path, OpenFlags::READ)?;
        self.read(0, pieces)?;
        self.close(0)
    }
}
