// Where requests are read to, and replies are made.
ghost use Rattle.std.specs.Prelude.{◌≡◌, ◌+◌, ◌≤◌, [], length, true, vec_capacity, vec_len};
ghost use Rattle.fuse.specs.Replies.{IsShort, body_of, reply_bytes};
ghost use Rattle.session.specs.Sessions.{is_short, sent};

use fuse::{Errno, Reply, put_reply};
use heap::Heap;
use std::alloc::AllocError;

// The most bytes of a request: a write of 1 MiB, and what stands before it.
const REQUEST_LIMIT: usize = 1_048_576 + 4_096;

// The most bytes of a reply behind its header.
const REPLY_LIMIT: usize = 1_048_576;

// How many bytes a reply has, at most.
const MESSAGE_LIMIT: usize = 1_048_576 + 16;

/// Where a request is read to, with room for the longest that Linux may make, and where its reply is
/// made. Both are made once, so that no reply is refused memory.
#[derive(Drop)]
pub struct Buffers {
    pub(crate) request: Vec<u8, Heap>,
    pub(crate) reply: Message,
    ghost whole: { length request.items ≡ 1052672 },
}

// The bytes of a reply, for which there is room.
#[derive(Drop)]
pub(crate) struct Message {
    bytes: Vec<u8, Heap>,
    ghost room: { 1048592 ≤ vec_capacity bytes },
}

impl Buffers {
    /// Makes both. Refused memory gives nothing.
    pub fn new(heap: Heap) -> Result<Buffers, AllocError> {
        let mut request = Vec::new(heap);
        request.resize(REQUEST_LIMIT, 0u8)?;
        let bytes = Vec::with_capacity(heap, MESSAGE_LIMIT)?;
        Ok(Buffers {
            request,
            reply: Message { bytes },
        })
    }
}

// Whether a reply has no more bytes than a request may ask for.
fn is_short(reply: &Reply) -> bool
    ensures { result ≡ is_short reply.now }
{
    match reply {
        Reply::Data(bytes) => bytes.as_slice().len() <= REPLY_LIMIT,
        Reply::Directory(list) => list.as_slice().len() <= REPLY_LIMIT,
        _ => true,
    }
}

// Makes the bytes of a short reply, for which there is room.
fn make(bytes: &mut Vec<u8, Heap>, unique: u64, reply: &Reply)
    requires room { 1048592 ≤ vec_capacity bytes.old }
    requires short { is_short reply.now ≡ true }
    ensures bytes { bytes.new.items ≡ reply_bytes unique reply.now }
    ensures room { 1048592 ≤ vec_capacity bytes.new }
{
    bytes.clear();
    put_reply(bytes, unique, reply).unwrap();
}

impl Message {
    // The bytes of a reply. One that has too many is told as an error.
    pub(crate) fn of(&mut self, unique: u64, reply: &Reply) -> &[u8]
        ensures { result.now ≡ reply_bytes unique (sent reply.now) }
    {
        if is_short(reply) {
            make(&mut self.bytes, unique, reply);
        } else {
            make(&mut self.bytes, unique, &Reply::Error(Errno::EIO));
        }
        self.bytes.as_slice()
    }
}
