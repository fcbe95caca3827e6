// The turns of a session.
ghost use Rattle.session.specs.Sessions.{GoesOn};

use crate::buffers::{Buffers, Message};
use crate::channel::{Channel, Silence};
use crate::ending::Ending;
use crate::service::Service;
use crate::serving::handle;
use heap::Heap;

// Reads a message and handles it, where one comes. Some where the session has ended.
fn turn<S: Service, C: Channel>(
    heap: Heap,
    server: &mut S,
    channel: &mut C,
    buffer: &mut [u8],
    message: &mut Message,
) -> Option<Ending>
    ensures { GoesOn S.serves server.old server.new (C.heard channel.old) (C.heard channel.new)
        (C.said channel.old) (C.said channel.new) }
{
    match channel.receive(buffer) {
        Ok(count) => {
            handle(heap, server, channel, message, &buffer[..count]);
            None
        }
        Err(Silence::Passing) => None,
        Err(Silence::Ended(ending)) => Some(ending),
    }
}

/// Serves a session up to its end. Each message that is read is handled before the next: a request is
/// served, and what is written is its reply; one that is to be answered always is, also where memory
/// is refused.
pub fn run<S: Service, C: Channel>(
    heap: Heap,
    server: &mut S,
    channel: &mut C,
    buffers: &mut Buffers,
) -> Ending
    ensures { GoesOn S.serves server.old server.new (C.heard channel.old) (C.heard channel.new)
        (C.said channel.old) (C.said channel.new) }
{
    for _ in 0..u64::MAX {
        let buffer = buffers.request.as_mut_slice();
        if let Some(ending) = turn(heap, server, channel, buffer, &mut buffers.reply) {
            return ending;
        }
    }
    Ending::Failed
}
