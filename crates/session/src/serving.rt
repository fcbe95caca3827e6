// One message is handled.
ghost use Rattle.std.specs.Prelude.{◌≡◌, Option, Some};
ghost use Rattle.fuse.specs.declared.reply.Reply.TheVariants.{Error};
ghost use Rattle.session.specs.Messages.{with_messages};
ghost use Rattle.session.specs.Sessions.{IsHandled, refusals, replies};

use crate::buffers::Message;
use crate::channel::Channel;
use crate::service::Service;
use fuse::{Errno, Reply, parse};
use heap::Heap;

// Writes the reply to the request of this number, where there is one.
fn send<C: Channel>(channel: &mut C, message: &mut Message, unique: u64, reply: &Option<Reply>)
    ensures heard { C.heard channel.new ≡ C.heard channel.old }
    ensures said { C.said channel.new
        ≡ with_messages (C.said channel.old) (replies unique reply.now) }
{
    match reply {
        Some(reply) => channel.send(message.of(unique, reply)),
        None => {}
    }
}

// Writes an error, where there is somebody to answer.
fn refuse<C: Channel>(channel: &mut C, message: &mut Message, answer: Option<(u64, Errno)>)
    ensures heard { C.heard channel.new ≡ C.heard channel.old }
    ensures said { C.said channel.new ≡ with_messages (C.said channel.old) (refusals answer) }
{
    match answer {
        Some((unique, errno)) => channel.send(message.of(unique, &Reply::Error(errno))),
        None => {}
    }
}

// Serves the request that the bytes are, at the time of the channel, and writes its reply. What is no
// request is answered by its fault.
pub(crate) fn handle<S: Service, C: Channel>(
    heap: Heap,
    server: &mut S,
    channel: &mut C,
    message: &mut Message,
    bytes: &[u8],
)
    ensures heard { C.heard channel.new ≡ C.heard channel.old }
    ensures handled { IsHandled S.serves server.old server.new bytes.now
        (C.said channel.old) (C.said channel.new) }
{
    match parse(heap, bytes) {
        Ok(request) => {
            let unique = request.unique;
            let now = channel.now();
            let reply = server.serve(request, now);
            send(channel, message, unique, &reply);
        }
        Err(fault) => refuse(channel, message, fault.answer()),
    }
}
