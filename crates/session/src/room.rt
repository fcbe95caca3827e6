// A session that is served wherever its messages are made.
ghost use Rattle.session.specs.Sessions.{GoesOn};

use crate::buffers::Buffers;
use crate::channel::Channel;
use crate::ending::Ending;
use crate::service::Service;
use crate::turns::run;
use heap::Heap;
use std::alloc::AllocError;

/// How a session is served.
pub trait Turns {
    /// Serves a session up to its end, as [`run`] does.
    fn serve_all<S: Service, C: Channel>(&mut self, server: &mut S, channel: &mut C) -> Ending
        ensures { GoesOn S.serves server.old server.new (C.heard channel.old) (C.heard channel.new)
            (C.said channel.old) (C.said channel.new) };
}

/// The heap and the buffers of a session.
#[derive(Drop)]
pub struct Room {
    heap: Heap,
    buffers: Buffers,
}

impl Room {
    /// Makes the buffers. Refused memory gives nothing.
    pub fn new(heap: Heap) -> Result<Room, AllocError> {
        let buffers = Buffers::new(heap)?;
        Ok(Room { heap, buffers })
    }
}

impl Turns for Room {
    fn serve_all<S: Service, C: Channel>(&mut self, server: &mut S, channel: &mut C) -> Ending {
        run(self.heap, server, channel, &mut self.buffers)
    }
}

/// The same, wherever the messages are made. The borrow checker takes a service that has a heap within
/// it only in a call of a function whose parameters tell of none, as this one's.
pub fn serve_in<S: Service, C: Channel, T: Turns>(
    server: &mut S,
    channel: &mut C,
    turns: &mut T,
) -> Ending
    ensures { GoesOn S.serves server.old server.new (C.heard channel.old) (C.heard channel.new)
        (C.said channel.old) (C.said channel.new) }
{
    turns.serve_all(server, channel)
}
