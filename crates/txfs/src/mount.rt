// A mounted tree serves a session.
ghost use Rattle.std.specs.Prelude.{◌≡◌, ◌≤◌, IfErr, IfOk};
ghost use Rattle.ids.specs.declared.limits.TheConstants.{LARGEST_FILE, MAX_ENTRIES};
ghost use Rattle.mounted.specs.Server.{HasServed};
ghost use Rattle.txfs.specs.Sessions.{IsSession};

use fuse::{Reply, Request, Time};
use heap::Heap;
use ids::Limits;
use machine::Machine;
use mounted::Server;
use session::{Channel, Ending, Room, Service, serve_in};
use std::alloc::AllocError;
use std::marker::Model;

// A mounted tree, as who serves the requests of a session.
struct Mount<K: Machine> {
    server: Server<K>,
}

impl<K: Machine> Drop for Mount<K> {
    fn drop(self) {
        let Mount { server: _ } = self;
    }
}

impl<K: Machine> Model for Mount<K> {
    ghost use Rattle.mounted.specs.Server.{Served};

    ghost Value = { Served };

    ghost view = { λ m. m.server };
}

impl<K: Machine> Service for Mount<K> {
    ghost serves = { λ old request reply new. HasServed old new request reply };

    fn serve(&mut self, request: Request, now: Time) -> Option<Reply> {
        self.server.serve(request, now)
    }
}

// Makes a tree with no names, on a kernel with these limits, and serves the session of a channel with
// it. Where memory is refused nothing is read or written.
pub(crate) fn serve<K: Machine, C: Channel>(
    heap: Heap,
    limits: Limits,
    channel: &mut C,
) -> Result<Ending, AllocError>
    requires entries { limits.entries ≤ MAX_ENTRIES }
    requires files { limits.file_bytes ≤ LARGEST_FILE }
    ensures session { IfOk result (λ _. IsSession limits (C.heard channel.old) (C.heard channel.new)
        (C.said channel.old) (C.said channel.new)) }
    ensures refused { IfErr result (λ _. channel.new ≡ channel.old) }
{
    let server = Server::new(heap, limits)?;
    let mut mount: Mount<K> = Mount { server };
    let mut room = Room::new(heap)?;
    Ok(serve_in(&mut mount, channel, &mut room))
}
