// A whole session, of which each request for memory is refused in turn: each message that is to be
// answered has one reply with its number, in order, and no other is written.
ghost use Rattle.std.specs.Prelude.{None};

use crate::messages::{COUNT, is_answered, message};
use byteorder::{ByteOrder, LittleEndian};
use fuse::{Reply, Request, Time};
use heap::Heap;
use ids::Limits;
use kernel::Kernel;
use machine::Machine;
use mounted::Server;
use session::{Channel, Ending, Room, Service, Silence, serve_in};
use std::process::Abort;

// More requests for memory than the session makes.
const MOST: u64 = 2_000;

// A mounted tree, as what serves a session.
struct Tree<K: Machine> {
    server: Server<K>,
}

impl<K: Machine> Drop for Tree<K> {
    fn drop(self) {
        let Tree { server: _ } = self;
    }
}

impl<K: Machine> Service for Tree<K> {
    ghost use Rattle.std.specs.Prelude.{⊤};

    ghost serves = { λ _ _ _ _. ⊤ };

    fn serve(&mut self, request: Request, now: Time) -> Option<Reply> {
        self.server.serve(request, now)
    }
}

// The messages that are read, the place of the next one, the numbers of those that were written, and
// whether each told its own length and an error that there is, or none.
#[derive(Drop)]
struct Wire {
    heard: Vec<Vec<u8, Heap>, Heap>,
    next: usize,
    said: [u64; COUNT],
    count: usize,
    is_whole: bool,
}

// Whether a message is a reply: its length, 0 or an error below zero, and a body only where it is 0.
fn is_reply(message: &[u8]) -> bool {
    if message.len() < 16 {
        return false;
    }
    let length = LittleEndian::read_u32(message);
    let error = LittleEndian::read_u32(&message[4..]).wrapping_neg();
    length as usize == message.len() && (error == 0 || error < 512 && length == 16)
}

fn number_of(message: &[u8]) -> u64 {
    if message.len() < 16 {
        return 0;
    }
    LittleEndian::read_u64(&message[8..])
}

impl Channel for Wire {
    ghost heard = { λ _. None };

    ghost said = { λ _. None };

    fn receive(&mut self, buffer: &mut [u8]) -> Result<usize, Silence> {
        let Some(message) = self.heard.get(self.next) else {
            return Err(Silence::Ended(Ending::Unmounted));
        };
        let length = message.len();
        if length > buffer.len() {
            return Err(Silence::Ended(Ending::Failed));
        }
        buffer[..length].copy_from_slice(message.as_slice());
        self.next = self.next.wrapping_add(1);
        Ok(length)
    }

    fn now(&mut self) -> Time {
        Time {
            seconds: self.next as u64,
            nanoseconds: 0,
        }
    }

    fn send(&mut self, message: &[u8]) {
        self.is_whole = self.is_whole && is_reply(message) && self.count < COUNT;
        if self.count < COUNT {
            self.said[self.count] = number_of(message);
            self.count += 1;
        }
    }
}

fn new_wire(rt: &impl Abort, heap: Heap) -> Wire {
    let mut heard = Vec::new(heap);
    for place in 0..COUNT {
        heard.push(message(rt, heap, place)).expect(rt, "memory");
    }
    Wire {
        heard,
        next: 0,
        said: [0; COUNT],
        count: 0,
        is_whole: true,
    }
}

// Whether exactly the messages that are to be answered were, each once, in order.
fn is_answered_whole(wire: &Wire) -> bool {
    let mut count = 0usize;
    for place in 0..COUNT {
        if is_answered(place) {
            if wire.said.get(count).copied() != Some((place as u64).wrapping_add(1)) {
                return false;
            }
            count = count.wrapping_add(1);
        }
    }
    wire.is_whole && wire.next == COUNT && wire.count == count
}

fn new_tree<K: Machine>(rt: &impl Abort, heap: Heap) -> Tree<K> {
    let made: Result<Server<K>, _> = Server::new(heap, Limits::of_entries(16));
    Tree {
        server: made.expect(rt, "memory"),
    }
}

// Serves the session where this request for memory is refused, and tells how many were made.
fn serve<K: Machine>(
    rt: &impl Abort,
    heap: Heap,
    tree: &mut Tree<K>,
    room: &mut Room,
    request: u64,
) -> u64 {
    let mut wire = new_wire(rt, heap);
    heap.refuse(request);
    let ending = serve_in(tree, &mut wire, room);
    let made = heap.made();
    heap.refuse(0);
    assert!(rt; is_answered_whole(&wire), "request {request}");
    assert_eq!(rt; ending, Ending::Unmounted);
    made
}

fn serve_anew<K: Machine>(rt: &impl Abort, heap: Heap, room: &mut Room, request: u64) -> u64 {
    let mut tree: Tree<K> = new_tree(rt, heap);
    serve(rt, heap, &mut tree, room, request)
}

// Refuses each request for memory in turn, and tells how many there are.
fn refuse_each<K: Machine>(rt: &impl Abort, heap: Heap) -> u64 {
    let mut room = Room::new(heap).expect(rt, "memory");
    for request in 1..MOST {
        if serve_anew::<K>(rt, heap, &mut room, request) < request {
            return request.wrapping_sub(1);
        }
    }
    MOST
}

#[test]
fn a_session_answers_each_message_once(rt: HostRuntime) {
    let heap = heap::open(rt.alloc()).expect(&rt, "memory");
    let refused = refuse_each::<Kernel>(&rt, heap);
    assert!(rt; refused > 100 && refused < MOST, "{refused}");
}
