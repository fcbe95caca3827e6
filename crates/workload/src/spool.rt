// Messages are delivered into one directory by several processes, each by one transaction, with a
// line of an index that all share, beside a process that lists the spool and reads the index.
use crate::actor::Actor;
use crate::content::Room;
use crate::digest::Digest;
use crate::drive::{drive, kernel_of};
use anyhow::Result;
use heap::Heap;
use ids::OpenFlags;
use kernel::Kernel;

static INDEX: &str = "/var/spool/mail/index";

const DELIVERERS: u64 = 8;

fn setup(heap: Heap) -> Result<Actor> {
    let mut first = Actor::new(heap, 1);
    for directory in &[
        "/var",
        "/var/spool",
        "/var/spool/mail",
        "/var/spool/mail/new",
    ] {
        first.mkdir(heap, directory)?;
    }
    let flags = OpenFlags::WRITE.with(OpenFlags::CREAT);
    first.open(heap, INDEX, flags)?;
    first.close(0)?;
    Ok(first)
}

// Delivers a message: its file, and its line of the index.
fn add_message(deliverer: &mut Actor, room: &mut Room, number: u64) -> Result<()> {
    let heap = room.heap;
    let stamp = room.random.between(1_700_000_000, 1_800_000_000);
    let path = format!(in heap; "/var/spool/mail/new/{stamp}.M{number}.mail-host")?;
    let length = room.random.length().clamp(2048, 102_400);
    deliverer.begin()?;
    let message = room.text(length);
    deliverer.create(heap, path.as_str(), message)?;
    let flags = OpenFlags::WRITE.with(OpenFlags::APPEND);
    deliverer.open(heap, INDEX, flags)?;
    let line = room.text(100);
    deliverer.write(0, line)?;
    deliverer.close(0)?;
    deliverer.end()
}

fn add_reading(reader: &mut Actor, heap: Heap, messages: u64) -> Result<()> {
    reader.begin()?;
    reader.list(heap, "/var/spool/mail/new")?;
    reader.look_into(heap, INDEX, (messages / 160 + 1).min(64))?;
    reader.end()
}

fn actors_of(room: &mut Room, messages: u64) -> Result<Vec<Actor, Heap>> {
    let mut actors = Vec::new(room.heap);
    for deliverer in 0..DELIVERERS {
        let mut actor = Actor::new(room.heap, deliverer as u32 + 1);
        for number in 0..messages / DELIVERERS {
            add_message(&mut actor, room, number * DELIVERERS + deliverer)?;
        }
        actors.push(actor)?;
    }
    let mut reader = Actor::new(room.heap, DELIVERERS as u32 + 1);
    for number in 0..messages / 60 {
        add_reading(&mut reader, room.heap, number.saturating_mul(60))?;
    }
    actors.push(reader)?;
    Ok(actors)
}

/// A run in which so many messages are delivered.
pub(crate) fn run(room: &mut Room, messages: u64) -> Result<Kernel> {
    let mut first = [setup(room.heap)?];
    let mut actors = actors_of(room, messages.min(16_000))?;
    let mut kernel = kernel_of(room.heap, 0, DELIVERERS as usize + 1, 1_048_576)?;
    drive(&mut kernel, room, &mut first)?;
    drive(&mut kernel, room, actors.as_mut_slice())?;
    Ok(kernel)
}

/// Delivers messages, and prints the transcript.
pub(crate) fn deliver(room: &mut Room, share: u64) -> Result<u64> {
    let kernel = run(room, share.saturating_mul(70))?;
    let mut digest = Digest::new();
    digest.add_run(&kernel)?;
    drop(kernel);
    Ok(digest.value())
}
