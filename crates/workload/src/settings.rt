// Small files are written anew and renamed over the old ones, beside readers that have them open.
use crate::actor::Actor;
use crate::content::Room;
use crate::drive::{drive, kernel_of};
use anyhow::Result;
use heap::Heap;
use ids::OpenFlags;
use kernel::Kernel;

// How many files there are.
const FILES: u64 = 300;

fn path_of(heap: Heap, number: u64) -> Result<String<Heap>> {
    Ok(format!(in heap; "/home/user/.config/program-{number}.conf")?)
}

fn setup(room: &mut Room) -> Result<Actor> {
    let heap = room.heap;
    let mut first = Actor::new(heap, 1);
    for directory in &["/home", "/home/user", "/home/user/.config"] {
        first.mkdir(heap, directory)?;
    }
    for number in 0..FILES {
        let path = path_of(heap, number)?;
        let content = room.text(1024);
        first.create(heap, path.as_str(), content)?;
    }
    Ok(first)
}

// Writes a file anew, by one transaction each other time.
fn add_round(writer: &mut Actor, room: &mut Room, round: u64) -> Result<()> {
    let heap = room.heap;
    let path = path_of(heap, room.random.below(FILES))?;
    let new = format!(in heap; "/home/user/.config/.new-{}", writer.pid.0)?;
    let length = room.random.between(1024, 16_384) as usize;
    let content = room.text(length);
    if round % 2 == 0 {
        writer.begin()?;
    }
    writer.rewrite(heap, new.as_str(), content)?;
    writer.rename(heap, new.as_str(), path.as_str())?;
    if round % 2 == 0 {
        writer.end()?;
    }
    Ok(())
}

fn add_reading(reader: &mut Actor, room: &mut Room) -> Result<()> {
    let path = path_of(room.heap, room.random.below(FILES))?;
    reader.open(room.heap, path.as_str(), OpenFlags::READ)?;
    reader.other(ids::Call::Fstat(ids::Fd(0)))?;
    reader.read(0, 2)?;
    reader.close(0)
}

fn actors_of(room: &mut Room, rounds: u64) -> Result<Vec<Actor, Heap>> {
    let mut actors = Vec::new(room.heap);
    for pid in 1..3u32 {
        let mut writer = Actor::new(room.heap, pid);
        for round in 0..rounds {
            add_round(&mut writer, room, round)?;
        }
        actors.push(writer)?;
    }
    for pid in 3..5u32 {
        let mut reader = Actor::new(room.heap, pid);
        for _ in 0..rounds {
            add_reading(&mut reader, room)?;
        }
        actors.push(reader)?;
    }
    Ok(actors)
}

/// A run of so many rounds.
pub(crate) fn run(room: &mut Room, rounds: u64) -> Result<Kernel> {
    let mut first = [setup(room)?];
    let mut actors = actors_of(room, rounds.min(10_000))?;
    let mut kernel = kernel_of(room.heap, 2, 2, 1_048_576)?;
    drive(&mut kernel, room, &mut first)?;
    drive(&mut kernel, room, actors.as_mut_slice())?;
    Ok(kernel)
}
