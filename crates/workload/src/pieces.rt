// Large files written anywhere, by pieces of all lengths.
use crate::actor::Actor;
use crate::content::Room;
use crate::digest::Digest;
use crate::drive::{drive, kernel_of};
use anyhow::Result;
use heap::Heap;
use ids::{Call, Fd, OpenFlags, Whence};
use kernel::Kernel;

const LARGEST: u64 = 1_048_576;

// The files, which stay open on descriptors that follow each other.
const FILES: u64 = 4;

fn seek(actor: &mut Actor, fd: u32, offset: u64) -> Result<()> {
    actor.other(Call::Lseek(Fd(fd), offset.min(LARGEST) as i64, Whence::Set))
}

fn open_files(writer: &mut Actor, heap: Heap) -> Result<()> {
    let flags = OpenFlags::READ
        .with(OpenFlags::WRITE)
        .with(OpenFlags::CREAT);
    for number in 0..FILES {
        let path = format!(in heap; "/table-{number}")?;
        writer.open(heap, path.as_str(), flags)?;
        writer.other(Call::Ftruncate(Fd(number as u32), LARGEST as u64 / 2))?;
    }
    Ok(())
}

// A length up to 40 KiB: half of them are below 100.
fn length_of(room: &mut Room) -> usize {
    let most = if room.random.below(2) == 0 {
        100
    } else {
        40_000
    };
    room.random.between(1, most).min(40_000) as usize
}

// Writes a piece anywhere, or reads one.
fn add_piece(writer: &mut Actor, room: &mut Room, number: u64) -> Result<()> {
    let fd = room.random.below(FILES) as u32;
    let offset = room.random.below(LARGEST - 40_000);
    seek(writer, fd, offset)?;
    let length = length_of(room);
    if number % 4 == 3 {
        return writer.other(Call::Read(Fd(fd), length.min(40_000) as u32));
    }
    let content = if number % 2 == 0 {
        room.text(length)
    } else {
        room.binary(length)
    };
    writer.write(fd, content)
}

fn add_pieces(writer: &mut Actor, room: &mut Room, count: u64) -> Result<()> {
    writer.begin()?;
    for number in 0..count {
        add_piece(writer, room, number)?;
    }
    writer.end()
}

fn add_closes(writer: &mut Actor) -> Result<()> {
    for fd in 0..FILES as u32 {
        writer.close(fd)?;
    }
    Ok(())
}

/// A run of transactions, in each of which so many pieces are written.
pub(crate) fn run(room: &mut Room, transactions: u64, count: u64) -> Result<Kernel> {
    let mut writer = Actor::new(room.heap, 1);
    open_files(&mut writer, room.heap)?;
    for _ in 0..transactions.min(100) {
        add_pieces(&mut writer, room, count.min(10_000))?;
    }
    // The same without a transaction.
    for number in 0..count.min(10_000) {
        add_piece(&mut writer, room, number)?;
    }
    add_closes(&mut writer)?;
    let mut kernel = kernel_of(room.heap, 0, 1, 1_048_576)?;
    let mut actors = [writer];
    drive(&mut kernel, room, &mut actors)?;
    Ok(kernel)
}

/// Writes pieces, and prints the transcript.
pub(crate) fn write_pieces(room: &mut Room, share: u64) -> Result<u64> {
    let kernel = run(room, 15, share.saturating_mul(15))?;
    let mut digest = Digest::new();
    digest.add_run(&kernel)?;
    drop(kernel);
    Ok(digest.value())
}
