// Many names of one directory in one transaction.
use crate::actor::Actor;
use crate::content::Room;
use crate::digest::Digest;
use crate::drive::{drive, kernel_of};
use anyhow::Result;
use heap::Heap;
use kernel::Kernel;

const MOST_NAMES: u64 = 1_048_576;

// The path of the i-th name. No two are alike, and they come in no order.
fn path_of(heap: Heap, first: u64, i: u64) -> Result<String<Heap>> {
    let number = first.wrapping_add(i.wrapping_mul(648_055)) % MOST_NAMES;
    Ok(format!(in heap; "/cache/objects/{number:07}")?)
}

// Whether the process commits its transaction, or gives it up.
fn finish(actor: &mut Actor, commits: bool) -> Result<()> {
    if commits { actor.end() } else { actor.abort() }
}

fn add_making(maker: &mut Actor, heap: Heap, first: u64, count: u64, commits: bool) -> Result<()> {
    maker.begin()?;
    for i in 0..count {
        maker.mkdir(heap, path_of(heap, first, i)?.as_str())?;
    }
    maker.list(heap, "/cache/objects")?;
    finish(maker, commits)
}

// Another process removes them, in another order.
fn add_removing(remover: &mut Actor, heap: Heap, first: u64, count: u64) -> Result<()> {
    remover.begin()?;
    for i in 0..count {
        let index = i
            .wrapping_mul(7919)
            .wrapping_add(13)
            .checked_rem(count)
            .unwrap_or(0);
        let path = path_of(heap, first, index)?;
        remover.stat(heap, path.as_str())?;
        remover.other(ids::Call::Rmdir(ids::Bytes::copy(heap, path.as_str().as_bytes())?))?;
    }
    remover.end()
}

fn act(kernel: &mut Kernel, room: &mut Room, actor: Actor) -> Result<()> {
    let mut actors = [actor];
    drive(kernel, room, &mut actors)
}

/// A run in which so many names are made, given up, made again and removed.
pub(crate) fn run(room: &mut Room, count: u64) -> Result<Kernel> {
    let heap = room.heap;
    let count = count.min(200_000);
    let first = room.random.below(MOST_NAMES);
    let mut kernel = kernel_of(heap, 0, 2, 1_048_576)?;
    let mut maker = Actor::new(heap, 1);
    maker.mkdir(heap, "/cache")?;
    maker.mkdir(heap, "/cache/objects")?;
    add_making(&mut maker, heap, first, count / 2, false)?;
    add_making(&mut maker, heap, first, count, true)?;
    act(&mut kernel, room, maker)?;
    let mut remover = Actor::new(heap, 2);
    remover.list(heap, "/cache/objects")?;
    add_removing(&mut remover, heap, first, count)?;
    act(&mut kernel, room, remover)?;
    Ok(kernel)
}

/// Makes and removes names, and prints the transcript.
pub(crate) fn make_names(room: &mut Room, share: u64) -> Result<u64> {
    let kernel = run(room, share.saturating_mul(800))?;
    let mut digest = Digest::new();
    digest.add_run(&kernel)?;
    drop(kernel);
    Ok(digest.value())
}
