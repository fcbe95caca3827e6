// How long it takes to check a history, against how long it took to run it.
use crate::clock::Lap;
use crate::paths::path_in;
use crate::steps::{kernel_of, make_directory, step};
use anyhow::{Result, bail};
use heap::Heap;
use ids::{Bytes, Call, Fd, Op, OpenFlags, Whence};
use machine::Machine;
use replay::check;

// The directories in the root, and how many names lie in each.
static DIRECTORIES: [&str; 10] = ["/a", "/b", "/c", "/d", "/e", "/g", "/h", "/i", "/j", "/k"];

const NAMES: u64 = 1000;

// The calls that are run, besides those that make the names.
const CALLS: u64 = 100_000;

fn call<K: Machine>(kernel: &mut K, call: Call) -> Result<()> {
    step(kernel, 1, Op::Call(call))
}

// Opens the file `/f`, which is new, on descriptor 0, and a pipe on 1 and 2.
fn open_both<K: Machine>(kernel: &mut K, heap: Heap) -> Result<()> {
    let flags = OpenFlags::READ
        .with(OpenFlags::WRITE)
        .with(OpenFlags::CREAT);
    call(kernel, Call::Open(Bytes::copy(heap, b"/f")?, flags))?;
    call(kernel, Call::Pipe)
}

// Makes the directories with their names.
fn fill<K: Machine>(kernel: &mut K, heap: Heap) -> Result<()> {
    for directory in &DIRECTORIES {
        make_directory(kernel, heap, directory.as_bytes())?;
        for number in 0..NAMES {
            let path = path_in(heap, directory, b'n', number)?;
            call(kernel, Call::Mkdir(path))?;
        }
    }
    Ok(())
}

// A directory comes between these names and goes again, and two of them are looked for.
fn do_names<K: Machine>(kernel: &mut K, heap: Heap, directory: &str, number: u64) -> Result<()> {
    let other = NAMES.saturating_sub(number).min(999);
    call(kernel, Call::Mkdir(path_in(heap, directory, b'm', number)?))?;
    call(kernel, Call::Stat(path_in(heap, directory, b'n', number)?))?;
    call(kernel, Call::Rmdir(path_in(heap, directory, b'm', number)?))?;
    call(kernel, Call::Stat(path_in(heap, directory, b'n', other)?))
}

fn rewind<K: Machine>(kernel: &mut K) -> Result<()> {
    call(kernel, Call::Lseek(Fd(0), 0, Whence::Set))
}

fn write<K: Machine>(kernel: &mut K, heap: Heap, fd: Fd) -> Result<()> {
    call(kernel, Call::Write(fd, Bytes::copy(heap, &[b'x'; 64])?))
}

// 64 bytes are written to the file and to the pipe, and read again.
fn do_bytes<K: Machine>(kernel: &mut K, heap: Heap) -> Result<()> {
    rewind(kernel)?;
    write(kernel, heap, Fd(0))?;
    rewind(kernel)?;
    call(kernel, Call::Read(Fd(0), 64))?;
    write(kernel, heap, Fd(2))?;
    call(kernel, Call::Read(Fd(1), 64))
}

// Ten calls for each name.
fn do_calls<K: Machine>(kernel: &mut K, heap: Heap) -> Result<()> {
    for number in 0..NAMES {
        for directory in &DIRECTORIES {
            do_names(kernel, heap, directory, number)?;
            do_bytes(kernel, heap)?;
        }
    }
    Ok(())
}

fn print_checks<K: Machine>(rt: &HostRuntime, kernel: &K, heap: Heap) -> Result<()> {
    for _ in 0..3u64 {
        let lap = Lap::start(rt, heap)?;
        if check(heap, kernel.history()).is_err() {
            bail!("the history does not pass")
        }
        lap.print(rt, heap, "check", "check them", CALLS)?;
    }
    Ok(())
}

fn print_check_on<K: Machine>(rt: &HostRuntime, kernel: &mut K, heap: Heap) -> Result<()> {
    open_both(kernel, heap)?;
    let lap = Lap::start(rt, heap)?;
    fill(kernel, heap)?;
    do_calls(kernel, heap)?;
    lap.print(rt, heap, "check", "run the calls", CALLS)?;
    print_checks(rt, kernel, heap)
}

/// Prints what it costs to run 100,000 plain calls in a tree of 10,000 names, which are made first,
/// and what it costs to check their history.
pub(crate) fn print_check<K: Machine>(rt: &HostRuntime, heap: Heap) -> Result<()> {
    let mut kernel: K = kernel_of(heap, 1)?;
    let done = print_check_on(rt, &mut kernel, heap);
    drop(kernel);
    done
}
