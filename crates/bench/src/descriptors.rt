// Whether an open costs more beside many open descriptors: those of a process, and those of its
// transaction.
use crate::clock::Lap;
use crate::steps::{begin, end, step};
use anyhow::{Result, bail};
use heap::Heap;
use ids::{Bytes, Call, Fd, Limits, Op, OpenFlags, Priority};
use machine::Machine;

// How often a file is opened and closed again, and how often that is measured.
const OPENS: u64 = 1000;

const REPETITIONS: u64 = 5;

// The most descriptors of a process.
const DESCRIPTORS: u32 = 65_536;

// How many are open beside it.
static LOADS: [(&str, u32); 3] = [
    ("1 open descriptor", 1),
    ("1000 open descriptors", 1000),
    ("10000 open descriptors", 10_000),
];

fn call<K: Machine>(kernel: &mut K, call: Call) -> Result<()> {
    step(kernel, 1, Op::Call(call))
}

// Makes the file, which stays open on the first descriptor.
fn open_first<K: Machine>(kernel: &mut K, heap: Heap) -> Result<()> {
    let path = Bytes::copy(heap, b"/o")?;
    call(
        kernel,
        Call::Open(path, OpenFlags::READ.with(OpenFlags::CREAT)),
    )
}

// The descriptors behind the first one, up to so many.
fn open_all<K: Machine>(kernel: &mut K, count: u32) -> Result<()> {
    for _ in 1..count {
        call(kernel, Call::Dup(Fd(0)))?;
    }
    Ok(())
}

fn close_all<K: Machine>(kernel: &mut K, count: u32) -> Result<()> {
    for fd in 1..count {
        call(kernel, Call::Close(Fd(fd)))?;
    }
    Ok(())
}

// Opens the file on the lowest free descriptor, and closes it again.
fn open_often<K: Machine>(kernel: &mut K, heap: Heap, count: u32) -> Result<()> {
    for _ in 0..OPENS {
        let path = Bytes::copy(heap, b"/o")?;
        call(kernel, Call::Open(path, OpenFlags::READ))?;
        call(kernel, Call::Close(Fd(count)))?;
    }
    Ok(())
}

fn print_opens<K: Machine>(
    rt: &HostRuntime,
    kernel: &mut K,
    heap: Heap,
    way: &str,
    row: &str,
    count: u32,
) -> Result<()> {
    for _ in 0..REPETITIONS {
        let lap = Lap::start(rt, heap)?;
        open_often(kernel, heap, count)?;
        lap.print(rt, heap, way, row, OPENS)?;
    }
    Ok(())
}

// Plain, beside those of the process, and in a transaction that has opened them all itself.
fn print_beside_on<K: Machine>(
    rt: &HostRuntime,
    kernel: &mut K,
    heap: Heap,
    row: &str,
    count: u32,
) -> Result<()> {
    open_first(kernel, heap)?;
    open_all(kernel, count)?;
    print_opens(rt, kernel, heap, "plain", row, count)?;
    close_all(kernel, count)?;
    begin(kernel, 1)?;
    open_all(kernel, count)?;
    print_opens(rt, kernel, heap, "within", row, count)?;
    end(kernel, 1)
}

fn kernel_with<K: Machine>(heap: Heap) -> Result<K> {
    let Some(zero) = Priority::new(0) else {
        bail!("there is no priority 0")
    };
    let limits = Limits {
        descriptors: DESCRIPTORS,
        ..Limits::of_entries(1_048_576)
    };
    Ok(K::with_limits(heap, &[zero], limits)?)
}

fn print_beside<K: Machine>(rt: &HostRuntime, heap: Heap, row: &str, count: u32) -> Result<()> {
    let mut kernel: K = kernel_with(heap)?;
    let done = print_beside_on(rt, &mut kernel, heap, row, count);
    drop(kernel);
    done
}

/// Prints what an open and a close cost, plain and in a transaction, beside each number of descriptors.
pub(crate) fn print_descriptors<K: Machine>(rt: &HostRuntime, heap: Heap) -> Result<()> {
    for (row, count) in &LOADS {
        print_beside::<K>(rt, heap, *row, *count)?;
    }
    Ok(())
}
