// Whether calls cost more beside many processes, beside many live transactions, and behind a long
// history.
use crate::clock::Lap;
use crate::paths::{DEEP, path_in};
use crate::steps::{begin, end, kernel_of, prepare, step, step_any};
use crate::work::{Work, do_often};
use anyhow::Result;
use heap::Heap;
use ids::{Bytes, Call, Op};
use machine::Machine;

// How many directories are made and removed again, and how often.
const NAMES: u64 = 1000;

const REPETITIONS: u64 = 5;

// How many names a live transaction has looked for.
const TOUCHES: u64 = 100;

// Makes directories, and prints what it costs.
fn print_making<K: Machine>(
    rt: &HostRuntime,
    kernel: &mut K,
    heap: Heap,
    way: &str,
    row: &str,
) -> Result<()> {
    let lap = Lap::start(rt, heap)?;
    do_often(kernel, heap, Work::Mkdir, NAMES)?;
    lap.print(rt, heap, way, row, NAMES)
}

// Prints what it costs to make directories, plain and in a transaction, and removes them again.
fn print_once<K: Machine>(rt: &HostRuntime, kernel: &mut K, heap: Heap, row: &str) -> Result<()> {
    print_making(rt, kernel, heap, "plain", row)?;
    do_often(kernel, heap, Work::Rmdir, NAMES)?;
    begin(kernel, 1)?;
    print_making(rt, kernel, heap, "within", row)?;
    end(kernel, 1)?;
    do_often(kernel, heap, Work::Rmdir, NAMES)
}

fn print_often<K: Machine>(rt: &HostRuntime, kernel: &mut K, heap: Heap, row: &str) -> Result<()> {
    for _ in 0..REPETITIONS {
        print_once(rt, kernel, heap, row)?;
    }
    Ok(())
}

// The processes from 2 on begin a transaction and look for names that are not there, each for names
// of its own.
fn open<K: Machine>(kernel: &mut K, heap: Heap, live: u32) -> Result<()> {
    for number in 0..live {
        let pid = number.saturating_add(2);
        begin(kernel, pid)?;
        for touch in 0..TOUCHES {
            let name = u64::from(number)
                .saturating_mul(TOUCHES)
                .saturating_add(touch);
            let path = path_in(heap, "", b'l', name)?;
            step_any(kernel, pid, Op::Call(Call::Stat(path)));
        }
    }
    Ok(())
}

// So many entries more: looks along eight names.
fn lengthen<K: Machine>(kernel: &mut K, heap: Heap, entries: u64) -> Result<()> {
    for _ in 0..entries {
        let path = Bytes::copy(heap, DEEP.as_bytes())?;
        step(kernel, 1, Op::Call(Call::Stat(path)))?;
    }
    Ok(())
}

// What stands beside the process that is measured.
#[derive(Clone, Copy)]
struct Load {
    row: &'static str,
    idle: u64,
    live: u32,
    entries: u64,
}

static LOADS: [Load; 9] = [
    Load {
        row: "1 idle process",
        idle: 1,
        live: 0,
        entries: 0,
    },
    Load {
        row: "4000 idle processes",
        idle: 4000,
        live: 0,
        entries: 0,
    },
    Load {
        row: "1 live transaction",
        idle: 0,
        live: 1,
        entries: 0,
    },
    Load {
        row: "10 live transactions",
        idle: 0,
        live: 10,
        entries: 0,
    },
    Load {
        row: "100 live transactions",
        idle: 0,
        live: 100,
        entries: 0,
    },
    Load {
        row: "1000 live transactions",
        idle: 0,
        live: 1000,
        entries: 0,
    },
    Load {
        row: "1 entry",
        idle: 0,
        live: 0,
        entries: 1,
    },
    Load {
        row: "1000 entries",
        idle: 0,
        live: 0,
        entries: 1000,
    },
    Load {
        row: "1000000 entries",
        idle: 0,
        live: 0,
        entries: 1_000_000,
    },
];

fn print_beside_on<K: Machine>(
    rt: &HostRuntime,
    kernel: &mut K,
    heap: Heap,
    load: &Load,
) -> Result<()> {
    prepare(kernel, heap)?;
    open(kernel, heap, load.live)?;
    lengthen(kernel, heap, load.entries)?;
    print_often(rt, kernel, heap, load.row)
}

fn print_beside<K: Machine>(rt: &HostRuntime, heap: Heap, load: &Load) -> Result<()> {
    let others = load.idle.saturating_add(u64::from(load.live));
    let mut kernel: K = kernel_of(heap, others.saturating_add(1))?;
    let done = print_beside_on(rt, &mut kernel, heap, load);
    drop(kernel);
    done
}

/// Prints what a mkdir costs, plain and in a transaction, beside each load.
pub(crate) fn print_growth<K: Machine>(rt: &HostRuntime, heap: Heap) -> Result<()> {
    for load in &LOADS {
        print_beside::<K>(rt, heap, load)?;
    }
    Ok(())
}
