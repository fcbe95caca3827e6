// What it costs to write a long file, plain and in one transaction, and how much memory it takes.
use crate::clock::Lap;
use crate::files::{forget, kernel_with_file, write};
use crate::steps::{begin, end};
use anyhow::{Result, bail};
use heap::Heap;
use machine::Machine;
use std::fs;

// How many MiB are written, in pieces of 64 KiB.
const MEBIBYTES: u64 = 256;

const PIECE: u32 = 65_536;

static ROW: &str = "write 256 MiB by 64 KiB";

// Writes it all. What was done is forgotten behind each MiB, so that the history keeps no copy.
fn write_all<K: Machine>(kernel: &mut K, heap: Heap) -> Result<()> {
    for _ in 0..MEBIBYTES {
        for _ in 0..16u32 {
            write(kernel, heap, PIECE)?;
        }
        forget(kernel)?;
    }
    Ok(())
}

// The most memory that the process has held, in KiB, as its own kernel tells it.
fn peak(rt: &HostRuntime) -> Result<u64> {
    let text = fs::read_to_string(rt, "/proc/self/status")?;
    for line in text.lines() {
        if let Some(told) = line.strip_prefix("VmHWM:")
            && let Some(number) = told.split_whitespace().next()
            && let Ok(kib) = number.parse::<u64>()
        {
            return Ok(kib);
        }
    }
    bail!("there is no peak")
}

fn print_peak(rt: &HostRuntime, way: &str) -> Result<()> {
    let kib = peak(rt)?;
    println!(rt; "{way} peak\t{ROW}\t1\t{kib}\t0")?;
    Ok(())
}

fn print_writing<K: Machine>(
    rt: &HostRuntime,
    kernel: &mut K,
    heap: Heap,
    way: &str,
) -> Result<()> {
    let lap = Lap::start(rt, heap)?;
    write_all(kernel, heap)?;
    lap.print(rt, heap, way, ROW, MEBIBYTES)
}

fn print_within<K: Machine>(rt: &HostRuntime, kernel: &mut K, heap: Heap) -> Result<()> {
    begin(kernel, 1)?;
    print_writing(rt, kernel, heap, "within")?;
    let lap = Lap::start(rt, heap)?;
    end(kernel, 1)?;
    lap.print(rt, heap, "end", ROW, MEBIBYTES)
}

fn print_in_way<K: Machine>(rt: &HostRuntime, kernel: &mut K, heap: Heap, way: &str) -> Result<()> {
    match way {
        "plain" => print_writing(rt, kernel, heap, way)?,
        "within" => print_within(rt, kernel, heap)?,
        _ => bail!("{way} is no way"),
    }
    print_peak(rt, way)
}

/// Prints what it costs to write a file of 256 MiB, in MiB: in the way `plain`, or `within` one
/// transaction, whose `end` has a line of its own. The last line, of the way with `peak` behind it,
/// has no time: in its place stands the most memory that the process has held, in KiB.
pub(crate) fn print_bulk<K: Machine>(rt: &HostRuntime, heap: Heap, way: &str) -> Result<()> {
    let mut kernel: K = kernel_with_file(heap)?;
    let done = print_in_way(rt, &mut kernel, heap, way);
    drop(kernel);
    done
}
