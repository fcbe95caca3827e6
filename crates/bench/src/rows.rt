// The rows of single calls, plain and in a transaction.
use crate::clock::{Cost, Lap, print_cost};
use crate::steps::{begin, end, kernel_of, prepare};
use crate::work::{Work, close_file, do_often, make_between, open_file};
use anyhow::Result;
use heap::Heap;
use machine::Machine;

/// A row of the table: its name, what is done, and how often.
struct Row {
    name: &'static str,
    work: Work,
    count: u64,
}

// The rows of a directory with 1,000 names, in the order in which they are done.
static ROWS: [Row; 20] = [
    Row {
        name: "mkdir of 1000 names",
        work: Work::Mkdir,
        count: 1000,
    },
    Row {
        name: "stat of one name of 1000",
        work: Work::Stat,
        count: 1000,
    },
    Row {
        name: "stat along 8 names",
        work: Work::StatDeep,
        count: 1000,
    },
    Row {
        name: "list of 1000 names",
        work: Work::List,
        count: 10,
    },
    Row {
        name: "rmdir of 1000 names",
        work: Work::Rmdir,
        count: 1000,
    },
    Row {
        name: "create, write 64 bytes, close",
        work: Work::Create,
        count: 1000,
    },
    Row {
        name: "open, read 64 bytes, close",
        work: Work::Read,
        count: 1000,
    },
    Row {
        name: "truncate of one file of 1000",
        work: Work::Truncate,
        count: 1000,
    },
    Row {
        name: "chmod of one file of 1000",
        work: Work::Chmod,
        count: 1000,
    },
    Row {
        name: "chown of one file of 1000",
        work: Work::Chown,
        count: 1000,
    },
    Row {
        name: "exchange of two names of 1000",
        work: Work::Exchange,
        count: 1000,
    },
    Row {
        name: "rename",
        work: Work::Rename,
        count: 1000,
    },
    Row {
        name: "unlink",
        work: Work::Unlink,
        count: 1000,
    },
    Row {
        name: "symlink of 1000 names",
        work: Work::Symlink,
        count: 1000,
    },
    Row {
        name: "readlink",
        work: Work::Readlink,
        count: 1000,
    },
    Row {
        name: "lstat of a symbolic link",
        work: Work::Lstat,
        count: 1000,
    },
    Row {
        name: "unlink of a symbolic link",
        work: Work::UnlinkFixed,
        count: 1000,
    },
    Row {
        name: "mknod of 1000 FIFOs",
        work: Work::Mknod,
        count: 1000,
    },
    Row {
        name: "unlink of a FIFO",
        work: Work::UnlinkFixed,
        count: 1000,
    },
    Row {
        name: "pipe, write and read 64 bytes",
        work: Work::Pipe,
        count: 1000,
    },
];

// Forks are refused in a transaction, so this row has plain calls alone.
static FORKS: [Row; 1] = [Row {
    name: "fork and exit",
    work: Work::Fork,
    count: 400,
}];

// The rows of one file, which is opened before them and closed behind them, so that all other rows
// have the pipe's two descriptors alone.
static OPENED: [Row; 2] = [
    Row {
        name: "pwrite 64 bytes anywhere",
        work: Work::Pwrite,
        count: 1000,
    },
    Row {
        name: "pread 64 bytes anywhere",
        work: Work::Pread,
        count: 1000,
    },
];

// The rows of a directory with 100,000 names.
static LARGE: [Row; 3] = [
    Row {
        name: "mkdir of 100000 names",
        work: Work::Mkdir,
        count: 100_000,
    },
    Row {
        name: "rmdir refused, 100000 names",
        work: Work::Refused,
        count: 10,
    },
    Row {
        name: "rmdir of 100000 names",
        work: Work::Rmdir,
        count: 100_000,
    },
];

fn print_plain<K: Machine>(
    rt: &HostRuntime,
    kernel: &mut K,
    heap: Heap,
    rows: &[Row],
) -> Result<()> {
    for row in rows {
        let lap = Lap::start(rt, heap)?;
        do_often(kernel, heap, row.work, row.count)?;
        lap.print(rt, heap, "plain", row.name, row.count)?;
    }
    Ok(())
}

// Makes a row's calls in a transaction. Gives what they cost, and what all costs from its begin to
// its end.
fn costs_within<K: Machine>(
    rt: &HostRuntime,
    kernel: &mut K,
    heap: Heap,
    row: &Row,
) -> Result<(Cost, Cost)> {
    let whole = Lap::start(rt, heap)?;
    begin(kernel, 1)?;
    let lap = Lap::start(rt, heap)?;
    do_often(kernel, heap, row.work, row.count)?;
    let calls = lap.cost(rt, heap)?;
    end(kernel, 1)?;
    Ok((calls, whole.cost(rt, heap)?))
}

// A transaction for each row.
fn print_within<K: Machine>(
    rt: &HostRuntime,
    kernel: &mut K,
    heap: Heap,
    rows: &[Row],
) -> Result<()> {
    for row in rows {
        let (calls, whole) = costs_within(rt, kernel, heap, row)?;
        print_cost(rt, "within", row.name, row.count, calls)?;
        print_cost(rt, "whole", row.name, row.count, whole)?;
    }
    Ok(())
}

fn print_opened<K: Machine>(rt: &HostRuntime, kernel: &mut K, heap: Heap) -> Result<()> {
    open_file(kernel, heap)?;
    print_plain(rt, kernel, heap, &OPENED)?;
    print_within(rt, kernel, heap, &OPENED)?;
    close_file(kernel, heap)
}

// How often the rows of 1,000 names are done on one kernel.
const REPETITIONS: u64 = 8;

fn print_small_on<K: Machine>(rt: &HostRuntime, kernel: &mut K, heap: Heap) -> Result<()> {
    prepare(kernel, heap)?;
    for _ in 0..REPETITIONS {
        print_plain(rt, kernel, heap, &ROWS)?;
        print_plain(rt, kernel, heap, &FORKS)?;
        print_within(rt, kernel, heap, &ROWS)?;
        print_opened(rt, kernel, heap)?;
    }
    Ok(())
}

/// Prints the rows of 1,000 names, of files, of a pipe and of forks.
pub(crate) fn print_small<K: Machine>(rt: &HostRuntime, heap: Heap) -> Result<()> {
    let mut kernel: K = kernel_of(heap, 1)?;
    let done = print_small_on(rt, &mut kernel, heap);
    drop(kernel);
    done
}

fn print_large_on<K: Machine>(rt: &HostRuntime, kernel: &mut K, heap: Heap) -> Result<()> {
    prepare(kernel, heap)?;
    print_plain(rt, kernel, heap, &LARGE)?;
    print_within(rt, kernel, heap, &LARGE)
}

/// Prints the rows of 100,000 names.
pub(crate) fn print_large<K: Machine>(rt: &HostRuntime, heap: Heap) -> Result<()> {
    let mut kernel: K = kernel_of(heap, 1)?;
    let done = print_large_on(rt, &mut kernel, heap);
    drop(kernel);
    done
}

// After how many nanoseconds no further names are made.
const LONGEST: u64 = 20_000_000_000;

// How many names are made between two looks at the clock.
const PORTION: u64 = 1000;

// Makes so many portions of names, and prints them all as one row from the start of `lap`. Where it takes
// too long it stops earlier, and the row has fewer calls.
fn print_portions<K: Machine>(
    rt: &HostRuntime,
    kernel: &mut K,
    heap: Heap,
    lap: &Lap,
    row: &str,
    from: u64,
    to: u64,
) -> Result<()> {
    let mut made = from.wrapping_mul(PORTION);
    for portion in from..to {
        let cost = lap.cost(rt, heap)?;
        if cost.nanos > LONGEST {
            break;
        }
        let first = portion.wrapping_mul(PORTION);
        made = first.wrapping_add(PORTION);
        make_between(kernel, heap, first, made)?;
    }
    lap.print(rt, heap, "plain", row, made)
}

fn print_largest_on<K: Machine>(rt: &HostRuntime, kernel: &mut K, heap: Heap) -> Result<()> {
    prepare(kernel, heap)?;
    let lap = Lap::start(rt, heap)?;
    print_portions(rt, kernel, heap, &lap, "mkdir of 500000 names", 0, 500)?;
    print_portions(rt, kernel, heap, &lap, "mkdir of 1000000 names", 500, 1000)
}

/// Prints the rows of 500,000 and of 1,000,000 names, of which the second begins with the first. A
/// row that takes longer than 20 seconds is of fewer names.
pub(crate) fn print_largest<K: Machine>(rt: &HostRuntime, heap: Heap) -> Result<()> {
    let mut kernel: K = kernel_of(heap, 1)?;
    let done = print_largest_on(rt, &mut kernel, heap);
    drop(kernel);
    done
}
