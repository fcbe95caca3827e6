// A spool that empties itself, on a kernel that forgets what was done: so it can run for ever.
use crate::clock::{Cost, Lap, print_cost};
use crate::paths::path;
use crate::steps::{begin, end, make_directory, step};
use anyhow::{Result, bail};
use heap::Heap;
use ids::{Bytes, Call, Fd, Num, Op, OpenFlags, Priority};
use machine::Machine;
use replay::Checker;

// What is done of a message: it is delivered in a transaction of five operations, the spool is listed,
// the message is read by three, and it goes.
const OPERATIONS: u64 = 10;

// The messages behind which the history is forgotten.
const PART: u64 = 500;

// The lines that are printed of a run.
const LAPS: u64 = 20;

/// What is wanted beside the run.
#[derive(Clone, Copy)]
pub(crate) struct Wanted {
    /// That each part of the history is checked before it is forgotten.
    pub(crate) check: bool,
    /// That it is told how long each twentieth of the run took. With no times a run prints the same each time.
    pub(crate) times: bool,
}

fn call<K: Machine>(kernel: &mut K, pid: u32, call: Call) -> Result<()> {
    step(kernel, pid, Op::Call(call))
}

fn deliver<K: Machine>(kernel: &mut K, heap: Heap, number: u64) -> Result<()> {
    let flags = OpenFlags::WRITE.with(OpenFlags::CREAT);
    begin(kernel, 1)?;
    call(kernel, 1, Call::Open(path(heap, b'm', number)?, flags))?;
    call(
        kernel,
        1,
        Call::Write(Fd(0), Bytes::copy(heap, &[b'x'; 4096])?),
    )?;
    call(kernel, 1, Call::Close(Fd(0)))?;
    end(kernel, 1)
}

fn take<K: Machine>(kernel: &mut K, heap: Heap, number: u64) -> Result<()> {
    call(kernel, 2, Call::List(Bytes::copy(heap, b"/d")?))?;
    call(
        kernel,
        2,
        Call::Open(path(heap, b'm', number)?, OpenFlags::READ),
    )?;
    call(kernel, 2, Call::Read(Fd(0), 4096))?;
    call(kernel, 2, Call::Close(Fd(0)))?;
    call(kernel, 2, Call::Unlink(path(heap, b'm', number)?))
}

// The checker behind what the history keeps, if there is one.
fn follow<K: Machine>(kernel: &K, checker: Option<Checker>) -> Result<Option<Checker>> {
    let Some(checker) = checker else {
        return Ok(None);
    };
    match checker.add(kernel.history().entries()) {
        Ok(checker) => Ok(Some(checker)),
        Err(_) => bail!("the history does not pass"),
    }
}

// Messages are delivered and taken, and what was done is forgotten.
fn do_part<K: Machine>(kernel: &mut K, heap: Heap, first: u64, count: u64) -> Result<()> {
    for number in 0..count {
        deliver(kernel, heap, first.saturating_add(number))?;
        take(kernel, heap, first.saturating_add(number))?;
    }
    Ok(())
}

fn forget<K: Machine>(kernel: &mut K) -> Result<()> {
    if !kernel.forget() {
        bail!("nothing was forgotten")
    }
    Ok(())
}

// So many messages, a part at a time.
fn do_lap<K: Machine>(
    kernel: &mut K,
    heap: Heap,
    first: u64,
    count: u64,
    checker: Option<Checker>,
) -> Result<Option<Checker>> {
    let mut checker = checker;
    for part in 0..count / PART {
        do_part(
            kernel,
            heap,
            first.saturating_add(part.saturating_mul(PART)),
            PART,
        )?;
        checker = follow(kernel, checker)?;
        forget(kernel)?;
    }
    Ok(checker)
}

fn print_lap(rt: &HostRuntime, wanted: Wanted, calls: u64, cost: Cost) -> Result<()> {
    let way = if wanted.check { "followed" } else { "forever" };
    let told = if wanted.times { cost } else { Cost::none() };
    print_cost(rt, way, "a twentieth", calls, told)
}

fn do_laps<K: Machine>(
    rt: &HostRuntime,
    kernel: &mut K,
    heap: Heap,
    messages: u64,
    wanted: Wanted,
    checker: Option<Checker>,
) -> Result<()> {
    let count = messages / LAPS;
    let mut checker = checker;
    for number in 0..LAPS {
        let lap = Lap::start(rt, heap)?;
        checker = do_lap(kernel, heap, number.saturating_mul(count), count, checker)?;
        let cost = lap.cost(rt, heap)?;
        print_lap(rt, wanted, count.saturating_mul(OPERATIONS), cost)?;
    }
    drop(checker);
    Ok(())
}

fn checker_if(heap: Heap, wanted: bool, priorities: &[Priority]) -> Result<Option<Checker>> {
    if wanted {
        Ok(Some(Checker::new(heap, Num(0), priorities)?))
    } else {
        Ok(None)
    }
}

fn run_on<K: Machine>(
    rt: &HostRuntime,
    kernel: &mut K,
    heap: Heap,
    messages: u64,
    wanted: Wanted,
) -> Result<()> {
    let checker = checker_if(heap, wanted.check, kernel.history().priorities())?;
    make_directory(kernel, heap, b"/d")?;
    do_laps(rt, kernel, heap, messages, wanted, checker)
}

/// Delivers so many messages to a spool, of which each is taken before the next one comes, and
/// prints a line for each twentieth of them. The history keeps 16,384 entries at most.
pub(crate) fn print_forever<K: Machine>(
    rt: &HostRuntime,
    heap: Heap,
    messages: u64,
    wanted: Wanted,
) -> Result<()> {
    let Some(zero) = Priority::new(0) else {
        bail!("there is no priority 0")
    };
    let mut kernel = K::new(heap, &[zero, zero], 16_384)?;
    let done = run_on(rt, &mut kernel, heap, messages, wanted);
    drop(kernel);
    done
}
