// What a call costs through the one lock, by threads that share one kernel.
ghost use Rattle.std.specs.Prelude.{◌≡◌, All, IfSome};
ghost use Rattle.turnstile.specs.Passes.{Gate};

use crate::clock::{Cost, Lap, print_cost};
use crate::paths::{path, scattered, shuffled};
use crate::steps::{kernel_of, prepare, step};
use crate::work::make_between;
use anyhow::{Result, bail};
use heap::Heap;
use ids::{Call, Op, Reply};
use machine::Machine;
use std::alloc::AllocError;
use std::sync::Wait;
use std::thread::{Threads, join};
use turnstile::{Pass, Turnstile};

// How many names are looked at, and how many looks each thread takes.
const NAMES: u64 = 1000;

const LOOKS: u64 = 100_000;

// A look at one of the names.
fn look(heap: Heap, i: u64) -> std::result::Result<Op, AllocError> {
    let path = path(heap, b'n', scattered(shuffled(i, NAMES)))?;
    Ok(Op::Call(Call::Stat(path)))
}

fn is_answered(reply: &Reply) -> bool {
    matches!(reply, Reply::Answer(_))
}

// A kernel of four processes with the names.
fn kernel_with_names<K: Machine>(heap: Heap) -> Result<K> {
    let mut kernel = kernel_of(heap, 4)?;
    match make_all(&mut kernel, heap) {
        Ok(()) => Ok(kernel),
        Err(error) => {
            drop(kernel);
            Err(error)
        }
    }
}

fn make_all<K: Machine>(kernel: &mut K, heap: Heap) -> Result<()> {
    prepare(kernel, heap)?;
    make_between(kernel, heap, 0, NAMES)
}

fn look_directly<K: Machine>(kernel: &mut K, heap: Heap) -> Result<()> {
    for i in 0..LOOKS {
        step(kernel, 1, look(heap, i)?)?;
    }
    Ok(())
}

// What the looks cost by steps, without a lock.
fn print_steps<K: Machine>(rt: &HostRuntime, heap: Heap) -> Result<()> {
    let mut kernel: K = kernel_with_names(heap)?;
    let lap = Lap::start(rt, heap)?;
    let done = look_directly(&mut kernel, heap);
    let cost = lap.cost(rt, heap)?;
    drop(kernel);
    done?;
    print_cost(rt, "step", "1 thread", LOOKS, cost)
}

// All looks of one thread. Answers how many were answered.
fn look_through<R: Wait, K: Machine>(
    rt: &R,
    heap: Heap,
    turnstile: &Turnstile<K>,
    mut pass: Pass<K>,
) -> u64
    requires { pass.gate ≡ turnstile.now }
{
    let mut answered = 0u64;
    for i in 0..LOOKS {
        let Ok(op) = look(heap, i) else {
            break;
        };
        let reply = turnstile.call(rt, &mut pass, op);
        if is_answered(&reply) {
            answered = answered.wrapping_add(1);
        }
        drop(reply);
    }
    drop(pass);
    answered
}

// The passes of two threads.
#[derive(Drop)]
struct Two<K: Machine> {
    one: Pass<K>,
    two: Pass<K>,
}

// The looks of two threads at once.
fn look_by_two<R: Threads + Wait + Sync, K: Machine + Send>(
    rt: &R,
    heap: Heap,
    turnstile: &Turnstile<K>,
    one: Pass<K>,
    two: Pass<K>,
) -> u64
    requires { (one.gate ≡ turnstile.now) × (two.gate ≡ turnstile.now) }
{
    let (first, second) = join(
        rt,
        || -> u64
            requires { one.gate ≡ turnstile.now }
        { look_through(rt, heap, turnstile, one) },
        || -> u64
            requires { two.gate ≡ turnstile.now }
        { look_through(rt, heap, turnstile, two) },
    );
    first.wrapping_add(second)
}

// The looks of four threads at once.
fn look_by_four<R: Threads + Wait + Sync, K: Machine + Send>(
    rt: &R,
    heap: Heap,
    turnstile: &Turnstile<K>,
    low: Two<K>,
    high: Two<K>,
) -> u64
    requires low { (low.one.gate ≡ turnstile.now) × (low.two.gate ≡ turnstile.now) }
    requires high { (high.one.gate ≡ turnstile.now) × (high.two.gate ≡ turnstile.now) }
{
    let Two { one, two } = low;
    let Two {
        one: three,
        two: four,
    } = high;
    let (first, second) = join(
        rt,
        || -> u64
            requires { (one.gate ≡ turnstile.now) × (two.gate ≡ turnstile.now) }
        { look_by_two(rt, heap, turnstile, one, two) },
        || -> u64
            requires { (three.gate ≡ turnstile.now) × (four.gate ≡ turnstile.now) }
        { look_by_two(rt, heap, turnstile, three, four) },
    );
    first.wrapping_add(second)
}

// The last two of these passes.
fn two_of<K: Machine>(passes: &mut Vec<Pass<K>, Heap>) -> Option<Two<K>>
    ensures two { (gate : Gate) → All (λ p. p.gate ≡ gate) passes.old.items
        → IfSome result (λ two. (two.one.gate ≡ gate) × (two.two.gate ≡ gate)) }
    ensures rest { (gate : Gate) → All (λ p. p.gate ≡ gate) passes.old.items
        → All (λ p. p.gate ≡ gate) passes.new.items }
{
    let two = passes.pop()?;
    let one = passes.pop()?;
    Some(Two { one, two })
}

// The looks of 1, 2 or 4 threads.
fn look_by<R: Threads + Wait + Sync, K: Machine + Send>(
    rt: &R,
    heap: Heap,
    turnstile: &Turnstile<K>,
    low: Two<K>,
    high: Two<K>,
    threads: u64,
) -> u64
    requires low { (low.one.gate ≡ turnstile.now) × (low.two.gate ≡ turnstile.now) }
    requires high { (high.one.gate ≡ turnstile.now) × (high.two.gate ≡ turnstile.now) }
{
    match threads {
        1 => {
            let Two { one, two } = low;
            let answered = look_through(rt, heap, turnstile, one);
            drop(two);
            drop(high);
            answered
        }
        2 => {
            let Two { one, two } = low;
            let answered = look_by_two(rt, heap, turnstile, one, two);
            drop(high);
            answered
        }
        _ => look_by_four(rt, heap, turnstile, low, high),
    }
}

// What the looks of so many threads cost.
fn print_looks<R: Threads + Wait + Sync, K: Machine + Send>(
    rt: &HostRuntime,
    shared: &R,
    heap: Heap,
    turnstile: &Turnstile<K>,
    mut passes: Vec<Pass<K>, Heap>,
    threads: u64,
) -> Result<()>
    requires { All (λ p. p.gate ≡ turnstile.now) passes.items }
{
    let Some(high) = two_of(&mut passes) else {
        drop(passes);
        bail!("there are too few passes")
    };
    let Some(low) = two_of(&mut passes) else {
        drop(passes);
        drop(high);
        bail!("there are too few passes")
    };
    drop(passes);
    let lap = match Lap::start(rt, heap) {
        Ok(lap) => lap,
        Err(error) => {
            drop(low);
            drop(high);
            return Err(error);
        }
    };
    let answered = look_by(shared, heap, turnstile, low, high, threads);
    print_answered(rt, lap.cost(rt, heap)?, answered, threads)
}

// What the looks of so many threads have cost, where all were answered.
fn print_answered(rt: &HostRuntime, cost: Cost, answered: u64, threads: u64) -> Result<()> {
    if answered != LOOKS.saturating_mul(threads) {
        bail!("not all looks were answered")
    }
    print_cost(rt, "turnstile", row_of(threads), answered, cost)
}

fn row_of(threads: u64) -> &'static str {
    match threads {
        1 => "1 thread",
        2 => "2 threads",
        _ => "4 threads",
    }
}

// What the looks of so many threads cost through a fresh turnstile.
fn print_threads<R: Threads + Wait + Sync, K: Machine + Send>(
    rt: &HostRuntime,
    shared: &R,
    heap: Heap,
    threads: u64,
) -> Result<()> {
    let kernel: K = kernel_with_names(heap)?;
    match Turnstile::new(heap, kernel) {
        Ok((turnstile, passes)) => print_looks(rt, shared, heap, &turnstile, passes, threads),
        Err(kernel) => {
            drop(kernel);
            bail!("there is no memory for a turnstile")
        }
    }
}

/// Prints what a stat costs by steps, and through a turnstile by 1, 2 and 4 threads: the time until
/// all have done theirs, as often as any of them did one.
pub(crate) fn print_lock<R: Threads + Wait + Sync, K: Machine + Send>(
    rt: &HostRuntime,
    shared: &R,
    heap: Heap,
) -> Result<()> {
    for _ in 0..3u64 {
        print_steps::<K>(rt, heap)?;
        print_threads::<_, K>(rt, shared, heap, 1)?;
        print_threads::<_, K>(rt, shared, heap, 2)?;
        print_threads::<_, K>(rt, shared, heap, 4)?;
    }
    Ok(())
}
