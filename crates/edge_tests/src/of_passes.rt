// Refused memory at the one lock: what it gives back, and what a pass's process has then done.
ghost use Rattle.std.specs.Prelude.{◌≡◌};

use crate::of_turnstile::{Opened, begun, kernel_of_two, mkdir};
use crate::texts::inspect;
use heap::Heap;
use ids::{Pid, Reply};
use kernel::Kernel;
use machine::Machine;
use replay::check;
use std::sync::Wait;
use std::test::Fail;
use turnstile::{Pass, Turnstile};

// More requests than anything here makes.
const MOST: u64 = 200;

fn is_no_memory(reply: &Reply) -> bool {
    matches!(reply, Reply::NoMemory)
}

fn is_no_memory_now(reply: &Option<Reply>) -> bool {
    match reply {
        Some(reply) => is_no_memory(reply),
        None => false,
    }
}

// A kernel of two processes with one entry.
fn kernel_of<K: Machine>(heap: Heap) -> Result<K, Fail> {
    let mut kernel: K = kernel_of_two(heap, 20)?;
    drop(kernel.step(Pid(1), mkdir(heap, b"/z")?));
    Ok(kernel)
}

// How many entries a kernel has whose history passes the check.
fn entries_of<K: Machine>(heap: Heap, kernel: &K) -> Option<usize> {
    check(heap, kernel.history()).ok()?;
    Some(kernel.history().entries().len())
}

// Where this request for a turnstile is refused, how many entries the kernel has that comes back.
fn given_back<K: Machine>(heap: Heap, number: u64) -> Result<Option<usize>, Fail> {
    let kernel: K = kernel_of(heap)?;
    heap.refuse(number);
    let made = Turnstile::new(heap, kernel);
    heap.refuse(0);
    match made {
        Ok((turnstile, passes)) => {
            drop(turnstile.close(passes));
            Ok(None)
        }
        Err(kernel) => {
            let entries = entries_of(heap, &kernel);
            drop(kernel);
            Ok(entries)
        }
    }
}

// Each request is refused once, and then none is left.
#[test]
fn a_refused_turnstile_gives_the_kernel_back(rt: HostRuntime) -> Result<(), Fail> {
    let heap = heap::open(rt.alloc())?;
    let mut refused = 0u64;
    for number in 1..MOST {
        if let Some(entries) = given_back::<Kernel>(heap, number)? {
            assert_eq!(rt; entries, 1);
            assert_eq!(rt; refused, number - 1);
            refused = number;
        }
    }
    assert!(rt; 0 < refused && refused < 100);
    Ok(())
}

// Makes `/a` by a pass, with this request refused. Answers whether it was refused memory.
fn is_refused<K: Machine>(
    heap: Heap,
    turnstile: &Turnstile<K>,
    pass: &mut Pass<K>,
    number: u64,
) -> bool
    requires { pass.old.gate ≡ turnstile.now }
    ensures { pass.new.gate ≡ pass.old.gate }
{
    match mkdir(heap, b"/a") {
        Ok(op) => {
            heap.refuse(number);
            let refused = inspect(turnstile.try_call(pass, op), is_no_memory_now);
            heap.refuse(0);
            refused
        }
        Err(_) => false,
    }
}

// Makes `/a` by a pass, with each request refused in turn until it is made. Answers how many were.
fn refusals<K: Machine>(heap: Heap, turnstile: &Turnstile<K>, pass: &mut Pass<K>) -> u64
    requires { pass.old.gate ≡ turnstile.now }
    ensures { pass.new.gate ≡ pass.old.gate }
{
    for number in 1..MOST {
        if !is_refused(heap, turnstile, pass, number) {
            return number - 1;
        }
    }
    MOST
}

// How many requests were refused, and how many entries there are then.
fn called<K: Machine>(heap: Heap, kernel: K) -> Option<(u64, usize)> {
    let Opened {
        turnstile,
        one,
        mut two,
    } = begun(heap, kernel)?;
    let refused = refusals(heap, &turnstile, &mut two);
    let kernel = turnstile.close(Vec::from_array(heap, [one, two]).ok()?)?;
    let entries = entries_of(heap, &kernel);
    drop(kernel);
    Some((refused, entries?))
}

// The same of a new kernel.
fn refused_and_made<K: Machine>(heap: Heap) -> Result<Option<(u64, usize)>, Fail> {
    let kernel: K = kernel_of(heap)?;
    Ok(called(heap, kernel))
}

#[test]
fn a_refused_call_is_no_entry(rt: HostRuntime) -> Result<(), Fail> {
    let heap = heap::open(rt.alloc())?;
    match refused_and_made::<Kernel>(heap)? {
        Some((refused, entries)) => {
            assert!(rt; 0 < refused && refused < MOST);
            assert_eq!(rt; entries, 2);
        }
        None => return Err(Fail::from("no kernel came back")),
    }
    Ok(())
}
