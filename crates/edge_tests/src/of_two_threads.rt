// Two threads, each with its own process, and transactions on one kernel.
ghost use Rattle.std.specs.Prelude.{◌≡◌};

use crate::of_turnstile::{Opened, begun, kernel_of_two, mkdir};
use crate::texts::inspect;
use heap::Heap;
use ids::{Answer, BeginFlags, Entry, Op, Pid, Reply};
use kernel::Kernel;
use machine::Machine;
use replay::check;
use std::process::Abort;
use std::sync::Wait;
use std::test::Fail;
use std::thread::{Threads, join};
use turnstile::{Pass, Turnstile};

// How many transactions each of them does, of three operations.
const TRANSACTIONS: u64 = 500;

// A path of one name: the letter, and three digits.
fn path(letter: u8, number: u64) -> [u8; 5] {
    let hundreds = number / 100 % 10;
    let tens = number / 10 % 10;
    let ones = number % 10;
    [
        b'/',
        letter,
        b'0' + hundreds as u8,
        b'0' + tens as u8,
        b'0' + ones as u8,
    ]
}

fn is_well(reply: &Reply) -> bool {
    matches!(
        reply,
        Reply::Begun | Reply::Committed | Reply::Answer(Answer::Done)
    )
}

// Does an operation, and waits for the other thread.
fn call<K: Machine, R: Wait + Abort>(rt: &R, turnstile: &Turnstile<K>, pass: &mut Pass<K>, op: Op)
    requires { pass.old.gate ≡ turnstile.now }
    ensures { pass.new.gate ≡ pass.old.gate }
{
    assert!(rt; inspect(turnstile.call(rt, pass, op), is_well));
}

// A transaction that makes a directory.
fn transact<K: Machine, R: Wait + Abort>(
    rt: &R,
    turnstile: &Turnstile<K>,
    pass: &mut Pass<K>,
    mkdir: Op,
)
    requires { pass.old.gate ≡ turnstile.now }
    ensures { pass.new.gate ≡ pass.old.gate }
{
    call(rt, turnstile, pass, Op::Begin(BeginFlags::none()));
    call(rt, turnstile, pass, mkdir);
    call(rt, turnstile, pass, Op::End);
}

fn transacted<K: Machine, R: Wait + Abort>(
    rt: &R,
    heap: Heap,
    turnstile: &Turnstile<K>,
    mut pass: Pass<K>,
    letter: u8,
) -> Pass<K>
    requires { pass.gate ≡ turnstile.now }
    ensures { result.gate ≡ pass.gate }
{
    for number in 0..TRANSACTIONS {
        let op = mkdir(heap, &path(letter, number)).expect(rt, "memory");
        transact(rt, turnstile, &mut pass, op);
    }
    pass
}

fn both_transacted<R: Threads + Wait + Abort + Sync, K: Machine + Send>(
    rt: &R,
    heap: Heap,
    turnstile: &Turnstile<K>,
    one: Pass<K>,
    two: Pass<K>,
) -> (Pass<K>, Pass<K>)
    requires one { one.gate ≡ turnstile.now }
    requires two { two.gate ≡ turnstile.now }
    ensures { (result.0.gate ≡ turnstile.now) × (result.1.gate ≡ turnstile.now) }
{
    join(
        rt,
        || -> Pass<K>
            requires { one.gate ≡ turnstile.now }
            ensures { result.gate ≡ turnstile.entry.now }
        { transacted(rt, heap, turnstile, one, b'a') },
        || -> Pass<K>
            requires { two.gate ≡ turnstile.now }
            ensures { result.gate ≡ turnstile.entry.now }
        { transacted(rt, heap, turnstile, two, b'b') },
    )
}

// The kernel after both have worked, and have met.
fn shared<K: Machine + Send, R: Threads + Wait + Abort + Sync>(
    rt: &R,
    heap: Heap,
    opened: Opened<K>,
) -> Option<K>
    requires one { opened.one.gate ≡ opened.turnstile }
    requires two { opened.two.gate ≡ opened.turnstile }
{
    let Opened {
        turnstile,
        one,
        two,
    } = opened;
    let (mut one, mut two) = both_transacted(rt, heap, &turnstile, one, two);
    turnstile.meet(&mut one, &mut two);
    let passes = Vec::from_array(heap, [one, two]).ok()?;
    turnstile.close(passes)
}

fn entries_of(entries: &[Entry], pid: Pid) -> usize {
    let mut count = 0usize;
    for entry in entries {
        if entry.pid == pid {
            count = count.wrapping_add(1);
        }
    }
    count
}

// How many entries each process has, and whether the history passes the check.
fn told<K: Machine>(heap: Heap, kernel: &K) -> (usize, usize, bool) {
    let entries = kernel.history().entries();
    let ones = entries_of(entries, Pid(1));
    let twos = entries_of(entries, Pid(2));
    let passes = check(heap, kernel.history()).is_ok();
    (ones, twos, passes && entries.len() == 3000)
}

fn done<K: Machine + Send, R: Threads + Wait + Abort + Sync>(
    rt: &R,
    heap: Heap,
    kernel: K,
) -> Option<(usize, usize, bool)> {
    let opened = begun(heap, kernel)?;
    let kernel = shared(rt, heap, opened)?;
    let found = told(heap, &kernel);
    drop(kernel);
    Some(found)
}

// The same of a new kernel.
fn all_told<K: Machine + Send, R: Threads + Wait + Abort + Sync>(
    rt: &R,
    heap: Heap,
) -> Result<Option<(usize, usize, bool)>, Fail> {
    let kernel: K = kernel_of_two(heap, 4000)?;
    Ok(done(rt, heap, kernel))
}

#[test]
fn two_threads_one_kernel(rt: HostRuntime) -> Result<(), Fail> {
    let heap = heap::open(rt.alloc())?;
    assert!(rt; all_told::<Kernel, _>(&rt, heap)? == Some((1500, 1500, true)));
    Ok(())
}
