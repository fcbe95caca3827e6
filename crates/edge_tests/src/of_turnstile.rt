// A run through a turnstile, by one thread and then by two.
ghost use Rattle.std.specs.Prelude.{◌≡◌, All, IfSome};
ghost use Rattle.turnstile.specs.Passes.{Gate};

use crate::texts::inspect;
use heap::Heap;
use ids::{Answer, Bytes, Call, Entry, Kind, Op, Pid, Priority, Reply};
use kernel::Kernel;
use machine::Machine;
use std::alloc::AllocError;
use std::process::Abort;
use std::sync::Wait;
use std::test::Fail;
use std::thread::{Threads, join};
use turnstile::{Pass, Turnstile};

// A path of one name: the letter, and two digits.
fn path(letter: u8, number: u64) -> [u8; 4] {
    let tens = number / 10 % 10;
    let ones = number % 10;
    [b'/', letter, b'0' + tens as u8, b'0' + ones as u8]
}

pub(crate) fn mkdir(heap: Heap, path: &[u8]) -> Result<Op, AllocError> {
    Ok(Op::Call(Call::Mkdir(Bytes::copy(heap, path)?)))
}

fn stat(heap: Heap, path: &[u8]) -> Result<Op, AllocError> {
    Ok(Op::Call(Call::Stat(Bytes::copy(heap, path)?)))
}

// A kernel of two processes, with a history of so many entries.
pub(crate) fn kernel_of_two<K: Machine>(heap: Heap, limit: usize) -> Result<K, Fail> {
    let zero = Priority::new(0).ok_or("no priority")?;
    Ok(K::new(heap, &[zero, zero], limit.min(4000))?)
}

// A turnstile with the passes of its two processes.
pub(crate) struct Opened<K: Machine> {
    pub(crate) turnstile: Turnstile<K>,
    pub(crate) one: Pass<K>,
    pub(crate) two: Pass<K>,
}

// The first of two passes, and the second.
fn two_of<K: Machine>(passes: &mut Vec<Pass<K>, Heap>) -> Option<(Pass<K>, Pass<K>)>
    ensures { (gate : Gate) → All (λ p. p.gate ≡ gate) passes.old.items
        → IfSome result (λ two. (two.0.gate ≡ gate) × (two.1.gate ≡ gate)) }
{
    let two = passes.pop()?;
    let one = passes.pop()?;
    Some((one, two))
}

pub(crate) fn begun<K: Machine>(heap: Heap, kernel: K) -> Option<Opened<K>>
    ensures one { IfSome result (λ o. o.one.gate ≡ o.turnstile) }
    ensures two { IfSome result (λ o. o.two.gate ≡ o.turnstile) }
{
    match Turnstile::new(heap, kernel) {
        Ok((turnstile, passes)) => with_two(turnstile, passes),
        Err(kernel) => {
            drop(kernel);
            None
        }
    }
}

fn with_two<K: Machine>(
    turnstile: Turnstile<K>,
    mut passes: Vec<Pass<K>, Heap>,
) -> Option<Opened<K>>
    requires { All (λ p. p.gate ≡ turnstile) passes.items }
    ensures one { IfSome result (λ o. o.one.gate ≡ o.turnstile) }
    ensures two { IfSome result (λ o. o.two.gate ≡ o.turnstile) }
{
    let (one, two) = two_of(&mut passes)?;
    Some(Opened {
        turnstile,
        one,
        two,
    })
}

fn is_done(reply: &Reply) -> bool {
    matches!(reply, Reply::Answer(Answer::Done))
}

fn is_done_now(reply: &Option<Reply>) -> bool {
    match reply {
        Some(reply) => is_done(reply),
        None => false,
    }
}

fn is_directory(reply: &Option<Reply>) -> bool {
    match reply {
        Some(Reply::Answer(Answer::Stat(stat))) => stat.kind == Kind::Dir,
        _ => false,
    }
}

// Makes `/a` at once. Answers whether it was done.
fn makes<K: Machine>(heap: Heap, turnstile: &Turnstile<K>, pass: &mut Pass<K>) -> bool
    requires { pass.old.gate ≡ turnstile.now }
    ensures { pass.new.gate ≡ pass.old.gate }
{
    match mkdir(heap, b"/a") {
        Ok(op) => inspect(turnstile.try_call(pass, op), is_done_now),
        Err(_) => false,
    }
}

// Looks at `/a` at once. Answers whether it is a directory.
fn sees<K: Machine>(heap: Heap, turnstile: &Turnstile<K>, pass: &mut Pass<K>) -> bool
    requires { pass.old.gate ≡ turnstile.now }
    ensures { pass.new.gate ≡ pass.old.gate }
{
    match stat(heap, b"/a") {
        Ok(op) => inspect(turnstile.try_call(pass, op), is_directory),
        Err(_) => false,
    }
}

fn is_third(reply: &Reply) -> bool {
    matches!(reply, Reply::Answer(Answer::Child(Pid(3))))
}

fn is_third_now(reply: &Option<Reply>) -> bool {
    match reply {
        Some(reply) => is_third(reply),
        None => false,
    }
}

fn is_fourth(reply: &Reply) -> bool {
    matches!(reply, Reply::Answer(Answer::Child(Pid(4))))
}

// Makes a directory, and waits for the other thread.
fn work<K: Machine, R: Wait + Abort>(rt: &R, turnstile: &Turnstile<K>, pass: &mut Pass<K>, op: Op)
    requires { pass.old.gate ≡ turnstile.now }
    ensures { pass.new.gate ≡ pass.old.gate }
{
    assert!(rt; inspect(turnstile.call(rt, pass, op), is_done));
}

// Makes a hundred directories, and waits at each for the other thread.
fn worked<K: Machine, R: Wait + Abort>(
    rt: &R,
    heap: Heap,
    turnstile: &Turnstile<K>,
    mut pass: Pass<K>,
    letter: u8,
) -> Pass<K>
    requires { pass.gate ≡ turnstile.now }
    ensures { result.gate ≡ pass.gate }
{
    for number in 0..100u64 {
        let op = mkdir(heap, &path(letter, number)).expect(rt, "memory");
        work(rt, turnstile, &mut pass, op);
    }
    pass
}

fn both_worked<R: Threads + Wait + Abort + Sync, K: Machine + Send>(
    rt: &R,
    heap: Heap,
    turnstile: &Turnstile<K>,
    one: Pass<K>,
    two: Pass<K>,
) -> (Pass<K>, Pass<K>)
    requires one { one.gate ≡ turnstile.now }
    requires two { two.gate ≡ turnstile.now }
    ensures { (result.0.gate ≡ turnstile.now) × (result.1.gate ≡ turnstile.now) }
{
    join(
        rt,
        || -> Pass<K>
            requires { one.gate ≡ turnstile.now }
            ensures { result.gate ≡ turnstile.entry.now }
        { worked(rt, heap, turnstile, one, b'a') },
        || -> Pass<K>
            requires { two.gate ≡ turnstile.now }
            ensures { result.gate ≡ turnstile.entry.now }
        { worked(rt, heap, turnstile, two, b'b') },
    )
}

// The first process makes a directory, the second sees it, and they meet. Nobody waits.
fn assert_met<K: Machine>(
    rt: &impl Abort,
    heap: Heap,
    turnstile: &Turnstile<K>,
    one: &mut Pass<K>,
    two: &mut Pass<K>,
)
    requires { (one.old.gate ≡ turnstile.now) × (two.old.gate ≡ turnstile.now) }
    ensures { (one.new.gate ≡ turnstile.now) × (two.new.gate ≡ turnstile.now) }
{
    assert!(rt; one.pid() == Pid(1) && two.pid() == Pid(2));
    assert!(rt; makes(heap, turnstile, one));
    assert!(rt; sees(heap, turnstile, two));
    turnstile.meet(one, two);
}

// The kernel after its two processes have met in one thread.
fn met<K: Machine>(rt: &impl Abort, heap: Heap, opened: Opened<K>) -> Option<K>
    requires one { opened.one.gate ≡ opened.turnstile }
    requires two { opened.two.gate ≡ opened.turnstile }
{
    let Opened {
        turnstile,
        mut one,
        mut two,
    } = opened;
    assert_met(rt, heap, &turnstile, &mut one, &mut two);
    let passes = Vec::from_array(heap, [one, two]).ok()?;
    turnstile.close(passes)
}

// The kernel after its two processes have met in one thread, and have worked in one each.
fn shared<K: Machine + Send, R: Threads + Wait + Abort + Sync>(
    rt: &R,
    heap: Heap,
    opened: Opened<K>,
) -> Option<K>
    requires one { opened.one.gate ≡ opened.turnstile }
    requires two { opened.two.gate ≡ opened.turnstile }
{
    let Opened {
        turnstile,
        mut one,
        mut two,
    } = opened;
    assert_met(rt, heap, &turnstile, &mut one, &mut two);
    let (one, two) = both_worked(rt, heap, &turnstile, one, two);
    let passes = Vec::from_array(heap, [one, two]).ok()?;
    turnstile.close(passes)
}

// The kernel after each process has forked, one of them without waiting, and the second has made a
// directory.
fn forked<K: Machine, R: Wait + Abort>(rt: &R, heap: Heap, opened: Opened<K>) -> Option<K>
    requires one { opened.one.gate ≡ opened.turnstile }
    requires two { opened.two.gate ≡ opened.turnstile }
{
    let Opened {
        turnstile,
        mut one,
        mut two,
    } = opened;
    assert!(rt;
        inspect(
            turnstile.try_call(&mut one, Op::Call(Call::Fork)),
            is_third_now
        )
    );
    assert!(rt;
        inspect(
            turnstile.call(rt, &mut two, Op::Call(Call::Fork)),
            is_fourth
        )
    );
    assert!(rt; makes(heap, &turnstile, &mut two));
    let passes = Vec::from_array(heap, [one, two]).ok()?;
    turnstile.close(passes)
}

// How many entries there are, how many processes were made, and whether the children live.
fn families<K: Machine>(kernel: &K) -> (usize, usize, bool) {
    let both = kernel.is_living(Pid(3)) && kernel.is_living(Pid(4));
    (kernel.history().entries().len(), kernel.made(), both)
}

// What two processes and their children have come to.
fn family<K: Machine, R: Wait + Abort>(
    rt: &R,
    heap: Heap,
    kernel: K,
) -> Option<(usize, usize, bool)> {
    let opened = begun(heap, kernel)?;
    Some(inspect(forked(rt, heap, opened)?, families))
}

fn makes_path(op: &Op, path: &[u8]) -> bool {
    match op {
        Op::Call(Call::Mkdir(bytes)) => bytes.as_slice() == path,
        _ => false,
    }
}

// How many directories a process has made under its letter, in order.
fn count(entries: &[Entry], pid: Pid, letter: u8) -> u64 {
    let mut count = 0u64;
    for entry in entries {
        if entry.pid == pid && makes_path(&entry.op, &path(letter, count)) {
            count = count.wrapping_add(1);
        }
    }
    count
}

// How many entries there are, and how many directories each process has made in order.
fn counts<K: Machine>(kernel: &K) -> (usize, u64, u64) {
    let entries = kernel.history().entries();
    let ones = count(entries, Pid(1), b'a');
    let twos = count(entries, Pid(2), b'b');
    (entries.len(), ones, twos)
}

// What the two processes have done.
fn done<K: Machine + Send, R: Threads + Wait + Abort + Sync>(
    rt: &R,
    heap: Heap,
    kernel: K,
) -> Option<(usize, u64, u64)> {
    let opened = begun(heap, kernel)?;
    Some(inspect(shared(rt, heap, opened)?, counts))
}

fn entry_count<K: Machine>(kernel: &K) -> usize {
    kernel.history().entries().len()
}

// How many entries the two processes have made that have met in one thread.
fn meeting<K: Machine>(rt: &impl Abort, heap: Heap, kernel: K) -> Option<usize> {
    let opened = begun(heap, kernel)?;
    Some(inspect(met(rt, heap, opened)?, entry_count))
}

// The same of a new kernel.
fn entries_after_meeting<K: Machine, R: Abort>(rt: &R, heap: Heap) -> Result<Option<usize>, Fail> {
    let kernel: K = kernel_of_two(heap, 2)?;
    Ok(meeting(rt, heap, kernel))
}

// What the two processes of a new kernel have done.
fn all_counts<K: Machine + Send, R: Threads + Wait + Abort + Sync>(
    rt: &R,
    heap: Heap,
) -> Result<Option<(usize, u64, u64)>, Fail> {
    let kernel: K = kernel_of_two(heap, 202)?;
    Ok(done(rt, heap, kernel))
}

// What the two processes of a new kernel and their children have come to.
fn all_families<K: Machine, R: Wait + Abort>(
    rt: &R,
    heap: Heap,
) -> Result<Option<(usize, usize, bool)>, Fail> {
    let kernel: K = kernel_of_two(heap, 10)?;
    Ok(family(rt, heap, kernel))
}

#[test]
fn two_passes_meet_in_one_thread(rt: HostRuntime) -> Result<(), Fail> {
    let heap = heap::open(rt.alloc())?;
    assert!(rt; entries_after_meeting::<Kernel, _>(&rt, heap)? == Some(2));
    Ok(())
}

#[test]
fn one_thread_and_two(rt: HostRuntime) -> Result<(), Fail> {
    let heap = heap::open(rt.alloc())?;
    assert!(rt; all_counts::<Kernel, _>(&rt, heap)? == Some((202, 100, 100)));
    Ok(())
}

// A child that is made by a call has no pass, and the run goes on.
#[test]
fn children_have_no_pass(rt: HostRuntime) -> Result<(), Fail> {
    let heap = heap::open(rt.alloc())?;
    assert!(rt; all_families::<Kernel, _>(&rt, heap)? == Some((3, 4, true)));
    Ok(())
}
