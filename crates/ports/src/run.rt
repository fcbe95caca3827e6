// A kernel whose processes are worked for by threads.
ghost use Rattle.std.specs.Prelude.{◌≡◌, ◌≤◌, [], All, IfOk, map};
ghost use Rattle.ids.specs.declared.limits.TheConstants.{LARGEST_FILE, MAX_ENTRIES};
ghost use Rattle.ports.specs.Ports.{done_by};
ghost use Rattle.ports.specs.Runs.{IsRunByThreads};
ghost use Rattle.turnstile.specs.Histories.{Begins};
ghost use Rattle.workers.specs.Families.{AreFamilies};

use crate::TurnstilePort;
use heap::Heap;
use ids::Limits;
use machine::Machine;
use script::Script;
use std::alloc::AllocError;
use std::collections::VecDeque;
use std::sync::Wait;
use std::thread::Threads;
use turnstile::{Pass, Turnstile};
use workers::{WorkFault, run_workers};

// A port for each pass.
fn ports_of<'a, K: Machine>(
    heap: Heap,
    turnstile: &'a Turnstile<K>,
    passes: Vec<Pass<K>, Heap>,
) -> Result<Vec<TurnstilePort<'a, K>, Heap>, AllocError>
    requires gates { All (λ p. p.gate ≡ turnstile.now) passes.items }
    requires begun { All (λ p. p.seen ≡ p.gate.start) passes.items }
    requires fresh { turnstile.now.start.entries ≡ [] }
    ensures { IfOk result (λ ports. ports.items ≡ passes.entry.items) }
{
    let mut passes = VecDeque::from(passes);
    let mut ports = Vec::new(heap);
    while let Some(pass) = passes.pop_front() {
        ports.push(TurnstilePort::new(turnstile, pass))?;
    }
    Ok(ports)
}

// The passes of ports.
fn passes_of<K: Machine>(
    heap: Heap,
    ports: Vec<TurnstilePort<K>, Heap>,
) -> Result<Vec<Pass<K>, Heap>, AllocError>
    ensures same { IfOk result (λ passes. passes.items ≡ ports.entry.items) }
    ensures begun { IfOk result (λ passes. All (λ p. Begins p.gate.start p.seen) passes.items) }
{
    let mut ports = VecDeque::from(ports);
    let mut passes = Vec::new(heap);
    while let Some(port) = ports.pop_front() {
        passes.push(port.into_pass())?;
    }
    Ok(passes)
}

// Has the lines of each process done in a thread of its own. The passes come back, family by family.
fn worked<R: Threads + Wait + Sync, K: Machine + Send>(
    rt: &R,
    heap: Heap,
    turnstile: &Turnstile<K>,
    passes: Vec<Pass<K>, Heap>,
    script: &Script,
) -> Result<Vec<Pass<K>, Heap>, WorkFault>
    requires gates { All (λ p. p.gate ≡ turnstile.now) passes.items }
    requires begun { All (λ p. p.seen ≡ p.gate.start) passes.items }
    requires fresh { turnstile.now.start.entries ≡ [] }
    ensures families { IfOk result (λ v. AreFamilies (λ p. p.pid) (λ p. p.gate) done_by
        script.now.lines turnstile.now (map (λ p. p.pid) passes.entry.items) v.items) }
    ensures begun { IfOk result (λ v. All (λ p. Begins p.gate.start p.seen) v.items) }
{
    let Ok(ports) = ports_of(heap, turnstile, passes) else {
        return Err(WorkFault::NoMemory);
    };
    let ports = run_workers(rt, heap, ports, script)?;
    match passes_of(heap, ports) {
        Ok(passes) => Ok(passes),
        Err(_) => Err(WorkFault::NoMemory),
    }
}

/// Runs a script on a fresh kernel with these limits, with a thread for each process, children too,
/// and joins them all. Returns the kernel. The fault is that of the lowest process whose worker
/// was stopped by a refusal, or for which no thread could be started.
pub fn run_threads<K: Machine + Send, R: Threads + Wait + Sync>(
    rt: &R,
    heap: Heap,
    script: &Script,
    limits: Limits,
) -> Result<K, WorkFault>
    requires limited { limits.entries ≤ MAX_ENTRIES }
    requires files { limits.file_bytes ≤ LARGEST_FILE }
    ensures { IfOk result (λ kernel. IsRunByThreads script.now limits (K.shown kernel).log) }
{
    let Ok((turnstile, passes)) = Turnstile::with_limits(heap, script.priorities(), limits) else {
        return Err(WorkFault::NoMemory);
    };
    let passes = worked(rt, heap, &turnstile, passes, script)?;
    match turnstile.close(passes) {
        Some(kernel) => Ok(kernel),
        None => Err(WorkFault::NoMemory),
    }
}
