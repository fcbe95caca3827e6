// The threads of workers, and the ports that come back.
ghost use Rattle.std.specs.Prelude.{◌≡◌, ◌<◌, ◌≤◌, ◌⊎◌, ◌++◌, [], ◌∷◌, true, false, map, All, IfOk, IfSome, None};
ghost use Rattle.std.specs.Thread.{IsSync};
ghost use Rattle.script.specs.Steps.{ops_for};
ghost use Rattle.workers.specs.Families.{AreFamilies, HaveOneHome, children};
ghost use Rattle.workers.specs.Threads.{Added, AreOver, IsNew, Returned, promised, promises};
ghost use Rattle.workers.specs.Work.{IsWork};

use crate::lines::{Lines, ScriptLines};
use crate::worker::{Event, run_on};
use crate::{Port, Position, WorkFault};
use heap::Heap;
use ids::{MAX_PROCESSES, Pid};
use script::Script;
use std::alloc::Allocator;
use std::collections::VecDeque;
use std::snapshot::Snapshot;
use std::sync::Wait;
use std::thread;
use std::thread::{Promise, PromisedHandle, Scope, Threads};

// Why a worker stopped, and of which process.
type Stop = (Pid, WorkFault);

// The port of a process and those of its children, family by family. Where one of their workers was
// stopped, some may be missing.
#[derive(Drop)]
struct Family<P, A: Allocator> {
    process: Pid,
    ports: Vec<P, A>,
    stop: Option<Stop>,
}

// A thread gives back the family of this process.
#[derive(Drop)]
struct FamilyOf<L> {
    process: Pid,
    lines: Snapshot<L>,
}

impl<L> FamilyOf<L> {
    fn new(process: Pid, lines: &L) -> FamilyOf<L>
        ensures { (result.process ≡ process) × (result.lines.value ≡ lines.now) }
    {
        FamilyOf {
            process,
            lines: Snapshot::of(lines),
        }
    }
}

impl<P: Port, L: Lines<P>, A: Allocator> Promise<Family<P, A>> for FamilyOf<L> {
    ghost kept_by = { λ p family. Returned
        P.number P.home P.done (L.listed p.lines.value) (P.home (L.port p.lines.value))
        (p.process ∷ []) family };
}

// The stop of the lower process.
fn lower(first: Option<Stop>, second: Option<Stop>) -> Option<Stop>
    ensures none { result ≡ None → (first ≡ None) × (second ≡ None) }
    ensures one { (result ≡ first) ⊎ (result ≡ second) }
    ensures lowest { IfSome result (λ stop. IfSome first (λ s. stop.0 ≤ s.0)
        × IfSome second (λ s. stop.0 ≤ s.0)) }
{
    match (first, second) {
        (Some(one), Some(other)) => Some(if other.0 < one.0 { other } else { one }),
        (Some(one), None) => Some(one),
        (None, second) => second,
    }
}

// Joins threads, and adds the families that they give back behind the ports that are there.
fn collected<R: Threads, P: Port, L: Lines<P>, A: Allocator>(
    rt: &R,
    process: Pid,
    mut ports: Vec<P, A>,
    lines: &L,
    mut stop: Option<Stop>,
    mut threads: VecDeque<PromisedHandle<Family<P, A>, FamilyOf<L>>, A>,
) -> Family<P, A>
    requires over { AreOver lines.now threads.items }
    ensures none { result.stop ≡ None → stop ≡ None }
    ensures added { result.stop ≡ None → Added P.number P.home P.done
        (L.listed lines.now) (P.home (L.port lines.now))
        (promised threads.items) ports.items result.ports.items }
{
    while let Some(thread) = threads.pop_front() {
        let mut family = thread.join(rt);
        stop = lower(stop, family.stop);
        if ports.append(&mut family.ports).is_err() {
            stop = lower(stop, Some((family.process, WorkFault::NoMemory)));
        }
    }
    Family {
        process,
        ports,
        stop,
    }
}

// The port of a process that has done its work, with the families that its threads give back.
fn gathered<R: Threads, P: Port, L: Lines<P>, A: Allocator>(
    rt: &R,
    alloc: A,
    port: P,
    lines: &L,
    stop: Option<Stop>,
    threads: VecDeque<PromisedHandle<Family<P, A>, FamilyOf<L>>, A>,
) -> Family<P, A>
    requires work { stop ≡ None → IsWork (ops_for (P.number port) (L.listed lines.now)) (P.done port) }
    requires home { P.home port ≡ P.home (L.port lines.now) }
    requires threads { stop ≡ None → promised threads.items ≡ children (P.done port) }
    requires over { AreOver lines.now threads.items }
    ensures { Returned P.number P.home P.done (L.listed lines.now) (P.home (L.port lines.now))
        (P.number port ∷ []) result }
{
    let process = port.pid();
    let mut ports = Vec::new(alloc);
    let stop = match ports.push(port) {
        Ok(()) => stop,
        Err(_) => lower(stop, Some((process, WorkFault::NoMemory))),
    };
    collected(rt, process, ports, lines, stop, threads)
}

// Starts a thread that keeps a promise, and puts its handle behind the others. Answers whether it was
// started: what is there stays where it was not.
fn start<
    's,
    E,
    T: Send + Drop + 's,
    Q: Promise<T> + Drop,
    A: Allocator,
    F: FnOnce() -> T + Send + 's,
>(
    scope: &Scope<'s, E>,
    promise: Q,
    threads: &mut VecDeque<PromisedHandle<T, Q>, A>,
    work: F,
) -> bool
    requires runs { F.pre work }
    requires keeps { (given : T) → F.post work given → Q.kept_by promise given }
    ensures started { result ≡ true
        → promises threads.new.items ≡ promises threads.old.items ++ promise ∷ [] }
    ensures refused { result ≡ false → threads.new.items ≡ threads.old.items }
{
    if threads.reserve(1).is_err() {
        return false;
    }
    match scope.spawn_with(promise, work) {
        Ok(thread) => {
            threads.push_back_reserved(thread);
            true
        }
        Err(_) => false,
    }
}

// Does the work of a process, and starts a thread for each of its children. Their families may be
// so many levels deep. Its allocator is a type of its own: a thread that starts threads like itself
// cannot be given a `'static` reference.
fn work<
    R: Threads + Wait + Sync,
    P: Port + Send,
    L: Lines<P> + Sync,
    A: Allocator + Copy + Send + Sync,
>(rt: &R, alloc: A, port: P, lines: &L, levels: u32) -> Family<P, A>
    requires { IsNew P.home P.done (P.home (L.port lines.now)) port }
    ensures { Returned P.number P.home P.done (L.listed lines.now) (P.home (L.port lines.now))
        (P.number port ∷ []) result }
{
    thread::scope(
        thread::scope_env(),
        rt,
        |scope| -> Family<P, A>
            requires { IsSync R.row × IsNew P.home P.done (P.home (L.port lines.now)) port }
            ensures { Returned P.number P.home P.done (L.listed lines.entry.now)
                (P.home (L.port lines.entry.now)) (P.number port ∷ []) result }
        {
            let mut port = port;
            let mut position = Position::start(port.pid(), lines.all());
            let mut threads = VecDeque::new(alloc);
            let mut stop = None;
            for _ in rt.forever() {
                let (pid, child) = match run_on(rt, &mut port, &mut position) {
                    Event::Forked(pid, child) => (pid, child),
                    Event::Ended => break,
                    Event::Stopped(fault) => {
                        stop = lower(stop, Some((port.pid(), fault)));
                        break;
                    }
                };
                let promise = FamilyOf::new(pid, lines);
                let child_work = move || -> Family<P, A>
                    requires { IsSync R.row × (0 < levels)
                        × IsNew P.home P.done (P.home (L.port lines.now)) child }
                    ensures { Returned P.number P.home P.done (L.listed lines.entry.now)
                        (P.home (L.port lines.entry.now)) (P.number child ∷ []) result }
                { work(rt, alloc, child, lines, levels - 1) };
                if levels == 0 || !start(scope, promise, &mut threads, child_work) {
                    stop = lower(stop, Some((pid, WorkFault::NoMemory)));
                }
            }
            gathered(rt, alloc, port, lines, stop, threads)
        },
    )
}

// Starts a thread for each process in this scope, and joins them all.
fn work_all<
    's,
    E,
    R: Threads + Wait + Sync,
    P: Port + Send + 's,
    L: Lines<P> + Sync,
    A: Allocator + Copy + Send + Sync + 's,
>(scope: &Scope<'s, E>, rt: &'s R, alloc: A, ports: Vec<P, A>, lines: &'s L) -> Family<P, A>
    requires fresh { All (λ p. P.done p ≡ []) ports.items }
    requires home { All (λ p. P.home p ≡ P.home (L.port lines.now)) ports.items }
    ensures { Returned P.number P.home P.done (L.listed lines.now) (P.home (L.port lines.now))
        (map P.number ports.items) result }
{
    let mut ports = VecDeque::from(ports);
    let mut threads = VecDeque::new(alloc);
    let mut stop = None;
    while let Some(port) = ports.pop_front() {
        let process = port.pid();
        let promise = FamilyOf::new(process, lines);
        let port_work = move || -> Family<P, A>
            requires { IsSync R.row × IsNew P.home P.done (P.home (L.port lines.now)) port }
            ensures { Returned P.number P.home P.done (L.listed lines.entry.now)
                (P.home (L.port lines.entry.now)) (P.number port ∷ []) result }
        { work(rt, alloc, port, lines, MAX_PROCESSES) };
        if !start(scope, promise, &mut threads, port_work) {
            stop = lower(stop, Some((process, WorkFault::NoMemory)));
        }
    }
    collected(rt, Pid(0), Vec::new(alloc), lines, stop, threads)
}

// The families of all processes, or the fault of the lowest that was stopped.
fn run_all<
    R: Threads + Wait + Sync,
    P: Port + Send,
    L: Lines<P> + Sync,
    A: Allocator + Copy + Send + Sync,
>(rt: &R, alloc: A, ports: Vec<P, A>, lines: &L) -> Result<Vec<P, A>, WorkFault>
    requires fresh { All (λ p. P.done p ≡ []) ports.items }
    requires home { All (λ p. P.home p ≡ P.home (L.port lines.now)) ports.items }
    ensures { IfOk result (λ v. AreFamilies P.number P.home P.done
        (L.listed lines.now) (P.home (L.port lines.now))
        (map P.number ports.items) v.items) }
{
    let family = thread::scope(
        thread::scope_env(),
        rt,
        |scope| -> Family<P, A>
            requires { IsSync R.row × All (λ p. P.done p ≡ []) ports.items
                × All (λ p. P.home p ≡ P.home (L.port lines.now)) ports.items }
            ensures { Returned P.number P.home P.done (L.listed lines.entry.now)
                (P.home (L.port lines.entry.now)) (map P.number ports.items) result }
        { work_all(scope, rt, alloc, ports, lines) },
    );
    match family.stop {
        None => Ok(family.ports),
        Some((_, fault)) => Err(fault),
    }
}

/// Does the lines of the process of each port in a thread of its own, and those of the children
/// that its forks make. The ports come back family by family: the given ones in their order, each
/// followed by those of its children. The fault is that of the lowest process whose worker was
/// stopped by a refusal, or for which no thread could be started.
pub fn run_workers<R: Threads + Wait + Sync, P: Port + Send>(
    rt: &R,
    heap: Heap,
    ports: Vec<P, Heap>,
    script: &Script,
) -> Result<Vec<P, Heap>, WorkFault>
    requires fresh { All (λ p. P.done p ≡ []) ports.items }
    requires home { HaveOneHome P.home ports.items }
    ensures { IfOk result (λ v. (h : P.Home) → All (λ p. P.home p ≡ h) ports.entry.items
        → AreFamilies P.number P.home P.done script.now.lines h
        (map P.number ports.entry.items) v.items) }
{
    let Some(first) = ports.first() else {
        return Ok(ports);
    };
    let lines = ScriptLines {
        script,
        port: Snapshot::of(first),
    };
    run_all(rt, heap, ports, &lines)
}
