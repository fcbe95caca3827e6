// Workers over ports that answer by a manner of their own.
ghost use Rattle.std.specs.Prelude.{◌≡◌, ◌++◌, ◌∷◌, [], IfOk, All, ℕ, false, true};
ghost use Rattle.workers.specs.Families.{HaveOneHome};
ghost use Rattle.workers.specs.Port.{IsNoChild, grown};

use heap::Heap;
use ids::{Answer, Aspect, Call, Cause, Num, Op, Pid, Reply, Touch, Why};
use script::read_script;
use std::alloc::{AllocError, Global};
use std::sync::atomic::{AtomicU64, Ordering};
use std::sync::{Arc, Wait};
use std::test::Fail;
use std::thread;
use std::thread::Threads;
use workers::{Port, WorkFault, run_workers};

// How calls are answered, and ends of transactions.
#[derive(Clone, Copy)]
enum Manner {
    Done,
    Busy,
    Restarted,
    Aborted,
    AbortedAtEnd,
    Full,
    Refused,
    Gone,
}

// The list of what was done through a port.
type Entries = Vec<(Op, Reply), Heap>;

// A port whose replies come by its manner.
#[derive(Drop)]
struct Mannered {
    pid: Pid,
    manner: Manner,
    heap: Heap,
    entries: Entries,
}

fn touch() -> Touch {
    Touch {
        aspect: Aspect::Names(Num(0)),
        write: true,
    }
}

fn call_reply(manner: Manner) -> Reply
    ensures { IsNoChild result }
{
    match manner {
        Manner::Done | Manner::AbortedAtEnd => Reply::Answer(Answer::Done),
        Manner::Busy => Reply::Busy(Cause {
            touch: touch(),
            other: Pid(9),
        }),
        Manner::Restarted => Reply::Aborted {
            why: Why::Unsupported,
            restarted: true,
        },
        Manner::Aborted => Reply::Aborted {
            why: Why::Unsupported,
            restarted: false,
        },
        Manner::Full => Reply::HistoryFull,
        Manner::Refused => Reply::NoMemory,
        Manner::Gone => Reply::NoProcess,
    }
}

fn reply(manner: Manner, operation: &Op) -> Reply {
    match operation {
        Op::Call(_) => call_reply(manner),
        Op::Begin(_) => Reply::Begun,
        Op::End => match manner {
            Manner::AbortedAtEnd => call_reply(Manner::Aborted),
            _ => Reply::Committed,
        },
        Op::Abort { no_restart: _ } => Reply::GivenUp { restarted: false },
    }
}

// Adds an operation and its reply, unless it was refused. Where there is no memory it is refused.
fn kept(entries: &mut Entries, operation: Op, reply: Reply) -> Reply
    ensures grown { entries.new.items ≡ grown entries.old.items operation result }
    ensures childless { IsNoChild reply → IsNoChild result }
{
    if let Reply::HistoryFull | Reply::NoMemory = &reply {
        drop(operation);
        return reply;
    }
    let Ok(copy) = reply.try_clone() else {
        drop(operation);
        drop(reply);
        return Reply::NoMemory;
    };
    if is_added(entries, operation, copy) {
        return reply;
    }
    drop(reply);
    Reply::NoMemory
}

// Adds an operation and its reply. Answers whether there was memory.
fn is_added(entries: &mut Entries, operation: Op, reply: Reply) -> bool
    ensures added { result ≡ true → entries.new.items ≡ entries.old.items ++ (operation, reply) ∷ [] }
    ensures refused { result ≡ false → entries.new.items ≡ entries.old.items }
{
    entries.push((operation, reply)).is_ok()
}

impl Port for Mannered {
    ghost Home = { ℕ };

    ghost home = { λ p. 0 };

    ghost number = { λ p. p.pid };

    ghost done = { λ p. p.entries.items };

    fn pid(&self) -> Pid {
        self.pid
    }

    fn call<R: Wait>(&mut self, rt: &R, operation: Op) -> Reply {
        let reply = reply(self.manner, &operation);
        kept(&mut self.entries, operation, reply)
    }

    // The first child of 1 is 10, the second 11; the first one's child is 100.
    fn fork<R: Wait>(&mut self, rt: &R) -> Result<(Pid, Self), Reply> {
        let Manner::Done = self.manner else {
            return Err(kept(
                &mut self.entries,
                Op::Call(Call::Fork),
                call_reply(self.manner),
            ));
        };
        let brothers = if self.entries.is_empty() { 0 } else { 1 };
        let pid = Pid(self.pid.0.wrapping_mul(10).wrapping_add(brothers));
        let reply = Reply::Answer(Answer::Child(pid));
        if is_added(&mut self.entries, Op::Call(Call::Fork), reply) {
            Ok((pid, fresh(self.heap, pid, self.manner)))
        } else {
            Err(Reply::NoMemory)
        }
    }
}

fn fresh(heap: Heap, pid: Pid, manner: Manner) -> Mannered
    ensures number { result.pid ≡ pid }
    ensures fresh { result.entries.items ≡ [] }
{
    Mannered {
        pid,
        manner,
        heap,
        entries: Vec::new(heap),
    }
}

fn letter(operation: &Op) -> u8 {
    match operation {
        Op::Call(Call::Fork) => b'f',
        Op::Call(_) => b'c',
        Op::Begin(_) => b'b',
        Op::End => b'e',
        Op::Abort { no_restart: _ } => b'a',
    }
}

// Whether these are the letters of the operations, with a letter but once where it is repeated.
fn have_letters(entries: &[(Op, Reply)], letters: &[u8]) -> bool {
    let mut rest = letters;
    let mut last = 0u8;
    for entry in entries {
        let letter = letter(&entry.0);
        if letter != last {
            match rest.split_first() {
                Some((first, behind)) => {
                    if *first != letter {
                        return false;
                    }
                    rest = behind;
                }
                None => return false,
            }
            last = letter;
        }
    }
    rest.is_empty()
}

// What comes back of a process: its number, its letters, and the length of its list.
type Told = (u32, &'static str, usize);

fn is_told(port: &Mannered, told: &Told) -> bool {
    port.pid.0 == told.0
        && have_letters(port.entries.as_slice(), told.1.as_bytes())
        && port.entries.len() == told.2
}

fn are_told(ports: &[Mannered], told: &[Told]) -> bool {
    if ports.len() != told.len() {
        return false;
    }
    for i in 0..told.len() {
        if !is_told(&ports[i], &told[i]) {
            return false;
        }
    }
    true
}

static FAMILIES: [Told; 6] = [
    (1, "f", 2),
    (10, "f", 1),
    (100, "c", 1),
    (11, "c", 1),
    (2, "fc", 2),
    (20, "", 0),
];

static BUSY: [Told; 2] = [(1, "cb", 102), (2, "c", 101)];

static RESTARTED: [Told; 2] = [(1, "bcab", 104), (2, "bce", 3)];

static ABORTED: [Told; 2] = [(1, "bcb", 3), (2, "beb", 3)];

static GONE: [Told; 2] = [(1, "c", 1), (2, "bc", 2)];

// Manners of processes 1 and 2, a script, and the fault of its run.
static FAULTS: [(Manner, Manner, &str, WorkFault); 4] = [
    (
        Manner::Full,
        Manner::Refused,
        "priorities 0\n1 stat /\n2 stat /\n",
        WorkFault::HistoryFull,
    ),
    (
        Manner::Refused,
        Manner::Full,
        "priorities 0\n1 stat /\n2 stat /\n",
        WorkFault::NoMemory,
    ),
    (
        Manner::Done,
        Manner::Full,
        "priorities 0\n1 stat /\n2 begin\n2 stat /\n",
        WorkFault::HistoryFull,
    ),
    (
        Manner::Refused,
        Manner::Done,
        "priorities 0\n1 fork\n2 fork\n",
        WorkFault::NoMemory,
    ),
];

fn two(heap: Heap, manners: (Manner, Manner)) -> Result<Vec<Mannered, Heap>, AllocError>
    ensures fresh { IfOk result (λ ports. All (λ p. p.entries.items ≡ []) ports.items) }
    ensures home { IfOk result (λ ports. HaveOneHome {H = ℕ} (λ p. 0) ports.items) }
{
    let mut ports = Vec::new(heap);
    ports.push(fresh(heap, Pid(1), manners.0))?;
    ports.push(fresh(heap, Pid(2), manners.1))?;
    Ok(ports)
}

// What workers of two processes come to.
fn run<R: Threads + Wait + Sync>(
    rt: &R,
    heap: Heap,
    manners: (Manner, Manner),
    text: &str,
) -> Result<Result<Vec<Mannered, Heap>, WorkFault>, AllocError> {
    let ports = two(heap, manners)?;
    let Ok(script) = read_script(heap, text.as_bytes()) else {
        drop(ports);
        return Err(AllocError);
    };
    let run = run_workers(rt, heap, ports, &script);
    drop(script);
    Ok(run)
}

fn gives<R: Threads + Wait + Sync>(
    rt: &R,
    heap: Heap,
    manners: (Manner, Manner),
    text: &str,
    told: &[Told],
) -> Result<bool, AllocError> {
    Ok(match run(rt, heap, manners, text)? {
        Ok(ports) => {
            let right = are_told(ports.as_slice(), told);
            drop(ports);
            right
        }
        Err(_) => false,
    })
}

fn fails<R: Threads + Wait + Sync>(
    rt: &R,
    heap: Heap,
    case: &(Manner, Manner, &str, WorkFault),
) -> Result<bool, AllocError> {
    let (first, second, text, expected) = *case;
    Ok(match run(rt, heap, (first, second), text)? {
        Ok(ports) => {
            drop(ports);
            false
        }
        Err(fault) => fault == expected,
    })
}

#[test]
fn families_come_back_in_order(rt: HostRuntime) -> Result<(), Fail> {
    let heap = heap::open(rt.alloc())?;
    let text = "priorities 0\n1 fork\n2 fork\n1 fork\n10 fork\n100 stat /\n11 stat /\n2 stat /\n";
    assert!(rt; gives(&rt, heap, (Manner::Done, Manner::Done), text, &FAMILIES)?);
    Ok(())
}

#[test]
fn workers_keep_the_rules(rt: HostRuntime) -> Result<(), Fail> {
    let heap = heap::open(rt.alloc())?;
    let text = "priorities 0\n1 stat /\n1 begin\n2 stat /\n";
    assert!(rt; gives(&rt, heap, (Manner::Busy, Manner::Busy), text, &BUSY)?);
    let text = "priorities 0\n1 begin\n1 stat /\n1 stat /\n1 end\n1 begin\n\
        2 begin\n2 stat /\n2 end\n";
    assert!(rt;
        gives(
            &rt,
            heap,
            (Manner::Restarted, Manner::Done),
            text,
            &RESTARTED
        )?
    );
    let text = "priorities 0\n1 begin\n1 stat /\n1 stat /\n1 end\n1 begin\n\
        2 begin\n2 end\n2 begin\n";
    assert!(rt;
        gives(
            &rt,
            heap,
            (Manner::Aborted, Manner::AbortedAtEnd),
            text,
            &ABORTED
        )?
    );
    let text = "priorities 0\n1 stat /\n1 begin\n2 begin\n2 stat /\n2 end\n";
    assert!(rt; gives(&rt, heap, (Manner::Gone, Manner::Gone), text, &GONE)?);
    Ok(())
}

#[test]
fn the_lowest_fault_is_told(rt: HostRuntime) -> Result<(), Fail> {
    let heap = heap::open(rt.alloc())?;
    for case in &FAULTS {
        assert!(rt; fails(&rt, heap, case)?);
    }
    Ok(())
}

// How often a port looks whether another was called.
const MOST_TURNS: u32 = 10_000_000;

// Answers only after it has seen that the other was called.
#[derive(Drop)]
struct Meeting {
    pid: Pid,
    mine: Arc<AtomicU64, Global>,
    other: Arc<AtomicU64, Global>,
    entries: Entries,
}

impl Meeting {
    fn meets(&self) -> bool {
        self.mine.store(1, Ordering::SeqCst);
        for _ in 0..MOST_TURNS {
            if self.other.load(Ordering::SeqCst) == 1 {
                return true;
            }
            thread::yield_now();
        }
        false
    }
}

impl Port for Meeting {
    ghost Home = { ℕ };

    ghost home = { λ p. 0 };

    ghost number = { λ p. p.pid };

    ghost done = { λ p. p.entries.items };

    fn pid(&self) -> Pid {
        self.pid
    }

    fn call<R: Wait>(&mut self, rt: &R, operation: Op) -> Reply {
        if self.meets() {
            kept(&mut self.entries, operation, Reply::Answer(Answer::Done))
        } else {
            drop(operation);
            Reply::NoMemory
        }
    }

    fn fork<R: Wait>(&mut self, rt: &R) -> Result<(Pid, Self), Reply> {
        Err(Reply::NoMemory)
    }
}

// Two ports of which each answers only after the other was called.
fn two_meeting(alloc: Global, heap: Heap) -> Result<Vec<Meeting, Heap>, AllocError>
    ensures fresh { IfOk result (λ ports. All (λ p. p.entries.items ≡ []) ports.items) }
    ensures home { IfOk result (λ ports. HaveOneHome {H = ℕ} (λ p. 0) ports.items) }
{
    let first = Arc::new(alloc, AtomicU64::new(0))?;
    let second = Arc::new(alloc, AtomicU64::new(0))?;
    let mut ports = Vec::new(heap);
    ports.push(Meeting {
        pid: Pid(1),
        mine: Arc::try_clone(&first)?,
        other: Arc::try_clone(&second)?,
        entries: Vec::new(heap),
    })?;
    ports.push(Meeting {
        pid: Pid(2),
        mine: second,
        other: first,
        entries: Vec::new(heap),
    })?;
    Ok(ports)
}

// Whether two workers over such ports come to their ends.
fn have_met<R: Threads + Wait + Sync>(
    rt: &R,
    alloc: Global,
    heap: Heap,
) -> Result<bool, AllocError> {
    let ports = two_meeting(alloc, heap)?;
    let Ok(script) = read_script(heap, b"priorities 0\n1 stat /\n2 stat /\n") else {
        drop(ports);
        return Err(AllocError);
    };
    let met = are_worked(run_workers(rt, heap, ports, &script));
    drop(script);
    Ok(met)
}

// Whether workers have come to their ends. Their ports go here.
fn are_worked<T: Drop>(run: Result<T, WorkFault>) -> bool {
    run.is_ok()
}

#[test]
fn workers_side_by_side(rt: HostRuntime) -> Result<(), Fail> {
    let heap = heap::open(rt.alloc())?;
    assert!(rt; have_met(&rt, rt.alloc(), heap)?);
    Ok(())
}
