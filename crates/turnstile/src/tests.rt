// What the calls answer while the kernel is taken. Only this crate can hold the kernel taken, so
// the test stands here, on a machine of its own.
ghost use Rattle.std.specs.Prelude.{◌≡◌, All};

use super::*;
use heap::Heap;
use history::History;
use ids::{Limits, Op, Pid, Priority, Reply};
use machine::Machine;
use std::alloc::AllocError;
use std::marker::Model;
use std::test::*;

// A machine whose history has no place: each operation finds it full.
#[derive(Drop)]
struct Full {
    history: History,
}

impl Model for Full {
    ghost use Rattle.std.specs.Prelude.{◌≡◌, [], sum};
    ghost use Rattle.machine.specs.Shown.{Shown, setup_of};
    ghost use Rattle.model.specs.Moments.{start};

    ghost Value = { Shown };

    ghost view = { λ f. record { log = f.history; state = start 0 (setup_of f.history) } };

    ghost invariant = { λ f. (f.history.entries ≡ []) × (f.history.limit ≡ 0)
        × (sum f.history.forgotten ≡ 0) };
}

impl Machine for Full {
    ghost shown = { λ f. f };

    fn new(heap: Heap, priorities: &[Priority], limit: usize) -> Result<Full, AllocError> {
        Full::with_limits(heap, priorities, Limits::of_entries(limit))
    }

    fn with_limits(
        heap: Heap,
        priorities: &[Priority],
        limits: Limits,
    ) -> Result<Full, AllocError> {
        if limits.entries > 0 {
            return Err(AllocError);
        }
        let history = History::with_limits(heap, priorities, limits)?;
        Ok(Full { history })
    }

    fn history(&self) -> &History {
        &self.history
    }

    #[tactic(auto, using(crate::proofs::Full::made))]
    fn made(&self) -> usize {
        self.history.priorities().len()
    }

    fn objects(&self) -> usize {
        1
    }

    fn is_living(&self, pid: Pid) -> bool {
        let made = self.history.priorities().len();
        if pid.0 == 0 {
            return false;
        }
        pid.0 as usize <= made
    }

    fn step(&mut self, _pid: Pid, op: Op) -> Reply {
        // For the proof: the history has no place.
        let _no_place = self.history.limit();
        drop(op);
        Reply::HistoryFull
    }

    fn run(&mut self, ops: Vec<(Pid, Op), Heap>) -> Result<Vec<Reply, Heap>, AllocError> {
        // For the proof: the history has no place.
        let _no_place = self.history.limit();
        drop(ops);
        Err(AllocError)
    }

    fn forget(&mut self) -> bool {
        self.history.forget()
    }
}

fn machine_of_two(heap: Heap) -> Result<Full, Fail> {
    let zero = Priority::new(0).ok_or("no priority")?;
    Ok(Full::new(heap, &[zero, zero], 0)?)
}

// Takes the kernel by the last of the passes, which goes.
fn taken<K: Machine>(turnstile: &Turnstile<K>, passes: &mut Vec<Pass<K>, Heap>) -> Option<K>
    requires { All (λ p. p.gate ≡ turnstile.now) passes.old.items }
    ensures { All (λ p. p.gate ≡ turnstile.now) passes.new.items }
{
    let Pass { pid: _, mut seat } = passes.pop()?;
    turnstile.take(&mut seat)
}

// Whether a call by the last of the passes, which goes, is refused.
fn is_call_refused<K: Machine>(turnstile: &Turnstile<K>, passes: &mut Vec<Pass<K>, Heap>) -> bool
    requires { All (λ p. p.gate ≡ turnstile.now) passes.old.items }
    ensures { All (λ p. p.gate ≡ turnstile.now) passes.new.items }
{
    match passes.pop() {
        Some(mut pass) => turnstile.try_call(&mut pass, Op::End).is_none(),
        None => false,
    }
}

// Whether the kernel cannot be taken, and then whether `try_call` and `close` say that it is taken.
fn told_while_taken<K: Machine>(
    turnstile: Turnstile<K>,
    mut passes: Vec<Pass<K>, Heap>,
) -> [bool; 3]
    requires { All (λ p. p.gate ≡ turnstile) passes.items }
{
    let held = taken(&turnstile, &mut passes);
    let called = is_call_refused(&turnstile, &mut passes);
    let closed = turnstile.close(passes).is_none();
    [held.is_none(), called, closed]
}

#[test]
fn a_taken_kernel(rt: HostRuntime) -> Result<(), Fail> {
    let heap = heap::open(rt.alloc())?;
    let machine = machine_of_two(heap)?;
    let (turnstile, passes) = Turnstile::new(heap, machine).ok().ok_or("no memory")?;
    assert_eq!(rt; told_while_taken(turnstile, passes), [false, true, true]);
    Ok(())
}
