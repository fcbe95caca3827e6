// The turnstile, and the calls through it.
ghost use Rattle.ids.specs.Bounds.{bounds_of};
ghost use Rattle.ids.specs.declared.limits.TheConstants.{LARGEST_FILE, MAX_ENTRIES, MAX_PROCESSES};
ghost use Rattle.std.specs.Prelude.{◌≡◌, ◌≢◌, ◌<◌, ◌≤◌, ℕ, suc, true, [], length, map, All};
ghost use Rattle.std.specs.Prelude.{vec_capacity};
ghost use Rattle.std.specs.Prelude.{IfOk, IfErr, IfSome, IfNone};
ghost use Rattle.history_laws.specs.Processes.{child_in};
ghost use Rattle.model.specs.Calls.{Child, Fork};
ghost use Rattle.model.specs.Entries.{Answers, Do};
ghost use Rattle.model.specs.Moments.{all_below, start};
ghost use Rattle.turnstile.specs.Histories.{IsLegal, made_of};
ghost use Rattle.turnstile.specs.Calls.{Called, Forked, IsSamePass, KeepsPass, Met};
ghost use Rattle.turnstile.specs.Calls.{has_pass, first_pass, first_passes};
ghost use Rattle.turnstile.specs.Rule.{having_seen, Follows, Compares};
ghost use Rattle.turnstile.specs.Holding.{IsAtRest, IsTaking, IsClosing, IsSameSeat};
ghost use Rattle.turnstile.specs.Holding.{HasTaken, Stepped, Lives, child_of, is_set, taker_of};
ghost use Rattle.turnstile.specs.Holding.{closer_of};
ghost use Rattle.turnstile.specs.declared.rule.Role.TheVariants.{Deals, Process};
ghost use Rattle.turnstile.specs.Passes.{gate_of, pass_of};

use crate::pass::Pass;
use crate::rule::{
    Born, Check, Close, Collect, Compare, Copied, Deal, Give, GiveBorn, Inform, OneLock, Role, Take,
};
use atomic_table::{Refused, Seat, Table};
use heap::Heap;
use history::History;
use ids::{Answer, Call, Limits, Op, Pid, Priority, Reply};
use machine::Machine;
use std::alloc::AllocError;
use std::hint::spin_loop;
use std::marker::Model;
use std::snapshot::Snapshot;
use std::sync::Wait;

const FREE: u64 = 0;

const TAKEN: u64 = 1;

// Taken, and a thread may sleep until it is free.
const AWAITED: u64 = 2;

// How often a thread looks whether the kernel is free before it sleeps.
const LOOKS: u32 = 20;

// How many pauses stand between two of its looks at most. Each look takes the lock's memory from the
// processor that has the kernel, so they come more and more rarely.
const MOST_PAUSES: u32 = 128;

type KernelSeat<K> = Seat<Option<K>, Role>;

type Lock<K> = Table<Option<K>, Role, Snapshot<History>, OneLock, Heap>;

/// The one lock around a kernel. Threads share it by reference, each with passes of its own.
/// Contracts see which one it is, and the history with which it was made.
#[derive(Drop)]
pub struct Turnstile<K: Machine> {
    table: Lock<K>,
}

impl<K: Machine> Model for Turnstile<K> {
    ghost use Rattle.std.specs.Prelude.{◌≡◌};
    ghost use Rattle.turnstile.specs.Passes.{Gate, gate_of};

    ghost Value = { Gate };

    ghost view = { λ t. gate_of t.table.shared.table_id t.table.shared.key.value };

    ghost invariant = { λ t. (t.table.shared.table_id.words ≡ 1)
        × (t.table.shared.table_id.slots ≡ 1) };
}

// Whether this is the number of a living process.
fn lives<K: Machine>(kernel: &K, number: usize) -> bool
    ensures { result ≡ has_pass (K.shown kernel.now).state number }
{
    match u32::try_from(number) {
        Ok(number) => kernel.is_living(Pid(number)),
        Err(_) => false,
    }
}

// Of each number up to that of the process made last, whether it is that of a living process.
fn living<K: Machine>(heap: Heap, kernel: &K) -> Result<Vec<bool, Heap>, AllocError>
    ensures { IfOk result (λ l. Lives (K.shown kernel.now).state l.items) }
{
    let mut living = Vec::new(heap);
    for number in 0..=kernel.made() {
        living.push(lives(kernel, number))?;
    }
    Ok(living)
}

// A pass for each number that is marked. There is room for them.
fn deal<K: Machine>(
    lock: &Lock<K>,
    mut dealer: KernelSeat<K>,
    mut passes: Vec<Pass<K>, Heap>,
    living: &[bool],
) -> Vec<Pass<K>, Heap>
    requires lock { (lock.now.shared.table_id.words ≡ 1) × IsLegal lock.now.shared.key.value }
    requires dealer { (dealer.table_id ≡ lock.now.shared.table_id)
        × (dealer.me ≡ (Deals 0 lock.now.shared.key.value, [])) }
    requires room { (passes.items ≡ []) × (vec_capacity passes ≡ length living.now) }
    requires made { length living.now ≡ suc (made_of lock.now.shared.key.value) }
    requires small { (i : ℕ) → is_set living.now i ≡ true → i < 4294967296 }
    ensures { result.items
        ≡ map (first_pass (gate_of lock.now.shared.table_id lock.now.shared.key.value))
        (all_below (is_set living.now) (length living.now)) }
{
    for i in 0..living.len() {
        let seat = lock.shared.split_seat::<Deal>(&mut dealer);
        if living[i] {
            passes.push_reserved(Pass {
                pid: Pid(i as u32),
                seat,
            });
        }
    }
    passes
}

// Shows that the history of the seat, which has the kernel for ever, begins with what each of the
// passes had seen.
fn check_passes<K: Machine>(
    lock: &Lock<K>,
    seat: &mut KernelSeat<K>,
    mut passes: Vec<Pass<K>, Heap>,
)
    requires lock { lock.now.shared.table_id.words ≡ 1 }
    requires seat { (seat.old.table_id ≡ lock.now.shared.table_id) × IsClosing seat.old.me }
    requires passes { All
        (λ p. p.gate ≡ gate_of lock.now.shared.table_id lock.now.shared.key.value) passes.items }
    ensures seat { IsSameSeat seat.old seat.new × (seat.new.me ≡ seat.old.me) }
    ensures passes { All (KeepsPass (closer_of seat.old.me.0)) passes.entry.items }
{
    while let Some(pass) = passes.pop() {
        let Pass {
            pid: _,
            seat: other,
        } = pass;
        // For the proof: what the pass had seen begins the history. The word that is loaded is not
        // used.
        lock.shared.join_seat::<Collect>(seat, other);
        lock.shared.load::<Check>(seat, 0);
    }
}

// What a turnstile needs before its kernel is given away.
#[derive(Drop)]
struct Room<K: Machine> {
    living: Vec<bool, Heap>,
    passes: Vec<Pass<K>, Heap>,
    slots: Vec<Option<K>, Heap>,
}

fn make_room<K: Machine>(heap: Heap, kernel: &K) -> Result<Room<K>, AllocError>
    ensures living { IfOk result (λ r. Lives (K.shown kernel.now).state r.living.items) }
    ensures passes { IfOk result (λ r. (r.passes.items ≡ [])
        × (vec_capacity r.passes ≡ length r.living.items)) }
    ensures slots { IfOk result (λ r. (r.slots.items ≡ []) × (vec_capacity r.slots ≡ 1)) }
{
    let living = living(heap, kernel)?;
    let passes = Vec::with_capacity(heap, living.len())?;
    let slots = Vec::with_capacity(heap, 1)?;
    Ok(Room {
        living,
        passes,
        slots,
    })
}

// The table of a kernel, and the seat that deals its passes. Refused memory gives the same kernel
// back.
fn table_of<K: Machine>(
    heap: Heap,
    kernel: K,
    mut slots: Vec<Option<K>, Heap>,
) -> Result<(Lock<K>, KernelSeat<K>), K>
    requires { (slots.items ≡ []) × (vec_capacity slots ≡ 1) }
    ensures start { IfOk result (λ t. (t.0.shared.key.value ≡ (K.shown kernel).log)
        × IsLegal t.0.shared.key.value) }
    ensures made { IfOk result (λ t. made_of t.0.shared.key.value ≡ (K.shown kernel).state.made) }
    ensures table { IfOk result (λ t. (t.0.shared.table_id.words ≡ 1)
        × (t.0.shared.table_id.slots ≡ 1)) }
    ensures dealer { IfOk result (λ t. (t.1.table_id ≡ t.0.shared.table_id)
        × (t.1.me ≡ (Deals 0 t.0.shared.key.value, []))) }
    ensures err { IfErr result (λ k. k ≡ kernel) }
{
    let start = Snapshot::of(kernel.history());
    slots.push_reserved(Some(kernel));
    match Table::new(heap, &[FREE], slots, &start) {
        Ok(made) => Ok(made),
        Err(Refused { mut slots }) => match slots.pop() {
            Some(Some(kernel)) => Err(kernel),
            _ => unreachable!(),
        },
    }
}

// The process that the reply to a fork tells of.
fn child_in(reply: &Reply) -> Option<Pid>
    ensures { result ≡ child_in reply.now }
{
    match reply {
        Reply::Answer(Answer::Child(pid)) => Some(*pid),
        _ => None,
    }
}

// Pauses so often, and gives how often the next time.
fn paused(pauses: u32) -> u32 {
    for _ in 0..pauses {
        spin_loop();
    }
    pauses.saturating_mul(2).min(MOST_PAUSES)
}

impl<K: Machine> Turnstile<K> {
    /// A pass for each living process, rising; each has seen the kernel's history. Refused memory
    /// gives the same kernel back.
    pub fn new(heap: Heap, kernel: K) -> Result<(Turnstile<K>, Vec<Pass<K>, Heap>), K>
        ensures start { IfOk result (λ t. (t.0.start ≡ (K.shown kernel).log) × IsLegal t.0.start) }
        ensures passes { IfOk result (λ t. t.1.items ≡ first_passes t.0 (K.shown kernel).state) }
        ensures gates { IfOk result (λ t. All (λ p. p.gate ≡ t.0) t.1.items) }
        ensures err { IfErr result (λ k. k ≡ kernel) }
    {
        let Ok(room) = make_room(heap, &kernel) else {
            return Err(kernel);
        };
        let Room {
            living,
            passes,
            slots,
        } = room;
        let (table, dealer) = table_of(heap, kernel, slots)?;
        let passes = deal(&table, dealer, passes, living.as_slice());
        Ok((Turnstile { table }, passes))
    }

    /// The turnstile of a fresh kernel with a process for each of these priorities and with these
    /// limits, and a pass for each process, rising. Refused memory gives nothing.
    pub fn with_limits(
        heap: Heap,
        priorities: &[Priority],
        limits: Limits,
    ) -> Result<(Turnstile<K>, Vec<Pass<K>, Heap>), AllocError>
        requires some { 0 < length priorities.now }
        requires not_too_many { length priorities.now ≤ MAX_PROCESSES }
        requires limited { limits.entries ≤ MAX_ENTRIES }
        requires files { limits.file_bytes ≤ LARGEST_FILE }
        ensures start { IfOk result (λ t. (t.0.start ≡ record {
          entries = [];
          priorities = priorities.now;
          limit = limits.entries;
          forgotten = [];
          bounds = bounds_of limits;
        }) × IsLegal t.0.start) }
        ensures passes { IfOk result (λ t. t.1.items ≡ first_passes t.0
            (start 0 (record { priorities = priorities.now; bounds = bounds_of limits }))) }
        ensures gates { IfOk result (λ t. All (λ p. p.gate ≡ t.0) t.1.items) }
    {
        let kernel = K::with_limits(heap, priorities, limits)?;
        match Turnstile::new(heap, kernel) {
            Ok(made) => Ok(made),
            Err(_) => Err(AllocError),
        }
    }

    /// The kernel, once no thread shares the turnstile. Its history begins with what each of these
    /// passes had seen, and has just that pass's own entries of its process. `None` stands where
    /// the kernel was taken and not given back, as by a thread that ended in the midst of a call;
    /// when it comes no clause says.
    pub fn close(self, passes: Vec<Pass<K>, Heap>) -> Option<K>
        requires { All (λ p. p.gate ≡ self) passes.items }
        ensures legal { IfSome result (λ kernel. IsLegal (K.shown kernel).log) }
        ensures passes { IfSome result (λ kernel.
            All (KeepsPass (K.shown kernel).log) passes.entry.items) }
    {
        let Turnstile { table } = self;
        let (found, mut seat) = table.shared.swap_new_seat::<Close>(0, TAKEN);
        if found != FREE {
            return None;
        }
        check_passes(&table, &mut seat, passes);
        table.shared.exchange(&mut seat, 0, None)
    }

    // The kernel, where it is free.
    pub(crate) fn take(&self, seat: &mut KernelSeat<K>) -> Option<K>
        requires { (seat.old.table_id ≡ self.now.table) × IsAtRest seat.old.me }
        ensures some { IfSome result (λ k. HasTaken seat.old (K.shown k).log seat.new) }
        ensures none { IfNone result (seat.new ≡ seat.old) }
    {
        let shared = &self.table.shared;
        if shared.compare_exchange::<Take>(seat, 0, FREE, TAKEN) != FREE {
            return None;
        }
        shared.exchange(seat, 0, None)
    }

    // The kernel, where it is free at one of some looks.
    fn look_and_take(&self, seat: &mut KernelSeat<K>) -> Option<K>
        requires { (seat.old.table_id ≡ self.now.table) × IsAtRest seat.old.me }
        ensures some { IfSome result (λ k. HasTaken seat.old (K.shown k).log seat.new) }
        ensures none { IfNone result (seat.new ≡ seat.old) }
    {
        let mut pauses = 1;
        for _ in 0..LOOKS {
            if self.table.shared.peek(0) == FREE
                && let Some(kernel) = self.take(seat)
            {
                return Some(kernel);
            }
            pauses = paused(pauses);
        }
        None
    }

    // Waits until the kernel is free at a look, for a while. Who has slept takes nothing here, since
    // others may sleep still.
    fn look_again(&self) {
        let mut pauses = 1;
        for _ in 0..LOOKS {
            if self.table.shared.peek(0) == FREE {
                return;
            }
            pauses = paused(pauses);
        }
    }

    // The kernel, where it is free. Where it is not, who gives it back wakes a thread that sleeps.
    fn await_and_take(&self, seat: &mut KernelSeat<K>) -> Option<K>
        requires { (seat.old.table_id ≡ self.now.table) × IsAtRest seat.old.me }
        ensures some { IfSome result (λ k. HasTaken seat.old (K.shown k).log seat.new) }
        ensures none { IfNone result (seat.new ≡ seat.old) }
    {
        let shared = &self.table.shared;
        if shared.swap::<Take>(seat, 0, AWAITED) != FREE {
            return None;
        }
        shared.exchange(seat, 0, None)
    }

    // The kernel, once it is free. The thread looks for it for a while, and then sleeps.
    fn wait_and_take<R: Wait>(&self, rt: &R, seat: &mut KernelSeat<K>) -> K
        requires { (seat.old.table_id ≡ self.now.table) × IsAtRest seat.old.me }
        ensures { HasTaken seat.old (K.shown result).log seat.new }
    {
        if let Some(kernel) = self.look_and_take(seat) {
            return kernel;
        }
        for _ in rt.forever() {
            if let Some(kernel) = self.await_and_take(seat) {
                return kernel;
            }
            self.table.shared.park(rt, 0, AWAITED as u32);
            self.look_again();
        }
        unreachable!()
    }

    // Gives the kernel back after one step of the seat's process.
    fn give(&self, seat: &mut KernelSeat<K>, kernel: K)
        requires seat { (seat.old.table_id ≡ self.now.table) × IsTaking seat.old.me }
        requires kernel { IsLegal (K.shown kernel).log
            × Follows (taker_of seat.old.me.0).pid (taker_of seat.old.me.0).seen (K.shown kernel).log }
        ensures { IsSameSeat seat.old seat.new
            × (seat.new.me ≡ (Process (having_seen (taker_of seat.old.me.0) (K.shown kernel).log), [])) }
    {
        let shared = &self.table.shared;
        // The slot had none.
        drop(shared.exchange(seat, 0, Some(kernel)));
        if shared.swap::<Give>(seat, 0, FREE) == AWAITED {
            shared.wake_one(0);
        }
    }

    // One step of the process whose seat has the kernel.
    fn step(&self, seat: &mut KernelSeat<K>, pid: Pid, mut kernel: K, op: Op) -> Reply
        requires seat { (seat.old.table_id ≡ self.now.table) × IsTaking seat.old.me }
        requires kernel { ((taker_of seat.old.me.0).seen ≡ (K.shown kernel).log)
            × ((taker_of seat.old.me.0).pid ≡ pid) }
        requires legal { IsLegal (K.shown kernel).log }
        ensures { Stepped seat.old op result seat.new }
    {
        let reply = kernel.step(pid, op);
        self.give(seat, kernel);
        reply
    }

    /// One operation of the pass's process, where the kernel is free. It waits for nobody: `None`
    /// stands where the kernel was taken, and then nothing has changed.
    pub fn try_call(&self, pass: &mut Pass<K>, op: Op) -> Option<Reply>
        requires { pass.old.gate ≡ self.now }
        ensures same { IsSamePass pass.old pass.new }
        ensures some { IfSome result (λ reply. Called pass.old op reply pass.new) }
        ensures none { IfNone result (pass.new ≡ pass.old) }
    {
        match self.take(&mut pass.seat) {
            Some(kernel) => Some(self.step(&mut pass.seat, pass.pid, kernel, op)),
            None => {
                drop(op);
                None
            }
        }
    }

    /// One operation of the pass's process. It may wait for other threads.
    pub fn call<R: Wait>(&self, rt: &R, pass: &mut Pass<K>, op: Op) -> Reply
        requires { pass.old.gate ≡ self.now }
        ensures same { IsSamePass pass.old pass.new }
        ensures called { Called pass.old op result pass.new }
    {
        let kernel = self.wait_and_take(rt, &mut pass.seat);
        self.step(&mut pass.seat, pass.pid, kernel, op)
    }

    // Gives the kernel back after a step that made a process, and cuts off the seat of that process.
    fn bear(&self, seat: &mut KernelSeat<K>, kernel: K) -> KernelSeat<K>
        requires seat { (seat.old.table_id ≡ self.now.table) × IsTaking seat.old.me }
        requires kernel { IsLegal (K.shown kernel).log
            × Follows (taker_of seat.old.me.0).pid (taker_of seat.old.me.0).seen (K.shown kernel).log
            × (made_of (taker_of seat.old.me.0).seen < made_of (K.shown kernel).log) }
        ensures seat { IsSameSeat seat.old seat.new
            × (seat.new.me ≡ (Process (having_seen (taker_of seat.old.me.0) (K.shown kernel).log), [])) }
        ensures child { (result.table_id ≡ seat.old.table_id)
            × (result.me ≡ (Process (child_of (taker_of seat.old.me.0) (K.shown kernel).log), [])) }
    {
        let shared = &self.table.shared;
        // The slot had none.
        drop(shared.exchange(seat, 0, Some(kernel)));
        if shared.swap::<GiveBorn>(seat, 0, FREE) == AWAITED {
            shared.wake_one(0);
        }
        shared.split_seat::<Born>(seat)
    }

    /// A fork by the pass's process. It gives the child's number and a pass for it, which has seen
    /// as much as the caller's then; all that the child needs is made before the step. `Err` has
    /// the reply where no child was made. It may wait for other threads.
    pub fn fork<R: Wait>(&self, rt: &R, pass: &mut Pass<K>) -> Result<(Pid, Pass<K>), Reply>
        requires { pass.old.gate ≡ self.now }
        ensures same { IsSamePass pass.old pass.new }
        ensures ok { IfOk result (λ c. Forked pass.old c.0 pass.new c.1) }
        ensures err { IfErr result (λ reply. Called pass.old (Do Fork) reply pass.new) }
        ensures childless { IfErr result (λ reply. (n : ℕ) → reply ≢ Answers (Child n)) }
    {
        let mut kernel = self.wait_and_take(rt, &mut pass.seat);
        let reply = kernel.step(pass.pid, Op::Call(Call::Fork));
        match child_in(&reply) {
            Some(pid) => {
                drop(reply);
                let seat = self.bear(&mut pass.seat, kernel);
                Ok((pid, Pass { pid, seat }))
            }
            None => {
                self.give(&mut pass.seat, kernel);
                Err(reply)
            }
        }
    }

    // Tells the first seat what the second has seen, and compares. The word that is loaded is not
    // used.
    fn compare(&self, seat: &mut KernelSeat<K>, other: &mut KernelSeat<K>)
        requires seat { (seat.old.table_id ≡ self.now.table) × IsAtRest seat.old.me }
        requires other { (other.old.table_id ≡ self.now.table) × IsAtRest other.old.me }
        ensures same { (seat.new ≡ seat.old) × (other.new ≡ other.old) }
        ensures compared { Compares (pass_of seat.old.me.0) (pass_of other.old.me.0).seen }
    {
        let shared = &self.table.shared;
        // For the proof: of what two seats have seen one begins the other.
        let copy = shared.split_seat::<Copied>(other);
        shared.join_seat::<Inform>(seat, copy);
        shared.load::<Compare>(seat, 0);
    }

    /// What one of the two passes has seen begins what the other has seen. Both stay as they are,
    /// and it waits for nobody.
    pub fn meet(&self, first: &mut Pass<K>, second: &mut Pass<K>)
        requires { (first.old.gate ≡ self.now) × (second.old.gate ≡ self.now) }
        ensures same { (first.new ≡ first.old) × (second.new ≡ second.old) }
        ensures legal { IsLegal first.new.seen × IsLegal second.new.seen }
        ensures met { Met first.old second.old }
    {
        self.compare(&mut first.seat, &mut second.seat);
        self.compare(&mut second.seat, &mut first.seat);
    }
}
