// A run of a history's committed calls on a plain kernel.
ghost use Rattle.std.specs.Prelude.{◌≡◌, ◌<◌, ◌+◌, ◌==◌, ℕ, List, length};
ghost use Rattle.std.specs.Prelude.{IfOk, MatchBool, MatchOption, MatchResult, OnOk, true, false};
ghost use Rattle.std.specs.Prelude.{if◌then◌else◌, get_or, option_copied};
ghost use Rattle.std.specs.List.{AllByRecursion};
ghost use Rattle.model.specs.FiniteMap.{empty, get};
ghost use Rattle.calls.specs.Planned.{IsPlan};
ghost use Rattle.model.specs.Calls.{Call as Made};
ghost use Rattle.model.specs.Entries.{Do, Entry as Listed};
ghost use Rattle.model.specs.Moments.{Setup, is_in, start};
ghost use Rattle.freeing_laws.specs.Sweep.{IsTidied};
ghost use Rattle.model.specs.Passing.{Passes};
ghost use Rattle.plain_kernel.specs.Edits.{EndsWithin};
ghost use Rattle.replay.specs.Failing.{IsStop};
ghost use Rattle.replay.specs.Ran.{CannotRun, Follows, Ran, RanAt, StopsHere, StopsIn};
ghost use Rattle.replay.specs.Ran.{StopsNow};
ghost use Rattle.model.specs.Suits.{is_executed};
ghost use Rattle.replay.specs.Transactions.{call_in, call_of, calls_at_positions};
ghost use Rattle.replay.specs.Transactions.{doomed_kept, next_kept, run_kept};
ghost use Rattle.replay.specs.Windows.{CanSeeAll, CanSeeAny, CanSeeEach, Shows};
ghost use Rattle.replay.specs.declared.audit.Stop.TheVariants.{NoMemory};

use crate::answers::is_reply;
use crate::beginning::Beginning;
use crate::transaction::{Transaction, doomed_kept, is_executed, own_kept, suits};
use crate::window::Window;
use calls::{Plan, plan_of};
use heap::Heap;
use ids::{Call, Entry, Num, Op, Pid, Reply};
use plain_kernel::{PlainKernel, Table, Tree, key_of};
use std::alloc::AllocError;

/// Why a replay stops.
#[derive(Clone, Copy, Debug, PartialEq, Eq)]
pub(crate) enum Stop {
    /// An entry and a call are wrong. Positions are counted from 0.
    Wrong {
        /// The position of the entry.
        entry: usize,
        /// The position of the call.
        call: usize,
    },
    /// Memory was refused.
    NoMemory,
}

impl From<AllocError> for Stop {
    ghost from_gives = { λ _ e. e ≡ NoMemory };

    fn from(_e: AllocError) -> Stop {
        Stop::NoMemory
    }
}

// A call of a process. It is right where it is answered so, with these new numbers.
fn step(
    kernel: &mut PlainKernel,
    heap: Heap,
    pid: Pid,
    call: &Call,
    reply: &Reply,
    chosen: &[Num],
) -> Result<bool, AllocError>
    requires tidied { IsTidied kernel.old }
    requires executed { is_executed reply.now ≡ true }
    ensures { IfOk result (λ right. MatchBool right
        (Ran kernel.old pid (call_in (Do call.now) reply.now chosen.now) kernel.new)
        (CannotRun kernel.old pid (call_in (Do call.now) reply.now chosen.now))) }
{
    // For the proof: the largest file of a state is one that can be.
    let _largest = kernel.largest_file();
    let plan = plan_of(heap, kernel, pid, call, false)?;
    let right = step_by(kernel, heap, pid, &plan, reply, chosen);
    drop(plan);
    right
}

// A call that comes to this. It is right where it is answered so, with these new numbers.
fn step_by(
    kernel: &mut PlainKernel,
    heap: Heap,
    pid: Pid,
    plan: &Plan,
    reply: &Reply,
    chosen: &[Num],
) -> Result<bool, AllocError>
    requires tidied { IsTidied kernel.old }
    requires executed { is_executed reply.now ≡ true }
    requires within { AllByRecursion EndsWithin plan.now.edits.items }
    ensures { (call : Made) → IsPlan kernel.old pid call false plan.now
        → IfOk result (λ right. MatchBool right
        (Ran kernel.old pid (call_in (Do call) reply.now chosen.now) kernel.new)
        (CannotRun kernel.old pid (call_in (Do call) reply.now chosen.now))) }
{
    if !is_reply(&plan.answer, reply)
        || !kernel.is_living(pid)
        || !kernel.can_be_chosen(plan.edits.as_slice(), chosen)
    {
        return Ok(false);
    }
    kernel.edit_all(heap, plan.edits.as_slice(), chosen)?;
    Ok(true)
}

// The call of an entry, if it was executed, as one of this process.
fn run_entry(
    kernel: &mut PlainKernel,
    heap: Heap,
    pid: Pid,
    entry: &Entry,
) -> Result<bool, AllocError>
    requires { IsTidied kernel.old }
    ensures { IfOk result (λ right. MatchBool right
        (Ran kernel.old pid (call_of entry.now) kernel.new)
        (CannotRun kernel.old pid (call_of entry.now))) }
{
    match &entry.op {
        Op::Call(call) => {
            if !is_executed(&entry.reply) {
                return Ok(true);
            }
            step(
                kernel,
                heap,
                pid,
                call,
                &entry.reply,
                entry.chosen.as_slice(),
            )
        }
        Op::Begin(_) => Ok(true),
        Op::End => Ok(true),
        Op::Abort { no_restart: _ } => Ok(true),
    }
}

// The executed calls at these positions; where one is wrong, its position.
fn run_all(
    kernel: &mut PlainKernel,
    heap: Heap,
    pid: Pid,
    window: &Window<'_>,
    positions: &[usize],
) -> Result<Option<usize>, AllocError>
    ghost es: { List Listed }
    requires tidied { IsTidied kernel.old }
    requires shows { Shows es window.now }
    requires sees { CanSeeAll window.now positions.now }
    ensures { IfOk result (λ wrong. MatchOption wrong
        (Ran kernel.old pid (calls_at_positions es positions.now) kernel.new)
        (StopsIn kernel.old pid es positions.now)) }
{
    for position in positions {
        if let Some(entry) = window.entry(*position) {
            let right = run_entry(kernel, heap, pid, entry)?;
            if !right {
                return Ok(Some(*position));
            }
        }
    }
    Ok(None)
}

// The calls of an entry that take effect now, by what is kept of a living process.
fn run_kept(
    kernel: &mut PlainKernel,
    heap: Heap,
    kept: Option<&Transaction>,
    window: &Window<'_>,
    entry: &Entry,
    position: usize,
) -> Result<Option<usize>, AllocError>
    ghost es: { List Listed }
    requires tidied { IsTidied kernel.old }
    requires shows { Shows es window.now }
    requires sees { CanSeeEach window.now (option_copied kept) }
    ensures { IfOk result (λ wrong. MatchOption wrong (Ran kernel.old entry.now.pid
        (run_kept true (option_copied kept.entry) es entry.now.op entry.now.reply
        entry.now.chosen) kernel.new)
        (StopsHere kernel.old (option_copied kept.entry) es position entry.now)) }
{
    match kept {
        None => {
            let right = run_entry(kernel, heap, entry.pid, entry)?;
            if right { Ok(None) } else { Ok(Some(position)) }
        }
        Some(Transaction::Live(_, positions)) => {
            if !matches!(entry.op, Op::End) {
                return Ok(None);
            }
            run_all(kernel, heap, entry.pid, window, positions.as_slice())
        }
        Some(Transaction::Doomed(_)) => Ok(None),
    }
}

/// A plain kernel, and what is kept of each process.
pub(crate) struct Audit {
    pub(crate) kernel: PlainKernel,
    pub(crate) transactions: Table<Transaction>,
}

impl Drop for Audit {
    fn drop(self) {
        let Audit {
            kernel: _,
            transactions: _,
        } = self;
    }
}

// The calls of an entry that take effect now; where one is wrong, its position.
fn run(
    kernel: &mut PlainKernel,
    heap: Heap,
    kept: Option<&Transaction>,
    window: &Window<'_>,
    entry: &Entry,
    position: usize,
) -> Result<Option<usize>, AllocError>
    ghost es: { List Listed }
    requires tidied { IsTidied kernel.old }
    requires shows { Shows es window.now }
    requires sees { CanSeeEach window.now (option_copied kept) }
    requires within { position < length es }
    requires here { entry.now ≡ get_or es position entry.now }
    ensures { IfOk result (λ wrong. MatchOption wrong
        (RanAt es position (option_copied kept.entry) kernel.old kernel.new)
        (StopsNow es position (option_copied kept.entry) kernel.old)) }
{
    if kernel.is_living(entry.pid) {
        run_kept(kernel, heap, kept, window, entry, position)
    } else {
        Ok(None)
    }
}

// What is kept of a process is this from now on.
fn keep(
    transactions: &mut Table<Transaction>,
    pid: Pid,
    kept: Option<Transaction>,
) -> Result<(), AllocError>
    requires { get transactions.old pid ≡ None }
    ensures { OnOk result ((q : ℕ) → get transactions.new q
        ≡ (if q == pid then kept else get transactions.old q)) }
{
    match kept {
        Some(transaction) => transactions.set(key_of(pid), transaction),
        None => Ok(()),
    }
}

// These processes are doomed.
fn doom_all(transactions: &mut Table<Transaction>, doomed: &[Pid]) -> Result<(), AllocError>
    ensures { OnOk result ((q : ℕ) → get transactions.new q
        ≡ (if is_in q doomed.now then doomed_kept (get transactions.old q)
        else get transactions.old q)) }
{
    for pid in doomed {
        let kept = transactions.remove(key_of(*pid));
        keep(transactions, *pid, doomed_kept(kept))?;
    }
    Ok(())
}

// What is kept after an entry, which stands at this position.
fn keep_all(
    transactions: &mut Table<Transaction>,
    heap: Heap,
    entry: &Entry,
    position: usize,
) -> Result<(), AllocError>
    ensures { OnOk result ((q : ℕ) → get transactions.new q
        ≡ next_kept position entry.now q (get transactions.old q)) }
{
    let kept = transactions.remove(key_of(entry.pid));
    let next = own_kept(heap, kept, position, &entry.op, &entry.reply)?;
    keep(transactions, entry.pid, next)?;
    doom_all(transactions, entry.doomed.as_slice())
}

impl Audit {
    // The empty root, and the first processes, none in a transaction.
    pub(crate) fn new(heap: Heap, root: Num, beginning: &Beginning<'_>) -> Result<Audit, AllocError>
        ensures kernel { IfOk result (λ r. r.kernel ≡ start root beginning.now) }
        ensures transactions { IfOk result (λ r. r.transactions ≡ empty) }
    {
        Ok(Audit {
            kernel: PlainKernel::new(heap, root, beginning.priorities, beginning.bounds)?,
            transactions: Table::new(heap),
        })
    }

    // The entry at a position, which is one of the part, behind those before it.
    fn follow(
        &mut self,
        heap: Heap,
        window: &Window<'_>,
        index: usize,
        position: usize,
    ) -> Result<(), Stop>
        ghost es: { List Listed }
        requires within { index < length window.now.part.now }
        requires position { position ≡ window.now.offset + index }
        requires tidied { IsTidied self.old.kernel }
        requires shows { Shows es window.now }
        requires sees { CanSeeAny window.now self.old.transactions }
        ensures follows { (root : ℕ) (setup : Setup)
            → Follows root setup es position self.old.kernel self.old.transactions
            → MatchResult result (λ _. Follows root setup es (position + 1)
            self.new.kernel self.new.transactions) (IsStop root setup es) }
        ensures sees { OnOk result (CanSeeAny window.now self.new.transactions) }
        ensures tidied { OnOk result (IsTidied self.new.kernel) }
    {
        let entry = &window.part[index];
        let kept = self.transactions.get(key_of(entry.pid));
        let living = self.kernel.is_living(entry.pid);
        if !suits(living, kept, &entry.op, &entry.reply) {
            return Err(Stop::Wrong {
                entry: position,
                call: position,
            });
        }
        let wrong = run(&mut self.kernel, heap, kept, window, entry, position)?;
        match wrong {
            Some(call) => Err(Stop::Wrong {
                entry: position,
                call,
            }),
            None => {
                keep_all(&mut self.transactions, heap, entry, position)?;
                Ok(())
            }
        }
    }

    // All entries of the part, behind those before it. It gives the position behind them.
    pub(crate) fn follow_all(&mut self, heap: Heap, window: &Window<'_>) -> Result<usize, Stop>
        ghost es: { List Listed }
        requires tidied { IsTidied self.old.kernel }
        requires shows { Shows es window.now }
        requires sees { CanSeeAny window.now self.old.transactions }
        ensures follows { (root : ℕ) (setup : Setup)
            → Follows root setup es window.now.offset
            self.old.kernel self.old.transactions
            → MatchResult result (λ end. (end ≡ window.now.offset + length window.now.part.now)
            × Follows root setup es end self.new.kernel self.new.transactions)
            (IsStop root setup es) }
        ensures sees { OnOk result (CanSeeAny window.now self.new.transactions) }
    {
        let mut position = window.offset;
        for index in 0..window.part.len() {
            self.follow(heap, window, index, position)?;
            position = position.checked_add(1).ok_or(Stop::NoMemory)?;
        }
        Ok(position)
    }
}

// Whether entries pass for a root, and where not, the entry and the call up to which they do not.
pub(crate) fn passes(
    heap: Heap,
    root: Num,
    beginning: &Beginning<'_>,
    entries: &[Entry],
) -> Result<(), Stop>
    ensures { MatchResult result (λ _. Passes root beginning.now entries.now)
        (IsStop root beginning.now entries.now) }
{
    let mut audit = Audit::new(heap, root, beginning)?;
    let kept = Tree::new(heap);
    let window = Window {
        part: entries,
        offset: 0,
        kept: &kept,
    };
    let followed = audit.follow_all(heap, &window);
    drop(audit);
    match followed {
        Ok(_) => Ok(()),
        Err(stop) => Err(stop),
    }
}
