// The kernel, and one step of it.
//
// For the proof: what a refused call holds goes by `drop`, which is one call. Where a `?` lets a value
// go, the proof opens it field by field.
ghost use Rattle.ids.specs.Bounds.{bounds_of, given_by_default};
ghost use Rattle.ids.specs.declared.limits.TheConstants.{LARGEST_FILE};
ghost use Rattle.ids.specs.declared.limits.TheConstants.{MAX_ENTRIES, MAX_PROCESSES};
ghost use Rattle.std.specs.Prelude.{◌≡◌, ◌^◌, ◌↔◌, ℕ, ◌<◌, ◌≤◌, [], length, true, false, is_some, IfOk, IfSome, OnErr};
ghost use Rattle.model.specs.Changes.{tidy};
ghost use Rattle.model.specs.Modes.{mode_of};
ghost use Rattle.model.specs.Moments.{bound, held_by, is_alive, seen_by};
ghost use Rattle.model.specs.Effects.{all_done};
ghost use Rattle.freeing_laws.specs.Sweep.{AllFit};
ghost use Rattle.history_laws.specs.Headline.{IsSerializable};
ghost use Rattle.history_laws.specs.Limits.{StaysWithinLimits};
ghost use Rattle.history_laws.specs.Trees.{IsATree};
ghost use Rattle.records.specs.Touches.{distinct, touched_by};
ghost use Rattle.machine.specs.Shown.{Kept, limit_of, moment, setup_of, is_live};
ghost use Rattle.machine.specs.Steps.{forgetting, IsStep, Steps};

use crate::state::State;
use crate::step::step;
use commit::Transactions;
use contention::Contenders;
use heap::Heap;
use history::History;
use ids::{Limits, ListMode, Num, Op, Pid, Priority, Reply};
use records::Records;
use shadow::{Shadow, Stable, View};
use std::alloc::AllocError;
use std::marker::Model;

/// A kernel: its history, what the processes have committed, and what their open transactions hold.
pub struct Kernel {
    state: State,
}

impl Drop for Kernel {
    fn drop(self) {
        let Kernel { state: _ } = self;
    }
}

impl Model for Kernel {
    ghost use Rattle.machine.specs.Shown.{Shown};
    ghost use Rattle.kernel.specs.States.{IsConsistent, fields, shown};

    ghost Value = { Shown };

    ghost view = { λ k. shown (fields k.state) };

    ghost invariant = { λ k. IsConsistent (fields k.state) };
}

impl Kernel {
    /// A kernel with a process for each of these priorities, no names, the bounds where none are given
    /// ([`ids::Bounds::given_by_default`]), and a history that keeps at most `limit` entries, whose
    /// memory it takes at once. Refused memory gives nothing.
    pub fn new(heap: Heap, priorities: &[Priority], limit: usize) -> Result<Kernel, AllocError>
        requires some { 0 < length priorities.now }
        requires not_too_many { length priorities.now ≤ MAX_PROCESSES }
        requires limited { limit ≤ MAX_ENTRIES }
        ensures kept { IfOk result Kept }
        ensures log { IfOk result (λ k.
            k.log ≡ record {
              entries = [];
              priorities = priorities.now;
              limit = limit;
              forgotten = [];
              bounds = given_by_default;
            }) }
    {
        Kernel::with_limits(heap, priorities, Limits::of_entries(limit))
    }

    /// The same with these limits: files of at most `limits.file_bytes` bytes, `limits.descriptors`
    /// descriptors in a process, paths of at most `limits.path_bytes` bytes, and a history that keeps at
    /// most `limits.entries` entries. Refused memory gives nothing.
    pub fn with_limits(
        heap: Heap,
        priorities: &[Priority],
        limits: Limits,
    ) -> Result<Kernel, AllocError>
        requires some { 0 < length priorities.now }
        requires not_too_many { length priorities.now ≤ MAX_PROCESSES }
        requires limited { limits.entries ≤ MAX_ENTRIES }
        requires files { limits.file_bytes ≤ LARGEST_FILE }
        ensures kept { IfOk result Kept }
        ensures log { IfOk result (λ k.
            k.log ≡ record {
              entries = [];
              priorities = priorities.now;
              limit = limits.entries;
              forgotten = [];
              bounds = bounds_of limits;
            }) }
    {
        let history = History::with_limits(heap, priorities, limits)?;
        let Ok(contenders) = Contenders::new(heap, priorities) else {
            drop(history);
            return Err(AllocError);
        };
        let Ok(transactions) = Transactions::new(heap, priorities, limits.bounds()) else {
            drop(contenders);
            drop(history);
            return Err(AllocError);
        };
        Ok(Kernel {
            state: State {
                heap,
                history,
                contenders,
                transactions,
            },
        })
    }

    /// The history: all entries ever made, of which those that were not forgotten are kept. It is
    /// legal, what it committed is the state, and it is strictly serializable.
    pub fn history(&self) -> &History
        ensures value { result.now ≡ self.now.log }
        ensures kept { Kept self.now }
        ensures serial { IsSerializable 0 (setup_of self.now.log)
            (limit_of self.now.log) self.now.log.entries self.now.state }
    {
        &self.state.history
    }

    /// How many processes were ever made: their numbers are 1, 2, and so on.
    pub fn made(&self) -> usize
        ensures { result ≡ self.now.state.made }
    {
        self.state.transactions.stable().made()
    }

    /// How many objects there are, inodes and open descriptions, with those that transactions make.
    /// Contracts do not know it.
    pub fn objects(&self) -> usize {
        self.state.transactions.stable().objects()
    }

    /// Whether there is such a process: it was made and has not ended.
    pub fn is_living(&self, pid: Pid) -> bool
        ensures { result ≡ is_alive self.now.state pid }
    {
        self.state.transactions.stable().is_living(pid)
    }

    /// What is committed. A process in no transaction sees it. Its directories are a tree, and
    /// neither it nor what a process sees passes a limit of processes, files, pipes or offsets.
    pub fn stable(&self) -> &Stable
        ensures state { result.now.state ≡ self.now.state }
        ensures tree { IsATree self.now.state }
        ensures limits { StaysWithinLimits (moment self.now.log) }
    {
        self.state.transactions.stable()
    }

    /// What a process has changed in its live transaction, if it is in one. With these changes on
    /// top of the committed state, and what nothing leads to freed, it sees what the history says.
    /// The changes fit the states that they find.
    pub fn shadow(&self, pid: Pid) -> Option<&Shadow>
        ensures live { is_some result ≡ is_live (moment self.now.log) pid }
        ensures fits { IfSome result (λ s. AllFit s.now self.now.state) }
        ensures sees { IfSome result (λ s.
            tidy (all_done s.now self.now.state) ≡ seen_by (moment self.now.log) pid) }
    {
        self.state.transactions.shadow(pid)
    }

    /// What the live transactions have touched: of each process exactly the touches that the history
    /// says, each once.
    pub fn records(&self) -> &Records
        ensures count { length result.now ≡ bound (moment self.now.log) }
        ensures each { (q : ℕ) → touched_by result.now q
            ≡ distinct (held_by (moment self.now.log) q) }
    {
        self.state.contenders.records()
    }

    /// The list mode of a directory: how live transactions use it. It takes no memory.
    pub fn mode(&self, dir: Num) -> ListMode
        ensures { result ≡ mode_of (moment self.now.log) dir }
    {
        self.state.contenders.mode(dir)
    }

    /// What a process sees: what is committed, with the changes of its live transaction on top, if
    /// it is in one. With what nothing leads to freed, it is what the history says.
    pub fn view(&self, pid: Pid) -> View<'_>
        ensures { tidy result.state ≡ seen_by (moment self.now.log) pid }
    {
        self.state.transactions.view(pid)
    }

    /// One operation of one process. HistoryFull and NoMemory change nothing; each other reply is
    /// that of one new entry.
    pub fn step(&mut self, pid: Pid, op: Op) -> Reply
        ensures kept { Kept self.new }
        ensures serial { IsSerializable 0 (setup_of self.new.log)
            (limit_of self.new.log) self.new.log.entries self.new.state }
        ensures step { IsStep self.old self.new pid op result }
    {
        step(&mut self.state, pid, op)
    }

    /// Steps in a row. Refused memory for the replies means that nothing has run; a later refusal
    /// stands among the replies.
    pub fn run(&mut self, ops: Vec<(Pid, Op), Heap>) -> Result<Vec<Reply, Heap>, AllocError>
        ensures kept { Kept self.new }
        ensures serial { IsSerializable 0 (setup_of self.new.log)
            (limit_of self.new.log) self.new.log.entries self.new.state }
        ensures steps { IfOk result (λ replies.
            Steps self.old ops.entry.items replies.items self.new) }
        ensures err { OnErr result (self.new ≡ self.old) }
    {
        let Ok(mut replies) = Vec::with_capacity(self.state.heap, ops.len()) else {
            drop(ops);
            return Err(AllocError);
        };
        for (pid, op) in ops {
            let reply = self.step(pid, op);
            drop(replies.push(reply));
        }
        Ok(replies)
    }

    /// Forgets the entries that are kept: their memory is given back, and as many places are free
    /// as if there were none. What is committed and all transactions stand. It takes no memory.
    /// False, and nothing has changed, exactly where 2^63 entries or more would be forgotten then.
    pub fn forget(&mut self) -> bool
        ensures kept { Kept self.new }
        ensures exactly { (result ≡ true) ↔ (length self.old.log.entries < 2 ^ 63) }
        ensures yes { result ≡ true → self.new ≡ forgetting self.old }
        ensures no { result ≡ false → self.new ≡ self.old }
    {
        self.state.history.forget()
    }
}
