// The fields of a kernel, and the entries that change them.
ghost use Rattle.std.specs.Prelude.{◌≡◌, []};
ghost use Rattle.contention.specs.Contenders.{contender_at};
ghost use Rattle.kernel.specs.States.{CanEnter, CanEndTransaction, Does, Fields, IsIn, Moves};
ghost use Rattle.kernel.specs.States.{cleared, fields, plain, settled_as};
ghost use Rattle.machine.specs.Steps.{entry_of};

use commit::Transactions;
use contention::{Contenders, Twice};
use heap::Heap;
use history::History;
use ids::{Age, BeginFlags, Entry, Nums, Op, Pid, Pids, Reply};

/// The fields of a kernel.
pub struct State {
    /// Where all memory comes from.
    pub heap: Heap,
    /// All entries so far.
    pub history: History,
    /// What each live transaction touches.
    pub contenders: Contenders,
    /// What each transaction has changed, and what is committed.
    pub transactions: Transactions,
}

impl Drop for State {
    fn drop(self) {
        let State {
            heap: _,
            history: _,
            contenders: _,
            transactions: _,
        } = self;
    }
}

/// The flags and the age of a live transaction.
pub type Live = (BeginFlags, Age);

/// Adds an entry, when the other fields show already what it does. It takes no memory.
pub fn enter(s: &mut State, pid: Pid, op: Op, reply: Reply, chosen: Nums, doomed: Pids)
    requires { CanEnter (fields s.old) (entry_of pid op reply chosen doomed) }
    ensures { (old : Fields) → old.log ≡ s.old.history → Does old (fields s.new) pid op reply }
{
    s.history.push_placed(Entry {
        pid,
        op,
        reply,
        chosen,
        doomed,
    });
}

/// Adds an entry without new numbers that dooms nobody, and answers its reply once more.
pub fn add_entry(s: &mut State, pid: Pid, op: Op, told: Twice<Reply>) -> Reply
    requires { CanEnter (fields s.old) (plain pid op told) }
    ensures now { Does (fields s.old) (fields s.new) pid op result }
    ensures any { (old : Fields) → old.log ≡ s.old.history → Does old (fields s.new) pid op result }
{
    let (entry, reply) = told.split();
    enter(s, pid, op, entry, Nums::new(s.heap), Pids::new(s.heap));
    reply
}

/// Adds such an entry, after which its process's transaction begins, or begins anew, or is gone.
pub fn end_transaction(
    s: &mut State,
    pid: Pid,
    op: Op,
    told: Twice<Reply>,
    anew: bool,
    live: Live,
) -> Reply
    requires { CanEndTransaction (fields s.old) pid op told anew live.0 live.1 }
    ensures now { Does (fields s.old) (fields s.new) pid op result }
    ensures any { (old : Fields) → old.log ≡ s.old.history → Does old (fields s.new) pid op result }
{
    clear(s, pid, anew, live);
    add_entry(s, pid, op, told)
}

/// What a process had changed and touched is forgotten.
fn clear(s: &mut State, pid: Pid, anew: bool, live: Live)
    requires { IsIn (fields s.old) pid }
    ensures { Moves (fields s.old) (fields s.new) pid
        (cleared (contender_at s.old.contenders pid).priority (settled_as anew live.0 live.1))
        s.old.transactions.stable.state [] }
{
    s.contenders.release(pid);
    if anew {
        s.contenders.begin(pid, live.1);
        s.transactions.begin(pid, live.0, live.1);
    } else {
        s.transactions.abort(pid);
    }
}
