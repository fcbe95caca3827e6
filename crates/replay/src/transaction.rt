// What is kept of a process's transaction.
ghost use Rattle.std.specs.Prelude.{◌≡◌, [], IfOk, option_copied};
ghost use Rattle.model.specs.Suits.{is_clash, is_executed, is_refused_inside, suits_idle, suits_live};
ghost use Rattle.replay.specs.Transactions.{begun_kept, doomed_kept, own_kept};
ghost use Rattle.replay.specs.Transactions.{settled_kept, suits_kept, with_position};
ghost use Rattle.model.specs.Entries.{is_unsupported};

use heap::Heap;
use ids::{BeginFlags, Call, Errno, Op, Reply, Why};
use std::alloc::AllocError;
use std::marker::Model;

/// Positions in a history, in order, counted from 0.
#[derive(Drop)]
pub(crate) struct Positions {
    positions: Vec<usize, Heap>,
}

impl Model for Positions {
    ghost use Rattle.std.specs.Prelude.{List, ℕ};

    ghost Value = { List ℕ };

    ghost view = { λ p. p.positions.items };
}

impl Positions {
    // None. It takes no memory.
    pub(crate) fn new(heap: Heap) -> Positions
        ensures { result ≡ [] }
    {
        Positions {
            positions: Vec::new(heap),
        }
    }

    // All of them.
    pub(crate) fn as_slice(&self) -> &[usize]
        ensures { result.now ≡ self.now }
    {
        self.positions.as_slice()
    }
}

/// A transaction.
#[derive(Drop)]
pub(crate) enum Transaction {
    /// It lives: its flags, and where its calls stand.
    Live(BeginFlags, Positions),
    /// It is doomed: its flags.
    Doomed(BeginFlags),
}

// Whether an entry suits.
pub(crate) fn suits(is_living: bool, kept: Option<&Transaction>, op: &Op, reply: &Reply) -> bool
    ensures { result ≡ suits_kept is_living (option_copied kept.entry) op.now reply.now }
{
    if !is_living {
        return matches!(reply, Reply::NoProcess);
    }
    match kept {
        None => suits_idle(op, reply),
        Some(Transaction::Live(flags, _)) => suits_live(*flags, op, reply),
        Some(Transaction::Doomed(_)) => is_clash(reply),
    }
}

// Outside a transaction.
fn suits_idle(op: &Op, reply: &Reply) -> bool
    ensures { result ≡ suits_idle op.now reply.now }
{
    match op {
        Op::Call(_) => matches!(reply, Reply::Busy(_)) || is_executed(reply),
        Op::Begin(_) => matches!(reply, Reply::Begun),
        Op::End => matches!(reply, Reply::NotInTransaction),
        Op::Abort { no_restart: _ } => matches!(reply, Reply::NotInTransaction),
    }
}

// Inside a live one with these flags.
fn suits_live(flags: BeginFlags, op: &Op, reply: &Reply) -> bool
    ensures { result ≡ suits_live flags op.now reply.now }
{
    match op {
        Op::Call(Call::Fork | Call::Exit) => is_refused_inside(flags, reply),
        Op::Call(_) => is_clash(reply) || is_executed(reply),
        Op::Begin(_) => matches!(reply, Reply::InTransaction),
        Op::End => matches!(reply, Reply::Committed),
        Op::Abort { no_restart: _ } => matches!(reply, Reply::GivenUp { restarted: _ }),
    }
}

fn is_clash(reply: &Reply) -> bool
    ensures { result ≡ is_clash reply.now }
{
    match reply {
        Reply::Aborted { why, restarted: _ } => matches!(why, Why::Clash(_)),
        _ => false,
    }
}

pub(crate) fn is_executed(reply: &Reply) -> bool
    ensures { result ≡ is_executed reply.now }
{
    match reply {
        Reply::Answer(_) => true,
        Reply::Errno(errno) => !is_unsupported(*errno),
        _ => false,
    }
}

pub(crate) fn is_unsupported(errno: Errno) -> bool
    ensures { result ≡ is_unsupported errno }
{
    matches!(errno, Errno::ENOTSUP)
}

fn is_refused_inside(flags: BeginFlags, reply: &Reply) -> bool
    ensures { result ≡ is_refused_inside flags reply.now }
{
    match reply {
        Reply::Aborted { why, restarted: _ } => {
            matches!(why, Why::Unsupported) && flags.aborts_unsupported()
        }
        Reply::Errno(errno) => !flags.aborts_unsupported() && is_unsupported(*errno),
        _ => false,
    }
}

// After an entry of the process itself, which stands at this position.
pub(crate) fn own_kept(
    heap: Heap,
    kept: Option<Transaction>,
    position: usize,
    op: &Op,
    reply: &Reply,
) -> Result<Option<Transaction>, AllocError>
    ensures { IfOk result (λ next. next ≡ own_kept position kept op.now reply.now) }
{
    match reply {
        Reply::Answer(_) => with_position(kept, position),
        Reply::Errno(_) => with_position(kept, position),
        Reply::Begun => Ok(begun_kept(heap, kept, op)),
        Reply::Committed => Ok(None),
        Reply::GivenUp { restarted } => Ok(settled_kept(heap, kept, *restarted)),
        Reply::Aborted { why: _, restarted } => Ok(settled_kept(heap, kept, *restarted)),
        Reply::Busy(_) => Ok(kept),
        Reply::InTransaction => Ok(kept),
        Reply::NotInTransaction => Ok(kept),
        Reply::HistoryFull => Ok(kept),
        Reply::NoMemory => Ok(kept),
        Reply::NoProcess => Ok(kept),
    }
}

// One more call.
fn with_position(
    kept: Option<Transaction>,
    position: usize,
) -> Result<Option<Transaction>, AllocError>
    ensures { IfOk result (λ next. next ≡ with_position position kept) }
{
    match kept {
        Some(Transaction::Live(flags, positions)) => {
            let Positions { mut positions } = positions;
            positions.push(position)?;
            Ok(Some(Transaction::Live(flags, Positions { positions })))
        }
        Some(Transaction::Doomed(flags)) => Ok(Some(Transaction::Doomed(flags))),
        None => Ok(None),
    }
}

// A begin.
fn begun_kept(heap: Heap, kept: Option<Transaction>, op: &Op) -> Option<Transaction>
    ensures { result ≡ begun_kept kept op.now }
{
    match kept {
        None => match op {
            Op::Begin(flags) => Some(Transaction::Live(*flags, Positions::new(heap))),
            _ => None,
        },
        Some(transaction) => Some(transaction),
    }
}

// A transaction is given up, or begun anew.
fn settled_kept(heap: Heap, kept: Option<Transaction>, again: bool) -> Option<Transaction>
    ensures { result ≡ settled_kept kept again }
{
    let flags = match kept {
        Some(Transaction::Live(flags, _positions)) => flags,
        Some(Transaction::Doomed(flags)) => flags,
        None => return None,
    };
    if again {
        Some(Transaction::Live(flags, Positions::new(heap)))
    } else {
        None
    }
}

// After an entry that dooms it.
pub(crate) fn doomed_kept(kept: Option<Transaction>) -> Option<Transaction>
    ensures { result ≡ doomed_kept kept }
{
    match kept {
        Some(Transaction::Live(flags, _positions)) => Some(Transaction::Doomed(flags)),
        Some(Transaction::Doomed(flags)) => Some(Transaction::Doomed(flags)),
        None => None,
    }
}
