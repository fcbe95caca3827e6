// The places of a history, counted anew from its entries: when it is full, and when a restart has
// its place. A begin takes two places, and the second is kept for what ends the transaction.
use ids::{Answer, Call, Entry, Op, Pid, Reply, Why};

// What a process is. The flag says whether its transaction is begun anew after an abort.
#[derive(Clone, Copy)]
enum Standing {
    Gone,
    Idle,
    Live(bool),
    Doomed(bool),
}

// The standings of the processes 0 to 9, which alone act, and the entries so far.
#[derive(Clone, Copy)]
pub(crate) struct Places {
    standings: [Standing; 10],
    limit: usize,
    entries: usize,
}

// What is known of a step before it is made.
#[derive(Clone, Copy)]
pub(crate) struct Expected {
    // Whether it has no place.
    pub(crate) full: bool,
    // Whether what it aborts is begun anew.
    pub(crate) restarts: bool,
    // Whether it takes no memory: a notice, or the end or abort of a live transaction.
    pub(crate) silent: bool,
}

fn is_end(op: &Op) -> bool {
    matches!(op, Op::End | Op::Abort { no_restart: _ })
}

fn leaves(op: &Op) -> bool {
    matches!(op, Op::Abort { no_restart: true })
}

// How many places a step needs.
fn needed(standing: Standing, op: &Op) -> usize {
    match standing {
        Standing::Doomed(_) => 0,
        Standing::Live(_) => usize::from(!is_end(op)),
        Standing::Idle => 1 + usize::from(matches!(op, Op::Begin(_))),
        Standing::Gone => 1,
    }
}

fn restarts(standing: Standing) -> bool {
    match standing {
        Standing::Live(restarts) | Standing::Doomed(restarts) => restarts,
        Standing::Gone | Standing::Idle => false,
    }
}

fn has_reserved(standing: Standing) -> bool {
    matches!(standing, Standing::Live(_) | Standing::Doomed(_))
}

// Whether a reply says that what it has aborted is begun anew. None for a reply that aborts nothing.
pub(crate) fn restarted(reply: &Reply) -> Option<bool> {
    match reply {
        Reply::GivenUp { restarted } => Some(*restarted),
        Reply::Aborted { why: _, restarted } => Some(*restarted),
        _ => None,
    }
}

fn is_unsupported(reply: &Reply) -> bool {
    matches!(
        reply,
        Reply::Aborted {
            why: Why::Unsupported,
            restarted: _
        }
    )
}

// Whether a reply is marked as restarted just where it has to be.
pub(crate) fn is_marked(expected: Expected, reply: &Reply) -> bool {
    match restarted(reply) {
        Some(restarted) => restarted == (expected.restarts && !is_unsupported(reply)),
        None => true,
    }
}

fn is_done(reply: &Reply) -> bool {
    matches!(reply, Reply::Answer(Answer::Done))
}

// What a process is after an entry of its own.
fn next(standing: Standing, entry: &Entry) -> Standing {
    match (&entry.op, &entry.reply) {
        (Op::Begin(flags), Reply::Begun) => Standing::Live(flags.restarts()),
        (Op::Call(Call::Exit), reply) if is_done(reply) => Standing::Gone,
        (_, Reply::Committed) => Standing::Idle,
        (_, reply) => match restarted(reply) {
            Some(true) => Standing::Live(true),
            Some(false) => Standing::Idle,
            None => standing,
        },
    }
}

impl Places {
    // Before any step of so many processes.
    pub(crate) fn new(processes: usize, limit: usize) -> Places {
        let mut standings = [Standing::Gone; 10];
        for standing in standings.iter_mut().skip(1).take(processes) {
            *standing = Standing::Idle;
        }
        Places {
            standings,
            limit,
            entries: 0,
        }
    }

    fn standing(&self, pid: Pid) -> Standing {
        match self.standings.get(pid.0 as usize) {
            Some(standing) => *standing,
            None => Standing::Gone,
        }
    }

    fn set(&mut self, pid: Pid, standing: Standing) {
        if let Some(kept) = self.standings.get_mut(pid.0 as usize) {
            *kept = standing;
        }
    }

    // How many places are neither taken nor reserved.
    fn free(&self) -> usize {
        let mut free = self.limit.saturating_sub(self.entries);
        for standing in &self.standings {
            free = free.saturating_sub(usize::from(has_reserved(*standing)));
        }
        free
    }

    pub(crate) fn expected(&self, pid: Pid, op: &Op) -> Expected {
        let standing = self.standing(pid);
        let free = self.free();
        let needed = needed(standing, op);
        Expected {
            full: free < needed,
            restarts: restarts(standing) && !leaves(op) && free >= 1,
            silent: needed == 0,
        }
    }

    // Counts an entry.
    pub(crate) fn follow(&mut self, entry: &Entry) {
        self.entries = self.entries.saturating_add(1);
        self.set(entry.pid, next(self.standing(entry.pid), entry));
        if let Reply::Answer(Answer::Child(pid)) = &entry.reply {
            self.set(*pid, Standing::Idle);
        }
        for pid in entry.doomed.as_slice() {
            self.set(*pid, Standing::Doomed(restarts(self.standing(*pid))));
        }
    }
}
