// By what each process's conflicts are decided.
ghost use Rattle.std.specs.Prelude.{◌≡◌, ◌<◌, ◌-◌, ◌++◌, ◌∷◌, [], length, take, set, OnErr, OnOk};
ghost use Rattle.contention.specs.Losses.{yields_to};
ghost use Rattle.contention.specs.Policy.{began_later};
ghost use Rattle.contention.specs.Ranks.{rank_at};

use heap::Heap;
use ids::{Age, Pid, Rank};
use std::alloc::AllocError;
use std::marker::Model;

/// The rank of each process, by its number.
pub struct Ranks {
    ranks: Vec<Rank, Heap>,
}

impl Drop for Ranks {
    fn drop(self) {
        let Ranks { ranks: _ } = self;
    }
}

impl Model for Ranks {
    ghost use Rattle.std.specs.Prelude.{List};
    ghost use Rattle.ids.specs.declared.entry.Rank.{Rank};

    ghost Value = { List Rank };

    ghost view = { λ r. r.ranks.items };
}

impl Ranks {
    /// No ranks. It takes no memory.
    pub fn new(heap: Heap) -> Ranks
        ensures { result ≡ [] }
    {
        Ranks {
            ranks: Vec::new(heap),
        }
    }

    /// One rank more, of the process with the next number. Refused memory changes nothing.
    pub fn push(&mut self, rank: Rank) -> Result<(), AllocError>
        ensures ok { OnOk result (self.new ≡ self.old ++ rank ∷ []) }
        ensures err { OnErr result (self.new ≡ self.old) }
    {
        let Rank { priority, age } = rank;
        self.ranks.push(Rank { priority, age })?;
        Ok(())
    }

    /// The last rank is gone. It takes no memory.
    pub fn pop(&mut self)
        requires { 0 < length self.old }
        ensures { self.new ≡ take (length self.old - 1) self.old }
    {
        let _ = self.ranks.pop();
    }

    /// The rank of a process.
    pub fn get(&self, pid: Pid) -> Rank
        requires { pid < length self.now }
        ensures { result ≡ rank_at self.now pid }
    {
        self.ranks[pid.0 as usize]
    }

    /// A process has this rank from now on.
    pub fn set(&mut self, pid: Pid, rank: Rank)
        requires { pid < length self.old }
        ensures { self.new ≡ set self.old pid rank }
    {
        self.ranks[pid.0 as usize] = rank;
    }
}

/// Whether a process of the first rank loses where it clashes with one of the second: that one has
/// a higher priority, or the same one and both are live and it began first.
pub fn yields_to(own: Rank, other: Rank) -> bool
    ensures { result ≡ yields_to own other }
{
    own.priority < other.priority
        || (own.priority == other.priority && is_later(own.age, other.age))
}

/// Whether both are ages and the second is the earlier one.
fn is_later(age: Option<Age>, other: Option<Age>) -> bool
    ensures { result ≡ began_later age other }
{
    match (age, other) {
        (Some(age), Some(other)) => other < age,
        _ => false,
    }
}
