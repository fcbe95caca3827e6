// The plan of exchange.
ghost use Rattle.std.specs.Prelude.{◌≡◌, ◌==◌, ℕ};
ghost use Rattle.path_calls.specs.Parts.{exchange_paths};
ghost use Rattle.model.specs.Plans.{plan, swapped};
ghost use Rattle.model.specs.Calls.{own, Exchange};
ghost use Rattle.look.specs.Asked.{Comes, Tells};

use crate::change::{Change, unchanged};
use crate::paths::done;
use crate::steps::{must_not_be_root, must_not_go_below, parsed};
use heap::Heap;
use ids::{Answer, Bytes, Edit, Errno, Kind, Num, Refusal};
use look::Look;
use path::Path;
use walk::{Last, Reads, or_refuse, walk_to_last};

/// What exchange of two paths comes to.
pub fn exchange<L: Look>(
    look: &L,
    old: &Bytes,
    path: &Bytes,
    reads: &mut Reads,
) -> Result<Change, Refusal>
    ensures { (pid : ℕ) → Comes (L.state look.now)
        (plan (own (L.state look.now) pid (Exchange old.now path.now))
        (Exchange old.now path.now))
        reads.old result reads.new }
{
    let from = parsed(look, reads.heap(), old)?;
    let to = parsed(look, reads.heap(), path)?;
    let change = exchange_paths(look, &from, &to, reads);
    drop(to);
    drop(from);
    change
}

fn exchange_paths<L: Look>(
    look: &L,
    from: &Path,
    to: &Path,
    reads: &mut Reads,
) -> Result<Change, Refusal>
    ensures { let k = L.state look.now in
        Comes k (exchange_paths k.root from.now to.now) reads.old result reads.new }
{
    must_not_be_root(from, to)?;
    let at = walk_to_last(look, Errno::EBUSY, from, reads)?;
    let onto = walk_to_last(look, Errno::EBUSY, to, reads)?;
    let what = or_refuse(Errno::ENOENT, at.found)?;
    let other = or_refuse(Errno::ENOENT, onto.found)?;
    must_not_go_below(&what, from, to)?;
    must_not_go_below(&other, to, from)?;
    swapped(reads.heap(), at, what, onto, other)
}

// Each of two names gives what the other gave.
fn swapped(
    heap: Heap,
    at: Last,
    what: (Num, Option<Kind>),
    onto: Last,
    other: (Num, Option<Kind>),
) -> Result<Change, Refusal>
    ensures { Tells (swapped at what onto other) result }
{
    if are_one(&what, &other) {
        drop(onto);
        drop(at);
        return unchanged(heap, Answer::Done);
    }
    done(
        heap,
        Edit::Swap {
            first: at.parent,
            first_name: at.name,
            first_inode: what.0,
            second: onto.parent,
            second_name: onto.name,
            second_inode: other.0,
        },
    )
}

// Whether two names are of one object.
fn are_one(what: &(Num, Option<Kind>), other: &(Num, Option<Kind>)) -> bool
    ensures { result ≡ (what.now.0 == other.now.0) }
{
    what.0 == other.0
}
