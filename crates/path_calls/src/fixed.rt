// The plans of calls on symbolic links, FIFOs and sockets.
ghost use Rattle.std.specs.Prelude.{ℕ, ◌<◌, ◌≤◌, IfOk, length};
ghost use Rattle.ids.specs.declared.limits.TheConstants.{TARGET_LIMIT};
ghost use Rattle.path_calls.specs.Parts.{made, target_tested};
ghost use Rattle.model.specs.Plans.{plan};
ghost use Rattle.model.specs.Calls.{own, Symlink, Readlink, Mknod};
ghost use Rattle.look.specs.Asked.{Comes, Tells};

use crate::asking::target;
use crate::change::{Change, unchanged};
use crate::paths::{done, last_at, place_at};
use crate::steps::{absent, must_be_link};
use ids::{Answer, Bytes, Edit, Errno, Fixed, Refusal, Special, TARGET_LIMIT, Target};
use look::Look;
use walk::Reads;

/// What symlink of a target by a path comes to.
pub fn symlink<L: Look>(
    look: &L,
    target: &Bytes,
    path: &Bytes,
    reads: &mut Reads,
) -> Result<Change, Refusal>
    ensures { (pid : ℕ) → Comes (L.state look.now)
        (plan (own (L.state look.now) pid (Symlink target.now path.now))
        (Symlink target.now path.now))
        reads.old result reads.new }
{
    must_be_target(target)?;
    let copy = target.try_clone()?;
    made(look, path, Fixed::Link(Target::new(copy).unwrap()), reads)
}

// A target is some bytes, not too many, of which none is zero.
fn must_be_target(target: &Bytes) -> Result<(), Refusal>
    ensures tells { Tells (target_tested target.now) result }
    ensures within { IfOk result
        (λ _. (0 < length target.now) × (length target.now ≤ TARGET_LIMIT)) }
{
    let bytes = target.as_slice();
    if bytes.is_empty() {
        Err(Refusal::Errno(Errno::ENOENT))
    } else if TARGET_LIMIT < bytes.len() {
        Err(Refusal::Errno(Errno::ENAMETOOLONG))
    } else if bytes.contains(&0) {
        Err(Refusal::Errno(Errno::EINVAL))
    } else {
        Ok(())
    }
}

/// What readlink of a path comes to.
pub fn readlink<L: Look>(look: &L, path: &Bytes, reads: &mut Reads) -> Result<Change, Refusal>
    ensures { (pid : ℕ) → Comes (L.state look.now)
        (plan (own (L.state look.now) pid (Readlink path.now)) (Readlink path.now))
        reads.old result reads.new }
{
    let place = place_at(look, path, reads)?;
    must_be_link(&place)?;
    let target = target(look, place.0, reads)?;
    unchanged(reads.heap(), Answer::Bytes(target))
}

/// What mknod of a path comes to.
pub fn mknod<L: Look>(
    look: &L,
    path: &Bytes,
    special: Special,
    reads: &mut Reads,
) -> Result<Change, Refusal>
    ensures { (pid : ℕ) → Comes (L.state look.now)
        (plan (own (L.state look.now) pid (Mknod path.now special)) (Mknod path.now special))
        reads.old result reads.new }
{
    made(look, path, special.object(), reads)
}

// An object by its path whose content never changes.
fn made<L: Look>(look: &L, path: &Bytes, fixed: Fixed, reads: &mut Reads) -> Result<Change, Refusal>
    ensures { let k = L.state look.now in
        Comes k (made k.bounds.path_bytes k.root path.now fixed) reads.old result reads.new }
{
    let last = last_at(look, Errno::EEXIST, path, reads)?;
    absent(last.found)?;
    done(
        reads.heap(),
        Edit::MakeFixed {
            parent: last.parent,
            name: last.name,
            fixed,
            index: 0,
        },
    )
}
