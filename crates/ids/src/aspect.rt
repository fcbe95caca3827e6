// What a call touches, and why an operation is aborted or put off.
ghost use Rattle.std.specs.Prelude.{◌≡◌, ◌∷◌, IfOk, refl};
ghost use Rattle.std.specs.Cmp;
ghost use Rattle.std.specs.Cmp.{partial_order_from_agreeing_total};
ghost use Rattle.std.specs.Cmp.Rules.{comparing};
ghost use Rattle.std.specs.Cmp.Lexicographic.{slice_cmp};
ghost use Rattle.std.specs.Ordering.{as_partial_cmp, eq_by_cmp, nat_cmp};
ghost use Rattle.std.proofs.Common.{rules};
ghost use Rattle.std.proofs.lemmas.Cmp.{eq_by_cmp_equiv};
ghost use Rattle.ids.specs.Order.{object_of, kind_of, block_of, name_of, fed_alike};

use crate::bytes::Name;
use crate::number::{Num, Pid};
use std::alloc::AllocError;
use std::cmp::Ordering;
use std::hash::{Hash, Hasher};

/// What a touch speaks of: a part of the kernel's state that calls see and change.
#[derive(Debug)]
pub enum Aspect {
    /// What a name of a directory gives.
    Entry(Num, Name),
    /// All names of a directory.
    Names(Num),
    /// A file's length.
    Size(Num),
    /// A file's 1,024 bytes from 1,024 times the second number.
    Block(Num, u64),
    /// How many names give a file, or anything else that is no directory.
    Links(Num),
    /// How many descriptors are open on either end of a pipe.
    Ends(Num),
    /// The offset of a description.
    Offset(Num),
    /// What a reader takes from a pipe.
    Front(Num),
    /// What a writer adds to a pipe.
    Back(Num),
    /// The target of a symbolic link.
    Target(Num),
    /// The permissions and the owner of an object.
    Rights(Num),
}

impl Drop for Aspect {
    fn drop(self) {
        match self {
            Aspect::Entry(_, _) => {}
            Aspect::Names(_) => {}
            Aspect::Size(_) => {}
            Aspect::Block(_, _) => {}
            Aspect::Links(_) => {}
            Aspect::Ends(_) => {}
            Aspect::Offset(_) => {}
            Aspect::Front(_) => {}
            Aspect::Back(_) => {}
            Aspect::Target(_) => {}
            Aspect::Rights(_) => {}
        }
    }
}

impl Aspect {
    /// A copy on the same allocator. Refused memory changes nothing.
    pub fn try_clone(&self) -> Result<Aspect, AllocError>
        ensures { IfOk result (λ copy. copy ≡ self.now) }
    {
        match self {
            Aspect::Entry(directory, name) => Ok(Aspect::Entry(*directory, name.try_clone()?)),
            Aspect::Names(directory) => Ok(Aspect::Names(*directory)),
            Aspect::Size(file) => Ok(Aspect::Size(*file)),
            Aspect::Block(file, block) => Ok(Aspect::Block(*file, *block)),
            Aspect::Links(file) => Ok(Aspect::Links(*file)),
            Aspect::Ends(pipe) => Ok(Aspect::Ends(*pipe)),
            Aspect::Offset(description) => Ok(Aspect::Offset(*description)),
            Aspect::Front(pipe) => Ok(Aspect::Front(*pipe)),
            Aspect::Back(pipe) => Ok(Aspect::Back(*pipe)),
            Aspect::Target(link) => Ok(Aspect::Target(*link)),
            Aspect::Rights(inode) => Ok(Aspect::Rights(*inode)),
        }
    }

    /// The object's number.
    pub fn object(&self) -> usize
        ensures { result ≡ object_of self.now }
    {
        match self {
            Aspect::Entry(directory, _) => directory.0,
            Aspect::Names(directory) => directory.0,
            Aspect::Size(file) => file.0,
            Aspect::Block(file, _) => file.0,
            Aspect::Links(file) => file.0,
            Aspect::Ends(pipe) => pipe.0,
            Aspect::Offset(description) => description.0,
            Aspect::Front(pipe) => pipe.0,
            Aspect::Back(pipe) => pipe.0,
            Aspect::Target(link) => link.0,
            Aspect::Rights(inode) => inode.0,
        }
    }

    /// Which part of the object it is: a number of its own for each.
    pub fn part(&self) -> u8
        ensures { result ≡ kind_of self.now }
    {
        match self {
            Aspect::Entry(_, _) => 0,
            Aspect::Names(_) => 1,
            Aspect::Size(_) => 2,
            Aspect::Block(_, _) => 3,
            Aspect::Links(_) => 4,
            Aspect::Ends(_) => 5,
            Aspect::Offset(_) => 6,
            Aspect::Front(_) => 7,
            Aspect::Back(_) => 8,
            Aspect::Target(_) => 9,
            Aspect::Rights(_) => 10,
        }
    }

    /// The block of a file, 0 for what has none.
    pub fn block(&self) -> u64
        ensures { result ≡ block_of self.now }
    {
        match self {
            Aspect::Block(_, block) => *block,
            _ => 0,
        }
    }

    /// The name of an entry, empty for what has none.
    pub fn name(&self) -> &[u8]
        ensures { result.now ≡ name_of self.now }
    {
        match self {
            Aspect::Entry(_, name) => name.as_slice(),
            _ => &[],
        }
    }
}

fn compare_names<'x>(first: &'x [u8], second: &'x [u8]) -> Ordering
    ensures { result ≡ slice_cmp nat_cmp first.now second.now }
{
    first.cmp(&second)
}

// The order of two aspects of the same part of an object.
fn compare_in_part(first: &Aspect, second: &Aspect) -> Ordering
    ensures { result ≡ slice_cmp nat_cmp
        (block_of first.now ∷ name_of first.now) (block_of second.now ∷ name_of second.now) }
{
    match first.block().cmp(&second.block()) {
        Ordering::Equal => compare_names(first.name(), second.name()),
        order => order,
    }
}

// The order of two aspects of the same object.
fn compare_in_object(first: &Aspect, second: &Aspect) -> Ordering
    ensures { result ≡ slice_cmp nat_cmp
        (kind_of first.now ∷ block_of first.now ∷ name_of first.now)
        (kind_of second.now ∷ block_of second.now ∷ name_of second.now) }
{
    match first.part().cmp(&second.part()) {
        Ordering::Equal => compare_in_part(first, second),
        order => order,
    }
}

impl PartialEq for Aspect {
    ghost use Rattle.ids.specs.Order.{aspect_cmp, aspect_cmp_total};

    ghost eq = { eq_by_cmp aspect_cmp };

    ghost laws = { Cmp.partial_equiv_from_equiv (eq_by_cmp_equiv aspect_cmp_total) };

    fn eq(&self, other: &Aspect) -> bool {
        self.cmp(other).is_eq()
    }
}

impl Eq for Aspect {
    ghost use Rattle.ids.specs.Order.{aspect_cmp, aspect_cmp_total};

    ghost laws = { eq_by_cmp_equiv aspect_cmp_total };
}

impl PartialOrd for Aspect {
    ghost use Rattle.ids.specs.Order.{aspect_cmp, aspect_cmp_total};

    ghost partial_cmp = { as_partial_cmp aspect_cmp };

    ghost laws = { partial_order_from_agreeing_total aspect_cmp aspect_cmp_total
        (λ x y. refl) (λ x y. refl) };

    fn partial_cmp(&self, other: &Aspect) -> Option<Ordering> {
        Some(self.cmp(other))
    }
}

/// By the object, its part, the block, and the name in byte order. Only an aspect and itself are
/// equal.
impl Ord for Aspect {
    ghost use Rattle.ids.specs.Order.{aspect_cmp, aspect_cmp_total};

    ghost cmp = { aspect_cmp };

    ghost total = { aspect_cmp_total };

    ghost matches_partial_cmp = { Prim.search (comparing, rules) };

    ghost matches_eq = { λ x y. refl };

    #[tactic(auto, unfolding(crate::specs::Order::aspect_cmp))]
    fn cmp(&self, other: &Aspect) -> Ordering {
        // Most are told apart by their objects, so nothing else is looked at before.
        match self.object().cmp(&other.object()) {
            Ordering::Equal => compare_in_object(self, other),
            order => order,
        }
    }
}

// The name is one write of all its bytes, as in the hash of a name.
impl Hash for Aspect {
    ghost use Rattle.ids.specs.Order.{aspect_fed};

    ghost hash_input = { aspect_fed };

    ghost respects_eq = { fed_alike };

    fn hash<H: Hasher>(&self, state: &mut H) {
        state.write_usize(self.object());
        state.write_u8(self.part());
        state.write_u64(self.block());
        state.write(self.name());
    }
}

/// An aspect that is read or written.
#[derive(Debug)]
pub struct Touch {
    /// What is touched.
    pub aspect: Aspect,
    /// Whether it is written, and not only read.
    pub write: bool,
}

impl Drop for Touch {
    fn drop(self) {
        let Touch {
            aspect: _,
            write: _,
        } = self;
    }
}

impl Touch {
    /// A copy on the same allocator. Refused memory changes nothing.
    pub fn try_clone(&self) -> Result<Touch, AllocError>
        ensures { IfOk result (λ copy. copy ≡ self.now) }
    {
        Ok(Touch {
            aspect: self.aspect.try_clone()?,
            write: self.write,
        })
    }
}

/// Why a process lost a conflict: the touch of its own that clashed, and the process that won.
#[derive(Debug)]
pub struct Cause {
    /// A touch of the process that is aborted or put off.
    pub touch: Touch,
    /// The process that won.
    pub other: Pid,
}

impl Drop for Cause {
    fn drop(self) {
        let Cause { touch: _, other: _ } = self;
    }
}

impl Cause {
    /// A copy on the same allocator. Refused memory changes nothing.
    pub fn try_clone(&self) -> Result<Cause, AllocError>
        ensures { IfOk result (λ copy. copy ≡ self.now) }
    {
        Ok(Cause {
            touch: self.touch.try_clone()?,
            other: self.other,
        })
    }
}

/// Why a transaction was aborted.
#[derive(Debug)]
pub enum Why {
    /// It lost a conflict.
    Clash(Cause),
    /// It made a call that transactions do not support.
    Unsupported,
}

impl Drop for Why {
    fn drop(self) {
        match self {
            Why::Clash(_) => {}
            Why::Unsupported => {}
        }
    }
}

impl Why {
    /// A copy on the same allocator. Refused memory changes nothing.
    pub fn try_clone(&self) -> Result<Why, AllocError>
        ensures { IfOk result (λ copy. copy ≡ self.now) }
    {
        match self {
            Why::Clash(cause) => Ok(Why::Clash(cause.try_clone()?)),
            Why::Unsupported => Ok(Why::Unsupported),
        }
    }
}
