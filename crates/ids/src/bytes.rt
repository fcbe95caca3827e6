// Bytes and names that are owned. Contracts see each as a list.
ghost use Rattle.std.specs.Prelude.{◌≡◌, ◌≤◌, ◌++◌, IfOk, IfSome, MatchResult, length};
ghost use Rattle.ids.specs.declared.bytes.TheConstants.{IN_PLACE};

use arrayvec::ArrayVec;
use heap::Heap;
use smallvec::SmallVec;
use std::alloc::{AllocError, AllocFailed};
use std::default::MadeWith;
use std::fmt;
use std::fmt::Debug;
use std::marker::Model;
use std::sync::Arc;

// Up to how many bytes stand in place, and take no memory.
const IN_PLACE: usize = 24;

// Up to how many bytes stand behind a count of owners in one block.
const FEW: usize = 64;

// Where bytes stand.
#[derive(Drop)]
enum Form {
    // In place.
    Short(ArrayVec<u8, IN_PLACE>),
    // In a block that copies have too, also in other threads. It goes with the last of them.
    Few(Arc<ArrayVec<u8, FEW>, Heap>),
    // In a vector that is theirs alone.
    Own(Vec<u8, Heap>),
    // In a vector that copies have too.
    Shared(Arc<Vec<u8, Heap>, Heap>),
}

/// Bytes that are owned: a path as it was given, or what is read or written. Up to 24 of them stand
/// in place, and take no memory; copies of up to 64 take none either, nor do copies of more once
/// they are shared.
pub struct Bytes {
    form: Form,
}

impl Drop for Bytes {
    fn drop(self) {
        let Bytes { form: _ } = self;
    }
}

// By hand: the text tells the bytes, wherever they stand.
impl Debug for Bytes {
    fn fmt<W: fmt::Write>(&self, f: &mut fmt::Formatter<W>) -> fmt::Result {
        f.debug_struct("Bytes")
            .field("bytes", &self.as_slice())
            .finish()
    }
}

impl Model for Bytes {
    ghost use Rattle.std.specs.Prelude.{List, ℕ};
    ghost use Rattle.ids.specs.Forms.{bytes_in};

    ghost Value = { List ℕ };

    ghost view = { λ b. bytes_in b.form };
}

// A copy of a few bytes, in place.
fn in_place(bytes: &[u8]) -> ArrayVec<u8, IN_PLACE>
    requires { length bytes.now ≤ IN_PLACE }
    ensures { result.items ≡ bytes.now }
{
    let mut short = ArrayVec::new();
    short.try_extend_from_slice(bytes).unwrap();
    short
}

// Copies of these bytes, the first and behind them the second, in a block. `None` stands where they
// are too many.
fn few(first: &[u8], second: &[u8]) -> Option<ArrayVec<u8, FEW>>
    ensures { IfSome result (λ few. few.items ≡ first.now ++ second.now) }
{
    let mut few = ArrayVec::new();
    few.try_extend_from_slice(first).ok()?;
    few.try_extend_from_slice(second).ok()?;
    Some(few)
}

impl Bytes {
    /// Takes the vector as it is, with no memory.
    pub fn new(bytes: Vec<u8, Heap>) -> Bytes
        ensures { result ≡ bytes.entry.items }
    {
        Bytes {
            form: Form::Own(bytes),
        }
    }

    // Bytes in place.
    fn short(bytes: ArrayVec<u8, IN_PLACE>) -> Bytes
        ensures { result ≡ bytes.items }
    {
        Bytes {
            form: Form::Short(bytes),
        }
    }

    // Bytes in a block behind a count of owners. Refused memory gives nothing.
    fn counted_few(heap: Heap, bytes: ArrayVec<u8, FEW>) -> Result<Bytes, AllocError>
        ensures { IfOk result (λ b. b ≡ bytes.items) }
    {
        match Arc::new(heap, bytes) {
            Ok(bytes) => Ok(Bytes {
                form: Form::Few(bytes),
            }),
            Err(_) => Err(AllocError),
        }
    }

    /// The bytes, in order.
    pub fn as_slice(&self) -> &[u8]
        ensures { result.now ≡ self.now }
    {
        match &self.form {
            Form::Short(bytes) => bytes.as_slice(),
            Form::Few(bytes) => bytes.as_slice(),
            Form::Own(bytes) => bytes.as_slice(),
            Form::Shared(bytes) => bytes.as_slice(),
        }
    }

    /// A copy of these bytes. Up to 24 of them take no memory. Refused memory changes nothing.
    pub fn copy(heap: Heap, bytes: &[u8]) -> Result<Bytes, AllocError>
        ensures { IfOk result (λ b. b ≡ bytes.now) }
    {
        if bytes.len() <= IN_PLACE {
            return Ok(Bytes::short(in_place(bytes)));
        }
        match few(bytes, &[]) {
            Some(few) => Bytes::counted_few(heap, few),
            None => Ok(Bytes::new(Vec::from_slice(heap, bytes)?)),
        }
    }

    /// Copies of these bytes, the first and behind them the second. Up to 24 of them take no memory.
    /// Refused memory changes nothing.
    pub fn joined(heap: Heap, first: &[u8], second: &[u8]) -> Result<Bytes, AllocError>
        ensures { IfOk result (λ b. b ≡ first.now ++ second.now) }
    {
        match few(first, second) {
            Some(few) if few.len() <= IN_PLACE => Ok(Bytes::short(in_place(few.as_slice()))),
            Some(few) => Bytes::counted_few(heap, few),
            None => {
                let mut bytes = Vec::with_capacity(heap, first.len().saturating_add(second.len()))?;
                bytes.extend_from_slice(first)?;
                bytes.extend_from_slice(second)?;
                Ok(Bytes::new(bytes))
            }
        }
    }

    /// These bytes and more behind them. Refused memory gives nothing.
    pub fn followed_by(self, heap: Heap, more: &[u8]) -> Result<Bytes, AllocError>
        ensures { IfOk result (λ b. b ≡ self ++ more.now) }
    {
        if more.is_empty() {
            return Ok(self);
        }
        let Bytes { form } = self;
        match form {
            Form::Short(bytes) => Bytes::joined(heap, bytes.as_slice(), more),
            Form::Few(bytes) => Bytes::joined(heap, bytes.as_slice(), more),
            Form::Shared(bytes) => Bytes::joined(heap, bytes.as_slice(), more),
            Form::Own(mut bytes) => {
                bytes.extend_from_slice(more)?;
                Ok(Bytes::new(bytes))
            }
        }
    }

    // The bytes of a vector, so that copies take no memory: few of them in place or in a block, and
    // more behind a count of owners. Where memory is refused, the bytes are given back as they were.
    fn counted(bytes: Vec<u8, Heap>) -> Result<Bytes, Bytes>
        ensures { MatchResult result (λ b. b ≡ bytes.entry.items) (λ b. b ≡ bytes.entry.items) }
    {
        let heap = *bytes.allocator();
        if bytes.len() <= FEW {
            return match Bytes::copy(heap, bytes.as_slice()) {
                Ok(copy) => Ok(copy),
                Err(_) => Err(Bytes::new(bytes)),
            };
        }
        match Arc::new(heap, bytes) {
            Ok(bytes) => Ok(Bytes {
                form: Form::Shared(bytes),
            }),
            Err(AllocFailed { value }) => Err(Bytes::new(value)),
        }
    }

    // The same bytes, of which copies take no memory. Where memory is refused, they are given back as
    // they were.
    fn share(self) -> Result<Bytes, Bytes>
        ensures { MatchResult result (λ b. b ≡ self) (λ b. b ≡ self) }
    {
        let Bytes { form } = self;
        match form {
            Form::Own(bytes) => Bytes::counted(bytes),
            form => Ok(Bytes { form }),
        }
    }

    /// The same bytes, of which copies take no memory. Refused memory gives nothing.
    pub fn try_shared(self) -> Result<Bytes, AllocError>
        ensures { IfOk result (λ b. b ≡ self) }
    {
        match self.share() {
            Ok(bytes) => Ok(bytes),
            Err(_) => Err(AllocError),
        }
    }

    /// The same bytes, of which copies take no memory, unless memory is refused: then they stay as
    /// they are.
    pub fn shared(self) -> Bytes
        ensures { result ≡ self }
    {
        match self.share() {
            Ok(bytes) => bytes,
            Err(bytes) => bytes,
        }
    }

    /// A copy on the same allocator. Refused memory changes nothing.
    pub fn try_clone(&self) -> Result<Bytes, AllocError>
        ensures { IfOk result (λ b. b ≡ self.now) }
    {
        match &self.form {
            Form::Short(bytes) => Ok(Bytes::short(in_place(bytes.as_slice()))),
            Form::Few(bytes) => Ok(Bytes {
                form: Form::Few(Arc::try_clone(bytes)?),
            }),
            Form::Own(bytes) => Bytes::copy(*bytes.allocator(), bytes.as_slice()),
            Form::Shared(bytes) => Ok(Bytes {
                form: Form::Shared(Arc::try_clone(bytes)?),
            }),
        }
    }
}

// The length up to which a name takes no memory: its bytes stand where those of a longer one are
// told of.
const SHORT: usize = 24;

/// A name in a directory. That it has 1 to 255 bytes and no slash is for the path that it came
/// from. A name of up to 24 bytes takes no memory, and neither does a copy of it.
#[derive(Debug)]
pub struct Name {
    bytes: SmallVec<u8, SHORT, Heap>,
}

impl Drop for Name {
    fn drop(self) {
        let Name { bytes: _ } = self;
    }
}

impl Model for Name {
    ghost use Rattle.std.specs.Prelude.{List, ℕ};

    ghost Value = { List ℕ };

    ghost view = { λ n. n.bytes.items };
}

impl Name {
    /// The bytes, in order.
    pub fn as_slice(&self) -> &[u8]
        ensures { result.now ≡ self.now }
    {
        self.bytes.as_slice()
    }

    /// A copy of these bytes. Refused memory changes nothing.
    pub fn copy(heap: Heap, bytes: &[u8]) -> Result<Name, AllocError>
        ensures { IfOk result (λ b. b ≡ bytes.now) }
    {
        Ok(Name {
            bytes: SmallVec::from_slice(heap, bytes)?,
        })
    }

    /// A copy on the same allocator. Refused memory changes nothing.
    pub fn try_clone(&self) -> Result<Name, AllocError>
        ensures { IfOk result (λ b. b ≡ self.now) }
    {
        Name::copy(*self.bytes.allocator(), self.as_slice())
    }
}

// What stands in the free places of a short list of names.
impl MadeWith<Heap> for Name {
    fn made_with(heap: Heap) -> Name {
        Name {
            bytes: SmallVec::new(heap),
        }
    }
}

// Where the names of a list stand.
#[derive(Drop)]
enum Names {
    // In a vector that is theirs alone.
    Own(Vec<Name, Heap>),
    // In a vector that copies have too, also in other threads. It goes with the last of them.
    Shared(Arc<Vec<Name, Heap>, Heap>),
}

/// Names in order, as `list` answers them. Copies take no memory once they are shared.
pub struct NameList {
    names: Names,
}

impl Drop for NameList {
    fn drop(self) {
        let NameList { names: _ } = self;
    }
}

// By hand: the text tells the names, wherever they stand.
impl Debug for NameList {
    fn fmt<W: fmt::Write>(&self, f: &mut fmt::Formatter<W>) -> fmt::Result {
        f.debug_struct("NameList")
            .field("names", &self.as_slice())
            .finish()
    }
}

impl Model for NameList {
    ghost use Rattle.std.specs.Prelude.{List, ℕ};
    ghost use Rattle.ids.specs.Forms.{names_in};

    ghost Value = { List (List ℕ) };

    ghost view = { λ l. names_in l.names };
}

impl NameList {
    /// Takes the vector as it is, with no memory.
    pub fn new(names: Vec<Name, Heap>) -> NameList
        ensures { result ≡ names.entry.items }
    {
        NameList {
            names: Names::Own(names),
        }
    }

    /// The names, in order.
    pub fn as_slice(&self) -> &[Name]
        ensures { result.now ≡ self.now }
    {
        match &self.names {
            Names::Own(names) => names.as_slice(),
            Names::Shared(names) => names.as_slice(),
        }
    }

    /// The same names, of which copies take no memory. Refused memory gives nothing.
    pub fn try_shared(self) -> Result<NameList, AllocError>
        ensures { IfOk result (λ l. l ≡ self) }
    {
        let NameList { names } = self;
        match names {
            Names::Own(names) => NameList::counted(names),
            names => Ok(NameList { names }),
        }
    }

    // The names behind a count of owners, where there are any. Refused memory gives nothing.
    fn counted(names: Vec<Name, Heap>) -> Result<NameList, AllocError>
        ensures { IfOk result (λ l. l ≡ names.entry.items) }
    {
        if names.is_empty() {
            return Ok(NameList::new(names));
        }
        match Arc::new(*names.allocator(), names) {
            Ok(names) => Ok(NameList {
                names: Names::Shared(names),
            }),
            Err(_) => Err(AllocError),
        }
    }

    /// A copy on the same allocator. Refused memory changes nothing.
    pub fn try_clone(&self) -> Result<NameList, AllocError>
        ensures { IfOk result (λ l. l ≡ self.now) }
    {
        match &self.names {
            Names::Own(names) => Ok(NameList::new(names_copied(names)?)),
            Names::Shared(names) => Ok(NameList {
                names: Names::Shared(Arc::try_clone(names)?),
            }),
        }
    }
}

// A copy of these names on the same allocators. Refused memory changes nothing.
fn names_copied(names: &Vec<Name, Heap>) -> Result<Vec<Name, Heap>, AllocError>
    ensures { IfOk result (λ copies. copies.items ≡ names.now.items) }
{
    let mut copies = Vec::with_capacity(*names.allocator(), names.len())?;
    for name in names {
        copies.push(name.try_clone()?)?;
    }
    Ok(copies)
}
