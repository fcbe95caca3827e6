//! Paths: `/`, or one or more of `/name`.
//!
//! Empty paths, relative paths, `.`, `..`, and repeated or trailing slashes are refused.
#![tactic(auto)]

ghost use Rattle.std.specs.Prelude.{◌≡◌, ◌==◌, ◌<◌, ◌≤◌, ℕ, Ok, Err, IfOk, IfErr, OnOk, IfSome};
ghost use Rattle.std.specs.Prelude.{List, [], ◌∷◌, ◌++◌, length, position};
ghost use Rattle.model.specs.Paths.{path_names, names_in, pieces, is_below, is_dots};
ghost use Rattle.model.specs.Paths.{same_name, with_first};
ghost use Rattle.path.specs.Parsing.{IsRefusalBy, pieces_left, bytes_left};

use heap::Heap;
pub use ids::NAME_LIMIT;
use ids::{Errno, Name, Refusal};
use smallvec::SmallVec;
use std::marker::Model;

// Up to four names stand in the path itself.
type Names = SmallVec<Name, 4, Heap>;

/// The names of a path, from the root on. The path `/` has none.
#[derive(Debug)]
pub struct Path {
    names: Names,
}

impl Drop for Path {
    fn drop(self) {
        let Path { names: _ } = self;
    }
}

impl Model for Path {
    ghost use Rattle.std.specs.Prelude.{List, ℕ};

    ghost Value = { List (List ℕ) };

    ghost view = { λ p. p.names.items };
}

impl Path {
    /// Reads a path.
    ///
    /// It is refused with `ENAMETOOLONG` where it has more than `most` bytes, then with `EINVAL` where
    /// it is empty or does not begin with a slash. Then its names are read from the
    /// left: the first that has more than [`NAME_LIMIT`] bytes is refused with `ENAMETOOLONG`, and
    /// the first that is empty, holds a zero byte, or is `.` or `..` with `EINVAL`. `NoMemory` says
    /// that memory was refused.
    pub fn parse(heap: Heap, bytes: &[u8], most: u32) -> Result<Path, Refusal>
        ensures ok { IfOk result (λ path. path_names most bytes.now ≡ Ok path) }
        ensures refused { IfErr result (λ why. IsRefusalBy why (path_names most bytes.now)) }
    {
        if bytes.len() > most as usize {
            return Err(Refusal::Errno(Errno::ENAMETOOLONG));
        }
        match bytes {
            [b'/'] => Ok(Path {
                names: SmallVec::new(heap),
            }),
            [b'/', names @ ..] => Ok(Path {
                names: read_names(heap, names)?,
            }),
            _ => Err(Refusal::Errno(Errno::EINVAL)),
        }
    }

    /// The names, from the root on.
    pub fn components(&self) -> &[Name]
        ensures { result.now ≡ self.now }
    {
        self.names.as_slice()
    }

    /// Whether the other path's names are a beginning of this one's, which goes on.
    pub fn is_below(&self, other: &Path) -> bool
        ensures { result ≡ is_below other.now self.now }
    {
        let above = other.components();
        let below = self.components();
        for i in 0..below.len() {
            if i == above.len() {
                return true;
            }
            if !is_same(&above[i], &below[i]) {
                return false;
            }
        }
        false
    }
}

fn is_same(name: &Name, other: &Name) -> bool
    ensures { result ≡ same_name name.now other.now }
{
    name.as_slice() == other.as_slice()
}

// The names between slashes, read from the left until one is refused.
fn read_names(heap: Heap, bytes: &[u8]) -> Result<Names, Refusal>
    ensures ok { IfOk result (λ names. names_in (pieces bytes.now) ≡ Ok names.items) }
    ensures refused { IfErr result (λ why. IsRefusalBy why (names_in (pieces bytes.now))) }
{
    let mut names = SmallVec::new(heap);
    let mut left = Some(bytes);
    while let Some(bytes) = left {
        let (piece, behind) = cut_at_slash(bytes);
        push_name(heap, &mut names, piece)?;
        left = behind;
    }
    Ok(names)
}

// What stands before the first slash, and what behind it; all of it where there is none.
fn cut_at_slash(bytes: &[u8]) -> (&[u8], Option<&[u8]>)
    ensures pieces { pieces bytes.now ≡ result.0.now ∷ pieces_left result.1 }
    ensures shorter { bytes_left result.1 ≤ length bytes.now }
{
    match first_slash(bytes) {
        Some(end) => (&bytes[..end], Some(&bytes[end + 1..])),
        None => (bytes, None),
    }
}

fn first_slash(bytes: &[u8]) -> Option<usize>
    ensures index { result ≡ position (λ b. b == 47) bytes.now }
    ensures within { IfSome result (λ end. end < length bytes.now) }
{
    bytes.iter().position(|byte| *byte == b'/')
}

// One more name, if it is one.
fn push_name(heap: Heap, names: &mut Names, piece: &[u8]) -> Result<(), Refusal>
    ensures ok { OnOk result (names.new.items ≡ names.old.items ++ piece.now ∷ []) }
    ensures is_name { OnOk result ((others : List (List ℕ))
        → names_in (piece.now ∷ others) ≡ with_first piece.now (names_in others)) }
    ensures refused { IfErr result (λ why. (others : List (List ℕ))
        → IsRefusalBy why (names_in (piece.now ∷ others))) }
{
    if piece.len() > NAME_LIMIT {
        return Err(Refusal::Errno(Errno::ENAMETOOLONG));
    }
    if piece.is_empty() || piece.contains(&0) || is_dots(piece) {
        return Err(Refusal::Errno(Errno::EINVAL));
    }
    let name = Name::copy(heap, piece)?;
    names.push(name).map_err(|_failed| Refusal::NoMemory)?;
    Ok(())
}

fn is_dots(piece: &[u8]) -> bool
    ensures { result ≡ is_dots piece.now }
{
    matches!(piece, b"." | b"..")
}
