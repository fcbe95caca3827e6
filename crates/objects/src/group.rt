// Pieces of a file in a row.
ghost use Rattle.std.specs.Prelude.{◌≡◌, ◌≢◌, ℕ, ◌+◌, ◌<◌, ◌≤◌, ◌⊎◌, [], length, take, true, OnOk};
ghost use Rattle.model.specs.Changes.{written};
ghost use Rattle.objects.specs.Contents.{Content};
ghost use Rattle.objects.specs.Pieces.{LaidIn, WipedIn, piece_in};
ghost use Rattle.objects.specs.declared.group.TheConstants.{GROUP_LEN, PIECE_LEN};

use crate::cell::Cell;
use crate::run::Run;
use heap::Heap;
use std::alloc::AllocError;
use std::marker::Model;
use std::mem;

/// How many bytes a piece has at most: fifteen blocks. What is written comes in buffers whose lengths
/// are mostly powers of two, and pieces are made where such buffers lay before. With what an allocator
/// keeps beside each, pieces of a power of two would leave up to half of such a place empty, and these
/// leave one part in fifteen.
pub(crate) const PIECE_LEN: usize = 15_360;

/// How many pieces a group has at most.
pub(crate) const GROUP_LEN: usize = 256;

/// Pieces in a row. Those behind the last are not there.
pub(crate) struct Group {
    heap: Heap,
    pieces: Vec<Run, Heap>,
}

impl Drop for Group {
    fn drop(self) {
        let Group { heap: _, pieces: _ } = self;
    }
}

impl Model for Group {
    ghost use Rattle.std.specs.Prelude.{◌≤◌, List, vec_len};
    ghost use Rattle.objects.specs.Contents.{Content};
    ghost use Rattle.objects.specs.declared.group.TheConstants.{GROUP_LEN};

    ghost Value = { List Content };

    ghost view = { λ g. g.pieces.items };

    ghost invariant = { λ g. vec_len g.pieces ≤ GROUP_LEN };
}

impl Group {
    /// No piece. It takes no memory.
    pub(crate) fn new(heap: Heap) -> Group
        ensures { result ≡ [] }
    {
        Group {
            heap,
            pieces: Vec::new(heap),
        }
    }

    /// The bytes of a piece.
    pub(crate) fn bytes(&self, index: usize) -> &[u8]
        ensures { result.now ≡ (piece_in self.now index).bytes }
    {
        match self.pieces.get(index) {
            Some(piece) => piece.as_slice(),
            None => &[],
        }
    }

    // Pieces up to this one are there.
    fn reach(&mut self, index: usize) -> Result<(), AllocError>
        requires { index < GROUP_LEN }
        ensures ok { OnOk result (index < length self.new) }
        ensures bytes { (i : ℕ) → (piece_in self.new i).bytes ≡ (piece_in self.old i).bytes }
        ensures room { (i : ℕ) → (piece_in self.old i).room ≤ (piece_in self.new i).room }
    {
        while self.pieces.len() <= index {
            self.pieces.push(Run::new(self.heap))?;
        }
        Ok(())
    }

    /// Makes room for so many bytes of a piece. Refused memory changes no byte.
    pub(crate) fn promise(&mut self, index: usize, len: usize) -> Result<(), AllocError>
        requires within { index < GROUP_LEN }
        requires small { len ≤ PIECE_LEN }
        ensures ok { OnOk result (len ≤ (piece_in self.new index).room) }
        ensures bytes { (i : ℕ) → (piece_in self.new i).bytes ≡ (piece_in self.old i).bytes }
        ensures room { (i : ℕ) → (piece_in self.old i).room ≤ (piece_in self.new i).room }
    {
        self.reach(index)?;
        self.pieces[index].promise_within(len, PIECE_LEN)
    }

    /// Writes bytes into a piece from an offset on, and fills a gap before them with zero bytes. It
    /// takes no memory.
    pub(crate) fn write(&mut self, index: usize, offset: usize, bytes: &[u8])
        requires small { offset + length bytes.now ≤ PIECE_LEN }
        requires room { offset + length bytes.now ≤ (piece_in self.old index).room }
        ensures here { (piece_in self.new index).bytes
            ≡ written (piece_in self.old index).bytes offset bytes.now }
        ensures others { (i : ℕ) → i ≢ index
            → (piece_in self.new i).bytes ≡ (piece_in self.old i).bytes }
        ensures room { (i : ℕ) → (piece_in self.old i).room ≤ (piece_in self.new i).room }
    {
        if index < self.pieces.len() {
            self.pieces[index].write_at(offset, bytes).unwrap();
        }
    }

    /// Writes over the bytes of a piece from an offset on what was written into these cells. It takes
    /// no memory.
    pub(crate) fn lay(&mut self, index: usize, offset: usize, cells: &[Cell])
        requires small { offset + length cells.now ≤ PIECE_LEN }
        requires room { offset + length cells.now ≤ (piece_in self.old index).room }
        ensures here { LaidIn
            offset cells.now (piece_in self.old index).bytes (piece_in self.new index).bytes }
        ensures others { (i : ℕ) → i ≢ index
            → (piece_in self.new i).bytes ≡ (piece_in self.old i).bytes }
        ensures room { (i : ℕ) → (piece_in self.old i).room ≤ (piece_in self.new i).room }
    {
        if index < self.pieces.len() {
            self.pieces[index].lay_at(offset, cells);
        }
    }

    /// Leaves the pieces before one, and of this one so many bytes.
    pub(crate) fn cut(&mut self, index: usize, len: usize)
        ensures before { (i : ℕ) → i < index → piece_in self.new i ≡ piece_in self.old i }
        ensures here { (piece_in self.new index).bytes ≡ take len (piece_in self.old index).bytes }
        ensures behind { (i : ℕ) → index < i → (piece_in self.new i).bytes ≡ [] }
    {
        if index < self.pieces.len() {
            self.pieces[index].shorten(len);
            self.pieces.truncate(index + 1);
        }
    }

    /// Makes bytes of a piece zero, from one offset on, below another. The memory of a piece of which
    /// nothing is left is given back. It takes none.
    pub(crate) fn wipe(&mut self, index: usize, from: usize, to: usize)
        requires { from ≤ to }
        ensures here { WipedIn
            from to (piece_in self.old index).bytes (piece_in self.new index).bytes }
        ensures others { (i : ℕ) → i ≢ index
            → (piece_in self.new i).bytes ≡ (piece_in self.old i).bytes }
    {
        let heap = self.heap;
        if index < self.pieces.len() {
            wipe_in(heap, &mut self.pieces[index], from, to);
        }
    }

    /// Both groups as one, in which each piece has the room of the roomier. Of two pieces at one
    /// place one has no bytes. It takes no memory.
    pub(crate) fn join(self, other: Group) -> Group
        requires { (i : ℕ) → i < GROUP_LEN
            → ((piece_in self i).bytes ≡ []) ⊎ ((piece_in other i).bytes ≡ []) }
        ensures first { (i : ℕ) → (piece_in other i).bytes ≡ []
            → (piece_in result i).bytes ≡ (piece_in self i).bytes }
        ensures second { (i : ℕ) → (piece_in self i).bytes ≡ []
            → (piece_in result i).bytes ≡ (piece_in other i).bytes }
        ensures rooms { (i : ℕ) → ((piece_in self i).room ≤ (piece_in result i).room)
            × ((piece_in other i).room ≤ (piece_in result i).room) }
    {
        if self.pieces.len() < other.pieces.len() {
            self.join_longer(other)
        } else {
            other.join_longer(self)
        }
    }

    // A group that is no shorter, with the pieces of this one.
    fn join_longer(self, mut long: Group) -> Group
        requires fits { length self ≤ length long }
        requires apart { (i : ℕ) → i < GROUP_LEN
            → ((piece_in self i).bytes ≡ []) ⊎ ((piece_in long i).bytes ≡ []) }
        ensures first { (i : ℕ) → (piece_in long i).bytes ≡ []
            → (piece_in result i).bytes ≡ (piece_in self i).bytes }
        ensures second { (i : ℕ) → (piece_in self i).bytes ≡ []
            → (piece_in result i).bytes ≡ (piece_in long i).bytes }
        ensures rooms { (i : ℕ) → ((piece_in self i).room ≤ (piece_in result i).room)
            × ((piece_in long i).room ≤ (piece_in result i).room) }
    {
        let Group {
            heap: _,
            mut pieces,
        } = self;
        while let Some(piece) = pieces.pop() {
            long.pieces[pieces.len()].join(piece);
        }
        long
    }
}

// Makes bytes of a piece zero, from one offset on, below another, and gives its memory back where
// nothing is left of it.
fn wipe_in(heap: Heap, piece: &mut Run, from: usize, to: usize)
    requires { from ≤ to }
    ensures { WipedIn from to piece.old.bytes piece.new.bytes }
{
    if goes_whole(piece, from, to) {
        drop(mem::replace(piece, Run::new(heap)));
    } else {
        piece.wipe(from, to);
    }
}

// Whether no byte of a piece stands outside these.
fn goes_whole(piece: &Run, from: usize, to: usize) -> bool
    ensures { result ≡ true → (from ≡ 0) × (length piece.now.bytes ≤ to) }
{
    from == 0 && piece.len() <= to
}
