// The pieces of a file, by their numbers.
ghost use Rattle.std.specs.Prelude.{◌≡◌, ◌≢◌, ℕ, ◌+◌, ◌<◌, ◌≤◌, ◌⊎◌, [], length, take, OnOk};
ghost use Rattle.model.specs.Changes.{written};
ghost use Rattle.objects.specs.Laid.{LaidIn, WipedIn};
ghost use Rattle.objects.specs.Pieces.{piece_of};
ghost use Rattle.objects.specs.declared.pieces.TheConstants.{MOST_PIECES};
ghost use Rattle.objects.specs.declared.row.TheConstants.{PIECE_LEN};

use crate::cell::Cell;
use crate::row::{HoldsPieces, Row};
use crate::run::Run;
use heap::Heap;
use std::alloc::AllocError;

/// How many pieces lie in the first region of a file.
pub(crate) const NEAR_PIECES: usize = 4096;

/// How many pieces there are at most, more than the largest file has.
pub(crate) const MOST_PIECES: usize = 18_014_398_509_481_984;

type Rows<T> = Row<Row<Row<T>>>;

/// The pieces of the first region, which are two steps away, and those of all further ones, nine steps
/// away. No row is long, wherever a piece lies: so the memory is for what was written.
pub(crate) struct Pieces {
    near: Row<Row<Run>>,
    far: Rows<Rows<Rows<Run>>>,
}

impl Drop for Pieces {
    fn drop(self) {
        let Pieces { near: _, far: _ } = self;
    }
}

impl Pieces {
    /// No piece. It takes no memory.
    pub(crate) fn new(heap: Heap) -> Pieces
        ensures { (n : ℕ) → (piece_of result n).bytes ≡ [] }
    {
        Pieces {
            near: HoldsPieces::empty(heap),
            far: HoldsPieces::empty(heap),
        }
    }

    /// The bytes of a piece.
    pub(crate) fn bytes(&self, number: usize) -> &[u8]
        ensures { result.now ≡ (piece_of self.now number).bytes }
    {
        if number < NEAR_PIECES {
            self.near.bytes(number)
        } else {
            self.far.bytes(number)
        }
    }

    /// A piece from a number on: none between has bytes. Where there are further ones that have some it
    /// is the first of these. It looks at what is there, however far that is.
    pub(crate) fn next(&self, from: usize) -> usize
        ensures { (n : ℕ) → from ≤ n → n < result → (piece_of self.now n).bytes ≡ [] }
    {
        let found = self.near.next(from);
        if found < NEAR_PIECES {
            found
        } else {
            self.far.next(from.max(NEAR_PIECES))
        }
    }

    /// Makes room for so many bytes of a piece. Refused memory changes no byte.
    pub(crate) fn promise(&mut self, number: usize, len: usize) -> Result<(), AllocError>
        requires within { number < MOST_PIECES }
        requires small { len ≤ PIECE_LEN }
        ensures ok { OnOk result (len ≤ (piece_of self.new number).room) }
        ensures bytes { (n : ℕ) → (piece_of self.new n).bytes ≡ (piece_of self.old n).bytes }
        ensures room { (n : ℕ) → (piece_of self.old n).room ≤ (piece_of self.new n).room }
    {
        if number < NEAR_PIECES {
            self.near.promise_piece(number, len)
        } else {
            self.far.promise_piece(number, len)
        }
    }

    /// Writes bytes into a piece from an offset on, and fills a gap before them with zero bytes. It
    /// takes no memory.
    pub(crate) fn write(&mut self, number: usize, offset: usize, bytes: &[u8])
        requires small { offset + length bytes.now ≤ PIECE_LEN }
        requires room { offset + length bytes.now ≤ (piece_of self.old number).room }
        ensures here { (piece_of self.new number).bytes
            ≡ written (piece_of self.old number).bytes offset bytes.now }
        ensures others { (n : ℕ) → n ≢ number
            → (piece_of self.new n).bytes ≡ (piece_of self.old n).bytes }
        ensures room { (n : ℕ) → (piece_of self.old n).room ≤ (piece_of self.new n).room }
    {
        if number < NEAR_PIECES {
            self.near.write_piece(number, offset, bytes);
        } else {
            self.far.write_piece(number, offset, bytes);
        }
    }

    /// Writes over the bytes of a piece from an offset on what was written into these cells. It takes
    /// no memory.
    pub(crate) fn lay(&mut self, number: usize, offset: usize, cells: &[Cell])
        requires small { offset + length cells.now ≤ PIECE_LEN }
        requires room { offset + length cells.now ≤ (piece_of self.old number).room }
        ensures here { LaidIn
            offset cells.now (piece_of self.old number).bytes (piece_of self.new number).bytes }
        ensures others { (n : ℕ) → n ≢ number
            → (piece_of self.new n).bytes ≡ (piece_of self.old n).bytes }
        ensures room { (n : ℕ) → (piece_of self.old n).room ≤ (piece_of self.new n).room }
    {
        if number < NEAR_PIECES {
            self.near.lay_piece(number, offset, cells);
        } else {
            self.far.lay_piece(number, offset, cells);
        }
    }

    /// Leaves the pieces before one, and of this one so many bytes.
    pub(crate) fn cut(&mut self, number: usize, len: usize)
        ensures before { (n : ℕ) → n < number
            → (piece_of self.new n).bytes ≡ (piece_of self.old n).bytes }
        ensures here { (piece_of self.new number).bytes
            ≡ take len (piece_of self.old number).bytes }
        ensures behind { (n : ℕ) → number < n → (piece_of self.new n).bytes ≡ [] }
    {
        if number < NEAR_PIECES {
            self.near.cut_at(number, len);
            self.far = HoldsPieces::empty(self.near.heap());
        } else {
            self.far.cut_at(number, len);
        }
    }

    /// Makes bytes of a piece zero, from one offset on, below another. Memory of which nothing is left
    /// is given back. It takes none.
    pub(crate) fn wipe(&mut self, number: usize, from: usize, to: usize)
        requires { from ≤ to }
        ensures here { WipedIn
            from to (piece_of self.old number).bytes (piece_of self.new number).bytes }
        ensures others { (n : ℕ) → n ≢ number
            → (piece_of self.new n).bytes ≡ (piece_of self.old n).bytes }
    {
        if number < NEAR_PIECES {
            self.near.wipe_piece(number, from, to);
        } else {
            self.far.wipe_piece(number, from, to);
        }
    }

    /// Takes all bytes of the pieces from one number on, below another, and gives their memory back.
    /// It goes over what is there, and takes no memory.
    pub(crate) fn clear(&mut self, first: usize, last: usize)
        ensures inside { (n : ℕ) → first ≤ n → n < last → (piece_of self.new n).bytes ≡ [] }
        ensures outside { (n : ℕ) → (n < first) ⊎ (last ≤ n)
            → (piece_of self.new n).bytes ≡ (piece_of self.old n).bytes }
    {
        self.near.clear(first, last);
        self.far.clear(first.max(NEAR_PIECES), last);
    }

    /// All pieces of both, each with the room of the roomier, and with the bytes of the one that has
    /// some. It takes no memory.
    pub(crate) fn join(&mut self, other: Pieces)
        ensures first { (n : ℕ) → (piece_of other n).bytes ≡ []
            → (piece_of self.new n).bytes ≡ (piece_of self.old n).bytes }
        ensures second { (n : ℕ) → (piece_of self.old n).bytes ≡ []
            → (piece_of self.new n).bytes ≡ (piece_of other n).bytes }
        ensures rooms { (n : ℕ) → ((piece_of self.old n).room ≤ (piece_of self.new n).room)
            × ((piece_of other n).room ≤ (piece_of self.new n).room) }
    {
        let Pieces { near, far } = other;
        self.near.join_with(near);
        self.far.join_with(far);
    }
}
