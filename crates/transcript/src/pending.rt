// Bytes that are printed and not yet written.
ghost use Rattle.std.specs.Prelude.{◌≡◌, ◌+◌, ◌*◌, ◌≤◌, ◌++◌, [], decimal, flat_map, length, nat_le};
ghost use Rattle.transcript.specs.Text.{byte_text};
ghost use Rattle.transcript.specs.declared.digits.TheConstants.{MOST_DIGITS};
ghost use Rattle.transcript.specs.declared.spelling.TheConstants.{WIDTH};

use crate::digits::{MOST_DIGITS, count_digits};
use crate::spelling::{WIDTH, spell};
use itoa::write_digits;
use std::marker::Model;

// How many bytes are gathered before they are written.
const CAPACITY: usize = 8192;

// How many bytes are spelled at once, at most.
pub(crate) const PORTION: usize = 128;

// Up to `CAPACITY` bytes, in order.
#[derive(Drop)]
pub(crate) struct Pending {
    bytes: [u8; CAPACITY],
    len: usize,
}

impl Model for Pending {
    ghost use Rattle.std.specs.Prelude.{ℕ, ◌≤◌, List, take};
    ghost use Rattle.transcript.specs.declared.pending.TheConstants.{CAPACITY};

    ghost Value = { List ℕ };

    ghost view = { λ p. take p.len p.bytes };

    ghost invariant = { λ p. p.len ≤ CAPACITY };
}

impl Pending {
    pub(crate) fn new() -> Pending
        ensures { result ≡ [] }
    {
        Pending {
            bytes: [0; CAPACITY],
            len: 0,
        }
    }

    // Whether there is room for so many bytes more.
    pub(crate) fn has_room(&self, count: usize) -> bool
        ensures { result ≡ nat_le (length self.now + count) CAPACITY }
    {
        count <= CAPACITY - self.len
    }

    pub(crate) fn append(&mut self, text: &[u8])
        requires { length self.old + length text.now ≤ CAPACITY }
        ensures { self.new ≡ self.old ++ text.now }
    {
        let end = self.len + text.len();
        self.bytes[self.len..end].copy_from_slice(text);
        self.len = end;
    }

    // Appends the digits of a number, each where it will stand.
    pub(crate) fn append_decimal(&mut self, n: u64)
        requires { length self.old + MOST_DIGITS ≤ CAPACITY }
        ensures { self.new ≡ self.old ++ decimal n }
    {
        let end = self.len + count_digits(n);
        write_digits(n, &mut self.bytes, end);
        self.len = end;
    }

    // Appends bytes in their spelling.
    pub(crate) fn spell(&mut self, bytes: &[u8])
        requires { length self.old + length bytes.now * WIDTH ≤ CAPACITY }
        ensures { self.new ≡ self.old ++ flat_map byte_text bytes.now }
    {
        self.len = spell(&mut self.bytes, self.len, bytes);
    }

    pub(crate) fn clear(&mut self)
        ensures { self.new ≡ [] }
    {
        self.len = 0;
    }

    pub(crate) fn as_slice(&self) -> &[u8]
        ensures { result.now ≡ self.now }
    {
        &self.bytes[..self.len]
    }
}
