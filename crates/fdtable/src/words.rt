// Bits in a row of words, 64 to a word; behind the last word they are 0.
ghost use Rattle.std.specs.Prelude.{◌≡◌, ◌≢◌, ◌+◌, ◌*◌, ◌/◌, ◌<◌, ◌≤◌, ◌++◌, ℕ, drop, get_or, length, max};
ghost use Rattle.std.specs.Prelude.{OnOk};
ghost use Rattle.std.specs.Int.{bit_at};
ghost use Rattle.fdtable.specs.Words.{IsLowestClear, as_bit, bit_in, most_words};

use heap::Heap;
use std::alloc::AllocError;
use std::mem;

/// How many bits a word has.
pub(crate) const BITS: usize = 64;

/// A word, by its index.
pub(crate) fn word_at(words: &[u64], index: usize) -> u64
    ensures { result ≡ get_or words.now index 0 }
{
    match words.get(index) {
        Some(word) => *word,
        None => 0,
    }
}

/// A word in which the bits below this one are set as well.
pub(crate) fn filled_below(word: u64, bit: usize) -> u64
    requires { bit < 64 }
    ensures below { (i : ℕ) → i < bit → bit_at result i ≡ 1 }
    ensures others { (i : ℕ) → bit ≤ i → bit_at result i ≡ bit_at word i }
{
    word | ((1 << bit) - 1)
}

/// The lowest bit of a word that is 0.
pub(crate) fn lowest_clear(word: u64) -> Option<usize>
    ensures { IsLowestClear word result }
{
    if word == u64::MAX {
        None
    } else {
        Some(word.trailing_ones() as usize)
    }
}

/// A word with one bit set, or cleared.
pub(crate) fn with_bit(word: u64, bit: usize, is_set: bool) -> u64
    requires { bit < 64 }
    ensures here { bit_at result bit ≡ as_bit is_set }
    ensures others { (i : ℕ) → i < 64 → i ≢ bit → bit_at result i ≡ bit_at word i }
{
    if is_set {
        word | 1 << bit
    } else {
        word & !(1 << bit)
    }
}

/// Whether a bit is set.
pub(crate) fn is_set(words: &[u64], bit: usize) -> bool
    ensures { as_bit result ≡ bit_in words.now bit }
{
    word_at(words, bit / BITS) >> (bit % BITS) & 1 == 1
}

/// Sets a bit of a word that is there, or clears it.
pub(crate) fn mark(words: &mut [u64], bit: usize, is_set: bool)
    requires { bit / 64 < length words.old }
    ensures here { bit_in words.new bit ≡ as_bit is_set }
    ensures others { (i : ℕ) → i ≢ bit → bit_in words.new i ≡ bit_in words.old i }
    ensures count { length words.new ≡ length words.old }
{
    let index = bit / BITS;
    words[index] = with_bit(words[index], bit % BITS, is_set);
}

/// Makes words up to that of this bit. Refused memory changes no bit.
pub(crate) fn reach(words: &mut Vec<u64, Heap>, bit: usize) -> Result<(), AllocError>
    ensures ok { OnOk result (bit / 64 < length words.new.items) }
    ensures bits { (i : ℕ) → bit_in words.new.items i ≡ bit_in words.old.items i }
    ensures few { length words.new.items ≤ max (length words.old.items) (bit / 64 + 1) }
    ensures longer { length words.old.items ≤ length words.new.items }
{
    while words.len() <= bit / BITS {
        words.push(0)?;
    }
    Ok(())
}

/// Takes the memory of other words, in which no bit is set, where it is more. It takes none itself.
pub(crate) fn join(words: &mut Vec<u64, Heap>, mut other: Vec<u64, Heap>)
    requires { (i : ℕ) → bit_in other.items i ≡ 0 }
    ensures bits { (i : ℕ) → bit_in words.new.items i ≡ bit_in words.old.items i }
    ensures long { length words.new.items
        ≡ max (length words.old.items) (length other.entry.items) }
{
    if words.len() < other.len() {
        write_front(other.as_mut_slice(), words.as_slice());
        mem::swap(words, &mut other);
    }
}

// Words are written over the first of a row.
fn write_front(row: &mut [u64], words: &[u64])
    requires { length words.now ≤ length row.old }
    ensures { row.new ≡ words.now ++ drop (length words.now) row.old }
{
    row[..words.len()].copy_from_slice(words);
}

/// The lowest bit from this one on that is 0. It looks at one word after the other.
pub(crate) fn clear_from(words: &[u64], first: usize) -> usize
    requires few { length words.now ≤ most_words }
    requires small { first ≤ most_words }
    ensures clear { bit_in words.now result ≡ 0 }
    ensures from { first ≤ result }
    ensures set { (i : ℕ) → first ≤ i → i < result → bit_in words.now i ≡ 1 }
    ensures within { result ≤ 64 * max (length words.now) (first / 64 + 1) }
{
    let start = first / BITS;
    if let Some(bit) = lowest_clear(filled_below(word_at(words, start), first % BITS)) {
        return start * BITS + bit;
    }
    for index in start + 1..words.len() {
        if let Some(bit) = lowest_clear(words[index]) {
            return index * BITS + bit;
        }
    }
    words.len().max(start + 1) * BITS
}
