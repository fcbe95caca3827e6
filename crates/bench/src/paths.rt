// The paths that are measured with. The peers use the same.
use heap::Heap;
use ids::Bytes;
use std::alloc::AllocError;

/// The path of eight names.
pub(crate) static DEEP: &str = "/p/p/p/p/p/p/p/p";

/// The target of each symbolic link.
pub(crate) static TARGET: &str = "../some/where";

// How many numbers names have.
const NUMBERS: u64 = 1_048_576;

/// The number of the i-th new name: no two are alike among 1,048,576 in a row, and they come in no
/// order of their names.
pub(crate) fn scattered(i: u64) -> u64 {
    i.wrapping_mul(648_055) % NUMBERS
}

/// The i-th of so many in another order, where 7919 does not divide their count.
pub(crate) fn shuffled(i: u64, count: u64) -> u64 {
    i.wrapping_mul(7919)
        .wrapping_add(13)
        .checked_rem(count)
        .unwrap_or(0)
}

fn digit(number: u64) -> u8 {
    b'0' + (number % 10) as u8
}

/// The path of a directory, a slash, a letter, and the number in seven digits.
pub(crate) fn path_in(
    heap: Heap,
    directory: &str,
    letter: u8,
    number: u64,
) -> Result<Bytes, AllocError> {
    let name = [
        b'/',
        letter,
        digit(number / 1_000_000),
        digit(number / 100_000),
        digit(number / 10_000),
        digit(number / 1000),
        digit(number / 100),
        digit(number / 10),
        digit(number),
    ];
    Bytes::joined(heap, directory.as_bytes(), &name)
}

/// The path of a name in the directory `/d`.
pub(crate) fn path(heap: Heap, letter: u8, number: u64) -> Result<Bytes, AllocError> {
    path_in(heap, "/d", letter, number)
}
