// How many digits a number has.
ghost use Rattle.std.specs.Prelude.{◌≡◌, decimal, length};

// How many digits a number of 64 bits has, at most.
pub(crate) const MOST_DIGITS: usize = 20;

// How many digits a number has. Most numbers are short, and take no division.
pub(crate) fn count_digits(n: u64) -> usize
    ensures { result ≡ length (decimal n) }
{
    let mut left = n;
    let mut count = 0;
    while left >= 10_000 {
        left /= 10_000;
        count += 4;
    }
    match left {
        0..10 => count + 1,
        10..100 => count + 2,
        100..1000 => count + 3,
        _ => count + 4,
    }
}
