// How often each number is counted: a tree of counts, where what is not there counts 0.
ghost use Rattle.std.specs.Prelude.{◌≡◌, ℕ, ◌+◌, ◌-◌, ◌==◌, cond, OnErr, OnOk};
ghost use Rattle.plain_kernel.specs.Counts.{count_at, given_once};

use crate::plain::counted;
use crate::tree::Tree;
use ids::Num;
use std::alloc::AllocError;

// What is counted of a number.
pub(crate) fn count_of(counts: &Tree<usize>, num: Num) -> usize
    ensures { result ≡ count_at counts.now num }
{
    match counts.get(num) {
        Some(count) => *count,
        None => 0,
    }
}

// So many more count for a number. Refused memory changes nothing.
pub(crate) fn gain(counts: &mut Tree<usize>, num: Num, count: usize) -> Result<(), AllocError>
    ensures gained { OnOk result
        ((n : ℕ) → count_at counts.new n ≡ count_at counts.old n + cond (num == n) count 0) }
    ensures err { OnErr result (counts.new ≡ counts.old) }
{
    let more = counted(count_of(counts, num), count)?;
    counts.set(num, more)
}

// So many less count for a number. What counts 0 is not kept.
pub(crate) fn lose(counts: &mut Tree<usize>, num: Num, count: usize)
    ensures { (n : ℕ) → count_at counts.new n ≡ count_at counts.old n - cond (num == n) count 0 }
{
    let all = count_of(counts, num);
    if all > count {
        counts.change(num, all - count);
    } else {
        let _before = counts.remove(num);
    }
}

// One less counts for this number, if it is one.
pub(crate) fn lose_some(counts: &mut Tree<usize>, num: Option<Num>)
    ensures { (n : ℕ) → count_at counts.new n ≡ count_at counts.old n - given_once n num }
{
    if let Some(num) = num {
        lose(counts, num, 1);
    }
}
