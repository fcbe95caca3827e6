// Numbers that look random and follow from a seed alone.
ghost use Rattle.std.specs.Prelude.{◌<◌};

use rand_xoshiro::SplitMix64;
use rand_xoshiro::rand_core::{Rng, SeedableRng};

#[derive(Drop)]
pub(crate) struct Random {
    words: SplitMix64,
}

impl Random {
    pub(crate) fn new(seed: u64) -> Random {
        Random {
            words: SplitMix64::seed_from_u64(seed),
        }
    }

    fn next(&mut self) -> u64 {
        self.words.next_u64()
    }

    // A number below this one.
    pub(crate) fn below(&mut self, end: u64) -> u64
        requires { 0 < end }
        ensures { result < end }
    {
        self.next() % end
    }

    // Whether it happens that happens once in so many times.
    pub(crate) fn once_in(&mut self, times: u64) -> bool
        requires { 0 < times }
    {
        self.below(times) == 0
    }

    // An index below this length, or 0 where the length is 0.
    pub(crate) fn index(&mut self, len: usize) -> usize
        ensures { 0 < len → result < len }
    {
        if len == 0 {
            0
        } else {
            self.below(len as u64) as usize
        }
    }

    // One of these words.
    pub(crate) fn pick(&mut self, words: &[&'static str]) -> &'static str {
        let index = self.index(words.len());
        match words.get(index) {
            Some(word) => word,
            None => "",
        }
    }
}
