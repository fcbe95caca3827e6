// What all trials share: the heap, the random numbers, and what has come up.
use crate::random::Random;
use crate::tally::Tally;
use heap::Heap;

#[derive(Drop)]
pub(crate) struct Trials {
    pub(crate) heap: Heap,
    pub(crate) random: Random,
    pub(crate) tally: Tally,
}
