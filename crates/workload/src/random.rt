// Numbers that look random and follow from a seed alone.
ghost use Rattle.std.specs.Prelude.{◌<◌};

// SplitMix64 (Steele, Lea, Flood: Fast splittable pseudorandom number generators, 2014).
#[derive(Clone, Copy)]
pub(crate) struct Random {
    state: u64,
}

impl Random {
    pub(crate) fn new(seed: u64) -> Random {
        Random { state: seed }
    }

    pub(crate) fn next(&mut self) -> u64 {
        self.state = self.state.wrapping_add(0x9e37_79b9_7f4a_7c15);
        let mut mixed = self.state;
        mixed = (mixed ^ (mixed >> 30)).wrapping_mul(0xbf58_476d_1ce4_e5b9);
        mixed = (mixed ^ (mixed >> 27)).wrapping_mul(0x94d0_49bb_1331_11eb);
        mixed ^ (mixed >> 31)
    }

    // A number below this one.
    pub(crate) fn below(&mut self, end: u64) -> u64
        requires { 0 < end }
        ensures { result < end }
    {
        self.next() % end
    }

    // A number from the first to below the second, or the first where there is none.
    pub(crate) fn between(&mut self, first: u64, end: u64) -> u64 {
        let span = end.saturating_sub(first).max(1);
        first.wrapping_add(self.next().checked_rem(span).unwrap_or(0))
    }

    // A length of a file: half of them are below 4 KiB, few above 64 KiB, and none above 256 KiB.
    pub(crate) fn length(&mut self) -> usize {
        let rank = self.below(100);
        let length = if rank < 50 {
            self.between(256, 4096)
        } else if rank < 85 {
            self.between(4096, 16_384)
        } else if rank < 98 {
            self.between(16_384, 65_536)
        } else {
            self.between(65_536, 262_144)
        };
        length.min(262_144) as usize
    }
}
