// A digest of bytes, which does not depend on the portions in which they come.
ghost use Rattle.std.specs.Prelude.{◌≡◌, None};

use anyhow::{Result, bail};
use device::{DeviceFailed, Sink};
use ids::Entry;
use kernel::Kernel;
use transcript::print;

// Two sums of the bytes, as in Fletcher's checksum: each counts once in the first, and in the second
// as often as there are bytes from it on.
pub(crate) struct Digest {
    plain: u64,
    weighted: u64,
    // Numbers that are no bytes.
    numbers: u64,
}

impl Drop for Digest {
    fn drop(self) {
        let Digest {
            plain: _,
            weighted: _,
            numbers: _,
        } = self;
    }
}

// How many bytes are summed at once.
const PORTION: usize = 256;

impl Digest {
    pub(crate) fn new() -> Digest {
        Digest {
            plain: 0,
            weighted: 0,
            numbers: 0,
        }
    }

    fn add_portion(&mut self, text: &[u8]) {
        let mut plain = 0u32;
        let mut weighted = 0u32;
        let mut weight = text.len().min(0xffff) as u32;
        for byte in text {
            plain = plain.wrapping_add(u32::from(*byte));
            weighted = weighted.wrapping_add(weight.wrapping_mul(u32::from(*byte)));
            weight = weight.wrapping_sub(1);
        }
        let len = text.len() as u64;
        self.weighted = self
            .weighted
            .wrapping_add(self.plain.wrapping_mul(len))
            .wrapping_add(u64::from(weighted));
        self.plain = self.plain.wrapping_add(u64::from(plain));
    }

    pub(crate) fn add_number(&mut self, number: u64) {
        self.numbers = self
            .numbers
            .wrapping_mul(0x0000_0100_0000_01b3)
            .wrapping_add(number);
    }

    // Adds what a kernel has done: its transcript, and the numbers of the objects that were made.
    pub(crate) fn add_run(&mut self, kernel: &Kernel) -> Result<()> {
        self.add_entries(kernel.history().entries())
    }

    pub(crate) fn add_entries(&mut self, entries: &[Entry]) -> Result<()> {
        if print(1, entries, self).is_err() {
            bail!("the transcript is not printed")
        }
        for entry in entries {
            for number in entry.chosen.as_slice() {
                self.add_number(number.0 as u64);
            }
        }
        Ok(())
    }

    pub(crate) fn value(&self) -> u64 {
        let mixed = (self.weighted
            ^ self.plain.rotate_left(40)
            ^ self.numbers.rotate_left(20)).wrapping_mul(0xbf58_476d_1ce4_e5b9);
        mixed ^ (mixed >> 29)
    }
}

impl Sink for Digest {
    ghost written = { λ _. None };

    ghost failures = { λ _. 0 };

    fn write(&mut self, text: &[u8]) -> std::result::Result<usize, DeviceFailed> {
        for portion in text.chunks(PORTION) {
            self.add_portion(portion);
        }
        Ok(text.len())
    }
}
