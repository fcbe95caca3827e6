// Devices over memory, for tests.
ghost use Rattle.std.specs.Prelude.{◌≡◌, ◌<◌, ◌++◌, Some, take, drop, length, min};

use crate::{DeviceFailed, Sink, Source};
use heap::Heap;

/// A sink that takes a number of bytes, and then fails.
#[derive(Drop)]
pub struct Halting {
    /// What was written to it.
    pub bytes: Vec<u8, Heap>,
    /// How many more it takes.
    pub left: usize,
    /// How often it has failed.
    pub failures: u64,
}

impl Sink for Halting {
    ghost written = { λ s. Some s.bytes.items };

    ghost failures = { λ s. s.failures };

    fn write(&mut self, text: &[u8]) -> Result<usize, DeviceFailed> {
        let count = text.len().min(self.left);
        if count == 0 && !text.is_empty() {
            self.failures += 1;
            return Ok(0);
        }
        if self.bytes.extend_from_slice(&text[..count]).is_err() {
            self.failures += 1;
            return Err(DeviceFailed);
        }
        self.left -= count;
        Ok(count)
    }
}

/// A sink that takes one byte at each write.
#[derive(Drop)]
pub struct Trickling {
    /// What was written to it.
    pub bytes: Vec<u8, Heap>,
    /// How often memory was refused to it.
    pub failures: u64,
}

impl Sink for Trickling {
    ghost written = { λ s. Some s.bytes.items };

    ghost failures = { λ s. s.failures };

    fn write(&mut self, text: &[u8]) -> Result<usize, DeviceFailed> {
        let [first, ..] = text else {
            return Ok(0);
        };
        if self.bytes.push(*first).is_err() {
            self.failures += 1;
            return Err(DeviceFailed);
        }
        Ok(1)
    }
}

/// A source that gives all its bytes, at most `most` at each read, and never fails.
#[derive(Drop)]
pub struct Portions<'a> {
    /// What is still to be read.
    pub bytes: &'a [u8],
    /// How many bytes a read gives, at most.
    pub most: usize,
    ghost some: { 0 < most },
}

// Copies as many bytes as both have, up to `most`, to the beginning of the buffer, and returns how
// many these are.
fn give(bytes: &[u8], most: usize, buffer: &mut [u8]) -> usize
    ensures count { result ≡ min (min (length bytes.now) (length buffer.old)) most }
    ensures bytes { buffer.new ≡ take result bytes.now ++ drop result buffer.old }
{
    let count = bytes.len().min(buffer.len()).min(most);
    buffer[..count].copy_from_slice(&bytes[..count]);
    count
}

impl<'a> Source for Portions<'a> {
    ghost remaining = { λ s. Some s.bytes.now };

    ghost failures = { λ _. 0 };

    fn read(&mut self, buffer: &mut [u8]) -> Result<usize, DeviceFailed> {
        let count = give(self.bytes, self.most, buffer);
        self.bytes = &self.bytes[count..];
        Ok(count)
    }
}

// How many bytes a read of `Failing` gives, at most.
const PORTION: usize = 3;

/// A source that gives at most three bytes at each read, and fails after a number of reads.
#[derive(Drop)]
pub struct Failing<'a> {
    /// What is still to be read.
    pub bytes: &'a [u8],
    /// How many reads succeed.
    pub left: usize,
    /// How often it has failed.
    pub failures: u64,
}

impl<'a> Source for Failing<'a> {
    ghost remaining = { λ s. Some s.bytes.now };

    ghost failures = { λ s. s.failures };

    fn read(&mut self, buffer: &mut [u8]) -> Result<usize, DeviceFailed> {
        if self.left == 0 {
            self.failures += 1;
            return Err(DeviceFailed);
        }
        self.left -= 1;
        let count = give(self.bytes, PORTION, buffer);
        self.bytes = &self.bytes[count..];
        Ok(count)
    }
}
