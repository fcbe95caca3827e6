// Files, terminals and other devices of std, with their failures counted.
ghost use Rattle.std.specs.Prelude.{◌≡◌, ◌<◌, IfOk, None, length};
ghost use Rattle.std.specs.Io.{ReadsAtMost, WritesAtMost};
ghost use Rattle.std.specs.Io.KnownBytes.{IsAtEnd, ReadConsumes};
ghost use Rattle.std.specs.Io.KnownBytes.{WriteAppends, append_known, prepend_known};
ghost use Rattle.device.specs.Device.{CanCount, bytes_transferred};
ghost use Rattle.device.specs.Device.{count_after, is_error, is_failure};

use crate::{DeviceFailed, Sink, Source};
use std::io::{Read, Write};

/// A reader or writer of std, with a count of its failures. Contracts do not know its bytes.
#[derive(Drop)]
pub struct Counted<D> {
    /// The device.
    pub device: D,
    /// How often it has failed.
    pub failures: u64,
}

impl<D> Counted<D> {
    /// The device, with no failure yet.
    pub fn new(device: D) -> Self
        ensures { result.failures ≡ 0 }
    {
        Counted {
            device,
            failures: 0,
        }
    }
}

impl<W: Write> Sink for Counted<W> {
    ghost written = { λ _. None };

    ghost failures = { λ s. s.failures };

    fn write(&mut self, text: &[u8]) -> Result<usize, DeviceFailed>
        requires { CanCount self.old.failures }
        ensures bound { WritesAtMost result text.now }
        ensures bytes { None ≡ append_known None (bytes_transferred result text.now) }
        ensures count { self.new.failures
            ≡ count_after self.old.failures (is_failure result text.now) }
        ensures device { WriteAppends
            (W.contents self.old.device) (W.contents self.new.device) result text.now }
    {
        let Ok(count) = self.device.write(text) else {
            self.failures += 1;
            return Err(DeviceFailed);
        };
        if count == 0 && !text.is_empty() {
            self.failures += 1;
        }
        Ok(count)
    }
}

impl<R: Read> Source for Counted<R> {
    ghost remaining = { λ _. None };

    ghost failures = { λ s. s.failures };

    fn read(&mut self, buffer: &mut [u8]) -> Result<usize, DeviceFailed>
        requires { CanCount self.old.failures }
        ensures bound { ReadsAtMost result buffer.new }
        ensures bytes { None ≡ prepend_known (bytes_transferred result buffer.new) None }
        ensures end { IfOk result (λ n. n ≡ 0 → 0 < length buffer.new → IsAtEnd None) }
        ensures count { self.new.failures ≡ count_after self.old.failures (is_error result) }
        ensures device { ReadConsumes
            (R.remaining self.old.device) (R.remaining self.new.device) result buffer.new }
    {
        let Ok(count) = self.device.read(buffer) else {
            self.failures += 1;
            return Err(DeviceFailed);
        };
        Ok(count)
    }
}
