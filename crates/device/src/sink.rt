// Where bytes are written to.
ghost use Rattle.std.specs.Prelude.{◌≡◌, ℕ, ◌<◌, List, Option, OnOk, OnErr};
ghost use Rattle.std.specs.Io.{WritesAtMost};
ghost use Rattle.std.specs.Io.KnownBytes.{append_known};
ghost use Rattle.device.specs.Device.{CanCount, IsPart, bytes_transferred, count_after, is_failure};

/// A device has failed, and has counted it.
#[derive(Clone, Copy, Debug, PartialEq, Eq)]
pub struct DeviceFailed;

/// A device that bytes are written to. It counts its failures.
pub trait Sink {
    /// The bytes that were written to it, where contracts know them.
    ghost written: { Self → Option (List ℕ) };

    /// How often a write has failed.
    ghost failures: { Self → ℕ };

    /// Writes a beginning of the text, and returns how many bytes of it. To write none of a text
    /// that is not empty is a failure too. A failure is counted, and writes nothing.
    fn write(&mut self, text: &[u8]) -> Result<usize, DeviceFailed>
        requires { CanCount (failures self.old) }
        ensures bound { WritesAtMost result text.now }
        ensures bytes { written self.new
            ≡ append_known (written self.old) (bytes_transferred result text.now) }
        ensures count { failures self.new
            ≡ count_after (failures self.old) (is_failure result text.now) };
}

impl<S: Sink> Sink for &mut S {
    ghost written = { λ s. S.written s.now };

    ghost failures = { λ s. S.failures s.now };

    fn write(&mut self, text: &[u8]) -> Result<usize, DeviceFailed> {
        (**self).write(text)
    }
}

/// Writes the whole text. Where the sink fails, which it counts, a beginning of the text is
/// written.
pub fn write_all<S: Sink>(sink: &mut S, text: &[u8]) -> Result<(), DeviceFailed>
    requires { CanCount (S.failures sink.old) }
    ensures ok { OnOk result (S.written sink.new ≡ append_known (S.written sink.old) text.now) }
    ensures no_failure { OnOk result (S.failures sink.new ≡ S.failures sink.old) }
    ensures part { IsPart (S.written sink.old) (S.written sink.new) text.now }
    ensures failure { OnErr result (S.failures sink.old < S.failures sink.new) }
{
    let mut rest = text;
    while !rest.is_empty() {
        let count = sink.write(rest)?;
        if count == 0 {
            return Err(DeviceFailed);
        }
        rest = &rest[count..];
    }
    Ok(())
}
