// Where bytes are read from.
ghost use Rattle.std.specs.Prelude.{◌≡◌, ◌≢◌, ℕ, ◌<◌, ◌≤◌, List, Option, length, IfOk};
ghost use Rattle.std.specs.Io.{ReadsAtMost};
ghost use Rattle.std.specs.Io.KnownBytes.{IsAtEnd, prepend_known};
ghost use Rattle.device.specs.Device.{CanCount, bytes_transferred, count_after, is_error};

use crate::DeviceFailed;
use heap::Heap;

/// A device that bytes are read from. It counts its failures.
pub trait Source {
    /// The bytes that are still to be read, where contracts know them.
    ghost remaining: { Self → Option (List ℕ) };

    /// How often a read has failed.
    ghost failures: { Self → ℕ };

    /// Puts the next bytes at the beginning of the buffer, and returns their number. 0 for a buffer
    /// that is not empty means that the source is at its end. An error is counted, and then no byte
    /// was read.
    fn read(&mut self, buffer: &mut [u8]) -> Result<usize, DeviceFailed>
        requires { CanCount (failures self.old) }
        ensures bound { ReadsAtMost result buffer.new }
        ensures bytes { remaining self.old
            ≡ prepend_known (bytes_transferred result buffer.new) (remaining self.new) }
        ensures end { IfOk result
            (λ n. n ≡ 0 → 0 < length buffer.new → IsAtEnd (remaining self.new)) }
        ensures count { failures self.new ≡ count_after (failures self.old) (is_error result) };
}

impl<S: Source> Source for &mut S {
    ghost remaining = { λ s. S.remaining s.now };

    ghost failures = { λ s. S.failures s.now };

    fn read(&mut self, buffer: &mut [u8]) -> Result<usize, DeviceFailed> {
        (**self).read(buffer)
    }
}

/// Why a source was not read to its end.
#[derive(Clone, Copy, Debug, PartialEq, Eq)]
pub enum ReadFault {
    /// The device has failed, and has counted it.
    Device,
    /// Memory was refused. No failure of the device is counted.
    NoMemory,
}

// How many bytes one read asks for, at most.
const BUFFER_LEN: usize = 4096;

/// Reads to the end, or `most` bytes, if the source has more.
///
/// After an error the bytes that were read are lost. Only `Device` comes with a counted failure.
pub fn read_all<S: Source>(
    heap: Heap,
    source: &mut S,
    most: usize,
) -> Result<Vec<u8, Heap>, ReadFault>
    requires { CanCount (S.failures source.old) }
    ensures bytes { IfOk result (λ v.
        S.remaining source.old ≡ prepend_known v.items (S.remaining source.new)) }
    ensures bound { IfOk result (λ v. length v.items ≤ most) }
    ensures end { IfOk result (λ v. length v.items < most → IsAtEnd (S.remaining source.new)) }
    ensures device { result ≡ Err ReadFault.Device → S.failures source.old < S.failures source.new }
    ensures no_failure { result ≢ Err ReadFault.Device
        → S.failures source.new ≡ S.failures source.old }
{
    let mut bytes = Vec::new(heap);
    let mut buffer = [0; BUFFER_LEN];
    while bytes.len() < most {
        let room = (most - bytes.len()).min(BUFFER_LEN);
        let Ok(count) = source.read(&mut buffer[..room]) else {
            return Err(ReadFault::Device);
        };
        if count == 0 {
            return Ok(bytes);
        }
        if bytes.extend_from_slice(&buffer[..count]).is_err() {
            return Err(ReadFault::NoMemory);
        }
    }
    Ok(bytes)
}
