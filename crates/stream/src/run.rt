// A stream, from a source to a sink.
ghost use Rattle.std.specs.Prelude.{◌≡◌, ◌≢◌, ◌<◌, IfErr, IfOk};
ghost use Rattle.device.specs.Device.{CanCount};
ghost use Rattle.stream.specs.Streams.{CanMake, HasEnded, HasStopped};

use crate::fault::StreamFault;
use crate::state::{Setting, Stream};
use device::{Sink, Source};
use heap::Heap;
use ids::Limits;
use machine::Machine;
use replay::legal_histories_pass;

// How many bytes a read gives, at most.
const PART: usize = 8_192;

/// Reads lines from `source` to its end, does each on a kernel of the type `K` with these limits,
/// and answers it on `sink`. All whole lines that a read gives are done and answered before the
/// next read. At the end the history has passed the check and this is said, if `check` is true.
/// Returns whether no line was a fault.
///
/// The first line that gives priorities makes the kernel; nothing answers it, nor an empty line or
/// a comment. A line that asks no operation is answered by a line that begins with `? `, and so is
/// one that the input ends in; it changes nothing. Of a line that is too long only a beginning is
/// kept.
///
/// `Read` and `Write` come only where the device has failed. Where another fault comes all lines
/// before the one that it is for are answered. Of these `HistoryFull` and `Spent` come only at an
/// operation whose places are missing: `HistoryFull` where nothing is kept, `Spent` where 2^63
/// entries or more were made, so that no more can be forgotten. Till then the stream goes on. `Spent`
/// comes behind 2^64 - 1 reads too, when so many bytes at least have come and are answered.
pub fn run_stream<K: Machine, I: Source, O: Sink>(
    heap: Heap,
    limits: Limits,
    check: bool,
    source: &mut I,
    sink: &mut O,
) -> Result<bool, StreamFault>
    requires reads { CanCount (I.failures source.old) }
    requires writes { CanCount (O.failures sink.old) }
    requires can_make { CanMake limits }
    ensures ok { IfOk result (HasEnded limits check
        (I.remaining source.old) (I.remaining source.new)
        (O.written sink.old) (O.written sink.new)) }
    ensures fault { IfErr result (HasStopped limits check
        (I.remaining source.old) (I.remaining source.new)
        (O.written sink.old) (O.written sink.new)) }
    ensures read { result ≡ Err StreamFault.Read → I.failures source.old < I.failures source.new }
    ensures no_read_failure { result ≢ Err StreamFault.Read
        → I.failures source.new ≡ I.failures source.old }
    ensures write { result ≡ Err StreamFault.Write → O.failures sink.old < O.failures sink.new }
    ensures no_write_failure { result ≢ Err StreamFault.Write
        → O.failures sink.new ≡ O.failures sink.old }
{
    let setting = Setting { limits, check };
    let mut stream: Stream<K> = Stream::new(heap);
    let mut buffer = [0u8; PART];
    'parts: for _reads in 0..u64::MAX {
        let Ok(count) = source.read(&mut buffer) else {
            return Err(StreamFault::Read);
        };
        if count == 0 {
            // For the proof: a legal history passes.
            legal_histories_pass();
            return stream.finish(check, sink);
        }
        match stream.answer(setting, &buffer[..count], sink) {
            Ok(()) => {}
            Err(fault) => return Err(fault),
        }
    }
    Err(StreamFault::Spent)
}
