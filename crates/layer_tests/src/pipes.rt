// Pipes with bytes.
ghost use Rattle.std.specs.Prelude.{◌≡◌, ◌≤◌, length};

use heap::Heap;
use objects::PipeData;
use std::process::Abort;

// A pipe that holds these bytes.
pub(crate) fn pipe_of(rt: &impl Abort, heap: Heap, bytes: &[u8]) -> PipeData
    requires { length bytes.now ≤ 4096 }
    ensures { result ≡ bytes.now }
{
    let mut pipe = PipeData::new(heap).expect(rt, "memory");
    pipe.put(bytes);
    pipe
}
