// A sink that fails where a test wants it to.
ghost use Rattle.std.specs.Prelude.{◌≡◌};

use device::Halting;
use heap::Heap;

// A sink over memory that takes so many bytes, and then fails.
pub(crate) fn halting(heap: Heap, left: usize) -> Halting
    ensures { result.failures ≡ 0 }
{
    Halting {
        bytes: Vec::new(heap),
        left,
        failures: 0,
    }
}
