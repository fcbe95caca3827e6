// Numbers for new objects, and refused memory.
ghost use Rattle.std.specs.Prelude.{◌≡◌, [], Some};
ghost use Rattle.model.specs.State.{A_directory, Kernel, kind_of};

use crate::refused::is_refused;
use heap::Heap;
use ids::{Bounds, Edit, Name, Num, Priority};
use look::Look;
use shadow::{Shadow, Stable, View};
use std::alloc::AllocError;
use std::process::Abort;

#[tactic(auto, using(crate::proofs::Root::root_is_directory))]
fn first_stable(rt: &impl Abort, heap: Heap) -> Stable
    ensures { kind_of result.state result.state.root ≡ Some A_directory }
{
    let priorities = [Priority::new(3).unwrap()];
    Stable::new(heap, &priorities, Bounds::given_by_default()).expect(rt, "memory")
}

// A new directory in the root, in the shadow of a transaction. Its number is answered.
fn added(
    heap: Heap,
    stable: &mut Stable,
    shadow: &mut Shadow,
    name: &[u8],
) -> Result<Num, AllocError>
    requires root { kind_of stable.old.state stable.old.state.root ≡ Some A_directory }
    requires none { shadow.old ≡ [] }
    ensures { stable.new.state ≡ stable.old.state }
{
    let root = View::new(stable, None).root();
    let name = Name::copy(heap, name)?;
    let edits = Vec::from_array(
        heap,
        [Edit::MakeDirectory {
            parent: root,
            name,
            index: 0,
        }],
    )?;
    let chosen = shadow.edit(stable, edits)?;
    Ok(chosen.as_slice()[0])
}

// Whether a new directory could not be added where this request for memory was refused, and the
// number of one that is added then.
fn added_again(rt: &impl Abort, heap: Heap, request: u64) -> (bool, Num) {
    let mut stable = first_stable(rt, heap);
    let mut shadow = Shadow::new(heap);
    heap.refuse(request);
    let refused = is_refused(added(heap, &mut stable, &mut shadow, b"a"));
    heap.refuse(0);
    let (other, num) = begun(rt, heap, &mut stable, b"b");
    drop(other);
    drop(shadow);
    drop(stable);
    (refused, num)
}

// A transaction with a new directory in the root, whose number stands beside it.
fn begun(rt: &impl Abort, heap: Heap, stable: &mut Stable, name: &[u8]) -> (Shadow, Num)
    requires { kind_of stable.old.state stable.old.state.root ≡ Some A_directory }
    ensures { stable.new.state ≡ stable.old.state }
{
    let mut shadow = Shadow::new(heap);
    let num = added(heap, stable, &mut shadow, name).expect(rt, "memory");
    (shadow, num)
}

#[test]
fn refused_memory_gives_numbers_back(rt: HostRuntime) {
    let heap = heap::open(rt.alloc()).expect(&rt, "memory");
    for request in 1..20 {
        let (refused, num) = added_again(&rt, heap, request);
        if !refused {
            assert!(rt; request > 3);
            assert_eq!(rt; num, Num(2));
            return;
        }
        assert_eq!(rt; num, Num(1));
    }
    panic!(rt; "still refused")
}

#[test]
fn two_transactions_have_two_numbers(rt: HostRuntime) {
    let heap = heap::open(rt.alloc()).expect(&rt, "memory");
    let mut stable = first_stable(&rt, heap);
    let (first, one) = begun(&rt, heap, &mut stable, b"a");
    let (second, two) = begun(&rt, heap, &mut stable, b"b");
    drop(second);
    drop(first);
    drop(stable);
    assert_eq!(rt; [one, two], [Num(1), Num(2)]);
}
