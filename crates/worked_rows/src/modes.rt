// What live transactions have touched, and the list modes that come of it.
use crate::row::{do_script, kernel_of, transcript_of};
use crate::views::in_root;
use heap::Heap;
use ids::{Aspect, ListMode, Num, Pid, Touch};
use kernel::Kernel;
use records::Mark;
use std::test::Fail;

static TWO_ADD: &str = "priorities 0 0
1 mkdir /d
1 begin
2 begin
1 mkdir /d/a
2 mkdir /d/b
";

static ONE_LISTS: &str = "priorities 0 0
1 list /d
";

static BOTH_END: &str = "priorities 0 0
2 end
1 end
";

static TOLD: &str = "1 P1 mkdir /d -> ok
2 P1 begin -> begun
3 P2 begin -> begun
4 P1 mkdir /d/a -> ok
5 P2 mkdir /d/b -> ok
6 P1 list /d -> names 1 a dooms P2
7 P2 end -> aborted entry b write by P1
8 P1 end -> committed
";

fn directory(heap: Heap, kernel: &Kernel) -> Result<Num, Fail> {
    in_root(heap, &kernel.view(Pid(1)), b"d")
}

fn mode_of(heap: Heap, kernel: &Kernel) -> Result<ListMode, Fail> {
    Ok(kernel.mode(directory(heap, kernel)?))
}

// The list modes of `/d` when both have added to it, when one of them has listed it too, and when
// both have ended, and the transcript.
fn modes(kernel: &mut Kernel, heap: Heap) -> Result<([ListMode; 3], Vec<u8, Heap>), Fail> {
    do_script(kernel, heap, TWO_ADD, "1,1,2,1,2")?;
    let added = mode_of(heap, kernel)?;
    do_script(kernel, heap, ONE_LISTS, "1")?;
    let listed = mode_of(heap, kernel)?;
    do_script(kernel, heap, BOTH_END, "2,1")?;
    let ended = mode_of(heap, kernel)?;
    Ok(([added, listed, ended], transcript_of(heap, kernel)?))
}

#[test]
fn list_modes_are_told(rt: HostRuntime) -> Result<(), Fail> {
    let heap = heap::open(rt.alloc())?;
    let mut kernel: Kernel = kernel_of(heap, TWO_ADD, 100)?;
    let modes = modes(&mut kernel, heap);
    drop(kernel);
    let (found, told) = modes?;
    assert_eq!(rt;
        found,
        [ListMode::Write, ListMode::Exclusive, ListMode::NoTx]
    );
    assert_eq!(rt; told.as_slice(), TOLD.as_bytes());
    Ok(())
}

// What clashes with a look of process 1 at the names of `/d`, when both have added to it: how many
// touches, and the process and the name of the last.
fn met_by_a_look(kernel: &mut Kernel, heap: Heap) -> Result<(usize, Pid, bool), Fail> {
    do_script(kernel, heap, TWO_ADD, "1,1,2,1,2")?;
    let dir = directory(heap, kernel)?;
    let look = Touch {
        aspect: Aspect::Names(dir),
        write: false,
    };
    let found = kernel.records().holders(Pid(1), &look);
    drop(look);
    let found = found?;
    let met = met_in(found.as_slice(), dir);
    drop(found);
    Ok(met)
}

fn met_in(found: &[Mark], dir: Num) -> (usize, Pid, bool) {
    match found {
        [only] => (1, only.pid, is_written(&only.touch, dir, b"b")),
        _ => (found.len(), Pid(0), false),
    }
}

// Whether a touch is a write of the entry of this name.
fn is_written(touch: &Touch, dir: Num, name: &[u8]) -> bool {
    match &touch.aspect {
        Aspect::Entry(there, written) => {
            touch.write && *there == dir && written.as_slice() == name
        }
        _ => false,
    }
}

#[test]
fn a_look_meets_the_names_that_others_add(rt: HostRuntime) -> Result<(), Fail> {
    let heap = heap::open(rt.alloc())?;
    let mut kernel: Kernel = kernel_of(heap, TWO_ADD, 100)?;
    let met = met_by_a_look(&mut kernel, heap);
    drop(kernel);
    assert_eq!(rt; met?, (1, Pid(2), true));
    Ok(())
}
