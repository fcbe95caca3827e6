// What is given up gives its numbers and its room back.
use crate::row::{do_script, do_steps, kernel_of, number_at, steps_in};
use heap::Heap;
use kernel::Kernel;
use machine::Machine;
use std::test::Fail;

// A script, a schedule of it, and how many numbers it takes.
type Given = (&'static str, &'static str, u64);

static GIVES_UP: [Given; 2] = [
    (
        "priorities 0
1 begin
1 mkdir /a
1 mkdir /a/b
1 abort
",
        "1,1,1,1",
        2,
    ),
    (
        "priorities 0
1 begin
1 pipe
1 write 1 ab
1 dup 1
1 abort
",
        "1,1,1,1,1",
        3,
    ),
];

// How many requests for memory a transaction makes that is given up.
fn requests_of_giving_up<K: Machine>(heap: Heap, kernel: &mut K, row: &Given) -> Result<u64, Fail> {
    let steps = steps_in(heap, row.0, row.1)?;
    heap.refuse(0);
    do_steps(kernel, steps);
    Ok(heap.made())
}

// How many requests the second of such transactions makes, the most that one of the next does, and
// the number that a directory gets then.
fn requests_after_the_first<K: Machine>(
    heap: Heap,
    kernel: &mut K,
    row: &Given,
) -> Result<[u64; 3], Fail> {
    let _ = requests_of_giving_up(heap, kernel, row)?;
    let first = requests_of_giving_up(heap, kernel, row)?;
    let mut most = first;
    for _ in 0..30 {
        most = most.max(requests_of_giving_up(heap, kernel, row)?);
    }
    do_script(kernel, heap, "priorities 0\n1 mkdir /a\n", "1")?;
    Ok([first, most, number_at(heap, kernel, "/a")? as u64])
}

fn requests_and_number<K: Machine>(heap: Heap, row: &Given) -> Result<[u64; 3], Fail> {
    let mut kernel: K = kernel_of(heap, row.0, 200)?;
    requests_after_the_first(heap, &mut kernel, row)
}

// The numbers are given again, and no transaction after the first needs more memory than the one
// before.
#[test]
fn what_is_given_up_is_given_back(rt: HostRuntime) -> Result<(), Fail> {
    let heap = heap::open(rt.alloc())?;
    for row in &GIVES_UP {
        let [first, most, number] = requests_and_number::<Kernel>(heap, row)?;
        assert_eq!(rt; first, most);
        assert!(rt; number <= row.2);
    }
    Ok(())
}
