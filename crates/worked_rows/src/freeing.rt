// What frees a file of 1 GiB asks for no more memory than what frees one of two bytes.
use crate::row::{do_script, do_steps, kernel_with, steps_in};
use heap::Heap;
use ids::Limits;
use kernel::Kernel;
use machine::Machine;
use std::test::Fail;

static SMALL: &str = "priorities 0 0
1 open /a RDWR,CREAT
1 write 0 x
1 lseek 0 1 SET
1 write 0 y
";

static LARGE: &str = "priorities 0 0
1 open /a RDWR,CREAT
1 write 0 x
1 lseek 0 1073741823 SET
1 write 0 y
";

// A step before, and the step that frees the file.
static FREED: [(&str, &str); 3] = [
    (
        "priorities 0 0
1 close 0
",
        "priorities 0 0
1 unlink /a
",
    ),
    (
        "priorities 0 0
1 unlink /a
",
        "priorities 0 0
1 close 0
",
    ),
    (
        "priorities 0 0
1 unlink /a
",
        "priorities 0 0
1 exit
",
    ),
];

// How many requests for memory the freeing step makes.
fn requests_on<K: Machine>(
    heap: Heap,
    kernel: &mut K,
    file: &str,
    row: &(&'static str, &'static str),
) -> Result<u64, Fail> {
    do_script(kernel, heap, file, "1,1,1,1")?;
    do_script(kernel, heap, row.0, "1")?;
    let steps = steps_in(heap, row.1, "1")?;
    heap.refuse(0);
    do_steps(kernel, steps);
    Ok(heap.made())
}

fn requests_of<K: Machine>(
    heap: Heap,
    file: &str,
    row: &(&'static str, &'static str),
) -> Result<u64, Fail> {
    let limits = Limits {
        file_bytes: 2_147_483_647,
        ..Limits::of_entries(100)
    };
    let mut kernel: K = kernel_with(heap, file, limits)?;
    requests_on(heap, &mut kernel, file, row)
}

#[test]
fn freeing_a_large_file_asks_for_no_memory(rt: HostRuntime) -> Result<(), Fail> {
    let heap = heap::open(rt.alloc())?;
    for row in &FREED {
        let small = requests_of::<Kernel>(heap, SMALL, row)?;
        let large = requests_of::<Kernel>(heap, LARGE, row)?;
        assert_eq!(rt; large, small);
    }
    Ok(())
}
