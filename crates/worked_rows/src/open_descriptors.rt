// A call on a descriptor asks for as much memory where many are open as where two are.
use crate::row::{do_script, do_steps, kernel_of, steps_in};
use heap::Heap;
use kernel::Kernel;
use machine::Machine;
use std::test::Fail;

// What comes right before the call: a plain call, or the begin of a transaction.
static BEFORE: [&str; 2] = ["priorities 0\n1 stat /a\n", "priorities 0\n1 begin\n"];

static CALLS: [&str; 11] = [
    "priorities 0\n1 open /a RDONLY\n",
    "priorities 0\n1 close 1\n",
    "priorities 0\n1 read 0 1\n",
    "priorities 0\n1 pread 0 1 0\n",
    "priorities 0\n1 write 0 x\n",
    "priorities 0\n1 pwrite 0 x 1\n",
    "priorities 0\n1 lseek 0 0 SET\n",
    "priorities 0\n1 fstat 0\n",
    "priorities 0\n1 dup 0\n",
    "priorities 0\n1 dup2 0 1\n",
    "priorities 0\n1 pipe\n",
];

// Opens a file, shares its descriptor until so many are open, and does what comes right before.
fn open_so_many<K: Machine>(
    kernel: &mut K,
    heap: Heap,
    open: u32,
    before: &str,
) -> Result<(), Fail> {
    do_script(kernel, heap, "priorities 0\n1 open /a RDWR,CREAT\n", "1")?;
    for _ in 1..open {
        do_script(kernel, heap, "priorities 0\n1 dup 0\n", "1")?;
    }
    do_script(kernel, heap, before, "1")
}

// How many requests for memory a call makes on such a kernel.
fn requests_on<K: Machine>(
    kernel: &mut K,
    heap: Heap,
    open: u32,
    before: &str,
    call: &str,
) -> Result<u64, Fail> {
    open_so_many(kernel, heap, open, before)?;
    let steps = steps_in(heap, call, "1")?;
    heap.refuse(0);
    do_steps(kernel, steps);
    Ok(heap.made())
}

fn requests_of<K: Machine>(heap: Heap, open: u32, before: &str, call: &str) -> Result<u64, Fail> {
    let mut kernel: K = kernel_of(heap, call, 100)?;
    requests_on(&mut kernel, heap, open, before, call)
}

// The first of these calls that asks for more or less where many descriptors are open.
fn all_alike<K: Machine>(heap: Heap, before: &str) -> Result<(), Fail> {
    for call in &CALLS {
        let few = requests_of::<K>(heap, 2, before, *call)?;
        let many = requests_of::<K>(heap, 62, before, *call)?;
        if few != many {
            return Err(Fail::from(*call));
        }
    }
    Ok(())
}

#[test]
fn a_call_asks_for_as_much_whatever_is_open(rt: HostRuntime) -> Result<(), Fail> {
    let heap = heap::open(rt.alloc())?;
    for before in &BEFORE {
        all_alike::<Kernel>(heap, *before)?;
    }
    Ok(())
}
