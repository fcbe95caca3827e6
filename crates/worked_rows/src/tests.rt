// Each row is run step by step, and as one run of the kernel.
use crate::growths::{grow_all, grow_script};
use crate::row::{Row, do_script, kernel_of, steps_in, transcript_of};
use crate::rows::{KINDS, rows_of};
use heap::Heap;
use kernel::Kernel;
use machine::Machine;
use std::test::Fail;

// Does the row's steps on its kernel, one by one, and tells the transcript.
pub(crate) fn step_by_step<K: Machine>(
    kernel: &mut K,
    heap: Heap,
    row: &Row,
) -> Result<Vec<u8, Heap>, Fail> {
    do_script(kernel, heap, row.script, row.schedule)?;
    transcript_of(heap, kernel)
}

// The same in one run.
pub(crate) fn at_once<K: Machine>(
    kernel: &mut K,
    heap: Heap,
    row: &Row,
) -> Result<Vec<u8, Heap>, Fail> {
    drop(kernel.run(steps_in(heap, row.script, row.schedule)?)?);
    transcript_of(heap, kernel)
}

fn transcript_by_steps<K: Machine>(heap: Heap, row: &Row) -> Result<Vec<u8, Heap>, Fail> {
    let mut kernel: K = kernel_of(heap, row.script, row.limit)?;
    step_by_step(&mut kernel, heap, row)
}

fn transcript_at_once<K: Machine>(heap: Heap, row: &Row) -> Result<Vec<u8, Heap>, Fail> {
    let mut kernel: K = kernel_of(heap, row.script, row.limit)?;
    at_once(&mut kernel, heap, row)
}

// The script of the first of these rows whose steps, one by one, leave another transcript.
fn all_by_steps<K: Machine>(heap: Heap, rows: &[Row]) -> Result<(), Fail> {
    for row in rows {
        if transcript_by_steps::<K>(heap, row)?.as_slice() != row.transcript.as_bytes() {
            return Err(Fail::from(row.script));
        }
    }
    Ok(())
}

// The script of the first of these rows that leaves another transcript as one run.
fn all_at_once<K: Machine>(heap: Heap, rows: &[Row]) -> Result<(), Fail> {
    for row in rows {
        if transcript_at_once::<K>(heap, row)?.as_slice() != row.transcript.as_bytes() {
            return Err(Fail::from(row.script));
        }
    }
    Ok(())
}

// Every row, step by step.
fn each_by_steps<K: Machine>(heap: Heap) -> Result<(), Fail> {
    for kind in 0..KINDS {
        all_by_steps::<K>(heap, rows_of(kind))?;
    }
    Ok(())
}

#[test]
fn steps_leave_the_transcript_of_the_row(rt: HostRuntime) -> Result<(), Fail> {
    each_by_steps::<Kernel>(heap::open(rt.alloc())?)
}

// Every row, as one run.
fn each_at_once<K: Machine>(heap: Heap) -> Result<(), Fail> {
    for kind in 0..KINDS {
        all_at_once::<K>(heap, rows_of(kind))?;
    }
    Ok(())
}

#[test]
fn a_run_leaves_the_transcript_of_the_row(rt: HostRuntime) -> Result<(), Fail> {
    each_at_once::<Kernel>(heap::open(rt.alloc())?)
}

// Each request for memory of each step of each row is refused in turn.
#[test]
fn refuse_each_growth(rt: HostRuntime) -> Result<(), Fail> {
    let heap = heap::open(rt.alloc())?;
    for kind in 0..KINDS {
        assert!(rt; grow_all(heap, rows_of(kind))? > 0);
    }
    Ok(())
}

// Opens a file so often in one process.
fn open_often(kernel: &mut Kernel, heap: Heap, count: u32) -> Result<(), Fail> {
    for _ in 0..count {
        let _refused = grow_script(kernel, heap, "priorities 0\n1 open /a RDWR,CREAT\n", "1")?;
    }
    Ok(())
}

static AFTER_64: &str = "priorities 0
1 open /a/b RDONLY
1 close 5
1 open /a RDONLY
1 write 5 x
1 read 64 1
";

static TOLD_AFTER_64: &str = "64 P1 open /a RDWR,CREAT -> 63
65 P1 open /a/b RDONLY -> EMFILE
66 P1 close 5 -> ok
67 P1 open /a RDONLY -> 5
68 P1 write 5 x -> EBADF
69 P1 read 64 1 -> EBADF
";

// A process that has opened a file 64 times, and the calls after that.
fn opened_often(kernel: &mut Kernel, heap: Heap) -> Result<Vec<u8, Heap>, Fail> {
    open_often(kernel, heap, 64)?;
    let _refused = grow_script(kernel, heap, AFTER_64, "1,1,1,1,1")?;
    transcript_of(heap, kernel)
}

#[test]
fn a_process_has_64_descriptors(rt: HostRuntime) -> Result<(), Fail> {
    let heap = heap::open(rt.alloc())?;
    let mut kernel: Kernel = kernel_of(heap, AFTER_64, 100)?;
    let told = opened_often(&mut kernel, heap);
    drop(kernel);
    let told = told?;
    assert!(rt; told.as_slice().ends_with(TOLD_AFTER_64.as_bytes()));
    Ok(())
}

// A process shares a descriptor so often.
fn share_often(kernel: &mut Kernel, heap: Heap, count: u32) -> Result<(), Fail> {
    for _ in 0..count {
        let _refused = grow_script(kernel, heap, "priorities 0\n1 dup 0\n", "1")?;
    }
    Ok(())
}

static SHARED_ONCE: &str = "priorities 0 0
1 open /a RDWR,CREAT
1 dup2 0 0
";

static AFTER_SHARING: &str = "priorities 0 0
1 dup 0
1 pipe
1 begin
1 open /no RDONLY
2 mkdir /no
1 end
2 end
1 close 9
1 pipe
1 close 7
1 pipe
1 dup2 63 7
";

static TOLD_AFTER_SHARING: &str = "65 P1 dup 0 -> 63
66 P1 dup 0 -> EMFILE
67 P1 pipe -> EMFILE
68 P1 begin -> begun
69 P1 open /no RDONLY -> EMFILE
70 P2 mkdir /no -> ok
71 P1 end -> committed
72 P2 end -> NotInTransaction
73 P1 close 9 -> ok
74 P1 pipe -> EMFILE
75 P1 close 7 -> ok
76 P1 pipe -> 7 9
77 P1 dup2 63 7 -> 7
";

// A process whose descriptors are all one, and the calls after that. What finds no descriptor
// touches nothing.
fn shared_often(kernel: &mut Kernel, heap: Heap) -> Result<Vec<u8, Heap>, Fail> {
    let _refused = grow_script(kernel, heap, SHARED_ONCE, "1,1")?;
    share_often(kernel, heap, 63)?;
    let _refused = grow_script(kernel, heap, AFTER_SHARING, "1,1,1,1,2,1,2,1,1,1,1,1")?;
    transcript_of(heap, kernel)
}

#[test]
fn a_process_shares_63_times(rt: HostRuntime) -> Result<(), Fail> {
    let heap = heap::open(rt.alloc())?;
    let mut kernel: Kernel = kernel_of(heap, AFTER_SHARING, 100)?;
    let told = shared_often(&mut kernel, heap);
    drop(kernel);
    let told = told?;
    assert!(rt; told.as_slice().ends_with(TOLD_AFTER_SHARING.as_bytes()));
    Ok(())
}
