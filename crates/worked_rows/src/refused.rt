// Refused memory. Whichever request of a step is refused, the step is answered NoMemory and nothing
// has changed: the same step then goes through.
use crate::row::{do_script, do_steps, kernel_of, steps_in, transcript_of};
use heap::Heap;
use ids::Priority;
use kernel::Kernel;
use machine::Machine;
use std::process::Abort;
use std::test::Fail;

pub(crate) struct Part {
    pub(crate) script: &'static str,
    pub(crate) schedule: &'static str,
}

// A step, what comes before and after it, the transcript of all, and how many requests for memory
// the step makes at least.
pub(crate) struct Refused {
    pub(crate) before: Part,
    pub(crate) step: Part,
    pub(crate) after: Part,
    pub(crate) transcript: &'static str,
    pub(crate) requests: u64,
}

fn do_part<K: Machine>(kernel: &mut K, heap: Heap, part: &Part) -> Result<(), Fail> {
    do_script(kernel, heap, part.script, part.schedule)
}

// Does the step with one of its requests refused, and answers whether it has left no entry.
fn is_refused<K: Machine>(
    kernel: &mut K,
    heap: Heap,
    step: &Part,
    number: u64,
) -> Result<bool, Fail> {
    let steps = steps_in(heap, step.script, step.schedule)?;
    let before = kernel.history().entries().len();
    heap.refuse(number);
    do_steps(kernel, steps);
    heap.refuse(0);
    Ok(kernel.history().entries().len() == before)
}

// Does a row's parts, with a request of its step refused. Answers whether it was, and the
// transcript at the end.
fn do_parts<K: Machine>(
    kernel: &mut K,
    heap: Heap,
    row: &Refused,
    number: u64,
) -> Result<(bool, Vec<u8, Heap>), Fail> {
    do_part(kernel, heap, &row.before)?;
    let refused = is_refused(kernel, heap, &row.step, number)?;
    if refused {
        do_part(kernel, heap, &row.step)?;
    }
    do_part(kernel, heap, &row.after)?;
    Ok((refused, transcript_of(heap, kernel)?))
}

fn refuse_once<K: Machine>(
    heap: Heap,
    row: &Refused,
    number: u64,
) -> Result<(bool, Vec<u8, Heap>), Fail> {
    let mut kernel: K = kernel_of(heap, row.step.script, 100)?;
    do_parts(&mut kernel, heap, row, number)
}

// Whether each refused request of a row's step leaves all as it was, and there are as many as the row
// says.
fn is_right<K: Machine>(heap: Heap, row: &Refused) -> Result<bool, Fail> {
    let mut refusals = 0u64;
    for number in 1..50u64 {
        let (refused, told) = refuse_once::<K>(heap, row, number)?;
        if told.as_slice() != row.transcript.as_bytes() {
            return Ok(false);
        }
        if refused {
            refusals = number;
        }
    }
    Ok(refusals >= row.requests && refusals < 49)
}

// Each refused request of the steps of these rows leaves all as it was.
pub(crate) fn assert_right<K: Machine>(
    rt: &impl Abort,
    heap: Heap,
    rows: &[Refused],
) -> Result<(), Fail> {
    for row in rows {
        assert!(rt; is_right::<K>(heap, row)?, "{}", row.transcript);
    }
    Ok(())
}

// Whether a run has not begun that is refused the room for its replies.
fn has_not_begun<K: Machine>(heap: Heap, kernel: &mut K, text: &str) -> Result<bool, Fail> {
    let steps = steps_in(heap, text, "1,1")?;
    heap.refuse(1);
    let refused = kernel.run(steps).is_err();
    Ok(refused && kernel.history().entries().is_empty())
}

// The same of a new kernel.
fn has_never_begun<K: Machine>(heap: Heap) -> Result<bool, Fail> {
    let text = "priorities 0\n1 begin\n1 end\n";
    let mut kernel: K = kernel_of(heap, text, 100)?;
    has_not_begun(heap, &mut kernel, text)
}

#[test]
fn a_refused_run_has_not_begun(rt: HostRuntime) -> Result<(), Fail> {
    assert!(rt; has_never_begun::<Kernel>(heap::open(rt.alloc())?)?);
    Ok(())
}

// Whether there is memory for a kernel.
fn is_made<K: Machine>(heap: Heap, priority: Priority) -> bool {
    K::new(heap, &[priority, priority], 10).is_ok()
}

// Each request of a new kernel is refused once.
#[test]
fn a_refused_kernel_is_not_made(rt: HostRuntime) -> Result<(), Fail> {
    let heap = heap::open(rt.alloc())?;
    for number in 1..64u64 {
        let zero = Priority::new(0).ok_or("no priority")?;
        heap.refuse(number);
        let made = is_made::<Kernel>(heap, zero);
        heap.refuse(0);
        if made {
            assert!(rt; number > 4);
            return Ok(());
        }
    }
    Err(Fail::from("no kernel was made"))
}
