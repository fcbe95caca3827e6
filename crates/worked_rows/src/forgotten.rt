// A kernel that forgets what was done answers as one that keeps it, its lines go on, and its history
// passes the check part by part.
use crate::row::{Row, do_steps, kernel_of, lines_of, steps_in, transcript_of};
use crate::transactions::TRANSACTIONS;
use heap::Heap;
use history::History;
use ids::{Num, Op, Pid};
use kernel::Kernel;
use machine::Machine;
use replay::Checker;
use std::alloc::AllocError;
use std::test::Fail;

// What was done is printed and checked, and then it is forgotten.
fn tell_and_forget<K: Machine>(
    heap: Heap,
    kernel: &mut K,
    checker: Checker,
    lines: &mut Vec<u8, Heap>,
) -> Result<Checker, Fail> {
    let Ok(checker) = checker.add(kernel.history().entries()) else {
        return Err(Fail::from("a part does not pass the check"));
    };
    match put_and_forget(heap, kernel, lines) {
        Ok(()) => Ok(checker),
        Err(fail) => {
            drop(checker);
            Err(fail)
        }
    }
}

fn put_and_forget<K: Machine>(
    heap: Heap,
    kernel: &mut K,
    lines: &mut Vec<u8, Heap>,
) -> Result<(), Fail> {
    let part = lines_of(heap, kernel.history())?;
    lines.extend_from_slice(part.as_slice())?;
    if kernel.forget() {
        Ok(())
    } else {
        Err(Fail::from("nothing was forgotten"))
    }
}

// A checker of the entries that a kernel will make.
fn checker_of(heap: Heap, history: &History) -> Result<Checker, AllocError> {
    Checker::with_bounds(heap, Num(0), history.priorities(), history.bounds())
}

// The lines of steps behind each of which all is forgotten.
pub(crate) fn told_one_by_one<K: Machine>(
    heap: Heap,
    kernel: &mut K,
    steps: &[(Pid, Op)],
    lines: &mut Vec<u8, Heap>,
) -> Result<(), Fail> {
    let mut checker = checker_of(heap, kernel.history())?;
    for (pid, op) in steps {
        let op = op.try_clone();
        checker = match op {
            Ok(op) => {
                drop(kernel.step(*pid, op));
                tell_and_forget(heap, kernel, checker, lines)?
            }
            Err(_) => {
                drop(checker);
                return Err(Fail::from("no memory"));
            }
        };
    }
    drop(checker);
    Ok(())
}

fn forgetful<K: Machine>(heap: Heap, row: &Row) -> Result<Vec<u8, Heap>, Fail> {
    let steps = steps_in(heap, row.script, row.schedule)?;
    let mut lines = Vec::new(heap);
    let mut kernel: K = kernel_of(heap, row.script, 4)?;
    told_one_by_one(heap, &mut kernel, steps.as_slice(), &mut lines)?;
    Ok(lines)
}

fn whole<K: Machine>(heap: Heap, row: &Row) -> Result<Vec<u8, Heap>, Fail> {
    let mut kernel: K = kernel_of(heap, row.script, 100)?;
    do_steps(&mut kernel, steps_in(heap, row.script, row.schedule)?);
    transcript_of(heap, &kernel)
}

fn is_as_whole<K: Machine>(heap: Heap, row: &Row) -> Result<bool, Fail> {
    let wanted = whole::<K>(heap, row)?;
    let told = forgetful::<K>(heap, row)?;
    Ok(told.as_slice() == wanted.as_slice())
}

// A process in a transaction holds one place, and an operation takes one or two: four are enough
// for two processes.
#[test]
fn forgetting_changes_no_answer(rt: HostRuntime) -> Result<(), Fail> {
    let heap = heap::open(rt.alloc())?;
    for row in &TRANSACTIONS {
        assert!(rt; is_as_whole::<Kernel>(heap, row)?, "{}", row.script);
    }
    Ok(())
}
