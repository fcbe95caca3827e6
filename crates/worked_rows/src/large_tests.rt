// Each row under another limit of a file's bytes is run step by step, as one run, and on a kernel
// that forgets; its replies are changed; and its requests for memory are refused.
use crate::changed::missed_on;
use crate::forgotten::told_one_by_one;
use crate::growths::grow_on;
use crate::largest_files::{LARGEST_FILES, MANY};
use crate::limited_appends::LIMITED_APPENDS;
use crate::limited_offsets::LIMITED_OFFSETS;
use crate::limited_truncates::LIMITED_TRUNCATES;
use crate::limited_writes::LIMITED_WRITES;
use crate::row::{Large, kernel_with, steps_in};
use crate::tests::{at_once, step_by_step};
use heap::Heap;
use ids::Limits;
use kernel::Kernel;
use machine::Machine;
use std::test::Fail;

// How many lists of rows there are.
const LISTS: usize = 5;

// The rows of a list, whose number is below `LISTS`.
fn large_of(list: usize) -> &'static [Large] {
    match list {
        0 => &LIMITED_WRITES,
        1 => &LIMITED_APPENDS,
        2 => &LARGEST_FILES,
        3 => &LIMITED_TRUNCATES,
        _ => &LIMITED_OFFSETS,
    }
}

// How a row is run.
#[derive(Clone, Copy)]
enum Way {
    Steps,
    Run,
    Forgetting,
}

// A kernel of a row, with a history of so many entries.
fn kernel_for<K: Machine>(heap: Heap, large: &Large, entries: usize) -> Result<K, Fail> {
    let limits = Limits {
        file_bytes: large.file_bytes,
        ..Limits::of_entries(entries)
    };
    kernel_with(heap, large.row.script, limits)
}

fn transcript_by_steps<K: Machine>(heap: Heap, large: &Large) -> Result<Vec<u8, Heap>, Fail> {
    let mut kernel: K = kernel_for(heap, large, large.row.limit)?;
    step_by_step(&mut kernel, heap, &large.row)
}

fn transcript_at_once<K: Machine>(heap: Heap, large: &Large) -> Result<Vec<u8, Heap>, Fail> {
    let mut kernel: K = kernel_for(heap, large, large.row.limit)?;
    at_once(&mut kernel, heap, &large.row)
}

// The lines of a kernel that forgets each step.
fn transcript_forgotten<K: Machine>(heap: Heap, large: &Large) -> Result<Vec<u8, Heap>, Fail> {
    let steps = steps_in(heap, large.row.script, large.row.schedule)?;
    let mut lines = Vec::new(heap);
    let mut kernel: K = kernel_for(heap, large, 4)?;
    told_one_by_one(heap, &mut kernel, steps.as_slice(), &mut lines)?;
    Ok(lines)
}

fn transcript_by<K: Machine>(heap: Heap, way: Way, large: &Large) -> Result<Vec<u8, Heap>, Fail> {
    match way {
        Way::Steps => transcript_by_steps::<K>(heap, large),
        Way::Run => transcript_at_once::<K>(heap, large),
        Way::Forgetting => transcript_forgotten::<K>(heap, large),
    }
}

// The script of the first of these rows that leaves another transcript, run in this way.
fn all_told<K: Machine>(heap: Heap, way: Way, rows: &[Large]) -> Result<(), Fail> {
    for large in rows {
        let told = transcript_by::<K>(heap, way, large)?;
        if told.as_slice() != large.row.transcript.as_bytes() {
            return Err(Fail::from(large.row.script));
        }
    }
    Ok(())
}

// Every row.
fn each_told<K: Machine>(heap: Heap, way: Way) -> Result<(), Fail> {
    for list in 0..LISTS {
        all_told::<K>(heap, way, large_of(list))?;
    }
    Ok(())
}

#[test]
fn steps_leave_the_transcript_of_the_large_row(rt: HostRuntime) -> Result<(), Fail> {
    each_told::<Kernel>(heap::open(rt.alloc())?, Way::Steps)
}

#[test]
fn a_run_leaves_the_transcript_of_the_large_row(rt: HostRuntime) -> Result<(), Fail> {
    each_told::<Kernel>(heap::open(rt.alloc())?, Way::Run)
}

#[test]
fn forgetting_leaves_the_transcript_of_the_large_row(rt: HostRuntime) -> Result<(), Fail> {
    each_told::<Kernel>(heap::open(rt.alloc())?, Way::Forgetting)
}

fn missed_in<K: Machine>(heap: Heap, large: &Large) -> Result<Option<usize>, Fail> {
    let mut kernel: K = kernel_for(heap, large, large.row.limit)?;
    missed_on(&mut kernel, heap, &large.row)
}

// The script of the first of these rows in which a changed reply is missed.
fn all_found<K: Machine>(heap: Heap, rows: &[Large]) -> Result<(), Fail> {
    for large in rows {
        if missed_in::<K>(heap, large)?.is_some() {
            return Err(Fail::from(large.row.script));
        }
    }
    Ok(())
}

#[test]
fn changed_replies_of_large_rows_are_found(rt: HostRuntime) -> Result<(), Fail> {
    let heap = heap::open(rt.alloc())?;
    for list in 0..LISTS {
        all_found::<Kernel>(heap, large_of(list))?;
    }
    Ok(())
}

// How many requests for memory were refused, one in each run of a step, and the transcript.
fn grow_large(heap: Heap, large: &Large) -> Result<(u64, Vec<u8, Heap>), Fail> {
    let mut kernel: Kernel = kernel_for(heap, large, large.row.limit)?;
    let grown = grow_on(&mut kernel, heap, &large.row);
    drop(kernel);
    grown
}

// The script of the first of these rows that leaves another transcript so, or makes no request.
fn all_grown(heap: Heap, rows: &[Large]) -> Result<(), Fail> {
    for large in rows {
        let (count, told) = grow_large(heap, large)?;
        if count == 0 || told.as_slice() != large.row.transcript.as_bytes() {
            return Err(Fail::from(large.row.script));
        }
    }
    Ok(())
}

#[test]
fn refuse_each_growth_of_large_rows(rt: HostRuntime) -> Result<(), Fail> {
    let heap = heap::open(rt.alloc())?;
    for list in 0..LISTS {
        all_grown(heap, large_of(list))?;
    }
    Ok(())
}

#[test]
fn many_blocks_are_cut(rt: HostRuntime) -> Result<(), Fail> {
    let told = transcript_by_steps::<Kernel>(heap::open(rt.alloc())?, &MANY)?;
    assert!(rt; told.as_slice() == MANY.row.transcript.as_bytes());
    Ok(())
}
