// Paths of as many bytes as a kernel lets one have, and of one more: directories in one another, whose
// names have 255 bytes.
use crate::row::pass;
use heap::Heap;
use ids::{Answer, Bytes, Call, Errno, Limits, Op, Pid, Priority, Reply};
use kernel::Kernel;
use machine::Machine;
use std::test::Fail;

// How many bytes stand from one slash to the next.
const STEP: usize = 256;

// A path of so many bytes, in which slashes stand 256 bytes apart.
fn path_of(heap: Heap, len: usize) -> Result<Bytes, Fail> {
    let mut bytes = Vec::with_capacity(heap, len)?;
    for at in 0..len {
        bytes.push(if at % STEP == 0 { b'/' } else { b'n' })?;
    }
    Ok(Bytes::new(bytes))
}

// A kernel with paths of so many bytes.
fn kernel_with<K: Machine>(heap: Heap, path_bytes: u32) -> Result<K, Fail> {
    let zero = Priority::new(0).ok_or("no priority")?;
    let limits = Limits {
        path_bytes,
        ..Limits::of_entries(1000)
    };
    Ok(K::with_limits(heap, &[zero], limits)?)
}

// Whether a step is done.
fn is_done<K: Machine>(kernel: &mut K, call: Call) -> bool {
    let reply = kernel.step(Pid(1), Op::Call(call));
    let done = matches!(&reply, Reply::Answer(Answer::Done));
    drop(reply);
    done
}

// Whether a path is too long to be one.
fn is_too_long<K: Machine>(kernel: &mut K, path: Bytes) -> bool {
    let reply = kernel.step(Pid(1), Op::Call(Call::Stat(path)));
    let refused = matches!(&reply, Reply::Errno(Errno::ENAMETOOLONG));
    drop(reply);
    refused
}

// Makes the directories that stand above a path of so many bytes.
fn make_above<K: Machine>(heap: Heap, kernel: &mut K, len: usize) -> Result<bool, Fail> {
    let mut all = true;
    for count in 1..len.div_ceil(STEP) {
        all &= is_done(kernel, Call::Mkdir(path_of(heap, count * STEP)?));
    }
    Ok(all)
}

// Whether a directory of so long a path is made, found and removed, and none of a longer path is.
fn is_made<K: Machine>(heap: Heap, kernel: &mut K, len: usize) -> Result<bool, Fail> {
    let above = make_above(heap, kernel, len)?;
    let made = is_done(kernel, Call::Mkdir(path_of(heap, len)?));
    let found = !is_too_long(kernel, path_of(heap, len)?);
    let longer = is_too_long(kernel, path_of(heap, len.saturating_add(1))?);
    let removed = is_done(kernel, Call::Rmdir(path_of(heap, len)?));
    pass(heap, kernel.history())?;
    Ok(above && made && found && longer && removed)
}

fn is_made_anew<K: Machine>(heap: Heap, len: u32) -> Result<bool, Fail> {
    let mut kernel: K = kernel_with(heap, len)?;
    let made = is_made(heap, &mut kernel, len as usize);
    drop(kernel);
    made
}

#[test]
fn a_path_has_as_many_bytes_as_it_may_have(rt: HostRuntime) -> Result<(), Fail> {
    let heap = heap::open(rt.alloc())?;
    for len in [2u32, 255, 256, 258, 1023, 1024, 1026, 4095, 4096] {
        assert!(rt; is_made_anew::<Kernel>(heap, len)?, "{}", len);
    }
    Ok(())
}

// Where no number is given a path has 1,024 bytes.
fn is_made_by_default<K: Machine>(heap: Heap) -> Result<bool, Fail> {
    let zero = Priority::new(0).ok_or("no priority")?;
    let mut kernel = K::new(heap, &[zero], 1000)?;
    let made = is_made(heap, &mut kernel, 1024);
    drop(kernel);
    made
}

#[test]
fn a_path_has_1024_bytes_where_no_number_is_given(rt: HostRuntime) -> Result<(), Fail> {
    assert!(rt; is_made_by_default::<Kernel>(heap::open(rt.alloc())?)?);
    Ok(())
}
