// A symbolic link's target has at most 4,095 bytes, none of which is zero. The line of a script
// would be as long, so these calls are made without one.
use crate::paths::errno_in;
use crate::row::{do_script, kernel_of, pass};
use heap::Heap;
use ids::{Answer, Bytes, Call, Errno, Op, Pid, Reply, TARGET_LIMIT};
use kernel::Kernel;
use machine::Machine;
use std::alloc::AllocError;
use std::test::Fail;

static BEGUN: &str = "priorities 0\n1 begin\n";

static ENDED: &str = "priorities 0\n1 end\n";

static PATH: &[u8; 2] = b"/l";

// How many bytes were answered, or are told by a status, and the error.
type Told = (usize, Option<Errno>);

// A link whose target has so many of one byte.
fn symlink(heap: Heap, count: usize, byte: u8) -> Result<Call, AllocError> {
    let target = Bytes::new(Vec::from_elem(heap, byte, count)?);
    Ok(Call::Symlink(target, Bytes::copy(heap, PATH)?))
}

fn length_in(reply: &Reply) -> usize {
    match reply {
        Reply::Answer(Answer::Bytes(bytes)) => bytes.as_slice().len(),
        Reply::Answer(Answer::Stat(stat)) => stat.size as usize,
        _ => 0,
    }
}

fn told<K: Machine>(kernel: &mut K, call: Call) -> Told {
    let reply = kernel.step(Pid(1), Op::Call(call));
    let told = (length_in(&reply), errno_in(&reply));
    drop(reply);
    told
}

// What is told of targets that are too long, that have zero bytes, and of the longest, which is
// read and told about, and whose name is taken then.
fn each_told<K: Machine>(heap: Heap, kernel: &mut K) -> Result<[Told; 7], AllocError> {
    let long = told(kernel, symlink(heap, TARGET_LIMIT + 1, b'x')?);
    let long_zeros = told(kernel, symlink(heap, TARGET_LIMIT + 1, 0)?);
    let zeros = told(kernel, symlink(heap, TARGET_LIMIT, 0)?);
    let longest = told(kernel, symlink(heap, TARGET_LIMIT, b'x')?);
    let read = told(kernel, Call::Readlink(Bytes::copy(heap, PATH)?));
    let status = told(kernel, Call::Lstat(Bytes::copy(heap, PATH)?));
    let unlinked = told(kernel, Call::Unlink(Bytes::copy(heap, PATH)?));
    Ok([long, long_zeros, zeros, longest, read, status, unlinked])
}

static TOLD: [Told; 7] = [
    (0, Some(Errno::ENAMETOOLONG)),
    (0, Some(Errno::ENAMETOOLONG)),
    (0, Some(Errno::EINVAL)),
    (0, None),
    (4095, None),
    (4095, None),
    (0, None),
];

// Whether this is told, plain and in a transaction, and the history passes the check.
fn is_told<K: Machine>(heap: Heap, kernel: &mut K) -> Result<bool, Fail> {
    let plain = each_told(heap, kernel)?;
    do_script(kernel, heap, BEGUN, "1")?;
    let within = each_told(heap, kernel)?;
    do_script(kernel, heap, ENDED, "1")?;
    pass(heap, kernel.history())?;
    Ok(plain == TOLD && within == TOLD)
}

fn is_told_anew<K: Machine>(heap: Heap) -> Result<bool, Fail> {
    let mut kernel: K = kernel_of(heap, BEGUN, 100)?;
    is_told(heap, &mut kernel)
}

#[test]
fn a_target_has_at_most_4095_bytes(rt: HostRuntime) -> Result<(), Fail> {
    assert!(rt; is_told_anew::<Kernel>(heap::open(rt.alloc())?)?);
    Ok(())
}
