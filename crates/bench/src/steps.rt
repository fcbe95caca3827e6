// Kernels, and single steps of them.
use crate::paths::DEEP;
use anyhow::{Result, bail};
use heap::Heap;
use ids::{Answer, BeginFlags, Bytes, Call, Op, Pid, Priority, Reply};
use machine::Machine;

/// A kernel of so many processes, and 4,096 at most, with room for 1,048,576 entries.
pub(crate) fn kernel_of<K: Machine>(heap: Heap, processes: u64) -> Result<K> {
    let Some(zero) = Priority::new(0) else {
        bail!("there is no priority 0")
    };
    let priorities = Vec::from_elem(heap, zero, processes.clamp(1, 4096) as usize)?;
    Ok(K::new(heap, priorities.as_slice(), 1_048_576)?)
}

fn is_done(reply: &Reply) -> bool {
    matches!(
        reply,
        Reply::Answer(_) | Reply::Begun | Reply::Committed | Reply::GivenUp { .. }
    )
}

/// Does one step, which is to be answered.
pub(crate) fn step<K: Machine>(kernel: &mut K, pid: u32, op: Op) -> Result<()> {
    let reply = kernel.step(Pid(pid), op);
    let done = is_done(&reply);
    drop(reply);
    if !done {
        bail!("a step was not done")
    }
    Ok(())
}

/// Does one step, which is to be refused with an error of the call.
pub(crate) fn step_refused<K: Machine>(kernel: &mut K, pid: u32, op: Op) -> Result<()> {
    let reply = kernel.step(Pid(pid), op);
    let refused = matches!(&reply, Reply::Errno(_));
    drop(reply);
    if !refused {
        bail!("a step was not refused")
    }
    Ok(())
}

/// Does one step, whatever it is answered.
pub(crate) fn step_any<K: Machine>(kernel: &mut K, pid: u32, op: Op) {
    drop(kernel.step(Pid(pid), op));
}

/// The number of the child that the first process makes.
pub(crate) fn child<K: Machine>(kernel: &mut K) -> Result<u32> {
    let reply = kernel.step(Pid(1), Op::Call(Call::Fork));
    let made = match &reply {
        Reply::Answer(Answer::Child(pid)) => pid.0,
        _ => 0,
    };
    drop(reply);
    if made == 0 {
        bail!("no child was made")
    }
    Ok(made)
}

/// The process begins a transaction.
pub(crate) fn begin<K: Machine>(kernel: &mut K, pid: u32) -> Result<()> {
    step(kernel, pid, Op::Begin(BeginFlags::none()))
}

/// The process commits its transaction.
pub(crate) fn end<K: Machine>(kernel: &mut K, pid: u32) -> Result<()> {
    step(kernel, pid, Op::End)
}

/// The process gives its transaction up.
pub(crate) fn abort<K: Machine>(kernel: &mut K, pid: u32) -> Result<()> {
    step(kernel, pid, Op::Abort { no_restart: true })
}

/// The first process makes the directory of this path.
pub(crate) fn make_directory<K: Machine>(kernel: &mut K, heap: Heap, path: &[u8]) -> Result<()> {
    step(kernel, 1, Op::Call(Call::Mkdir(Bytes::copy(heap, path)?)))
}

/// Opens a pipe on the descriptors 0 and 1, and makes the directory `/d` and one of eight names.
pub(crate) fn prepare<K: Machine>(kernel: &mut K, heap: Heap) -> Result<()> {
    step(kernel, 1, Op::Call(Call::Pipe))?;
    make_directory(kernel, heap, b"/d")?;
    for depth in 1..=8usize {
        let Some(path) = DEEP.as_bytes().get(..depth * 2) else {
            bail!("there is no such depth")
        };
        make_directory(kernel, heap, path)?;
    }
    Ok(())
}
