// Kernels whose processes may have more descriptors than where no number is given: each time the lowest
// that is free, up to the last, plain and in a transaction, after commits and after aborts.
use crate::row::{do_script, pass};
use heap::Heap;
use ids::{Answer, BeginFlags, Call, Errno, Fd, Limits, Op, Pid, Priority, Reply};
use kernel::Kernel;
use machine::Machine;
use std::test::Fail;

static OPENED: &str = "priorities 0\n1 open /a RDWR,CREAT\n";

// What a reply is told as where it is no descriptor.
const REFUSED: u32 = u32::MAX;

const OTHER: u32 = u32::MAX - 1;

// The descriptor that a step answers.
fn fd_of(reply: &Reply) -> u32 {
    match reply {
        Reply::Answer(Answer::Fd(fd)) => fd.0,
        Reply::Errno(Errno::EMFILE) => REFUSED,
        _ => OTHER,
    }
}

fn step_to_fd<K: Machine>(kernel: &mut K, op: Op) -> u32 {
    let reply = kernel.step(Pid(1), op);
    let fd = fd_of(&reply);
    drop(reply);
    fd
}

fn dup<K: Machine>(kernel: &mut K) -> u32 {
    step_to_fd(kernel, Op::Call(Call::Dup(Fd(0))))
}

fn step<K: Machine>(kernel: &mut K, op: Op) {
    drop(kernel.step(Pid(1), op));
}

fn close<K: Machine>(kernel: &mut K, fd: u32) {
    step(kernel, Op::Call(Call::Close(Fd(fd))));
}

// A kernel of one process with so many descriptors, of which the first is open.
fn kernel_with<K: Machine>(heap: Heap, descriptors: u32) -> Result<K, Fail> {
    let zero = Priority::new(0).ok_or("no priority")?;
    let limits = Limits {
        descriptors,
        ..Limits::of_entries(65_536)
    };
    let mut kernel = K::with_limits(heap, &[zero], limits)?;
    let opened = do_script(&mut kernel, heap, OPENED, "1");
    match opened {
        Ok(()) => Ok(kernel),
        Err(why) => {
            drop(kernel);
            Err(why)
        }
    }
}

// Whether the descriptors from this one on are given one after the other, and then none is.
fn are_given<K: Machine>(kernel: &mut K, first: u32, end: u32) -> bool {
    for fd in first..end {
        if dup(kernel) != fd {
            return false;
        }
    }
    dup(kernel) == REFUSED
}

// Whether, of all that are open, those that are closed are given again, the lowest first.
fn are_given_again<K: Machine>(kernel: &mut K, end: u32) -> bool {
    let low = end / 3;
    let high = end.saturating_sub(1);
    close(kernel, high);
    close(kernel, low);
    dup(kernel) == low && dup(kernel) == high && dup(kernel) == REFUSED
}

// Whether a transaction sees its own descriptors alone, and an abort leaves those before it.
fn are_given_within<K: Machine>(kernel: &mut K, end: u32) -> bool {
    let middle = end / 2;
    for fd in middle..end {
        close(kernel, fd);
    }
    step(kernel, Op::Begin(BeginFlags::none()));
    let within = are_given(kernel, middle, end) && are_given_again(kernel, end);
    step(kernel, Op::Abort { no_restart: true });
    step(kernel, Op::Begin(BeginFlags::none()));
    let anew = dup(kernel) == middle;
    close(kernel, 1);
    let lowest = dup(kernel) == 1;
    step(kernel, Op::End);
    within && anew && lowest && are_given(kernel, middle + 1, end)
}

// Whether all of this is so, and the history passes the check.
fn is_right<K: Machine>(heap: Heap, descriptors: u32) -> Result<bool, Fail> {
    let mut kernel: K = kernel_with(heap, descriptors)?;
    let plain = are_given(&mut kernel, 1, descriptors) && are_given_again(&mut kernel, descriptors);
    let within = are_given_within(&mut kernel, descriptors);
    let passed = pass(heap, kernel.history());
    drop(kernel);
    passed?;
    Ok(plain && within)
}

#[test]
fn the_lowest_free_descriptor_is_given_up_to_the_last(rt: HostRuntime) -> Result<(), Fail> {
    let heap = heap::open(rt.alloc())?;
    for descriptors in [5u32, 64, 65, 127, 128, 1000, 4096, 4097] {
        assert!(rt; is_right::<Kernel>(heap, descriptors)?, "{}", descriptors);
    }
    Ok(())
}

// Whether the last descriptor of all can be given, beside which none has memory.
fn is_last_given<K: Machine>(heap: Heap) -> Result<bool, Fail> {
    let mut kernel: K = kernel_with(heap, 1_048_576)?;
    let last = step_to_fd(&mut kernel, Op::Call(Call::Dup2(Fd(0), Fd(1_048_575))));
    let next = dup(&mut kernel);
    let reply = kernel.step(Pid(1), Op::Call(Call::Dup2(Fd(0), Fd(1_048_576))));
    let refused = matches!(&reply, Reply::Errno(Errno::EBADF));
    drop(reply);
    close(&mut kernel, 1_048_575);
    let passed = pass(heap, kernel.history());
    drop(kernel);
    passed?;
    Ok(last == 1_048_575 && next == 1 && refused)
}

#[test]
fn the_last_descriptor_of_all_can_be_given(rt: HostRuntime) -> Result<(), Fail> {
    assert!(rt; is_last_given::<Kernel>(heap::open(rt.alloc())?)?);
    Ok(())
}
