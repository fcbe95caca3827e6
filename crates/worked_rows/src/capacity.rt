// How much goes into a pipe, and how many processes there are.
use crate::row::{do_script, kernel_of};
use heap::Heap;
use ids::{Answer, Call, Entry, Errno, Op, Pid, Priority, Reply};
use kernel::Kernel;
use machine::Machine;
use std::test::Fail;

// A script, a schedule of it, and how many bytes each step moves. `AGAIN` stands where it is to be
// tried again.
struct Moved {
    script: &'static str,
    schedule: &'static str,
    counts: &'static [usize],
}

const AGAIN: usize = 100_000;

const OTHER: usize = 200_000;

static MOVED: [Moved; 5] = [
    // What does not fit whole is refused up to 512 bytes, and written in part above.
    Moved {
        script: "priorities 0 0
1 pipe
1 fill 1 3585 78
1 fill 1 512 78
1 fill 1 513 78
1 write 1 x
",
        schedule: "1,1,1,1,1",
        counts: &[OTHER, 3585, AGAIN, 511, AGAIN],
    },
    // At most 512 bytes go in whole or not at all.
    Moved {
        script: "priorities 0
1 pipe
1 fill 1 3584 78
1 fill 1 512 79
1 fill 1 5000 7a
1 write 1 x
1 read 0 1
1 write 1 xy
1 fill 1 600 7a
1 read 0 4095
1 read 0 9
1 read 0 9
",
        schedule: "1,1,1,1,1,1,1,1,1,1,1",
        counts: &[OTHER, 3584, 512, AGAIN, AGAIN, 1, AGAIN, 1, 4095, 1, AGAIN],
    },
    // An empty pipe takes 4,096 bytes of more, and gives them in as many reads as are asked for.
    Moved {
        script: "priorities 0
1 pipe
1 fill 1 4097 78
1 read 0 4000
1 fill 1 4000 79
1 fill 1 1 79
1 read 0 5000
",
        schedule: "1,1,1,1,1,1",
        counts: &[OTHER, 4096, 4000, 4000, AGAIN, 4096],
    },
    // A transaction counts what it has taken and written itself.
    Moved {
        script: "priorities 0
1 pipe
1 fill 1 4000 78
1 begin
1 read 0 3000
1 fill 1 3000 79
1 fill 1 97 79
1 fill 1 513 79
1 end
1 read 0 5000
",
        schedule: "1,1,1,1,1,1,1,1,1",
        counts: &[OTHER, 4000, OTHER, 3000, 3000, AGAIN, 96, OTHER, 4096],
    },
    // A write that finds no room has seen the front: a read makes room, and dooms it.
    Moved {
        script: "priorities 0
1 pipe
1 fill 1 3585 7a
1 fork
1 begin
1 fill 1 512 7a
2 read 0 1
1 end
1 fill 1 512 7a
",
        schedule: "1,1,1,1,1,2,1,1",
        counts: &[OTHER, 3585, OTHER, OTHER, AGAIN, 1, OTHER, 512],
    },
];

// How many bytes a step has moved.
pub(crate) fn count_of(reply: &Reply) -> usize {
    match reply {
        Reply::Answer(Answer::Count(count)) => *count as usize,
        Reply::Answer(Answer::Bytes(bytes)) => bytes.as_slice().len(),
        Reply::Errno(Errno::EAGAIN) => AGAIN,
        _ => OTHER,
    }
}

// Whether the entries have moved so many bytes each.
fn have_moved(entries: &[Entry], counts: &[usize]) -> bool {
    if entries.len() != counts.len() {
        return false;
    }
    for (entry, count) in entries.iter().zip(counts.iter()) {
        if count_of(&entry.reply) != *count {
            return false;
        }
    }
    true
}

fn is_moved<K: Machine>(heap: Heap, row: &Moved) -> Result<bool, Fail> {
    let mut kernel: K = kernel_of(heap, row.script, 100)?;
    do_script(&mut kernel, heap, row.script, row.schedule)?;
    Ok(have_moved(kernel.history().entries(), row.counts))
}

#[test]
fn pipes_have_4096_bytes(rt: HostRuntime) -> Result<(), Fail> {
    let heap = heap::open(rt.alloc())?;
    for row in &MOVED {
        assert!(rt; is_moved::<Kernel>(heap, row)?, "{}", row.script);
    }
    Ok(())
}

// A kernel of 4,000 processes.
fn kernel_of_many<K: Machine>(heap: Heap) -> Result<K, Fail> {
    let zero = Priority::new(0).ok_or("no priority")?;
    let priorities = Vec::from_elem(heap, zero, 4000)?;
    Ok(K::new(heap, priorities.as_slice(), 200)?)
}

fn is_child(reply: &Reply) -> bool {
    matches!(reply, Reply::Answer(Answer::Child(_)))
}

fn is_again(reply: &Reply) -> bool {
    matches!(reply, Reply::Errno(Errno::EAGAIN))
}

// How many children a process makes until it is refused one, and what it is told then.
fn children_of<K: Machine>(kernel: &mut K, pid: Pid) -> (usize, bool) {
    for made in 0..100usize {
        let reply = kernel.step(pid, Op::Call(Call::Fork));
        let (child, again) = (is_child(&reply), is_again(&reply));
        drop(reply);
        if !child {
            return (made, again);
        }
    }
    (100, false)
}

// The children of the first process, and those of the last when another has ended: a process that
// has ended counts as made.
fn all_children<K: Machine>(heap: Heap) -> Result<[(usize, bool); 2], Fail> {
    let mut kernel: K = kernel_of_many(heap)?;
    let first = children_of(&mut kernel, Pid(1));
    drop(kernel.step(Pid(4000), Op::Call(Call::Exit)));
    Ok([first, children_of(&mut kernel, Pid(4096))])
}

#[test]
fn processes_are_4096_at_most(rt: HostRuntime) -> Result<(), Fail> {
    let heap = heap::open(rt.alloc())?;
    assert!(rt; all_children::<Kernel>(heap)? == [(96, true), (0, true)]);
    Ok(())
}
