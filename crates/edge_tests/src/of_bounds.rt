// Jobs whose processes have few descriptors and whose paths are short, by a schedule and by threads.
use crate::jobs::{Expected, is_as_expected, job_of};
use heap::Heap;
use std::sync::Wait;
use std::test::Fail;
use std::thread::Threads;

static SCRIPT: &str = "priorities 0\n1 open /a RDWR,CREAT\n1 dup 0\n1 dup 0\n1 dup2 0 2\n\
    1 pipe\n1 close 0\n1 dup2 1 0\n1 mkdir /bc\n1 mkdir /bcd\n";

static JOBS: [Expected; 2] = [
    Expected {
        list: Some("1,1,1,1,1,1,1,1,1"),
        limit: 100,
        room: 1000,
        status: 0,
        out: "1 P1 open /a RDWR,CREAT -> 0\n2 P1 dup 0 -> 1\n3 P1 dup 0 -> EMFILE\n\
            4 P1 dup2 0 2 -> EBADF\n5 P1 pipe -> EMFILE\n6 P1 close 0 -> ok\n\
            7 P1 dup2 1 0 -> 0\n8 P1 mkdir /bc -> ok\n9 P1 mkdir /bcd -> ENAMETOOLONG\ncheck: ok\n",
        err: "",
    },
    Expected {
        list: None,
        limit: 100,
        room: 1000,
        status: 0,
        out: "1 P1 open /a RDWR,CREAT -> 0\n2 P1 dup 0 -> 1\n3 P1 dup 0 -> EMFILE\n\
            4 P1 dup2 0 2 -> EBADF\n5 P1 pipe -> EMFILE\n6 P1 close 0 -> ok\n\
            7 P1 dup2 1 0 -> 0\n8 P1 mkdir /bc -> ok\n9 P1 mkdir /bcd -> ENAMETOOLONG\ncheck: ok\n",
        err: "",
    },
];

// Whether a checked job of two descriptors and paths of three bytes ends as expected.
fn is_bounded<R: Threads + Wait + Sync>(
    rt: &R,
    heap: Heap,
    expected: &Expected,
) -> Result<bool, Fail> {
    let mut job = job_of(heap, expected, true)?;
    job.descriptors = 2;
    job.path_limit = 3;
    Ok(is_as_expected(rt, heap, heap, &job, SCRIPT, expected))
}

#[test]
fn jobs_have_few_descriptors_and_short_paths(rt: HostRuntime) -> Result<(), Fail> {
    let heap = heap::open(rt.alloc())?;
    for expected in &JOBS {
        assert!(rt; is_bounded(&rt, heap, expected)?, "{}", expected.out);
    }
    Ok(())
}
