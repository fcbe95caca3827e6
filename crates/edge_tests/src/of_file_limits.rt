// Jobs whose files have few bytes, by a schedule and by threads.
use crate::jobs::{Expected, is_as_expected, job_of};
use heap::Heap;
use std::sync::Wait;
use std::test::Fail;
use std::thread::Threads;

static SCRIPT: &str = "priorities 0\n1 open /a RDWR,CREAT\n1 write 0 sixsix\n1 write 0 x\n\
    1 ftruncate 0 6\n1 truncate /a 6\n1 pwrite 0 xyz 3\n1 pwrite 0 x 5\n";

static JOBS: [Expected; 2] = [
    Expected {
        list: Some("1,1,1,1,1,1,1"),
        limit: 100,
        room: 1000,
        status: 0,
        out: "1 P1 open /a RDWR,CREAT -> 0\n2 P1 write 0 sixsix -> 5\n3 P1 write 0 x -> EFBIG\n\
            4 P1 ftruncate 0 6 -> EFBIG\n5 P1 truncate /a 6 -> EFBIG\n\
            6 P1 pwrite 0 xyz 3 -> 2\n7 P1 pwrite 0 x 5 -> EFBIG\ncheck: ok\n",
        err: "",
    },
    Expected {
        list: None,
        limit: 100,
        room: 1000,
        status: 0,
        out: "1 P1 open /a RDWR,CREAT -> 0\n2 P1 write 0 sixsix -> 5\n3 P1 write 0 x -> EFBIG\n\
            4 P1 ftruncate 0 6 -> EFBIG\n5 P1 truncate /a 6 -> EFBIG\n\
            6 P1 pwrite 0 xyz 3 -> 2\n7 P1 pwrite 0 x 5 -> EFBIG\ncheck: ok\n",
        err: "",
    },
];

// Whether a checked job whose files have at most five bytes ends as expected.
fn is_cut<R: Threads + Wait + Sync>(rt: &R, heap: Heap, expected: &Expected) -> Result<bool, Fail> {
    let mut job = job_of(heap, expected, true)?;
    job.file_limit = 5;
    Ok(is_as_expected(rt, heap, heap, &job, SCRIPT, expected))
}

#[test]
fn jobs_cut_files_at_their_limit(rt: HostRuntime) -> Result<(), Fail> {
    let heap = heap::open(rt.alloc())?;
    for expected in &JOBS {
        assert!(rt; is_cut(&rt, heap, expected)?, "{}", expected.out);
    }
    Ok(())
}
