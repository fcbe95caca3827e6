// Command lines: the jobs that they give, and the faults of those that give none.
use crate::texts::{has_debug_text, has_text, text_begins};
use heap::Heap;
use std::alloc::Global;
use std::test::Fail;
use words::{CommandLineFault, Task, read_words};

// Whether a line's words give this job, of a script, of a stream or of a store, or a fault with this status and
// text. A text of clap's need only begin with it.
fn is_as_expected(alloc: Global, heap: Heap, line: &str, status: u8, expected: &str) -> bool {
    let words: Vec<&str> = match line.split(' ').collect(alloc) {
        Ok(words) => words,
        Err(_) => return false,
    };
    match read_words(alloc, heap, words.as_slice()) {
        Ok(Task::Script(job)) => status == 0 && has_debug_text(alloc, &job, expected),
        Ok(Task::Stream(job)) => status == 0 && has_debug_text(alloc, &job, expected),
        Ok(Task::Store(job)) => status == 0 && has_debug_text(alloc, &job, expected),
        Err(CommandLineFault::Usage(fault)) => status == 2 && text_begins(alloc, &fault, expected),
        Err(fault) => status == fault.status() && has_text(alloc, &fault, expected),
    }
}

// Command lines, each with its status and job, or how the text of its fault begins. Before each the
// request of memory that is refused: one is made for a schedule, and one for the file.
static LINES: [(u64, &str, u8, &str); 60] = [
    (
        0,
        "txsh --schedule 1,1,2,1,2 run.tx",
        0,
        "Job { way: Schedule(\"1,1,2,1,2\"), limit: 65536, file_limit: 1048576, descriptors: 64, path_limit: 1024, check: false, file: \"run.tx\" }",
    ),
    (1, "txsh --schedule 1,1,2,1,2 run.tx", 3, "no memory"),
    (2, "txsh --schedule 1,1,2,1,2 run.tx", 3, "no memory"),
    (
        3,
        "txsh --schedule 1,1,2,1,2 run.tx",
        0,
        "Job { way: Schedule(\"1,1,2,1,2\"), limit: 65536, file_limit: 1048576, descriptors: 64, path_limit: 1024, check: false, file: \"run.tx\" }",
    ),
    (
        0,
        "txsh --limit 1048576 --schedule  run.tx",
        0,
        "Job { way: Schedule(\"\"), limit: 1048576, file_limit: 1048576, descriptors: 64, path_limit: 1024, check: false, file: \"run.tx\" }",
    ),
    (
        0,
        "txsh --schedule=1 --limit=0 run.tx",
        0,
        "Job { way: Schedule(\"1\"), limit: 0, file_limit: 1048576, descriptors: 64, path_limit: 1024, check: false, file: \"run.tx\" }",
    ),
    (
        0,
        "txsh run.tx",
        2,
        "exactly one of --schedule, --threads and --stream",
    ),
    (
        0,
        "txsh --schedule=1 --limit 1048577 run.tx",
        2,
        "error: invalid value '1048577'",
    ),
    (0, "txsh --schedule=1 --limit x run.tx", 2, "error: "),
    (0, "txsh --schedule=1", 2, "no FILE is named"),
    (
        0,
        "txsh --schedule=1 --check run.tx",
        0,
        "Job { way: Schedule(\"1\"), limit: 65536, file_limit: 1048576, descriptors: 64, path_limit: 1024, check: true, file: \"run.tx\" }",
    ),
    (0, "txsh --schedule=1 --check=yes run.tx", 2, "error: "),
    (
        0,
        "txsh --threads run.tx",
        0,
        "Job { way: Threads, limit: 65536, file_limit: 1048576, descriptors: 64, path_limit: 1024, check: false, file: \"run.tx\" }",
    ),
    (1, "txsh --threads run.tx", 3, "no memory"),
    (
        2,
        "txsh --threads run.tx",
        0,
        "Job { way: Threads, limit: 65536, file_limit: 1048576, descriptors: 64, path_limit: 1024, check: false, file: \"run.tx\" }",
    ),
    (
        0,
        "txsh --check --limit=7 --threads run.tx",
        0,
        "Job { way: Threads, limit: 7, file_limit: 1048576, descriptors: 64, path_limit: 1024, check: true, file: \"run.tx\" }",
    ),
    (
        0,
        "txsh --threads --schedule 1 run.tx",
        2,
        "exactly one of --schedule, --threads and --stream",
    ),
    (0, "txsh --threads=2 run.tx", 2, "error: "),
    (0, "txsh --threads --threads run.tx", 2, "error: "),
    (0, "txsh --threads", 2, "no FILE is named"),
    // The most bytes of a file, in each form.
    (
        0,
        "txsh --schedule=1 --file-limit 5 run.tx",
        0,
        "Job { way: Schedule(\"1\"), limit: 65536, file_limit: 5, descriptors: 64, path_limit: 1024, check: false, file: \"run.tx\" }",
    ),
    (
        0,
        "txsh --file-limit=1 --threads run.tx",
        0,
        "Job { way: Threads, limit: 65536, file_limit: 1, descriptors: 64, path_limit: 1024, check: false, file: \"run.tx\" }",
    ),
    (
        0,
        "txsh --threads run.tx --file-limit 2147483647",
        0,
        "Job { way: Threads, limit: 65536, file_limit: 2147483647, descriptors: 64, path_limit: 1024, check: false, file: \"run.tx\" }",
    ),
    (
        0,
        "txsh --check --limit 9 --schedule 1,1 --file-limit 007 run.tx",
        0,
        "Job { way: Schedule(\"1,1\"), limit: 9, file_limit: 7, descriptors: 64, path_limit: 1024, check: true, file: \"run.tx\" }",
    ),
    (
        0,
        "txsh --schedule=1 --file-limit 0 run.tx",
        2,
        "error: invalid value '0'",
    ),
    (
        0,
        "txsh --threads --file-limit=2147483648 run.tx",
        2,
        "error: invalid value '2147483648'",
    ),
    (
        0,
        "txsh --threads --file-limit=18446744073709551617 run.tx",
        2,
        "error: invalid value '18446744073709551617'",
    ),
    (
        0,
        "txsh --threads --file-limit=-1 run.tx",
        2,
        "error: invalid value '-1'",
    ),
    (
        0,
        "txsh --threads --file-limit 1k run.tx",
        2,
        "error: invalid value '1k'",
    ),
    (0, "txsh --threads --file-limit= run.tx", 2, "error: "),
    (0, "txsh --threads run.tx --file-limit", 2, "error: "),
    (
        0,
        "txsh --threads --file-limit 5 --file-limit 5 run.tx",
        2,
        "error: ",
    ),
    (0, "txsh --threads --file_limit 5 run.tx", 2, "error: "),
    (
        0,
        "txsh --file-limit 5",
        2,
        "exactly one of --schedule, --threads and --stream",
    ),
    // The number of descriptors and the longest path.
    (
        0,
        "txsh --schedule=1 --descriptors 65 --path-limit=4096 run.tx",
        0,
        "Job { way: Schedule(\"1\"), limit: 65536, file_limit: 1048576, descriptors: 65, path_limit: 4096, check: false, file: \"run.tx\" }",
    ),
    (
        0,
        "txsh --descriptors=1048576 --stream --path-limit 1",
        0,
        "StreamJob { limit: 65536, file_limit: 1048576, descriptors: 1048576, path_limit: 1, check: false }",
    ),
    (
        0,
        "txsh --threads --descriptors 0 run.tx",
        2,
        "error: invalid value '0'",
    ),
    (
        0,
        "txsh --threads --descriptors=1048577 run.tx",
        2,
        "error: invalid value '1048577'",
    ),
    (
        0,
        "txsh --threads --path-limit=4097 run.tx",
        2,
        "error: invalid value '4097'",
    ),
    (
        0,
        "txsh --threads --path-limit 0 run.tx",
        2,
        "error: invalid value '0'",
    ),
    (0, "txsh --threads run.tx --descriptors", 2, "error: "),
    (0, "txsh --threads --path_limit 5 run.tx", 2, "error: "),
    // Lines as they come take no memory for a name.
    (
        1,
        "txsh --stream",
        0,
        "StreamJob { limit: 65536, file_limit: 1048576, descriptors: 64, path_limit: 1024, check: false }",
    ),
    (
        0,
        "txsh --check --file-limit 5 --stream --limit=0",
        0,
        "StreamJob { limit: 0, file_limit: 5, descriptors: 64, path_limit: 1024, check: true }",
    ),
    (0, "txsh --stream run.tx", 2, "no FILE goes with --stream"),
    (0, "txsh --stream=1", 2, "error: "),
    (0, "txsh --stream --stream", 2, "error: "),
    (
        0,
        "txsh --stream --threads",
        2,
        "exactly one of --schedule, --threads and --stream",
    ),
    (
        0,
        "txsh --stream --schedule 1 run.tx",
        2,
        "exactly one of --schedule, --threads and --stream",
    ),
    (
        0,
        "txsh --stream --threads --schedule 1 run.tx",
        2,
        "exactly one of --schedule, --threads and --stream",
    ),
    (
        0,
        "txsh --file-limit 5 run.tx",
        2,
        "exactly one of --schedule, --threads and --stream",
    ),
    // A store, of which the name takes memory.
    (
        0,
        "txsh --stream --store kept",
        0,
        "StoreJob { stream: StreamJob { limit: 65536, file_limit: 1048576, descriptors: 64, path_limit: 1024, check: false }, store: \"kept\", sync: Soon }",
    ),
    (1, "txsh --stream --store kept", 3, "no memory"),
    (
        0,
        "txsh --store=kept --sync always --stream",
        0,
        "StoreJob { stream: StreamJob { limit: 65536, file_limit: 1048576, descriptors: 64, path_limit: 1024, check: false }, store: \"kept\", sync: Always }",
    ),
    (
        0,
        "txsh --stream --store kept --sync=soon",
        0,
        "StoreJob { stream: StreamJob { limit: 65536, file_limit: 1048576, descriptors: 64, path_limit: 1024, check: false }, store: \"kept\", sync: Soon }",
    ),
    (
        0,
        "txsh --sync never --stream --store kept",
        0,
        "StoreJob { stream: StreamJob { limit: 65536, file_limit: 1048576, descriptors: 64, path_limit: 1024, check: false }, store: \"kept\", sync: Never }",
    ),
    (
        0,
        "txsh --stream --store kept --sync later",
        2,
        "--sync is always, soon or never",
    ),
    (
        0,
        "txsh --stream --sync always",
        2,
        "--sync goes with --store",
    ),
    (
        0,
        "txsh --stream --check --store kept",
        2,
        "no --check goes with --store",
    ),
    (
        0,
        "txsh --threads --store kept run.tx",
        2,
        "--store and --sync go with --stream",
    ),
];

#[test]
fn words_give_jobs_or_faults(rt: HostRuntime) -> Result<(), Fail> {
    let heap = heap::open(rt.alloc())?;
    for (refused, line, status, expected) in &LINES {
        heap.refuse(*refused);
        assert!(rt;
            is_as_expected(rt.alloc(), heap, line, *status, expected),
            "{refused}: {line}"
        );
    }
    Ok(())
}
