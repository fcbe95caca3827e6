// Scripts, schedules and steps: what texts are read as, and their faults in words.
use crate::texts::{has_debug_text, has_text};
use heap::Heap;
use script::{Script, ScriptFault, read_schedule, read_script, steps_of};
use std::alloc::{AllocError, Global};
use std::test::Fail;

// Whether a text is read as these lines, or has this fault.
fn is_read_as(alloc: Global, heap: Heap, text: &[u8], expected: &str) -> bool {
    match read_script(heap, text) {
        Ok(script) => {
            let lines = script.into_lines();
            let right = has_debug_text(alloc, &lines, expected);
            drop(lines);
            right
        }
        Err(fault) => has_text(alloc, &fault, expected),
    }
}

// Texts, each with its lines or its first fault.
static SCRIPTS: [(&str, &str); 23] = [
    ("", "line 1: priorities expected"),
    ("# c\n", "line 2: priorities expected"),
    ("priorities 8\n", "line 1: priorities expected"),
    ("priorities 7\n", "[]"),
    ("priorities 00\n", "line 1: priorities expected"),
    ("priorities\n", "line 1: priorities expected"),
    ("1 end\n", "line 1: priorities expected"),
    ("# c\n\npriorities 0\n", "[]"),
    (
        "priorities 0 0 0\n\n# c\n3 end\n",
        "[Line { pid: Pid(3), op: End, number: 4 }]",
    ),
    (
        "priorities 0\n0 stat /\n",
        "line 2: process number expected",
    ),
    (
        "priorities 0\n 1 stat /\n",
        "line 2: process number expected",
    ),
    (
        "priorities 0\n4097 stat /\n",
        "line 2: process number expected",
    ),
    ("priorities 0\n1\n", "line 2: unknown operation"),
    ("priorities 0\n1 frob\n", "line 2: unknown operation"),
    ("priorities 0\n1  stat /\n", "line 2: unknown operation"),
    ("priorities 0\n1 stat\n", "line 2: bad arguments"),
    ("priorities 0\n1 stat / \n", "line 2: bad arguments"),
    ("priorities 0\n1 stat /\\xAA\n", "line 2: bad arguments"),
    ("priorities 0\n1 stat \\ea\n", "line 2: bad arguments"),
    ("priorities 0\n1 begin restart\n", "line 2: bad arguments"),
    (
        "priorities 0\n# 1\n1 fork\n1 frob\n",
        "line 4: unknown operation",
    ),
    (
        "priorities 0\n1 abort no_restart\n1 stat \\e\n4096 mkdir \\x00\\xff!~\n",
        "[Line { pid: Pid(1), op: Abort { no_restart: true }, number: 2 }, \
        Line { pid: Pid(1), op: Call(Stat(Bytes { bytes: [] })), number: 3 }, \
        Line { pid: Pid(4096), op: Call(Mkdir(Bytes { bytes: [0, 255, 33, 126] })), number: 4 }]",
    ),
    ("priorities 0\n# c", "line 2: not ended"),
];

// From which length to which a beginning of this script is read as what.
const TWO_LINES: &[u8; 23] = b"priorities 0 0\n1 begin\n";

static BEGINNINGS: [(usize, usize, &str); 5] = [
    (0, 0, "line 1: priorities expected"),
    (1, 14, "line 1: not ended"),
    (15, 15, "[]"),
    (16, 22, "line 2: not ended"),
    (
        23,
        23,
        "[Line { pid: Pid(1), op: Begin(BeginFlags(0)), number: 2 }]",
    ),
];

#[test]
fn scripts_are_read_or_have_faults(rt: HostRuntime) -> Result<(), Fail> {
    let heap = heap::open(rt.alloc())?;
    for (text, expected) in &SCRIPTS {
        assert!(rt;
            is_read_as(rt.alloc(), heap, text.as_bytes(), expected),
            "{text}"
        );
    }
    for (first, last, expected) in &BEGINNINGS {
        for len in *first..=*last {
            let text = &TWO_LINES[..len.min(23)];
            assert!(rt; is_read_as(rt.alloc(), heap, text, expected), "{len}");
        }
    }
    Ok(())
}

// Whether a script with these words in its one line is read as this line, or has this fault.
fn is_line(alloc: Global, heap: Heap, words: &str, expected: &str) -> bool {
    match format!(in alloc; "priorities 0\n1 {words}\n") {
        Ok(text) => is_read_as(alloc, heap, text.as_bytes(), expected),
        Err(_) => false,
    }
}

// Whether these words are read as this operation.
fn is_op(alloc: Global, heap: Heap, words: &str, op: &str) -> bool {
    match format!(in alloc; "[Line {{ pid: Pid(1), op: {op}, number: 2 }}]") {
        Ok(expected) => is_line(alloc, heap, words, expected.as_str()),
        Err(_) => false,
    }
}

static OPERATIONS: [(&str, &str); 57] = [
    (
        "open /a -",
        "Call(Open(Bytes { bytes: [47, 97] }, OpenFlags(0)))",
    ),
    (
        "open \\e RDWR,CREAT,EXCL,TRUNC,APPEND,CREAT,RDONLY",
        "Call(Open(Bytes { bytes: [] }, OpenFlags(63)))",
    ),
    ("close 4294967295", "Call(Close(Fd(4294967295)))"),
    ("read 0 1048576", "Call(Read(Fd(0), 1048576))"),
    (
        "pread 4294967295 1048576 -9223372036854775808",
        "Call(Pread(Fd(4294967295), 1048576, -9223372036854775808))",
    ),
    (
        "pread 0 0 9223372036854775807",
        "Call(Pread(Fd(0), 0, 9223372036854775807))",
    ),
    ("write 0 \\x0a", "Call(Write(Fd(0), Bytes { bytes: [10] }))"),
    (
        "pwrite 4294967295 \\x0a -9223372036854775808",
        "Call(Pwrite(Fd(4294967295), Bytes { bytes: [10] }, -9223372036854775808))",
    ),
    (
        "pwrite 0 \\e 9223372036854775807",
        "Call(Pwrite(Fd(0), Bytes { bytes: [] }, 9223372036854775807))",
    ),
    ("fill 0 0 00", "Call(Write(Fd(0), Bytes { bytes: [] }))"),
    (
        "fill 0 3 7a",
        "Call(Write(Fd(0), Bytes { bytes: [122, 122, 122] }))",
    ),
    (
        "pfill 4294967295 0 00 -9223372036854775808",
        "Call(Pwrite(Fd(4294967295), Bytes { bytes: [] }, -9223372036854775808))",
    ),
    (
        "pfill 0 3 7a 9223372036854775807",
        "Call(Pwrite(Fd(0), Bytes { bytes: [122, 122, 122] }, 9223372036854775807))",
    ),
    (
        "lseek 0 -9223372036854775808 SET",
        "Call(Lseek(Fd(0), -9223372036854775808, Set))",
    ),
    (
        "lseek 0 9223372036854775807 CUR",
        "Call(Lseek(Fd(0), 9223372036854775807, Cur))",
    ),
    ("lseek 0 -17 CUR", "Call(Lseek(Fd(0), -17, Cur))"),
    ("lseek 0 0 END", "Call(Lseek(Fd(0), 0, End))"),
    ("lseek 0 -1 DATA", "Call(Lseek(Fd(0), -1, Data))"),
    ("lseek 0 7 HOLE", "Call(Lseek(Fd(0), 7, Hole))"),
    (
        "ftruncate 0 4294967295",
        "Call(Ftruncate(Fd(0), 4294967295))",
    ),
    (
        "truncate /a 4294967295",
        "Call(Truncate(Bytes { bytes: [47, 97] }, 4294967295))",
    ),
    (
        "fallocate 4294967295 -9223372036854775808 9223372036854775807 GROW",
        "Call(Fallocate(Fd(4294967295), -9223372036854775808, 9223372036854775807, Grow))",
    ),
    ("fallocate 0 1 2 KEEP", "Call(Fallocate(Fd(0), 1, 2, Keep))"),
    (
        "fallocate 0 0 0 PUNCH",
        "Call(Fallocate(Fd(0), 0, 0, Punch))",
    ),
    ("stat /", "Call(Stat(Bytes { bytes: [47] }))"),
    ("fstat 0", "Call(Fstat(Fd(0)))"),
    (
        "link /a /b",
        "Call(Link(Bytes { bytes: [47, 97] }, Bytes { bytes: [47, 98] }))",
    ),
    ("unlink /a", "Call(Unlink(Bytes { bytes: [47, 97] }))"),
    (
        "rename /a /b",
        "Call(Rename(Bytes { bytes: [47, 97] }, Bytes { bytes: [47, 98] }))",
    ),
    (
        "exchange /a /b",
        "Call(Exchange(Bytes { bytes: [47, 97] }, Bytes { bytes: [47, 98] }))",
    ),
    ("mkdir /a", "Call(Mkdir(Bytes { bytes: [47, 97] }))"),
    ("rmdir /a", "Call(Rmdir(Bytes { bytes: [47, 97] }))"),
    ("list /a", "Call(List(Bytes { bytes: [47, 97] }))"),
    (
        "symlink ../a /b",
        "Call(Symlink(Bytes { bytes: [46, 46, 47, 97] }, Bytes { bytes: [47, 98] }))",
    ),
    (
        "symlink \\e /b",
        "Call(Symlink(Bytes { bytes: [] }, Bytes { bytes: [47, 98] }))",
    ),
    (
        "symlink \\x00\\xff\\x20 \\e",
        "Call(Symlink(Bytes { bytes: [0, 255, 32] }, Bytes { bytes: [] }))",
    ),
    ("readlink /a", "Call(Readlink(Bytes { bytes: [47, 97] }))"),
    ("lstat /a", "Call(Lstat(Bytes { bytes: [47, 97] }))"),
    (
        "mknod /a fifo",
        "Call(Mknod(Bytes { bytes: [47, 97] }, Fifo))",
    ),
    (
        "mknod \\e socket",
        "Call(Mknod(Bytes { bytes: [] }, Socket))",
    ),
    (
        "chmod /a 644",
        "Call(Chmod(Bytes { bytes: [47, 97] }, Permissions { bits: 420 }))",
    ),
    (
        "chmod /a 0007",
        "Call(Chmod(Bytes { bytes: [47, 97] }, Permissions { bits: 7 }))",
    ),
    (
        "chmod \\e 7777",
        "Call(Chmod(Bytes { bytes: [] }, Permissions { bits: 4095 }))",
    ),
    (
        "fchmod 4294967295 1755",
        "Call(Fchmod(Fd(4294967295), Permissions { bits: 1005 }))",
    ),
    ("fchmod 0 0", "Call(Fchmod(Fd(0), Permissions { bits: 0 }))"),
    (
        "chown /a 0 4294967295",
        "Call(Chown(Bytes { bytes: [47, 97] }, NewOwner { user: Some(0), group: Some(4294967295) }))",
    ),
    (
        "chown \\e - -",
        "Call(Chown(Bytes { bytes: [] }, NewOwner { user: None, group: None }))",
    ),
    (
        "fchown 0 - 7",
        "Call(Fchown(Fd(0), NewOwner { user: None, group: Some(7) }))",
    ),
    ("dup 0", "Call(Dup(Fd(0)))"),
    ("dup2 0 1", "Call(Dup2(Fd(0), Fd(1)))"),
    ("pipe", "Call(Pipe)"),
    ("fork", "Call(Fork)"),
    ("exit", "Call(Exit)"),
    ("end", "End"),
    ("begin ABORT_UNSUPPORTED,RESTART", "Begin(BeginFlags(3))"),
    ("abort", "Abort { no_restart: false }"),
    ("abort no_restart", "Abort { no_restart: true }"),
];

// Operations with arguments that they do not take.
static REFUSED: [&str; 112] = [
    "read 0 1048577",
    "read 00 1",
    "read +0 1",
    "read 4294967296 1",
    "pread 4294967296 1 0",
    "pread 0 1048577 0",
    "pread 0 1 9223372036854775808",
    "pread 0 1 -9223372036854775809",
    "pread 0 1 -0",
    "pread 0 -1 0",
    "pread 0 1",
    "pread 0 1 0 0",
    "pwrite 4294967296 x 0",
    "pwrite 0 x 9223372036854775808",
    "pwrite 0 x -9223372036854775809",
    "pwrite 0 x -0",
    "pwrite 0 a\\x0 0",
    "pwrite 0  0",
    "pwrite 0 x",
    "pwrite 0 x 0 0",
    "lseek 0 -0 SET",
    "lseek 0 9223372036854775808 SET",
    "lseek 0 -9223372036854775809 SET",
    "lseek 0 0 set",
    "lseek 0 0 data",
    "lseek 0 0 HOLES",
    "lseek 0 DATA",
    "fallocate 0 0 1",
    "fallocate 0 0 1 ",
    "fallocate 0 0 1 grow",
    "fallocate 0 0 1 SET",
    "fallocate 0 0 1 GROW PUNCH",
    "fallocate 0 -0 1 KEEP",
    "fallocate 0 0 9223372036854775808 PUNCH",
    "fallocate 4294967296 0 1 PUNCH",
    "open /a",
    "open /a RDONLY,",
    "open /a -,CREAT",
    "open /a O_CREAT",
    "fill 0 3 FF",
    "fill 0 3 f",
    "fill 0 1048577 ff",
    "pfill 4294967296 3 7a 0",
    "pfill 0 1048577 7a 0",
    "pfill 0 3 FF 0",
    "pfill 0 3 f 0",
    "pfill 0 3 7a 9223372036854775808",
    "pfill 0 3 7a -9223372036854775809",
    "pfill 0 3 7a -0",
    "pfill 0 3 7a",
    "pfill 0 3 7a 0 0",
    "ftruncate 0 4294967296",
    "truncate /a 4294967296",
    "truncate /a",
    "truncate /a 0 0",
    "dup2 0",
    "exchange /a",
    "exchange /a /b /c",
    "link /a",
    "link /a /b /c",
    "symlink",
    "symlink a",
    "symlink  /b",
    "symlink a ",
    "symlink a /b /c",
    "symlink a\\x0 /b",
    "symlink \\ea /b",
    "symlink a b\\",
    "readlink",
    "readlink /a /b",
    "readlink \\x",
    "lstat",
    "lstat /a /b",
    "mknod",
    "mknod /a",
    "mknod /a pipe",
    "mknod /a FIFO",
    "mknod fifo /a",
    "mknod /a fifo socket",
    "chmod",
    "chmod /a",
    "chmod /a ",
    "chmod  644",
    "chmod 644 /a",
    "chmod /a 8",
    "chmod /a 00000",
    "chmod /a 10000",
    "chmod /a -",
    "chmod /a 0o644",
    "chmod /a 644 0",
    "fchmod 0",
    "fchmod 4294967296 644",
    "fchmod /a 644",
    "fchmod 0 888",
    "chown /a",
    "chown /a 0",
    "chown /a 0 0 0",
    "chown  0 0",
    "chown /a 4294967296 0",
    "chown /a 0 4294967296",
    "chown /a -1 0",
    "chown /a 00 0",
    "fchown 0 0",
    "fchown 0 - ",
    "fchown - 0 0",
    "fchown 0 0 0 0",
    "pipe 0",
    "end 0",
    "abort restart",
    "write 0 a\\x0",
    "write 0 \\e\\e",
    "write 0 ",
];

#[test]
fn operations_are_read_or_refused(rt: HostRuntime) -> Result<(), Fail> {
    let heap = heap::open(rt.alloc())?;
    for (words, expected) in &OPERATIONS {
        assert!(rt; is_op(rt.alloc(), heap, words, expected), "{words}");
    }
    for words in &REFUSED {
        assert!(rt;
            is_line(rt.alloc(), heap, words, "line 2: bad arguments"),
            "{words}"
        );
    }
    Ok(())
}

// Whether a script and a list give these steps, or the list has this fault.
fn gives_steps(alloc: Global, heap: Heap, script: Script, list: &str, expected: &str) -> bool {
    match read_schedule(heap, list, &script) {
        Ok(pids) => match steps_of(heap, script, pids.as_slice()) {
            Ok(steps) => {
                let right = has_debug_text(alloc, &steps, expected);
                drop(steps);
                right
            }
            Err(_) => has_text(alloc, &ScriptFault::NoMemory, expected),
        },
        Err(fault) => {
            drop(script);
            has_text(alloc, &fault, expected)
        }
    }
}

// Whether a text and a list give these steps, or either has this fault.
fn is_planned(alloc: Global, heap: Heap, text: &str, list: &str, expected: &str) -> bool {
    match read_script(heap, text.as_bytes()) {
        Ok(script) => gives_steps(alloc, heap, script, list, expected),
        Err(fault) => has_text(alloc, &fault, expected),
    }
}

static TWO_STATS: &str = "priorities 0\n1 stat /\n3 stat /\n";

static SCHEDULES: [(&str, &str); 13] = [
    ("1,", "schedule: bad list"),
    (",", "schedule: bad list"),
    ("01", "schedule: bad list"),
    (" 1", "schedule: bad list"),
    ("0", "schedule: bad list"),
    ("4097", "schedule: bad list"),
    ("1,,3", "schedule: bad list"),
    ("1 3", "schedule: bad list"),
    ("3,1,1,3", "schedule: process 1 has no line left"),
    ("2", "schedule: process 2 has no line left"),
    ("4096", "schedule: process 4096 has no line left"),
    (
        "3,1",
        "[(Pid(3), Call(Stat(Bytes { bytes: [47] }))), \
        (Pid(1), Call(Stat(Bytes { bytes: [47] })))]",
    ),
    ("", "[]"),
];

static TWO_PROCESSES: &str =
    "priorities 0 0\n1 begin\n1 mkdir /a\n1 end\n1 abort\n2 stat /a\n2 mkdir /b\n";

static STEPS: &str =
    "[(Pid(1), Begin(BeginFlags(0))), (Pid(1), Call(Mkdir(Bytes { bytes: [47, 97] }))), \
    (Pid(2), Call(Stat(Bytes { bytes: [47, 97] }))), (Pid(1), End), \
    (Pid(2), Call(Mkdir(Bytes { bytes: [47, 98] })))]";

#[test]
fn schedules_give_steps_or_have_faults(rt: HostRuntime) -> Result<(), Fail> {
    let heap = heap::open(rt.alloc())?;
    for (list, expected) in &SCHEDULES {
        assert!(rt;
            is_planned(rt.alloc(), heap, TWO_STATS, list, expected),
            "{list}"
        );
    }
    // A process takes its lines in order.
    let list = "1,1,2,1,2";
    heap.refuse(0);
    assert!(rt; is_planned(rt.alloc(), heap, TWO_PROCESSES, list, STEPS));
    for number in 0..heap.made() {
        heap.refuse(number + 1);
        assert!(rt;
            is_planned(rt.alloc(), heap, TWO_PROCESSES, list, "no memory"),
            "{number}"
        );
    }
    Ok(())
}

// The text of a script of 1,048,576 bytes: two priorities, 174,760 lines, and an empty one.
fn long_text(heap: Heap) -> Result<Vec<u8, Heap>, AllocError> {
    let mut text = Vec::from_slice(heap, b"priorities 0 7\n")?;
    for _ in 0..174760u32 {
        text.extend_from_slice(b"1 end\n")?;
    }
    text.push(b'\n')?;
    Ok(text)
}

// How many priorities and lines a text has.
fn counts_of(heap: Heap, text: &[u8]) -> (usize, usize) {
    match read_script(heap, text) {
        Ok(script) => {
            let counts = (script.priorities().len(), script.lines().len());
            drop(script);
            counts
        }
        Err(_) => (0, 0),
    }
}

#[test]
fn a_long_script_is_read(rt: HostRuntime) -> Result<(), Fail> {
    let heap = heap::open(rt.alloc())?;
    let mut text = long_text(heap)?;
    assert_eq!(rt; text.len(), 1048576);
    assert_eq!(rt; counts_of(heap, text.as_slice()), (2, 174760));
    text.push(b'\n')?;
    assert!(rt; is_read_as(rt.alloc(), heap, text.as_slice(), "script too long"));
    Ok(())
}
