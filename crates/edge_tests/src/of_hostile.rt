// Texts that are no scripts and lists that are no schedules.
ghost use Rattle.std.specs.Prelude.{◌≡◌};

use crate::halting::halting;
use device::Portions;
use heap::Heap;
use ids::{Limits, Pid};
use kernel::Kernel;
use machine::Machine;
use runner::{RunFault, run_schedule};
use script::{ScheduleFault, ScriptFault, read_schedule, read_script};
use std::alloc::AllocError;
use std::test::Fail;

// How a run of a text by a list ends, and what it has then written.
pub(crate) fn end_of<K: Machine>(
    heap: Heap,
    text: &[u8],
    list: &str,
    limit: u32,
) -> (Option<RunFault>, Vec<u8, Heap>) {
    let mut source = Portions {
        bytes: text,
        most: 5000,
    };
    let mut sink = halting(heap, 10_000);
    let limits = Limits::of_entries(limit.min(100) as usize);
    let fault = run_schedule::<K, _, _>(heap, &mut source, list, limits, &mut sink).err();
    (fault, sink.bytes)
}

// Whether a run of a text has this fault, and has written nothing.
fn has_fault(heap: Heap, text: &[u8], list: &str, fault: RunFault) -> bool {
    let (found, written) = end_of::<Kernel>(heap, text, list, 100);
    found == Some(fault) && written.is_empty()
}

// Texts that are no scripts by their first line, which is not skipped, or by their last.
static HEADS: [(&[u8], ScriptFault); 31] = [
    (b"", ScriptFault::PrioritiesExpected(1)),
    (b"\n", ScriptFault::PrioritiesExpected(2)),
    (b"\n\n", ScriptFault::PrioritiesExpected(3)),
    (b"# c\n", ScriptFault::PrioritiesExpected(2)),
    (b"#", ScriptFault::NotEnded(1)),
    (b"\n#", ScriptFault::NotEnded(2)),
    (b" ", ScriptFault::NotEnded(1)),
    (b" \n", ScriptFault::PrioritiesExpected(1)),
    (b" # c\npriorities 0\n", ScriptFault::PrioritiesExpected(1)),
    (b"priorities 0", ScriptFault::NotEnded(1)),
    (b"priorities 0\r", ScriptFault::NotEnded(1)),
    (b"priorities 0\r\n", ScriptFault::PrioritiesExpected(1)),
    (b"priorities\n", ScriptFault::PrioritiesExpected(1)),
    (b"priorities \n", ScriptFault::PrioritiesExpected(1)),
    (b"priorities 8\n", ScriptFault::PrioritiesExpected(1)),
    (b"priorities 00\n", ScriptFault::PrioritiesExpected(1)),
    (b"priorities 01\n", ScriptFault::PrioritiesExpected(1)),
    (b"priorities -1\n", ScriptFault::PrioritiesExpected(1)),
    (b"priorities +1\n", ScriptFault::PrioritiesExpected(1)),
    (b"priorities 0,1\n", ScriptFault::PrioritiesExpected(1)),
    (b"priorities 0 \n", ScriptFault::PrioritiesExpected(1)),
    (b"priorities  0\n", ScriptFault::PrioritiesExpected(1)),
    (b"priorities\t0\n", ScriptFault::PrioritiesExpected(1)),
    (b" priorities 0\n", ScriptFault::PrioritiesExpected(1)),
    (b"Priorities 0\n", ScriptFault::PrioritiesExpected(1)),
    (b"priority 0\n", ScriptFault::PrioritiesExpected(1)),
    (
        b"\xef\xbb\xbfpriorities 0\n",
        ScriptFault::PrioritiesExpected(1),
    ),
    (
        b"priorities 18446744073709551616\n",
        ScriptFault::PrioritiesExpected(1),
    ),
    (b"priorities 0\0\n", ScriptFault::PrioritiesExpected(1)),
    (b"\0", ScriptFault::NotEnded(1)),
    (b"1 end\npriorities 0\n", ScriptFault::PrioritiesExpected(1)),
];

// Second lines of texts that are no scripts.
static LINES: [(&[u8], ScriptFault); 101] = [
    (b" ", ScriptFault::ProcessExpected(2)),
    (b"0", ScriptFault::ProcessExpected(2)),
    (b"0 stat /", ScriptFault::ProcessExpected(2)),
    (b" 1 stat /", ScriptFault::ProcessExpected(2)),
    (b"-1 end", ScriptFault::ProcessExpected(2)),
    (b"+1 end", ScriptFault::ProcessExpected(2)),
    (b"01 end", ScriptFault::ProcessExpected(2)),
    (b"4097 end", ScriptFault::ProcessExpected(2)),
    (b"18446744073709551617 end", ScriptFault::ProcessExpected(2)),
    (b"1\tend", ScriptFault::ProcessExpected(2)),
    (b"1end", ScriptFault::ProcessExpected(2)),
    (b"end", ScriptFault::ProcessExpected(2)),
    (b"priorities 0", ScriptFault::ProcessExpected(2)),
    (b"\xff", ScriptFault::ProcessExpected(2)),
    (b"1", ScriptFault::UnknownOperation(2)),
    (b"1 ", ScriptFault::UnknownOperation(2)),
    (b"1 frob", ScriptFault::UnknownOperation(2)),
    (b"1  stat /", ScriptFault::UnknownOperation(2)),
    (b"1 END", ScriptFault::UnknownOperation(2)),
    (b"1 end\r", ScriptFault::UnknownOperation(2)),
    (b"1 stat\0 /", ScriptFault::UnknownOperation(2)),
    (b"1 stat", ScriptFault::BadArguments(2)),
    (b"1 stat ", ScriptFault::BadArguments(2)),
    (b"1 stat / ", ScriptFault::BadArguments(2)),
    (b"1 stat  /", ScriptFault::BadArguments(2)),
    (b"1 stat /a /b", ScriptFault::BadArguments(2)),
    (b"1 stat /\\xAA", ScriptFault::BadArguments(2)),
    (b"1 stat \\ea", ScriptFault::BadArguments(2)),
    (b"1 stat a\\e", ScriptFault::BadArguments(2)),
    (b"1 stat \\", ScriptFault::BadArguments(2)),
    (b"1 stat \\x", ScriptFault::BadArguments(2)),
    (b"1 stat \\x4", ScriptFault::BadArguments(2)),
    (b"1 stat \\n", ScriptFault::BadArguments(2)),
    (b"1 stat /\x01", ScriptFault::BadArguments(2)),
    (b"1 stat /\x7f", ScriptFault::BadArguments(2)),
    (b"1 stat /\xc3\xa4", ScriptFault::BadArguments(2)),
    (b"1 stat /\0", ScriptFault::BadArguments(2)),
    (b"1 end ", ScriptFault::BadArguments(2)),
    (b"1 end end", ScriptFault::BadArguments(2)),
    (b"1 begin RESTART,RESTART", ScriptFault::BadArguments(2)),
    (b"1 begin RESTART,", ScriptFault::BadArguments(2)),
    (b"1 begin 1", ScriptFault::BadArguments(2)),
    (b"1 begin -", ScriptFault::BadArguments(2)),
    (b"1 abort  no_restart", ScriptFault::BadArguments(2)),
    (b"1 abort NO_RESTART", ScriptFault::BadArguments(2)),
    (b"1 read 0", ScriptFault::BadArguments(2)),
    (b"1 read 0 -1", ScriptFault::BadArguments(2)),
    (b"1 read 0 1048577", ScriptFault::BadArguments(2)),
    (b"1 read 0x0 1", ScriptFault::BadArguments(2)),
    (b"1 close 4294967296", ScriptFault::BadArguments(2)),
    (
        b"1 close 18446744073709551616",
        ScriptFault::BadArguments(2),
    ),
    (b"1 lseek 0 -0 SET", ScriptFault::BadArguments(2)),
    (b"1 lseek 0 --1 SET", ScriptFault::BadArguments(2)),
    (b"1 lseek 0 - SET", ScriptFault::BadArguments(2)),
    (b"1 lseek 0 01 SET", ScriptFault::BadArguments(2)),
    (b"1 lseek 0 0 DATA ", ScriptFault::BadArguments(2)),
    (b"1 fallocate 0 0 1 ", ScriptFault::BadArguments(2)),
    (b"1 fallocate 0 0 --1 KEEP", ScriptFault::BadArguments(2)),
    (b"1 fallocate 0 0 1 PUNCH\xff", ScriptFault::BadArguments(2)),
    (b"1 exchange /a  /b", ScriptFault::BadArguments(2)),
    (b"1 open /a RDWR,,CREAT", ScriptFault::BadArguments(2)),
    (b"1 open /a rdwr", ScriptFault::BadArguments(2)),
    (b"1 open /a", ScriptFault::BadArguments(2)),
    (b"1 fill 0 1 0", ScriptFault::BadArguments(2)),
    (b"1 fill 0 1048577 00", ScriptFault::BadArguments(2)),
    (b"1 pread 0 1", ScriptFault::BadArguments(2)),
    (b"1 pread 0 1 ", ScriptFault::BadArguments(2)),
    (b"1 pread 0 1 +1", ScriptFault::BadArguments(2)),
    (b"1 pread 0 1048577 0", ScriptFault::BadArguments(2)),
    (
        b"1 pread 0 1 9223372036854775808",
        ScriptFault::BadArguments(2),
    ),
    (b"1 pwrite 0 x", ScriptFault::BadArguments(2)),
    (b"1 pwrite 0 x --1", ScriptFault::BadArguments(2)),
    (
        b"1 pwrite 0 x -9223372036854775809",
        ScriptFault::BadArguments(2),
    ),
    (b"1 pwrite 0 x\\ 0", ScriptFault::BadArguments(2)),
    (b"1 pwrite 0 x 0x0", ScriptFault::BadArguments(2)),
    (b"1 pfill 0 1 00", ScriptFault::BadArguments(2)),
    (b"1 pfill 0 1 0 0", ScriptFault::BadArguments(2)),
    (b"1 pfill 0 1 00 -", ScriptFault::BadArguments(2)),
    (b"1 pfill 0 1048577 00 0", ScriptFault::BadArguments(2)),
    (
        b"1 pfill 0 1 00 18446744073709551616",
        ScriptFault::BadArguments(2),
    ),
    (b"1 truncate /a", ScriptFault::BadArguments(2)),
    (b"1 truncate /a ", ScriptFault::BadArguments(2)),
    (b"1 truncate /a -1", ScriptFault::BadArguments(2)),
    (b"1 truncate /a 4294967296", ScriptFault::BadArguments(2)),
    (b"1 truncate /a\\ 0", ScriptFault::BadArguments(2)),
    (b"1 symlink  /l", ScriptFault::BadArguments(2)),
    (b"1 symlink a b /l", ScriptFault::BadArguments(2)),
    (b"1 symlink a\\n /l", ScriptFault::BadArguments(2)),
    (b"1 symlink \xc3\xa4 /l", ScriptFault::BadArguments(2)),
    (b"1 readlink", ScriptFault::BadArguments(2)),
    (b"1 lstat ", ScriptFault::BadArguments(2)),
    (b"1 mknod /f fifo ", ScriptFault::BadArguments(2)),
    (b"1 mknod /f Fifo", ScriptFault::BadArguments(2)),
    (b"1 chmod /a 0644 ", ScriptFault::BadArguments(2)),
    (b"1 chmod /a\\ 644", ScriptFault::BadArguments(2)),
    (b"1 chmod /a 6 4 4", ScriptFault::BadArguments(2)),
    (b"1 fchmod 0 -644", ScriptFault::BadArguments(2)),
    (b"1 chown /a - ", ScriptFault::BadArguments(2)),
    (b"1 chown \xff 0 0", ScriptFault::BadArguments(2)),
    (b"1 fchown 0 0 0x0", ScriptFault::BadArguments(2)),
    (b"1 fchown 0 - --", ScriptFault::BadArguments(2)),
];

// A text whose second line is this.
fn with_line(heap: Heap, line: &[u8]) -> Result<Vec<u8, Heap>, AllocError> {
    let mut text = Vec::from_slice(heap, b"priorities 0\n")?;
    text.extend_from_slice(line)?;
    text.push(b'\n')?;
    Ok(text)
}

// Whether the text whose second line is this has this fault, and has it also before a worse one.
fn line_has_fault(heap: Heap, line: &[u8], fault: ScriptFault) -> Result<bool, AllocError> {
    let mut text = with_line(heap, line)?;
    let alone = has_fault(heap, text.as_slice(), "", RunFault::Script(fault));
    text.extend_from_slice(b"0 frob\n1")?;
    Ok(alone && has_fault(heap, text.as_slice(), ",", RunFault::Script(fault)))
}

#[test]
fn texts_that_are_no_scripts_have_their_faults(rt: HostRuntime) -> Result<(), Fail> {
    let heap = heap::open(rt.alloc())?;
    for (index, (text, fault)) in HEADS.iter().enumerate() {
        assert!(rt;
            has_fault(heap, text, "", RunFault::Script(*fault)),
            "{index}"
        );
    }
    for (index, (line, fault)) in LINES.iter().enumerate() {
        assert!(rt; line_has_fault(heap, line, *fault)?, "{index}");
    }
    Ok(())
}

// As many line feeds as a script may have bytes, and one more.
#[test]
fn a_text_that_is_too_long_has_no_other_fault(rt: HostRuntime) -> Result<(), Fail> {
    let heap = heap::open(rt.alloc())?;
    let mut text = Vec::from_elem(heap, b'\n', 1_048_576)?;
    let all = RunFault::Script(ScriptFault::PrioritiesExpected(1_048_577));
    assert!(rt; has_fault(heap, text.as_slice(), "", all));
    text.push(b' ')?;
    let long = RunFault::Script(ScriptFault::TooLong);
    assert!(rt; has_fault(heap, text.as_slice(), ",", long));
    Ok(())
}

// Every operation.
static ALL: &str = "priorities 0 7
1 begin
1 begin RESTART,ABORT_UNSUPPORTED
1 open /a RDWR,CREAT,EXCL,TRUNC,APPEND
1 close 0
1 read 0 10
1 pread 0 10 -1
1 write 0 a\\x00\\x5c
1 pwrite 0 a\\x00\\x5c 9223372036854775807
1 fill 0 3 7a
1 pfill 0 3 7a 1024
1 lseek 0 -1 END
1 ftruncate 0 5
1 truncate /a 5
1 fallocate 0 1024 3 PUNCH
1 lseek 0 1 HOLE
1 stat /
1 fstat 0
1 link /a /b
1 unlink /b
1 rename /a /b
1 exchange /a /b
1 mkdir /c
1 rmdir /c
1 list /
1 symlink \\x20\\x5c /l
1 readlink /l
1 lstat /l
1 mknod /f fifo
1 mknod /s socket
1 chmod /a 7777
1 chown /a - 4294967295
1 fchmod 0 0
1 fchown 0 1 -
1 dup 0
1 dup2 0 1
1 pipe
1 fork
1 abort
1 abort no_restart
1 end
1 exit
";

// How many lines are ended in a text.
fn ended(text: &[u8]) -> usize {
    let mut count = 0usize;
    for byte in text {
        if *byte == b'\n' {
            count = count.wrapping_add(1);
        }
    }
    count
}

// How many lines a text is read as, or its fault.
fn lines_in(heap: Heap, text: &[u8]) -> Result<usize, ScriptFault> {
    let script = read_script(heap, text)?;
    let count = script.lines().len();
    drop(script);
    Ok(count)
}

// A beginning of a script is one where its last line is ended.
fn expected_lines(text: &[u8]) -> Result<usize, ScriptFault> {
    let ended = ended(text);
    match text.last().copied() {
        None => Err(ScriptFault::PrioritiesExpected(1)),
        Some(b'\n') => Ok(ended.wrapping_sub(1)),
        Some(_) => Err(ScriptFault::NotEnded(ended.wrapping_add(1))),
    }
}

#[test]
fn each_beginning_of_a_script_is_one_or_not_ended(rt: HostRuntime) -> Result<(), Fail> {
    let heap = heap::open(rt.alloc())?;
    let text = ALL.as_bytes();
    for len in 0..=text.len() {
        let text = &text[..len];
        assert!(rt; lines_in(heap, text) == expected_lines(text), "{len}");
    }
    Ok(())
}

pub(crate) static FIRST_RUN: &str =
    "priorities 0 0\n1 begin\n1 mkdir /a\n1 end\n2 stat /a\n2 stat /a\n";

pub(crate) static FIRST_LIST: &str = "1,1,2,1,2";

pub(crate) static FIRST_LINES: &str = "1 P1 begin -> begun
2 P1 mkdir /a -> ok
3 P2 stat /a -> ENOENT
4 P1 end -> committed
5 P2 stat /a -> dir size 0 links 1
";

// Lists that are no schedules. The whole list is read before lines are counted.
static LISTS: [&str; 20] = [
    ",",
    "1,",
    ",1",
    "1,,1",
    "01",
    " 1",
    "1 ",
    "1, 2",
    "1 2",
    "1;2",
    "1\n",
    "0",
    "-1",
    "+1",
    "0x1",
    "P1",
    "4097",
    "18446744073709551617",
    "\u{ff11}",
    "3,3,x",
];

// Schedules that ask for more lines of this process than the first run has.
static LONG_LISTS: [(&str, u32); 4] = [
    ("3", 3),
    ("4096", 4096),
    ("1,1,1,1", 1),
    ("1,2,2,1,2,1,1", 2),
];

// How many steps a list has, or its fault.
fn steps_in(heap: Heap, list: &str) -> Result<usize, Option<ScheduleFault>> {
    let Ok(script) = read_script(heap, FIRST_RUN.as_bytes()) else {
        return Err(None);
    };
    let steps = match read_schedule(heap, list, &script) {
        Ok(pids) => Ok(pids.len()),
        Err(fault) => Err(Some(fault)),
    };
    drop(script);
    steps
}

// A beginning of a list of digits is one where no comma is its last byte.
fn expected_steps(list: &str) -> Result<usize, Option<ScheduleFault>> {
    if list.as_bytes().ends_with(b",") {
        Err(Some(ScheduleFault::BadList))
    } else {
        Ok(list.len().div_ceil(2))
    }
}

#[test]
fn lists_that_are_no_schedules_have_their_faults(rt: HostRuntime) -> Result<(), Fail> {
    let heap = heap::open(rt.alloc())?;
    for list in &LISTS {
        let fault = RunFault::Schedule(ScheduleFault::BadList);
        assert!(rt;
            has_fault(heap, FIRST_RUN.as_bytes(), list, fault),
            "{list}"
        );
    }
    for (list, number) in &LONG_LISTS {
        let fault = RunFault::Schedule(ScheduleFault::NoLine(Pid(*number)));
        assert!(rt;
            has_fault(heap, FIRST_RUN.as_bytes(), list, fault),
            "{list}"
        );
    }
    Ok(())
}

#[test]
fn each_beginning_of_a_schedule_is_one_or_none(rt: HostRuntime) -> Result<(), Fail> {
    let heap = heap::open(rt.alloc())?;
    for list in [
        "", "1", "1,", "1,1", "1,1,", "1,1,2", "1,1,2,", "1,1,2,1", "1,1,2,1,",
    ] {
        assert!(rt; steps_in(heap, list) == expected_steps(list), "{list}");
    }
    Ok(())
}
