// Random scripts, each with a schedule of it.
use crate::operations::put_line;
use crate::random::Random;
use heap::Heap;
use std::alloc::AllocError;

// A script and a schedule of it.
#[derive(Drop)]
pub(crate) struct Case {
    pub(crate) script: Vec<u8, Heap>,
    pub(crate) list: Vec<u8, Heap>,
}

static PRIORITIES: [&str; 8] = [" 0", " 0", " 0", " 0", " 0", " 0", " 1", " 7"];

// Lines of process 1 that come before the others, how many they are, and how many children they
// make.
type Start = (&'static str, u64, u64);

static STARTS: [Start; 15] = [
    ("", 0, 0),
    ("1 mkdir /a\n1 mkdir /b\n", 2, 0),
    (
        "1 mkdir /a\n1 open /a/b RDWR,CREAT\n1 open /f RDWR,CREAT\n",
        3,
        0,
    ),
    (
        "1 mkdir /a\n1 mkdir /a/b\n1 open /f RDWR,CREAT\n1 fork\n",
        4,
        1,
    ),
    ("1 open /f RDWR,CREAT\n1 fill 0 3000 78\n", 2, 0),
    ("1 open /f RDWR,CREAT\n1 ftruncate 0 2048\n1 fork\n", 3, 1),
    ("1 open /a RDWR,CREAT\n1 link /a /b\n1 fork\n", 3, 1),
    ("1 open /f RDWR,CREAT\n1 unlink /f\n1 fork\n1 fork\n", 4, 2),
    ("1 pipe\n1 fork\n1 fill 1 600 7a\n", 3, 1),
    ("1 pipe\n1 write 1 abcde\n1 fork\n1 fork\n", 4, 2),
    ("1 pipe\n1 fill 1 3585 7a\n1 fork\n", 3, 1),
    ("1 pipe\n1 close 0\n1 open /f RDWR,CREAT\n", 3, 0),
    (
        "1 mkdir /a\n1 symlink a /b\n1 symlink /f /a/b\n1 fork\n",
        4,
        1,
    ),
    ("1 mknod /a fifo\n1 mknod /f socket\n1 symlink f /b\n", 3, 0),
    (
        "1 mkdir /a\n1 open /f RDWR,CREAT\n1 chmod /f 6755\n1 chown /a 1 2\n1 fork\n",
        5,
        1,
    ),
];

fn put_priorities(
    text: &mut Vec<u8, Heap>,
    random: &mut Random,
    processes: u64,
) -> Result<(), AllocError> {
    text.extend_from_slice(b"priorities")?;
    for _ in 0..processes {
        text.extend_from_slice(random.pick(&PRIORITIES).as_bytes())?;
    }
    text.push(b'\n')?;
    Ok(())
}

// Puts lines of processes up to this one, and now and then of the next, which does not live. The
// process of each is put behind the others.
fn put_lines(
    text: &mut Vec<u8, Heap>,
    random: &mut Random,
    processes: u64,
    digits: &mut Vec<u8, Heap>,
) -> Result<(), AllocError> {
    let lines = 8 + random.below(48);
    for _ in 0..lines {
        let stranger = u64::from(random.once_in(40));
        let number = 1 + (random.below(processes.clamp(1, 8)) + stranger);
        let digit = b'0' + number as u8;
        put_line(text, random, digit)?;
        digits.push(digit)?;
    }
    Ok(())
}

// Any order of a schedule is one: each process does its own lines in their order.
fn shuffle(digits: &mut [u8], random: &mut Random) {
    for index in 1..digits.len() {
        let other = random.index(index + 1);
        digits.swap(index, other);
    }
}

// Puts process numbers, of one digit each, with commas.
fn put_digits(list: &mut Vec<u8, Heap>, digits: &[u8]) -> Result<(), AllocError> {
    for digit in digits {
        if !list.is_empty() {
            list.push(b',')?;
        }
        list.push(*digit)?;
    }
    Ok(())
}

// Puts a line of process 1, so often.
fn put_often(case: &mut Case, line: &str, count: u64) -> Result<(), AllocError> {
    for _ in 0..count {
        case.script.extend_from_slice(line.as_bytes())?;
        put_digits(&mut case.list, b"1")?;
    }
    Ok(())
}

// Puts the lines that come before the others, and their schedule. Now and then process 1 has no
// descriptor left behind them.
fn put_start(case: &mut Case, random: &mut Random, start: &Start) -> Result<(), AllocError> {
    case.script.extend_from_slice(start.0.as_bytes())?;
    put_often(case, "", start.1)?;
    if random.once_in(25) {
        put_often(case, "1 dup 0\n", 63)?;
    }
    Ok(())
}

fn fill(
    case: &mut Case,
    random: &mut Random,
    digits: &mut Vec<u8, Heap>,
) -> Result<(), AllocError> {
    let processes = 1 + random.below(6);
    let start = &STARTS[random.below(15) as usize];
    put_priorities(&mut case.script, random, processes)?;
    put_start(case, random, start)?;
    put_lines(&mut case.script, random, processes + start.2, digits)?;
    shuffle(digits.as_mut_slice(), random);
    put_digits(&mut case.list, digits.as_slice())
}

// The next script, of 1 to 6 processes, and a schedule of all its lines.
pub(crate) fn case_of(heap: Heap, random: &mut Random) -> Result<Case, AllocError> {
    let mut digits = Vec::new(heap);
    let mut case = Case {
        script: Vec::new(heap),
        list: Vec::new(heap),
    };
    fill(&mut case, random, &mut digits)?;
    Ok(case)
}
