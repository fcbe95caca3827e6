// A row: what was done on a kernel, and a function of `course`, of which each request for memory is
// refused in turn.
use crate::acts::{Act, Outcome, act_on, seen};
use crate::texts::{Text, is_same, owned};
use course::{Cut, Fault, Hand, close, list, look_up, open_cut, read, stat_file};
use heap::Heap;
use ids::{Answer, Call, Fd, Num, Op, Pid, Priority, Reply, Stat};
use machine::Machine;
use script::read_further_line;
use std::fmt::Debug;
use std::process::Abort;

// More requests for memory than any row makes.
const MOST: u64 = 200;

// How many courses of a row may end with NoMemory.
const MOST_REFUSED: usize = 6;

pub(crate) struct Course {
    pub(crate) act: Act,
    // Steps that come before, each on a line of its own. None of them fails.
    pub(crate) before: &'static str,
    // The steps of the whole course, which is told as where nothing is refused.
    pub(crate) whole: &'static str,
    // The steps of a course that is told by another error, although memory was refused.
    pub(crate) told: Option<&'static str>,
    // The steps of courses that end with NoMemory, at most six. Each of all these comes.
    pub(crate) refused: &'static [&'static str],
}

// What a function came to, and what is shown then, and behind the same call once more.
#[derive(Drop)]
struct Ran {
    outcome: Outcome,
    shown: Text,
}

fn do_line<K: Machine>(rt: &impl Abort, heap: Heap, kernel: &mut K, text: &str) -> Reply {
    match read_further_line(heap, 1, text.as_bytes()) {
        Ok(Some(line)) => kernel.step(line.pid, line.op),
        _ => panic!(rt; "no line: {text}"),
    }
}

fn do_lines<K: Machine>(rt: &impl Abort, heap: Heap, kernel: &mut K, text: &str) {
    for line in text.lines() {
        drop(do_line(rt, heap, kernel, line));
    }
}

// Does what comes before the row's function.
fn prepare<K: Machine>(rt: &impl Abort, heap: Heap, kernel: &mut K, text: &str) {
    for line in text.lines() {
        let reply = do_line(rt, heap, kernel, line);
        assert!(rt; !matches!(&reply, Reply::Errno(_)), "{line}");
        drop(reply);
    }
}

fn number_in(reply: &Reply) -> Num {
    match reply {
        Reply::Answer(Answer::Stat(stat)) => stat.num,
        _ => Num(0),
    }
}

// The number of what is at the path `/a`.
fn number_of<K: Machine>(rt: &impl Abort, heap: Heap, kernel: &mut K) -> Num {
    let reply = kernel.step(Pid(1), Op::Call(Call::Lstat(owned(rt, heap, "/a"))));
    number_in(&reply)
}

fn put_as<T: Debug + Drop>(rt: &impl Abort, text: &mut Text, outcome: T) {
    write!(text, "{outcome:?}\n").expect(rt, "memory");
}

fn put<T: Debug + Drop>(rt: &impl Abort, text: &mut Text, outcome: Result<T, Fault>) {
    match outcome {
        Ok(value) => put_as(rt, text, value),
        Err(fault) => put_as(rt, text, fault),
    }
}

fn number_by(looked: &Result<Stat, Fault>) -> Num {
    match looked {
        Ok(stat) => stat.num,
        Err(_) => Num(0),
    }
}

fn opened_by(opened: &Result<Fd, Fault>) -> Option<Fd> {
    match opened {
        Ok(fd) => Some(*fd),
        Err(_) => None,
    }
}

// Shows what is at a path: its kind, length, links, permissions and owner, its names or its bytes.
fn show_path<K: Machine>(
    rt: &impl Abort,
    heap: Heap,
    hand: &mut Hand<K>,
    text: &mut Text,
    path: &str,
) {
    let looked = look_up(hand, None, owned(rt, heap, path));
    let inode = number_by(&looked);
    put(rt, text, seen(looked));
    put(rt, text, list(hand, heap, owned(rt, heap, path)));
    let opened = open_cut(hand, owned(rt, heap, path), inode, Cut::No);
    let fd = opened_by(&opened);
    put(rt, text, opened);
    if let Some(fd) = fd {
        put(rt, text, read(hand, heap, fd, 100, 0));
        put(rt, text, close(hand, fd));
    }
}

// Shows how many entries there are, what is at each path, and which descriptors are open.
fn show<K: Machine>(rt: &impl Abort, heap: Heap, hand: &mut Hand<K>, text: &mut Text) {
    let count = hand.history().count();
    put_as(rt, text, count);
    for path in ["/", "/a", "/b", "/a/b"] {
        show_path(rt, heap, hand, text, path);
    }
    for number in 0..4u32 {
        put(rt, text, seen(stat_file(hand, Fd(number))));
        put(rt, text, read(hand, heap, Fd(number), 100, 0));
    }
}

// Shows what the process sees, the same call once more, and what it and another process see then.
fn show_all<K: Machine>(
    rt: &impl Abort,
    heap: Heap,
    hand: &mut Hand<K>,
    act: Act,
    inode: Num,
) -> Text {
    let mut text = String::new(heap);
    show(rt, heap, hand, &mut text);
    let again = act_on(rt, heap, hand, act, inode, 0);
    put_as(rt, &mut text, again.told);
    show(rt, heap, hand, &mut text);
    hand.bind(Pid(2));
    show(rt, heap, hand, &mut text);
    text
}

fn kernel_of<K: Machine>(rt: &impl Abort, heap: Heap) -> K {
    let zero = Priority::new(0).expect(rt, "a priority");
    let made: Result<K, _> = K::new(heap, &[zero, zero], 32);
    made.expect(rt, "memory")
}

fn hand_on<K: Machine>(kernel: K) -> Hand<K> {
    // For the proof: the kernel's history is legal.
    let _history = kernel.history();
    Hand::new(kernel, Pid(1))
}

// What is shown where these steps were made in the place of the row's function.
fn left_by<K: Machine>(rt: &impl Abort, heap: Heap, row: &Course, steps: &str) -> Text {
    let mut kernel: K = kernel_of(rt, heap);
    prepare(rt, heap, &mut kernel, row.before);
    let inode = number_of(rt, heap, &mut kernel);
    do_lines(rt, heap, &mut kernel, steps);
    let mut hand = hand_on(kernel);
    show_all(rt, heap, &mut hand, row.act, inode)
}

// Calls the row's function where this request for memory is refused.
fn run<K: Machine>(rt: &impl Abort, heap: Heap, row: &Course, request: u64) -> Ran {
    let mut kernel: K = kernel_of(rt, heap);
    prepare(rt, heap, &mut kernel, row.before);
    let inode = number_of(rt, heap, &mut kernel);
    let mut hand = hand_on(kernel);
    let outcome = act_on(rt, heap, &mut hand, row.act, inode, request);
    let shown = show_all(rt, heap, &mut hand, row.act, inode);
    Ran { outcome, shown }
}

// How often what is shown is what a course leaves that is refused memory.
fn came<K: Machine>(
    rt: &impl Abort,
    heap: Heap,
    row: &Course,
    steps: Option<&'static str>,
    ran: &Ran,
) -> u64 {
    match steps {
        Some(steps) => {
            if is_same(&ran.shown, &left_by::<K>(rt, heap, row, steps)) {
                1
            } else {
                0
            }
        }
        None => 0,
    }
}

fn is_refused(ran: &Ran) -> bool {
    ran.outcome.told.as_str() == "NoMemory"
}

// How often each course of a row came, first the whole one.
#[derive(Clone, Copy)]
struct Counts {
    told: u64,
    refused: [u64; MOST_REFUSED],
}

// The steps of a row's course of this number, where it has one.
fn refused_at(row: &Course, index: usize) -> Option<&'static str> {
    match row.refused.get(index) {
        Some(steps) => Some(*steps),
        None => None,
    }
}

// Counts the course to which a function came. Whether it was one.
fn count<K: Machine>(
    rt: &impl Abort,
    heap: Heap,
    row: &Course,
    whole: &Ran,
    ran: &Ran,
    counts: &mut Counts,
) -> bool {
    if !is_refused(ran) {
        let told = came::<K>(rt, heap, row, row.told, ran);
        counts.told = counts.told.wrapping_add(told);
        return is_same(&ran.outcome.told, &whole.outcome.told)
            && (told > 0 || is_same(&ran.shown, &whole.shown));
    }
    let mut is_one = false;
    for index in 0..MOST_REFUSED {
        let came = came::<K>(rt, heap, row, refused_at(row, index), ran);
        counts.refused[index] = counts.refused[index].wrapping_add(came);
        is_one = is_one || came > 0;
    }
    is_one
}

// Refuses each request for memory of a row in turn, and tells what is wrong.
fn refuse_each<K: Machine>(
    rt: &impl Abort,
    heap: Heap,
    row: &Course,
    whole: &Ran,
    wrong: &mut Text,
) -> Counts {
    let mut counts = Counts {
        told: 0,
        refused: [0; MOST_REFUSED],
    };
    for request in 1..MOST {
        let ran = run::<K>(rt, heap, row, request);
        if ran.outcome.made < request {
            return counts;
        }
        if !count::<K>(rt, heap, row, whole, &ran, &mut counts) {
            let Outcome { told, made: _ } = &ran.outcome;
            write!(wrong, "{}; {}: {request}: {told}\n", row.before, row.whole).expect(
                rt, "memory",
            );
        }
    }
    write!(wrong, "{}: too many requests\n", row.whole).expect(rt, "memory");
    counts
}

fn check<K: Machine>(rt: &impl Abort, heap: Heap, row: &Course, wrong: &mut Text) {
    let whole = run::<K>(rt, heap, row, 0);
    let is_whole = is_same(&whole.shown, &left_by::<K>(rt, heap, row, row.whole));
    let counts = refuse_each::<K>(rt, heap, row, &whole, wrong);
    let Counts { told, refused } = counts;
    let mut is_right = is_whole && (told > 0) == row.told.is_some();
    for index in 0..MOST_REFUSED {
        is_right = is_right && (refused[index] > 0) == refused_at(row, index).is_some();
    }
    if !is_right {
        let Course { before, whole, .. } = row;
        write!(wrong, "{before}; {whole}: {is_whole} {told} {refused:?}\n").expect(rt, "memory");
    }
}

// Each request for memory of these rows is refused in turn. What is wrong is told of all rows.
pub(crate) fn check_courses<K: Machine>(rt: &impl Abort, heap: Heap, rows: &[Course]) {
    let mut wrong = String::new(heap);
    for row in rows {
        check::<K>(rt, heap, row, &mut wrong);
    }
    assert!(rt; wrong.is_empty(), "{wrong}");
}
