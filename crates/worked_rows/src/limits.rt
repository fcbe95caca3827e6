// One run under each history limit, and a call that is refused memory and not asked again.
use crate::row::{do_script, do_steps, kernel_of, steps_in, transcript_of};
use heap::Heap;
use ids::{Answer, Errno, Fd, Kind, Reply};
use kernel::Kernel;
use machine::Machine;
use std::test::Fail;

static ISOLATED: &str = "priorities 0 0
1 begin
1 open /a WRONLY,CREAT
2 stat /a
1 end
2 stat /a
";

// A limit, and what the five steps are answered under it.
static LIMITS: [(usize, [&str; 5]); 6] = [
    (0, ["full", "full", "full", "full", "full"]),
    (1, ["full", "0", "full", "full", "full"]),
    (2, ["begun", "full", "full", "committed", "full"]),
    (3, ["begun", "0", "full", "committed", "full"]),
    (4, ["begun", "0", "ENOENT", "committed", "full"]),
    (5, ["begun", "0", "ENOENT", "committed", "an empty file"]),
];

fn told(reply: &Reply) -> &'static str {
    match reply {
        Reply::HistoryFull => "full",
        Reply::Begun => "begun",
        Reply::Committed => "committed",
        Reply::Errno(Errno::ENOENT) => "ENOENT",
        Reply::Answer(answer) => told_answer(answer),
        _ => "another reply",
    }
}

fn told_answer(answer: &Answer) -> &'static str {
    match answer {
        Answer::Fd(Fd(0)) => "0",
        Answer::Stat(stat) if stat.kind == Kind::File && stat.size == 0 && stat.links == 1 => {
            "an empty file"
        }
        _ => "another answer",
    }
}

// Whether the steps, in one run, are answered so.
fn is_answered<K: Machine>(heap: Heap, kernel: &mut K, wanted: &[&str]) -> Result<bool, Fail> {
    let steps = steps_in(heap, ISOLATED, "1,1,2,1,2")?;
    let replies = kernel.run(steps)?;
    let right = are_told(replies.as_slice(), wanted);
    drop(replies);
    Ok(right)
}

fn are_told(replies: &[Reply], wanted: &[&str]) -> bool {
    let mut right = replies.len() == wanted.len();
    for (reply, text) in replies.iter().zip(wanted) {
        right = right && told(reply) == *text;
    }
    right
}

// Whether they are answered so under a limit, and the history is as long as the limit says.
fn is_right<K: Machine>(heap: Heap, limit: usize, wanted: &[&str]) -> Result<bool, Fail> {
    let mut kernel: K = kernel_of(heap, ISOLATED, limit)?;
    let right = is_answered(heap, &mut kernel, wanted)?;
    Ok(right && kernel.history().entries().len() == limit)
}

// Whether they are answered so, one by one, where all is forgotten behind each of them.
fn is_answered_anew<K: Machine>(heap: Heap, kernel: &mut K, wanted: &[&str]) -> Result<bool, Fail> {
    let steps = steps_in(heap, ISOLATED, "1,1,2,1,2")?;
    let mut right = steps.len() == wanted.len();
    for ((pid, op), text) in steps.into_iter().zip(wanted) {
        let reply = kernel.step(pid, op);
        right = right && told(&reply) == *text;
        drop(reply);
        right = kernel.forget() && right;
    }
    Ok(right)
}

fn is_right_anew<K: Machine>(heap: Heap, limit: usize, wanted: &[&str]) -> Result<bool, Fail> {
    let mut kernel: K = kernel_of(heap, ISOLATED, limit)?;
    is_answered_anew(heap, &mut kernel, wanted)
}

// A begin needs two places, and the transaction holds one of them until its end.
static FORGOTTEN: [(usize, [&str; 5]); 3] = [
    (0, ["full", "full", "full", "full", "full"]),
    (
        1,
        [
            "full",
            "0",
            "an empty file",
            "another reply",
            "an empty file",
        ],
    ),
    (2, ["begun", "0", "ENOENT", "committed", "an empty file"]),
];

#[test]
fn what_is_forgotten_gives_its_places_back(rt: HostRuntime) -> Result<(), Fail> {
    let heap = heap::open(rt.alloc())?;
    for (limit, wanted) in &FORGOTTEN {
        assert!(rt; is_right_anew::<Kernel>(heap, *limit, wanted)?, "{limit}");
    }
    Ok(())
}

#[test]
fn each_limit_has_its_replies(rt: HostRuntime) -> Result<(), Fail> {
    let heap = heap::open(rt.alloc())?;
    for (limit, wanted) in &LIMITS {
        assert!(rt; is_right::<Kernel>(heap, *limit, wanted)?, "{limit}");
    }
    Ok(())
}

static LOOKED: &str = "priorities 0 0
1 begin
1 stat /a
";

static MAKES: &str = "priorities 0 0
2 mkdir /a
";

static TOLD: &str = "1 P1 begin -> begun
2 P1 stat /a -> ENOENT
3 P1 end -> committed
";

// A call that would doom a transaction is refused memory, and not asked again.
fn refused_once<K: Machine>(
    heap: Heap,
    kernel: &mut K,
    number: u64,
) -> Result<Vec<u8, Heap>, Fail> {
    do_script(kernel, heap, LOOKED, "1,1")?;
    let steps = steps_in(heap, MAKES, "2")?;
    heap.refuse(number);
    do_steps(kernel, steps);
    heap.refuse(0);
    do_script(kernel, heap, "priorities 0 0\n1 end\n", "1")?;
    transcript_of(heap, kernel)
}

fn refused<K: Machine>(heap: Heap, number: u64) -> Result<Vec<u8, Heap>, Fail> {
    let mut kernel: K = kernel_of(heap, LOOKED, 100)?;
    refused_once(heap, &mut kernel, number)
}

// Then nobody is doomed.
#[test]
fn what_is_refused_dooms_nobody(rt: HostRuntime) -> Result<(), Fail> {
    let heap = heap::open(rt.alloc())?;
    for number in 1..6u64 {
        assert_eq!(rt;
            refused::<Kernel>(heap, number)?.as_slice(),
            TOLD.as_bytes()
        );
    }
    Ok(())
}
