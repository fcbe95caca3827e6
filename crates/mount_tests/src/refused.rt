// A row: requests of a session, and one more, of which each request for memory is refused in turn.
use crate::client::{Answer, Client, ask, new_client, shown};
use crate::texts::{Text, is_same};
use heap::Heap;
use machine::Machine;
use std::process::Abort;

// More requests for memory than any row makes.
const MOST: u64 = 200;

pub(crate) struct Row {
    // What comes before, each on a line of its own. None of it fails.
    pub(crate) before: &'static str,
    pub(crate) ask: &'static str,
    // Whether it is ever answered ENOMEM.
    pub(crate) is_refused: bool,
}

// What was answered, what to the same request once more, and what is shown then.
#[derive(Drop)]
struct Ran {
    told: Text,
    again: Text,
    shown: Text,
    made: u64,
}

// What comes of a row where its request is left out, made, and made twice.
#[derive(Drop)]
struct Twins {
    none: Ran,
    once: Ran,
    twice: Ran,
}

fn prepare<K: Machine>(rt: &impl Abort, client: &mut Client<K>, row: &Row) {
    for line in row.before.lines() {
        let answer = ask(rt, client, line, 0);
        let told = answer.told.as_str();
        assert!(rt; !told.starts_with('E'), "{line}: {told}");
        drop(answer);
    }
}

// Asks what a row asks, where it is to be asked.
fn ask_if<K: Machine>(
    rt: &impl Abort,
    heap: Heap,
    client: &mut Client<K>,
    row: &Row,
    is_asked: bool,
    request: u64,
) -> Answer {
    if is_asked {
        return ask(rt, client, row.ask, request);
    }
    Answer {
        told: String::new(heap),
        made: 0,
    }
}

// The row is run with so many times its request, the first of which is refused this request for
// memory.
fn run_on<K: Machine>(
    rt: &impl Abort,
    heap: Heap,
    client: &mut Client<K>,
    row: &Row,
    times: u64,
    request: u64,
) -> Ran {
    prepare(rt, client, row);
    let first = ask_if(rt, heap, client, row, times > 0, request);
    let second = ask_if(rt, heap, client, row, times > 1, 0);
    let shown = shown(rt, client);
    let Answer { told, made } = first;
    let Answer {
        told: again,
        made: _,
    } = second;
    Ran {
        told,
        again,
        shown,
        made,
    }
}

fn run<K: Machine>(rt: &impl Abort, heap: Heap, row: &Row, times: u64, request: u64) -> Ran {
    let mut client: Client<K> = new_client(rt, heap);
    run_on(rt, heap, &mut client, row, times, request)
}

// Whether the row stands as where its request was not made: the same one is served as the first.
fn is_as_before(twins: &Twins, once: &Ran, twice: &Ran) -> bool {
    is_same(&once.shown, &twins.none.shown)
        && is_same(&twice.again, &twins.once.told)
        && is_same(&twice.shown, &twins.once.shown)
}

// Whether the row stands as where its request was made: the same one is served as the second.
fn is_as_after(twins: &Twins, once: &Ran, twice: &Ran) -> bool {
    is_same(&once.shown, &twins.once.shown)
        && is_same(&twice.again, &twins.twice.again)
        && is_same(&twice.shown, &twins.twice.shown)
}

// Whether what came of a refusal is right: the reply is ENOMEM, and the row stands as before or as
// after, since no request has two changes that are shown; or memory was refused for what can be done
// without, and it stands as after.
fn is_right(twins: &Twins, once: &Ran, twice: &Ran) -> bool {
    if is_same(&once.told, &twins.once.told) {
        return is_as_after(twins, once, twice);
    }
    once.told.as_str() == "ENOMEM"
        && (is_as_before(twins, once, twice) || is_as_after(twins, once, twice))
}

// Refuses each request for memory of a row in turn, and tells what is wrong. Whether one was answered
// ENOMEM.
fn refuse_each<K: Machine>(
    rt: &impl Abort,
    heap: Heap,
    row: &Row,
    twins: &Twins,
    wrong: &mut Text,
) -> bool {
    let mut is_refused = false;
    for request in 1..MOST {
        let once = run::<K>(rt, heap, row, 1, request);
        if once.made < request {
            return is_refused;
        }
        let twice = run::<K>(rt, heap, row, 2, request);
        if !is_right(twins, &once, &twice) {
            let Ran { told, again, .. } = &twice;
            write!(wrong, "{}: {request}: {told}, {again}\n", row.ask).expect(rt, "memory");
        }
        is_refused = is_refused || once.told.as_str() == "ENOMEM";
    }
    write!(wrong, "{}: too many requests\n", row.ask).expect(rt, "memory");
    is_refused
}

fn check<K: Machine>(rt: &impl Abort, heap: Heap, row: &Row, wrong: &mut Text) {
    let twins = Twins {
        none: run::<K>(rt, heap, row, 0, 0),
        once: run::<K>(rt, heap, row, 1, 0),
        twice: run::<K>(rt, heap, row, 2, 0),
    };
    let is_refused = refuse_each::<K>(rt, heap, row, &twins, wrong);
    if is_refused != row.is_refused {
        write!(wrong, "{}: ENOMEM: {is_refused}\n", row.ask).expect(rt, "memory");
    }
}

// Each request for memory of these rows is refused in turn. What is wrong is told of all rows.
pub(crate) fn check_all<K: Machine>(rt: &impl Abort, heap: Heap, rows: &[Row]) {
    let mut wrong = String::new(heap);
    for row in rows {
        check::<K>(rt, heap, row, &mut wrong);
    }
    assert!(rt; wrong.is_empty(), "{wrong}");
}
