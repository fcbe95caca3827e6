// A full tree: what it would grow by is told ENOSPC, and all else is served as where there is room.
use crate::client::{Client, ask, new_client, shown};
use crate::texts::{Text, is_same};
use heap::{Heap, NO_LIMIT};
use kernel::Kernel;
use machine::Machine;
use std::process::Abort;

// A request, and what comes before, each on a line of its own.
struct Row {
    before: &'static str,
    ask: &'static str,
    grows: bool,
}

static ROWS: [Row; 29] = [
    Row {
        before: "",
        ask: "mkdir /a",
        grows: true,
    },
    Row {
        before: "",
        ask: "create /a",
        grows: true,
    },
    Row {
        before: "create /a",
        ask: "create /a",
        grows: true,
    },
    Row {
        before: "",
        ask: "mknod /a",
        grows: true,
    },
    Row {
        before: "",
        ask: "mkfifo /a",
        grows: true,
    },
    Row {
        before: "",
        ask: "symlink /a target",
        grows: true,
    },
    Row {
        before: "create /a",
        ask: "link /a /b",
        grows: true,
    },
    Row {
        before: "create /a",
        ask: "write /a text",
        grows: true,
    },
    Row {
        before: "create /a",
        ask: "append /a text",
        grows: true,
    },
    Row {
        before: "mkdir /.tx/v",
        ask: "mkdir /.tx/v/a",
        grows: true,
    },
    Row {
        before: "mkdir /.tx/v
create /.tx/v/a",
        ask: "write /.tx/v/a text",
        grows: true,
    },
    Row {
        before: "create /a
write /a text",
        ask: "copy /a",
        grows: true,
    },
    Row {
        before: "create /a
write /a text",
        ask: "grow /a",
        grows: false,
    },
    Row {
        before: "create /a
write /a text",
        ask: "punch /a",
        grows: false,
    },
    Row {
        before: "create /a
write /a text",
        ask: "data /a",
        grows: false,
    },
    Row {
        before: "create /a
mkdir /b",
        ask: "exchange /a /b",
        grows: false,
    },
    Row {
        before: "create /a
write /a text",
        ask: "read /a",
        grows: false,
    },
    Row {
        before: "create /a",
        ask: "open /a",
        grows: false,
    },
    Row {
        before: "create /a
write /a text",
        ask: "cut /a",
        grows: false,
    },
    Row {
        before: "create /a
write /a text",
        ask: "length /a 2",
        grows: false,
    },
    Row {
        before: "create /a",
        ask: "length /a 3000",
        grows: false,
    },
    Row {
        before: "create /a",
        ask: "rights /a 448",
        grows: false,
    },
    Row {
        before: "create /a",
        ask: "unlink /a",
        grows: false,
    },
    Row {
        before: "mkdir /a",
        ask: "rmdir /a",
        grows: false,
    },
    Row {
        before: "create /a",
        ask: "rename /a /b",
        grows: false,
    },
    Row {
        before: "mkdir /a",
        ask: "opendir /",
        grows: false,
    },
    Row {
        before: "",
        ask: "mkdir /.tx/v",
        grows: false,
    },
    Row {
        before: "mkdir /.tx/v
mkdir /.tx/v/a",
        ask: "write /.tx/v.ctl end",
        grows: false,
    },
    Row {
        before: "mkdir /.tx/v
mkdir /.tx/v/a",
        ask: "rmdir /.tx/v",
        grows: false,
    },
];

// What was answered, for how many requests for memory, and what is shown then.
#[derive(Drop)]
struct Ran {
    told: Text,
    made: u64,
    shown: Text,
}

fn prepare<K: Machine>(rt: &impl Abort, client: &mut Client<K>, row: &Row) {
    for line in row.before.lines() {
        let answer = ask(rt, client, line, 0);
        let told = answer.told.as_str();
        assert!(rt; !told.starts_with('E'), "{line}: {told}");
        drop(answer);
    }
}

// The row is run, and its request served in a tree that is full, where it is to be.
fn run<K: Machine>(rt: &impl Abort, heap: Heap, row: &Row, is_full: bool) -> Ran {
    let mut client: Client<K> = new_client(rt, heap);
    prepare(rt, &mut client, row);
    if is_full {
        heap.hold_to(heap.held());
    }
    let answer = ask(rt, &mut client, row.ask, 0);
    heap.hold_to(NO_LIMIT);
    Ran {
        told: answer.told,
        made: answer.made,
        shown: shown(rt, &mut client),
    }
}

// What is shown where the request of the row is not made.
fn shown_before<K: Machine>(rt: &impl Abort, heap: Heap, row: &Row) -> Text {
    let mut client: Client<K> = new_client(rt, heap);
    prepare(rt, &mut client, row);
    shown(rt, &mut client)
}

fn is_right<K: Machine>(rt: &impl Abort, heap: Heap, row: &Row) -> bool {
    let full = run::<K>(rt, heap, row, true);
    if row.grows {
        let before = shown_before::<K>(rt, heap, row);
        return full.told.as_str() == "ENOSPC" && full.made == 0 && is_same(&full.shown, &before);
    }
    let other = run::<K>(rt, heap, row, false);
    is_same(&full.told, &other.told) && is_same(&full.shown, &other.shown)
}

// A heap of which so much is held that what requests need fits into the reserve.
fn ballast(rt: &impl Abort, heap: Heap) -> Vec<u8, Heap> {
    Vec::with_capacity(heap, 16_777_216).expect(rt, "memory")
}

// What is wrong is told of all rows.
fn check_all<K: Machine>(rt: &impl Abort, heap: Heap, rows: &[Row]) {
    let mut wrong = String::new(heap);
    for row in rows {
        if !is_right::<K>(rt, heap, row) {
            write!(wrong, "{}\n", row.ask).expect(rt, "memory");
        }
    }
    assert!(rt; wrong.is_empty(), "{wrong}");
}

#[test]
fn a_full_tree_does_not_grow(rt: HostRuntime) {
    let heap = heap::open(rt.alloc()).expect(&rt, "memory");
    let _ballast = ballast(&rt, heap);
    check_all::<Kernel>(&rt, heap, &ROWS);
}

// A line that writes so many bytes.
fn line_of(rt: &impl Abort, heap: Heap, len: usize) -> Text {
    let mut line = String::from_str(heap, "write /a ").expect(rt, "memory");
    for _ in 0..len {
        line.push('x').expect(rt, "memory");
    }
    line
}

// What the limit refuses within a write is told ENOSPC, what else refuses it ENOMEM, and neither has
// written anything. The first request of a write shares its bytes, and is not needed.
#[test]
fn a_write_that_does_not_fit_is_told_so(rt: HostRuntime) {
    let heap = heap::open(rt.alloc()).expect(&rt, "memory");
    let _ballast = ballast(&rt, heap);
    let line = line_of(&rt, heap, 200_000);
    let mut client: Client<Kernel> = new_client(&rt, heap);
    let _made = ask(&rt, &mut client, "create /a", 0);
    heap.hold_to(heap.held().saturating_add(300_000));
    let full = ask(&rt, &mut client, line.as_str(), 0);
    heap.hold_to(NO_LIMIT);
    let refused = ask(&rt, &mut client, line.as_str(), 2);
    let read = ask(&rt, &mut client, "getattr /a", 0);
    let written = ask(&rt, &mut client, line.as_str(), 0);
    assert_eq!(rt; full.told.as_str(), "ENOSPC");
    assert_eq!(rt; refused.told.as_str(), "ENOMEM");
    assert!(rt; full.made > 0 && read.told.as_str().contains("size 0 "));
    assert_eq!(rt; written.told.as_str(), "written 200000");
}
