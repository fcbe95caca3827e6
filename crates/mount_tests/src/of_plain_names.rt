// Requests about names of the plain tree.
use crate::refused::{Row, check_all};
use kernel::Kernel;

static NAMES: [Row; 15] = [
    Row {
        before: "mkdir /a",
        ask: "lookup /a",
        is_refused: true,
    },
    Row {
        before: "mknod /long-name-of-26-bytes-here",
        ask: "lookup /long-name-of-26-bytes-here",
        is_refused: true,
    },
    Row {
        before: "",
        ask: "lookup /a",
        is_refused: true,
    },
    Row {
        before: "mkdir /a",
        ask: "getattr /a",
        is_refused: true,
    },
    Row {
        before: "mknod /long-name-of-26-bytes-here",
        ask: "getattr /long-name-of-26-bytes-here",
        is_refused: true,
    },
    Row {
        before: "",
        ask: "mkdir /a",
        is_refused: true,
    },
    Row {
        before: "",
        ask: "mkdir /long-name-of-26-bytes-here",
        is_refused: true,
    },
    Row {
        before: "mkdir /a",
        ask: "mkdir /a/b",
        is_refused: true,
    },
    Row {
        before: "mkdir /a",
        ask: "mkdir /a",
        is_refused: true,
    },
    Row {
        before: "",
        ask: "mknod /a",
        is_refused: true,
    },
    Row {
        before: "mknod /a",
        ask: "mknod /a",
        is_refused: true,
    },
    Row {
        before: "",
        ask: "mkfifo /a",
        is_refused: true,
    },
    Row {
        before: "",
        ask: "symlink /a a-target-with-a-longer-name-here",
        is_refused: true,
    },
    Row {
        before: "symlink /a b",
        ask: "readlink /a",
        is_refused: true,
    },
    Row {
        before: "symlink /a b",
        ask: "getattr /a",
        is_refused: true,
    },
];

static MOVES: [Row; 15] = [
    Row {
        before: "mkdir /a
create /a/b",
        ask: "unlink /a/b",
        is_refused: true,
    },
    Row {
        before: "mknod /long-name-of-26-bytes-here",
        ask: "unlink /long-name-of-26-bytes-here",
        is_refused: true,
    },
    Row {
        before: "mkdir /a",
        ask: "rmdir /a",
        is_refused: true,
    },
    Row {
        before: "mkdir /a
mkdir /a/b",
        ask: "rmdir /a",
        is_refused: true,
    },
    Row {
        before: "mknod /a
mkdir /b",
        ask: "link /a /long-name-of-26-bytes-here",
        is_refused: true,
    },
    Row {
        before: "mknod /a
mkdir /a2",
        ask: "link /a /b",
        is_refused: true,
    },
    Row {
        before: "create /a
write /a first
mkdir /b",
        ask: "rename /a /long-name-of-26-bytes-here",
        is_refused: true,
    },
    Row {
        before: "create /a
write /a first
create /b
write /b second",
        ask: "rename /a /b",
        is_refused: true,
    },
    Row {
        before: "create /a
write /a first
create /b
write /b second",
        ask: "move /a /b",
        is_refused: true,
    },
    Row {
        before: "mkdir /a
mknod /a/b",
        ask: "move /a /b",
        is_refused: true,
    },
    Row {
        before: "symlink /a target
mknod /b",
        ask: "rename /a /b",
        is_refused: true,
    },
    Row {
        before: "create /a
write /a first
mkdir /b",
        ask: "exchange /a /b",
        is_refused: true,
    },
    Row {
        before: "mkdir /a
mknod /a/b
mknod /b",
        ask: "exchange /a/b /b",
        is_refused: true,
    },
    Row {
        before: "mknod /a
link /a /b",
        ask: "exchange /a /b",
        is_refused: true,
    },
    Row {
        before: "symlink /a target",
        ask: "link /a /b",
        is_refused: true,
    },
];

#[test]
fn names_that_are_looked_up_or_made(rt: HostRuntime) {
    let heap = heap::open(rt.alloc()).expect(&rt, "memory");
    check_all::<Kernel>(&rt, heap, &NAMES);
}

#[test]
fn names_that_go_or_move(rt: HostRuntime) {
    let heap = heap::open(rt.alloc()).expect(&rt, "memory");
    check_all::<Kernel>(&rt, heap, &MOVES);
}
