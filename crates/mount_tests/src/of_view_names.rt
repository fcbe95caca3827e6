// Requests about names below a view.
use crate::refused::{Row, check_all};
use kernel::Kernel;

static NAMES: [Row; 12] = [
    Row {
        before: "mkdir /.tx/v
mkdir /.tx/v/a",
        ask: "lookup /.tx/v/a",
        is_refused: true,
    },
    Row {
        before: "mkdir /.tx/v
mknod /.tx/v/long-name-of-26-bytes-here",
        ask: "lookup /.tx/v/long-name-of-26-bytes-here",
        is_refused: true,
    },
    Row {
        before: "mkdir /.tx/v
mkdir /.tx/v/a",
        ask: "getattr /.tx/v/a",
        is_refused: true,
    },
    Row {
        before: "mkdir /.tx/v
mknod /.tx/v/long-name-of-26-bytes-here",
        ask: "getattr /.tx/v/long-name-of-26-bytes-here",
        is_refused: true,
    },
    Row {
        before: "mkdir /.tx/v",
        ask: "mkdir /.tx/v/a",
        is_refused: true,
    },
    Row {
        before: "mkdir /.tx/v",
        ask: "mkdir /.tx/v/long-name-of-26-bytes-here",
        is_refused: true,
    },
    Row {
        before: "mkdir /.tx/v
mkdir /.tx/v/a",
        ask: "mkdir /.tx/v/a/b",
        is_refused: true,
    },
    Row {
        before: "mkdir /.tx/v",
        ask: "mknod /.tx/v/a",
        is_refused: true,
    },
    Row {
        before: "mkdir /.tx/v",
        ask: "mkfifo /.tx/v/a",
        is_refused: true,
    },
    Row {
        before: "mkdir /.tx/v",
        ask: "symlink /.tx/v/a a-target-with-a-longer-name-here",
        is_refused: true,
    },
    Row {
        before: "mkdir /.tx/v
symlink /.tx/v/a b",
        ask: "readlink /.tx/v/a",
        is_refused: true,
    },
    Row {
        before: "mkdir /.tx/v
symlink /.tx/v/a b",
        ask: "getattr /.tx/v/a",
        is_refused: true,
    },
];

static MOVES: [Row; 10] = [
    Row {
        before: "mkdir /.tx/v
mkdir /.tx/v/a
create /.tx/v/a/b",
        ask: "unlink /.tx/v/a/b",
        is_refused: true,
    },
    Row {
        before: "mkdir /.tx/v
mknod /.tx/v/long-name-of-26-bytes-here",
        ask: "unlink /.tx/v/long-name-of-26-bytes-here",
        is_refused: true,
    },
    Row {
        before: "mkdir /.tx/v
mkdir /.tx/v/a",
        ask: "rmdir /.tx/v/a",
        is_refused: true,
    },
    Row {
        before: "mkdir /.tx/v
mknod /.tx/v/a
mkdir /.tx/v/b",
        ask: "link /.tx/v/a /.tx/v/long-name-of-26-bytes-here",
        is_refused: true,
    },
    Row {
        before: "mkdir /.tx/v
mknod /.tx/v/a
mkdir /.tx/v/a2",
        ask: "link /.tx/v/a /.tx/v/b",
        is_refused: true,
    },
    Row {
        before: "mkdir /.tx/v
create /.tx/v/a
write /.tx/v/a first
mkdir /.tx/v/b",
        ask: "rename /.tx/v/a /.tx/v/long-name-of-26-bytes-here",
        is_refused: true,
    },
    Row {
        before: "mkdir /.tx/v
create /.tx/v/a
write /.tx/v/a first
create /.tx/v/b
write /.tx/v/b second",
        ask: "rename /.tx/v/a /.tx/v/b",
        is_refused: true,
    },
    Row {
        before: "mkdir /.tx/v
create /.tx/v/a
write /.tx/v/a first
create /.tx/v/b
write /.tx/v/b second",
        ask: "move /.tx/v/a /.tx/v/b",
        is_refused: true,
    },
    Row {
        before: "mkdir /.tx/v
create /.tx/v/a
write /.tx/v/a first
mkdir /.tx/v/b",
        ask: "exchange /.tx/v/a /.tx/v/b",
        is_refused: true,
    },
    Row {
        before: "mkdir /.tx/v
mkdir /.tx/v/a
mknod /.tx/v/a/b",
        ask: "move /.tx/v/a /.tx/v/b",
        is_refused: true,
    },
];

#[test]
fn names_that_are_looked_up_or_made_in_a_view(rt: HostRuntime) {
    let heap = heap::open(rt.alloc()).expect(&rt, "memory");
    check_all::<Kernel>(&rt, heap, &NAMES);
}

#[test]
fn names_that_go_or_move_in_a_view(rt: HostRuntime) {
    let heap = heap::open(rt.alloc()).expect(&rt, "memory");
    check_all::<Kernel>(&rt, heap, &MOVES);
}
