// Requests about files and open directories below a view.
use crate::refused::{Row, check_all};
use kernel::Kernel;

static OPENS: [Row; 10] = [
    Row {
        before: "mkdir /.tx/v",
        ask: "create /.tx/v/a",
        is_refused: true,
    },
    Row {
        before: "mkdir /.tx/v",
        ask: "create /.tx/v/long-name-of-26-bytes-here",
        is_refused: true,
    },
    Row {
        before: "mkdir /.tx/v
create /.tx/v/a
write /.tx/v/a first",
        ask: "create /.tx/v/a",
        is_refused: true,
    },
    Row {
        before: "mkdir /.tx/v
create /.tx/v/a
write /.tx/v/a first
release /.tx/v/a",
        ask: "create_cut /.tx/v/a",
        is_refused: true,
    },
    Row {
        before: "mkdir /.tx/v
create /.tx/v/a
write /.tx/v/a first",
        ask: "create_cut /.tx/v/a",
        is_refused: true,
    },
    Row {
        before: "mkdir /.tx/v
mknod /.tx/v/a",
        ask: "create_new /.tx/v/a",
        is_refused: true,
    },
    Row {
        before: "mkdir /.tx/v
create /.tx/v/a
write /.tx/v/a first
release /.tx/v/a",
        ask: "open /.tx/v/a",
        is_refused: true,
    },
    Row {
        before: "mkdir /.tx/v
create /.tx/v/a
write /.tx/v/a first",
        ask: "open /.tx/v/a",
        is_refused: false,
    },
    Row {
        before: "mkdir /.tx/v
create /.tx/v/a
write /.tx/v/a first
release /.tx/v/a",
        ask: "cut /.tx/v/a",
        is_refused: true,
    },
    Row {
        before: "mkdir /.tx/v
create /.tx/v/a
write /.tx/v/a first",
        ask: "cut /.tx/v/a",
        is_refused: true,
    },
];

static FILES: [Row; 14] = [
    Row {
        before: "mkdir /.tx/v
create /.tx/v/a
write /.tx/v/a first",
        ask: "read /.tx/v/a",
        is_refused: true,
    },
    Row {
        before: "mkdir /.tx/v
create /.tx/v/a
write /.tx/v/a first",
        ask: "write /.tx/v/a and-more-than-24-bytes-behind-it",
        is_refused: true,
    },
    Row {
        before: "mkdir /.tx/v
create /.tx/v/a
write /.tx/v/a first",
        ask: "append /.tx/v/a second",
        is_refused: true,
    },
    Row {
        before: "mkdir /.tx/v
create /.tx/v/a
write /.tx/v/a first",
        ask: "seek /.tx/v/a",
        is_refused: true,
    },
    Row {
        before: "mkdir /.tx/v
create /.tx/v/a
write /.tx/v/a first",
        ask: "data /.tx/v/a",
        is_refused: true,
    },
    Row {
        before: "mkdir /.tx/v
create /.tx/v/a
write /.tx/v/a first",
        ask: "grow /.tx/v/a",
        is_refused: true,
    },
    Row {
        before: "mkdir /.tx/v
create /.tx/v/a
write /.tx/v/a first",
        ask: "punch /.tx/v/a",
        is_refused: true,
    },
    Row {
        before: "mkdir /.tx/v
create /.tx/v/a
write /.tx/v/a first",
        ask: "copy /.tx/v/a",
        is_refused: true,
    },
    Row {
        before: "mkdir /.tx/v
create /.tx/v/a
write /.tx/v/a first",
        ask: "length /.tx/v/a 3000",
        is_refused: true,
    },
    Row {
        before: "mkdir /.tx/v
create /.tx/v/a
write /.tx/v/a first
release /.tx/v/a",
        ask: "length /.tx/v/a 2",
        is_refused: true,
    },
    Row {
        before: "mkdir /.tx/v
create /.tx/v/a
write /.tx/v/a first",
        ask: "flush /.tx/v/a",
        is_refused: false,
    },
    Row {
        before: "mkdir /.tx/v
create /.tx/v/a
write /.tx/v/a first",
        ask: "release /.tx/v/a",
        is_refused: true,
    },
    Row {
        before: "mkdir /.tx/v
create /.tx/v/a
open /.tx/v/a",
        ask: "release /.tx/v/a",
        is_refused: false,
    },
    Row {
        before: "mkdir /.tx/v
create /.tx/v/a
write /.tx/v/a first",
        ask: "forget /.tx/v/a",
        is_refused: false,
    },
];

static LISTS: [Row; 5] = [
    Row {
        before: "mkdir /.tx/v
mkdir /.tx/v/a
mknod /.tx/v/long-name-of-26-bytes-here",
        ask: "opendir /.tx/v/",
        is_refused: true,
    },
    Row {
        before: "mkdir /.tx/v
mkdir /.tx/v/a
mknod /.tx/v/a/b",
        ask: "opendir /.tx/v/a",
        is_refused: true,
    },
    Row {
        before: "mkdir /.tx/v
mkdir /.tx/v/a
mknod /.tx/v/long-name-of-26-bytes-here
opendir /.tx/v/",
        ask: "readdir /.tx/v/",
        is_refused: true,
    },
    Row {
        before: "mkdir /.tx/v
mkdir /.tx/v/a
opendir /.tx/v/
readdir /.tx/v/
mknod /.tx/v/b",
        ask: "readdir /.tx/v/",
        is_refused: true,
    },
    Row {
        before: "mkdir /.tx/v
mkdir /.tx/v/a
opendir /.tx/v/a",
        ask: "releasedir /.tx/v/a",
        is_refused: false,
    },
];

static OVER: [Row; 8] = [
    Row {
        before: "create /a
write /a first
mkdir /.tx/v",
        ask: "open /.tx/v/a",
        is_refused: true,
    },
    Row {
        before: "create /a
write /a first
mkdir /.tx/v
open /.tx/v/a",
        ask: "write /.tx/v/a second",
        is_refused: true,
    },
    Row {
        before: "create /a
write /a first
mkdir /.tx/v
open /.tx/v/a",
        ask: "read /.tx/v/a",
        is_refused: true,
    },
    Row {
        before: "create /a
write /a first
release /a
mkdir /.tx/v
open /.tx/v/a",
        ask: "release /.tx/v/a",
        is_refused: true,
    },
    Row {
        before: "create /a
write /a first
release /a
mkdir /.tx/v
open /.tx/v/a
unlink /.tx/v/a",
        ask: "release /.tx/v/a",
        is_refused: true,
    },
    Row {
        before: "mknod /a
mkdir /.tx/v",
        ask: "unlink /.tx/v/a",
        is_refused: true,
    },
    Row {
        before: "mkdir /a
mkdir /a/b
mkdir /.tx/v",
        ask: "rename /.tx/v/a/b /.tx/v/b",
        is_refused: true,
    },
    Row {
        before: "mkdir /.tx/v",
        ask: "link /a /.tx/v/b",
        is_refused: true,
    },
];

#[test]
fn files_that_are_opened_in_a_view(rt: HostRuntime) {
    let heap = heap::open(rt.alloc()).expect(&rt, "memory");
    check_all::<Kernel>(&rt, heap, &OPENS);
}

#[test]
fn open_files_in_a_view(rt: HostRuntime) {
    let heap = heap::open(rt.alloc()).expect(&rt, "memory");
    check_all::<Kernel>(&rt, heap, &FILES);
}

#[test]
fn open_directories_in_a_view(rt: HostRuntime) {
    let heap = heap::open(rt.alloc()).expect(&rt, "memory");
    check_all::<Kernel>(&rt, heap, &LISTS);
}

#[test]
fn what_the_plain_tree_has_in_a_view(rt: HostRuntime) {
    let heap = heap::open(rt.alloc()).expect(&rt, "memory");
    check_all::<Kernel>(&rt, heap, &OVER);
}
