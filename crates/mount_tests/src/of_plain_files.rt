// Requests about files and open directories of the plain tree.
use crate::refused::{Row, check_all};
use kernel::Kernel;

static OPENS: [Row; 11] = [
    Row {
        before: "",
        ask: "create /a",
        is_refused: true,
    },
    Row {
        before: "",
        ask: "create /long-name-of-26-bytes-here",
        is_refused: true,
    },
    Row {
        before: "create /a",
        ask: "create /b",
        is_refused: true,
    },
    Row {
        before: "create /a
write /a first",
        ask: "create /a",
        is_refused: true,
    },
    Row {
        before: "create /a
write /a first
release /a",
        ask: "create_cut /a",
        is_refused: true,
    },
    Row {
        before: "create /a
write /a first",
        ask: "create_cut /a",
        is_refused: true,
    },
    Row {
        before: "mknod /a",
        ask: "create_new /a",
        is_refused: true,
    },
    Row {
        before: "create /a
write /a first
release /a",
        ask: "open /a",
        is_refused: true,
    },
    Row {
        before: "create /a
write /a first",
        ask: "open /a",
        is_refused: false,
    },
    Row {
        before: "create /a
write /a first
release /a",
        ask: "cut /a",
        is_refused: true,
    },
    Row {
        before: "create /a
write /a first",
        ask: "cut /a",
        is_refused: true,
    },
];

static FILES: [Row; 18] = [
    Row {
        before: "create /a
write /a first",
        ask: "read /a",
        is_refused: true,
    },
    Row {
        before: "create /a
write /a first",
        ask: "write /a and-more-than-24-bytes-behind-it",
        is_refused: true,
    },
    Row {
        before: "create /a
write /a first",
        ask: "append /a second",
        is_refused: true,
    },
    Row {
        before: "create /a
write /a first",
        ask: "seek /a",
        is_refused: true,
    },
    Row {
        before: "create /a
write /a first",
        ask: "data /a",
        is_refused: true,
    },
    Row {
        before: "create /a
write /a first",
        ask: "grow /a",
        is_refused: true,
    },
    Row {
        before: "create /a
write /a first",
        ask: "punch /a",
        is_refused: true,
    },
    Row {
        before: "create /a
write /a first",
        ask: "copy /a",
        is_refused: true,
    },
    Row {
        before: "create /a
write /a first",
        ask: "length /a 3000",
        is_refused: true,
    },
    Row {
        before: "create /a
write /a first
release /a",
        ask: "length /a 2",
        is_refused: true,
    },
    Row {
        before: "create /a
write /a first",
        ask: "rights /a 448",
        is_refused: true,
    },
    Row {
        before: "mkdir /a",
        ask: "rights /a 448",
        is_refused: true,
    },
    Row {
        before: "create /a
write /a first",
        ask: "flush /a",
        is_refused: false,
    },
    Row {
        before: "create /a
write /a first",
        ask: "release /a",
        is_refused: true,
    },
    Row {
        before: "create /a
write /a first
unlink /a",
        ask: "release /a",
        is_refused: true,
    },
    Row {
        before: "create /a
open /a",
        ask: "release /a",
        is_refused: false,
    },
    Row {
        before: "create /a
write /a first",
        ask: "forget /a",
        is_refused: false,
    },
    Row {
        before: "",
        ask: "statfs /",
        is_refused: false,
    },
];

static LISTS: [Row; 5] = [
    Row {
        before: "mkdir /a
mknod /long-name-of-26-bytes-here",
        ask: "opendir /",
        is_refused: true,
    },
    Row {
        before: "mkdir /a
mknod /a/b",
        ask: "opendir /a",
        is_refused: true,
    },
    Row {
        before: "mkdir /a
mknod /long-name-of-26-bytes-here
opendir /",
        ask: "readdir /",
        is_refused: true,
    },
    Row {
        before: "mkdir /a
opendir /
readdir /
mknod /b",
        ask: "readdir /",
        is_refused: true,
    },
    Row {
        before: "mkdir /a
opendir /a",
        ask: "releasedir /a",
        is_refused: false,
    },
];

#[test]
fn files_that_are_opened(rt: HostRuntime) {
    let heap = heap::open(rt.alloc()).expect(&rt, "memory");
    check_all::<Kernel>(&rt, heap, &OPENS);
}

#[test]
fn open_files(rt: HostRuntime) {
    let heap = heap::open(rt.alloc()).expect(&rt, "memory");
    check_all::<Kernel>(&rt, heap, &FILES);
}

#[test]
fn open_directories(rt: HostRuntime) {
    let heap = heap::open(rt.alloc()).expect(&rt, "memory");
    check_all::<Kernel>(&rt, heap, &LISTS);
}
