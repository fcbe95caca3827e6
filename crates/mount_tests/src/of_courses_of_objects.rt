// Courses on objects, and on processes.
use crate::acts::Act;
use crate::courses::{Course, check_courses};
use kernel::Kernel;

static OBJECTS: [Course; 15] = [
    Course {
        act: Act::Find,
        before: "1 open /a RDWR,CREAT
1 write 0 first
1 close 0",
        whole: "1 lstat /a",
        told: None,
        refused: &[],
    },
    Course {
        act: Act::FindOpen,
        before: "1 open /a RDWR,CREAT
1 write 0 first",
        whole: "1 lstat /b
1 fstat 0",
        told: None,
        refused: &[],
    },
    Course {
        act: Act::FindOpen,
        before: "1 open /a RDWR,CREAT
1 write 0 first
1 close 0
1 begin
1 open /a RDWR",
        whole: "1 lstat /b
1 fstat 0",
        told: None,
        refused: &["", "1 lstat /b"],
    },
    Course {
        act: Act::ListAt,
        before: "1 mkdir /a
1 mkdir /a/b",
        whole: "1 lstat /a
1 list /a",
        told: None,
        refused: &["1 lstat /a"],
    },
    Course {
        act: Act::ListAt,
        before: "1 mkdir /a
1 mkdir /a/b
1 begin",
        whole: "1 lstat /a
1 list /a",
        told: None,
        refused: &["", "1 lstat /a"],
    },
    Course {
        act: Act::ReadLink,
        before: "1 symlink /b /a",
        whole: "1 lstat /a
1 readlink /a",
        told: None,
        refused: &[],
    },
    Course {
        act: Act::ReadLink,
        before: "1 symlink /b /a
1 begin",
        whole: "1 lstat /a
1 readlink /a",
        told: None,
        refused: &["", "1 lstat /a"],
    },
    Course {
        act: Act::Resize,
        before: "1 open /a RDWR,CREAT
1 write 0 first
1 close 0",
        whole: "1 lstat /a
1 truncate /a 3
1 lstat /a",
        told: None,
        refused: &["1 lstat /a"],
    },
    Course {
        act: Act::Resize,
        before: "1 open /a RDWR,CREAT
1 write 0 first
1 close 0
1 begin",
        whole: "1 lstat /a
1 truncate /a 3
1 lstat /a",
        told: None,
        refused: &[
            "",
            "1 lstat /a",
            "1 lstat /a
1 truncate /a 3",
        ],
    },
    Course {
        act: Act::ResizeOpen,
        before: "1 open /a RDWR,CREAT
1 write 0 first",
        whole: "1 ftruncate 0 3
1 lstat /b
1 fstat 0",
        told: None,
        refused: &[""],
    },
    Course {
        act: Act::ResizeOpen,
        before: "1 open /a RDWR,CREAT
1 write 0 first
1 close 0
1 begin
1 open /a RDWR",
        whole: "1 ftruncate 0 3
1 lstat /b
1 fstat 0",
        told: None,
        refused: &[
            "",
            "1 ftruncate 0 3",
            "1 ftruncate 0 3
1 lstat /b",
        ],
    },
    Course {
        act: Act::Update,
        before: "1 open /a RDWR,CREAT
1 write 0 first
1 close 0",
        whole: "1 lstat /a
1 truncate /a 3
1 chown /a 1 2
1 chmod /a 700
1 lstat /a",
        told: None,
        refused: &[
            "1 lstat /a",
            "1 lstat /a
1 truncate /a 3",
            "1 lstat /a
1 truncate /a 3
1 chown /a 1 2",
        ],
    },
    Course {
        act: Act::Update,
        before: "1 open /a RDWR,CREAT
1 write 0 first
1 close 0
1 begin",
        whole: "1 lstat /a
1 truncate /a 3
1 chown /a 1 2
1 chmod /a 700
1 lstat /a",
        told: None,
        refused: &[
            "",
            "1 lstat /a",
            "1 lstat /a
1 truncate /a 3",
            "1 lstat /a
1 truncate /a 3
1 chown /a 1 2",
            "1 lstat /a
1 truncate /a 3
1 chown /a 1 2
1 chmod /a 700",
        ],
    },
    Course {
        act: Act::UpdateOpen,
        before: "1 open /a RDWR,CREAT
1 write 0 first",
        whole: "1 ftruncate 0 3
1 fchown 0 1 2
1 fchmod 0 700
1 lstat /b
1 fstat 0",
        told: None,
        refused: &[
            "",
            "1 ftruncate 0 3",
            "1 ftruncate 0 3
1 fchown 0 1 2",
        ],
    },
    Course {
        act: Act::UpdateOpen,
        before: "1 open /a RDWR,CREAT
1 write 0 first
1 close 0
1 begin
1 open /a RDWR",
        whole: "1 ftruncate 0 3
1 fchown 0 1 2
1 fchmod 0 700
1 lstat /b
1 fstat 0",
        told: None,
        refused: &[
            "",
            "1 ftruncate 0 3",
            "1 ftruncate 0 3
1 fchown 0 1 2",
            "1 ftruncate 0 3
1 fchown 0 1 2
1 fchmod 0 700",
            "1 ftruncate 0 3
1 fchown 0 1 2
1 fchmod 0 700
1 lstat /b",
        ],
    },
];

static PROCESSES: [Course; 8] = [
    Course {
        act: Act::Begin,
        before: "",
        whole: "1 begin",
        told: None,
        refused: &[],
    },
    Course {
        act: Act::End,
        before: "1 begin
1 mkdir /a",
        whole: "1 end",
        told: None,
        refused: &[],
    },
    Course {
        act: Act::End,
        before: "1 open /a RDWR,CREAT
1 write 0 first
1 close 0
1 begin
1 open /a RDWR
1 pwrite 0 x 0
2 open /a RDWR
2 pwrite 0 y 0",
        whole: "1 end",
        told: None,
        refused: &[],
    },
    Course {
        act: Act::Fork,
        before: "1 open /a RDWR,CREAT
1 write 0 first",
        whole: "1 fork",
        told: None,
        refused: &[""],
    },
    Course {
        act: Act::GiveUp,
        before: "1 begin
1 mkdir /a",
        whole: "1 abort no_restart",
        told: None,
        refused: &[],
    },
    Course {
        act: Act::LookNowhere,
        before: "1 begin",
        whole: "1 fstat 1048576",
        told: None,
        refused: &[],
    },
    Course {
        act: Act::LookNowhere,
        before: "1 open /a RDWR,CREAT
1 write 0 first
1 close 0
1 begin
1 open /a RDWR
1 pwrite 0 x 0
2 open /a RDWR
2 pwrite 0 y 0",
        whole: "1 fstat 1048576",
        told: None,
        refused: &[],
    },
    Course {
        act: Act::Append,
        before: "1 open /a RDWR,CREAT
1 write 0 first
1 close 0
1 begin
1 open /a RDWR
1 pwrite 0 x 0
2 open /a RDWR
2 pwrite 0 y 0",
        whole: "1 fstat 0",
        told: None,
        refused: &[],
    },
];

#[test]
fn courses_of_objects(rt: HostRuntime) {
    let heap = heap::open(rt.alloc()).expect(&rt, "memory");
    check_courses::<Kernel>(&rt, heap, &OBJECTS);
}

#[test]
fn courses_of_processes(rt: HostRuntime) {
    let heap = heap::open(rt.alloc()).expect(&rt, "memory");
    check_courses::<Kernel>(&rt, heap, &PROCESSES);
}
