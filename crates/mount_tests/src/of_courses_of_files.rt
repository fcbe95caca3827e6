// Courses on files that are open, and that are opened.
use crate::acts::Act;
use crate::courses::{Course, check_courses};
use kernel::Kernel;

static FILES: [Course; 22] = [
    Course {
        act: Act::Allocate,
        before: "1 open /a RDWR,CREAT
1 write 0 first",
        whole: "1 fallocate 0 1 3 PUNCH",
        told: None,
        refused: &[""],
    },
    Course {
        act: Act::Copy,
        before: "1 open /a RDWR,CREAT
1 write 0 first",
        whole: "1 pread 0 100 1
1 pwrite 0 irst 9",
        told: None,
        refused: &["", "1 pread 0 100 1"],
    },
    Course {
        act: Act::Seek,
        before: "1 open /a RDWR,CREAT
1 write 0 first",
        whole: "1 lseek 0 1 HOLE",
        told: None,
        refused: &[""],
    },
    Course {
        act: Act::Allocate,
        before: "1 open /a RDWR,CREAT
1 write 0 first
1 close 0
1 begin
1 open /a RDWR",
        whole: "1 fallocate 0 1 3 PUNCH",
        told: None,
        refused: &[""],
    },
    Course {
        act: Act::Copy,
        before: "1 open /a RDWR,CREAT
1 write 0 first
1 close 0
1 begin
1 open /a RDWR",
        whole: "1 pread 0 100 1
1 pwrite 0 irst 9",
        told: None,
        refused: &["", "1 pread 0 100 1"],
    },
    Course {
        act: Act::Seek,
        before: "1 open /a RDWR,CREAT
1 write 0 first
1 close 0
1 begin
1 open /a RDWR",
        whole: "1 lseek 0 1 HOLE",
        told: None,
        refused: &[""],
    },
    Course {
        act: Act::Append,
        before: "1 open /a RDWR,CREAT
1 write 0 first",
        whole: "1 fstat 0
1 pwrite 0 more 5",
        told: None,
        refused: &["1 fstat 0"],
    },
    Course {
        act: Act::Append,
        before: "1 open /a RDWR,CREAT
1 write 0 first
1 close 0
1 begin
1 open /a RDWR",
        whole: "1 fstat 0
1 pwrite 0 more 5",
        told: None,
        refused: &["", "1 fstat 0"],
    },
    Course {
        act: Act::Close,
        before: "1 open /a RDWR,CREAT
1 write 0 first",
        whole: "1 close 0",
        told: None,
        refused: &[""],
    },
    Course {
        act: Act::CloseSpare,
        before: "1 open /a RDWR,CREAT
1 write 0 first",
        whole: "1 close 0",
        told: None,
        refused: &[""],
    },
    Course {
        act: Act::CutIf,
        before: "1 open /a RDWR,CREAT
1 write 0 first",
        whole: "1 ftruncate 0 0",
        told: None,
        refused: &[""],
    },
    Course {
        act: Act::CutDropping,
        before: "1 open /a RDWR,CREAT
1 write 0 first
1 chmod /a 6755",
        whole: "1 fchown 0 - -
1 ftruncate 0 0",
        told: None,
        refused: &["", "1 fchown 0 - -"],
    },
    Course {
        act: Act::CutDropping,
        before: "1 open /a RDWR,CREAT
1 write 0 first
1 chmod /a 6755
1 close 0
1 begin
1 open /a RDWR",
        whole: "1 fchown 0 - -
1 ftruncate 0 0",
        told: None,
        refused: &["", "1 fchown 0 - -"],
    },
    Course {
        act: Act::DropIf,
        before: "1 open /a RDWR,CREAT
1 write 0 first",
        whole: "1 fstat 0",
        told: None,
        refused: &[],
    },
    Course {
        act: Act::DropIf,
        before: "1 open /a RDWR,CREAT
1 write 0 first
1 chmod /a 6755",
        whole: "1 fstat 0
1 fchown 0 - -",
        told: None,
        refused: &["1 fstat 0"],
    },
    Course {
        act: Act::DropIf,
        before: "1 open /a RDWR,CREAT
1 write 0 first
1 chmod /a 6755
1 close 0
1 begin
1 open /a RDWR",
        whole: "1 fstat 0
1 fchown 0 - -",
        told: None,
        refused: &["", "1 fstat 0"],
    },
    Course {
        act: Act::Read,
        before: "1 open /a RDWR,CREAT
1 write 0 first",
        whole: "1 pread 0 100 1",
        told: None,
        refused: &[""],
    },
    Course {
        act: Act::Read,
        before: "1 open /a RDWR,CREAT
1 write 0 first
1 close 0
1 begin
1 open /a RDWR",
        whole: "1 pread 0 100 1",
        told: None,
        refused: &[""],
    },
    Course {
        act: Act::StatFile,
        before: "1 open /a RDWR,CREAT
1 write 0 first",
        whole: "1 fstat 0",
        told: None,
        refused: &[],
    },
    Course {
        act: Act::StatFile,
        before: "1 open /a RDWR,CREAT
1 write 0 first
1 close 0
1 begin
1 open /a RDWR",
        whole: "1 fstat 0",
        told: None,
        refused: &[""],
    },
    Course {
        act: Act::Write,
        before: "1 open /a RDWR,CREAT
1 write 0 first",
        whole: "1 pwrite 0 other 2",
        told: None,
        refused: &[""],
    },
    Course {
        act: Act::Write,
        before: "1 open /a RDWR,CREAT
1 write 0 first
1 close 0
1 begin
1 open /a RDWR",
        whole: "1 pwrite 0 other 2",
        told: None,
        refused: &[""],
    },
];

static OPENS: [Course; 12] = [
    Course {
        act: Act::CreateCut,
        before: "",
        whole: "1 lstat /
1 open /a RDWR,CREAT,EXCL
1 fchown 0 1 2
1 fchmod 0 700
1 fstat 0",
        told: None,
        refused: &[
            "1 lstat /",
            "1 lstat /
1 open /a RDWR,CREAT,EXCL
1 close 0",
            "1 lstat /
1 open /a RDWR,CREAT,EXCL
1 fchown 0 1 2
1 close 0",
        ],
    },
    Course {
        act: Act::CreateCut,
        before: "1 open /a RDWR,CREAT
1 write 0 first
1 close 0",
        whole: "1 lstat /
1 open /a RDWR,CREAT,EXCL
1 open /a RDWR
1 fstat 0
1 ftruncate 0 0",
        told: None,
        refused: &[
            "1 lstat /
1 open /a RDWR,CREAT,EXCL",
            "1 lstat /
1 open /a RDWR,CREAT,EXCL
1 open /a RDWR
1 fstat 0
1 close 0",
        ],
    },
    Course {
        act: Act::CreateCut,
        before: "1 open /a RDWR,CREAT
1 write 0 first
1 close 0
1 begin",
        whole: "1 lstat /
1 open /a RDWR,CREAT,EXCL
1 open /a RDWR
1 fstat 0
1 ftruncate 0 0",
        told: None,
        refused: &[
            "",
            "1 lstat /",
            "1 lstat /
1 open /a RDWR,CREAT,EXCL",
            "1 lstat /
1 open /a RDWR,CREAT,EXCL
1 open /a RDWR
1 close 0",
            "1 lstat /
1 open /a RDWR,CREAT,EXCL
1 open /a RDWR
1 fstat 0
1 close 0",
        ],
    },
    Course {
        act: Act::CreateNew,
        before: "",
        whole: "1 lstat /
1 open /a RDWR,CREAT,EXCL
1 fchown 0 1 2
1 fchmod 0 700
1 fstat 0",
        told: None,
        refused: &[
            "1 lstat /",
            "1 lstat /
1 open /a RDWR,CREAT,EXCL
1 close 0",
            "1 lstat /
1 open /a RDWR,CREAT,EXCL
1 fchown 0 1 2
1 close 0",
        ],
    },
    Course {
        act: Act::CreateNew,
        before: "1 begin",
        whole: "1 lstat /
1 open /a RDWR,CREAT,EXCL
1 fchown 0 1 2
1 fchmod 0 700
1 fstat 0",
        told: None,
        refused: &[
            "",
            "1 lstat /",
            "1 lstat /
1 open /a RDWR,CREAT,EXCL
1 close 0",
            "1 lstat /
1 open /a RDWR,CREAT,EXCL
1 fchown 0 1 2
1 close 0",
            "1 lstat /
1 open /a RDWR,CREAT,EXCL
1 fchown 0 1 2
1 fchmod 0 700
1 close 0",
        ],
    },
    Course {
        act: Act::CreateNew,
        before: "1 open /a RDWR,CREAT
1 write 0 first
1 close 0",
        whole: "1 lstat /
1 open /a RDWR,CREAT,EXCL",
        told: None,
        refused: &[],
    },
    Course {
        act: Act::MakeFile,
        before: "",
        whole: "1 lstat /
1 open /a RDWR,CREAT,EXCL
1 fchown 0 1 2
1 fchmod 0 700
1 fstat 0
1 close 0",
        told: None,
        refused: &[
            "1 lstat /",
            "1 lstat /
1 open /a RDWR,CREAT,EXCL
1 close 0",
            "1 lstat /
1 open /a RDWR,CREAT,EXCL
1 fchown 0 1 2
1 close 0",
            "1 lstat /
1 open /a RDWR,CREAT,EXCL
1 fchown 0 1 2
1 fchmod 0 700
1 fstat 0",
        ],
    },
    Course {
        act: Act::MakeFile,
        before: "1 begin",
        whole: "1 lstat /
1 open /a RDWR,CREAT,EXCL
1 fchown 0 1 2
1 fchmod 0 700
1 fstat 0
1 close 0",
        told: None,
        refused: &[
            "",
            "1 lstat /",
            "1 lstat /
1 open /a RDWR,CREAT,EXCL
1 close 0",
            "1 lstat /
1 open /a RDWR,CREAT,EXCL
1 fchown 0 1 2
1 close 0",
            "1 lstat /
1 open /a RDWR,CREAT,EXCL
1 fchown 0 1 2
1 fchmod 0 700
1 close 0",
            "1 lstat /
1 open /a RDWR,CREAT,EXCL
1 fchown 0 1 2
1 fchmod 0 700
1 fstat 0",
        ],
    },
    Course {
        act: Act::OpenCut,
        before: "1 open /a RDWR,CREAT
1 write 0 first
1 close 0",
        whole: "1 open /a RDWR
1 fstat 0
1 ftruncate 0 0",
        told: None,
        refused: &[
            "",
            "1 open /a RDWR
1 fstat 0
1 close 0",
        ],
    },
    Course {
        act: Act::OpenCut,
        before: "1 open /a RDWR,CREAT
1 write 0 first
1 close 0
1 begin",
        whole: "1 open /a RDWR
1 fstat 0
1 ftruncate 0 0",
        told: None,
        refused: &[
            "",
            "1 open /a RDWR
1 close 0",
            "1 open /a RDWR
1 fstat 0
1 close 0",
        ],
    },
    Course {
        act: Act::OpenOther,
        before: "1 open /a RDWR,CREAT
1 write 0 first
1 close 0
1 open /b RDWR,CREAT
1 close 0",
        whole: "1 open /b RDWR
1 fstat 0
1 close 0",
        told: Some(
            "1 open /b RDWR
1 fstat 0",
        ),
        refused: &[""],
    },
    Course {
        act: Act::OpenOther,
        before: "1 open /a RDWR,CREAT
1 write 0 first
1 close 0
1 open /b RDWR,CREAT
1 close 0
1 begin",
        whole: "1 open /b RDWR
1 fstat 0
1 close 0",
        told: Some(
            "1 open /b RDWR
1 fstat 0",
        ),
        refused: &[
            "",
            "1 open /b RDWR
1 close 0",
        ],
    },
];

#[test]
fn courses_of_open_files(rt: HostRuntime) {
    let heap = heap::open(rt.alloc()).expect(&rt, "memory");
    check_courses::<Kernel>(&rt, heap, &FILES);
}

#[test]
fn courses_that_open_files(rt: HostRuntime) {
    let heap = heap::open(rt.alloc()).expect(&rt, "memory");
    check_courses::<Kernel>(&rt, heap, &OPENS);
}
