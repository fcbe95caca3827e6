// Courses on paths.
use crate::acts::Act;
use crate::courses::{Course, check_courses};
use kernel::Kernel;

static NAMES: [Course; 24] = [
    Course {
        act: Act::Link,
        before: "1 open /a RDWR,CREAT
1 write 0 first
1 close 0",
        whole: "1 lstat /a
1 link /a /b
1 lstat /b",
        told: None,
        refused: &["1 lstat /a"],
    },
    Course {
        act: Act::Link,
        before: "1 open /a RDWR,CREAT
1 write 0 first
1 close 0
1 begin",
        whole: "1 lstat /a
1 link /a /b
1 lstat /b",
        told: None,
        refused: &[
            "",
            "1 lstat /a",
            "1 lstat /a
1 link /a /b",
        ],
    },
    Course {
        act: Act::List,
        before: "1 mkdir /a
1 mkdir /a/b",
        whole: "1 list /a",
        told: None,
        refused: &[""],
    },
    Course {
        act: Act::MakeDirectory,
        before: "",
        whole: "1 lstat /
1 mkdir /a
1 chown /a 1 2
1 chmod /a 700
1 lstat /a",
        told: None,
        refused: &[
            "1 lstat /",
            "1 lstat /
1 mkdir /a",
            "1 lstat /
1 mkdir /a
1 chown /a 1 2",
        ],
    },
    Course {
        act: Act::MakeDirectory,
        before: "1 begin",
        whole: "1 lstat /
1 mkdir /a
1 chown /a 1 2
1 chmod /a 700
1 lstat /a",
        told: None,
        refused: &[
            "",
            "1 lstat /",
            "1 lstat /
1 mkdir /a",
            "1 lstat /
1 mkdir /a
1 chown /a 1 2",
            "1 lstat /
1 mkdir /a
1 chown /a 1 2
1 chmod /a 700",
        ],
    },
    Course {
        act: Act::MakeDirectory,
        before: "1 chown / - 5
1 chmod / 3777",
        whole: "1 lstat /
1 mkdir /a
1 chown /a 1 5
1 chmod /a 2700
1 lstat /a",
        told: None,
        refused: &[
            "1 lstat /",
            "1 lstat /
1 mkdir /a",
            "1 lstat /
1 mkdir /a
1 chown /a 1 5",
        ],
    },
    Course {
        act: Act::MakeFifo,
        before: "",
        whole: "1 lstat /
1 mknod /a fifo
1 chown /a 1 2
1 chmod /a 700
1 lstat /a",
        told: None,
        refused: &[
            "1 lstat /",
            "1 lstat /
1 mknod /a fifo",
            "1 lstat /
1 mknod /a fifo
1 chown /a 1 2",
        ],
    },
    Course {
        act: Act::MakeFifo,
        before: "1 begin",
        whole: "1 lstat /
1 mknod /a fifo
1 chown /a 1 2
1 chmod /a 700
1 lstat /a",
        told: None,
        refused: &[
            "",
            "1 lstat /",
            "1 lstat /
1 mknod /a fifo",
            "1 lstat /
1 mknod /a fifo
1 chown /a 1 2",
            "1 lstat /
1 mknod /a fifo
1 chown /a 1 2
1 chmod /a 700",
        ],
    },
    Course {
        act: Act::MakeLink,
        before: "",
        whole: "1 lstat /
1 symlink /b /a
1 chown /a 1 2
1 lstat /a",
        told: None,
        refused: &[
            "1 lstat /",
            "1 lstat /
1 symlink /b /a",
        ],
    },
    Course {
        act: Act::MakeLink,
        before: "1 begin",
        whole: "1 lstat /
1 symlink /b /a
1 chown /a 1 2
1 lstat /a",
        told: None,
        refused: &[
            "",
            "1 lstat /",
            "1 lstat /
1 symlink /b /a",
            "1 lstat /
1 symlink /b /a
1 chown /a 1 2",
        ],
    },
    Course {
        act: Act::MakeLink,
        before: "1 chown / - 5
1 chmod / 2755",
        whole: "1 lstat /
1 symlink /b /a
1 chown /a 1 5
1 lstat /a",
        told: None,
        refused: &[
            "1 lstat /",
            "1 lstat /
1 symlink /b /a",
        ],
    },
    Course {
        act: Act::Move,
        before: "1 open /a RDWR,CREAT
1 write 0 first
1 close 0",
        whole: "1 rename /a /b",
        told: None,
        refused: &[""],
    },
    Course {
        act: Act::Move,
        before: "1 open /a RDWR,CREAT
1 write 0 first
1 close 0
1 begin",
        whole: "1 rename /a /b",
        told: None,
        refused: &[""],
    },
    Course {
        act: Act::Exchange,
        before: "1 open /a RDWR,CREAT
1 write 0 first
1 close 0
1 mkdir /b",
        whole: "1 exchange /a /b",
        told: None,
        refused: &[""],
    },
    Course {
        act: Act::Exchange,
        before: "1 open /a RDWR,CREAT
1 write 0 first
1 close 0
1 mkdir /b
1 begin",
        whole: "1 exchange /a /b",
        told: None,
        refused: &[""],
    },
    Course {
        act: Act::MoveIfAbsent,
        before: "1 open /a RDWR,CREAT
1 write 0 first
1 close 0",
        whole: "1 lstat /b
1 rename /a /b",
        told: None,
        refused: &["1 lstat /b"],
    },
    Course {
        act: Act::MoveIfAbsent,
        before: "1 open /a RDWR,CREAT
1 write 0 first
1 close 0
1 begin",
        whole: "1 lstat /b
1 rename /a /b",
        told: None,
        refused: &["", "1 lstat /b"],
    },
    Course {
        act: Act::MoveIfAbsent,
        before: "1 open /a RDWR,CREAT
1 write 0 first
1 close 0
1 open /b RDWR,CREAT
1 close 0",
        whole: "1 lstat /b",
        told: None,
        refused: &[],
    },
    Course {
        act: Act::RemoveDirectory,
        before: "1 mkdir /a",
        whole: "1 rmdir /a",
        told: None,
        refused: &[""],
    },
    Course {
        act: Act::RemoveDirectory,
        before: "1 mkdir /a
1 begin",
        whole: "1 rmdir /a",
        told: None,
        refused: &[""],
    },
    Course {
        act: Act::LookUp,
        before: "1 mkdir /a",
        whole: "1 lstat /a",
        told: None,
        refused: &[],
    },
    Course {
        act: Act::LookUp,
        before: "1 mkdir /a
1 begin",
        whole: "1 lstat /a",
        told: None,
        refused: &[""],
    },
    Course {
        act: Act::Unlink,
        before: "1 open /a RDWR,CREAT
1 write 0 first
1 close 0",
        whole: "1 unlink /a",
        told: None,
        refused: &[""],
    },
    Course {
        act: Act::Unlink,
        before: "1 open /a RDWR,CREAT
1 write 0 first
1 close 0
1 begin",
        whole: "1 unlink /a",
        told: None,
        refused: &[""],
    },
];

#[test]
fn courses_of_names(rt: HostRuntime) {
    let heap = heap::open(rt.alloc()).expect(&rt, "memory");
    check_courses::<Kernel>(&rt, heap, &NAMES);
}
