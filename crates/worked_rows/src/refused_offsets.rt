// Each request for memory refused once, in reads and writes at an offset.
use crate::refused::{Part, Refused, assert_right};
use kernel::Kernel;
use std::test::Fail;

static PLACES: [Refused; 7] = [
    // A plain read.
    Refused {
        before: Part {
            script: "priorities 0 0
1 open /a RDWR,CREAT
1 write 0 hello
",
            schedule: "1,1",
        },
        step: Part {
            script: "priorities 0 0
1 pread 0 3 1
",
            schedule: "1",
        },
        after: Part {
            script: "priorities 0 0
1 pread 0 9 4
1 lseek 0 0 CUR
",
            schedule: "1,1",
        },
        transcript: "1 P1 open /a RDWR,CREAT -> 0
2 P1 write 0 hello -> 5
3 P1 pread 0 3 1 -> 3 ell
4 P1 pread 0 9 4 -> 1 o
5 P1 lseek 0 0 CUR -> 5
",
        requests: 1,
    },
    // A transaction's read, whose block is noted.
    Refused {
        before: Part {
            script: "priorities 0 0
1 open /a RDWR,CREAT
1 write 0 hello
2 open /a RDWR
1 begin
",
            schedule: "1,1,2,1",
        },
        step: Part {
            script: "priorities 0 0
1 pread 0 3 1
",
            schedule: "1",
        },
        after: Part {
            script: "priorities 0 0
2 pwrite 0 J 0
1 end
1 pread 0 9 0
",
            schedule: "2,1,1",
        },
        transcript: "1 P1 open /a RDWR,CREAT -> 0
2 P1 write 0 hello -> 5
3 P2 open /a RDWR -> 0
4 P1 begin -> begun
5 P1 pread 0 3 1 -> 3 ell
6 P2 pwrite 0 J 0 -> 1 dooms P1
7 P1 end -> aborted block 0 read by P2
8 P1 pread 0 9 0 -> 5 Jello
",
        requests: 7,
    },
    // A plain write behind a gap.
    Refused {
        before: Part {
            script: "priorities 0 0
1 open /a RDWR,CREAT
1 write 0 hi
",
            schedule: "1,1",
        },
        step: Part {
            script: "priorities 0 0
1 pwrite 0 xyz 4
",
            schedule: "1",
        },
        after: Part {
            script: "priorities 0 0
1 pread 0 9 0
1 lseek 0 0 CUR
",
            schedule: "1,1",
        },
        transcript: "1 P1 open /a RDWR,CREAT -> 0
2 P1 write 0 hi -> 2
3 P1 pwrite 0 xyz 4 -> 3
4 P1 pread 0 9 0 -> 7 hi\\x00\\x00xyz
5 P1 lseek 0 0 CUR -> 2
",
        requests: 2,
    },
    // A plain write inside a file that dooms a reader.
    Refused {
        before: Part {
            script: "priorities 0 0
1 open /a RDWR,CREAT
1 write 0 hello
2 open /a RDWR
1 begin
1 pread 0 9 0
",
            schedule: "1,1,2,1,1",
        },
        step: Part {
            script: "priorities 0 0
2 pwrite 0 J 0
",
            schedule: "2",
        },
        after: Part {
            script: "priorities 0 0
1 end
2 pread 0 9 0
",
            schedule: "1,2",
        },
        transcript: "1 P1 open /a RDWR,CREAT -> 0
2 P1 write 0 hello -> 5
3 P2 open /a RDWR -> 0
4 P1 begin -> begun
5 P1 pread 0 9 0 -> 5 hello
6 P2 pwrite 0 J 0 -> 1 dooms P1
7 P1 end -> aborted block 0 read by P2
8 P2 pread 0 9 0 -> 5 Jello
",
        requests: 8,
    },
    // A transaction's write over the border of two blocks.
    Refused {
        before: Part {
            script: "priorities 0 0
1 open /a RDWR,CREAT
1 write 0 hi
1 begin
",
            schedule: "1,1,1",
        },
        step: Part {
            script: "priorities 0 0
1 pwrite 0 xyz 1022
",
            schedule: "1",
        },
        after: Part {
            script: "priorities 0 0
1 pread 0 9 1021
2 stat /a
1 end
1 pread 0 9 1021
1 lseek 0 0 CUR
",
            schedule: "1,2,1,1,1",
        },
        transcript: "1 P1 open /a RDWR,CREAT -> 0
2 P1 write 0 hi -> 2
3 P1 begin -> begun
4 P1 pwrite 0 xyz 1022 -> 3
5 P1 pread 0 9 1021 -> 4 \\x00xyz
6 P2 stat /a -> file size 2 links 1
7 P1 end -> committed
8 P1 pread 0 9 1021 -> 4 \\x00xyz
9 P1 lseek 0 0 CUR -> 2
",
        requests: 14,
    },
    // A transaction's write of many bytes into what it has changed.
    Refused {
        before: Part {
            script: "priorities 0 0
1 open /a RDWR,CREAT
1 begin
1 pwrite 0 abcdef 0
",
            schedule: "1,1,1",
        },
        step: Part {
            script: "priorities 0 0
1 pfill 0 3 7a 1
",
            schedule: "1",
        },
        after: Part {
            script: "priorities 0 0
1 end
1 pread 0 9 0
",
            schedule: "1,1",
        },
        transcript: "1 P1 open /a RDWR,CREAT -> 0
2 P1 begin -> begun
3 P1 pwrite 0 abcdef 0 -> 6
4 P1 pwrite 0 zzz 1 -> 3
5 P1 end -> committed
6 P1 pread 0 9 0 -> 6 azzzef
",
        requests: 2,
    },
    // A read behind the end, which notes the length.
    Refused {
        before: Part {
            script: "priorities 0 0
1 open /a RDWR,CREAT
1 begin
",
            schedule: "1,1",
        },
        step: Part {
            script: "priorities 0 0
1 pread 0 9 7
",
            schedule: "1",
        },
        after: Part {
            script: "priorities 0 0
2 truncate /a 1
1 end
",
            schedule: "2,1",
        },
        transcript: "1 P1 open /a RDWR,CREAT -> 0
2 P1 begin -> begun
3 P1 pread 0 9 7 -> 0 \\e
4 P2 truncate /a 1 -> ok dooms P1
5 P1 end -> aborted size read by P2
",
        requests: 6,
    },
];

#[test]
fn refused_calls_at_offsets_change_nothing(rt: HostRuntime) -> Result<(), Fail> {
    assert_right::<Kernel>(&rt, heap::open(rt.alloc())?, &PLACES)
}
