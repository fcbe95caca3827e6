// Each request for memory refused once, in calls on directories and files.
use crate::refused::{Part, Refused, assert_right};
use kernel::Kernel;
use std::test::Fail;

static FILES: [Refused; 16] = [
    // A call that dooms a reader.
    Refused {
        before: Part {
            script: "priorities 0 0
1 begin
1 stat /a
",
            schedule: "1,1",
        },
        step: Part {
            script: "priorities 0 0
2 mkdir /a
",
            schedule: "2",
        },
        after: Part {
            script: "priorities 0 0
1 end
",
            schedule: "1",
        },
        transcript: "1 P1 begin -> begun
2 P1 stat /a -> ENOENT
3 P2 mkdir /a -> ok dooms P1
4 P1 end -> aborted entry a read by P2
",
        requests: 12,
    },
    // A call of a transaction.
    Refused {
        before: Part {
            script: "priorities 0 0
1 begin
",
            schedule: "1",
        },
        step: Part {
            script: "priorities 0 0
1 mkdir /a
",
            schedule: "1",
        },
        after: Part {
            script: "priorities 0 0
1 end
2 stat /a
",
            schedule: "1,2",
        },
        transcript: "1 P1 begin -> begun
2 P1 mkdir /a -> ok
3 P1 end -> committed
4 P2 stat /a -> dir size 0 links 1
",
        requests: 19,
    },
    // A call in a directory that the same transaction has made.
    Refused {
        before: Part {
            script: "priorities 0 0
1 begin
1 mkdir /a
",
            schedule: "1,1",
        },
        step: Part {
            script: "priorities 0 0
1 mkdir /a/b
",
            schedule: "1",
        },
        after: Part {
            script: "priorities 0 0
1 end
2 list /a
",
            schedule: "1,2",
        },
        transcript: "1 P1 begin -> begun
2 P1 mkdir /a -> ok
3 P1 mkdir /a/b -> ok
4 P1 end -> committed
5 P2 list /a -> names 1 b
",
        requests: 10,
    },
    // A directory is removed by a plain call.
    Refused {
        before: Part {
            script: "priorities 0 0
1 mkdir /a
",
            schedule: "1",
        },
        step: Part {
            script: "priorities 0 0
1 rmdir /a
",
            schedule: "1",
        },
        after: Part {
            script: "priorities 0 0
2 list /
",
            schedule: "2",
        },
        transcript: "1 P1 mkdir /a -> ok
2 P1 rmdir /a -> ok
3 P2 list / -> names 0
",
        requests: 1,
    },
    // And by a transaction.
    Refused {
        before: Part {
            script: "priorities 0 0
1 mkdir /a
1 begin
",
            schedule: "1,1",
        },
        step: Part {
            script: "priorities 0 0
1 rmdir /a
",
            schedule: "1",
        },
        after: Part {
            script: "priorities 0 0
2 list /
1 end
2 list /
",
            schedule: "2,1,2",
        },
        transcript: "1 P1 mkdir /a -> ok
2 P1 begin -> begun
3 P1 rmdir /a -> ok
4 P2 list / -> names 1 a
5 P1 end -> committed
6 P2 list / -> names 0
",
        requests: 16,
    },
    // Two names are listed.
    Refused {
        before: Part {
            script: "priorities 0 0
1 mkdir /a
1 mkdir /b
",
            schedule: "1,1",
        },
        step: Part {
            script: "priorities 0 0
2 list /
",
            schedule: "2",
        },
        after: Part {
            script: "priorities 0 0
1 rmdir /a
2 list /
",
            schedule: "1,2",
        },
        transcript: "1 P1 mkdir /a -> ok
2 P1 mkdir /b -> ok
3 P2 list / -> names 2 a b
4 P1 rmdir /a -> ok
5 P2 list / -> names 1 b
",
        requests: 2,
    },
    // A plain call makes a file and opens it.
    Refused {
        before: Part {
            script: "priorities 0 0
",
            schedule: "",
        },
        step: Part {
            script: "priorities 0 0
1 open /a RDWR,CREAT
",
            schedule: "1",
        },
        after: Part {
            script: "priorities 0 0
1 fstat 0
",
            schedule: "1",
        },
        transcript: "1 P1 open /a RDWR,CREAT -> 0
2 P1 fstat 0 -> file size 0 links 1
",
        requests: 5,
    },
    // So does a transaction.
    Refused {
        before: Part {
            script: "priorities 0 0
1 begin
",
            schedule: "1",
        },
        step: Part {
            script: "priorities 0 0
1 open /a RDWR,CREAT
",
            schedule: "1",
        },
        after: Part {
            script: "priorities 0 0
1 end
1 fstat 0
",
            schedule: "1,1",
        },
        transcript: "1 P1 begin -> begun
2 P1 open /a RDWR,CREAT -> 0
3 P1 end -> committed
4 P1 fstat 0 -> file size 0 links 1
",
        requests: 21,
    },
    // A plain call writes into a file.
    Refused {
        before: Part {
            script: "priorities 0 0
1 open /a RDWR,CREAT
",
            schedule: "1",
        },
        step: Part {
            script: "priorities 0 0
1 write 0 hi
",
            schedule: "1",
        },
        after: Part {
            script: "priorities 0 0
1 lseek 0 0 SET
1 read 0 5
",
            schedule: "1,1",
        },
        transcript: "1 P1 open /a RDWR,CREAT -> 0
2 P1 write 0 hi -> 2
3 P1 lseek 0 0 SET -> 0
4 P1 read 0 5 -> 2 hi
",
        requests: 4,
    },
    // So does a transaction.
    Refused {
        before: Part {
            script: "priorities 0 0
1 open /a RDWR,CREAT
1 begin
",
            schedule: "1,1",
        },
        step: Part {
            script: "priorities 0 0
1 write 0 hi
",
            schedule: "1",
        },
        after: Part {
            script: "priorities 0 0
1 write 0 !
1 end
1 lseek 0 0 SET
1 read 0 5
",
            schedule: "1,1,1,1",
        },
        transcript: "1 P1 open /a RDWR,CREAT -> 0
2 P1 begin -> begun
3 P1 write 0 hi -> 2
4 P1 write 0 ! -> 1
5 P1 end -> committed
6 P1 lseek 0 0 SET -> 0
7 P1 read 0 5 -> 3 hi!
",
        requests: 17,
    },
    // A transaction lengthens a file that it has cut.
    Refused {
        before: Part {
            script: "priorities 0 0
1 open /a RDWR,CREAT
1 write 0 hi
1 begin
1 ftruncate 0 1
",
            schedule: "1,1,1,1",
        },
        step: Part {
            script: "priorities 0 0
1 ftruncate 0 3
",
            schedule: "1",
        },
        after: Part {
            script: "priorities 0 0
1 end
1 lseek 0 0 SET
1 read 0 5
",
            schedule: "1,1,1",
        },
        transcript: "1 P1 open /a RDWR,CREAT -> 0
2 P1 write 0 hi -> 2
3 P1 begin -> begun
4 P1 ftruncate 0 1 -> ok
5 P1 ftruncate 0 3 -> ok
6 P1 end -> committed
7 P1 lseek 0 0 SET -> 0
8 P1 read 0 5 -> 3 h\\x00\\x00
",
        requests: 2,
    },
    // A transaction closes a descriptor.
    Refused {
        before: Part {
            script: "priorities 0 0
1 open /a RDWR,CREAT
1 begin
",
            schedule: "1,1",
        },
        step: Part {
            script: "priorities 0 0
1 close 0
",
            schedule: "1",
        },
        after: Part {
            script: "priorities 0 0
1 end
1 fstat 0
",
            schedule: "1,1",
        },
        transcript: "1 P1 open /a RDWR,CREAT -> 0
2 P1 begin -> begun
3 P1 close 0 -> ok
4 P1 end -> committed
5 P1 fstat 0 -> EBADF
",
        requests: 2,
    },
    // A plain call cuts a file by its name, and dooms who has asked for its length.
    Refused {
        before: Part {
            script: "priorities 0 0
1 open /a RDWR,CREAT
1 write 0 hi
1 begin
1 stat /a
",
            schedule: "1,1,1,1",
        },
        step: Part {
            script: "priorities 0 0
2 truncate /a 1
",
            schedule: "2",
        },
        after: Part {
            script: "priorities 0 0
1 end
2 stat /a
",
            schedule: "1,2",
        },
        transcript: "1 P1 open /a RDWR,CREAT -> 0
2 P1 write 0 hi -> 2
3 P1 begin -> begun
4 P1 stat /a -> file size 2 links 1
5 P2 truncate /a 1 -> ok dooms P1
6 P1 end -> aborted size read by P2
7 P2 stat /a -> file size 1 links 1
",
        requests: 8,
    },
    // A transaction cuts one so.
    Refused {
        before: Part {
            script: "priorities 0 0
1 open /a RDWR,CREAT
1 write 0 hi
1 begin
",
            schedule: "1,1,1",
        },
        step: Part {
            script: "priorities 0 0
1 truncate /a 1
",
            schedule: "1",
        },
        after: Part {
            script: "priorities 0 0
1 fstat 0
2 stat /a
1 end
2 stat /a
",
            schedule: "1,2,1,2",
        },
        transcript: "1 P1 open /a RDWR,CREAT -> 0
2 P1 write 0 hi -> 2
3 P1 begin -> begun
4 P1 truncate /a 1 -> ok
5 P1 fstat 0 -> file size 1 links 1
6 P2 stat /a -> file size 2 links 1
7 P1 end -> committed
8 P2 stat /a -> file size 1 links 1
",
        requests: 8,
    },
    // And lengthens it again.
    Refused {
        before: Part {
            script: "priorities 0 0
1 open /a RDWR,CREAT
1 write 0 hi
1 begin
1 truncate /a 1
",
            schedule: "1,1,1,1",
        },
        step: Part {
            script: "priorities 0 0
1 truncate /a 3
",
            schedule: "1",
        },
        after: Part {
            script: "priorities 0 0
1 end
1 lseek 0 0 SET
1 read 0 5
",
            schedule: "1,1,1",
        },
        transcript: "1 P1 open /a RDWR,CREAT -> 0
2 P1 write 0 hi -> 2
3 P1 begin -> begun
4 P1 truncate /a 1 -> ok
5 P1 truncate /a 3 -> ok
6 P1 end -> committed
7 P1 lseek 0 0 SET -> 0
8 P1 read 0 5 -> 3 h\\x00\\x00
",
        requests: 2,
    },
    // A name that is not there is noted.
    Refused {
        before: Part {
            script: "priorities 0 0
1 begin
",
            schedule: "1",
        },
        step: Part {
            script: "priorities 0 0
1 truncate /a 0
",
            schedule: "1",
        },
        after: Part {
            script: "priorities 0 0
2 open /a WRONLY,CREAT
1 end
",
            schedule: "2,1",
        },
        transcript: "1 P1 begin -> begun
2 P1 truncate /a 0 -> ENOENT
3 P2 open /a WRONLY,CREAT -> 0 dooms P1
4 P1 end -> aborted entry a read by P2
",
        requests: 6,
    },
];

#[test]
fn refused_calls_on_files_change_nothing(rt: HostRuntime) -> Result<(), Fail> {
    assert_right::<Kernel>(&rt, heap::open(rt.alloc())?, &FILES)
}
