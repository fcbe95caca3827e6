// Rows of processes that are made and end.
use crate::row::Row;

pub(crate) static PROCESSES: [Row; 12] = [
    // A child sees what its parent has done.
    Row {
        script: "priorities 0
1 mkdir /a
1 fork
2 stat /a
",
        schedule: "1,1,2",
        limit: 100,
        transcript: "1 P1 mkdir /a -> ok
2 P1 fork -> child 2
3 P2 stat /a -> dir size 0 links 1
",
    },
    // A process that is not made yet, or has ended, does nothing, and its number is not given again.
    Row {
        script: "priorities 0
2 stat /
1 fork
2 stat /
2 exit
2 stat /
2 begin
2 exit
1 fork
2 end
3 fork
3 exit
4 stat /
",
        schedule: "2,1,2,2,2,2,2,1,2,3,3,4",
        limit: 100,
        transcript: "1 P2 stat / -> NoProcess
2 P1 fork -> child 2
3 P2 stat / -> dir size 0 links 1
4 P2 exit -> ok
5 P2 stat / -> NoProcess
6 P2 begin -> NoProcess
7 P2 exit -> NoProcess
8 P1 fork -> child 3
9 P2 end -> NoProcess
10 P3 fork -> child 4
11 P3 exit -> ok
12 P4 stat / -> dir size 0 links 1
",
    },
    // In a transaction neither fork nor exit is there.
    Row {
        script: "priorities 0 0
1 begin
1 fork
1 end
1 exit
1 stat /
",
        schedule: "1,1,1,1,1",
        limit: 100,
        transcript: "1 P1 begin -> begun
2 P1 fork -> ENOTSUP
3 P1 end -> committed
4 P1 exit -> ok
5 P1 stat / -> NoProcess
",
    },
    // They end a transaction that asks for it, and it is not begun anew.
    Row {
        script: "priorities 0 0
1 begin
1 fork
1 end
1 begin RESTART,ABORT_UNSUPPORTED
1 exit
1 end
1 exit
1 stat /
",
        schedule: "1,1,1,1,1,1,1,1",
        limit: 100,
        transcript: "1 P1 begin -> begun
2 P1 fork -> ENOTSUP
3 P1 end -> committed
4 P1 begin RESTART,ABORT_UNSUPPORTED -> begun
5 P1 exit -> aborted unsupported
6 P1 end -> NotInTransaction
7 P1 exit -> ok
8 P1 stat / -> NoProcess
",
    },
    // What such a transaction has changed is undone.
    Row {
        script: "priorities 0
1 begin RESTART
1 mkdir /a
1 fork
1 exit
1 end
1 begin ABORT_UNSUPPORTED
1 mkdir /b
1 exit
1 stat /b
1 begin RESTART,ABORT_UNSUPPORTED
1 rmdir /a
1 fork
1 end
1 list /
1 fork
2 list /
",
        schedule: "1,1,1,1,1,1,1,1,1,1,1,1,1,1,1,2",
        limit: 100,
        transcript: "1 P1 begin RESTART -> begun
2 P1 mkdir /a -> ok
3 P1 fork -> ENOTSUP
4 P1 exit -> ENOTSUP
5 P1 end -> committed
6 P1 begin ABORT_UNSUPPORTED -> begun
7 P1 mkdir /b -> ok
8 P1 exit -> aborted unsupported
9 P1 stat /b -> ENOENT
10 P1 begin RESTART,ABORT_UNSUPPORTED -> begun
11 P1 rmdir /a -> ok
12 P1 fork -> aborted unsupported
13 P1 end -> NotInTransaction
14 P1 list / -> names 1 a
15 P1 fork -> child 2
16 P2 list / -> names 1 a
",
    },
    // A doomed transaction is told so first.
    Row {
        script: "priorities 0 0
1 begin RESTART,ABORT_UNSUPPORTED
1 stat /a
2 mkdir /a
1 fork
1 fork
1 fork
",
        schedule: "1,1,2,1,1,1",
        limit: 100,
        transcript: "1 P1 begin RESTART,ABORT_UNSUPPORTED -> begun
2 P1 stat /a -> ENOENT
3 P2 mkdir /a -> ok dooms P1
4 P1 fork -> aborted entry a read by P2 restarted
5 P1 fork -> aborted unsupported
6 P1 fork -> child 3
",
    },
    // A child has its parent's priority.
    Row {
        script: "priorities 3 4
1 fork
2 fork
2 begin
2 stat /a
3 mkdir /a
2 end
1 begin
1 stat /a
4 mkdir /a
1 end
",
        schedule: "1,2,2,2,3,2,1,1,4,1",
        limit: 100,
        transcript: "1 P1 fork -> child 3
2 P2 fork -> child 4
3 P2 begin -> begun
4 P2 stat /a -> ENOENT
5 P3 mkdir /a -> busy entry a write by P2
6 P2 end -> committed
7 P1 begin -> begun
8 P1 stat /a -> ENOENT
9 P4 mkdir /a -> ok dooms P1
10 P1 end -> aborted entry a read by P4
",
    },
    // A child has its parent's descriptors, and shares their offsets.
    Row {
        script: "priorities 0
1 open /a RDWR,CREAT
1 write 0 abcd
1 fork
2 lseek 0 0 CUR
2 lseek 0 1 SET
1 read 0 2
2 read 0 2
1 close 0
2 lseek 0 0 CUR
2 open /b WRONLY,CREAT
1 open /b RDONLY
",
        schedule: "1,1,1,2,2,1,2,1,2,2,1",
        limit: 100,
        transcript: "1 P1 open /a RDWR,CREAT -> 0
2 P1 write 0 abcd -> 4
3 P1 fork -> child 2
4 P2 lseek 0 0 CUR -> 4
5 P2 lseek 0 1 SET -> 1
6 P1 read 0 2 -> 2 bc
7 P2 read 0 2 -> 1 d
8 P1 close 0 -> ok
9 P2 lseek 0 0 CUR -> 4
10 P2 open /b WRONLY,CREAT -> 1
11 P1 open /b RDONLY -> 0
",
    },
    // A transaction that has moved a shared offset loses against another's move.
    Row {
        script: "priorities 0
1 open /a RDWR,CREAT
1 write 0 ab
1 lseek 0 0 SET
1 fork
1 begin
1 read 0 1
2 lseek 0 1 SET
1 end
1 read 0 1
",
        schedule: "1,1,1,1,1,1,2,1,1",
        limit: 100,
        transcript: "1 P1 open /a RDWR,CREAT -> 0
2 P1 write 0 ab -> 2
3 P1 lseek 0 0 SET -> 0
4 P1 fork -> child 2
5 P1 begin -> begun
6 P1 read 0 1 -> 1 a
7 P2 lseek 0 1 SET -> 1 dooms P1
8 P1 end -> aborted offset write by P2
9 P1 read 0 1 -> 1 b
",
    },
    // A fork writes the ends of its pipes.
    Row {
        script: "priorities 0
1 pipe
1 fork
2 begin
2 read 0 1
1 fork
2 end
",
        schedule: "1,1,2,2,1,2",
        limit: 100,
        transcript: "1 P1 pipe -> 0 1
2 P1 fork -> child 2
3 P2 begin -> begun
4 P2 read 0 1 -> EAGAIN
5 P1 fork -> child 3 dooms P2
6 P2 end -> aborted ends read by P1
",
    },
    // An exit likewise.
    Row {
        script: "priorities 0
1 pipe
1 fork
2 begin
2 write 1 x
1 exit
2 end
2 write 1 y
2 read 0 5
",
        schedule: "1,1,2,2,1,2,2,2",
        limit: 100,
        transcript: "1 P1 pipe -> 0 1
2 P1 fork -> child 2
3 P2 begin -> begun
4 P2 write 1 x -> 1
5 P1 exit -> ok dooms P2
6 P2 end -> aborted ends read by P1
7 P2 write 1 y -> 1
8 P2 read 0 5 -> 1 y
",
    },
    // Files and pipes stay until the last process that has them ends.
    Row {
        script: "priorities 0 0
1 open /a RDWR,CREAT
1 pipe
1 unlink /a
1 fork
1 exit
3 fstat 0
3 write 2 x
3 read 1 9
3 exit
3 fstat 0
2 list /
",
        schedule: "1,1,1,1,1,3,3,3,3,3,2",
        limit: 100,
        transcript: "1 P1 open /a RDWR,CREAT -> 0
2 P1 pipe -> 1 2
3 P1 unlink /a -> ok
4 P1 fork -> child 3
5 P1 exit -> ok
6 P3 fstat 0 -> file size 0 links 0
7 P3 write 2 x -> 1
8 P3 read 1 9 -> 1 x
9 P3 exit -> ok
10 P3 fstat 0 -> NoProcess
11 P2 list / -> names 0
",
    },
];

// Rows after which the root alone is left, and a process.
pub(crate) static ENDED: [Row; 8] = [
    // Both ends are closed.
    Row {
        script: "priorities 0
1 pipe
1 write 1 abc
1 close 0
1 write 1 x
1 close 1
",
        schedule: "1,1,1,1,1",
        limit: 100,
        transcript: "1 P1 pipe -> 0 1
2 P1 write 1 abc -> 3
3 P1 close 0 -> ok
4 P1 write 1 x -> EPIPE
5 P1 close 1 -> ok
",
    },
    // The last holder ends.
    Row {
        script: "priorities 0
1 pipe
1 fork
1 close 0
1 close 1
2 write 1 abc
2 exit
",
        schedule: "1,1,1,1,2,2",
        limit: 100,
        transcript: "1 P1 pipe -> 0 1
2 P1 fork -> child 2
3 P1 close 0 -> ok
4 P1 close 1 -> ok
5 P2 write 1 abc -> 3
6 P2 exit -> ok
",
    },
    // A pipe that a transaction makes and closes.
    Row {
        script: "priorities 0
1 begin
1 pipe
1 write 1 abc
1 close 0
1 close 1
1 end
",
        schedule: "1,1,1,1,1,1",
        limit: 100,
        transcript: "1 P1 begin -> begun
2 P1 pipe -> 0 1
3 P1 write 1 abc -> 3
4 P1 close 0 -> ok
5 P1 close 1 -> ok
6 P1 end -> committed
",
    },
    // A pipe of a transaction that is given up.
    Row {
        script: "priorities 0
1 begin
1 pipe
1 write 1 abc
1 dup 1
1 abort
",
        schedule: "1,1,1,1,1",
        limit: 100,
        transcript: "1 P1 begin -> begun
2 P1 pipe -> 0 1
3 P1 write 1 abc -> 3
4 P1 dup 1 -> 2
5 P1 abort -> given up
",
    },
    // A pipe that a transaction closes.
    Row {
        script: "priorities 0
1 pipe
1 begin
1 write 1 abc
1 close 0
1 close 1
1 end
",
        schedule: "1,1,1,1,1,1",
        limit: 100,
        transcript: "1 P1 pipe -> 0 1
2 P1 begin -> begun
3 P1 write 1 abc -> 3
4 P1 close 0 -> ok
5 P1 close 1 -> ok
6 P1 end -> committed
",
    },
    // A transaction that closes both ends is doomed by an exit.
    Row {
        script: "priorities 0
1 pipe
1 fork
1 begin
1 close 0
1 close 1
2 exit
1 end
1 dup2 0 1
1 close 0
1 close 1
",
        schedule: "1,1,1,1,1,2,1,1,1,1",
        limit: 100,
        transcript: "1 P1 pipe -> 0 1
2 P1 fork -> child 2
3 P1 begin -> begun
4 P1 close 0 -> ok
5 P1 close 1 -> ok
6 P2 exit -> ok dooms P1
7 P1 end -> aborted ends write by P2
8 P1 dup2 0 1 -> 1
9 P1 close 0 -> ok
10 P1 close 1 -> ok
",
    },
    // A file without a name, whose last holder ends.
    Row {
        script: "priorities 0
1 open /a RDWR,CREAT
1 fork
1 unlink /a
1 close 0
2 write 0 abc
2 exit
",
        schedule: "1,1,1,1,2,2",
        limit: 100,
        transcript: "1 P1 open /a RDWR,CREAT -> 0
2 P1 fork -> child 2
3 P1 unlink /a -> ok
4 P1 close 0 -> ok
5 P2 write 0 abc -> 3
6 P2 exit -> ok
",
    },
    // Many shared descriptors of a process that ends.
    Row {
        script: "priorities 0
1 fork
2 open /a RDWR,CREAT
2 pipe
2 dup 0
2 dup2 2 63
2 fork
2 exit
3 unlink /a
3 exit
",
        schedule: "1,2,2,2,2,2,2,3,3",
        limit: 100,
        transcript: "1 P1 fork -> child 2
2 P2 open /a RDWR,CREAT -> 0
3 P2 pipe -> 1 2
4 P2 dup 0 -> 3
5 P2 dup2 2 63 -> 63
6 P2 fork -> child 3
7 P2 exit -> ok
8 P3 unlink /a -> ok
9 P3 exit -> ok
",
    },
];
