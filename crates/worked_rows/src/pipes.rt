// Rows of pipes.
use crate::row::Row;

pub(crate) static PIPES: [Row; 11] = [
    // Of a write in a transaction another sees nothing before the commit.
    Row {
        script: "priorities 0
1 pipe
1 fork
1 begin
1 write 1 abc
2 read 0 10
1 end
2 read 0 10
",
        schedule: "1,1,1,1,2,1,2",
        limit: 100,
        transcript: "1 P1 pipe -> 0 1
2 P1 fork -> child 2
3 P1 begin -> begun
4 P1 write 1 abc -> 3
5 P2 read 0 10 -> EAGAIN
6 P1 end -> committed
7 P2 read 0 10 -> 3 abc
",
    },
    // A read that finds a pipe empty asks who can write, and loses against a close of that end.
    Row {
        script: "priorities 0
1 pipe
1 fork
2 begin
2 read 0 1
1 close 1
2 end
",
        schedule: "1,1,2,2,1,2",
        limit: 100,
        transcript: "1 P1 pipe -> 0 1
2 P1 fork -> child 2
3 P2 begin -> begun
4 P2 read 0 1 -> EAGAIN
5 P1 close 1 -> ok dooms P2
6 P2 end -> aborted ends read by P1
",
    },
    // Nobody reads.
    Row {
        script: "priorities 0 0
1 pipe
1 close 0
1 write 1 x
1 lseek 1 0 SET
1 fstat 1
",
        schedule: "1,1,1,1,1",
        limit: 100,
        transcript: "1 P1 pipe -> 0 1
2 P1 close 0 -> ok
3 P1 write 1 x -> EPIPE
4 P1 lseek 1 0 SET -> ESPIPE
5 P1 fstat 1 -> pipe size 0 links 0
",
    },
    // Each end has its own direction, and a pipe has no offset and no length.
    Row {
        script: "priorities 0
1 pipe
1 read 1 1
1 write 0 x
1 read 0 0
1 write 1 \\e
1 lseek 0 0 END
1 ftruncate 1 0
1 ftruncate 0 0
1 fstat 0
1 write 1 ab\\x00
1 read 0 1
1 read 0 9
1 read 0 9
",
        schedule: "1,1,1,1,1,1,1,1,1,1,1,1,1",
        limit: 100,
        transcript: "1 P1 pipe -> 0 1
2 P1 read 1 1 -> EBADF
3 P1 write 0 x -> EBADF
4 P1 read 0 0 -> 0 \\e
5 P1 write 1 \\e -> 0
6 P1 lseek 0 0 END -> ESPIPE
7 P1 ftruncate 1 0 -> EINVAL
8 P1 ftruncate 0 0 -> EBADF
9 P1 fstat 0 -> pipe size 0 links 0
10 P1 write 1 ab\\x00 -> 3
11 P1 read 0 1 -> 1 a
12 P1 read 0 9 -> 2 b\\x00
13 P1 read 0 9 -> EAGAIN
",
    },
    // A write end is open while some process has it: then an empty pipe is asked again, and else it
    // has ended.
    Row {
        script: "priorities 0
1 pipe
1 read 0 5
1 fork
1 close 1
1 read 0 5
2 write 1 ab
2 close 1
1 read 0 5
1 read 0 5
1 close 0
2 read 0 5
",
        schedule: "1,1,1,1,1,2,2,1,1,1,2",
        limit: 100,
        transcript: "1 P1 pipe -> 0 1
2 P1 read 0 5 -> EAGAIN
3 P1 fork -> child 2
4 P1 close 1 -> ok
5 P1 read 0 5 -> EAGAIN
6 P2 write 1 ab -> 2
7 P2 close 1 -> ok
8 P1 read 0 5 -> 2 ab
9 P1 read 0 5 -> 0 \\e
10 P1 close 0 -> ok
11 P2 read 0 5 -> 0 \\e
",
    },
    // A read end likewise: a write that nobody can read is refused.
    Row {
        script: "priorities 0
1 pipe
1 fork
1 close 0
1 write 1 ab
2 close 0
1 write 1 ab
2 write 1 c
2 write 1 \\e
2 exit
1 fstat 1
",
        schedule: "1,1,1,1,2,1,2,2,2,1",
        limit: 100,
        transcript: "1 P1 pipe -> 0 1
2 P1 fork -> child 2
3 P1 close 0 -> ok
4 P1 write 1 ab -> 2
5 P2 close 0 -> ok
6 P1 write 1 ab -> EPIPE
7 P2 write 1 c -> EPIPE
8 P2 write 1 \\e -> 0
9 P2 exit -> ok
10 P1 fstat 1 -> pipe size 0 links 0
",
    },
    // A shared end is one end, open until its last descriptor is closed.
    Row {
        script: "priorities 0
1 pipe
1 dup 1
1 close 1
1 read 0 1
1 write 2 x
1 close 2
1 read 0 9
1 read 0 9
",
        schedule: "1,1,1,1,1,1,1,1",
        limit: 100,
        transcript: "1 P1 pipe -> 0 1
2 P1 dup 1 -> 2
3 P1 close 1 -> ok
4 P1 read 0 1 -> EAGAIN
5 P1 write 2 x -> 1
6 P1 close 2 -> ok
7 P1 read 0 9 -> 1 x
8 P1 read 0 9 -> 0 \\e
",
    },
    // What takes the place of an end closes it.
    Row {
        script: "priorities 0
1 pipe
1 open /a RDWR,CREAT
1 dup2 2 1
1 read 0 1
1 write 1 x
1 stat /a
",
        schedule: "1,1,1,1,1,1",
        limit: 100,
        transcript: "1 P1 pipe -> 0 1
2 P1 open /a RDWR,CREAT -> 2
3 P1 dup2 2 1 -> 1
4 P1 read 0 1 -> 0 \\e
5 P1 write 1 x -> 1
6 P1 stat /a -> file size 1 links 1
",
    },
    // A pipe of a transaction that is given up leaves nothing.
    Row {
        script: "priorities 0
1 begin
1 pipe
1 write 1 abc
1 read 0 2
1 abort
1 fstat 0
1 open /a RDWR,CREAT
1 begin
1 pipe
1 write 2 abc
1 end
1 read 1 9
1 fstat 2
",
        schedule: "1,1,1,1,1,1,1,1,1,1,1,1,1",
        limit: 100,
        transcript: "1 P1 begin -> begun
2 P1 pipe -> 0 1
3 P1 write 1 abc -> 3
4 P1 read 0 2 -> 2 ab
5 P1 abort -> given up
6 P1 fstat 0 -> EBADF
7 P1 open /a RDWR,CREAT -> 0
8 P1 begin -> begun
9 P1 pipe -> 1 2
10 P1 write 2 abc -> 3
11 P1 end -> committed
12 P1 read 1 9 -> 3 abc
13 P1 fstat 2 -> pipe size 0 links 0
",
    },
    // What a transaction has taken is there again when it is given up, and what it has written is
    // gone.
    Row {
        script: "priorities 0
1 pipe
1 write 1 abc
1 begin
1 read 0 2
1 write 1 d
1 read 0 9
1 abort
1 read 0 9
1 begin
1 write 1 xy
1 read 0 1
1 end
1 read 0 9
",
        schedule: "1,1,1,1,1,1,1,1,1,1,1,1,1",
        limit: 100,
        transcript: "1 P1 pipe -> 0 1
2 P1 write 1 abc -> 3
3 P1 begin -> begun
4 P1 read 0 2 -> 2 ab
5 P1 write 1 d -> 1
6 P1 read 0 9 -> 2 cd
7 P1 abort -> given up
8 P1 read 0 9 -> 3 abc
9 P1 begin -> begun
10 P1 write 1 xy -> 2
11 P1 read 0 1 -> 1 x
12 P1 end -> committed
13 P1 read 0 9 -> 1 y
",
    },
    // An end that a transaction closes is closed for others when it commits.
    Row {
        script: "priorities 0
1 pipe
1 fork
2 close 1
1 begin
1 close 1
1 write 1 x
2 read 0 1
1 end
2 read 0 1
",
        schedule: "1,1,2,1,1,1,2,1,2",
        limit: 100,
        transcript: "1 P1 pipe -> 0 1
2 P1 fork -> child 2
3 P2 close 1 -> ok
4 P1 begin -> begun
5 P1 close 1 -> ok
6 P1 write 1 x -> EBADF
7 P2 read 0 1 -> EAGAIN
8 P1 end -> committed
9 P2 read 0 1 -> 0 \\e
",
    },
];

// Rows of the two halves of a pipe: its front, from which is read, and its back, to which is written.
pub(crate) static HALVES: [Row; 6] = [
    // A reader and a writer of one pipe run side by side.
    Row {
        script: "priorities 0
1 pipe
1 fork
1 write 1 abcde
1 begin
2 begin
1 read 0 3
2 write 1 xy
2 end
1 end
1 read 0 9
",
        schedule: "1,1,1,1,2,1,2,2,1,1",
        limit: 100,
        transcript: "1 P1 pipe -> 0 1
2 P1 fork -> child 2
3 P1 write 1 abcde -> 5
4 P1 begin -> begun
5 P2 begin -> begun
6 P1 read 0 3 -> 3 abc
7 P2 write 1 xy -> 2
8 P2 end -> committed
9 P1 end -> committed
10 P1 read 0 9 -> 4 dexy
",
    },
    // The other order of the commits.
    Row {
        script: "priorities 0
1 pipe
1 fork
1 write 1 abcde
1 begin
2 begin
1 read 0 5
2 write 1 xy
1 end
2 end
1 read 0 9
",
        schedule: "1,1,1,1,2,1,2,1,2,1",
        limit: 100,
        transcript: "1 P1 pipe -> 0 1
2 P1 fork -> child 2
3 P1 write 1 abcde -> 5
4 P1 begin -> begun
5 P2 begin -> begun
6 P1 read 0 5 -> 5 abcde
7 P2 write 1 xy -> 2
8 P1 end -> committed
9 P2 end -> committed
10 P1 read 0 9 -> 2 xy
",
    },
    // A read that gets less than it asks for has seen the end of what is there.
    Row {
        script: "priorities 0
1 pipe
1 fork
1 write 1 abcde
1 begin
2 begin
1 read 0 9
2 write 1 xy
",
        schedule: "1,1,1,1,2,1,2",
        limit: 100,
        transcript: "1 P1 pipe -> 0 1
2 P1 fork -> child 2
3 P1 write 1 abcde -> 5
4 P1 begin -> begun
5 P2 begin -> begun
6 P1 read 0 9 -> 5 abcde
7 P2 write 1 xy -> aborted back write by P1
",
    },
    // And a plain write dooms it.
    Row {
        script: "priorities 0
1 pipe
1 fork
1 write 1 abcde
1 begin
1 read 0 9
2 write 1 x
1 end
1 read 0 9
",
        schedule: "1,1,1,1,1,2,1,1",
        limit: 100,
        transcript: "1 P1 pipe -> 0 1
2 P1 fork -> child 2
3 P1 write 1 abcde -> 5
4 P1 begin -> begun
5 P1 read 0 9 -> 5 abcde
6 P2 write 1 x -> 1 dooms P1
7 P1 end -> aborted back read by P2
8 P1 read 0 9 -> 6 abcdex
",
    },
    // A plain read beside a write that is not committed.
    Row {
        script: "priorities 0
1 pipe
1 fork
1 write 1 a
1 begin
1 write 1 xy
2 read 0 1
1 end
2 read 0 9
",
        schedule: "1,1,1,1,1,2,1,2",
        limit: 100,
        transcript: "1 P1 pipe -> 0 1
2 P1 fork -> child 2
3 P1 write 1 a -> 1
4 P1 begin -> begun
5 P1 write 1 xy -> 2
6 P2 read 0 1 -> 1 a
7 P1 end -> committed
8 P2 read 0 9 -> 2 xy
",
    },
    // Two readers clash, and two writers.
    Row {
        script: "priorities 0
1 pipe
1 fork
1 write 1 abcde
1 begin
2 begin
1 read 0 1
2 read 0 1
1 end
1 begin
2 begin
1 write 1 f
2 write 1 g
1 end
2 read 0 9
",
        schedule: "1,1,1,1,2,1,2,1,1,2,1,2,1,2",
        limit: 100,
        transcript: "1 P1 pipe -> 0 1
2 P1 fork -> child 2
3 P1 write 1 abcde -> 5
4 P1 begin -> begun
5 P2 begin -> begun
6 P1 read 0 1 -> 1 a
7 P2 read 0 1 -> aborted front read by P1
8 P1 end -> committed
9 P1 begin -> begun
10 P2 begin -> begun
11 P1 write 1 f -> 1
12 P2 write 1 g -> aborted back read by P1
13 P1 end -> committed
14 P2 read 0 9 -> 5 bcdef
",
    },
];
