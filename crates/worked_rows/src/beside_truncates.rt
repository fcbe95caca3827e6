// Rows of cuts by name beside other transactions. Each call that sees or writes a block has asked for
// the length before, so a cut to another length is told by the length; one to the same length writes
// nothing.
use crate::openings::row_after;
use crate::row::Row;

pub(crate) static BESIDE_TRUNCATES: [Row; 6] = [
    // A plain cut, first to the same length, dooms who has read the file.
    row_after! {
        after: a_written_file("RDWR,CREAT", "hello", 5),
        priorities: "0 0",
        script: "1 lseek 0 0 SET
1 begin
1 read 0 2
2 truncate /a 5
2 truncate /a 4
1 end
1 read 0 9
",
        schedule: "1,1,1,2,2,1,1",
        transcript: "3 P1 lseek 0 0 SET -> 0
4 P1 begin -> begun
5 P1 read 0 2 -> 2 he
6 P2 truncate /a 5 -> ok
7 P2 truncate /a 4 -> ok dooms P1
8 P1 end -> aborted size read by P2
9 P1 read 0 9 -> 4 hell
",
    },
    // The later of two transactions loses: who reads behind a growth, and who cuts behind a read.
    row_after! {
        after: a_written_file("RDWR,CREAT", "hello", 5),
        priorities: "0 0",
        script: "2 open /a RDONLY
1 begin
2 begin
1 truncate /a 9
2 read 0 2
1 end
2 begin
2 read 0 2
1 begin
1 truncate /a 1
2 end
",
        schedule: "2,1,2,1,2,1,2,2,1,1,2",
        transcript: "3 P2 open /a RDONLY -> 0
4 P1 begin -> begun
5 P2 begin -> begun
6 P1 truncate /a 9 -> ok
7 P2 read 0 2 -> aborted size read by P1
8 P1 end -> committed
9 P2 begin -> begun
10 P2 read 0 2 -> 2 he
11 P1 begin -> begun
12 P1 truncate /a 1 -> aborted size write by P2
13 P2 end -> committed
",
    },
    // A reader of a higher priority dooms who has cut, and a plain cut is put off.
    row_after! {
        after: a_written_file("RDWR,CREAT", "hello", 5),
        priorities: "0 1",
        script: "2 open /a RDONLY
1 begin
1 truncate /a 2
2 begin
2 read 0 9
1 truncate /a 2
1 truncate /a 2
1 truncate /a 5
2 end
1 truncate /a 2
2 stat /a
",
        schedule: "2,1,1,2,2,1,1,1,2,1,2",
        transcript: "3 P2 open /a RDONLY -> 0
4 P1 begin -> begun
5 P1 truncate /a 2 -> ok
6 P2 begin -> begun
7 P2 read 0 9 -> 5 hello dooms P1
8 P1 truncate /a 2 -> aborted size write by P2
9 P1 truncate /a 2 -> busy size write by P2
10 P1 truncate /a 5 -> ok
11 P2 end -> committed
12 P1 truncate /a 2 -> ok
13 P2 stat /a -> file size 2 links 1
",
    },
    // A cut of one block and a write into another meet by the length; a cut to the same length and
    // the write do not meet.
    Row {
        script: "priorities 0 0
1 open /a RDWR,CREAT
1 ftruncate 0 2048
1 begin
2 begin
1 write 0 x
2 truncate /a 2047
2 begin
2 truncate /a 2048
1 end
2 end
2 truncate /a 1
1 lseek 0 0 SET
1 read 0 9
",
        schedule: "1,1,1,2,1,2,2,2,1,2,2,1,1",
        limit: 100,
        transcript: "1 P1 open /a RDWR,CREAT -> 0
2 P1 ftruncate 0 2048 -> ok
3 P1 begin -> begun
4 P2 begin -> begun
5 P1 write 0 x -> 1
6 P2 truncate /a 2047 -> aborted size write by P1
7 P2 begin -> begun
8 P2 truncate /a 2048 -> ok
9 P1 end -> committed
10 P2 end -> committed
11 P2 truncate /a 1 -> ok
12 P1 lseek 0 0 SET -> 0
13 P1 read 0 9 -> 1 x
",
    },
    // A cut has seen the name: it is doomed by who takes it, and a refused one by who makes it.
    row_after! {
        after: a_written_file("WRONLY,CREAT", "hello", 5),
        priorities: "0 0",
        script: "1 begin
1 truncate /a 3
2 unlink /a
1 end
1 begin
1 truncate /a 3
2 open /a WRONLY,CREAT
1 end
1 fstat 0
2 fstat 0
",
        schedule: "1,1,2,1,1,1,2,1,1,2",
        transcript: "3 P1 begin -> begun
4 P1 truncate /a 3 -> ok
5 P2 unlink /a -> ok dooms P1
6 P1 end -> aborted entry a read by P2
7 P1 begin -> begun
8 P1 truncate /a 3 -> ENOENT
9 P2 open /a WRONLY,CREAT -> 0 dooms P1
10 P1 end -> aborted entry a read by P2
11 P1 fstat 0 -> file size 5 links 0
12 P2 fstat 0 -> file size 0 links 1
",
    },
    // What is refused for the length or for a directory has seen the names alone.
    Row {
        script: "priorities 0 0
1 open /a WRONLY,CREAT
1 mkdir /d
1 begin
1 truncate /a 1048577
1 truncate /d 0
2 truncate /a 3
2 mkdir /d/e
1 end
1 fstat 0
",
        schedule: "1,1,1,1,1,2,2,1,1",
        limit: 100,
        transcript: "1 P1 open /a WRONLY,CREAT -> 0
2 P1 mkdir /d -> ok
3 P1 begin -> begun
4 P1 truncate /a 1048577 -> EFBIG
5 P1 truncate /d 0 -> EISDIR
6 P2 truncate /a 3 -> ok
7 P2 mkdir /d/e -> ok
8 P1 end -> committed
9 P1 fstat 0 -> file size 3 links 1
",
    },
];
