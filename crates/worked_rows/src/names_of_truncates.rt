// Rows of the names by which files are cut.
use crate::openings::row_after;
use crate::row::Row;

pub(crate) static NAMES_OF_TRUNCATES: [Row; 3] = [
    // Each of two names leads to the one file, whose length is one aspect; the names are two.
    row_after! {
        after: a_written_file("RDWR,CREAT", "hello", 5),
        priorities: "0 0",
        script: "1 link /a /b
2 truncate /b 3
1 fstat 0
1 begin
2 begin
1 truncate /a 1
2 truncate /b 2
1 end
2 begin
2 truncate /b 2
1 unlink /a
2 end
1 lseek 0 0 SET
1 read 0 9
",
        schedule: "1,2,1,1,2,1,2,1,2,2,1,2,1,1",
        transcript: "3 P1 link /a /b -> ok
4 P2 truncate /b 3 -> ok
5 P1 fstat 0 -> file size 3 links 2
6 P1 begin -> begun
7 P2 begin -> begun
8 P1 truncate /a 1 -> ok
9 P2 truncate /b 2 -> aborted size read by P1
10 P1 end -> committed
11 P2 begin -> begun
12 P2 truncate /b 2 -> ok
13 P1 unlink /a -> ok
14 P2 end -> committed
15 P1 lseek 0 0 SET -> 0
16 P1 read 0 9 -> 2 h\\x00
",
    },
    // A transaction cuts a file that it has made by each name that it gives it, and by none that it
    // has taken.
    Row {
        script: "priorities 0 0
1 begin
1 open /a RDWR,CREAT
1 write 0 hello
1 truncate /a 2
1 fstat 0
1 rename /a /b
1 truncate /a 1
1 truncate /b 4
1 unlink /b
1 truncate /b 0
1 lseek 0 0 SET
1 read 0 9
2 truncate /a 0
1 end
1 fstat 0
2 truncate /b 0
",
        schedule: "1,1,1,1,1,1,1,1,1,1,1,1,2,1,1,2",
        limit: 100,
        transcript: "1 P1 begin -> begun
2 P1 open /a RDWR,CREAT -> 0
3 P1 write 0 hello -> 5
4 P1 truncate /a 2 -> ok
5 P1 fstat 0 -> file size 2 links 1
6 P1 rename /a /b -> ok
7 P1 truncate /a 1 -> ENOENT
8 P1 truncate /b 4 -> ok
9 P1 unlink /b -> ok
10 P1 truncate /b 0 -> ENOENT
11 P1 lseek 0 0 SET -> 0
12 P1 read 0 9 -> 4 he\\x00\\x00
13 P2 truncate /a 0 -> ENOENT
14 P1 end -> committed
15 P1 fstat 0 -> file size 4 links 0
16 P2 truncate /b 0 -> ENOENT
",
    },
    // A transaction has taken the name. Another cuts the file by it meanwhile, and comes first.
    row_after! {
        after: a_written_file("RDWR,CREAT", "hello", 5),
        priorities: "0 0",
        script: "1 begin
1 unlink /a
1 truncate /a 0
2 truncate /a 2
1 end
2 truncate /a 1
1 lseek 0 0 SET
1 read 0 9
",
        schedule: "1,1,1,2,1,2,1,1",
        transcript: "3 P1 begin -> begun
4 P1 unlink /a -> ok
5 P1 truncate /a 0 -> ENOENT
6 P2 truncate /a 2 -> ok
7 P1 end -> committed
8 P2 truncate /a 1 -> ENOENT
9 P1 lseek 0 0 SET -> 0
10 P1 read 0 9 -> 2 he
",
    },
];
