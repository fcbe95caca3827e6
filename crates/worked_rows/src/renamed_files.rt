// Rows of files that move over others, and of what a move writes.
use crate::row::Row;

pub(crate) static RENAMED_FILES: [Row; 5] = [
    // A file over a file: who has the former one open keeps it.
    Row {
        script: "priorities 0 0
1 open /a RDWR,CREAT
1 write 0 new
2 open /b RDWR,CREAT
2 write 0 old!
1 rename /a /b
2 fstat 0
2 lseek 0 0 SET
2 read 0 9
1 fstat 0
2 stat /b
2 list /
",
        schedule: "1,1,2,2,1,2,2,2,1,2,2",
        limit: 100,
        transcript: "1 P1 open /a RDWR,CREAT -> 0
2 P1 write 0 new -> 3
3 P2 open /b RDWR,CREAT -> 0
4 P2 write 0 old! -> 4
5 P1 rename /a /b -> ok
6 P2 fstat 0 -> file size 4 links 0
7 P2 lseek 0 0 SET -> 0
8 P2 read 0 9 -> 4 old!
9 P1 fstat 0 -> file size 3 links 1
10 P2 stat /b -> file size 3 links 1
11 P2 list / -> names 1 b
",
    },
    // The former one has a name left.
    Row {
        script: "priorities 0
1 open /a WRONLY,CREAT
1 open /b WRONLY,CREAT
1 write 1 x
1 link /b /c
1 rename /a /b
1 fstat 1
1 stat /c
1 stat /b
",
        schedule: "1,1,1,1,1,1,1,1",
        limit: 100,
        transcript: "1 P1 open /a WRONLY,CREAT -> 0
2 P1 open /b WRONLY,CREAT -> 1
3 P1 write 1 x -> 1
4 P1 link /b /c -> ok
5 P1 rename /a /b -> ok
6 P1 fstat 1 -> file size 1 links 1
7 P1 stat /c -> file size 1 links 1
8 P1 stat /b -> file size 0 links 1
",
    },
    // In a transaction the former one is there for others until the end.
    Row {
        script: "priorities 0 0
1 open /a RDWR,CREAT
1 write 0 new
2 open /b RDWR,CREAT
2 write 0 old!
1 begin
1 rename /a /b
1 stat /b
1 stat /a
1 list /
2 fstat 0
2 list /
1 end
2 fstat 0
2 list /
",
        schedule: "1,1,2,2,1,1,1,1,1,2,2,1,2,2",
        limit: 100,
        transcript: "1 P1 open /a RDWR,CREAT -> 0
2 P1 write 0 new -> 3
3 P2 open /b RDWR,CREAT -> 0
4 P2 write 0 old! -> 4
5 P1 begin -> begun
6 P1 rename /a /b -> ok
7 P1 stat /b -> file size 3 links 1
8 P1 stat /a -> ENOENT
9 P1 list / -> names 1 b
10 P2 fstat 0 -> file size 4 links 1
11 P2 list / -> names 2 a b
12 P1 end -> committed
13 P2 fstat 0 -> file size 4 links 0
14 P2 list / -> names 1 b
",
    },
    // Two names are exchanged in one transaction.
    Row {
        script: "priorities 0 0
1 open /a WRONLY,CREAT
1 write 0 aa
1 open /b WRONLY,CREAT
1 begin
1 rename /a /c
1 rename /b /a
1 rename /c /b
2 stat /a
1 end
2 stat /a
2 stat /b
2 list /
",
        schedule: "1,1,1,1,1,1,1,2,1,2,2,2",
        limit: 100,
        transcript: "1 P1 open /a WRONLY,CREAT -> 0
2 P1 write 0 aa -> 2
3 P1 open /b WRONLY,CREAT -> 1
4 P1 begin -> begun
5 P1 rename /a /c -> ok
6 P1 rename /b /a -> ok
7 P1 rename /c /b -> ok
8 P2 stat /a -> file size 2 links 1
9 P1 end -> committed
10 P2 stat /a -> file size 0 links 1
11 P2 stat /b -> file size 2 links 1
12 P2 list / -> names 2 a b
",
    },
    // A move writes no links of what moves, and those of what it goes over.
    Row {
        script: "priorities 0 0
1 open /a WRONLY,CREAT
1 open /b WRONLY,CREAT
1 begin
1 fstat 0
2 rename /a /c
1 fstat 1
2 rename /c /b
1 end
",
        schedule: "1,1,1,1,2,1,2,1",
        limit: 100,
        transcript: "1 P1 open /a WRONLY,CREAT -> 0
2 P1 open /b WRONLY,CREAT -> 1
3 P1 begin -> begun
4 P1 fstat 0 -> file size 0 links 1
5 P2 rename /a /c -> ok
6 P1 fstat 1 -> file size 0 links 1
7 P2 rename /c /b -> ok dooms P1
8 P1 end -> aborted links read by P2
",
    },
];
