// Rows of writes at the end of files that can have few bytes.
use crate::openings::row_after;
use crate::row::{Large, Row};

pub(crate) static LIMITED_APPENDS: [Large; 4] = [
    // Files of at most five bytes: an append is cut at their end, wherever the offset is.
    Large {
        file_bytes: 5,
        row: row_after! {
            after: a_written_file("WRONLY,CREAT,APPEND", "abc", 3),
            priorities: "0 0",
            script: "2 open /a RDWR
2 lseek 0 4 SET
2 write 0 x
1 write 0 z
1 lseek 0 0 SET
1 write 0 z
2 ftruncate 0 4
1 write 0 yz
1 lseek 0 0 CUR
2 lseek 0 0 SET
2 read 0 9
",
            schedule: "2,2,2,1,1,1,2,1,1,2,2",
            transcript: "3 P2 open /a RDWR -> 0
4 P2 lseek 0 4 SET -> 4
5 P2 write 0 x -> 1
6 P1 write 0 z -> EFBIG
7 P1 lseek 0 0 SET -> 0
8 P1 write 0 z -> EFBIG
9 P2 ftruncate 0 4 -> ok
10 P1 write 0 yz -> 1
11 P1 lseek 0 0 CUR -> 5
12 P2 lseek 0 0 SET -> 0
13 P2 read 0 9 -> 5 abc\\x00y
",
        },
    },
    // The same in a transaction, where another's descriptor stands behind the end.
    Large {
        file_bytes: 5,
        row: row_after! {
            after: a_written_file("RDWR,CREAT,APPEND", "abc", 3),
            priorities: "0 0",
            script: "2 open /a RDWR
2 lseek 0 5 SET
1 begin
1 write 0 xyz
1 write 0 z
1 lseek 0 0 SET
1 read 0 9
2 write 0 q
2 fstat 0
1 ftruncate 0 1
1 write 0 pq
1 end
2 lseek 0 0 SET
2 read 0 9
",
            schedule: "2,2,1,1,1,1,1,2,2,1,1,1,2,2",
            transcript: "3 P2 open /a RDWR -> 0
4 P2 lseek 0 5 SET -> 5
5 P1 begin -> begun
6 P1 write 0 xyz -> 2
7 P1 write 0 z -> EFBIG
8 P1 lseek 0 0 SET -> 0
9 P1 read 0 9 -> 5 abcxy
10 P2 write 0 q -> EFBIG
11 P2 fstat 0 -> file size 3 links 1
12 P1 ftruncate 0 1 -> ok
13 P1 write 0 pq -> 2
14 P1 end -> committed
15 P2 lseek 0 0 SET -> 0
16 P2 read 0 9 -> 3 apq
",
        },
    },
    // Who appends at the end has read the length, and loses against who changes it.
    Large {
        file_bytes: 5,
        row: row_after! {
            after: a_written_file("WRONLY,CREAT,APPEND", "abcde", 5),
            priorities: "0 0",
            script: "2 open /a RDWR
1 begin
1 write 0 f
2 ftruncate 0 4
1 end
1 write 0 f
",
            schedule: "2,1,1,2,1,1",
            transcript: "3 P2 open /a RDWR -> 0
4 P1 begin -> begun
5 P1 write 0 f -> EFBIG
6 P2 ftruncate 0 4 -> ok dooms P1
7 P1 end -> aborted size read by P2
8 P1 write 0 f -> 1
",
        },
    },
    // Who writes at the last offset has not.
    Large {
        file_bytes: 5,
        row: row_after! {
            after: a_written_file("WRONLY,CREAT", "abcde", 5),
            priorities: "0 0",
            script: "2 open /a RDWR
1 begin
1 write 0 f
2 ftruncate 0 4
1 end
1 write 0 f
2 fstat 0
",
            schedule: "2,1,1,2,1,1,2",
            transcript: "3 P2 open /a RDWR -> 0
4 P1 begin -> begun
5 P1 write 0 f -> EFBIG
6 P2 ftruncate 0 4 -> ok
7 P1 end -> committed
8 P1 write 0 f -> EFBIG
9 P2 fstat 0 -> file size 4 links 1
",
        },
    },
];
