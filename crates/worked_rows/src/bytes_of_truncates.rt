// Rows of what cuts by name leave in a file, and of offsets, which stay.
use crate::openings::row_after;
use crate::row::Row;

pub(crate) static BYTES_OF_TRUNCATES: [Row; 3] = [
    // Offsets stay where they are, though the file ends in front of them. What is filled up, by a
    // cut or by a write behind the end, reads as zeros.
    row_after! {
        after: a_written_file("RDWR,CREAT", "abcdefgh", 8),
        priorities: "0 0",
        script: "2 open /a RDWR
2 lseek 0 6 SET
1 truncate /a 3
1 stat /a
2 read 0 9
2 lseek 0 0 CUR
1 truncate /a 7
2 read 0 9
1 lseek 0 0 SET
1 read 0 9
1 truncate /a 2
2 write 0 z
2 lseek 0 0 SET
2 read 0 9
1 truncate /a 0
1 lseek 0 0 CUR
1 read 0 9
2 fstat 0
",
        schedule: "2,2,1,1,2,2,1,2,1,1,1,2,2,2,1,1,1,2",
        transcript: "3 P2 open /a RDWR -> 0
4 P2 lseek 0 6 SET -> 6
5 P1 truncate /a 3 -> ok
6 P1 stat /a -> file size 3 links 1
7 P2 read 0 9 -> 0 \\e
8 P2 lseek 0 0 CUR -> 6
9 P1 truncate /a 7 -> ok
10 P2 read 0 9 -> 1 \\x00
11 P1 lseek 0 0 SET -> 0
12 P1 read 0 9 -> 7 abc\\x00\\x00\\x00\\x00
13 P1 truncate /a 2 -> ok
14 P2 write 0 z -> 1
15 P2 lseek 0 0 SET -> 0
16 P2 read 0 9 -> 8 ab\\x00\\x00\\x00\\x00\\x00z
17 P1 truncate /a 0 -> ok
18 P1 lseek 0 0 CUR -> 7
19 P1 read 0 9 -> 0 \\e
20 P2 fstat 0 -> file size 0 links 1
",
    },
    // The same in a transaction, of which another sees nothing before its end.
    row_after! {
        after: a_written_file("RDWR,CREAT", "abcdefgh", 8),
        priorities: "0 0",
        script: "1 open /a RDWR
1 lseek 1 6 SET
2 open /a RDONLY
1 begin
1 truncate /a 3
1 stat /a
1 read 1 9
1 lseek 1 0 CUR
1 truncate /a 7
1 read 1 9
1 lseek 0 0 SET
1 read 0 9
1 truncate /a 2
1 write 1 z
1 lseek 1 0 SET
1 read 1 9
2 read 0 9
1 end
2 lseek 0 0 SET
2 read 0 9
",
        schedule: "1,1,2,1,1,1,1,1,1,1,1,1,1,1,1,1,2,1,2,2",
        transcript: "3 P1 open /a RDWR -> 1
4 P1 lseek 1 6 SET -> 6
5 P2 open /a RDONLY -> 0
6 P1 begin -> begun
7 P1 truncate /a 3 -> ok
8 P1 stat /a -> file size 3 links 1
9 P1 read 1 9 -> 0 \\e
10 P1 lseek 1 0 CUR -> 6
11 P1 truncate /a 7 -> ok
12 P1 read 1 9 -> 1 \\x00
13 P1 lseek 0 0 SET -> 0
14 P1 read 0 9 -> 7 abc\\x00\\x00\\x00\\x00
15 P1 truncate /a 2 -> ok
16 P1 write 1 z -> 1
17 P1 lseek 1 0 SET -> 0
18 P1 read 1 9 -> 8 ab\\x00\\x00\\x00\\x00\\x00z
19 P2 read 0 9 -> 8 abcdefgh
20 P1 end -> committed
21 P2 lseek 0 0 SET -> 0
22 P2 read 0 9 -> 8 ab\\x00\\x00\\x00\\x00\\x00z
",
    },
    // A cut in the middle of a block: plain in the second, and in the first in a transaction that
    // is given up and in one that is not.
    Row {
        script: "priorities 0 0
1 open /a RDWR,CREAT
1 lseek 0 1020 SET
1 write 0 abcdefgh
1 truncate /a 1026
1 truncate /a 3000
1 lseek 0 1019 SET
1 read 0 10
1 begin
1 truncate /a 1022
1 truncate /a 3001
1 lseek 0 1019 SET
1 read 0 10
2 stat /a
1 abort
1 lseek 0 0 CUR
1 lseek 0 1019 SET
1 read 0 10
1 begin
1 truncate /a 1022
1 truncate /a 3002
1 end
1 lseek 0 1019 SET
1 read 0 10
2 stat /a
",
        schedule: "1,1,1,1,1,1,1,1,1,1,1,1,2,1,1,1,1,1,1,1,1,1,1,2",
        limit: 100,
        transcript: "1 P1 open /a RDWR,CREAT -> 0
2 P1 lseek 0 1020 SET -> 1020
3 P1 write 0 abcdefgh -> 8
4 P1 truncate /a 1026 -> ok
5 P1 truncate /a 3000 -> ok
6 P1 lseek 0 1019 SET -> 1019
7 P1 read 0 10 -> 10 \\x00abcdef\\x00\\x00\\x00
8 P1 begin -> begun
9 P1 truncate /a 1022 -> ok
10 P1 truncate /a 3001 -> ok
11 P1 lseek 0 1019 SET -> 1019
12 P1 read 0 10 -> 10 \\x00ab\\x00\\x00\\x00\\x00\\x00\\x00\\x00
13 P2 stat /a -> file size 3000 links 1
14 P1 abort -> given up
15 P1 lseek 0 0 CUR -> 1029
16 P1 lseek 0 1019 SET -> 1019
17 P1 read 0 10 -> 10 \\x00abcdef\\x00\\x00\\x00
18 P1 begin -> begun
19 P1 truncate /a 1022 -> ok
20 P1 truncate /a 3002 -> ok
21 P1 end -> committed
22 P1 lseek 0 1019 SET -> 1019
23 P1 read 0 10 -> 10 \\x00ab\\x00\\x00\\x00\\x00\\x00\\x00\\x00
24 P2 stat /a -> file size 3002 links 1
",
    },
];
