// Rows of calls on files that can have few bytes.
use crate::openings::row_after;
use crate::row::{Large, Row};

pub(crate) static LIMITED_WRITES: [Large; 5] = [
    // Files of at most five bytes: a write is cut at their end, and none begins there.
    Large {
        file_bytes: 5,
        row: row_after! {
            after: a_written_file("RDWR,CREAT", "abc", 3),
            priorities: "0 0",
            script: "1 write 0 defg
1 write 0 h
1 write 0 \\e
1 fstat 0
1 lseek 0 0 CUR
1 lseek 0 6 SET
1 lseek 0 1 CUR
1 lseek 0 1 END
1 lseek 0 -6 END
1 lseek 0 -5 END
1 read 0 9
1 lseek 0 5 SET
1 read 0 9
1 ftruncate 0 6
1 ftruncate 0 4294967295
1 ftruncate 0 5
1 ftruncate 0 3
1 ftruncate 0 5
1 lseek 0 -3 CUR
1 read 0 9
1 lseek 0 4 SET
1 write 0 xy
1 write 0 z
2 open /a RDONLY
2 lseek 0 1 SET
2 read 0 9
",
            schedule: "1,1,1,1,1,1,1,1,1,1,1,1,1,1,1,1,1,1,1,1,1,1,1,2,2,2",
            transcript: "3 P1 write 0 defg -> 2
4 P1 write 0 h -> EFBIG
5 P1 write 0 \\e -> 0
6 P1 fstat 0 -> file size 5 links 1
7 P1 lseek 0 0 CUR -> 5
8 P1 lseek 0 6 SET -> EINVAL
9 P1 lseek 0 1 CUR -> EINVAL
10 P1 lseek 0 1 END -> EINVAL
11 P1 lseek 0 -6 END -> EINVAL
12 P1 lseek 0 -5 END -> 0
13 P1 read 0 9 -> 5 abcde
14 P1 lseek 0 5 SET -> 5
15 P1 read 0 9 -> 0 \\e
16 P1 ftruncate 0 6 -> EFBIG
17 P1 ftruncate 0 4294967295 -> EFBIG
18 P1 ftruncate 0 5 -> ok
19 P1 ftruncate 0 3 -> ok
20 P1 ftruncate 0 5 -> ok
21 P1 lseek 0 -3 CUR -> 2
22 P1 read 0 9 -> 3 c\\x00\\x00
23 P1 lseek 0 4 SET -> 4
24 P1 write 0 xy -> 1
25 P1 write 0 z -> EFBIG
26 P2 open /a RDONLY -> 0
27 P2 lseek 0 1 SET -> 1
28 P2 read 0 9 -> 4 bc\\x00x
",
        },
    },
    // The same in a transaction.
    Large {
        file_bytes: 5,
        row: Row {
            script: "priorities 0 0
1 open /a RDWR,CREAT
1 begin
1 write 0 abc
1 write 0 defg
1 write 0 h
1 write 0 \\e
1 fstat 0
1 lseek 0 0 CUR
1 lseek 0 6 SET
1 lseek 0 1 CUR
1 lseek 0 1 END
1 lseek 0 -6 END
1 lseek 0 -5 END
1 read 0 9
1 lseek 0 5 SET
1 read 0 9
1 ftruncate 0 6
1 ftruncate 0 4294967295
1 ftruncate 0 5
1 ftruncate 0 3
1 ftruncate 0 5
1 lseek 0 -3 CUR
1 read 0 9
1 lseek 0 4 SET
1 write 0 xy
1 write 0 z
2 stat /a
1 end
2 open /a RDONLY
2 lseek 0 1 SET
2 read 0 9
",
            schedule: "1,1,1,1,1,1,1,1,1,1,1,1,1,1,1,1,1,1,1,1,1,1,1,1,1,1,2,1,2,2,2",
            limit: 100,
            transcript: "1 P1 open /a RDWR,CREAT -> 0
2 P1 begin -> begun
3 P1 write 0 abc -> 3
4 P1 write 0 defg -> 2
5 P1 write 0 h -> EFBIG
6 P1 write 0 \\e -> 0
7 P1 fstat 0 -> file size 5 links 1
8 P1 lseek 0 0 CUR -> 5
9 P1 lseek 0 6 SET -> EINVAL
10 P1 lseek 0 1 CUR -> EINVAL
11 P1 lseek 0 1 END -> EINVAL
12 P1 lseek 0 -6 END -> EINVAL
13 P1 lseek 0 -5 END -> 0
14 P1 read 0 9 -> 5 abcde
15 P1 lseek 0 5 SET -> 5
16 P1 read 0 9 -> 0 \\e
17 P1 ftruncate 0 6 -> EFBIG
18 P1 ftruncate 0 4294967295 -> EFBIG
19 P1 ftruncate 0 5 -> ok
20 P1 ftruncate 0 3 -> ok
21 P1 ftruncate 0 5 -> ok
22 P1 lseek 0 -3 CUR -> 2
23 P1 read 0 9 -> 3 c\\x00\\x00
24 P1 lseek 0 4 SET -> 4
25 P1 write 0 xy -> 1
26 P1 write 0 z -> EFBIG
27 P2 stat /a -> file size 0 links 1
28 P1 end -> committed
29 P2 open /a RDONLY -> 0
30 P2 lseek 0 1 SET -> 1
31 P2 read 0 9 -> 4 bc\\x00x
",
        },
    },
    // A pipe takes more bytes than a file may have.
    Large {
        file_bytes: 5,
        row: Row {
            script: "priorities 0
1 pipe
1 write 1 abcdefgh
1 read 0 9
1 open /a RDWR,CREAT
1 write 2 abcdefgh
",
            schedule: "1,1,1,1,1",
            limit: 100,
            transcript: "1 P1 pipe -> 0 1
2 P1 write 1 abcdefgh -> 8
3 P1 read 0 9 -> 8 abcdefgh
4 P1 open /a RDWR,CREAT -> 2
5 P1 write 2 abcdefgh -> 5
",
        },
    },
    // Files of no byte.
    Large {
        file_bytes: 0,
        row: Row {
            script: "priorities 0
1 open /a RDWR,CREAT
1 write 0 x
1 write 0 \\e
1 lseek 0 0 END
1 lseek 0 1 SET
1 ftruncate 0 1
1 begin
1 ftruncate 0 0
1 write 0 x
1 read 0 1
1 end
1 fstat 0
",
            schedule: "1,1,1,1,1,1,1,1,1,1,1,1",
            limit: 100,
            transcript: "1 P1 open /a RDWR,CREAT -> 0
2 P1 write 0 x -> EFBIG
3 P1 write 0 \\e -> 0
4 P1 lseek 0 0 END -> 0
5 P1 lseek 0 1 SET -> EINVAL
6 P1 ftruncate 0 1 -> EFBIG
7 P1 begin -> begun
8 P1 ftruncate 0 0 -> ok
9 P1 write 0 x -> EFBIG
10 P1 read 0 1 -> 0 \\e
11 P1 end -> committed
12 P1 fstat 0 -> file size 0 links 1
",
        },
    },
    // The last byte of a file stands alone in its block.
    Large {
        file_bytes: 1025,
        row: Row {
            script: "priorities 0 0
1 open /a RDWR,CREAT
1 lseek 0 1023 SET
1 write 0 abc
2 open /a RDWR
1 begin
1 ftruncate 0 1024
1 write 0 d
1 lseek 0 -1 END
1 write 0 xyz
2 lseek 0 1023 SET
2 read 0 9
1 end
2 lseek 0 1022 SET
2 read 0 9
",
            schedule: "1,1,1,2,1,1,1,1,1,2,2,1,2,2",
            limit: 100,
            transcript: "1 P1 open /a RDWR,CREAT -> 0
2 P1 lseek 0 1023 SET -> 1023
3 P1 write 0 abc -> 2
4 P2 open /a RDWR -> 0
5 P1 begin -> begun
6 P1 ftruncate 0 1024 -> ok
7 P1 write 0 d -> EFBIG
8 P1 lseek 0 -1 END -> 1023
9 P1 write 0 xyz -> 2
10 P2 lseek 0 1023 SET -> 1023
11 P2 read 0 9 -> 2 ab
12 P1 end -> committed
13 P2 lseek 0 1022 SET -> 1022
14 P2 read 0 9 -> 3 \\x00xy
",
        },
    },
];
