// Rows of cuts by name under other limits of a file's bytes.
use crate::openings::row_after;
use crate::row::{Large, Row};

pub(crate) static LIMITED_TRUNCATES: [Large; 5] = [
    // Files of at most five bytes.
    Large {
        file_bytes: 5,
        row: row_after! {
            after: a_written_file("RDWR,CREAT", "abcde", 5),
            priorities: "0 0",
            script: "1 truncate a 6
1 truncate /a/b 6
1 truncate /b 6
1 truncate / 6
1 truncate /a 6
1 truncate /a 4294967295
1 truncate /a 5
1 truncate /a 3
1 truncate /a 5
1 lseek 0 0 SET
1 read 0 9
2 truncate /a 6
2 truncate /a 4
1 fstat 0
",
            schedule: "1,1,1,1,1,1,1,1,1,1,1,2,2,1",
            transcript: "3 P1 truncate a 6 -> EINVAL
4 P1 truncate /a/b 6 -> ENOTDIR
5 P1 truncate /b 6 -> ENOENT
6 P1 truncate / 6 -> EISDIR
7 P1 truncate /a 6 -> EFBIG
8 P1 truncate /a 4294967295 -> EFBIG
9 P1 truncate /a 5 -> ok
10 P1 truncate /a 3 -> ok
11 P1 truncate /a 5 -> ok
12 P1 lseek 0 0 SET -> 0
13 P1 read 0 9 -> 5 abc\\x00\\x00
14 P2 truncate /a 6 -> EFBIG
15 P2 truncate /a 4 -> ok
16 P1 fstat 0 -> file size 4 links 1
",
        },
    },
    // The same in a transaction.
    Large {
        file_bytes: 5,
        row: row_after! {
            after: a_written_file("RDWR,CREAT", "abcde", 5),
            priorities: "0 0",
            script: "1 begin
1 truncate a 6
1 truncate /a/b 6
1 truncate /b 6
1 truncate / 6
1 truncate /a 6
1 truncate /a 4294967295
1 truncate /a 5
1 truncate /a 3
1 truncate /a 5
1 lseek 0 0 SET
1 read 0 9
1 truncate /a 4
2 stat /a
1 end
2 stat /a
",
            schedule: "1,1,1,1,1,1,1,1,1,1,1,1,1,2,1,2",
            transcript: "3 P1 begin -> begun
4 P1 truncate a 6 -> EINVAL
5 P1 truncate /a/b 6 -> ENOTDIR
6 P1 truncate /b 6 -> ENOENT
7 P1 truncate / 6 -> EISDIR
8 P1 truncate /a 6 -> EFBIG
9 P1 truncate /a 4294967295 -> EFBIG
10 P1 truncate /a 5 -> ok
11 P1 truncate /a 3 -> ok
12 P1 truncate /a 5 -> ok
13 P1 lseek 0 0 SET -> 0
14 P1 read 0 9 -> 5 abc\\x00\\x00
15 P1 truncate /a 4 -> ok
16 P2 stat /a -> file size 5 links 1
17 P1 end -> committed
18 P2 stat /a -> file size 4 links 1
",
        },
    },
    // Files of no byte.
    Large {
        file_bytes: 0,
        row: Row {
            script: "priorities 0
1 open /a RDWR,CREAT
1 truncate /a 1
1 truncate /a 0
1 begin
1 truncate /a 1
1 truncate /a 0
1 end
1 fstat 0
",
            schedule: "1,1,1,1,1,1,1,1",
            limit: 100,
            transcript: "1 P1 open /a RDWR,CREAT -> 0
2 P1 truncate /a 1 -> EFBIG
3 P1 truncate /a 0 -> ok
4 P1 begin -> begun
5 P1 truncate /a 1 -> EFBIG
6 P1 truncate /a 0 -> ok
7 P1 end -> committed
8 P1 fstat 0 -> file size 0 links 1
",
        },
    },
    // The most that a file can have, plain and in a transaction, which cuts the last block.
    Large {
        file_bytes: 2_147_483_647,
        row: Row {
            script: "priorities 0 0
1 open /a RDWR,CREAT
1 truncate /a 2147483648
1 truncate /a 2147483647
1 lseek 0 -1 END
1 write 0 x
1 begin
1 truncate /a 4294967295
1 truncate /a 2147482624
1 truncate /a 2147483647
1 lseek 0 -1 END
1 read 0 2
2 stat /a
1 end
1 truncate /a 2147482624
2 stat /a
",
            schedule: "1,1,1,1,1,1,1,1,1,1,1,2,1,1,2",
            limit: 100,
            transcript: "1 P1 open /a RDWR,CREAT -> 0
2 P1 truncate /a 2147483648 -> EFBIG
3 P1 truncate /a 2147483647 -> ok
4 P1 lseek 0 -1 END -> 2147483646
5 P1 write 0 x -> 1
6 P1 begin -> begun
7 P1 truncate /a 4294967295 -> EFBIG
8 P1 truncate /a 2147482624 -> ok
9 P1 truncate /a 2147483647 -> ok
10 P1 lseek 0 -1 END -> 2147483646
11 P1 read 0 2 -> 1 \\x00
12 P2 stat /a -> file size 2147483647 links 1
13 P1 end -> committed
14 P1 truncate /a 2147482624 -> ok
15 P2 stat /a -> file size 2147482624 links 1
",
        },
    },
    // A range that is kept for such a file ends with it at the latest.
    Large {
        file_bytes: 5,
        row: Row {
            script: "priorities 0
1 open /a RDWR,CREAT
1 fallocate 0 5 1 GROW
1 fallocate 0 4 2 KEEP
1 fallocate 0 0 6 PUNCH
1 fallocate 0 4 1 GROW
1 write 0 abcde
1 begin
1 fallocate 0 0 6 PUNCH
1 fallocate 0 1 4 PUNCH
1 pread 0 9 0
1 end
",
            schedule: "1,1,1,1,1,1,1,1,1,1,1",
            limit: 100,
            transcript: "1 P1 open /a RDWR,CREAT -> 0
2 P1 fallocate 0 5 1 GROW -> EFBIG
3 P1 fallocate 0 4 2 KEEP -> EFBIG
4 P1 fallocate 0 0 6 PUNCH -> EFBIG
5 P1 fallocate 0 4 1 GROW -> ok
6 P1 write 0 abcde -> 5
7 P1 begin -> begun
8 P1 fallocate 0 0 6 PUNCH -> EFBIG
9 P1 fallocate 0 1 4 PUNCH -> ok
10 P1 pread 0 9 0 -> 5 a\\x00\\x00\\x00\\x00
11 P1 end -> committed
",
        },
    },
];
