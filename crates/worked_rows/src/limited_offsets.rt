// Rows of reads and writes at an offset under other limits of a file's bytes.
use crate::row::{Large, Row};

pub(crate) static LIMITED_OFFSETS: [Large; 4] = [
    // Files of at most five bytes: a write is cut at their end, and none begins there.
    Large {
        file_bytes: 5,
        row: Row {
            script: "priorities 0 0
1 open /a RDWR,CREAT
1 pwrite 0 abcdefg 2
1 pread 0 9 0
1 pwrite 0 x 5
1 pwrite 0 x 6
1 pwrite 0 x 4294967296
1 pwrite 0 \\e 5
1 pwrite 0 \\e 6
1 pwrite 0 xy 4
1 pread 0 9 4
1 pread 0 9 5
1 pread 0 9 6
1 lseek 0 0 CUR
1 truncate /a 1
1 pwrite 0 q 3
1 pread 0 9 0
1 pfill 0 7 7a 0
1 pread 0 9 0
2 open /a RDWR,APPEND
2 pwrite 0 w 4
2 pwrite 0 w 5
2 pread 0 9 3
",
            schedule: "1,1,1,1,1,1,1,1,1,1,1,1,1,1,1,1,1,1,2,2,2,2",
            limit: 100,
            transcript: "1 P1 open /a RDWR,CREAT -> 0
2 P1 pwrite 0 abcdefg 2 -> 3
3 P1 pread 0 9 0 -> 5 \\x00\\x00abc
4 P1 pwrite 0 x 5 -> EFBIG
5 P1 pwrite 0 x 6 -> EFBIG
6 P1 pwrite 0 x 4294967296 -> EFBIG
7 P1 pwrite 0 \\e 5 -> 0
8 P1 pwrite 0 \\e 6 -> 0
9 P1 pwrite 0 xy 4 -> 1
10 P1 pread 0 9 4 -> 1 x
11 P1 pread 0 9 5 -> 0 \\e
12 P1 pread 0 9 6 -> 0 \\e
13 P1 lseek 0 0 CUR -> 0
14 P1 truncate /a 1 -> ok
15 P1 pwrite 0 q 3 -> 1
16 P1 pread 0 9 0 -> 4 \\x00\\x00\\x00q
17 P1 pwrite 0 zzzzzzz 0 -> 5
18 P1 pread 0 9 0 -> 5 zzzzz
19 P2 open /a RDWR,APPEND -> 0
20 P2 pwrite 0 w 4 -> 1
21 P2 pwrite 0 w 5 -> EFBIG
22 P2 pread 0 9 3 -> 2 zw
",
        },
    },
    // The same in a transaction.
    Large {
        file_bytes: 5,
        row: Row {
            script: "priorities 0 0
1 open /a RDWR,CREAT
1 begin
1 pwrite 0 abcdefg 2
1 pread 0 9 0
1 pwrite 0 x 5
1 pwrite 0 x 6
1 pwrite 0 x 4294967296
1 pwrite 0 \\e 5
1 pwrite 0 \\e 6
1 pwrite 0 xy 4
1 pread 0 9 4
1 pread 0 9 5
1 pread 0 9 6
1 lseek 0 0 CUR
1 truncate /a 1
1 pwrite 0 q 3
1 pread 0 9 0
1 pfill 0 7 7a 0
1 pread 0 9 0
2 stat /a
1 end
1 pread 0 9 1
",
            schedule: "1,1,1,1,1,1,1,1,1,1,1,1,1,1,1,1,1,1,1,2,1,1",
            limit: 100,
            transcript: "1 P1 open /a RDWR,CREAT -> 0
2 P1 begin -> begun
3 P1 pwrite 0 abcdefg 2 -> 3
4 P1 pread 0 9 0 -> 5 \\x00\\x00abc
5 P1 pwrite 0 x 5 -> EFBIG
6 P1 pwrite 0 x 6 -> EFBIG
7 P1 pwrite 0 x 4294967296 -> EFBIG
8 P1 pwrite 0 \\e 5 -> 0
9 P1 pwrite 0 \\e 6 -> 0
10 P1 pwrite 0 xy 4 -> 1
11 P1 pread 0 9 4 -> 1 x
12 P1 pread 0 9 5 -> 0 \\e
13 P1 pread 0 9 6 -> 0 \\e
14 P1 lseek 0 0 CUR -> 0
15 P1 truncate /a 1 -> ok
16 P1 pwrite 0 q 3 -> 1
17 P1 pread 0 9 0 -> 4 \\x00\\x00\\x00q
18 P1 pwrite 0 zzzzzzz 0 -> 5
19 P1 pread 0 9 0 -> 5 zzzzz
20 P2 stat /a -> file size 0 links 1
21 P1 end -> committed
22 P1 pread 0 9 1 -> 4 zzzz
",
        },
    },
    // Files of no byte.
    Large {
        file_bytes: 0,
        row: Row {
            script: "priorities 0
1 open /a RDWR,CREAT
1 pwrite 0 x 0
1 pwrite 0 \\e 0
1 begin
1 pwrite 0 x 0
1 pread 0 9 0
1 end
1 pread 0 9 0
",
            schedule: "1,1,1,1,1,1,1,1",
            limit: 100,
            transcript: "1 P1 open /a RDWR,CREAT -> 0
2 P1 pwrite 0 x 0 -> EFBIG
3 P1 pwrite 0 \\e 0 -> 0
4 P1 begin -> begun
5 P1 pwrite 0 x 0 -> EFBIG
6 P1 pread 0 9 0 -> 0 \\e
7 P1 end -> committed
8 P1 pread 0 9 0 -> 0 \\e
",
        },
    },
    // The most that a file can have.
    Large {
        file_bytes: 2_147_483_647,
        row: Row {
            script: "priorities 0 0
1 open /a RDWR,CREAT
1 pwrite 0 x 2147483647
1 pwrite 0 x 2147483648
1 pwrite 0 xy 2147483646
1 pread 0 9 2147483645
1 pread 0 9 2147483647
1 pread 0 9 2147483648
1 begin
1 pwrite 0 mid 1073741823
1 pread 0 5 1073741822
1 pwrite 0 yz 2147483646
1 pwrite 0 x 2147483647
1 pread 0 9 2147483646
2 stat /a
1 end
1 pread 0 5 1073741822
1 pread 0 9 2147483645
1 lseek 0 0 CUR
2 stat /a
",
            schedule: "1,1,1,1,1,1,1,1,1,1,1,1,1,2,1,1,1,1,2",
            limit: 100,
            transcript: "1 P1 open /a RDWR,CREAT -> 0
2 P1 pwrite 0 x 2147483647 -> EFBIG
3 P1 pwrite 0 x 2147483648 -> EFBIG
4 P1 pwrite 0 xy 2147483646 -> 1
5 P1 pread 0 9 2147483645 -> 2 \\x00x
6 P1 pread 0 9 2147483647 -> 0 \\e
7 P1 pread 0 9 2147483648 -> 0 \\e
8 P1 begin -> begun
9 P1 pwrite 0 mid 1073741823 -> 3
10 P1 pread 0 5 1073741822 -> 5 \\x00mid\\x00
11 P1 pwrite 0 yz 2147483646 -> 1
12 P1 pwrite 0 x 2147483647 -> EFBIG
13 P1 pread 0 9 2147483646 -> 1 y
14 P2 stat /a -> file size 2147483647 links 1
15 P1 end -> committed
16 P1 pread 0 5 1073741822 -> 5 \\x00mid\\x00
17 P1 pread 0 9 2147483645 -> 2 \\x00y
18 P1 lseek 0 0 CUR -> 0
19 P2 stat /a -> file size 2147483647 links 1
",
        },
    },
];
