// Rows of files that can have the most bytes that there can be.
use crate::row::{Large, Row};

pub(crate) static LARGEST_FILES: [Large; 4] = [
    // The most that a file can have: nearly all of it is a gap, which reads as zeros.
    Large {
        file_bytes: 2_147_483_647,
        row: Row {
            script: "priorities 0 0
1 open /a RDWR,CREAT
1 lseek 0 2147483648 SET
1 lseek 0 2147483646 SET
1 write 0 xy
1 write 0 z
1 fstat 0
1 lseek 0 1 CUR
1 lseek 0 1 END
1 lseek 0 -3 END
1 read 0 9
1 read 0 9
1 lseek 0 1073741823 SET
1 read 0 4
1 lseek 0 2147221505 SET
1 write 0 mid
1 lseek 0 -5 CUR
1 read 0 7
1 ftruncate 0 2147483648
1 ftruncate 0 4294967295
1 ftruncate 0 2147483647
1 ftruncate 0 2147221507
1 fstat 0
1 ftruncate 0 2147483647
1 lseek 0 2147221504 SET
1 read 0 5
1 lseek 0 -1 END
1 read 0 2
2 stat /a
",
            schedule: "1,1,1,1,1,1,1,1,1,1,1,1,1,1,1,1,1,1,1,1,1,1,1,1,1,1,1,2",
            limit: 100,
            transcript: "1 P1 open /a RDWR,CREAT -> 0
2 P1 lseek 0 2147483648 SET -> EINVAL
3 P1 lseek 0 2147483646 SET -> 2147483646
4 P1 write 0 xy -> 1
5 P1 write 0 z -> EFBIG
6 P1 fstat 0 -> file size 2147483647 links 1
7 P1 lseek 0 1 CUR -> EINVAL
8 P1 lseek 0 1 END -> EINVAL
9 P1 lseek 0 -3 END -> 2147483644
10 P1 read 0 9 -> 3 \\x00\\x00x
11 P1 read 0 9 -> 0 \\e
12 P1 lseek 0 1073741823 SET -> 1073741823
13 P1 read 0 4 -> 4 \\x00\\x00\\x00\\x00
14 P1 lseek 0 2147221505 SET -> 2147221505
15 P1 write 0 mid -> 3
16 P1 lseek 0 -5 CUR -> 2147221503
17 P1 read 0 7 -> 7 \\x00\\x00mid\\x00\\x00
18 P1 ftruncate 0 2147483648 -> EFBIG
19 P1 ftruncate 0 4294967295 -> EFBIG
20 P1 ftruncate 0 2147483647 -> ok
21 P1 ftruncate 0 2147221507 -> ok
22 P1 fstat 0 -> file size 2147221507 links 1
23 P1 ftruncate 0 2147483647 -> ok
24 P1 lseek 0 2147221504 SET -> 2147221504
25 P1 read 0 5 -> 5 \\x00mi\\x00\\x00
26 P1 lseek 0 -1 END -> 2147483646
27 P1 read 0 2 -> 1 \\x00
28 P2 stat /a -> file size 2147483647 links 1
",
        },
    },
    // The same in a transaction.
    Large {
        file_bytes: 2_147_483_647,
        row: Row {
            script: "priorities 0 0
1 open /a RDWR,CREAT
1 begin
1 lseek 0 2147483648 SET
1 lseek 0 2147483646 SET
1 write 0 xy
1 write 0 z
1 fstat 0
1 lseek 0 1 CUR
1 lseek 0 -3 END
1 read 0 9
1 read 0 9
1 lseek 0 2147221505 SET
1 write 0 mid
1 lseek 0 -5 CUR
1 read 0 7
1 ftruncate 0 2147483648
1 ftruncate 0 2147221507
1 ftruncate 0 2147483647
1 lseek 0 -1 END
1 read 0 2
2 stat /a
1 end
2 open /a RDONLY
2 lseek 0 2147221504 SET
2 read 0 5
2 lseek 0 -2 END
2 read 0 9
",
            schedule: "1,1,1,1,1,1,1,1,1,1,1,1,1,1,1,1,1,1,1,1,2,1,2,2,2,2,2",
            limit: 100,
            transcript: "1 P1 open /a RDWR,CREAT -> 0
2 P1 begin -> begun
3 P1 lseek 0 2147483648 SET -> EINVAL
4 P1 lseek 0 2147483646 SET -> 2147483646
5 P1 write 0 xy -> 1
6 P1 write 0 z -> EFBIG
7 P1 fstat 0 -> file size 2147483647 links 1
8 P1 lseek 0 1 CUR -> EINVAL
9 P1 lseek 0 -3 END -> 2147483644
10 P1 read 0 9 -> 3 \\x00\\x00x
11 P1 read 0 9 -> 0 \\e
12 P1 lseek 0 2147221505 SET -> 2147221505
13 P1 write 0 mid -> 3
14 P1 lseek 0 -5 CUR -> 2147221503
15 P1 read 0 7 -> 7 \\x00\\x00mid\\x00\\x00
16 P1 ftruncate 0 2147483648 -> EFBIG
17 P1 ftruncate 0 2147221507 -> ok
18 P1 ftruncate 0 2147483647 -> ok
19 P1 lseek 0 -1 END -> 2147483646
20 P1 read 0 2 -> 1 \\x00
21 P2 stat /a -> file size 0 links 1
22 P1 end -> committed
23 P2 open /a RDONLY -> 0
24 P2 lseek 0 2147221504 SET -> 2147221504
25 P2 read 0 5 -> 5 \\x00mi\\x00\\x00
26 P2 lseek 0 -2 END -> 2147483645
27 P2 read 0 9 -> 2 \\x00\\x00
",
        },
    },
    // Who gives up a cut leaves the last byte as it was.
    Large {
        file_bytes: 2_147_483_647,
        row: Row {
            script: "priorities 0 0
1 open /a RDWR,CREAT
1 lseek 0 2147483646 SET
1 write 0 x
1 begin
1 ftruncate 0 2147221504
1 ftruncate 0 2147483647
1 lseek 0 -1 END
1 read 0 2
1 abort
1 lseek 0 2147483646 SET
1 read 0 2
2 stat /a
",
            schedule: "1,1,1,1,1,1,1,1,1,1,1,2",
            limit: 100,
            transcript: "1 P1 open /a RDWR,CREAT -> 0
2 P1 lseek 0 2147483646 SET -> 2147483646
3 P1 write 0 x -> 1
4 P1 begin -> begun
5 P1 ftruncate 0 2147221504 -> ok
6 P1 ftruncate 0 2147483647 -> ok
7 P1 lseek 0 -1 END -> 2147483646
8 P1 read 0 2 -> 1 \\x00
9 P1 abort -> given up
10 P1 lseek 0 2147483646 SET -> 2147483646
11 P1 read 0 2 -> 1 x
12 P2 stat /a -> file size 2147483647 links 1
",
        },
    },
    // Two write into one gap, a block apart.
    Large {
        file_bytes: 2_147_483_647,
        row: Row {
            script: "priorities 0 0
1 open /a RDWR,CREAT
1 ftruncate 0 2147483647
2 open /a RDWR
1 lseek 0 2147483647 SET
1 begin
2 begin
1 write 0 o
1 lseek 0 2147482623 SET
1 write 0 p
2 lseek 0 2147482624 SET
2 write 0 q
2 end
1 end
1 lseek 0 2147482622 SET
1 read 0 4
1 fstat 0
",
            schedule: "1,1,2,1,1,2,1,1,1,2,2,2,1,1,1,1",
            limit: 100,
            transcript: "1 P1 open /a RDWR,CREAT -> 0
2 P1 ftruncate 0 2147483647 -> ok
3 P2 open /a RDWR -> 0
4 P1 lseek 0 2147483647 SET -> 2147483647
5 P1 begin -> begun
6 P2 begin -> begun
7 P1 write 0 o -> EFBIG
8 P1 lseek 0 2147482623 SET -> 2147482623
9 P1 write 0 p -> 1
10 P2 lseek 0 2147482624 SET -> 2147482624
11 P2 write 0 q -> 1
12 P2 end -> committed
13 P1 end -> committed
14 P1 lseek 0 2147482622 SET -> 2147482622
15 P1 read 0 4 -> 4 \\x00pq\\x00
16 P1 fstat 0 -> file size 2147483647 links 1
",
        },
    },
];

// A cut writes each block that it takes. These two take 65,536 each, so they are done once.
pub(crate) static MANY: Large = Large {
    file_bytes: 2_147_483_647,
    row: Row {
        script: "priorities 0 0
1 open /a RDWR,CREAT
1 lseek 0 2147483646 SET
1 write 0 x
1 ftruncate 0 2080374785
1 ftruncate 0 2147483647
1 lseek 0 -1 END
1 read 0 2
1 begin
1 ftruncate 0 2080374784
1 fstat 0
1 ftruncate 0 2147483647
2 stat /a
1 end
2 stat /a
",
        schedule: "1,1,1,1,1,1,1,1,1,1,1,2,1,2",
        limit: 100,
        transcript: "1 P1 open /a RDWR,CREAT -> 0
2 P1 lseek 0 2147483646 SET -> 2147483646
3 P1 write 0 x -> 1
4 P1 ftruncate 0 2080374785 -> ok
5 P1 ftruncate 0 2147483647 -> ok
6 P1 lseek 0 -1 END -> 2147483646
7 P1 read 0 2 -> 1 \\x00
8 P1 begin -> begun
9 P1 ftruncate 0 2080374784 -> ok
10 P1 fstat 0 -> file size 2080374784 links 1
11 P1 ftruncate 0 2147483647 -> ok
12 P2 stat /a -> file size 2147483647 links 1
13 P1 end -> committed
14 P2 stat /a -> file size 2147483647 links 1
",
    },
};
