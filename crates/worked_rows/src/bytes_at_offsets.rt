// Rows of what reads and writes at an offset find and leave. They neither look at the offset of the
// description nor move it.
use crate::openings::row_after;
use crate::row::Row;

pub(crate) static BYTES_AT_OFFSETS: [Row; 6] = [
    // A gap, bytes in the middle of a block and over the border of two, reads over the end and
    // behind it, and writes of many bytes.
    Row {
        script: "priorities 0 0
1 open /a RDWR,CREAT
1 pwrite 0 abc 5
1 pread 0 9 0
1 pwrite 0 XY 1
1 pread 0 9 0
1 pread 0 9 6
1 pread 0 9 8
1 pread 0 9 9
1 pread 0 0 0
1 lseek 0 0 CUR
1 pwrite 0 pqrs 1022
1 pread 0 6 1021
1 pwrite 0 \\e 2000
1 fstat 0
1 pfill 0 3 7a 1024
1 pread 0 9 1022
1 pfill 0 0 7a 0
1 pfill 0 4 61 1022
1 pread 0 9 1022
2 stat /a
1 lseek 0 0 CUR
",
        schedule: "1,1,1,1,1,1,1,1,1,1,1,1,1,1,1,1,1,1,1,2,1",
        limit: 100,
        transcript: "1 P1 open /a RDWR,CREAT -> 0
2 P1 pwrite 0 abc 5 -> 3
3 P1 pread 0 9 0 -> 8 \\x00\\x00\\x00\\x00\\x00abc
4 P1 pwrite 0 XY 1 -> 2
5 P1 pread 0 9 0 -> 8 \\x00XY\\x00\\x00abc
6 P1 pread 0 9 6 -> 2 bc
7 P1 pread 0 9 8 -> 0 \\e
8 P1 pread 0 9 9 -> 0 \\e
9 P1 pread 0 0 0 -> 0 \\e
10 P1 lseek 0 0 CUR -> 0
11 P1 pwrite 0 pqrs 1022 -> 4
12 P1 pread 0 6 1021 -> 5 \\x00pqrs
13 P1 pwrite 0 \\e 2000 -> 0
14 P1 fstat 0 -> file size 1026 links 1
15 P1 pwrite 0 zzz 1024 -> 3
16 P1 pread 0 9 1022 -> 5 pqzzz
17 P1 pwrite 0 \\e 0 -> 0
18 P1 pwrite 0 aaaa 1022 -> 4
19 P1 pread 0 9 1022 -> 5 aaaaz
20 P2 stat /a -> file size 1027 links 1
21 P1 lseek 0 0 CUR -> 0
",
    },
    // The same in a transaction, of which another sees nothing before its end.
    Row {
        script: "priorities 0 0
1 open /a RDWR,CREAT
2 open /a RDONLY
1 begin
1 pwrite 0 abc 5
1 pread 0 9 0
1 pwrite 0 XY 1
1 pread 0 9 0
1 pread 0 9 6
1 pread 0 9 8
1 pread 0 9 9
1 pread 0 0 0
1 lseek 0 0 CUR
1 pwrite 0 pqrs 1022
1 pread 0 6 1021
1 pwrite 0 \\e 2000
1 fstat 0
1 pfill 0 3 7a 1024
1 pread 0 9 1022
1 pfill 0 0 7a 0
1 pfill 0 4 61 1022
1 pread 0 9 1022
2 stat /a
2 pread 0 9 0
1 lseek 0 0 CUR
1 end
2 pread 0 9 0
2 pread 0 9 1021
1 lseek 0 0 CUR
",
        schedule: "1,2,1,1,1,1,1,1,1,1,1,1,1,1,1,1,1,1,1,1,1,2,2,1,1,2,2,1",
        limit: 100,
        transcript: "1 P1 open /a RDWR,CREAT -> 0
2 P2 open /a RDONLY -> 0
3 P1 begin -> begun
4 P1 pwrite 0 abc 5 -> 3
5 P1 pread 0 9 0 -> 8 \\x00\\x00\\x00\\x00\\x00abc
6 P1 pwrite 0 XY 1 -> 2
7 P1 pread 0 9 0 -> 8 \\x00XY\\x00\\x00abc
8 P1 pread 0 9 6 -> 2 bc
9 P1 pread 0 9 8 -> 0 \\e
10 P1 pread 0 9 9 -> 0 \\e
11 P1 pread 0 0 0 -> 0 \\e
12 P1 lseek 0 0 CUR -> 0
13 P1 pwrite 0 pqrs 1022 -> 4
14 P1 pread 0 6 1021 -> 5 \\x00pqrs
15 P1 pwrite 0 \\e 2000 -> 0
16 P1 fstat 0 -> file size 1026 links 1
17 P1 pwrite 0 zzz 1024 -> 3
18 P1 pread 0 9 1022 -> 5 pqzzz
19 P1 pwrite 0 \\e 0 -> 0
20 P1 pwrite 0 aaaa 1022 -> 4
21 P1 pread 0 9 1022 -> 5 aaaaz
22 P2 stat /a -> file size 0 links 1
23 P2 pread 0 9 0 -> 0 \\e
24 P1 lseek 0 0 CUR -> 0
25 P1 end -> committed
26 P2 pread 0 9 0 -> 9 \\x00XY\\x00\\x00abc\\x00
27 P2 pread 0 9 1021 -> 6 \\x00aaaaz
28 P1 lseek 0 0 CUR -> 0
",
    },
    // With APPEND a write at an offset goes there all the same, plain and in a transaction.
    row_after! {
        after: a_written_file("WRONLY,CREAT,APPEND", "abcd", 4),
        priorities: "0",
        script: "1 open /a RDWR,APPEND
1 pwrite 0 X 1
1 pread 1 9 0
1 lseek 0 0 CUR
1 write 0 e
1 pwrite 1 YZ 6
1 pread 1 9 0
1 lseek 1 0 CUR
1 begin
1 pwrite 1 V 0
1 write 0 f
1 pwrite 0 W 3
1 pread 1 9 0
1 lseek 1 0 CUR
1 end
1 pread 1 9 0
1 write 1 g
1 lseek 1 0 CUR
",
        schedule: "1,1,1,1,1,1,1,1,1,1,1,1,1,1,1,1,1,1",
        transcript: "3 P1 open /a RDWR,APPEND -> 1
4 P1 pwrite 0 X 1 -> 1
5 P1 pread 1 9 0 -> 4 aXcd
6 P1 lseek 0 0 CUR -> 4
7 P1 write 0 e -> 1
8 P1 pwrite 1 YZ 6 -> 2
9 P1 pread 1 9 0 -> 8 aXcde\\x00YZ
10 P1 lseek 1 0 CUR -> 0
11 P1 begin -> begun
12 P1 pwrite 1 V 0 -> 1
13 P1 write 0 f -> 1
14 P1 pwrite 0 W 3 -> 1
15 P1 pread 1 9 0 -> 9 VXcWe\\x00YZf
16 P1 lseek 1 0 CUR -> 0
17 P1 end -> committed
18 P1 pread 1 9 0 -> 9 VXcWe\\x00YZf
19 P1 write 1 g -> 1
20 P1 lseek 1 0 CUR -> 10
",
    },
    // The offset that descriptors share, by dup and by fork, stands.
    row_after! {
        after: a_written_file("RDWR,CREAT", "abcdef", 6),
        priorities: "0",
        script: "1 dup 0
1 fork
1 lseek 0 2 SET
2 pread 1 2 0
1 pwrite 1 X 4
2 read 0 2
1 pread 0 9 0
1 read 1 9
2 lseek 0 0 CUR
",
        schedule: "1,1,1,2,1,2,1,1,2",
        transcript: "3 P1 dup 0 -> 1
4 P1 fork -> child 2
5 P1 lseek 0 2 SET -> 2
6 P2 pread 1 2 0 -> 2 ab
7 P1 pwrite 1 X 4 -> 1
8 P2 read 0 2 -> 2 cd
9 P1 pread 0 9 0 -> 6 abcdXf
10 P1 read 1 9 -> 2 Xf
11 P2 lseek 0 0 CUR -> 6
",
    },
    // In a transaction likewise: another moves the offset meanwhile, and dooms nobody.
    row_after! {
        after: a_written_file("RDWR,CREAT", "abcdef", 6),
        priorities: "0",
        script: "1 dup 0
1 fork
1 begin
1 pread 0 2 1
1 pwrite 1 X 0
2 lseek 0 3 SET
1 pread 1 9 0
1 end
1 read 1 9
2 pread 0 9 0
",
        schedule: "1,1,1,1,1,2,1,1,1,2",
        transcript: "3 P1 dup 0 -> 1
4 P1 fork -> child 2
5 P1 begin -> begun
6 P1 pread 0 2 1 -> 2 bc
7 P1 pwrite 1 X 0 -> 1
8 P2 lseek 0 3 SET -> 3
9 P1 pread 1 9 0 -> 6 Xbcdef
10 P1 end -> committed
11 P1 read 1 9 -> 3 def
12 P2 pread 0 9 0 -> 6 Xbcdef
",
    },
    // What is given up leaves the bytes and the length as they were.
    row_after! {
        after: a_written_file("RDWR,CREAT", "abcdef", 6),
        priorities: "0",
        script: "1 begin
1 pwrite 0 XY 5
1 pwrite 0 Z 1024
1 pread 0 9 0
1 abort
1 fstat 0
1 pread 0 9 0
1 unlink /a
1 begin
1 pwrite 0 XY 5
1 end
1 pread 0 9 0
",
        schedule: "1,1,1,1,1,1,1,1,1,1,1,1",
        transcript: "3 P1 begin -> begun
4 P1 pwrite 0 XY 5 -> 2
5 P1 pwrite 0 Z 1024 -> 1
6 P1 pread 0 9 0 -> 9 abcdeXY\\x00\\x00
7 P1 abort -> given up
8 P1 fstat 0 -> file size 6 links 1
9 P1 pread 0 9 0 -> 6 abcdef
10 P1 unlink /a -> ok
11 P1 begin -> begun
12 P1 pwrite 0 XY 5 -> 2
13 P1 end -> committed
14 P1 pread 0 9 0 -> 7 abcdeXY
",
    },
];
