// Rows of the tests of reads and writes at an offset, in their order.
use crate::openings::row_after;
use crate::row::Row;

pub(crate) static ERRORS_AT_OFFSETS: [Row; 4] = [
    // The tests of a read in their order, each where those behind it would refuse too. An offset
    // far behind the end has no bytes, and is not taken for a small one.
    row_after! {
        after: a_written_file("WRONLY,CREAT", "abc", 3),
        priorities: "0",
        script: "1 open /a RDONLY
1 pipe
1 pread 9 5 -1
1 pread 64 0 -1
1 pread 0 5 -1
1 pread 3 5 -1
1 pread 2 5 -1
1 pread 2 0 0
1 pread 1 0 -1
1 pread 1 5 -9223372036854775808
1 pread 1 0 0
1 pread 1 0 9223372036854775807
1 pread 1 2 0
1 pread 1 1048576 1
1 pread 1 5 3
1 pread 1 5 4
1 pread 1 5 4294967296
1 pread 1 5 9223372036854775807
1 lseek 1 0 CUR
1 read 1 9
",
        schedule: "1,1,1,1,1,1,1,1,1,1,1,1,1,1,1,1,1,1,1,1",
        transcript: "3 P1 open /a RDONLY -> 1
4 P1 pipe -> 2 3
5 P1 pread 9 5 -1 -> EBADF
6 P1 pread 64 0 -1 -> EBADF
7 P1 pread 0 5 -1 -> EBADF
8 P1 pread 3 5 -1 -> EBADF
9 P1 pread 2 5 -1 -> ESPIPE
10 P1 pread 2 0 0 -> ESPIPE
11 P1 pread 1 0 -1 -> EINVAL
12 P1 pread 1 5 -9223372036854775808 -> EINVAL
13 P1 pread 1 0 0 -> 0 \\e
14 P1 pread 1 0 9223372036854775807 -> 0 \\e
15 P1 pread 1 2 0 -> 2 ab
16 P1 pread 1 1048576 1 -> 2 bc
17 P1 pread 1 5 3 -> 0 \\e
18 P1 pread 1 5 4 -> 0 \\e
19 P1 pread 1 5 4294967296 -> 0 \\e
20 P1 pread 1 5 9223372036854775807 -> 0 \\e
21 P1 lseek 1 0 CUR -> 0
22 P1 read 1 9 -> 3 abc
",
    },
    // The same in a transaction, which has written what it reads.
    Row {
        script: "priorities 0
1 open /a WRONLY,CREAT
1 open /a RDONLY
1 pipe
1 begin
1 write 0 abc
1 pread 9 5 -1
1 pread 64 0 -1
1 pread 0 5 -1
1 pread 3 5 -1
1 pread 2 5 -1
1 pread 2 0 0
1 pread 1 0 -1
1 pread 1 5 -9223372036854775808
1 pread 1 0 0
1 pread 1 0 9223372036854775807
1 pread 1 2 0
1 pread 1 1048576 1
1 pread 1 5 3
1 pread 1 5 4
1 pread 1 5 4294967296
1 pread 1 5 9223372036854775807
1 lseek 1 0 CUR
1 read 1 9
1 end
1 pread 1 9 2
",
        schedule: "1,1,1,1,1,1,1,1,1,1,1,1,1,1,1,1,1,1,1,1,1,1,1,1,1",
        limit: 100,
        transcript: "1 P1 open /a WRONLY,CREAT -> 0
2 P1 open /a RDONLY -> 1
3 P1 pipe -> 2 3
4 P1 begin -> begun
5 P1 write 0 abc -> 3
6 P1 pread 9 5 -1 -> EBADF
7 P1 pread 64 0 -1 -> EBADF
8 P1 pread 0 5 -1 -> EBADF
9 P1 pread 3 5 -1 -> EBADF
10 P1 pread 2 5 -1 -> ESPIPE
11 P1 pread 2 0 0 -> ESPIPE
12 P1 pread 1 0 -1 -> EINVAL
13 P1 pread 1 5 -9223372036854775808 -> EINVAL
14 P1 pread 1 0 0 -> 0 \\e
15 P1 pread 1 0 9223372036854775807 -> 0 \\e
16 P1 pread 1 2 0 -> 2 ab
17 P1 pread 1 1048576 1 -> 2 bc
18 P1 pread 1 5 3 -> 0 \\e
19 P1 pread 1 5 4 -> 0 \\e
20 P1 pread 1 5 4294967296 -> 0 \\e
21 P1 pread 1 5 9223372036854775807 -> 0 \\e
22 P1 lseek 1 0 CUR -> 0
23 P1 read 1 9 -> 3 abc
24 P1 end -> committed
25 P1 pread 1 9 2 -> 1 c
",
    },
    // The tests of a write likewise. Nobody is asked whether a pipe has a reader.
    row_after! {
        after: a_file_twice_and_a_pipe,
        priorities: "0",
        script: "1 pwrite 9 x -1
1 pwrite 64 \\e -1
1 pwrite 0 x -1
1 pwrite 2 x -1
1 close 2
1 pwrite 3 x -1
1 pwrite 3 \\e 0
1 pwrite 1 \\e -1
1 pwrite 1 x -1
1 pwrite 1 x -9223372036854775808
1 pwrite 1 \\e 1048577
1 pwrite 1 \\e 9223372036854775807
1 pwrite 1 x 1048576
1 pwrite 1 x 4294967296
1 pwrite 1 x 9223372036854775807
1 fstat 1
1 pwrite 1 xy 1048575
1 fstat 1
1 pread 1 9 1048574
1 lseek 1 0 CUR
1 lseek 0 0 CUR
",
        schedule: "1,1,1,1,1,1,1,1,1,1,1,1,1,1,1,1,1,1,1,1,1",
        transcript: "4 P1 pwrite 9 x -1 -> EBADF
5 P1 pwrite 64 \\e -1 -> EBADF
6 P1 pwrite 0 x -1 -> EBADF
7 P1 pwrite 2 x -1 -> EBADF
8 P1 close 2 -> ok
9 P1 pwrite 3 x -1 -> ESPIPE
10 P1 pwrite 3 \\e 0 -> ESPIPE
11 P1 pwrite 1 \\e -1 -> EINVAL
12 P1 pwrite 1 x -1 -> EINVAL
13 P1 pwrite 1 x -9223372036854775808 -> EINVAL
14 P1 pwrite 1 \\e 1048577 -> 0
15 P1 pwrite 1 \\e 9223372036854775807 -> 0
16 P1 pwrite 1 x 1048576 -> EFBIG
17 P1 pwrite 1 x 4294967296 -> EFBIG
18 P1 pwrite 1 x 9223372036854775807 -> EFBIG
19 P1 fstat 1 -> file size 0 links 1
20 P1 pwrite 1 xy 1048575 -> 1
21 P1 fstat 1 -> file size 1048576 links 1
22 P1 pread 1 9 1048574 -> 2 \\x00x
23 P1 lseek 1 0 CUR -> 0
24 P1 lseek 0 0 CUR -> 0
",
    },
    // The same in a transaction.
    row_after! {
        after: a_file_twice_and_a_pipe,
        priorities: "0 0",
        script: "1 begin
1 pwrite 9 x -1
1 pwrite 64 \\e -1
1 pwrite 0 x -1
1 pwrite 2 x -1
1 close 2
1 pwrite 3 x -1
1 pwrite 3 \\e 0
1 pwrite 1 \\e -1
1 pwrite 1 x -1
1 pwrite 1 x -9223372036854775808
1 pwrite 1 \\e 1048577
1 pwrite 1 \\e 9223372036854775807
1 pwrite 1 x 1048576
1 pwrite 1 x 4294967296
1 pwrite 1 x 9223372036854775807
1 fstat 1
1 pwrite 1 xy 1048575
1 fstat 1
1 pread 1 9 1048574
1 lseek 1 0 CUR
1 lseek 0 0 CUR
2 stat /a
1 end
1 pread 1 9 1048574
1 lseek 1 0 CUR
",
        schedule: "1,1,1,1,1,1,1,1,1,1,1,1,1,1,1,1,1,1,1,1,1,1,2,1,1,1",
        transcript: "4 P1 begin -> begun
5 P1 pwrite 9 x -1 -> EBADF
6 P1 pwrite 64 \\e -1 -> EBADF
7 P1 pwrite 0 x -1 -> EBADF
8 P1 pwrite 2 x -1 -> EBADF
9 P1 close 2 -> ok
10 P1 pwrite 3 x -1 -> ESPIPE
11 P1 pwrite 3 \\e 0 -> ESPIPE
12 P1 pwrite 1 \\e -1 -> EINVAL
13 P1 pwrite 1 x -1 -> EINVAL
14 P1 pwrite 1 x -9223372036854775808 -> EINVAL
15 P1 pwrite 1 \\e 1048577 -> 0
16 P1 pwrite 1 \\e 9223372036854775807 -> 0
17 P1 pwrite 1 x 1048576 -> EFBIG
18 P1 pwrite 1 x 4294967296 -> EFBIG
19 P1 pwrite 1 x 9223372036854775807 -> EFBIG
20 P1 fstat 1 -> file size 0 links 1
21 P1 pwrite 1 xy 1048575 -> 1
22 P1 fstat 1 -> file size 1048576 links 1
23 P1 pread 1 9 1048574 -> 2 \\x00x
24 P1 lseek 1 0 CUR -> 0
25 P1 lseek 0 0 CUR -> 0
26 P2 stat /a -> file size 0 links 1
27 P1 end -> committed
28 P1 pread 1 9 1048574 -> 2 \\x00x
29 P1 lseek 1 0 CUR -> 0
",
    },
];
