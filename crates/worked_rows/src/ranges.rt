// Rows of ranges of a file that are kept for it or punched, and of its holes.
use crate::row::Row;

pub(crate) static RANGES: [Row; 10] = [
    // The tests of a range in their order, each where those behind it would refuse too.
    Row {
        script: "priorities 0
1 open /a RDONLY,CREAT
1 open /a RDWR
1 pipe
1 fallocate 9 -1 0 GROW
1 fallocate 0 -1 0 GROW
1 fallocate 0 0 0 PUNCH
1 fallocate 0 0 -1 KEEP
1 fallocate 0 9223372036854775807 9223372036854775807 KEEP
1 fallocate 2 9223372036854775807 1 PUNCH
1 fallocate 3 9223372036854775807 1 PUNCH
1 fallocate 1 9223372036854775807 9223372036854775807 GROW
1 fallocate 1 1048576 1 KEEP
1 fallocate 1 1048575 2 PUNCH
1 fstat 1
1 fallocate 1 1048575 1 KEEP
1 fallocate 1 1048575 1 PUNCH
1 fstat 1
1 fallocate 1 1048575 1 GROW
1 fstat 1
",
        schedule: "1,1,1,1,1,1,1,1,1,1,1,1,1,1,1,1,1,1,1",
        limit: 100,
        transcript: "1 P1 open /a RDONLY,CREAT -> 0
2 P1 open /a RDWR -> 1
3 P1 pipe -> 2 3
4 P1 fallocate 9 -1 0 GROW -> EBADF
5 P1 fallocate 0 -1 0 GROW -> EINVAL
6 P1 fallocate 0 0 0 PUNCH -> EINVAL
7 P1 fallocate 0 0 -1 KEEP -> EINVAL
8 P1 fallocate 0 9223372036854775807 9223372036854775807 KEEP -> EBADF
9 P1 fallocate 2 9223372036854775807 1 PUNCH -> EBADF
10 P1 fallocate 3 9223372036854775807 1 PUNCH -> ESPIPE
11 P1 fallocate 1 9223372036854775807 9223372036854775807 GROW -> EFBIG
12 P1 fallocate 1 1048576 1 KEEP -> EFBIG
13 P1 fallocate 1 1048575 2 PUNCH -> EFBIG
14 P1 fstat 1 -> file size 0 links 1
15 P1 fallocate 1 1048575 1 KEEP -> ok
16 P1 fallocate 1 1048575 1 PUNCH -> ok
17 P1 fstat 1 -> file size 0 links 1
18 P1 fallocate 1 1048575 1 GROW -> ok
19 P1 fstat 1 -> file size 1048576 links 1
",
    },
    // The same in a transaction.
    Row {
        script: "priorities 0
1 open /a RDONLY,CREAT
1 open /a RDWR
1 pipe
1 begin
1 fallocate 9 -1 0 GROW
1 fallocate 0 -1 0 GROW
1 fallocate 0 0 0 PUNCH
1 fallocate 0 0 1 KEEP
1 fallocate 3 1048576 1 PUNCH
1 fallocate 1 1048576 1 KEEP
1 fallocate 1 1048575 1 KEEP
1 fallocate 1 1048575 1 PUNCH
1 fstat 1
1 fallocate 1 1048575 1 GROW
1 end
1 fstat 1
",
        schedule: "1,1,1,1,1,1,1,1,1,1,1,1,1,1,1,1",
        limit: 100,
        transcript: "1 P1 open /a RDONLY,CREAT -> 0
2 P1 open /a RDWR -> 1
3 P1 pipe -> 2 3
4 P1 begin -> begun
5 P1 fallocate 9 -1 0 GROW -> EBADF
6 P1 fallocate 0 -1 0 GROW -> EINVAL
7 P1 fallocate 0 0 0 PUNCH -> EINVAL
8 P1 fallocate 0 0 1 KEEP -> EBADF
9 P1 fallocate 3 1048576 1 PUNCH -> ESPIPE
10 P1 fallocate 1 1048576 1 KEEP -> EFBIG
11 P1 fallocate 1 1048575 1 KEEP -> ok
12 P1 fallocate 1 1048575 1 PUNCH -> ok
13 P1 fstat 1 -> file size 0 links 1
14 P1 fallocate 1 1048575 1 GROW -> ok
15 P1 end -> committed
16 P1 fstat 1 -> file size 1048576 links 1
",
    },
    // A file grows to the end of a range, keeps its length and its bytes inside it, and a range
    // that is punched is zeros up to the end.
    Row {
        script: "priorities 0
1 open /a RDWR,CREAT
1 write 0 abcdefgh
1 fallocate 0 6 4 GROW
1 pread 0 20 0
1 fallocate 0 0 3 GROW
1 fallocate 0 0 99 KEEP
1 fstat 0
1 fallocate 0 2 3 PUNCH
1 pread 0 20 0
1 fallocate 0 7 99 PUNCH
1 pread 0 20 0
1 fallocate 0 10 5 PUNCH
1 fstat 0
1 lseek 0 0 CUR
",
        schedule: "1,1,1,1,1,1,1,1,1,1,1,1,1,1",
        limit: 100,
        transcript: "1 P1 open /a RDWR,CREAT -> 0
2 P1 write 0 abcdefgh -> 8
3 P1 fallocate 0 6 4 GROW -> ok
4 P1 pread 0 20 0 -> 10 abcdefgh\\x00\\x00
5 P1 fallocate 0 0 3 GROW -> ok
6 P1 fallocate 0 0 99 KEEP -> ok
7 P1 fstat 0 -> file size 10 links 1
8 P1 fallocate 0 2 3 PUNCH -> ok
9 P1 pread 0 20 0 -> 10 ab\\x00\\x00\\x00fgh\\x00\\x00
10 P1 fallocate 0 7 99 PUNCH -> ok
11 P1 pread 0 20 0 -> 10 ab\\x00\\x00\\x00fg\\x00\\x00\\x00
12 P1 fallocate 0 10 5 PUNCH -> ok
13 P1 fstat 0 -> file size 10 links 1
14 P1 lseek 0 0 CUR -> 8
",
    },
    // A range over three blocks: the one in the middle whole, its neighbours in part.
    Row {
        script: "priorities 0
1 open /a RDWR,CREAT
1 pwrite 0 ab 1022
1 pwrite 0 c 1500
1 pwrite 0 def 2047
1 pwrite 0 g 4095
1 fallocate 0 1023 1026 PUNCH
1 pread 0 2 1022
1 pread 0 1 1500
1 pread 0 3 2047
1 lseek 0 0 HOLE
1 lseek 0 1024 DATA
1 pwrite 0 c 1500
1 lseek 0 0 HOLE
1 pread 0 3 1499
1 fstat 0
",
        schedule: "1,1,1,1,1,1,1,1,1,1,1,1,1,1,1",
        limit: 100,
        transcript: "1 P1 open /a RDWR,CREAT -> 0
2 P1 pwrite 0 ab 1022 -> 2
3 P1 pwrite 0 c 1500 -> 1
4 P1 pwrite 0 def 2047 -> 3
5 P1 pwrite 0 g 4095 -> 1
6 P1 fallocate 0 1023 1026 PUNCH -> ok
7 P1 pread 0 2 1022 -> 2 a\\x00
8 P1 pread 0 1 1500 -> 1 \\x00
9 P1 pread 0 3 2047 -> 3 \\x00\\x00f
10 P1 lseek 0 0 HOLE -> 1024
11 P1 lseek 0 1024 DATA -> 2048
12 P1 pwrite 0 c 1500 -> 1
13 P1 lseek 0 0 HOLE -> 4096
14 P1 pread 0 3 1499 -> 3 \\x00c\\x00
15 P1 fstat 0 -> file size 4096 links 1
",
    },
    // A hole is a block of zeros, and the end is one: data is told from within it, a hole from
    // within data.
    Row {
        script: "priorities 0
1 open /a RDWR,CREAT
1 lseek 0 0 DATA
1 lseek 0 0 HOLE
1 ftruncate 0 5000
1 lseek 0 0 DATA
1 lseek 0 7 HOLE
1 pwrite 0 x 2050
1 lseek 0 0 DATA
1 lseek 0 2049 DATA
1 lseek 0 3071 DATA
1 lseek 0 3072 DATA
1 lseek 0 0 HOLE
1 lseek 0 2048 HOLE
1 lseek 0 3071 HOLE
1 lseek 0 4999 HOLE
1 pwrite 0 y 4999
1 lseek 0 3072 DATA
1 lseek 0 4096 HOLE
1 lseek 0 4999 HOLE
1 lseek 0 5000 HOLE
1 lseek 0 5000 DATA
1 lseek 0 -1 DATA
1 lseek 0 -1 HOLE
1 lseek 0 0 CUR
1 lseek 9 0 HOLE
1 pipe
1 lseek 1 -1 DATA
",
        schedule: "1,1,1,1,1,1,1,1,1,1,1,1,1,1,1,1,1,1,1,1,1,1,1,1,1,1,1",
        limit: 100,
        transcript: "1 P1 open /a RDWR,CREAT -> 0
2 P1 lseek 0 0 DATA -> ENXIO
3 P1 lseek 0 0 HOLE -> ENXIO
4 P1 ftruncate 0 5000 -> ok
5 P1 lseek 0 0 DATA -> ENXIO
6 P1 lseek 0 7 HOLE -> 7
7 P1 pwrite 0 x 2050 -> 1
8 P1 lseek 0 0 DATA -> 2048
9 P1 lseek 0 2049 DATA -> 2049
10 P1 lseek 0 3071 DATA -> 3071
11 P1 lseek 0 3072 DATA -> ENXIO
12 P1 lseek 0 0 HOLE -> 0
13 P1 lseek 0 2048 HOLE -> 3072
14 P1 lseek 0 3071 HOLE -> 3072
15 P1 lseek 0 4999 HOLE -> 4999
16 P1 pwrite 0 y 4999 -> 1
17 P1 lseek 0 3072 DATA -> 4096
18 P1 lseek 0 4096 HOLE -> 5000
19 P1 lseek 0 4999 HOLE -> 5000
20 P1 lseek 0 5000 HOLE -> ENXIO
21 P1 lseek 0 5000 DATA -> ENXIO
22 P1 lseek 0 -1 DATA -> ENXIO
23 P1 lseek 0 -1 HOLE -> ENXIO
24 P1 lseek 0 0 CUR -> 5000
25 P1 lseek 9 0 HOLE -> EBADF
26 P1 pipe -> 1 2
27 P1 lseek 1 -1 DATA -> ESPIPE
",
    },
    // Zeros that are written are a hole as well, and so is what was punched; what a punch leaves in
    // a block is data.
    Row {
        script: "priorities 0 0
1 open /a RDWR,CREAT
1 pwrite 0 x 0
1 pwrite 0 y 1024
1 pwrite 0 z 2048
1 lseek 0 0 HOLE
1 fallocate 0 1024 1024 PUNCH
1 lseek 0 0 HOLE
1 lseek 0 1024 DATA
1 pwrite 0 \\x00 0
1 lseek 0 0 DATA
2 open /a RDONLY
2 lseek 0 2048 HOLE
2 read 0 5
",
        schedule: "1,1,1,1,1,1,1,1,1,1,2,2,2",
        limit: 100,
        transcript: "1 P1 open /a RDWR,CREAT -> 0
2 P1 pwrite 0 x 0 -> 1
3 P1 pwrite 0 y 1024 -> 1
4 P1 pwrite 0 z 2048 -> 1
5 P1 lseek 0 0 HOLE -> 2049
6 P1 fallocate 0 1024 1024 PUNCH -> ok
7 P1 lseek 0 0 HOLE -> 1024
8 P1 lseek 0 1024 DATA -> 2048
9 P1 pwrite 0 \\x00 0 -> 1
10 P1 lseek 0 0 DATA -> 2048
11 P2 open /a RDONLY -> 0
12 P2 lseek 0 2048 HOLE -> 2049
13 P2 read 0 5 -> 0 \\e
",
    },
    // A transaction's own writes, cuts and punches count for it at once, and for the others behind
    // its end.
    Row {
        script: "priorities 0 0
1 open /a RDWR,CREAT
1 ftruncate 0 4096
1 pwrite 0 x 1024
2 open /a RDONLY
1 begin
1 pwrite 0 y 3072
1 fallocate 0 1024 1024 PUNCH
1 lseek 0 0 DATA
2 lseek 0 0 DATA
1 fallocate 0 4096 1024 GROW
1 lseek 0 4096 HOLE
1 lseek 0 3072 HOLE
1 end
2 lseek 0 0 DATA
2 lseek 0 5119 HOLE
",
        schedule: "1,1,1,2,1,1,1,1,2,1,1,1,1,2,2",
        limit: 100,
        transcript: "1 P1 open /a RDWR,CREAT -> 0
2 P1 ftruncate 0 4096 -> ok
3 P1 pwrite 0 x 1024 -> 1
4 P2 open /a RDONLY -> 0
5 P1 begin -> begun
6 P1 pwrite 0 y 3072 -> 1
7 P1 fallocate 0 1024 1024 PUNCH -> ok
8 P1 lseek 0 0 DATA -> 3072
9 P2 lseek 0 0 DATA -> 1024
10 P1 fallocate 0 4096 1024 GROW -> ok
11 P1 lseek 0 4096 HOLE -> 4096
12 P1 lseek 0 3072 HOLE -> 4096
13 P1 end -> committed
14 P2 lseek 0 0 DATA -> 3072
15 P2 lseek 0 5119 HOLE -> 5119
",
    },
    // What is given up has not been punched.
    Row {
        script: "priorities 0
1 open /a RDWR,CREAT
1 write 0 abcde
1 begin
1 fallocate 0 1 2 PUNCH
1 fallocate 0 0 9 GROW
1 pread 0 20 0
1 abort
1 pread 0 20 0
",
        schedule: "1,1,1,1,1,1,1,1",
        limit: 100,
        transcript: "1 P1 open /a RDWR,CREAT -> 0
2 P1 write 0 abcde -> 5
3 P1 begin -> begun
4 P1 fallocate 0 1 2 PUNCH -> ok
5 P1 fallocate 0 0 9 GROW -> ok
6 P1 pread 0 20 0 -> 9 a\\x00\\x00de\\x00\\x00\\x00\\x00
7 P1 abort -> given up
8 P1 pread 0 20 0 -> 5 abcde
",
    },
    // A punch in another block than a write does not clash with it, in the same one it does. A
    // length that is kept has seen nothing.
    Row {
        script: "priorities 0 0
1 open /a RDWR,CREAT
1 ftruncate 0 3072
2 open /a RDWR
1 begin
1 fallocate 0 1024 1024 PUNCH
2 pwrite 0 x 1023
2 pwrite 0 x 2048
2 pwrite 0 x 2047
1 end
1 begin
1 fallocate 0 0 9 KEEP
2 truncate /a 9
1 end
1 begin
1 fallocate 0 0 9 GROW
2 truncate /a 8
1 end
",
        schedule: "1,1,2,1,1,2,2,2,1,1,1,2,1,1,1,2,1",
        limit: 100,
        transcript: "1 P1 open /a RDWR,CREAT -> 0
2 P1 ftruncate 0 3072 -> ok
3 P2 open /a RDWR -> 0
4 P1 begin -> begun
5 P1 fallocate 0 1024 1024 PUNCH -> ok
6 P2 pwrite 0 x 1023 -> 1
7 P2 pwrite 0 x 2048 -> 1
8 P2 pwrite 0 x 2047 -> 1 dooms P1
9 P1 end -> aborted block 1 write by P2
10 P1 begin -> begun
11 P1 fallocate 0 0 9 KEEP -> ok
12 P2 truncate /a 9 -> ok
13 P1 end -> committed
14 P1 begin -> begun
15 P1 fallocate 0 0 9 GROW -> ok
16 P2 truncate /a 8 -> ok dooms P1
17 P1 end -> aborted size read by P2
",
    },
    // A search has seen the blocks that it passes and the one where it stops, and none behind.
    Row {
        script: "priorities 0 0
1 open /a RDWR,CREAT
1 ftruncate 0 5120
1 pwrite 0 x 2048
2 open /a RDWR
1 begin
1 lseek 0 1024 DATA
2 pwrite 0 y 3072
2 pwrite 0 y 1023
1 end
1 begin
1 lseek 0 1024 DATA
2 pwrite 0 y 1024
1 end
1 begin
1 lseek 0 0 HOLE
2 pwrite 0 y 4096
1 end
",
        schedule: "1,1,1,2,1,1,2,2,1,1,1,2,1,1,1,2,1",
        limit: 100,
        transcript: "1 P1 open /a RDWR,CREAT -> 0
2 P1 ftruncate 0 5120 -> ok
3 P1 pwrite 0 x 2048 -> 1
4 P2 open /a RDWR -> 0
5 P1 begin -> begun
6 P1 lseek 0 1024 DATA -> 2048
7 P2 pwrite 0 y 3072 -> 1
8 P2 pwrite 0 y 1023 -> 1
9 P1 end -> committed
10 P1 begin -> begun
11 P1 lseek 0 1024 DATA -> 2048
12 P2 pwrite 0 y 1024 -> 1 dooms P1
13 P1 end -> aborted block 1 read by P2
14 P1 begin -> begun
15 P1 lseek 0 0 HOLE -> 4096
16 P2 pwrite 0 y 4096 -> 1 dooms P1
17 P1 end -> aborted block 4 read by P2
",
    },
];
