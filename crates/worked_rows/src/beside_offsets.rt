// Rows of reads and writes at an offset beside other transactions.
use crate::row::Row;

pub(crate) static BESIDE_OFFSETS: [Row; 8] = [
    // Two writes into different blocks of a file that stay inside it do not clash, though both
    // processes share the offset.
    Row {
        script: "priorities 0
1 open /a RDWR,CREAT
1 ftruncate 0 2048
1 fork
1 begin
2 begin
1 pwrite 0 x 1023
2 pwrite 0 yz 1024
2 pwrite 0 w 2047
2 end
1 end
1 pread 0 4 1022
1 pread 0 9 2046
2 lseek 0 0 CUR
",
        schedule: "1,1,1,1,2,1,2,2,2,1,1,1,2",
        limit: 100,
        transcript: "1 P1 open /a RDWR,CREAT -> 0
2 P1 ftruncate 0 2048 -> ok
3 P1 fork -> child 2
4 P1 begin -> begun
5 P2 begin -> begun
6 P1 pwrite 0 x 1023 -> 1
7 P2 pwrite 0 yz 1024 -> 2
8 P2 pwrite 0 w 2047 -> 1
9 P2 end -> committed
10 P1 end -> committed
11 P1 pread 0 4 1022 -> 4 \\x00xyz
12 P1 pread 0 9 2046 -> 2 \\x00w
13 P2 lseek 0 0 CUR -> 0
",
    },
    // Two into one block do: the later one loses, and a plain one dooms.
    Row {
        script: "priorities 0 0
1 open /a RDWR,CREAT
1 ftruncate 0 2048
2 open /a RDWR
1 begin
2 begin
1 pwrite 0 x 0
2 pwrite 0 y 1023
1 end
2 begin
2 pwrite 0 y 1023
1 pwrite 0 z 5
2 end
2 pread 0 6 0
2 pread 0 2 1023
",
        schedule: "1,1,2,1,2,1,2,1,2,2,1,2,2,2",
        limit: 100,
        transcript: "1 P1 open /a RDWR,CREAT -> 0
2 P1 ftruncate 0 2048 -> ok
3 P2 open /a RDWR -> 0
4 P1 begin -> begun
5 P2 begin -> begun
6 P1 pwrite 0 x 0 -> 1
7 P2 pwrite 0 y 1023 -> aborted block 0 write by P1
8 P1 end -> committed
9 P2 begin -> begun
10 P2 pwrite 0 y 1023 -> 1
11 P1 pwrite 0 z 5 -> 1 dooms P2
12 P2 end -> aborted block 0 write by P1
13 P2 pread 0 6 0 -> 6 x\\x00\\x00\\x00\\x00z
14 P2 pread 0 2 1023 -> 2 \\x00\\x00
",
    },
    // A read of one block and a write into another do not clash, and into the same one they do.
    Row {
        script: "priorities 0 0
1 open /a RDWR,CREAT
1 ftruncate 0 2048
2 open /a RDWR
1 begin
2 begin
1 pread 0 2 0
2 pwrite 0 y 1024
2 end
1 pread 0 1 1024
2 pwrite 0 z 2047
1 end
1 begin
1 pwrite 0 x 0
2 begin
2 pread 0 1 1024
2 pread 0 1 1023
1 end
",
        schedule: "1,1,2,1,2,1,2,2,1,2,1,1,1,2,2,2,1",
        limit: 100,
        transcript: "1 P1 open /a RDWR,CREAT -> 0
2 P1 ftruncate 0 2048 -> ok
3 P2 open /a RDWR -> 0
4 P1 begin -> begun
5 P2 begin -> begun
6 P1 pread 0 2 0 -> 2 \\x00\\x00
7 P2 pwrite 0 y 1024 -> 1
8 P2 end -> committed
9 P1 pread 0 1 1024 -> 1 y
10 P2 pwrite 0 z 2047 -> 1 dooms P1
11 P1 end -> aborted block 1 read by P2
12 P1 begin -> begun
13 P1 pwrite 0 x 0 -> 1
14 P2 begin -> begun
15 P2 pread 0 1 1024 -> 1 y
16 P2 pread 0 1 1023 -> aborted block 0 read by P1
17 P1 end -> committed
",
    },
    // A write behind the end changes the length, which a read at any offset has asked for. A read
    // at the end or behind it has seen the length alone.
    Row {
        script: "priorities 0 0
1 open /a RDWR,CREAT
1 ftruncate 0 2048
2 open /a RDWR
1 begin
1 pread 0 1 0
2 pwrite 0 y 2048
1 end
1 begin
1 pread 0 9 2049
2 pwrite 0 x 2048
1 pread 0 9 2048
1 end
",
        schedule: "1,1,2,1,1,2,1,1,1,2,1,1",
        limit: 100,
        transcript: "1 P1 open /a RDWR,CREAT -> 0
2 P1 ftruncate 0 2048 -> ok
3 P2 open /a RDWR -> 0
4 P1 begin -> begun
5 P1 pread 0 1 0 -> 1 \\x00
6 P2 pwrite 0 y 2048 -> 1 dooms P1
7 P1 end -> aborted size read by P2
8 P1 begin -> begun
9 P1 pread 0 9 2049 -> 0 \\e
10 P2 pwrite 0 x 2048 -> 1
11 P1 pread 0 9 2048 -> 1 x
12 P1 end -> committed
",
    },
    // The same where a transaction writes over the end: a later read loses, and a plain one sees
    // what is committed. A write that stays inside has asked for the length too.
    Row {
        script: "priorities 0 0
1 open /a RDWR,CREAT
1 ftruncate 0 2048
2 open /a RDWR
1 begin
2 begin
1 pwrite 0 yz 2047
2 pread 0 1 0
2 pread 0 9 2047
1 end
2 pread 0 9 2046
2 begin
2 pwrite 0 x 0
1 pwrite 0 w 2049
2 end
",
        schedule: "1,1,2,1,2,1,2,2,1,2,2,2,1,2",
        limit: 100,
        transcript: "1 P1 open /a RDWR,CREAT -> 0
2 P1 ftruncate 0 2048 -> ok
3 P2 open /a RDWR -> 0
4 P1 begin -> begun
5 P2 begin -> begun
6 P1 pwrite 0 yz 2047 -> 2
7 P2 pread 0 1 0 -> aborted size read by P1
8 P2 pread 0 9 2047 -> 1 \\x00
9 P1 end -> committed
10 P2 pread 0 9 2046 -> 3 \\x00yz
11 P2 begin -> begun
12 P2 pwrite 0 x 0 -> 1
13 P1 pwrite 0 w 2049 -> 1 dooms P2
14 P2 end -> aborted size read by P1
",
    },
    // A cut of another block dooms a read by the length. A read of no bytes has seen nothing.
    Row {
        script: "priorities 0 0
1 open /a RDWR,CREAT
1 ftruncate 0 2048
1 begin
1 pread 0 0 0
2 truncate /a 2047
1 pread 0 1 0
2 truncate /a 2047
2 truncate /a 2046
1 end
",
        schedule: "1,1,1,1,2,1,2,2,1",
        limit: 100,
        transcript: "1 P1 open /a RDWR,CREAT -> 0
2 P1 ftruncate 0 2048 -> ok
3 P1 begin -> begun
4 P1 pread 0 0 0 -> 0 \\e
5 P2 truncate /a 2047 -> ok
6 P1 pread 0 1 0 -> 1 \\x00
7 P2 truncate /a 2047 -> ok
8 P2 truncate /a 2046 -> ok dooms P1
9 P1 end -> aborted size read by P2
",
    },
    // A write that is refused or has no bytes has seen nothing either.
    Row {
        script: "priorities 0 0
1 open /a RDWR,CREAT
1 write 0 hello
1 begin
1 pwrite 0 x 1048576
1 pwrite 0 x -1
1 pread 0 9 -1
1 pwrite 0 \\e 0
2 truncate /a 2
1 end
1 pread 0 9 0
",
        schedule: "1,1,1,1,1,1,1,2,1,1",
        limit: 100,
        transcript: "1 P1 open /a RDWR,CREAT -> 0
2 P1 write 0 hello -> 5
3 P1 begin -> begun
4 P1 pwrite 0 x 1048576 -> EFBIG
5 P1 pwrite 0 x -1 -> EINVAL
6 P1 pread 0 9 -1 -> EINVAL
7 P1 pwrite 0 \\e 0 -> 0
8 P2 truncate /a 2 -> ok
9 P1 end -> committed
10 P1 pread 0 9 0 -> 2 he
",
    },
    // A reader of a higher priority dooms who has written the block, and a plain write is put off.
    Row {
        script: "priorities 0 1
1 open /a RDWR,CREAT
1 write 0 hello
2 open /a RDONLY
1 begin
1 pwrite 0 J 0
2 begin
2 pread 0 9 1
1 end
1 pwrite 0 J 0
1 pwrite 0 x 5
2 end
1 pwrite 0 J 0
2 pread 0 9 0
",
        schedule: "1,1,2,1,1,2,2,1,1,1,2,1,2",
        limit: 100,
        transcript: "1 P1 open /a RDWR,CREAT -> 0
2 P1 write 0 hello -> 5
3 P2 open /a RDONLY -> 0
4 P1 begin -> begun
5 P1 pwrite 0 J 0 -> 1
6 P2 begin -> begun
7 P2 pread 0 9 1 -> 4 ello dooms P1
8 P1 end -> aborted block 0 write by P2
9 P1 pwrite 0 J 0 -> busy block 0 write by P2
10 P1 pwrite 0 x 5 -> busy size write by P2
11 P2 end -> committed
12 P1 pwrite 0 J 0 -> 1
13 P2 pread 0 9 0 -> 5 Jello
",
    },
];
