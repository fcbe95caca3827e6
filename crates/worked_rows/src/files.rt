// Rows of files and descriptors.
use crate::row::Row;

pub(crate) static FILES: [Row; 9] = [
    // What is written is read from the same place.
    Row {
        script: "priorities 0 0
1 open /a RDWR,CREAT
1 write 0 hi
1 lseek 0 0 SET
1 read 0 5
",
        schedule: "1,1,1,1",
        limit: 100,
        transcript: "1 P1 open /a RDWR,CREAT -> 0
2 P1 write 0 hi -> 2
3 P1 lseek 0 0 SET -> 0
4 P1 read 0 5 -> 2 hi
",
    },
    // A file that a transaction makes is seen after its end.
    Row {
        script: "priorities 0 0
1 begin
1 open /a WRONLY,CREAT
2 stat /a
1 end
2 stat /a
",
        schedule: "1,1,2,1,2",
        limit: 100,
        transcript: "1 P1 begin -> begun
2 P1 open /a WRONLY,CREAT -> 0
3 P2 stat /a -> ENOENT
4 P1 end -> committed
5 P2 stat /a -> file size 0 links 1
",
    },
    // The later transaction loses against who makes a file.
    Row {
        script: "priorities 0 0
1 begin
1 open /a WRONLY,CREAT
2 begin
2 stat /a
1 end
",
        schedule: "1,1,2,2,1",
        limit: 100,
        transcript: "1 P1 begin -> begun
2 P1 open /a WRONLY,CREAT -> 0
3 P2 begin -> begun
4 P2 stat /a -> aborted entry a read by P1
5 P1 end -> committed
",
    },
    // A cut and a growth hide the bytes that were there.
    Row {
        script: "priorities 0 0
1 open /a RDWR,CREAT
1 fill 0 40 78
1 begin
1 ftruncate 0 10
1 ftruncate 0 30
1 lseek 0 9 SET
1 read 0 3
1 end
2 stat /a
1 lseek 0 9 SET
1 read 0 3
",
        schedule: "1,1,1,1,1,1,1,1,2,1,1",
        limit: 100,
        transcript: "1 P1 open /a RDWR,CREAT -> 0
2 P1 write 0 xxxxxxxxxxxxxxxxxxxxxxxxxxxxxxxxxxxxxxxx -> 40
3 P1 begin -> begun
4 P1 ftruncate 0 10 -> ok
5 P1 ftruncate 0 30 -> ok
6 P1 lseek 0 9 SET -> 9
7 P1 read 0 3 -> 3 x\\x00\\x00
8 P1 end -> committed
9 P2 stat /a -> file size 30 links 1
10 P1 lseek 0 9 SET -> 9
11 P1 read 0 3 -> 3 x\\x00\\x00
",
    },
    // Two that read each other's file and write their own: the later one loses.
    Row {
        script: "priorities 0 0
1 open /x RDWR,CREAT
1 open /y RDWR,CREAT
2 open /x RDWR
2 open /y RDWR
1 begin
2 begin
1 read 0 1
2 read 1 1
1 write 1 p
2 write 0 q
1 end
",
        schedule: "1,1,2,2,1,2,1,2,1,2,1",
        limit: 100,
        transcript: "1 P1 open /x RDWR,CREAT -> 0
2 P1 open /y RDWR,CREAT -> 1
3 P2 open /x RDWR -> 0
4 P2 open /y RDWR -> 1
5 P1 begin -> begun
6 P2 begin -> begun
7 P1 read 0 1 -> 0 \\e
8 P2 read 1 1 -> 0 \\e
9 P1 write 1 p -> 1 dooms P2
10 P2 write 0 q -> aborted size read by P1
11 P1 end -> committed
",
    },
    // A file ends at its largest length.
    Row {
        script: "priorities 0 0
1 open /a RDWR,CREAT
1 lseek 0 1048575 SET
1 write 0 xy
1 write 0 z
1 lseek 0 1048577 SET
1 lseek 0 -1 SET
1 fstat 0
",
        schedule: "1,1,1,1,1,1,1",
        limit: 100,
        transcript: "1 P1 open /a RDWR,CREAT -> 0
2 P1 lseek 0 1048575 SET -> 1048575
3 P1 write 0 xy -> 1
4 P1 write 0 z -> EFBIG
5 P1 lseek 0 1048577 SET -> EINVAL
6 P1 lseek 0 -1 SET -> EINVAL
7 P1 fstat 0 -> file size 1048576 links 1
",
    },
    // Two transactions write two blocks of one file.
    Row {
        script: "priorities 0 0
1 open /a RDWR,CREAT
1 ftruncate 0 2048
2 open /a RDWR
1 begin
2 begin
1 write 0 x
2 lseek 0 1024 SET
2 write 0 y
2 end
1 end
1 fstat 0
1 lseek 0 1023 SET
1 read 0 2
",
        schedule: "1,1,2,1,2,1,2,2,2,1,1,1,1",
        limit: 100,
        transcript: "1 P1 open /a RDWR,CREAT -> 0
2 P1 ftruncate 0 2048 -> ok
3 P2 open /a RDWR -> 0
4 P1 begin -> begun
5 P2 begin -> begun
6 P1 write 0 x -> 1
7 P2 lseek 0 1024 SET -> 1024
8 P2 write 0 y -> 1
9 P2 end -> committed
10 P1 end -> committed
11 P1 fstat 0 -> file size 2048 links 1
12 P1 lseek 0 1023 SET -> 1023
13 P1 read 0 2 -> 2 \\x00y
",
    },
    // A write past the end changes the length, which another has read.
    Row {
        script: "priorities 0 0
1 open /a RDWR,CREAT
1 ftruncate 0 2048
2 open /a RDWR
1 begin
2 begin
2 lseek 0 1024 SET
2 write 0 y
1 lseek 0 2047 SET
1 write 0 pq
2 end
1 end
2 stat /a
",
        schedule: "1,1,2,1,2,2,2,1,1,2,1,2",
        limit: 100,
        transcript: "1 P1 open /a RDWR,CREAT -> 0
2 P1 ftruncate 0 2048 -> ok
3 P2 open /a RDWR -> 0
4 P1 begin -> begun
5 P2 begin -> begun
6 P2 lseek 0 1024 SET -> 1024
7 P2 write 0 y -> 1
8 P1 lseek 0 2047 SET -> 2047
9 P1 write 0 pq -> 2 dooms P2
10 P2 end -> aborted size read by P1
11 P1 end -> committed
12 P2 stat /a -> file size 2049 links 1
",
    },
    // An aborted transaction leaves bytes, offsets and descriptors as they were.
    Row {
        script: "priorities 0 0
1 open /a RDWR,CREAT
1 write 0 hi
1 begin
1 write 0 gh
1 open /b RDWR,CREAT
1 close 0
1 abort
1 write 0 !
1 lseek 0 0 SET
1 read 0 9
1 close 1
1 stat /b
",
        schedule: "1,1,1,1,1,1,1,1,1,1,1,1",
        limit: 100,
        transcript: "1 P1 open /a RDWR,CREAT -> 0
2 P1 write 0 hi -> 2
3 P1 begin -> begun
4 P1 write 0 gh -> 2
5 P1 open /b RDWR,CREAT -> 1
6 P1 close 0 -> ok
7 P1 abort -> given up
8 P1 write 0 ! -> 1
9 P1 lseek 0 0 SET -> 0
10 P1 read 0 9 -> 3 hi!
11 P1 close 1 -> EBADF
12 P1 stat /b -> ENOENT
",
    },
];
