// Rows of descriptors that share a description.
use crate::row::Row;

pub(crate) static SHARED: [Row; 4] = [
    // Both descriptors move one offset. The file goes with the last of them.
    Row {
        script: "priorities 0
1 open /a RDWR,CREAT
1 dup 0
1 write 1 ab
1 lseek 0 0 CUR
1 close 0
1 lseek 1 0 SET
1 read 1 9
1 dup 5
1 dup2 5 6
1 dup2 1 64
1 dup2 1 1
1 dup2 1 63
1 unlink /a
1 close 1
1 fstat 63
1 close 63
1 fstat 63
",
        schedule: "1,1,1,1,1,1,1,1,1,1,1,1,1,1,1,1,1",
        limit: 100,
        transcript: "1 P1 open /a RDWR,CREAT -> 0
2 P1 dup 0 -> 1
3 P1 write 1 ab -> 2
4 P1 lseek 0 0 CUR -> 2
5 P1 close 0 -> ok
6 P1 lseek 1 0 SET -> 0
7 P1 read 1 9 -> 2 ab
8 P1 dup 5 -> EBADF
9 P1 dup2 5 6 -> EBADF
10 P1 dup2 1 64 -> EBADF
11 P1 dup2 1 1 -> 1
12 P1 dup2 1 63 -> 63
13 P1 unlink /a -> ok
14 P1 close 1 -> ok
15 P1 fstat 63 -> file size 2 links 0
16 P1 close 63 -> ok
17 P1 fstat 63 -> EBADF
",
    },
    // A descriptor that is open is closed first.
    Row {
        script: "priorities 0
1 open /a RDWR,CREAT
1 open /b RDWR,CREAT
1 write 0 ab
1 dup2 0 1
1 fstat 1
1 lseek 1 0 CUR
1 dup 1
1 stat /b
",
        schedule: "1,1,1,1,1,1,1,1",
        limit: 100,
        transcript: "1 P1 open /a RDWR,CREAT -> 0
2 P1 open /b RDWR,CREAT -> 1
3 P1 write 0 ab -> 2
4 P1 dup2 0 1 -> 1
5 P1 fstat 1 -> file size 2 links 1
6 P1 lseek 1 0 CUR -> 2
7 P1 dup 1 -> 2
8 P1 stat /b -> file size 0 links 1
",
    },
    // What a transaction has shared is gone when it is given up, and its offset is as before.
    Row {
        script: "priorities 0
1 open /a RDWR,CREAT
1 begin
1 dup 0
1 write 1 x
1 lseek 0 0 CUR
1 abort
1 fstat 1
1 lseek 0 0 CUR
1 begin
1 dup 0
1 write 1 x
1 close 0
1 end
1 fstat 0
1 lseek 1 0 CUR
",
        schedule: "1,1,1,1,1,1,1,1,1,1,1,1,1,1,1",
        limit: 100,
        transcript: "1 P1 open /a RDWR,CREAT -> 0
2 P1 begin -> begun
3 P1 dup 0 -> 1
4 P1 write 1 x -> 1
5 P1 lseek 0 0 CUR -> 1
6 P1 abort -> given up
7 P1 fstat 1 -> EBADF
8 P1 lseek 0 0 CUR -> 0
9 P1 begin -> begun
10 P1 dup 0 -> 1
11 P1 write 1 x -> 1
12 P1 close 0 -> ok
13 P1 end -> committed
14 P1 fstat 0 -> EBADF
15 P1 lseek 1 0 CUR -> 1
",
    },
    // Another unlinks the file that a transaction shares: it stays while a descriptor gives it.
    Row {
        script: "priorities 0 0
1 open /a RDWR,CREAT
1 begin
1 dup2 0 7
1 close 0
2 unlink /a
1 end
1 fstat 7
1 close 7
2 open /b RDWR,CREAT
",
        schedule: "1,1,1,1,2,1,1,1,2",
        limit: 100,
        transcript: "1 P1 open /a RDWR,CREAT -> 0
2 P1 begin -> begun
3 P1 dup2 0 7 -> 7
4 P1 close 0 -> ok
5 P2 unlink /a -> ok
6 P1 end -> committed
7 P1 fstat 7 -> file size 0 links 0
8 P1 close 7 -> ok
9 P2 open /b RDWR,CREAT -> 0
",
    },
];
