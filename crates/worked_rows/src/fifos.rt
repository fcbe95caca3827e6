// Rows of FIFOs and sockets.
use crate::row::Row;

pub(crate) static FIFOS: [Row; 4] = [
    // A FIFO and a socket have names, links, and no content.
    Row {
        script: "priorities 0 0
1 mknod /f fifo
1 mknod /s socket
2 stat /f
2 lstat /f
2 stat /s
2 lstat /s
2 list /
1 link /f /g
1 stat /g
1 link /s /f
1 link /s /t
1 lstat /t
1 rename /f /s
1 lstat /s
1 lstat /t
1 unlink /g
1 unlink /s
1 unlink /t
2 list /
",
        schedule: "1,1,2,2,2,2,2,1,1,1,1,1,1,1,1,1,1,1,2",
        limit: 100,
        transcript: "1 P1 mknod /f fifo -> ok
2 P1 mknod /s socket -> ok
3 P2 stat /f -> fifo size 0 links 1
4 P2 lstat /f -> fifo size 0 links 1
5 P2 stat /s -> socket size 0 links 1
6 P2 lstat /s -> socket size 0 links 1
7 P2 list / -> names 2 f s
8 P1 link /f /g -> ok
9 P1 stat /g -> fifo size 0 links 2
10 P1 link /s /f -> EEXIST
11 P1 link /s /t -> ok
12 P1 lstat /t -> socket size 0 links 2
13 P1 rename /f /s -> ok
14 P1 lstat /s -> fifo size 0 links 2
15 P1 lstat /t -> socket size 0 links 1
16 P1 unlink /g -> ok
17 P1 unlink /s -> ok
18 P1 unlink /t -> ok
19 P2 list / -> names 0
",
    },
    // The same in a transaction, which others see at its end.
    Row {
        script: "priorities 0 0
1 begin
1 mknod /f fifo
1 mknod /s socket
1 stat /f
1 lstat /s
2 lstat /f
2 list /
1 link /f /g
1 stat /g
1 link /s /f
1 link /s /t
1 lstat /t
1 rename /f /s
1 lstat /s
1 lstat /t
1 unlink /g
1 end
2 list /
2 lstat /s
2 stat /t
",
        schedule: "1,1,1,1,1,2,2,1,1,1,1,1,1,1,1,1,1,2,2,2",
        limit: 100,
        transcript: "1 P1 begin -> begun
2 P1 mknod /f fifo -> ok
3 P1 mknod /s socket -> ok
4 P1 stat /f -> fifo size 0 links 1
5 P1 lstat /s -> socket size 0 links 1
6 P2 lstat /f -> ENOENT
7 P2 list / -> names 0
8 P1 link /f /g -> ok
9 P1 stat /g -> fifo size 0 links 2
10 P1 link /s /f -> EEXIST
11 P1 link /s /t -> ok
12 P1 lstat /t -> socket size 0 links 2
13 P1 rename /f /s -> ok
14 P1 lstat /s -> fifo size 0 links 2
15 P1 lstat /t -> socket size 0 links 1
16 P1 unlink /g -> ok
17 P1 end -> committed
18 P2 list / -> names 2 s t
19 P2 lstat /s -> fifo size 0 links 1
20 P2 stat /t -> socket size 0 links 1
",
    },
    // A transaction that is given up has made none and has taken none.
    Row {
        script: "priorities 0
1 mknod /f fifo
1 begin
1 mknod /s socket
1 unlink /f
1 list /
1 abort
1 list /
1 begin
1 unlink /f
1 mknod /f socket
1 stat /f
1 end
1 stat /f
",
        schedule: "1,1,1,1,1,1,1,1,1,1,1,1,1",
        limit: 100,
        transcript: "1 P1 mknod /f fifo -> ok
2 P1 begin -> begun
3 P1 mknod /s socket -> ok
4 P1 unlink /f -> ok
5 P1 list / -> names 1 s
6 P1 abort -> given up
7 P1 list / -> names 1 f
8 P1 begin -> begun
9 P1 unlink /f -> ok
10 P1 mknod /f socket -> ok
11 P1 stat /f -> socket size 0 links 1
12 P1 end -> committed
13 P1 stat /f -> socket size 0 links 1
",
    },
    // They move over files and links, and these over them; over a directory moves none of them.
    Row {
        script: "priorities 0
1 mkdir /d
1 mknod /f fifo
1 mknod /s socket
1 symlink t /l
1 open /a WRONLY,CREAT
1 rename /f /d
1 rename /s /d
1 rename /l /d
1 rename /d /f
1 rename /d /s
1 rename /d /l
1 rename /f /l
1 lstat /l
1 rename /a /s
1 fstat 0
1 stat /s
1 rename /l /s
1 fstat 0
1 stat /s
1 list /
",
        schedule: "1,1,1,1,1,1,1,1,1,1,1,1,1,1,1,1,1,1,1,1",
        limit: 100,
        transcript: "1 P1 mkdir /d -> ok
2 P1 mknod /f fifo -> ok
3 P1 mknod /s socket -> ok
4 P1 symlink t /l -> ok
5 P1 open /a WRONLY,CREAT -> 0
6 P1 rename /f /d -> EISDIR
7 P1 rename /s /d -> EISDIR
8 P1 rename /l /d -> EISDIR
9 P1 rename /d /f -> ENOTDIR
10 P1 rename /d /s -> ENOTDIR
11 P1 rename /d /l -> ENOTDIR
12 P1 rename /f /l -> ok
13 P1 lstat /l -> fifo size 0 links 1
14 P1 rename /a /s -> ok
15 P1 fstat 0 -> file size 0 links 1
16 P1 stat /s -> file size 0 links 1
17 P1 rename /l /s -> ok
18 P1 fstat 0 -> file size 0 links 0
19 P1 stat /s -> fifo size 0 links 1
20 P1 list / -> names 2 d s
",
    },
];
