// Rows of symbolic links, FIFOs and sockets beside other transactions.
use crate::row::Row;

pub(crate) static BESIDE_LINKS: [Row; 9] = [
    // Two transactions make the same name: the later one loses. Different names do not meet.
    Row {
        script: "priorities 0 0
1 begin
2 begin
1 symlink a /l
2 symlink b /k
2 symlink b /l
1 end
2 readlink /l
2 readlink /k
",
        schedule: "1,2,1,2,2,1,2,2",
        limit: 100,
        transcript: "1 P1 begin -> begun
2 P2 begin -> begun
3 P1 symlink a /l -> ok
4 P2 symlink b /k -> ok
5 P2 symlink b /l -> aborted entry l read by P1
6 P1 end -> committed
7 P2 readlink /l -> 1 a
8 P2 readlink /k -> ENOENT
",
    },
    // The same of a FIFO and a socket.
    Row {
        script: "priorities 0 0
1 begin
2 begin
1 mknod /f fifo
2 mknod /g socket
2 mknod /f socket
1 end
2 stat /f
2 stat /g
",
        schedule: "1,2,1,2,2,1,2,2",
        limit: 100,
        transcript: "1 P1 begin -> begun
2 P2 begin -> begun
3 P1 mknod /f fifo -> ok
4 P2 mknod /g socket -> ok
5 P2 mknod /f socket -> aborted entry f read by P1
6 P1 end -> committed
7 P2 stat /f -> fifo size 0 links 1
8 P2 stat /g -> ENOENT
",
    },
    // Who has read a link is doomed by who unlinks it, and by who moves something over it.
    Row {
        script: "priorities 0 0
1 symlink a /l
1 symlink b /k
1 begin
1 readlink /l
2 unlink /l
1 end
1 begin
1 readlink /k
2 mknod /f fifo
2 rename /f /k
1 readlink /k
1 lstat /k
",
        schedule: "1,1,1,1,2,1,1,1,2,2,1,1",
        limit: 100,
        transcript: "1 P1 symlink a /l -> ok
2 P1 symlink b /k -> ok
3 P1 begin -> begun
4 P1 readlink /l -> 1 a
5 P2 unlink /l -> ok dooms P1
6 P1 end -> aborted entry l read by P2
7 P1 begin -> begun
8 P1 readlink /k -> 1 b
9 P2 mknod /f fifo -> ok
10 P2 rename /f /k -> ok dooms P1
11 P1 readlink /k -> aborted entry k read by P2
12 P1 lstat /k -> fifo size 0 links 1
",
    },
    // Who has told about a link has seen how many names it has, and is doomed by one more. Who has
    // read its target alone is not.
    Row {
        script: "priorities 0 0
1 symlink a /l
1 begin
1 lstat /l
2 link /l /k
1 end
1 begin
1 readlink /l
2 link /l /j
2 unlink /k
1 end
1 lstat /l
",
        schedule: "1,1,1,2,1,1,1,2,2,1,1",
        limit: 100,
        transcript: "1 P1 symlink a /l -> ok
2 P1 begin -> begun
3 P1 lstat /l -> link size 1 links 1
4 P2 link /l /k -> ok dooms P1
5 P1 end -> aborted links read by P2
6 P1 begin -> begun
7 P1 readlink /l -> 1 a
8 P2 link /l /j -> ok
9 P2 unlink /k -> ok
10 P1 end -> committed
11 P1 lstat /l -> link size 1 links 2
",
    },
    // The same of a FIFO, which is told about by its links alone.
    Row {
        script: "priorities 0 0
1 mknod /f fifo
1 begin
1 stat /f
2 link /f /g
1 end
1 begin
1 link /f /h
2 unlink /g
1 end
2 stat /f
2 list /
",
        schedule: "1,1,1,2,1,1,1,2,1,2,2",
        limit: 100,
        transcript: "1 P1 mknod /f fifo -> ok
2 P1 begin -> begun
3 P1 stat /f -> fifo size 0 links 1
4 P2 link /f /g -> ok dooms P1
5 P1 end -> aborted links read by P2
6 P1 begin -> begun
7 P1 link /f /h -> ok
8 P2 unlink /g -> ok dooms P1
9 P1 end -> aborted links write by P2
10 P2 stat /f -> fifo size 0 links 1
11 P2 list / -> names 1 f
",
    },
    // What was refused at a link has seen the names up to it: who takes or makes one of these dooms
    // it, and who works behind it does not.
    Row {
        script: "priorities 0 0
1 mkdir /d
1 symlink d /l
1 begin
1 stat /l/x
1 stat /l
2 mkdir /d/x
1 end
1 begin
1 stat /l/x
2 unlink /l
1 end
1 begin
1 readlink /m
2 symlink d /m
1 end
1 begin
1 open /m RDONLY
2 rename /m /n
1 end
",
        schedule: "1,1,1,1,1,2,1,1,1,2,1,1,1,2,1,1,1,2,1",
        limit: 100,
        transcript: "1 P1 mkdir /d -> ok
2 P1 symlink d /l -> ok
3 P1 begin -> begun
4 P1 stat /l/x -> ELOOP
5 P1 stat /l -> ELOOP
6 P2 mkdir /d/x -> ok
7 P1 end -> committed
8 P1 begin -> begun
9 P1 stat /l/x -> ELOOP
10 P2 unlink /l -> ok dooms P1
11 P1 end -> aborted entry l read by P2
12 P1 begin -> begun
13 P1 readlink /m -> ENOENT
14 P2 symlink d /m -> ok dooms P1
15 P1 end -> aborted entry m read by P2
16 P1 begin -> begun
17 P1 open /m RDONLY -> ELOOP
18 P2 rename /m /n -> ok dooms P1
19 P1 end -> aborted entry m read by P2
",
    },
    // A plain call is put off by a transaction of a higher priority that has read the link.
    Row {
        script: "priorities 1 0
1 symlink a /l
1 begin
1 readlink /l
2 unlink /l
2 readlink /l
2 symlink b /k
1 end
2 unlink /l
2 list /
",
        schedule: "1,1,1,2,2,2,1,2,2",
        limit: 100,
        transcript: "1 P1 symlink a /l -> ok
2 P1 begin -> begun
3 P1 readlink /l -> 1 a
4 P2 unlink /l -> busy entry l write by P1
5 P2 readlink /l -> 1 a
6 P2 symlink b /k -> ok
7 P1 end -> committed
8 P2 unlink /l -> ok
9 P2 list / -> names 1 k
",
    },
    // A list dooms nobody and is doomed by each addition.
    Row {
        script: "priorities 0 0
1 begin
1 list /
2 symlink a /l
1 list /
1 begin
1 list /
2 mknod /f fifo
1 end
1 begin
1 symlink a /k
2 mknod /g socket
2 list /
1 end
2 list /
",
        schedule: "1,1,2,1,1,1,2,1,1,1,2,2,1,2",
        limit: 100,
        transcript: "1 P1 begin -> begun
2 P1 list / -> names 0
3 P2 symlink a /l -> ok dooms P1
4 P1 list / -> aborted names read by P2
5 P1 begin -> begun
6 P1 list / -> names 1 l
7 P2 mknod /f fifo -> ok dooms P1
8 P1 end -> aborted names read by P2
9 P1 begin -> begun
10 P1 symlink a /k -> ok
11 P2 mknod /g socket -> ok
12 P2 list / -> names 3 f g l
13 P1 end -> committed
14 P2 list / -> names 4 f g k l
",
    },
    // A transaction that loses begins anew, and makes its link then.
    Row {
        script: "priorities 0 0
1 begin RESTART
1 readlink /l
2 symlink a /l
1 symlink b /l
1 readlink /l
1 unlink /l
1 symlink b /l
1 end
2 readlink /l
",
        schedule: "1,1,2,1,1,1,1,1,2",
        limit: 100,
        transcript: "1 P1 begin RESTART -> begun
2 P1 readlink /l -> ENOENT
3 P2 symlink a /l -> ok dooms P1
4 P1 symlink b /l -> aborted entry l read by P2 restarted
5 P1 readlink /l -> 1 a
6 P1 unlink /l -> ok
7 P1 symlink b /l -> ok
8 P1 end -> committed
9 P2 readlink /l -> 1 b
",
    },
];
