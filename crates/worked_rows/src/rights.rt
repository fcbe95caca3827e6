// Rows of permissions and owners.
use crate::row::Row;

pub(crate) static RIGHTS: [Row; 7] = [
    // Permissions and an owner are set by a path and by a descriptor, and are told at once. What is
    // not named stays, and nothing is refused by them.
    Row {
        script: "priorities 0 0
1 open /a RDWR,CREAT
1 mkdir /d
1 stat /a
2 chmod /a 600
1 fstat 0
1 fchmod 0 7777
2 stat /a
1 fchmod 0 0
2 lstat /a
2 open /a RDWR
2 write 0 x
2 chown /a 5 -
1 fstat 0
1 fchown 0 - 7
2 stat /a
1 chown /a - -
2 stat /a
1 chown /a 4294967295 0
2 stat /a
1 chmod /d 0
1 mkdir /d/e
2 stat /d
2 stat /d/e
2 chmod / 1777
1 chown / 1 2
1 lstat /
",
        schedule: "1,1,1,2,1,1,2,1,2,2,2,2,1,1,2,1,2,1,2,1,1,2,2,2,1,1",
        limit: 100,
        transcript: "1 P1 open /a RDWR,CREAT -> 0
2 P1 mkdir /d -> ok
3 P1 stat /a -> file size 0 links 1
4 P2 chmod /a 600 -> ok
5 P1 fstat 0 -> file size 0 links 1 mode 600
6 P1 fchmod 0 7777 -> ok
7 P2 stat /a -> file size 0 links 1 mode 7777
8 P1 fchmod 0 0 -> ok
9 P2 lstat /a -> file size 0 links 1 mode 0
10 P2 open /a RDWR -> 0
11 P2 write 0 x -> 1
12 P2 chown /a 5 - -> ok
13 P1 fstat 0 -> file size 1 links 1 mode 0 owner 5 0
14 P1 fchown 0 - 7 -> ok
15 P2 stat /a -> file size 1 links 1 mode 0 owner 5 7
16 P1 chown /a - - -> ok
17 P2 stat /a -> file size 1 links 1 mode 0 owner 5 7
18 P1 chown /a 4294967295 0 -> ok
19 P2 stat /a -> file size 1 links 1 mode 0 owner 4294967295 0
20 P1 chmod /d 0 -> ok
21 P1 mkdir /d/e -> ok
22 P2 stat /d -> dir size 0 links 1 mode 0
23 P2 stat /d/e -> dir size 0 links 1
24 P2 chmod / 1777 -> ok
25 P1 chown / 1 2 -> ok
26 P1 lstat / -> dir size 0 links 1 mode 1777 owner 1 2
",
    },
    // The same in a transaction, which others see at its end.
    Row {
        script: "priorities 0 0
1 open /a RDWR,CREAT
1 mkdir /d
1 begin
1 chmod /a 600
1 fstat 0
2 stat /a
1 fchmod 0 7777
1 stat /a
1 fchmod 0 0
1 write 0 x
1 chown /a 5 -
1 fchown 0 - 7
1 lstat /a
1 chown /a - -
1 chown /d 1 2
1 chmod /d 0
1 mkdir /d/e
1 stat /d/e
1 chmod / 1777
1 stat /
2 stat /
2 lstat /d
1 end
2 stat /a
2 stat /d
2 stat /d/e
2 stat /
",
        schedule: "1,1,1,1,1,2,1,1,1,1,1,1,1,1,1,1,1,1,1,1,2,2,1,2,2,2,2",
        limit: 100,
        transcript: "1 P1 open /a RDWR,CREAT -> 0
2 P1 mkdir /d -> ok
3 P1 begin -> begun
4 P1 chmod /a 600 -> ok
5 P1 fstat 0 -> file size 0 links 1 mode 600
6 P2 stat /a -> file size 0 links 1
7 P1 fchmod 0 7777 -> ok
8 P1 stat /a -> file size 0 links 1 mode 7777
9 P1 fchmod 0 0 -> ok
10 P1 write 0 x -> 1
11 P1 chown /a 5 - -> ok
12 P1 fchown 0 - 7 -> ok
13 P1 lstat /a -> file size 1 links 1 mode 0 owner 5 7
14 P1 chown /a - - -> ok
15 P1 chown /d 1 2 -> ok
16 P1 chmod /d 0 -> ok
17 P1 mkdir /d/e -> ok
18 P1 stat /d/e -> dir size 0 links 1
19 P1 chmod / 1777 -> ok
20 P1 stat / -> dir size 0 links 1 mode 1777
21 P2 stat / -> dir size 0 links 1
22 P2 lstat /d -> dir size 0 links 1
23 P1 end -> committed
24 P2 stat /a -> file size 1 links 1 mode 0 owner 5 7
25 P2 stat /d -> dir size 0 links 1 mode 0 owner 1 2
26 P2 stat /d/e -> dir size 0 links 1
27 P2 stat / -> dir size 0 links 1 mode 1777
",
    },
    // A transaction that is given up has set none, whether its objects were there or are its own;
    // and one that begins anew sets them again.
    Row {
        script: "priorities 0 0
1 open /a RDWR,CREAT
1 chmod /a 640
1 begin
1 fchmod 0 600
1 chown /a 1 2
1 mkdir /d
1 chmod /d 700
1 stat /d
1 abort
1 stat /a
1 stat /d
1 begin RESTART
1 chmod /a 4711
1 abort
1 stat /a
1 chown /a 3 -
1 end
2 stat /a
",
        schedule: "1,1,1,1,1,1,1,1,1,1,1,1,1,1,1,1,1,2",
        limit: 100,
        transcript: "1 P1 open /a RDWR,CREAT -> 0
2 P1 chmod /a 640 -> ok
3 P1 begin -> begun
4 P1 fchmod 0 600 -> ok
5 P1 chown /a 1 2 -> ok
6 P1 mkdir /d -> ok
7 P1 chmod /d 700 -> ok
8 P1 stat /d -> dir size 0 links 1 mode 700
9 P1 abort -> given up
10 P1 stat /a -> file size 0 links 1 mode 640
11 P1 stat /d -> ENOENT
12 P1 begin RESTART -> begun
13 P1 chmod /a 4711 -> ok
14 P1 abort -> given up restarted
15 P1 stat /a -> file size 0 links 1 mode 640
16 P1 chown /a 3 - -> ok
17 P1 end -> committed
18 P2 stat /a -> file size 0 links 1 mode 640 owner 3 0
",
    },
    // Of a symbolic link the owner is set, and not that of what it leads to; its permissions never.
    // A FIFO, a socket and a pipe have rights of their own.
    Row {
        script: "priorities 0 0
1 symlink a /l
1 mkdir /a
1 chown /l 1 2
1 lstat /l
1 stat /a
1 chmod /l 644
1 link /l /k
1 lstat /k
1 mknod /f fifo
1 mknod /s socket
1 chmod /f 600
1 chown /s 3 4
1 stat /f
2 stat /s
1 pipe
1 fstat 0
1 fchmod 1 600
1 fstat 0
1 fchown 0 5 -
1 fstat 1
",
        schedule: "1,1,1,1,1,1,1,1,1,1,1,1,1,2,1,1,1,1,1,1",
        limit: 100,
        transcript: "1 P1 symlink a /l -> ok
2 P1 mkdir /a -> ok
3 P1 chown /l 1 2 -> ok
4 P1 lstat /l -> link size 1 links 1 owner 1 2
5 P1 stat /a -> dir size 0 links 1
6 P1 chmod /l 644 -> ELOOP
7 P1 link /l /k -> ok
8 P1 lstat /k -> link size 1 links 2 owner 1 2
9 P1 mknod /f fifo -> ok
10 P1 mknod /s socket -> ok
11 P1 chmod /f 600 -> ok
12 P1 chown /s 3 4 -> ok
13 P1 stat /f -> fifo size 0 links 1 mode 600
14 P2 stat /s -> socket size 0 links 1 owner 3 4
15 P1 pipe -> 0 1
16 P1 fstat 0 -> pipe size 0 links 0
17 P1 fchmod 1 600 -> ok
18 P1 fstat 0 -> pipe size 0 links 0 mode 600
19 P1 fchown 0 5 - -> ok
20 P1 fstat 1 -> pipe size 0 links 0 mode 600 owner 5 0
",
    },
    // The same in a transaction.
    Row {
        script: "priorities 0 0
1 begin
1 symlink a /l
1 mkdir /a
1 chown /l 1 2
1 lstat /l
1 stat /a
1 chmod /l 644
1 link /l /k
1 lstat /k
1 mknod /f fifo
1 mknod /s socket
1 chmod /f 600
1 chown /s 3 4
1 stat /f
1 stat /s
1 pipe
1 fstat 0
1 fchmod 1 600
1 fchown 0 5 -
1 fstat 1
1 end
2 lstat /k
2 stat /f
2 stat /s
1 fstat 0
",
        schedule: "1,1,1,1,1,1,1,1,1,1,1,1,1,1,1,1,1,1,1,1,1,2,2,2,1",
        limit: 100,
        transcript: "1 P1 begin -> begun
2 P1 symlink a /l -> ok
3 P1 mkdir /a -> ok
4 P1 chown /l 1 2 -> ok
5 P1 lstat /l -> link size 1 links 1 owner 1 2
6 P1 stat /a -> dir size 0 links 1
7 P1 chmod /l 644 -> ELOOP
8 P1 link /l /k -> ok
9 P1 lstat /k -> link size 1 links 2 owner 1 2
10 P1 mknod /f fifo -> ok
11 P1 mknod /s socket -> ok
12 P1 chmod /f 600 -> ok
13 P1 chown /s 3 4 -> ok
14 P1 stat /f -> fifo size 0 links 1 mode 600
15 P1 stat /s -> socket size 0 links 1 owner 3 4
16 P1 pipe -> 0 1
17 P1 fstat 0 -> pipe size 0 links 0
18 P1 fchmod 1 600 -> ok
19 P1 fchown 0 5 - -> ok
20 P1 fstat 1 -> pipe size 0 links 0 mode 600 owner 5 0
21 P1 end -> committed
22 P2 lstat /k -> link size 1 links 2 owner 1 2
23 P2 stat /f -> fifo size 0 links 1 mode 600
24 P2 stat /s -> socket size 0 links 1 owner 3 4
25 P1 fstat 0 -> pipe size 0 links 0 mode 600 owner 5 0
",
    },
    // With an owner set-user-ID goes, and set-group-ID where the group may execute the file, also
    // where nothing else is set; of a directory all stays. What a chmod sets behind that stands.
    Row {
        script: "priorities 0
1 open /a RDWR,CREAT
1 mkdir /d
1 mknod /f fifo
1 chmod /a 6755
1 chown /a 5 -
1 stat /a
1 chmod /a 6644
1 fchown 0 - -
1 fstat 0
1 chmod /a 7777
1 chown /a - 7
1 chmod /a 4755
1 stat /a
1 chmod /d 6777
1 chown /d 5 6
1 stat /d
1 chmod /f 7777
1 chown /f 0 0
1 stat /f
",
        schedule: "1,1,1,1,1,1,1,1,1,1,1,1,1,1,1,1,1,1,1",
        limit: 100,
        transcript: "1 P1 open /a RDWR,CREAT -> 0
2 P1 mkdir /d -> ok
3 P1 mknod /f fifo -> ok
4 P1 chmod /a 6755 -> ok
5 P1 chown /a 5 - -> ok
6 P1 stat /a -> file size 0 links 1 mode 755 owner 5 0
7 P1 chmod /a 6644 -> ok
8 P1 fchown 0 - - -> ok
9 P1 fstat 0 -> file size 0 links 1 mode 2644 owner 5 0
10 P1 chmod /a 7777 -> ok
11 P1 chown /a - 7 -> ok
12 P1 chmod /a 4755 -> ok
13 P1 stat /a -> file size 0 links 1 mode 4755 owner 5 7
14 P1 chmod /d 6777 -> ok
15 P1 chown /d 5 6 -> ok
16 P1 stat /d -> dir size 0 links 1 mode 6777 owner 5 6
17 P1 chmod /f 7777 -> ok
18 P1 chown /f 0 0 -> ok
19 P1 stat /f -> fifo size 0 links 1 mode 1777
",
    },
    // The same in a transaction.
    Row {
        script: "priorities 0 0
1 open /a RDWR,CREAT
1 begin
1 mkdir /d
1 mknod /f fifo
1 chmod /a 6755
1 chown /a 5 -
1 stat /a
1 chmod /a 6644
1 fchown 0 - -
1 fstat 0
1 chmod /a 7777
1 chown /a - 7
1 chmod /a 4755
1 chmod /d 6777
1 chown /d 5 6
1 chmod /f 7777
1 chown /f 0 0
1 end
2 stat /a
2 stat /d
2 stat /f
",
        schedule: "1,1,1,1,1,1,1,1,1,1,1,1,1,1,1,1,1,1,2,2,2",
        limit: 100,
        transcript: "1 P1 open /a RDWR,CREAT -> 0
2 P1 begin -> begun
3 P1 mkdir /d -> ok
4 P1 mknod /f fifo -> ok
5 P1 chmod /a 6755 -> ok
6 P1 chown /a 5 - -> ok
7 P1 stat /a -> file size 0 links 1 mode 755 owner 5 0
8 P1 chmod /a 6644 -> ok
9 P1 fchown 0 - - -> ok
10 P1 fstat 0 -> file size 0 links 1 mode 2644 owner 5 0
11 P1 chmod /a 7777 -> ok
12 P1 chown /a - 7 -> ok
13 P1 chmod /a 4755 -> ok
14 P1 chmod /d 6777 -> ok
15 P1 chown /d 5 6 -> ok
16 P1 chmod /f 7777 -> ok
17 P1 chown /f 0 0 -> ok
18 P1 end -> committed
19 P2 stat /a -> file size 0 links 1 mode 4755 owner 5 7
20 P2 stat /d -> dir size 0 links 1 mode 6777 owner 5 6
21 P2 stat /f -> fifo size 0 links 1 mode 1777
",
    },
];
