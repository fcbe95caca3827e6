// Rows of permissions and owners of objects that are moved, written, or gone.
use crate::row::Row;

pub(crate) static KEPT_RIGHTS: [Row; 2] = [
    // Rights are the object's: they stay with other names, with other bytes, and without a name;
    // and they go with it, so that what has its number next has the first ones.
    Row {
        script: "priorities 0
1 open /a RDWR,CREAT
1 mkdir /d
1 chmod /a 600
1 chown /d 1 2
1 link /a /d/b
1 rename /a /c
1 rename /d /e
1 write 0 xyz
1 ftruncate 0 1
1 stat /e/b
1 stat /e
1 unlink /c
1 unlink /e/b
1 fstat 0
1 fchmod 0 4711
1 fchown 0 7 -
1 fstat 0
1 rmdir /e
1 mkdir /e
1 stat /e
1 close 0
1 open /a RDWR,CREAT
1 fstat 0
1 symlink t /l
1 chown /l 1 1
1 mkdir /f
1 rename /a /l
1 stat /l
1 stat /f
",
        schedule: "1,1,1,1,1,1,1,1,1,1,1,1,1,1,1,1,1,1,1,1,1,1,1,1,1,1,1,1,1",
        limit: 100,
        transcript: "1 P1 open /a RDWR,CREAT -> 0
2 P1 mkdir /d -> ok
3 P1 chmod /a 600 -> ok
4 P1 chown /d 1 2 -> ok
5 P1 link /a /d/b -> ok
6 P1 rename /a /c -> ok
7 P1 rename /d /e -> ok
8 P1 write 0 xyz -> 3
9 P1 ftruncate 0 1 -> ok
10 P1 stat /e/b -> file size 1 links 2 mode 600
11 P1 stat /e -> dir size 0 links 1 owner 1 2
12 P1 unlink /c -> ok
13 P1 unlink /e/b -> ok
14 P1 fstat 0 -> file size 1 links 0 mode 600
15 P1 fchmod 0 4711 -> ok
16 P1 fchown 0 7 - -> ok
17 P1 fstat 0 -> file size 1 links 0 mode 711 owner 7 0
18 P1 rmdir /e -> ok
19 P1 mkdir /e -> ok
20 P1 stat /e -> dir size 0 links 1
21 P1 close 0 -> ok
22 P1 open /a RDWR,CREAT -> 0
23 P1 fstat 0 -> file size 0 links 1
24 P1 symlink t /l -> ok
25 P1 chown /l 1 1 -> ok
26 P1 mkdir /f -> ok
27 P1 rename /a /l -> ok
28 P1 stat /l -> file size 0 links 1
29 P1 stat /f -> dir size 0 links 1
",
    },
    // The same in transactions: what is taken away there takes its rights along at the end.
    Row {
        script: "priorities 0 0
1 open /a RDWR,CREAT
1 mkdir /d
1 chmod /d 700
1 begin
1 chmod /a 600
1 rename /a /d/b
1 rename /d /e
1 write 0 xyz
1 stat /e/b
1 unlink /e/b
1 fstat 0
1 fchown 0 7 -
1 rmdir /e
1 mkdir /e
1 stat /e
1 end
1 fstat 0
2 stat /e
1 begin
1 chmod /e 0
1 rmdir /e
1 mkdir /d
1 chmod /d 711
1 rmdir /d
1 mkdir /d
1 stat /d
1 end
2 stat /d
2 list /
",
        schedule: "1,1,1,1,1,1,1,1,1,1,1,1,1,1,1,1,1,2,1,1,1,1,1,1,1,1,1,2,2",
        limit: 100,
        transcript: "1 P1 open /a RDWR,CREAT -> 0
2 P1 mkdir /d -> ok
3 P1 chmod /d 700 -> ok
4 P1 begin -> begun
5 P1 chmod /a 600 -> ok
6 P1 rename /a /d/b -> ok
7 P1 rename /d /e -> ok
8 P1 write 0 xyz -> 3
9 P1 stat /e/b -> file size 3 links 1 mode 600
10 P1 unlink /e/b -> ok
11 P1 fstat 0 -> file size 3 links 0 mode 600
12 P1 fchown 0 7 - -> ok
13 P1 rmdir /e -> ok
14 P1 mkdir /e -> ok
15 P1 stat /e -> dir size 0 links 1
16 P1 end -> committed
17 P1 fstat 0 -> file size 3 links 0 mode 600 owner 7 0
18 P2 stat /e -> dir size 0 links 1
19 P1 begin -> begun
20 P1 chmod /e 0 -> ok
21 P1 rmdir /e -> ok
22 P1 mkdir /d -> ok
23 P1 chmod /d 711 -> ok
24 P1 rmdir /d -> ok
25 P1 mkdir /d -> ok
26 P1 stat /d -> dir size 0 links 1
27 P1 end -> committed
28 P2 stat /d -> dir size 0 links 1
29 P2 list / -> names 1 d
",
    },
];
