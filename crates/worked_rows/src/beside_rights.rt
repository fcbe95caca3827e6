// Rows of permissions and owners beside other transactions.
use crate::row::Row;

pub(crate) static BESIDE_RIGHTS: [Row; 9] = [
    // Two transactions that set a mode of one object clash: the later one loses, and has seen what
    // the earlier one writes. Those of two objects do not meet.
    Row {
        script: "priorities 0 0
1 mkdir /d
1 mkdir /e
1 begin
2 begin
1 chmod /d 700
2 chmod /e 711
2 chmod /d 755
1 end
2 stat /d
2 stat /e
",
        schedule: "1,1,1,2,1,2,2,1,2,2",
        limit: 100,
        transcript: "1 P1 mkdir /d -> ok
2 P1 mkdir /e -> ok
3 P1 begin -> begun
4 P2 begin -> begun
5 P1 chmod /d 700 -> ok
6 P2 chmod /e 711 -> ok
7 P2 chmod /d 755 -> aborted rights read by P1
8 P1 end -> committed
9 P2 stat /d -> dir size 0 links 1 mode 700
10 P2 stat /e -> dir size 0 links 1
",
    },
    // A mode and an owner are one: who sets the one loses against who has set the other, by
    // whatever way.
    Row {
        script: "priorities 0 0
1 open /a RDWR,CREAT
2 open /a RDWR
1 begin
2 begin
1 fchmod 0 700
2 fchown 0 1 2
1 end
1 begin
1 chown /a 3 -
2 chmod /a 640
1 end
2 stat /a
",
        schedule: "1,2,1,2,1,2,1,1,1,2,1,2",
        limit: 100,
        transcript: "1 P1 open /a RDWR,CREAT -> 0
2 P2 open /a RDWR -> 0
3 P1 begin -> begun
4 P2 begin -> begun
5 P1 fchmod 0 700 -> ok
6 P2 fchown 0 1 2 -> aborted rights read by P1
7 P1 end -> committed
8 P1 begin -> begun
9 P1 chown /a 3 - -> ok
10 P2 chmod /a 640 -> ok dooms P1
11 P1 end -> aborted rights write by P2
12 P2 stat /a -> file size 0 links 1 mode 640
",
    },
    // Who has told about an object is doomed by who sets its rights, even to what they are. Who has
    // opened it, read it or written it is not.
    Row {
        script: "priorities 0 0
1 open /a RDWR,CREAT
1 write 0 old
2 open /a RDWR
1 begin
1 stat /a
2 chmod /a 644
1 end
1 begin
1 fstat 0
2 chown /a - -
1 end
1 begin
1 open /a RDONLY
1 read 1 9
1 pwrite 0 new 0
2 chmod /a 600
2 chown /a 5 6
1 end
1 begin
1 lstat /a
2 pwrite 0 x 0
1 end
2 stat /a
",
        schedule: "1,1,2,1,1,2,1,1,1,2,1,1,1,1,1,2,2,1,1,1,2,1,2",
        limit: 100,
        transcript: "1 P1 open /a RDWR,CREAT -> 0
2 P1 write 0 old -> 3
3 P2 open /a RDWR -> 0
4 P1 begin -> begun
5 P1 stat /a -> file size 3 links 1
6 P2 chmod /a 644 -> ok dooms P1
7 P1 end -> aborted rights read by P2
8 P1 begin -> begun
9 P1 fstat 0 -> file size 3 links 1
10 P2 chown /a - - -> ok dooms P1
11 P1 end -> aborted rights read by P2
12 P1 begin -> begun
13 P1 open /a RDONLY -> 1
14 P1 read 1 9 -> 3 old
15 P1 pwrite 0 new 0 -> 3
16 P2 chmod /a 600 -> ok
17 P2 chown /a 5 6 -> ok
18 P1 end -> committed
19 P1 begin -> begun
20 P1 lstat /a -> file size 3 links 1 mode 600 owner 5 6
21 P2 pwrite 0 x 0 -> 1
22 P1 end -> committed
23 P2 stat /a -> file size 3 links 1 mode 600 owner 5 6
",
    },
    // Who sets rights has seen the names of the path: who takes one of these away dooms it, and who
    // adds others does not. By a descriptor no name is seen.
    Row {
        script: "priorities 0 0
1 mkdir /d
1 open /d/a RDWR,CREAT
1 begin
1 chmod /d/a 600
2 open /d/b RDWR,CREAT
2 link /d/a /d/c
1 end
1 begin
1 chmod /d/a 640
2 rename /d /e
1 end
1 begin
1 fchmod 0 700
2 unlink /e/a
2 rename /e/c /a
1 end
2 stat /a
",
        schedule: "1,1,1,1,2,2,1,1,1,2,1,1,1,2,2,1,2",
        limit: 100,
        transcript: "1 P1 mkdir /d -> ok
2 P1 open /d/a RDWR,CREAT -> 0
3 P1 begin -> begun
4 P1 chmod /d/a 600 -> ok
5 P2 open /d/b RDWR,CREAT -> 0
6 P2 link /d/a /d/c -> ok
7 P1 end -> committed
8 P1 begin -> begun
9 P1 chmod /d/a 640 -> ok
10 P2 rename /d /e -> ok dooms P1
11 P1 end -> aborted entry d read by P2
12 P1 begin -> begun
13 P1 fchmod 0 700 -> ok
14 P2 unlink /e/a -> ok
15 P2 rename /e/c /a -> ok
16 P1 end -> committed
17 P2 stat /a -> file size 0 links 1 mode 700
",
    },
    // Rights of a directory, and the names in it, are apart; and so are those of a link and its
    // target.
    Row {
        script: "priorities 0 0
1 mkdir /d
1 symlink d /l
1 begin
1 chmod /d 700
2 mkdir /d/x
2 list /d
1 end
1 begin
1 readlink /l
2 chown /l 1 2
1 end
1 begin
1 lstat /l
2 chown /l 3 4
1 end
2 lstat /l
2 stat /d
",
        schedule: "1,1,1,1,2,2,1,1,1,2,1,1,1,2,1,2,2",
        limit: 100,
        transcript: "1 P1 mkdir /d -> ok
2 P1 symlink d /l -> ok
3 P1 begin -> begun
4 P1 chmod /d 700 -> ok
5 P2 mkdir /d/x -> ok
6 P2 list /d -> names 1 x
7 P1 end -> committed
8 P1 begin -> begun
9 P1 readlink /l -> 1 d
10 P2 chown /l 1 2 -> ok
11 P1 end -> committed
12 P1 begin -> begun
13 P1 lstat /l -> link size 1 links 1 owner 1 2
14 P2 chown /l 3 4 -> ok dooms P1
15 P1 end -> aborted rights read by P2
16 P2 lstat /l -> link size 1 links 1 owner 3 4
17 P2 stat /d -> dir size 0 links 1 mode 700
",
    },
    // A plain call is put off by a transaction of a higher priority that has set the rights, or was
    // told of them; a look at them is not.
    Row {
        script: "priorities 1 0
1 mkdir /d
1 begin
1 stat /d
2 chmod /d 700
2 stat /d
1 chmod /d 711
2 chown /d 1 2
2 stat /d
2 mkdir /d/x
1 end
2 chown /d 1 2
2 stat /d
",
        schedule: "1,1,1,2,2,1,2,2,2,1,2,2",
        limit: 100,
        transcript: "1 P1 mkdir /d -> ok
2 P1 begin -> begun
3 P1 stat /d -> dir size 0 links 1
4 P2 chmod /d 700 -> busy rights write by P1
5 P2 stat /d -> dir size 0 links 1
6 P1 chmod /d 711 -> ok
7 P2 chown /d 1 2 -> busy rights write by P1
8 P2 stat /d -> dir size 0 links 1
9 P2 mkdir /d/x -> ok
10 P1 end -> committed
11 P2 chown /d 1 2 -> ok
12 P2 stat /d -> dir size 0 links 1 mode 711 owner 1 2
",
    },
    // A transaction of a higher priority dooms who has set them.
    Row {
        script: "priorities 0 1
1 mkdir /d
1 begin
2 begin
1 chmod /d 700
2 chown /d 1 2
1 stat /d
2 end
1 stat /d
",
        schedule: "1,1,2,1,2,1,2,1",
        limit: 100,
        transcript: "1 P1 mkdir /d -> ok
2 P1 begin -> begun
3 P2 begin -> begun
4 P1 chmod /d 700 -> ok
5 P2 chown /d 1 2 -> ok dooms P1
6 P1 stat /d -> aborted rights write by P2
7 P2 end -> committed
8 P1 stat /d -> dir size 0 links 1 owner 1 2
",
    },
    // A transaction that loses begins anew, and sets its mode on what is there then.
    Row {
        script: "priorities 0 0
1 mkdir /d
1 begin RESTART
1 chmod /d 700
2 chown /d 5 6
1 stat /d
1 stat /d
1 chmod /d 700
1 end
2 stat /d
",
        schedule: "1,1,1,2,1,1,1,1,2",
        limit: 100,
        transcript: "1 P1 mkdir /d -> ok
2 P1 begin RESTART -> begun
3 P1 chmod /d 700 -> ok
4 P2 chown /d 5 6 -> ok dooms P1
5 P1 stat /d -> aborted rights write by P2 restarted
6 P1 stat /d -> dir size 0 links 1 owner 5 6
7 P1 chmod /d 700 -> ok
8 P1 end -> committed
9 P2 stat /d -> dir size 0 links 1 mode 700 owner 5 6
",
    },
    // Children that share an open file: what one sets in a transaction clashes with what another
    // was told.
    Row {
        script: "priorities 0
1 open /a RDWR,CREAT
1 fork
2 begin
2 fchmod 0 600
1 fstat 0
1 begin
1 fstat 0
2 end
1 fstat 0
",
        schedule: "1,1,2,2,1,1,1,2,1",
        limit: 100,
        transcript: "1 P1 open /a RDWR,CREAT -> 0
2 P1 fork -> child 2
3 P2 begin -> begun
4 P2 fchmod 0 600 -> ok
5 P1 fstat 0 -> file size 0 links 1
6 P1 begin -> begun
7 P1 fstat 0 -> aborted rights read by P2
8 P2 end -> committed
9 P1 fstat 0 -> file size 0 links 1 mode 600
",
    },
];
