// Rows of names that are exchanged.
use crate::row::Row;

pub(crate) static EXCHANGES: [Row; 8] = [
    // What is refused, in the order of the tests: the forms of both paths, the root, both walks,
    // the first name, the second, and what is below itself on either side.
    Row {
        script: "priorities 0
1 mkdir /d
1 mkdir /d/e
1 open /f WRONLY,CREAT
1 exchange f /
1 exchange / f
1 exchange /absent /x/
1 exchange / /absent
1 exchange /absent /
1 exchange / /absent/x
1 exchange / /
1 exchange /absent /f/x
1 exchange /f/x /absent
1 exchange /absent/x /f/x
1 exchange /f/x /absent/x
1 exchange /absent /f
1 exchange /f /absent
1 exchange /absent /absent
1 exchange /absent /absent/x
1 exchange /d /d/absent
1 exchange /d /d/e
1 exchange /d/e /d
1 exchange /f /f/x
1 list /
1 list /d
",
        schedule: "1,1,1,1,1,1,1,1,1,1,1,1,1,1,1,1,1,1,1,1,1,1,1,1",
        limit: 100,
        transcript: "1 P1 mkdir /d -> ok
2 P1 mkdir /d/e -> ok
3 P1 open /f WRONLY,CREAT -> 0
4 P1 exchange f / -> EINVAL
5 P1 exchange / f -> EINVAL
6 P1 exchange /absent /x/ -> EINVAL
7 P1 exchange / /absent -> EBUSY
8 P1 exchange /absent / -> EBUSY
9 P1 exchange / /absent/x -> EBUSY
10 P1 exchange / / -> EBUSY
11 P1 exchange /absent /f/x -> ENOTDIR
12 P1 exchange /f/x /absent -> ENOTDIR
13 P1 exchange /absent/x /f/x -> ENOENT
14 P1 exchange /f/x /absent/x -> ENOTDIR
15 P1 exchange /absent /f -> ENOENT
16 P1 exchange /f /absent -> ENOENT
17 P1 exchange /absent /absent -> ENOENT
18 P1 exchange /absent /absent/x -> ENOENT
19 P1 exchange /d /d/absent -> ENOENT
20 P1 exchange /d /d/e -> EINVAL
21 P1 exchange /d/e /d -> EINVAL
22 P1 exchange /f /f/x -> ENOTDIR
23 P1 list / -> names 2 d f
24 P1 list /d -> names 1 e
",
    },
    // The same in a transaction, which then ends as it began.
    Row {
        script: "priorities 0
1 mkdir /d
1 mkdir /d/e
1 open /f WRONLY,CREAT
1 begin
1 exchange f /
1 exchange /absent /
1 exchange /absent /f/x
1 exchange /absent /f
1 exchange /f /absent
1 exchange /d /d/e
1 exchange /d/e /d
1 end
1 list /
1 list /d
",
        schedule: "1,1,1,1,1,1,1,1,1,1,1,1,1,1",
        limit: 100,
        transcript: "1 P1 mkdir /d -> ok
2 P1 mkdir /d/e -> ok
3 P1 open /f WRONLY,CREAT -> 0
4 P1 begin -> begun
5 P1 exchange f / -> EINVAL
6 P1 exchange /absent / -> EBUSY
7 P1 exchange /absent /f/x -> ENOTDIR
8 P1 exchange /absent /f -> ENOENT
9 P1 exchange /f /absent -> ENOENT
10 P1 exchange /d /d/e -> EINVAL
11 P1 exchange /d/e /d -> EINVAL
12 P1 end -> committed
13 P1 list / -> names 2 d f
14 P1 list /d -> names 1 e
",
    },
    // Two names of one object stay as they are: a name and itself, and two links.
    Row {
        script: "priorities 0
1 mkdir /d
1 open /f WRONLY,CREAT
1 link /f /d/g
1 exchange /f /f
1 exchange /d /d
1 exchange /f /d/g
1 exchange /d/g /f
1 fstat 0
1 list /
1 list /d
",
        schedule: "1,1,1,1,1,1,1,1,1,1",
        limit: 100,
        transcript: "1 P1 mkdir /d -> ok
2 P1 open /f WRONLY,CREAT -> 0
3 P1 link /f /d/g -> ok
4 P1 exchange /f /f -> ok
5 P1 exchange /d /d -> ok
6 P1 exchange /f /d/g -> ok
7 P1 exchange /d/g /f -> ok
8 P1 fstat 0 -> file size 0 links 2
9 P1 list / -> names 2 d f
10 P1 list /d -> names 1 g
",
    },
    // A file and a directory with what is below it change places, as do a link that is not followed
    // and a FIFO. Neither loses a link.
    Row {
        script: "priorities 0
1 mkdir /d
1 mkdir /d/e
1 open /d/e/g WRONLY,CREAT
1 write 0 below
1 open /f RDWR,CREAT
1 write 1 abc
1 exchange /f /d
1 stat /d
1 stat /f/e/g
1 fstat 1
1 exchange /d /f/e
1 stat /d/g
1 stat /f/e
1 list /
1 list /f
1 symlink nowhere /l
1 mknod /p fifo
1 exchange /l /p
1 lstat /p
1 lstat /l
1 readlink /p
",
        schedule: "1,1,1,1,1,1,1,1,1,1,1,1,1,1,1,1,1,1,1,1,1",
        limit: 100,
        transcript: "1 P1 mkdir /d -> ok
2 P1 mkdir /d/e -> ok
3 P1 open /d/e/g WRONLY,CREAT -> 0
4 P1 write 0 below -> 5
5 P1 open /f RDWR,CREAT -> 1
6 P1 write 1 abc -> 3
7 P1 exchange /f /d -> ok
8 P1 stat /d -> file size 3 links 1
9 P1 stat /f/e/g -> file size 5 links 1
10 P1 fstat 1 -> file size 3 links 1
11 P1 exchange /d /f/e -> ok
12 P1 stat /d/g -> file size 5 links 1
13 P1 stat /f/e -> file size 3 links 1
14 P1 list / -> names 2 d f
15 P1 list /f -> names 1 e
16 P1 symlink nowhere /l -> ok
17 P1 mknod /p fifo -> ok
18 P1 exchange /l /p -> ok
19 P1 lstat /p -> link size 7 links 1
20 P1 lstat /l -> fifo size 0 links 1
21 P1 readlink /p -> 7 nowhere
",
    },
    // A transaction exchanges names: it sees them at once, the others behind its end, and each of
    // them both.
    Row {
        script: "priorities 0 0
1 mkdir /d
1 open /d/a WRONLY,CREAT
1 write 0 one
1 open /b WRONLY,CREAT
1 begin
1 exchange /d/a /b
1 stat /b
1 stat /d/a
2 stat /b
2 stat /d/a
1 unlink /d/a
1 fstat 1
1 end
2 stat /b
2 stat /d/a
2 list /d
",
        schedule: "1,1,1,1,1,1,1,1,2,2,1,1,1,2,2,2",
        limit: 100,
        transcript: "1 P1 mkdir /d -> ok
2 P1 open /d/a WRONLY,CREAT -> 0
3 P1 write 0 one -> 3
4 P1 open /b WRONLY,CREAT -> 1
5 P1 begin -> begun
6 P1 exchange /d/a /b -> ok
7 P1 stat /b -> file size 3 links 1
8 P1 stat /d/a -> file size 0 links 1
9 P2 stat /b -> file size 0 links 1
10 P2 stat /d/a -> file size 3 links 1
11 P1 unlink /d/a -> ok
12 P1 fstat 1 -> file size 0 links 0
13 P1 end -> committed
14 P2 stat /b -> file size 3 links 1
15 P2 stat /d/a -> ENOENT
16 P2 list /d -> names 0
",
    },
    // What is given up has not been exchanged.
    Row {
        script: "priorities 0
1 mkdir /d
1 open /d/a WRONLY,CREAT
1 write 0 one
1 open /b WRONLY,CREAT
1 begin
1 exchange /d/a /b
1 exchange /d /b
1 list /b
1 stat /d
1 abort
1 stat /d/a
1 stat /b
1 fstat 1
",
        schedule: "1,1,1,1,1,1,1,1,1,1,1,1,1",
        limit: 100,
        transcript: "1 P1 mkdir /d -> ok
2 P1 open /d/a WRONLY,CREAT -> 0
3 P1 write 0 one -> 3
4 P1 open /b WRONLY,CREAT -> 1
5 P1 begin -> begun
6 P1 exchange /d/a /b -> ok
7 P1 exchange /d /b -> ok
8 P1 list /b -> names 1 a
9 P1 stat /d -> file size 3 links 1
10 P1 abort -> given up
11 P1 stat /d/a -> file size 3 links 1
12 P1 stat /b -> file size 0 links 1
13 P1 fstat 1 -> file size 0 links 1
",
    },
    // Two transactions put two directories into each other: the later one loses.
    Row {
        script: "priorities 0 0
1 mkdir /a
1 mkdir /a/x
1 mkdir /b
1 mkdir /b/y
1 begin
2 begin
1 exchange /a /b/y
2 exchange /b /a/x
1 end
2 list /
2 list /b
2 list /b/y
",
        schedule: "1,1,1,1,1,2,1,2,1,2,2,2",
        limit: 100,
        transcript: "1 P1 mkdir /a -> ok
2 P1 mkdir /a/x -> ok
3 P1 mkdir /b -> ok
4 P1 mkdir /b/y -> ok
5 P1 begin -> begun
6 P2 begin -> begun
7 P1 exchange /a /b/y -> ok
8 P2 exchange /b /a/x -> aborted entry a read by P1
9 P1 end -> committed
10 P2 list / -> names 2 a b
11 P2 list /b -> names 1 y
12 P2 list /b/y -> names 1 x
",
    },
    // A plain exchange dooms who has seen one of the two names, and leaves who has seen neither.
    Row {
        script: "priorities 0 0
1 open /a WRONLY,CREAT
1 mkdir /b
1 open /c WRONLY,CREAT
1 begin
1 stat /c
2 exchange /a /b
1 stat /a
1 end
1 begin
1 stat /a
2 exchange /b /a
1 end
",
        schedule: "1,1,1,1,1,2,1,1,1,1,2,1",
        limit: 100,
        transcript: "1 P1 open /a WRONLY,CREAT -> 0
2 P1 mkdir /b -> ok
3 P1 open /c WRONLY,CREAT -> 1
4 P1 begin -> begun
5 P1 stat /c -> file size 0 links 1
6 P2 exchange /a /b -> ok
7 P1 stat /a -> dir size 0 links 1
8 P1 end -> committed
9 P1 begin -> begun
10 P1 stat /a -> dir size 0 links 1
11 P2 exchange /b /a -> ok dooms P1
12 P1 end -> aborted entry a read by P2
",
    },
];
