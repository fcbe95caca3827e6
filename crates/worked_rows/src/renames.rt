// Rows of names that move.
use crate::row::Row;

pub(crate) static RENAMES: [Row; 11] = [
    // Two transactions move two directories into each other: the later one loses.
    Row {
        script: "priorities 0 0
1 mkdir /a
1 mkdir /b
1 rename /a /a/b
1 begin
2 begin
1 rename /a /b/a
2 rename /b /a/b
1 end
",
        schedule: "1,1,1,1,2,1,2,1",
        limit: 100,
        transcript: "1 P1 mkdir /a -> ok
2 P1 mkdir /b -> ok
3 P1 rename /a /a/b -> EINVAL
4 P1 begin -> begun
5 P2 begin -> begun
6 P1 rename /a /b/a -> ok
7 P2 rename /b /a/b -> aborted entry a read by P1
8 P1 end -> committed
",
    },
    // So does the one of the lower priority.
    Row {
        script: "priorities 0 1
1 mkdir /a
1 mkdir /b
1 begin
2 begin
1 rename /a /b/a
2 rename /b /a/b
1 end
2 end
1 list /
1 list /a
",
        schedule: "1,1,1,2,1,2,1,2,1,1",
        limit: 100,
        transcript: "1 P1 mkdir /a -> ok
2 P1 mkdir /b -> ok
3 P1 begin -> begun
4 P2 begin -> begun
5 P1 rename /a /b/a -> ok
6 P2 rename /b /a/b -> ok dooms P1
7 P1 end -> aborted entry a write by P2
8 P2 end -> committed
9 P1 list / -> names 1 a
10 P1 list /a -> names 1 b
",
    },
    // A name of a file moves onto another: both stay.
    Row {
        script: "priorities 0 0
1 open /a WRONLY,CREAT
1 link /a /b
1 begin
1 rename /a /b
1 end
2 stat /b
2 stat /a
",
        schedule: "1,1,1,1,1,2,2",
        limit: 100,
        transcript: "1 P1 open /a WRONLY,CREAT -> 0
2 P1 link /a /b -> ok
3 P1 begin -> begun
4 P1 rename /a /b -> ok
5 P1 end -> committed
6 P2 stat /b -> file size 0 links 2
7 P2 stat /a -> file size 0 links 2
",
    },
    // What is refused, in the order of the tests.
    Row {
        script: "priorities 0
1 mkdir /d
1 mkdir /d/e
1 mkdir /empty
1 open /f WRONLY,CREAT
1 rename f /
1 rename / f
1 rename / /x
1 rename / /absent/x
1 rename /absent /
1 rename /d /
1 rename / /
1 rename /absent /x
1 rename /absent/y /f/x
1 rename /f/y /x
1 rename /absent /absent/x
1 rename /d /d/x
1 rename /d /d/e
1 rename /d /d/absent/x
1 rename /f /f/x
1 rename /d /absent/x
1 rename /d /f/x
1 rename /f /empty
1 rename /f /d
1 rename /d /f
1 rename /empty /d
1 rename /d/e /d
1 list /
1 list /d
",
        schedule: "1,1,1,1,1,1,1,1,1,1,1,1,1,1,1,1,1,1,1,1,1,1,1,1,1,1,1,1",
        limit: 100,
        transcript: "1 P1 mkdir /d -> ok
2 P1 mkdir /d/e -> ok
3 P1 mkdir /empty -> ok
4 P1 open /f WRONLY,CREAT -> 0
5 P1 rename f / -> EINVAL
6 P1 rename / f -> EINVAL
7 P1 rename / /x -> EBUSY
8 P1 rename / /absent/x -> EBUSY
9 P1 rename /absent / -> EBUSY
10 P1 rename /d / -> EBUSY
11 P1 rename / / -> EBUSY
12 P1 rename /absent /x -> ENOENT
13 P1 rename /absent/y /f/x -> ENOENT
14 P1 rename /f/y /x -> ENOTDIR
15 P1 rename /absent /absent/x -> ENOENT
16 P1 rename /d /d/x -> EINVAL
17 P1 rename /d /d/e -> EINVAL
18 P1 rename /d /d/absent/x -> EINVAL
19 P1 rename /f /f/x -> ENOTDIR
20 P1 rename /d /absent/x -> ENOENT
21 P1 rename /d /f/x -> ENOTDIR
22 P1 rename /f /empty -> EISDIR
23 P1 rename /f /d -> EISDIR
24 P1 rename /d /f -> ENOTDIR
25 P1 rename /empty /d -> ENOTEMPTY
26 P1 rename /d/e /d -> ENOTEMPTY
27 P1 list / -> names 3 d empty f
28 P1 list /d -> names 1 e
",
    },
    // The same in a transaction, which then ends as it began.
    Row {
        script: "priorities 0
1 mkdir /d
1 mkdir /d/e
1 mkdir /empty
1 open /f WRONLY,CREAT
1 begin
1 rename / /x
1 rename /absent /
1 rename /absent /x
1 rename /d /d/absent/x
1 rename /d /absent/x
1 rename /f /d
1 rename /d /f
1 rename /empty /d
1 end
1 list /
1 list /d
",
        schedule: "1,1,1,1,1,1,1,1,1,1,1,1,1,1,1,1",
        limit: 100,
        transcript: "1 P1 mkdir /d -> ok
2 P1 mkdir /d/e -> ok
3 P1 mkdir /empty -> ok
4 P1 open /f WRONLY,CREAT -> 0
5 P1 begin -> begun
6 P1 rename / /x -> EBUSY
7 P1 rename /absent / -> EBUSY
8 P1 rename /absent /x -> ENOENT
9 P1 rename /d /d/absent/x -> EINVAL
10 P1 rename /d /absent/x -> ENOENT
11 P1 rename /f /d -> EISDIR
12 P1 rename /d /f -> ENOTDIR
13 P1 rename /empty /d -> ENOTEMPTY
14 P1 end -> committed
15 P1 list / -> names 3 d empty f
16 P1 list /d -> names 1 e
",
    },
    // A name that moves onto itself, or onto another of its file, changes nothing.
    Row {
        script: "priorities 0
1 mkdir /d
1 open /f WRONLY,CREAT
1 link /f /d/g
1 rename /f /f
1 rename /d /d
1 rename /f /d/g
1 rename /d/g /f
1 fstat 0
1 list /
1 list /d
",
        schedule: "1,1,1,1,1,1,1,1,1,1",
        limit: 100,
        transcript: "1 P1 mkdir /d -> ok
2 P1 open /f WRONLY,CREAT -> 0
3 P1 link /f /d/g -> ok
4 P1 rename /f /f -> ok
5 P1 rename /d /d -> ok
6 P1 rename /f /d/g -> ok
7 P1 rename /d/g /f -> ok
8 P1 fstat 0 -> file size 0 links 2
9 P1 list / -> names 2 d f
10 P1 list /d -> names 1 g
",
    },
    // A directory moves with all below, over an empty one.
    Row {
        script: "priorities 0
1 mkdir /a
1 mkdir /a/b
1 open /a/b/f WRONLY,CREAT
1 mkdir /c
1 rename /a /c
1 stat /a
1 stat /c/b/f
1 rename /c/b /b
1 list /c
1 rename /c /b/c
1 list /
1 list /b
",
        schedule: "1,1,1,1,1,1,1,1,1,1,1,1",
        limit: 100,
        transcript: "1 P1 mkdir /a -> ok
2 P1 mkdir /a/b -> ok
3 P1 open /a/b/f WRONLY,CREAT -> 0
4 P1 mkdir /c -> ok
5 P1 rename /a /c -> ok
6 P1 stat /a -> ENOENT
7 P1 stat /c/b/f -> file size 0 links 1
8 P1 rename /c/b /b -> ok
9 P1 list /c -> names 0
10 P1 rename /c /b/c -> ok
11 P1 list / -> names 1 b
12 P1 list /b -> names 2 c f
",
    },
    // A transaction moves it: others see it after the end.
    Row {
        script: "priorities 0 0
1 mkdir /a
1 mkdir /a/b
1 open /a/b/f WRONLY,CREAT
1 mkdir /c
1 begin
1 rename /a /c/d
1 stat /a
1 stat /c/d/b/f
2 stat /c/d
2 stat /a/b/f
1 rename /c/d/b /c/e
1 rename /c/d /c/e/d
1 list /c
1 list /c/e
1 end
2 list /
2 list /c
2 list /c/e
2 list /c/e/d
",
        schedule: "1,1,1,1,1,1,1,1,2,2,1,1,1,1,1,2,2,2,2",
        limit: 100,
        transcript: "1 P1 mkdir /a -> ok
2 P1 mkdir /a/b -> ok
3 P1 open /a/b/f WRONLY,CREAT -> 0
4 P1 mkdir /c -> ok
5 P1 begin -> begun
6 P1 rename /a /c/d -> ok
7 P1 stat /a -> ENOENT
8 P1 stat /c/d/b/f -> file size 0 links 1
9 P2 stat /c/d -> ENOENT
10 P2 stat /a/b/f -> file size 0 links 1
11 P1 rename /c/d/b /c/e -> ok
12 P1 rename /c/d /c/e/d -> ok
13 P1 list /c -> names 1 e
14 P1 list /c/e -> names 2 d f
15 P1 end -> committed
16 P2 list / -> names 1 c
17 P2 list /c -> names 1 e
18 P2 list /c/e -> names 2 d f
19 P2 list /c/e/d -> names 0
",
    },
    // What is given up has not moved.
    Row {
        script: "priorities 0
1 mkdir /a
1 mkdir /a/b
1 open /f WRONLY,CREAT
1 open /g WRONLY,CREAT
1 begin
1 rename /a/b /b
1 rename /a /b/a
1 rename /f /g
1 fstat 1
1 list /
1 abort
1 fstat 1
1 list /
1 list /a
",
        schedule: "1,1,1,1,1,1,1,1,1,1,1,1,1,1",
        limit: 100,
        transcript: "1 P1 mkdir /a -> ok
2 P1 mkdir /a/b -> ok
3 P1 open /f WRONLY,CREAT -> 0
4 P1 open /g WRONLY,CREAT -> 1
5 P1 begin -> begun
6 P1 rename /a/b /b -> ok
7 P1 rename /a /b/a -> ok
8 P1 rename /f /g -> ok
9 P1 fstat 1 -> file size 0 links 0
10 P1 list / -> names 2 b g
11 P1 abort -> given up
12 P1 fstat 1 -> file size 0 links 1
13 P1 list / -> names 3 a f g
14 P1 list /a -> names 1 b
",
    },
    // Who has listed a directory is doomed by who moves a name into it.
    Row {
        script: "priorities 0 0
1 mkdir /d
1 mkdir /e
1 begin
1 list /d
2 rename /e /d/e
1 end
",
        schedule: "1,1,1,1,2,1",
        limit: 100,
        transcript: "1 P1 mkdir /d -> ok
2 P1 mkdir /e -> ok
3 P1 begin -> begun
4 P1 list /d -> names 0
5 P2 rename /e /d/e -> ok dooms P1
6 P1 end -> aborted names read by P2
",
    },
    // So is who goes over a directory, since it was seen to be empty.
    Row {
        script: "priorities 0 0
1 mkdir /d
1 mkdir /e
1 begin
1 rename /d /e
2 mkdir /e/x
1 end
2 list /
",
        schedule: "1,1,1,1,2,1,2",
        limit: 100,
        transcript: "1 P1 mkdir /d -> ok
2 P1 mkdir /e -> ok
3 P1 begin -> begun
4 P1 rename /d /e -> ok
5 P2 mkdir /e/x -> ok dooms P1
6 P1 end -> aborted names read by P2
7 P2 list / -> names 2 d e
",
    },
];
