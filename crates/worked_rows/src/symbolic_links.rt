// Rows of symbolic links.
use crate::row::Row;

pub(crate) static SYMBOLIC_LINKS: [Row; 9] = [
    // A link is made, read, told about, given another name, and unlinked.
    Row {
        script: "priorities 0 0
1 symlink no/such /l
2 readlink /l
2 lstat /l
2 list /
1 link /l /k
1 lstat /k
1 readlink /k
2 unlink /l
1 lstat /k
1 readlink /l
1 unlink /k
2 list /
1 lstat /k
",
        schedule: "1,2,2,2,1,1,1,2,1,1,1,2,1",
        limit: 100,
        transcript: "1 P1 symlink no/such /l -> ok
2 P2 readlink /l -> 7 no/such
3 P2 lstat /l -> link size 7 links 1
4 P2 list / -> names 1 l
5 P1 link /l /k -> ok
6 P1 lstat /k -> link size 7 links 2
7 P1 readlink /k -> 7 no/such
8 P2 unlink /l -> ok
9 P1 lstat /k -> link size 7 links 1
10 P1 readlink /l -> ENOENT
11 P1 unlink /k -> ok
12 P2 list / -> names 0
13 P1 lstat /k -> ENOENT
",
    },
    // The same in a transaction, which others see at its end.
    Row {
        script: "priorities 0 0
1 begin
1 symlink no/such /l
1 readlink /l
2 readlink /l
1 lstat /l
1 link /l /k
1 lstat /k
2 list /
1 unlink /l
1 lstat /k
1 end
2 lstat /k
2 readlink /k
2 lstat /l
",
        schedule: "1,1,1,2,1,1,1,2,1,1,1,2,2,2",
        limit: 100,
        transcript: "1 P1 begin -> begun
2 P1 symlink no/such /l -> ok
3 P1 readlink /l -> 7 no/such
4 P2 readlink /l -> ENOENT
5 P1 lstat /l -> link size 7 links 1
6 P1 link /l /k -> ok
7 P1 lstat /k -> link size 7 links 2
8 P2 list / -> names 0
9 P1 unlink /l -> ok
10 P1 lstat /k -> link size 7 links 1
11 P1 end -> committed
12 P2 lstat /k -> link size 7 links 1
13 P2 readlink /k -> 7 no/such
14 P2 lstat /l -> ENOENT
",
    },
    // A target is any bytes, which nobody looks into: a space, dots, slashes, a path, no text.
    Row {
        script: "priorities 0
1 symlink \\x20 /a
1 symlink .. /b
1 symlink ///./ /c
1 symlink /a /d
1 symlink \\xff\\x01\\x5ce /e
1 symlink \\x2d> /f
1 readlink /a
1 readlink /b
1 readlink /c
1 readlink /d
1 readlink /e
1 readlink /f
1 lstat /e
",
        schedule: "1,1,1,1,1,1,1,1,1,1,1,1,1",
        limit: 100,
        transcript: "1 P1 symlink \\x20 /a -> ok
2 P1 symlink .. /b -> ok
3 P1 symlink ///./ /c -> ok
4 P1 symlink /a /d -> ok
5 P1 symlink \\xff\\x01\\x5ce /e -> ok
6 P1 symlink -> /f -> ok
7 P1 readlink /a -> 1 \\x20
8 P1 readlink /b -> 2 ..
9 P1 readlink /c -> 5 ///./
10 P1 readlink /d -> 2 /a
11 P1 readlink /e -> 4 \\xff\\x01\\x5ce
12 P1 readlink /f -> 2 ->
13 P1 lstat /e -> link size 4 links 1
",
    },
    // Links that give each other, or themselves: a ring is as any link is.
    Row {
        script: "priorities 0
1 symlink /b /a
1 symlink /a /b
1 symlink c /c
1 stat /a
1 stat /b/a
1 lstat /c/c
1 open /c RDONLY
1 readlink /a
1 readlink /c
1 unlink /a
1 stat /b
1 readlink /b
",
        schedule: "1,1,1,1,1,1,1,1,1,1,1,1",
        limit: 100,
        transcript: "1 P1 symlink /b /a -> ok
2 P1 symlink /a /b -> ok
3 P1 symlink c /c -> ok
4 P1 stat /a -> ELOOP
5 P1 stat /b/a -> ELOOP
6 P1 lstat /c/c -> ELOOP
7 P1 open /c RDONLY -> ELOOP
8 P1 readlink /a -> 2 /b
9 P1 readlink /c -> 1 c
10 P1 unlink /a -> ok
11 P1 stat /b -> ELOOP
12 P1 readlink /b -> 2 /a
",
    },
    // What moves is the link itself: over nothing, over a file, and under a file.
    Row {
        script: "priorities 0
1 mkdir /d
1 symlink d /l
1 rename /l /d/l
1 lstat /l
1 readlink /d/l
1 open /a WRONLY,CREAT
1 rename /d/l /a
1 fstat 0
1 readlink /a
1 open /b WRONLY,CREAT
1 rename /b /a
1 lstat /a
1 stat /a
1 list /
1 list /d
",
        schedule: "1,1,1,1,1,1,1,1,1,1,1,1,1,1,1",
        limit: 100,
        transcript: "1 P1 mkdir /d -> ok
2 P1 symlink d /l -> ok
3 P1 rename /l /d/l -> ok
4 P1 lstat /l -> ENOENT
5 P1 readlink /d/l -> 1 d
6 P1 open /a WRONLY,CREAT -> 0
7 P1 rename /d/l /a -> ok
8 P1 fstat 0 -> file size 0 links 0
9 P1 readlink /a -> 1 d
10 P1 open /b WRONLY,CREAT -> 1
11 P1 rename /b /a -> ok
12 P1 lstat /a -> file size 0 links 1
13 P1 stat /a -> file size 0 links 1
14 P1 list / -> names 2 a d
15 P1 list /d -> names 0
",
    },
    // The same in a transaction that is given up, and in one that commits.
    Row {
        script: "priorities 0 0
1 mkdir /d
1 symlink d /l
1 open /a WRONLY,CREAT
1 begin
1 rename /l /d/l
1 rename /d/l /a
1 fstat 0
1 readlink /a
2 readlink /l
1 abort
1 fstat 0
1 readlink /l
1 begin
1 rename /l /a
1 end
2 readlink /a
2 readlink /l
1 fstat 0
2 list /d
",
        schedule: "1,1,1,1,1,1,1,1,2,1,1,1,1,1,1,2,2,1,2",
        limit: 100,
        transcript: "1 P1 mkdir /d -> ok
2 P1 symlink d /l -> ok
3 P1 open /a WRONLY,CREAT -> 0
4 P1 begin -> begun
5 P1 rename /l /d/l -> ok
6 P1 rename /d/l /a -> ok
7 P1 fstat 0 -> file size 0 links 0
8 P1 readlink /a -> 1 d
9 P2 readlink /l -> 1 d
10 P1 abort -> given up
11 P1 fstat 0 -> file size 0 links 1
12 P1 readlink /l -> 1 d
13 P1 begin -> begun
14 P1 rename /l /a -> ok
15 P1 end -> committed
16 P2 readlink /a -> 1 d
17 P2 readlink /l -> ENOENT
18 P1 fstat 0 -> file size 0 links 0
19 P2 list /d -> names 0
",
    },
    // A name of a link onto another name of it leaves both.
    Row {
        script: "priorities 0 0
1 symlink t /a
1 link /a /b
1 rename /a /b
1 lstat /b
1 begin
1 rename /b /a
1 lstat /a
1 end
2 list /
",
        schedule: "1,1,1,1,1,1,1,1,2",
        limit: 100,
        transcript: "1 P1 symlink t /a -> ok
2 P1 link /a /b -> ok
3 P1 rename /a /b -> ok
4 P1 lstat /b -> link size 1 links 2
5 P1 begin -> begun
6 P1 rename /b /a -> ok
7 P1 lstat /a -> link size 1 links 2
8 P1 end -> committed
9 P2 list / -> names 2 a b
",
    },
    // A transaction makes a link and takes its name: nothing is left, whether it commits or not.
    Row {
        script: "priorities 0 0
1 begin
1 symlink t /l
1 unlink /l
1 readlink /l
1 end
2 list /
1 begin
1 symlink t /l
1 abort
1 readlink /l
1 symlink u /l
1 begin
1 unlink /l
1 readlink /l
2 readlink /l
1 abort
1 readlink /l
1 begin
1 unlink /l
1 symlink v /l
1 readlink /l
2 readlink /l
1 end
2 readlink /l
",
        schedule: "1,1,1,1,1,2,1,1,1,1,1,1,1,1,2,1,1,1,1,1,1,2,1,2",
        limit: 100,
        transcript: "1 P1 begin -> begun
2 P1 symlink t /l -> ok
3 P1 unlink /l -> ok
4 P1 readlink /l -> ENOENT
5 P1 end -> committed
6 P2 list / -> names 0
7 P1 begin -> begun
8 P1 symlink t /l -> ok
9 P1 abort -> given up
10 P1 readlink /l -> ENOENT
11 P1 symlink u /l -> ok
12 P1 begin -> begun
13 P1 unlink /l -> ok
14 P1 readlink /l -> ENOENT
15 P2 readlink /l -> 1 u
16 P1 abort -> given up
17 P1 readlink /l -> 1 u
18 P1 begin -> begun
19 P1 unlink /l -> ok
20 P1 symlink v /l -> ok
21 P1 readlink /l -> 1 v
22 P2 readlink /l -> 1 u
23 P1 end -> committed
24 P2 readlink /l -> 1 v
",
    },
    // A link in a directory keeps that from being removed; what is made anew is another one.
    Row {
        script: "priorities 0
1 mkdir /d
1 symlink t /d/l
1 rmdir /d
1 rename /d /e
1 readlink /e/l
1 unlink /e/l
1 rmdir /e
1 symlink long-target /d
1 lstat /d
",
        schedule: "1,1,1,1,1,1,1,1,1",
        limit: 100,
        transcript: "1 P1 mkdir /d -> ok
2 P1 symlink t /d/l -> ok
3 P1 rmdir /d -> ENOTEMPTY
4 P1 rename /d /e -> ok
5 P1 readlink /e/l -> 1 t
6 P1 unlink /e/l -> ok
7 P1 rmdir /e -> ok
8 P1 symlink long-target /d -> ok
9 P1 lstat /d -> link size 11 links 1
",
    },
];
