// Rows of links.
use crate::row::Row;

pub(crate) static LINKS: [Row; 11] = [
    // Who has a file open reads and writes it after its last name has gone.
    Row {
        script: "priorities 0 0
1 open /a RDWR,CREAT
1 begin
1 write 0 q
2 unlink /a
1 end
1 lseek 0 0 SET
1 read 0 1
1 fstat 0
1 close 0
",
        schedule: "1,1,1,2,1,1,1,1,1",
        limit: 100,
        transcript: "1 P1 open /a RDWR,CREAT -> 0
2 P1 begin -> begun
3 P1 write 0 q -> 1
4 P2 unlink /a -> ok
5 P1 end -> committed
6 P1 lseek 0 0 SET -> 0
7 P1 read 0 1 -> 1 q
8 P1 fstat 0 -> file size 1 links 0
9 P1 close 0 -> ok
",
    },
    // A descriptor that a transaction closes, and does not commit, keeps its file.
    Row {
        script: "priorities 0 0
1 open /a RDWR,CREAT
1 begin
1 close 0
2 unlink /a
1 abort
1 fstat 0
",
        schedule: "1,1,1,2,1,1",
        limit: 100,
        transcript: "1 P1 open /a RDWR,CREAT -> 0
2 P1 begin -> begun
3 P1 close 0 -> ok
4 P2 unlink /a -> ok
5 P1 abort -> given up
6 P1 fstat 0 -> file size 0 links 0
",
    },
    // Who takes one name of a file clashes with who takes the other.
    Row {
        script: "priorities 0 0
1 open /a WRONLY,CREAT
1 link /a /b
1 begin
2 begin
1 unlink /a
2 unlink /b
1 end
2 stat /b
",
        schedule: "1,1,1,2,1,2,1,2",
        limit: 100,
        transcript: "1 P1 open /a WRONLY,CREAT -> 0
2 P1 link /a /b -> ok
3 P1 begin -> begun
4 P2 begin -> begun
5 P1 unlink /a -> ok
6 P2 unlink /b -> aborted links write by P1
7 P1 end -> committed
8 P2 stat /b -> file size 0 links 1
",
    },
    // Links and their refusals, in the order of their tests.
    Row {
        script: "priorities 0
1 open /a WRONLY,CREAT
1 mkdir /d
1 link a /e
1 link /c e
1 link /c /
1 link /a/x /d
1 link /d /
1 link / /e
1 link / /
1 link /a /
1 link /a /c/e
1 link /a /a/x
1 link /a /a
1 link /a /d
1 fstat 0
1 link /a /d/b
1 link /d/b /e
1 fstat 0
1 list /
",
        schedule: "1,1,1,1,1,1,1,1,1,1,1,1,1,1,1,1,1,1,1",
        limit: 100,
        transcript: "1 P1 open /a WRONLY,CREAT -> 0
2 P1 mkdir /d -> ok
3 P1 link a /e -> EINVAL
4 P1 link /c e -> EINVAL
5 P1 link /c / -> ENOENT
6 P1 link /a/x /d -> ENOTDIR
7 P1 link /d / -> EPERM
8 P1 link / /e -> EPERM
9 P1 link / / -> EPERM
10 P1 link /a / -> EEXIST
11 P1 link /a /c/e -> ENOENT
12 P1 link /a /a/x -> ENOTDIR
13 P1 link /a /a -> EEXIST
14 P1 link /a /d -> EEXIST
15 P1 fstat 0 -> file size 0 links 1
16 P1 link /a /d/b -> ok
17 P1 link /d/b /e -> ok
18 P1 fstat 0 -> file size 0 links 3
19 P1 list / -> names 3 a d e
",
    },
    // What is no file is not unlinked.
    Row {
        script: "priorities 0
1 open /a WRONLY,CREAT
1 mkdir /d
1 link /a /d/b
1 unlink a
1 unlink /
1 unlink /c/e
1 unlink /a/x
1 unlink /c
1 unlink /d
1 rmdir /a
1 rmdir /d
1 unlink /a
1 unlink /a
1 stat /d/b
1 list /
",
        schedule: "1,1,1,1,1,1,1,1,1,1,1,1,1,1,1",
        limit: 100,
        transcript: "1 P1 open /a WRONLY,CREAT -> 0
2 P1 mkdir /d -> ok
3 P1 link /a /d/b -> ok
4 P1 unlink a -> EINVAL
5 P1 unlink / -> EPERM
6 P1 unlink /c/e -> ENOENT
7 P1 unlink /a/x -> ENOTDIR
8 P1 unlink /c -> ENOENT
9 P1 unlink /d -> EPERM
10 P1 rmdir /a -> ENOTDIR
11 P1 rmdir /d -> ENOTEMPTY
12 P1 unlink /a -> ok
13 P1 unlink /a -> ENOENT
14 P1 stat /d/b -> file size 0 links 1
15 P1 list / -> names 1 d
",
    },
    // The other name leads to the same bytes, and others see it after the end.
    Row {
        script: "priorities 0 0
1 open /a WRONLY,CREAT
1 begin
1 link /a /b
1 write 0 hi
1 stat /b
2 stat /b
2 stat /a
1 end
2 open /b RDONLY
2 read 0 5
2 fstat 0
",
        schedule: "1,1,1,1,1,2,2,1,2,2,2",
        limit: 100,
        transcript: "1 P1 open /a WRONLY,CREAT -> 0
2 P1 begin -> begun
3 P1 link /a /b -> ok
4 P1 write 0 hi -> 2
5 P1 stat /b -> file size 2 links 2
6 P2 stat /b -> ENOENT
7 P2 stat /a -> file size 0 links 1
8 P1 end -> committed
9 P2 open /b RDONLY -> 0
10 P2 read 0 5 -> 2 hi
11 P2 fstat 0 -> file size 2 links 2
",
    },
    // Links that are given up are as they were.
    Row {
        script: "priorities 0
1 open /a WRONLY,CREAT
1 begin
1 link /a /b
1 unlink /a
1 fstat 0
1 unlink /b
1 fstat 0
1 list /
1 abort
1 fstat 0
1 list /
",
        schedule: "1,1,1,1,1,1,1,1,1,1,1",
        limit: 100,
        transcript: "1 P1 open /a WRONLY,CREAT -> 0
2 P1 begin -> begun
3 P1 link /a /b -> ok
4 P1 unlink /a -> ok
5 P1 fstat 0 -> file size 0 links 1
6 P1 unlink /b -> ok
7 P1 fstat 0 -> file size 0 links 0
8 P1 list / -> names 0
9 P1 abort -> given up
10 P1 fstat 0 -> file size 0 links 1
11 P1 list / -> names 1 a
",
    },
    // Who has seen how many links a file has is doomed by one more.
    Row {
        script: "priorities 0 0
1 open /a WRONLY,CREAT
1 begin
1 fstat 0
2 link /a /b
1 end
",
        schedule: "1,1,1,2,1",
        limit: 100,
        transcript: "1 P1 open /a WRONLY,CREAT -> 0
2 P1 begin -> begun
3 P1 fstat 0 -> file size 0 links 1
4 P2 link /a /b -> ok dooms P1
5 P1 end -> aborted links read by P2
",
    },
    // A plain unlink is put off by a higher priority that has seen the links.
    Row {
        script: "priorities 1 0
1 open /a WRONLY,CREAT
1 begin
1 fstat 0
2 unlink /a
1 end
2 unlink /a
",
        schedule: "1,1,1,2,1,2",
        limit: 100,
        transcript: "1 P1 open /a WRONLY,CREAT -> 0
2 P1 begin -> begun
3 P1 fstat 0 -> file size 0 links 1
4 P2 unlink /a -> busy links write by P1
5 P1 end -> committed
6 P2 unlink /a -> ok
",
    },
    // Two transactions name one file, and both write the number of its links.
    Row {
        script: "priorities 0 0
1 open /a WRONLY,CREAT
1 begin
2 begin
1 link /a /b
2 link /a /c
1 end
2 link /a /c
2 stat /a
",
        schedule: "1,1,2,1,2,1,2,2",
        limit: 100,
        transcript: "1 P1 open /a WRONLY,CREAT -> 0
2 P1 begin -> begun
3 P2 begin -> begun
4 P1 link /a /b -> ok
5 P2 link /a /c -> aborted links write by P1
6 P1 end -> committed
7 P2 link /a /c -> ok
8 P2 stat /a -> file size 0 links 3
",
    },
    // Two transactions take the names of two files in one directory.
    Row {
        script: "priorities 0 0
1 open /a WRONLY,CREAT
1 open /b WRONLY,CREAT
1 begin
2 begin
1 unlink /a
2 unlink /b
2 list /
1 end
2 list /
",
        schedule: "1,1,1,2,1,2,2,1,2",
        limit: 100,
        transcript: "1 P1 open /a WRONLY,CREAT -> 0
2 P1 open /b WRONLY,CREAT -> 1
3 P1 begin -> begun
4 P2 begin -> begun
5 P1 unlink /a -> ok
6 P2 unlink /b -> ok
7 P2 list / -> aborted names read by P1
8 P1 end -> committed
9 P2 list / -> names 1 b
",
    },
];
