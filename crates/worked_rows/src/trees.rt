// Rows of directories in directories.
use crate::row::Row;

pub(crate) static TREES: [Row; 11] = [
    // Two transactions add to one directory. Others see what they have added after both ends.
    Row {
        script: "priorities 0 0 0
1 mkdir /d
1 begin
2 begin
1 mkdir /d/a
2 mkdir /d/b
3 list /d
1 end
2 end
1 list /d
",
        schedule: "1,1,2,1,2,3,1,2,1",
        limit: 100,
        transcript: "1 P1 mkdir /d -> ok
2 P1 begin -> begun
3 P2 begin -> begun
4 P1 mkdir /d/a -> ok
5 P2 mkdir /d/b -> ok
6 P3 list /d -> names 0
7 P1 end -> committed
8 P2 end -> committed
9 P1 list /d -> names 2 a b
",
    },
    // The one sees its own name there, and not the other's.
    Row {
        script: "priorities 0 0
1 mkdir /d
1 begin
2 begin
1 mkdir /d/a
2 mkdir /d/b
1 stat /d/a
1 stat /d/b
1 end
2 end
",
        schedule: "1,1,2,1,2,1,1,1,2",
        limit: 100,
        transcript: "1 P1 mkdir /d -> ok
2 P1 begin -> begun
3 P2 begin -> begun
4 P1 mkdir /d/a -> ok
5 P2 mkdir /d/b -> ok
6 P1 stat /d/a -> dir size 0 links 1
7 P1 stat /d/b -> ENOENT dooms P2
8 P1 end -> committed
9 P2 end -> aborted entry b write by P1
",
    },
    // So does the other, which has the higher priority here.
    Row {
        script: "priorities 0 1
1 mkdir /d
1 begin
2 begin
1 mkdir /d/a
2 mkdir /d/b
2 stat /d/b
2 stat /d/a
2 end
1 end
",
        schedule: "1,1,2,1,2,2,2,2,1",
        limit: 100,
        transcript: "1 P1 mkdir /d -> ok
2 P1 begin -> begun
3 P2 begin -> begun
4 P1 mkdir /d/a -> ok
5 P2 mkdir /d/b -> ok
6 P2 stat /d/b -> dir size 0 links 1
7 P2 stat /d/a -> ENOENT dooms P1
8 P2 end -> committed
9 P1 end -> aborted entry a write by P2
",
    },
    // Who has listed a directory is doomed by who adds to it.
    Row {
        script: "priorities 0 0
1 mkdir /d
1 begin
1 list /d
2 mkdir /d/z
1 stat /
",
        schedule: "1,1,1,2,1",
        limit: 100,
        transcript: "1 P1 mkdir /d -> ok
2 P1 begin -> begun
3 P1 list /d -> names 0
4 P2 mkdir /d/z -> ok dooms P1
5 P1 stat / -> aborted names read by P2
",
    },
    // So is who has removed it, since it was seen to be empty.
    Row {
        script: "priorities 0 0
1 mkdir /d
1 begin
1 rmdir /d
2 mkdir /d/x
1 end
",
        schedule: "1,1,1,2,1",
        limit: 100,
        transcript: "1 P1 mkdir /d -> ok
2 P1 begin -> begun
3 P1 rmdir /d -> ok
4 P2 mkdir /d/x -> ok dooms P1
5 P1 end -> aborted names read by P2
",
    },
    // A directory with names is not removed, and the root never.
    Row {
        script: "priorities 0
1 mkdir /d
1 mkdir /d/e
1 rmdir /d
1 rmdir /d/e
1 rmdir /d
1 rmdir /
1 stat /d/e
",
        schedule: "1,1,1,1,1,1,1",
        limit: 100,
        transcript: "1 P1 mkdir /d -> ok
2 P1 mkdir /d/e -> ok
3 P1 rmdir /d -> ENOTEMPTY
4 P1 rmdir /d/e -> ok
5 P1 rmdir /d -> ok
6 P1 rmdir / -> EBUSY
7 P1 stat /d/e -> ENOENT
",
    },
    // A name that is there, and names that are not.
    Row {
        script: "priorities 0
1 mkdir /b
1 mkdir /a
1 mkdir /a
1 mkdir /
1 mkdir /c/a
1 rmdir /c
1 list /c
1 list /
",
        schedule: "1,1,1,1,1,1,1,1",
        limit: 100,
        transcript: "1 P1 mkdir /b -> ok
2 P1 mkdir /a -> ok
3 P1 mkdir /a -> EEXIST
4 P1 mkdir / -> EEXIST
5 P1 mkdir /c/a -> ENOENT
6 P1 rmdir /c -> ENOENT
7 P1 list /c -> ENOENT
8 P1 list / -> names 2 a b
",
    },
    // What is given up is gone with all that it led to, and can be made anew.
    Row {
        script: "priorities 0
1 begin
1 mkdir /a
1 mkdir /a/b
1 stat /a/b
1 abort
1 stat /a
1 mkdir /a
1 mkdir /a/b
1 list /a
",
        schedule: "1,1,1,1,1,1,1,1,1",
        limit: 100,
        transcript: "1 P1 begin -> begun
2 P1 mkdir /a -> ok
3 P1 mkdir /a/b -> ok
4 P1 stat /a/b -> dir size 0 links 1
5 P1 abort -> given up
6 P1 stat /a -> ENOENT
7 P1 mkdir /a -> ok
8 P1 mkdir /a/b -> ok
9 P1 list /a -> names 1 b
",
    },
    // So it is where the transaction is doomed.
    Row {
        script: "priorities 0 0
1 begin
1 mkdir /a
1 mkdir /a/b
2 mkdir /a
2 list /a
1 end
",
        schedule: "1,1,1,2,2,1",
        limit: 100,
        transcript: "1 P1 begin -> begun
2 P1 mkdir /a -> ok
3 P1 mkdir /a/b -> ok
4 P2 mkdir /a -> ok dooms P1
5 P2 list /a -> names 0
6 P1 end -> aborted entry a write by P2
",
    },
    // A transaction makes, removes and makes again, below what it has made itself.
    Row {
        script: "priorities 0 0
1 begin
1 mkdir /a
1 mkdir /a/b
1 rmdir /a/b
1 rmdir /a
1 mkdir /a
1 mkdir /a/c
1 list /a
1 end
2 list /a
2 stat /a/b
",
        schedule: "1,1,1,1,1,1,1,1,1,2,2",
        limit: 100,
        transcript: "1 P1 begin -> begun
2 P1 mkdir /a -> ok
3 P1 mkdir /a/b -> ok
4 P1 rmdir /a/b -> ok
5 P1 rmdir /a -> ok
6 P1 mkdir /a -> ok
7 P1 mkdir /a/c -> ok
8 P1 list /a -> names 1 c
9 P1 end -> committed
10 P2 list /a -> names 1 c
11 P2 stat /a/b -> ENOENT
",
    },
    // A transaction removes what was there, and makes the name again.
    Row {
        script: "priorities 0 0
1 mkdir /a
1 mkdir /a/b
1 begin
1 rmdir /a/b
1 rmdir /a
1 mkdir /a
1 list /a
1 end
2 list /a
2 list /
",
        schedule: "1,1,1,1,1,1,1,1,2,2",
        limit: 100,
        transcript: "1 P1 mkdir /a -> ok
2 P1 mkdir /a/b -> ok
3 P1 begin -> begun
4 P1 rmdir /a/b -> ok
5 P1 rmdir /a -> ok
6 P1 mkdir /a -> ok
7 P1 list /a -> names 0
8 P1 end -> committed
9 P2 list /a -> names 0
10 P2 list / -> names 1 a
",
    },
];
