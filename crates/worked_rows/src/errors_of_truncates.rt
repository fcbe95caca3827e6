// Rows of the tests of cuts by name, in their order.
use crate::openings::row_after;
use crate::row::Row;

pub(crate) static ERRORS_OF_TRUNCATES: [Row; 2] = [
    // The tests in their order, each where those behind it would refuse too.
    row_after! {
        after: a_file_in_a_directory,
        priorities: "0",
        script: "1 truncate \\e 4294967295
1 truncate c 4294967295
1 truncate /c/ 4294967295
1 truncate /a/. 4294967295
1 truncate /a/b 4294967295
1 truncate /a/b/c 4294967295
1 truncate /d/b/c 4294967295
1 truncate /c 4294967295
1 truncate /c/a 4294967295
1 truncate /d/a 4294967295
1 truncate / 4294967295
1 truncate /d 1048577
1 truncate /d 0
1 truncate /a 4294967295
1 truncate /a 1048577
1 fstat 0
1 truncate /a 1048576
1 fstat 0
1 truncate /d/b 7
1 fstat 1
",
        schedule: "1,1,1,1,1,1,1,1,1,1,1,1,1,1,1,1,1,1,1,1",
        transcript: "4 P1 truncate \\e 4294967295 -> EINVAL
5 P1 truncate c 4294967295 -> EINVAL
6 P1 truncate /c/ 4294967295 -> EINVAL
7 P1 truncate /a/. 4294967295 -> EINVAL
8 P1 truncate /a/b 4294967295 -> ENOTDIR
9 P1 truncate /a/b/c 4294967295 -> ENOTDIR
10 P1 truncate /d/b/c 4294967295 -> ENOTDIR
11 P1 truncate /c 4294967295 -> ENOENT
12 P1 truncate /c/a 4294967295 -> ENOENT
13 P1 truncate /d/a 4294967295 -> ENOENT
14 P1 truncate / 4294967295 -> EISDIR
15 P1 truncate /d 1048577 -> EISDIR
16 P1 truncate /d 0 -> EISDIR
17 P1 truncate /a 4294967295 -> EFBIG
18 P1 truncate /a 1048577 -> EFBIG
19 P1 fstat 0 -> file size 0 links 1
20 P1 truncate /a 1048576 -> ok
21 P1 fstat 0 -> file size 1048576 links 1
22 P1 truncate /d/b 7 -> ok
23 P1 fstat 1 -> file size 7 links 1
",
    },
    // The same in a transaction.
    row_after! {
        after: a_file_in_a_directory,
        priorities: "0 0",
        script: "1 begin
1 truncate \\e 4294967295
1 truncate c 4294967295
1 truncate /c/ 4294967295
1 truncate /a/. 4294967295
1 truncate /a/b 4294967295
1 truncate /a/b/c 4294967295
1 truncate /d/b/c 4294967295
1 truncate /c 4294967295
1 truncate /c/a 4294967295
1 truncate /d/a 4294967295
1 truncate / 4294967295
1 truncate /d 1048577
1 truncate /d 0
1 truncate /a 4294967295
1 truncate /a 1048577
1 fstat 0
1 truncate /a 1048576
1 fstat 0
1 truncate /d/b 7
1 fstat 1
2 stat /a
2 stat /d/b
1 end
2 stat /a
2 stat /d/b
",
        schedule: "1,1,1,1,1,1,1,1,1,1,1,1,1,1,1,1,1,1,1,1,1,2,2,1,2,2",
        transcript: "4 P1 begin -> begun
5 P1 truncate \\e 4294967295 -> EINVAL
6 P1 truncate c 4294967295 -> EINVAL
7 P1 truncate /c/ 4294967295 -> EINVAL
8 P1 truncate /a/. 4294967295 -> EINVAL
9 P1 truncate /a/b 4294967295 -> ENOTDIR
10 P1 truncate /a/b/c 4294967295 -> ENOTDIR
11 P1 truncate /d/b/c 4294967295 -> ENOTDIR
12 P1 truncate /c 4294967295 -> ENOENT
13 P1 truncate /c/a 4294967295 -> ENOENT
14 P1 truncate /d/a 4294967295 -> ENOENT
15 P1 truncate / 4294967295 -> EISDIR
16 P1 truncate /d 1048577 -> EISDIR
17 P1 truncate /d 0 -> EISDIR
18 P1 truncate /a 4294967295 -> EFBIG
19 P1 truncate /a 1048577 -> EFBIG
20 P1 fstat 0 -> file size 0 links 1
21 P1 truncate /a 1048576 -> ok
22 P1 fstat 0 -> file size 1048576 links 1
23 P1 truncate /d/b 7 -> ok
24 P1 fstat 1 -> file size 7 links 1
25 P2 stat /a -> file size 0 links 1
26 P2 stat /d/b -> file size 0 links 1
27 P1 end -> committed
28 P2 stat /a -> file size 1048576 links 1
29 P2 stat /d/b -> file size 7 links 1
",
    },
];
