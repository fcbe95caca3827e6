// Rows of the tests of chmod, chown, fchmod and fchown, in their order.
use crate::openings::row_after;
use crate::row::Row;

pub(crate) static ERRORS_OF_RIGHTS: [Row; 6] = [
    // Chmod, in the order of its tests: the path, each name on it, and a link at its end.
    row_after! {
        after: a_link_a_fifo_and_a_socket,
        priorities: "0",
        script: "1 chmod d 700
1 chmod \\e 700
1 chmod /d/ 700
1 chmod /d/.. 700
1 chmod /x\\x00/y 700
1 chmod /x 700
1 chmod /x/y 700
1 chmod /l/x/y 700
1 chmod /d/m/x 700
1 chmod /f/x 700
1 chmod /s/x/y 700
1 chmod /d/x 700
1 chmod /l 700
1 chmod /d/m 700
1 chmod /d 700
1 chmod /f 0
1 chmod /s 7777
1 stat /d
1 stat /f
1 stat /s
1 lstat /l
",
        schedule: "1,1,1,1,1,1,1,1,1,1,1,1,1,1,1,1,1,1,1,1,1",
        transcript: "6 P1 chmod d 700 -> EINVAL
7 P1 chmod \\e 700 -> EINVAL
8 P1 chmod /d/ 700 -> EINVAL
9 P1 chmod /d/.. 700 -> EINVAL
10 P1 chmod /x\\x00/y 700 -> EINVAL
11 P1 chmod /x 700 -> ENOENT
12 P1 chmod /x/y 700 -> ENOENT
13 P1 chmod /l/x/y 700 -> ELOOP
14 P1 chmod /d/m/x 700 -> ELOOP
15 P1 chmod /f/x 700 -> ENOTDIR
16 P1 chmod /s/x/y 700 -> ENOTDIR
17 P1 chmod /d/x 700 -> ENOENT
18 P1 chmod /l 700 -> ELOOP
19 P1 chmod /d/m 700 -> ELOOP
20 P1 chmod /d 700 -> ok
21 P1 chmod /f 0 -> ok
22 P1 chmod /s 7777 -> ok
23 P1 stat /d -> dir size 0 links 1 mode 700
24 P1 stat /f -> fifo size 0 links 1 mode 0
25 P1 stat /s -> socket size 0 links 1 mode 7777
26 P1 lstat /l -> link size 1 links 1
",
    },
    // The same in a transaction.
    row_after! {
        after: a_link_a_fifo_and_a_socket,
        priorities: "0",
        script: "1 begin
1 chmod d 700
1 chmod \\e 700
1 chmod /d/ 700
1 chmod /d/.. 700
1 chmod /x\\x00/y 700
1 chmod /x 700
1 chmod /x/y 700
1 chmod /l/x/y 700
1 chmod /d/m/x 700
1 chmod /f/x 700
1 chmod /s/x/y 700
1 chmod /d/x 700
1 chmod /l 700
1 chmod /d/m 700
1 chmod /d 700
1 chmod /f 0
1 chmod /s 7777
1 stat /d
1 stat /f
1 stat /s
1 lstat /l
1 end
",
        schedule: "1,1,1,1,1,1,1,1,1,1,1,1,1,1,1,1,1,1,1,1,1,1,1",
        transcript: "6 P1 begin -> begun
7 P1 chmod d 700 -> EINVAL
8 P1 chmod \\e 700 -> EINVAL
9 P1 chmod /d/ 700 -> EINVAL
10 P1 chmod /d/.. 700 -> EINVAL
11 P1 chmod /x\\x00/y 700 -> EINVAL
12 P1 chmod /x 700 -> ENOENT
13 P1 chmod /x/y 700 -> ENOENT
14 P1 chmod /l/x/y 700 -> ELOOP
15 P1 chmod /d/m/x 700 -> ELOOP
16 P1 chmod /f/x 700 -> ENOTDIR
17 P1 chmod /s/x/y 700 -> ENOTDIR
18 P1 chmod /d/x 700 -> ENOENT
19 P1 chmod /l 700 -> ELOOP
20 P1 chmod /d/m 700 -> ELOOP
21 P1 chmod /d 700 -> ok
22 P1 chmod /f 0 -> ok
23 P1 chmod /s 7777 -> ok
24 P1 stat /d -> dir size 0 links 1 mode 700
25 P1 stat /f -> fifo size 0 links 1 mode 0
26 P1 stat /s -> socket size 0 links 1 mode 7777
27 P1 lstat /l -> link size 1 links 1
28 P1 end -> committed
",
    },
    // Chown: the same, but that a link at the end is what it is about.
    row_after! {
        after: a_link_a_fifo_and_a_socket,
        priorities: "0",
        script: "1 chown d 1 2
1 chown \\e 1 2
1 chown /d/ 1 2
1 chown /d/.. 1 2
1 chown /x\\x00/y 1 2
1 chown /x 1 2
1 chown /x/y 1 2
1 chown /l/x/y 1 2
1 chown /d/m/x 1 2
1 chown /f/x 1 2
1 chown /s/x/y 1 2
1 chown /d/x 1 2
1 chown /l 1 2
1 chown /d/m 1 2
1 chown /d 1 2
1 chown /f - 3
1 chown /s 4 -
1 stat /d
1 stat /f
1 stat /s
1 lstat /l
1 lstat /d/m
",
        schedule: "1,1,1,1,1,1,1,1,1,1,1,1,1,1,1,1,1,1,1,1,1,1",
        transcript: "6 P1 chown d 1 2 -> EINVAL
7 P1 chown \\e 1 2 -> EINVAL
8 P1 chown /d/ 1 2 -> EINVAL
9 P1 chown /d/.. 1 2 -> EINVAL
10 P1 chown /x\\x00/y 1 2 -> EINVAL
11 P1 chown /x 1 2 -> ENOENT
12 P1 chown /x/y 1 2 -> ENOENT
13 P1 chown /l/x/y 1 2 -> ELOOP
14 P1 chown /d/m/x 1 2 -> ELOOP
15 P1 chown /f/x 1 2 -> ENOTDIR
16 P1 chown /s/x/y 1 2 -> ENOTDIR
17 P1 chown /d/x 1 2 -> ENOENT
18 P1 chown /l 1 2 -> ok
19 P1 chown /d/m 1 2 -> ok
20 P1 chown /d 1 2 -> ok
21 P1 chown /f - 3 -> ok
22 P1 chown /s 4 - -> ok
23 P1 stat /d -> dir size 0 links 1 owner 1 2
24 P1 stat /f -> fifo size 0 links 1 owner 0 3
25 P1 stat /s -> socket size 0 links 1 owner 4 0
26 P1 lstat /l -> link size 1 links 1 owner 1 2
27 P1 lstat /d/m -> link size 1 links 1 owner 1 2
",
    },
    // The same in a transaction.
    row_after! {
        after: a_link_a_fifo_and_a_socket,
        priorities: "0",
        script: "1 begin
1 chown d 1 2
1 chown \\e 1 2
1 chown /d/ 1 2
1 chown /d/.. 1 2
1 chown /x\\x00/y 1 2
1 chown /x 1 2
1 chown /x/y 1 2
1 chown /l/x/y 1 2
1 chown /d/m/x 1 2
1 chown /f/x 1 2
1 chown /s/x/y 1 2
1 chown /d/x 1 2
1 chown /l 1 2
1 chown /d/m 1 2
1 chown /d 1 2
1 chown /f - 3
1 chown /s 4 -
1 stat /d
1 stat /f
1 stat /s
1 lstat /l
1 lstat /d/m
1 end
",
        schedule: "1,1,1,1,1,1,1,1,1,1,1,1,1,1,1,1,1,1,1,1,1,1,1,1",
        transcript: "6 P1 begin -> begun
7 P1 chown d 1 2 -> EINVAL
8 P1 chown \\e 1 2 -> EINVAL
9 P1 chown /d/ 1 2 -> EINVAL
10 P1 chown /d/.. 1 2 -> EINVAL
11 P1 chown /x\\x00/y 1 2 -> EINVAL
12 P1 chown /x 1 2 -> ENOENT
13 P1 chown /x/y 1 2 -> ENOENT
14 P1 chown /l/x/y 1 2 -> ELOOP
15 P1 chown /d/m/x 1 2 -> ELOOP
16 P1 chown /f/x 1 2 -> ENOTDIR
17 P1 chown /s/x/y 1 2 -> ENOTDIR
18 P1 chown /d/x 1 2 -> ENOENT
19 P1 chown /l 1 2 -> ok
20 P1 chown /d/m 1 2 -> ok
21 P1 chown /d 1 2 -> ok
22 P1 chown /f - 3 -> ok
23 P1 chown /s 4 - -> ok
24 P1 stat /d -> dir size 0 links 1 owner 1 2
25 P1 stat /f -> fifo size 0 links 1 owner 0 3
26 P1 stat /s -> socket size 0 links 1 owner 4 0
27 P1 lstat /l -> link size 1 links 1 owner 1 2
28 P1 lstat /d/m -> link size 1 links 1 owner 1 2
29 P1 end -> committed
",
    },
    // Fchmod and fchown: a descriptor that is not open. How it is open does not matter, and each
    // end of a pipe is of the same.
    row_after! {
        after: a_file_twice_and_a_pipe,
        priorities: "0",
        script: "1 fchmod 4 700
1 fchmod 63 700
1 fchmod 64 700
1 fchmod 4294967295 700
1 fchown 4 1 2
1 fchown 64 1 2
1 fchown 4294967295 - -
1 fchmod 0 600
1 fstat 1
1 fchown 1 1 -
1 fstat 0
1 fchmod 3 600
1 fchown 2 - 2
1 fstat 2
1 close 0
1 fchmod 0 644
1 fchown 0 1 2
1 fstat 1
1 stat /a
",
        schedule: "1,1,1,1,1,1,1,1,1,1,1,1,1,1,1,1,1,1,1",
        transcript: "4 P1 fchmod 4 700 -> EBADF
5 P1 fchmod 63 700 -> EBADF
6 P1 fchmod 64 700 -> EBADF
7 P1 fchmod 4294967295 700 -> EBADF
8 P1 fchown 4 1 2 -> EBADF
9 P1 fchown 64 1 2 -> EBADF
10 P1 fchown 4294967295 - - -> EBADF
11 P1 fchmod 0 600 -> ok
12 P1 fstat 1 -> file size 0 links 1 mode 600
13 P1 fchown 1 1 - -> ok
14 P1 fstat 0 -> file size 0 links 1 mode 600 owner 1 0
15 P1 fchmod 3 600 -> ok
16 P1 fchown 2 - 2 -> ok
17 P1 fstat 2 -> pipe size 0 links 0 mode 600 owner 0 2
18 P1 close 0 -> ok
19 P1 fchmod 0 644 -> EBADF
20 P1 fchown 0 1 2 -> EBADF
21 P1 fstat 1 -> file size 0 links 1 mode 600 owner 1 0
22 P1 stat /a -> file size 0 links 1 mode 600 owner 1 0
",
    },
    // The same in a transaction.
    row_after! {
        after: a_file_twice_and_a_pipe,
        priorities: "0",
        script: "1 begin
1 fchmod 4 700
1 fchmod 63 700
1 fchmod 64 700
1 fchmod 4294967295 700
1 fchown 4 1 2
1 fchown 64 1 2
1 fchown 4294967295 - -
1 fchmod 0 600
1 fstat 1
1 fchown 1 1 -
1 fstat 0
1 fchmod 3 600
1 fchown 2 - 2
1 fstat 2
1 close 0
1 fchmod 0 644
1 fchown 0 1 2
1 fstat 1
1 stat /a
1 end
",
        schedule: "1,1,1,1,1,1,1,1,1,1,1,1,1,1,1,1,1,1,1,1,1",
        transcript: "4 P1 begin -> begun
5 P1 fchmod 4 700 -> EBADF
6 P1 fchmod 63 700 -> EBADF
7 P1 fchmod 64 700 -> EBADF
8 P1 fchmod 4294967295 700 -> EBADF
9 P1 fchown 4 1 2 -> EBADF
10 P1 fchown 64 1 2 -> EBADF
11 P1 fchown 4294967295 - - -> EBADF
12 P1 fchmod 0 600 -> ok
13 P1 fstat 1 -> file size 0 links 1 mode 600
14 P1 fchown 1 1 - -> ok
15 P1 fstat 0 -> file size 0 links 1 mode 600 owner 1 0
16 P1 fchmod 3 600 -> ok
17 P1 fchown 2 - 2 -> ok
18 P1 fstat 2 -> pipe size 0 links 0 mode 600 owner 0 2
19 P1 close 0 -> ok
20 P1 fchmod 0 644 -> EBADF
21 P1 fchown 0 1 2 -> EBADF
22 P1 fstat 1 -> file size 0 links 1 mode 600 owner 1 0
23 P1 stat /a -> file size 0 links 1 mode 600 owner 1 0
24 P1 end -> committed
",
    },
];
