// Rows of calls whose path gives a symbolic link, a FIFO or a socket, or leads through one.
use crate::openings::row_after;
use crate::row::Row;

pub(crate) static ERRORS_AT_LINKS: [Row; 4] = [
    // At the end of a path: no call follows a link, and none opens a FIFO or a socket.
    row_after! {
        after: a_link_a_fifo_and_a_socket,
        priorities: "0",
        script: "1 stat /l
1 open /l RDONLY
1 open /l RDWR,CREAT
1 open /l RDWR,CREAT,EXCL
1 open /l RDWR,TRUNC
1 truncate /l 1048577
1 list /l
1 rmdir /l
1 mkdir /l
1 link /l /d
1 rename /l /d
1 rename /d /l
1 readlink /l
1 stat /f
1 open /f RDONLY
1 open /s RDWR,CREAT
1 open /f RDWR,CREAT,EXCL
1 open /s WRONLY,TRUNC
1 truncate /f 1048577
1 truncate /s 0
1 list /f
1 rmdir /s
1 mkdir /f
1 fstat 0
1 list /
",
        schedule: "1,1,1,1,1,1,1,1,1,1,1,1,1,1,1,1,1,1,1,1,1,1,1,1,1",
        transcript: "6 P1 stat /l -> ELOOP
7 P1 open /l RDONLY -> ELOOP
8 P1 open /l RDWR,CREAT -> ELOOP
9 P1 open /l RDWR,CREAT,EXCL -> EEXIST
10 P1 open /l RDWR,TRUNC -> ELOOP
11 P1 truncate /l 1048577 -> ELOOP
12 P1 list /l -> ELOOP
13 P1 rmdir /l -> ENOTDIR
14 P1 mkdir /l -> EEXIST
15 P1 link /l /d -> EEXIST
16 P1 rename /l /d -> EISDIR
17 P1 rename /d /l -> ENOTDIR
18 P1 readlink /l -> 1 d
19 P1 stat /f -> fifo size 0 links 1
20 P1 open /f RDONLY -> ENXIO
21 P1 open /s RDWR,CREAT -> ENXIO
22 P1 open /f RDWR,CREAT,EXCL -> EEXIST
23 P1 open /s WRONLY,TRUNC -> ENXIO
24 P1 truncate /f 1048577 -> EINVAL
25 P1 truncate /s 0 -> EINVAL
26 P1 list /f -> ENOTDIR
27 P1 rmdir /s -> ENOTDIR
28 P1 mkdir /f -> EEXIST
29 P1 fstat 0 -> EBADF
30 P1 list / -> names 4 d f l s
",
    },
    // The same in a transaction.
    row_after! {
        after: a_link_a_fifo_and_a_socket,
        priorities: "0",
        script: "1 begin
1 stat /l
1 open /l RDONLY
1 open /l RDWR,CREAT
1 open /l RDWR,CREAT,EXCL
1 open /l RDWR,TRUNC
1 truncate /l 1048577
1 list /l
1 rmdir /l
1 mkdir /l
1 link /l /d
1 rename /l /d
1 rename /d /l
1 readlink /l
1 stat /f
1 open /f RDONLY
1 open /s RDWR,CREAT
1 open /f RDWR,CREAT,EXCL
1 open /s WRONLY,TRUNC
1 truncate /f 1048577
1 truncate /s 0
1 list /f
1 rmdir /s
1 mkdir /f
1 fstat 0
1 list /
1 end
",
        schedule: "1,1,1,1,1,1,1,1,1,1,1,1,1,1,1,1,1,1,1,1,1,1,1,1,1,1,1",
        transcript: "6 P1 begin -> begun
7 P1 stat /l -> ELOOP
8 P1 open /l RDONLY -> ELOOP
9 P1 open /l RDWR,CREAT -> ELOOP
10 P1 open /l RDWR,CREAT,EXCL -> EEXIST
11 P1 open /l RDWR,TRUNC -> ELOOP
12 P1 truncate /l 1048577 -> ELOOP
13 P1 list /l -> ELOOP
14 P1 rmdir /l -> ENOTDIR
15 P1 mkdir /l -> EEXIST
16 P1 link /l /d -> EEXIST
17 P1 rename /l /d -> EISDIR
18 P1 rename /d /l -> ENOTDIR
19 P1 readlink /l -> 1 d
20 P1 stat /f -> fifo size 0 links 1
21 P1 open /f RDONLY -> ENXIO
22 P1 open /s RDWR,CREAT -> ENXIO
23 P1 open /f RDWR,CREAT,EXCL -> EEXIST
24 P1 open /s WRONLY,TRUNC -> ENXIO
25 P1 truncate /f 1048577 -> EINVAL
26 P1 truncate /s 0 -> EINVAL
27 P1 list /f -> ENOTDIR
28 P1 rmdir /s -> ENOTDIR
29 P1 mkdir /f -> EEXIST
30 P1 fstat 0 -> EBADF
31 P1 list / -> names 4 d f l s
32 P1 end -> committed
",
    },
    // Inside a path: a link refuses each call, whatever is behind it; so does what is no
    // directory.
    row_after! {
        after: a_link_a_fifo_and_a_socket,
        priorities: "0",
        script: "1 stat /l/m
1 lstat /l/m
1 readlink /l/m
1 open /l/m RDONLY
1 open /l/x RDWR,CREAT,EXCL
1 truncate /l/m 1048577
1 link /l/m /l
1 link /f /l/x
1 unlink /l/m
1 rename /l/m /l/x
1 rename /f /l/x
1 mkdir /l/x
1 rmdir /l/x
1 list /l/x
1 symlink t /l/x
1 mknod /l/x fifo
1 stat /d/m/x
1 stat /l/x/y/z
1 stat /f/x
1 lstat /s/x
1 open /f/x RDWR,CREAT
1 mkdir /s/x
",
        schedule: "1,1,1,1,1,1,1,1,1,1,1,1,1,1,1,1,1,1,1,1,1,1",
        transcript: "6 P1 stat /l/m -> ELOOP
7 P1 lstat /l/m -> ELOOP
8 P1 readlink /l/m -> ELOOP
9 P1 open /l/m RDONLY -> ELOOP
10 P1 open /l/x RDWR,CREAT,EXCL -> ELOOP
11 P1 truncate /l/m 1048577 -> ELOOP
12 P1 link /l/m /l -> ELOOP
13 P1 link /f /l/x -> ELOOP
14 P1 unlink /l/m -> ELOOP
15 P1 rename /l/m /l/x -> ELOOP
16 P1 rename /f /l/x -> ELOOP
17 P1 mkdir /l/x -> ELOOP
18 P1 rmdir /l/x -> ELOOP
19 P1 list /l/x -> ELOOP
20 P1 symlink t /l/x -> ELOOP
21 P1 mknod /l/x fifo -> ELOOP
22 P1 stat /d/m/x -> ELOOP
23 P1 stat /l/x/y/z -> ELOOP
24 P1 stat /f/x -> ENOTDIR
25 P1 lstat /s/x -> ENOTDIR
26 P1 open /f/x RDWR,CREAT -> ENOTDIR
27 P1 mkdir /s/x -> ENOTDIR
",
    },
    // The same in a transaction.
    row_after! {
        after: a_link_a_fifo_and_a_socket,
        priorities: "0",
        script: "1 begin
1 stat /l/m
1 lstat /l/m
1 readlink /l/m
1 open /l/m RDONLY
1 open /l/x RDWR,CREAT,EXCL
1 truncate /l/m 1048577
1 link /l/m /l
1 link /f /l/x
1 unlink /l/m
1 rename /l/m /l/x
1 rename /f /l/x
1 mkdir /l/x
1 rmdir /l/x
1 list /l/x
1 symlink t /l/x
1 mknod /l/x fifo
1 stat /d/m/x
1 stat /l/x/y/z
1 stat /f/x
1 lstat /s/x
1 open /f/x RDWR,CREAT
1 mkdir /s/x
1 end
",
        schedule: "1,1,1,1,1,1,1,1,1,1,1,1,1,1,1,1,1,1,1,1,1,1,1,1",
        transcript: "6 P1 begin -> begun
7 P1 stat /l/m -> ELOOP
8 P1 lstat /l/m -> ELOOP
9 P1 readlink /l/m -> ELOOP
10 P1 open /l/m RDONLY -> ELOOP
11 P1 open /l/x RDWR,CREAT,EXCL -> ELOOP
12 P1 truncate /l/m 1048577 -> ELOOP
13 P1 link /l/m /l -> ELOOP
14 P1 link /f /l/x -> ELOOP
15 P1 unlink /l/m -> ELOOP
16 P1 rename /l/m /l/x -> ELOOP
17 P1 rename /f /l/x -> ELOOP
18 P1 mkdir /l/x -> ELOOP
19 P1 rmdir /l/x -> ELOOP
20 P1 list /l/x -> ELOOP
21 P1 symlink t /l/x -> ELOOP
22 P1 mknod /l/x fifo -> ELOOP
23 P1 stat /d/m/x -> ELOOP
24 P1 stat /l/x/y/z -> ELOOP
25 P1 stat /f/x -> ENOTDIR
26 P1 lstat /s/x -> ENOTDIR
27 P1 open /f/x RDWR,CREAT -> ENOTDIR
28 P1 mkdir /s/x -> ENOTDIR
29 P1 end -> committed
",
    },
];
