// Rows of the tests of symlink, readlink, lstat and mknod, in their order.
use crate::openings::row_after;
use crate::row::Row;

pub(crate) static ERRORS_OF_LINKS: [Row; 6] = [
    // Symlink: the target first, then the path, each test where those behind it would refuse too.
    row_after! {
        after: a_link_a_fifo_and_a_socket,
        priorities: "0",
        script: "1 symlink \\e l
1 symlink a\\x00 l
1 symlink \\x00 /x/l
1 symlink t l
1 symlink t \\e
1 symlink t /d/
1 symlink t /d/..
1 symlink t /x\\x00
1 symlink t /
1 symlink t /x/l
1 symlink t /f/l
1 symlink t /s/l
1 symlink t /l/l
1 symlink t /d/m/l
1 symlink t /l
1 symlink t /d
1 symlink t /f
1 symlink t /d/m
1 list /
1 list /d
",
        schedule: "1,1,1,1,1,1,1,1,1,1,1,1,1,1,1,1,1,1,1,1",
        transcript: "6 P1 symlink \\e l -> ENOENT
7 P1 symlink a\\x00 l -> EINVAL
8 P1 symlink \\x00 /x/l -> EINVAL
9 P1 symlink t l -> EINVAL
10 P1 symlink t \\e -> EINVAL
11 P1 symlink t /d/ -> EINVAL
12 P1 symlink t /d/.. -> EINVAL
13 P1 symlink t /x\\x00 -> EINVAL
14 P1 symlink t / -> EEXIST
15 P1 symlink t /x/l -> ENOENT
16 P1 symlink t /f/l -> ENOTDIR
17 P1 symlink t /s/l -> ENOTDIR
18 P1 symlink t /l/l -> ELOOP
19 P1 symlink t /d/m/l -> ELOOP
20 P1 symlink t /l -> EEXIST
21 P1 symlink t /d -> EEXIST
22 P1 symlink t /f -> EEXIST
23 P1 symlink t /d/m -> EEXIST
24 P1 list / -> names 4 d f l s
25 P1 list /d -> names 1 m
",
    },
    // The same in a transaction.
    row_after! {
        after: a_link_a_fifo_and_a_socket,
        priorities: "0",
        script: "1 begin
1 symlink \\e l
1 symlink a\\x00 l
1 symlink \\x00 /x/l
1 symlink t l
1 symlink t \\e
1 symlink t /d/
1 symlink t /d/..
1 symlink t /x\\x00
1 symlink t /
1 symlink t /x/l
1 symlink t /f/l
1 symlink t /s/l
1 symlink t /l/l
1 symlink t /d/m/l
1 symlink t /l
1 symlink t /d
1 symlink t /f
1 symlink t /d/m
1 list /
1 list /d
1 end
",
        schedule: "1,1,1,1,1,1,1,1,1,1,1,1,1,1,1,1,1,1,1,1,1,1",
        transcript: "6 P1 begin -> begun
7 P1 symlink \\e l -> ENOENT
8 P1 symlink a\\x00 l -> EINVAL
9 P1 symlink \\x00 /x/l -> EINVAL
10 P1 symlink t l -> EINVAL
11 P1 symlink t \\e -> EINVAL
12 P1 symlink t /d/ -> EINVAL
13 P1 symlink t /d/.. -> EINVAL
14 P1 symlink t /x\\x00 -> EINVAL
15 P1 symlink t / -> EEXIST
16 P1 symlink t /x/l -> ENOENT
17 P1 symlink t /f/l -> ENOTDIR
18 P1 symlink t /s/l -> ENOTDIR
19 P1 symlink t /l/l -> ELOOP
20 P1 symlink t /d/m/l -> ELOOP
21 P1 symlink t /l -> EEXIST
22 P1 symlink t /d -> EEXIST
23 P1 symlink t /f -> EEXIST
24 P1 symlink t /d/m -> EEXIST
25 P1 list / -> names 4 d f l s
26 P1 list /d -> names 1 m
27 P1 end -> committed
",
    },
    // Readlink and lstat, in the order of their tests.
    row_after! {
        after: a_link_a_fifo_and_a_socket,
        priorities: "0",
        script: "1 readlink l
1 readlink \\e
1 readlink /l/
1 readlink /x
1 readlink /x/l
1 readlink /f/l
1 readlink /l/m
1 readlink /d
1 readlink /
1 readlink /f
1 readlink /s
1 lstat l
1 lstat \\e
1 lstat /l/
1 lstat /x
1 lstat /x/l
1 lstat /f/l
1 lstat /l/m
1 lstat /
1 lstat /d
1 lstat /l
1 lstat /d/m
1 lstat /f
1 lstat /s
",
        schedule: "1,1,1,1,1,1,1,1,1,1,1,1,1,1,1,1,1,1,1,1,1,1,1,1",
        transcript: "6 P1 readlink l -> EINVAL
7 P1 readlink \\e -> EINVAL
8 P1 readlink /l/ -> EINVAL
9 P1 readlink /x -> ENOENT
10 P1 readlink /x/l -> ENOENT
11 P1 readlink /f/l -> ENOTDIR
12 P1 readlink /l/m -> ELOOP
13 P1 readlink /d -> EINVAL
14 P1 readlink / -> EINVAL
15 P1 readlink /f -> EINVAL
16 P1 readlink /s -> EINVAL
17 P1 lstat l -> EINVAL
18 P1 lstat \\e -> EINVAL
19 P1 lstat /l/ -> EINVAL
20 P1 lstat /x -> ENOENT
21 P1 lstat /x/l -> ENOENT
22 P1 lstat /f/l -> ENOTDIR
23 P1 lstat /l/m -> ELOOP
24 P1 lstat / -> dir size 0 links 1
25 P1 lstat /d -> dir size 0 links 1
26 P1 lstat /l -> link size 1 links 1
27 P1 lstat /d/m -> link size 1 links 1
28 P1 lstat /f -> fifo size 0 links 1
29 P1 lstat /s -> socket size 0 links 1
",
    },
    // The same in a transaction.
    row_after! {
        after: a_link_a_fifo_and_a_socket,
        priorities: "0",
        script: "1 begin
1 readlink l
1 readlink \\e
1 readlink /l/
1 readlink /x
1 readlink /x/l
1 readlink /f/l
1 readlink /l/m
1 readlink /d
1 readlink /
1 readlink /f
1 readlink /s
1 lstat l
1 lstat \\e
1 lstat /l/
1 lstat /x
1 lstat /x/l
1 lstat /f/l
1 lstat /l/m
1 lstat /
1 lstat /d
1 lstat /l
1 lstat /d/m
1 lstat /f
1 lstat /s
1 end
",
        schedule: "1,1,1,1,1,1,1,1,1,1,1,1,1,1,1,1,1,1,1,1,1,1,1,1,1,1",
        transcript: "6 P1 begin -> begun
7 P1 readlink l -> EINVAL
8 P1 readlink \\e -> EINVAL
9 P1 readlink /l/ -> EINVAL
10 P1 readlink /x -> ENOENT
11 P1 readlink /x/l -> ENOENT
12 P1 readlink /f/l -> ENOTDIR
13 P1 readlink /l/m -> ELOOP
14 P1 readlink /d -> EINVAL
15 P1 readlink / -> EINVAL
16 P1 readlink /f -> EINVAL
17 P1 readlink /s -> EINVAL
18 P1 lstat l -> EINVAL
19 P1 lstat \\e -> EINVAL
20 P1 lstat /l/ -> EINVAL
21 P1 lstat /x -> ENOENT
22 P1 lstat /x/l -> ENOENT
23 P1 lstat /f/l -> ENOTDIR
24 P1 lstat /l/m -> ELOOP
25 P1 lstat / -> dir size 0 links 1
26 P1 lstat /d -> dir size 0 links 1
27 P1 lstat /l -> link size 1 links 1
28 P1 lstat /d/m -> link size 1 links 1
29 P1 lstat /f -> fifo size 0 links 1
30 P1 lstat /s -> socket size 0 links 1
31 P1 end -> committed
",
    },
    // Mknod, in the order of its tests.
    row_after! {
        after: a_link_a_fifo_and_a_socket,
        priorities: "0",
        script: "1 mknod f fifo
1 mknod \\e socket
1 mknod /f/ fifo
1 mknod / fifo
1 mknod / socket
1 mknod /x/f fifo
1 mknod /f/f fifo
1 mknod /s/f socket
1 mknod /l/f fifo
1 mknod /d/m/f socket
1 mknod /f fifo
1 mknod /f socket
1 mknod /l fifo
1 mknod /d fifo
1 list /
",
        schedule: "1,1,1,1,1,1,1,1,1,1,1,1,1,1,1",
        transcript: "6 P1 mknod f fifo -> EINVAL
7 P1 mknod \\e socket -> EINVAL
8 P1 mknod /f/ fifo -> EINVAL
9 P1 mknod / fifo -> EEXIST
10 P1 mknod / socket -> EEXIST
11 P1 mknod /x/f fifo -> ENOENT
12 P1 mknod /f/f fifo -> ENOTDIR
13 P1 mknod /s/f socket -> ENOTDIR
14 P1 mknod /l/f fifo -> ELOOP
15 P1 mknod /d/m/f socket -> ELOOP
16 P1 mknod /f fifo -> EEXIST
17 P1 mknod /f socket -> EEXIST
18 P1 mknod /l fifo -> EEXIST
19 P1 mknod /d fifo -> EEXIST
20 P1 list / -> names 4 d f l s
",
    },
    // The same in a transaction.
    row_after! {
        after: a_link_a_fifo_and_a_socket,
        priorities: "0",
        script: "1 begin
1 mknod f fifo
1 mknod \\e socket
1 mknod /f/ fifo
1 mknod / fifo
1 mknod / socket
1 mknod /x/f fifo
1 mknod /f/f fifo
1 mknod /s/f socket
1 mknod /l/f fifo
1 mknod /d/m/f socket
1 mknod /f fifo
1 mknod /f socket
1 mknod /l fifo
1 mknod /d fifo
1 list /
1 end
",
        schedule: "1,1,1,1,1,1,1,1,1,1,1,1,1,1,1,1,1",
        transcript: "6 P1 begin -> begun
7 P1 mknod f fifo -> EINVAL
8 P1 mknod \\e socket -> EINVAL
9 P1 mknod /f/ fifo -> EINVAL
10 P1 mknod / fifo -> EEXIST
11 P1 mknod / socket -> EEXIST
12 P1 mknod /x/f fifo -> ENOENT
13 P1 mknod /f/f fifo -> ENOTDIR
14 P1 mknod /s/f socket -> ENOTDIR
15 P1 mknod /l/f fifo -> ELOOP
16 P1 mknod /d/m/f socket -> ELOOP
17 P1 mknod /f fifo -> EEXIST
18 P1 mknod /f socket -> EEXIST
19 P1 mknod /l fifo -> EEXIST
20 P1 mknod /d fifo -> EEXIST
21 P1 list / -> names 4 d f l s
22 P1 end -> committed
",
    },
];
