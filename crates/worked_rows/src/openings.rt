// The lines that several rows begin with, written once.

// A row of these pieces: the lines of its script and of its transcript are those of the opening, and
// then its own.
macro_rules! opened {
    (
        operations: [$($operation:literal)*],
        turns: $turns:literal,
        replies: [$($reply:literal)*],
        priorities: $priorities:literal,
        script: $script:literal,
        schedule: $schedule:literal,
        transcript: $transcript:literal,
    ) => {
        $crate::row::Row {
            script: concat!("priorities ", $priorities, "\n", $($operation,)* $script),
            schedule: concat!($turns, $schedule),
            limit: 100,
            transcript: concat!($($reply,)* $transcript),
        }
    };
}

pub(crate) use opened;

// A row behind an opening, with the priorities and with what comes after.
macro_rules! row_after {
    // The first process makes a file with such an open, and writes bytes, so many, into it.
    (after: a_written_file($modes:literal, $bytes:literal, $count:literal), $($rest:tt)*) => {
        $crate::openings::opened! {
            operations: ["1 open /a " $modes "\n1 write 0 " $bytes "\n"],
            turns: "1,1,",
            replies: ["1 P1 open /a " $modes " -> 0\n2 P1 write 0 " $bytes " -> " $count "\n"],
            $($rest)*
        }
    };
    // It makes a file, and another in a directory.
    (after: a_file_in_a_directory, $($rest:tt)*) => {
        $crate::openings::opened! {
            operations: ["1 open /a RDWR,CREAT\n1 mkdir /d\n1 open /d/b WRONLY,CREAT\n"],
            turns: "1,1,1,",
            replies: [
                "1 P1 open /a RDWR,CREAT -> 0\n2 P1 mkdir /d -> ok\n"
                "3 P1 open /d/b WRONLY,CREAT -> 1\n"
            ],
            $($rest)*
        }
    };
    // It makes a directory, a symbolic link to it, a link to nothing in it, a FIFO and a socket.
    (after: a_link_a_fifo_and_a_socket, $($rest:tt)*) => {
        $crate::openings::opened! {
            operations: [
                "1 mkdir /d\n1 symlink d /l\n1 symlink t /d/m\n1 mknod /f fifo\n"
                "1 mknod /s socket\n"
            ],
            turns: "1,1,1,1,1,",
            replies: [
                "1 P1 mkdir /d -> ok\n2 P1 symlink d /l -> ok\n3 P1 symlink t /d/m -> ok\n"
                "4 P1 mknod /f fifo -> ok\n5 P1 mknod /s socket -> ok\n"
            ],
            $($rest)*
        }
    };
    // It has a file open for reads, then for both, and both ends of a pipe.
    (after: a_file_twice_and_a_pipe, $($rest:tt)*) => {
        $crate::openings::opened! {
            operations: ["1 open /a RDONLY,CREAT\n1 open /a RDWR\n1 pipe\n"],
            turns: "1,1,1,",
            replies: [
                "1 P1 open /a RDONLY,CREAT -> 0\n2 P1 open /a RDWR -> 1\n"
                "3 P1 pipe -> 2 3\n"
            ],
            $($rest)*
        }
    };
}

pub(crate) use row_after;
