// Each request for memory refused once, in calls on pipes, and in forks and exits.
use crate::refused::{Part, Refused, assert_right};
use kernel::Kernel;
use std::test::Fail;

static PIPES: [Refused; 9] = [
    // A pipe.
    Refused {
        before: Part {
            script: "priorities 0
1 mkdir /a
",
            schedule: "1",
        },
        step: Part {
            script: "priorities 0
1 pipe
",
            schedule: "1",
        },
        after: Part {
            script: "priorities 0
1 write 1 ab
1 read 0 9
1 fstat 1
",
            schedule: "1,1,1",
        },
        transcript: "1 P1 mkdir /a -> ok
2 P1 pipe -> 0 1
3 P1 write 1 ab -> 2
4 P1 read 0 9 -> 2 ab
5 P1 fstat 1 -> pipe size 0 links 0
",
        requests: 3,
    },
    // A pipe of a transaction.
    Refused {
        before: Part {
            script: "priorities 0
1 begin
",
            schedule: "1",
        },
        step: Part {
            script: "priorities 0
1 pipe
",
            schedule: "1",
        },
        after: Part {
            script: "priorities 0
1 write 1 ab
1 end
1 read 0 9
",
            schedule: "1,1,1",
        },
        transcript: "1 P1 begin -> begun
2 P1 pipe -> 0 1
3 P1 write 1 ab -> 2
4 P1 end -> committed
5 P1 read 0 9 -> 2 ab
",
        requests: 5,
    },
    // A write to a pipe.
    Refused {
        before: Part {
            script: "priorities 0
1 pipe
1 write 1 ab
",
            schedule: "1,1",
        },
        step: Part {
            script: "priorities 0
1 write 1 cd
",
            schedule: "1",
        },
        after: Part {
            script: "priorities 0
1 read 0 9
",
            schedule: "1",
        },
        transcript: "1 P1 pipe -> 0 1
2 P1 write 1 ab -> 2
3 P1 write 1 cd -> 2
4 P1 read 0 9 -> 4 abcd
",
        requests: 1,
    },
    // And by a transaction.
    Refused {
        before: Part {
            script: "priorities 0
1 pipe
1 fork
1 write 1 ab
1 begin
",
            schedule: "1,1,1,1",
        },
        step: Part {
            script: "priorities 0
1 write 1 cd
",
            schedule: "1",
        },
        after: Part {
            script: "priorities 0
2 read 0 2
1 end
2 read 0 9
",
            schedule: "2,1,2",
        },
        transcript: "1 P1 pipe -> 0 1
2 P1 fork -> child 2
3 P1 write 1 ab -> 2
4 P1 begin -> begun
5 P1 write 1 cd -> 2
6 P2 read 0 2 -> 2 ab
7 P1 end -> committed
8 P2 read 0 9 -> 2 cd
",
        requests: 9,
    },
    // A read from a pipe, which dooms another reader.
    Refused {
        before: Part {
            script: "priorities 0
1 pipe
1 fork
1 write 1 abc
1 begin
1 read 0 1
",
            schedule: "1,1,1,1,1",
        },
        step: Part {
            script: "priorities 0
2 read 0 2
",
            schedule: "2",
        },
        after: Part {
            script: "priorities 0
1 end
1 read 0 9
",
            schedule: "1,1",
        },
        transcript: "1 P1 pipe -> 0 1
2 P1 fork -> child 2
3 P1 write 1 abc -> 3
4 P1 begin -> begun
5 P1 read 0 1 -> 1 a
6 P2 read 0 2 -> 2 ab dooms P1
7 P1 end -> aborted front write by P2
8 P1 read 0 9 -> 1 c
",
        requests: 8,
    },
    // And by a transaction, which has written itself.
    Refused {
        before: Part {
            script: "priorities 0
1 pipe
1 write 1 ab
1 begin
1 write 1 cd
",
            schedule: "1,1,1,1",
        },
        step: Part {
            script: "priorities 0
1 read 0 3
",
            schedule: "1",
        },
        after: Part {
            script: "priorities 0
1 end
1 read 0 9
",
            schedule: "1,1",
        },
        transcript: "1 P1 pipe -> 0 1
2 P1 write 1 ab -> 2
3 P1 begin -> begun
4 P1 write 1 cd -> 2
5 P1 read 0 3 -> 3 abc
6 P1 end -> committed
7 P1 read 0 9 -> 1 d
",
        requests: 3,
    },
    // A fork, which dooms a reader.
    Refused {
        before: Part {
            script: "priorities 0
1 open /a RDWR,CREAT
1 pipe
1 fork
2 begin
2 read 1 1
",
            schedule: "1,1,1,2,2",
        },
        step: Part {
            script: "priorities 0
1 fork
",
            schedule: "1",
        },
        after: Part {
            script: "priorities 0
2 end
3 write 2 ab
2 read 1 9
3 fork
",
            schedule: "2,3,2,3",
        },
        transcript: "1 P1 open /a RDWR,CREAT -> 0
2 P1 pipe -> 1 2
3 P1 fork -> child 2
4 P2 begin -> begun
5 P2 read 1 1 -> EAGAIN
6 P1 fork -> child 3 dooms P2
7 P2 end -> aborted ends read by P1
8 P3 write 2 ab -> 2
9 P2 read 1 9 -> 2 ab
10 P3 fork -> child 4
",
        requests: 11,
    },
    // An exit, which closes the last end for writing.
    Refused {
        before: Part {
            script: "priorities 0
1 open /a RDWR,CREAT
1 pipe
1 fork
1 close 2
1 unlink /a
1 close 0
",
            schedule: "1,1,1,1,1,1",
        },
        step: Part {
            script: "priorities 0
2 exit
",
            schedule: "2",
        },
        after: Part {
            script: "priorities 0
1 read 1 9
2 stat /
1 list /
",
            schedule: "1,2,1",
        },
        transcript: "1 P1 open /a RDWR,CREAT -> 0
2 P1 pipe -> 1 2
3 P1 fork -> child 2
4 P1 close 2 -> ok
5 P1 unlink /a -> ok
6 P1 close 0 -> ok
7 P2 exit -> ok
8 P1 read 1 9 -> 0 \\e
9 P2 stat / -> NoProcess
10 P1 list / -> names 0
",
        requests: 3,
    },
    // An end of a pipe that a transaction shares and closes.
    Refused {
        before: Part {
            script: "priorities 0
1 pipe
1 begin
1 close 1
",
            schedule: "1,1,1",
        },
        step: Part {
            script: "priorities 0
1 dup2 0 5
",
            schedule: "1",
        },
        after: Part {
            script: "priorities 0
1 close 0
1 end
1 read 5 9
",
            schedule: "1,1,1",
        },
        transcript: "1 P1 pipe -> 0 1
2 P1 begin -> begun
3 P1 close 1 -> ok
4 P1 dup2 0 5 -> 5
5 P1 close 0 -> ok
6 P1 end -> committed
7 P1 read 5 9 -> 0 \\e
",
        requests: 2,
    },
];

#[test]
fn refused_calls_on_pipes_change_nothing(rt: HostRuntime) -> Result<(), Fail> {
    assert_right::<Kernel>(&rt, heap::open(rt.alloc())?, &PIPES)
}
