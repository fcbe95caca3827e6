// Each request for memory refused once, in calls on names of files.
use crate::refused::{Part, Refused, assert_right};
use kernel::Kernel;
use std::test::Fail;

static NAMES: [Refused; 8] = [
    // A plain call names a file once more, in another directory.
    Refused {
        before: Part {
            script: "priorities 0 0
1 open /a WRONLY,CREAT
1 mkdir /d
",
            schedule: "1,1",
        },
        step: Part {
            script: "priorities 0 0
1 link /a /d/b
",
            schedule: "1",
        },
        after: Part {
            script: "priorities 0 0
1 fstat 0
1 list /d
",
            schedule: "1,1",
        },
        transcript: "1 P1 open /a WRONLY,CREAT -> 0
2 P1 mkdir /d -> ok
3 P1 link /a /d/b -> ok
4 P1 fstat 0 -> file size 0 links 2
5 P1 list /d -> names 1 b
",
        requests: 5,
    },
    // So does a transaction.
    Refused {
        before: Part {
            script: "priorities 0 0
1 open /a WRONLY,CREAT
1 mkdir /d
1 begin
",
            schedule: "1,1,1",
        },
        step: Part {
            script: "priorities 0 0
1 link /a /d/b
",
            schedule: "1",
        },
        after: Part {
            script: "priorities 0 0
1 list /d
1 end
2 stat /d/b
",
            schedule: "1,1,2",
        },
        transcript: "1 P1 open /a WRONLY,CREAT -> 0
2 P1 mkdir /d -> ok
3 P1 begin -> begun
4 P1 link /a /d/b -> ok
5 P1 list /d -> names 1 b
6 P1 end -> committed
7 P2 stat /d/b -> file size 0 links 2
",
        requests: 21,
    },
    // A plain call takes a file's last name.
    Refused {
        before: Part {
            script: "priorities 0 0
1 open /a WRONLY,CREAT
",
            schedule: "1",
        },
        step: Part {
            script: "priorities 0 0
1 unlink /a
",
            schedule: "1",
        },
        after: Part {
            script: "priorities 0 0
1 fstat 0
2 list /
",
            schedule: "1,2",
        },
        transcript: "1 P1 open /a WRONLY,CREAT -> 0
2 P1 unlink /a -> ok
3 P1 fstat 0 -> file size 0 links 0
4 P2 list / -> names 0
",
        requests: 1,
    },
    // So does a transaction, and gives it up.
    Refused {
        before: Part {
            script: "priorities 0 0
1 open /a WRONLY,CREAT
1 begin
",
            schedule: "1,1",
        },
        step: Part {
            script: "priorities 0 0
1 unlink /a
",
            schedule: "1",
        },
        after: Part {
            script: "priorities 0 0
1 fstat 0
1 abort
1 fstat 0
",
            schedule: "1,1,1",
        },
        transcript: "1 P1 open /a WRONLY,CREAT -> 0
2 P1 begin -> begun
3 P1 unlink /a -> ok
4 P1 fstat 0 -> file size 0 links 0
5 P1 abort -> given up
6 P1 fstat 0 -> file size 0 links 1
",
        requests: 16,
    },
    // A plain call moves a name over another, in another directory.
    Refused {
        before: Part {
            script: "priorities 0 0
1 open /a WRONLY,CREAT
1 mkdir /d
1 open /d/b WRONLY,CREAT
",
            schedule: "1,1,1",
        },
        step: Part {
            script: "priorities 0 0
1 rename /a /d/b
",
            schedule: "1",
        },
        after: Part {
            script: "priorities 0 0
1 fstat 1
1 fstat 0
2 list /
2 list /d
",
            schedule: "1,1,2,2",
        },
        transcript: "1 P1 open /a WRONLY,CREAT -> 0
2 P1 mkdir /d -> ok
3 P1 open /d/b WRONLY,CREAT -> 1
4 P1 rename /a /d/b -> ok
5 P1 fstat 1 -> file size 0 links 0
6 P1 fstat 0 -> file size 0 links 1
7 P2 list / -> names 1 d
8 P2 list /d -> names 1 b
",
        requests: 1,
    },
    // So does a transaction.
    Refused {
        before: Part {
            script: "priorities 0 0
1 open /a WRONLY,CREAT
1 mkdir /d
1 open /d/b WRONLY,CREAT
1 begin
",
            schedule: "1,1,1,1",
        },
        step: Part {
            script: "priorities 0 0
1 rename /a /d/b
",
            schedule: "1",
        },
        after: Part {
            script: "priorities 0 0
1 fstat 1
1 list /
2 list /
1 end
2 list /d
",
            schedule: "1,1,2,1,2",
        },
        transcript: "1 P1 open /a WRONLY,CREAT -> 0
2 P1 mkdir /d -> ok
3 P1 open /d/b WRONLY,CREAT -> 1
4 P1 begin -> begun
5 P1 rename /a /d/b -> ok
6 P1 fstat 1 -> file size 0 links 0
7 P1 list / -> names 1 d
8 P2 list / -> names 2 a d
9 P1 end -> committed
10 P2 list /d -> names 1 b
",
        requests: 22,
    },
    // A transaction moves a name that it has given itself.
    Refused {
        before: Part {
            script: "priorities 0 0
1 begin
1 mkdir /d
1 open /a WRONLY,CREAT
",
            schedule: "1,1,1",
        },
        step: Part {
            script: "priorities 0 0
1 rename /a /d/b
",
            schedule: "1",
        },
        after: Part {
            script: "priorities 0 0
1 list /
1 end
2 list /
2 stat /d/b
",
            schedule: "1,1,2,2",
        },
        transcript: "1 P1 begin -> begun
2 P1 mkdir /d -> ok
3 P1 open /a WRONLY,CREAT -> 0
4 P1 rename /a /d/b -> ok
5 P1 list / -> names 1 d
6 P1 end -> committed
7 P2 list / -> names 1 d
8 P2 stat /d/b -> file size 0 links 1
",
        requests: 12,
    },
    // A transaction moves a directory over another, which it has emptied.
    Refused {
        before: Part {
            script: "priorities 0 0
1 mkdir /d
1 mkdir /d/e
1 mkdir /d/e/f
1 mkdir /g
1 begin
1 rmdir /d/e/f
",
            schedule: "1,1,1,1,1,1",
        },
        step: Part {
            script: "priorities 0 0
1 rename /g /d/e
",
            schedule: "1",
        },
        after: Part {
            script: "priorities 0 0
1 list /
1 end
2 list /d
2 list /d/e
",
            schedule: "1,1,2,2",
        },
        transcript: "1 P1 mkdir /d -> ok
2 P1 mkdir /d/e -> ok
3 P1 mkdir /d/e/f -> ok
4 P1 mkdir /g -> ok
5 P1 begin -> begun
6 P1 rmdir /d/e/f -> ok
7 P1 rename /g /d/e -> ok
8 P1 list / -> names 1 d
9 P1 end -> committed
10 P2 list /d -> names 1 e
11 P2 list /d/e -> names 0
",
        requests: 12,
    },
];

#[test]
fn refused_calls_on_names_change_nothing(rt: HostRuntime) -> Result<(), Fail> {
    assert_right::<Kernel>(&rt, heap::open(rt.alloc())?, &NAMES)
}
