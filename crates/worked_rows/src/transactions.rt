// Rows of transactions, and of who wins.
use crate::row::Row;

pub(crate) static TRANSACTIONS: [Row; 13] = [
    // What a transaction makes is seen after its end.
    Row {
        script: "priorities 0 0
1 begin
1 mkdir /a
2 stat /a
1 end
2 stat /a
",
        schedule: "1,1,2,1,2",
        limit: 100,
        transcript: "1 P1 begin -> begun
2 P1 mkdir /a -> ok
3 P2 stat /a -> ENOENT
4 P1 end -> committed
5 P2 stat /a -> dir size 0 links 1
",
    },
    // No operation has no reply.
    Row {
        script: "priorities 0 0
",
        schedule: "",
        limit: 4,
        transcript: "",
    },
    // Who has looked for a name is doomed by who makes it.
    Row {
        script: "priorities 0 0
1 begin
1 stat /a
2 mkdir /a
1 end
",
        schedule: "1,1,2,1",
        limit: 100,
        transcript: "1 P1 begin -> begun
2 P1 stat /a -> ENOENT
3 P2 mkdir /a -> ok dooms P1
4 P1 end -> aborted entry a read by P2
",
    },
    // The later transaction loses.
    Row {
        script: "priorities 0 0
1 begin
1 mkdir /a
2 begin
2 stat /a
1 end
",
        schedule: "1,1,2,2,1",
        limit: 100,
        transcript: "1 P1 begin -> begun
2 P1 mkdir /a -> ok
3 P2 begin -> begun
4 P2 stat /a -> aborted entry a read by P1
5 P1 end -> committed
",
    },
    // The end of a transaction has its place in a full history.
    Row {
        script: "priorities 0 0
1 begin
1 mkdir /a
1 mkdir /b
1 mkdir /c
1 end
1 stat /
",
        schedule: "1,1,1,1,1,1",
        limit: 4,
        transcript: "1 P1 begin -> begun
2 P1 mkdir /a -> ok
3 P1 mkdir /b -> ok
4 P1 end -> committed
",
    },
    // Begin in a transaction; what is given up is gone; no transaction to end, and no such process.
    Row {
        script: "priorities 0 0
1 begin
1 begin
1 mkdir /a
1 abort
1 stat /a
1 end
3 end
",
        schedule: "1,1,1,1,1,1,3",
        limit: 100,
        transcript: "1 P1 begin -> begun
2 P1 begin -> InTransaction
3 P1 mkdir /a -> ok
4 P1 abort -> given up
5 P1 stat /a -> ENOENT
6 P1 end -> NotInTransaction
7 P3 end -> NoProcess
",
    },
    // A plain call is put off by a higher priority.
    Row {
        script: "priorities 1 0
1 begin
1 stat /a
2 mkdir /a
1 end
2 mkdir /a
",
        schedule: "1,1,2,1,2",
        limit: 100,
        transcript: "1 P1 begin -> begun
2 P1 stat /a -> ENOENT
3 P2 mkdir /a -> busy entry a write by P1
4 P1 end -> committed
5 P2 mkdir /a -> ok
",
    },
    // A higher priority wins against an earlier transaction.
    Row {
        script: "priorities 0 1
1 begin
2 begin
1 mkdir /a
2 stat /a
1 end
2 end
",
        schedule: "1,2,1,2,1,2",
        limit: 100,
        transcript: "1 P1 begin -> begun
2 P2 begin -> begun
3 P1 mkdir /a -> ok
4 P2 stat /a -> ENOENT dooms P1
5 P1 end -> aborted entry a write by P2
6 P2 end -> committed
",
    },
    // Who loses against one dooms nobody.
    Row {
        script: "priorities 0 2 1
1 begin
1 stat /a
2 begin
2 stat /a
3 mkdir /a
1 end
2 end
",
        schedule: "1,1,2,2,3,1,2",
        limit: 100,
        transcript: "1 P1 begin -> begun
2 P1 stat /a -> ENOENT
3 P2 begin -> begun
4 P2 stat /a -> ENOENT
5 P3 mkdir /a -> busy entry a write by P2
6 P1 end -> committed
7 P2 end -> committed
",
    },
    // A restart forgets the calls.
    Row {
        script: "priorities 0 0
1 begin RESTART
1 mkdir /c
1 stat /a
2 mkdir /a
1 stat /a
1 stat /a
1 end
1 stat /c
",
        schedule: "1,1,1,2,1,1,1,1",
        limit: 100,
        transcript: "1 P1 begin RESTART -> begun
2 P1 mkdir /c -> ok
3 P1 stat /a -> ENOENT
4 P2 mkdir /a -> ok dooms P1
5 P1 stat /a -> aborted entry a read by P2 restarted
6 P1 stat /a -> dir size 0 links 1
7 P1 end -> committed
8 P1 stat /c -> ENOENT
",
    },
    // An abort that leaves is not begun anew.
    Row {
        script: "priorities 0 0
1 begin RESTART
1 stat /b
2 mkdir /b
1 abort no_restart
1 end
",
        schedule: "1,1,2,1,1",
        limit: 100,
        transcript: "1 P1 begin RESTART -> begun
2 P1 stat /b -> ENOENT
3 P2 mkdir /b -> ok dooms P1
4 P1 abort no_restart -> aborted entry b read by P2
5 P1 end -> NotInTransaction
",
    },
    // A restart needs a free place.
    Row {
        script: "priorities 0 0
1 begin RESTART
1 stat /a
2 mkdir /a
1 end
",
        schedule: "1,1,2,1",
        limit: 4,
        transcript: "1 P1 begin RESTART -> begun
2 P1 stat /a -> ENOENT
3 P2 mkdir /a -> ok dooms P1
4 P1 end -> aborted entry a read by P2
",
    },
    Row {
        script: "priorities 0 0
1 begin RESTART
1 stat /a
2 mkdir /a
1 end
1 end
",
        schedule: "1,1,2,1,1",
        limit: 5,
        transcript: "1 P1 begin RESTART -> begun
2 P1 stat /a -> ENOENT
3 P2 mkdir /a -> ok dooms P1
4 P1 end -> aborted entry a read by P2 restarted
5 P1 end -> committed
",
    },
];
