// What nothing leads to any more goes, and gives its number back.
use crate::processes::ENDED;
use crate::row::{Row, do_script, kernel_of, number_at};
use heap::Heap;
use kernel::Kernel;
use machine::Machine;
use std::test::Fail;

// At the end of each nothing is left but the root, and no process is in a transaction.
pub(crate) static FREED: [Row; 14] = [
    // A transaction closes the last descriptor of a file whose name goes meanwhile.
    Row {
        script: "priorities 0 0
1 open /a RDWR,CREAT
1 begin
1 close 0
2 unlink /a
1 end
1 fstat 0
",
        schedule: "1,1,1,2,1,1",
        limit: 100,
        transcript: "1 P1 open /a RDWR,CREAT -> 0
2 P1 begin -> begun
3 P1 close 0 -> ok
4 P2 unlink /a -> ok
5 P1 end -> committed
6 P1 fstat 0 -> EBADF
",
    },
    // One transaction closes the descriptor, and another takes the name: the close ends first.
    Row {
        script: "priorities 0 0
1 open /a RDWR,CREAT
1 begin
2 begin
1 close 0
2 unlink /a
1 end
2 stat /a
2 end
",
        schedule: "1,1,2,1,2,1,2,2",
        limit: 100,
        transcript: "1 P1 open /a RDWR,CREAT -> 0
2 P1 begin -> begun
3 P2 begin -> begun
4 P1 close 0 -> ok
5 P2 unlink /a -> ok
6 P1 end -> committed
7 P2 stat /a -> ENOENT
8 P2 end -> committed
",
    },
    // And the other way round.
    Row {
        script: "priorities 0 0
1 open /a RDWR,CREAT
1 begin
2 begin
1 close 0
2 unlink /a
2 end
1 fstat 0
1 end
",
        schedule: "1,1,2,1,2,2,1,1",
        limit: 100,
        transcript: "1 P1 open /a RDWR,CREAT -> 0
2 P1 begin -> begun
3 P2 begin -> begun
4 P1 close 0 -> ok
5 P2 unlink /a -> ok
6 P2 end -> committed
7 P1 fstat 0 -> EBADF
8 P1 end -> committed
",
    },
    // A transaction takes the name of a file into which another writes: a close ends it.
    Row {
        script: "priorities 0 0
1 open /a RDWR,CREAT
1 begin
2 begin
1 write 0 h
2 unlink /a
2 end
1 write 0 i
1 end
1 write 0 !
1 lseek 0 0 SET
1 read 0 9
1 fstat 0
2 list /
1 close 0
",
        schedule: "1,1,2,1,2,2,1,1,1,1,1,1,2,1",
        limit: 100,
        transcript: "1 P1 open /a RDWR,CREAT -> 0
2 P1 begin -> begun
3 P2 begin -> begun
4 P1 write 0 h -> 1
5 P2 unlink /a -> ok
6 P2 end -> committed
7 P1 write 0 i -> 1
8 P1 end -> committed
9 P1 write 0 ! -> 1
10 P1 lseek 0 0 SET -> 0
11 P1 read 0 9 -> 3 hi!
12 P1 fstat 0 -> file size 3 links 0
13 P2 list / -> names 0
14 P1 close 0 -> ok
",
    },
    // The close is a transaction's.
    Row {
        script: "priorities 0 0
1 open /a RDWR,CREAT
1 write 0 hi
2 begin
2 unlink /a
2 end
1 begin
1 close 0
1 end
1 close 0
",
        schedule: "1,1,2,2,2,1,1,1,1",
        limit: 100,
        transcript: "1 P1 open /a RDWR,CREAT -> 0
2 P1 write 0 hi -> 2
3 P2 begin -> begun
4 P2 unlink /a -> ok
5 P2 end -> committed
6 P1 begin -> begun
7 P1 close 0 -> ok
8 P1 end -> committed
9 P1 close 0 -> EBADF
",
    },
    // Two have it open: the first close keeps it.
    Row {
        script: "priorities 0 0
1 open /a RDWR,CREAT
2 open /a RDWR
1 unlink /a
1 write 0 hi
1 close 0
2 fstat 0
2 read 0 5
2 close 0
",
        schedule: "1,2,1,1,1,2,2,2",
        limit: 100,
        transcript: "1 P1 open /a RDWR,CREAT -> 0
2 P2 open /a RDWR -> 0
3 P1 unlink /a -> ok
4 P1 write 0 hi -> 2
5 P1 close 0 -> ok
6 P2 fstat 0 -> file size 2 links 0
7 P2 read 0 5 -> 2 hi
8 P2 close 0 -> ok
",
    },
    // It has two names, and each goes in a transaction of its own.
    Row {
        script: "priorities 0 0
1 open /a RDWR,CREAT
1 link /a /b
1 close 0
1 begin
1 unlink /a
1 end
2 stat /b
2 begin
2 unlink /b
2 end
",
        schedule: "1,1,1,1,1,1,2,2,2,2",
        limit: 100,
        transcript: "1 P1 open /a RDWR,CREAT -> 0
2 P1 link /a /b -> ok
3 P1 close 0 -> ok
4 P1 begin -> begun
5 P1 unlink /a -> ok
6 P1 end -> committed
7 P2 stat /b -> file size 0 links 1
8 P2 begin -> begun
9 P2 unlink /b -> ok
10 P2 end -> committed
",
    },
    // A transaction makes a file, names it twice, moves a name, and takes all away.
    Row {
        script: "priorities 0
1 begin
1 open /a RDWR,CREAT
1 link /a /b
1 unlink /a
1 rename /b /c
1 stat /c
1 unlink /c
1 write 0 x
1 fstat 0
1 close 0
1 end
",
        schedule: "1,1,1,1,1,1,1,1,1,1,1",
        limit: 100,
        transcript: "1 P1 begin -> begun
2 P1 open /a RDWR,CREAT -> 0
3 P1 link /a /b -> ok
4 P1 unlink /a -> ok
5 P1 rename /b /c -> ok
6 P1 stat /c -> file size 0 links 1
7 P1 unlink /c -> ok
8 P1 write 0 x -> 1
9 P1 fstat 0 -> file size 1 links 0
10 P1 close 0 -> ok
11 P1 end -> committed
",
    },
    // It is open at the end: it lasts until it is closed.
    Row {
        script: "priorities 0
1 begin
1 open /a RDWR,CREAT
1 write 0 x
1 unlink /a
1 end
1 lseek 0 0 SET
1 read 0 9
1 fstat 0
1 close 0
",
        schedule: "1,1,1,1,1,1,1,1,1",
        limit: 100,
        transcript: "1 P1 begin -> begun
2 P1 open /a RDWR,CREAT -> 0
3 P1 write 0 x -> 1
4 P1 unlink /a -> ok
5 P1 end -> committed
6 P1 lseek 0 0 SET -> 0
7 P1 read 0 9 -> 1 x
8 P1 fstat 0 -> file size 1 links 0
9 P1 close 0 -> ok
",
    },
    // All of it is given up.
    Row {
        script: "priorities 0
1 begin
1 open /a RDWR,CREAT
1 mkdir /d
1 link /a /d/b
1 rename /d /e
1 unlink /a
1 rename /e/b /a
1 list /e
1 abort
1 list /
",
        schedule: "1,1,1,1,1,1,1,1,1,1",
        limit: 100,
        transcript: "1 P1 begin -> begun
2 P1 open /a RDWR,CREAT -> 0
3 P1 mkdir /d -> ok
4 P1 link /a /d/b -> ok
5 P1 rename /d /e -> ok
6 P1 unlink /a -> ok
7 P1 rename /e/b /a -> ok
8 P1 list /e -> names 0
9 P1 abort -> given up
10 P1 list / -> names 0
",
    },
    // A transaction has opened a file whose name a plain call takes.
    Row {
        script: "priorities 0 0
1 open /a RDWR,CREAT
1 close 0
1 begin
1 open /a RDWR
1 write 0 x
2 unlink /a
1 end
1 fstat 0
",
        schedule: "1,1,1,1,1,2,1,1",
        limit: 100,
        transcript: "1 P1 open /a RDWR,CREAT -> 0
2 P1 close 0 -> ok
3 P1 begin -> begun
4 P1 open /a RDWR -> 0
5 P1 write 0 x -> 1
6 P2 unlink /a -> ok dooms P1
7 P1 end -> aborted entry a read by P2
8 P1 fstat 0 -> EBADF
",
    },
    // A file that is renamed over goes with its last descriptor, as one that is unlinked.
    Row {
        script: "priorities 0 0
1 open /a RDWR,CREAT
2 open /b RDWR,CREAT
1 begin
1 rename /a /b
1 close 0
1 unlink /b
1 end
2 fstat 0
2 list /
2 close 0
",
        schedule: "1,2,1,1,1,1,1,2,2,2",
        limit: 100,
        transcript: "1 P1 open /a RDWR,CREAT -> 0
2 P2 open /b RDWR,CREAT -> 0
3 P1 begin -> begun
4 P1 rename /a /b -> ok
5 P1 close 0 -> ok
6 P1 unlink /b -> ok
7 P1 end -> committed
8 P2 fstat 0 -> file size 0 links 0
9 P2 list / -> names 0
10 P2 close 0 -> ok
",
    },
    // So does a file that a plain call renames over.
    Row {
        script: "priorities 0 0
1 open /a RDWR,CREAT
2 open /b RDWR,CREAT
1 rename /a /b
1 close 0
2 close 0
1 unlink /b
",
        schedule: "1,2,1,1,2,1",
        limit: 100,
        transcript: "1 P1 open /a RDWR,CREAT -> 0
2 P2 open /b RDWR,CREAT -> 0
3 P1 rename /a /b -> ok
4 P1 close 0 -> ok
5 P2 close 0 -> ok
6 P1 unlink /b -> ok
",
    },
    // Directories that are renamed over go, by a plain call and by a transaction.
    Row {
        script: "priorities 0
1 mkdir /a
1 mkdir /b
1 mkdir /c
1 rename /a /b
1 begin
1 rename /b /c
1 end
1 list /
1 rmdir /c
",
        schedule: "1,1,1,1,1,1,1,1,1",
        limit: 100,
        transcript: "1 P1 mkdir /a -> ok
2 P1 mkdir /b -> ok
3 P1 mkdir /c -> ok
4 P1 rename /a /b -> ok
5 P1 begin -> begun
6 P1 rename /b /c -> ok
7 P1 end -> committed
8 P1 list / -> names 1 c
9 P1 rmdir /c -> ok
",
    },
];

static EIGHT: &str = "priorities 0
1 mkdir /1
1 mkdir /2
1 mkdir /3
1 mkdir /4
1 mkdir /5
1 mkdir /6
1 mkdir /7
1 mkdir /8
";

static PATHS: [&str; 8] = ["/1", "/2", "/3", "/4", "/5", "/6", "/7", "/8"];

// The largest number that one of eight new directories gets.
fn largest_of_eight<K: Machine>(heap: Heap, kernel: &mut K) -> Result<usize, Fail> {
    do_script(kernel, heap, EIGHT, "1,1,1,1,1,1,1,1")?;
    let mut largest = 0usize;
    for path in &PATHS {
        largest = largest.max(number_at(heap, kernel, path)?);
    }
    Ok(largest)
}

// The same after the steps of a row.
fn largest_after<K: Machine>(heap: Heap, kernel: &mut K, row: &Row) -> Result<usize, Fail> {
    do_script(kernel, heap, row.script, row.schedule)?;
    largest_of_eight(heap, kernel)
}

fn largest_in<K: Machine>(heap: Heap, row: &Row) -> Result<usize, Fail> {
    let mut kernel: K = kernel_of(heap, row.script, row.limit)?;
    largest_after(heap, &mut kernel, row)
}

// Were a number of an inode or a description kept, eight more would not end at 8.
fn root_alone_is_left<K: Machine>(heap: Heap, rows: &[Row]) -> Result<bool, Fail> {
    for row in rows {
        if largest_in::<K>(heap, row)? != 8 {
            return Ok(false);
        }
    }
    Ok(true)
}

#[test]
fn the_root_alone_is_left(rt: HostRuntime) -> Result<(), Fail> {
    let heap = heap::open(rt.alloc())?;
    assert!(rt; root_alone_is_left::<Kernel>(heap, &FREED)?);
    assert!(rt; root_alone_is_left::<Kernel>(heap, &ENDED)?);
    Ok(())
}

// A file that is open keeps two numbers: its own, and that of its description.
static OPEN: &str = "priorities 0
1 open /a RDWR,CREAT
1 unlink /a
";

fn largest_with_one_open<K: Machine>(heap: Heap) -> Result<usize, Fail> {
    let mut kernel: K = kernel_of(heap, OPEN, 100)?;
    do_script(&mut kernel, heap, OPEN, "1,1")?;
    largest_of_eight(heap, &mut kernel)
}

#[test]
fn an_open_file_keeps_its_numbers(rt: HostRuntime) -> Result<(), Fail> {
    assert_eq!(rt;
        largest_with_one_open::<Kernel>(heap::open(rt.alloc())?)?,
        10
    );
    Ok(())
}

// A pipe keeps three: its own, and those of its two descriptions.
static PIPED: &str = "priorities 0
1 pipe
";

fn largest_with_one_pipe<K: Machine>(heap: Heap) -> Result<usize, Fail> {
    let mut kernel: K = kernel_of(heap, PIPED, 100)?;
    do_script(&mut kernel, heap, PIPED, "1")?;
    largest_of_eight(heap, &mut kernel)
}

#[test]
fn a_pipe_keeps_three_numbers(rt: HostRuntime) -> Result<(), Fail> {
    assert_eq!(rt;
        largest_with_one_pipe::<Kernel>(heap::open(rt.alloc())?)?,
        11
    );
    Ok(())
}
