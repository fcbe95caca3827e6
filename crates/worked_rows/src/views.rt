// What a process sees, from above.
use crate::row::{do_script, kernel_of};
use heap::Heap;
use ids::{Name, Num, Pid};
use kernel::Kernel;
use look::Look;
use std::alloc::AllocError;
use std::test::Fail;

static TWO_ADD: &str = "priorities 0 0 0
1 mkdir /d
1 begin
2 begin
1 mkdir /d/a
2 mkdir /d/b
";

// The names of `/d` in what a process sees, each with a line feed.
fn seen_names(heap: Heap, kernel: &Kernel, pid: Pid) -> Result<Vec<u8, Heap>, Fail> {
    let view = kernel.view(pid);
    names_in(heap, &view, in_root(heap, &view, b"d")?)
}

// The names of a directory, each with a line feed.
fn names_in<L: Look>(heap: Heap, view: &L, dir: Num) -> Result<Vec<u8, Heap>, Fail> {
    let names = view.names(heap, dir)?;
    let told = lines_of(heap, names.as_slice());
    drop(names);
    Ok(told?)
}

fn lines_of(heap: Heap, names: &[Name]) -> Result<Vec<u8, Heap>, AllocError> {
    let mut told = Vec::new(heap);
    for name in names {
        told.extend_from_slice(name.as_slice())?;
        told.push(b'\n')?;
    }
    Ok(told)
}

// The number of what has this name in the root.
pub(crate) fn in_root<L: Look>(heap: Heap, view: &L, name: &[u8]) -> Result<Num, Fail> {
    let name = Name::copy(heap, name)?;
    let found = view.find(view.root(), &name);
    drop(name);
    let (num, _kind) = found.ok_or("nothing is there")?;
    Ok(num)
}

// Two transactions add to `/d`. What each process sees there then.
fn seen_by_each(kernel: &mut Kernel, heap: Heap) -> Result<[Vec<u8, Heap>; 3], Fail> {
    do_script(kernel, heap, TWO_ADD, "1,1,2,1,2")?;
    Ok([
        seen_names(heap, kernel, Pid(1))?,
        seen_names(heap, kernel, Pid(2))?,
        seen_names(heap, kernel, Pid(3))?,
    ])
}

fn seen(heap: Heap) -> Result<[Vec<u8, Heap>; 3], Fail> {
    let mut kernel: Kernel = kernel_of(heap, TWO_ADD, 100)?;
    let seen = seen_by_each(&mut kernel, heap);
    drop(kernel);
    seen
}

// Each sees its own name there, and nothing of them is committed.
#[test]
fn each_sees_its_own_name(rt: HostRuntime) -> Result<(), Fail> {
    let heap = heap::open(rt.alloc())?;
    for (names, wanted) in seen(heap)?.iter().zip(&["a\n", "b\n", ""]) {
        assert_eq!(rt; names.as_slice(), wanted.as_bytes());
    }
    Ok(())
}

static WRITES: &str = "priorities 0
1 open /a RDWR,CREAT
1 begin
1 lseek 0 2000 SET
1 write 0 x
1 write 0 y
1 lseek 0 5000 SET
1 write 0 z
1 ftruncate 0 9000
";

// The numbers of the blocks of `/a` into which process 1 has written.
fn blocks_of(heap: Heap, kernel: &Kernel) -> Result<Vec<u64, Heap>, Fail> {
    let file = in_root(heap, &kernel.view(Pid(1)), b"a")?;
    let shadow = kernel.shadow(Pid(1)).ok_or("no transaction")?;
    Ok(Vec::from_slice(heap, shadow.changed(file))?)
}

fn written_blocks(kernel: &mut Kernel, heap: Heap) -> Result<Vec<u64, Heap>, Fail> {
    do_script(kernel, heap, WRITES, "1,1,1,1,1,1,1,1")?;
    blocks_of(heap, kernel)
}

// A gap and a growth add none.
#[test]
fn blocks_of_writes_are_told(rt: HostRuntime) -> Result<(), Fail> {
    let heap = heap::open(rt.alloc())?;
    let mut kernel: Kernel = kernel_of(heap, WRITES, 100)?;
    let told = written_blocks(&mut kernel, heap);
    drop(kernel);
    let told = told?;
    assert_eq!(rt; told.as_slice(), [1u64, 4].as_slice());
    Ok(())
}
