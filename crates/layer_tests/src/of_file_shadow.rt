// Writes, cuts and growths against a plain list of bytes, merges of shadows, refused memory.
ghost use Rattle.std.specs.Prelude.{◌≤◌};

use crate::refused::is_refused;
use file_shadow::FileShadow;
use heap::Heap;
use objects::FileData;
use std::process::Abort;

fn filled(rt: &impl Abort, heap: Heap, byte: u8) -> FileData {
    let mut file = FileData::new(heap);
    file.write_at(0, &[byte; 3000]).expect(rt, "memory");
    file
}

// Whether a byte is written, whether its block is then the one that is changed, how many are, and
// the length.
type Written = (bool, bool, usize, usize);

fn written(heap: Heap, shadow: &mut FileShadow, file: &FileData) -> Written {
    let done = shadow.write(9000, b"z").is_ok();
    let changed = shadow.changed();
    (
        done,
        changed == [8].as_slice(),
        changed.len(),
        shadow.len(file),
    )
}

// The same of a new shadow where this request for memory is refused, and once more.
fn written_twice(heap: Heap, file: &FileData, number: u64) -> (Written, Written) {
    let mut shadow = FileShadow::new(heap);
    heap.refuse(number);
    let first = written(heap, &mut shadow, file);
    let second = written(heap, &mut shadow, file);
    drop(shadow);
    (first, second)
}

#[test]
fn a_refused_write_changes_nothing(rt: HostRuntime) {
    let heap = heap::open(rt.alloc()).expect(&rt, "memory");
    let file = filled(&rt, heap, 9);
    // Room for the numbers, for where the blocks lie, and for their bytes; and in what a commit makes
    // of the file, for the groups of pieces, the pieces and their bytes.
    for number in 1..7 {
        let (first, second) = written_twice(heap, &file, number);
        assert!(rt; first == (false, false, 0, 3000), "request {number}");
        assert!(rt; second == (true, true, 1, 9001), "request {number}");
    }
    drop(file);
}

#[test]
fn a_cut_takes_no_memory_and_a_refused_read_changes_nothing(rt: HostRuntime) {
    let heap = heap::open(rt.alloc()).expect(&rt, "memory");
    let file = filled(&rt, heap, 9);
    let mut shadow = FileShadow::new(heap);
    heap.refuse(1);
    shadow.cut(20_000);
    let before = shadow.len(&file);
    let refused = is_refused(shadow.read(heap, &file, 0, 3));
    let after = shadow.len(&file);
    drop(shadow);
    drop(file);
    assert!(rt; refused);
    assert_eq!(rt; [before, after], [20_000; 2]);
}

#[test]
fn the_last_byte_of_the_largest_file_is_committed(rt: HostRuntime) {
    let heap = heap::open(rt.alloc()).expect(&rt, "memory");
    let mut file = FileData::new(heap);
    let mut shadow = FileShadow::new(heap);
    shadow.write(2_147_483_646, b"z").expect(&rt, "memory");
    let seen = shadow
        .read(heap, &file, 2_147_483_643, 1_048_576)
        .expect(&rt, "memory");
    heap.refuse(1);
    shadow.commit_into(&mut file);
    let told = [heap.made(), file.len() as u64];
    heap.refuse(0);
    let left = file
        .read_at(heap, 2_147_483_643, 1_048_576)
        .expect(&rt, "memory");
    drop(file);
    assert_eq!(rt; seen.as_slice(), b"\0\0\0z".as_slice());
    assert_eq!(rt; left.as_slice(), b"\0\0\0z".as_slice());
    assert_eq!(rt; told, [0, 2_147_483_647]);
}
