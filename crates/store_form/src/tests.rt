// Bytes written by hand, setups there and back, and what is refused.
use crate::{SetupError, put_setup, read_setup};
use entry_codec::{Fault, Wrong};
use heap::Heap;
use ids::{Bounds, Priority};
use std::alloc::AllocError;
use std::test::Fail;

// A setup of two processes, of priorities 7 and 0.
const BYTES: [u8; 22] = [
    1, 0, 0, 0, 0, 0, 16, 0, 64, 0, 0, 0, 0, 4, 0, 0, 2, 0, 0, 0, 7, 0,
];

// The bytes of a setup of these levels, where each is one, with the bounds where none are given.
fn bytes_of(heap: Heap, levels: &[u8]) -> Result<Vec<u8, Heap>, AllocError> {
    let mut priorities = Vec::new(heap);
    for level in levels {
        if let Some(priority) = Priority::new(*level) {
            priorities.push(priority)?;
        }
    }
    let mut out = Vec::new(heap);
    if !priorities.is_empty() && priorities.len() <= 4096 {
        put_setup(priorities.as_slice(), Bounds::given_by_default(), &mut out)?;
    }
    Ok(out)
}

// Why these bytes are no setup, with one of them changed.
fn refused(heap: Heap, place: usize, byte: u8) -> Option<SetupError> {
    let mut bytes = BYTES;
    if place < bytes.len() {
        bytes[place] = byte;
    }
    read_setup(heap, &bytes).err()
}

fn fault(wrong: Wrong, left: usize) -> Option<SetupError> {
    Some(SetupError::Fault(Fault { wrong, left }))
}

#[test]
fn a_setup_is_these_bytes(rt: HostRuntime) -> Result<(), Fail> {
    let heap = heap::open(rt.alloc())?;
    assert!(rt; bytes_of(heap, &[7, 0])?.as_slice() == BYTES.as_slice());
    let Ok(setup) = read_setup(heap, &BYTES) else {
        return Err(Fail::from(AllocError));
    };
    assert_eq!(rt; setup.bounds.file_bytes, 1_048_576);
    assert_eq!(rt; setup.bounds.descriptors, 64);
    assert_eq!(rt; setup.bounds.path_bytes, 1024);
    assert_eq!(rt; setup.priorities.len(), 2);
    assert_eq!(rt; setup.priorities[0].level(), 7);
    Ok(())
}

#[test]
fn bad_bytes_are_told_by_their_place(rt: HostRuntime) -> Result<(), Fail> {
    let heap = heap::open(rt.alloc())?;
    assert!(rt; refused(heap, 0, 2) == Some(SetupError::OtherForm(2)));
    assert!(rt; refused(heap, 7, 128) == fault(Wrong::Range, 14));
    assert!(rt; refused(heap, 16, 0) == fault(Wrong::Range, 2));
    assert!(rt; refused(heap, 16, 1) == fault(Wrong::Trailing, 1));
    assert!(rt; refused(heap, 16, 3) == fault(Wrong::Short, 0));
    assert!(rt; refused(heap, 17, 32) == fault(Wrong::Range, 2));
    assert!(rt; refused(heap, 20, 8) == fault(Wrong::Range, 1));
    for end in 0..BYTES.len() {
        assert!(rt; read_setup(heap, &BYTES[..end]).is_err());
    }
    Ok(())
}
