// Each device once, and each function over devices that fail in every place.
use crate::halting::halting;
use device::{Counted, Failing, Portions, ReadFault, Trickling, read_all, write_all};
use heap::Heap;
use std::alloc::Global;
use std::collections::VecDeque;
use std::io::{Read, Write};
use std::test::Fail;

const DIGITS: &[u8; 10] = b"0123456789";

// Whether a sink that takes so many bytes has just the first of ten, and has failed where it could
// not take all.
fn has_beginning(heap: Heap, room: usize) -> bool {
    let mut sink = halting(heap, room);
    let written = write_all(&mut sink, DIGITS).is_ok();
    written == (room >= 10)
        && sink.failures == u64::from(room < 10)
        && sink.bytes.as_slice() == &DIGITS[..room.min(10)]
}

// Whether ten bytes were written to a trickling sink, whether it has them, and how often it has
// failed, where this request of memory is refused.
fn trickled(heap: Heap, refused: u64) -> (bool, bool, u64) {
    let mut sink = Trickling {
        bytes: Vec::new(heap),
        failures: 0,
    };
    heap.refuse(refused);
    let written = write_all(&mut &mut sink, DIGITS).is_ok();
    let holds = sink.bytes.as_slice() == DIGITS.as_slice();
    (written, holds, sink.failures)
}

#[test]
fn sinks(rt: HostRuntime) -> Result<(), Fail> {
    let heap = heap::open(rt.alloc())?;
    for room in 0..11usize {
        assert!(rt; has_beginning(heap, room), "{room}");
    }
    assert_eq!(rt; trickled(heap, 0), (true, true, 0));
    assert_eq!(rt; trickled(heap, 1), (false, false, 1));
    Ok(())
}

// Whether these are the bytes that are read of ten by fours, and those are left.
fn is_read(heap: Heap, most: usize, read: &[u8], left: &[u8]) -> bool {
    let mut source = Portions {
        bytes: DIGITS,
        most: 4,
    };
    let bytes = read_all(heap, &mut source, most);
    source.bytes == left && bytes.is_ok_and(|bytes| bytes.as_slice() == read)
}

// Why ten bytes by threes are not read from a source that fails after so many reads, and how often
// it has failed.
fn fault_of(heap: Heap, left: usize, refused: u64) -> (Option<ReadFault>, u64) {
    let mut source = Failing {
        bytes: DIGITS,
        left,
        failures: 0,
    };
    heap.refuse(refused);
    let fault = read_all(heap, &mut source, 99).err();
    (fault, source.failures)
}

#[test]
fn sources(rt: HostRuntime) -> Result<(), Fail> {
    let heap = heap::open(rt.alloc())?;
    assert!(rt; is_read(heap, 99, DIGITS, b""));
    assert!(rt; is_read(heap, 7, b"0123456", b"789"));
    // Four reads give bytes, and the fifth finds the end.
    for left in 0..5usize {
        assert_eq!(rt; fault_of(heap, left, 0), (Some(ReadFault::Device), 1));
    }
    assert_eq!(rt; fault_of(heap, 5, 1), (Some(ReadFault::NoMemory), 0));
    Ok(())
}

// Whether a device of std took the whole text, and how often it has failed.
fn sent<W: Write + Drop>(device: W, text: &[u8]) -> (bool, u64) {
    let mut sink = Counted::new(device);
    let written = write_all(&mut sink, text).is_ok();
    (written, sink.failures)
}

// Whether a device of std gives just these bytes.
fn gives<R: Read + Drop>(heap: Heap, device: R, bytes: &[u8]) -> bool {
    let mut source = Counted::new(device);
    match read_all(heap, &mut &mut source, 99) {
        Ok(read) => read.as_slice() == bytes,
        Err(_) => false,
    }
}

// Whether a vector takes the digits.
fn is_kept(heap: Heap) -> bool {
    let mut bytes = Vec::new(heap);
    sent(&mut bytes, DIGITS) == (true, 0) && bytes.as_slice() == DIGITS.as_slice()
}

// Whether a queue gives what was put into it.
fn is_queued(alloc: Global, heap: Heap) -> bool {
    match VecDeque::from_array(alloc, [7, 8]) {
        Ok(queue) => gives(heap, queue, &[7, 8]),
        Err(_) => false,
    }
}

#[test]
fn devices_of_std_are_counted(rt: HostRuntime) -> Result<(), Fail> {
    let heap = heap::open(rt.alloc())?;
    assert!(rt; is_kept(heap));
    let mut room = [0; 3];
    assert!(rt; sent(room.as_mut_slice(), DIGITS) == (false, 1));
    assert!(rt; sent(rt.stdout(), b"") == (true, 0));
    assert!(rt; gives(heap, DIGITS.as_slice(), DIGITS));
    assert!(rt; is_queued(rt.alloc(), heap));
    Ok(())
}
