// What a path asks of memory, and what it tells where that is refused.
use heap::Heap;
use ids::{DEFAULT_PATH_LIMIT, Errno, Refusal};
use path::Path;
use std::process::Abort;

// A name that is too long to stand in place, and more names than stand in the path itself.
const LONG: &[u8] = b"/abcdefghijklmnopqrstuvwxyz/b/c/d/e";

fn refusal(heap: Heap, bytes: &[u8]) -> Option<Refusal> {
    Path::parse(heap, bytes, DEFAULT_PATH_LIMIT).err()
}

// How many requests the long path makes: each is refused once.
fn refused_requests(rt: &impl Abort, heap: Heap) -> u64 {
    for number in 1..10u64 {
        heap.refuse(number);
        match refusal(heap, LONG) {
            None => return number - 1,
            Some(why) => assert_eq!(rt; why, Refusal::NoMemory),
        }
    }
    9
}

#[test]
fn each_request_is_refused_once(rt: HostRuntime) {
    let heap = heap::open(rt.alloc()).expect(&rt, "memory");
    assert!(rt; refused_requests(&rt, heap) > 1);
    heap.refuse(1);
    assert_eq!(rt; refusal(heap, b"/a/b"), None);
    assert_eq!(rt; heap.made(), 0);
    heap.refuse(0);
    assert_eq!(rt; refusal(heap, b"a"), Some(Refusal::Errno(Errno::EINVAL)));
    assert_eq!(rt; heap.made(), 0);
}
