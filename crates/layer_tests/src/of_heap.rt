// A heap that refuses the request that it was told to refuse, and what would pass its limit.
use heap::Heap;

// What another thread may take.
fn sent<T: Send + Drop>(_value: T) {}

// How many requests were made in all where a byte is taken.
fn pushed(heap: Heap, bytes: &mut Vec<u8, Heap>, byte: u8) -> Option<u64> {
    bytes.push(byte).ok()?;
    Some(heap.made())
}

#[test]
fn refuses_one_request(rt: HostRuntime) {
    let heap = heap::open(rt.alloc()).expect(&rt, "memory");
    let mut v: Vec<u8, Heap> = Vec::new(heap);
    heap.refuse(1);
    let first = pushed(heap, &mut v, 1);
    let second = pushed(heap, &mut v, 1);
    let last = pushed(heap, &mut v, 2);
    sent(v);
    assert_eq!(rt; [first, second, last], [None, Some(2), Some(2)]);
}

// A block of so many bytes.
fn block(heap: Heap, len: usize) -> Option<Vec<u8, Heap>> {
    Vec::with_capacity(heap, len).ok()
}

// A block takes 16 bytes more than it has. Of a limit of 1,024 the reserve is 64.
#[test]
fn holds_what_is_not_given_back_to_the_limit(rt: HostRuntime) {
    let heap = heap::open(rt.alloc()).expect(&rt, "memory");
    heap.hold_to(1_024);
    heap.keep_reserve();
    let over = block(heap, 1_009);
    let first = [heap.held(), heap.short()];
    let full = block(heap, 1_008);
    let more = block(heap, 1);
    let second = [heap.held(), heap.short()];
    heap.open_reserve();
    let one = block(heap, 16);
    let two = block(heap, 16);
    let three = block(heap, 1);
    let third = [heap.held(), heap.short()];
    assert!(rt; over.is_none() && full.is_some() && more.is_none());
    assert!(rt; one.is_some() && two.is_some() && three.is_none());
    assert_eq!(rt; [first, second, third], [[0, 1], [1_024, 2], [1_088, 3]]);
    drop(one);
    drop(two);
    heap.keep_reserve();
    let still = block(heap, 1);
    assert!(rt; still.is_none());
    drop(full);
    assert_eq!(rt; [heap.held(), heap.short(), heap.limit()], [0, 4, 1_024]);
}

// What grows gives its former block back.
#[test]
fn gives_back_what_was_outgrown(rt: HostRuntime) {
    let heap = heap::open(rt.alloc()).expect(&rt, "memory");
    let mut bytes: Vec<u8, Heap> = Vec::new(heap);
    bytes.resize(1_000, 0u8).expect(&rt, "memory");
    bytes.reserve_exact(1_000).expect(&rt, "memory");
    assert_eq!(rt; heap.held(), 2_016);
    drop(bytes);
    assert_eq!(rt; heap.held(), 0);
}

// What the limit lets pass, and no machine has, is not held, and the limit has not refused it; nor has
// it refused the request that was to be refused.
#[test]
fn holds_nothing_for_what_is_refused(rt: HostRuntime) {
    let heap = heap::open(rt.alloc()).expect(&rt, "memory");
    heap.hold_to(u64::MAX);
    let beyond = block(heap, 1 << 62);
    heap.refuse(1);
    let refused = block(heap, 1);
    assert!(rt; beyond.is_none() && refused.is_none());
    assert_eq!(rt; [heap.held(), heap.short(), heap.made()], [0, 0, 1]);
}
