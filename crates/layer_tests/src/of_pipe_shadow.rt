// What refused memory leaves.
use crate::pipes::pipe_of;
use crate::refused::is_refused;
use pipe_shadow::PipeShadow;

#[test]
fn refused_memory_changes_nothing(rt: HostRuntime) {
    let heap = heap::open(rt.alloc()).expect(&rt, "memory");
    let pipe = pipe_of(&rt, heap, &[b'a'; 65]);
    let mut shadow = PipeShadow::new(heap);
    heap.refuse(1);
    let appended = is_refused(shadow.append(b"x"));
    heap.refuse(1);
    let read = is_refused(shadow.read(heap, &pipe, 65));
    heap.refuse(0);
    let len = shadow.len(&pipe);
    shadow.append(b"x").expect(&rt, "memory");
    let grown = shadow.len(&pipe);
    drop(shadow);
    drop(pipe);
    assert_eq!(rt; [appended, read], [true; 2]);
    assert_eq!(rt; [len, grown], [65, 66]);
}
