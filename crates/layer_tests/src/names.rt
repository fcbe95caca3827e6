// Names in one text.
use heap::Heap;
use ids::NameList;
use std::process::Abort;

// The names, each with a blank behind it. They go then.
pub(crate) fn joined(rt: &impl Abort, heap: Heap, names: NameList) -> Vec<u8, Heap> {
    let mut bytes = Vec::new(heap);
    for name in names.as_slice() {
        bytes
            .extend_from_slice(name.as_slice())
            .expect(rt, "memory");
        bytes.push(b' ').expect(rt, "memory");
    }
    drop(names);
    bytes
}
