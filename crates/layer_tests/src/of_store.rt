// What refused memory leaves.
ghost use Rattle.std.specs.Prelude.{◌≡◌, false};
ghost use Rattle.model.specs.FiniteMap as map;
ghost use Rattle.model.specs.State.{names_of_inode};
ghost use Rattle.store.specs.Places as places;
ghost use Rattle.store.specs.Shown.{inode_of, inodes};

use crate::refused::is_refused;
use dirlist::Dir;
use heap::Heap;
use ids::Num;
use std::process::Abort;
use store::{Object, Store};

fn no_names(heap: Heap) -> Object
    ensures { names_of_inode (inode_of result) ≡ map.empty }
{
    Object::Directory(Dir::new(heap))
}

// The number of a new directory to come.
fn reserved(rt: &impl Abort, heap: Heap, store: &mut Store) -> Num {
    store.reserve_num(no_names(heap)).expect(rt, "memory")
}

fn name_count(store: &Store, num: Num) -> Option<usize> {
    store.directory(num).map(|dir| dir.len())
}

// Whether a number is refused among some, of which each that asks for memory is.
fn is_once_refused(heap: Heap, store: &mut Store) -> bool {
    for _ in 0..20u32 {
        heap.refuse(1);
        if store.reserve_num(no_names(heap)).is_err() {
            return true;
        }
    }
    false
}

#[test]
fn refused_memory_changes_nothing(rt: HostRuntime) {
    let heap = heap::open(rt.alloc()).expect(&rt, "memory");
    heap.refuse(1);
    assert!(rt; is_refused(Store::new(heap)));
    let mut store = Store::new(heap).expect(&rt, "memory");
    let root = store.root();
    assert!(rt; is_once_refused(heap, &mut store));
    heap.refuse(1);
    let refused = [store.promise(root).is_ok(), store.is_promised(root)];
    let count = name_count(&store, root);
    heap.refuse(0);
    let done = [
        store.reserve_num(no_names(heap)).is_ok(),
        store.promise(root).is_ok(),
    ];
    drop(store);
    assert_eq!(rt; refused, [false; 2]);
    assert_eq!(rt; count, Some(0));
    assert_eq!(rt; done, [true; 2]);
}
