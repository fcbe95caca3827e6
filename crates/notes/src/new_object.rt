// What comes with its name where a transaction makes it.
ghost use Rattle.std.specs.Prelude.{◌≡◌, [], None, Option, Some};
ghost use Rattle.model.specs.State.{Inode};
ghost use Rattle.notes.specs.Patches.{AllReach, added_by, form_of, new_ends, numbers_in, patched};
ghost use Rattle.notes.specs.Steps.{made_of, new_form, new_inode};

use crate::change::{Contents, Made};
use dirlist::NamePatch;
use file_shadow::FileShadow;
use heap::Heap;
use ids::Fixed;

/// What comes with its name where a transaction makes it.
#[derive(Drop)]
pub(crate) enum NewObject {
    /// An empty directory.
    Directory,
    /// An empty file.
    File,
    /// A symbolic link, a FIFO or a socket.
    Fixed(Fixed),
}

impl NewObject {
    /// What the transaction makes with it.
    pub(crate) fn made(&self) -> Made
        ensures { result ≡ made_of self.now }
    {
        match self {
            NewObject::Directory => Made::Directory,
            NewObject::File => Made::File,
            NewObject::Fixed(_) => Made::Fixed,
        }
    }

    /// The changes of a number where it is new. It takes no memory.
    pub(crate) fn into_contents(self, heap: Heap) -> Contents
        ensures contents { (o : Option Inode) → patched result o ≡ Some (new_inode self) }
        ensures form { form_of result ≡ new_form self }
        ensures added { added_by result ≡ 0 }
        ensures ends { new_ends result ≡ None }
        ensures reach { (o : Option Inode) → AllReach result o }
        ensures numbers { numbers_in result ≡ [] }
    {
        match self {
            NewObject::Directory => Contents::Names {
                is_fresh: true,
                names: NamePatch::new(heap),
            },
            NewObject::File => Contents::Bytes {
                is_fresh: true,
                bytes: FileShadow::new(heap),
            },
            NewObject::Fixed(fixed) => Contents::Fixed(fixed),
        }
    }
}
