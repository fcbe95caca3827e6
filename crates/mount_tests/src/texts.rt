// Texts of what is answered, to compare.
ghost use Rattle.std.specs.Prelude.{◌≡◌};

use fuse::bits::MODE_KIND;
use fuse::{Attr, Reply};
use heap::Heap;
use ids::Bytes;
use std::alloc::AllocError;
use std::process::Abort;

pub(crate) type Text = String<Heap>;

// A name or a path. Up to 24 bytes take no memory.
pub(crate) fn owned(rt: &impl Abort, heap: Heap, text: &str) -> Bytes
    ensures { result ≡ text.now }
{
    Bytes::copy(heap, text.as_bytes()).expect(rt, "memory")
}

pub(crate) fn is_same(first: &Text, second: &Text) -> bool {
    first.as_str() == second.as_str()
}

// Of attributes the kind, the length and how many names there are. An object's number may be another
// one behind a refusal, and the others are kept beside the kernel.
fn put_attr(text: &mut Text, attr: &Attr) -> Result<(), AllocError> {
    let Attr {
        size,
        links,
        mode,
        ..
    } = *attr;
    let kind = mode & MODE_KIND;
    write!(text, "kind {kind} size {size} links {links}")
}

// Numbers of nodes and of open files are not told, since they are drawn from counters.
fn put_reply(text: &mut Text, reply: &Reply) -> Result<(), AllocError> {
    match reply {
        Reply::Error(errno) => write!(text, "{errno:?}"),
        Reply::Empty => write!(text, "empty"),
        Reply::Entry(entry) => put_attr(text, &entry.attr),
        Reply::Attr(attr) => put_attr(text, attr),
        Reply::Opened(_) => write!(text, "opened"),
        Reply::Created { entry, opened: _ } => put_attr(text, &entry.attr),
        Reply::Written { size } => write!(text, "written {size}"),
        Reply::Data(bytes) => write!(text, "{bytes:?}"),
        Reply::Directory(list) => {
            let bytes = list.as_slice();
            write!(text, "{bytes:?}")
        }
        Reply::StatFs(status) => write!(text, "{status:?}"),
        Reply::Init(init) => write!(text, "{init:?}"),
        Reply::Lseek { offset } => write!(text, "offset {offset}"),
    }
}

// What is answered.
pub(crate) fn told(rt: &impl Abort, heap: Heap, reply: &Option<Reply>) -> Text {
    let mut text = String::new(heap);
    if let Some(reply) = reply {
        put_reply(&mut text, reply).expect(rt, "memory");
    }
    text
}
