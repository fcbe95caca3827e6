// Replies of a mount and lists of entries, against bytes written by hand after the layouts of Linux's
// linux/fuse.h, and what refused memory leaves of them.
ghost use Rattle.fuse.specs.Replies.{IsShort};

use fuse::{Attr, Bytes, DirectoryEntry, Errno, Kind, Listing, Reply, Time, put_reply};
use heap::Heap;
use std::alloc::AllocError;
use std::test::Fail;

const ATTR: Attr = Attr {
    inode: 3,
    size: 0x0100_0000_0000_0005,
    blocks: 1,
    accessed: Time {
        seconds: 11,
        nanoseconds: 14,
    },
    modified: Time {
        seconds: 12,
        nanoseconds: 15,
    },
    changed: Time {
        seconds: 13,
        nanoseconds: 16,
    },
    mode: 0x81a4,
    links: 2,
    uid: 1000,
    gid: 100,
    blksize: 4096,
};

// The reply of an attribute request of number 9, behind what stands there.
const ATTR_REPLY: &[u8; 121] = b"#\x78\0\0\0\0\0\0\0\x09\0\0\0\0\0\0\0\
    \0\0\0\0\0\0\0\0\0\0\0\0\0\0\0\0\x03\0\0\0\0\0\0\0\x05\0\0\0\0\0\0\x01\x01\0\0\0\0\0\0\0\
    \x0b\0\0\0\0\0\0\0\x0c\0\0\0\0\0\0\0\x0d\0\0\0\0\0\0\0\x0e\0\0\0\x0f\0\0\0\x10\0\0\0\
    \xa4\x81\0\0\x02\0\0\0\xe8\x03\0\0\x64\0\0\0\0\0\0\0\0\x10\0\0\0\0\0\0";

// Whether the bytes of a reply to request 9 behind `#` are these.
fn is_put(heap: Heap, reply: &Reply, bytes: &[u8]) -> Result<bool, AllocError>
    requires { IsShort reply.now }
{
    let mut out = Vec::from_slice(heap, b"#")?;
    put_reply(&mut out, 9, reply)?;
    Ok(out.as_slice() == bytes)
}

#[test]
fn replies(rt: HostRuntime) -> Result<(), Fail> {
    let heap = heap::open(rt.alloc())?;
    assert!(rt;
        is_put(
            heap,
            &Reply::Empty,
            b"#\x10\0\0\0\0\0\0\0\x09\0\0\0\0\0\0\0"
        )?
    );
    let refused = Reply::Error(Errno::ENOSYS);
    assert!(rt;
        is_put(
            heap,
            &refused,
            b"#\x10\0\0\0\xda\xff\xff\xff\x09\0\0\0\0\0\0\0"
        )?
    );
    let written = Reply::Written { size: 258 };
    assert!(rt;
        is_put(
            heap,
            &written,
            b"#\x18\0\0\0\0\0\0\0\x09\0\0\0\0\0\0\0\x02\x01\0\0\0\0\0\0"
        )?
    );
    let read = Reply::Data(Bytes::copy(heap, b"abc")?);
    assert!(rt; is_put(heap, &read, b"#\x13\0\0\0\0\0\0\0\x09\0\0\0\0\0\0\0abc")?);
    let attr = Reply::Attr(ATTR);
    assert!(rt; is_put(heap, &attr, ATTR_REPLY)?);
    Ok(())
}

// Whether a list for so many bytes has room for the entry.
fn has_room(heap: Heap, size: u32, entry: &DirectoryEntry<'_>) -> Result<bool, AllocError> {
    if entry.name.len() > 255 {
        return Ok(false);
    }
    let mut listing = Listing::new(heap, size);
    listing.add(entry)
}

#[test]
fn lists(rt: HostRuntime) -> Result<(), Fail> {
    let heap = heap::open(rt.alloc())?;
    let entry = DirectoryEntry {
        inode: 3,
        offset: 1,
        kind: Kind::File,
        name: b"a",
    };
    assert!(rt; !has_room(heap, 31, &entry)?);
    assert!(rt; has_room(heap, 32, &entry)?);
    let mut listing = Listing::new(heap, 64);
    assert!(rt; listing.add(&entry)?);
    let bytes = b"\x03\0\0\0\0\0\0\0\x01\0\0\0\0\0\0\0\x01\0\0\0\x08\0\0\0a\0\0\0\0\0\0\0";
    assert!(rt; listing.as_slice() == bytes.as_slice());
    Ok(())
}

// Whether a reply is put behind what was there, or nothing is, where this request of memory is
// refused.
fn is_whole(heap: Heap, refused: u64) -> Result<bool, AllocError> {
    let mut out = Vec::from_slice(heap, b"#")?;
    heap.refuse(refused);
    let put = put_reply(&mut out, 9, &Reply::Attr(ATTR)).is_ok();
    heap.refuse(0);
    let length = if put { 121 } else { 1 };
    Ok(out.len() == length)
}

#[test]
fn a_refused_reply_leaves_nothing(rt: HostRuntime) -> Result<(), Fail> {
    let heap = heap::open(rt.alloc())?;
    for refused in 0..9u64 {
        assert!(rt; is_whole(heap, refused)?, "{refused}");
    }
    Ok(())
}
