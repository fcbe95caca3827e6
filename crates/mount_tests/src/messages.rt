// The messages of a session: requests in bytes, written by hand after the layouts of Linux's
// linux/fuse.h.
use byteorder::{ByteOrder, LittleEndian};
use heap::Heap;
use std::process::Abort;

// A request: its opcode, its node, and its body.
type Asked = (u32, u64, &'static str);

// The root of the first view, and the file by which its transaction is ended.
const VIEW: u64 = (1 << 62) + 2;

const CONTROL: u64 = VIEW + 1;

// How many messages there are.
pub(crate) const COUNT: usize = 37;

// Nodes get the numbers from 16 on, and what is opened those from 1 on, as they come.
static MESSAGES: [Asked; COUNT] = [
    // INIT.
    (26, 0, "\x07\0\0\0\x1f\0\0\0\0\0\x02\0\x08\0\0\0"),
    // MKDIR, once more, and LOOKUP.
    (9, 1, "\x6d\x01\0\0\0\0\0\0a-directory-with-a-longer-name\0"),
    (9, 1, "\x6d\x01\0\0\0\0\0\0a-directory-with-a-longer-name\0"),
    (1, 1, "a-directory-with-a-longer-name\0"),
    // CREATE, WRITE, READ, FLUSH, FSYNC, LSEEK and RELEASE.
    (
        35,
        16,
        "\x02\0\0\0\0\x01\0\0\0\0\0\0\0\0\0\0a-file-with-a-longer-name\0",
    ),
    (
        16,
        17,
        "\x01\0\0\0\0\0\0\0\0\0\0\0\0\0\0\0\x1a\0\0\0\0\0\0\0\0\0\0\0\0\0\0\0\x02\0\0\0\0\0\0\0abcdefghijklmnopqrstuvwxyz",
    ),
    (
        15,
        17,
        "\x01\0\0\0\0\0\0\0\0\0\0\0\0\0\0\0\x40\0\0\0\0\0\0\0\0\0\0\0\0\0\0\0\x02\0\0\0\0\0\0\0",
    ),
    (25, 17, "\x01\0\0\0\0\0\0\0\0\0\0\0\0\0\0\0\0\0\0\0\0\0\0\0"),
    (20, 17, "\x01\0\0\0\0\0\0\0\0\0\0\0\0\0\0\0"),
    (
        46,
        17,
        "\x01\0\0\0\0\0\0\0\0\0\0\0\0\0\0\0\x02\0\0\0\0\0\0\0",
    ),
    (
        18,
        17,
        "\x01\0\0\0\0\0\0\0\x02\0\0\0\0\0\0\0\0\0\0\0\0\0\0\0",
    ),
    // GETATTR, SETATTR of a length, ACCESS and OPEN.
    (3, 17, "\0\0\0\0\0\0\0\0\0\0\0\0\0\0\0\0"),
    (
        4,
        17,
        "\x08\0\0\0\0\0\0\0\0\0\0\0\0\0\0\0\x10\0\0\0\0\0\0\0\0\0\0\0\0\0\0\0\0\0\0\0\0\0\0\0\0\0\0\0\0\0\0\0\0\0\0\0\0\0\0\0\0\0\0\0\0\0\0\0\0\0\0\0\0\0\0\0\0\0\0\0\0\0\0\0\0\0\0\0\0\0\0\0",
    ),
    (34, 17, "\x04\0\0\0\0\0\0\0"),
    (14, 17, "\x02\0\0\0\0\0\0\0"),
    // MKNOD, LINK, both kinds of RENAME, UNLINK and RMDIR.
    (8, 1, "\0\x01\0\0\0\0\0\0\0\0\0\0\0\0\0\0b\0"),
    (13, 1, "\x12\0\0\0\0\0\0\0another-name-of-the-same-file\0"),
    (12, 1, "\x10\0\0\0\0\0\0\0b\0c\0"),
    (
        45,
        16,
        "\x10\0\0\0\0\0\0\0\x01\0\0\0\0\0\0\0c\0a-name-where-nothing-stands\0",
    ),
    (10, 1, "another-name-of-the-same-file\0"),
    (11, 1, "a-directory-with-a-longer-name\0"),
    // OPENDIR, READDIR, RELEASEDIR and STATFS.
    (27, 1, "\0\0\0\0\0\0\0\0"),
    (
        28,
        1,
        "\x01\0\0\0\0\0\0\0\0\0\0\0\0\0\0\0\0\x10\0\0\0\0\0\0\0\0\0\0\0\0\0\0\0\0\0\0\0\0\0\0",
    ),
    (29, 1, "\x01\0\0\0\0\0\0\0\0\0\0\0\0\0\0\0\0\0\0\0\0\0\0\0"),
    (17, 1, ""),
    // A view: MKDIR, CREATE there, a read and a write of its `.ctl`, and RMDIR.
    (9, 2, "\x6d\x01\0\0\0\0\0\0a-view-with-a-longer-name-here\0"),
    (35, VIEW, "\x02\0\0\0\0\x01\0\0\0\0\0\0\0\0\0\0d\0"),
    (
        15,
        CONTROL,
        "\0\0\0\0\0\0\0\0\0\0\0\0\0\0\0\0\x40\0\0\0\0\0\0\0\0\0\0\0\0\0\0\0\x02\0\0\0\0\0\0\0",
    ),
    (
        16,
        CONTROL,
        "\0\0\0\0\0\0\0\0\0\0\0\0\0\0\0\0\x03\0\0\0\0\0\0\0\0\0\0\0\0\0\0\0\x02\0\0\0\0\0\0\0end",
    ),
    (11, 2, "a-view-with-a-longer-name-here\0"),
    // FORGET, BATCH_FORGET and INTERRUPT.
    (2, 17, "\x01\0\0\0\0\0\0\0"),
    (
        42,
        0,
        "\x02\0\0\0\0\0\0\0\x10\0\0\0\0\0\0\0\x01\0\0\0\0\0\0\0\x12\0\0\0\0\0\0\0\x01\0\0\0\0\0\0\0",
    ),
    (36, 0, "\x03\0\0\0\0\0\0\0"),
    // What is no request: a name that does not end.
    (1, 1, "name"),
    // Another operation, DESTROY, and what comes behind it.
    (40, 1, ""),
    (38, 0, ""),
    (3, 1, "\0\0\0\0\0\0\0\0\0\0\0\0\0\0\0\0"),
];

fn put_header(header: &mut [u8; 40], length: u32, unique: u64, opcode: u32, node: u64) {
    let bytes: &mut [u8] = header;
    LittleEndian::write_u32(bytes, length);
    LittleEndian::write_u32(&mut bytes[4..], opcode);
    LittleEndian::write_u64(&mut bytes[8..], unique);
    LittleEndian::write_u64(&mut bytes[16..], node);
}

// The message of this place, whose number is one more.
pub(crate) fn message(rt: &impl Abort, heap: Heap, place: usize) -> Vec<u8, Heap> {
    let (opcode, node, body) = MESSAGES[place % COUNT];
    let body = body.as_bytes();
    let length = u32::try_from(body.len().saturating_add(40)).unwrap_or(0);
    let mut header = [0u8; 40];
    put_header(
        &mut header,
        length,
        (place as u64).wrapping_add(1),
        opcode,
        node,
    );
    let mut bytes = Vec::from_slice(heap, &header).expect(rt, "memory");
    bytes.extend_from_slice(body).expect(rt, "memory");
    bytes
}

// Whether the message of this place is to be answered: all but what is forgotten and interrupts.
pub(crate) fn is_answered(place: usize) -> bool {
    let (opcode, _, _) = MESSAGES[place % COUNT];
    opcode != 2 && opcode != 42 && opcode != 36
}
