// Requests of a mount: each operation, what is malformed or cut short, and refused memory.
use crate::fuse_bodies::{OPCODES, body_of, is_asked};
use fuse::{Operation, ParseFault, parse};
use heap::Heap;
use std::alloc::AllocError;
use std::test::Fail;

// A request of this opcode with this body: number 9, node 5, uid 1000, gid 100, pid 333.
fn request(heap: Heap, opcode: u8, body: &[u8]) -> Result<Vec<u8, Heap>, AllocError> {
    let length = ((40 + body.len()) & 0xff) as u8;
    let mut bytes = Vec::from_slice(heap, &[length, 0, 0, 0, opcode, 0, 0, 0])?;
    bytes.extend_from_slice(b"\x09\0\0\0\0\0\0\0\x05\0\0\0\0\0\0\0")?;
    bytes.extend_from_slice(b"\xe8\x03\0\0\x64\0\0\0\x4d\x01\0\0\0\0\0\0")?;
    bytes.extend_from_slice(body)?;
    Ok(bytes)
}

// Whether the request of this opcode is read as it was written.
fn is_read(heap: Heap, opcode: u8) -> Result<bool, AllocError> {
    let bytes = request(heap, opcode, body_of(opcode))?;
    let Ok(asked) = parse(heap, &bytes) else {
        return Ok(false);
    };
    let header = asked.unique == 9
        && asked.node == 5
        && asked.uid == 1000
        && asked.gid == 100
        && asked.pid == 333;
    Ok(header && is_asked(&asked.operation, opcode))
}

// Whether the body cut behind so many bytes is malformed.
fn is_malformed(heap: Heap, opcode: u8, body: &[u8]) -> Result<bool, AllocError> {
    let bytes = request(heap, opcode, body)?;
    Ok(matches!(
        parse(heap, &bytes),
        Err(ParseFault::Malformed { unique: 9 })
    ))
}

// Whether the beginning of so many bytes is no request, and whose it is is known from the header
// on.
fn is_beginning_refused(heap: Heap, bytes: &[u8], length: usize) -> bool {
    let length = length.min(bytes.len());
    match parse(heap, &bytes[..length]) {
        Err(ParseFault::NoHeader) => length < 40,
        Err(ParseFault::WrongLength { unique: 9 }) => length >= 40,
        _ => false,
    }
}

#[test]
fn each_operation_is_read(rt: HostRuntime) -> Result<(), Fail> {
    let heap = heap::open(rt.alloc())?;
    for opcode in OPCODES {
        assert!(rt; is_read(heap, opcode)?, "{opcode}");
    }
    Ok(())
}

#[test]
fn each_beginning_is_refused(rt: HostRuntime) -> Result<(), Fail> {
    let heap = heap::open(rt.alloc())?;
    for opcode in OPCODES {
        let body = body_of(opcode);
        let bytes = request(heap, opcode, body)?;
        for length in 0..bytes.len() {
            assert!(rt;
                is_beginning_refused(heap, &bytes, length),
                "{opcode} {length}"
            );
        }
        for length in 0..body.len() {
            assert!(rt;
                is_malformed(heap, opcode, &body[..length])?,
                "{opcode} {length}"
            );
        }
    }
    Ok(())
}

#[test]
fn other_opcodes_are_told(rt: HostRuntime) -> Result<(), Fail> {
    let heap = heap::open(rt.alloc())?;
    // READDIRPLUS, with the body that READDIR has, and an opcode that Linux does not have.
    for opcode in [44u8, 255] {
        let bytes = request(heap, opcode, body_of(28))?;
        let asked = parse(heap, &bytes);
        let is_other = match &asked {
            Ok(asked) =>
                matches!(&asked.operation, Operation::Other { opcode: told } if *told == u32::from(opcode)),
            Err(_) => false,
        };
        assert!(rt; is_other, "{opcode}");
    }
    Ok(())
}

#[test]
fn malformed_bodies(rt: HostRuntime) -> Result<(), Fail> {
    let heap = heap::open(rt.alloc())?;
    // No name, a slash, and bytes behind the name.
    assert!(rt; is_malformed(heap, 1, b"\0")?);
    assert!(rt; is_malformed(heap, 1, b"a/b\0")?);
    assert!(rt; is_malformed(heap, 1, b"name\0\0")?);
    assert!(rt; is_malformed(heap, 12, b"\x06\0\0\0\0\0\0\0name\0")?);
    // A link without a name or a target, one whose name has a slash, and bytes behind the target.
    assert!(rt; is_malformed(heap, 6, b"\0target\0")?);
    assert!(rt; is_malformed(heap, 6, b"name\0")?);
    assert!(rt; is_malformed(heap, 6, b"a/b\0target\0")?);
    assert!(rt; is_malformed(heap, 6, b"name\0target\0\0")?);
    assert!(rt; is_malformed(heap, 5, b"\0")?);
    // No such place to count from, and more forgets than there are.
    assert!(rt;
        is_malformed(
            heap,
            46,
            b"\x07\0\0\0\0\0\0\0\0\0\0\0\0\0\0\0\x05\0\0\0\0\0\0\0"
        )?
    );
    assert!(rt; is_malformed(heap, 42, b"\x01\0\0\0\0\0\0\0\x05\0\0\0\0\0\0\0")?);
    Ok(())
}

#[test]
fn a_refused_request_is_told(rt: HostRuntime) -> Result<(), Fail> {
    let heap = heap::open(rt.alloc())?;
    let mut name = [b'a'; 66];
    name[65] = 0;
    let bytes = request(heap, 1, &name)?;
    heap.refuse(1);
    assert!(rt; matches!(parse(heap, &bytes), Err(ParseFault::NoMemory { unique: 9 })));
    assert!(rt; matches!(parse(heap, &bytes), Ok(_)));
    Ok(())
}

#[test]
fn a_refused_forget_is_not_answered(rt: HostRuntime) -> Result<(), Fail> {
    let heap = heap::open(rt.alloc())?;
    let body = b"\x01\0\0\0\0\0\0\0\x05\0\0\0\0\0\0\0\x02\0\0\0\0\0\0\0";
    let bytes = request(heap, 42, body)?;
    heap.refuse(1);
    assert!(rt; matches!(parse(heap, &bytes), Err(ParseFault::Unanswered)));
    assert!(rt; matches!(parse(heap, &bytes), Ok(_)));
    Ok(())
}
