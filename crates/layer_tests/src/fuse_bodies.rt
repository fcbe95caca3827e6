// Bodies of requests, written by hand after the layouts of Linux's linux/fuse.h, and what each asks.
use fuse::{Bytes, Changes, Forgets, Operation, Time, TimeChange, Whence};

// The opcodes that are served.
pub(crate) const OPCODES: [u8; 32] = [
    1, 2, 3, 4, 5, 6, 8, 9, 10, 11, 12, 13, 14, 15, 16, 17, 18, 20, 25, 26, 27, 28, 29, 34, 35, 36,
    38, 42, 43, 45, 46, 47,
];

// A body of this opcode.
pub(crate) fn body_of(opcode: u8) -> &'static [u8] {
    match opcode {
        1 | 10 | 11 => b"name\0",
        2 | 36 => b"\x03\0\0\0\0\0\0\x01",
        3 => b"\x01\0\0\0\0\0\0\0\x07\0\0\0\0\0\0\x01",
        4 => b"\xb9\x08\0\0\0\0\0\0\0\0\0\0\0\0\0\0\x10\0\0\0\0\0\0\x01\0\0\0\0\0\0\0\0\
            \x04\0\0\0\0\0\0\x01\x05\0\0\0\0\0\0\x01\0\0\0\0\0\0\0\0\x07\0\0\0\x06\0\0\0\0\0\0\0\
            \xa4\x81\0\0\0\0\0\0\0\0\0\0\0\0\0\0\0\0\0\0",
        6 => b"name\0../to/it\0",
        8 => b"\xa4\x81\0\0\0\0\0\0\x12\0\0\0\0\0\0\0name\0",
        9 => b"\xed\x01\0\0\x12\0\0\0name\0",
        12 => b"\x06\0\0\0\0\0\0\x01name\0other\0",
        13 => b"\x06\0\0\0\0\0\0\x01name\0",
        14 => b"\x02\x80\0\0\x01\0\0\0",
        15 => b"\x07\0\0\0\0\0\0\x01\0\x10\0\0\x01\0\0\0\0\x02\0\0\0\0\0\0\0\0\0\0\0\0\0\0\
            \x02\x80\0\0\0\0\0\0",
        16 => b"\x07\0\0\0\0\0\0\x01\0\x10\0\0\x01\0\0\0\x04\0\0\0\x01\0\0\0\0\0\0\0\0\0\0\0\
            \x02\x80\0\0\0\0\0\0name",
        18 => b"\x07\0\0\0\0\0\0\x01\x02\x80\0\0\x01\0\0\0\0\0\0\0\0\0\0\0",
        20 => b"\x07\0\0\0\0\0\0\x01\x01\0\0\0\0\0\0\0",
        25 => b"\x07\0\0\0\0\0\0\x01\0\0\0\0\0\0\0\0\x09\0\0\0\0\0\0\0",
        26 => b"\x07\0\0\0\x26\0\0\0\0\0\x02\0\xfb\xff\xff\x73",
        27 => b"\0\x80\x01\0\0\0\0\0",
        28 => b"\x07\0\0\0\0\0\0\x01\x03\0\0\0\x01\0\0\0\0\x10\0\0\0\0\0\0\0\0\0\0\0\0\0\0\
            \0\x80\x01\0\0\0\0\0",
        29 => b"\x07\0\0\0\0\0\0\x01\0\x80\x01\0\0\0\0\0\0\0\0\0\0\0\0\0",
        34 => b"\x04\0\0\0\0\0\0\0",
        35 => b"\x42\0\0\0\xa4\x81\0\0\x12\0\0\0\x01\0\0\0name\0",
        42 => b"\x02\0\0\0\0\0\0\0\x05\0\0\0\0\0\0\0\x01\0\0\0\0\0\0\0\
            \x06\0\0\0\0\0\0\0\x02\0\0\0\0\0\0\x01",
        43 => b"\x07\0\0\0\0\0\0\x01\0\x10\0\0\x01\0\0\0\x03\0\0\0\0\0\0\x01\x03\0\0\0\0\0\0\0",
        45 => b"\x06\0\0\0\0\0\0\x01\x02\0\0\0\0\0\0\0name\0other\0",
        46 => b"\x07\0\0\0\0\0\0\x01\0\x10\0\0\x01\0\0\0\x03\0\0\0\0\0\0\0",
        47 => b"\x07\0\0\0\0\0\0\x01\0\x10\0\0\x01\0\0\0\x06\0\0\0\0\0\0\x01\
            \x03\0\0\0\0\0\0\x01\x08\0\0\0\0\0\0\0\x04\0\0\0\x01\0\0\0\x02\0\0\0\0\0\0\0",
        _ => b"",
    }
}

const SEVEN: u64 = 0x0100_0000_0000_0007;

const SIX: u64 = 0x0100_0000_0000_0006;

const THREE: u64 = 0x0100_0000_0000_0003;

fn is_name(bytes: &Bytes) -> bool {
    bytes.as_slice() == b"name".as_slice()
}

fn are_forgets(forgets: &Forgets) -> bool {
    let [first, second] = forgets.as_slice() else {
        return false;
    };
    first.node == 5
        && first.lookups == 1
        && second.node == 6
        && second.lookups == 0x0100_0000_0000_0002
}

fn are_changes(changes: &Changes) -> bool {
    changes.handle.is_none()
        && changes.size == Some(0x0100_0000_0000_0010)
        && matches!(
            changes.accessed,
            Some(TimeChange::Now(Time {
                seconds: 0x0100_0000_0000_0004,
                nanoseconds: 7
            }))
        )
        && matches!(
            changes.modified,
            Some(TimeChange::At(Time {
                seconds: 0x0100_0000_0000_0005,
                nanoseconds: 6
            }))
        )
        && changes.mode == Some(0x81a4)
        && changes.uid.is_none()
        && changes.gid.is_none()
        && changes.drops_set_ids
}

// Whether an operation is what the body of its opcode says, where it is of an open file.
fn is_of_file(operation: &Operation, opcode: u8) -> bool {
    match operation {
        Operation::Open { flags, how } => opcode == 14 && *flags == 0x8002 && *how == 1,
        Operation::Read {
            handle,
            offset,
            size,
            open_flags,
        } => {
            opcode == 15
                && *handle == SEVEN
                && *offset == 0x1_0000_1000
                && *size == 512
                && *open_flags == 0x8002
        }
        Operation::Write {
            handle,
            offset,
            write_flags,
            open_flags,
            bytes,
        } => {
            opcode == 16
                && *handle == SEVEN
                && *offset == 0x1_0000_1000
                && *write_flags == 1
                && *open_flags == 0x8002
                && is_name(bytes)
        }
        Operation::Release { handle, flags } => {
            opcode == 18 && *handle == SEVEN && *flags == 0x8002
        }
        Operation::Fsync { handle } => opcode == 20 && *handle == SEVEN,
        Operation::Flush { handle } => opcode == 25 && *handle == SEVEN,
        Operation::Lseek {
            handle,
            offset,
            whence,
        } => {
            opcode == 46
                && *handle == SEVEN
                && *offset == 0x1_0000_1000
                && matches!(whence, Whence::NextData)
        }
        _ => is_of_range(operation, opcode),
    }
}

// The same for ranges of open files.
fn is_of_range(operation: &Operation, opcode: u8) -> bool {
    match operation {
        Operation::Fallocate {
            handle,
            offset,
            length,
            mode,
        } => {
            opcode == 43
                && *handle == SEVEN
                && *offset == 0x1_0000_1000
                && *length == THREE
                && *mode == 3
        }
        Operation::CopyFileRange {
            handle,
            offset,
            to_node,
            to_handle,
            to_offset,
            length,
            flags,
        } => {
            opcode == 47
                && *handle == SEVEN
                && *offset == 0x1_0000_1000
                && *to_node == SIX
                && *to_handle == THREE
                && *to_offset == 8
                && *length == 0x1_0000_0004
                && *flags == 2
        }
        _ => false,
    }
}

// The same for names.
fn is_of_name(operation: &Operation, opcode: u8) -> bool {
    match operation {
        Operation::Lookup { name } => opcode == 1 && is_name(name),
        Operation::SymLink { name, target } => {
            opcode == 6 && is_name(name) && target.as_slice() == b"../to/it".as_slice()
        }
        Operation::MkNod { name, mode } => opcode == 8 && is_name(name) && *mode == 0x81a4,
        Operation::MkDir { name, mode } => opcode == 9 && is_name(name) && *mode == 0x1ed,
        Operation::Unlink { name } => opcode == 10 && is_name(name),
        Operation::RmDir { name } => opcode == 11 && is_name(name),
        Operation::Rename {
            name,
            new_parent,
            new_name,
            flags,
        } => {
            is_name(name)
                && *new_parent == SIX
                && new_name.as_slice() == b"other".as_slice()
                && (opcode == 12 && *flags == 0 || opcode == 45 && *flags == 2)
        }
        Operation::Link { node, new_name } => opcode == 13 && *node == SIX && is_name(new_name),
        Operation::Create {
            name,
            flags,
            mode,
            how,
        } => opcode == 35 && is_name(name) && *flags == 0x42 && *mode == 0x81a4 && *how == 1,
        _ => false,
    }
}

// The same for all others.
fn is_of_another(operation: &Operation, opcode: u8) -> bool {
    match operation {
        Operation::Forget { lookups } => opcode == 2 && *lookups == 0x0100_0000_0000_0003,
        Operation::BatchForget { forgets } => opcode == 42 && are_forgets(forgets),
        Operation::GetAttr { handle } => opcode == 3 && *handle == Some(SEVEN),
        Operation::SetAttr { changes } => opcode == 4 && are_changes(changes),
        Operation::ReadLink => opcode == 5,
        Operation::OpenDir => opcode == 27,
        Operation::ReadDir {
            handle,
            offset,
            size,
        } => opcode == 28 && *handle == SEVEN && *offset == 0x1_0000_0003 && *size == 4096,
        Operation::ReleaseDir { handle } => opcode == 29 && *handle == SEVEN,
        Operation::StatFs => opcode == 17,
        Operation::Access { mask } => opcode == 34 && *mask == 4,
        Operation::Init {
            major,
            minor,
            max_readahead,
            flags,
        } => {
            opcode == 26
                && *major == 7
                && *minor == 38
                && *max_readahead == 0x2_0000
                && *flags == 0x73ff_fffb
        }
        Operation::Destroy => opcode == 38,
        Operation::Interrupt { unique } => opcode == 36 && *unique == THREE,
        _ => false,
    }
}

// Whether an operation is what the body of its opcode says.
pub(crate) fn is_asked(operation: &Operation, opcode: u8) -> bool {
    is_of_file(operation, opcode)
        || is_of_name(operation, opcode)
        || is_of_another(operation, opcode)
}
