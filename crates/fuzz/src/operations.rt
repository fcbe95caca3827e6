// The words that the lines of random scripts are made of. They are few, so that the processes get
// in each other's way.
use crate::random::Random;
use heap::Heap;
use std::alloc::AllocError;

// What stands as one word of a line.
#[derive(Clone, Copy)]
enum Kind {
    Path,
    Descriptor,
    Flags,
    Count,
    FillCount,
    Text,
    Byte,
    Offset,
    Whence,
    Space,
    Length,
    Target,
    Special,
    Mode,
    Id,
}

// An operation: its share among all, the words that are always the same, and what stands behind
// them.
type Form = (u64, &'static str, &'static [Kind]);

static FORMS: [Form; 41] = [
    (3, "begin", &[]),
    (3, "begin RESTART", &[]),
    (1, "begin ABORT_UNSUPPORTED", &[]),
    (1, "begin RESTART,ABORT_UNSUPPORTED", &[]),
    (6, "end", &[]),
    (1, "abort", &[]),
    (1, "abort no_restart", &[]),
    (6, "open", &[Kind::Path, Kind::Flags]),
    (2, "close", &[Kind::Descriptor]),
    (4, "read", &[Kind::Descriptor, Kind::Count]),
    (3, "pread", &[Kind::Descriptor, Kind::Count, Kind::Offset]),
    (4, "write", &[Kind::Descriptor, Kind::Text]),
    (3, "pwrite", &[Kind::Descriptor, Kind::Text, Kind::Offset]),
    (2, "fill", &[Kind::Descriptor, Kind::FillCount, Kind::Byte]),
    (
        1,
        "pfill",
        &[Kind::Descriptor, Kind::FillCount, Kind::Byte, Kind::Offset],
    ),
    (4, "lseek", &[Kind::Descriptor, Kind::Offset, Kind::Whence]),
    (2, "ftruncate", &[Kind::Descriptor, Kind::Length]),
    (2, "truncate", &[Kind::Path, Kind::Length]),
    (
        3,
        "fallocate",
        &[Kind::Descriptor, Kind::Offset, Kind::Offset, Kind::Space],
    ),
    (3, "stat", &[Kind::Path]),
    (2, "fstat", &[Kind::Descriptor]),
    (3, "link", &[Kind::Path, Kind::Path]),
    (3, "unlink", &[Kind::Path]),
    (4, "rename", &[Kind::Path, Kind::Path]),
    (4, "exchange", &[Kind::Path, Kind::Path]),
    (5, "mkdir", &[Kind::Path]),
    (3, "rmdir", &[Kind::Path]),
    (3, "list", &[Kind::Path]),
    (4, "symlink", &[Kind::Target, Kind::Path]),
    (2, "readlink", &[Kind::Path]),
    (2, "lstat", &[Kind::Path]),
    (2, "mknod", &[Kind::Path, Kind::Special]),
    (3, "chmod", &[Kind::Path, Kind::Mode]),
    (3, "chown", &[Kind::Path, Kind::Id, Kind::Id]),
    (2, "fchmod", &[Kind::Descriptor, Kind::Mode]),
    (2, "fchown", &[Kind::Descriptor, Kind::Id, Kind::Id]),
    (2, "dup", &[Kind::Descriptor]),
    (2, "dup2", &[Kind::Descriptor, Kind::Descriptor]),
    (2, "pipe", &[]),
    (1, "fork", &[]),
    (1, "exit", &[]),
];

// The sum of the shares.
const SHARES: u64 = 110;

static PATHS: [&str; 32] = [
    "/", "/a", "/a", "/a", "/a", "/a", "/a", "/b", "/b", "/b", "/b", "/b", "/f", "/f", "/f", "/f",
    "/a/b", "/a/b", "/a/b", "/a/b", "/b/a", "/b/a", "/a/c", "/a/b/c", "/b/a/b", "/f/a", "/c",
    "\\e", "a", "//", "/a/..", "/\\x00",
];

static DESCRIPTORS: [&str; 20] = [
    "0", "0", "0", "0", "0", "0", "0", "1", "1", "1", "1", "1", "2", "2", "2", "3", "3", "4", "63",
    "64",
];

static FLAGS: [&str; 18] = [
    "RDWR,CREAT",
    "RDWR,CREAT",
    "RDWR,CREAT",
    "RDWR,CREAT",
    "RDONLY",
    "RDONLY",
    "WRONLY",
    "RDWR",
    "RDWR",
    "RDWR,TRUNC",
    "WRONLY,CREAT,TRUNC",
    "RDWR,CREAT,EXCL",
    "WRONLY,CREAT,APPEND",
    "RDWR,APPEND",
    "-",
    "CREAT",
    "RDONLY,TRUNC",
    "RDWR,EXCL",
];

static COUNTS: [&str; 14] = [
    "0", "1", "1", "2", "3", "5", "100", "512", "1024", "1025", "3000", "4096", "4097", "1048576",
];

static FILL_COUNTS: [&str; 14] = [
    "0", "1", "3", "100", "511", "512", "513", "1023", "1024", "1025", "2048", "3585", "4096",
    "5000",
];

static TEXTS: [&str; 7] = ["x", "hi", "abcde", "\\e", "pq\\x00r", "\\xff", "z"];

static TARGETS: [&str; 9] = [
    "a",
    "/a",
    "../b",
    "/",
    "no/such",
    "->",
    "\\xff\\x20",
    "\\e",
    "a\\x00b",
];

static SPECIALS: [&str; 3] = ["fifo", "fifo", "socket"];

static MODES: [&str; 12] = [
    "644", "644", "755", "600", "0", "7", "1777", "2750", "4711", "6755", "7777", "0640",
];

static IDS: [&str; 8] = ["-", "-", "0", "0", "1", "1000", "65534", "4294967295"];

static BYTES: [&str; 3] = ["78", "00", "ff"];

static OFFSETS: [&str; 22] = [
    "0",
    "0",
    "0",
    "0",
    "0",
    "1",
    "1",
    "2",
    "3",
    "-1",
    "-2",
    "511",
    "1023",
    "1024",
    "1025",
    "2047",
    "1048575",
    "1048576",
    "1048577",
    "4294967296",
    "9223372036854775807",
    "-9223372036854775808",
];

static WHENCES: [&str; 7] = ["SET", "SET", "CUR", "END", "DATA", "HOLE", "HOLE"];

static SPACES: [&str; 4] = ["GROW", "KEEP", "PUNCH", "PUNCH"];

static LENGTHS: [&str; 14] = [
    "0",
    "0",
    "1",
    "2",
    "100",
    "1023",
    "1024",
    "1025",
    "2048",
    "3000",
    "4000",
    "1048576",
    "1048577",
    "4294967295",
];

fn words_of(kind: Kind) -> &'static [&'static str] {
    match kind {
        Kind::Path => &PATHS,
        Kind::Descriptor => &DESCRIPTORS,
        Kind::Flags => &FLAGS,
        Kind::Count => &COUNTS,
        Kind::FillCount => &FILL_COUNTS,
        Kind::Text => &TEXTS,
        Kind::Byte => &BYTES,
        Kind::Offset => &OFFSETS,
        Kind::Whence => &WHENCES,
        Kind::Space => &SPACES,
        Kind::Length => &LENGTHS,
        Kind::Target => &TARGETS,
        Kind::Special => &SPECIALS,
        Kind::Mode => &MODES,
        Kind::Id => &IDS,
    }
}

fn put_word(text: &mut Vec<u8, Heap>, word: &str) -> Result<(), AllocError> {
    text.push(b' ')?;
    text.extend_from_slice(word.as_bytes())
}

// One of the operations, each as often as its share says.
fn form_of(random: &mut Random) -> &'static Form {
    let mut left = random.below(SHARES);
    for form in &FORMS {
        if left < form.0 {
            return form;
        }
        left -= form.0;
    }
    &FORMS[0]
}

// A path whose name is too long, a target that is, or one of the words of a kind.
fn put_kind(text: &mut Vec<u8, Heap>, random: &mut Random, kind: Kind) -> Result<(), AllocError> {
    if matches!(kind, Kind::Path) && random.once_in(100) {
        put_word(text, "/")?;
        return text.extend_from_slice(&[b'n'; 256]);
    }
    if matches!(kind, Kind::Target) && random.once_in(50) {
        put_word(text, "t")?;
        return text.extend_from_slice(&[b't'; 4095]);
    }
    put_word(text, random.pick(words_of(kind)))
}

fn put_words(text: &mut Vec<u8, Heap>, random: &mut Random) -> Result<(), AllocError> {
    let form = form_of(random);
    put_word(text, form.1)?;
    for kind in form.2 {
        put_kind(text, random, *kind)?;
    }
    Ok(())
}

// Puts a line of this process, whose number is this digit: one operation.
pub(crate) fn put_line(
    text: &mut Vec<u8, Heap>,
    random: &mut Random,
    digit: u8,
) -> Result<(), AllocError> {
    text.push(digit)?;
    put_words(text, random)?;
    text.push(b'\n')?;
    Ok(())
}
