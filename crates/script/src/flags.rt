// Sets of flags in their spelling.
ghost use Rattle.std.specs.Prelude.{◌≡◌, option_map};
ghost use Rattle.ids.specs.Flags.{open_bits};
ghost use Rattle.script.specs.Flags.{begin_flags_in, flag_in, flags_in, special_in};
ghost use Rattle.script.specs.Flags.{space_in, whence_in};

use crate::pieces::Pieces;
use crate::table::lookup;
use ids::{BeginFlags, OpenFlags, Space, Special, Whence};

// The names of single flags.
static FLAGS: [(&str, OpenFlags); 6] = [
    ("RDONLY", OpenFlags::READ),
    ("WRONLY", OpenFlags::WRITE),
    ("CREAT", OpenFlags::CREAT),
    ("EXCL", OpenFlags::EXCL),
    ("TRUNC", OpenFlags::TRUNC),
    ("APPEND", OpenFlags::APPEND),
];

// The flags of a begin.
static BEGINS: [(&str, BeginFlags); 2] = [
    ("RESTART", BeginFlags::RESTART),
    ("ABORT_UNSUPPORTED", BeginFlags::ABORT_UNSUPPORTED),
];

// The names of the places from which an offset counts, and of what it is to find.
static WHENCES: [(&str, Whence); 5] = [
    ("SET", Whence::Set),
    ("CUR", Whence::Cur),
    ("END", Whence::End),
    ("DATA", Whence::Data),
    ("HOLE", Whence::Hole),
];

// The names of what becomes of a range of a file.
static SPACES: [(&str, Space); 3] = [
    ("GROW", Space::Grow),
    ("KEEP", Space::Keep),
    ("PUNCH", Space::Punch),
];

// The names of what a mknod makes.
static SPECIALS: [(&str, Special); 2] = [("fifo", Special::Fifo), ("socket", Special::Socket)];

// The flags that a name says.
fn flag_in(name: &[u8]) -> Option<OpenFlags>
    ensures { option_map open_bits result ≡ flag_in name.now }
{
    if name == b"RDWR".as_slice() {
        Some(OpenFlags::READ.with(OpenFlags::WRITE))
    } else {
        lookup(&FLAGS, name)
    }
}

// The flags that a word spells: `-` for none, or names with commas.
pub(crate) fn flags_in(word: &[u8]) -> Option<OpenFlags>
    ensures { result ≡ flags_in word.now }
{
    if word == b"-".as_slice() {
        return Some(OpenFlags::none());
    }
    let mut names = Pieces::new(word, b',');
    let mut flags = OpenFlags::none();
    while let Some(name) = names.next() {
        flags = flags.with(flag_in(name)?);
    }
    Some(flags)
}

// The flags of a begin.
pub(crate) fn begin_flags_in(word: &[u8]) -> Option<BeginFlags>
    ensures { result ≡ begin_flags_in word.now }
{
    if word == b"RESTART,ABORT_UNSUPPORTED".as_slice()
        || word == b"ABORT_UNSUPPORTED,RESTART".as_slice()
    {
        Some(BeginFlags::RESTART.with(BeginFlags::ABORT_UNSUPPORTED))
    } else {
        lookup(&BEGINS, word)
    }
}

// From where an offset counts.
pub(crate) fn whence_in(word: &[u8]) -> Option<Whence>
    ensures { result ≡ whence_in word.now }
{
    lookup(&WHENCES, word)
}

// What becomes of a range of a file.
pub(crate) fn space_in(word: &[u8]) -> Option<Space>
    ensures { result ≡ space_in word.now }
{
    lookup(&SPACES, word)
}

// What a mknod makes.
pub(crate) fn special_in(word: &[u8]) -> Option<Special>
    ensures { result ≡ special_in word.now }
{
    lookup(&SPECIALS, word)
}
