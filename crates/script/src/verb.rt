// The words of the operations.
ghost use Rattle.std.specs.Prelude.{◌≡◌};
ghost use Rattle.script.specs.Verbs.{verb_in};

use crate::table::lookup;

// The word of an operation.
#[derive(Clone, Copy)]
pub(crate) enum Verb {
    Open,
    Write,
    Pwrite,
    Fill,
    Pfill,
    Truncate,
    Mknod,
    Chmod,
    Chown,
    OnFd(FdVerb),
    OnPath(PathVerb),
    OnPaths(PathsVerb),
    Bare(BareVerb),
}

// The word of an operation on descriptors and numbers.
#[derive(Clone, Copy)]
pub(crate) enum FdVerb {
    Close,
    Fstat,
    Dup,
    Read,
    Pread,
    Lseek,
    Ftruncate,
    Fallocate,
    Dup2,
    Fchmod,
    Fchown,
}

// The word of an operation on a path.
#[derive(Clone, Copy)]
pub(crate) enum PathVerb {
    Stat,
    Unlink,
    Mkdir,
    Rmdir,
    List,
    Readlink,
    Lstat,
}

// The word of an operation on two paths, or on a target and a path.
#[derive(Clone, Copy)]
pub(crate) enum PathsVerb {
    Link,
    Rename,
    Exchange,
    Symlink,
}

// The word of an operation on neither.
#[derive(Clone, Copy)]
pub(crate) enum BareVerb {
    Pipe,
    Fork,
    Exit,
    End,
    Begin,
    Abort,
}

// The words, and what each names.
static VERBS: [(&str, Verb); 37] = [
    ("open", Verb::Open),
    ("close", Verb::OnFd(FdVerb::Close)),
    ("fstat", Verb::OnFd(FdVerb::Fstat)),
    ("dup", Verb::OnFd(FdVerb::Dup)),
    ("read", Verb::OnFd(FdVerb::Read)),
    ("pread", Verb::OnFd(FdVerb::Pread)),
    ("write", Verb::Write),
    ("pwrite", Verb::Pwrite),
    ("fill", Verb::Fill),
    ("pfill", Verb::Pfill),
    ("lseek", Verb::OnFd(FdVerb::Lseek)),
    ("ftruncate", Verb::OnFd(FdVerb::Ftruncate)),
    ("truncate", Verb::Truncate),
    ("fallocate", Verb::OnFd(FdVerb::Fallocate)),
    ("dup2", Verb::OnFd(FdVerb::Dup2)),
    ("mknod", Verb::Mknod),
    ("chmod", Verb::Chmod),
    ("chown", Verb::Chown),
    ("fchmod", Verb::OnFd(FdVerb::Fchmod)),
    ("fchown", Verb::OnFd(FdVerb::Fchown)),
    ("stat", Verb::OnPath(PathVerb::Stat)),
    ("unlink", Verb::OnPath(PathVerb::Unlink)),
    ("mkdir", Verb::OnPath(PathVerb::Mkdir)),
    ("rmdir", Verb::OnPath(PathVerb::Rmdir)),
    ("list", Verb::OnPath(PathVerb::List)),
    ("readlink", Verb::OnPath(PathVerb::Readlink)),
    ("lstat", Verb::OnPath(PathVerb::Lstat)),
    ("link", Verb::OnPaths(PathsVerb::Link)),
    ("rename", Verb::OnPaths(PathsVerb::Rename)),
    ("exchange", Verb::OnPaths(PathsVerb::Exchange)),
    ("symlink", Verb::OnPaths(PathsVerb::Symlink)),
    ("pipe", Verb::Bare(BareVerb::Pipe)),
    ("fork", Verb::Bare(BareVerb::Fork)),
    ("exit", Verb::Bare(BareVerb::Exit)),
    ("end", Verb::Bare(BareVerb::End)),
    ("begin", Verb::Bare(BareVerb::Begin)),
    ("abort", Verb::Bare(BareVerb::Abort)),
];

// The operation that a word names.
pub(crate) fn verb_in(word: &[u8]) -> Option<Verb>
    ensures { result ≡ verb_in word.now }
{
    lookup(&VERBS, word)
}
