// Sets of flags in their spelling.
ghost use Rattle.std.specs.Prelude.{◌≡◌, ◌||◌};
ghost use Rattle.transcript.specs.Flags.{PrintsNames, access_names, begin_flags_text};
ghost use Rattle.transcript.specs.Flags.{flag_names, flags_text, next_name, with_commas};
ghost use Rattle.transcript.specs.Printer.{CanPrint, Prints};

use crate::printer::Printer;
use device::Sink;
use ids::{BeginFlags, OpenFlags};

// Prints the name of an access. Returns whether there is one.
fn put_access<S: Sink>(out: &mut Printer<'_, S>, reads: bool, writes: bool) -> bool
    requires { CanPrint S.failures out.old }
    ensures text { Prints S.written S.failures out.old out.new
        (with_commas (access_names reads writes)) }
    ensures any { result ≡ (reads || writes) }
{
    if reads {
        if writes {
            out.put_word(b"RDWR");
        } else {
            out.put_word(b"RDONLY");
        }
    } else if writes {
        out.put_word(b"WRONLY");
    }
    reads || writes
}

// Prints a name, where the set has its flag, behind a comma where a name was printed already.
// Returns whether a name is printed now.
fn put_name<S: Sink>(out: &mut Printer<'_, S>, any: bool, has: bool, name: &[u8]) -> bool
    requires { CanPrint S.failures out.old }
    ensures text { Prints S.written S.failures out.old out.new (next_name any has name.now) }
    ensures any { result ≡ (any || has) }
{
    if !has {
        return any;
    }
    if !any {
        out.put(name);
        return true;
    }
    out.put_word(b",");
    out.put(name);
    true
}

// Prints the names of the flags, with commas. Returns whether there is one.
fn put_names<S: Sink>(out: &mut Printer<'_, S>, flags: OpenFlags) -> bool
    requires { CanPrint S.failures out.old }
    ensures { PrintsNames S.written S.failures out.old out.new (flag_names flags) result }
{
    let access = put_access(out, flags.reads(), flags.writes());
    let creates = put_name(out, access, flags.creates(), b"CREAT");
    let exclusive = put_name(out, creates, flags.is_exclusive(), b"EXCL");
    let truncates = put_name(out, exclusive, flags.truncates(), b"TRUNC");
    put_name(out, truncates, flags.appends(), b"APPEND")
}

// The flags of an open.
pub(crate) fn put_flags<S: Sink>(out: &mut Printer<'_, S>, flags: OpenFlags)
    requires { CanPrint S.failures out.old }
    ensures { Prints S.written S.failures out.old out.new (flags_text flags) }
{
    if !put_names(out, flags) {
        out.put_word(b"-");
    }
}

// The flags of a begin behind a space, and nothing for none.
pub(crate) fn begin_flags_text(flags: BeginFlags) -> &'static [u8]
    ensures { result.now ≡ begin_flags_text flags }
{
    match (flags.restarts(), flags.aborts_unsupported()) {
        (true, true) => b" RESTART,ABORT_UNSUPPORTED",
        (true, false) => b" RESTART",
        (false, true) => b" ABORT_UNSUPPORTED",
        (false, false) => b"",
    }
}
