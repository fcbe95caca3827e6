// Bytes in their spelling.
ghost use Rattle.std.specs.Prelude.{◌≡◌, ◌++◌, true, flat_map};
ghost use Rattle.transcript.specs.Printer.{CanPrint, Prints};
ghost use Rattle.transcript.specs.Text.{byte_text, is_plain, text_of};

use crate::pending::PORTION;
use crate::printer::Printer;
use device::Sink;

// Whether a byte stands for itself.
pub(crate) fn is_plain(byte: u8) -> bool
    ensures { result ≡ is_plain byte }
{
    byte >= b'!' && byte <= b'~' && byte != b'\\'
}

// Whether each byte of a portion stands for itself. All of them are looked at, whatever the first ones
// are, so that many are looked at together.
fn are_plain(portion: &[u8]) -> bool
    ensures { result ≡ true → flat_map byte_text portion.now ≡ portion.now }
{
    let mut plain = true;
    for byte in portion {
        plain &= is_plain(*byte);
    }
    plain
}

// Cuts a text behind its first portions in which each byte stands for itself.
fn split_plain(text: &[u8]) -> (&[u8], &[u8])
    ensures parts { text.now ≡ result.0.now ++ result.1.now }
    ensures plain { flat_map byte_text result.0.now ≡ result.0.now }
{
    let mut rest = text;
    while !rest.is_empty() {
        let (portion, behind) = rest.split_at(rest.len().min(PORTION));
        if !are_plain(portion) {
            break;
        }
        rest = behind;
    }
    text.split_at(text.len() - rest.len())
}

// Each byte in its spelling. Portions that follow each other and need no other spelling are printed
// together, so that a long run of them is written at once. Out of line, so that a short text takes
// little.
#[inline(never)]
fn put_bytes<S: Sink>(out: &mut Printer<'_, S>, bytes: &[u8])
    requires { CanPrint S.failures out.old }
    ensures { Prints S.written S.failures out.old out.new (flat_map byte_text bytes.now) }
{
    let mut rest = bytes;
    while !rest.is_empty() {
        let (plain, others) = split_plain(rest);
        if plain.is_empty() {
            let (portion, behind) = rest.split_at(rest.len().min(PORTION));
            out.put_portion(portion);
            rest = behind;
        } else {
            out.put(plain);
            rest = others;
        }
    }
}

// How long a text is, at most, that is spelled with no look whether each byte stands for itself: for a
// shorter one the look takes longer than it spares.
const SHORT: usize = 16;

// Bytes as a script spells them.
#[tactic(auto, unfolding(crate::specs::Text::text_of))]
pub(crate) fn put_text<S: Sink>(out: &mut Printer<'_, S>, text: &[u8])
    requires { CanPrint S.failures out.old }
    ensures { Prints S.written S.failures out.old out.new (text_of text.now) }
{
    if text.is_empty() {
        out.put_word(b"\\e");
    } else if text.len() <= SHORT {
        out.put_portion(text);
    } else {
        put_bytes(out, text);
    }
}
