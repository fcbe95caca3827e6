// Bytes in their spelling.
ghost use Rattle.std.specs.Prelude.{◌≡◌, ◌<◌, [], IfErr, IfSome, OnOk, Some, None};
ghost use Rattle.std.specs.Prelude.{length, option_map};
ghost use Rattle.std.specs.List.{list_all};
ghost use Rattle.script.specs.Texts.{bytes_after, escape_of, first_of, is_plain, text_in};
ghost use Rattle.script.specs.Words.{Reads};

use crate::number::hex_in;
use crate::word::WordFault;
use heap::Heap;
use ids::Bytes;

// Whether a byte stands for itself: from `!` to `~`, and no backslash.
fn is_plain(byte: u8) -> bool
    ensures { result ≡ is_plain byte }
{
    byte >= b'!' && byte <= b'~' && byte != b'\\'
}

// Whether each byte stands for itself.
fn are_plain(text: &[u8]) -> bool
    ensures { result ≡ list_all is_plain text.now }
{
    for byte in text {
        if !is_plain(*byte) {
            return false;
        }
    }
    true
}

// The byte that the escape at the beginning of a text says, and what stands behind the escape.
fn escape_of(text: &[u8]) -> Option<(u8, &[u8])>
    ensures value { option_map (λ p. (p.0, p.1.now)) result ≡ escape_of text.now }
    ensures shorter { IfSome result (λ p. length p.1.now < length text.now) }
{
    let [slash, x, high, low, behind @ ..] = text else {
        return None;
    };
    if *slash != b'\\' || *x != b'x' {
        return None;
    }
    Some((hex_in(*high)? * 16 + hex_in(*low)?, behind))
}

// The byte that a text begins with, as itself or by an escape, and what stands behind it.
fn first_of(text: &[u8]) -> Option<(u8, &[u8])>
    ensures value { option_map (λ p. (p.0, p.1.now)) result ≡ first_of text.now }
    ensures shorter { IfSome result (λ p. length p.1.now < length text.now) }
{
    let (first, behind) = text.split_first()?;
    if is_plain(*first) {
        Some((*first, behind))
    } else {
        escape_of(text)
    }
}

// Puts the bytes that a text spells behind those that are there.
fn read_bytes(text: &[u8], bytes: &mut Vec<u8, Heap>) -> Result<(), WordFault>
    ensures bytes { OnOk result (bytes_after bytes.old.items text.now ≡ Some bytes.new.items) }
    ensures malformed { IfErr result (λ fault.
        fault ≡ WordFault.Malformed → bytes_after bytes.old.items text.now ≡ None) }
{
    let mut rest = text;
    while !rest.is_empty() {
        let Some((byte, behind)) = first_of(rest) else {
            return Err(WordFault::Malformed);
        };
        bytes.push(byte)?;
        rest = behind;
    }
    Ok(())
}

// The bytes that a text with escapes spells.
fn escaped_in(heap: Heap, text: &[u8]) -> Result<Bytes, WordFault>
    ensures { Reads (bytes_after [] text.now) result }
{
    let Ok(mut bytes) = Vec::with_capacity(heap, text.len()) else {
        return Err(WordFault::NoMemory);
    };
    read_bytes(text, &mut bytes)?;
    Ok(Bytes::new(bytes))
}

// The bytes that a text spells, which are the text where each byte stands for itself.
fn bytes_in(heap: Heap, text: &[u8]) -> Result<Bytes, WordFault>
    ensures { Reads (bytes_after [] text.now) result }
{
    if !are_plain(text) {
        return escaped_in(heap, text);
    }
    match Bytes::copy(heap, text) {
        Ok(bytes) => Ok(bytes),
        Err(_) => Err(WordFault::NoMemory),
    }
}

// The bytes that a word spells: `\e` for none, else one or more.
pub(crate) fn text_in(heap: Heap, word: &[u8]) -> Result<Bytes, WordFault>
    ensures { Reads (text_in word.now) result }
{
    if word == b"\\e".as_slice() {
        return Ok(Bytes::new(Vec::new(heap)));
    }
    if word.is_empty() {
        return Err(WordFault::Malformed);
    }
    bytes_in(heap, word)
}
