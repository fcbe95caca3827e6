// Permissions and owners in their spelling.
ghost use Rattle.std.specs.Prelude.{◌≡◌, ◌+◌, ◌*◌, ◌<◌, IfSome, Some};
ghost use Rattle.script.specs.Rights.{id_in, octal_in, octal_more, permissions_in};

use crate::number::number_in;
use ids::Permissions;

// The value of an octal digit.
fn octal_in(digit: u8) -> Option<u16>
    ensures value { result ≡ octal_in digit }
    ensures small { IfSome result (λ n. n < 8) }
{
    if digit >= b'0' && digit <= b'7' {
        Some(u16::from(digit - b'0'))
    } else {
        None
    }
}

// The number with one more octal digit behind it.
fn octal_more(n: u16, digit: u8) -> Option<u16>
    requires { n < 512 }
    ensures value { result ≡ octal_more (Some n) digit }
    ensures small { IfSome result (λ m. m < n * 8 + 8) }
{
    let digit = octal_in(digit)?;
    Some(n * 8 + digit)
}

// The number that one to four octal digits write.
fn octal_digits_in(word: &[u8]) -> Option<u16>
    ensures value { result ≡ permissions_in word.now }
    ensures small { IfSome result (λ n. n < 4096) }
{
    match word {
        [a] => octal_in(*a),
        [a, b] => octal_more(octal_in(*a)?, *b),
        [a, b, c] => {
            let front = octal_more(octal_in(*a)?, *b)?;
            octal_more(front, *c)
        }
        [a, b, c, d] => {
            let front = octal_more(octal_in(*a)?, *b)?;
            let front = octal_more(front, *c)?;
            octal_more(front, *d)
        }
        _ => None,
    }
}

// The permissions of these bits.
fn permissions_of(bits: u16) -> Permissions
    requires { bits < 4096 }
    ensures { result ≡ bits }
{
    match Permissions::new(bits) {
        Some(permissions) => permissions,
        None => unreachable!(),
    }
}

// Permissions, in one to four octal digits.
pub(crate) fn permissions_in(word: &[u8]) -> Option<Permissions>
    ensures { result ≡ permissions_in word.now }
{
    let bits = octal_digits_in(word)?;
    Some(permissions_of(bits))
}

// A new user or group. `-` says that it stays as it is.
pub(crate) fn id_in(word: &[u8]) -> Option<Option<u32>>
    ensures { result ≡ id_in word.now }
{
    if word == b"-".as_slice() {
        return Some(None);
    }
    let id = number_in(word, u32::MAX)?;
    Some(Some(id))
}
