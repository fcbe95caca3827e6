// Permissions and owners in their spelling.
ghost use Rattle.std.specs.Prelude.{◌≡◌, ◌+◌, ◌%◌, ◌==◌, ◌&&◌, Some};
ghost use Rattle.ids.specs.Rights.{first_permissions};
ghost use Rattle.transcript.specs.Printer.{CanPrint, Prints};
ghost use Rattle.transcript.specs.Rights.{id_text, mode_text, new_owner_text, octal, octal_digit};
ghost use Rattle.transcript.specs.Rights.{owner_text, rights_text};

use crate::printer::Printer;
use device::Sink;
use ids::{Kind, NewOwner, Owner, Permissions, Rights};

// The last octal digit of a number.
fn octal_digit(n: u16) -> u8
    ensures { result ≡ octal_digit n }
{
    b'0' + (n % 8) as u8
}

// A number of at most four octal digits, with no zero before others.
fn put_octal<S: Sink>(out: &mut Printer<'_, S>, n: u16)
    requires { CanPrint S.failures out.old }
    ensures { Prints S.written S.failures out.old out.new (octal n) }
{
    let last = octal_digit(n);
    if n < 8 {
        out.put_word(&[last]);
    } else if n < 64 {
        out.put_word(&[octal_digit(n / 8), last]);
    } else if n < 512 {
        out.put_word(&[octal_digit(n / 64), octal_digit(n / 8), last]);
    } else {
        let first = octal_digit(n / 512);
        out.put_word(&[first, octal_digit(n / 64), octal_digit(n / 8), last]);
    }
}

// Permissions in octal digits.
pub(crate) fn put_permissions<S: Sink>(out: &mut Printer<'_, S>, permissions: Permissions)
    requires { CanPrint S.failures out.old }
    ensures { Prints S.written S.failures out.old out.new (octal permissions) }
{
    put_octal(out, permissions.bits());
}

// A new user or group behind a space, and `-` where it stays as it is.
fn put_id<S: Sink>(out: &mut Printer<'_, S>, id: Option<u32>)
    requires { CanPrint S.failures out.old }
    ensures { Prints S.written S.failures out.old out.new (id_text id) }
{
    match id {
        Some(n) => out.put_number(b" ", n),
        None => out.put_word(b" -"),
    }
}

// A new owner behind a space.
pub(crate) fn put_new_owner<S: Sink>(out: &mut Printer<'_, S>, owner: NewOwner)
    requires { CanPrint S.failures out.old }
    ensures { Prints S.written S.failures out.old out.new (new_owner_text owner) }
{
    put_id(out, owner.user);
    put_id(out, owner.group);
}

// Whether permissions are the first ones of a kind.
fn are_first(kind: Kind, permissions: Permissions) -> bool
    ensures { result ≡ (permissions == first_permissions (Some kind)) }
{
    permissions.bits() == Rights::first(Some(kind)).permissions.bits()
}

// Permissions, where they are not the first ones of the kind.
fn put_mode<S: Sink>(out: &mut Printer<'_, S>, kind: Kind, permissions: Permissions)
    requires { CanPrint S.failures out.old }
    ensures { Prints S.written S.failures out.old out.new (mode_text kind permissions) }
{
    if are_first(kind, permissions) {
        return;
    }
    out.put_word(b" mode ");
    put_permissions(out, permissions);
}

// Whether an owner is the first one.
fn is_first(owner: Owner) -> bool
    ensures { result ≡ (owner.user == 0 && owner.group == 0) }
{
    owner.user == 0 && owner.group == 0
}

// An owner, where it is not the first one.
fn put_owner<S: Sink>(out: &mut Printer<'_, S>, owner: Owner)
    requires { CanPrint S.failures out.old }
    ensures { Prints S.written S.failures out.old out.new (owner_text owner) }
{
    if is_first(owner) {
        return;
    }
    out.put_number(b" owner ", owner.user);
    out.put_number(b" ", owner.group);
}

// What of an object's rights is not as it was at first.
pub(crate) fn put_rights<S: Sink>(out: &mut Printer<'_, S>, kind: Kind, rights: Rights)
    requires { CanPrint S.failures out.old }
    ensures { Prints S.written S.failures out.old out.new (rights_text kind rights) }
{
    put_mode(out, kind, rights.permissions);
    put_owner(out, rights.owner);
}
