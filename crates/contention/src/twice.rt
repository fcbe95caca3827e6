// A value and its copy.
ghost use Rattle.std.specs.Prelude.{◌≡◌, IfOk};

use ids::Cause;
use std::alloc::AllocError;
use std::marker::Model;

/// The same value twice: one for an entry of the history, one for the reply to the caller. Both are
/// there before they are needed, so that telling takes no memory.
#[derive(Drop)]
pub struct Twice<T> {
    entry: T,
    reply: T,
}

impl<T> Model for Twice<T> {
    ghost use Rattle.std.specs.Prelude.{◌≡◌};

    ghost Value = { T };

    ghost coded = { T.code };

    ghost view = { λ t. t.entry };

    ghost invariant = { λ t. t.reply ≡ t.entry };
}

impl<T> Twice<T> {
    /// Of two equal values.
    pub fn new(entry: T, reply: T) -> Twice<T>
        requires { reply ≡ entry }
        ensures { result ≡ entry }
    {
        Twice { entry, reply }
    }

    /// The value for the entry and the value for the reply.
    pub fn split(self) -> (T, T)
        ensures entry { result.0 ≡ self }
        ensures reply { result.1 ≡ self }
    {
        (self.entry, self.reply)
    }
}

impl Twice<Cause> {
    /// A cause and a copy of it. Refused memory is an error.
    pub fn copied(cause: Cause) -> Result<Twice<Cause>, AllocError>
        ensures { IfOk result (λ twice. twice ≡ cause) }
    {
        let reply = cause.try_clone()?;
        Ok(Twice::new(cause, reply))
    }
}
