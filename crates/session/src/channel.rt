// What the messages of a session are read from, and written to.
ghost use Rattle.std.specs.Prelude.{◌≡◌, ℕ, ◌≤◌, List, [], ◌∷◌, Option, length, IfOk};
ghost use Rattle.session.specs.Messages.{read_by, with_messages};

use crate::ending::Ending;
use fuse::Time;

/// Why no message was read.
#[derive(Clone, Copy, Debug, PartialEq, Eq)]
pub enum Silence {
    /// Another one may come.
    Passing,
    /// The session has ended.
    Ended(Ending),
}

/// What the messages of a session are read from and written to, each of them whole, and where its time
/// is read.
pub trait Channel {
    /// The messages that were read, in order, where contracts know them.
    ghost heard: { Self → Option (List (List ℕ)) };

    /// The messages that were written, in order, where contracts know them.
    ghost said: { Self → Option (List (List ℕ)) };

    /// Puts the next message at the beginning of the buffer, and returns its length.
    fn receive(&mut self, buffer: &mut [u8]) -> Result<usize, Silence>
        ensures bound { IfOk result (λ n. n ≤ length buffer.new) }
        ensures heard { heard self.new
            ≡ with_messages (heard self.old) (read_by result buffer.new) }
        ensures said { said self.new ≡ said self.old };

    /// The time, by a clock of which nothing is promised: it may stand still, and go back.
    fn now(&mut self) -> Time
        ensures heard { heard self.new ≡ heard self.old }
        ensures said { said self.new ≡ said self.old };

    /// Writes a message. Linux takes none for a request that was interrupted, so nothing is told of
    /// that.
    fn send(&mut self, message: &[u8])
        ensures heard { heard self.new ≡ heard self.old }
        ensures said { said self.new ≡ with_messages (said self.old) (message.now ∷ []) };
}
