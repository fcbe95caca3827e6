// The times of one inode, and which of two is the later one.
ghost use Rattle.std.specs.Prelude.{◌≡◌};
ghost use Rattle.view_times.specs.Times.{first_times, is_later, later};

use fuse::Time;

/// When an inode was accessed, modified and changed last.
#[derive(Clone, Copy, Debug)]
pub struct Times {
    /// When it was read.
    pub accessed: Time,
    /// When its bytes, or its names, were changed.
    pub modified: Time,
    /// When anything of it was changed.
    pub changed: Time,
}

// The time of what nothing is known of.
const START: Time = Time {
    seconds: 0,
    nanoseconds: 0,
};

impl Times {
    /// Those of an inode of which nothing is known: the beginning of 1970.
    pub fn first() -> Times
        ensures { result ≡ first_times }
    {
        Times {
            accessed: START,
            modified: START,
            changed: START,
        }
    }
}

// Whether the first time is the later one.
fn is_later(first: Time, second: Time) -> bool
    ensures { result ≡ is_later first second }
{
    first.seconds > second.seconds
        || first.seconds == second.seconds && first.nanoseconds > second.nanoseconds
}

/// The later one of two times.
pub fn later(first: Time, second: Time) -> Time
    ensures { result ≡ later first second }
{
    if is_later(first, second) {
        first
    } else {
        second
    }
}
