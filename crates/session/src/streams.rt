// A channel over a reader, a writer and a clock of std.
ghost use Rattle.std.specs.Prelude.{None};

use crate::channel::{Channel, Silence};
use crate::ending::Ending;
use fuse::Time;
use std::io;
use std::io::{ErrorKind, Read, Write};
use std::rt::Clock;
use std::time::{SystemTime, UNIX_EPOCH};

// The system's number for a session that has ended.
const ENDED: i32 = 19;

/// A channel over a reader and a writer, each read and each write of which is a whole message, as those
/// of `/dev/fuse` are, and over a clock. Contracts do not know its messages.
#[derive(Drop)]
pub struct Streams<R, W, T> {
    /// Where messages are read.
    pub input: R,
    /// Where they are written.
    pub output: W,
    /// Where the time is read.
    pub clock: T,
}

// How a session goes on after a read that failed.
fn silence_of(error: &io::Error) -> Silence {
    if error.raw_os_error() == Some(ENDED) {
        return Silence::Ended(Ending::Unmounted);
    }
    match error.kind() {
        ErrorKind::NotFound | ErrorKind::Interrupted | ErrorKind::WouldBlock => Silence::Passing,
        _ => Silence::Ended(Ending::Failed),
    }
}

// The beginning of 1970, which is told where the clock cannot be read.
const START: Time = Time {
    seconds: 0,
    nanoseconds: 0,
};

// What a clock reads, from 1970 on.
fn time_of(clock: &impl Clock) -> Time {
    let Ok(read) = SystemTime::now(clock) else {
        return START;
    };
    match read.duration_since(UNIX_EPOCH) {
        Ok(since) => Time {
            seconds: since.as_secs(),
            nanoseconds: since.subsec_nanos(),
        },
        Err(_) => START,
    }
}

impl<R: Read, W: Write, T: Clock> Channel for Streams<R, W, T> {
    ghost heard = { λ _. None };

    ghost said = { λ _. None };

    fn receive(&mut self, buffer: &mut [u8]) -> Result<usize, Silence> {
        match self.input.read(buffer) {
            Ok(0) => Err(Silence::Ended(Ending::Unmounted)),
            Ok(count) => Ok(count),
            Err(error) => Err(silence_of(&error)),
        }
    }

    fn now(&mut self) -> Time {
        time_of(&self.clock)
    }

    fn send(&mut self, message: &[u8]) {
        let _written = self.output.write(message);
    }
}
