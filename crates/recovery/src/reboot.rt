// What the processes of a store had open is closed.
use ids::{Call, Fd, Pid};

/// The calls of a reboot, one after the other: each process that was not there at the start exits, and
/// each of the others closes all its descriptors. They are plain calls, which go into the store like all
/// others; a close of what is not open is refused and changes nothing.
#[derive(Clone, Copy, Debug)]
pub struct Reboot {
    // The process whose call is next, and that call.
    pid: u32,
    fd: u32,
    // How many processes were there at the start, and what is above each descriptor.
    first: u32,
    descriptors: u32,
}

impl Reboot {
    /// Of so many first processes, of all that were made, and of descriptors below this number.
    pub fn new(first: u32, made: u32, descriptors: u32) -> Reboot {
        Reboot {
            pid: made,
            fd: 0,
            first,
            descriptors,
        }
    }

    /// The next call, or `None` behind the last one.
    pub fn next_call(&mut self) -> Option<(Pid, Call)> {
        if self.pid == 0 {
            return None;
        }
        if self.pid > self.first {
            let pid = Pid(self.pid);
            self.pid -= 1;
            return Some((pid, Call::Exit));
        }
        if self.fd >= self.descriptors {
            self.pid -= 1;
            self.fd = 0;
        }
        if self.pid == 0 || self.descriptors == 0 {
            return None;
        }
        let call = Call::Close(Fd(self.fd));
        self.fd = self.fd.saturating_add(1);
        Some((Pid(self.pid), call))
    }
}
