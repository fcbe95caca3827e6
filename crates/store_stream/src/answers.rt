// Answers that wait until what they tell is kept.
ghost use Rattle.std.specs.Prelude.{◌≡◌, OnOk};
ghost use Rattle.device.specs.Device.{CanCount};

use crate::fault::ServeFault;
use device::{DeviceFailed, Sink, write_all};
use heap::Heap;
use ids::Entry;
use script::ScriptFault;
use std::alloc::AllocError;
use transcript::{Printer, put_line};

// A sink in memory. It fails only where memory is refused.
#[derive(Drop)]
pub(crate) struct Answers {
    pub(crate) heap: Heap,
    pub(crate) bytes: Vec<u8, Heap>,
    pub(crate) failures: u64,
}

impl Sink for Answers {
    ghost use Rattle.std.specs.Prelude.{Some};

    ghost written = { λ s. Some s.bytes.items };

    ghost failures = { λ s. s.failures };

    fn write(&mut self, text: &[u8]) -> Result<usize, DeviceFailed> {
        if self.bytes.extend_from_slice(text).is_err() {
            self.failures += 1;
            return Err(DeviceFailed);
        }
        Ok(text.len())
    }
}

impl Answers {
    pub(crate) fn new(heap: Heap) -> Answers
        ensures { result.failures ≡ 0 }
    {
        Answers {
            heap,
            bytes: Vec::new(heap),
            failures: 0,
        }
    }

    // Puts the line of an entry behind the others.
    pub(crate) fn put_entry(&mut self, position: usize, entry: &Entry) -> Result<(), AllocError>
        requires { self.old.failures ≡ 0 }
        ensures { OnOk result (self.new.failures ≡ 0) }
    {
        let mut out = Printer::new(self);
        put_line(&mut out, position, entry);
        match out.finish() {
            Ok(()) => Ok(()),
            Err(_) => Err(AllocError),
        }
    }

    // Puts the answer to a line that asks no operation behind the others.
    pub(crate) fn put_fault(&mut self, fault: ScriptFault) -> Result<(), AllocError>
        ensures { self.new.failures ≡ self.old.failures }
    {
        let text = format!(in self.heap; "? {fault}\n")?;
        self.bytes.extend_from_slice(text.as_bytes())?;
        Ok(())
    }

    // Writes them all.
    pub(crate) fn write_to<S: Sink>(&self, sink: &mut S) -> Result<(), ServeFault>
        requires { CanCount (S.failures sink.old) }
        ensures { OnOk result (S.failures sink.new ≡ S.failures sink.old) }
    {
        match write_all(sink, self.bytes.as_slice()) {
            Ok(()) => Ok(()),
            Err(_) => Err(ServeFault::Write),
        }
    }
}
