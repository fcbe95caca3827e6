// How far a stream over a store has come, and one part of its input more.
ghost use Rattle.std.specs.Prelude.{◌≡◌, ◌≤◌, ◌<◌, OnOk};
ghost use Rattle.ids.specs.declared.limits.TheConstants.{LARGEST_FILE, MAX_ENTRIES};
ghost use Rattle.device.specs.Device.{CanCount};
ghost use Rattle.script.specs.Contents.{AreValidPriorities};

use crate::answers::Answers;
use crate::doing::do_line;
use crate::durable::Durable;
use crate::fault::ServeFault;
use crate::heard::Heard;
use crate::opening::Opened;
use crate::writing::write_kept;
use device::Sink;
use heap::Heap;
use ids::{Limits, Priority};
use machine::Machine;
use script::{SCRIPT_LIMIT, ScriptFault, read_first_line, read_further_line};
use sqlite_disk::Disk;
use std::alloc::Global;
use std::mem::replace;
use words::Sync;

// Where a stream stands: in front of the priorities of a store that is to be made, or that is there, or
// behind them.
#[derive(Drop)]
enum Stand<M: Machine, D: Disk> {
    Made(commit_log::Log<D>),
    Found(Durable<M, D>),
    Goes(Durable<M, D>),
    // Nothing goes on behind a fault.
    Gone,
}

// How far a stream has come.
#[derive(Drop)]
pub(crate) struct Stream<M: Machine, D: Disk> {
    heap: Heap,
    alloc: Global,
    stand: Stand<M, D>,
    sync: Sync,
    limits: Limits,
    // How many entries there were before this stream's first one.
    before: u64,
    line: Vec<u8, Heap>,
    number: usize,
    good: bool,
    // Whether a transaction has ended that is not answered yet.
    has_ended: bool,
    ghost limited: { limits.entries ≤ MAX_ENTRIES },
    ghost files: { limits.file_bytes ≤ LARGEST_FILE },
}

// The fault of a line, but for refused memory, which says nothing of the line.
fn heard_fault(fault: ScriptFault) -> Result<Heard, ServeFault> {
    match fault {
        ScriptFault::NoMemory => Err(ServeFault::NoMemory),
        fault => Ok(Heard::Fault(fault)),
    }
}

// Whether these are the priorities of the machine's first processes.
fn are_those_of<M: Machine, D: Disk>(durable: &Durable<M, D>, priorities: &[Priority]) -> bool {
    durable.machine.history().priorities() == priorities
}

impl<M: Machine, D: Disk + Drop> Stream<M, D> {
    pub(crate) fn new(
        heap: Heap,
        alloc: Global,
        opened: Opened<M, D>,
        sync: Sync,
        limits: Limits,
    ) -> Stream<M, D>
        requires limited { limits.entries ≤ MAX_ENTRIES }
        requires files { limits.file_bytes ≤ LARGEST_FILE }
    {
        let stand = match opened {
            Opened::Empty(log) => Stand::Made(log),
            Opened::There(durable) => Stand::Found(durable),
        };
        Stream {
            heap,
            alloc,
            stand,
            sync,
            limits,
            before: 0,
            line: Vec::new(heap),
            number: 1,
            good: true,
            has_ended: false,
        }
    }

    // Takes the priorities: a store that is to be made is made with them, and one that is there has them.
    fn begin(&mut self, priorities: &[Priority]) -> Result<(), ServeFault>
        requires { AreValidPriorities priorities.now }
    {
        match replace(&mut self.stand, Stand::Gone) {
            Stand::Made(log) => {
                let durable = Durable::begin(self.heap, self.alloc, log, priorities, self.limits)?;
                self.stand = Stand::Goes(durable);
                Ok(())
            }
            Stand::Found(durable) => {
                if !are_those_of(&durable, priorities) {
                    return Err(ServeFault::OtherPriorities);
                }
                self.before = durable.machine.history().count();
                self.stand = Stand::Goes(durable);
                Ok(())
            }
            Stand::Goes(durable) => {
                self.stand = Stand::Goes(durable);
                Ok(())
            }
            Stand::Gone => Ok(()),
        }
    }

    // Does the line that has ended, where no line before it has given priorities.
    fn hear_first(&mut self) -> Result<Heard, ServeFault> {
        match read_first_line(self.heap, self.number, self.line.as_slice()) {
            Ok(None) => Ok(Heard::Nothing),
            Ok(Some(priorities)) => {
                self.begin(priorities.as_slice())?;
                Ok(Heard::Nothing)
            }
            Err(fault) => heard_fault(fault),
        }
    }

    // Does the line that has ended.
    fn hear(&mut self) -> Result<Heard, ServeFault> {
        let Stand::Goes(durable) = &mut self.stand else {
            return self.hear_first();
        };
        match read_further_line(self.heap, self.number, self.line.as_slice()) {
            Ok(None) => Ok(Heard::Nothing),
            Ok(Some(line)) => do_line(self.heap, durable, line, self.line.as_slice()),
            Err(fault) => heard_fault(fault),
        }
    }

    // Puts the line of the last entry to the answers.
    fn tell_last(&self, answers: &mut Answers) -> Result<(), ServeFault>
        requires { answers.old.failures ≡ 0 }
        ensures { OnOk result (answers.new.failures ≡ 0) }
    {
        if let Stand::Goes(durable) = &self.stand {
            let history = durable.machine.history();
            if let Some(entry) = history.entries().last() {
                let position = history.count().saturating_sub(self.before);
                answers.put_entry(position as usize, entry)?;
            }
        }
        Ok(())
    }

    // Puts what a line has come to to the answers.
    fn tell(&mut self, heard: Heard, answers: &mut Answers) -> Result<(), ServeFault>
        requires { answers.old.failures ≡ 0 }
        ensures { OnOk result (answers.new.failures ≡ 0) }
    {
        match heard {
            Heard::Nothing => Ok(()),
            Heard::Operation(is_end) => {
                self.has_ended = self.has_ended || is_end;
                self.tell_last(answers)
            }
            Heard::Fault(fault) => {
                self.good = false;
                answers.put_fault(fault)?;
                Ok(())
            }
        }
    }

    // Does the line that has ended, and puts its answer to the others.
    fn end_line(&mut self, answers: &mut Answers) -> Result<(), ServeFault>
        requires { answers.old.failures ≡ 0 }
        ensures { OnOk result (answers.new.failures ≡ 0) }
    {
        let heard = self.hear()?;
        self.tell(heard, answers)?;
        self.line.clear();
        self.number = self.number.saturating_add(1);
        Ok(())
    }

    // Takes one byte more of the input. Of a line no more is kept than tells that it is too long.
    fn take_byte(&mut self, byte: u8, answers: &mut Answers) -> Result<(), ServeFault>
        requires { answers.old.failures ≡ 0 }
        ensures { OnOk result (answers.new.failures ≡ 0) }
    {
        if byte == b'\n' {
            return self.end_line(answers);
        }
        if self.line.len() <= SCRIPT_LIMIT {
            self.line.push(byte)?;
        }
        Ok(())
    }

    // Does all whole lines of a part of the input, up to the line at which a fault comes.
    fn take_part(&mut self, part: &[u8], answers: &mut Answers) -> Result<(), ServeFault>
        requires { answers.old.failures ≡ 0 }
    {
        for byte in part {
            self.take_byte(*byte, answers)?;
        }
        Ok(())
    }

    // What was done goes into the store, as far as it has to be there before it is answered; then it is
    // answered, and forgotten.
    fn release<S: Sink>(&mut self, answers: &Answers, sink: &mut S) -> Result<(), ServeFault>
        requires { CanCount (S.failures sink.old) }
        ensures device { OnOk result (S.failures sink.new ≡ S.failures sink.old) }
    {
        let has_ended = replace(&mut self.has_ended, false);
        match &mut self.stand {
            Stand::Goes(durable) => {
                durable.settle(self.sync, has_ended)?;
                write_kept(durable, answers, sink)?;
                durable.machine.forget();
                Ok(())
            }
            Stand::Made(_) | Stand::Found(_) | Stand::Gone => answers.write_to(sink),
        }
    }

    // Does all whole lines of a part of the input, keeps what they have done, and answers them. Where a
    // line stops the stream those before it are answered. Where the store has failed none is.
    pub(crate) fn answer<S: Sink>(&mut self, part: &[u8], sink: &mut S) -> Result<(), ServeFault>
        requires { CanCount (S.failures sink.old) }
        ensures device { OnOk result (S.failures sink.new ≡ S.failures sink.old) }
    {
        let mut answers = Answers::new(self.heap);
        let taken = self.take_part(part, &mut answers);
        self.release(&answers, sink)?;
        taken
    }

    // What was answered is on the disk from here on, but where that is left to the system.
    pub(crate) fn rest(&mut self) -> Result<(), ServeFault> {
        match &mut self.stand {
            Stand::Goes(durable) => durable.rest(self.sync)?,
            Stand::Found(durable) => durable.rest(self.sync)?,
            Stand::Made(_) | Stand::Gone => {}
        }
        Ok(())
    }

    // Answers the end of the input. Returns whether no line was a fault.
    pub(crate) fn finish<S: Sink>(&self, sink: &mut S) -> Result<bool, ServeFault>
        requires { CanCount (S.failures sink.old) }
    {
        if self.line.is_empty() {
            return Ok(self.good);
        }
        let fault = if self.line.len() > SCRIPT_LIMIT {
            ScriptFault::LineTooLong(self.number)
        } else {
            ScriptFault::NotEnded(self.number)
        };
        let mut answers = Answers::new(self.heap);
        answers.put_fault(fault)?;
        answers.write_to(sink)?;
        Ok(false)
    }
}
