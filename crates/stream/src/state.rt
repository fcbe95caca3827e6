// How far a stream has come, and one part of its input more.
ghost use Rattle.std.specs.Prelude.{◌≡◌, ◌≢◌, ◌<◌, ◌++◌, ◌∷◌, ◌&&◌, ◌==◌, ℕ, List, []};
ghost use Rattle.std.specs.Prelude.{None, length, IfErr, IfOk, OnErr, OnOk};
ghost use Rattle.std.specs.Io.KnownBytes.{append_known};
ghost use Rattle.device.specs.Device.{CanCount, IsPart};
ghost use Rattle.script.specs.Characters.{newline};
ghost use Rattle.script.specs.Contents.{AreValidPriorities};
ghost use Rattle.transcript.specs.Printer.{CanPrint, Prints};
ghost use Rattle.stream.specs.Asked.{unended_fault};
ghost use Rattle.stream.specs.Heard.{IsOfLine};
ghost use Rattle.stream.specs.States.{HasBegun, IsFollowerOf, IsFresh, IsHeard, IsNotHeard};
ghost use Rattle.stream.specs.States.{IsNotSettled, IsSettled};
ghost use Rattle.stream.specs.Streams.{CanMake, rest_text, verdict};
ghost use Rattle.stream.specs.Parts.{ComesOf, IsTaken, NotTaken};

use crate::doing::StepRefusal;
use crate::fault::StreamFault;
use crate::follower::Follower;
use crate::heard::Heard;
use crate::hearing::{hear_further, heard_fault};
use crate::settling::settle;
use crate::telling::{put_fault_line, put_verdict, tell};
use device::Sink;
use heap::Heap;
use ids::{Limits, Num, Priority};
use machine::Machine;
use replay::Checker;
use script::{SCRIPT_LIMIT, ScriptFault, read_first_line};
use std::alloc::AllocError;
use transcript::Printer;

// What a stream is to be: the limits of its kernel, and whether the history is checked.
#[derive(Clone, Copy)]
pub(crate) struct Setting {
    pub(crate) limits: Limits,
    pub(crate) check: bool,
}

// How far a stream has come: where its memory is from; the kernel, once a line has given its
// priorities, with the follower of its history, if a check is wanted; the beginning of the line that has not ended yet,
// and its number; and whether no line so far was a fault.
pub(crate) struct Stream<K: Machine> {
    heap: Heap,
    kernel: Option<K>,
    follower: Option<Follower>,
    line: Vec<u8, Heap>,
    number: usize,
    good: bool,
}

impl<K: Machine> Drop for Stream<K> {
    fn drop(self) {
        let Stream {
            heap: _,
            kernel: _,
            follower: _,
            line: _,
            number: _,
            good: _,
        } = self;
    }
}

// A follower of the history of a fresh kernel, if a check is wanted.
fn follower_if(
    heap: Heap,
    setting: Setting,
    priorities: &[Priority],
) -> Result<Option<Follower>, AllocError>
    requires { CanMake setting.limits }
    ensures { IfOk result (λ follower. IsFollowerOf setting priorities.now follower) }
{
    if !setting.check {
        return Ok(None);
    }
    let checker = Checker::with_bounds(heap, Num(0), priorities, setting.limits.bounds())?;
    Ok(Some(Follower { checker, count: 0 }))
}

impl<K: Machine> Stream<K> {
    // Nothing has come yet.
    pub(crate) fn new(heap: Heap) -> Stream<K>
        ensures { IsFresh result }
    {
        Stream {
            heap,
            kernel: None,
            follower: None,
            line: Vec::new(heap),
            number: 1,
            good: true,
        }
    }

    // Makes the kernel, and its follower, if a check is wanted.
    fn begin(&mut self, setting: Setting, priorities: &[Priority]) -> Result<(), AllocError>
        requires can_make { CanMake setting.limits }
        requires valid { AreValidPriorities priorities.now }
        ensures ok { OnOk result (HasBegun K.shown setting priorities.now self.old self.new) }
        ensures err { OnErr result (self.new ≡ self.old) }
    {
        let follower = follower_if(self.heap, setting, priorities)?;
        match K::with_limits(self.heap, priorities, setting.limits) {
            Ok(kernel) => {
                self.kernel = Some(kernel);
                self.follower = follower;
                Ok(())
            }
            Err(refused) => {
                drop(follower);
                Err(refused)
            }
        }
    }

    // Does the line that has ended, where no line before it has given priorities.
    fn hear_first(&mut self, setting: Setting) -> Result<Heard, StepRefusal>
        requires none { self.old.kernel ≡ None }
        requires can_make { CanMake setting.limits }
        ensures ok { IfOk result (IsHeard K.shown setting self.old self.new) }
        ensures err { OnErr result (self.new ≡ self.old) }
        ensures memory { IfErr result (λ refusal. refusal ≡ StepRefusal.NoMemory) }
    {
        match read_first_line(self.heap, self.number, self.line.as_slice()) {
            Ok(None) => Ok(Heard::Nothing),
            Ok(Some(priorities)) => match self.begin(setting, priorities.as_slice()) {
                Ok(()) => Ok(Heard::Nothing),
                Err(_) => Err(StepRefusal::NoMemory),
            },
            Err(fault) => heard_fault(fault),
        }
    }

    // Does the line that has ended.
    fn hear(&mut self, setting: Setting) -> Result<Heard, StreamFault>
        requires { CanMake setting.limits }
        ensures ok { IfOk result (IsHeard K.shown setting self.old self.new) }
        ensures err { IfErr result (IsNotHeard K.shown setting self.old self.new) }
        ensures of_line { IfErr result IsOfLine }
    {
        match &mut self.kernel {
            Some(kernel) => hear_further(
                self.heap,
                self.number,
                self.line.as_slice(),
                kernel,
                &mut self.follower,
            ),
            None => match self.hear_first(setting) {
                Ok(heard) => Ok(heard),
                Err(refusal) => Err(StreamFault::of_refusal(refusal)),
            },
        }
    }

    // Does the line that has ended, and answers it. At a fault it is not answered.
    fn end_line<S: Sink>(
        &mut self,
        setting: Setting,
        out: &mut Printer<'_, S>,
    ) -> Result<(), StreamFault>
        requires can_make { CanMake setting.limits }
        requires can { CanPrint S.failures out.old }
        ensures answers { (text : List ℕ) × Prints S.written S.failures out.old out.new text
            × ComesOf K.shown setting (newline ∷ []) text self.old self.new result }
        ensures of_line { IfErr result IsOfLine }
    {
        match self.hear(setting) {
            Ok(heard) => {
                tell(out, &self.kernel, heard);
                self.good = heard.stays_good(self.good);
                self.line.clear();
                self.number = self.number.saturating_add(1);
                Ok(())
            }
            Err(fault) => Err(fault),
        }
    }

    // Takes one byte more of the input. Of a line no more is kept than tells that it is too long.
    fn take_byte<S: Sink>(
        &mut self,
        setting: Setting,
        byte: u8,
        out: &mut Printer<'_, S>,
    ) -> Result<(), StreamFault>
        requires can_make { CanMake setting.limits }
        requires can { CanPrint S.failures out.old }
        ensures answers { (text : List ℕ) × Prints S.written S.failures out.old out.new text
            × ComesOf K.shown setting (byte ∷ []) text self.old self.new result }
        ensures of_line { IfErr result IsOfLine }
    {
        if byte == b'\n' {
            return self.end_line(setting, out);
        }
        if self.line.len() > SCRIPT_LIMIT {
            return Ok(());
        }
        match self.line.push(byte) {
            Ok(()) => Ok(()),
            Err(_) => Err(StreamFault::NoMemory),
        }
    }

    // Takes a part more of the input, up to the line at which a fault comes.
    fn take_part<S: Sink>(
        &mut self,
        setting: Setting,
        part: &[u8],
        out: &mut Printer<'_, S>,
    ) -> Result<(), StreamFault>
        requires can_make { CanMake setting.limits }
        requires can { CanPrint S.failures out.old }
        ensures answers { (text : List ℕ) × Prints S.written S.failures out.old out.new text
            × ComesOf K.shown setting part.now text self.old self.new result }
        ensures of_line { IfErr result IsOfLine }
    {
        for byte in part {
            match self.take_byte(setting, *byte, out) {
                Ok(()) => {}
                Err(fault) => return Err(fault),
            }
        }
        Ok(())
    }

    // Takes a part more of the input, and writes the answers. Where a line stops the stream and the
    // sink fails too, the fault is Write.
    fn write_part<S: Sink>(
        &mut self,
        setting: Setting,
        part: &[u8],
        sink: &mut S,
    ) -> Result<(), StreamFault>
        requires can_make { CanMake setting.limits }
        requires device { CanCount (S.failures sink.old) }
        ensures ok { OnOk result (IsTaken K.shown setting part.now self.old self.new
            (S.written sink.old) (S.written sink.new)) }
        ensures fault { IfErr result (NotTaken K.shown setting part.now self.old self.new
            (S.written sink.old) (S.written sink.new)) }
        ensures write { result ≡ Err StreamFault.Write
            → S.failures sink.old < S.failures sink.new }
        ensures no_failure { result ≢ Err StreamFault.Write
            → S.failures sink.new ≡ S.failures sink.old }
    {
        let mut out = Printer::new(sink);
        let taken = self.take_part(setting, part, &mut out);
        match out.finish() {
            Ok(()) => taken,
            Err(_) => Err(StreamFault::Write),
        }
    }

    // Has all that is kept checked, if that is wanted, and forgets it, where that can be.
    fn settle_all(&mut self) -> Result<(), StreamFault>
        ensures ok { OnOk result (IsSettled K.shown self.old self.new) }
        ensures err { IfErr result (IsNotSettled K.shown self.old self.new) }
        ensures of_line { IfErr result IsOfLine }
    {
        match &mut self.kernel {
            Some(kernel) => settle(kernel, &mut self.follower),
            None => Ok(()),
        }
    }

    // Takes a part more of the input: does all whole lines, writes their answers, and forgets what
    // was done, where that can be. Where a line stops the stream and the sink fails too, the fault is Write.
    pub(crate) fn answer<S: Sink>(
        &mut self,
        setting: Setting,
        part: &[u8],
        sink: &mut S,
    ) -> Result<(), StreamFault>
        requires can_make { CanMake setting.limits }
        requires device { CanCount (S.failures sink.old) }
        ensures ok { OnOk result (IsTaken K.shown setting part.now self.old self.new
            (S.written sink.old) (S.written sink.new)) }
        ensures fault { IfErr result (NotTaken K.shown setting part.now self.old self.new
            (S.written sink.old) (S.written sink.new)) }
        ensures write { result ≡ Err StreamFault.Write
            → S.failures sink.old < S.failures sink.new }
        ensures no_failure { result ≢ Err StreamFault.Write
            → S.failures sink.new ≡ S.failures sink.old }
    {
        match self.write_part(setting, part, sink) {
            Ok(()) => self.settle_all(),
            Err(fault) => Err(fault),
        }
    }

    // Prints what is answered to the line that has not ended, if there is one.
    fn put_rest<S: Sink>(&self, out: &mut Printer<'_, S>)
        requires { CanPrint S.failures out.old }
        ensures { Prints S.written S.failures out.old out.new
            (rest_text self.now.number self.now.line.items) }
    {
        if !self.line.is_empty() {
            put_fault_line(out, unended_fault(self.number, self.line.len()));
        }
    }

    // Prints what is answered at the end of the input: the line that has not ended, if there is
    // one, and that the history passes, if it was checked.
    fn put_end<S: Sink>(&self, check: bool, out: &mut Printer<'_, S>)
        requires { CanPrint S.failures out.old }
        ensures { Prints S.written S.failures out.old out.new
            (rest_text self.now.number self.now.line.items ++ verdict check) }
    {
        self.put_rest(out);
        put_verdict(out, check);
    }

    // Answers the end of the input. Returns whether no line was a fault. Its only fault is Write.
    pub(crate) fn finish<S: Sink>(&self, check: bool, sink: &mut S) -> Result<bool, StreamFault>
        requires { CanCount (S.failures sink.old) }
        ensures good { IfOk result (λ good.
            good ≡ (self.now.good && (length self.now.line.items == 0))) }
        ensures written { OnOk result (S.written sink.new ≡ append_known (S.written sink.old)
            (rest_text self.now.number self.now.line.items ++ verdict check)) }
        ensures part { IsPart (S.written sink.old) (S.written sink.new)
            (rest_text self.now.number self.now.line.items ++ verdict check) }
        ensures no_failure { OnOk result (S.failures sink.new ≡ S.failures sink.old) }
        ensures write { OnErr result (S.failures sink.old < S.failures sink.new) }
        ensures only { OnErr result (result ≡ Err StreamFault.Write) }
    {
        let mut out = Printer::new(sink);
        self.put_end(check, &mut out);
        match out.finish() {
            Ok(()) => Ok(self.good && self.line.is_empty()),
            Err(_) => Err(StreamFault::Write),
        }
    }
}

// The fault of a line that the input ends in, of which so many bytes are kept.
fn unended_fault(number: usize, kept: usize) -> ScriptFault
    ensures { (line : List ℕ) → length line ≡ kept → result ≡ unended_fault number line }
{
    if kept > SCRIPT_LIMIT {
        ScriptFault::LineTooLong(number)
    } else {
        ScriptFault::NotEnded(number)
    }
}
