// A process of a kernel, with which a request steps.
ghost use Rattle.std.specs.Prelude.{◌≡◌, ◌<◌, ◌^◌, ◌↔◌, length, true, false};
ghost use Rattle.ids.specs.declared.call.Op.TheVariants as op;
ghost use Rattle.machine.specs.Shown.{Kept, limit_of, setup_of};
ghost use Rattle.machine.specs.Steps.{forgetting};
ghost use Rattle.history_laws.specs.Headline.{IsSerializable};
ghost use Rattle.course.specs.Course.{IsTaken, Ran};
ghost use Rattle.course.specs.Courses.{calling, doing, stating};
ghost use Rattle.course.specs.Hands.{IsSince, Stand, bound, is_ending};

use crate::fault::{Fault, done_in, stat_in};
use crate::step::take_step;
use history::History;
use ids::{Call, Op, Pid, Reply, Stat};
use machine::Machine;
use std::marker::Model;
use std::snapshot::Snapshot;

/// A kernel, and the process by which a request steps there. All entries that its history has since
/// the request began are of that process, and no process has ended since.
pub struct Hand<K: Machine> {
    kernel: K,
    pid: Pid,
    since: Snapshot<K>,
}

impl<K: Machine> Drop for Hand<K> {
    fn drop(self) {
        let Hand {
            kernel: _,
            pid: _,
            since: _,
        } = self;
    }
}

impl<K: Machine> Model for Hand<K> {
    ghost use Rattle.course.specs.Hands.{Held, IsHeld};

    ghost Value = { Held };

    ghost view = { λ h. record {
      pid = h.pid;
      since = K.shown h.since.value;
      shown = K.shown h.kernel;
    } };

    ghost invariant = { λ h. IsHeld (record {
      pid = h.pid;
      since = K.shown h.since.value;
      shown = K.shown h.kernel;
    }) };
}

impl<K: Machine> Hand<K> {
    /// A kernel whose history is legal, and a process.
    pub fn new(kernel: K, pid: Pid) -> Hand<K>
        requires { Kept (K.shown kernel) }
        ensures { result.shown ≡ K.shown kernel }
    {
        let since = Snapshot::of(&kernel);
        Hand { kernel, pid, since }
    }

    /// A request begins, which steps by this process.
    pub fn bind(&mut self, pid: Pid)
        ensures pid { self.new.pid ≡ pid }
        ensures since { self.new.since ≡ self.old.shown }
        ensures shown { self.new.shown ≡ self.old.shown }
    {
        self.pid = pid;
        self.since = Snapshot::of(&self.kernel);
    }

    /// How many objects the kernel has. Contracts do not know it.
    pub fn objects(&self) -> usize {
        self.kernel.objects()
    }

    /// The process.
    pub fn pid(&self) -> Pid
        ensures { result ≡ self.now.pid }
    {
        self.pid
    }

    /// The history: since the request began all entries are of the process, and no process has ended.
    pub fn history(&self) -> &History
        ensures value { result.now ≡ self.now.shown.log }
        ensures kept { Kept self.now.shown }
        ensures serial { let s = self.now.shown in
            IsSerializable 0 (setup_of s.log) (limit_of s.log) s.log.entries s.state }
        ensures since { IsSince self.now.pid self.now.since.log.entries self.now.shown.log.entries }
        ensures stand { Stand self.now.since self.now.shown }
    {
        self.kernel.history()
    }

    /// What is kept of the history is forgotten, and its memory given back. False, and nothing has
    /// changed, exactly where 2^63 entries or more would be forgotten then.
    pub fn forget(&mut self) -> bool
        ensures bound { bound self.new ≡ bound self.old }
        ensures entries { self.new.shown.log.entries ≡ self.old.shown.log.entries }
        ensures exactly { (result ≡ true) ↔ (length self.old.shown.log.entries < 2 ^ 63) }
        ensures yes { result ≡ true → self.new.shown ≡ forgetting self.old.shown }
        ensures no { result ≡ false → self.new.shown ≡ self.old.shown }
    {
        self.kernel.forget()
    }

    // One step of the process, which does not end it.
    pub(crate) fn step(&mut self, op: Op) -> Reply
        requires { is_ending op ≡ false }
        ensures bound { bound self.new ≡ bound self.old }
        ensures was { Kept self.old.shown }
        ensures kept { Kept self.new.shown }
        ensures taken { IsTaken self.old.shown self.new.shown self.old.pid op result }
    {
        take_step(&mut self.kernel, self.pid, op)
    }

    // One call of the process, which does not end it.
    pub(crate) fn ask(&mut self, call: Call) -> Reply
        requires { is_ending (op.Call call) ≡ false }
        ensures bound { bound self.new ≡ bound self.old }
        ensures was { Kept self.old.shown }
        ensures kept { Kept self.new.shown }
        ensures ran { Ran self.old.shown (calling self.old.pid call) result self.new.shown }
    {
        self.step(Op::Call(call))
    }

    // One call that is only done.
    pub(crate) fn do_call(&mut self, call: Call) -> Result<(), Fault>
        requires { is_ending (op.Call call) ≡ false }
        ensures bound { bound self.new ≡ bound self.old }
        ensures ran { Ran self.old.shown (doing self.old.pid call) result self.new.shown }
    {
        let reply = self.ask(call);
        done_in(reply)
    }

    // One call that tells about an object.
    pub(crate) fn stat_call(&mut self, call: Call) -> Result<Stat, Fault>
        requires { is_ending (op.Call call) ≡ false }
        ensures bound { bound self.new ≡ bound self.old }
        ensures ran { Ran self.old.shown (stating self.old.pid call) result self.new.shown }
    {
        let reply = self.ask(call);
        stat_in(reply)
    }
}
