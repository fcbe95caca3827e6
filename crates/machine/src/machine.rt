// What is asked of a kernel.
ghost use Rattle.ids.specs.Bounds.{bounds_of, given_by_default};
ghost use Rattle.ids.specs.declared.limits.TheConstants.{LARGEST_FILE};
ghost use Rattle.ids.specs.declared.limits.TheConstants.{MAX_ENTRIES, MAX_PROCESSES};
ghost use Rattle.std.specs.Prelude.{◌≡◌, ◌^◌, ◌↔◌, ◌<◌, ◌≤◌, [], length, true, false, IfOk, OnErr};
ghost use Rattle.model.specs.Moments.{is_alive};
ghost use Rattle.history_laws.specs.Headline.{IsSerializable};
ghost use Rattle.machine.specs.Shown.{Shown, Kept, limit_of, setup_of};
ghost use Rattle.machine.specs.Steps.{forgetting, IsStep, Steps};

use heap::Heap;
use history::History;
use ids::{Limits, Op, Pid, Priority, Reply};
use std::alloc::AllocError;

/// A kernel: its history, what the processes have committed, and what their open transactions hold.
pub trait Machine: Sized + Drop {
    /// What contracts see of it.
    ghost shown: { Self → Shown };

    /// A kernel with a process for each of these priorities, no names, the bounds where none are given
    /// ([`ids::Bounds::given_by_default`]), and a history that keeps at most `limit` entries, whose
    /// memory it takes at once. Refused memory gives nothing.
    fn new(heap: Heap, priorities: &[Priority], limit: usize) -> Result<Self, AllocError>
        requires some { 0 < length priorities.now }
        requires not_too_many { length priorities.now ≤ MAX_PROCESSES }
        requires limited { limit ≤ MAX_ENTRIES }
        ensures kept { IfOk result (λ k. Kept (shown k)) }
        ensures log { IfOk result (λ k. (shown k).log ≡ record {
          entries = [];
          priorities = priorities.now;
          limit = limit;
          forgotten = [];
          bounds = given_by_default;
        }) };

    /// The same with these limits: files of at most `limits.file_bytes` bytes, `limits.descriptors`
    /// descriptors in a process, paths of at most `limits.path_bytes` bytes, and a history that keeps at
    /// most `limits.entries` entries. Refused memory gives nothing.
    fn with_limits(heap: Heap, priorities: &[Priority], limits: Limits) -> Result<Self, AllocError>
        requires some { 0 < length priorities.now }
        requires not_too_many { length priorities.now ≤ MAX_PROCESSES }
        requires limited { limits.entries ≤ MAX_ENTRIES }
        requires files { limits.file_bytes ≤ LARGEST_FILE }
        ensures kept { IfOk result (λ k. Kept (shown k)) }
        ensures log { IfOk result (λ k. (shown k).log ≡ record {
          entries = [];
          priorities = priorities.now;
          limit = limits.entries;
          forgotten = [];
          bounds = bounds_of limits;
        }) };

    /// The history: all entries ever made, of which those that were not forgotten are kept. It is
    /// legal, what it committed is the state, and it is strictly serializable.
    fn history(&self) -> &History
        ensures value { result.now ≡ (shown self.now).log }
        ensures kept { Kept (shown self.now) }
        ensures serial { let s = shown self.now in
            IsSerializable 0 (setup_of s.log) (limit_of s.log) s.log.entries s.state };

    /// How many processes were ever made: their numbers are 1, 2, and so on.
    fn made(&self) -> usize
        ensures { result ≡ (shown self.now).state.made };

    /// How many objects there are, inodes and open descriptions, with those that transactions make.
    /// Contracts do not know it.
    fn objects(&self) -> usize;

    /// Whether there is such a process: it was made and has not ended.
    fn is_living(&self, pid: Pid) -> bool
        ensures { result ≡ is_alive (shown self.now).state pid };

    /// One operation of one process. HistoryFull and NoMemory change nothing; each other reply is
    /// that of one new entry.
    fn step(&mut self, pid: Pid, op: Op) -> Reply
        ensures kept { Kept (shown self.new) }
        ensures serial { let s = shown self.new in
            IsSerializable 0 (setup_of s.log) (limit_of s.log) s.log.entries s.state }
        ensures step { IsStep (shown self.old) (shown self.new) pid op result };

    /// Steps in a row. Refused memory for the replies means that nothing has run; a later refusal
    /// stands among the replies.
    fn run(&mut self, ops: Vec<(Pid, Op), Heap>) -> Result<Vec<Reply, Heap>, AllocError>
        ensures kept { Kept (shown self.new) }
        ensures serial { let s = shown self.new in
            IsSerializable 0 (setup_of s.log) (limit_of s.log) s.log.entries s.state }
        ensures steps { IfOk result (λ replies.
            Steps (shown self.old) ops.entry.items replies.items (shown self.new)) }
        ensures err { OnErr result (shown self.new ≡ shown self.old) };

    /// Forgets the entries that are kept: their memory is given back, and as many places are free
    /// as if there were none. What is committed and all transactions stand. It takes no memory.
    /// False, and nothing has changed, exactly where 2^63 entries or more would be forgotten then.
    fn forget(&mut self) -> bool
        ensures kept { Kept (shown self.new) }
        ensures exactly { (result ≡ true) ↔ (length (shown self.old).log.entries < 2 ^ 63) }
        ensures yes { result ≡ true → shown self.new ≡ forgetting (shown self.old) }
        ensures no { result ≡ false → shown self.new ≡ shown self.old };
}
