// A request is served, by what its node is.
ghost use Rattle.std.specs.Prelude.{◌≡◌, false, is_some, true};
ghost use Rattle.machine.specs.Shown.{Kept, limit_of, setup_of};
ghost use Rattle.history_laws.specs.Headline.{IsSerializable};
ghost use Rattle.course.specs.Hands.{IsSince, Stand};
ghost use Rattle.fuse.specs.Operations.{is_answered};
ghost use Rattle.mount_tables.specs.Numbers.{class_of};
ghost use Rattle.mount_requests.specs.Seen.{IsUnknown, seen};
ghost use Rattle.mounted.specs.Room.{is_want, needs_room};
ghost use Rattle.mounted.specs.Served.{IsServed, IsToldOf, Serves, ServesAt, ServesPlain, ServesRoom};
ghost use Rattle.mounted.specs.Served.{ServesTree, ToldBy};
ghost use Rattle.mounted.specs.Served.{ServesView, noted, told, with_forgets};
ghost use Rattle.mounted.specs.Server.{HasGrown};
ghost use Rattle.mounted.specs.Sound.{StaysSound};
ghost use Rattle.mounted.specs.Steppers.{StaysInView, is_release};

use crate::starting::{Space, start, status};
use course::Hand;
use fuse::{Errno, Forgets, Operation, Reply};
use heap::Heap;
use machine::Machine;
use mount_requests::{Caller, Failure, Stepper, Tables};
use mount_tables::{Class, PLAIN, class_of, first_process};

// A kernel, and what is known beside it.
pub(crate) struct Serving<K: Machine> {
    pub(crate) hand: Hand<K>,
    pub(crate) tables: Tables,
}

impl<K: Machine> Drop for Serving<K> {
    fn drop(self) {
        let Serving { hand: _, tables: _ } = self;
    }
}

// A tree is full where so few bytes are left: what any request needs for its steps, but for a table that
// grows and the bytes of a write.
const MARGIN: u64 = 65_536;

// Whether a tree grows by a request, so that it needs room.
fn needs_room(operation: &Operation) -> bool
    ensures { result ≡ needs_room operation.now }
{
    match operation {
        Operation::SymLink { name: _, target: _ } => true,
        Operation::MkNod { name: _, mode: _ } => true,
        Operation::MkDir { name: _, mode: _ } => true,
        Operation::Link {
            node: _,
            new_name: _,
        } => true,
        Operation::Create {
            name: _,
            flags: _,
            mode: _,
            how: _,
        } => true,
        Operation::Write {
            handle: _,
            offset: _,
            write_flags: _,
            open_flags: _,
            bytes: _,
        } => true,
        Operation::CopyFileRange {
            handle: _,
            offset: _,
            to_node: _,
            to_handle: _,
            to_offset: _,
            length: _,
            flags: _,
        } => true,
        _ => false,
    }
}

// Whether it is told that memory was refused.
fn is_want(reply: &Reply) -> bool
    ensures { result ≡ is_want reply.now }
{
    match reply {
        Reply::Error(Errno::ENOMEM) => true,
        _ => false,
    }
}

// Whether hardly more may be held than is.
fn is_full(heap: Heap) -> bool {
    heap.held().saturating_add(MARGIN) > heap.limit()
}

// Whether it is told that memory was refused, and that was for the limit: more requests were refused for
// it than before.
fn is_short(heap: Heap, before: u64, reply: &Reply) -> bool
    ensures { result ≡ true → is_want reply.now ≡ true }
{
    if heap.short() == before {
        return false;
    }
    is_want(reply)
}

// What is answered to an outcome.
pub(crate) fn reply_of(outcome: Result<Reply, Failure>) -> Reply
    ensures { result ≡ told outcome }
{
    match outcome {
        Ok(reply) => reply,
        Err(Failure::Error(errno)) => Reply::Error(errno),
        Err(Failure::Aborted(_)) => Reply::Error(Errno::ECANCELED),
    }
}

impl<K: Machine> Serving<K> {
    // A kernel, of which nothing is known beside it.
    pub(crate) fn new(heap: Heap, kernel: K) -> Serving<K>
        requires { Kept (K.shown kernel) }
        ensures shown { result.hand.shown ≡ K.shown kernel }
        ensures unknown { IsUnknown (seen result.tables) }
    {
        Serving {
            hand: Hand::new(kernel, first_process(0)),
            tables: Tables::new(heap),
        }
    }

    // What is answered to a request. What was done is forgotten then, so a session can go on for ever.
    pub(crate) fn serve(&mut self, caller: Caller, operation: Operation) -> Option<Reply>
        ensures kept { Kept self.new.hand.shown }
        ensures serial { let s = self.new.hand.shown in
            IsSerializable 0 (setup_of s.log) (limit_of s.log) s.log.entries s.state }
        ensures stand { Stand self.old.hand.shown self.new.hand.shown }
        ensures grows { HasGrown self.old.hand.shown self.new.hand.shown }
        ensures sound { StaysSound (seen self.old.tables) self.old.hand.shown
            (seen self.new.tables) self.new.hand.shown }
        ensures answered { is_some result ≡ is_answered operation }
        ensures in_view { is_release operation ≡ false → StaysInView (seen self.old.tables) caller.node
            self.old.hand.shown.log.entries self.new.hand.shown.log.entries }
        ensures served { IsServed (seen self.old.tables) (seen self.new.tables) caller operation
            self.old.hand.shown self.new.hand.shown result }
    {
        let reply = self.answer(caller, operation);
        let _forgotten = self.hand.forget();
        // For the proof: the kernel's history is legal and serializable.
        let _history = self.hand.history();
        reply
    }

    // The requests that have no answer, and the others.
    fn answer(&mut self, caller: Caller, operation: Operation) -> Option<Reply>
        ensures stand { Stand self.old.hand.shown self.new.hand.shown }
        ensures grows { HasGrown self.old.hand.shown self.new.hand.shown }
        ensures sound { StaysSound (seen self.old.tables) self.old.hand.shown
            (seen self.new.tables) self.new.hand.shown }
        ensures answered { is_some result ≡ is_answered operation }
        ensures in_view { is_release operation ≡ false → StaysInView (seen self.old.tables) caller.node
            self.old.hand.shown.log.entries self.new.hand.shown.log.entries }
        ensures told { IsToldOf (seen self.old.tables) (seen self.new.tables) caller operation
            self.old.hand.shown self.new.hand.shown result }
    {
        match operation {
            Operation::Forget { lookups } => {
                self.tables.nodes.forget(caller.node, lookups);
                None
            }
            Operation::BatchForget { forgets } => {
                self.forget_all(&forgets);
                None
            }
            Operation::Interrupt { unique: _ } => None,
            operation => Some(self.outcome(caller, operation)),
        }
    }

    fn forget_all(&mut self, forgets: &Forgets)
        ensures hand { self.new.hand ≡ self.old.hand }
        ensures seen { seen self.new.tables ≡ with_forgets (seen self.old.tables) forgets.now }
    {
        for forget in forgets.as_slice() {
            self.tables.nodes.forget(forget.node, forget.lookups);
        }
    }

    // What is told of a request that is answered.
    fn outcome(&mut self, caller: Caller, operation: Operation) -> Reply
        ensures stand { Stand self.old.hand.shown self.new.hand.shown }
        ensures grows { HasGrown self.old.hand.shown self.new.hand.shown }
        ensures sound { StaysSound (seen self.old.tables) self.old.hand.shown
            (seen self.new.tables) self.new.hand.shown }
        ensures in_view { is_release operation ≡ false → StaysInView (seen self.old.tables) caller.node
            self.old.hand.shown.log.entries self.new.hand.shown.log.entries }
        ensures served { ToldBy (Serves (seen self.old.tables) (seen self.new.tables) caller
            operation self.old.hand.shown self.new.hand.shown) result }
    {
        match operation {
            Operation::Init {
                major: _,
                minor: _,
                max_readahead,
                flags,
            } => start(max_readahead, flags),
            Operation::Destroy => Reply::Empty,
            Operation::StatFs => status(self.space()),
            Operation::Release { handle, flags: _ } => self.release(handle),
            Operation::ReleaseDir { handle } => {
                self.tables.folders.remove(handle);
                Reply::Empty
            }
            Operation::Flush { handle: _ } => Reply::Empty,
            Operation::Fsync { handle: _ } => Reply::Empty,
            operation => self.at_node(caller, operation),
        }
    }

    // What is told of a request about a node.
    fn at_node(&mut self, caller: Caller, operation: Operation) -> Reply
        ensures stand { Stand self.old.hand.shown self.new.hand.shown }
        ensures grows { HasGrown self.old.hand.shown self.new.hand.shown }
        ensures sound { StaysSound (seen self.old.tables) self.old.hand.shown
            (seen self.new.tables) self.new.hand.shown }
        ensures in_view { StaysInView (seen self.old.tables) caller.node
            self.old.hand.shown.log.entries self.new.hand.shown.log.entries }
        ensures served { ToldBy (ServesAt (class_of caller.node) (seen self.old.tables)
            (seen self.new.tables) caller operation
            self.old.hand.shown self.new.hand.shown) result }
    {
        match class_of(caller.node) {
            Class::Transactions => reply_of(self.in_transactions(operation)),
            Class::Control(view) => self.in_control(view, operation),
            Class::Tree => self.in_room(caller, operation),
        }
    }

    // How much room the tree has.
    fn space(&self) -> Space {
        let heap = self.tables.heap;
        Space {
            limit: heap.limit(),
            held: heap.held(),
            objects: self.hand.objects() as u64,
        }
    }

    // Requests about a node of a tree. One by which it grows is held to the limit, and leaves the
    // reserve to the others.
    fn in_room(&mut self, caller: Caller, operation: Operation) -> Reply
        ensures stand { Stand self.old.hand.shown self.new.hand.shown }
        ensures grows { HasGrown self.old.hand.shown self.new.hand.shown }
        ensures sound { StaysSound (seen self.old.tables) self.old.hand.shown
            (seen self.new.tables) self.new.hand.shown }
        ensures in_view { StaysInView (seen self.old.tables) caller.node
            self.old.hand.shown.log.entries self.new.hand.shown.log.entries }
        ensures served { ToldBy (ServesRoom (seen self.old.tables) (seen self.new.tables) caller
            operation self.old.hand.shown self.new.hand.shown) result }
    {
        if !needs_room(&operation) {
            return self.in_tree(caller, operation);
        }
        let heap = self.tables.heap;
        if is_full(heap) {
            return Reply::Error(Errno::ENOSPC);
        }
        let before = heap.short();
        heap.keep_reserve();
        let reply = self.in_tree(caller, operation);
        heap.open_reserve();
        if is_short(heap, before, &reply) {
            return Reply::Error(Errno::ENOSPC);
        }
        reply
    }

    // Requests about a node of a tree.
    fn in_tree(&mut self, caller: Caller, operation: Operation) -> Reply
        ensures stand { Stand self.old.hand.shown self.new.hand.shown }
        ensures grows { HasGrown self.old.hand.shown self.new.hand.shown }
        ensures sound { StaysSound (seen self.old.tables) self.old.hand.shown
            (seen self.new.tables) self.new.hand.shown }
        ensures in_view { StaysInView (seen self.old.tables) caller.node
            self.old.hand.shown.log.entries self.new.hand.shown.log.entries }
        ensures served { ToldBy (ServesTree (seen self.old.tables) (seen self.new.tables) caller
            operation self.old.hand.shown self.new.hand.shown) result }
    {
        match self.tables.stepper_at(caller.node) {
            Ok(stepper) => {
                if stepper.view == PLAIN {
                    reply_of(self.in_plain(caller, operation))
                } else {
                    self.in_view(stepper, caller, operation)
                }
            }
            Err(failure) => reply_of(Err(failure)),
        }
    }

    // Requests about a node below a view: the process of its transaction serves them. After an abort
    // nobody steps there any more.
    fn in_view(&mut self, stepper: Stepper, caller: Caller, operation: Operation) -> Reply
        ensures stand { Stand self.old.hand.shown self.new.hand.shown }
        ensures since { IsSince stepper.pid
            self.old.hand.shown.log.entries self.new.hand.shown.log.entries }
        ensures served { ToldBy (ServesView (seen self.old.tables) (seen self.new.tables) stepper.view
            stepper.pid caller operation self.old.hand.shown self.new.hand.shown) result }
    {
        self.hand.bind(stepper.pid);
        let outcome = self.tables.answer(&mut self.hand, caller, operation);
        // For the proof: since then all entries are of the process.
        let _history = self.hand.history();
        self.note(stepper.view, outcome)
    }

    // The view of a transaction has what a request came to, and that is told.
    pub(crate) fn note(&mut self, view: u64, outcome: Result<Reply, Failure>) -> Reply
        ensures hand { self.new.hand ≡ self.old.hand }
        ensures noted { seen self.new.tables ≡ noted (seen self.old.tables) view outcome }
        ensures told { result ≡ told outcome }
    {
        match outcome {
            Ok(reply) => reply,
            Err(Failure::Error(errno)) => Reply::Error(errno),
            Err(Failure::Aborted(why)) => {
                self.tables.note_abort(view, why);
                Reply::Error(Errno::ECANCELED)
            }
        }
    }

    // Requests about a node of the plain tree: one process serves each.
    fn in_plain(&mut self, caller: Caller, operation: Operation) -> Result<Reply, Failure>
        ensures stand { Stand self.old.hand.shown self.new.hand.shown }
        ensures grows { HasGrown self.old.hand.shown self.new.hand.shown }
        ensures sound { StaysSound (seen self.old.tables) self.old.hand.shown
            (seen self.new.tables) self.new.hand.shown }
        ensures serves { ServesPlain (seen self.old.tables) (seen self.new.tables) caller operation
            self.old.hand.shown self.new.hand.shown result }
    {
        let pid = self.choose_plain(caller.node, &operation)?;
        self.hand.bind(pid);
        let outcome = self.tables.answer(&mut self.hand, caller, operation);
        // For the proof: since then the history has grown, and no process has ended.
        let _history = self.hand.history();
        outcome
    }
}
