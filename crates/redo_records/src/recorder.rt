//! What finds the records of a history as its entries come.
ghost use Rattle.std.specs.Prelude.{◌≡◌, ◌<◌, ◌==◌, ℕ, List, true, false, nat_eq};
ghost use Rattle.std.specs.Prelude.{IfOk, IfSome, IsOk, OnErr, OnOk, None, Some};
ghost use Rattle.std.specs.Prelude.{if◌then◌else◌, is_some, option_map};
ghost use Rattle.std.specs.HashMap.{get, spare};
ghost use Rattle.model.specs.Moments.{Moment, idle, is_in, next, status};
ghost use Rattle.model.specs.Suits.{suits};
ghost use Rattle.redo_records.specs.Kept.{HasPlace, HasSlot, called, in_place, is_change};
ghost use Rattle.redo_records.specs.Kept.{kept_standing, list_told, no_calls, own_kept, own_told};
ghost use Rattle.redo_records.specs.Kept.{plain_told, settled_kept, standing_of, without_dooms};
ghost use Rattle.redo_records.specs.Kept.{without_room};
ghost use Rattle.redo_records.specs.Changing.{only_looks};
ghost use Rattle.redo_records.specs.Records.{added, as_record};
ghost use Rattle.redo_records.specs.Recording.{Follows, HasRoom, Tell, told};
ghost use Rattle.redo_records.specs.declared.transaction.Transaction.TheVariants.{Doomed};

use crate::transaction::Transaction;
use heap::Heap;
use ids::{Call, Entry, Nums, Op, Pid, Pids, Reply};
use std::alloc::AllocError;
use std::collections::HashMap;
use std::hash::{BuildHasherDefault, FoldHasher};

/// A redo record: the entries of its calls, in the order in which they were made. Of whom they doomed
/// the entries say nothing.
#[derive(Drop)]
pub enum Record {
    /// Of a plain call.
    Call(Entry),
    /// Of a committed transaction: all its calls but those that change nothing. There is at least one.
    Transaction(Vec<Entry, Heap>),
}

/// What a recorder knows of a process.
#[derive(Clone, Copy, Debug, PartialEq, Eq)]
pub enum Standing {
    /// It is in no transaction.
    Idle,
    /// It is in one that lives.
    Lives,
    /// It is in one that is doomed.
    IsDoomed,
}

// What is kept of each process in a transaction, by its number.
type Transactions = HashMap<u32, Transaction, BuildHasherDefault<FoldHasher>, Heap>;

/// What finds the records of a history: it is told each entry, and says which record that entry
/// completes. It keeps the calls of live transactions that can have changed something.
#[derive(Drop)]
pub struct Recorder {
    heap: Heap,
    transactions: Transactions,
}

/// Whether a call only looks: whatever it is answered, no record has it.
pub fn only_looks(call: &Call) -> bool
    ensures { result ≡ only_looks call.now }
{
    match call {
        Call::Pread(_, _, _) => true,
        Call::Stat(_) => true,
        Call::Fstat(_) => true,
        Call::List(_) => true,
        Call::Readlink(_) => true,
        Call::Lstat(_) => true,
        _ => false,
    }
}

// Whether an entry is of a call that can have changed the state.
fn is_change(op: &Op, reply: &Reply) -> bool
    ensures { result ≡ is_change op.now reply.now }
{
    match (op, reply) {
        (Op::Call(call), Reply::Answer(_)) => !only_looks(call),
        _ => false,
    }
}

// Makes room for one changing call of a process, if it is in a live transaction. Refused memory
// changes nothing.
fn reserve_call(transactions: &mut Transactions, pid: Pid) -> Result<(), AllocError>
    ensures kept { (q : ℕ) → option_map without_room (get nat_eq transactions.new q)
        ≡ option_map without_room (get nat_eq transactions.old q) }
    ensures ok { OnOk result (HasPlace (get nat_eq transactions.new pid)) }
    ensures succeeds { HasPlace (get nat_eq transactions.old pid) → IsOk result }
{
    match transactions.get_mut(&pid.0) {
        Some(transaction) => transaction.reserve(),
        None => Ok(()),
    }
}

// A changing call of a process: it waits for the end of its transaction, or is a record of its own.
fn note_call(transactions: &mut Transactions, entry: Entry) -> Option<Record>
    requires { HasPlace (get nat_eq transactions.old entry.pid) }
    ensures kept { (q : ℕ) → get nat_eq transactions.new q
        ≡ (if q == entry.pid then called entry (get nat_eq transactions.old q)
        else get nat_eq transactions.old q) }
    ensures told { told result ≡ plain_told entry true (get nat_eq transactions.old entry.pid) }
{
    match transactions.get_mut(&entry.pid.0) {
        Some(transaction) => {
            transaction.push(entry);
            None
        }
        None => Some(Record::Call(entry)),
    }
}

// From now on this is kept of a process, where something was.
fn set(transactions: &mut Transactions, pid: Pid, next: Transaction)
    ensures { (q : ℕ) → get nat_eq transactions.new q
        ≡ (if q == pid then in_place next (get nat_eq transactions.old q)
        else get nat_eq transactions.old q) }
{
    match transactions.get_mut(&pid.0) {
        Some(transaction) => *transaction = next,
        None => drop(next),
    }
}

// Whether something is kept of a process.
fn is_kept(transactions: &Transactions, pid: Pid) -> bool
    ensures { result ≡ is_some (get nat_eq transactions.now pid) }
{
    transactions.contains_key(&pid.0)
}

// A transaction of a process begins.
fn begin(transactions: &mut Transactions, heap: Heap, pid: Pid)
    requires { HasSlot (spare transactions.old) (get nat_eq transactions.old pid) }
    ensures { (q : ℕ) → get nat_eq transactions.new q
        ≡ (if q == pid then Some no_calls else get nat_eq transactions.old q) }
{
    let begun = Transaction::new(heap);
    if is_kept(transactions, pid) {
        set(transactions, pid, begun);
        return;
    }
    let added: Result<_, _> = transactions.insert(pid.0, begun);
    drop(added.unwrap());
}

// Makes room for a transaction of a process that begins. Refused memory changes nothing that is kept.
fn reserve_begin(transactions: &mut Transactions, pid: Pid) -> Result<(), AllocError>
    ensures kept { (q : ℕ) → get nat_eq transactions.new q ≡ get nat_eq transactions.old q }
    ensures ok { OnOk result (HasSlot (spare transactions.new) (get nat_eq transactions.new pid)) }
    ensures succeeds { HasSlot (spare transactions.old) (get nat_eq transactions.old pid) → IsOk result }
{
    if is_kept(transactions, pid) {
        return Ok(());
    }
    transactions.reserve(1)
}

// What is told of a process.
fn kept_standing(transactions: &Transactions, pid: Pid) -> Standing
    ensures { result ≡ kept_standing (get nat_eq transactions.now pid) }
{
    match transactions.get(&pid.0) {
        Some(Transaction::Live(_)) => Standing::Lives,
        Some(Transaction::Doomed) => Standing::IsDoomed,
        None => Standing::Idle,
    }
}

// Copies of what an entry answers, and of the numbers that it made. Refused memory changes nothing.
fn answer_copied(entry: &Entry) -> Result<(Nums, Reply), AllocError>
    ensures { IfOk result (λ copies. (copies.0 ≡ entry.now.chosen) × (copies.1 ≡ entry.now.reply)) }
{
    let chosen = entry.chosen.try_clone()?;
    let reply = entry.reply.try_clone()?;
    Ok((chosen, reply))
}

// A copy of an entry that can have changed the state, but for whom it doomed. `op` is a copy of its
// operation: without it, and where memory is refused, there is none.
fn copied(heap: Heap, op: Option<Op>, entry: &Entry) -> Option<Entry>
    requires { IfSome op (λ op. op ≡ entry.now.op) }
    ensures { IfSome result (λ copy. copy ≡ without_dooms entry.now) }
{
    let op = op?;
    if !is_change(&op, &entry.reply) {
        return None;
    }
    let Ok((chosen, reply)) = answer_copied(entry) else {
        return None;
    };
    Some(Entry {
        pid: entry.pid,
        op,
        reply,
        chosen,
        doomed: Pids::new(heap),
    })
}

// A transaction is given up, or begun anew without its calls.
fn settle(transactions: &mut Transactions, heap: Heap, pid: Pid, again: bool)
    ensures { (q : ℕ) → get nat_eq transactions.new q
        ≡ (if q == pid then settled_kept again (get nat_eq transactions.old q)
        else get nat_eq transactions.old q) }
{
    if again {
        set(transactions, pid, Transaction::new(heap));
    } else {
        drop(transactions.remove(&pid.0));
    }
}

// A committed transaction is no longer kept. Its calls are a record, if it made any that change
// something.
fn finish(transactions: &mut Transactions, pid: Pid) -> Option<Record>
    ensures kept { (q : ℕ) → get nat_eq transactions.new q
        ≡ (if q == pid then None else get nat_eq transactions.old q) }
    ensures told { told result ≡ list_told (get nat_eq transactions.old pid) }
{
    match transactions.remove(&pid.0) {
        Some(Transaction::Live(calls)) => {
            let entries = calls.into_entries();
            if entries.is_empty() {
                return None;
            }
            Some(Record::Transaction(entries))
        }
        Some(Transaction::Doomed) => None,
        None => None,
    }
}

// These processes' transactions are doomed, where they live.
fn doom_all(transactions: &mut Transactions, doomed: &[Pid])
    ensures { (q : ℕ) → get nat_eq transactions.new q
        ≡ (if is_in q doomed.now then in_place Doomed (get nat_eq transactions.old q)
        else get nat_eq transactions.old q) }
{
    for pid in doomed {
        set(transactions, *pid, Transaction::Doomed);
    }
}

impl Recorder {
    /// Of a history with no entry. It takes no memory.
    pub fn new(heap: Heap) -> Recorder
        ensures { (m : Moment) → ((pid : ℕ) → m.phase pid ≡ idle) → Follows m result }
    {
        Recorder {
            heap,
            transactions: HashMap::new(heap),
        }
    }

    /// What is known of a process.
    pub fn standing(&self, pid: Pid) -> Standing
        ensures { (m : Moment) → Follows m self.now → result ≡ standing_of (m.phase pid) }
    {
        kept_standing(&self.transactions, pid)
    }

    /// Of how many processes it is known that they are in a transaction. Contracts do not know it.
    pub fn followed(&self) -> usize {
        self.transactions.len()
    }

    /// Asks for the memory that [`Recorder::note`] needs for the entry of this operation. Nothing is
    /// asked for ends and aborts, for calls that only look, for plain calls, and for begins in a
    /// transaction. Refused memory changes nothing that is kept.
    pub fn reserve(&mut self, pid: Pid, op: &Op) -> Result<(), AllocError>
        ensures follows { (m : Moment) → Follows m self.old → Follows m self.new }
        ensures ok { OnOk result (HasRoom self.new pid op.now) }
        ensures succeeds { HasRoom self.old pid op.now → IsOk result }
    {
        match op {
            Op::Begin(_) => reserve_begin(&mut self.transactions, pid),
            Op::Call(call) => {
                if only_looks(call) {
                    return Ok(());
                }
                reserve_call(&mut self.transactions, pid)
            }
            Op::End => Ok(()),
            Op::Abort { no_restart: _ } => Ok(()),
        }
    }

    // Notes what an entry says of its own process. `copy` is a copy of it, but for whom it doomed, where
    // it can have changed the state. Without that one nothing has changed.
    fn note_own(&mut self, copy: Option<Entry>, entry: &Entry) -> Result<Option<Record>, AllocError>
        requires room { HasRoom self.old entry.now.pid entry.now.op }
        requires copy { IfSome copy (λ copy. copy ≡ without_dooms entry.now) }
        ensures kept { OnOk result ((q : ℕ) → get nat_eq self.new.transactions q
            ≡ (if q == entry.now.pid
            then own_kept (without_dooms entry.now) entry.now.reply (get nat_eq self.old.transactions q)
            else get nat_eq self.old.transactions q)) }
        ensures told { IfOk result (λ made. told made
            ≡ own_told (without_dooms entry.now) entry.now.reply
            (get nat_eq self.old.transactions entry.now.pid)) }
        ensures err { OnErr result (self.new ≡ self.old) }
    {
        let pid = entry.pid;
        match &entry.reply {
            Reply::Answer(_) => {
                if !is_change(&entry.op, &entry.reply) {
                    return Ok(None);
                }
                match copy {
                    Some(copy) => Ok(note_call(&mut self.transactions, copy)),
                    None => Err(AllocError),
                }
            }
            Reply::Begun => {
                if matches!(entry.op, Op::Begin(_)) {
                    begin(&mut self.transactions, self.heap, pid);
                }
                Ok(None)
            }
            Reply::Committed => Ok(finish(&mut self.transactions, pid)),
            Reply::GivenUp { restarted } => {
                settle(&mut self.transactions, self.heap, pid, *restarted);
                Ok(None)
            }
            Reply::Aborted { why: _, restarted } => {
                settle(&mut self.transactions, self.heap, pid, *restarted);
                Ok(None)
            }
            _ => Ok(None),
        }
    }

    /// Notes an entry. It gives the record that the entry completes, if it does: that of an executed
    /// plain call, or of a transaction that it commits. `op` is a copy of the entry's operation, which
    /// is needed of a changing call alone. Memory is taken only for copies of that call's answer and
    /// numbers: none where these are few, or shared. Where it is refused, or the copy is missing,
    /// nothing has changed, and the entry is not noted.
    pub fn note(&mut self, op: Option<Op>, entry: &Entry) -> Result<Option<Record>, AllocError>
        requires room { HasRoom self.old entry.now.pid entry.now.op }
        requires copy { IfSome op (λ op. op ≡ entry.now.op) }
        ensures follows { OnOk result ((m : Moment) → Follows m self.old
            → suits (status m entry.now.pid) entry.now.op entry.now.reply ≡ true
            → Follows (next m entry.now) self.new) }
        ensures record { IfOk result (λ made. (m : Moment) → Follows m self.old
            → suits (status m entry.now.pid) entry.now.op entry.now.reply ≡ true
            → Tell (as_record (added m entry.now)) (told made)) }
        ensures err { OnErr result (self.new ≡ self.old) }
    {
        let copy = copied(self.heap, op, entry);
        let record = self.note_own(copy, entry)?;
        doom_all(&mut self.transactions, entry.doomed.as_slice());
        Ok(record)
    }
}
