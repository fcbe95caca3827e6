// The transactions that are mounted.
ghost use Rattle.std.specs.Prelude.{◌≡◌, ◌+◌, ◌<◌, IfOk, OnErr, OnOk, None, option_copied};
ghost use Rattle.model.specs.FiniteMap as map;
ghost use Rattle.mount_tables.specs.Names.{numbers_in};
ghost use Rattle.mount_tables.specs.Views.{aborted, live_process, standing, started, unnamed, view_of_process};
ghost use Rattle.mount_tables.specs.declared.views.State.TheVariants.{GivenUp};

use crate::by_number::ByNumber;
use crate::name_index::NameIndex;
use heap::Heap;
use ids::{Pid, Why};
use std::alloc::AllocError;
use std::collections::BTreeMap;
use std::marker::Model;

/// How a transaction stands.
#[derive(Debug)]
pub enum State {
    /// It goes on.
    Live,
    /// It was aborted, for this. No step of its process may be made, since it would be a plain one.
    Aborted(Why),
    /// It was committed.
    Committed,
    /// It was given up, or has not begun. Nothing is open in it.
    GivenUp,
}

impl Drop for State {
    fn drop(self) {
        match self {
            State::Live => {}
            State::Aborted(_) => {}
            State::Committed => {}
            State::GivenUp => {}
        }
    }
}

/// A transaction, and the tree as it sees it.
#[derive(Debug)]
pub struct View {
    /// The process that steps in it.
    pub pid: Pid,
    /// The priority of that.
    pub level: u8,
    /// How it stands.
    pub state: State,
}

impl Drop for View {
    fn drop(self) {
        let View {
            pid: _,
            level: _,
            state: _,
        } = self;
    }
}

/// All of them, by their numbers, from 1, and the numbers by their names in the directory of
/// transactions. Numbers are not used again.
pub struct Views {
    each: ByNumber<View>,
    numbers: NameIndex,
    next: u64,
}

impl Drop for Views {
    fn drop(self) {
        let Views {
            each: _,
            numbers: _,
            next: _,
        } = self;
    }
}

impl Model for Views {
    ghost use Rattle.mount_tables.specs.Files.{IsBelow};
    ghost use Rattle.mount_tables.specs.Views.{Mounted, mounted_code};
    ghost use Rattle.mount_tables.specs.contracts.views.View.{the_row};

    ghost Value = { Mounted };

    ghost coded = { mounted_code the_row.coded };

    ghost view = { λ v. record {
      each = v.each.rows;
      numbers = v.numbers;
      next = v.next;
    } };

    ghost invariant = { λ v. IsBelow v.next v.each.rows };
}

// The process and the priority of a transaction that goes on.
fn live_in(each: &ByNumber<View>, number: u64) -> Option<(Pid, u8)>
    ensures { result ≡ live_process (map.get each.now.rows number) }
{
    let view = each.get(number)?;
    match &view.state {
        State::Live => Some((view.pid, view.level)),
        _ => None,
    }
}

impl Views {
    /// No transaction. It takes no memory.
    pub fn new(heap: Heap) -> Views
        ensures each { result.each ≡ map.empty }
        ensures numbers { result.numbers ≡ map.empty }
        ensures next { result.next ≡ 1 }
    {
        Views {
            each: ByNumber::new(heap),
            numbers: NameIndex::new(heap),
            next: 1,
        }
    }

    /// The view of a number.
    pub fn get(&self, number: u64) -> Option<&View>
        ensures { option_copied result ≡ map.get self.now.each number }
    {
        self.each.get(number)
    }

    /// The number of the view of a name.
    pub fn named(&self, name: &[u8]) -> Option<u64>
        ensures { result ≡ map.get self.now.numbers name.now }
    {
        self.numbers.get(name)
    }

    /// The names of all of them, in the order of their bytes, with their numbers.
    pub fn numbers(&self) -> &BTreeMap<Vec<u8, Heap>, u64, Heap>
        ensures { numbers_in result.now ≡ self.now.numbers }
    {
        self.numbers.numbers()
    }

    /// A transaction is to begin, under this name. It gives the view's number. Refused memory changes
    /// nothing, and where no number is left it is refused too.
    pub fn add(&mut self, name: Vec<u8, Heap>, pid: Pid, level: u8) -> Result<u64, AllocError>
        ensures number { IfOk result (λ number. number ≡ self.old.next) }
        ensures each { OnOk result (self.new.each
            ≡ map.insert self.old.each self.old.next (view_of_process pid level GivenUp)) }
        ensures numbers { OnOk result (self.new.numbers
            ≡ map.insert self.old.numbers name.entry.items self.old.next) }
        ensures next { OnOk result (self.new.next ≡ self.old.next + 1) }
        ensures fresh { map.get self.old.each self.old.next ≡ None }
        ensures err { OnErr result (self.new ≡ self.old) }
    {
        let number = self.next;
        if number == u64::MAX {
            return Err(AllocError);
        }
        self.each.reserve()?;
        self.numbers.insert(name, number)?;
        let view = View {
            pid,
            level,
            state: State::GivenUp,
        };
        let added: Result<_, _> = self.each.insert(number, view);
        added.unwrap();
        self.next = number + 1;
        Ok(number)
    }

    /// The view of a number, if there is one, stands like this from now on. It takes no memory.
    pub fn set(&mut self, number: u64, state: State)
        ensures each { self.new.each
            ≡ standing state number (map.get self.old.each number) self.old.each }
        ensures numbers { self.new.numbers ≡ self.old.numbers }
        ensures next { self.new.next ≡ self.old.next }
    {
        if let Some(view) = self.each.get(number) {
            let pid = view.pid;
            let level = view.level;
            self.each.set(number, View { pid, level, state });
        }
    }

    /// The transaction of a number has begun, by this process. It takes no memory.
    pub fn start(&mut self, number: u64, pid: Pid)
        ensures each { self.new.each
            ≡ started pid number (map.get self.old.each number) self.old.each }
        ensures numbers { self.new.numbers ≡ self.old.numbers }
        ensures next { self.new.next ≡ self.old.next }
    {
        if let Some(view) = self.each.get(number) {
            let level = view.level;
            let state = State::Live;
            self.each.set(number, View { pid, level, state });
        }
    }

    /// The transaction of a number is aborted, if it goes on. It takes no memory.
    pub fn abort(&mut self, number: u64, why: Why)
        ensures each { self.new.each
            ≡ aborted why number (map.get self.old.each number) self.old.each }
        ensures numbers { self.new.numbers ≡ self.old.numbers }
        ensures next { self.new.next ≡ self.old.next }
    {
        if let Some((pid, level)) = live_in(&self.each, number) {
            let state = State::Aborted(why);
            self.each.set(number, View { pid, level, state });
        }
    }

    /// The view of a name is taken away, and the name with it. It gives the view's number. It takes
    /// no memory.
    pub fn remove(&mut self, name: &[u8]) -> Option<u64>
        ensures number { result ≡ map.get self.old.numbers name.now }
        ensures each { self.new.each
            ≡ unnamed (map.get self.old.numbers name.now) self.old.each }
        ensures numbers { self.new.numbers ≡ map.remove self.old.numbers name.now }
        ensures next { self.new.next ≡ self.old.next }
    {
        let number = self.numbers.remove(name)?;
        drop(self.each.remove(number));
        Some(number)
    }
}
