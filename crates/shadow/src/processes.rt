// Processes that are made, and that end.
ghost use Rattle.std.specs.Prelude.{◌≡◌, ◌<◌, ℕ, suc, [], List, IfOk, OnErr, OnOk};
ghost use Rattle.ids.specs.declared.limits.TheConstants.{MAX_PROCESSES};
ghost use Rattle.model.specs.Changes.{End_process, New_process, applied, tidy};
ghost use Rattle.call_laws.specs.Fits.{Fits};
ghost use Rattle.shadow.specs.Claims.{KeepsSame};

use crate::closing::close_all;
use crate::reslotting::{lay_table, let_all_go};
use crate::stable::{Process, Stable};
use fdtable::{FdTable, SlotPatch, SlotRoom};
use ids::Pid;
use std::alloc::AllocError;

impl Stable {
    /// One process more, the child of this one: it has the next number, which is answered, its
    /// parent's open descriptors and its priority (POSIX.1-2017, fork). Refused memory changes
    /// nothing.
    pub fn fork(&mut self, parent: Pid) -> Result<Pid, AllocError>
        requires fits { (pipes : List ℕ)
            × Fits [] self.old.state (New_process (suc self.old.state.made) parent pipes) }
        requires few { self.old.state.made < MAX_PROCESSES }
        ensures child { IfOk result (λ child. child ≡ suc self.old.state.made) }
        ensures state { OnOk result ((pipes : List ℕ) → self.new.state
            ≡ applied [] (New_process (suc self.old.state.made) parent pipes) self.old.state) }
        ensures kept { KeepsSame self.old self.new }
        ensures err { OnErr result (self.new.state ≡ self.old.state) }
    {
        let heap = self.heap();
        let none = FdTable::new(heap);
        let parents = self.table(parent, &none);
        let mut opened = SlotPatch::opening(heap, parents)?;
        let room = SlotRoom::like(heap, parents)?;
        let priority = self.priority_of(parent);
        let child = Pid(self.made() as u32 + 1);
        let table = FdTable::new(heap);
        self.processes.push(Process { table, priority })?;
        lay_table(
            &mut self.store,
            &mut self.processes,
            child,
            &mut opened,
            room,
        );
        Ok(child)
    }

    /// A process is gone, and its descriptors with it; what nothing leads to then is freed
    /// (POSIX.1-2017, _exit). It takes no memory.
    pub fn exit(&mut self, pid: Pid)
        requires { (pipes : List ℕ) × Fits [] self.old.state (End_process pid pipes) }
        ensures state { (pipes : List ℕ)
            → self.new.state ≡ tidy (applied [] (End_process pid pipes) self.old.state) }
        ensures kept { KeepsSame self.old self.new }
    {
        let table = self.processes.remove(pid);
        let_all_go(&mut self.store, &table);
        close_all(&mut self.store, &table);
    }
}
