// Which process serves a request.
ghost use Rattle.std.specs.Prelude.{◌≡◌, ◌+◌, ◌<◌, ◌≤◌, IfErr, IfOk, None, Ok, Some, option_map};
ghost use Rattle.model.specs.FiniteMap as map;
ghost use Rattle.course.specs.Course.{Ran};
ghost use Rattle.course.specs.Courses.{forking};
ghost use Rattle.course.specs.Hands.{IsChild, Stand};
ghost use Rattle.mount_requests.specs.Seen.{seen};
ghost use Rattle.mounted.specs.Controls.{IsTaken, with_roles};
ghost use Rattle.mounted.specs.Served.{IsHolder, IsLacking, IsReady, Lacks, chosen, is_holder};
ghost use Rattle.mounted.specs.Served.{most_descriptors, plain_file, process_by};
ghost use Rattle.mounted.specs.Server.{HasGrown};
ghost use Rattle.mounted.specs.Sound.{IsFor, RolesStaySound, StaysSound};

use crate::serving::Serving;
use course::{Hand, fork};
use fuse::Operation;
use ids::{DESCRIPTORS, Pid};
use machine::Machine;
use mount_requests::{Failure, Tables};
use mount_tables::{OpenFile, PLAIN, Role, first_process};

// Whether a process may have files of the plain tree open.
pub(crate) fn is_holder(role: Option<Role>) -> bool
    ensures { result ≡ is_holder role }
{
    match role {
        Some(Role::Holder(_)) => true,
        _ => false,
    }
}

// The process that has a file of the plain tree open, and else the first one.
fn process_by(tables: &Tables, file: Option<OpenFile>) -> Pid
    ensures { result ≡ process_by (seen tables.now) file }
{
    match file {
        Some(file) => {
            if file.view == PLAIN && is_holder(tables.processes.role(file.pid)) {
                file.pid
            } else {
                first_process(0)
            }
        }
        None => first_process(0),
    }
}

// The file of a node, where it is open in the plain tree.
fn plain_file(tables: &Tables, node: u64) -> Option<OpenFile>
    ensures { result ≡ plain_file (seen tables.now) node }
{
    let handle = tables.handle_at(PLAIN, node)?;
    tables.files.get(handle)
}

// The process by which an open of the plain tree steps, where the file is open already.
fn opener(tables: &Tables, node: u64) -> Option<Pid>
    ensures { result ≡ option_map (λ f. process_by (seen tables.now) (Some f))
        (plain_file (seen tables.now) node) }
{
    match plain_file(tables, node) {
        Some(file) => Some(process_by(tables, Some(file))),
        None => None,
    }
}

// The process by which a request of the plain tree steps. None where it is any that has a descriptor
// free.
fn chosen(tables: &Tables, node: u64, operation: &Operation) -> Option<Pid>
    ensures { result ≡ chosen (seen tables.now) node operation.now }
{
    match operation {
        Operation::Open { flags: _, how: _ } => opener(tables, node),
        Operation::Create {
            name: _,
            flags: _,
            mode: _,
            how: _,
        }
        | Operation::MkNod { name: _, mode: _ } => None,
        Operation::GetAttr { handle: _ } | Operation::SetAttr { changes: _ } => {
            Some(process_by(tables, plain_file(tables, node)))
        }
        Operation::Read {
            handle,
            offset: _,
            size: _,
            open_flags: _,
        }
        | Operation::Write {
            handle,
            offset: _,
            write_flags: _,
            open_flags: _,
            bytes: _,
        }
        | Operation::Lseek {
            handle,
            offset: _,
            whence: _,
        }
        | Operation::Fallocate {
            handle,
            offset: _,
            length: _,
            mode: _,
        }
        | Operation::CopyFileRange {
            handle,
            offset: _,
            to_node: _,
            to_handle: _,
            to_offset: _,
            length: _,
            flags: _,
        } => Some(process_by(tables, tables.files.get(*handle))),
        _ => Some(first_process(0)),
    }
}

// How many descriptors a process of a kernel may have.
fn most_descriptors<K: Machine>(hand: &Hand<K>) -> usize
    ensures { result ≡ most_descriptors hand.now.shown.log }
{
    (hand.history().bounds().descriptors as usize).min(DESCRIPTORS)
}

impl<K: Machine> Serving<K> {
    // The first process of a priority makes one for this role, for which there is room.
    fn make_process(&mut self, level: u8, role: Role) -> Result<Pid, Failure>
        requires room { 0 < self.old.tables.processes.room }
        requires level { level ≤ 7 }
        requires role { IsFor level role }
        ensures made { IfOk result (λ pid.
            Ran self.old.hand.shown (forking (level + 1)) (Ok pid) self.new.hand.shown) }
        ensures child { IfOk result (λ pid.
            IsChild self.old.hand.shown (level + 1) pid self.new.hand.shown) }
        ensures roles { IfOk result (λ pid. (seen self.new.tables).roles
            ≡ map.insert (seen self.old.tables).roles pid role) }
        ensures rest { seen self.new.tables
            ≡ with_roles (seen self.old.tables) (seen self.new.tables).roles }
        ensures lacking { IfErr result (λ e. Lacks (level + 1) (seen self.old.tables)
            (seen self.new.tables) self.old.hand.shown self.new.hand.shown e) }
        ensures stand { Stand self.old.hand.shown self.new.hand.shown }
        ensures grows { HasGrown self.old.hand.shown self.new.hand.shown }
        ensures sound { RolesStaySound (seen self.old.tables).roles self.old.hand.shown
            (seen self.new.tables).roles self.new.hand.shown }
    {
        self.hand.bind(first_process(level));
        let made = fork(&mut self.hand);
        // For the proof: since then the history has grown, and no process has ended.
        let _history = self.hand.history();
        match made {
            Ok(pid) => {
                self.tables.processes.add(pid, role);
                Ok(pid)
            }
            Err(fault) => Err(Failure::from(fault)),
        }
    }

    // A process of the plain tree that has a descriptor free.
    fn holder(&mut self) -> Result<Pid, Failure>
        ensures ready { IfOk result (λ pid. IsHolder (seen self.old.tables)
            self.old.hand.shown pid (seen self.new.tables) self.new.hand.shown) }
        ensures lacking { IfErr result (λ e. IsLacking (seen self.old.tables) (seen self.new.tables)
            self.old.hand.shown self.new.hand.shown e) }
        ensures stand { Stand self.old.hand.shown self.new.hand.shown }
        ensures grows { HasGrown self.old.hand.shown self.new.hand.shown }
        ensures sound { StaysSound (seen self.old.tables) self.old.hand.shown
            (seen self.new.tables) self.new.hand.shown }
    {
        self.tables.processes.reserve()?;
        let most = most_descriptors(&self.hand);
        match self.tables.processes.free_holder(most) {
            Some(pid) => Ok(pid),
            None => self.make_process(0, Role::Holder(0)),
        }
    }

    // The process that serves a request of the plain tree.
    pub(crate) fn choose_plain(&mut self, node: u64, operation: &Operation) -> Result<Pid, Failure>
        ensures ready { IfOk result (λ pid. IsReady
            (chosen (seen self.old.tables) node operation.now) (seen self.old.tables)
            self.old.hand.shown pid (seen self.new.tables) self.new.hand.shown) }
        ensures lacking { IfErr result (λ e. (chosen (seen self.old.tables) node operation.now ≡ None)
            × IsLacking (seen self.old.tables) (seen self.new.tables)
            self.old.hand.shown self.new.hand.shown e) }
        ensures stand { Stand self.old.hand.shown self.new.hand.shown }
        ensures grows { HasGrown self.old.hand.shown self.new.hand.shown }
        ensures sound { StaysSound (seen self.old.tables) self.old.hand.shown
            (seen self.new.tables) self.new.hand.shown }
    {
        match chosen(&self.tables, node, operation) {
            Some(pid) => Ok(pid),
            None => self.holder(),
        }
    }

    // A process of this priority without descriptors that waits for a transaction: one that does, or a
    // new one, for which there is room.
    pub(crate) fn take_idle(&mut self, level: u8) -> Result<Pid, Failure>
        requires room { 0 < self.old.tables.processes.room }
        requires level { level ≤ 7 }
        ensures taken { IfOk result (λ pid. IsTaken level (seen self.old.tables).roles
            self.old.hand.shown pid (seen self.new.tables).roles self.new.hand.shown) }
        ensures rest { seen self.new.tables
            ≡ with_roles (seen self.old.tables) (seen self.new.tables).roles }
        ensures lacking { IfErr result (λ e. Lacks (level + 1) (seen self.old.tables)
            (seen self.new.tables) self.old.hand.shown self.new.hand.shown e) }
        ensures stand { Stand self.old.hand.shown self.new.hand.shown }
        ensures grows { HasGrown self.old.hand.shown self.new.hand.shown }
        ensures sound { RolesStaySound (seen self.old.tables).roles self.old.hand.shown
            (seen self.new.tables).roles self.new.hand.shown }
    {
        match self.tables.processes.take(level) {
            Some(pid) => Ok(pid),
            None => self.make_process(level, Role::Idle(level)),
        }
    }
}
