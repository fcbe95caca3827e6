// The processes by which requests step, beside the first ones.
ghost use Rattle.std.specs.Prelude.{◌≡◌, ◌+◌, ◌<◌, IfSome, Some, OnOk};
ghost use Rattle.model.specs.FiniteMap as map;
ghost use Rattle.mount_tables.specs.Rows.{replaced};
ghost use Rattle.mount_tables.specs.Processes.{HasFree, fits, held, is_fit, let_go};
ghost use Rattle.mount_tables.specs.declared.processes.Role.TheVariants.{Idle};
ghost use Rattle.std.specs.Prelude.{true};

use crate::by_number::ByNumber;
use crate::hints::Hints;
use heap::Heap;
use ids::{DESCRIPTORS, Pid};
use std::alloc::AllocError;
use std::marker::Model;

// How many priorities there are.
const LEVELS: usize = 8;

/// What a process is for.
#[derive(Clone, Copy, Debug)]
pub enum Role {
    /// It has no descriptor and waits for a transaction of this priority.
    Idle(u8),
    /// It may have files of the plain tree open, so many now.
    Holder(usize),
    /// It steps in this view.
    Of(u64),
}

/// The processes that were made for requests, by their numbers, and what each is for.
pub struct Processes {
    heap: Heap,
    roles: ByNumber<Role>,
    // Those that wait, by their priorities.
    idle: Vec<Hints, Heap>,
    // Those of the plain tree that have a descriptor free.
    free: Hints,
    // How many descriptors a process may have, as one with a free one was last looked for.
    most: usize,
}

impl Drop for Processes {
    fn drop(self) {
        let Processes {
            heap: _,
            roles: _,
            idle: _,
            free: _,
            most: _,
        } = self;
    }
}

impl Model for Processes {
    ghost use Rattle.mount_tables.specs.Processes.{Roles, roles_code};

    ghost Value = { Roles };

    ghost coded = { roles_code };

    ghost view = { λ p. record {
      roles = p.roles.rows;
      room = p.roles.room;
    } };
}

/// The process of a priority that was made at the start. It never has a descriptor: others are forked
/// from it, and the one of priority 0 makes the plain calls on paths.
pub fn first_process(level: u8) -> Pid
    ensures { result ≡ level + 1 }
{
    Pid(u32::from(level) + 1)
}

// What a process is looked for.
#[derive(Clone, Copy, Debug)]
enum Wanted {
    // To wait for a transaction of this priority.
    Waiting(u8),
    // To open a file of the plain tree, where a process may have so many descriptors.
    Holding(usize),
}

fn fits(role: Role, wanted: Wanted) -> bool
    ensures { result ≡ fits role wanted }
{
    match (role, wanted) {
        (Role::Idle(level), Wanted::Waiting(sought)) => level == sought,
        (Role::Holder(used), Wanted::Holding(most)) => used < most,
        _ => false,
    }
}

// What a process is for.
fn role_in(roles: &ByNumber<Role>, pid: Pid) -> Option<Role>
    ensures { result ≡ map.get roles.now.rows pid }
{
    roles.get(u64::from(pid.0)).copied()
}

// Whether a process is what is looked for.
fn is_fit(roles: &ByNumber<Role>, pid: Pid, wanted: Wanted) -> bool
    ensures { result ≡ is_fit (map.get roles.now.rows pid) wanted }
{
    match role_in(roles, pid) {
        Some(role) => fits(role, wanted),
        None => false,
    }
}

impl ByNumber<Role> {
    // Some process that is what is looked for, among all of them.
    fn some_fit(&self, wanted: Wanted) -> Option<Pid>
        ensures { IfSome result (λ pid. is_fit (map.get self.now.rows pid) wanted ≡ true) }
    {
        for number in self.rows.keys() {
            let Ok(number) = u32::try_from(*number) else {
                continue;
            };
            if is_fit(self, Pid(number), wanted) {
                return Some(Pid(number));
            }
        }
        None
    }
}

// The last hint that is still what is looked for. Those behind it go. Where a hint was missed and
// none is left all processes are looked at.
fn next_fit(hints: &mut Hints, roles: &ByNumber<Role>, wanted: Wanted) -> Option<Pid>
    ensures { IfSome result (λ pid. is_fit (map.get roles.now.rows pid) wanted ≡ true) }
{
    while let Some(pid) = hints.pids.last().copied() {
        if is_fit(roles, pid, wanted) {
            return Some(pid);
        }
        let _stale = hints.pids.pop();
    }
    if !hints.has_missed {
        return None;
    }
    let found = roles.some_fit(wanted);
    hints.has_missed = found.is_some();
    found
}

// A process may be used for what it is for.
fn note(idle: &mut Vec<Hints, Heap>, free: &mut Hints, pid: Pid, role: Role) {
    match role {
        Role::Idle(level) => {
            let index = usize::from(level);
            if index < idle.len() {
                let hints = &mut idle[index];
                hints.push(pid);
            }
        }
        Role::Holder(_) => free.push(pid),
        Role::Of(_) => {}
    }
}

// A process is used for something else now.
fn forget(idle: &mut Vec<Hints, Heap>, free: &mut Hints, pid: Pid, role: Role) {
    match role {
        Role::Idle(level) => {
            let index = usize::from(level);
            if index < idle.len() {
                let hints = &mut idle[index];
                hints.forget(pid);
            }
        }
        Role::Holder(_) => free.forget(pid),
        Role::Of(_) => {}
    }
}

// Makes room for so many processes of each priority.
fn reserve_idle(idle: &mut Vec<Hints, Heap>, heap: Heap, count: usize) -> Result<(), AllocError> {
    while idle.len() < LEVELS {
        idle.push(Hints::new(heap))?;
    }
    for level in 0..idle.len() {
        let hints = &mut idle[level];
        hints.reserve(count)?;
    }
    Ok(())
}

impl Processes {
    /// No process. It takes no memory.
    pub fn new(heap: Heap) -> Processes
        ensures { result.roles ≡ map.empty }
    {
        Processes {
            heap,
            roles: ByNumber::new(heap),
            idle: Vec::new(heap),
            free: Hints::new(heap),
            most: DESCRIPTORS,
        }
    }

    /// What a process is for.
    pub fn role(&self, pid: Pid) -> Option<Role>
        ensures { result ≡ map.get self.now.roles pid }
    {
        role_in(&self.roles, pid)
    }

    /// Makes room for one process more. Nothing changes.
    pub fn reserve(&mut self) -> Result<(), AllocError>
        ensures roles { self.new.roles ≡ self.old.roles }
        ensures ok { OnOk result (0 < self.new.room) }
    {
        self.roles.reserve()?;
        let count = self.roles.len().saturating_add(1);
        reserve_idle(&mut self.idle, self.heap, count)?;
        self.free.reserve(count)
    }

    /// One process more is there, for this. It takes no memory.
    pub fn add(&mut self, pid: Pid, role: Role)
        requires { 0 < self.old.room }
        ensures { self.new.roles ≡ map.insert self.old.roles pid role }
    {
        let added: Result<_, _> = self.roles.insert(u64::from(pid.0), role);
        added.unwrap();
        note(&mut self.idle, &mut self.free, pid, role);
    }

    /// A process, if it is there, is for this from now on. It takes no memory.
    pub fn assign(&mut self, pid: Pid, role: Role)
        ensures roles { self.new.roles
            ≡ replaced pid role (map.get self.old.roles pid) self.old.roles }
        ensures room { self.new.room ≡ self.old.room }
    {
        let Some(former) = self.role(pid) else {
            return;
        };
        forget(&mut self.idle, &mut self.free, pid, former);
        self.roles.set(u64::from(pid.0), role);
        note(&mut self.idle, &mut self.free, pid, role);
    }

    /// A process that waits for a transaction of this priority. It waits on until it is assigned.
    pub fn take(&mut self, level: u8) -> Option<Pid>
        ensures found { IfSome result (λ pid. map.get self.old.roles pid ≡ Some (Idle level)) }
        ensures roles { self.new.roles ≡ self.old.roles }
        ensures room { self.new.room ≡ self.old.room }
    {
        let index = usize::from(level);
        if index >= self.idle.len() {
            return self.roles.some_fit(Wanted::Waiting(level));
        }
        let hints = &mut self.idle[index];
        next_fit(hints, &self.roles, Wanted::Waiting(level))
    }

    /// A process of the plain tree that has a descriptor free, where each may have so many.
    pub fn free_holder(&mut self, most: usize) -> Option<Pid>
        ensures found { IfSome result (λ pid. HasFree most (map.get self.old.roles pid)) }
        ensures roles { self.new.roles ≡ self.old.roles }
        ensures room { self.new.room ≡ self.old.room }
    {
        self.most = most;
        next_fit(&mut self.free, &self.roles, Wanted::Holding(most))
    }

    /// A process of the plain tree has one file more open. It takes no memory.
    pub fn hold(&mut self, pid: Pid)
        ensures roles { self.new.roles ≡ held pid (map.get self.old.roles pid) self.old.roles }
        ensures room { self.new.room ≡ self.old.room }
    {
        let Some(Role::Holder(used)) = self.role(pid) else {
            return;
        };
        let more = used.saturating_add(1);
        self.roles.set(u64::from(pid.0), Role::Holder(more));
        if more >= self.most {
            self.free.forget(pid);
        }
    }

    /// Or one less. It takes no memory.
    pub fn release(&mut self, pid: Pid)
        ensures roles { self.new.roles ≡ let_go pid (map.get self.old.roles pid) self.old.roles }
        ensures room { self.new.room ≡ self.old.room }
    {
        let Some(Role::Holder(used)) = self.role(pid) else {
            return;
        };
        let fewer = used.saturating_sub(1);
        self.roles.set(u64::from(pid.0), Role::Holder(fewer));
        if used >= self.most && fewer < self.most {
            self.free.push(pid);
        }
    }
}
