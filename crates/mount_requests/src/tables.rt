// What is known of a mounted tree beside its kernel, and where its nodes are.
ghost use Rattle.std.specs.Prelude.{◌≡◌, IfOk};
ghost use Rattle.model.specs.FiniteMap as map;
ghost use Rattle.mount_requests.specs.Found.{fd_of, file_by, handle_at, handle_of, inode_of, kind_of};
ghost use Rattle.mount_requests.specs.Found.{path_to, stepper_at, stepper_by, stepper_in, stepper_of};
ghost use Rattle.mount_requests.specs.Seen.{IsUnknown, seen};

use crate::failure::Failure;
use fuse::{Errno, Time};
use heap::Heap;
use ids::{Bytes, Fd, Kind, Num, Pid};
use mount_tables::{
    Folders, OpenFile, OpenFiles, PLAIN, Processes, State, Views, first_process, view_of,
};
use nodes::Nodes;
use std::alloc::AllocError;
use view_times::ViewTimes;

// The time before any request.
const START: Time = Time {
    seconds: 0,
    nanoseconds: 0,
};

/// What is known of nodes, transactions, open files and directories, times and processes.
pub struct Tables {
    /// Where memory comes from.
    pub heap: Heap,
    /// The nodes.
    pub nodes: Nodes,
    /// The transactions that are mounted.
    pub views: Views,
    /// The files that are open.
    pub files: OpenFiles,
    /// The directories that are open.
    pub folders: Folders,
    /// The times of all objects, as each view sees them.
    pub times: ViewTimes,
    /// When the request is served.
    pub time: Time,
    /// The processes by which requests step.
    pub processes: Processes,
}

impl Drop for Tables {
    fn drop(self) {
        let Tables {
            heap: _,
            nodes: _,
            views: _,
            files: _,
            folders: _,
            times: _,
            time: _,
            processes: _,
        } = self;
    }
}

/// A view, and the process that steps there.
#[derive(Clone, Copy, Debug)]
pub struct Stepper {
    /// The view.
    pub view: u64,
    /// The process.
    pub pid: Pid,
}

// What the process of a view may do: nothing after an abort, and nothing where the transaction is
// over.
fn stepper_by(view: u64, pid: Pid, state: &State) -> Result<Stepper, Failure>
    ensures { result ≡ stepper_by view pid state.now }
{
    match state {
        State::Live => Ok(Stepper { view, pid }),
        State::Aborted(_) => Err(Failure::Error(Errno::ECANCELED)),
        State::Committed | State::GivenUp => Err(Failure::Error(Errno::ENOENT)),
    }
}

/// The process of a view of a transaction.
pub fn stepper_of(views: &Views, view: u64) -> Result<Stepper, Failure>
    ensures { result ≡ stepper_of view (map.get views.now.each view) }
{
    match views.get(view) {
        Some(found) => stepper_by(view, found.pid, &found.state),
        None => Err(Failure::Error(Errno::ENOENT)),
    }
}

impl Tables {
    /// Nothing is known. It takes no memory.
    pub fn new(heap: Heap) -> Tables
        ensures { IsUnknown (seen result) }
    {
        Tables {
            heap,
            nodes: Nodes::new(heap),
            views: Views::new(heap),
            files: OpenFiles::new(heap),
            folders: Folders::new(heap),
            times: ViewTimes::new(heap),
            time: START,
            processes: Processes::new(heap),
        }
    }

    // The process of a view, or the first one for the plain tree.
    fn stepper_in(&self, view: u64) -> Result<Stepper, Failure>
        ensures { result ≡ stepper_in (seen self.now) view }
    {
        if view == PLAIN {
            return Ok(Stepper {
                view: PLAIN,
                pid: first_process(0),
            });
        }
        stepper_of(&self.views, view)
    }

    /// The view in which a node is, and the process that steps there.
    pub fn stepper_at(&self, node: u64) -> Result<Stepper, Failure>
        ensures { result ≡ stepper_at (seen self.now) node }
    {
        match view_of(self.nodes.root_of(node)) {
            Some(view) => self.stepper_in(view),
            None => Err(Failure::Error(Errno::ESTALE)),
        }
    }

    /// The path of a node from its root. A node that is not attached has none, nor has one below a
    /// directory that was forgotten, nor one whose object is gone and has given its number to another.
    pub fn path_to(&self, node: u64) -> Result<Option<Bytes>, AllocError>
        ensures { IfOk result (λ path. path ≡ path_to (seen self.now) node) }
    {
        if !self.nodes.is_current(node) {
            return Ok(None);
        }
        match self.nodes.path(self.heap, node)? {
            Some((root, path)) => Ok(if root == self.nodes.root_of(node) {
                Some(path)
            } else {
                None
            }),
            None => Ok(None),
        }
    }

    /// The object of a node. That of a root is the first of all.
    pub fn inode_of(&self, node: u64) -> Num
        ensures { result ≡ inode_of (seen self.now) node }
    {
        match self.nodes.get(node) {
            Some(found) => found.inode,
            None => Num(0),
        }
    }

    /// What the object of a node is.
    pub fn kind_of(&self, node: u64) -> Kind
        ensures { result ≡ kind_of (seen self.now) node }
    {
        match self.nodes.get(node) {
            Some(found) => found.kind,
            None => Kind::Dir,
        }
    }

    /// The number under which the object of a node is open in a view. One that is gone has none.
    pub fn handle_at(&self, view: u64, node: u64) -> Option<u64>
        ensures { result ≡ handle_at (seen self.now) view node }
    {
        if self.nodes.is_current(node) {
            self.files.handle_of(view, self.inode_of(node))
        } else {
            None
        }
    }

    /// The open file of this number, where this process has it open.
    pub fn open_file(&self, handle: u64, pid: Pid) -> Result<OpenFile, Failure>
        ensures { result ≡ file_by (seen self.now) pid handle }
    {
        match self.files.get(handle) {
            Some(file) => {
                if file.pid == pid {
                    Ok(file)
                } else {
                    Err(Failure::Error(Errno::EBADF))
                }
            }
            None => Err(Failure::Error(Errno::EBADF)),
        }
    }

    /// The descriptor of a node's object in a view, where this process has it open.
    pub fn fd_of(&self, pid: Pid, view: u64, node: u64) -> Option<Fd>
        ensures { result ≡ fd_of (seen self.now) pid view node }
    {
        let handle = self.handle_at(view, node)?;
        let file = self.files.get(handle)?;
        if file.pid == pid { Some(file.fd) } else { None }
    }
}
