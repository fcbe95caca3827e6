// Requests on open directories.
ghost use Rattle.std.specs.Prelude.{◌≡◌, ◌<◌, Err, IfErr, IfOk, IfSome, IsOk, OnErr, OnOk, Ok, Some};
ghost use Rattle.course.specs.Course.{Ran};
ghost use Rattle.course.specs.Hands.{bound};
ghost use Rattle.fuse.specs.declared.errno.Errno.TheVariants.{ENOMEM};
ghost use Rattle.mount_requests.specs.Answers.{IsPlanned};
ghost use Rattle.mount_requests.specs.Failures.{error};
ghost use Rattle.mount_requests.specs.Found.{folder_at};
ghost use Rattle.mount_requests.specs.Requests.{AnswersOpenDir, AnswersReadDir, ListsBy, directory_of};
ghost use Rattle.mount_requests.specs.Requests.{folder_of, is_stale, listed_by, lists};
ghost use Rattle.mount_requests.specs.Requests.{kept_names, planned_directory, with_folder};
ghost use Rattle.mount_requests.specs.Requests.{with_names};
ghost use Rattle.mount_requests.specs.Listed.{Lists};
ghost use Rattle.mount_requests.specs.Seen.{seen};

use crate::failure::Failure;
use crate::lists::{list_from, names_shown};
use crate::tables::Tables;
use course::{Fault, Hand, Twice, list_at};
use fuse::{Errno, Opened, Reply};
use heap::Heap;
use ids::{NameList, Num};
use machine::Machine;
use mount_tables::Folder;
use std::alloc::AllocError;

// A directory, by its path, if there is one, which is used twice.
#[derive(Drop)]
pub(crate) struct Directory {
    inode: Num,
    paths: Option<Twice>,
}

// An open directory as a request names it, and from where on it is listed.
#[derive(Clone, Copy)]
pub(crate) struct Wanted {
    pub(crate) handle: u64,
    pub(crate) offset: u64,
    pub(crate) size: u32,
}

// The names of a directory.
fn list_names<K: Machine>(
    hand: &mut Hand<K>,
    heap: Heap,
    directory: Directory,
) -> Result<NameList, Fault>
    requires { IfSome directory.paths (λ p. p.second ≡ p.first) }
    ensures bound { bound hand.new ≡ bound hand.old }
    ensures ran { Ran hand.old.shown (listed_by hand.old.pid directory) result hand.new.shown }
{
    let Directory { inode, paths } = directory;
    list_at(hand, heap, inode, paths)
}

// Whether the names of an open directory are taken anew: they were read since, and are read from the
// start again.
fn is_stale(folder: &Folder, offset: u64) -> bool
    ensures { result ≡ is_stale folder.now offset }
{
    folder.was_read && offset == 0
}

impl Tables {
    // A directory, as its names are taken.
    fn directory_of(&self, node: u64) -> Result<Directory, AllocError>
        ensures directory { IfOk result (λ d. d ≡ directory_of (seen self.now) node) }
        ensures same { IfOk result (λ d. IfSome d.paths (λ p. p.second ≡ p.first)) }
    {
        let paths = self.own_paths(node)?;
        Ok(Directory {
            inode: self.inode_of(node),
            paths,
        })
    }

    // The directory that is opened.
    fn plan_directory(&self, node: u64) -> Result<Directory, Failure>
        ensures plan { IsPlanned (planned_directory (seen self.now) node) result }
        ensures same { IfOk result (λ d. IfSome d.paths (λ p. p.second ≡ p.first)) }
    {
        self.stepper_at(node)?;
        let directory = self.directory_of(node)?;
        Ok(directory)
    }

    // Makes room for one open directory more.
    fn reserve_folder(&mut self) -> Result<(), AllocError>
        ensures seen { seen self.new ≡ seen self.old }
        ensures room { OnOk result (0 < self.new.folders.room) }
    {
        self.folders.reserve()
    }

    // Keeps a directory that was opened, with the names that its lists show, and gives its number.
    fn keep_folder(&mut self, node: u64, names: NameList) -> u64
        requires { 0 < self.old.folders.room }
        ensures handle { result ≡ (seen self.old).next_folder }
        ensures seen { seen self.new ≡ with_folder (seen self.old) node names }
    {
        self.folders.add(node, names)
    }

    // The names of an open directory were taken anew, and are read.
    fn renew_names(&mut self, node: u64, handle: u64, names: NameList)
        requires { IsOk (folder_of (seen self.old) node handle) }
        ensures { seen self.new ≡ with_names (seen self.old) node handle names }
    {
        self.folders.renew(handle, names);
    }

    // The names that are kept of an open directory are read.
    fn mark_names(&mut self, node: u64, handle: u64)
        requires { IsOk (folder_of (seen self.old) node handle) }
        ensures { seen self.new ≡ with_names (seen self.old) node handle
            (kept_names (folder_at (seen self.old) handle)) }
    {
        self.folders.mark(handle);
    }

    // Opens a directory, and takes its names.
    pub(crate) fn open_folder<K: Machine>(
        &mut self,
        hand: &mut Hand<K>,
        node: u64,
    ) -> Result<Reply, Failure>
        ensures bound { bound hand.new ≡ bound hand.old }
        ensures answers { AnswersOpenDir (seen self.old) (seen self.new) hand.old.pid node
            hand.old.shown hand.new.shown result }
    {
        let directory = self.plan_directory(node)?;
        self.reserve_folder()?;
        let list = list_names(hand, self.heap, directory)?;
        let names = names_shown(self.heap, node, list)?;
        let handle = self.keep_folder(node, names);
        Ok(Reply::Opened(Opened { handle, flags: 0 }))
    }

    // An open directory of this node.
    fn open_folder_of(&self, node: u64, handle: u64) -> Result<&Folder, Failure>
        ensures ok { IfOk result (λ folder. folder_of (seen self.now) node handle ≡ Ok folder.now) }
        ensures err { IfErr result (λ e. folder_of (seen self.now) node handle ≡ Err e) }
    {
        match self.folders.get(handle) {
            Some(folder) => {
                if folder.node == node {
                    Ok(folder)
                } else {
                    Err(Failure::Error(Errno::EBADF))
                }
            }
            None => Err(Failure::Error(Errno::EBADF)),
        }
    }

    // The directory whose names are taken anew, where they are.
    fn plan_list(&self, node: u64, handle: u64, offset: u64) -> Result<Option<Directory>, Failure>
        ensures plan { IsPlanned (lists (seen self.now) node handle offset) result }
        ensures same { IfOk result (λ o. IfSome o
            (λ d. IfSome d.paths (λ p. p.second ≡ p.first))) }
        ensures folder { OnOk result (IsOk (folder_of (seen self.now) node handle)) }
    {
        let folder = self.open_folder_of(node, handle)?;
        if !is_stale(folder, offset) {
            return Ok(None);
        }
        let directory = self.directory_of(node)?;
        Ok(Some(directory))
    }

    // Lists the names of an open directory, which are taken anew.
    fn list_anew<K: Machine>(
        &mut self,
        hand: &mut Hand<K>,
        node: u64,
        wanted: Wanted,
        directory: Directory,
    ) -> Result<Reply, Failure>
        requires same { IfSome directory.paths (λ p. p.second ≡ p.first) }
        requires folder { IsOk (folder_of (seen self.old) node wanted.handle) }
        ensures bound { bound hand.new ≡ bound hand.old }
        ensures answers { ListsBy (seen self.old) (seen self.new) hand.old.pid node wanted.handle
            wanted.offset wanted.size (Ok (Some directory)) hand.old.shown hand.new.shown result }
    {
        let list = list_names(hand, self.heap, directory)?;
        let names = names_shown(self.heap, node, list)?;
        let listing = list_from(self.heap, names.as_slice(), wanted.offset, wanted.size)?;
        self.renew_names(node, wanted.handle, names);
        Ok(Reply::Directory(listing))
    }

    // Lists the names that are kept of an open directory.
    fn list_kept(&mut self, node: u64, wanted: Wanted) -> Result<Reply, Failure>
        requires { IsOk (folder_of (seen self.old) node wanted.handle) }
        ensures ok { IfOk result (Lists wanted.offset wanted.size
            (kept_names (folder_at (seen self.old) wanted.handle))) }
        ensures kept { OnOk result (seen self.new ≡ with_names (seen self.old) node wanted.handle
            (kept_names (folder_at (seen self.old) wanted.handle))) }
        ensures err { IfErr result (λ e. e ≡ error ENOMEM) }
        ensures none { OnErr result (seen self.new ≡ seen self.old) }
    {
        let names = self.folders.names(wanted.handle);
        let listing = list_from(self.heap, names, wanted.offset, wanted.size)?;
        self.mark_names(node, wanted.handle);
        Ok(Reply::Directory(listing))
    }

    // Lists names of an open directory.
    pub(crate) fn read_folder<K: Machine>(
        &mut self,
        hand: &mut Hand<K>,
        node: u64,
        wanted: Wanted,
    ) -> Result<Reply, Failure>
        ensures bound { bound hand.new ≡ bound hand.old }
        ensures answers { AnswersReadDir (seen self.old) (seen self.new) hand.old.pid node
            wanted.handle wanted.offset wanted.size hand.old.shown hand.new.shown result }
    {
        match self.plan_list(node, wanted.handle, wanted.offset)? {
            Some(directory) => self.list_anew(hand, node, wanted, directory),
            None => self.list_kept(node, wanted),
        }
    }
}
