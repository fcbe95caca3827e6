// Requests about nodes of a tree.
ghost use Rattle.std.specs.Prelude.{◌≡◌};
ghost use Rattle.course.specs.Hands.{bound};
ghost use Rattle.mount_requests.specs.Requests.{IsAnswered, IsOfFiles, IsOfNames};
ghost use Rattle.mount_requests.specs.Seen.{seen};

use crate::failure::Failure;
use crate::opening::creation_by;
use crate::reading::Wanted;
use crate::tables::Tables;
use course::Hand;
use fuse::{Errno, Operation, Reply};
use ids::Owner;
use machine::Machine;

/// About which node a request is, and who asks.
#[derive(Clone, Copy, Debug)]
pub struct Caller {
    /// The node.
    pub node: u64,
    /// The user and the group.
    pub owner: Owner,
}

impl Tables {
    /// Answers a request about a node, by the steps of a process. The reply shows what its course came
    /// to, and what is known then is what that changes.
    pub fn answer<K: Machine>(
        &mut self,
        hand: &mut Hand<K>,
        caller: Caller,
        operation: Operation,
    ) -> Result<Reply, Failure>
        ensures bound { bound hand.new ≡ bound hand.old }
        ensures answers { IsAnswered (seen self.old) (seen self.new) hand.old.pid caller operation
            hand.old.shown hand.new.shown result }
    {
        let node = caller.node;
        match operation {
            Operation::Lookup { name } => self.look_up(hand, node, &name),
            Operation::GetAttr { handle: _ } => self.get_attr(hand, node),
            Operation::SetAttr { changes } => self.set_attr(hand, node, &changes),
            Operation::Access { mask: _ } => Ok(Reply::Empty),
            Operation::ReadLink => self.read_link(hand, node),
            Operation::OpenDir => self.open_folder(hand, node),
            Operation::ReadDir {
                handle,
                offset,
                size,
            } => {
                let wanted = Wanted {
                    handle,
                    offset,
                    size,
                };
                self.read_folder(hand, node, wanted)
            }
            operation => self.answer_of_names(hand, caller, operation),
        }
    }

    // Requests by which names change, and those on open files.
    fn answer_of_names<K: Machine>(
        &mut self,
        hand: &mut Hand<K>,
        caller: Caller,
        operation: Operation,
    ) -> Result<Reply, Failure>
        ensures bound { bound hand.new ≡ bound hand.old }
        ensures answers { IsOfNames (seen self.old) (seen self.new) hand.old.pid caller operation
            hand.old.shown hand.new.shown result }
    {
        let node = caller.node;
        match operation {
            Operation::SymLink { name, target } => self.make_link(hand, caller, &name, target),
            Operation::MkNod { name, mode } => self.make_node(hand, caller, &name, mode),
            Operation::MkDir { name, mode } => self.make_directory(hand, caller, &name, mode),
            Operation::Create {
                name,
                flags,
                mode,
                how,
            } => {
                let creation = creation_by(caller.owner, flags, mode, how);
                self.create(hand, caller, &name, creation)
            }
            Operation::Link { node: of, new_name } => self.link(hand, node, of, &new_name),
            Operation::Unlink { name } => self.unlink(hand, node, &name),
            Operation::RmDir { name } => self.remove_directory(hand, node, &name),
            Operation::Rename {
                name,
                new_parent,
                new_name,
                flags,
            } => self.rename(hand, node, &name, new_parent, &new_name, flags),
            operation => self.answer_of_files(hand, node, operation),
        }
    }

    // Requests on open files. Others are not served.
    fn answer_of_files<K: Machine>(
        &mut self,
        hand: &mut Hand<K>,
        node: u64,
        operation: Operation,
    ) -> Result<Reply, Failure>
        ensures bound { bound hand.new ≡ bound hand.old }
        ensures answers { IsOfFiles (seen self.old) (seen self.new) hand.old.pid node operation
            hand.old.shown hand.new.shown result }
    {
        match operation {
            Operation::Open { flags, how } => self.open(hand, node, flags, how),
            Operation::Read {
                handle,
                offset,
                size,
                open_flags: _,
            } => self.read(hand, handle, offset, size),
            Operation::Write {
                handle,
                offset,
                write_flags,
                open_flags,
                bytes,
            } => self.write(hand, node, handle, offset, write_flags, open_flags, bytes),
            Operation::Lseek {
                handle,
                offset,
                whence,
            } => self.seek(hand, handle, offset, whence),
            Operation::Fallocate {
                handle,
                offset,
                length,
                mode,
            } => self.fallocate(hand, node, handle, offset, length, mode),
            Operation::CopyFileRange {
                handle,
                offset,
                to_node: _,
                to_handle,
                to_offset,
                length,
                flags,
            } => self.copy(
                hand, node, handle, offset, to_handle, to_offset, length, flags,
            ),
            _ => Err(Failure::Error(Errno::ENOSYS)),
        }
    }
}
