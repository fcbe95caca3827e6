//! The vocabulary of the kernel: numbers, names, flags, touches, operations, replies and entries.
//!
//! Collections are on a [`heap::Heap`]. A type that owns memory has a fallible copy, `try_clone`,
//! which is equal to its source.
#![tactic(auto)]

mod aspect;
mod bytes;
mod call;
mod compared;
mod edit;
mod entry;
mod errno;
mod fixed;
mod flags;
mod limits;
mod lists;
mod number;
mod reply;
mod rights;
mod target;

pub use aspect::{Aspect, Cause, Touch, Why};
pub use bytes::{Bytes, Name, NameList};
pub use call::{Call, Op, Space, Whence};
pub use edit::{Edit, Mode, Replaced, Slot, Which};
pub use entry::{Entry, ListMode, Rank};
pub use errno::{Errno, Refusal};
pub use fixed::{Fixed, Special};
pub use flags::{BeginFlags, OpenFlags};
pub use limits::{
    BLOCK_LEN, Bounds, DEFAULT_DESCRIPTORS, DEFAULT_LARGEST_FILE, DEFAULT_PATH_LIMIT, DESCRIPTORS,
    LARGEST_FILE, Limits, MAX_ENTRIES, MAX_PROCESSES, MOST_MOVED, NAME_LIMIT, PATH_LIMIT,
    PIPE_CAPACITY, TARGET_LIMIT, WHOLE_WRITE,
};
pub use lists::{Nums, Pids};
pub use number::{Age, Fd, Num, Pid, Priority};
pub use reply::{Answer, Kind, Reply, Stat};
pub use rights::{NewOwner, Owner, Permissions, Rights};
pub use target::Target;
