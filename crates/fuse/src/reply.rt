// What is answered.
use crate::errno::Errno;
use crate::listing::Listing;
use crate::request::Time;
use ids::Bytes;

/// The version of the protocol before the point.
pub const MAJOR: u32 = 7;

/// The version behind it.
pub const MINOR: u32 = 31;

/// The attributes of a node.
#[derive(Clone, Copy, Debug)]
pub struct Attr {
    /// Its number for `stat`.
    pub inode: u64,
    /// Its length.
    pub size: u64,
    /// How many blocks of 512 bytes it takes.
    pub blocks: u64,
    /// When it was read last.
    pub accessed: Time,
    /// When it was written last.
    pub modified: Time,
    /// When its attributes changed last.
    pub changed: Time,
    /// Its kind and permissions.
    pub mode: u32,
    /// How many names it has.
    pub links: u32,
    /// The user that it belongs to.
    pub uid: u32,
    /// The group that it belongs to.
    pub gid: u32,
    /// How many bytes are best read or written at once.
    pub blksize: u32,
}

/// What a name gives. The kernel asks again each time: neither name nor attributes stay valid.
#[derive(Clone, Copy, Debug)]
pub struct Entry {
    /// The node.
    pub node: u64,
    /// Which object has this node number, where one may get a number that another had.
    pub generation: u64,
    /// Its attributes.
    pub attr: Attr,
}

/// An open file or directory.
#[derive(Clone, Copy, Debug)]
pub struct Opened {
    /// The number that later requests name it by.
    pub handle: u64,
    /// How the kernel is to use it: 1 past its cache, 2 with what the cache has.
    pub flags: u32,
}

/// What is told of a file system. Blocks have `block_size` bytes.
#[derive(Clone, Copy, Debug)]
pub struct StatFs {
    /// How many blocks there are.
    pub blocks: u64,
    /// How many are free.
    pub free_blocks: u64,
    /// How many of these anybody may use.
    pub available_blocks: u64,
    /// How many nodes there may be.
    pub nodes: u64,
    /// How many more can be made.
    pub free_nodes: u64,
    /// How many bytes a block has.
    pub block_size: u32,
    /// How many bytes a name may have.
    pub name_length: u32,
}

/// What is agreed as the session begins, at version 7.31.
#[derive(Clone, Copy, Debug)]
pub struct Init {
    /// How many bytes the kernel reads ahead, at most.
    pub max_readahead: u32,
    /// What both can do.
    pub flags: u32,
    /// How many requests that nobody waits for may be open.
    pub max_background: u16,
    /// From how many of these on the file system counts as congested.
    pub congestion_threshold: u16,
    /// How many bytes a write has, at most.
    pub max_write: u32,
    /// In how many nanoseconds times advance.
    pub time_granularity: u32,
    /// How many pages a request has, at most, where the flags say that this counts.
    pub max_pages: u16,
}

/// What is answered to a request.
#[derive(Drop)]
pub enum Reply {
    /// It failed.
    Error(Errno),
    /// It succeeded, and there is nothing to tell.
    Empty,
    /// What a name gives.
    Entry(Entry),
    /// Attributes, which the kernel asks for again each time.
    Attr(Attr),
    /// An open file or directory.
    Opened(Opened),
    /// A file that was made and opened.
    Created {
        /// The file.
        entry: Entry,
        /// The file as it is open.
        opened: Opened,
    },
    /// Bytes were written.
    Written {
        /// How many.
        size: u32,
    },
    /// Bytes that were read, or a link's target, without a zero byte.
    Data(Bytes),
    /// Entries of a directory, to `ReadDir`.
    Directory(Listing),
    /// About the file system.
    StatFs(StatFs),
    /// The session begins.
    Init(Init),
    /// An offset that was found.
    Lseek {
        /// The offset.
        offset: u64,
    },
}
