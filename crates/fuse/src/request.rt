// What a request asks.
use crate::forgets::Forgets;
use ids::Bytes;

/// A time.
#[derive(Clone, Copy, Debug)]
pub struct Time {
    /// Seconds since the beginning of 1970.
    pub seconds: u64,
    /// Nanoseconds behind these seconds.
    pub nanoseconds: u32,
}

/// What a time is set to.
#[derive(Clone, Copy, Debug)]
pub enum TimeChange {
    /// To the time at which the request is served. The kernel tells what its own clock says.
    Now(Time),
    /// To this one.
    At(Time),
}

/// Which attributes are set, and to what.
#[derive(Clone, Copy, Debug)]
pub struct Changes {
    /// The open file through which they are set, where it is through one.
    pub handle: Option<u64>,
    /// The length.
    pub size: Option<u64>,
    /// When it was read last.
    pub accessed: Option<TimeChange>,
    /// When it was written last.
    pub modified: Option<TimeChange>,
    /// The kind and the permissions.
    pub mode: Option<u32>,
    /// The user that it belongs to.
    pub uid: Option<u32>,
    /// The group that it belongs to.
    pub gid: Option<u32>,
    /// Whether set-user-ID and set-group-ID go with this length, or with this owner.
    pub drops_set_ids: bool,
}

/// From where an offset counts.
#[derive(Clone, Copy, Debug)]
pub enum Whence {
    /// From the first byte.
    Start,
    /// From the offset of the open file.
    Current,
    /// From the end.
    End,
    /// The next byte from there on that is no hole.
    NextData,
    /// The next byte from there on that is a hole.
    NextHole,
}

/// What is asked of the node of a request. Handles are the numbers that replies to `Open`, `Create`
/// and `OpenDir` gave.
#[derive(Drop)]
pub enum Operation {
    /// Looks a name of the directory up.
    Lookup {
        /// The name.
        name: Bytes,
    },
    /// So many lookups of the node are forgotten. It has no reply.
    Forget {
        /// How many.
        lookups: u64,
    },
    /// Lookups of many nodes are forgotten. It has no reply.
    BatchForget {
        /// The nodes, and how many of each.
        forgets: Forgets,
    },
    /// Asks for the attributes.
    GetAttr {
        /// The open file through which it asks, where it does through one.
        handle: Option<u64>,
    },
    /// Sets attributes.
    SetAttr {
        /// Which ones, and to what.
        changes: Changes,
    },
    /// Tells the target of the symbolic link.
    ReadLink,
    /// Makes a symbolic link.
    SymLink {
        /// Its name in the directory.
        name: Bytes,
        /// Its target: any text without a zero byte.
        target: Bytes,
    },
    /// Makes what is not opened: a file, a FIFO, a socket or a device, as its mode tells.
    MkNod {
        /// Its name in the directory.
        name: Bytes,
        /// Its kind and permissions: the kind is among the bits `MODE_KIND`.
        mode: u32,
    },
    /// Makes an empty directory.
    MkDir {
        /// Its name in the directory.
        name: Bytes,
        /// Its permissions.
        mode: u32,
    },
    /// Takes a name away that gives no directory.
    Unlink {
        /// The name in the directory.
        name: Bytes,
    },
    /// Removes an empty directory.
    RmDir {
        /// Its name in the directory.
        name: Bytes,
    },
    /// Moves what a name gives.
    Rename {
        /// The name in the directory.
        name: Bytes,
        /// The directory that it is moved to.
        new_parent: u64,
        /// Its name there.
        new_name: Bytes,
        /// The flags of `renameat2`: 1 to replace nothing, 2 to exchange the two.
        flags: u32,
    },
    /// Gives what is no directory a further name in the directory.
    Link {
        /// What gets it.
        node: u64,
        /// The further name.
        new_name: Bytes,
    },
    /// Opens the file.
    Open {
        /// The flags of `open`.
        flags: u32,
        /// 1 where set-user-ID and set-group-ID go with bytes that are cut.
        how: u32,
    },
    /// Makes a file and opens it.
    Create {
        /// Its name in the directory.
        name: Bytes,
        /// The flags of `open`.
        flags: u32,
        /// Its kind and permissions.
        mode: u32,
        /// 1 where set-user-ID and set-group-ID go with bytes that are cut.
        how: u32,
    },
    /// Reads bytes of an open file.
    Read {
        /// The open file.
        handle: u64,
        /// Where they begin.
        offset: u64,
        /// How many, at most.
        size: u32,
        /// The flags that it is open with.
        open_flags: u32,
    },
    /// Writes bytes of an open file.
    Write {
        /// The open file.
        handle: u64,
        /// Where they begin.
        offset: u64,
        /// 1 for a write from the kernel's cache, and 4 where set-user-ID and set-group-ID go.
        write_flags: u32,
        /// The flags that it is open with.
        open_flags: u32,
        /// The bytes.
        bytes: Bytes,
    },
    /// A descriptor of an open file is closed. Others may stay.
    Flush {
        /// The open file.
        handle: u64,
    },
    /// The open file has no descriptor any more.
    Release {
        /// The open file.
        handle: u64,
        /// The flags that it was open with.
        flags: u32,
    },
    /// What was written is to outlast a crash.
    Fsync {
        /// The open file.
        handle: u64,
    },
    /// Opens the directory.
    OpenDir,
    /// Lists names of an open directory.
    ReadDir {
        /// The open directory.
        handle: u64,
        /// The offset of the last entry that is known, and 0 for none.
        offset: u64,
        /// How many bytes the list may have.
        size: u32,
    },
    /// The open directory has no descriptor any more.
    ReleaseDir {
        /// The open directory.
        handle: u64,
    },
    /// Asks about the file system.
    StatFs,
    /// Whether the caller may do this.
    Access {
        /// The mask of `access`.
        mask: u32,
    },
    /// Finds an offset of an open file.
    Lseek {
        /// The open file.
        handle: u64,
        /// The offset.
        offset: u64,
        /// From where it counts.
        whence: Whence,
    },
    /// Keeps a range of an open file for it, or makes zeros of it.
    Fallocate {
        /// The open file.
        handle: u64,
        /// Where the range begins.
        offset: u64,
        /// How many bytes it has.
        length: u64,
        /// The mode of `fallocate`: 1 to keep the length, 2 to make zeros of the range.
        mode: u32,
    },
    /// Copies bytes of an open file into another one.
    CopyFileRange {
        /// The open file that they are of.
        handle: u64,
        /// Where they begin there.
        offset: u64,
        /// The node of the one that they are put into.
        to_node: u64,
        /// That open file.
        to_handle: u64,
        /// Where they begin there.
        to_offset: u64,
        /// How many, at most.
        length: u64,
        /// The flags of `copy_file_range`, of which there are none.
        flags: u64,
    },
    /// Begins the session.
    Init {
        /// The version of the kernel's protocol before the point.
        major: u32,
        /// The version behind it.
        minor: u32,
        /// How many bytes the kernel reads ahead, at most.
        max_readahead: u32,
        /// What the kernel can do.
        flags: u32,
    },
    /// Ends the session.
    Destroy,
    /// A request that is not answered yet is to end early.
    Interrupt {
        /// Its number.
        unique: u64,
    },
    /// Another operation, which is not served.
    Other {
        /// Its opcode.
        opcode: u32,
    },
}

/// A request of the kernel.
#[derive(Drop)]
pub struct Request {
    /// Its number, which the reply repeats.
    pub unique: u64,
    /// The node that it is about. The root is 1.
    pub node: u64,
    /// The user who asks.
    pub uid: u32,
    /// The group that asks.
    pub gid: u32,
    /// The process that asks.
    pub pid: u32,
    /// What is asked.
    pub operation: Operation,
}
