// Bits and numbers of the protocol, by their names.

// ---- the flags of an open (Linux's fcntl.h, as most machines have it)

/// An open that has to make the file: O_EXCL.
pub const OPEN_EXCLUSIVE: u32 = 0o200;

/// An open that cuts the file to no bytes: O_TRUNC.
pub const OPEN_TRUNCATE: u32 = 0o1000;

/// Each write goes to the end of the file, wherever that is then: O_APPEND.
pub const OPEN_APPEND: u32 = 0o2000;

// ---- how a file is opened besides (FUSE_OPEN_ in linux/fuse.h)

/// Where the open cuts the file, set-user-ID and set-group-ID go with its bytes:
/// FUSE_OPEN_KILL_SUIDGID.
pub const OPEN_DROPS_SET_IDS: u32 = 1 << 0;

// ---- the flags of a reply to an open (FOPEN_ in linux/fuse.h)

/// Reads and writes go past the kernel's cache.
pub const OPENED_DIRECT: u32 = 1 << 0;

/// What the cache has of the file stays.
pub const OPENED_KEEP_CACHE: u32 = 1 << 1;

// ---- what both can do, as it is agreed when the session begins (FUSE_ in linux/fuse.h)

/// An open may cut the file itself, with no request of its own: FUSE_ATOMIC_O_TRUNC.
pub const INIT_OPEN_TRUNCATES: u32 = 1 << 3;

/// A write may have more bytes than a page: FUSE_BIG_WRITES.
pub const INIT_BIG_WRITES: u32 = 1 << 5;

/// What the cache has of a file goes where its length or its time has changed:
/// FUSE_AUTO_INVAL_DATA.
pub const INIT_DROPS_CHANGED: u32 = 1 << 12;

/// The reply tells how many pages a request may have: FUSE_MAX_PAGES.
pub const INIT_MAX_PAGES: u32 = 1 << 22;

/// Whoever serves takes set-user-ID and set-group-ID away: where a request says so, and where
/// anything but a directory gets another owner. FUSE_HANDLE_KILLPRIV_V2.
pub const INIT_DROPS_SET_IDS: u32 = 1 << 28;

// ---- modes (S_IF in Linux's stat.h)

/// The bits of a mode that tell the kind of a node.
pub const MODE_KIND: u32 = 0o170_000;

/// The bits below these: permissions, and three more that go with them.
pub const MODE_PERMISSIONS: u32 = 0o7_777;

/// A FIFO, which is a pipe with a name.
pub const MODE_PIPE: u32 = 0o010_000;

/// A directory.
pub const MODE_DIRECTORY: u32 = 0o040_000;

/// A file.
pub const MODE_FILE: u32 = 0o100_000;

/// A symbolic link.
pub const MODE_LINK: u32 = 0o120_000;

/// A socket.
pub const MODE_SOCKET: u32 = 0o140_000;

// ---- the flags of a rename (RENAME_ in linux/fs.h)

/// Nothing is replaced: where the new name is there, the rename fails.
pub const RENAME_NO_REPLACE: u32 = 1 << 0;

/// The two names change places.
pub const RENAME_EXCHANGE: u32 = 1 << 1;

// ---- the flags of a write (FUSE_WRITE_ in linux/fuse.h)

/// The kernel writes from its cache, and not a program at the moment.
pub const WRITE_FROM_CACHE: u32 = 1 << 0;

/// Set-user-ID and set-group-ID go: FUSE_WRITE_KILL_SUIDGID.
pub const WRITE_DROPS_SET_IDS: u32 = 1 << 2;
