// The number of each variant, its first byte: the one table, which the definitions cite too. A number
// that was given is never given to another variant.

// ---- operations

pub(crate) const OP_CALL: u8 = 0;

pub(crate) const OP_BEGIN: u8 = 1;

pub(crate) const OP_END: u8 = 2;

pub(crate) const OP_ABORT: u8 = 3;

// ---- calls

pub(crate) const CALL_OPEN: u8 = 0;

pub(crate) const CALL_CLOSE: u8 = 1;

pub(crate) const CALL_READ: u8 = 2;

pub(crate) const CALL_PREAD: u8 = 3;

pub(crate) const CALL_WRITE: u8 = 4;

pub(crate) const CALL_PWRITE: u8 = 5;

pub(crate) const CALL_LSEEK: u8 = 6;

pub(crate) const CALL_FTRUNCATE: u8 = 7;

pub(crate) const CALL_TRUNCATE: u8 = 8;

pub(crate) const CALL_FALLOCATE: u8 = 9;

pub(crate) const CALL_STAT: u8 = 10;

pub(crate) const CALL_FSTAT: u8 = 11;

pub(crate) const CALL_LINK: u8 = 12;

pub(crate) const CALL_UNLINK: u8 = 13;

pub(crate) const CALL_RENAME: u8 = 14;

pub(crate) const CALL_EXCHANGE: u8 = 15;

pub(crate) const CALL_MKDIR: u8 = 16;

pub(crate) const CALL_RMDIR: u8 = 17;

pub(crate) const CALL_LIST: u8 = 18;

pub(crate) const CALL_SYMLINK: u8 = 19;

pub(crate) const CALL_READLINK: u8 = 20;

pub(crate) const CALL_LSTAT: u8 = 21;

pub(crate) const CALL_MKNOD: u8 = 22;

pub(crate) const CALL_CHMOD: u8 = 23;

pub(crate) const CALL_CHOWN: u8 = 24;

pub(crate) const CALL_FCHMOD: u8 = 25;

pub(crate) const CALL_FCHOWN: u8 = 26;

pub(crate) const CALL_DUP: u8 = 27;

pub(crate) const CALL_DUP2: u8 = 28;

pub(crate) const CALL_PIPE: u8 = 29;

pub(crate) const CALL_FORK: u8 = 30;

pub(crate) const CALL_EXIT: u8 = 31;

// ---- from where `lseek` counts

pub(crate) const WHENCE_SET: u8 = 0;

pub(crate) const WHENCE_CUR: u8 = 1;

pub(crate) const WHENCE_END: u8 = 2;

pub(crate) const WHENCE_DATA: u8 = 3;

pub(crate) const WHENCE_HOLE: u8 = 4;

// ---- what `fallocate` does

pub(crate) const SPACE_GROW: u8 = 0;

pub(crate) const SPACE_KEEP: u8 = 1;

pub(crate) const SPACE_PUNCH: u8 = 2;

// ---- what `mknod` makes

pub(crate) const SPECIAL_FIFO: u8 = 0;

pub(crate) const SPECIAL_SOCKET: u8 = 1;

// ---- replies

pub(crate) const REPLY_ANSWER: u8 = 0;

pub(crate) const REPLY_ERRNO: u8 = 1;

pub(crate) const REPLY_BEGUN: u8 = 2;

pub(crate) const REPLY_COMMITTED: u8 = 3;

pub(crate) const REPLY_GIVEN_UP: u8 = 4;

pub(crate) const REPLY_ABORTED: u8 = 5;

pub(crate) const REPLY_BUSY: u8 = 6;

pub(crate) const REPLY_IN_TRANSACTION: u8 = 7;

pub(crate) const REPLY_NOT_IN_TRANSACTION: u8 = 8;

pub(crate) const REPLY_HISTORY_FULL: u8 = 9;

pub(crate) const REPLY_NO_MEMORY: u8 = 10;

pub(crate) const REPLY_NO_PROCESS: u8 = 11;

// ---- answers

pub(crate) const ANSWER_DONE: u8 = 0;

pub(crate) const ANSWER_FD: u8 = 1;

pub(crate) const ANSWER_COUNT: u8 = 2;

pub(crate) const ANSWER_PLACE: u8 = 3;

pub(crate) const ANSWER_BYTES: u8 = 4;

pub(crate) const ANSWER_PAIR: u8 = 5;

pub(crate) const ANSWER_STAT: u8 = 6;

pub(crate) const ANSWER_NAMES: u8 = 7;

pub(crate) const ANSWER_CHILD: u8 = 8;

// ---- kinds of objects

pub(crate) const KIND_FILE: u8 = 0;

pub(crate) const KIND_DIR: u8 = 1;

pub(crate) const KIND_PIPE: u8 = 2;

pub(crate) const KIND_LINK: u8 = 3;

pub(crate) const KIND_FIFO: u8 = 4;

pub(crate) const KIND_SOCKET: u8 = 5;

// ---- refusals

pub(crate) const ERRNO_EAGAIN: u8 = 0;

pub(crate) const ERRNO_EBADF: u8 = 1;

pub(crate) const ERRNO_EBUSY: u8 = 2;

pub(crate) const ERRNO_EEXIST: u8 = 3;

pub(crate) const ERRNO_EFBIG: u8 = 4;

pub(crate) const ERRNO_EINVAL: u8 = 5;

pub(crate) const ERRNO_EISDIR: u8 = 6;

pub(crate) const ERRNO_ELOOP: u8 = 7;

pub(crate) const ERRNO_EMFILE: u8 = 8;

pub(crate) const ERRNO_ENAMETOOLONG: u8 = 9;

pub(crate) const ERRNO_ENOENT: u8 = 10;

pub(crate) const ERRNO_ENOTDIR: u8 = 11;

pub(crate) const ERRNO_ENOTEMPTY: u8 = 12;

pub(crate) const ERRNO_ENOTSUP: u8 = 13;

pub(crate) const ERRNO_ENXIO: u8 = 14;

pub(crate) const ERRNO_EPERM: u8 = 15;

pub(crate) const ERRNO_EPIPE: u8 = 16;

pub(crate) const ERRNO_ESPIPE: u8 = 17;

// ---- why a transaction was aborted

pub(crate) const WHY_CLASH: u8 = 0;

pub(crate) const WHY_UNSUPPORTED: u8 = 1;

// ---- what is touched

pub(crate) const ASPECT_ENTRY: u8 = 0;

pub(crate) const ASPECT_NAMES: u8 = 1;

pub(crate) const ASPECT_SIZE: u8 = 2;

pub(crate) const ASPECT_BLOCK: u8 = 3;

pub(crate) const ASPECT_LINKS: u8 = 4;

pub(crate) const ASPECT_ENDS: u8 = 5;

pub(crate) const ASPECT_OFFSET: u8 = 6;

pub(crate) const ASPECT_FRONT: u8 = 7;

pub(crate) const ASPECT_BACK: u8 = 8;

pub(crate) const ASPECT_TARGET: u8 = 9;

pub(crate) const ASPECT_RIGHTS: u8 = 10;
