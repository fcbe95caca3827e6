// The limits of scripts.
use ids::MAX_PROCESSES;

/// The most bytes that a script may have.
pub const SCRIPT_LIMIT: usize = 1_048_576;

/// All process numbers are below this.
pub const PROCESS_NUMBERS_END: usize = MAX_PROCESSES as usize + 1;

/// The highest priority.
pub const TOP_PRIORITY: u32 = 7;

/// The most bytes that one line may have read or written by a count.
pub const TRANSFER_LIMIT: u32 = 1_048_576;
