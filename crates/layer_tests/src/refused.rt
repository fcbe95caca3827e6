// What came of a refusal of memory.
use std::alloc::AllocError;

// Whether it is refused. What was made goes here, so that no test has to drop it.
pub(crate) fn is_refused<T: Drop>(made: Result<T, AllocError>) -> bool {
    made.is_err()
}

// Whether a thing was done. What comes back otherwise goes here.
pub(crate) fn is_done<T: Drop>(done: Result<(), T>) -> bool {
    done.is_ok()
}
