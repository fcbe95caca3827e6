// How a session ends.

/// How a session ends.
#[derive(Clone, Copy, Debug, PartialEq, Eq)]
pub enum Ending {
    /// It was unmounted.
    Unmounted,
    /// A read failed.
    Failed,
}
