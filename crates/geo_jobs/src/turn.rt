//! How a turn of a job went.

/// How a turn of a job went.
#[derive(Clone, Copy, Debug, PartialEq, Eq)]
pub enum Turn {
    /// A step was made.
    Worked,
    /// No step that was tried was enabled, or there was none to try.
    Idle,
    /// A client has no command left.
    Finished,
    /// A step that was tried has no place in the log.
    LogFull,
    /// Memory was wanting.
    NoMemory,
}
