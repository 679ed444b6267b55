//! What is found of a trace.

/// What is found of a trace: that all holds, or what comes first of what doesn't.
#[derive(Clone, Copy, Debug, PartialEq, Eq)]
pub enum Verified {
    /// Its steps can all be made, they end at rest, and its report is that of the log which they make.
    Yes,
    /// The step of this line, counted from 1, isn't enabled.
    NotEnabled { line: u32 },
    /// Its steps can all be made, but don't end at rest.
    NotAtRest,
    /// They end at rest, but the report of their log is another.
    OtherReport,
}
