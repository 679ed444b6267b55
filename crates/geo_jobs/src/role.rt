//! What an end of a view does.

/// What an end of a view does, with the slot that it has. No value of it is made.
pub enum Role {
    /// The publisher before there is a watcher.
    First,
    /// The publisher, and whether it holds its slot.
    Shows(u64, bool),
    /// The watcher before it has a list.
    Comes(u64),
    /// The watcher, and whether it knows that a newer list waits.
    Looks(u64, bool),
    /// What the publisher tells.
    Note,
}
