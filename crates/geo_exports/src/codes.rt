//! What calls answer. Numbers are only added, and none ever changes.

/// Done; of a command that was given: it is on its way.
pub const OK: i32 = 0;

/// A command was replied to at once.
pub const REPLIED: i32 = 1;

/// Memory was wanting.
pub const NO_MEMORY: i32 = -1;

/// The handle holds no mesh.
pub const CLOSED: i32 = -2;

/// The handle holds a mesh already.
pub const OPEN: i32 = -3;

/// An argument doesn't have its form.
pub const WRONG: i32 = -4;

/// The mesh isn't so that this can be done.
pub const UNFIT: i32 = -5;

/// There is too little room for bytes.
pub const ROOM: i32 = -6;
