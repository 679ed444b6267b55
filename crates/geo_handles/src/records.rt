//! What is kept of a handle.

use geo_base::{ConsId, Counts, Name};

/// A handle that is open: whose it is, its name, its consumer and what was granted. It has no consumer once it was
/// reaped.
#[derive(Clone, Copy, Debug, PartialEq, Eq)]
pub struct HandleRec {
    pub actor: u32,
    pub name: Name,
    pub consumer: Option<ConsId>,
    pub grant: Counts,
    pub dead: bool,
}
