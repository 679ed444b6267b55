//! Where a session stands.

use crate::export::Export;
use geo_text::Text;

/// What client and server agreed on so far.
#[derive(Clone, Copy, Debug, PartialEq, Eq)]
pub struct Agreed {
    pub no_zeroes: bool,
    pub structured: bool,
}

/// What comes next of the client.
#[derive(Clone, Copy, Debug, PartialEq, Eq)]
pub enum Phase {
    /// Its flags.
    Flags,
    /// An option.
    Options(Agreed),
    /// A request for this export, to which structured replies are given or simple ones.
    Serving { export: Export, structured: bool },
    /// Nothing: the session has ended.
    Ended,
}

/// What is sent as an answer, and what comes next of the client then.
#[derive(Drop)]
pub struct Answer {
    pub sent: Text,
    pub next: Phase,
}
