//! Commands of requests, and access counts.

/// What a request asks for (g_bio(9)).
#[derive(Clone, Copy, Debug, PartialEq, Eq)]
pub enum BioCmd {
    Read,
    Write,
    Delete,
    Flush,
}

/// Read, write and exclusive counts (g_access(9)).
#[derive(Clone, Copy, Debug, PartialEq, Eq)]
pub struct Counts {
    pub r: u32,
    pub w: u32,
    pub e: u32,
}
