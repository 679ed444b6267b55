//! A request on its way.

use crate::gathered::Gathered;
use geo_base::{BioCmd, SharedBytes};

/// A request on its way: its cookie, the command that is made for it now, its range in bytes and how much of that is
/// done, whether a flush is asked for behind it, the bytes of a write, and those that a read has given so far.
#[derive(Drop)]
pub struct Asked {
    pub cookie: u64,
    pub cmd: BioCmd,
    pub offset: u64,
    pub len: u32,
    pub done: u32,
    pub fua: bool,
    pub bytes: SharedBytes,
    pub got: Gathered,
}
