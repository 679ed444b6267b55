//! What a disk is asked, and what it answers.
ghost use Rattle.std.specs.Prelude.{◌≡◌};
ghost use Rattle.geo_disk.specs.Calls.{disk_call};

use crate::disk::DiskFailed;
use crate::notes::Notes;
use geo_base::BioCmd;
use std::marker::Model;

/// A call of a disk, the bytes that passed by it, and how it ended. Places and counts are in sectors. Its bytes are
/// noted alone: none are copied.
#[derive(Drop)]
pub struct DiskCall {
    cmd: BioCmd,
    first: u64,
    count: u64,
    bytes: Notes<u8>,
    failed: Option<u64>,
}

impl Model for DiskCall {
    ghost use Rattle.geo_disk.specs.Calls.{CallMade};

    ghost Value = { CallMade };

    ghost view = { λ c. record {
      cmd = c.cmd;
      first = c.first;
      count = c.count;
      bytes = c.bytes.items;
      failed = c.failed;
    } };
}

impl DiskCall {
    /// The call that asked for `count` sectors from `first` on, by which these bytes passed, and was answered so.
    pub fn new(
        cmd: BioCmd,
        first: u64,
        count: u64,
        bytes: &[u8],
        answer: &Result<(), DiskFailed>,
    ) -> DiskCall
        ensures { result ≡ disk_call cmd first count bytes.now answer.now }
    {
        let failed = match answer {
            Ok(()) => None,
            Err(failure) => Some(failure.done),
        };
        DiskCall {
            cmd,
            first,
            count,
            bytes: Notes::of(bytes),
            failed,
        }
    }
}
