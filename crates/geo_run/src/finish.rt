//! A run that has come to its end, before anything is written.
ghost use Rattle.std.specs.Prelude.{◌≡◌, None};

use crate::due::Due;
use crate::stop::Stop;
use geo_log::{DiskFacts, Log};
use std::alloc::Global;

/// What is due at the end of a run, the log where the mesh opened, and the sizes of the disks with which it began.
#[derive(Drop)]
pub struct Finish {
    pub due: Due,
    pub log: Option<Log>,
    pub facts: DiskFacts,
}

/// The end of a run whose mesh didn't open.
pub fn unopened(alloc: Global, stop: Stop) -> Finish
    ensures due { result.due ≡ Due.Stopped stop }
    ensures log { result.log ≡ None }
{
    Finish {
        due: Due::Stopped(stop),
        log: None,
        facts: DiskFacts::new(alloc),
    }
}
