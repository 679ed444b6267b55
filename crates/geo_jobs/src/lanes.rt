//! The lanes of a run.
use geo_lane::Lane;

/// The lanes of a run: one down, one up, and one for each of the two disk workers.
#[derive(Drop)]
pub struct Lanes {
    pub down: Lane,
    pub up: Lane,
    pub disk0: Lane,
    pub disk1: Lane,
}
