//! What the jobs of a test take.
use geo_core::Mesh;
use geo_disk::MemDisk;
use geo_jobs::{DriveList, Lanes, Worker};
use geo_lane::LanePass;
use geo_lock::PassList;

/// The passes 0 of the lanes, by which tickets are taken.
#[derive(Drop)]
pub struct Takers {
    pub down: LanePass,
    pub up: LanePass,
    pub disk0: LanePass,
    pub disk1: LanePass,
}

/// What the jobs of the script take: the drives of the two disk workers, room for the workers and for all passes, and
/// the lanes.
#[derive(Drop)]
pub struct Room {
    pub first: DriveList<MemDisk>,
    pub second: DriveList<MemDisk>,
    pub workers: Vec<Worker<MemDisk>>,
    pub passes: PassList<Mesh>,
    pub lanes: Lanes,
    pub takers: Takers,
}
