//! The memory of a run, which is taken before its first job.
ghost use Rattle.std.specs.Prelude.{◌≡◌, ◌+◌, ◌<◌, ◌≤◌, [], IfOk};
ghost use Rattle.geo_base.specs.declared.limits.TheConstants.{MAX_ACTORS};
ghost use Rattle.geo_jobs.specs.Rooms.{HasRoom};

use crate::drive_list::DriveList;
use crate::lanes::Lanes;
use crate::passes::{Takers, open_lanes};
use crate::run::Worker;
use geo_base::NoMemory;
use geo_core::Mesh;
use geo_disk::Drive;
use geo_lock::PassList;
use std::alloc::Global;

/// Room in which the workers of a run begin: for the workers, and for the drives of the two disk workers; and the
/// passes of the lanes.
#[derive(Drop)]
pub struct StartRoom<D> {
    pub workers: Vec<Worker<D>>,
    pub even: DriveList<D>,
    pub odd: DriveList<D>,
    pub takers: Takers,
}

/// Room for what comes home: the passes of the workers, the lists of the disk workers, and their drives.
#[derive(Drop)]
pub struct HomeRoom<D> {
    pub passes: PassList<Mesh>,
    pub lists: Vec<DriveList<D>>,
    pub back: Vec<Drive<D>>,
}

/// Room for the start of a run and for its end, and the lanes.
#[derive(Drop)]
pub struct Room<D> {
    pub begins: StartRoom<D>,
    pub comes: HomeRoom<D>,
    pub lanes: Lanes,
}

// A list with room for so many drives.
fn list_for<D: Drop>(alloc: Global, drives: usize) -> Result<DriveList<D>, NoMemory>
    ensures none { IfOk result (λ list. list.items ≡ []) }
    ensures room { IfOk result (λ list. drives ≤ list.spare) }
{
    let mut list = DriveList::new(alloc);
    list.reserve(drives as u64)?;
    Ok(list)
}

// Room for so many passes.
fn passes_for(alloc: Global, passes: u64) -> Result<PassList<Mesh>, NoMemory>
    ensures none { IfOk result (λ list. list.items ≡ []) }
    ensures room { IfOk result (λ list. passes ≤ list.spare) }
{
    let mut list = PassList::new(alloc);
    list.reserve(passes)?;
    Ok(list)
}

/// The room of a run over so many drives, for so many actors.
pub fn make_room<D: Drop, R: AllocGlobal>(
    rt: &R,
    actors: u32,
    drives: usize,
) -> Result<Room<D>, NoMemory>
    requires { actors ≤ MAX_ACTORS }
    ensures { IfOk result (λ room. HasRoom actors drives room) }
{
    let alloc = rt.alloc();
    let jobs = actors as usize + 5;
    let passes = passes_for(alloc, jobs as u64 + 1)?;
    let workers = Vec::with_capacity(alloc, jobs)?;
    let lists = Vec::with_capacity(alloc, jobs)?;
    let even = list_for(alloc, drives)?;
    let odd = list_for(alloc, drives)?;
    let back = Vec::with_capacity(alloc, drives)?;
    let (lanes, takers) = open_lanes(rt)?;
    let begins = StartRoom {
        workers,
        even,
        odd,
        takers,
    };
    let comes = HomeRoom {
        passes,
        lists,
        back,
    };
    Ok(Room {
        begins,
        comes,
        lanes,
    })
}
