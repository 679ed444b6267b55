//! A small script, its mesh, and the disks, lanes and room that its jobs take.
ghost use Rattle.std.specs.Prelude.{◌≡◌, ◌+◌, ◌<◌, ◌≤◌, [], IfOk, IfSome};
ghost use Rattle.geo_model.specs.Plans.{FactsFit, IsFact};
ghost use Rattle.geo_jobs.specs.Drives.{HasDrives};
ghost use Rattle.geo_jobs.specs.Mesh.{IsHistory};
ghost use Rattle.geo_tests_jobs.specs.Benches.{AreTakers, HasRoom, IsPutter, IsSmall, IsTaker, seen_drive, two_facts};

use crate::rooms::{Room, Takers};
use geo_base::{Block, Calls, NoMemory};
use geo_core::Mesh;
use geo_disk::{Drive, MemDisk};
use geo_jobs::{DriveList, Lanes};
use geo_lane::{Lane, LanePass};
use geo_lock::PassList;
use geo_log::DiskFacts;
use geo_model::{DiskDecl, DiskKind};
use geo_script::{Plan, parse};
use std::alloc::Global;

/// Two actors, each of which reads from a disk of its own.
const SCRIPT: &[u8] = b"ram md0 512 16
ram md1 512 16
actor alice
actor bob
alice open h md0 r1w0e0
alice read h 1024 512
alice sync
alice close h
bob open g md1 r1w1e0
bob read g 1024 1024
bob sync
bob close g
";

/// Each byte of the disks.
pub const BYTE: u8 = 0x5a;

pub const REPORT: &[u8] = b"5 ok
6 ok 5a*512
7 ok
8 ok
9 ok
10 ok 5a*1024
11 ok
12 ok
geom DISK md0 rank 1
  provider md0 size 8192 sector 512 r0w0e0
geom DISK md1 rank 1
  provider md1 size 8192 sector 512 r0w0e0
";

/// Two clients, and the five other jobs.
const JOBS: u64 = 7;

// The sector size and the sectors of a disk of 16 sectors in memory, none of another one.
fn fact_of(decl: &DiskDecl) -> Option<(u32, u64)>
    ensures fact { IfSome result (IsFact decl.now) }
    ensures is { IfSome result (λ fact. fact ≡ (512, 16)) }
{
    match decl.kind {
        DiskKind::Ram if decl.sector == 512 && decl.sectors == 16 => Some((512, 16)),
        _ => None,
    }
}

// The sizes of the two disks of a plan, if they are small ones in memory and there is memory for the sizes.
fn facts_of(alloc: Global, plan: &Plan) -> Option<DiskFacts>
    ensures fit { IfSome result (λ facts. FactsFit plan.now facts.items) }
    ensures are { IfSome result (λ facts. facts.items ≡ two_facts) }
{
    let [first, second] = plan.disks() else {
        return None
    };
    let (sector, sectors) = fact_of(first)?;
    let (other_sector, other_sectors) = fact_of(second)?;
    let mut facts = DiskFacts::new(alloc);
    facts.reserve(2).ok()?;
    facts.push(sector, sectors);
    facts.push(other_sector, other_sectors);
    Some(facts)
}

// The mesh of a plan over these disks, if there is memory.
fn mesh_of(alloc: Global, plan: Plan) -> Option<Mesh>
    ensures log { IfSome result (λ mesh. mesh.log ≡ []) }
    ensures facts { IfSome result (λ mesh. mesh.facts ≡ two_facts) }
    ensures history { IfSome result IsHistory }
{
    match facts_of(alloc, &plan) {
        Some(facts) => {
            let mesh = Mesh::begin(alloc, plan, &facts).ok();
            drop(facts);
            mesh
        }
        None => {
            drop(plan);
            None
        }
    }
}

/// The mesh of the script, if there is memory.
pub fn script_mesh(alloc: Global) -> Option<Mesh>
    ensures log { IfSome result (λ mesh. mesh.log ≡ []) }
    ensures facts { IfSome result (λ mesh. mesh.facts ≡ two_facts) }
    ensures history { IfSome result IsHistory }
{
    match parse(alloc, SCRIPT) {
        Ok(plan) => mesh_of(alloc, plan),
        Err(_) => None,
    }
}

// A disk in memory of 16 sectors.
#[tactic(auto, using(crate::proofs::Disks::small_count))]
fn small_disk(alloc: Global) -> Result<MemDisk, NoMemory>
    ensures { IfOk result IsSmall }
{
    let mut bytes = Block::zeros(alloc, 8192)?;
    bytes.bytes_mut().fill(BYTE);
    Ok(MemDisk::new(bytes, 512, Calls::none(alloc)))
}

/// The drives of a disk worker that has this disk alone.
#[tactic(auto, using(crate::proofs::Disks::one_drive))]
pub fn drives_of(alloc: Global, disk: u32) -> Result<DriveList<MemDisk>, NoMemory>
    requires { disk < 2 }
    ensures { IfOk result (λ drives. HasDrives two_facts seen_drive drives.items) }
{
    let mut drives = DriveList::new(alloc);
    drives.reserve(1)?;
    let small = small_disk(alloc)?;
    drives.push(disk, Drive::Ram(small));
    Ok(drives)
}

// Four empty lanes, and their passes 0.
fn open_lanes<R: AllocGlobal>(rt: &R) -> Result<(Lanes, Takers), NoMemory>
    ensures { IfOk result (λ made. AreTakers made.0 0 made.1) }
{
    let (down, down_takes) = Lane::create(rt)?;
    let (up, up_takes) = Lane::create(rt)?;
    let (disk0, disk0_takes) = Lane::create(rt)?;
    let (disk1, disk1_takes) = Lane::create(rt)?;
    let lanes = Lanes {
        down,
        up,
        disk0,
        disk1,
    };
    let takers = Takers {
        down: down_takes,
        up: up_takes,
        disk0: disk0_takes,
        disk1: disk1_takes,
    };
    Ok((lanes, takers))
}

/// One more pass of a lane, which puts tickets.
pub fn putter<R: AllocGlobal>(rt: &R, lane: &Lane, taker: &mut LanePass) -> LanePass
    requires taker { IsTaker lane.now taker.old.split taker.old }
    requires few { taker.old.split < 100 }
    ensures putter { IsPutter lane.now result }
    ensures taker { IsTaker lane.now (taker.old.split + 1) taker.new }
{
    let Ok(pass) = lane.split_pass(rt, taker) else {
        unreachable!()
    };
    pass
}

// Room for the passes of the jobs, and for that of their opener.
fn passes_for(alloc: Global) -> Result<PassList<Mesh>, NoMemory>
    ensures none { IfOk result (λ passes. passes.items ≡ []) }
    ensures room { IfOk result (λ passes. 8 ≤ passes.spare) }
{
    let mut passes = PassList::new(alloc);
    passes.reserve(JOBS + 1)?;
    Ok(passes)
}

/// All that the jobs take, if there is memory.
pub fn make_room<R: AllocGlobal>(rt: &R) -> Result<Room, NoMemory>
    ensures { IfOk result HasRoom }
{
    let alloc = rt.alloc();
    let first = drives_of(alloc, 0)?;
    let second = drives_of(alloc, 1)?;
    let workers = Vec::with_capacity(alloc, JOBS as usize)?;
    let passes = passes_for(alloc)?;
    let (lanes, takers) = open_lanes(rt)?;
    Ok(Room {
        first,
        second,
        workers,
        passes,
        lanes,
        takers,
    })
}
