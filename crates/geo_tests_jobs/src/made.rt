//! What no clause says: each job that is made goes back into its parts.
ghost use Rattle.std.specs.Prelude.{◌≡◌, []};
ghost use Rattle.geo_lock.specs.Yard.{first_pass};
ghost use Rattle.geo_jobs.specs.Mesh.{IsHistory};

use crate::bench::{drives_of, script_mesh};
use geo_base::NoMemory;
use geo_core::Mesh;
use geo_disk::MemDisk;
use geo_jobs::{DriveList, Job, JobParts, Role};
use geo_lane::{Lane, LanePass};
use geo_lock::{Pass, Yard};
use std::test::Fail;

/// What a job is.
#[derive(Clone, Copy, Debug, PartialEq, Eq)]
enum Part {
    Client(u32),
    Events,
    Down,
    Up,
    Disk(u32),
}

/// What is told of a job: its part, whether it is quiet, and the disk of its first drive, if it has one.
type Told = (Part, bool, Option<u32>);

// The pass 0 of a lane of its own.
fn lane_pass<R: AllocGlobal>(rt: &R) -> Result<LanePass, NoMemory> {
    let (lane, pass) = Lane::create(rt)?;
    drop(lane);
    Ok(pass)
}

// What a job is.
fn part_of(job: &Job<MemDisk>) -> Part {
    match &job.role {
        Role::Client(client) => Part::Client(client.actor),
        Role::Events(_) => Part::Events,
        Role::Down(_) => Part::Down,
        Role::Up(_) => Part::Up,
        Role::Disk(disk) => Part::Disk(disk.worker),
    }
}

// The disk of the first drive.
fn first_disk(drives: Option<DriveList<MemDisk>>) -> Option<u32> {
    let mut drives = drives?;
    let first = drives.take_first();
    drop(drives);
    let (disk, drive) = first?;
    drop(drive);
    Some(disk)
}

// What is told of a job, whose parts are dropped.
fn told(job: Job<MemDisk>) -> Told {
    let part = part_of(&job);
    let quiet = job.quiet;
    let JobParts { pass, drives } = job.parts();
    drop(pass);
    (part, quiet, first_disk(drives))
}

// The job of a kind, from 0 to 4, with a pass.
fn made<R: AllocGlobal>(rt: &R, kind: u32, pass: Pass<Mesh>) -> Result<Job<MemDisk>, NoMemory> {
    match kind {
        0 => Ok(Job::client(pass, 7, lane_pass(rt)?, None)),
        1 => Ok(Job::events(pass, lane_pass(rt)?)),
        2 => {
            let (down, up) = (lane_pass(rt)?, lane_pass(rt)?);
            let (disk0, disk1) = (lane_pass(rt)?, lane_pass(rt)?);
            Ok(Job::down(pass, down, up, disk0, disk1))
        }
        3 => Ok(Job::up(pass, lane_pass(rt)?)),
        _ => {
            let drives = drives_of(rt.alloc(), 1)?;
            let (own, up) = (lane_pass(rt)?, lane_pass(rt)?);
            Ok(Job::disk(pass, 1, drives, own, up))
        }
    }
}

// What is told of the job of a kind over a mesh.
fn told_over<R: AllocGlobal>(rt: &R, mesh: Mesh, kind: u32) -> Result<Told, Fail>
    requires log { mesh.log ≡ [] }
    requires history { IsHistory mesh }
{
    match Yard::create(rt, mesh) {
        Ok((yard, pass)) => {
            let job = made(rt, kind, pass);
            drop(yard);
            Ok(told(job?))
        }
        Err(fault) => {
            drop(fault);
            Err("no memory".into())
        }
    }
}

#[test]
fn a_job_goes_back_into_its_parts(rt: HostRuntime) -> Result<(), Fail> {
    let parts = [
        (Part::Client(7), None),
        (Part::Events, None),
        (Part::Down, None),
        (Part::Up, None),
        (Part::Disk(1), Some(1)),
    ];
    for (kind, (part, disk)) in parts.iter().enumerate() {
        let mesh = script_mesh(rt.alloc()).ok_or("no memory")?;
        let told = told_over(&rt, mesh, kind as u32)?;
        assert_eq!(rt; told, (*part, false, *disk));
    }
    Ok(())
}
