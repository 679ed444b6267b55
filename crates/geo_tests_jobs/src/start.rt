//! The jobs of the script, before they begin.
ghost use Rattle.std.specs.Prelude.{◌≡◌, ℕ, ◌+◌, ◌<◌, ◌≤◌, [], List, length, vec_capacity};
ghost use Rattle.geo_jobs.specs.Drives.{HasDrives};
ghost use Rattle.geo_jobs.specs.Jobs.{HasItsDrives};
ghost use Rattle.geo_jobs.specs.Turns.{lane_of};
ghost use Rattle.geo_jobs.specs.declared.lanes.Lanes.{Lanes as LanesValue};
ghost use Rattle.geo_tests_jobs.specs.Benches.{AreTakers, IsPutter, IsTaker, seen_drive};
ghost use Rattle.geo_tests_jobs.specs.Standing.{AreStanding, IsFirst, IsNewRole};

use crate::bench::putter;
use crate::rooms::Takers;
use geo_core::Mesh;
use geo_disk::MemDisk;
use geo_jobs::{
    ClientJob, DiskJob, DownJob, DriveList, EventJob, Job, Lanes, Role, Turn, UpJob, Worker,
};
use geo_lane::LanePass;
use geo_lock::{Pass, Yard};

// Starts the job of a role, with the next pass.
fn hire(
    yard: &Yard<Mesh>,
    lanes: &Lanes,
    opener: &mut Pass<Mesh>,
    role: Role<MemDisk>,
    workers: &mut Vec<Worker<MemDisk>>,
)
    requires opener { IsFirst yard.now (length workers.old.items + 1) opener.old }
    requires few { length workers.old.items < 7 }
    requires room { 7 ≤ vec_capacity workers.old }
    requires role { IsNewRole lanes.now role }
    requires drives { HasItsDrives yard.now.start.facts seen_drive role }
    requires standing { AreStanding yard.now lanes.now 1 workers.old.items }
    ensures opener { IsFirst yard.now (length workers.new.items + 1) opener.new }
    ensures count { length workers.new.items ≡ length workers.old.items + 1 }
    ensures room { 7 ≤ vec_capacity workers.new }
    ensures standing { AreStanding yard.now lanes.now 1 workers.new.items }
{
    let pass = yard.split(opener);
    workers.push_reserved(Worker {
        job: Job {
            pass,
            role,
            quiet: false,
        },
        answer: Turn::Worked,
    });
}

// The client of an actor.
#[tactic(auto, using(crate::proofs::Roles::puts_none, crate::proofs::Roles::within_none))]
fn client(actor: u32, down: LanePass) -> Role<MemDisk>
    ensures new { (lanes : LanesValue) → IsPutter lanes.down down → IsNewRole lanes result }
    ensures drives { (facts : List (ℕ × ℕ)) → HasItsDrives facts seen_drive result }
{
    Role::Client(ClientJob {
        actor,
        line: 0,
        down,
        publisher: None,
    })
}

// The event worker.
#[tactic(auto, using(crate::proofs::Roles::puts_none, crate::proofs::Roles::within_none))]
fn events(down: LanePass) -> Role<MemDisk>
    ensures new { (lanes : LanesValue) → IsPutter lanes.down down → IsNewRole lanes result }
    ensures drives { (facts : List (ℕ × ℕ)) → HasItsDrives facts seen_drive result }
{
    Role::Events(EventJob { down })
}

// The down worker.
#[tactic(auto, using(crate::proofs::Roles::puts_none, crate::proofs::Roles::within_none))]
fn down_worker(down: LanePass, up: LanePass, disk0: LanePass, disk1: LanePass) -> Role<MemDisk>
    ensures new { (lanes : LanesValue) → IsTaker lanes.down down.split down → IsPutter lanes.up up
        → IsPutter lanes.disk0 disk0 → IsPutter lanes.disk1 disk1 → IsNewRole lanes result }
    ensures drives { (facts : List (ℕ × ℕ)) → HasItsDrives facts seen_drive result }
{
    Role::Down(DownJob {
        down,
        up,
        disk0,
        disk1,
    })
}

// The up worker.
#[tactic(auto, using(crate::proofs::Roles::puts_none, crate::proofs::Roles::within_none))]
fn up_worker(up: LanePass) -> Role<MemDisk>
    ensures new { (lanes : LanesValue) → IsTaker lanes.up up.split up → IsNewRole lanes result }
    ensures drives { (facts : List (ℕ × ℕ)) → HasItsDrives facts seen_drive result }
{
    Role::Up(UpJob { up })
}

// A disk worker.
#[tactic(auto, using(crate::proofs::Roles::puts_none, crate::proofs::Roles::within_none))]
fn disk_worker(
    worker: u32,
    drives: DriveList<MemDisk>,
    own: LanePass,
    up: LanePass,
) -> Role<MemDisk>
    ensures new { (lanes : LanesValue) → IsTaker (lane_of lanes worker) own.split own → IsPutter lanes.up up
        → IsNewRole lanes result }
    ensures drives { (facts : List (ℕ × ℕ)) → HasDrives facts seen_drive drives.items
        → HasItsDrives facts seen_drive result }
{
    Role::Disk(DiskJob {
        worker,
        drives,
        own,
        up,
    })
}

// The two clients and the event worker.
fn start_upper<R: AllocGlobal>(
    rt: &R,
    yard: &Yard<Mesh>,
    lanes: &Lanes,
    opener: &mut Pass<Mesh>,
    takers: &mut Takers,
    workers: &mut Vec<Worker<MemDisk>>,
)
    requires opener { IsFirst yard.now 1 opener.old }
    requires none { workers.old.items ≡ [] }
    requires room { 7 ≤ vec_capacity workers.old }
    requires takers { AreTakers lanes.now 1 takers.old }
    ensures opener { IsFirst yard.now 4 opener.new }
    ensures count { length workers.new.items ≡ 3 }
    ensures room { 7 ≤ vec_capacity workers.new }
    ensures takers { AreTakers lanes.now 4 takers.new }
    ensures standing { AreStanding yard.now lanes.now 1 workers.new.items }
{
    let first = putter(rt, &lanes.down, &mut takers.down);
    let second = putter(rt, &lanes.down, &mut takers.down);
    let third = putter(rt, &lanes.down, &mut takers.down);
    hire(yard, lanes, opener, client(0, first), workers);
    hire(yard, lanes, opener, client(1, second), workers);
    hire(yard, lanes, opener, events(third), workers);
}

// The down worker, the up worker and the disk workers.
fn start_lower<R: AllocGlobal>(
    rt: &R,
    yard: &Yard<Mesh>,
    lanes: &Lanes,
    opener: &mut Pass<Mesh>,
    takers: Takers,
    first: DriveList<MemDisk>,
    second: DriveList<MemDisk>,
    workers: &mut Vec<Worker<MemDisk>>,
)
    requires opener { IsFirst yard.now 4 opener.old }
    requires count { length workers.old.items ≡ 3 }
    requires room { 7 ≤ vec_capacity workers.old }
    requires takers { AreTakers lanes.now 4 takers }
    requires first { HasDrives yard.now.start.facts seen_drive first.items }
    requires second { HasDrives yard.now.start.facts seen_drive second.items }
    requires standing { AreStanding yard.now lanes.now 1 workers.old.items }
    ensures opener { IsFirst yard.now 8 opener.new }
    ensures count { length workers.new.items ≡ 7 }
    ensures standing { AreStanding yard.now lanes.now 1 workers.new.items }
{
    let Takers {
        down,
        mut up,
        mut disk0,
        mut disk1,
    } = takers;
    let down_up = putter(rt, &lanes.up, &mut up);
    let disk0_up = putter(rt, &lanes.up, &mut up);
    let disk1_up = putter(rt, &lanes.up, &mut up);
    let down_disk0 = putter(rt, &lanes.disk0, &mut disk0);
    let down_disk1 = putter(rt, &lanes.disk1, &mut disk1);
    let role = down_worker(down, down_up, down_disk0, down_disk1);
    hire(yard, lanes, opener, role, workers);
    hire(yard, lanes, opener, up_worker(up), workers);
    let role = disk_worker(0, first, disk0, disk0_up);
    hire(yard, lanes, opener, role, workers);
    let role = disk_worker(1, second, disk1, disk1_up);
    hire(yard, lanes, opener, role, workers);
}

/// The seven jobs, with the passes that come next, in room that was made.
pub fn start<R: AllocGlobal>(
    rt: &R,
    yard: &Yard<Mesh>,
    lanes: &Lanes,
    opener: &mut Pass<Mesh>,
    mut takers: Takers,
    first: DriveList<MemDisk>,
    second: DriveList<MemDisk>,
    workers: &mut Vec<Worker<MemDisk>>,
)
    requires opener { IsFirst yard.now 1 opener.old }
    requires none { workers.old.items ≡ [] }
    requires room { 7 ≤ vec_capacity workers.old }
    requires takers { AreTakers lanes.now 1 takers }
    requires first { HasDrives yard.now.start.facts seen_drive first.items }
    requires second { HasDrives yard.now.start.facts seen_drive second.items }
    ensures opener { IsFirst yard.now 8 opener.new }
    ensures count { length workers.new.items ≡ 7 }
    ensures standing { AreStanding yard.now lanes.now 1 workers.new.items }
{
    start_upper(rt, yard, lanes, opener, &mut takers, workers);
    start_lower(rt, yard, lanes, opener, takers, first, second, workers);
}
