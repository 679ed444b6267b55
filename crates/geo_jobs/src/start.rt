//! The workers of a run, before they begin.
ghost use Rattle.std.specs.Prelude.{◌≡◌, ◌+◌, ◌<◌, ◌≤◌, ◌^◌, ℕ, false, [], ◌∷◌, ◌++◌, List, Some, None, IfOk, IfSome, IsSome, OnOk, length, vec_capacity, vec_len};
ghost use mathlib.Core.List.{IsPrefix};
ghost use Rattle.geo_base.specs.declared.limits.TheConstants.{MAX_ACTORS};
ghost use Rattle.geo_disk.specs.declared.drive.Drive.{Drive as DriveValue};
ghost use Rattle.geo_serve.specs.Drives.{drive_view};
ghost use Rattle.geo_jobs.specs.Ends.{begun_of};
ghost use Rattle.geo_jobs.specs.Drives.{HasDrives};
ghost use Rattle.geo_jobs.specs.Deal.{dealt};
ghost use Rattle.geo_jobs.specs.Lanes.{taker_of, takers_of};
ghost use Rattle.geo_jobs.specs.Listings.{listing_seen};
ghost use Rattle.geo_jobs.specs.Started.{AreStarted, HasBegun, IsFirst, beginning, other_workers, pass_of_number};
ghost use Rattle.geo_jobs.specs.Viewed.{LooksAtFirst, first_view};

use crate::drive_list::DriveList;
use crate::job::Job;
use crate::lanes::Lanes;
use crate::passes::{Passes, Takers, passes_of, putter};
use crate::publisher::view_create;
use crate::run::Worker;
use crate::turn::Turn;
use crate::watcher::Watcher;
use geo_base::NoMemory;
use geo_core::Mesh;
use geo_disk::Disk;
use geo_lane::LanePass;
use geo_lock::{Pass, Yard};
use geo_model::MeshList;

// The next pass.
fn next_pass(yard: &Yard<Mesh>, first: &mut Pass<Mesh>) -> Pass<Mesh>
    requires first { IsFirst yard.now first.old.made first.old }
    requires room { first.old.made < 2 ^ 16 }
    ensures pass { result ≡ pass_of_number first.old first.old.made }
    ensures first { first.new ≡ record first.old { made = first.old.made + 1 } }
{
    yard.split(first)
}

// Puts a worker for a new job behind the others, in room that was made.
fn hire<D>(workers: &mut Vec<Worker<D>>, job: Job<D>)
    requires new { job.quiet ≡ false }
    requires room { vec_len workers.old < vec_capacity workers.old }
    ensures items { workers.new.items ≡ workers.old.items ++ beginning job.pass job.role ∷ [] }
    ensures room { vec_capacity workers.new ≡ vec_capacity workers.old }
{
    workers.push_reserved(Worker {
        job,
        answer: Turn::Idle,
    });
}

// Starts the client of the first actor, which shows each listing that it is replied. Who looks at them comes back, and
// is shown the list first, which is the mesh as the pass 0 has seen it.
fn start_viewed<D: Disk, R: AllocGlobal>(
    rt: &R,
    yard: &Yard<Mesh>,
    first: &mut Pass<Mesh>,
    lanes: &Lanes,
    down: &mut LanePass,
    list: MeshList,
    workers: &mut Vec<Worker<D>>,
) -> Result<Watcher, NoMemory>
    requires first { IsFirst yard.now 1 first.old }
    requires list { list ≡ listing_seen first.old }
    requires down { down.old ≡ taker_of lanes.now.down 0 }
    requires none { workers.old.items ≡ [] }
    requires room { 1 ≤ vec_capacity workers.old }
    ensures begun { OnOk result ((actors : ℕ) → 0 < actors
        → HasBegun yard.now lanes.now (drive_view D.view) actors first.new down.new workers.new.items) }
    ensures view { IfOk result (λ watcher. first_view workers.new.items ≡ Some watcher.view) }
    ensures of_yard { IfOk result (λ watcher. begun_of watcher ≡ Some yard.now.start) }
    ensures room { OnOk result (vec_capacity workers.new ≡ vec_capacity workers.old) }
{
    let pass = next_pass(yard, first);
    let (publisher, watcher) = view_create(rt, &pass, list)?;
    let puts = putter(rt, &lanes.down, down);
    hire(workers, Job::client(pass, 0, puts, Some(publisher)));
    Ok(watcher)
}

/// Starts the client of the first actor and who looks at what it shows, if the mesh is to be shown and there is an
/// actor. `shown` is the mesh as the pass 0 has seen it.
#[tactic(auto, using(crate::proofs::RunStarting::none_begun))]
pub fn start_view<D: Disk, R: AllocGlobal>(
    rt: &R,
    yard: &Yard<Mesh>,
    first: &mut Pass<Mesh>,
    lanes: &Lanes,
    down: &mut LanePass,
    actors: u32,
    shown: Option<MeshList>,
    workers: &mut Vec<Worker<D>>,
) -> Result<Option<Watcher>, NoMemory>
    requires first { IsFirst yard.now 1 first.old }
    requires list { IfSome shown (λ list. list ≡ listing_seen first.old) }
    requires down { down.old ≡ taker_of lanes.now.down 0 }
    requires none { workers.old.items ≡ [] }
    requires room { actors ≤ vec_capacity workers.old }
    ensures begun { OnOk result (HasBegun yard.now lanes.now (drive_view D.view) actors first.new down.new
        workers.new.items) }
    ensures room { OnOk result (vec_capacity workers.new ≡ vec_capacity workers.old) }
    ensures view { IfOk result (λ watcher. LooksAtFirst watcher workers.new.items) }
    ensures none { shown ≡ None → IfOk result (λ watcher. watcher ≡ None) }
    ensures of_yard { IfOk result (λ watcher. IfSome watcher (λ w. begun_of w ≡ Some yard.now.start)) }
    ensures some { IsSome shown → 0 < actors → IfOk result (λ watcher. IsSome watcher) }
{
    let Some(list) = shown else {
        return Ok(None);
    };
    if actors == 0 {
        return Ok(None);
    }
    let watcher = start_viewed(rt, yard, first, lanes, down, list, workers)?;
    Ok(Some(watcher))
}

// The clients of so many actors, behind those that have begun.
fn start_clients<D: Disk, R: AllocGlobal>(
    rt: &R,
    yard: &Yard<Mesh>,
    first: &mut Pass<Mesh>,
    lanes: &Lanes,
    down: &mut LanePass,
    actors: u32,
    workers: &mut Vec<Worker<D>>,
)
    requires few { actors ≤ MAX_ACTORS }
    requires begun { HasBegun yard.now lanes.now (drive_view D.view) actors first.old down.old workers.old.items }
    requires room { actors ≤ vec_capacity workers.old }
    ensures begins { IsPrefix workers.old.items workers.new.items }
    ensures first { IsFirst yard.now (actors + 1) first.new }
    ensures down { down.new ≡ taker_of lanes.now.down actors }
    ensures started { (drives : List (DriveValue D))
        → AreStarted yard.now lanes.now (drive_view D.view) actors drives 1 workers.new.items }
    ensures count { length workers.new.items ≡ actors }
    ensures room { vec_capacity workers.new ≡ vec_capacity workers.old }
{
    for actor in workers.len() as u32..actors {
        let pass = next_pass(yard, first);
        let puts = putter(rt, &lanes.down, down);
        hire(workers, Job::client(pass, actor, puts, None));
    }
}

// The workers that aren't clients.
fn start_others<D>(
    yard: &Yard<Mesh>,
    first: &mut Pass<Mesh>,
    passes: Passes,
    even: DriveList<D>,
    odd: DriveList<D>,
    workers: &mut Vec<Worker<D>>,
)
    requires few { first.old.made < 100 }
    requires first { IsFirst yard.now first.old.made first.old }
    requires room { vec_len workers.old + 5 ≤ vec_capacity workers.old }
    ensures first { IsFirst yard.now (first.old.made + 5) first.new }
    ensures items { workers.new.items ≡ workers.old.items ++ other_workers first.old passes even odd }
{
    let Passes {
        events_down,
        down_takes,
        down_up,
        down_disk0,
        down_disk1,
        up_takes,
        disk0_takes,
        disk0_up,
        disk1_takes,
        disk1_up,
    } = passes;
    hire(workers, Job::events(next_pass(yard, first), events_down));
    let pass = next_pass(yard, first);
    hire(
        workers,
        Job::down(pass, down_takes, down_up, down_disk0, down_disk1),
    );
    hire(workers, Job::up(next_pass(yard, first), up_takes));
    hire(
        workers,
        Job::disk(next_pass(yard, first), 0, even, disk0_takes, disk0_up),
    );
    hire(
        workers,
        Job::disk(next_pass(yard, first), 1, odd, disk1_takes, disk1_up),
    );
}

/// The workers of so many actors, behind those that have begun, in order of their numbers: a client for each actor, the
/// event worker, the down worker, the up worker, and the disk workers with their drives.
pub fn start<D: Disk, R: AllocGlobal>(
    rt: &R,
    yard: &Yard<Mesh>,
    first: &mut Pass<Mesh>,
    lanes: &Lanes,
    takers: Takers,
    actors: u32,
    even: DriveList<D>,
    odd: DriveList<D>,
    workers: &mut Vec<Worker<D>>,
)
    requires few { actors ≤ MAX_ACTORS }
    requires takers { takers ≡ takers_of lanes.now (length workers.old.items) }
    requires begun { HasBegun yard.now lanes.now (drive_view D.view) actors first.old takers.down workers.old.items }
    requires room { actors + 5 ≤ vec_capacity workers.old }
    ensures begins { IsPrefix workers.old.items workers.new.items }
    ensures first { IsFirst yard.now (actors + 6) first.new }
    ensures started { (drives : List (DriveValue D)) → even.items ≡ dealt 0 drives → odd.items ≡ dealt 1 drives
        → HasDrives yard.now.start.facts (drive_view D.view) even.items
        → HasDrives yard.now.start.facts (drive_view D.view) odd.items
        → AreStarted yard.now lanes.now (drive_view D.view) actors drives 1 workers.new.items }
    ensures count { length workers.new.items ≡ actors + 5 }
{
    let mut takers = takers;
    start_clients(rt, yard, first, lanes, &mut takers.down, actors, workers);
    let passes = passes_of(rt, lanes, takers);
    start_others(yard, first, passes, even, odd, workers);
}
