//! The workers of a run that begin, and who looks at what they show.
ghost use Rattle.std.specs.Prelude.{◌≡◌, ◌<◌, ◌≤◌, [], Some, None, IfErr, IfOk, IfSome, IsSome, map, vec_len};
ghost use Rattle.geo_base.specs.declared.limits.TheConstants.{MAX_ACTORS, MAX_DISKS};
ghost use Rattle.geo_serve.specs.Drives.{drive_view};
ghost use Rattle.geo_jobs.specs.Ends.{begun_of};
ghost use Rattle.geo_jobs.specs.Listings.{listing_seen};
ghost use Rattle.geo_core.specs.Logged.{mesh_of};
ghost use Rattle.geo_jobs.specs.Crews.{Begins};
ghost use Rattle.geo_jobs.specs.Left.{DrivesFit};
ghost use Rattle.geo_jobs.specs.Rooms.{CanStart};
ghost use Rattle.geo_jobs.specs.Started.{IsFirst};

use crate::deal::deal;
use crate::lanes::Lanes;
use crate::room::StartRoom;
use crate::run::Worker;
use crate::start::{start, start_view};
use crate::watcher::Watcher;
use geo_core::Mesh;
use geo_disk::{Disk, Drive};
use geo_lock::{Pass, Yard};
use geo_model::MeshList;

/// What a run is given beside the mesh: the drives in header order, and the mesh as it is printed before the first
/// step, if it is to be shown.
#[derive(Drop)]
pub struct Given<D> {
    pub drives: Vec<Drive<D>>,
    pub shown: Option<MeshList>,
}

/// The workers of a run, and who looks at what the first of them shows, if it shows.
#[derive(Drop)]
pub struct Crew<D> {
    pub workers: Vec<Worker<D>>,
    pub watcher: Option<Watcher>,
}

/// The workers of so many actors, with the drives, and who looks at what the first of them shows, if the mesh is to be
/// shown and there is an actor. On `Err` memory was wanting for what is shown, and the drives come back.
pub fn start_all<D: Disk + Drop, R: AllocGlobal>(
    rt: &R,
    yard: &Yard<Mesh>,
    first: &mut Pass<Mesh>,
    lanes: &Lanes,
    room: StartRoom<D>,
    actors: u32,
    given: Given<D>,
) -> Result<Crew<D>, Vec<Drive<D>>>
    requires few { actors ≤ MAX_ACTORS }
    requires few_drives { vec_len given.drives ≤ MAX_DISKS }
    requires first { IsFirst yard.now 1 first.old }
    requires shown { IfSome given.shown (λ list. list ≡ listing_seen first.old) }
    requires fit { DrivesFit (mesh_of yard.now.start []) (map (drive_view D.view) given.drives.items) }
    requires room { CanStart lanes.now actors (vec_len given.drives) room }
    ensures err { IfErr result (λ back. back.items ≡ given.drives.items) }
    ensures ok { IfOk result (λ crew. Begins yard.now lanes.now (drive_view D.view) actors given.drives.items first.new
        crew) }
    ensures unseen { given.shown ≡ None → IfOk result (λ crew. crew.watcher ≡ None) }
    ensures of_yard { IfOk result (λ crew. IfSome crew.watcher (λ w. begun_of w ≡ Some yard.now.start)) }
    ensures watched { IsSome given.shown → 0 < actors → IfOk result (λ crew. IsSome crew.watcher) }
{
    let StartRoom {
        mut workers,
        mut even,
        mut odd,
        mut takers,
    } = room;
    let Given { drives, shown } = given;
    let down = &mut takers.down;
    match start_view(rt, yard, first, lanes, down, actors, shown, &mut workers) {
        Ok(watcher) => {
            deal(drives, &mut even, &mut odd);
            start(
                rt,
                yard,
                first,
                lanes,
                takers,
                actors,
                even,
                odd,
                &mut workers,
            );
            Ok(Crew { workers, watcher })
        }
        Err(_) => Err(drives),
    }
}
