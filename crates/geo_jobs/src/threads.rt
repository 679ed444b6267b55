//! The threads of a run.
ghost use Rattle.std.specs.Prelude.{◌≡◌, ◌<◌, [], None, IfErr, IfOk, IfSome, IsSome, length, map, vec_len};
ghost use Rattle.std.specs.List.{AllZip};
ghost use Rattle.geo_model.specs.Listing.{listing};
ghost use Rattle.geo_lock.specs.Yard.{first_pass};
ghost use Rattle.geo_serve.specs.Drives.{drive_view};
ghost use Rattle.geo_core.specs.Mesh.{IsHistory, world_of};
ghost use Rattle.geo_core.specs.Logged.{mesh_of};
ghost use Rattle.geo_jobs.specs.Workers.{WorkerRan};
ghost use Rattle.geo_jobs.specs.declared.left.Seen.TheVariants.{Nothing};
ghost use Rattle.geo_jobs.specs.Left.{DrivesFit, ThreadsRan};
ghost use Rattle.geo_jobs.specs.Rooms.{HasRoom};
ghost use Rattle.geo_jobs.specs.Started.{AreReady};
ghost use Rattle.geo_jobs.specs.Viewed.{HasLooked, ShowsPrefixOf, begun_by, seen_by};

use crate::close::close_all;
use crate::crew::{Crew, Given, start_all};
use crate::gate::Gate;
use crate::lanes::Lanes;
use crate::left::Left;
use crate::room::{Room, make_room};
use crate::run::{Worker, run_jobs};
use crate::watch::{look_last, look_on, take_publisher};
use crate::watcher::Watcher;
use geo_core::Mesh;
use geo_disk::{Disk, Drive};
use geo_lock::{Pass, Yard};
use geo_model::MeshList;
use std::sync::Wait;
use std::thread;
use std::thread::Threads;

// All workers run.
fn run_all<D: Disk + Drop + Send, G: Gate + Sync, R: Threads + Wait + Sync + AllocGlobal>(
    rt: &R,
    yard: &Yard<Mesh>,
    lanes: &Lanes,
    gate: &G,
    mut workers: Vec<Worker<D>>,
) -> Vec<Worker<D>>
    requires some { 0 < length workers.items }
    requires ready { AreReady yard.now lanes.now (drive_view D.view) workers.items }
    ensures { AllZip (WorkerRan yard.now lanes.now (drive_view D.view)) workers.items result.items }
{
    run_jobs(rt, yard, lanes, gate, workers.as_mut_slice());
    workers
}

// All workers run, and beside them one thread more looks at what is shown, if anything is.
fn run_watched<D: Disk + Drop + Send, G: Gate + Sync, R: Threads + Wait + Sync + AllocGlobal>(
    rt: &R,
    yard: &Yard<Mesh>,
    lanes: &Lanes,
    gate: &G,
    crew: Crew<D>,
) -> Crew<D>
    requires some { 0 < length crew.workers.items }
    requires ready { AreReady yard.now lanes.now (drive_view D.view) crew.workers.items }
    ensures ran { AllZip (WorkerRan yard.now lanes.now (drive_view D.view)) crew.workers.items result.workers.items }
    ensures view { seen_by result.watcher ≡ seen_by crew.watcher }
    ensures begun { begun_by result.watcher ≡ begun_by crew.watcher }
{
    let Crew { workers, watcher } = crew;
    let Some(watcher) = watcher else {
        let workers = run_all(rt, yard, lanes, gate, workers);
        return Crew {
            workers,
            watcher: None,
        };
    };
    let (watcher, workers) = thread::join(
        rt,
        move || -> Watcher
            ensures view { result.view ≡ watcher.view }
            ensures of { result.of ≡ watcher.of }
        { look_on(watcher) },
        move || -> Vec<Worker<D>>
            requires some { 0 < length workers.items }
            requires ready { AreReady yard.now lanes.now (drive_view D.view) workers.items }
            ensures { AllZip (WorkerRan yard.entry.now lanes.entry.now (drive_view D.view)) workers.items result.items }
        { run_all(rt, yard, lanes, gate, workers) },
    );
    Crew {
        workers,
        watcher: Some(watcher),
    }
}

// A run in a yard, with the memory that it takes.
fn run_in_yard<D: Disk + Drop + Send, G: Gate + Sync, R: Threads + Wait + Sync + AllocGlobal>(
    rt: &R,
    gate: &G,
    yard: Yard<Mesh>,
    mut first: Pass<Mesh>,
    room: Room<D>,
    actors: u32,
    given: Given<D>,
) -> Result<Left<D>, Vec<Drive<D>>>
    requires first { first ≡ first_pass yard }
    requires shown { IfSome given.shown (λ list. list ≡ listing (world_of (mesh_of yard.start []))) }
    requires history { IsHistory (mesh_of yard.start []) }
    requires fit { DrivesFit (mesh_of yard.start []) (map (drive_view D.view) given.drives.items) }
    requires actors { actors ≡ length yard.start.plan.actors }
    requires room { HasRoom actors (vec_len given.drives) room }
    ensures err { IfErr result (λ back. back.items ≡ given.drives.items) }
    ensures ok { IfOk result (λ left. ThreadsRan (mesh_of yard.start []) left.mesh
        (map (drive_view D.view) given.drives.items) (map (drive_view D.view) left.drives.items) left.ended) }
    ensures unseen { given.shown ≡ None → IfOk result (λ left. left.seen ≡ Nothing) }
    ensures shows { IfOk result (λ left. ShowsPrefixOf left.mesh left.seen) }
    ensures looked { IsSome given.shown → 0 < actors → IfOk result (λ left. HasLooked left.seen) }
{
    let Room {
        begins,
        comes,
        lanes,
    } = room;
    match start_all(rt, &yard, &mut first, &lanes, begins, actors, given) {
        Ok(crew) => {
            let crew = run_watched(rt, &yard, &lanes, gate, crew);
            let Crew {
                mut workers,
                watcher,
            } = crew;
            let publisher = take_publisher(&mut workers);
            let seen = look_last(rt, watcher, publisher);
            Ok(close_all(rt, yard, first, workers, comes, seen))
        }
        Err(drives) => Err(drives),
    }
}

// How many actors the plan of a mesh has.
fn actors_of(mesh: &Mesh) -> u32
    ensures { result ≡ length mesh.now.plan.actors }
{
    let plan = mesh.plan();
    plan.actors().len() as u32
}

// A run of a mesh, in room that was made for it. Where there is no memory for the yard, the drives come back.
fn run_in_room<D: Disk + Drop + Send, G: Gate + Sync, R: Threads + Wait + Sync + AllocGlobal>(
    rt: &R,
    gate: &G,
    mesh: Mesh,
    room: Room<D>,
    actors: u32,
    given: Given<D>,
) -> Result<Left<D>, Vec<Drive<D>>>
    requires new { mesh.log ≡ [] }
    requires shown { IfSome given.shown (λ list. list ≡ listing (world_of mesh)) }
    requires history { IsHistory mesh }
    requires fit { DrivesFit mesh (map (drive_view D.view) given.drives.items) }
    requires actors { actors ≡ length mesh.plan.actors }
    requires room { HasRoom actors (vec_len given.drives) room }
    ensures err { IfErr result (λ back. back.items ≡ given.drives.items) }
    ensures ok { IfOk result (λ left. ThreadsRan mesh left.mesh (map (drive_view D.view) given.drives.items)
        (map (drive_view D.view) left.drives.items) left.ended) }
    ensures unseen { given.shown ≡ None → IfOk result (λ left. left.seen ≡ Nothing) }
    ensures shows { IfOk result (λ left. ShowsPrefixOf left.mesh left.seen) }
    ensures looked { IsSome given.shown → 0 < actors → IfOk result (λ left. HasLooked left.seen) }
{
    match Yard::create(rt, mesh) {
        Ok((yard, first)) => run_in_yard(rt, gate, yard, first, room, actors, given),
        Err(fault) => {
            drop(fault);
            drop(room);
            Err(given.drives)
        }
    }
}

/// Runs the jobs of a mesh that has made no step, each in a thread of its own where one can be made: a client for each
/// actor, the event worker, the down worker, the up worker, and two disk workers, to which the drives go in turn. The
/// drives are those of the mesh, in header order. If `shown` is there, it is the mesh as it is printed before the first
/// step: the client of the first actor shows it and each listing that it is replied, and one thread more looks at what
/// is shown, a thousand times and once more when all jobs have ended. On `Err` memory was wanting before the first job:
/// the drives come back as they were, and the mesh is dropped.
pub fn run_threads<D: Disk + Drop + Send, G: Gate + Sync, R: Threads + Wait + Sync + AllocGlobal>(
    rt: &R,
    gate: &G,
    mesh: Mesh,
    drives: Vec<Drive<D>>,
    shown: Option<MeshList>,
) -> Result<Left<D>, Vec<Drive<D>>>
    requires new { mesh.log ≡ [] }
    requires shown { IfSome shown (λ list. list ≡ listing (world_of mesh)) }
    requires history { IsHistory mesh }
    requires fit { DrivesFit mesh (map (drive_view D.view) drives.items) }
    ensures err { IfErr result (λ back. back.items ≡ drives.items) }
    ensures ok { IfOk result (λ left. ThreadsRan mesh left.mesh (map (drive_view D.view) drives.items)
        (map (drive_view D.view) left.drives.items) left.ended) }
    ensures unseen { shown ≡ None → IfOk result (λ left. left.seen ≡ Nothing) }
    ensures shows { IfOk result (λ left. ShowsPrefixOf left.mesh left.seen) }
    ensures looked { IsSome shown → 0 < length mesh.plan.actors → IfOk result (λ left. HasLooked left.seen) }
{
    let actors = actors_of(&mesh);
    match make_room(rt, actors, drives.len()) {
        Ok(room) => run_in_room(rt, gate, mesh, room, actors, Given { drives, shown }),
        Err(_) => {
            drop(mesh);
            Err(drives)
        }
    }
}
