//! The works of threads: a script that is run by jobs, and what is reported of it.
ghost use Rattle.std.specs.Prelude.{◌≡◌, ◌<◌, ◌^◌, [], Err, None, length, map, IfOk, IfSome, OnOk, IsErrOf};
ghost use Rattle.geo_model.specs.FixedOrder.{fixed_order};
ghost use Rattle.geo_model.specs.Laws.{NoneBusy};
ghost use Rattle.geo_model.specs.Listing.{listing};
ghost use Rattle.geo_model.specs.Order.{Rest};
ghost use Rattle.geo_headline.specs.Modes.{RunMode, WatchMode};
ghost use Rattle.geo_elev.specs.Drain.{DrivesFit, RanFull, Runs};
ghost use Rattle.geo_elev.specs.Meshes.{IsHistory, opened, world_of};
ghost use Rattle.geo_run.specs.Drives.{drive_view};
ghost use Rattle.geo_run.specs.Calls.{FinishesSource, FinishesText};
ghost use Rattle.geo_run.specs.Reports.{KnowsOpening, mode_reported};
ghost use Rattle.geo_run.specs.Runners.{AfterThreads, RanOrNot};
ghost use Rattle.geo_run.specs.Work.{mode_threaded};

use crate::finish::{Finish, unopened};
use crate::lent::Lent;
use crate::opened::{Opened, open_script};
use crate::read::read_source;
use crate::runner::Driven;
use crate::script_run::finish_run;
use crate::threaded_report::ThreadedReport;
use crate::words::Threaded;
use geo_base::{MAX_SCRIPT_BYTES, NoMemory};
use geo_disk::{Disk, Drive, Shelf};
use geo_elev::{DrainRefusal, FixedOrder, run_to_rest};
use geo_io::Source;
use geo_jobs::{Gate, JobsEnd, Left, Mesh, Seen, run_threads};
use geo_model::MeshList;
use std::alloc::Global;
use std::sync::Wait;
use std::thread::Threads;

/// Brings what threads left to rest, over a list of drives.
fn rest_over<D: Disk>(
    alloc: Global,
    mesh: &mut Mesh,
    drives: &mut Vec<Drive<D>>,
) -> Result<(), DrainRefusal>
    requires idle { NoneBusy (world_of mesh.old) }
    requires drives { DrivesFit mesh.old (map (drive_view D.view) drives.old.items) }
    ensures runs { Runs fixed_order mesh.old mesh.new
        (map (drive_view D.view) drives.old.items)
        (map (drive_view D.view) drives.new.items) }
    ensures rest { OnOk result (Rest (world_of mesh.new)) }
    ensures full { IsErrOf result DrainRefusal.LogFull → RanFull fixed_order mesh.new }
    ensures history { IsHistory mesh.new }
{
    run_to_rest(alloc, mesh, drives.as_mut_slice(), &mut FixedOrder)
}

/// Makes with seat 0 what is left after the threads, if they ended idle.
fn after_threads<D: Disk>(
    alloc: Global,
    ended: JobsEnd,
    mesh: &mut Mesh,
    drives: &mut Vec<Drive<D>>,
) -> Result<(), DrainRefusal>
    requires idle { NoneBusy (world_of mesh.old) }
    requires drives { DrivesFit mesh.old (map (drive_view D.view) drives.old.items) }
    ensures { AfterThreads ended mesh.old mesh.new
        (map (drive_view D.view) drives.old.items)
        (map (drive_view D.view) drives.new.items) result }
{
    match ended {
        JobsEnd::Idle => rest_over(alloc, mesh, drives),
        JobsEnd::LogFull => Err(DrainRefusal::LogFull),
        JobsEnd::NoMemory => Err(DrainRefusal::NoMemory),
    }
}

/// A mesh for which memory was wanting before its first step.
fn undriven<D>(drives: Vec<Drive<D>>) -> Driven<D>
    ensures mesh { result.mesh ≡ None }
    ensures drives { result.drives ≡ drives }
    ensures answer { result.answer ≡ Err DrainRefusal.NoMemory }
{
    Driven {
        mesh: None,
        drives,
        answer: Err(DrainRefusal::NoMemory),
    }
}

/// Runs a mesh that has no step yet in threads, and then makes what they left. If `shown` is there, it is the mesh as
/// it is printed before the first step: it is shown, and what was seen last comes back. Where memory is wanting before
/// the first thread nothing is done.
fn run_in_threads<D: Disk + Drop + Send, R: Threads + Wait + Sync + AllocGlobal, G: Gate + Sync>(
    rt: &R,
    gate: &G,
    mesh: Mesh,
    drives: Vec<Drive<D>>,
    shown: Option<MeshList>,
) -> (Driven<D>, Seen)
    requires new { mesh.log ≡ [] }
    requires history { IsHistory mesh }
    requires drives { DrivesFit mesh (map (drive_view D.view) drives.items) }
    requires shown { IfSome shown (λ list. list ≡ listing (world_of mesh)) }
    ensures { RanOrNot RunMode mesh result.0.mesh
        (map (drive_view D.view) drives.items)
        (map (drive_view D.view) result.0.drives.items) result.0.answer }
{
    match run_threads(rt, gate, mesh, drives, shown) {
        Ok(left) => {
            let Left {
                mesh,
                drives,
                ended,
                seen,
            } = left;
            let mut mesh = mesh;
            let mut drives = drives;
            let answer = after_threads(rt.alloc(), ended, &mut mesh, &mut drives);
            let driven = Driven {
                mesh: Some(mesh),
                drives,
                answer,
            };
            (driven, seen)
        }
        Err(drives) => (undriven(drives), Seen::NoMemory),
    }
}

/// Runs a mesh that has no step yet in threads, and shows nothing.
fn run_unseen<D: Disk + Drop + Send, R: Threads + Wait + Sync + AllocGlobal, G: Gate + Sync>(
    rt: &R,
    gate: &G,
    mesh: Mesh,
    drives: Vec<Drive<D>>,
) -> Driven<D>
    requires new { mesh.log ≡ [] }
    requires history { IsHistory mesh }
    requires drives { DrivesFit mesh (map (drive_view D.view) drives.items) }
    ensures { RanOrNot RunMode mesh result.mesh
        (map (drive_view D.view) drives.items)
        (map (drive_view D.view) result.drives.items) result.answer }
{
    let (driven, seen) = run_in_threads(rt, gate, mesh, drives, None);
    drop(seen);
    driven
}

/// The mesh as it is printed, twice.
fn listed_twice(alloc: Global, mesh: &Mesh) -> Result<(MeshList, MeshList), NoMemory>
    ensures first { IfOk result (λ lists. lists.0 ≡ listing (world_of mesh.now)) }
    ensures second { IfOk result (λ lists. lists.1 ≡ listing (world_of mesh.now)) }
{
    let list = mesh.listing(alloc)?;
    let copy = list.copy(alloc)?;
    Ok((list, copy))
}

/// Runs a mesh that has no step yet in threads, which show it as it is printed before the first step, and then each
/// listing that the first actor is replied. Where memory for the first is wanting nothing is done.
fn run_watched<D: Disk + Drop + Send, R: Threads + Wait + Sync + AllocGlobal, G: Gate + Sync>(
    rt: &R,
    gate: &G,
    mesh: Mesh,
    drives: Vec<Drive<D>>,
) -> (Driven<D>, ThreadedReport)
    requires new { mesh.log ≡ [] }
    requires history { IsHistory mesh }
    requires drives { DrivesFit mesh (map (drive_view D.view) drives.items) }
    ensures ran { RanOrNot RunMode mesh result.0.mesh
        (map (drive_view D.view) drives.items)
        (map (drive_view D.view) result.0.drives.items) result.0.answer }
    ensures mode { mode_reported result.1 ≡ WatchMode }
    ensures known { IfSome result.0.mesh (λ m. KnowsOpening result.1 (opened m)) }
{
    match listed_twice(rt.alloc(), &mesh) {
        Ok((opening, shown)) => {
            let (driven, seen) = run_in_threads(rt, gate, mesh, drives, Some(shown));
            (driven, ThreadedReport::Watch { opening, seen })
        }
        Err(_) => {
            drop(mesh);
            let opening = MeshList::new(rt.alloc());
            let seen = Seen::NoMemory;
            (undriven(drives), ThreadedReport::Watch { opening, seen })
        }
    }
}

/// Runs a mesh that has no step yet in threads, and says what is to be reported of it.
fn run_as<D: Disk + Drop + Send, R: Threads + Wait + Sync + AllocGlobal, G: Gate + Sync>(
    rt: &R,
    gate: &G,
    work: Threaded,
    mesh: Mesh,
    drives: Vec<Drive<D>>,
) -> (Driven<D>, ThreadedReport)
    requires new { mesh.log ≡ [] }
    requires history { IsHistory mesh }
    requires drives { DrivesFit mesh (map (drive_view D.view) drives.items) }
    ensures ran { RanOrNot (mode_threaded work) mesh result.0.mesh
        (map (drive_view D.view) drives.items)
        (map (drive_view D.view) result.0.drives.items) result.0.answer }
    ensures mode { mode_reported result.1 ≡ mode_threaded work }
    ensures known { IfSome result.0.mesh (λ m. KnowsOpening result.1 (opened m)) }
{
    match work {
        Threaded::Run => (run_unseen(rt, gate, mesh, drives), ThreadedReport::Run),
        Threaded::Watch => run_watched(rt, gate, mesh, drives),
        Threaded::Trace => (run_unseen(rt, gate, mesh, drives), ThreadedReport::Trace),
    }
}

/// Runs a script in threads over the disks of a shelf.
fn run_script_in_threads<R: Threads + Wait + Sync + AllocGlobal, H: Shelf, G: Gate + Sync>(
    rt: &R,
    gate: &G,
    text: &[u8],
    work: Threaded,
    shelf: &mut H,
) -> Finish
where
    H::D: Drop + Send,
    requires { length text.now < 2 ^ 32 }
    ensures { FinishesText text.now (mode_threaded work) result
        (H.view shelf.old)
        (H.view shelf.new) }
{
    match open_script(rt.alloc(), text, shelf) {
        Ok(opened) => {
            let Opened { mesh, facts, lent } = opened;
            let Lent { names, drives } = lent;
            let (driven, report) = run_as(rt, gate, work, mesh, drives);
            finish_run(rt.alloc(), text, names, facts, driven, &report, shelf)
        }
        Err(stop) => unopened(rt.alloc(), stop),
    }
}

/// Reads the source to its end, and runs its text in threads.
pub fn run_source_in_threads<
    R: Threads + Wait + Sync + AllocGlobal,
    S: Source,
    H: Shelf,
    G: Gate + Sync,
>(rt: &R, gate: &G, source: &mut S, work: Threaded, shelf: &mut H) -> Finish
where
    H::D: Drop + Send,
    ensures { FinishesSource (mode_threaded work)
        (S.view source.old)
        (S.view source.new) result
        (H.view shelf.old)
        (H.view shelf.new) }
{
    match read_source(rt.alloc(), source, MAX_SCRIPT_BYTES) {
        Ok(text) => run_script_in_threads(rt, gate, text.bytes(), work, shelf),
        Err(stop) => unopened(rt.alloc(), stop),
    }
}
