//! The elevator order, and the run to rest in it.
ghost use Rattle.std.specs.Prelude.{◌≡◌, ◌↔◌, List, IfSome, IsErrOf, IsNone, OnErr, OnOk, map};
ghost use Rattle.geo_model.specs.declared.step.Entry.{Entry as EntryValue};
ghost use Rattle.geo_model.specs.Laws.{NoneBusy};
ghost use Rattle.geo_model.specs.Log.{IsPrefixOf};
ghost use Rattle.geo_model.specs.Order.{Rest};
ghost use Rattle.geo_headline.specs.Sweep.{pick_sweep, sweep_order};
ghost use Rattle.geo_laws_sweep.proofs.Sweeping.{sweep_goes_on};
ghost use Rattle.geo_laws_sweep.proofs.SweepRest.{sweep_ends};
ghost use Rattle.geo_serve.specs.Drives.{drive_view};
ghost use Rattle.geo_drain.specs.Drain.{DrivesFit, Falls, RanFull, Runs};
ghost use Rattle.geo_drain.specs.Meshes.{IsHistory, opened, world_of};
ghost use Rattle.geo_elev.specs.Due.{before_takes, behind_takes};
ghost use Rattle.geo_elev.specs.Heads.{AreHeads};

use crate::elevator::Heads;
use geo_base::NoMemory;
use geo_disk::{Disk, Drive};
use geo_drain::{DrainRefusal, Mesh, Order, earliest, if_enabled, run_to_rest};
use geo_model::Step;
use std::alloc::Global;

/// The step that is due in the elevator order, where no bio is Busy and the heads are those of the mesh: the first
/// enabled of Up and Start of the smallest bio, Judge, Event, the Go of the actor whose next line is the smallest, the
/// Take of what is next at the first disk for which something waits, Reap and Wash. None exactly at rest. It lowers the
/// measure, a Take together with its Deliver.
pub fn pick_sweep(mesh: &Mesh, heads: &Heads) -> Option<Step>
    requires none_busy { NoneBusy (world_of mesh.now) }
    requires heads { AreHeads (opened mesh.now) mesh.now.log heads.now }
    ensures picked { result ≡ pick_sweep (world_of mesh.now) mesh.now.log }
    ensures rest { IsNone result ↔ Rest (world_of mesh.now) }
    ensures falls { IfSome result (Falls (world_of mesh.now)) }
    ensures history { IsHistory mesh.now }
{
    if mesh.at_rest() {
        return None;
    }
    if let Some(step) = before_takes(mesh) {
        return Some(step);
    }
    // It is enabled, since no bio is Busy.
    if let Some(step) = heads.next_take() {
        return Some(step);
    }
    behind_takes(mesh)
}

// The first enabled step of those that come before each Take.
#[tactic(auto, unfolding(crate::specs::Due::before_takes))]
fn before_takes(mesh: &Mesh) -> Option<Step>
    ensures { result ≡ before_takes (world_of mesh.now) }
{
    if let Some(step) = mesh.first_up() {
        return Some(step);
    }
    if let Some(step) = mesh.first_down() {
        return Some(step);
    }
    if let Some(step) = if_enabled(mesh, Step::Judge) {
        return Some(step);
    }
    if let Some(step) = if_enabled(mesh, Step::Event) {
        return Some(step);
    }
    match earliest(mesh) {
        Some(actor) => Some(Step::Go { actor }),
        None => None,
    }
}

// The first enabled step of those that come behind each Take.
#[tactic(auto, unfolding(crate::specs::Due::behind_takes))]
fn behind_takes(mesh: &Mesh) -> Option<Step>
    ensures { result ≡ behind_takes (world_of mesh.now) }
{
    if let Some(step) = if_enabled(mesh, Step::Reap) {
        return Some(step);
    }
    match if_enabled(mesh, Step::Wash) {
        Some(step) => Some(step),
        None => None,
    }
}

impl Order for Heads {
    ghost due = { λ _. sweep_order };

    ghost knows = { λ heads began log. AreHeads began log heads };

    fn next(&self, mesh: &Mesh) -> Option<Step> {
        pick_sweep(mesh, self)
    }

    fn note(&mut self, mesh: &Mesh) -> Result<(), NoMemory> {
        Heads::note(self, mesh)
    }

    ghost goes_on = { λ _. sweep_goes_on };

    ghost ends = { λ _. sweep_ends };
}

/// Makes the steps that are due in the elevator order, with seat 0, until the mesh is at rest. After each Take the
/// drive of its disk serves the request, and the answer is delivered. The drives are those of the mesh, in header
/// order. The heads are those of the mesh after a part of its log, as new ones are before the first entry; at the end
/// they are those after all of it.
/// `LogFull` only where the step that is due has no place in the log; after a refusal too no bio is Busy, and the heads
/// are those after a part of the log.
pub fn sweep_to_rest<D: Disk>(
    alloc: Global,
    mesh: &mut Mesh,
    disks: &mut [Drive<D>],
    heads: &mut Heads,
) -> Result<(), DrainRefusal>
    requires none_busy { NoneBusy (world_of mesh.old) }
    requires fit { DrivesFit mesh.old
        (map (drive_view D.view) disks.old) }
    requires heads { (seen : List EntryValue)
        × IsPrefixOf seen mesh.old.log × AreHeads (opened mesh.old) seen heads.old }
    ensures runs { Runs sweep_order mesh.old mesh.new
        (map (drive_view D.view) disks.old)
        (map (drive_view D.view) disks.new) }
    ensures rest { OnOk result (Rest (world_of mesh.new)) }
    ensures full { IsErrOf result DrainRefusal.LogFull → RanFull sweep_order mesh.new }
    ensures none_busy { NoneBusy (world_of mesh.new) }
    ensures history { IsHistory mesh.new }
    ensures heads { OnOk result (AreHeads (opened mesh.new) mesh.new.log heads.new) }
    ensures part { OnErr result ((seen : List EntryValue)
        × IsPrefixOf seen mesh.new.log × AreHeads (opened mesh.new) seen heads.new) }
{
    run_to_rest(alloc, mesh, disks, heads)
}
