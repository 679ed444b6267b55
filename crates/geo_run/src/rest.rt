//! A mesh that goes to rest in an order. The steps are made with seat 0; each Take is served by the drive of its disk,
//! and its answer delivered.
ghost use Rattle.std.specs.Prelude.{map, OnOk, IsErrOf};
ghost use Rattle.geo_model.specs.FixedOrder.{fixed_order};
ghost use Rattle.geo_model.specs.History.{KeepsHistory, RanToItsEnd};
ghost use Rattle.geo_model.specs.Laws.{NoneBusy};
ghost use Rattle.geo_model.specs.Log.{Fits};
ghost use Rattle.geo_headline.specs.Sweep.{sweep_order};
ghost use Rattle.geo_elev.specs.Meshes.{opened, world_of};
ghost use Rattle.geo_elev.specs.Drain.{DrivesFit};
ghost use Rattle.geo_run.specs.Drives.{drive_view};
ghost use Rattle.geo_run.specs.Rest.{Adds, RanFull};

use geo_disk::{Disk, Drive};
use geo_elev::{DrainRefusal, FixedOrder, Heads, run_to_rest, sweep_to_rest};
use geo_jobs::Mesh;
use std::alloc::Global;

/// Goes to rest in the fixed order.
pub fn in_fixed_order<D: Disk>(
    alloc: Global,
    mesh: &mut Mesh,
    drives: &mut [Drive<D>],
) -> Result<(), DrainRefusal>
    requires idle { NoneBusy (world_of mesh.old) }
    requires drives { DrivesFit mesh.old (map (drive_view D.view) drives.old) }
    ensures added { Adds fixed_order mesh.old mesh.new
        (map (drive_view D.view) drives.old)
        (map (drive_view D.view) drives.new) }
    ensures history { KeepsHistory (opened mesh.new) mesh.new.log }
    ensures fits { Fits (opened mesh.new) mesh.new.log }
    ensures rest { OnOk result (RanToItsEnd (opened mesh.new) mesh.new.log) }
    ensures full { IsErrOf result DrainRefusal.LogFull → RanFull fixed_order (opened mesh.new) mesh.new.log }
{
    run_to_rest(alloc, mesh, drives, &mut FixedOrder)
}

/// Goes to rest in the elevator order. Where memory for the heads is wanting, nothing is done.
pub fn in_elevator_order<D: Disk>(
    alloc: Global,
    mesh: &mut Mesh,
    drives: &mut [Drive<D>],
) -> Result<(), DrainRefusal>
    requires idle { NoneBusy (world_of mesh.old) }
    requires drives { DrivesFit mesh.old (map (drive_view D.view) drives.old) }
    ensures added { Adds sweep_order mesh.old mesh.new
        (map (drive_view D.view) drives.old)
        (map (drive_view D.view) drives.new) }
    ensures history { KeepsHistory (opened mesh.new) mesh.new.log }
    ensures fits { Fits (opened mesh.new) mesh.new.log }
    ensures rest { OnOk result (RanToItsEnd (opened mesh.new) mesh.new.log) }
    ensures full { IsErrOf result DrainRefusal.LogFull → RanFull sweep_order (opened mesh.new) mesh.new.log }
{
    let plan = mesh.plan();
    let disks = plan.disks().len() as u32;
    match Heads::new(alloc, disks) {
        Ok(mut heads) => sweep_to_rest(alloc, mesh, drives, &mut heads),
        Err(_) => Err(DrainRefusal::NoMemory),
    }
}
