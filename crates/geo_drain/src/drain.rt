//! The run to rest.
ghost use Rattle.std.specs.Prelude.{◌≡◌, IfErr, IfOk, IsErrOf, OnErr, OnOk, map};
ghost use Rattle.geo_model.specs.Laws.{NoneBusy};
ghost use Rattle.geo_model.specs.Order.{Rest};
ghost use Rattle.geo_serve.specs.Drives.{drive_view};
ghost use Rattle.geo_core.specs.Mesh.{IsHistory, world_of};
ghost use Rattle.geo_drain.specs.Drain.{DrivesFit, RanFull, Runs};
ghost use Rattle.geo_drain.specs.Noted.{KnowsAll, KnowsPart};

use crate::order::Order;
use crate::refusal::DrainRefusal;
use crate::turn::turn;
use geo_core::Mesh;
use geo_disk::{Disk, Drive};
use geo_model::Step;
use geo_pool::Pool;
use std::alloc::Global;

/// Makes the steps that are due in an order, with seat 0, until the mesh is at rest. After each Take the drive of its
/// disk serves the request, and the answer is delivered. The drives are those of the mesh, in header order. The order
/// notes what the mesh did, at first and after each turn.
/// `LogFull` only where the step that is due has no place in the log; after a refusal too no bio is Busy, and the order
/// knows a part of the log.
pub fn run_to_rest<D: Disk, O: Order>(
    alloc: Global,
    mesh: &mut Mesh,
    disks: &mut [Drive<D>],
    order: &mut O,
) -> Result<(), DrainRefusal>
    requires none_busy { NoneBusy (world_of mesh.old) }
    requires fit { DrivesFit mesh.old
        (map (drive_view D.view) disks.old) }
    requires known { KnowsPart (O.knows order.old) mesh.old }
    ensures runs { Runs (O.due order.old) mesh.old mesh.new
        (map (drive_view D.view) disks.old)
        (map (drive_view D.view) disks.new) }
    ensures rest { OnOk result (Rest (world_of mesh.new)) }
    ensures full { IsErrOf result DrainRefusal.LogFull → RanFull (O.due order.old) mesh.new }
    ensures none_busy { NoneBusy (world_of mesh.new) }
    ensures history { IsHistory mesh.new }
    ensures known { OnOk result (KnowsAll (O.knows order.new) mesh.new) }
    ensures part { OnErr result (KnowsPart (O.knows order.new) mesh.new) }
{
    let mut pool = Pool::new(alloc);
    loop {
        order.note(mesh)?;
        let Some(step) = order.next(mesh) else {
            return Ok(());
        };
        turn(alloc, mesh, disks, &mut pool, step)?;
    }
}
