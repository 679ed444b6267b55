//! One turn: a step, and after a Take its Deliver.
ghost use Rattle.std.specs.Prelude.{◌≡◌, ◌<◌, IsErrOf, IsOk, IsSomeAnd, IsTrue, OnErr, OnOk, length, map, slice_get};
ghost use Rattle.geo_model.specs.declared.step.Outcome.{Outcome as OutcomeValue};
ghost use Rattle.geo_model.specs.declared.step.Request.{Request as RequestValue};
ghost use Rattle.geo_model.specs.declared.step.Step.TheVariants as steps;
ghost use Rattle.geo_model.specs.Log.{is_full};
ghost use Rattle.geo_model.specs.Step.{is_enabled};
ghost use Rattle.geo_serve.specs.Drives.{drive_view};
ghost use Rattle.geo_serve.specs.Serve.{CanServe, HasRoom};
ghost use Rattle.geo_core.specs.Mesh.{IsHistory, Made, world_of};
ghost use Rattle.geo_drain.specs.Drain.{DrivesFit};
ghost use Rattle.geo_drain.specs.Turns.{AnswersRequest, EndsWithRequest, MakesTurn, ServesTake};

use crate::refusal::DrainRefusal;
use geo_base::{BioId, Block};
use geo_core::{ApplyRefusal, Mesh};
use geo_disk::{Disk, Drive};
use geo_model::{DeviceResult, Outcome, Request, Step};
use geo_pool::Pool;
use geo_serve::serve;
use std::alloc::Global;

/// Makes an enabled step of seat 0. A Take is served by the drive of its disk, and its answer is delivered. Where it is
/// refused the mesh and the drives are as before.
pub fn turn<D: Disk>(
    alloc: Global,
    mesh: &mut Mesh,
    disks: &mut [Drive<D>],
    pool: &mut Pool,
    step: Step,
) -> Result<(), DrainRefusal>
    requires history { IsHistory mesh.old }
    requires enabled { IsTrue (is_enabled (world_of mesh.old) 0 step) }
    requires fit { DrivesFit mesh.old
        (map (drive_view D.view) disks.old) }
    ensures made { OnOk result (MakesTurn mesh.old mesh.new
        (map (drive_view D.view) disks.old)
        (map (drive_view D.view) disks.new) step) }
    ensures full { IsErrOf result DrainRefusal.LogFull → IsTrue (is_full mesh.old.log (world_of mesh.old) 0 step) }
    ensures mesh { OnErr result (mesh.new ≡ mesh.old) }
    ensures disks { OnErr result (disks.new ≡ disks.old) }
    ensures history { IsHistory mesh.new }
{
    match step {
        Step::Take { disk, bio } => take(alloc, mesh, disks, pool, disk, bio),
        other => make(mesh, other),
    }
}

// Makes an enabled step of seat 0.
fn make(mesh: &mut Mesh, step: Step) -> Result<(), DrainRefusal>
    requires { IsTrue (is_enabled (world_of mesh.old) 0 step) }
    ensures made { OnOk result ((outcome : OutcomeValue) × Made mesh.old mesh.new 0 step outcome) }
    ensures full { IsErrOf result DrainRefusal.LogFull → IsTrue (is_full mesh.old.log (world_of mesh.old) 0 step) }
    ensures same { OnErr result (mesh.new ≡ mesh.old) }
    ensures history { IsHistory mesh.new }
{
    match mesh.make(0, step) {
        Ok(()) => Ok(()),
        Err(ApplyRefusal::NotEnabled { .. }) => unreachable!(),
        Err(ApplyRefusal::LogFull) => Err(DrainRefusal::LogFull),
        Err(ApplyRefusal::NoMemory) => Err(DrainRefusal::NoMemory),
    }
}

// Takes a bio, has the drive of its disk serve the request, and delivers the answer. The room for what a READ gives is
// there before the Take. Its bytes are shared, so that its reply needs no copy, and share the memory of those in the
// pool, if these begin with them.
fn take<D: Disk>(
    alloc: Global,
    mesh: &mut Mesh,
    disks: &mut [Drive<D>],
    pool: &mut Pool,
    disk: u32,
    bio: BioId,
) -> Result<(), DrainRefusal>
    requires history { IsHistory mesh.old }
    requires enabled { IsTrue (is_enabled (world_of mesh.old) 0 (steps.Take disk bio)) }
    requires fit { DrivesFit mesh.old
        (map (drive_view D.view) disks.old) }
    ensures made { OnOk result (ServesTake mesh.old mesh.new
        (map (drive_view D.view) disks.old)
        (map (drive_view D.view) disks.new) disk bio) }
    ensures full { IsErrOf result DrainRefusal.LogFull
        → IsTrue (is_full mesh.old.log (world_of mesh.old) 0 (steps.Take disk bio)) }
    ensures mesh { OnErr result (mesh.new ≡ mesh.old) }
    ensures disks { OnErr result (disks.new ≡ disks.old) }
    ensures history { IsHistory mesh.new }
{
    let room = Block::zeros(alloc, mesh.room(bio))?;
    make(mesh, Step::Take { disk, bio })?;
    let request = last_request(mesh);
    let drive = &mut disks[request.disk as usize];
    let got = pooled(pool, serve(drive, request, room).share(alloc));
    match mesh.make(0, Step::Deliver { bio, got }) {
        Ok(()) => Ok(()),
        // A Deliver that is enabled is never refused.
        Err(_) => unreachable!(),
    }
}

// The request that the last entry of the log asked for.
fn last_request(mesh: &Mesh) -> &Request
    requires { (q : RequestValue) × EndsWithRequest mesh.now.log q }
    ensures { EndsWithRequest mesh.now.log result.now }
{
    match mesh.log().entries().last() {
        Some(entry) => match &entry.outcome {
            Outcome::Asked(request) => request,
            _ => unreachable!(),
        },
        None => unreachable!(),
    }
}

// The same answer, whose bytes share the memory of those in the pool, if these begin with them.
fn pooled(pool: &mut Pool, got: DeviceResult) -> DeviceResult
    ensures { result ≡ got }
{
    match got {
        DeviceResult::Bytes(bytes) => DeviceResult::Bytes(pool.once(bytes)),
        other => other,
    }
}
