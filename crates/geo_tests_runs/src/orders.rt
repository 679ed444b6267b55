//! What no clause says: meshes that are driven to rest in either order, against worked reports.
ghost use Rattle.std.specs.Prelude.{◌≡◌, []};
ghost use Rattle.geo_tests_runs.specs.Bench.{one_fact};

use crate::bench::{Way, driven, heads_of, mesh_of, small_disk, tells};
use crate::same::assert_same;
use geo_drain::{Mesh, pick};
use geo_elev::pick_sweep;
use geo_log::Log;
use geo_model::{DeviceResult, Step};
use std::alloc::Global;
use std::process::Abort;
use std::test::Fail;

/// Two writes, a FLUSH, a third write before it on the disk, and then a read.
const PLACES: &[u8] = b"ram md0 512 8
actor a
a open h md0 r1w1e0
a write h 2048 04*512
a write h 512 01*512
a flush h
a write h 0 aa*512
a sync
a read h 0 1024
";

const PLACES_REPORT: &[u8] = b"3 ok
4 ok
5 ok
6 ok
7 ok
8 ok
9 ok aa*512 01*512
geom DISK md0 rank 1
  provider md0 size 4096 sector 512 r1w1e0
";

/// The bios of the Takes. The first is the read of the taste, which the open for writing ends.
const BY_LINES: [u64; 8] = [1, 2, 3, 4, 5, 6, 7, 8];

const BY_PLACES: [u64; 8] = [1, 3, 2, 4, 5, 6, 0, 0];

// The bios of the first eight Takes, in their order; 0 where there are fewer.
fn takes(log: &Log) -> [u64; 8] {
    let mut bios = [0u64; 8];
    let mut count = 0;
    for entry in log.entries() {
        if let Step::Take { bio, .. } = &entry.step
            && count < 8
        {
            bios[count] = bio.number();
            count += 1;
        }
    }
    bios
}

// A mesh at rest has this report and these Takes.
fn has_run(
    rt: &impl Abort,
    alloc: Global,
    mesh: &Mesh,
    want: &[u8],
    bios: [u64; 8],
) -> Result<(), Fail> {
    assert_same(rt, takes(mesh.log()), bios);
    assert_same(rt, mesh.at_rest(), true);
    assert_same(rt, tells(alloc, mesh, want)?, true);
    Ok(())
}

// The writes in an order.
fn writes_in(rt: &impl Abort, alloc: Global, way: Way, bios: [u64; 8]) -> Result<(), Fail> {
    let disk = small_disk(alloc, &[], 0)?;
    let mesh = driven(alloc, PLACES, way, disk)?;
    let answer = has_run(rt, alloc, &mesh, PLACES_REPORT, bios);
    drop(mesh);
    answer
}

#[test]
fn the_fixed_order_takes_what_an_actor_sends_one_by_one(rt: HostRuntime) -> Result<(), Fail> {
    writes_in(&rt, rt.alloc(), Way::Fixed, BY_LINES)
}

#[test]
fn the_elevator_takes_by_places_and_nothing_before_an_older_flush(
    rt: HostRuntime,
) -> Result<(), Fail> {
    writes_in(&rt, rt.alloc(), Way::Elevator, BY_PLACES)
}

/// A disk whose fifth call, the write, fails after three sectors.
const CUT: &[u8] = b"disk d0 512
actor a
a open h d0 r1w1e0
a write h 0 11*2048
a read h 0 2048
";

const CUT_REPORT: &[u8] = b"3 ok
4 EIO
5 ok 11*1536 00*512
geom DISK d0 rank 1
  provider d0 size 4096 sector 512 r1w1e0
";

// How many answers of disks failed, and how many sectors had been done in all of them.
fn failures(log: &Log) -> (u64, u64) {
    let mut answers = 0u64;
    let mut sectors = 0u64;
    for entry in log.entries() {
        if let Step::Deliver {
            got: DeviceResult::Failed { done },
            ..
        } = &entry.step
        {
            answers = answers.saturating_add(1);
            sectors = sectors.saturating_add(u64::from(*done));
        }
    }
    (answers, sectors)
}

// The log of a mesh has the failure, and the report tells it.
fn has_failed(rt: &impl Abort, alloc: Global, mesh: &Mesh) -> Result<(), Fail> {
    assert_same(rt, failures(mesh.log()), (1, 3));
    assert_same(rt, tells(alloc, mesh, CUT_REPORT)?, true);
    Ok(())
}

#[test]
fn a_write_that_fails_part_way_is_told_and_read(rt: HostRuntime) -> Result<(), Fail> {
    let disk = small_disk(rt.alloc(), &[5], 3)?;
    let mesh = driven(rt.alloc(), CUT, Way::Fixed, disk)?;
    let answer = has_failed(&rt, rt.alloc(), &mesh);
    drop(mesh);
    answer
}

// Whether a step is an Event.
fn is_event(step: Option<Step>) -> bool {
    let is_event = matches!(&step, Some(Step::Event));
    drop(step);
    is_event
}

// What is due of a mesh that has made no step, in both orders: whether that is an Event.
#[tactic(auto, using(crate::proofs::Idle::idle_mesh))]
fn due_at_first(alloc: Global, mesh: &Mesh) -> Result<(bool, bool), Fail>
    requires new { mesh.now.log ≡ [] }
    requires facts { mesh.now.facts ≡ one_fact }
{
    let heads = heads_of(alloc, mesh)?;
    let fixed = is_event(pick(mesh));
    let swept = is_event(pick_sweep(mesh, &heads));
    drop(heads);
    Ok((fixed, swept))
}

#[test]
fn a_new_mesh_has_an_event_due_in_both_orders(rt: HostRuntime) -> Result<(), Fail> {
    let mesh = mesh_of(rt.alloc(), PLACES)?;
    let due = due_at_first(rt.alloc(), &mesh);
    drop(mesh);
    assert_same(&rt, due?, (true, true));
    Ok(())
}
