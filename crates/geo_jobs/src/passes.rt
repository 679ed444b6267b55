//! The lanes of a run, and their passes.
ghost use Rattle.std.specs.Prelude.{◌≡◌, ◌+◌, ◌-◌, ◌<◌, ◌^◌, IfOk};
ghost use Rattle.geo_lane.specs.LanePass.{next_pass};
ghost use Rattle.geo_jobs.specs.Lanes.{ArePasses, takers_of};

use crate::lanes::Lanes;
use geo_base::NoMemory;
use geo_lane::{Lane, LanePass};

/// The passes 0 of the lanes of a run, by which tickets are taken.
#[derive(Drop)]
pub struct Takers {
    pub down: LanePass,
    pub up: LanePass,
    pub disk0: LanePass,
    pub disk1: LanePass,
}

/// The passes of the jobs that aren't clients. The passes 0 go to the jobs that take: `down_takes` to the down worker,
/// `up_takes` to the up worker, `disk0_takes` and `disk1_takes` to the disk workers. The others put: `events_down` of
/// the event worker into the down lane, and so on.
#[derive(Drop)]
pub struct Passes {
    pub events_down: LanePass,
    pub down_takes: LanePass,
    pub down_up: LanePass,
    pub down_disk0: LanePass,
    pub down_disk1: LanePass,
    pub up_takes: LanePass,
    pub disk0_takes: LanePass,
    pub disk0_up: LanePass,
    pub disk1_takes: LanePass,
    pub disk1_up: LanePass,
}

/// Four empty lanes, and their passes 0.
pub fn open_lanes<R: AllocGlobal>(rt: &R) -> Result<(Lanes, Takers), NoMemory>
    ensures { IfOk result (λ made. made.1 ≡ takers_of made.0 0) }
{
    let (down, down_takes) = Lane::create(rt)?;
    let (up, up_takes) = Lane::create(rt)?;
    let (disk0, disk0_takes) = Lane::create(rt)?;
    let (disk1, disk1_takes) = Lane::create(rt)?;
    let lanes = Lanes {
        down,
        up,
        disk0,
        disk1,
    };
    let takers = Takers {
        down: down_takes,
        up: up_takes,
        disk0: disk0_takes,
        disk1: disk1_takes,
    };
    Ok((lanes, takers))
}

/// One more pass of a lane, which puts tickets.
pub fn putter<R: AllocGlobal>(rt: &R, lane: &Lane, taker: &mut LanePass) -> LanePass
    requires own { taker.old.lane ≡ lane.now }
    requires first { taker.old.sender ≡ 0 }
    requires room { taker.old.split < 2 ^ 32 - 1 }
    ensures new { result ≡ next_pass taker.old }
    ensures same { taker.new ≡ record taker.old { split = taker.old.split + 1 } }
{
    let Ok(pass) = lane.split_pass(rt, taker) else {
        unreachable!()
    };
    pass
}

/// The passes of the jobs that aren't clients, once the clients got theirs.
pub fn passes_of<R: AllocGlobal>(rt: &R, lanes: &Lanes, takers: Takers) -> Passes
    requires few { takers.down.split < 2 ^ 16 }
    requires takers { takers ≡ takers_of lanes.now takers.down.split }
    ensures { ArePasses lanes.now result }
{
    let Takers {
        mut down,
        mut up,
        mut disk0,
        mut disk1,
    } = takers;
    Passes {
        events_down: putter(rt, &lanes.down, &mut down),
        down_up: putter(rt, &lanes.up, &mut up),
        down_disk0: putter(rt, &lanes.disk0, &mut disk0),
        down_disk1: putter(rt, &lanes.disk1, &mut disk1),
        disk0_up: putter(rt, &lanes.up, &mut up),
        disk1_up: putter(rt, &lanes.up, &mut up),
        down_takes: down,
        up_takes: up,
        disk0_takes: disk0,
        disk1_takes: disk1,
    }
}
