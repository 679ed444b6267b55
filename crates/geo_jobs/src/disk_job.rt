//! A disk worker, and its turn.
ghost use Rattle.std.specs.Prelude.{◌≡◌, ◌≤◌, length, IfOk};
ghost use Rattle.geo_lock.specs.Yard.{IsPassOf};
ghost use Rattle.geo_serve.specs.Drives.{drive_view};
ghost use Rattle.geo_jobs.specs.Passes.{IsGoodPass, opened_by};
ghost use Rattle.geo_jobs.specs.Drives.{HasDrives, LacksDisk};
ghost use Rattle.geo_jobs.specs.Turns.{DidBio, DidDiskTurn, IsDiskJob, lane_of, take_in};

use crate::drive_list::DriveList;
use crate::gate::{Gate, GatePlace};
use crate::lanes::Lanes;
use crate::putting::put;
use crate::taking::{Taken, deliver, take};
use crate::turn::Turn;
use geo_base::{BioId, Block, MAX_REQUEST_BYTES, NoMemory};
use geo_core::Mesh;
use geo_disk::Disk;
use geo_lane::{Lane, LanePass, Ticket, TicketStep};
use geo_lock::{Pass, Yard};
use std::alloc::Global;
use std::sync::Wait;

/// A disk worker: its number, which is 0 or 1, the drives of its disks, the pass by which it takes tickets from its own
/// lane, and the pass by which it puts tickets into the up lane.
#[derive(Drop)]
pub struct DiskJob<D> {
    pub worker: u32,
    pub drives: DriveList<D>,
    pub own: LanePass,
    pub up: LanePass,
}

impl<D: Disk> DiskJob<D> {
    /// One turn: a ticket is taken from the worker's lane. If it is one to take a bio for a disk that the worker has,
    /// and the Take is enabled, then the bio is taken, the drive of the disk serves the request by exactly one call,
    /// the answer is delivered, and a ticket to give the bio up is put. The gate may hold the worker before that call
    /// and after the Deliver. In each other case nothing is added to the log, no drive is asked and no ticket is put.
    pub fn turn<R: Wait + AllocGlobal, G: Gate>(
        &mut self,
        pass: &mut Pass<Mesh>,
        rt: &R,
        yard: &Yard<Mesh>,
        lanes: &Lanes,
        gate: &G,
    ) -> Turn
        requires own { IsPassOf yard.now pass.old }
        requires job { IsDiskJob lanes.now pass.old.own self.old }
        requires drives { HasDrives yard.now.start.facts (drive_view D.view) self.old.drives.items }
        ensures job { IsDiskJob lanes.now pass.new.own self.new }
        ensures drives { HasDrives yard.now.start.facts (drive_view D.view) self.new.drives.items }
        ensures good { IsGoodPass pass.new }
        ensures did { DidDiskTurn (opened_by yard.now.start) (drive_view D.view) pass.old pass.new self.old self.new
            result }
    {
        // The number of a pass tells that it is good at this moment too.
        let _ = pass.number();
        let Some(ticket) = own_lane(lanes, self.worker).take(rt, &mut self.own) else {
            return Turn::Idle;
        };
        let Some(asked) = asked_in(&ticket) else {
            return Turn::Idle;
        };
        let (disk, bio) = asked;
        if !self.drives.has(disk) {
            return Turn::Idle;
        }
        let Ok(room) = room_of(rt.alloc(), MAX_REQUEST_BYTES as u32) else {
            return Turn::NoMemory;
        };
        self.serve(pass, rt, yard, lanes, gate, disk, bio, room)
    }

    // Takes a bio for a disk of the worker, has the drive of the disk serve the request, delivers what it answers, and
    // puts the ticket to give the bio up.
    fn serve<R: Wait + AllocGlobal, G: Gate>(
        &mut self,
        pass: &mut Pass<Mesh>,
        rt: &R,
        yard: &Yard<Mesh>,
        lanes: &Lanes,
        gate: &G,
        disk: u32,
        bio: BioId,
        room: Block,
    ) -> Turn
        requires own { IsPassOf yard.now pass.old }
        requires job { IsDiskJob lanes.now pass.old.own self.old }
        requires drives { HasDrives yard.now.start.facts (drive_view D.view) self.old.drives.items }
        requires has { LacksDisk self.old.drives.items disk → ⊥ }
        requires room { MAX_REQUEST_BYTES ≤ length room }
        ensures good { IsGoodPass pass.new }
        ensures did { DidBio (opened_by yard.now.start) (drive_view D.view) disk bio pass.old pass.new self.old self.new
            result }
    {
        match take(rt, yard, pass, disk, bio) {
            Taken::Asked(request) => {
                let worker = self.worker;
                gate.hold(GatePlace::DiskCall { worker, bio });
                let got = self.drives.answer(rt.alloc(), &request, room);
                deliver(rt, yard, pass, bio, got);
                gate.hold(GatePlace::Delivered { worker, bio });
                put(rt, &lanes.up, &mut self.up, TicketStep::Up(bio));
                Turn::Worked
            }
            Taken::NotEnabled => Turn::Idle,
            Taken::LogFull => Turn::LogFull,
            Taken::NoMemory => Turn::NoMemory,
        }
    }
}

// Room for so many bytes.
fn room_of(alloc: Global, len: u32) -> Result<Block, NoMemory>
    ensures { IfOk result (λ room. length room ≡ len) }
{
    Block::zeros(alloc, len)
}

// The lane of a disk worker.
fn own_lane(lanes: &Lanes, worker: u32) -> &Lane
    ensures { result.now ≡ lane_of lanes.now worker }
{
    if worker == 0 {
        &lanes.disk0
    } else {
        &lanes.disk1
    }
}

// The disk and the bio of a ticket to take one.
fn asked_in(ticket: &Ticket) -> Option<(u32, BioId)>
    ensures { result ≡ take_in ticket.now.step }
{
    match &ticket.step {
        TicketStep::Take { disk, bio } => Some((*disk, *bio)),
        _ => None,
    }
}
