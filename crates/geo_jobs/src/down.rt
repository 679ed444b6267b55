//! The down worker, and its turn.
ghost use Rattle.std.specs.Prelude.{◌≡◌, ◌+◌, ◌-◌, ◌<◌, ◌^◌, length};
ghost use Rattle.geo_lock.specs.Yard.{IsPassOf};
ghost use Rattle.geo_jobs.specs.Passes.{IsGoodPass, opened_by};
ghost use Rattle.geo_jobs.specs.Putting.{PutsAll};
ghost use Rattle.geo_jobs.specs.Hints.{start_hints};
ghost use Rattle.geo_jobs.specs.Downs.{AreFewOfStart, CanPutDown, DidDown, DidStart, IsDownJob, PutsOfStart, start_in};
ghost use Rattle.geo_jobs.specs.LanePasses.{AreFew, CanPut};

use crate::lanes::Lanes;
use crate::putting::put;
use crate::tried::{Tried, try_step};
use crate::turn::Turn;
use geo_base::BioId;
use geo_core::Mesh;
use geo_lane::{Lane, LanePass, Ticket, TicketStep};
use geo_lock::{Pass, Yard};
use geo_model::{Outcome, Step};
use std::sync::Wait;

/// The down worker: the pass by which it takes tickets from the down lane and puts some into it, and those by which it
/// puts tickets into the up lane and into the lanes of the two disk workers.
#[derive(Drop)]
pub struct DownJob {
    pub down: LanePass,
    pub up: LanePass,
    pub disk0: LanePass,
    pub disk1: LanePass,
}

impl DownJob {
    /// One turn: a ticket is taken from the down lane. If it is one to start a bio, the bio's Start is tried. Then a
    /// ticket is put to start each child of a bio that was split, to take a bio that was queued at its disk, or to give
    /// up a bio that bounced. Where no Start is made nothing is added to the log and no ticket is put.
    #[tactic(auto, using(crate::proofs::Downward::did_down))]
    pub fn turn<R: Wait>(
        &mut self,
        pass: &mut Pass<Mesh>,
        rt: &R,
        yard: &Yard<Mesh>,
        lanes: &Lanes,
    ) -> Turn
        requires own { IsPassOf yard.now pass.old }
        requires job { IsDownJob lanes.now pass.old.own self.old }
        ensures job { IsDownJob lanes.now pass.new.own self.new }
        ensures good { IsGoodPass pass.new }
        ensures did { DidDown (opened_by yard.now.start) pass.old pass.new self.old self.new result }
    {
        // The number of a pass tells that it is good at this moment too.
        let _ = pass.number();
        let Some(ticket) = lanes.down.take(rt, &mut self.down) else {
            return Turn::Idle;
        };
        let Some(bio) = start_in(&ticket) else {
            return Turn::Idle;
        };
        self.start(pass, rt, yard, lanes, bio)
    }

    // Tries to start a bio, and puts the tickets that the outcome names.
    fn start<R: Wait>(
        &mut self,
        pass: &mut Pass<Mesh>,
        rt: &R,
        yard: &Yard<Mesh>,
        lanes: &Lanes,
        bio: BioId,
    ) -> Turn
        requires own { IsPassOf yard.now pass.old }
        requires job { IsDownJob lanes.now pass.old.own self.old }
        ensures job { IsDownJob lanes.now pass.new.own self.new }
        ensures good { IsGoodPass pass.new }
        ensures did { DidStart (opened_by yard.now.start) bio pass.old pass.new self.old self.new result }
    {
        match try_step(rt, yard, pass, Step::Start { bio }) {
            Tried::Made(outcome) => {
                self.hint(rt, lanes, bio, &outcome);
                Turn::Worked
            }
            Tried::NotEnabled(_) => Turn::Idle,
            Tried::LogFull => Turn::LogFull,
            Tried::NoMemory => Turn::NoMemory,
        }
    }

    // Puts the tickets that the outcome of a Start names.
    fn hint<R: Wait>(&mut self, rt: &R, lanes: &Lanes, bio: BioId, outcome: &Outcome)
        requires { CanPutDown lanes.now self.old }
        ensures puts { PutsOfStart bio outcome.now self.old self.new }
        ensures few { AreFewOfStart bio outcome.now }
    {
        match outcome {
            Outcome::Split { first, count } => {
                start_all(rt, &lanes.down, &mut self.down, *first, *count);
            }
            Outcome::Queued { disk } => {
                let step = TicketStep::Take { disk: *disk, bio };
                if *disk % 2 == 0 {
                    put(rt, &lanes.disk0, &mut self.disk0, step);
                } else {
                    put(rt, &lanes.disk1, &mut self.disk1, step);
                }
            }
            Outcome::Bounced => put(rt, &lanes.up, &mut self.up, TicketStep::Up(bio)),
            _ => {}
        }
    }
}

// Puts a ticket to start each of so many bios, whose numbers begin with this one.
#[tactic(auto, using(crate::proofs::Starting::starts_none, crate::proofs::Starting::starts_more))]
fn start_all<R: Wait>(rt: &R, lane: &Lane, pass: &mut LanePass, first: BioId, count: u32)
    requires { CanPut lane.now pass.old }
    ensures puts { PutsAll pass.old (start_hints first count) pass.new }
    ensures few { AreFew (start_hints first count) }
{
    for k in 0..u64::from(count) {
        start_one(rt, lane, pass, first, k);
    }
}

// Puts a ticket to start the bio that comes so many behind the first, unless its number is too large for a ticket.
#[tactic(auto, using(crate::proofs::Starting::starts_one, crate::proofs::Starting::starts_too_far))]
fn start_one<R: Wait>(rt: &R, lane: &Lane, pass: &mut LanePass, first: BioId, k: u64)
    requires own { pass.old.lane ≡ lane.now }
    requires room { length pass.old.put < 2 ^ 64 - 1 }
    ensures { PutsAll pass.old (start_hints (first + k) 1) pass.new }
{
    if let Some(number) = first.number().checked_add(k) {
        put(rt, lane, pass, TicketStep::Start(BioId::new(number)));
    }
}

// The bio of a ticket to start one.
fn start_in(ticket: &Ticket) -> Option<BioId>
    ensures { result ≡ start_in ticket.now.step }
{
    match &ticket.step {
        TicketStep::Start(bio) => Some(*bio),
        _ => None,
    }
}
