//! The up worker, and its turn.
ghost use Rattle.std.specs.Prelude.{◌≡◌};
ghost use Rattle.geo_lock.specs.Yard.{IsPassOf};
ghost use Rattle.geo_jobs.specs.Passes.{IsGoodPass, opened_by};
ghost use Rattle.geo_jobs.specs.Putting.{PutsAll};
ghost use Rattle.geo_jobs.specs.Hints.{up_hints};
ghost use Rattle.geo_jobs.specs.LanePasses.{AreFew, CanPut};
ghost use Rattle.geo_jobs.specs.Ups.{DidGiveUp, DidUp, IsUpJob, up_in};

use crate::lanes::Lanes;
use crate::putting::put;
use crate::tried::{Tried, try_step};
use crate::turn::Turn;
use geo_base::BioId;
use geo_core::Mesh;
use geo_lane::{LanePass, Ticket, TicketStep};
use geo_lock::{Pass, Yard};
use geo_model::{Outcome, Step};
use std::sync::Wait;

/// The up worker: the pass by which it takes tickets from the up lane, and puts some into it.
#[derive(Drop)]
pub struct UpJob {
    pub up: LanePass,
}

impl UpJob {
    /// One turn: a ticket is taken from the up lane. If it is one to give a bio up, the bio's Up is tried. Where that
    /// brings in the last child of a bio, a ticket to give that bio up is put. Where no Up is made nothing is added to
    /// the log and no ticket is put.
    #[tactic(auto, using(crate::proofs::Upward::did_up))]
    pub fn turn<R: Wait>(
        &mut self,
        pass: &mut Pass<Mesh>,
        rt: &R,
        yard: &Yard<Mesh>,
        lanes: &Lanes,
    ) -> Turn
        requires own { IsPassOf yard.now pass.old }
        requires job { IsUpJob lanes.now pass.old.own self.old }
        ensures job { IsUpJob lanes.now pass.new.own self.new }
        ensures good { IsGoodPass pass.new }
        ensures did { DidUp (opened_by yard.now.start) pass.old pass.new self.old self.new result }
    {
        // The number of a pass tells that it is good at this moment too.
        let _ = pass.number();
        let Some(ticket) = lanes.up.take(rt, &mut self.up) else {
            return Turn::Idle;
        };
        let Some(bio) = up_in(&ticket) else {
            return Turn::Idle;
        };
        self.give_up(pass, rt, yard, lanes, bio)
    }

    // Tries to give a bio up, and puts the ticket that the outcome names.
    fn give_up<R: Wait>(
        &mut self,
        pass: &mut Pass<Mesh>,
        rt: &R,
        yard: &Yard<Mesh>,
        lanes: &Lanes,
        bio: BioId,
    ) -> Turn
        requires own { IsPassOf yard.now pass.old }
        requires job { IsUpJob lanes.now pass.old.own self.old }
        ensures job { IsUpJob lanes.now pass.new.own self.new }
        ensures good { IsGoodPass pass.new }
        ensures did { DidGiveUp (opened_by yard.now.start) bio pass.old pass.new self.old self.new result }
    {
        match try_step(rt, yard, pass, Step::Up { bio }) {
            Tried::Made(outcome) => {
                self.hint(rt, lanes, &outcome);
                Turn::Worked
            }
            Tried::NotEnabled(_) => Turn::Idle,
            Tried::LogFull => Turn::LogFull,
            Tried::NoMemory => Turn::NoMemory,
        }
    }

    // Puts the ticket that an outcome names.
    fn hint<R: Wait>(&mut self, rt: &R, lanes: &Lanes, outcome: &Outcome)
        requires { CanPut lanes.now.up self.old.up }
        ensures puts { PutsAll self.old.up (up_hints outcome.now) self.new.up }
        ensures few { AreFew (up_hints outcome.now) }
    {
        match outcome {
            Outcome::Gathered { parent, complete } => {
                if *complete {
                    put(rt, &lanes.up, &mut self.up, TicketStep::Up(*parent));
                }
            }
            _ => {}
        }
    }
}

// The bio of a ticket to give one up.
fn up_in(ticket: &Ticket) -> Option<BioId>
    ensures { result ≡ up_in ticket.now.step }
{
    match &ticket.step {
        TicketStep::Up(bio) => Some(*bio),
        _ => None,
    }
}
