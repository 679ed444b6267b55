//! The event worker, and its turn.
ghost use Rattle.std.specs.Prelude.{[], ◌∷◌, IfNone, IfSome};
ghost use Rattle.geo_lock.specs.Yard.{IsPassOf};
ghost use Rattle.geo_jobs.specs.Passes.{IsGoodPass, opened_by};
ghost use Rattle.geo_jobs.specs.Putting.{PutsAll};
ghost use Rattle.geo_jobs.specs.Events.{DidEvents, DidLast, EndsAt, IsEventJob, TriesInVain};
ghost use Rattle.geo_jobs.specs.Hints.{judge_hints};
ghost use Rattle.geo_jobs.specs.Kinds.{event_steps};
ghost use Rattle.geo_jobs.specs.LanePasses.{AreFew, CanPut};

use crate::lanes::Lanes;
use crate::putting::put;
use crate::tried::{Tried, try_step};
use crate::turn::Turn;
use geo_core::Mesh;
use geo_lane::{LanePass, TicketStep};
use geo_lock::{Pass, Yard};
use geo_model::{Outcome, Step};
use std::sync::Wait;

/// The event worker: the pass by which it puts tickets into the down lane.
#[derive(Drop)]
pub struct EventJob {
    pub down: LanePass,
}

impl EventJob {
    /// One turn: Judge, Event, Reap and Wash are tried in this order, until one of them is enabled. After a Judge that
    /// reads, a ticket to start the bio of the read is put. `Idle` comes only where none was enabled, each at its own
    /// try.
    pub fn turn<R: Wait>(
        &mut self,
        pass: &mut Pass<Mesh>,
        rt: &R,
        yard: &Yard<Mesh>,
        lanes: &Lanes,
    ) -> Turn
        requires own { IsPassOf yard.now pass.old }
        requires job { IsEventJob lanes.now pass.old.own self.old }
        ensures job { IsEventJob lanes.now pass.new.own self.new }
        ensures good { IsGoodPass pass.new }
        ensures did { DidEvents (opened_by yard.now.start) pass.old pass.new self.old self.new result }
    {
        match first_enabled(rt, yard, pass) {
            None => Turn::Idle,
            Some(Tried::Made(outcome)) => {
                self.hint(rt, lanes, &outcome);
                Turn::Worked
            }
            Some(Tried::NotEnabled(_)) => unreachable!(),
            Some(Tried::LogFull) => Turn::LogFull,
            Some(Tried::NoMemory) => Turn::NoMemory,
        }
    }

    // Puts the ticket that an outcome names.
    fn hint<R: Wait>(&mut self, rt: &R, lanes: &Lanes, outcome: &Outcome)
        requires { CanPut lanes.now.down self.old.down }
        ensures puts { PutsAll self.old.down (judge_hints outcome.now) self.new.down }
        ensures few { AreFew (judge_hints outcome.now) }
    {
        match outcome {
            Outcome::Reading { bio } => {
                put(rt, &lanes.down, &mut self.down, TicketStep::Start(*bio));
            }
            _ => {}
        }
    }
}

// Tries the four steps in their order. The answer to the first that is enabled; None where none is.
fn first_enabled<R: Wait>(rt: &R, yard: &Yard<Mesh>, pass: &mut Pass<Mesh>) -> Option<Tried>
    requires own { IsPassOf yard.now pass.old }
    ensures ends { IfSome result (λ t. EndsAt (opened_by yard.now.start) pass.old pass.new t) }
    ensures vain { IfNone result (TriesInVain (opened_by yard.now.start) pass.old pass.new event_steps) }
    ensures good { IsGoodPass pass.new }
{
    if let Some(tried) = unless_idle(rt, yard, pass, Step::Judge) {
        return Some(tried);
    }
    if let Some(tried) = unless_idle(rt, yard, pass, Step::Event) {
        return Some(tried);
    }
    if let Some(tried) = unless_idle(rt, yard, pass, Step::Reap) {
        return Some(tried);
    }
    unless_idle(rt, yard, pass, Step::Wash)
}

// Tries a step. The answer, or None where the step isn't enabled.
#[tactic(auto, using(crate::proofs::Joining::was_full, crate::proofs::Tries::tried_in_vain))]
fn unless_idle<R: Wait>(
    rt: &R,
    yard: &Yard<Mesh>,
    pass: &mut Pass<Mesh>,
    step: Step,
) -> Option<Tried>
    requires own { IsPassOf yard.now pass.old }
    ensures did { IfSome result (λ t. DidLast (opened_by yard.now.start) pass.old pass.new step t) }
    ensures vain { IfNone result (TriesInVain (opened_by yard.now.start) pass.old pass.new (step ∷ [])) }
    ensures good { IsGoodPass pass.new }
{
    match try_step(rt, yard, pass, step) {
        Tried::NotEnabled(_) => None,
        Tried::Made(outcome) => Some(Tried::Made(outcome)),
        Tried::LogFull => Some(Tried::LogFull),
        Tried::NoMemory => Some(Tried::NoMemory),
    }
}
