//! A step of the taste that is under way (geom(4)).
ghost use Rattle.std.specs.Prelude.{◌≡◌, ◌+◌, ◌*◌, ◌≤◌, List, None, length, IfOk, IfSome, OnOk, OnErr};
ghost use Rattle.geo_model.specs.declared.step.Entry.{Entry};
ghost use Rattle.geo_model.specs.Step.{judge_next};
ghost use Rattle.geo_access.specs.Access.{consumers_below};
ghost use Rattle.geo_state.specs.Holds.{Holds};
ghost use Rattle.geo_state.specs.Steps.{IsAgainst, Makes, SameWorld, Stands};
ghost use Rattle.geo_state.specs.World.{HasBytes};
ghost use Rattle.geo_moves.specs.Judging.{IsRoomed};

use crate::reads::read_next;
use crate::withered::count_made;
use geo_access::Steps;
use geo_base::NoMemory;
use geo_model::{Judged, Outcome};
use geo_state::{State, reserve_bio, reserve_events};
use geo_taste::{abort, judge_step};
use std::alloc::Global;
use std::sync::ledger::Ledger;

/// A Judge, where nothing is against it: one step of the taste that is under way. The next class is asked, a sector is
/// read, or what came back is judged, and what a class accepts is made of the provider. A read that is granted is a bio
/// from then on. Where the taste ends its consumer is detached and destroyed (g_detach(9), g_destroy_consumer). After
/// `NoMemory` all is as before.
pub fn judge<L: Ledger>(
    alloc: Global,
    state: &mut State,
    steps: &mut Steps<L>,
) -> Result<Outcome, NoMemory>
    requires stands { Stands state.old }
    requires due { IsAgainst judge_next state.old None }
    ensures made { (log : List Entry) → IfOk result (λ o. Makes judge_next log state.old state.new o) }
    ensures kept { Holds state.new }
    ensures same { OnErr result (SameWorld state.old state.new) }
    ensures logged { (log : List Entry) → HasBytes log state.old → HasBytes log state.new }
    ensures bound { IfSome state.old.taste (λ taste.
        steps.new ≤ steps.old + consumers_below state.old.topo.topology taste.provider) }
{
    make_room(state)?;
    judge_roomed(alloc, state, steps)
}

// Makes room for whatever a step of a taste posts and submits.
fn make_room(state: &mut State) -> Result<(), NoMemory>
    requires kept { Holds state.old }
    ensures events { OnOk result (3 * length state.new.topo.topology.providers + 128 ≤ state.new.queue.spare) }
    ensures bio { OnOk result (1 ≤ state.new.traffic.spare) }
    ensures roomed { IsRoomed state.old state.new }
    ensures kept { Holds state.new }
{
    reserve_events(state)?;
    reserve_bio(state)
}

// A step of the taste, where there is room for whatever comes of it.
fn judge_roomed<L: Ledger>(
    alloc: Global,
    state: &mut State,
    steps: &mut Steps<L>,
) -> Result<Outcome, NoMemory>
    requires stands { Stands state.old }
    requires due { IsAgainst judge_next state.old None }
    requires events { 3 * length state.old.topo.topology.providers + 128 ≤ state.old.queue.spare }
    requires bio { 1 ≤ state.old.traffic.spare }
    ensures made { (log : List Entry) → IfOk result (λ o. Makes judge_next log state.old state.new o) }
    ensures kept { Holds state.new }
    ensures same { OnErr result (SameWorld state.old state.new) }
    ensures logged { (log : List Entry) → HasBytes log state.old → HasBytes log state.new }
    ensures bound { IfSome state.old.taste (λ taste.
        steps.new ≤ steps.old + consumers_below state.old.topo.topology taste.provider) }
{
    let Some(mut taste) = state.taste.take() else {
        unreachable!();
    };
    let first = state.topo.coming_provider();
    match judge_step(alloc, &mut taste, &mut state.topo, &mut state.queue, steps) {
        Ok(judged) => match judged {
            Judged::Read { sector } => Ok(read_next(alloc, state, taste, sector)),
            Judged::Next => {
                state.taste = Some(taste);
                Ok(Outcome::Ran)
            }
            Judged::Made => {
                state.taste = Some(taste);
                count_made(state, first);
                Ok(Outcome::Ran)
            }
            Judged::Ended => {
                abort(taste, &mut state.topo);
                Ok(Outcome::Ran)
            }
        },
        Err(error) => {
            state.taste = Some(taste);
            Err(error)
        }
    }
}
