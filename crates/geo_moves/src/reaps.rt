//! Dead handles whose consumers are reaped.
ghost use Rattle.std.specs.Prelude.{ℕ, ◌≡◌, ◌+◌, ◌≤◌, List, Some, None, IfSome};
ghost use Rattle.geo_model.specs.declared.command.LineCommand.{LineCommand};
ghost use Rattle.geo_model.specs.declared.step.Entry.{Entry};
ghost use Rattle.geo_model.specs.declared.step.Outcome.TheVariants as outcomes;
ghost use Rattle.geo_model.specs.Freeing.{reap_work, reap};
ghost use Rattle.geo_model.specs.Step.{reap_next};
ghost use Rattle.geo_handles.specs.Handles.{first_ready, handle_at};
ghost use Rattle.geo_access.specs.Access.{consumers_below, place_of};
ghost use Rattle.geo_state.specs.World.{HasBytes, world};
ghost use Rattle.geo_state.specs.Holds.{Holds};
ghost use Rattle.geo_state.specs.Steps.{Stands, IsAgainst, Makes};
ghost use Rattle.geo_moves.specs.Handles.{IsIdle, counts_computed};

use crate::handle::consumer_of;
use crate::holders::give_back;
use geo_access::Steps;
use geo_base::{ConsId, HandleId};
use geo_model::Found;
use geo_state::State;
use std::sync::ledger::Ledger;

/// What is against a Reap, if anything is: no dead handle has a consumer through which nothing is out.
pub fn reap_found(state: &State) -> Option<Found>
    requires kept { Holds state.now }
    ensures { IsAgainst reap_next state.now result }
{
    match state.handles.first_ready() {
        Some(_id) => None,
        None => Some(Found::NothingToReap),
    }
}

/// A Reap, where nothing is against it: the consumer of the dead handle with the smallest number that can be reaped
/// gives back what it was granted and goes, and the handle has none from then on; each provider whose write count
/// comes to zero by that is offered for taste again. It takes no memory.
pub fn reap<L: Ledger>(state: &mut State, steps: &mut Steps<L>)
    requires stands { Stands state.old }
    requires due { IsAgainst reap_next state.old None }
    ensures made { (log : List Entry) → Makes reap_next log state.old state.new outcomes.Ran }
    ensures kept { Holds state.new }
    ensures traffic { state.new.traffic ≡ state.old.traffic }
    ensures logged { (log : List Entry) → HasBytes log state.old → HasBytes log state.new }
    ensures bound { (actors : List (List LineCommand)) (log : List Entry)
        → steps.new ≤ steps.old + counts_computed state.old (reap_work (world actors log state.old)) }
{
    let id = next_dead(state);
    let cons = consumer_of_dead(state, id);
    let_go(state, id, cons, steps);
}

// The dead handle with the smallest number that can be reaped.
fn next_dead(state: &State) -> HandleId
    requires kept { Holds state.now }
    requires due { IsAgainst reap_next state.now None }
    ensures { first_ready state.now.handles.ready ≡ Some result }
{
    let Some(id) = state.handles.first_ready() else {
        unreachable!();
    };
    id
}

// Its consumer, through which nothing is out.
fn consumer_of_dead(state: &State, id: HandleId) -> ConsId
    requires stands { Stands state.now }
    requires next { first_ready state.now.handles.ready ≡ Some id }
    ensures { IsIdle state.now id result }
{
    let Some(cons) = consumer_of(&state.handles, id) else {
        unreachable!();
    };
    cons
}

// The consumer of a handle goes, and the handle has none from then on.
fn let_go<L: Ledger>(state: &mut State, id: HandleId, cons: ConsId, steps: &mut Steps<L>)
    requires stands { Stands state.old }
    requires idle { IsIdle state.old id cons }
    ensures made { IfSome (handle_at state.old.handles.handles id) (λ h.
        (actors : List (List LineCommand)) (log : List Entry) → world actors log state.new
        ≡ reap (world actors log state.old) h) }
    ensures kept { Holds state.new }
    ensures traffic { state.new.traffic ≡ state.old.traffic }
    ensures bound { steps.new ≤ steps.old
        + consumers_below state.old.topo.topology (place_of state.old.topo.topology cons) }
{
    state.handles.release(cons);
    state.handles.set_ready(id, false);
    give_back(&mut state.topo, &mut state.queue, cons, steps);
}
