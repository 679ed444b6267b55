//! Handles that are closed.
ghost use Rattle.std.specs.Prelude.{ℕ, ◌≡◌, ◌+◌, ◌≤◌, List, None, false, IfSome, IsSomeAnd};
ghost use Rattle.std.specs.Option.{option_map_or};
ghost use Rattle.geo_life.specs.Life.{is_out};
ghost use Rattle.geo_model.specs.declared.command.LineCommand.{LineCommand};
ghost use Rattle.geo_model.specs.declared.step.Entry.{Entry};
ghost use Rattle.geo_model.specs.World.{handle_of};
ghost use Rattle.geo_model.specs.HandleCommands.{close_handle, without_handle};
ghost use Rattle.geo_model.specs.WorldEvents.{after_close};
ghost use Rattle.geo_handles.specs.Handles.{named_handle, handle_at};
ghost use Rattle.geo_access.specs.Access.{consumers_below, place_of};
ghost use Rattle.geo_state.specs.World.{world};
ghost use Rattle.geo_state.specs.Holds.{Holds};
ghost use Rattle.geo_state.specs.Steps.{Stands, Does};
ghost use Rattle.geo_moves.specs.Handles.{IsIdle, counts_computed};

use crate::handle::{consumer_of, is_out};
use crate::holders::give_back;
use crate::reply::{done, refused};
use geo_access::Steps;
use geo_base::{ConsId, Errno, HandleId, Name};
use geo_model::Outcome;
use geo_state::State;
use std::sync::ledger::Ledger;

/// A close of the actor's handle of a name: EBADF where there is none, EBUSY while a request is out through it. Else
/// its consumer gives back what it was granted and goes, each provider whose write count comes to zero by that is
/// offered for taste again, and the handle is forgotten. It takes no memory.
pub fn close<L: Ledger>(
    state: &mut State,
    line: u32,
    actor: u32,
    name: &Name,
    steps: &mut Steps<L>,
) -> Outcome
    requires stands { Stands state.old }
    ensures made { (log : List Entry) → Does (λ w. close_handle w line (handle_of w actor name.now)) log
        state.old state.new result }
    ensures kept { Holds state.new }
    ensures traffic { state.new.traffic ≡ state.old.traffic }
    ensures bound { steps.new ≤ steps.old
        + counts_computed state.old (named_handle state.old.handles.handles actor name.now) }
{
    let Some(id) = state.handles.by_name(actor, name) else {
        return refused(line, Errno::EBADF);
    };
    let consumer = consumer_of(&state.handles, id);
    if is_out(&state.topo, &consumer) {
        return refused(line, Errno::EBUSY);
    }
    forget(state, id, consumer, steps);
    done(line)
}

// A handle through which nothing is out is forgotten, and its consumer goes, if it has one.
fn forget<L: Ledger>(
    state: &mut State,
    id: HandleId,
    consumer: Option<ConsId>,
    steps: &mut Steps<L>,
)
    requires stands { Stands state.old }
    requires there { IsSomeAnd (handle_at state.old.handles.handles id) (λ h. h.consumer ≡ consumer) }
    requires free { option_map_or (is_out state.old.topo) consumer false ≡ false }
    ensures made { IfSome (handle_at state.old.handles.handles id) (λ h.
        (actors : List (List LineCommand)) (log : List Entry) → world actors log state.new
        ≡ after_close (world actors log state.old) (without_handle (world actors log state.old) h)) }
    ensures kept { Holds state.new }
    ensures traffic { state.new.traffic ≡ state.old.traffic }
    ensures bound { steps.new ≤ steps.old + counts_computed state.old (handle_at state.old.handles.handles id) }
{
    match consumer {
        Some(cons) => forget_held(state, id, cons, steps),
        None => forget_reaped(state, id),
    }
}

// A handle is forgotten, and its consumer goes.
fn forget_held<L: Ledger>(state: &mut State, id: HandleId, cons: ConsId, steps: &mut Steps<L>)
    requires stands { Stands state.old }
    requires idle { IsIdle state.old id cons }
    ensures made { IfSome (handle_at state.old.handles.handles id) (λ h.
        (actors : List (List LineCommand)) (log : List Entry) → world actors log state.new
        ≡ after_close (world actors log state.old) (without_handle (world actors log state.old) h)) }
    ensures kept { Holds state.new }
    ensures traffic { state.new.traffic ≡ state.old.traffic }
    ensures bound { steps.new ≤ steps.old
        + consumers_below state.old.topo.topology (place_of state.old.topo.topology cons) }
{
    state.handles.remove(id);
    give_back(&mut state.topo, &mut state.queue, cons, steps);
}

// A handle is forgotten that was reaped, so that it has no consumer.
fn forget_reaped(state: &mut State, id: HandleId)
    requires stands { Stands state.old }
    requires reaped { IsSomeAnd (handle_at state.old.handles.handles id) (λ h. h.consumer ≡ None) }
    ensures made { IfSome (handle_at state.old.handles.handles id) (λ h.
        (actors : List (List LineCommand)) (log : List Entry) → world actors log state.new
        ≡ after_close (world actors log state.old) (without_handle (world actors log state.old) h)) }
    ensures kept { Holds state.new }
    ensures traffic { state.new.traffic ≡ state.old.traffic }
{
    state.handles.remove(id);
}
