//! What is decided of a command before it is made, and what is owed to the log after it.
ghost use Rattle.std.specs.Prelude.{ℕ, ◌≡◌, ◌+◌, ◌≤◌, ◌<◌, ◌^◌, false, not, List};
ghost use Rattle.std.specs.Option.{option_map_or};
ghost use Rattle.geo_model.specs.declared.command.Command.{Command as CommandValue};
ghost use Rattle.geo_model.specs.declared.command.LineCommand.{LineCommand};
ghost use Rattle.geo_model.specs.declared.step.Entry.{Entry};
ghost use Rattle.geo_model.specs.Commands.{do_command};
ghost use Rattle.geo_model.specs.Log.{owed};
ghost use Rattle.geo_model.specs.World.{handle_of};
ghost use Rattle.geo_handles.specs.Handles.{handle_at};
ghost use Rattle.geo_life.specs.Life.{is_out};
ghost use Rattle.geo_state.specs.Holds.{Holds};
ghost use Rattle.geo_state.specs.Steps.{Stands};
ghost use Rattle.geo_state.specs.World.{world};
ghost use Rattle.geo_moves.specs.Decisions.{IsDecided, deciding_steps, is_closed, places_owed};

use crate::opens::open_refusal;
use geo_access::Steps;
use geo_base::{ConsId, Errno, HandleId, Name};
use geo_class::Config;
use geo_handles::Handles;
use geo_mesh::Topo;
use geo_model::Command;
use geo_state::State;
use std::sync::ledger::Ledger;

/// What is decided of a command before it is made. An open is decided before its consumer exists, and only once; what
/// is decided of opens and closes tells what is owed to the log after them.
#[derive(Clone, Copy, Debug)]
pub enum Decision {
    /// An open, with what refuses it, if anything does.
    Opens(Option<Errno>),
    /// A close that is answered ok.
    Closes,
    /// Any other command, and a close that is refused.
    Other,
}

/// What is decided of the command of an actor. Nothing changes.
pub fn decide<L: Ledger>(
    state: &mut State,
    actor: u32,
    command: &Command,
    steps: &mut Steps<L>,
) -> Decision
    requires stands { Stands state.old }
    ensures decided { IsDecided state.old actor command.now result }
    ensures same { state.new ≡ state.old }
    ensures bound { steps.new ≤ steps.old + deciding_steps state.old command.now }
{
    match command {
        Command::Open {
            handle,
            provider,
            grant,
        } => { Decision::Opens(open_refusal(state, actor, handle, provider, *grant, steps)) }
        Command::Close(name) => close_decision(state, actor, name),
        _ => Decision::Other,
    }
}

// What is decided of a close.
fn close_decision(state: &State, actor: u32, name: &Name) -> Decision
    requires stands { Stands state.now }
    ensures { IsDecided state.now actor (CommandValue.Close name.now) result }
{
    if is_closed(state, actor, name) {
        Decision::Closes
    } else {
        Decision::Other
    }
}

// Whether a close of the actor's handle of the name is answered ok: there is the handle, and nothing is out through it.
fn is_closed(state: &State, actor: u32, name: &Name) -> bool
    requires stands { Stands state.now }
    ensures { (actors : List (List LineCommand)) (log : List Entry) → result
        ≡ is_closed (world actors log state.now) (handle_of (world actors log state.now) actor name.now) }
{
    match state.handles.by_name(actor, name) {
        Some(id) => is_idle(&state.topo, &state.handles, id),
        None => false,
    }
}

// Whether the handle of a number is there, and nothing is out through it.
fn is_idle(topo: &Topo<Config>, handles: &Handles, id: HandleId) -> bool
    ensures { result ≡ option_map_or (λ h. not (option_map_or (is_out topo.now) h.consumer false))
        (handle_at handles.now.handles id) false }
{
    match handles.get(id) {
        Some(handle) => !is_out(topo, handle.consumer),
        None => false,
    }
}

// Whether a request is out through the consumer, if there is one.
fn is_out(topo: &Topo<Config>, consumer: Option<ConsId>) -> bool
    ensures { result ≡ option_map_or (is_out topo.now) consumer false }
{
    let Some(cons) = consumer else {
        return false;
    };
    match topo.consumer(cons) {
        Some(found) => found.active != 0,
        None => false,
    }
}

/// How many places of the log are owed once the command is made: one for the close of each handle, and one for the
/// Deliver of each request that is at its disk.
pub fn owed_after(state: &State, decision: &Decision) -> u64
    requires kept { Holds state.now }
    requires few { places_owed state.now < 2 ^ 63 }
    ensures { (actors : List (List LineCommand)) (log : List Entry) (line actor : ℕ) (command : CommandValue)
        → IsDecided state.now actor command decision.now
        → result ≡ owed (do_command (world actors log state.now) line actor command).0 }
{
    let owed = places_owed(state);
    match decision {
        Decision::Opens(None) => owed + 1,
        Decision::Opens(Some(_)) => owed,
        Decision::Closes => owed.saturating_sub(1),
        Decision::Other => owed,
    }
}

/// How many places of the log are owed: one for the close of each handle, one for the Deliver of each Busy bio.
pub fn places_owed(state: &State) -> u64
    requires { places_owed state.now < 2 ^ 63 }
    ensures owed { result ≡ places_owed state.now }
    ensures few { result < 2 ^ 63 }
{
    state.handles.len() + state.traffic.busy()
}
