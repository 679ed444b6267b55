//! What is against a step, and against a command that is given.
ghost use Rattle.std.specs.Prelude.{Some};
ghost use Rattle.geo_model.specs.declared.step.Step.{Step as StepValue};
ghost use Rattle.geo_state.specs.Steps.{Stands};
ghost use Rattle.geo_state.specs.declared.state.State.{State as StateValue};
ghost use Rattle.geo_session.specs.Moves.{IsFoundAgainst, IsFoundGiven};

use geo_model::{Found, LineCommand, Step};
use geo_moves::{
    deliver_found, event_found, judge_found, reap_found, start_found, take_found, up_found,
    wait_found, wash_found,
};
use geo_state::State;

/// What is against a step of a seat, if anything is. A Go is never enabled: each command is made when it is given.
pub fn found_against(actors: u32, state: &State, seat: u32, step: &Step) -> Option<Found>
    requires stands { Stands state.now }
    ensures { IsFoundAgainst actors state.now seat step.now result }
{
    match step {
        Step::Go { actor } => Some(no_command(actors, *actor)),
        Step::Event => event_found(state),
        Step::Judge => judge_found(state),
        Step::Reap => reap_found(state),
        Step::Wash => wash_found(state),
        Step::Start { bio } => start_found(state, *bio),
        Step::Take { disk, bio } => take_found(state, *disk, *bio),
        Step::Deliver { bio, got } => deliver_found(state, seat, *bio, got),
        Step::Up { bio } => up_found(state, *bio),
    }
}

// Why an actor has no command, where no one has.
fn no_command(actors: u32, actor: u32) -> Found
    ensures { (state : StateValue) → IsFoundAgainst actors state 0 (StepValue.Go actor) (Some result) }
{
    if actor < actors {
        Found::NoCommand
    } else {
        Found::NoSuchActor
    }
}

/// What is against a command that is given, if anything is: there is no such actor, or what it waits for.
pub fn found_given(actors: u32, state: &State, line: &LineCommand) -> Option<Found>
    requires stands { Stands state.now }
    ensures { IsFoundGiven actors state.now line.now result }
{
    if line.actor < actors {
        wait_found(state, line.actor, &line.command)
    } else {
        Some(Found::NoSuchActor)
    }
}
