//! What is against a step.
ghost use Rattle.geo_state.specs.Steps.{Stands};
ghost use Rattle.geo_core.specs.Left.{AreNext};
ghost use Rattle.geo_core.specs.Moves.{IsFound};

use crate::left::Left;
use geo_model::{Found, Step};
use geo_moves::{
    deliver_found, event_found, judge_found, reap_found, start_found, take_found, up_found,
    wait_found, wash_found,
};
use geo_script::Plan;
use geo_state::State;

/// What is against a step of a seat, if anything is. Against a Go: there is no such actor, it has no command left, or
/// what its next command waits for.
pub fn found_against(
    plan: &Plan,
    left: &Left,
    state: &State,
    seat: u32,
    step: &Step,
) -> Option<Found>
    requires stands { Stands state.now }
    requires next { AreNext plan.now left.now }
    ensures { IsFound plan.now.commands left.now state.now seat step.now result }
{
    match step {
        Step::Go { actor } => match left.next(plan, *actor) {
            Ok(line) => wait_found(state, *actor, &line.command),
            Err(found) => Some(found),
        },
        Step::Event => event_found(state),
        Step::Judge => judge_found(state),
        Step::Reap => reap_found(state),
        Step::Wash => wash_found(state),
        Step::Start { bio } => start_found(state, *bio),
        Step::Take { disk, bio } => take_found(state, *disk, *bio),
        Step::Deliver { bio, got } => deliver_found(state, seat, *bio, got),
        Step::Up { bio } => up_found(state, *bio),
    }
}
