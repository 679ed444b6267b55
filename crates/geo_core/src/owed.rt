//! The places of the log that are owed after a step.
ghost use Rattle.std.specs.Prelude.{◌≡◌};
ghost use Rattle.geo_state.specs.Steps.{Stands};
ghost use Rattle.geo_core.specs.Left.{AreNext};
ghost use Rattle.geo_core.specs.Mesh.{world_of};
ghost use Rattle.geo_core.specs.Running.{seen, IsMesh};
ghost use Rattle.geo_core.specs.Goes.{IsReady, IsOwedAfter};

use crate::left::Left;
use crate::running::Running;
use geo_access::Steps;
use geo_model::Step;
use geo_moves::{Decision, decide, owed_after, places_owed};
use geo_script::Plan;
use geo_state::State;
use std::sync::ledger::Ledger;

/// What is decided of the command of a Go. Nothing changes.
pub fn decide_step<L: Ledger>(
    plan: &Plan,
    left: &Left,
    state: &mut State,
    step: &Step,
    steps: &mut Steps<L>,
) -> Option<Decision>
    requires stands { Stands state.old }
    requires next { AreNext plan.now left.now }
    ensures ready { IsReady plan.now.commands left.now state.old step.now result }
    ensures same { state.new ≡ state.old }
{
    match step {
        Step::Go { actor } => match left.next(plan, *actor) {
            Ok(line) => Some(decide(state, *actor, &line.command, steps)),
            Err(_) => None,
        },
        _ => None,
    }
}

/// How many places are owed after a step, if it is enabled.
pub fn places_after(running: &Running, step: &Step, decision: &Option<Decision>) -> u64
    requires mesh { IsMesh running.now }
    requires ready { IsReady running.now.plan.commands running.now.left running.now.state step.now decision.now }
    ensures { IsOwedAfter (world_of (seen running.now)) step.now result }
{
    let now = places_owed(&running.state);
    match step {
        Step::Go { .. } => match decision {
            Some(decision) => owed_after(&running.state, decision),
            None => now,
        },
        Step::Take { .. } => now + 1,
        Step::Deliver { .. } => now.saturating_sub(1),
        // Each other step begins to owe no place, and pays none.
        _ => now,
    }
}
