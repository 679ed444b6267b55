//! Whether a step can be made.
ghost use Rattle.std.specs.Prelude.{◌≡◌, IfOk, IfErr, IsOk};
ghost use Rattle.geo_core.specs.Mesh.{world_of, Refuses};
ghost use Rattle.geo_core.specs.Running.{seen, IsMesh};
ghost use Rattle.geo_core.specs.Goes.{IsAdmitted, PaysOff};

use crate::found::found_against;
use crate::owed::{decide_step, places_after};
use crate::refusal::ApplyRefusal;
use crate::running::Running;
use geo_access::Steps;
use geo_base::MAX_LOG_ENTRIES;
use geo_model::Step;
use geo_moves::Decision;
use std::sync::ledger::Ledger;

/// Whether a step of a seat can be made: nothing is against it, it has its place in the log, and there is room for its
/// entry. All stays but the room of the log.
pub fn admit<L: Ledger>(
    running: &mut Running,
    seat: u32,
    step: &Step,
    steps: &mut Steps<L>,
) -> Result<Option<Decision>, ApplyRefusal>
    requires mesh { IsMesh running.old }
    ensures mesh { IsMesh running.new }
    ensures same { seen running.new ≡ seen running.old }
    ensures admitted { IfOk result (λ decision. IsAdmitted running.new seat step.now decision) }
    ensures refused { IfErr result (λ refusal.
        Refuses refusal (seen running.old) (seen running.new) seat step.now) }
    ensures sure { PaysOff (world_of (seen running.old)) seat step.now → IsOk result }
{
    if let Some(found) = found_against(&running.plan, &running.left, &running.state, seat, step) {
        return Err(ApplyRefusal::NotEnabled { found });
    }
    let decision = decide_step(
        &running.plan,
        &running.left,
        &mut running.state,
        step,
        steps,
    );
    let owed = places_after(running, step, &decision);
    let places = MAX_LOG_ENTRIES - running.log.len();
    if places <= owed {
        return Err(ApplyRefusal::LogFull);
    }
    running.log.reserve(owed + 1)?;
    Ok(decision)
}
