//! A live mesh that begins.
ghost use Rattle.std.specs.Prelude.{◌≡◌, length, IfOk};
ghost use Rattle.geo_model.specs.Opening.{opening};
ghost use Rattle.geo_model.specs.Plans.{FactsFit};
ghost use Rattle.geo_session.specs.Live.{session_view, IsSession};
ghost use Rattle.geo_session.specs.Session.{without_commands};

use crate::live::Live;
use geo_base::NoMemory;
use geo_log::DiskFacts;
use geo_moves::opening;
use geo_script::Plan;
use std::alloc::Global;

/// What a live mesh holds that has made no step.
pub fn begin(alloc: Global, plan: &Plan, disks: &DiskFacts) -> Result<Live, NoMemory>
    requires { FactsFit plan.now disks.now.items }
    ensures began { IfOk result (λ l. session_view l
        ≡ record { world = opening (without_commands plan.now) disks.now.items; steps = 0; generation = 0 }) }
    ensures session { IfOk result IsSession }
{
    let actors = count_of(plan);
    let state = opening(alloc, plan, disks)?;
    Ok(Live {
        state,
        actors,
        steps: 0,
        generation: 0,
    })
}

// How many actors a plan names.
fn count_of(plan: &Plan) -> u32
    ensures { result ≡ length plan.now.actors }
{
    plan.actors().len() as u32
}
