//! Whether nothing is left but reaps and washes.
ghost use Rattle.std.specs.Prelude.{◌≡◌};
ghost use Rattle.geo_core.specs.Mesh.{world_of};
ghost use Rattle.geo_core.specs.Running.{seen, is_idle, is_none_left, IsMesh};

use crate::running::Running;
use geo_state::State;

/// Whether no command, bio, event or taste is left.
pub fn is_idle(running: &Running) -> bool
    requires { IsMesh running.now }
    ensures { result ≡ is_idle (world_of (seen running.now)) }
{
    is_quiet(&running.state) && running.left.is_empty(&running.plan)
}

// Whether no bio, event or taste is left.
#[tactic(auto, using(crate::proofs::Due::no_items))]
fn is_quiet(state: &State) -> bool
    ensures { result ≡ is_none_left state.now.traffic.bios state.now.queue.events state.now.taste }
{
    state.traffic.is_empty() && (state.queue.head().is_none() && state.taste.is_none())
}
