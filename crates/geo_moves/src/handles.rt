//! Handles that become dead where their provider is orphaned (g_orphan_provider(9)).
ghost use Rattle.std.specs.Prelude.{◌≡◌};
ghost use Rattle.geo_state.specs.Holds.{Holds};
ghost use Rattle.geo_state.specs.Steps.{Stands};
ghost use Rattle.geo_moves.specs.Killing.{killed_at};

use geo_base::ProvId;
use geo_life::next_dying;
use geo_state::{State, kill};

/// The handles of the consumers of DEV at the provider become dead.
pub fn kill_at(state: &mut State, prov: ProvId)
    requires stands { Stands state.old }
    ensures killed { state.new ≡ record state.old {
      handles = record state.old.handles {
        handles = killed_at state.old.topo.topology prov state.old.handles.handles;
        ready = state.new.handles.ready;
      };
    } }
    ensures kept { Holds state.new }
{
    let mut from = 0;
    while let Some(cons) = next_dying(&state.topo, prov, from) {
        kill(state, cons);
        from = cons.number() + 1;
    }
}
