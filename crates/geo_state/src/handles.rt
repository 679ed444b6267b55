//! Handles that become dead, and those that can be reaped.
ghost use Rattle.std.specs.Prelude.{◌≡◌, IsSome, option_map};
ghost use Rattle.geo_model.specs.Topology.{consumer_at};
ghost use Rattle.geo_handles.specs.Handles.{HoldsAlone, holding_handle, killed};
ghost use Rattle.geo_state.specs.Holds.{Holds};
ghost use Rattle.geo_state.specs.Ready.{refreshed};

use crate::state::State;
use geo_base::ConsId;
use geo_class::Config;
use geo_handles::Handles;
use geo_mesh::Topo;

/// Notes anew whether the handle of a consumer, if there is one, can be reaped.
pub fn refresh(handles: &mut Handles, topo: &Topo<Config>, cons: ConsId)
    ensures refreshed { handles.new ≡ record handles.old { ready = refreshed handles.old topo.now cons } }
    ensures alone { HoldsAlone handles.old.handles cons
        (option_map (λ h. h.number) (holding_handle handles.old.handles cons)) }
{
    let Some(id) = handles.of_consumer(cons) else {
        return;
    };
    let idle = match topo.consumer(cons) {
        Some(consumer) => consumer.active == 0,
        None => false,
    };
    let dead = match handles.get(id) {
        Some(handle) => handle.dead,
        None => false,
    };
    handles.set_ready(id, dead && idle);
}

/// The handle of a consumer, if there is one, becomes dead.
pub fn kill(state: &mut State, cons: ConsId)
    requires kept { Holds state.old }
    requires lives { IsSome (consumer_at state.old.topo.topology cons) }
    ensures killed { state.new ≡ record state.old {
      handles = record state.old.handles {
        handles = killed state.old.handles.handles cons;
        ready = state.new.handles.ready;
      };
    } }
    ensures kept { Holds state.new }
{
    state.handles.kill(cons);
    refresh(&mut state.handles, &state.topo, cons);
}
