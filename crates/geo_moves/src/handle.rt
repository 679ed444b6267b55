//! What is looked up of a handle and of its consumer.
ghost use Rattle.std.specs.Prelude.{◌≡◌, false};
ghost use Rattle.std.specs.Option.{option_and_then, option_map_or};
ghost use Rattle.geo_handles.specs.Handles.{handle_at};
ghost use Rattle.geo_life.specs.Life.{is_out};

use geo_base::{ConsId, HandleId};
use geo_handles::Handles;
use geo_mesh::Topo;

/// The consumer of a handle, if it has one.
pub fn consumer_of(handles: &Handles, id: HandleId) -> Option<ConsId>
    ensures { result ≡ option_and_then (λ h. h.consumer) (handle_at handles.now.handles id) }
{
    match handles.get(id) {
        Some(handle) => handle.consumer,
        None => None,
    }
}

/// Whether a request is out through the consumer, if there is one.
pub fn is_out<C>(topo: &Topo<C>, consumer: &Option<ConsId>) -> bool
    ensures { result ≡ option_map_or (is_out topo.now) consumer.now false }
{
    let Some(cons) = consumer else {
        return false;
    };
    match topo.consumer(*cons) {
        Some(found) => found.active != 0,
        None => false,
    }
}
