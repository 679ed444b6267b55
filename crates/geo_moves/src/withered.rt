//! What is looked up of a geom, a disk's seat that becomes free, and how many providers there are.
ghost use Rattle.std.specs.Prelude.{◌≡◌, ◌+◌, ◌-◌, ◌<◌, ◌≤◌, length, IfSome, option_and_then};
ghost use Rattle.geo_model.specs.Topology.{geom_at};
ghost use Rattle.geo_model.specs.Place.{disk_of};
ghost use Rattle.geo_state.specs.Sites.{seats_without};

use geo_base::{GeomId, ProvId};
use geo_class::Config;
use geo_mesh::Topo;
use geo_state::{State, set_geom};

/// The disk for which a geom stands, if it is one of a disk.
pub fn disk_of_geom(topo: &Topo<Config>, geom: GeomId) -> Option<u32>
    ensures { result ≡ option_and_then (λ g. disk_of g.config) (geom_at topo.now.topology geom) }
{
    match topo.geom(geom) {
        Some(found) => found.config.disk_of(),
        None => None,
    }
}

/// No geom stands for the disk from now on, if there is the disk.
pub fn free_seat(state: &mut State, disk: Option<u32>)
    requires there { IfSome disk (λ d. d < length state.old.disks.items) }
    ensures seats { state.new.disks.items ≡ seats_without state.old.disks.items disk }
    ensures rest { state.new ≡ record state.old { disks = state.new.disks } }
{
    if let Some(disk) = disk {
        set_geom(state, disk, None);
    }
}

/// The providers that came are counted: those of this number and above.
pub fn count_made(state: &mut State, first: ProvId)
    requires some { first ≤ state.old.topo.topology.next_provider }
    requires all { state.old.providers + (state.old.topo.topology.next_provider - first)
        ≡ length state.old.topo.topology.providers }
    ensures { state.new ≡ record state.old {
      providers = state.old.providers + (state.old.topo.topology.next_provider - first);
    } }
{
    let next = state.topo.coming_provider();
    state.providers += next.number() - first.number();
}
