//! Geoms that commands make.
ghost use Rattle.std.specs.Prelude.{◌≡◌, ◌+◌, ◌≤◌, true, false, All, OnErr, OnOk, IfOk};
ghost use Rattle.geo_model.specs.Topology.{is_name_taken};
ghost use Rattle.geo_mesh.specs.Topo.{is_provider_size};
ghost use Rattle.geo_taste.specs.Making.{both, with_built, AreBoth};
ghost use Rattle.geo_taste.specs.Standing.{CanStandOn};

use crate::offer::{Offer, make_offer};
use crate::raise::{NewGeom, raise};
use geo_base::{GeomId, NoMemory, ProvId};
use geo_class::Config;
use geo_event::EventQueue;
use geo_mesh::Topo;

/// Makes a geom over the providers, in order, and a provider of it that is offered for taste. The geom isn't
/// automatic. After `NoMemory` nothing changed.
pub fn build(
    topo: &mut Topo<Config>,
    queue: &mut EventQueue,
    geom: NewGeom,
    below: &[ProvId],
    offer: &Offer,
) -> Result<GeomId, NoMemory>
    requires stands { All (CanStandOn topo.old.topology) below.now }
    requires size { is_provider_size offer.now.size offer.now.sector ≡ true }
    requires free { is_name_taken topo.old.topology offer.now.name ≡ false }
    ensures number { IfOk result (λ id. id ≡ topo.old.topology.next_geom) }
    ensures built { OnOk result (AreBoth topo.new queue.new
        (with_built (both topo.old queue.old) geom.kind geom.name geom.config below.now
        offer.now.name offer.now.size offer.now.sector)) }
    ensures same { OnErr result (AreBoth topo.new queue.new (both topo.old queue.old)) }
    ensures spare { queue.old.spare ≤ queue.new.spare + 1 }
{
    topo.reserve(1, 1, below.len() as u64)?;
    queue.reserve(1)?;
    let id = raise(topo, geom, false, below);
    make_offer(topo, queue, id, offer);
    Ok(id)
}
