//! Walks over the parts of a geom and over the consumers at a provider, in order of numbers.
ghost use Rattle.std.specs.Prelude.{◌≡◌, ◌+◌, ◌<◌, ◌≤◌, [], MatchOption};
ghost use Rattle.geo_model.specs.Topology.{consumers_of, providers_of, attached_to};
ghost use Rattle.geo_mesh.specs.Graph.{IsSoundGraph};
ghost use Rattle.geo_slots.specs.Slots.{value_at};
ghost use Rattle.geo_laws_graph.specs.LookupLaws.{left_from};
ghost use Rattle.geo_access.specs.Views.{IsNextConsumer, IsNextProvider, want_at, have_at};

use geo_base::{ConsId, GeomId, ProvId};
use geo_mesh::{ConsRec, ProvRec, Topo};

/// The first consumer of the geom from a number on.
pub fn consumer_of<C>(topo: &Topo<C>, geom: GeomId, from: u64) -> Option<(ConsId, ConsRec)>
    ensures next { MatchOption result (left_from (λ y. y.number) from (consumers_of topo.now.topology geom) ≡ [])
        (λ m. IsNextConsumer topo.now.topology (consumers_of topo.now.topology geom) from m.0 m.1) }
    ensures sound { IsSoundGraph topo.now.topology }
    ensures want { MatchOption result (Unit {0}) (λ m. want_at topo.now m.0 ≡ m.1.want) }
{
    let id = topo.consumer_of(geom, from)?;
    let cons = topo.consumer(id)?;
    Some((id, *cons))
}

/// The first consumer attached to the provider from a number on.
pub fn consumer_at<C>(topo: &Topo<C>, prov: ProvId, from: u64) -> Option<(ConsId, ConsRec)>
    ensures next { MatchOption result (left_from (λ y. y.number) from (attached_to topo.now.topology prov) ≡ [])
        (λ m. IsNextConsumer topo.now.topology (attached_to topo.now.topology prov) from m.0 m.1) }
    ensures sound { IsSoundGraph topo.now.topology }
    ensures want { MatchOption result (Unit {0}) (λ m. want_at topo.now m.0 ≡ m.1.want) }
{
    let id = topo.attached_to(prov, from)?;
    let cons = topo.consumer(id)?;
    Some((id, *cons))
}

/// The first provider of the geom from a number on.
pub fn provider_of<C>(topo: &Topo<C>, geom: GeomId, from: u64) -> Option<(ProvId, ProvRec)>
    ensures next { MatchOption result (left_from (λ y. y.number) from (providers_of topo.now.topology geom) ≡ [])
        (λ m. IsNextProvider topo.now.topology (providers_of topo.now.topology geom) from m.0 m.1) }
    ensures sound { IsSoundGraph topo.now.topology }
    ensures have { MatchOption result (Unit {0}) (λ m. have_at topo.now m.0 ≡ m.1.have) }
{
    let id = topo.provider_of(geom, from)?;
    let prov = topo.provider(id)?;
    Some((id, *prov))
}
