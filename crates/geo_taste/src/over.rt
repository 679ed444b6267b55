//! Which classes have a geom over a provider.
ghost use Rattle.std.specs.Prelude.{◌≡◌, ◌<◌, ◌≤◌, [], MatchOption};
ghost use Rattle.geo_model.specs.Words.{is_kind};
ghost use Rattle.geo_model.specs.Tasting.{is_attached_class};
ghost use Rattle.geo_mesh.specs.Graph.{IsSoundGraph};
ghost use Rattle.geo_mesh.specs.Topo.{first_consumer};
ghost use Rattle.geo_laws_graph.specs.LookupLaws.{left_from};
ghost use Rattle.geo_access.specs.Views.{IsNextConsumer};
ghost use Rattle.geo_taste.specs.Over.{over, stands_as};

use geo_base::{ConsId, GeomId, Kind, ProvId};
use geo_class::Config;
use geo_mesh::{ConsRec, Topo};

/// Whether the class has a geom over the provider already that isn't withering.
pub fn is_attached(topo: &Topo<Config>, kind: Kind, prov: ProvId) -> bool
    ensures { result ≡ is_attached_class topo.now.topology kind prov }
{
    let mut from = 0;
    while let Some((id, cons)) = consumer_over(topo, kind, prov, from) {
        if stands_as(topo, kind, cons.geom) {
            return true;
        }
        from = id.number() + 1;
    }
    false
}

// Whether the geom stands, is of the class and isn't withering.
fn stands_as(topo: &Topo<Config>, kind: Kind, geom: GeomId) -> bool
    ensures { result ≡ stands_as topo.now.topology kind geom }
{
    match topo.geom(geom) {
        Some(found) => is_kind(found.kind, kind) && !found.withering,
        None => false,
    }
}

// Whether two classes are the same.
fn is_kind(a: Kind, b: Kind) -> bool
    ensures { result ≡ is_kind a b }
{
    a == b
}

// The first consumer at the provider from a number on that may be of a geom of the class.
fn consumer_over(
    topo: &Topo<Config>,
    kind: Kind,
    prov: ProvId,
    from: u64,
) -> Option<(ConsId, ConsRec)>
    ensures next { MatchOption result (left_from (λ y. y.number) from (over topo.now.topology kind prov) ≡ [])
        (λ m. IsNextConsumer topo.now.topology (over topo.now.topology kind prov) from m.0 m.1) }
    ensures sound { IsSoundGraph topo.now.topology }
{
    let id = next_over(topo, kind, prov, from)?;
    let cons = topo.consumer(id)?;
    Some((id, *cons))
}

// Its number. Handles, of which there may be many at a provider, are looked at for DEV alone.
fn next_over(topo: &Topo<Config>, kind: Kind, prov: ProvId, from: u64) -> Option<ConsId>
    ensures first { result ≡ first_consumer (over topo.now.topology kind prov) from }
    ensures sound { IsSoundGraph topo.now.topology }
{
    if is_kind(kind, Kind::Dev) {
        topo.attached_to(prov, from)
    } else {
        topo.above(prov, from)
    }
}
