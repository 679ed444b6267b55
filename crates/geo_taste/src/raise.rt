//! A geom with its consumers, attached to the providers below it.
ghost use Rattle.std.specs.Prelude.{◌≡◌, ◌+◌, ◌≤◌, [], length, IsSome, All};
ghost use Rattle.std.specs.List.{AllByRecursion};
ghost use Rattle.geo_model.specs.Topology.{geom_at, providers_of};
ghost use Rattle.geo_mesh.specs.Graph.{IsSoundGraph};
ghost use Rattle.geo_mesh.specs.Topo.{IsButForRoom};
ghost use Rattle.geo_taste.specs.Making.{with_attached, with_all_attached, with_geom_on};
ghost use Rattle.geo_taste.specs.Standing.{CanStandOn, MayOffer};

use geo_base::{GeomId, Kind, Name, ProvId};
use geo_class::Config;
use geo_mesh::Topo;

/// A geom to be made: its class, its name and its configuration.
#[derive(Debug, Drop)]
pub struct NewGeom {
    pub kind: Kind,
    pub name: Name,
    pub config: Config,
}

/// Makes a consumer of a geom that has no provider, attached to a provider, in room that was kept.
pub fn attach_one(topo: &mut Topo<Config>, geom: GeomId, prov: ProvId)
    requires room { 1 ≤ topo.old.room.consumers }
    requires lives { IsSome (geom_at topo.old.topology geom) }
    requires bare { providers_of topo.old.topology geom ≡ [] }
    requires stands { CanStandOn topo.old.topology prov }
    ensures attached { IsButForRoom topo.new (with_attached topo.old geom prov) }
    ensures sound { IsSoundGraph topo.old.topology }
    ensures room { topo.old.room.consumers ≤ topo.new.room.consumers + 1 }
    ensures other_room { topo.new.room ≡ record topo.old.room { consumers = topo.new.room.consumers } }
{
    let cons = topo.coming_consumer();
    let Ok(_) = topo.new_consumer(geom) else {
        unreachable!()
    };
    let Ok(_) = topo.attach(cons, prov) else {
        unreachable!()
    };
}

/// Makes a consumer of a geom that has no provider at each of the providers, in room that was kept.
pub fn attach_all(topo: &mut Topo<Config>, geom: GeomId, provs: &[ProvId])
    requires room { length provs.now ≤ topo.old.room.consumers }
    requires lives { IsSome (geom_at topo.old.topology geom) }
    requires bare { providers_of topo.old.topology geom ≡ [] }
    requires stand { AllByRecursion (CanStandOn topo.old.topology) provs.now }
    ensures attached { IsButForRoom topo.new (with_all_attached topo.old geom provs.now) }
    ensures other_room { topo.new.room ≡ record topo.old.room { consumers = topo.new.room.consumers } }
{
    for prov in provs {
        attach_one(topo, geom, *prov);
    }
}

/// Makes a geom with a consumer at each of the providers, in order, in room that was kept.
pub fn raise(topo: &mut Topo<Config>, geom: NewGeom, automatic: bool, provs: &[ProvId]) -> GeomId
    requires room { 1 ≤ topo.old.room.geoms }
    requires more_room { length provs.now ≤ topo.old.room.consumers }
    requires stand { All (CanStandOn topo.old.topology) provs.now }
    ensures number { result ≡ topo.old.topology.next_geom }
    ensures raised { IsButForRoom topo.new
        (with_geom_on topo.old geom.kind geom.name geom.config automatic provs.now) }
    ensures other_room { topo.new.room.providers ≡ topo.old.room.providers }
    ensures may { MayOffer topo.new.topology result }
{
    let Ok(id) = topo.new_geom(geom.kind, geom.name, geom.config, automatic) else {
        unreachable!()
    };
    attach_all(topo, id, provs);
    id
}
