//! What the words of commands name.
ghost use Rattle.std.specs.Prelude.{◌≡◌, ◌&&◌, false, not, [], None, MatchOption, find, option_map, if◌then◌else◌};
ghost use Rattle.std.specs.Option.{option_map_or};
ghost use Rattle.geo_base.specs.declared.kind.Kind.TheVariants as kinds;
ghost use Rattle.geo_model.specs.Words.{is_kind, same_name};
ghost use Rattle.geo_model.specs.Topology.{geom_at, providers_of};
ghost use Rattle.geo_model.specs.Append.{growing_concat};
ghost use Rattle.geo_mesh.specs.Topo.{first_provider};
ghost use Rattle.geo_moves.specs.Names.{IsNextNamed, growing_seen, named_from, stands};

use geo_base::{GeomId, Kind, Name, ProvId};
use geo_class::Config;
use geo_mesh::Topo;

/// A concat that may grow, and its provider.
#[derive(Clone, Copy, Debug)]
pub struct Growing {
    pub geom: GeomId,
    pub prov: ProvId,
}

// The next geom of the class and of the name, from a number on.
fn named_from(topo: &Topo<Config>, kind: Kind, name: &Name, from: u64) -> Option<GeomId>
    ensures next { MatchOption result (named_from topo.now.topology kind name.now from ≡ [])
        (λ n. IsNextNamed topo.now.topology kind name.now from n) }
{
    topo.next_named(kind, name, from)
}

/// Whether the geom is there and doesn't wither.
pub fn is_standing(topo: &Topo<Config>, geom: GeomId) -> bool
    ensures { result ≡ option_map_or stands (geom_at topo.now.topology geom) false }
{
    match topo.geom(geom) {
        Some(found) => !found.withering,
        None => false,
    }
}

/// The geom of the class and of the name that doesn't wither, the one with the smallest number.
pub fn named_geom(topo: &Topo<Config>, kind: Kind, name: &Name) -> Option<GeomId>
    ensures { result ≡ option_map (λ g. g.number)
        (find (λ g. is_kind g.kind kind && (not g.withering && same_name g.name name.now)) topo.now.topology.geoms) }
{
    let mut from = 0;
    while let Some(id) = named_from(topo, kind, name, from) {
        if is_standing(topo, id) {
            return Some(id);
        }
        from = id.number() + 1;
    }
    None
}

// The first provider of a geom that is there and doesn't wither.
fn offered(topo: &Topo<Config>, geom: GeomId) -> Option<ProvId>
    ensures { result ≡ (if option_map_or stands (geom_at topo.now.topology geom) false
        then first_provider (providers_of topo.now.topology geom) 0 else None) }
{
    if is_standing(topo, geom) {
        topo.provider_of(geom, 0)
    } else {
        None
    }
}

/// The CONCAT geom of the name that doesn't wither and has a provider, the one with the smallest number.
pub fn growing_concat(topo: &Topo<Config>, name: &Name) -> Option<Growing>
    ensures { result ≡ option_map growing_seen (growing_concat topo.now.topology name.now) }
{
    let mut from = 0;
    while let Some(geom) = named_from(topo, Kind::Concat, name, from) {
        if let Some(prov) = offered(topo, geom) {
            return Some(Growing { geom, prov });
        }
        from = geom.number() + 1;
    }
    None
}
