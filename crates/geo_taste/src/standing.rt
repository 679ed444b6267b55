//! The standing geom of an assembly, and whether a provider can take a place there (geom(4)).
ghost use Rattle.std.specs.Prelude.{◌≡◌, true, false, All, IfOk, IfSome, IsSomeAnd, IsTrue, option_map};
ghost use Rattle.std.specs.List.{list_all};
ghost use Rattle.std.specs.Option.{option_map_or};
ghost use Rattle.geo_model.specs.Acceptance.{standing_geom};
ghost use Rattle.geo_model.specs.Sound.{IsOfItsClass, fits_kind};
ghost use Rattle.geo_model.specs.Topology.{geom_at};
ghost use Rattle.geo_mesh.specs.Cells.{geom_seen};
ghost use Rattle.geo_mesh.specs.Graph.{IsSoundGraph};
ghost use Rattle.geo_taste.specs.Joining.{can_take, fits_sector, is_of_assembly};

use crate::member::Member;
use geo_base::{ConsId, GeomId, NoMemory};
use geo_class::Config;
use geo_mesh::{GeomRec, Topo};
use std::alloc::Global;

// Whether a geom is automatic, doesn't wither, and is of the member's assembly.
fn is_of_assembly(geom: &GeomRec<Config>, member: &Member) -> bool
    ensures { result ≡ is_of_assembly member.now.geom_name member.now.empty (geom_seen 0 geom.now) }
{
    geom.automatic
        && !geom.withering
        && geom.name.bytes() == member.geom_name.bytes()
        && geom.config.is_same_assembly(&member.empty)
}

// Whether the geom of a number is of the member's assembly.
fn is_at(topo: &Topo<Config>, id: GeomId, member: &Member) -> bool
    ensures { result ≡ option_map_or (is_of_assembly member.now.geom_name member.now.empty)
        (geom_at topo.now.topology id) false }
{
    match topo.geom(id) {
        Some(geom) => is_of_assembly(geom, member),
        None => false,
    }
}

/// The standing geom of the member's assembly, the one with the smallest number.
pub fn standing_geom(topo: &Topo<Config>, member: &Member) -> Option<GeomId>
    requires { IsTrue (fits_kind member.now.kind member.now.empty) }
    ensures found { IfSome result (λ id. IsSomeAnd (geom_at topo.now.topology id)
        (λ g. is_of_assembly member.now.geom_name member.now.empty g ≡ true)) }
    ensures first { All IsOfItsClass topo.now.topology.geoms
        → result ≡ option_map (λ g. g.number)
        (standing_geom topo.now.topology member.now.geom_name member.now.empty) }
    ensures sound { IsSoundGraph topo.now.topology }
{
    let mut from = 0;
    while let Some(id) = topo.next_named(member.kind, &member.geom_name, from) {
        if is_at(topo, id, member) {
            return Some(id);
        }
        from = id.number() + 1;
    }
    None
}

// Whether the consumer isn't attached, or its provider has sectors of so many bytes.
fn fits_sector(topo: &Topo<Config>, cons: ConsId, sector: u32) -> bool
    ensures { result ≡ fits_sector topo.now.topology sector cons }
{
    let Some(consumer) = topo.consumer(cons) else {
        return true;
    };
    let Some(prov) = consumer.prov else {
        return true;
    };
    match topo.provider(prov) {
        Some(provider) => provider.sector == sector,
        None => true,
    }
}

// Whether each of the consumers isn't attached, or its provider has sectors of so many bytes.
fn fit_sector(topo: &Topo<Config>, consumers: &[ConsId], sector: u32) -> bool
    ensures { result ≡ list_all (fits_sector topo.now.topology sector) consumers.now }
{
    consumers
        .iter()
        .all(|cons| fits_sector(topo, *cons, sector))
}

/// Whether a provider with sectors of `sector` bytes can take a place in an assembly: the place is free, and the
/// components there have the same sector size.
pub fn can_join(
    alloc: Global,
    topo: &Topo<Config>,
    config: &Config,
    place: u32,
    sector: u32,
) -> Result<bool, NoMemory>
    ensures { IfOk result (λ can. can ≡ can_take topo.now.topology sector config.now place) }
{
    if !config.is_free(place) {
        return Ok(false);
    }
    let consumers = config.components(alloc)?;
    Ok(fit_sector(topo, &consumers, sector))
}
