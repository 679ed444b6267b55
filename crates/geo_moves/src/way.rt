//! Which way a request goes down.
ghost use Rattle.std.specs.Prelude.{◌≡◌, None, Some, IfOk};
ghost use Rattle.geo_model.specs.Bios.{way_of, way_at};
ghost use Rattle.geo_model.specs.Place.{disk_of};
ghost use Rattle.geo_model.specs.Topology.{geom_at};
ghost use Rattle.geo_bio.specs.Rows.{as_bio};
ghost use Rattle.geo_mesh.specs.Cells.{geom_seen, provider_seen};
ghost use Rattle.geo_moves.specs.Ways.{CanBeCut, CanGoDown, IsModelWay, at_nop};

use crate::cut::{Cut, cut_bio};
use geo_base::{Errno, GeomId, NoMemory};
use geo_bio::Bio;
use geo_class::Config;
use geo_class::nop::hits;
use geo_mesh::{GeomRec, ProvRec, Topo};
use std::alloc::Global;

/// More requests than so many can't be counted at a NOP geom.
const MOST_STARTED: u64 = 0x4000_0000_0000_0000;

/// Which way a request goes down: back with an error, back as one that a NOP geom counts and fails, to its disk, in
/// pieces, or in pieces through a NOP geom, which counts it.
#[derive(Debug, Drop)]
pub enum Way {
    Bounces(Errno),
    Fails(GeomId),
    Sends(u32),
    Splits(Cut),
    Passes(GeomId, Cut),
}

/// The way of a request by the graph.
pub fn way_of(alloc: Global, topo: &Topo<Config>, bio: &Bio) -> Result<Way, NoMemory>
    requires { CanGoDown topo.now.topology (as_bio 0 bio.now) }
    ensures { IfOk result (λ way. IsModelWay topo.now.topology way (way_of topo.now.topology (as_bio 0 bio.now))) }
{
    let Some(prov) = topo.provider(bio.to) else {
        return Ok(Way::Bounces(Errno::EIO));
    };
    if prov.errored {
        return Ok(Way::Bounces(Errno::ENXIO));
    }
    match topo.geom(prov.geom) {
        Some(geom) => way_at(alloc, topo, prov, geom, bio),
        None => Ok(Way::Bounces(Errno::EIO)),
    }
}

// The way of a request at a geom's provider.
fn way_at(
    alloc: Global,
    topo: &Topo<Config>,
    prov: &ProvRec,
    geom: &GeomRec<Config>,
    bio: &Bio,
) -> Result<Way, NoMemory>
    requires cut { disk_of geom.now.config ≡ None
        → CanBeCut geom.now.config (provider_seen bio.now.to prov.now) (as_bio 0 bio.now) }
    requires found { geom_at topo.now.topology prov.now.geom ≡ Some (geom_seen prov.now.geom geom.now) }
    ensures { IfOk result (λ way. IsModelWay topo.now.topology way (way_at (as_bio 0 bio.now)
        (provider_seen bio.now.to prov.now) (geom_seen prov.now.geom geom.now) geom.now.config)) }
{
    if let Some(disk) = geom.config.disk_of() {
        return Ok(Way::Sends(disk));
    }
    match geom.config.fail() {
        Some(fail) => way_at_nop(alloc, topo, prov, geom, bio, fail),
        None => Ok(Way::Splits(cut_bio(alloc, topo, &geom.config, prov, bio)?)),
    }
}

// The way of a request at a NOP geom, by which requests it fails. Where it can't be counted memory is wanting.
fn way_at_nop(
    alloc: Global,
    topo: &Topo<Config>,
    prov: &ProvRec,
    geom: &GeomRec<Config>,
    bio: &Bio,
    fail: u64,
) -> Result<Way, NoMemory>
    requires cut { CanBeCut geom.now.config (provider_seen bio.now.to prov.now) (as_bio 0 bio.now) }
    requires found { geom_at topo.now.topology prov.now.geom ≡ Some (geom_seen prov.now.geom geom.now) }
    ensures { IfOk result (λ way. IsModelWay topo.now.topology way (at_nop (as_bio 0 bio.now)
        (provider_seen bio.now.to prov.now) (geom_seen prov.now.geom geom.now) fail)) }
{
    if geom.started >= MOST_STARTED {
        return Err(NoMemory);
    }
    if hits(geom.started + 1, fail) {
        return Ok(Way::Fails(prov.geom));
    }
    let cut = cut_bio(alloc, topo, &geom.config, prov, bio)?;
    Ok(Way::Passes(prov.geom, cut))
}
