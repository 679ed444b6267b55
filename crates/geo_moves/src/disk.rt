//! What a request asks of its disk, and which answers fit it.
ghost use Rattle.std.specs.Prelude.{◌≡◌, ◌<◌, IfOk, IfSome, option_and_then};
ghost use Rattle.geo_model.specs.Bios.{disk_at, sector_at, fits_bio, device_request};
ghost use Rattle.geo_model.specs.World.{bio_among};
ghost use Rattle.geo_bio.specs.Rows.{as_bio};

use geo_base::{BioCmd, BioId, NoMemory, ProvId};
use geo_bio::Bio;
use geo_class::Config;
use geo_mesh::Topo;
use geo_model::{DeviceResult, Request};
use geo_state::Traffic;
use std::alloc::Global;

/// The size of a sector where none is known.
const SECTOR: u32 = 512;

/// The disk of a provider, if it is one of a DISK geom.
pub fn disk_at(topo: &Topo<Config>, prov: ProvId) -> Option<u32>
    ensures { result ≡ disk_at topo.now.topology prov }
{
    match topo.provider(prov) {
        Some(found) => match topo.geom(found.geom) {
            Some(geom) => geom.config.disk_of(),
            None => None,
        },
        None => None,
    }
}

/// The disk to which a bio goes.
pub fn disk_of(topo: &Topo<Config>, bios: &Traffic, bio: BioId) -> Option<u32>
    ensures { result ≡ option_and_then (λ x. disk_at topo.now.topology x.target) (bio_among bios.now.bios bio) }
{
    match bios.get(bio) {
        Some(found) => disk_at(topo, found.to),
        None => None,
    }
}

/// The sector size of a provider.
pub fn sector_at(topo: &Topo<Config>, prov: ProvId) -> u32
    ensures sector { result ≡ sector_at topo.now.topology prov }
    ensures some { 0 < result }
{
    match topo.provider(prov) {
        Some(found) => found.sector,
        None => SECTOR,
    }
}

/// Whether a device's answer fits a bio to a provider with sectors of so many bytes.
pub fn fits(sector: u32, bio: &Bio, got: &DeviceResult) -> bool
    requires { 0 < sector }
    ensures { result ≡ fits_bio sector (as_bio 0 bio.now) got.now }
{
    match got {
        DeviceResult::Bytes(bytes) => {
            bio.cmd == BioCmd::Read && bytes.len() as u64 == bio.span.len
        }
        DeviceResult::Done => bio.cmd != BioCmd::Read,
        DeviceResult::Failed { done } => fits_failed(sector, bio, *done),
    }
}

// Whether so many sectors of a bio may have been done before it failed.
fn fits_failed(sector: u32, bio: &Bio, done: u32) -> bool
    requires { 0 < sector }
    ensures { result ≡ fits_bio sector (as_bio 0 bio.now) (DeviceResult.Failed done) }
{
    match bio.cmd {
        BioCmd::Read | BioCmd::Flush => done == 0,
        BioCmd::Write | BioCmd::Delete => u64::from(done) <= bio.span.len / u64::from(sector),
    }
}

/// What a bio asks of its disk, with a copy of its bytes. Sectors that can't be counted are told as want of memory.
pub fn request_of(
    alloc: Global,
    topo: &Topo<Config>,
    bios: &Traffic,
    disk: u32,
    bio: BioId,
) -> Result<Request, NoMemory>
    ensures { IfSome (bio_among bios.now.bios bio) (λ x. IfOk result (λ request.
        request ≡ device_request disk (sector_at topo.now.topology x.target) x)) }
{
    let Some(found) = bios.get(bio) else {
        return Err(NoMemory);
    };
    let sector = u64::from(sector_at(topo, found.to));
    let count = found.span.len / sector;
    if count > u64::from(u32::MAX) {
        return Err(NoMemory);
    }
    Ok(Request {
        disk,
        cmd: found.cmd,
        first: found.span.offset / sector,
        count: count as u32,
        bytes: found.bytes.copy(alloc)?,
    })
}
