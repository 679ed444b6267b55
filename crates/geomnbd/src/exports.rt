//! The exports: providers of the mesh by their names, each open under a handle of its own.
ghost use Rattle.geo_model.specs.Plans.{IsShortName};

use crate::due::settle;
use crate::stop::Stop;
use geo_base::{Counts, Name};
use geo_disk::Disk;
use geo_model::{Command, MeshList, ProvLine, ProvLines, Reply};
use geo_nbd::{
    EXPORT_HAS_FLAGS, EXPORT_SEND_FLUSH, EXPORT_SEND_FUA, EXPORT_SEND_TRIM,
    EXPORT_SEND_WRITE_ZEROES, Export,
};
use geo_serving::{Desk, MAX_EXPORTS, handle_of};
use std::sync::Wait;

/// What each export can do: FLUSH, FUA, TRIM and WRITE_ZEROES.
const FLAGS: u16 = EXPORT_HAS_FLAGS
    + EXPORT_SEND_FLUSH
    + EXPORT_SEND_FUA
    + EXPORT_SEND_TRIM
    + EXPORT_SEND_WRITE_ZEROES;

/// The provider of a name among those of a geom.
fn provider_in(providers: &ProvLines, name: &[u8]) -> Option<ProvLine> {
    for provider in providers.items() {
        if provider.name.bytes() == name {
            return Some(*provider);
        }
    }
    None
}

/// The provider of a name.
fn provider_of(lines: &MeshList, name: &[u8]) -> Option<ProvLine> {
    for geom in lines.items() {
        if let Some(provider) = provider_in(&geom.providers, name) {
            return Some(provider);
        }
    }
    None
}

/// Opens a provider to read and to write. Whether it is open.
fn open<D: Disk>(desk: &mut Desk<D>, handle: Name, provider: Name) -> bool
    requires { IsShortName handle }
{
    let _named = provider.bytes();
    let grant = Counts { r: 1, w: 1, e: 0 };
    let command = Command::Open {
        handle,
        provider,
        grant,
    };
    match desk.mesh.submit(0, command, 0) {
        Ok(Some(Reply::Ok)) => true,
        _ => false,
    }
}

/// The export of a provider that was opened, if it could be.
fn export_of<D: Disk>(desk: &mut Desk<D>, place: usize, name: &[u8]) -> Option<Export> {
    let lines = desk.mesh.session().listing(desk.alloc).ok()?;
    let provider = provider_of(&lines, name)?;
    drop(lines);
    if !open(desk, handle_of(place)?, provider.name) {
        return None;
    }
    Some(Export {
        name: provider.name,
        size: provider.size,
        sector: provider.sector,
        flags: FLAGS,
    })
}

/// A mesh and its exports.
#[derive(Drop)]
pub struct Offer<D> {
    pub desk: Desk<D>,
    pub exports: Vec<Export>,
}

/// The export of a name, open under the handle of its place. What opening sets going in the mesh is done.
fn offer_next<R: Wait, D: Disk>(
    rt: &R,
    desk: &mut Desk<D>,
    place: usize,
    name: &[u8],
) -> Result<Export, Stop> {
    let Some(export) = export_of(desk, place, name) else {
        return Err(Stop::NoExport {
            export: place.min(MAX_EXPORTS) as u32,
        });
    };
    settle(rt, desk)?;
    Ok(export)
}

/// The mesh with the exports of these names.
pub fn offered<R: Wait, D: Disk + Drop>(
    rt: &R,
    desk: Desk<D>,
    names: &[String],
) -> Result<Offer<D>, Stop> {
    let mut desk = desk;
    let mut exports = Vec::new(desk.alloc);
    for place in 0..names.len() {
        exports.push(offer_next(rt, &mut desk, place, names[place].as_str().as_bytes())?)?;
    }
    Ok(Offer { desk, exports })
}
